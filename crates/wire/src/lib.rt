// CRANE's messages, template tables and records (RFC 3423), for exporter and collector alike, under one name. It is the crate on whose
// promises both sides rest: nothing above it reads or writes an octet of a message, a table or a record by itself.
//
// A table, a record and a message are borrowed octets; nothing is copied, allocated or kept. Every function takes any octets and any
// numbers and never traps. One that can refuse answers the first refusal that applies (`octets::Refusal`), and a refusal changes nothing.
//
// How a collector drives it, message by message:
// 1. `read::read_message` says what the octets mean, or 3, 4, 5, 7, 8 or 21; `read::message_part` is the part that they carry, a TMPL
//    DATA's table or a DATA's record, as a part of the same octets. `read::read_header` alone gives session and number, for who judges
//    those first.
// 2. `table::table_sound`, `table::configuration_id` and `table::find_template` judge a table and find a template in it;
//    `table::table_order` says the octet order of its record data.
// 3. `record::check_record` judges a DATA's record under its template: 21, 15 or 16.
// 4. `walk::open_walk`, then `walk::step_walk` with the cursor that each step gives, until it answers `None`: every field's type, place,
//    length and value. `reader::Reader` holds the record and the cursor together; `reader::count_fields` counts.
// And to write:
// 5. `append::append` puts one value of a named type, in the octet order of its table, at a place of the output and answers the place
//    behind it: so a record is made, field by field.
// 6. `write::write_message` writes a whole message from the output's first octet on and answers how many octets it has;
//    `write::write_data_head` a DATA's first 16 octets alone, for a record that the caller puts behind them.
//
// The types that matter: `message::Message` (what a message says), `table::Template` (where a template's key blocks lie), `walk::Field` and
// `walk::Cursor`. What is written reads back as the same meaning: specs/Demand2.antt. Record data under both octet orders, in octets:
// specs/OrderExamples.antt.
//
// Nothing else is declared here. A crate that makes, matches or passes on a struct or enum lists, beside this one, the crate that declares
// it (`numbers`, `field_types`, `tables`, `records`, `readers`, `appending`, `headers`, `messages`): the checker asks for it. Its text
// names `wire` alone, and `octets` for the octet order and the refusals.
#![tactic(auto)]

pub use appending::append;
pub use field_types::field_type;
pub use headers::header;
pub use messages::message;
pub use readers::reader;
pub use reading::read;
pub use records::{record, walk};
pub use tables::table;
pub use writing::write;
