// The functions of `exports` that a C or Rust program links, under the same names and with the same clauses. A crate that other crates use
// is no static library, so they are exported here.
#![tactic(auto)]

ghost use Rattle.std.specs.Prelude.{◌≡◌};
ghost use Rattle.octets.specs.Answers.{answer_number};
ghost use Rattle.wire.specs.Count.{count_of};
ghost use Rattle.wire.specs.Messages.{read_of, part_at, part_of};
ghost use Rattle.wire.specs.Record.{record_answer};
ghost use Rattle.wire.specs.Table.{find_of};
ghost use Rattle.wire.specs.Walk.{open_of, step_of};
ghost use Rattle.exports.specs.Numbers.{table_form_answer, found_part, again_part, again_out, step_part, value_of, carried_number};
ghost use Rattle.exports.specs.Numbers.{append_under, append_under_out};

// 0 for a sound template table, else 21.
#[unsafe(no_mangle)]
pub extern "C" fn crane_table_answer(table: &[u8]) -> u8
    ensures { result ≡ table_form_answer table.now }
{
    exports::table_calls::crane_table_answer(table)
}

// 0 for a valid record under the template with an ID, else 21, 15 or 16.
#[unsafe(no_mangle)]
pub extern "C" fn crane_record_answer(table: &[u8], id: u16, r: &[u8]) -> u8
    ensures { result ≡ record_answer table.now id r.now }
{
    exports::table_calls::crane_record_answer(table, id, r)
}

// A part of what finding the template with an ID answers, by its number: 0 the answer, and of a template 1 the place of its first key
// block, 2 how many key blocks it has.
#[unsafe(no_mangle)]
pub extern "C" fn crane_find_part(table: &[u8], id: u16, part: u8) -> u64
    ensures { result ≡ found_part part (find_of table.now id) }
{
    exports::table_calls::crane_find_part(table, id, part)
}

// 0 where a walk over a record can begin, else 21, 15 or 16.
#[unsafe(no_mangle)]
pub extern "C" fn crane_open_answer(table: &[u8], id: u16, r: &[u8]) -> u8
    ensures { result ≡ answer_number (open_of table.now id r.now) }
{
    exports::fields::crane_open_answer(table, id, r)
}

// How many fields a record has plus 256, counted through a reader, or 21, 15 or 16.
#[unsafe(no_mangle)]
pub extern "C" fn crane_count_fields(table: &[u8], id: u16, r: &[u8]) -> u64
    ensures { result ≡ carried_number (count_of table.now id r.now) }
{
    exports::fields::crane_count_fields(table, id, r)
}

// A part of what a step of the field walk answers, by its number: 0 the answer, and of a field 1 its type, 2 its place, 3 its length, 4 and
// 5 its value's sort and size, 6 and 7 the next cursor's index and place.
#[unsafe(no_mangle)]
pub extern "C" fn crane_step_part(
    table: &[u8],
    id: u16,
    r: &[u8],
    index: usize,
    at: usize,
    part: u8,
) -> u64
    ensures { result ≡ step_part part (step_of table.now id r.now (record { index = index; at = at })) }
{
    exports::fields::crane_step_part(table, id, r, index, at, part)
}

// Appends the field of a type that holds a value, under a table of given flags, at a place of the output: the place after it plus 256, or
// 21 for flags that no table has, 16 or 12.
#[unsafe(no_mangle)]
pub extern "C" fn crane_append(
    flags: u8,
    kind: u16,
    sort: u8,
    number: u64,
    octets: &[u8],
    out: &mut [u8],
    at: usize,
) -> u64
    ensures { (result ≡ append_under flags kind (value_of sort number) octets.now out.old at)
        × (out.new ≡ append_under_out flags kind (value_of sort number) octets.now out.old at) }
{
    exports::fields::crane_append(flags, kind, sort, number, octets, out, at)
}

// Reads a message alone and, where it can be read, writes what it says with its part to the output. Answers a part of what was read and
// written, by its number: 0 how many octets were written plus 256, or the reading's or else the writing's refusal; 1 and 2 the place and
// the length of the part that the message carries, 3 its number, 4 its session, 5 its Configuration ID, 6 its boot time or DSN, 7 its
// template ID, 8 and 9 its flags S and D; 0 for what it does not say, and for what could not be read.
#[unsafe(no_mangle)]
pub extern "C" fn crane_read_again(message: &[u8], out: &mut [u8], part: u8) -> u64
    ensures { (result ≡ again_part part (part_at message.now) (part_of message.now)
        out.old (read_of message.now))
        × (out.new ≡ again_out (part_of message.now) out.old (read_of message.now)) }
{
    exports::message_calls::crane_read_again(message, out, part)
}
