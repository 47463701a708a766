// Template tables and records, judged, and templates found.
ghost use Rattle.std.specs.Prelude.{◌≡◌, slice_index};
ghost use Rattle.wire.specs.Table.{find_of};
ghost use Rattle.wire.specs.Record.{record_answer};
ghost use Rattle.exports.specs.Numbers.{table_form_answer, template_parts, found_part};

use crate::parts::{one_of, sole_part};
use octets::{DONE, Refusal, answer_number};
use wire::table::Template;

// 0 for a sound template table, else 21.
pub fn crane_table_answer(table: &[u8]) -> u8
    ensures { result ≡ table_form_answer table.now }
{
    if wire::table::table_sound(table) {
        return DONE;
    }
    Refusal::UnsoundTable.number()
}

// 0 for a valid record under the template with an ID, else 21, 15 or 16.
pub fn crane_record_answer(table: &[u8], id: u16, r: &[u8]) -> u8
    ensures { result ≡ record_answer table.now id r.now }
{
    answer_number(&wire::record::check_record(table, id, r))
}

// A part of a template that was found, by its number.
fn template_part(part: u8, m: Template) -> u64
    ensures { result ≡ slice_index (template_parts m) part }
{
    one_of(part, [DONE as u64, m.keys as u64, m.count as u64])
}

// A part of what finding the template with an ID answers, by its number: 0 the answer, and of a template 1 the place of its first key
// block, 2 how many key blocks it has.
pub fn crane_find_part(table: &[u8], id: u16, part: u8) -> u64
    ensures { result ≡ found_part part (find_of table.now id) }
{
    match wire::table::find_template(table, id) {
        Ok(m) => template_part(part, m),
        Err(refusal) => sole_part(part, refusal.number() as u64),
    }
}
