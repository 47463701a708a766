// The field walk and appending a field.
ghost use Rattle.std.specs.Prelude.{◌≡◌, slice_index};
ghost use Rattle.octets.specs.Answers.{answer_number};
ghost use Rattle.wire.specs.Walk.{open_of, step_of};
ghost use Rattle.wire.specs.Count.{count_of};
ghost use Rattle.exports.specs.Numbers.{value_sort, value_size, field_parts, step_part, value_of, carried_number};
ghost use Rattle.exports.specs.Numbers.{append_under, append_under_out};

use crate::parts::{carried_number, one_of, sole_part};
use octets::{DONE, Refusal, answer_number};
use wire::walk::{Cursor, Field, Value};

// The answer that stands for the end of a walk, for C.
pub const END: u64 = 255;

// The sorts of a value, for C: octets, a number, a number below 0.
pub const OCTETS: u8 = 0;

pub const NUMBER: u8 = 1;

pub const NEGATIVE: u8 = 2;

// 0 where a walk over a record can begin, else 21, 15 or 16.
pub fn crane_open_answer(table: &[u8], id: u16, r: &[u8]) -> u8
    ensures { result ≡ answer_number (open_of table.now id r.now) }
{
    answer_number(&wire::walk::open_walk(table, id, r))
}

// How many fields a record has plus 256, counted through a reader, or 21, 15 or 16.
pub fn crane_count_fields(table: &[u8], id: u16, r: &[u8]) -> u64
    ensures { result ≡ carried_number (count_of table.now id r.now) }
{
    carried_number(wire::reader::count_fields(table, id, r))
}

// The sort of a value.
fn value_sort(value: Value) -> u8
    ensures { result ≡ value_sort value }
{
    match value {
        Value::Octets => OCTETS,
        Value::Number(_) => NUMBER,
        Value::Negative(_) => NEGATIVE,
    }
}

// The size of a value that is a number, 0 for octets.
fn value_size(value: Value) -> u64
    ensures { result ≡ value_size value }
{
    match value {
        Value::Octets => 0,
        Value::Number(n) => n,
        Value::Negative(n) => n,
    }
}

// A part of a field and the cursor after it, by its number.
fn field_part(part: u8, f: Field, c: Cursor) -> u64
    ensures { result ≡ slice_index (field_parts f c) part }
{
    let parts = [
        DONE as u64,
        f.kind as u64,
        f.at as u64,
        f.len as u64,
        value_sort(f.value) as u64,
        value_size(f.value),
        c.index as u64,
        c.at as u64,
    ];
    one_of(part, parts)
}

// A part of what a step of the field walk answers, by its number: 0 the answer, and of a field 1 its type, 2 its place, 3 its length, 4 and
// 5 its value's sort and size, 6 and 7 the next cursor's index and place.
pub fn crane_step_part(table: &[u8], id: u16, r: &[u8], index: usize, at: usize, part: u8) -> u64
    ensures { result ≡ step_part part (step_of table.now id r.now (record { index = index; at = at })) }
{
    match wire::walk::step_walk(table, id, r, Cursor { index, at }) {
        Ok(Some((f, c))) => field_part(part, f, c),
        Ok(None) => sole_part(part, END),
        Err(refusal) => sole_part(part, refusal.number() as u64),
    }
}

// The value that a sort and a number stand for: octets for any other sort.
fn value_of(sort: u8, number: u64) -> Value
    ensures { result ≡ value_of sort number }
{
    if sort == NUMBER {
        return Value::Number(number);
    }
    if sort == NEGATIVE {
        return Value::Negative(number);
    }
    Value::Octets
}

// Appends the field of a type that holds a value, under a table of given flags, at a place of the output: the place after it plus 256, or
// 21 for flags that no table has, 16 or 12.
pub fn crane_append(
    flags: u8,
    kind: u16,
    sort: u8,
    number: u64,
    octets: &[u8],
    out: &mut [u8],
    at: usize,
) -> u64
    ensures { (result ≡ append_under flags kind (value_of sort number) octets.now out.old at)
        × (out.new ≡ append_under_out flags kind (value_of sort number) octets.now out.old at) }
{
    if !wire::table::flags_sound(flags) {
        return Refusal::UnsoundTable.number() as u64;
    }
    carried_number(wire::append::append(
        wire::table::order_of(flags),
        kind,
        value_of(sort, number),
        octets,
        out,
        at,
    ))
}
