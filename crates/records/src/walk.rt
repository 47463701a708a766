// The field walk: the fields of a borrowed record, one by one, by a cursor that is passed by value.
ghost use Rattle.std.specs.Prelude.{◌≡◌, ◌+◌, ◌-◌, ◌*◌, ◌≤◌, length};
ghost use Rattle.octets.specs.Answers.{Answered, answer_number};
ghost use Rattle.tables.specs.Table.{key_octets};
ghost use Rattle.records.specs.Record.{record_answer};
ghost use Rattle.records.specs.Walk.{signed_at, value_at, next_key, step_under, step_judged, step_of, StepFrom};
ghost use Rattle.records.specs.Walk.{Exact, open_of};

use field_types::field_type::FieldType;
use octets::{OctetOrder, Refusal};
use tables::table::Template;

// The value of a field: octets where it is no number, a number, or a number below 0 by its size.
#[derive(Clone, Copy, Debug, PartialEq, Eq)]
pub enum Value {
    Octets,
    Number(u64),
    Negative(u64),
}

// A field of a record: the number of its type, the place of its first octet, how many octets it has with its length or zero, its value.
#[derive(Clone, Copy, Debug, PartialEq, Eq)]
pub struct Field {
    pub kind: u16,
    pub at: usize,
    pub len: usize,
    pub value: Value,
}

// Where a walk stands: the next key of the template, and the place in the record where the next field begins.
#[derive(Clone, Copy, Debug, PartialEq, Eq)]
pub struct Cursor {
    pub index: usize,
    pub at: usize,
}

// The two's complement number in the w octets at a place, in an order.
fn signed_at(order: OctetOrder, r: &[u8], at: usize, w: usize) -> Value
    requires { (1 ≤ w) × (w ≤ 8) }
    ensures { result ≡ signed_at order r.now at w }
{
    let n = octets::get_uint(order, r, at, w);
    let most = octets::greatest(w);
    if n <= most / 2 {
        return Value::Number(n);
    }
    Value::Negative(most - n + 1)
}

// The value of the field of a type at a place, under a table of an octet order.
fn value_at(order: OctetOrder, kind: u16, r: &[u8], at: usize) -> Value
    ensures { result ≡ value_at order kind r.now at }
{
    let field_type = FieldType { number: kind };
    if !field_type.is_number() {
        return Value::Octets;
    }
    let width = field_type.width() as usize;
    let field_order = field_type.field_order(order);
    if field_type.is_signed() {
        return signed_at(field_order, r, at, width);
    }
    Value::Number(octets::get_uint(field_order, r, at, width))
}

// The first enabled key of a template from a key on; its count or more where there is none.
fn next_key(t: &[u8], m: Template, index: usize) -> usize
    requires { m.keys + key_octets * m.count ≤ length t.now }
    ensures { result ≡ next_key t.now m index }
{
    for k in index..m.count {
        if crate::record::is_enabled(t, m, k) {
            return k;
        }
    }
    index.max(m.count)
}

// A step under a template.
fn step_under(
    t: &[u8],
    m: Template,
    r: &[u8],
    c: Cursor,
) -> Result<Option<(Field, Cursor)>, Refusal>
    requires { m.keys + key_octets * m.count ≤ length t.now }
    ensures { result ≡ step_under t.now m r.now c }
{
    let at = c.at;
    let k = next_key(t, m, c.index);
    if m.count <= k {
        return Ok(None);
    }
    let kind = crate::record::kind_of(t, m, k);
    let order = tables::table::order_of(t[tables::table::FLAGS_AT]);
    let len = crate::record::field_length(order, kind, r, at);
    if len == 0 {
        return Err(Refusal::RecordInvalid);
    }
    let value = value_at(order, kind, r, at);
    let field = Field {
        kind,
        at,
        len,
        value,
    };
    let next = Cursor {
        index: k + 1,
        at: at + len,
    };
    Ok(Some((field, next)))
}

// Opens a walk over a record under the template with an ID: 21, 15 or 16 as for the whole record, or the walk's start.
pub fn open_walk(t: &[u8], id: u16, r: &[u8]) -> Result<Cursor, Refusal>
    ensures { Answered answer_number result (open_of t.now id r.now)
        (record_answer t.now id r.now) }
{
    // Both are lent anew, since to pass parameters on would copy them first.
    crate::record::check_record(&t[..], id, &r[..])?;
    Ok(Cursor { index: 0, at: 0 })
}

// The field at a cursor and the cursor after it; none where no enabled key is left; 21, 15, or 16 for a field that is not valid.
pub fn step_walk(t: &[u8], id: u16, r: &[u8], c: Cursor) -> Result<Option<(Field, Cursor)>, Refusal>
    ensures { Answered answer_number result (step_of t.now id r.now c)
        (step_judged t.now id r.now c) × Exact t.now r.now result }
{
    // `&t[..]` lends the table anew: to pass the parameter on would copy it first.
    let template = tables::table::find_template(&t[..], id)?;
    step_under(t, template, r, c)
}

// A step from where an opening stands; what it was refused with again where it was refused.
pub fn step_from<E: From<Refusal>>(
    t: &[u8],
    id: u16,
    r: &[u8],
    place: Result<Cursor, E>,
) -> Result<Option<(Field, Cursor)>, E>
    ensures { StepFrom E.from_gives t.now id r.now place result × Exact t.now r.now result }
{
    Ok(step_walk(t, id, r, place?)?)
}
