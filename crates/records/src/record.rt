// Records: the length of a field, and whether octets are a valid record under a template.
ghost use Rattle.std.specs.Prelude.{◌≡◌, ◌+◌, ◌-◌, ◌*◌, ◌≤◌, ◌<◌, eqb, length, get_or};
ghost use Rattle.octets.specs.Answers.{Answered, answer_number, judged};
ghost use Rattle.octets.specs.Each.{first_from};
ghost use Rattle.tables.specs.Table.{key_octets, key_at, key_type, is_enabled};
ghost use Rattle.field_types.specs.FieldTypes.{width_of};
ghost use Rattle.records.specs.Record.{fixed_length, blob_length, string_length, terminated_length, field_length, length_under};
ghost use Rattle.records.specs.Record.{record_valid, record_answer};

use field_types::field_type::FieldType;
use octets::{OctetOrder, Refusal};
use tables::table::{FLAGS_AT, KEY_ATTRIBUTES_AT, KEY_OCTETS, KEY_TYPE_AT, Template};

// The octets of the 32-bit length in front of a string or blob.
pub const LENGTH_OCTETS: usize = 4;

// The length of the field of a type of a fixed width at a place, 0 where none is valid there. Here and below 0 and no `Option`: no field
// has the length 0, and the definitions say it so.
fn fixed_length(kind: u16, width: usize, r: &[u8], at: usize) -> usize
    requires { (width ≡ width_of kind) × (0 < width) }
    ensures { result ≡ fixed_length kind r.now at }
{
    if r.len().saturating_sub(at) < width {
        return 0;
    }
    if kind != FieldType::BOOLEAN {
        return width;
    }
    if 1 < r[at] {
        return 0;
    }
    width
}

// The length of the blob at a place whose 32-bit length has an order, 0 where none is valid there.
fn blob_length(order: OctetOrder, r: &[u8], at: usize) -> usize
    ensures { result ≡ blob_length order r.now at }
{
    if r.len().saturating_sub(at) < LENGTH_OCTETS {
        return 0;
    }
    let n = crate::within::u32_in(order, r, at) as usize;
    if r.len().saturating_sub(at + LENGTH_OCTETS) < n {
        return 0;
    }
    LENGTH_OCTETS + n
}

// The length of the string at a place whose 32-bit length has an order, 0 where none is valid there.
fn string_length(order: OctetOrder, r: &[u8], at: usize) -> usize
    ensures { result ≡ string_length order r.now at }
{
    let n = blob_length(order, r, at);
    if n == 0 {
        return 0;
    }
    if octets::all_ascii(r, at + LENGTH_OCTETS, n - LENGTH_OCTETS) {
        return n;
    }
    0
}

// The place of the first zero from a place on; the record's length or more where there is none.
fn first_zero(r: &[u8], at: usize) -> usize
    ensures { result ≡ first_from at (length r.now - at) (λ p. eqb (get_or r.now p 0) 0) }
{
    for p in at..r.len() {
        if r[p] == 0 {
            return p;
        }
    }
    at.max(r.len())
}

// The length of the null terminated string at a place, 0 where none is valid there.
fn terminated_length(r: &[u8], at: usize) -> usize
    ensures { result ≡ terminated_length r.now at }
{
    let p = first_zero(r, at);
    if p < r.len() {
        return p + 1 - at;
    }
    0
}

// The length of the field of a type whose width varies at a place of a record under a table of an octet order, 0 where none is valid there.
fn varying_length(order: OctetOrder, kind: u16, r: &[u8], at: usize) -> usize
    requires { width_of kind ≡ 0 }
    ensures { result ≡ field_length order kind r.now at }
{
    if kind == FieldType::STRING {
        return string_length(FieldType { number: kind }.field_order(order), r, at);
    }
    if kind == FieldType::NULL_TERMINATED_STRING {
        return terminated_length(r, at);
    }
    if kind == FieldType::BLOB {
        return blob_length(FieldType { number: kind }.field_order(order), r, at);
    }
    0
}

// The length of the field of a type at a place of a record under a table of an octet order, 0 where none is valid there.
pub(crate) fn field_length(order: OctetOrder, kind: u16, r: &[u8], at: usize) -> usize
    ensures { result ≡ field_length order kind r.now at }
{
    let width = FieldType { number: kind }.width() as usize;
    if 0 < width {
        return fixed_length(kind, width, r, at);
    }
    varying_length(order, kind, r, at)
}

// Whether key k of a template is enabled.
pub(crate) fn is_enabled(t: &[u8], m: Template, k: usize) -> bool
    requires { m.keys + key_octets * k + key_octets ≤ length t.now }
    ensures { result ≡ is_enabled t.now (key_at m.keys k) }
{
    let at = m.keys + KEY_OCTETS * k + KEY_ATTRIBUTES_AT;
    octets::u32_of(t[at], t[at + 1], t[at + 2], t[at + 3]) == 0
}

// The number of the type of key k of a template.
pub(crate) fn kind_of(t: &[u8], m: Template, k: usize) -> u16
    requires { m.keys + key_octets * k + key_octets ≤ length t.now }
    ensures { result ≡ key_type t.now (key_at m.keys k) }
{
    let at = m.keys + KEY_OCTETS * k + KEY_TYPE_AT;
    octets::u16_of(t[at], t[at + 1])
}

// The length of key k's field at a place of a record; 0 for a disabled key, and where none is valid there.
fn length_under(t: &[u8], m: Template, r: &[u8], k: usize, at: usize) -> usize
    requires { m.keys + key_octets * k + key_octets ≤ length t.now }
    ensures { result ≡ length_under t.now m r.now k at }
{
    // As in `field_length`, written out here: every field of every record that is judged comes this way.
    if is_enabled(t, m, k) {
        let kind = kind_of(t, m, k);
        let width = FieldType { number: kind }.width() as usize;
        if 0 < width {
            return fixed_length(kind, width, r, at);
        }
        return varying_length(tables::table::order_of(t[FLAGS_AT]), kind, r, at);
    }
    0
}

// Whether the fields of a template's enabled keys use up exactly a record's octets.
fn fields_valid(t: &[u8], m: Template, r: &[u8]) -> bool
    requires { m.keys + key_octets * m.count ≤ length t.now }
    ensures { result ≡ record_valid t.now m r.now }
{
    let mut at: usize = 0;
    for k in 0..m.count {
        let n = length_under(t, m, r, k, at);
        if is_enabled(t, m, k) & (n == 0) {
            return false;
        }
        at += n;
    }
    at == r.len()
}

// Whether a record is valid under the template with an ID: 21 for an unsound table, 15 for an ID that it does not have, 16 for a record
// that is not valid under it. Table, ID and record are three parameters here and in the walk, as C hands them over.
pub fn check_record(t: &[u8], id: u16, r: &[u8]) -> Result<(), Refusal>
    ensures { Answered answer_number result (judged (record_answer t.now id r.now) tt)
        (record_answer t.now id r.now) }
{
    // `&t[..]` lends the table anew: to pass the parameter on would copy it first.
    let template = tables::table::find_template(&t[..], id)?;
    if !fields_valid(t, template, r) {
        return Err(Refusal::RecordInvalid);
    }
    Ok(())
}
