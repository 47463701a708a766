// Appending one field to lent output.
ghost use Rattle.std.specs.Prelude.{◌≡◌, [], ◌∷◌, ◌++◌, ◌+◌, not, cond, eqb, leb, length, get_or, Ok, Err};
ghost use Rattle.octets.specs.Answers.{Answered, answer_number};
ghost use Rattle.octets.specs.Numbers.{octets_in};
ghost use Rattle.numbers.specs.declared.refusal.Refusal.TheVariants.{OutputTooShort};
ghost use Rattle.octets.specs.Each.{every};
ghost use Rattle.records.specs.Record.{length_octets};
ghost use Rattle.appending.specs.Append.{number_fits, negative_fits, octets_fit, octets_field, Stored, append_answer, append_of, append_out};

use field_types::field_type::FieldType;
use octets::{OctetOrder, Refusal};
use records::record::LENGTH_OCTETS;
use records::walk::Value;

// A 32-bit length is below this.
const LENGTH_LIMIT: usize = 4294967296;

// Whether a number is of a type.
fn number_fits(kind: u16, n: u64) -> bool
    ensures { result ≡ number_fits kind n }
{
    let field_type = FieldType { number: kind };
    if kind == FieldType::BOOLEAN {
        return n <= 1;
    }
    let width = field_type.width() as usize;
    if field_type.is_signed() {
        return n <= octets::greatest(width) / 2;
    }
    if field_type.is_number() {
        return n <= octets::greatest(width);
    }
    false
}

// Whether minus a number is of a type.
fn negative_fits(kind: u16, n: u64) -> bool
    ensures { result ≡ negative_fits kind n }
{
    let field_type = FieldType { number: kind };
    if !field_type.is_signed() {
        return false;
    }
    let most = octets::greatest(field_type.width() as usize);
    (1 <= n) & (n <= most / 2 + 1)
}

// Whether no octet is 0.
fn none_zero(octets: &[u8]) -> bool
    ensures { result ≡ every (length octets.now) (λ i. not (eqb (get_or octets.now i 0) 0)) }
{
    // It goes to the end, which is quicker than to stop.
    let mut ok = true;
    for octet in octets {
        ok &= *octet != 0;
    }
    ok
}

// Whether octets are of a type.
fn octets_fit(kind: u16, octets: &[u8]) -> bool
    ensures { result ≡ octets_fit kind octets.now }
{
    let few = octets.len() < LENGTH_LIMIT;
    if kind == FieldType::STRING {
        return few & octets::all_ascii(octets, 0, octets.len());
    }
    if kind == FieldType::NULL_TERMINATED_STRING {
        return none_zero(octets);
    }
    if kind == FieldType::BLOB {
        return few;
    }
    let field_type = FieldType { number: kind };
    let width = field_type.width() as usize;
    (0 < width) & (!field_type.is_number() & (octets.len() == width))
}

// The place after n octets at a place, or 12 where the output has less room.
fn place_after(room: usize, at: usize, n: usize) -> Result<usize, Refusal>
    ensures { result ≡ cond (leb (at + n) room) (Ok (at + n)) (Err OutputTooShort) }
{
    if at <= room {
        if n <= room - at {
            return Ok(at + n);
        }
    }
    Err(Refusal::OutputTooShort)
}

// Stores a number in w octets at a place, in an order: the place after it, or 12 where it does not fit.
fn store_number(
    order: OctetOrder,
    w: usize,
    n: u64,
    out: &mut [u8],
    at: usize,
) -> Result<usize, Refusal>
    ensures { Stored (octets_in order w n) out.old at result out.new }
{
    let end = place_after(out.len(), at, w)?;
    octets::put_uint(order, out, at, w, n);
    Ok(end)
}

// Stores octets at a place: the place after them, or 12 where they do not fit.
fn store_plain(octets: &[u8], out: &mut [u8], at: usize) -> Result<usize, Refusal>
    ensures { Stored octets.now out.old at result out.new }
{
    let end = place_after(out.len(), at, octets.len())?;
    octets::copy(out, at, octets);
    Ok(end)
}

// Stores octets and a zero behind them at a place: the place after the zero, or 12 where they do not fit.
fn store_terminated(octets: &[u8], out: &mut [u8], at: usize) -> Result<usize, Refusal>
    ensures { Stored (octets.now ++ (0 ∷ [])) out.old at result out.new }
{
    let zero_at = place_after(out.len(), at, octets.len())?;
    let end = place_after(out.len(), zero_at, 1)?;
    octets::copy(out, at, octets);
    octets::put(out, zero_at, 0u8);
    Ok(end)
}

// Stores octets behind their 32-bit length, which has an order, at a place: the place after them, or 12 where they do not fit.
fn store_counted(
    order: OctetOrder,
    octets: &[u8],
    out: &mut [u8],
    at: usize,
) -> Result<usize, Refusal>
    ensures { Stored (octets_in order length_octets (length octets.now) ++ octets.now)
        out.old at result out.new }
{
    let start = place_after(out.len(), at, LENGTH_OCTETS)?;
    let behind = place_after(out.len(), start, octets.len())?;
    octets::put_uint(order, out, at, LENGTH_OCTETS, octets.len() as u64);
    octets::copy(out, start, octets);
    Ok(behind)
}

// Stores the field that holds octets of a type at a place, a length in front in an octet order: the place after it, or 12 where it does
// not fit.
fn store_octets(
    order: OctetOrder,
    kind: u16,
    octets: &[u8],
    out: &mut [u8],
    at: usize,
) -> Result<usize, Refusal>
    ensures { Stored (octets_field order kind octets.now) out.old at result out.new }
{
    if kind == FieldType::NULL_TERMINATED_STRING {
        return store_terminated(octets, out, at);
    }
    let width = FieldType { number: kind }.width();
    if 0 < width {
        return store_plain(octets, out, at);
    }
    store_counted(order, octets, out, at)
}

// Appends the field of a type that holds a value, under a table of an octet order, at a place of the output: the place after it, or 16 for
// a value that is not of the type and 12 for an output that is too short. The octets count where the value is octets.
pub fn append(
    order: OctetOrder,
    kind: u16,
    value: Value,
    octets: &[u8],
    out: &mut [u8],
    at: usize,
) -> Result<usize, Refusal>
    ensures { Answered answer_number result (append_of order kind value octets.now out.old at)
        (append_answer order kind value octets.now out.old at)
        × (out.new ≡ append_out order kind value octets.now out.old at) }
{
    let field_type = FieldType { number: kind };
    let width = field_type.width() as usize;
    let field_order = field_type.field_order(order);
    match value {
        Value::Octets => {
            if octets_fit(kind, octets) {
                return store_octets(field_order, kind, octets, out, at);
            }
            Err(Refusal::RecordInvalid)
        }
        Value::Number(n) => {
            if number_fits(kind, n) {
                return store_number(field_order, width, n, out, at);
            }
            Err(Refusal::RecordInvalid)
        }
        Value::Negative(n) => {
            if negative_fits(kind, n) {
                return store_number(field_order, width, octets::greatest(width) - n + 1, out, at);
            }
            Err(Refusal::RecordInvalid)
        }
    }
}
