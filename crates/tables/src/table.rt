// Template tables: whether octets are a sound one, the octet order of its record data, and where a template's key blocks lie.
ghost use Rattle.std.specs.Prelude.{◌≡◌, true, [], ◌∷◌, ◌+◌, ◌*◌, ◌≤◌, ◌<◌, eqb, length, get_or};
ghost use Rattle.octets.specs.Answers.{Answered, answer_number};
ghost use Rattle.octets.specs.Each.{every, absent, all_of};
ghost use Rattle.tables.specs.Table.{max_table_octets, max_keys, key_octets, block_head_octets, configuration_id, key_id, key_at, key_sound};
ghost use Rattle.tables.specs.Table.{keys_sound, keys_differ, keys_at, padded, block_end, head_sound, padding_sound, block_sound, block_at};
ghost use Rattle.tables.specs.Table.{id_at, blocks_sound, templates_differ, flags_sound, order_of, table_order, table_sound, template_at};
ghost use Rattle.tables.specs.Table.{locate_of, find_answer, find_of};

use field_types::field_type::FieldType;
use octets::{OctetOrder, Refusal};

// The most octets that a table has.
pub const MAX_TABLE_OCTETS: usize = 16384;

// The most templates that a table has.
pub const MAX_TEMPLATES: usize = 8;

// The most keys that a template has.
pub const MAX_KEYS: u16 = 32;

// The flags of a table whose record data is big-endian. The only others of a table are 0, for little-endian record data.
pub const BIG_ENDIAN: u8 = 1;

// Where a table's flags stand: behind the Configuration ID.
pub const FLAGS_AT: usize = 1;

// The octets of a table in front of its first block: Configuration ID, flags, template count.
const TABLE_HEAD_OCTETS: usize = 4;

// The octets of a template block in front of its description.
const BLOCK_HEAD_OCTETS: usize = 12;

// The octets of a key block.
pub const KEY_OCTETS: usize = 12;

// Where a key block's type begins in it: behind the key ID.
pub const KEY_TYPE_AT: usize = 4;

// Where its attributes begin: behind the reserved octets.
pub const KEY_ATTRIBUTES_AT: usize = 8;

// The key blocks of a template in a table: where the first begins, and how many there are.
#[derive(Clone, Copy, Debug, PartialEq, Eq)]
pub struct Template {
    pub keys: usize,
    pub count: usize,
}

// The Configuration ID of a table.
pub fn configuration_id(t: &[u8]) -> u8
    ensures { result ≡ configuration_id t.now }
{
    octets::get(t, 0)
}

// Whether a table has such flags: 0 or 1.
pub fn flags_sound(flags: u8) -> bool
    ensures { result ≡ flags_sound flags }
{
    flags <= BIG_ENDIAN
}

// The octet order of record data under flags: big-endian under 1, little-endian under all others. A function and no `From`, since
// `OctetOrder` is another crate's.
pub fn order_of(flags: u8) -> OctetOrder
    ensures { result ≡ order_of flags }
{
    if flags == BIG_ENDIAN {
        return OctetOrder::BigEndian;
    }
    OctetOrder::LittleEndian
}

// The octet order of a table's record data; the table's own numbers are big-endian under either flags.
pub fn table_order(t: &[u8]) -> OctetOrder
    ensures { result ≡ table_order t.now }
{
    order_of(octets::get(t, FLAGS_AT))
}

// Whether the key block at a place is sound by itself.
fn key_sound(t: &[u8], at: usize) -> bool
    requires { at + key_octets ≤ length t.now }
    ensures { result ≡ key_sound t.now at }
{
    let kind = FieldType {
        number: octets::u16_of(t[at + 4], t[at + 5]),
    };
    kind.is_type()
        & (octets::u16_of(t[at + 6], t[at + 7]) == 0)
        & (octets::u32_of(t[at + 8], t[at + 9], t[at + 10], t[at + 11]) <= 1)
}

// Whether each of n key blocks is sound by itself.
fn keys_sound(t: &[u8], keys: usize, n: usize) -> bool
    requires { (keys + key_octets * n ≤ length t.now) × (n ≤ max_keys) }
    ensures { result ≡ keys_sound t.now keys n }
{
    for k in 0..n {
        if !key_sound(t, keys + KEY_OCTETS * k) {
            return false;
        }
    }
    true
}

// The ID in the key block at a place.
fn key_id(t: &[u8], at: usize) -> u32
    requires { at + key_octets ≤ length t.now }
    ensures { result ≡ key_id t.now at }
{
    crate::within::u32_at(t, at)
}

// Whether the IDs of n key blocks rise, so that no two are equal. Only a shortcut: it may answer false for IDs that differ, and they are
// then compared pairwise.
fn keys_rise(t: &[u8], keys: usize, n: usize) -> bool
    requires { (keys + key_octets * n ≤ length t.now) × (n ≤ max_keys) }
    ensures { result ≡ true → keys_differ t.now keys n ≡ true }
{
    for k in 1..n {
        if key_id(t, keys + KEY_OCTETS * k) <= key_id(t, keys + KEY_OCTETS * (k - 1)) {
            return false;
        }
    }
    true
}

// Whether key block k has another ID than each before it.
fn key_is_new(t: &[u8], keys: usize, k: usize) -> bool
    requires { (keys + key_octets * k + key_octets ≤ length t.now) × (k ≤ max_keys) }
    ensures { result ≡ absent (λ j. key_id t.now (key_at keys j)) k (key_id t.now (key_at keys k)) }
{
    let id = key_id(t, keys + KEY_OCTETS * k);
    for j in 0..k {
        if key_id(t, keys + KEY_OCTETS * j) == id {
            return false;
        }
    }
    true
}

// Whether no two of n key blocks have one ID.
fn keys_differ(t: &[u8], keys: usize, n: usize) -> bool
    requires { (keys + key_octets * n ≤ length t.now) × (n ≤ max_keys) }
    ensures { result ≡ keys_differ t.now keys n }
{
    if keys_rise(t, keys, n) {
        return true;
    }
    for k in 0..n {
        if !key_is_new(t, keys, k) {
            return false;
        }
    }
    true
}

// Whether n octets from a place on are 0.
fn all_zero(t: &[u8], at: usize, n: usize) -> bool
    requires { at + n ≤ length t.now }
    ensures { result ≡ every n (λ i. eqb (get_or t.now (at + i) 0) 0) }
{
    t[at..at + n].iter().all(|octet| *octet == 0)
}

// A length brought up to a multiple of 4.
fn padded(n: u16) -> usize
    ensures { result ≡ padded n }
{
    (n as usize + 3) / 4 * 4
}

// The key blocks of the template block at a place.
fn template_at(t: &[u8], at: usize) -> Template
    requires { (at ≤ max_table_octets) × (at + block_head_octets ≤ length t.now) }
    ensures { result ≡ template_at t.now at }
{
    let description = crate::within::u16_at(t, at + 6);
    Template {
        keys: at + BLOCK_HEAD_OCTETS + padded(description),
        count: crate::within::u16_at(t, at + 2) as usize,
    }
}

// Where the template block at a place ends, by its key count and description length.
#[tactic(auto, unfolding(crate::specs::Table::block_end))]
fn block_end(t: &[u8], at: usize) -> usize
    requires { (at ≤ max_table_octets) × (at + block_head_octets ≤ length t.now) }
    ensures { result ≡ block_end t.now at }
{
    let description = crate::within::u16_at(t, at + 6);
    let count = crate::within::u16_at(t, at + 2) as usize;
    at + BLOCK_HEAD_OCTETS + padded(description) + KEY_OCTETS * count
}

// Whether the head of the template block at a place is sound.
fn head_sound(t: &[u8], at: usize) -> bool
    requires { at ≤ max_table_octets }
    ensures { result ≡ head_sound t.now at }
{
    if t.len() < at + BLOCK_HEAD_OCTETS {
        return false;
    }
    let end = block_end(t, at);
    let count = crate::within::u16_at(t, at + 2);
    (end <= t.len())
        & (1 <= count)
        & (count <= MAX_KEYS)
        & (crate::within::u16_at(t, at + 4) == 0)
        & (crate::within::u32_at(t, at + 8) as usize == end - at)
}

// Whether the octets that pad the description of the template block at a place are 0.
fn padding_sound(t: &[u8], at: usize) -> bool
    requires { (at ≤ max_table_octets) × (keys_at t.now at ≤ length t.now) }
    ensures { result ≡ padding_sound t.now at }
{
    let description = crate::within::u16_at(t, at + 6);
    let len = description as usize;
    all_zero(t, at + BLOCK_HEAD_OCTETS + len, padded(description) - len)
}

// Whether the template block at a place is sound.
fn block_sound(t: &[u8], at: usize) -> bool
    requires { at ≤ max_table_octets }
    ensures { result ≡ block_sound t.now at }
{
    if !head_sound(t, at) {
        return false;
    }
    if !padding_sound(t, at) {
        return false;
    }
    let template = template_at(t, at);
    if !keys_sound(t, template.keys, template.count) {
        return false;
    }
    keys_differ(t, template.keys, template.count)
}

// Whether none of the first n templates has an ID.
fn id_is_new(t: &[u8], n: usize, id: u16) -> bool
    requires { (length t.now ≤ max_table_octets) × (blocks_sound t.now n ≡ true) }
    ensures { result ≡ absent (id_at t.now) n id }
{
    let mut at = TABLE_HEAD_OCTETS;
    for i in 0..n {
        if crate::within::u16_at(t, at) == id {
            return false;
        }
        at = block_end(t, at);
    }
    true
}

// Whether n template blocks are sound, have different IDs and end where the table does.
fn blocks_sound(t: &[u8], n: usize) -> bool
    requires { length t.now ≤ max_table_octets }
    ensures { result ≡ all_of (blocks_sound t.now n ∷ templates_differ t.now n
        ∷ eqb (block_at t.now n) (length t.now) ∷ []) }
{
    let mut at = TABLE_HEAD_OCTETS;
    for i in 0..n {
        if !block_sound(t, at) {
            return false;
        }
        if !id_is_new(t, i, crate::within::u16_at(t, at)) {
            return false;
        }
        at = block_end(t, at);
    }
    at == t.len()
}

// Whether octets are a sound template table.
pub fn table_sound(t: &[u8]) -> bool
    ensures { result ≡ table_sound t.now }
{
    if MAX_TABLE_OCTETS < t.len() {
        return false;
    }
    if !flags_sound(octets::get(t, FLAGS_AT)) {
        return false;
    }
    let count = octets::get::<u16>(t, 2) as usize;
    if count < 1 {
        return false;
    }
    if MAX_TEMPLATES < count {
        return false;
    }
    blocks_sound(t, count)
}

// The template with an ID in a table that is sound, or 15.
fn locate(t: &[u8], id: u16) -> Result<Template, Refusal>
    requires { table_sound t.now ≡ true }
    ensures { result ≡ locate_of t.now id }
{
    let count = crate::within::u16_at(t, 2) as usize;
    let mut at = TABLE_HEAD_OCTETS;
    for i in 0..count {
        if crate::within::u16_at(t, at) == id {
            return Ok(template_at(t, at));
        }
        at = block_end(t, at);
    }
    Err(Refusal::TemplateNotFound)
}

// The template with an ID, or 21 for an unsound table, 15 for an ID that it does not have.
pub fn find_template(t: &[u8], id: u16) -> Result<Template, Refusal>
    ensures { Answered answer_number result (find_of t.now id) (find_answer t.now id) }
{
    // `&t[..]` lends the table anew: to pass the parameter on would copy it first.
    if table_sound(&t[..]) {
        return locate(t, id);
    }
    Err(Refusal::UnsoundTable)
}
