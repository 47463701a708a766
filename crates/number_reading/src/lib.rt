// Reading: unsigned numbers of 8, 16, 32 and 64 bits at a place of a slice, most significant octet first, or of any width in either order;
// and whether octets there are ASCII. `octets` passes these on, but for `place_in`, which `number_writing` uses.
//
// Every function is total: a read past the end reads 0.
#![tactic(auto)]

ghost use Rattle.std.specs.Prelude.{◌≡◌, [], ◌∷◌, ◌+◌, ◌-◌, ◌%◌, ◌^◌, get_or};
ghost use Rattle.numbers.specs.Numbers.{place_in, uint_in, uint_at, smaller, all_ascii};

use numbers::OctetOrder;

pub mod unsigned_types;

use unsigned_types::Unsigned;

// The number in two octets, the most significant first. Like `u32_of` for its own type: std's `from_be_bytes` is no method of a trait.
pub fn u16_of(a: u8, b: u8) -> u16
    ensures { result ≡ uint_at (a ∷ b ∷ []) 0 2 }
{
    u16::from_be_bytes([a, b])
}

// The number in four octets, the most significant first.
pub fn u32_of(a: u8, b: u8, c: u8, d: u8) -> u32
    ensures { result ≡ uint_at (a ∷ b ∷ c ∷ d ∷ []) 0 4 }
{
    u32::from_be_bytes([a, b, c, d])
}

// The greatest numbers of 0 to 8 octets.
const GREATEST: [u64; 9] = [
    0,
    255,
    65535,
    16777215,
    4294967295,
    1099511627775,
    281474976710655,
    72057594037927935,
    18446744073709551615,
];

// The greatest number of w octets; a width past 8 counts as 8.
pub fn greatest(w: usize) -> u64
    ensures { result ≡ 256 ^ smaller w 8 - 1 }
{
    if w <= 8 { GREATEST[w] } else { GREATEST[8] }
}

// Where digit i of w digits stands among their octets, digit 0 being the most significant.
pub fn place_in(order: OctetOrder, w: usize, i: usize) -> usize
    ensures { result ≡ place_in order w i }
{
    match order {
        OctetOrder::BigEndian => i,
        OctetOrder::LittleEndian => w.saturating_sub(1).saturating_sub(i),
    }
}

// The octet i past a place.
fn octet(s: &[u8], at: usize, i: usize) -> u8
    ensures { result ≡ get_or s.now (at + i) 0 }
{
    if s.len().saturating_sub(at) <= i {
        return 0;
    }
    s[at + i]
}

// The number in the w octets at a place, at any width and in either order, modulo 2 to the 64: the number itself where w is at most 8.
pub fn get_uint(order: OctetOrder, s: &[u8], at: usize, w: usize) -> u64
    ensures { result ≡ uint_in order s.now at w % 256 ^ 8 }
{
    let mut v: u64 = 0;
    for i in 0..w {
        v = v % 72057594037927936 * 256 + (octet(s, at, place_in(order, w, i)) as u64);
    }
    v
}

// ASCII octets are below this.
const ASCII_LIMIT: u8 = 128;

// Whether n octets from a place on are below 128.
pub fn all_ascii(s: &[u8], at: usize, n: usize) -> bool
    ensures { result ≡ all_ascii s.now at n }
{
    // What lies past the end reads 0, so the loop ends there; it goes to the end, which is quicker than to stop.
    let left = s.len().saturating_sub(at);
    let start = s.len() - left;
    let mut ok = true;
    for octet in &s[start..start + n.min(left)] {
        ok &= *octet < ASCII_LIMIT;
    }
    ok
}

// The number in the octets at a place, as many as its type has.
pub fn get<T: Unsigned>(s: &[u8], at: usize) -> T
    ensures { T.value result ≡ uint_at s.now at T.WIDTH }
{
    T::from_number(get_uint(OctetOrder::BigEndian, s, at, T::WIDTH))
}
