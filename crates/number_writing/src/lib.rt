// Writing: unsigned numbers of 8, 16, 32 and 64 bits, most significant octet first, or of any width in either order, and octets, to a place
// of a slice. `octets` passes these on.
//
// Every function is total: a write that does not fit changes nothing.
#![tactic(auto)]

ghost use Rattle.std.specs.Prelude.{◌≡◌};
ghost use Rattle.numbers.specs.Numbers.{octets_in, octets_of, put_at};

use number_reading::unsigned_types::Unsigned;
use numbers::OctetOrder;

// A number to the w octets at a place, at any width and in either order; it is taken modulo 256 to the w.
pub fn put_uint(order: OctetOrder, out: &mut [u8], at: usize, w: usize, v: u64)
    ensures { out.new ≡ put_at out.old at (octets_in order w v) }
{
    if out.len() < at {
        return;
    }
    if out.len() - at < w {
        return;
    }
    let mut n = v;
    for i in (0..w).rev() {
        out[at + number_reading::place_in(order, w, i)] = (n % 256) as u8;
        n /= 256;
    }
}

// A number to the octets at a place, as many as its type has.
pub fn put<T: Unsigned>(out: &mut [u8], at: usize, v: T)
    ensures { out.new ≡ put_at out.old at (octets_of T.WIDTH (T.value v)) }
{
    put_uint(OctetOrder::BigEndian, out, at, T::WIDTH, v.number());
}

// Octets to a place.
pub fn copy(out: &mut [u8], at: usize, octets: &[u8])
    ensures { out.new ≡ put_at out.old at octets.now }
{
    if out.len() < at {
        return;
    }
    if out.len() - at < octets.len() {
        return;
    }
    out[at..at + octets.len()].copy_from_slice(octets);
}
