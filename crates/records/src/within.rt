// A number of 32 bits at a place that is known to lie within the octets, in either order: without the tests of `octets::get_uint` for the
// end, since every length in a record is read this way (docs/SPEED.md). Only this crate sees it.
ghost use Rattle.std.specs.Prelude.{◌≡◌, ◌+◌, ◌≤◌, length};
ghost use Rattle.octets.specs.Numbers.{uint_in};

use octets::OctetOrder;

// The number in the four octets at a place, in an order.
pub(crate) fn u32_in(order: OctetOrder, s: &[u8], at: usize) -> u32
    requires { at + 4 ≤ length s.now }
    ensures { result ≡ uint_in order s.now at 4 }
{
    match order {
        OctetOrder::BigEndian => octets::u32_of(s[at], s[at + 1], s[at + 2], s[at + 3]),
        OctetOrder::LittleEndian => octets::u32_of(s[at + 3], s[at + 2], s[at + 1], s[at]),
    }
}
