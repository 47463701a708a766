// Numbers at a place that is known to lie within the octets: as `octets::get`, without its tests for the end.
// A block of a table is tested once and then read many times (docs/SPEED.md). Only this crate sees them, since they need the place within.
ghost use Rattle.std.specs.Prelude.{◌≡◌, ◌+◌, ◌≤◌, length};
ghost use Rattle.octets.specs.Numbers.{uint_at};

// The number in the two octets at a place. Like `u32_at` for its own type, as `u16_of` and `u32_of` are.
pub(crate) fn u16_at(s: &[u8], at: usize) -> u16
    requires { at + 2 ≤ length s.now }
    ensures { result ≡ uint_at s.now at 2 }
{
    octets::u16_of(s[at], s[at + 1])
}

// The number in the four octets at a place.
pub(crate) fn u32_at(s: &[u8], at: usize) -> u32
    requires { at + 4 ≤ length s.now }
    ensures { result ≡ uint_at s.now at 4 }
{
    octets::u32_of(s[at], s[at + 1], s[at + 2], s[at + 3])
}
