// The unsigned types whose values stand in octets at a place.
ghost use Rattle.std.specs.Prelude.{ℕ, ◌≡◌, ◌%◌, ◌^◌, ◌≤◌};
ghost use Rattle.std.proofs.Common.{leb-true, refl};

// An unsigned type of at most eight octets, whose values are numbers.
pub trait Unsigned: Copy {
    ghost WIDTH: { ℕ };

    // How many octets it has.
    const WIDTH: usize;

    // The number that a value is.
    ghost value: { Self → ℕ };

    // The number, modulo 256 to the width.
    fn from_number(number: u64) -> Self
        ensures { value result ≡ number % 256 ^ WIDTH };

    // The number that it is.
    fn number(self) -> u64
        ensures { result ≡ value self };

    ghost width_within: { WIDTH ≤ 8 };
}

impl Unsigned for u8 {
    ghost WIDTH = { 1 };

    const WIDTH: usize = 1;

    ghost value = { λ number. number };

    fn from_number(number: u64) -> u8 {
        (number % 256) as u8
    }

    fn number(self) -> u64 {
        self as u64
    }

    ghost width_within = { leb-true 1 8 refl };
}

impl Unsigned for u16 {
    ghost WIDTH = { 2 };

    const WIDTH: usize = 2;

    ghost value = { λ number. number };

    fn from_number(number: u64) -> u16 {
        (number % 65536) as u16
    }

    fn number(self) -> u64 {
        self as u64
    }

    ghost width_within = { leb-true 2 8 refl };
}

impl Unsigned for u32 {
    ghost WIDTH = { 4 };

    const WIDTH: usize = 4;

    ghost value = { λ number. number };

    fn from_number(number: u64) -> u32 {
        (number % 4294967296) as u32
    }

    fn number(self) -> u64 {
        self as u64
    }

    ghost width_within = { leb-true 4 8 refl };
}

impl Unsigned for u64 {
    ghost WIDTH = { 8 };

    const WIDTH: usize = 8;

    ghost value = { λ number. number };

    fn from_number(number: u64) -> u64 {
        number
    }

    fn number(self) -> u64 {
        self
    }

    ghost width_within = { leb-true 8 8 refl };
}
