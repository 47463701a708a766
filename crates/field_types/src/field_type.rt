// The types of a record's fields, for reader and writer: number, width, signedness, and whether its number has the table's octet order.
ghost use Rattle.std.specs.Prelude.{◌≡◌};
ghost use Rattle.field_types.specs.FieldTypes.{type_numbers, width_of, is_type, is_signed, is_number, is_turned, field_order};

use octets::OctetOrder;

// A field type, by its number. A struct with constants and no enum: a table may hold any number, and every function answers any.
#[derive(Clone, Copy, Debug, PartialEq, Eq)]
pub struct FieldType {
    pub number: u16,
}

impl FieldType {
    // Boolean: one octet, 0 or 1.
    pub const BOOLEAN: u16 = 0x01;

    // Unsigned integer of 8 bits.
    pub const UNSIGNED_8: u16 = 0x02;

    // Signed integer of 8 bits.
    pub const SIGNED_8: u16 = 0x03;

    // Unsigned integer of 16 bits.
    pub const UNSIGNED_16: u16 = 0x04;

    // Signed integer of 16 bits.
    pub const SIGNED_16: u16 = 0x05;

    // Unsigned integer of 32 bits.
    pub const UNSIGNED_32: u16 = 0x06;

    // Signed integer of 32 bits.
    pub const SIGNED_32: u16 = 0x07;

    // Unsigned integer of 64 bits.
    pub const UNSIGNED_64: u16 = 0x08;

    // Signed integer of 64 bits.
    pub const SIGNED_64: u16 = 0x09;

    // Float, 32 bits.
    pub const FLOAT: u16 = 0x0a;

    // Double, 64 bits.
    pub const DOUBLE: u16 = 0x0b;

    // IPv4 address.
    pub const IPV4_ADDRESS: u16 = 0x10;

    // IPv6 address.
    pub const IPV6_ADDRESS: u16 = 0x11;

    // Time in seconds, 32 bits.
    pub const TIME_SEC: u16 = 0x12;

    // Time in milliseconds, 64 bits.
    pub const TIME_MSEC_64: u16 = 0x13;

    // Time in microseconds, 64 bits.
    pub const TIME_USEC_64: u16 = 0x14;

    // Time in milliseconds, 32 bits.
    pub const TIME_MSEC_32: u16 = 0x15;

    // Time in microseconds, 32 bits.
    pub const TIME_USEC_32: u16 = 0x16;

    // String: a 32-bit length, then octets below 128.
    pub const STRING: u16 = 0x400c;

    // Null terminated string: octets to the first zero, which counts.
    pub const NULL_TERMINATED_STRING: u16 = 0x400d;

    // Blob: a 32-bit length, then octets.
    pub const BLOB: u16 = 0x4015;

    // One more than the greatest number of a type of a fixed width.
    const FIXED_END: usize = FieldType::TIME_USEC_32 as usize + 1;

    // The width in octets of each type of a fixed width, by its number; 0 where the number is no type's.
    const WIDTHS: [u8; FieldType::FIXED_END] = [
        0, // no type
        1, // BOOLEAN
        1, // UNSIGNED_8
        1, // SIGNED_8
        2, // UNSIGNED_16
        2, // SIGNED_16
        4, // UNSIGNED_32
        4, // SIGNED_32
        8, // UNSIGNED_64
        8, // SIGNED_64
        4, // FLOAT
        8, // DOUBLE
        0, // no type
        0, // no type
        0, // no type
        0, // no type
        4, // IPV4_ADDRESS
        16, // IPV6_ADDRESS
        4, // TIME_SEC
        8, // TIME_MSEC_64
        8, // TIME_USEC_64
        4, // TIME_MSEC_32
        4, // TIME_USEC_32
    ];

    // The numbers of all types, in the order of the paper's rows.
    pub fn numbers() -> [u16; 21]
        ensures { result ≡ type_numbers }
    {
        [
            FieldType::BOOLEAN,
            FieldType::UNSIGNED_8,
            FieldType::SIGNED_8,
            FieldType::UNSIGNED_16,
            FieldType::SIGNED_16,
            FieldType::UNSIGNED_32,
            FieldType::SIGNED_32,
            FieldType::UNSIGNED_64,
            FieldType::SIGNED_64,
            FieldType::FLOAT,
            FieldType::DOUBLE,
            FieldType::IPV4_ADDRESS,
            FieldType::IPV6_ADDRESS,
            FieldType::TIME_SEC,
            FieldType::TIME_MSEC_64,
            FieldType::TIME_USEC_64,
            FieldType::TIME_MSEC_32,
            FieldType::TIME_USEC_32,
            FieldType::STRING,
            FieldType::NULL_TERMINATED_STRING,
            FieldType::BLOB,
        ]
    }

    // The width in octets of a type of a fixed width, 0 for any other number.
    pub fn width(self) -> u8
        ensures { result ≡ width_of self.number }
    {
        let n = self.number as usize;
        if n < FieldType::FIXED_END {
            FieldType::WIDTHS[n]
        } else {
            0
        }
    }

    // Whether the number is a type's.
    pub fn is_type(self) -> bool
        ensures { result ≡ is_type self.number }
    {
        let n = self.number;
        ((FieldType::BOOLEAN <= n) & (n <= FieldType::DOUBLE))
            | ((FieldType::IPV4_ADDRESS <= n) & (n <= FieldType::TIME_USEC_32))
            | (n == FieldType::STRING)
            | (n == FieldType::NULL_TERMINATED_STRING)
            | (n == FieldType::BLOB)
    }

    // Whether fields of the type are signed numbers.
    pub fn is_signed(self) -> bool
        ensures { result ≡ is_signed self.number }
    {
        let n = self.number;
        (n == FieldType::SIGNED_8)
            | (n == FieldType::SIGNED_16)
            | (n == FieldType::SIGNED_32)
            | (n == FieldType::SIGNED_64)
    }

    // Whether fields of the type are numbers: Booleans, integers, floats by their bits, times.
    pub fn is_number(self) -> bool
        ensures { result ≡ is_number self.number }
    {
        let n = self.number;
        ((FieldType::BOOLEAN <= n) & (n <= FieldType::DOUBLE))
            | ((FieldType::TIME_SEC <= n) & (n <= FieldType::TIME_USEC_32))
    }

    // Whether the number in fields of the type has the octet order of the table: integers, floats, and the lengths of strings and blobs.
    pub fn is_turned(self) -> bool
        ensures { result ≡ is_turned self.number }
    {
        let n = self.number;
        ((FieldType::UNSIGNED_8 <= n) & (n <= FieldType::DOUBLE))
            | (n == FieldType::STRING)
            | (n == FieldType::BLOB)
    }

    // The octet order of the number in fields of the type, under a table of an octet order.
    pub fn field_order(self, order: OctetOrder) -> OctetOrder
        ensures { result ≡ field_order order self.number }
    {
        if self.is_turned() {
            return order;
        }
        OctetOrder::BigEndian
    }
}
