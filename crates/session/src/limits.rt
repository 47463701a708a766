// The limits of an exporter (01, "Exporter"; the servers by 02, ask 7). specs/Limits.antt names the same numbers, and what a function tests
// against one of these it is proved to test against that.

// The most servers.
pub const MAX_SERVERS: u8 = 16;

// How many entries an array has that holds one for each server.
pub const SERVER_ENTRIES: usize = MAX_SERVERS as usize;

// The set of all servers that there can be; a set has a bit for each of them.
pub const ALL_SERVERS: u16 = ((1u32 << MAX_SERVERS) - 1) as u16;

// The most records that are held at a time.
pub const MAX_HELD: usize = 64;

// The greatest threshold.
pub const MAX_THRESHOLD: u8 = 64;

// The fewest octets that a store has.
pub const MIN_STORE_OCTETS: usize = 1024;

// The most octets that a store has.
pub const MAX_STORE_OCTETS: usize = 65536;
