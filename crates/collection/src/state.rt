// A collector's state, passed and returned by value.

// A collector. The journal's octets and the table's are not in it: the caller lends them to every call.
#[derive(Clone, Copy)]
pub struct Collector {
    // the session that every message names
    pub session: u8,
    // how many octets the journal has
    pub capacity: usize,
    // how many of them are used, from the first on; at most `capacity`
    pub used: usize,
    // how many octets the agreed table has in its memory, from the first on, at most 16,384; 0: no table is agreed
    pub table: usize,
    // the agreed table's Configuration ID
    pub config: u8,
    // the last DSN that was processed in sequence, if one was since START, which tells the expected one
    pub last: Option<u32>,
}

// What a call answers: 0 or the number of the refusal, how many octets it wrote, and the state that it leaves.
#[derive(Clone, Copy)]
pub struct Collected {
    pub answer: u8,
    pub written: usize,
    pub collector: Collector,
}
