// An entry of a journal, by its place in the journal's octets.

// The octets of an entry in front of its record: DSN 4, D 1, template ID 2, length 2.
pub const ENTRY_HEAD_OCTETS: usize = 9;

// An entry: its DSN, its duplicate mark D, its template ID, and where its record lies in the journal. The next entry follows the record.
#[derive(Clone, Copy)]
pub struct Entry {
    pub dsn: u32,
    pub duplicate: bool,
    pub template: u16,
    pub at: usize,
    pub len: usize,
}
