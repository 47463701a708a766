// The queue of held records: how many octets they have, where one begins in the lent store, whether a server is in the set of those that
// one was sent to, and in `ring` the octets of the records in the store.
#![tactic(auto)]

ghost use Rattle.std.specs.Prelude.{◌≡◌, take};
ghost use Rattle.session.specs.Queue.{sum_of, has};
ghost use Rattle.queue.specs.Rings.{record_start};

pub mod ring;

use session::limits::{MAX_HELD, MAX_SERVERS};

// How many octets the first n records have together.
pub fn octets_to(lengths: &[u16; MAX_HELD], n: usize) -> u32
    ensures { result ≡ sum_of (take n lengths.now) }
{
    let mut sum: u32 = 0;
    for length in &lengths[..n.min(MAX_HELD)] {
        sum += *length as u32;
    }
    sum
}

// The place in the store where the record at place i of the queue begins, by the store's length and the ring's start; 0 where the start is
// not below the length.
pub fn record_start(capacity: usize, start: usize, lengths: &[u16; MAX_HELD], i: usize) -> usize
    ensures { result ≡ record_start capacity start lengths.now i }
{
    if capacity <= start {
        return 0;
    }
    let behind = octets_to(lengths, i) as usize;
    let rest = capacity - start;
    if behind < rest {
        return start + behind;
    }
    ring::wrapped(behind - rest, capacity)
}

// Whether a server is in a set, which has a bit for each server that there can be.
pub fn has_server(set: u16, v: u8) -> bool
    ensures { result ≡ has set v }
{
    if v < MAX_SERVERS {
        return (set >> v) % 2 == 1;
    }
    false
}
