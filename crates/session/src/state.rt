// The exporter's state, passed and returned by value.
use crate::limits;
use octets::Refusal;

// A server's phase: closed at first; late after it was too slow.
#[derive(Clone, Copy, Debug, PartialEq, Eq)]
pub enum Phase {
    Closed,
    Started,
    Offered,
    Agreed,
    Late,
}

// A server, by its phase.
#[derive(Clone, Copy, Debug, PartialEq, Eq)]
pub struct Server {
    // its server state, as 01 calls it
    pub phase: Phase,
}

// What an exporter is set up with.
#[derive(Clone, Copy)]
pub struct Settings {
    // the session that every message names
    pub session: u8,
    // the Configuration ID of the session's table
    pub config: u8,
    // the boot time that a START ACK answers
    pub boot: u32,
    // the DSN of the first record
    pub initial: u32,
    // how many servers there are, 1 to 16; a server's number is below it (arrays of servers are as long as there can be: fixed memory)
    pub servers: u8,
    // the priority of each server, the greatest number preferred; entries from `servers` on count in no choice
    pub priorities: [u8; limits::SERVER_ENTRIES],
    // how many records must be reached before the timer runs, 1 to 64
    pub threshold: u8,
    // after how many ticks the timer has run out, 1 or more
    pub duration: u16,
}

// The servers, and how far the active one was sent the queue.
#[derive(Clone, Copy)]
pub struct Delivery {
    // each server's phase; entries from the server count on count in no choice and no answer
    pub servers: [Server; limits::SERVER_ENTRIES],
    // the active server, if there is one: the agreed one of highest priority, the lowest number on ties
    pub active: Option<u8>,
    // the place in the queue of the next record to send; at most `reached`
    pub sent: usize,
    // how many records at the front of the queue were sent in this activation; at most the queue's count
    pub reached: usize,
    // ticks counted while at least `threshold` records are reached; below the duration
    pub timer: u16,
}

// The records held: entry i is the record at place i of the queue, and entries from `count` on are unused. Arrays side by side and a count,
// since the memory of a state is fixed.
#[derive(Clone, Copy)]
pub struct Queue {
    // how many records are held, at most 64
    pub count: usize,
    // how many octets each has, at most 1,024; together at most the store's length
    pub lengths: [u16; limits::MAX_HELD],
    // each one's template ID
    pub templates: [u16; limits::MAX_HELD],
    // the set of servers that each was sent to, server k as bit k
    pub receivers: [u16; limits::MAX_HELD],
}

// An exporter. The octets of the held records lie in the lent store, one after the other from `start` on, modulo its length.
#[derive(Clone, Copy)]
pub struct State {
    // what it was set up with
    pub settings: Settings,
    // the length of the store that was lent at set-up
    pub capacity: usize,
    // the servers, and how far the active one was sent the queue
    pub delivery: Delivery,
    // whether S is due: no record was released in this activation
    pub due: bool,
    // the records held
    pub queue: Queue,
    // where the first held record's octets begin; below `capacity`
    pub start: usize,
    // the DSN that the next record put will take
    pub next: u32,
}

// What an accepted call leaves that may write a message.
#[derive(Clone, Copy)]
pub struct Wrote {
    // the next state
    pub state: State,
    // how many octets of the output it wrote, from the first one on
    pub written: usize,
}

// What sending a batch answers: how many messages it wrote, and how many octets these have together.
#[derive(Clone, Copy)]
pub struct Batch {
    // the next state: what the messages that were written leave
    pub state: State,
    // done where the given number was reached, or the refusal that stopped the batch
    pub answer: Result<(), Refusal>,
    // how many messages were written
    pub count: usize,
    // how many octets of the output they are, from the first one on
    pub written: usize,
}
