// A session, for benchmarks in Rust, which call `crane_session`: an exporter is set up and makes one call after the other, as lent events
// ask for, since a state does not cross the boundary to C. Each call that it makes stands here once, as in a program that uses the
// exporter: the compiler then puts it in its caller's place. So nothing else stands in this crate.
#![tactic(auto)]

ghost use Rattle.std.specs.Prelude.{◌≡◌, ◌+◌, ◌≤◌, ℕ, List, length};
ghost use Rattle.session.specs.InOctets.{Put, NextData, Receive, OfferTemplates, Tick};
ghost use Rattle.batches.specs.Batches.{Single, SendBatch};
ghost use Rattle.sessions.specs.Sessions.{settings_of, event_octets, message_at, added, stepped, wrote, event_count, progress, call_at, after, played};
ghost use Rattle.sessions.specs.Sessions.{session_end, PlayedTo};

use exporter::limits::SERVER_ENTRIES;
use exporter::state::{Settings, State, Wrote};
use octets::{DONE, Refusal, answer_number};

// The octets of an event: its call, its server, the length of its message modulo 17, and 16 octets, the first of which are the message.
const EVENT_OCTETS: usize = 19;

// How many lengths a message of an event can have, 0 to 16.
const MESSAGE_LENGTHS: u8 = 17;

// The calls of events; any other number is a message that is received. Numbers, as C lends them.
const PUT: u8 = 0;

const NEXT_DATA: u8 = 1;

const TICK: u8 = 2;

const OFFER: u8 = 3;

// At most as many messages as the octet of the server says.
const BATCH: u8 = 4;

// The settings of a session: all priorities are 0.
fn settings(servers: u8, threshold: u8, duration: u16, initial: u32) -> Settings
    ensures { result ≡ settings_of servers threshold duration initial }
{
    let priorities = [0u8; SERVER_ENTRIES];
    Settings {
        session: 7,
        config: 1,
        boot: 3600,
        initial,
        servers,
        priorities,
        threshold,
        duration,
    }
}

// The message of the event at a place.
fn message_at(events: &[u8], at: usize) -> &[u8]
    requires { at + event_octets ≤ length events.now }
    ensures { result.now ≡ message_at events.now at }
{
    let start = at + 3;
    let end = start + ((events[at + 2] % MESSAGE_LENGTHS) as usize);
    &events[start..end]
}

// A sum with an answer and a number of octets added, modulo 2 to the 64.
fn add(total: u64, answer: u8, written: usize) -> u64
    ensures { result ≡ added total answer written }
{
    total
        .wrapping_add(answer as u64)
        .wrapping_add(written as u64)
}

// Takes what a call left that writes no message: the state, which after a refusal stays; gives the sum with its answer.
fn take_stepped(state: &mut State, total: u64, left: &Result<State, Refusal>) -> u64
    ensures state { state.new ≡ (stepped state.old total left.now).0 }
    ensures sum { result ≡ (stepped state.old total left.now).1 }
{
    match left {
        Ok(next) => {
            *state = *next;
            add(total, DONE, 0)
        }
        Err(refusal) => add(total, refusal.number(), 0),
    }
}

// The same of a call that may write one: the octets written are added too.
fn take_wrote(state: &mut State, total: u64, left: &Result<Wrote, Refusal>) -> u64
    ensures state { state.new ≡ (wrote state.old total left.now).0 }
    ensures sum { result ≡ (wrote state.old total left.now).1 }
{
    match left {
        Ok(wrote) => {
            *state = wrote.state;
            add(total, DONE, wrote.written)
        }
        Err(refusal) => add(total, refusal.number(), 0),
    }
}

// Puts the record; gives the sum with the answer. One call for each function here and below: what a call answers has the size of a state,
// and a function makes room for each answer that it can get.
fn put_record(
    state: &mut State,
    total: u64,
    store: &mut [u8],
    table: &[u8],
    id: u16,
    r: &[u8],
) -> u64
    ensures { (out : List ℕ) → progress state.new store.new out result
        ≡ after (Single (Put table.now id r.now)) (progress state.old store.old out total) }
{
    let left = exporter::put::put(*state, store, table, id, r);
    take_stepped(state, total, &left)
}

// Sends the next record; gives the sum with the answer and the octets written.
fn send_next(state: &mut State, total: u64, store: &[u8], out: &mut [u8]) -> u64
    ensures { progress state.new store.now out.new result
        ≡ after (Single (NextData out.old)) (progress state.old store.now out.old total) }
{
    let left = exporter::next_data::next_data(*state, store, out);
    take_wrote(state, total, &left)
}

// A tick; gives the sum with the answer.
fn tick(state: &mut State, total: u64) -> u64
    ensures { (store out : List ℕ) → progress state.new store out result
        ≡ after (Single Tick) (progress state.old store out total) }
{
    let left = exporter::tick::tick(*state);
    take_stepped(state, total, &left)
}

// Offers the table to a server; gives the sum with the answer and the octets written.
fn offer(state: &mut State, total: u64, server: u8, table: &[u8], out: &mut [u8]) -> u64
    ensures { (store : List ℕ) → progress state.new store out.new result
        ≡ after (Single (OfferTemplates server table.now out.old)) (progress state.old store out.old total) }
{
    let left = exporter::offer_templates::offer_templates(*state, server, table, out);
    take_wrote(state, total, &left)
}

// Sends a batch of at most `limit` messages; gives the sum with its answer, octets written and count.
fn send_batch(state: &mut State, total: u64, store: &[u8], out: &mut [u8], limit: u8) -> u64
    ensures { progress state.new store.now out.new result
        ≡ after (SendBatch limit out.old) (progress state.old store.now out.old total) }
{
    let left = exporter::batch::send_batch(*state, store, out, limit as usize);
    *state = left.state;
    add(total, answer_number(&left.answer), left.written).wrapping_add(left.count as u64)
}

// Receives a message from a server; gives the sum with the answer and the octets written.
fn receive(state: &mut State, total: u64, server: u8, message: &[u8], out: &mut [u8]) -> u64
    ensures { (store : List ℕ) → progress state.new store out.new result
        ≡ after (Single (Receive server message.now out.old)) (progress state.old store out.old total) }
{
    let left = exporter::receive::receive(*state, server, message, out);
    take_wrote(state, total, &left)
}

// Makes the call of the event at a place; gives the sum with its answer, octets written and count of a batch.
fn play_event(
    state: &mut State,
    total: u64,
    store: &mut [u8],
    table: &[u8],
    id: u16,
    r: &[u8],
    events: &[u8],
    at: usize,
    out: &mut [u8],
) -> u64
    requires { at + event_octets ≤ length events.now }
    ensures { progress state.new store.new out.new result
        ≡ after (call_at (record { table = table.now; template = id; octets = r.now; events = events.now }) at out.old)
        (progress state.old store.old out.old total) }
{
    let server = events[at + 1];
    match events[at] {
        PUT => put_record(state, total, store, table, id, r),
        NEXT_DATA => send_next(state, total, store, out),
        TICK => tick(state, total),
        OFFER => offer(state, total, server, table, out),
        BATCH => send_batch(state, total, store, out, server),
        _ => receive(state, total, server, message_at(events, at), out),
    }
}

// Makes the calls of all events, and sums up the answers, the octets written and the counts of batches.
fn play(
    mut state: State,
    mut total: u64,
    store: &mut [u8],
    table: &[u8],
    id: u16,
    r: &[u8],
    events: &[u8],
    out: &mut [u8],
) -> u64
    ensures { PlayedTo (played
        (record { table = table.now; template = id; octets = r.now; events = events.now })
        (event_count events.now)
        (progress state store.old out.old total)) result store.new out.new }
{
    for i in 0..events.len() / EVENT_OCTETS {
        total = play_event(
            &mut state,
            total,
            store,
            table,
            id,
            r,
            events,
            EVENT_OCTETS * i,
            out,
        );
    }
    total
}

// Sets an exporter up over a store and makes the calls of all events, each put of the same record: the sum of the answers, of the octets
// written and of the counts of batches, modulo 2 to the 64.
#[unsafe(no_mangle)]
pub extern "C" fn crane_session(
    servers: u8,
    threshold: u8,
    duration: u16,
    initial: u32,
    store: &mut [u8],
    table: &[u8],
    id: u16,
    r: &[u8],
    events: &[u8],
    out: &mut [u8],
) -> u64
    ensures { PlayedTo (session_end (settings_of servers threshold duration initial)
        (record { table = table.now; template = id; octets = r.now; events = events.now })
        store.old out.old) result store.new out.new }
{
    let made = exporter::set_up::set_up(settings(servers, threshold, duration, initial), store);
    play(
        made.unwrap_or(exporter::set_up::refused_state()),
        answer_number(&made) as u64,
        store,
        table,
        id,
        r,
        events,
        out,
    )
}
