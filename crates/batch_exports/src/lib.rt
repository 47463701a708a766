// A batch among the calls of a tape, for tests in Rust, which call `crane_batch`. A state does not cross the boundary to C, so one call
// sets an exporter up and makes the calls before the batch, the batch and the calls after it.
#![tactic(auto)]

ghost use Rattle.std.specs.Prelude.{◌≡◌, length, take};
ghost use Rattle.octets.specs.Answers.{answer_number};
ghost use Rattle.batches.specs.Batches.{batch, batch_of, output_after_batch};
ghost use Rattle.contents.specs.Tape.{kind_at, server_at, body_of};
ghost use Rattle.events.specs.Events.{event_call, Called, settled};
ghost use Rattle.batch_exports.specs.Calls.{progress, played_to, uncalled, asked, end_of, HandedBack};

use contents::MIN_EVENTS;
use exporter::state::{Batch, State};
use octets::{Refusal, answer_number};

// What can be asked, by numbers for C: a batch's answer, how many messages and how many octets it wrote, and the answer of the last call
// after it. Any other number asks how many octets that call wrote.
const BATCH_ANSWER: u8 = 0;

const BATCH_COUNT: u8 = 1;

const BATCH_WRITTEN: u8 = 2;

const LAST_ANSWER: u8 = 3;

// The place of the first call, after settings and table.
const FIRST_CALL: u16 = MIN_EVENTS;

// Makes the call of event i on the state: answers how many octets it wrote, or the refusal, after which the state is as it was.
fn call_at(
    s: &mut State,
    tape: &[u8],
    i: u16,
    store: &mut [u8],
    out: &mut [u8],
) -> Result<usize, Refusal>
    ensures { Called (body_of tape.now 1) s.old store.old out.old
        (event_call (kind_at tape.now i) (server_at tape.now i) (body_of tape.now i) out.old)
        (settled s.new result) store.new out.new }
{
    let table = contents::body(tape, 1);
    let b = contents::body(tape, i);
    let kind = contents::kind_at(tape, i);
    let server = contents::server_at(tape, i);
    events::call_in_place(s, kind, server, b, table, store, out)
}

// Makes the calls of the events from one to that before `end`, of those that the tape has: answers what the last one does, or that no octet
// was written where none is made.
fn play(
    s: &mut State,
    tape: &[u8],
    from: u16,
    end: u16,
    store: &mut [u8],
    out: &mut [u8],
) -> Result<usize, Refusal>
    ensures { progress (settled s.new result) store.new out.new
        ≡ played_to tape.now from end (progress (uncalled s.old) store.old out.old) }
{
    let mut last = Ok(0);
    for i in from..end.min(contents::event_count(tape)) {
        last = call_at(s, tape, i, store, out);
    }
    last
}

// Makes a batch that is lent the first octets of a store, or the whole store where it has not more.
fn batch_of(s: State, store: &[u8], lent: usize, messages: &mut [u8], number: usize) -> Batch
    ensures { let b = batch number (length messages.old) s (take lent store.now) in
        (result ≡ batch_of b) × ((answer_number result.answer ≡ b.answer) × (messages.new ≡ output_after_batch messages.old b)) }
{
    exporter::batch::send_batch(s, contents::part(store, 0, lent), messages, number)
}

// The number that is asked for, of the batch and of what the last call answered.
fn asked(part: u8, b: Batch, last: Result<usize, Refusal>) -> u64
    ensures { (s : State) → result ≡ asked part (answer_number b.answer) b (settled s last) }
{
    match part {
        BATCH_ANSWER => answer_number(&b.answer) as u64,
        BATCH_COUNT => b.count as u64,
        BATCH_WRITTEN => b.written as u64,
        LAST_ANSWER => answer_number(&last) as u64,
        _ => last.unwrap_or(0) as u64,
    }
}

// Sets an exporter up by the body of event 0 and makes the calls of the events before `place`; then a batch of at most `number` messages,
// lent the first `lent` octets of the store and `messages` as its output; then the calls of the events from `place` to that before `end`.
// The calls are lent `store` and `out`. `part` says which number is handed back, 0 to 3 as named above.
#[unsafe(no_mangle)]
pub extern "C" fn crane_batch(
    tape: &[u8],
    place: u16,
    end: u16,
    number: usize,
    lent: usize,
    store: &mut [u8],
    out: &mut [u8],
    messages: &mut [u8],
    part: u8,
) -> u64
    ensures { HandedBack
        (end_of (record { tape = tape.now; place = place; end = end; number = number; lent = lent })
        store.old out.old (length messages.old))
        part messages.old result store.new out.new messages.new }
{
    let made = events::set_up(contents::body(tape, 0), store);
    let mut state = made.unwrap_or(exporter::set_up::refused_state());
    let _ = play(&mut state, tape, FIRST_CALL, place, store, out);
    let batch = batch_of(state, store, lent, messages, number);
    state = batch.state;
    let last = play(&mut state, tape, place.max(FIRST_CALL), end, store, out);
    asked(part, batch, last)
}
