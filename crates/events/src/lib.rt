// The events of a tape: its settings, the answer to its table, and the call that an event makes of an exporter. `tape` takes them in turn.
// Every function answers any octets.
#![tactic(auto)]

ghost use Rattle.std.specs.Prelude.{◌≡◌, ℕ, List, length, drop};
ghost use Rattle.octets.specs.Numbers.{uint_at};
ghost use Rattle.session.specs.InOctets.{Put, Receive, LineDown, Tick, NextData, OfferTemplates};
ghost use Rattle.octets.specs.Answers.{answer_number, judged, Answered};
ghost use Rattle.exporter.specs.Steps.{made_of};
ghost use Rattle.contents.specs.Tape.{body_of, template_id_octets};
ghost use Rattle.events.specs.Events.{priorities_of, settings_of, set_up_by, store_length, table_answer};
ghost use Rattle.events.specs.Events.{event_call, Gives, Called, left_by, stepped_by, settled};

use contents::{Kind, PRIORITIES_AT, TEMPLATE_ID_OCTETS};
use exporter::limits::SERVER_ENTRIES;
use exporter::state::{Settings, State, Wrote};
use octets::{DONE, Refusal};

// What the call of an event left: the state, which after a refusal is the one that came; the number that it answered; and how many octets
// of the output it wrote. A number and no `Result`: it is printed, and the definitions of a replay count in numbers.
#[derive(Clone, Copy)]
pub struct Left {
    pub state: State,
    pub answer: u8,
    pub written: usize,
}

// The priorities in the body of event 0, 0 for those that it does not have.
fn priorities_of(b: &[u8]) -> [u8; SERVER_ENTRIES]
    ensures { result ≡ priorities_of b.now }
{
    let mut priorities = [0u8; SERVER_ENTRIES];
    octets::copy(
        &mut priorities[..],
        0,
        contents::part(b, PRIORITIES_AT, SERVER_ENTRIES),
    );
    priorities
}

// The settings in the body of event 0.
pub fn settings_of(b: &[u8]) -> Settings
    ensures { result ≡ settings_of b.now }
{
    Settings {
        session: octets::get(b, 0),
        config: octets::get(b, 1),
        boot: octets::get(b, 12),
        initial: octets::get(b, 8),
        servers: octets::get(b, 2),
        priorities: priorities_of(b),
        threshold: octets::get(b, 3),
        duration: octets::get(b, 4),
    }
}

// Sets an exporter up by the settings in the body of event 0. Refused with 20 also where they name more servers than they have priorities.
pub fn set_up(b: &[u8], store: &[u8]) -> Result<State, Refusal>
    ensures { let m = set_up_by b.now (length store.now) in Answered answer_number result (made_of m) m.answer }
{
    let settings = settings_of(b);
    if b.len().saturating_sub(PRIORITIES_AT) < settings.servers as usize {
        return Err(Refusal::SettingsOutsideLimits);
    }
    exporter::set_up::set_up(settings, store)
}

// The length of the store that a tape's settings name.
pub fn store_length(tape: &[u8]) -> usize
    ensures { result ≡ store_length (body_of tape.now 0) }
{
    octets::get::<u16>(contents::body(tape, 0), 6) as usize + 1
}

// Nothing for the session's table, else 21.
pub fn check_table(p: Settings, table: &[u8]) -> Result<(), Refusal>
    ensures { Answered answer_number result (judged (table_answer p table.now) tt) (table_answer p table.now) }
{
    if !exporter::session_table::is_sessions(p, table) {
        return Err(Refusal::UnsoundTable);
    }
    Ok(())
}

// The record in a put's body.
fn record_of(b: &[u8]) -> &[u8]
    ensures { result.now ≡ drop template_id_octets b.now }
{
    let len = b.len();
    if len < TEMPLATE_ID_OCTETS {
        return &b[len..];
    }
    &b[TEMPLATE_ID_OCTETS..]
}

// Takes the state that a call without output left, if it was not refused.
fn take_stepped(s: &mut State, stepped: &Result<State, Refusal>) -> Result<usize, Refusal>
    ensures { settled s.new result ≡ stepped_by s.old stepped.now }
{
    match stepped {
        Ok(next) => {
            *s = *next;
            Ok(0)
        }
        Err(refusal) => Err(*refusal),
    }
}

// The same of a call that may write.
fn take_wrote(s: &mut State, wrote: &Result<Wrote, Refusal>) -> Result<usize, Refusal>
    ensures { settled s.new result ≡ left_by s.old wrote.now }
{
    match wrote {
        Ok(left) => {
            *s = left.state;
            Ok(left.written)
        }
        Err(refusal) => Err(*refusal),
    }
}

// Puts the record in a put's body. One call for each function here and below: what a call answers has the size of a state, and a function
// makes room for each such answer at its start.
fn put_record(s: &mut State, b: &[u8], table: &[u8], store: &mut [u8]) -> Result<usize, Refusal>
    ensures { (out : List ℕ) → Gives s.old store.old out (Put table.now (uint_at b.now 0 2) (drop template_id_octets b.now))
        (settled s.new result) store.new out }
{
    let id = octets::get(b, 0);
    let stepped = exporter::put::put(*s, store, table, id, record_of(b));
    take_stepped(s, &stepped)
}

// Takes a message from a server.
fn receive(s: &mut State, server: u8, message: &[u8], out: &mut [u8]) -> Result<usize, Refusal>
    ensures { (store : List ℕ) → Gives s.old store out.old (Receive server message.now out.old) (settled s.new result) store out.new }
{
    let wrote = exporter::receive::receive(*s, server, message, out);
    take_wrote(s, &wrote)
}

// The line to a server is down.
fn line_down(s: &mut State, server: u8) -> Result<usize, Refusal>
    ensures { (store out : List ℕ) → Gives s.old store out (LineDown server) (settled s.new result) store out }
{
    let stepped = exporter::line_down::line_down(*s, server);
    take_stepped(s, &stepped)
}

// One tick passes.
fn tick(s: &mut State) -> Result<usize, Refusal>
    ensures { (store out : List ℕ) → Gives s.old store out Tick (settled s.new result) store out }
{
    let stepped = exporter::tick::tick(*s);
    take_stepped(s, &stepped)
}

// Sends the next record.
fn send_next(s: &mut State, store: &[u8], out: &mut [u8]) -> Result<usize, Refusal>
    ensures { Gives s.old store.now out.old (NextData out.old) (settled s.new result) store.now out.new }
{
    let wrote = exporter::next_data::next_data(*s, store, out);
    take_wrote(s, &wrote)
}

// Offers the table to a server.
fn offer(s: &mut State, server: u8, table: &[u8], out: &mut [u8]) -> Result<usize, Refusal>
    ensures { (store : List ℕ) → Gives s.old store out.old (OfferTemplates server table.now out.old) (settled s.new result) store out.new }
{
    let wrote = exporter::offer_templates::offer_templates(*s, server, table, out);
    take_wrote(s, &wrote)
}

// Makes the call of an event on a state that is lent: answers how many octets it wrote, or the refusal, after which the state is as it was.
pub fn call_in_place<'a>(
    s: &mut State,
    kind: u8,
    server: u8,
    b: &'a [u8],
    table: &'a [u8],
    store: &mut [u8],
    out: &mut [u8],
) -> Result<usize, Refusal>
    ensures { Gives s.old store.old out.old (event_call kind server b.now out.old table.now) (settled s.new result) store.new out.new }
{
    match kind {
        Kind::PUT => put_record(s, b, table, store),
        Kind::MESSAGE => receive(s, server, b, out),
        Kind::DOWN => line_down(s, server),
        Kind::TICK => tick(s),
        Kind::NEXT => send_next(s, store, out),
        _ => offer(s, server, table, out),
    }
}

// Makes the call of an event, and hands back what it left: its number is printed, and the state goes on after a refusal.
pub fn call<'a>(
    mut s: State,
    kind: u8,
    server: u8,
    b: &'a [u8],
    table: &'a [u8],
    store: &mut [u8],
    out: &mut [u8],
) -> Left
    ensures { Called table.now s store.old out.old
        (event_call kind server b.now out.old) result store.new out.new }
{
    match call_in_place(&mut s, kind, server, b, table, store, out) {
        Ok(written) => Left {
            state: s,
            answer: DONE,
            written,
        },
        Err(refusal) => Left {
            state: s,
            answer: refusal.number(),
            written: 0,
        },
    }
}
