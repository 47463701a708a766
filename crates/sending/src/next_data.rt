// Sending the next record of the queue.
ghost use Rattle.std.specs.Prelude.{◌≡◌, ◌^◌, ◌<◌, ◌≤◌, not, ◌&&◌, [], ◌∷◌, length, ◌==◌, slice_index};
ghost use Rattle.octets.specs.Answers.{◌when◌, judge, judged, Answered, answer_number, unsound_state};
ghost use Rattle.wire.specs.Messages.{max_record_octets, Placed, layout_of};
ghost use Rattle.wire.specs.Replies.{layout};
ghost use Rattle.messages.specs.declared.message.Message.TheVariants.{Data};
ghost use Rattle.session.specs.Limits.{max_servers, max_held};
ghost use Rattle.session.specs.Queue.{marked_set, ring_read};
ghost use Rattle.session.specs.Sound.{sound};
ghost use Rattle.queue.specs.Rings.{record_start};
ghost use Rattle.sending.specs.Sendings.{SendFacts};
ghost use Rattle.soundness.specs.Parts.{Below};
ghost use Rattle.session.specs.Steps.{dsn_at_by, is_first, is_duplicate, head_of, send_checks, next_data, written, after};
ghost use Rattle.session.specs.Steps.{next_data_step, wrote_of, output_after};

use octets::Refusal;
use session::state::{Settings, State, Wrote};
use wire::message::DataHead;

// The state is sound and the lent store of the length set, else 1. `stored`: the length of the lent store.
pub(crate) fn check_usable(s: &State, stored: usize) -> Result<(), Refusal>
    ensures { result ≡ judged (judge ((unsound_state when not (sound s.now && stored == s.now.capacity)) ∷ [])) tt }
{
    if !(soundness::sound::is_sound(s) & (stored == s.capacity)) {
        return Err(Refusal::UnsoundState);
    }
    Ok(())
}

// There is a record to send and a server to send it to, else 1, 13 or 14. `stored`: the length of the lent store.
pub(crate) fn check_send(s: &State, stored: usize) -> Result<(), Refusal>
    ensures { result ≡ judged (judge ((unsound_state when not (sound s.now && stored == s.now.capacity))
        ∷ send_checks s.now.delivery s.now.queue.count)) tt }
{
    check_usable(s, stored)?;
    if s.delivery.active.is_none() {
        return Err(Refusal::NoActiveServer);
    }
    if s.queue.count <= s.delivery.sent {
        return Err(Refusal::NothingToSend);
    }
    Ok(())
}

// Whether the record at place i has S.
fn is_first(due: bool, i: usize) -> bool
    ensures { result ≡ is_first due i }
{
    due & (i == 0)
}

// Whether a record that was sent to a set of servers is a duplicate for the active one.
fn is_duplicate(p: Settings, active: Option<u8>, set: u16) -> bool
    requires { Below max_servers active × (set < 2 ^ p.servers) }
    ensures { result ≡ is_duplicate p active set }
{
    match active {
        None => false,
        Some(v) => crate::sets::has_other(set, v),
    }
}

// The DSN of the record at place i: the first of the `count` held ones is that many before the next DSN.
fn dsn_at(next: u32, count: usize, i: usize) -> u32
    requires { (count ≤ max_held) × (i ≤ max_held) }
    ensures { result ≡ dsn_at_by 32 next count i }
{
    let first = next.wrapping_sub(count as u32);
    first.wrapping_add(i as u32)
}

// The head of the next DATA.
fn next_head(s: &State) -> DataHead
    requires { (s.now.queue.count ≤ max_held) × ((s.now.delivery.sent < max_held) × (Below max_servers s.now.delivery.active
        × (slice_index s.now.queue.receivers s.now.delivery.sent < 2 ^ s.now.settings.servers))) }
    ensures { result ≡ head_of 32 s.now }
{
    let i = s.delivery.sent;
    DataHead {
        session: s.settings.session,
        template: s.queue.templates[i],
        config: s.settings.config,
        first: is_first(s.due, i),
        duplicate: is_duplicate(s.settings, s.delivery.active, s.queue.receivers[i]),
        dsn: dsn_at(s.next, s.queue.count, i),
    }
}

// Writes a DATA whose record lies in the store from a place on.
#[inline(always)]
fn write_record(
    head: DataHead,
    store: &[u8],
    at: usize,
    len: usize,
    out: &mut [u8],
) -> Result<usize, Refusal>
    requires { (at < length store.now) × ((len ≤ length store.now) × (len ≤ max_record_octets)) }
    ensures { let octets = ring_read (length store.now) store.now at len in
        Placed (layout_of (Data head) octets) out.old result out.new }
{
    let n = wire::write::write_data_head(head, len, out)?;
    queue::ring::ring_read(store, at, len, out, wire::message::DATA_HEAD_OCTETS);
    Ok(n)
}

// Writes the record at place "sent", which lies in the store from a place on, as DATA, if there is room for it.
#[inline(always)]
pub(crate) fn write_next(
    s: &State,
    store: &[u8],
    at: usize,
    out: &mut [u8],
) -> Result<usize, Refusal>
    requires { SendFacts s.now store.now × (at ≡ record_start s.now.capacity s.now.start s.now.queue.lengths s.now.delivery.sent) }
    ensures { Placed (layout (written 32 next_data s.now store.now)) out.old result out.new }
{
    let len = s.queue.lengths[s.delivery.sent] as usize;
    let head = next_head(s);
    write_record(head, store, at, len, out)
}

// A set of servers with the active one.
fn marked_set(active: Option<u8>, set: u16) -> u16
    requires { Below max_servers active }
    ensures { result ≡ marked_set active set }
{
    match active {
        None => set,
        Some(v) => crate::sets::with_server(set, v),
    }
}

// The state after the record at place "sent" was sent: its set has the active server.
pub(crate) fn mark_sent(s: &mut State)
    requires { (s.old.delivery.sent < max_held) × Below max_servers s.old.delivery.active }
    ensures { s.new ≡ after 32 next_data s.old }
{
    let i = s.delivery.sent;
    s.queue.receivers[i] = marked_set(s.delivery.active, s.queue.receivers[i]);
    s.delivery.sent = i + 1;
    s.delivery.reached = s.delivery.reached.max(i + 1);
}

// Sends the next unsent record as DATA to the active server, into the output. Refused with 1, 13, 14 or 12.
pub fn next_data(mut s: State, store: &[u8], out: &mut [u8]) -> Result<Wrote, Refusal>
    ensures { let o = next_data_step s store.now out.old in
        Answered answer_number result (wrote_of o) o.answer × (out.new ≡ output_after out.old o) }
{
    check_send(&s, store.len())?;
    let at = queue::record_start(s.capacity, s.start, &s.queue.lengths, s.delivery.sent);
    // In place of `?`, so that the must-fail edit short_output_answers_0 changes the answer to a short output alone.
    let written = match write_next(&s, store, at, out) {
        Ok(n) => n,
        Err(refusal) => return Err(refusal),
    };
    mark_sent(&mut s);
    Ok(Wrote { state: s, written })
}
