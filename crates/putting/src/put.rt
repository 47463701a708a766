// Putting a record into the queue.
ghost use Rattle.std.specs.Prelude.{◌≡◌, ◌<◌, not, ◌&&◌, ◌==◌, ◌∷◌, ◌++◌, length};
ghost use Rattle.octets.specs.Answers.{◌when◌, judge, judged, Answered, answer_number, unsound_state};
ghost use Rattle.session.specs.Limits.{max_held};
ghost use Rattle.session.specs.Queue.{pushed};
ghost use Rattle.session.specs.Sound.{sound};
ghost use Rattle.session.specs.Steps.{put_step, stepped_of, record_checks, room_checks};

use octets::Refusal;
use session::limits::MAX_HELD;
use session::state::{Queue, Settings, State};
use wire::message::MAX_RECORD_OCTETS;

// A record under the session's table is valid and has at most 1,024 octets, else it is refused with 21, 15, 17 or 16.
fn check_record(p: Settings, table: &[u8], id: u16, r: &[u8]) -> Result<(), Refusal>
    ensures { result ≡ judged (judge (record_checks p table.now id r.now)) tt }
{
    if wire::table::configuration_id(table) != p.config {
        return Err(Refusal::UnsoundTable);
    }
    let checked = wire::record::check_record(table, id, r);
    if r.len() <= MAX_RECORD_OCTETS {
        return checked;
    }
    match checked {
        Ok(()) => Err(Refusal::RecordTooLong),
        Err(Refusal::RecordInvalid) => Err(Refusal::RecordTooLong),
        Err(refusal) => Err(refusal),
    }
}

// A record finds room beside the held ones, which have `held` octets together, else it is refused with 18 or 19.
#[tactic(auto, unfolding(numbers::specs::Answers::judged, numbers::specs::Answers::refusal_of))]
fn check_room(s: &State, held: u32, r: &[u8]) -> Result<(), Refusal>
    ensures { result ≡ judged (judge (room_checks s.now.capacity s.now.queue.count held r.now)) tt }
{
    if MAX_HELD <= s.queue.count {
        return Err(Refusal::QueueFull);
    }
    if s.capacity < (held as usize) + r.len() {
        return Err(Refusal::StoreFull);
    }
    Ok(())
}

// A record can be put, else the refusal is the first of put's. `stored`: the length of the lent store; `held`: the octets of the held
// records together.
fn check_put(
    s: &State,
    stored: usize,
    held: u32,
    table: &[u8],
    id: u16,
    r: &[u8],
) -> Result<(), Refusal>
    ensures { result ≡ judged (judge ((unsound_state when not (sound s.now && stored == s.now.capacity))
        ∷ (record_checks s.now.settings table.now id r.now ++ room_checks s.now.capacity s.now.queue.count held r.now))) tt }
{
    let usable = soundness::sound::is_sound(s) & (stored == s.capacity);
    if !usable {
        return Err(Refusal::UnsoundState);
    }
    check_record(s.settings, table, id, r)?;
    check_room(s, held, r)
}

// Adds a record to the queue, which nobody was sent.
fn push(q: &mut Queue, id: u16, len: u16)
    requires { q.old.count < max_held }
    ensures { q.new ≡ pushed q.old id len }
{
    let place = q.count;
    q.lengths[place] = len;
    q.templates[place] = id;
    q.receivers[place] = 0;
    q.count = place + 1;
}

// Puts a record under a template ID of the lent table: it takes the next DSN, and its octets follow the held ones in the store. Refused
// with 1, 21, 15, 17, 16, 18 or 19.
pub fn put(
    mut s: State,
    store: &mut [u8],
    table: &[u8],
    id: u16,
    r: &[u8],
) -> Result<State, Refusal>
    ensures { let o = put_step s store.old table.now id r.now in
        Answered answer_number result (stepped_of o) o.answer × (store.new ≡ o.store) }
{
    let held = queue::octets_to(&s.queue.lengths, s.queue.count);
    check_put(&s, store.len(), held, table, id, r)?;
    queue::ring::ring_write(store, s.start + (held as usize), r);
    push(&mut s.queue, id, r.len() as u16);
    s.next = s.next.wrapping_add(1);
    Ok(s)
}
