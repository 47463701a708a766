// DATA ACK: a server acknowledges records, which are released from the front of the queue.
ghost use Rattle.std.specs.Prelude.{◌≡◌, ◌≤◌, []};
ghost use Rattle.octets.specs.Answers.{judge, judged, Answered, answer_number};
ghost use Rattle.session.specs.Limits.{max_held};
ghost use Rattle.session.specs.Servers.{acknowledged};
ghost use Rattle.wire.specs.Replies.{crane};
ghost use Rattle.session.specs.Steps.{ack, answer, step, wrote_of, ack_count_by, ack_checks};

use octets::Refusal;
use session::state::{Delivery, Settings, State, Wrote};

// How many records a DATA ACK of this DSN names from the front of the queue. The first held DSN is `count` before the next one; DSNs
// wrap.
fn ack_count(next: u32, count: usize, dsn: u32) -> u32
    requires { count ≤ max_held }
    ensures { result ≡ ack_count_by 32 next count dsn }
{
    let first = next.wrapping_sub(count as u32);
    let place = dsn.wrapping_sub(first);
    place.wrapping_add(1)
}

// A DATA ACK from server v that names n records is judged 2, 9, 10, 11.
fn check_ack(p: Settings, d: Delivery, v: u8, config: u8, n: usize) -> Result<(), Refusal>
    ensures { result ≡ judged (judge (ack_checks p d v config n)) tt }
{
    if p.servers <= v {
        return Err(Refusal::NoSuchServer);
    }
    if d.active != Some(v) {
        return Err(Refusal::OutOfTurn);
    }
    if config != p.config {
        return Err(Refusal::OtherConfiguration);
    }
    if d.reached < n {
        return Err(Refusal::DsnNotAcknowledgeable);
    }
    Ok(())
}

// How many records a DATA ACK from server v releases. Refused with 1, 2, 9, 10 or 11.
fn released_by(s: &State, v: u8, dsn: u32, config: u8) -> Result<usize, Refusal>
    ensures { result ≡ judged (answer crane 0 (ack v dsn config) s.now []) (ack_count_by 32 s.now.next s.now.queue.count dsn) }
{
    if !soundness::sound::is_sound(s) {
        return Err(Refusal::UnsoundState);
    }
    let n = ack_count(s.next, s.queue.count, dsn) as usize;
    check_ack(s.settings, s.delivery, v, config, n)?;
    Ok(n)
}

// The delivery after a DATA ACK that releases n records.
fn acknowledge_delivery(d: Delivery, n: usize) -> Delivery
    requires { n ≤ d.reached }
    ensures { result ≡ acknowledged n d }
{
    let mut next = d;
    if n == 0 {
        next.sent = 0;
        return next;
    }
    next.sent = d.sent.saturating_sub(n);
    next.reached = d.reached - n;
    next.timer = 0;
    next
}

// A DATA ACK from server v, which releases the records that it names: their octets are free. The servers stay, and so does the choice.
// Refused with 1, 2, 9, 10 or 11.
pub(crate) fn acknowledge(mut s: State, v: u8, dsn: u32, config: u8) -> Result<Wrote, Refusal>
    ensures { let o = step crane 0 (ack v dsn config) s [] in Answered answer_number result (wrote_of o) o.answer }
{
    let n = released_by(&s, v, dsn, config)?;
    s.start = queue::record_start(s.capacity, s.start, &s.queue.lengths, n);
    s.delivery = acknowledge_delivery(s.delivery, n);
    s.due = s.due & (n == 0);
    crate::release::release(&mut s.queue, n);
    Ok(Wrote {
        state: s,
        written: 0,
    })
}
