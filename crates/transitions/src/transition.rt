// Transitions of a server: by a message, by an offer of templates, by a line that is down.
ghost use Rattle.std.specs.Prelude.{◌≡◌, true, [], length, not, leb, ◌∷◌};
ghost use Rattle.octets.specs.Answers.{◌when◌, judge, judged, Answered, answer_number, unsound_state, no_such_server};
ghost use Rattle.wire.specs.Messages.{Placed};
ghost use Rattle.wire.specs.Replies.{crane, layout};
ghost use Rattle.session.specs.Servers.{phase_at, offer, agree, transition, with_servers};
ghost use Rattle.session.specs.Sound.{sound};
ghost use Rattle.session.specs.Steps.{move, step, reply_to, output_after, wrote_of, negotiate_checks, turn_checks};
ghost use Rattle.transitions.specs.Moves.{transition_of, table_fits, reply_of};

use octets::Refusal;
use session::limits::SERVER_ENTRIES;
use session::state::{Delivery, Phase, Server, Settings, State, Wrote};
use wire::message::Message;

// What can move a server: START, STOP, START NEGOTIATE, an offer of templates, a line that is down, and FINAL TMPL DATA ACK with its
// Configuration ID. A message that its form refuses moves nothing.
#[derive(Clone, Copy)]
pub enum Move {
    Start,
    Stop,
    Negotiate,
    Offer,
    Down,
    Agree(u8),
    Malformed(Refusal),
}

// START NEGOTIATE is judged 9.
fn check_negotiate(phase: Phase) -> Result<(), Refusal>
    ensures { result ≡ judged (judge (negotiate_checks phase)) tt }
{
    if servers::is_closed(phase) {
        return Err(Refusal::OutOfTurn);
    }
    Ok(())
}

// An offer is judged 21, 9.
fn check_offer(p: Settings, table: &[u8], phase: Phase) -> Result<(), Refusal>
    ensures { result ≡ judged (judge (turn_checks p (offer table.now) phase)) tt }
{
    if !soundness::session_table::is_sessions(p, table) {
        return Err(Refusal::UnsoundTable);
    }
    if !servers::can_offer(phase) {
        return Err(Refusal::OutOfTurn);
    }
    Ok(())
}

// FINAL TMPL DATA ACK is judged 9, 10.
fn check_agree(p: Settings, config: u8, phase: Phase) -> Result<(), Refusal>
    ensures { result ≡ judged (judge (turn_checks p (agree config) phase)) tt }
{
    if !servers::is_offered(phase) {
        return Err(Refusal::OutOfTurn);
    }
    if config != p.config {
        return Err(Refusal::OtherConfiguration);
    }
    Ok(())
}

// A transition of a server in this phase is judged by its own refusals, but for the output's length.
fn check_turn(p: Settings, m: Move, table: &[u8], phase: Phase) -> Result<(), Refusal>
    ensures { result ≡ judged (judge (turn_checks p (transition_of table.now m) phase)) tt }
{
    match m {
        Move::Start => Ok(()),
        Move::Stop => Ok(()),
        Move::Negotiate => check_negotiate(phase),
        Move::Offer => check_offer(p, table, phase),
        Move::Down => Ok(()),
        Move::Agree(config) => check_agree(p, config, phase),
        Move::Malformed(refusal) => Err(refusal),
    }
}

// A transition of server v is judged 1, 2, then by its own refusals, but for the output's length.
fn check_move(s: &State, v: u8, m: Move, table: &[u8]) -> Result<(), Refusal>
    ensures { result ≡ judged (judge ((unsound_state when not (sound s.now)) ∷ (no_such_server when leb s.now.settings.servers v)
        ∷ turn_checks s.now.settings (transition_of table.now m) (phase_at s.now.delivery.servers v))) tt }
{
    if !soundness::sound::is_sound(s) {
        return Err(Refusal::UnsoundState);
    }
    if s.settings.servers <= v {
        return Err(Refusal::NoSuchServer);
    }
    check_turn(
        s.settings,
        m,
        table,
        servers::phase_at(s.delivery.servers, v),
    )
}

// The message that a transition writes, if it writes one.
fn reply_of(p: Settings, m: Move) -> Option<Message>
    ensures { result ≡ reply_of p m }
{
    let session = p.session;
    let boot_time = p.boot;
    match m {
        Move::Start => Some(Message::StartAck { session, boot_time }),
        Move::Stop => Some(Message::StopAck { session }),
        Move::Negotiate => Some(Message::StartNegotiateAck { session }),
        Move::Offer => Some(Message::TmplData { session }),
        Move::Down => None,
        Move::Agree(_) => None,
        Move::Malformed(_) => None,
    }
}

// Writes the message that answers a transition, or offers the templates; some have none.
fn write_reply(p: Settings, m: Move, table: &[u8], out: &mut [u8]) -> Result<usize, Refusal>
    requires { table_fits (transition_of table.now m) ≡ true }
    ensures { Placed (layout (reply_to p (transition_of table.now m))) out.old result out.new }
{
    let reply = reply_of(p, m);
    match reply {
        Some(message) => wire::write::write_message(message, table, out),
        None => Ok(0),
    }
}

// The servers after a transition of one.
fn move_servers(servers: [Server; SERVER_ENTRIES], v: u8, m: Move) -> [Server; SERVER_ENTRIES]
    ensures { result ≡ transition v (transition_of [] m) servers }
{
    match m {
        Move::Start => servers::with_phase(servers, v, Phase::Started),
        Move::Stop => servers::with_phase(servers, v, Phase::Closed),
        Move::Negotiate => servers::restart_servers(servers),
        Move::Offer => servers::with_phase(servers, v, Phase::Offered),
        Move::Down => servers::with_phase(servers, v, Phase::Closed),
        Move::Agree(_) => servers::with_phase(servers, v, Phase::Agreed),
        Move::Malformed(_) => servers,
    }
}

// The delivery after a transition of one server.
fn move_delivery(d: Delivery, v: u8, m: Move) -> Delivery
    ensures { result ≡ with_servers d (transition v (transition_of [] m) d.servers) }
{
    let servers = d.servers;
    let moved = move_servers(servers, v, m);
    let mut next = d;
    next.servers = moved;
    next
}

// A transition of server v. Refused with 1, 2, then by its own refusals, then with 12 where its message does not fit the output.
pub fn move_server(
    mut s: State,
    v: u8,
    m: Move,
    table: &[u8],
    out: &mut [u8],
) -> Result<Wrote, Refusal>
    ensures { let o = step crane (length out.old) (move v (transition_of table.now m)) s [] in
        Answered answer_number result (wrote_of o) o.answer × (out.new ≡ output_after out.old o) }
{
    check_move(&s, v, m, table)?;
    // In place of `?`, so that the must-fail edit short_output_answers_0 changes the answer to a short output alone.
    let written = match write_reply(s.settings, m, table, out) {
        Ok(n) => n,
        Err(refusal) => return Err(refusal),
    };
    let change = servers::change::settle_change(s.settings, move_delivery(s.delivery, v, m), s.due);
    servers::change::apply(&mut s, change);
    Ok(Wrote { state: s, written })
}
