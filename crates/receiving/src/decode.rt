// What a received message asks for.
ghost use Rattle.std.specs.Prelude.{◌≡◌, ℕ};
ghost use Rattle.wire.specs.Messages.{read_of};
ghost use Rattle.session.specs.Steps.{is_received, call_of_message, received};
ghost use Rattle.receiving.specs.Requests.{call_of_request, call_of_reading};

use octets::Refusal;
use session::state::Settings;
use transitions::transition::Move;
use wire::message::Message;

// A DATA ACK with its DSN and Configuration ID, or a transition.
#[derive(Clone, Copy)]
pub enum Request {
    Ack(u32, u8),
    Move(Move),
}

// A message that moves nothing, by its refusal.
fn refuse_message(refusal: Refusal) -> Request
    ensures { result ≡ Request.Move (Move.Malformed refusal) }
{
    Request::Move(Move::Malformed(refusal))
}

// Whether an exporter accepts the messages with this number.
fn is_received(number: u8) -> bool
    ensures { result ≡ is_received number }
{
    (number == Message::START)
        | (number == Message::STOP)
        | (number == Message::FINAL_TMPL_DATA_ACK)
        | (number == Message::START_NEGOTIATE)
        | (number == Message::DATA_ACK)
}

// What a message asks for, by its meaning; those that an exporter does not accept are refused before.
fn decode_message(message: Message) -> Request
    ensures { (v : ℕ) → call_of_request v result ≡ call_of_message v message }
{
    match message {
        Message::Start { session: _ } => Request::Move(Move::Start),
        Message::StartAck {
            session: _,
            boot_time: _,
        } => refuse_message(Refusal::MessageNotAccepted),
        Message::Stop { session: _ } => Request::Move(Move::Stop),
        Message::StopAck { session: _ } => refuse_message(Refusal::MessageNotAccepted),
        Message::TmplData { session: _ } => refuse_message(Refusal::MessageNotAccepted),
        Message::FinalTmplDataAck { session: _, config } => Request::Move(Move::Agree(config)),
        Message::StartNegotiate { session: _ } => Request::Move(Move::Negotiate),
        Message::StartNegotiateAck { session: _ } => refuse_message(Refusal::MessageNotAccepted),
        Message::Data(_) => refuse_message(Refusal::MessageNotAccepted),
        Message::DataAck {
            session: _,
            dsn,
            config,
        } => Request::Ack(dsn, config),
    }
}

// What the octets of a message ask for, by what reading them alone answers.
fn decode_body(message: &[u8]) -> Request
    ensures { (v : ℕ) → call_of_request v result ≡ call_of_reading v (read_of message.now) }
{
    let reading = wire::read::read_message(message);
    match reading {
        Ok(m) => decode_message(m),
        Err(refusal) => refuse_message(refusal),
    }
}

// What the octets of a message ask for: judged 3, 4, 5 by the header, 6, 7, then by the body.
pub(crate) fn decode(p: Settings, message: &[u8]) -> Request
    ensures { (v : ℕ) → call_of_request v result ≡ received p v message.now }
{
    let header = wire::read::read_header(message);
    match header {
        Ok(h) => {
            if h.session != p.session {
                return refuse_message(Refusal::OtherSession);
            }
            if !is_received(h.number) {
                return refuse_message(Refusal::MessageNotAccepted);
            }
            decode_body(message)
        }
        Err(refusal) => refuse_message(refusal),
    }
}
