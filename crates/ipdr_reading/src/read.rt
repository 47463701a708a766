// Reading a message alone, by the layout of its octets.
ghost use Rattle.std.specs.Prelude.{◌≡◌, cond, [], ◌+◌, eqb, length, drop, Ok, Err};
ghost use Rattle.octets.specs.Answers.{Answered, answer_number, judged};
ghost use Rattle.numbers.specs.declared.refusal.Refusal.TheVariants.{BodyLengthWrong};
ghost use Rattle.ipdr.specs.Fields.{length_octets, counted_fits};
ghost use Rattle.ipdr.specs.Messages.{counted_place, content_of, connect, session_start, data_number, body_answer, read_body};
ghost use Rattle.ipdr.specs.Messages.{read_answer, read_of, part_at, part_of};

use headers::header::{HEADER_OCTETS, check_header};
use ipdr::message::{
    CONNECT_FIXED, CONNECT_RESPONSE_FIXED, Connect, Content, DATA_ACKNOWLEDGE_OCTETS, DATA_FIXED,
    DataHead, ERROR_FIXED, LENGTH_OCTETS, Message, SESSION_START_OCTETS, STOP_FIXED, SessionStart,
    VERSION,
};
use octets::Refusal;

// What a CONNECT says.
#[tactic(auto, unfolding(ipdr::specs::Messages::content_by, ipdr::specs::Messages::widths_of))]
fn connect_of(message: &[u8]) -> Content
    ensures { result ≡ content_of connect message.now }
{
    Content::Connect(Connect {
        initiator_id: octets::get(message, 8),
        initiator_port: octets::get(message, 12),
        capabilities: octets::get(message, 14),
        keep_alive_interval: octets::get(message, 18),
    })
}

// What a SESSION START says.
#[tactic(auto, unfolding(ipdr::specs::Messages::content_by, ipdr::specs::Messages::widths_of))]
fn session_start_of(message: &[u8]) -> Content
    ensures { result ≡ content_of session_start message.now }
{
    Content::SessionStart(SessionStart {
        exporter_boot_time: octets::get(message, 8),
        first_record_sequence_number: octets::get(message, 12),
        dropped_record_count: octets::get(message, 20),
        primary: octets::get::<u8>(message, 28) != 0,
        ack_time_interval: octets::get(message, 29),
        ack_sequence_interval: octets::get(message, 33),
        document_id_high: octets::get(message, 37),
        document_id_low: octets::get(message, 45),
    })
}

// What a DATA says in front of its record.
#[tactic(auto, unfolding(ipdr::specs::Messages::content_by, ipdr::specs::Messages::widths_of))]
fn data_of(message: &[u8]) -> Content
    ensures { result ≡ content_of data_number message.now }
{
    Content::Data(DataHead {
        template_id: octets::get(message, 8),
        config_id: octets::get(message, 10),
        duplicate: octets::get::<u8>(message, 12) % 2 == 1,
        sequence_num: octets::get(message, 13),
    })
}

// What the message with a number says; asked only of a number that is a message's.
#[tactic(auto, unfolding(ipdr::specs::Messages::content_by, ipdr::specs::Messages::widths_of))]
fn content_of(number: u8, message: &[u8]) -> Content
    ensures { result ≡ content_of number message.now }
{
    match number {
        Message::FLOW_START => Content::FlowStart,
        Message::FLOW_STOP => Content::FlowStop {
            reason_code: octets::get(message, 8),
        },
        Message::CONNECT => connect_of(message),
        Message::CONNECT_RESPONSE => Content::ConnectResponse {
            capabilities: octets::get(message, 8),
            keep_alive_interval: octets::get(message, 12),
        },
        Message::DISCONNECT => Content::Disconnect,
        Message::SESSION_START => session_start_of(message),
        Message::SESSION_STOP => Content::SessionStop {
            reason_code: octets::get(message, 8),
        },
        Message::DATA => data_of(message),
        Message::DATA_ACKNOWLEDGE => Content::DataAcknowledge {
            config_id: octets::get(message, 8),
            sequence_num: octets::get(message, 10),
        },
        Message::ERROR => Content::Error {
            time_stamp: octets::get(message, 8),
            error_code: octets::get(message, 12),
        },
        _ => Content::FlowStart,
    }
}

// Whether from a place on there stand a length and exactly as many octets, to the message's end.
fn counted_fits(message: &[u8], at: usize) -> bool
    ensures { result ≡ counted_fits message.now at }
{
    if message.len().saturating_sub(at) < LENGTH_OCTETS {
        return false;
    }
    let len = octets::u32_of(
        message[at],
        message[at + 1],
        message[at + 2],
        message[at + 3],
    );
    len as usize == message.len() - (at + LENGTH_OCTETS)
}

// Whether a message has so many octets; else 8.
fn check_length(message: &[u8], len: usize) -> Result<(), Refusal>
    ensures { result ≡ cond (eqb (length message.now) len) (Ok tt) (Err BodyLengthWrong) }
{
    if message.len() != len {
        return Err(Refusal::BodyLengthWrong);
    }
    Ok(())
}

// Whether a text or a record behind its length ends a message, from a place on; else 8.
fn check_counted(message: &[u8], at: usize) -> Result<(), Refusal>
    ensures { result ≡ cond (counted_fits message.now at) (Ok tt) (Err BodyLengthWrong) }
{
    if !counted_fits(message, at) {
        return Err(Refusal::BodyLengthWrong);
    }
    Ok(())
}

// Whether a message's body is as its number asks; else 7 or 8.
fn check_body(number: u8, message: &[u8]) -> Result<(), Refusal>
    ensures { result ≡ judged (body_answer number message.now) tt }
{
    match number {
        Message::FLOW_START => check_length(message, HEADER_OCTETS),
        Message::FLOW_STOP => check_counted(message, STOP_FIXED),
        Message::CONNECT => check_counted(message, CONNECT_FIXED),
        Message::CONNECT_RESPONSE => check_counted(message, CONNECT_RESPONSE_FIXED),
        Message::DISCONNECT => check_length(message, HEADER_OCTETS),
        Message::SESSION_START => check_length(message, SESSION_START_OCTETS),
        Message::SESSION_STOP => check_counted(message, STOP_FIXED),
        Message::DATA => check_counted(message, DATA_FIXED),
        Message::DATA_ACKNOWLEDGE => check_length(message, DATA_ACKNOWLEDGE_OCTETS),
        Message::ERROR => check_counted(message, ERROR_FIXED),
        _ => Err(Refusal::MessageNotAccepted),
    }
}

// Reads a DATA whose header is not refused.
fn read_data(message: &[u8]) -> Result<Message, Refusal>
    ensures { result ≡ read_body data_number message.now }
{
    if !counted_fits(message, DATA_FIXED) {
        return Err(Refusal::BodyLengthWrong);
    }
    Ok(Message {
        session: octets::get(message, 2),
        content: data_of(message),
    })
}

// Reads a message whose header is not refused, by its number.
fn read_other(number: u8, message: &[u8]) -> Result<Message, Refusal>
    ensures { result ≡ read_body number message.now }
{
    check_body(number, message)?;
    Ok(Message {
        session: octets::get(message, 2),
        content: content_of(number, message),
    })
}

// Reads a message alone: what it says, or 3, 4, 5, 7 or 8. A DATA, the most frequent, first.
pub fn read_message(message: &[u8]) -> Result<Message, Refusal>
    ensures { Answered answer_number result (read_of message.now) (read_answer message.now) }
{
    check_header(VERSION, message)?;
    let number = octets::get(message, 1);
    if number == Message::DATA {
        return read_data(message);
    }
    read_other(number, message)
}

// The octets in front of the length of the text or the record that ends the message with a number, a DATA first; none where nothing does.
#[tactic(auto, unfolding(ipdr::specs::Messages::is_counted, ipdr::specs::Messages::widths_of))]
fn counted_place(number: u8) -> Option<usize>
    ensures { result ≡ counted_place number }
{
    match number {
        Message::DATA => Some(DATA_FIXED),
        Message::FLOW_STOP | Message::SESSION_STOP => Some(STOP_FIXED),
        Message::CONNECT => Some(CONNECT_FIXED),
        Message::CONNECT_RESPONSE => Some(CONNECT_RESPONSE_FIXED),
        Message::ERROR => Some(ERROR_FIXED),
        _ => None,
    }
}

// What stands behind a length at a place, where exactly as many octets do; else the empty part at the message's start.
fn counted_part(message: &[u8], at: usize) -> &[u8]
    ensures { (result.now ≡ cond (counted_fits message.now at) (drop (at + length_octets) message.now) [])
        × ((result.ref_ptr.0 ≡ message.entry.ref_ptr.0)
        × (result.ref_ptr.1 ≡ cond (counted_fits message.now at) (at + length_octets) 0 + message.entry.ref_ptr.1)) }
{
    if counted_fits(message, at) {
        return &message[at + LENGTH_OCTETS..];
    }
    &message[..0]
}

// The part that a message carries, as a part of the caller's octets: a text or DATA's record. Of any other message, and of one that cannot
// be read, the empty part at its start.
pub fn message_part(message: &[u8]) -> &[u8]
    ensures { (result.now ≡ part_of message.now)
        × ((result.ref_ptr.0 ≡ message.entry.ref_ptr.0) × (result.ref_ptr.1 ≡ part_at message.now + message.entry.ref_ptr.1)) }
{
    if check_header(VERSION, message).is_err() {
        return &message[..0];
    }
    match counted_place(octets::get(message, 1)) {
        Some(at) => counted_part(message, at),
        None => &message[..0],
    }
}
