// What an IPDR/SP message says, one number at a time.
ghost use Rattle.std.specs.Prelude.{◌≡◌, cond, [], ◌∷◌, ◌++◌, ℕ, get_or};
ghost use Rattle.ipdr.specs.Messages.{session_start, session_start_values, read_of, part_at, part_of, carried_at};
ghost use Rattle.ipdr.specs.declared.message.Content.TheVariants as content;
ghost use Rattle.ipdr_exports.specs.Said.{content_numbers, read_part};

use ipdr::message::{
    CONNECT_FIXED, CONNECT_RESPONSE_FIXED, Connect, Content, DATA_FIXED, DataHead, ERROR_FIXED,
    LENGTH_OCTETS, Message, STOP_FIXED, SessionStart,
};

// A message's number and up to four fields.
fn fields(number: u8, a: u64, b: u64, c: u64, d: u64) -> [u64; 9]
    ensures { result ≡ number ∷ a ∷ b ∷ c ∷ d ∷ 0 ∷ 0 ∷ 0 ∷ 0 ∷ [] }
{
    [number as u64, a, b, c, d, 0, 0, 0, 0]
}

// A message's number and up to two fields.
fn two_fields(number: u8, a: u64, b: u64) -> [u64; 9]
    ensures { result ≡ number ∷ a ∷ b ∷ 0 ∷ 0 ∷ 0 ∷ 0 ∷ 0 ∷ 0 ∷ [] }
{
    fields(number, a, b, 0, 0)
}

// CONNECT's number and fields.
fn connect_fields(connect: Connect) -> [u64; 9]
    ensures { result ≡ content_numbers (content.Connect connect) ++ (0 ∷ 0 ∷ 0 ∷ 0 ∷ []) }
{
    let id = connect.initiator_id as u64;
    let port = connect.initiator_port as u64;
    let capabilities = connect.capabilities as u64;
    let interval = connect.keep_alive_interval as u64;
    fields(Message::CONNECT, id, port, capabilities, interval)
}

// DATA's number and fields.
fn data_fields(head: DataHead) -> [u64; 9]
    ensures { result ≡ content_numbers (content.Data head) ++ (0 ∷ 0 ∷ 0 ∷ 0 ∷ []) }
{
    let template = head.template_id as u64;
    let config = head.config_id as u64;
    fields(
        Message::DATA,
        template,
        config,
        u64::from(head.duplicate),
        head.sequence_num,
    )
}

// SESSION START's number and fields.
fn session_start_fields(fields: SessionStart) -> [u64; 9]
    ensures { result ≡ session_start ∷ session_start_values fields }
{
    [
        Message::SESSION_START as u64,
        fields.exporter_boot_time as u64,
        fields.first_record_sequence_number,
        fields.dropped_record_count,
        u64::from(fields.primary),
        fields.ack_time_interval as u64,
        fields.ack_sequence_interval as u64,
        fields.document_id_high,
        fields.document_id_low,
    ]
}

// A message's number and fields, in the layout's order.
fn said(content: Content) -> [u64; 9]
    ensures { (i : ℕ) → get_or result i 0 ≡ get_or (content_numbers content) i 0 }
{
    match content {
        Content::FlowStart => two_fields(Message::FLOW_START, 0, 0),
        Content::FlowStop { reason_code } => two_fields(Message::FLOW_STOP, reason_code as u64, 0),
        Content::Connect(connect) => connect_fields(connect),
        Content::ConnectResponse {
            capabilities,
            keep_alive_interval: k,
        } => two_fields(Message::CONNECT_RESPONSE, capabilities as u64, k as u64),
        Content::Disconnect => two_fields(Message::DISCONNECT, 0, 0),
        Content::SessionStart(start) => session_start_fields(start),
        Content::SessionStop { reason_code: r } => two_fields(Message::SESSION_STOP, r as u64, 0),
        Content::Data(head) => data_fields(head),
        Content::DataAcknowledge {
            config_id,
            sequence_num,
        } => two_fields(Message::DATA_ACKNOWLEDGE, config_id as u64, sequence_num),
        Content::Error {
            time_stamp: t,
            error_code: e,
        } => two_fields(Message::ERROR, t as u64, e as u64),
    }
}

// One of a message's number and fields, by its place, 0 where there is none.
fn said_at(content: Content, i: u8) -> u64
    ensures { result ≡ get_or (content_numbers content) i 0 }
{
    said(content).get(i as usize).copied().unwrap_or(0)
}

// Where the text or the record of a message that says something begins; 0 where it has none, as C is told it.
fn place_of(content: Content) -> usize
    ensures { result ≡ carried_at (record { session = 0; content = content }) }
{
    match content {
        Content::FlowStart => 0,
        Content::FlowStop { reason_code: _ } => STOP_FIXED + LENGTH_OCTETS,
        Content::Connect(_) => CONNECT_FIXED + LENGTH_OCTETS,
        Content::ConnectResponse {
            capabilities: _,
            keep_alive_interval: _,
        } => CONNECT_RESPONSE_FIXED + LENGTH_OCTETS,
        Content::Disconnect => 0,
        Content::SessionStart(_) => 0,
        Content::SessionStop { reason_code: _ } => STOP_FIXED + LENGTH_OCTETS,
        Content::Data(_) => DATA_FIXED + LENGTH_OCTETS,
        Content::DataAcknowledge {
            config_id: _,
            sequence_num: _,
        } => 0,
        Content::Error {
            time_stamp: _,
            error_code: _,
        } => ERROR_FIXED + LENGTH_OCTETS,
    }
}

// Reads an IPDR/SP message alone. Answers a part of what was read, by its number: 0 the answer, 0 or the refusal; 1 and 2 the place and the
// length of the part that the message carries, 3 its session, 4 its number, and from 5 on its fields in the layout's order, documentId as
// two numbers; 0 for what there is not, and for what could not be read.
#[unsafe(no_mangle)]
pub extern "C" fn ipdr_read_part(message: &[u8], part: u8) -> u64
    ensures { result ≡ read_part part (part_at message.now) (part_of message.now) (read_of message.now) }
{
    match ipdr_reading::read::read_message(message) {
        Ok(m) => match part {
            0 => 0,
            1 => place_of(m.content) as u64,
            2 => ipdr_reading::read::message_part(message).len() as u64,
            3 => m.session as u64,
            _ => said_at(m.content, part - 4),
        },
        Err(refusal) => if part == 0 {
            refusal.number() as u64
        } else {
            0
        },
    }
}
