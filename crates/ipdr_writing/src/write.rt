// Writing a message alone, by the layout of its octets.
ghost use Rattle.std.specs.Prelude.{◌≡◌, true, false, List, [], ◌∷◌, ℕ, ◌+◌, ◌≤◌, length};
ghost use Rattle.octets.specs.Answers.{Answered, answer_number};
ghost use Rattle.octets.specs.Numbers.{octets_of, put_at};
ghost use Rattle.ipdr.specs.Fields.{length_octets};
ghost use Rattle.ipdr.specs.Messages.{connect, connect_response, session_start, data_number, data_acknowledge, error_number, widths_of};
ghost use Rattle.ipdr.specs.Messages.{is_counted};
ghost use Rattle.ipdr.specs.Messages.{Begun, connect_values, session_start_values, data_values, numbers, max_part_octets};
ghost use Rattle.ipdr.specs.Messages.{write_answer, write_of, write_out, WrittenBy};

use headers::header::{HEADER_OCTETS, put_header};
use ipdr::message::{
    CONNECT_FIXED, CONNECT_RESPONSE_FIXED, Connect, Content, DATA_ACKNOWLEDGE_OCTETS, DATA_FIXED,
    DataHead, ERROR_FIXED, LENGTH_OCTETS, MAX_PART_OCTETS, Message, SESSION_START_OCTETS,
    STOP_FIXED, SessionStart, VERSION,
};
use octets::Refusal;

// A text or a record behind its length, from a place on.
fn put_counted(out: &mut [u8], at: usize, part: &[u8])
    requires { (at ≤ max_part_octets) × (length part.now ≤ max_part_octets) }
    ensures { out.new ≡ put_at
        (put_at out.old at (octets_of length_octets (length part.now))) (at + length_octets) part.now }
{
    octets::put(out, at, part.len() as u32);
    octets::copy(out, at + LENGTH_OCTETS, part);
}

// Begins a message that a text or a record ends, behind `fixed` octets and its length, where it may be written: puts the header and answers
// how many octets the whole message has; else 17 or 12.
fn put_front(
    number: u8,
    session: u8,
    fixed: usize,
    part: &[u8],
    out: &mut [u8],
) -> Result<usize, Refusal>
    requires { fixed ≤ max_part_octets }
    ensures { Begun number session fixed part.now out.old result out.new }
{
    if MAX_PART_OCTETS < part.len() {
        return Err(Refusal::RecordTooLong);
    }
    let len = fixed + (LENGTH_OCTETS + part.len());
    if out.len() < len {
        return Err(Refusal::OutputTooShort);
    }
    put_header(VERSION, number, session, len as u32, out);
    Ok(len)
}

// Writes the message with a number that has no fields.
fn write_bare(number: u8, session: u8, out: &mut [u8]) -> Result<usize, Refusal>
    requires { (widths_of number ≡ []) × (is_counted number ≡ false) }
    ensures { (part : List ℕ) → WrittenBy (numbers number session []) part out.old result out.new }
{
    if out.len() < HEADER_OCTETS {
        return Err(Refusal::OutputTooShort);
    }
    put_header(VERSION, number, session, HEADER_OCTETS as u32, out);
    Ok(HEADER_OCTETS)
}

// Writes a FLOW STOP or a SESSION STOP, by its number.
fn write_stop(
    number: u8,
    session: u8,
    reason_code: u16,
    part: &[u8],
    out: &mut [u8],
) -> Result<usize, Refusal>
    requires { (widths_of number ≡ 2 ∷ []) × (is_counted number ≡ true) }
    ensures { WrittenBy (numbers number session (reason_code ∷ [])) part.now out.old result out.new }
{
    let len = put_front(number, session, STOP_FIXED, part, out)?;
    octets::put(out, 8, reason_code);
    put_counted(out, STOP_FIXED, part);
    Ok(len)
}

// Writes a CONNECT.
fn write_connect(
    session: u8,
    fields: Connect,
    part: &[u8],
    out: &mut [u8],
) -> Result<usize, Refusal>
    ensures { WrittenBy (numbers connect session (connect_values fields)) part.now
        out.old result out.new }
{
    let len = put_front(Message::CONNECT, session, CONNECT_FIXED, part, out)?;
    octets::put(out, 8, fields.initiator_id);
    octets::put(out, 12, fields.initiator_port);
    octets::put(out, 14, fields.capabilities);
    octets::put(out, 18, fields.keep_alive_interval);
    put_counted(out, CONNECT_FIXED, part);
    Ok(len)
}

// Writes a CONNECT RESPONSE.
fn write_connect_response(
    session: u8,
    capabilities: u32,
    keep_alive_interval: u32,
    part: &[u8],
    out: &mut [u8],
) -> Result<usize, Refusal>
    ensures { WrittenBy (numbers connect_response session (capabilities ∷ keep_alive_interval ∷ [])) part.now
        out.old result out.new }
{
    let len = put_front(
        Message::CONNECT_RESPONSE,
        session,
        CONNECT_RESPONSE_FIXED,
        part,
        out,
    )?;
    octets::put(out, 8, capabilities);
    octets::put(out, 12, keep_alive_interval);
    put_counted(out, CONNECT_RESPONSE_FIXED, part);
    Ok(len)
}

// Writes a SESSION START.
fn write_session_start(session: u8, fields: SessionStart, out: &mut [u8]) -> Result<usize, Refusal>
    ensures { (part : List ℕ) → WrittenBy (numbers session_start session (session_start_values fields)) part out.old result
        out.new }
{
    if out.len() < SESSION_START_OCTETS {
        return Err(Refusal::OutputTooShort);
    }
    put_header(
        VERSION,
        Message::SESSION_START,
        session,
        SESSION_START_OCTETS as u32,
        out,
    );
    octets::put(out, 8, fields.exporter_boot_time);
    octets::put(out, 12, fields.first_record_sequence_number);
    octets::put(out, 20, fields.dropped_record_count);
    octets::put(out, 28, u8::from(fields.primary));
    octets::put(out, 29, fields.ack_time_interval);
    octets::put(out, 33, fields.ack_sequence_interval);
    octets::put(out, 37, fields.document_id_high);
    octets::put(out, 45, fields.document_id_low);
    Ok(SESSION_START_OCTETS)
}

// Writes a DATA with the record `part`.
fn write_data(session: u8, head: DataHead, part: &[u8], out: &mut [u8]) -> Result<usize, Refusal>
    ensures { WrittenBy (numbers data_number session (data_values head)) part.now out.old result out.new }
{
    let len = put_front(Message::DATA, session, DATA_FIXED, part, out)?;
    octets::put(out, 8, head.template_id);
    octets::put(out, 10, head.config_id);
    octets::put(out, 12, u8::from(head.duplicate));
    octets::put(out, 13, head.sequence_num);
    put_counted(out, DATA_FIXED, part);
    Ok(len)
}

// Writes a DATA ACKNOWLEDGE.
fn write_data_acknowledge(
    session: u8,
    config_id: u16,
    sequence_num: u64,
    out: &mut [u8],
) -> Result<usize, Refusal>
    ensures { (part : List ℕ) → WrittenBy (numbers data_acknowledge session (config_id ∷ sequence_num ∷ [])) part
        out.old result out.new }
{
    if out.len() < DATA_ACKNOWLEDGE_OCTETS {
        return Err(Refusal::OutputTooShort);
    }
    put_header(
        VERSION,
        Message::DATA_ACKNOWLEDGE,
        session,
        DATA_ACKNOWLEDGE_OCTETS as u32,
        out,
    );
    octets::put(out, 8, config_id);
    octets::put(out, 10, sequence_num);
    Ok(DATA_ACKNOWLEDGE_OCTETS)
}

// Writes an ERROR.
fn write_error(
    session: u8,
    time_stamp: u32,
    error_code: u16,
    part: &[u8],
    out: &mut [u8],
) -> Result<usize, Refusal>
    ensures { WrittenBy (numbers error_number session (time_stamp ∷ error_code ∷ [])) part.now
        out.old result out.new }
{
    let len = put_front(Message::ERROR, session, ERROR_FIXED, part, out)?;
    octets::put(out, 8, time_stamp);
    octets::put(out, 12, error_code);
    put_counted(out, ERROR_FIXED, part);
    Ok(len)
}

// Writes a message alone from the output's first octet on, and no octet after it; `part` is its text or record, and is not looked at for
// other messages. Answers how many octets were written, or 17 or 12.
pub fn write_message(message: Message, part: &[u8], out: &mut [u8]) -> Result<usize, Refusal>
    ensures { Answered answer_number result (write_of message part.now out.old)
        (write_answer message part.now (length out.old))
        × (out.new ≡ write_out message part.now out.old) }
{
    let session = message.session;
    let content = message.content;
    match content {
        Content::FlowStart => write_bare(Message::FLOW_START, session, out),
        Content::FlowStop { reason_code: r } => write_stop(
            Message::FLOW_STOP,
            session,
            r,
            part,
            out,
        ),
        Content::Connect(fields) => write_connect(session, fields, part, out),
        Content::ConnectResponse {
            capabilities,
            keep_alive_interval,
        } => write_connect_response(session, capabilities, keep_alive_interval, part, out),
        Content::Disconnect => write_bare(Message::DISCONNECT, session, out),
        Content::SessionStart(fields) => write_session_start(session, fields, out),
        Content::SessionStop { reason_code: r } => write_stop(
            Message::SESSION_STOP,
            session,
            r,
            part,
            out,
        ),
        Content::Data(head) => write_data(session, head, part, out),
        Content::DataAcknowledge {
            config_id,
            sequence_num,
        } => write_data_acknowledge(session, config_id, sequence_num, out),
        Content::Error {
            time_stamp,
            error_code,
        } => write_error(session, time_stamp, error_code, part, out),
    }
}
