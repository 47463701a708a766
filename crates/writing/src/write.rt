// Writing a message alone, by the layout of its octets.
ghost use Rattle.std.specs.Prelude.{◌≡◌, [], ◌∷◌, ◌++◌, ◌≤◌, length};
ghost use Rattle.std.proofs.lemmas.List.Edits.{sets};
ghost use Rattle.octets.specs.Answers.{Answered, answer_number};
ghost use Rattle.octets.specs.Numbers.{octets_of};
ghost use Rattle.messages.specs.Messages.{data_head_length, max_record_octets, data_head_octets, message_of};
ghost use Rattle.messages.specs.Messages.{flags_of, start_ack, final_tmpl_data_ack, data_ack, Placed, head_write_answer, head_write_of};
ghost use Rattle.messages.specs.Messages.{head_write_out, write_answer, write_of, write_out};
ghost use Rattle.messages.specs.declared.message.Message.TheVariants.{TmplData, Data};

use headers::header::{HEADER_OCTETS, put_header};
use messages::message::{
    D_FLAG, DATA_ACK_OCTETS, DATA_HEAD_OCTETS, DataHead, FINAL_TMPL_DATA_ACK_OCTETS,
    MAX_RECORD_OCTETS, Message, S_FLAG, START_ACK_OCTETS, VERSION,
};
use octets::Refusal;

// Writes the message with a number that has no body.
fn write_bare(number: u8, session: u8, out: &mut [u8]) -> Result<usize, Refusal>
    ensures { Placed (message_of number session []) out.old result out.new }
{
    if out.len() < HEADER_OCTETS {
        return Err(Refusal::OutputTooShort);
    }
    put_header(VERSION, number, session, HEADER_OCTETS as u32, out);
    Ok(HEADER_OCTETS)
}

// Writes a START ACK.
fn write_start_ack(session: u8, boot_time: u32, out: &mut [u8]) -> Result<usize, Refusal>
    ensures { Placed (message_of start_ack session (octets_of 4 boot_time)) out.old result out.new }
{
    if out.len() < START_ACK_OCTETS {
        return Err(Refusal::OutputTooShort);
    }
    put_header(
        VERSION,
        Message::START_ACK,
        session,
        START_ACK_OCTETS as u32,
        out,
    );
    octets::put(out, 8, boot_time);
    Ok(START_ACK_OCTETS)
}

// Writes a FINAL TMPL DATA ACK.
fn write_final_tmpl_data_ack(session: u8, config: u8, out: &mut [u8]) -> Result<usize, Refusal>
    ensures { Placed (message_of final_tmpl_data_ack session (config ∷ 0 ∷ 0 ∷ 0 ∷ [])) out.old result out.new }
{
    if out.len() < FINAL_TMPL_DATA_ACK_OCTETS {
        return Err(Refusal::OutputTooShort);
    }
    put_header(
        VERSION,
        Message::FINAL_TMPL_DATA_ACK,
        session,
        FINAL_TMPL_DATA_ACK_OCTETS as u32,
        out,
    );
    out[8] = config;
    out[9] = 0;
    out[10] = 0;
    out[11] = 0;
    Ok(FINAL_TMPL_DATA_ACK_OCTETS)
}

// Writes a DATA ACK.
fn write_data_ack(session: u8, dsn: u32, config: u8, out: &mut [u8]) -> Result<usize, Refusal>
    ensures { Placed (message_of data_ack session (octets_of 4 dsn ++ (config ∷ 0 ∷ 0 ∷ 0 ∷ [])))
        out.old result out.new }
{
    if out.len() < DATA_ACK_OCTETS {
        return Err(Refusal::OutputTooShort);
    }
    put_header(
        VERSION,
        Message::DATA_ACK,
        session,
        DATA_ACK_OCTETS as u32,
        out,
    );
    octets::put(out, 8, dsn);
    out[12] = config;
    out[13] = 0;
    out[14] = 0;
    out[15] = 0;
    Ok(DATA_ACK_OCTETS)
}

// Writes a TMPL DATA with the table `part`.
fn write_tmpl_data(session: u8, part: &[u8], out: &mut [u8]) -> Result<usize, Refusal>
    ensures { (result ≡ write_of (TmplData session) part.now out.old)
        × (out.new ≡ write_out (TmplData session) part.now out.old) }
{
    if !tables::table::table_sound(part) {
        return Err(Refusal::UnsoundTable);
    }
    let len = HEADER_OCTETS + part.len();
    if out.len() < len {
        return Err(Refusal::OutputTooShort);
    }
    put_header(VERSION, Message::TMPL_DATA, session, len as u32, out);
    octets::copy(out, HEADER_OCTETS, part);
    Ok(len)
}

// The flags of a DATA message: S is 1, D is 2.
fn flags(first: bool, duplicate: bool) -> u8
    ensures { result ≡ flags_of first duplicate }
{
    match (first, duplicate) {
        (true, true) => S_FLAG + D_FLAG,
        (true, false) => S_FLAG,
        (false, true) => D_FLAG,
        (false, false) => 0,
    }
}

// The octets of a DATA message in front of its record, which has `len` octets.
fn put_data_head(head: DataHead, len: usize, out: &mut [u8])
    requires { (data_head_length ≤ length out.old) × (len ≤ max_record_octets) }
    ensures { out.new ≡ sets out.old 0 (data_head_octets head len) }
{
    let marks = flags(head.first, head.duplicate);
    put_header(
        VERSION,
        Message::DATA,
        head.session,
        (DATA_HEAD_OCTETS + len) as u32,
        out,
    );
    octets::put(out, 8, head.template);
    out[10] = head.config;
    out[11] = marks;
    octets::put(out, 12, head.dsn);
}

// Writes a DATA's head, the 16 octets in front of a record of `len` octets, where the whole message fits; the record is for the caller to
// write behind them. Answers how many octets the whole message has, or 17 or 12.
pub fn write_data_head(head: DataHead, len: usize, out: &mut [u8]) -> Result<usize, Refusal>
    ensures { Answered answer_number result (head_write_of len (length out.old))
        (head_write_answer len (length out.old))
        × (out.new ≡ head_write_out head len out.old) }
{
    if MAX_RECORD_OCTETS < len {
        return Err(Refusal::RecordTooLong);
    }
    let total = DATA_HEAD_OCTETS + len;
    if out.len() < total {
        return Err(Refusal::OutputTooShort);
    }
    put_data_head(head, len, out);
    Ok(total)
}

// Writes a DATA with the record `part`.
fn write_data(head: DataHead, part: &[u8], out: &mut [u8]) -> Result<usize, Refusal>
    ensures { (result ≡ write_of (Data head) part.now out.old)
        × (out.new ≡ write_out (Data head) part.now out.old) }
{
    if MAX_RECORD_OCTETS < part.len() {
        return Err(Refusal::RecordTooLong);
    }
    let len = DATA_HEAD_OCTETS + part.len();
    if out.len() < len {
        return Err(Refusal::OutputTooShort);
    }
    put_data_head(head, part.len(), out);
    octets::copy(out, DATA_HEAD_OCTETS, part);
    Ok(len)
}

// Writes a message alone from the output's first octet on, and no octet after it; `part` is a DATA's record or a TMPL DATA's table,
// and is not looked at for other messages. Answers how many octets were written, or 21, 17 or 12.
pub fn write_message(message: Message, part: &[u8], out: &mut [u8]) -> Result<usize, Refusal>
    ensures { Answered answer_number result (write_of message part.now out.old)
        (write_answer message part.now (length out.old))
        × (out.new ≡ write_out message part.now out.old) }
{
    match message {
        Message::Start { session } => write_bare(Message::START, session, out),
        Message::StartAck { session, boot_time } => write_start_ack(session, boot_time, out),
        Message::Stop { session } => write_bare(Message::STOP, session, out),
        Message::StopAck { session } => write_bare(Message::STOP_ACK, session, out),
        Message::TmplData { session } => write_tmpl_data(session, part, out),
        Message::FinalTmplDataAck { session, config } => write_final_tmpl_data_ack(
            session, config, out,
        ),
        Message::StartNegotiate { session } => write_bare(Message::START_NEGOTIATE, session, out),
        Message::StartNegotiateAck { session } => write_bare(
            Message::START_NEGOTIATE_ACK,
            session,
            out,
        ),
        Message::Data(head) => write_data(head, part, out),
        Message::DataAck {
            session,
            dsn,
            config,
        } => write_data_ack(session, dsn, config, out),
    }
}
