// Reading a message alone, by the layout of its octets. The functions that each read the messages of one form are put in their caller's
// place, so that a caller who goes on by what was read follows each form on its own: the compiler then knows there what was judged.
ghost use Rattle.std.specs.Prelude.{◌≡◌, ◌+◌, ◌≤◌, cond, eqb, leb, length, Ok, Err};
ghost use Rattle.octets.specs.Numbers.{uint_at};
ghost use Rattle.octets.specs.Answers.{done, Answered, answer_number};
ghost use Rattle.numbers.specs.declared.refusal.Refusal.TheVariants.{UnsoundTable};
ghost use Rattle.tables.specs.Table.{table_sound};
ghost use Rattle.messages.specs.Messages.{data_head_length, session_of, header_answer, header_of, read_where};
ghost use Rattle.messages.specs.Messages.{data_head_of, read_of, part_at, part_of, read_answer};
ghost use Rattle.messages.specs.declared.message.Message.TheVariants.{StartAck, TmplData, FinalTmplDataAck, Data, DataAck};

use headers::header::{HEADER_OCTETS, Header, check_header};
use messages::message::{
    DATA_ACK_OCTETS, DATA_HEAD_OCTETS, DataHead, FINAL_TMPL_DATA_ACK_OCTETS, Message,
    START_ACK_OCTETS, VERSION,
};
use octets::Refusal;

// Reads a message's header alone: its session and number, or 3, 4 or 5.
pub fn read_header(message: &[u8]) -> Result<Header, Refusal>
    ensures { Answered answer_number result (header_of message.now) (header_answer message.now) }
{
    headers::header::read_header(VERSION, message)
}

// Reads a message without a body, which says `meaning` where it is its header alone.
#[inline(always)]
fn read_bare(message: &[u8], meaning: Message) -> Result<Message, Refusal>
    ensures { result ≡ read_where (eqb (length message.now) 8) meaning }
{
    if message.len() != HEADER_OCTETS {
        return Err(Refusal::BodyLengthWrong);
    }
    Ok(meaning)
}

// Reads a START ACK.
#[inline(always)]
fn read_start_ack(message: &[u8]) -> Result<Message, Refusal>
    ensures { result ≡ read_where (eqb (length message.now) 12)
        (StartAck (session_of message.now) (uint_at message.now 8 4)) }
{
    if message.len() != START_ACK_OCTETS {
        return Err(Refusal::BodyLengthWrong);
    }
    Ok(Message::StartAck {
        session: message[2],
        boot_time: octets::u32_of(message[8], message[9], message[10], message[11]),
    })
}

// Reads a TMPL DATA, whose body is its table.
#[inline(always)]
fn read_tmpl_data(session: u8, table: &[u8]) -> Result<Message, Refusal>
    ensures { result ≡ cond (table_sound table.now) (Ok (TmplData session)) (Err UnsoundTable) }
{
    if tables::table::table_sound(table) {
        return Ok(Message::TmplData { session });
    }
    Err(Refusal::UnsoundTable)
}

// Reads a FINAL TMPL DATA ACK.
#[inline(always)]
fn read_final_tmpl_data_ack(message: &[u8]) -> Result<Message, Refusal>
    ensures { result ≡ read_where (eqb (length message.now) 12)
        (FinalTmplDataAck (session_of message.now) (uint_at message.now 8 1)) }
{
    if message.len() != FINAL_TMPL_DATA_ACK_OCTETS {
        return Err(Refusal::BodyLengthWrong);
    }
    Ok(Message::FinalTmplDataAck {
        session: message[2],
        config: message[8],
    })
}

// What a DATA message says in front of its record.
fn data_head(message: &[u8]) -> DataHead
    requires { data_head_length ≤ length message.now }
    ensures { result ≡ data_head_of message.now }
{
    let flags = message[11];
    DataHead {
        session: message[2],
        template: octets::u16_of(message[8], message[9]),
        config: message[10],
        first: flags % 2 == 1,
        duplicate: flags / 2 % 2 == 1,
        dsn: octets::u32_of(message[12], message[13], message[14], message[15]),
    }
}

// Reads a DATA.
#[inline(always)]
fn read_data(message: &[u8]) -> Result<Message, Refusal>
    ensures { result ≡ read_where (leb data_head_length (length message.now)) (Data (data_head_of message.now)) }
{
    if message.len() < DATA_HEAD_OCTETS {
        return Err(Refusal::BodyLengthWrong);
    }
    Ok(Message::Data(data_head(message)))
}

// Reads a DATA ACK.
#[inline(always)]
fn read_data_ack(message: &[u8]) -> Result<Message, Refusal>
    ensures { result ≡ read_where (eqb (length message.now) 16)
        (DataAck (session_of message.now) (uint_at message.now 8 4) (uint_at message.now 12 1)) }
{
    if message.len() != DATA_ACK_OCTETS {
        return Err(Refusal::BodyLengthWrong);
    }
    Ok(Message::DataAck {
        session: message[2],
        dsn: octets::u32_of(message[8], message[9], message[10], message[11]),
        config: message[12],
    })
}

// Reads a message whose header is not refused; a DATA, the most frequent, first.
#[tactic(auto, using(messages::proofs::Messages::header_long))]
fn read_body(message: &[u8]) -> Result<Message, Refusal>
    requires { header_answer message.now ≡ done }
    ensures { result ≡ read_of message.now }
{
    let session = message[2];
    match message[1] {
        Message::DATA => read_data(message),
        Message::START => read_bare(message, Message::Start { session }),
        Message::START_ACK => read_start_ack(message),
        Message::STOP => read_bare(message, Message::Stop { session }),
        Message::STOP_ACK => read_bare(message, Message::StopAck { session }),
        Message::TMPL_DATA => read_tmpl_data(session, &message[HEADER_OCTETS..]),
        Message::FINAL_TMPL_DATA_ACK => read_final_tmpl_data_ack(message),
        Message::START_NEGOTIATE => read_bare(message, Message::StartNegotiate { session }),
        Message::START_NEGOTIATE_ACK => read_bare(message, Message::StartNegotiateAck { session }),
        Message::DATA_ACK => read_data_ack(message),
        _ => Err(Refusal::MessageNotAccepted),
    }
}

// Reads a message alone: what it says, or 3, 4, 5, 7, 8 or 21.
pub fn read_message(message: &[u8]) -> Result<Message, Refusal>
    ensures { Answered answer_number result (read_of message.now) (read_answer message.now) }
{
    check_header(VERSION, message)?;
    read_body(message)
}

// The part that a message carries, as a part of the caller's octets: a DATA's record or a TMPL DATA's table. Of any other
// message, and of one that cannot be read, the empty part at its start.
pub fn message_part(message: &[u8]) -> &[u8]
    ensures { (result.now ≡ part_of message.now)
        × ((result.ref_ptr.0 ≡ message.entry.ref_ptr.0) × (result.ref_ptr.1 ≡ part_at message.now + message.entry.ref_ptr.1)) }
{
    if check_header(VERSION, message).is_err() {
        return &message[..0];
    }
    match message[1] {
        Message::DATA if message.len() < DATA_HEAD_OCTETS => &message[..0],
        Message::DATA => &message[DATA_HEAD_OCTETS..],
        Message::TMPL_DATA if tables::table::table_sound(&message[HEADER_OCTETS..]) => {
            &message[HEADER_OCTETS..]
        }
        _ => &message[..0],
    }
}
