// Messages, read alone and written again. `read_message` is called once in this crate, so that the compiler puts it in its caller's place.
ghost use Rattle.std.specs.Prelude.{◌≡◌, ◌∷◌};
ghost use Rattle.octets.specs.Answers.{done};
ghost use Rattle.wire.specs.Messages.{read_answer, read_of, part_at, part_of};
ghost use Rattle.exports.specs.Numbers.{saying, data_saying, said_by, again_part, again_out};

use crate::parts::{carried_number, one_of, sole_part};
use wire::header::HEADER_OCTETS;
use wire::message::{DATA_HEAD_OCTETS, DataHead, Message};

// Where the part that a message carries begins.
fn part_place(message: &[u8]) -> usize
    requires { read_answer message.now ≡ done }
    ensures { result ≡ part_at message.now }
{
    let number = octets::get::<u8>(message, 1);
    if number == Message::DATA {
        return DATA_HEAD_OCTETS;
    }
    if number == Message::TMPL_DATA {
        return HEADER_OCTETS;
    }
    0
}

// The parts of a message that says no more than its number, its session, a Configuration ID and a number of 32 bits.
fn said(n: u64, at: usize, len: usize, number: u8, session: u8, config: u8, long: u32) -> [u64; 10]
    ensures { result ≡ n ∷ at ∷ len ∷ saying number session config long }
{
    [
        n,
        at as u64,
        len as u64,
        number as u64,
        session as u64,
        config as u64,
        long as u64,
        0,
        0,
        0,
    ]
}

// The parts of a message that says no more than its number and its session.
fn bare(n: u64, at: usize, len: usize, number: u8, session: u8) -> [u64; 10]
    ensures { result ≡ n ∷ at ∷ len ∷ saying number session 0 0 }
{
    said(n, at, len, number, session, 0, 0)
}

// The parts of a DATA message.
fn data_parts(n: u64, at: usize, len: usize, head: DataHead) -> [u64; 10]
    ensures { result ≡ n ∷ at ∷ len ∷ data_saying head }
{
    [
        n,
        at as u64,
        len as u64,
        Message::DATA as u64,
        head.session as u64,
        head.config as u64,
        head.dsn as u64,
        head.template as u64,
        u64::from(head.first),
        u64::from(head.duplicate),
    ]
}

// The parts of a message that carries `len` octets from place `at` on, and of which writing answered the number n.
fn message_parts(n: u64, at: usize, len: usize, m: Message) -> [u64; 10]
    ensures { result ≡ n ∷ at ∷ len ∷ said_by m }
{
    match m {
        Message::Start { session } => bare(n, at, len, Message::START, session),
        Message::StartAck { session, boot_time } => said(
            n,
            at,
            len,
            Message::START_ACK,
            session,
            0,
            boot_time,
        ),
        Message::Stop { session } => bare(n, at, len, Message::STOP, session),
        Message::StopAck { session } => bare(n, at, len, Message::STOP_ACK, session),
        Message::TmplData { session } => bare(n, at, len, Message::TMPL_DATA, session),
        Message::FinalTmplDataAck { session, config } => said(
            n,
            at,
            len,
            Message::FINAL_TMPL_DATA_ACK,
            session,
            config,
            0,
        ),
        Message::StartNegotiate { session } => bare(n, at, len, Message::START_NEGOTIATE, session),
        Message::StartNegotiateAck { session } => bare(
            n,
            at,
            len,
            Message::START_NEGOTIATE_ACK,
            session,
        ),
        Message::Data(head) => data_parts(n, at, len, head),
        Message::DataAck {
            session,
            dsn,
            config,
        } => said(n, at, len, Message::DATA_ACK, session, config, dsn),
    }
}

// Reads a message alone and, where it can be read, writes what it says with its part to the output. Answers a part of what was read and
// written, by its number: 0 how many octets were written plus 256, or the reading's or else the writing's refusal; 1 and 2 the place and
// the length of the part that the message carries, 3 its number, 4 its session, 5 its Configuration ID, 6 its boot time or DSN, 7 its
// template ID, 8 and 9 its flags S and D; 0 for what it does not say, and for what could not be read.
pub fn crane_read_again(message: &[u8], out: &mut [u8], part: u8) -> u64
    ensures { (result ≡ again_part part (part_at message.now) (part_of message.now)
        out.old (read_of message.now))
        × (out.new ≡ again_out (part_of message.now) out.old (read_of message.now)) }
{
    match wire::read::read_message(message) {
        Ok(m) => {
            let carried = wire::read::message_part(message);
            let written = carried_number(wire::write::write_message(m, carried, out));
            // What benchmarks ask for comes first.
            if part == 0 {
                return written;
            }
            one_of(
                part,
                message_parts(written, part_place(message), carried.len(), m),
            )
        }
        Err(refusal) => sole_part(part, refusal.number() as u64),
    }
}
