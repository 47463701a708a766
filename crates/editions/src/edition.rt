// One reader and one writer for both editions. The version test follows the edition: a message of the other edition is refused with 4.
ghost use Rattle.std.specs.Prelude.{◌≡◌, ◌+◌, length};
ghost use Rattle.octets.specs.Answers.{Answered, answer_number};
ghost use Rattle.headers.specs.Headers.{header_answer_for, header_reading_for};
ghost use Rattle.editions.specs.Editions.{version_for, read_answer_in, read_in, part_in, part_at_in};
ghost use Rattle.editions.specs.Editions.{write_answer_in, write_in, write_out_in};

use headers::header::Header;
use octets::Refusal;

// The editions.
#[derive(Clone, Copy, Debug, PartialEq, Eq)]
pub enum Edition {
    Crane,
    Ipdr,
}

// What a message of either edition says.
#[derive(Clone, Copy, Debug, PartialEq, Eq)]
pub enum Message {
    Crane(messages::message::Message),
    Ipdr(ipdr::message::Message),
}

// The version that an edition's headers name.
fn version_of(edition: Edition) -> u8
    ensures { result ≡ version_for edition }
{
    match edition {
        Edition::Crane => messages::message::VERSION,
        Edition::Ipdr => ipdr::message::VERSION,
    }
}

// Reads a message's header alone: its session and number, or 3, 4 or 5.
pub fn read_header(edition: Edition, message: &[u8]) -> Result<Header, Refusal>
    ensures { Answered answer_number result (header_reading_for (version_for edition) message.now)
        (header_answer_for (version_for edition) message.now) }
{
    headers::header::read_header(version_of(edition), message)
}

// Reads a message of an edition alone: what it says, or 3, 4, 5, 7 or 8, and of CRANE's also 21.
pub fn read_message(edition: Edition, message: &[u8]) -> Result<Message, Refusal>
    ensures { Answered answer_number result (read_in edition message.now) (read_answer_in edition message.now) }
{
    match edition {
        Edition::Crane => reading::read::read_message(message).map(Message::Crane),
        Edition::Ipdr => ipdr_reading::read::read_message(message).map(Message::Ipdr),
    }
}

// The part that a message of an edition carries, as a part of the caller's octets; the empty part at its start where it has none or cannot
// be read.
pub fn message_part(edition: Edition, message: &[u8]) -> &[u8]
    ensures { (result.now ≡ part_in edition message.now)
        × ((result.ref_ptr.0 ≡ message.entry.ref_ptr.0) × (result.ref_ptr.1 ≡ part_at_in edition message.now + message.entry.ref_ptr.1)) }
{
    match edition {
        Edition::Crane => reading::read::message_part(message),
        Edition::Ipdr => ipdr_reading::read::message_part(message),
    }
}

// Writes a message alone, in its edition, from the output's first octet on, and no octet after it; `part` is its table, record or text, and
// is not looked at where it has none. Answers how many octets were written, or 21 (CRANE's), 17 or 12.
pub fn write_message(message: Message, part: &[u8], out: &mut [u8]) -> Result<usize, Refusal>
    ensures { Answered answer_number result (write_in message part.now out.old)
        (write_answer_in message part.now (length out.old))
        × (out.new ≡ write_out_in message part.now out.old) }
{
    match message {
        Message::Crane(m) => writing::write::write_message(m, part, out),
        Message::Ipdr(m) => ipdr_writing::write::write_message(m, part, out),
    }
}
