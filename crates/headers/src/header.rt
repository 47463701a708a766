// A message's header: version, message number, session, message flags, length of the whole message.
ghost use Rattle.std.specs.Prelude.{◌≡◌};
ghost use Rattle.octets.specs.Answers.{Answered, judged, answer_number};
ghost use Rattle.octets.specs.Numbers.{put_at};
ghost use Rattle.headers.specs.Headers.{header_answer_for, header_reading_for, header_for};

use octets::Refusal;

// The octets of a message's header.
pub const HEADER_OCTETS: usize = 8;

// What a message's header says.
#[derive(Clone, Copy, Debug, PartialEq, Eq)]
pub struct Header {
    pub session: u8,
    pub number: u8,
}

// Whether a message has a whole header that names the version and whose length field is right; else 3, 4 or 5.
pub fn check_header(version: u8, message: &[u8]) -> Result<(), Refusal>
    ensures { Answered answer_number result (judged (header_answer_for version message.now) tt)
        (header_answer_for version message.now) }
{
    if message.len() < HEADER_OCTETS {
        return Err(Refusal::ShortMessage);
    }
    if message[0] != version {
        return Err(Refusal::OtherVersion);
    }
    let len = octets::u32_of(message[4], message[5], message[6], message[7]);
    if len as usize != message.len() {
        return Err(Refusal::LengthDiffers);
    }
    Ok(())
}

// Reads a message's header alone: its session and number, or 3, 4 or 5.
pub fn read_header(version: u8, message: &[u8]) -> Result<Header, Refusal>
    ensures { Answered answer_number result (header_reading_for version message.now)
        (header_answer_for version message.now) }
{
    check_header(version, message)?;
    Ok(Header {
        session: message[2],
        number: message[1],
    })
}

// Writes the header of a message of `len` octets; to an output of fewer than 8 octets, nothing.
pub fn put_header(version: u8, number: u8, session: u8, len: u32, out: &mut [u8])
    ensures { out.new ≡ put_at out.old 0 (header_for version number session len) }
{
    if out.len() < HEADER_OCTETS {
        return;
    }
    out[0] = version;
    out[1] = number;
    out[2] = session;
    out[3] = 0;
    octets::put(out, 4, len);
}
