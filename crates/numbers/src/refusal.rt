// Why a call is refused.
ghost use Rattle.std.specs.Prelude.{◌≡◌};
ghost use Rattle.numbers.specs.Answers.{refusal_number, answer_number};

use std::error::Error;
use std::fmt;

// The answer number of a call that is done; those of refusals are their discriminants.
pub const DONE: u8 = 0;

// Why a call is refused: all refusals, in the order of their numbers.
#[derive(Clone, Copy, Debug, PartialEq, Eq)]
pub enum Refusal {
    // the state is not sound, or the lent store has not the length set
    UnsoundState = 1,
    // the server's number is not below the server count
    NoSuchServer = 2,
    // fewer than 8 octets
    ShortMessage = 3,
    // a version other than the edition's: 1 for CRANE, 2 for IPDR/SP
    OtherVersion = 4,
    // the length field is not the number of octets given
    LengthDiffers = 5,
    // another session's message
    OtherSession = 6,
    // a message number that is not accepted here
    MessageNotAccepted = 7,
    // the body has not its message's length, or a length in it is not that of the octets behind it
    BodyLengthWrong = 8,
    // not this server's or this message's turn
    OutOfTurn = 9,
    // another Configuration ID
    OtherConfiguration = 10,
    // a DSN that cannot be acknowledged now
    DsnNotAcknowledgeable = 11,
    // what is to be written does not fit the output
    OutputTooShort = 12,
    // no server is active
    NoActiveServer = 13,
    // every held record was sent
    NothingToSend = 14,
    // the table has no template with the ID
    TemplateNotFound = 15,
    // the record, or the value, is not valid under its template or type
    RecordInvalid = 16,
    // the record, or the text, has more than 1,024 octets
    RecordTooLong = 17,
    // 64 records are held
    QueueFull = 18,
    // the record does not fit the store beside the held ones
    StoreFull = 19,
    // a setting, or the store, is outside its limits
    SettingsOutsideLimits = 20,
    // the table is unsound, or, in an exporter's call, of another configuration
    UnsoundTable = 21,
    // the tape is unsound
    UnsoundTape = 22,
}

impl Refusal {
    // The answer number of a call that is refused so.
    pub fn number(self) -> u8
        ensures { result ≡ refusal_number self }
    {
        self as u8
    }
}

impl From<Refusal> for u8 {
    ghost from_gives = { λ refusal n. n ≡ refusal_number refusal };

    // The refusal's answer number.
    fn from(refusal: Refusal) -> u8 {
        refusal.number()
    }
}

// The number of what a call answers: that of its refusal, or 0.
pub fn answer_number<T>(answer: &Result<T, Refusal>) -> u8
    ensures { result ≡ answer_number answer.now }
{
    match answer {
        Ok(_) => DONE,
        Err(refusal) => refusal.number(),
    }
}

impl fmt::Display for Refusal {
    fn fmt<W: fmt::Write>(&self, f: &mut fmt::Formatter<W>) -> fmt::Result {
        f.write_str(match self {
            Refusal::UnsoundState => "the state is not sound",
            Refusal::NoSuchServer => "no such server",
            Refusal::ShortMessage => "fewer than 8 octets",
            Refusal::OtherVersion => "another version",
            Refusal::LengthDiffers => "the length field is not the number of octets",
            Refusal::OtherSession => "another session's message",
            Refusal::MessageNotAccepted => "the message is not accepted here",
            Refusal::BodyLengthWrong => "a length in the body is wrong",
            Refusal::OutOfTurn => "out of turn",
            Refusal::OtherConfiguration => "another Configuration ID",
            Refusal::DsnNotAcknowledgeable => "the DSN cannot be acknowledged",
            Refusal::OutputTooShort => "the output is too short",
            Refusal::NoActiveServer => "no server is active",
            Refusal::NothingToSend => "every held record was sent",
            Refusal::TemplateNotFound => "no template has the ID",
            Refusal::RecordInvalid => "the record is not valid",
            Refusal::RecordTooLong => "the record is too long",
            Refusal::QueueFull => "the queue is full",
            Refusal::StoreFull => "the store is full",
            Refusal::SettingsOutsideLimits => "a setting is outside its limits",
            Refusal::UnsoundTable => "the table is not sound",
            Refusal::UnsoundTape => "the tape is not sound",
        })
    }
}

impl Error for Refusal {}
