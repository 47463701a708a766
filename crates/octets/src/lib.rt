// Unsigned numbers at a place of a slice, of the unsigned types most significant octet first and of any width in either order, octets
// copied to a place or judged there, and the refusals that all crates share, with their numbers. The functions stand in `number_reading`
// and `number_writing`, the definitions and laws in `numbers`, which declares `OctetOrder` and `Refusal` too: a crate that makes or matches
// one lists it.
//
// Every function is total: a read past the end reads 0, and a write that does not fit changes nothing.
#![tactic(auto)]

ghost use Rattle.std.specs.Prelude.{◌≡◌};
ghost use Rattle.numbers.specs.Answers.{answer_numbers};

pub use number_reading::unsigned_types::Unsigned;
pub use number_reading::{all_ascii, get, get_uint, greatest, u16_of, u32_of};
pub use number_writing::{copy, put, put_uint};
pub use numbers::OctetOrder;
pub use numbers::refusal::{DONE, Refusal, answer_number};

// All answer numbers, in the order of the paper's table.
pub fn answer_numbers() -> [u8; 23]
    ensures { result ≡ answer_numbers }
{
    [
        DONE,
        Refusal::UnsoundState.number(),
        Refusal::NoSuchServer.number(),
        Refusal::ShortMessage.number(),
        Refusal::OtherVersion.number(),
        Refusal::LengthDiffers.number(),
        Refusal::OtherSession.number(),
        Refusal::MessageNotAccepted.number(),
        Refusal::BodyLengthWrong.number(),
        Refusal::OutOfTurn.number(),
        Refusal::OtherConfiguration.number(),
        Refusal::DsnNotAcknowledgeable.number(),
        Refusal::OutputTooShort.number(),
        Refusal::NoActiveServer.number(),
        Refusal::NothingToSend.number(),
        Refusal::TemplateNotFound.number(),
        Refusal::RecordInvalid.number(),
        Refusal::RecordTooLong.number(),
        Refusal::QueueFull.number(),
        Refusal::StoreFull.number(),
        Refusal::SettingsOutsideLimits.number(),
        Refusal::UnsoundTable.number(),
        Refusal::UnsoundTape.number(),
    ]
}
