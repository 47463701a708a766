// Messages of either edition, read alone and written again. Each function of `editions` is called once in this crate, so that the compiler
// puts it in its caller's place.
ghost use Rattle.std.specs.Prelude.{◌≡◌};
ghost use Rattle.octets.specs.Answers.{done};
ghost use Rattle.messages.specs.Messages.{read_answer, part_of};
ghost use Rattle.editions.specs.Editions.{read_in, read_answer_in, part_in};
ghost use Rattle.edition_exports.specs.Again.{edition_for, read_again_number, read_again_out};

use editions::edition::Edition;
use exports::parts::carried_number;
use headers::header::HEADER_OCTETS;
use messages::message::{DATA_HEAD_OCTETS, Message};

// The edition that a version stands for: CRANE for 1, IPDR/SP for any other.
fn edition_for(version: u8) -> Edition
    ensures { result ≡ edition_for version }
{
    if version == messages::message::VERSION {
        Edition::Crane
    } else {
        Edition::Ipdr
    }
}

// The part of a CRANE message that was read: what reading judged is not judged again.
fn carried_part(message: &[u8]) -> &[u8]
    requires { read_answer message.now ≡ done }
    ensures { result.now ≡ part_of message.now }
{
    let number = octets::get::<u8>(message, 1);
    if number == Message::DATA {
        return &message[DATA_HEAD_OCTETS..];
    }
    if number == Message::TMPL_DATA {
        return &message[HEADER_OCTETS..];
    }
    &message[..0]
}

// The part of a message of an edition that was read.
fn part_of_read(edition: Edition, message: &[u8]) -> &[u8]
    requires { read_answer_in edition message.now ≡ done }
    ensures { result.now ≡ part_in edition message.now }
{
    match edition {
        Edition::Crane => carried_part(message),
        Edition::Ipdr => editions::edition::message_part(Edition::Ipdr, message),
    }
}

// Reads a message of the edition that a version stands for alone and, where it can be read, writes what it says with its part to the
// output. Answers how many octets were written plus 256, or the reading's or else the writing's refusal.
#[unsafe(no_mangle)]
pub extern "C" fn edition_read_again(version: u8, message: &[u8], out: &mut [u8]) -> u64
    ensures { (result ≡ read_again_number (part_in (edition_for version) message.now) out.old
        (read_in (edition_for version) message.now))
        × (out.new ≡ read_again_out (part_in (edition_for version) message.now) out.old
        (read_in (edition_for version) message.now)) }
{
    let edition = edition_for(version);
    match editions::edition::read_message(edition, message) {
        Ok(m) => {
            let carried = part_of_read(edition, message);
            carried_number(editions::edition::write_message(m, carried, out))
        }
        Err(refusal) => refusal.number() as u64,
    }
}
