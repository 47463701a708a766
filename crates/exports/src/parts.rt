// Answers as numbers: what an accepted one has added, and one of several numbers by its place.
ghost use Rattle.std.specs.Prelude.{◌≡◌, [], ◌∷◌, slice_index};
ghost use Rattle.exports.specs.Numbers.{accepted_number, carried_number};

use octets::Refusal;

// A number that an accepted answer carries has this added to it, so that it is no refusal's number.
pub const ACCEPTED: u64 = 256;

// The number of an accepted answer that carries n.
fn accepted(n: usize) -> u64
    ensures { result ≡ accepted_number n }
{
    (n as u64).wrapping_add(ACCEPTED)
}

// The number of an answer that carries one: that number plus 256, or the refusal's.
pub fn carried_number(answer: Result<usize, Refusal>) -> u64
    ensures { result ≡ carried_number answer }
{
    match answer {
        Ok(n) => accepted(n),
        Err(refusal) => refusal.number() as u64,
    }
}

// One of an answer's parts by its number, 0 where there is none.
pub(crate) fn one_of<const N: usize>(part: u8, parts: [u64; N]) -> u64
    ensures { result ≡ slice_index parts.entry part }
{
    parts.get(part as usize).copied().unwrap_or(0)
}

// The only part of an answer that has no more.
pub(crate) fn sole_part(part: u8, answer: u64) -> u64
    ensures { result ≡ slice_index (answer ∷ []) part }
{
    one_of(part, [answer])
}
