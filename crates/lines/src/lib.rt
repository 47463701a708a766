// A line of the replay program's output: the place of an event, its answer, and the octets that it wrote in hex.
//
// Every function that is seen is total: where the text has no room for any line of as many octets nothing is written, and 0 answered.
#![tactic(auto)]

ghost use Rattle.std.specs.Prelude.{◌≡◌, ◌+◌, ◌≤◌, ◌<◌, length};
ghost use Rattle.std.proofs.lemmas.List.Edits.{sets};
ghost use Rattle.lines.specs.Lines.{digit, decimal, hex, written_text, line_of, tape_refused, number_digits, hex_digits, line_octets};
ghost use Rattle.lines.specs.Lines.{fitted, Stored, Printed};

// The most octets of a line beside hex digits: two numbers of three digits, two spaces and the end of the line.
pub const FRAME_OCTETS: usize = 9;

// How many octets the line of a tape that is not sound has.
const REFUSED_OCTETS: usize = 13;

// The character of a digit below 16. By hand, as the whole line: its contract says the octets, into lent memory of any length.
fn digit_of(d: u8) -> u8
    requires { d < 16 }
    ensures { result ≡ digit d }
{
    if d < 10 { 48 + d } else { 87 + d }
}

// A number below 1,000 in decimal to a place; answers the place behind it.
fn write_decimal(text: &mut [u8], at: usize, n: usize) -> usize
    requires { at + number_digits ≤ length text.old }
    ensures { Stored text.old at (decimal n) result text.new }
{
    let ones = digit_of((n % 10) as u8);
    if n < 10 {
        text[at] = ones;
        return at + 1;
    }
    let tens = digit_of((n / 10 % 10) as u8);
    if n < 100 {
        text[at] = tens;
        text[at + 1] = ones;
        return at + 2;
    }
    text[at] = digit_of((n / 100 % 10) as u8);
    text[at + 1] = tens;
    text[at + 2] = ones;
    at + 3
}

// Octets in hex to a place.
fn write_hex(octets: &[u8], text: &mut [u8], at: usize)
    requires { at + hex_digits (length octets.now) ≤ length text.old }
    ensures { text.new ≡ sets text.old at (hex octets.now) }
{
    for (i, &x) in octets.iter().enumerate() {
        text[at + 2 * i] = digit_of(x / 16 % 16);
        text[at + 2 * i + 1] = digit_of(x % 16);
    }
}

// A space and octets in hex to a place, or nothing where there are none; answers the place behind it.
fn write_written(octets: &[u8], text: &mut [u8], at: usize) -> usize
    requires { at + 1 + hex_digits (length octets.now) ≤ length text.old }
    ensures { Stored text.old at (written_text octets.now) result text.new }
{
    let n = octets.len();
    if n == 0 {
        return at;
    }
    octets::put(text, at, b' ');
    write_hex(octets, text, at + 1);
    at + 1 + 2 * n
}

// The line of an event to the first octets; answers how many they are.
fn store_line(place: usize, answer: u8, octets: &[u8], text: &mut [u8]) -> usize
    requires { line_octets (length octets.now) ≤ length text.old }
    ensures { Printed text.old (line_of place answer octets.now) result text.new }
{
    let first = write_decimal(text, 0, place);
    octets::put(text, first, b' ');
    let second = write_decimal(text, first + 1, answer as usize);
    let last = write_written(octets, text, second);
    octets::put(text, last, b'\n');
    last + 1
}

// The line of an event to the first octets of a text with room for it; answers how many they are.
pub fn write_line(place: usize, answer: u8, octets: &[u8], text: &mut [u8]) -> usize
    ensures { let line = line_of place answer octets.now in
        let need = line_octets (length octets.now) in
        Printed text.old (fitted (length text.old) need line) result text.new }
{
    let room = text.len();
    if room < FRAME_OCTETS {
        return 0;
    }
    if (room - FRAME_OCTETS) / 2 < octets.len() {
        return 0;
    }
    store_line(place, answer, octets, text)
}

// The line of a tape that is not sound to the first octets of a text with room for it; answers how many they are.
pub fn write_refused(text: &mut [u8]) -> usize
    ensures { let line = fitted (length text.old) (length tape_refused) tape_refused in
        Printed text.old line result text.new }
{
    if text.len() < REFUSED_OCTETS {
        return 0;
    }
    octets::copy(text, 0, b"tape refused\n");
    REFUSED_OCTETS
}
