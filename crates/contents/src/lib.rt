// The contents of a tape: how many events there are, and of each its kind, server and body; whether a tape is sound (`check_tape`).
// A tape is borrowed octets, and nothing is copied: a body is a part of it. Every function answers any octets and any event's number; past
// the end octets read as 0 and parts are empty. `tape` calls these functions to replay a tape, and `replay` takes the size of its input.
#![tactic(auto)]

ghost use Rattle.std.specs.Prelude.{◌≡◌};
ghost use Rattle.octets.specs.Answers.{answer_number, judged, Answered};
ghost use Rattle.octets.specs.Each.{every};
ghost use Rattle.contents.specs.Tape.{event_count, contents_at, kind_at, server_at, body_length, body_at, octets_at, body_of, kind_fits};
ghost use Rattle.contents.specs.Tape.{server_fits, body_length_fits, event_sound, tape_sound, tape_answer};

use octets::Refusal;
use session::limits::SERVER_ENTRIES;

// The most octets that a tape has.
pub const MAX_TAPE_OCTETS: usize = 32768;

// One octet more than a tape has, so that a longer input is seen to be longer.
pub const INPUT_OCTETS: usize = MAX_TAPE_OCTETS + 1;

// The least events that a tape has: settings and table.
pub const MIN_EVENTS: u16 = 2;

// The most events that a tape has.
pub const MAX_EVENTS: u16 = 512;

// The octets of the event count, which stands first.
const COUNT_OCTETS: usize = 2;

// The octets of an event's entry in the contents: kind, server, body length.
const ENTRY_OCTETS: usize = 4;

// The octets of a put's template ID, in front of its record.
pub const TEMPLATE_ID_OCTETS: usize = 2;

// The least octets of a put: its template ID, of an empty record.
const MIN_PUT_OCTETS: u16 = TEMPLATE_ID_OCTETS as u16;

// Where the priorities begin in the settings.
pub const PRIORITIES_AT: usize = 16;

// How many priorities the shorter form of settings has; the longer one has one for each server that there can be.
const SHORT_FORM_PRIORITIES: usize = 8;

// The octets of the settings in the shorter form.
const SHORT_FORM_OCTETS: u16 = (PRIORITIES_AT + SHORT_FORM_PRIORITIES) as u16;

// The octets of the settings in the longer form.
const LONG_FORM_OCTETS: u16 = (PRIORITIES_AT + SERVER_ENTRIES) as u16;

// The kind of an event; the constants name the numbers. No enum: a tape may hold any number, and `events::call` takes any.
#[derive(Clone, Copy)]
pub struct Kind {
    pub number: u8,
}

impl Kind {
    // The exporter's settings.
    pub const SETTINGS: u8 = 0;

    // The table of the session.
    pub const TABLE: u8 = 1;

    // A put of a record under a template ID.
    pub const PUT: u8 = 2;

    // A message from a server.
    pub const MESSAGE: u8 = 3;

    // The line to a server is down.
    pub const DOWN: u8 = 4;

    // A tick.
    pub const TICK: u8 = 5;

    // Next data.
    pub const NEXT: u8 = 6;

    // Templates are offered to a server.
    pub const OFFER: u8 = 7;
}

// How many events the contents name.
pub fn event_count(tape: &[u8]) -> u16
    ensures { result ≡ event_count tape.now }
{
    octets::get::<u16>(tape, 0)
}

// Where an event stands in the contents.
fn contents_at(i: u16) -> usize
    ensures { result ≡ contents_at i }
{
    COUNT_OCTETS + ENTRY_OCTETS * (i as usize)
}

// The kind of an event.
pub fn kind_at(tape: &[u8], i: u16) -> u8
    ensures { result ≡ kind_at tape.now i }
{
    octets::get::<u8>(tape, contents_at(i))
}

// The server that an event names.
pub fn server_at(tape: &[u8], i: u16) -> u8
    ensures { result ≡ server_at tape.now i }
{
    octets::get::<u8>(tape, contents_at(i) + 1)
}

// How many octets the body of an event has.
pub fn body_length(tape: &[u8], i: u16) -> u16
    ensures { result ≡ body_length tape.now i }
{
    octets::get::<u16>(tape, contents_at(i) + 2)
}

// Where the body of an event begins.
pub fn body_at(tape: &[u8], i: u16) -> usize
    ensures { result ≡ body_at tape.now i }
{
    let mut at = contents_at(event_count(tape));
    for k in 0..i {
        at += body_length(tape, k) as usize;
    }
    at
}

// The n octets from a place on, of a tape or of a body, or as many as there are.
pub fn part(tape: &[u8], at: usize, n: usize) -> &[u8]
    ensures { result.now ≡ octets_at tape.now at n }
{
    let len = tape.len();
    if len <= at {
        return &tape[len..];
    }
    if len - at <= n {
        return &tape[at..];
    }
    &tape[at..at + n]
}

// The body of an event.
pub fn body(tape: &[u8], i: u16) -> &[u8]
    ensures { result.now ≡ body_of tape.now i }
{
    part(tape, body_at(tape, i), body_length(tape, i) as usize)
}

// Whether an event of this kind can stand at a place.
fn kind_fits(i: u16, kind: u8) -> bool
    ensures { result ≡ kind_fits i kind }
{
    if i == 0 {
        return kind == Kind::SETTINGS;
    }
    if i == 1 {
        return kind == Kind::TABLE;
    }
    (Kind::PUT <= kind) & (kind <= Kind::OFFER)
}

// Whether this octet can be the server of an event of this kind.
fn server_fits(kind: u8, server: u8) -> bool
    ensures { result ≡ server_fits kind server }
{
    (server == 0) | ((kind == Kind::MESSAGE) | (kind == Kind::DOWN) | (kind == Kind::OFFER))
}

// Whether an event of this kind can have a body of n octets.
fn body_length_fits(kind: u8, n: u16) -> bool
    ensures { result ≡ body_length_fits kind n }
{
    if kind == Kind::SETTINGS {
        return (n == SHORT_FORM_OCTETS) | (n == LONG_FORM_OCTETS);
    }
    if kind == Kind::PUT {
        return MIN_PUT_OCTETS <= n;
    }
    (kind == Kind::TABLE) | (kind == Kind::MESSAGE) | (n == 0)
}

// Whether an event is sound.
fn event_sound(tape: &[u8], i: u16) -> bool
    ensures { result ≡ event_sound tape.now i }
{
    let kind = kind_at(tape, i);
    kind_fits(i, kind)
        & server_fits(kind, server_at(tape, i))
        & body_length_fits(kind, body_length(tape, i))
}

// Whether each of the first n events is sound.
fn events_sound(tape: &[u8], n: u16) -> bool
    ensures { result ≡ every n (event_sound tape.now) }
{
    for i in 0..n {
        if !event_sound(tape, i) {
            return false;
        }
    }
    true
}

// Whether a tape is sound. Its events are read only where their number fits.
fn tape_sound(tape: &[u8]) -> bool
    ensures { result ≡ tape_sound tape.now }
{
    let count = event_count(tape);
    let sizes_fit = (tape.len() <= MAX_TAPE_OCTETS) & (MIN_EVENTS <= count) & (count <= MAX_EVENTS);
    sizes_fit && events_sound(tape, count) && (body_at(tape, count) == tape.len())
}

// Nothing for a sound tape, else 22.
pub fn check_tape(tape: &[u8]) -> Result<(), Refusal>
    ensures { Answered answer_number result (judged (tape_answer tape.now) tt) (tape_answer tape.now) }
{
    if !tape_sound(tape) {
        return Err(Refusal::UnsoundTape);
    }
    Ok(())
}
