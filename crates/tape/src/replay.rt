// A replay, one line at a time: the tape is opened, then each event is taken in its turn.
ghost use Rattle.std.specs.Prelude.{◌≡◌, [], ◌-◌};
ghost use Rattle.std.proofs.lemmas.List.Edits.{sets};
ghost use Rattle.contents.specs.Tape.{event_count};
ghost use Rattle.tape.specs.Turns.{opened, table_turn, call_turn, played, TableReady, CallReady, turn_of, Lined, Turned};

use exporter::state::State;
use octets::answer_number;

// How many octets the calls of a replay are lent as output.
pub const OUTPUT_OCTETS: usize = 16392;

// Enough for any line: two digits for each octet of output, and what stands beside them.
pub const LINE_OCTETS: usize = lines::FRAME_OCTETS + 2 * OUTPUT_OCTETS;

// How far a replay is, between two events.
#[derive(Clone, Copy)]
pub struct Progress {
    pub state: State,
    // how many events are left
    pub left: usize,
    // where the body of the next event begins
    pub at: usize,
}

// What a turn answers: how many octets its line has, which stands in the lent text (fixed memory), and the progress after it.
#[derive(Clone, Copy)]
pub struct Turn {
    pub len: usize,
    pub progress: Progress,
}

// Opens a tape over a lent store and writes its first line: `tape refused`, or that of the settings. After a refusal no event is left.
pub fn open_tape(tape: &[u8], store: &[u8], text: &mut [u8; LINE_OCTETS]) -> Turn
    ensures { (result ≡ turn_of (opened tape.now store.now))
        × (text.new ≡ sets text.old 0 (opened tape.now store.now).line) }
{
    let made = events::set_up(contents::body(tape, 0), store);
    let state = made.unwrap_or(exporter::set_up::refused_state());
    let at = contents::body_at(tape, 1);
    let line = &mut text[..];
    if contents::check_tape(tape).is_err() {
        let len = lines::write_refused(line);
        return Turn {
            len,
            progress: Progress { state, left: 0, at },
        };
    }
    let len = lines::write_line(0, answer_number(&made), &[], line);
    let left = match made {
        Ok(_) => (contents::event_count(tape) as usize).saturating_sub(1),
        Err(_) => 0,
    };
    Turn {
        len,
        progress: Progress { state, left, at },
    }
}

// Takes the table, whose body ends at a place.
fn take_table(r: Progress, tape: &[u8], at: usize, text: &mut [u8]) -> Turn
    requires { TableReady tape.now r at text.old }
    ensures { Lined (table_turn tape.now r []) text.old result text.new }
{
    let settings = events::settings_of(contents::body(tape, 0));
    let checked = events::check_table(settings, contents::body(tape, 1));
    let len = lines::write_line(1, answer_number(&checked), &[], text);
    let left = match checked {
        Ok(()) => r.left - 1,
        Err(_) => 0,
    };
    Turn {
        len,
        progress: Progress {
            state: r.state,
            left,
            at,
        },
    }
}

// The place of the next event, where `left` are left.
fn next_index(tape: &[u8], left: usize) -> u16
    ensures { result ≡ event_count tape.now - left }
{
    let count = contents::event_count(tape);
    if count as usize <= left {
        return 0;
    }
    count - left as u16
}

// Takes the call of event i, whose body is b and ends at a place.
fn take_call<'a>(
    r: Progress,
    tape: &'a [u8],
    i: u16,
    b: &'a [u8],
    at: usize,
    store: &mut [u8],
    out: &mut [u8],
    text: &mut [u8],
) -> Turn
    requires { CallReady tape.now r i b.now at out.old text.old }
    ensures { Turned (call_turn tape.now r store.old) out.old text.old result
        store.new out.new text.new }
{
    let table = contents::body(tape, 1);
    let kind = contents::kind_at(tape, i);
    let server = contents::server_at(tape, i);
    let called = events::call(r.state, kind, server, b, table, store, out);
    let len = lines::write_line(i as usize, called.answer, &out[..called.written], text);
    Turn {
        len,
        progress: Progress {
            state: called.state,
            left: r.left - 1,
            at,
        },
    }
}

// Takes the next event, where one is left, and writes its line; a store and an output are lent to its call.
pub fn take_event(
    r: Progress,
    tape: &[u8],
    store: &mut [u8],
    out: &mut [u8; OUTPUT_OCTETS],
    text: &mut [u8; LINE_OCTETS],
) -> Turn
    ensures { Turned (played tape.now r store.old) out.old text.old result
        store.new out.new text.new }
{
    if r.left == 0 {
        return Turn {
            len: 0,
            progress: r,
        };
    }
    let i = next_index(tape, r.left);
    let b = contents::part(tape, r.at, contents::body_length(tape, i) as usize);
    let at = r.at + b.len();
    let line = &mut text[..];
    if i == 1 {
        return take_table(r, tape, at, line);
    }
    take_call(r, tape, i, b, at, store, &mut out[..], line)
}
