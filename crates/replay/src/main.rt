// The replay program: a tape from standard input, its lines to standard output.
#![tactic(auto)]

ghost use Rattle.std.specs.Prelude.{◌≡◌, ◌<◌, ◌≤◌, length, take, replicate, IfOk};
ghost use Rattle.std.specs.Io.KnownBytes.{Consumes, IsAtEnd};
ghost use Rattle.exporter.specs.Limits.{max_store_octets};
ghost use Rattle.tape.specs.Replay.{tape_store};

use contents::INPUT_OCTETS;
use exporter::limits::MAX_STORE_OCTETS;
use std::io;
use std::io::Read;
use tape::replay::{LINE_OCTETS, OUTPUT_OCTETS};

// Writes the first len octets of a text.
fn print(rt: &impl Print, text: &[u8; LINE_OCTETS], len: usize) -> io::Result<()> {
    let whole = &text[..];
    if len <= whole.len() {
        rt.write_all(&whole[..len])?;
    }
    Ok(())
}

// Replays a tape over the store that its settings name, line by line. A refusal leaves no events, and a turn with none left has no line.
fn replay(rt: &impl Print, tape: &[u8], store: &mut [u8]) -> io::Result<()>
    requires { store.old ≡ tape_store tape.now }
{
    let mut out = [0u8; OUTPUT_OCTETS];
    let mut text = [0u8; LINE_OCTETS];
    let mut turn = tape::replay::open_tape(tape, store, &mut text);
    print(rt, &text, turn.len)?;
    for _ in 0..turn.progress.left {
        turn = tape::replay::take_event(turn.progress, tape, store, &mut out, &mut text);
        print(rt, &text, turn.len)?;
    }
    Ok(())
}

// Lends a replay the part of the largest store that the tape's settings name.
fn lend(rt: &impl Print, tape: &[u8], store: &mut [u8]) -> io::Result<()>
    requires { store.old ≡ replicate max_store_octets 0 }
{
    let len = events::store_length(tape);
    replay(rt, tape, &mut store[..len])
}

// Reads until the input ends or a buffer is full, and gives how many octets it put at the buffer's start. A read that fails, also one that
// a signal interrupts, ends it with that error. A `while`, since how much a read gives is not known before.
fn read_full<R: Read>(input: &mut R, buffer: &mut [u8]) -> io::Result<usize>
    ensures within { IfOk result (λ n. n ≤ length buffer.new) }
    ensures octets { IfOk result (λ n. Consumes (R.remaining input.old) (R.remaining input.new)
        (take n buffer.new)) }
    ensures end { IfOk result (λ n. n < length buffer.new → IsAtEnd (R.remaining input.new)) }
{
    let mut done = 0;
    while done < buffer.len() {
        let n = input.read(&mut buffer[done..])?;
        if n == 0 {
            break;
        }
        done += n;
    }
    Ok(done)
}

// Reads to the end of the input, or one octet more than a tape has, and replays it over a part of the largest store.
fn main(rt: HostRuntime) -> io::Result<()> {
    let mut input = [0u8; INPUT_OCTETS];
    let n = read_full(&mut rt.stdin(), &mut input)?;
    let mut store = [0u8; MAX_STORE_OCTETS];
    lend(&rt, &input[..n], &mut store)
}
