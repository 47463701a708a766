// Runs the boundary examples of stores, queues and batches, and prints what each call answers.
#![tactic(auto)]

use exporter::limits::SERVER_ENTRIES;
use exporter::state::{Settings, State, Wrote};
use octets::{Refusal, answer_number};
use std::io;

// A table with one template, ID 3, of one enabled key: a number of 16 bits.
const NUMBER_TABLE: [u8; 28] =
    *b"\x01\x01\x00\x01\x00\x03\x00\x01\x00\x00\x00\x00\x00\x00\x00\x18\x00\x00\x00\x09\x00\x04\x00\x00\x00\x00\x00\x00";

// A table with one template, ID 4, of one enabled key: a blob.
const BLOB_TABLE: [u8; 28] =
    *b"\x01\x01\x00\x01\x00\x04\x00\x01\x00\x00\x00\x00\x00\x00\x00\x18\x00\x00\x00\x09\x40\x15\x00\x00\x00\x00\x00\x00";

// The messages of server 0 in session 7: START, and FINAL TMPL DATA ACK of configuration 1.
const START: [u8; 8] = [1, 1, 7, 0, 0, 0, 0, 8];

const FINAL_TMPL_DATA_ACK: [u8; 12] = [1, 0x13, 7, 0, 0, 0, 0, 12, 1, 0, 0, 0];

// DATA ACK of DSN 0 under configuration 1.
const ACK_OF_FIRST: [u8; 16] = [1, 0x21, 7, 0, 0, 0, 0, 16, 0, 0, 0, 0, 1, 0, 0, 0];

// How many octets the DATA of a record of two octets has.
const DATA_OCTETS: usize = 18;

// Session 7, configuration 1, one server, the first DSN 0.
fn settings() -> Settings {
    Settings {
        session: 7,
        config: 1,
        boot: 3600,
        initial: 0,
        servers: 1,
        priorities: [0u8; SERVER_ENTRIES],
        threshold: 64,
        duration: 10,
    }
}

// Prints what was asked and the number of its answer.
fn print<T>(rt: &impl Print, label: &[u8], answer: &Result<T, Refusal>) -> io::Result<()> {
    rt.write_all(label)?;
    rt.println(answer_number(answer))
}

// A fresh exporter over a store, or the one that every call refuses.
fn fresh(store: &[u8]) -> State {
    exporter::set_up::set_up(settings(), store).unwrap_or(exporter::set_up::refused_state())
}

// Puts a record and prints the answer. Each call of the exporter stands in a function that keeps a frame of its own: what a call answers
// has the size of a state.
#[inline(never)]
fn put(
    rt: &impl Print,
    s: &mut State,
    store: &mut [u8],
    table: &[u8],
    id: u16,
    record: &[u8],
    label: &[u8],
) -> io::Result<()> {
    let put = exporter::put::put(*s, store, table, id, record);
    print(rt, label, &put)?;
    if let Ok(state) = put {
        *s = state;
    }
    Ok(())
}

// Prints what a call that may write answers, and takes the state that it leaves.
fn take(
    rt: &impl Print,
    s: &mut State,
    label: &[u8],
    called: &Result<Wrote, Refusal>,
) -> io::Result<()> {
    print(rt, label, called)?;
    if let Ok(wrote) = called {
        *s = wrote.state;
    }
    Ok(())
}

// Takes a message from server 0 and prints the answer.
#[inline(never)]
fn receive(
    rt: &impl Print,
    s: &mut State,
    message: &[u8],
    out: &mut [u8],
    label: &[u8],
) -> io::Result<()> {
    let called = exporter::receive::receive(*s, 0, message, out);
    take(rt, s, label, &called)
}

// Offers the table of numbers to server 0 and prints the answer.
#[inline(never)]
fn offer(rt: &impl Print, s: &mut State, out: &mut [u8]) -> io::Result<()> {
    let called = exporter::offer_templates::offer_templates(*s, 0, &NUMBER_TABLE, out);
    take(rt, s, b"offer templates: ", &called)
}

// Sends the next record and prints the answer.
#[inline(never)]
fn send_next(rt: &impl Print, s: &mut State, store: &[u8], out: &mut [u8]) -> io::Result<()> {
    let called = exporter::next_data::next_data(*s, store, out);
    take(rt, s, b"next data: ", &called)
}

// Sends a batch, and prints its answer, how many messages it wrote and how many octets.
#[inline(never)]
fn send_batch(
    rt: &impl Print,
    s: &mut State,
    store: &[u8],
    out: &mut [u8],
    limit: usize,
    label: &[u8],
) -> io::Result<()> {
    let batch = exporter::batch::send_batch(*s, store, out, limit);
    print(rt, label, &batch.answer)?;
    *s = batch.state;
    let count = batch.count;
    let written = batch.written;
    println!(rt; "  messages: {count}, octets: {written}")
}

// Puts a blob record of 1,024 octets, then the same with one octet more, into an empty store of 1,024.
fn longest_record(rt: &impl Print) -> io::Result<()> {
    let mut store = [0u8; 1024];
    let mut record = [0u8; 1025];
    record[2] = 3;
    record[3] = 252;
    let mut state = fresh(&store);
    let first = b"1,024 octets, empty store of 1,024: ";
    put(
        rt,
        &mut state,
        &mut store,
        &BLOB_TABLE,
        4,
        &record[..1024],
        first,
    )?;
    let again = b"1,024 octets, full store: ";
    put(
        rt,
        &mut state,
        &mut store,
        &BLOB_TABLE,
        4,
        &record[..1024],
        again,
    )?;
    record[3] = 253;
    state = fresh(&store);
    let longer = b"1,025 octets, empty store: ";
    put(rt, &mut state, &mut store, &BLOB_TABLE, 4, &record, longer)
}

// Puts a record of two octets n times, and prints each answer.
fn put_many(rt: &impl Print, s: &mut State, store: &mut [u8], n: u8) -> io::Result<()> {
    let record = [0u8, 5];
    for _ in 0..n {
        put(rt, s, store, &NUMBER_TABLE, 3, &record, b"put: ")?;
    }
    Ok(())
}

// Server 0 starts, is offered the table, agrees, is sent one record and acknowledges it.
fn release_one(rt: &impl Print, s: &mut State, store: &[u8]) -> io::Result<()> {
    let mut out = [0u8; 64];
    receive(rt, s, &START, &mut out, b"START: ")?;
    offer(rt, s, &mut out)?;
    receive(
        rt,
        s,
        &FINAL_TMPL_DATA_ACK,
        &mut out,
        b"FINAL TMPL DATA ACK: ",
    )?;
    send_next(rt, s, store, &mut out)?;
    receive(rt, s, &ACK_OF_FIRST, &mut out, b"DATA ACK of one record: ")
}

// Sends 64 records of two octets in batches: none, one, one more than there is room for, and more than are left.
fn batches(rt: &impl Print, s: &mut State, store: &[u8]) -> io::Result<()> {
    let mut short = [0u8; 2 * DATA_OCTETS - 1];
    let mut out = [0u8; 64 * DATA_OCTETS];
    send_batch(rt, s, store, &mut short, 0, b"batch of 0, room for 1: ")?;
    send_batch(rt, s, store, &mut short, 1, b"batch of 1, room for 1: ")?;
    send_batch(rt, s, store, &mut short, 2, b"batch of 2, room for 1: ")?;
    send_batch(rt, s, store, &mut out, 64, b"batch of 64, room for 64: ")?;
    send_batch(rt, s, store, &mut out, 1, b"batch of 1, all sent: ")
}

// Holds 64 records and tries record 65, releases one, tries record 65 again and then record 66; then sends what is held in batches.
fn fullest_queue(rt: &impl Print) -> io::Result<()> {
    let mut store = [0u8; 1024];
    let mut state = fresh(&store);
    put_many(rt, &mut state, &mut store, 65)?;
    release_one(rt, &mut state, &store)?;
    put_many(rt, &mut state, &mut store, 2)?;
    batches(rt, &mut state, &store)
}

fn main(rt: HostRuntime) -> io::Result<()> {
    longest_record(&rt)?;
    fullest_queue(&rt)
}
