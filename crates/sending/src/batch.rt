// Sending a batch: the records that were not sent yet as DATA, one message behind the other in one output (02, ask 5).
ghost use Rattle.std.specs.Prelude.{◌≡◌, ◌+◌, ◌%◌, ◌<◌, ◌≤◌, length};
ghost use Rattle.session.specs.Limits.{max_store_octets};
ghost use Rattle.octets.specs.Answers.{answer_number};
ghost use Rattle.batches.specs.Batches.{batch, batch_of, output_after_batch};
ghost use Rattle.sending.specs.Sendings.{SendFacts};

use crate::next_data::{check_send, check_usable, mark_sent, write_next};
use octets::Refusal;
use session::state::{Batch, State};

// The place in the store behind a record of n octets that begins at a place of it.
fn place_behind(at: usize, n: usize, capacity: usize) -> usize
    requires { (at < capacity) × ((n ≤ capacity) × (capacity ≤ max_store_octets)) }
    ensures { result ≡ (at + n) % capacity }
{
    let next = at + n;
    if next < capacity {
        return next;
    }
    next - capacity
}

// Writes at most `limit` of the records from place "sent" on, each behind the one before; the set of each then has the active server.
fn send_records(s: State, limit: usize, store: &[u8], out: &mut [u8]) -> Batch
    requires { SendFacts s store.now }
    ensures { let b = batch limit (length out.old) s store.now in
        (result ≡ batch_of b) × (out.new ≡ output_after_batch out.old b) }
{
    let mut state = s;
    let mut at = queue::record_start(s.capacity, s.start, &s.queue.lengths, s.delivery.sent);
    let mut written: usize = 0;
    for count in 0..limit {
        if state.queue.count <= state.delivery.sent {
            let answer = Err(Refusal::NothingToSend);
            return Batch {
                state,
                answer,
                count,
                written,
            };
        }
        let len = state.queue.lengths[state.delivery.sent] as usize;
        let wrote = write_next(&state, store, at, &mut out[written..]);
        match wrote {
            Ok(n) => {
                mark_sent(&mut state);
                written += n;
                at = place_behind(at, len, state.capacity);
            }
            Err(refusal) => {
                let answer = Err(refusal);
                return Batch {
                    state,
                    answer,
                    count,
                    written,
                };
            }
        }
    }
    let answer = Ok(());
    Batch {
        state,
        answer,
        count: limit,
        written,
    }
}

// Sends the next unsent records as DATA to the active server, at most `limit` of them, back to back into the output. It stops with 1, 13,
// 14 or 12, as single calls of next data do, or is done at the given number; what was written before stays. The state is judged once: an
// accepted call leaves it sound.
pub fn send_batch(s: State, store: &[u8], out: &mut [u8], limit: usize) -> Batch
    ensures { let b = batch limit (length out.old) s store.now in
        (result ≡ batch_of b) × ((answer_number result.answer ≡ b.answer) × (out.new ≡ output_after_batch out.old b)) }
{
    let stored = store.len();
    if limit == 0 {
        let answer = check_usable(&s, stored);
        return Batch {
            state: s,
            answer,
            count: 0,
            written: 0,
        };
    }
    let answer = check_send(&s, stored);
    match answer {
        Ok(()) => send_records(s, limit, store, out),
        Err(_) => Batch {
            state: s,
            answer,
            count: 0,
            written: 0,
        },
    }
}
