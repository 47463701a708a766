// The exporting side of one CRANE session (RFC 3423), without sockets, clocks or memory of its own: the calls of a driver, under one name.
//
// Which calls, and in which order:
// 1. `set_up::set_up` makes a `state::State` from `state::Settings` and the store that will be lent; once, first. `limits` names what it
//    allows.
// 2. `put::put` takes a record into the queue, at any time, also while nobody is connected. Its numbers stand in the octet order that the
//    table's flags say.
// 3. `receive::receive` takes each message that arrives from a server and writes the answer, if it has one, to the output.
// 4. `offer_templates::offer_templates` writes the table for a server that has started (its START was received). When its FINAL TMPL DATA
//    ACK is received the server is agreed, and the agreed server of highest priority is the active one.
// 5. `next_data::next_data` writes the next record as DATA for the active server, again and again until it answers 14 (nothing to send).
//    `batch::send_batch` does so up to a given number of times in one call, the messages back to back in one output (02, ask 5): its answer
//    is `Ok` where the number was reached, or the refusal of the call that stopped it (14: all is sent; 12: the next message did not fit),
//    and what was written before stays. The DATA ACKs that `receive` takes release the records.
// 6. `line_down::line_down` says that the line to a server is down, `tick::tick` that a tick has passed; when an active server is too slow
//    another one takes over, or all that was not acknowledged is sent again.
// Each call may be made at any time, in any state: one that is out of turn is refused. specs/Driving.antt goes through a whole session.
//
// What to watch for: the record that began an activation has S each time it is written before the activation's first release (02, ask 2).
// If it is sent again, and DATA ACKs then release it and records behind it that were not yet sent again, a collector that takes S as the
// DSN to go on from (02, ask 4) waits for those, which are never sent again: it discards what follows, and its DATA ACKs are answered 11.
// The way out is a new activation: call `line_down` for that server and, when its START comes, go through 3 and 4 again; the first record
// held is then sent with S. A duration that is long beside the time that a server takes to answer makes this rare.
// examples/late-release-after-a-resend.txt goes through such a session; docs/DECISIONS.md names two hazards more, of repeats.
//
// What is lent: the store, the same octets each time and of the length that set-up saw, to `put`, `next_data` and `send_batch`, which keep
// the records' octets there as a ring; the session's template table to `put` and `offer_templates` (`session_table::is_sessions` says
// whether a table is the session's); an output to every call that writes, from its first octet on, and no octet after the message, or after
// a batch's last one, changes. The caller sends what was written to the server that the call was about: the one that it names, or for
// `next_data` and `send_batch` the active one.
//
// What comes back: `Ok` with the next state, and of calls that write with how many octets were written, or `Err` with the refusal
// (`octets::Refusal`, whose numbers stand here). States are passed by value: the next call gets the state that came back, or after a
// refusal the one that was passed, since a refusal changes nothing: not the state, the store or the output; of a batch, which hands back
// state, answer and counts in any case, this holds of the single call that stopped it. So a driver may try a call and go on. 1 says that
// state or store are not what the last call left.
//
// What it does not do: it opens no line, waits for nothing, and reads and writes no octet of a message or table by itself; `wire` does.
//
// Three types matter: `state::State`; its `Delivery`, the servers and how far the active one was sent the queue; and its `Queue`, the
// records held. What holds of every list of calls is the claim in `session`: by meaning in specs/Claim.antt, of these calls and their
// octets in specs/InOctets.antt.
//
// Nothing is declared here: the types stand in `session`, the calls in the crates named below. A crate that makes a `Settings` or holds a
// `State` lists `session` beside this crate: the checker asks for it.
#![tactic(auto)]

pub use putting::put;
pub use receiving::receive;
pub use sending::{batch, next_data};
pub use session::{limits, state};
pub use soundness::{session_table, set_up};
pub use ticking::tick;
pub use transitions::{line_down, offer_templates};
