// The replay tape: a recorded list of an exporter's calls, and the lines that its replay prints.
//
// How to drive it, as the program `replay` does:
// - Hold the tape's octets, and lend three things: a store of `events::store_length` octets, an output of `replay::OUTPUT_OCTETS` for the
//   messages that calls write, and a text of `replay::LINE_OCTETS` for one line.
// - Call `replay::open_tape`. Its line is that of the settings, or `tape refused` alone: the tape is not sound (answer 22), so none of its
//   events is taken. Settings that are refused (20) give their line, and no event is left either.
// - Call `replay::take_event` with the progress that the turn before gave, until no event is left (`Progress::left`): first the table, then
//   one call each. The table's refusal (21) is the last line; a call's refusal is a line like any other. Where none is left, the turn has
//   no line and changes nothing.
// - After each turn the line stands in the first `Turn::len` octets of the text. Lend the same tape and the same store throughout; what the
//   output holds does not matter.
//
// `events` reads settings, table and calls from the events' bodies, `replay` takes the turns. Every function answers any octets.
#![tactic(auto)]

pub mod replay;
