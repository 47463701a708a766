// A message from a server.
ghost use Rattle.std.specs.Prelude.{◌≡◌};
ghost use Rattle.octets.specs.Answers.{Answered, answer_number};
ghost use Rattle.session.specs.Steps.{receive_step, output_after, wrote_of};

use crate::decode::Request;
use octets::Refusal;
use session::state::{State, Wrote};

// Takes a message from server v, and writes its acknowledgement if it has one. Refused with the least of 1 to 12 that applies.
pub fn receive(s: State, v: u8, message: &[u8], out: &mut [u8]) -> Result<Wrote, Refusal>
    ensures { let o = receive_step s v message.now out.old in
        Answered answer_number result (wrote_of o) o.answer × (out.new ≡ output_after out.old o) }
{
    let request = crate::decode::decode(s.settings, message);
    match request {
        Request::Ack(dsn, config) => crate::acknowledge::acknowledge(s, v, dsn, config),
        Request::Move(m) => transitions::transition::move_server(s, v, m, &[], out),
    }
}
