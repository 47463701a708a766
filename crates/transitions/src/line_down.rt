// A server's line that is down.
ghost use Rattle.std.specs.Prelude.{◌≡◌};
ghost use Rattle.octets.specs.Answers.{Answered, answer_number};
ghost use Rattle.session.specs.Steps.{line_down_step, stepped_of};

use crate::transition::Move;
use octets::Refusal;
use session::state::State;

// The line to server v is down, which closes it. Refused with 1 or 2.
pub fn line_down(s: State, v: u8) -> Result<State, Refusal>
    ensures { let o = line_down_step s v in Answered answer_number result (stepped_of o) o.answer }
{
    let left = crate::transition::move_server(s, v, Move::Down, &[], &mut [])?;
    Ok(left.state)
}
