// An offer of the session's templates to a server.
ghost use Rattle.std.specs.Prelude.{◌≡◌};
ghost use Rattle.octets.specs.Answers.{Answered, answer_number};
ghost use Rattle.session.specs.Steps.{offer_step, output_after, wrote_of};

use crate::transition::Move;
use octets::Refusal;
use session::state::{State, Wrote};

// Writes the TMPL DATA that offers a table to server v. Refused with 1, 2, 21, 9 or 12.
pub fn offer_templates(s: State, v: u8, table: &[u8], out: &mut [u8]) -> Result<Wrote, Refusal>
    ensures { let o = offer_step s v table.now out.old in
        Answered answer_number result (wrote_of o) o.answer × (out.new ≡ output_after out.old o) }
{
    crate::transition::move_server(s, v, Move::Offer, table, out)
}
