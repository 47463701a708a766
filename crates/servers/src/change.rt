// What an accepted call changes of a state besides its queue: computed as a small value and applied once.
ghost use Rattle.std.specs.Prelude.{◌≡◌};
ghost use Rattle.servers.specs.Changes.{settled_change, applied_to};

use session::state::{Delivery, Settings, State};

// The delivery, and whether S is due.
#[derive(Clone, Copy)]
pub struct Change {
    // the delivery
    pub delivery: Delivery,
    // whether S is due
    pub due: bool,
}

// The change of a call that leaves a delivery: the choice is made anew and compared with the active server.
pub fn settle_change(p: Settings, d: Delivery, due: bool) -> Change
    ensures { result ≡ settled_change p d due }
{
    let choice = crate::choose_server(p.priorities, d.servers, p.servers);
    let same = choice == d.active;
    let delivery = crate::settle_delivery(d, choice, same);
    Change {
        delivery,
        due: !same | due,
    }
}

// Gives a state a change.
pub fn apply(s: &mut State, change: Change)
    ensures { s.new ≡ applied_to s.old change }
{
    s.delivery = change.delivery;
    s.due = change.due;
}
