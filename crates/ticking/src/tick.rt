// A tick of the timer.
ghost use Rattle.std.specs.Prelude.{◌≡◌, ◌<◌};
ghost use Rattle.octets.specs.Answers.{Answered, answer_number};
ghost use Rattle.session.specs.Steps.{tick_step, stepped_of};
ghost use Rattle.ticking.specs.Clocks.{running_clock, clock_for, tick_change_by};

use octets::Refusal;
use servers::change::Change;
use session::state::{Delivery, Phase, Settings, State};

// The timer after a tick, and whether it has run out. No `Option`: the ticks are stored either way.
#[derive(Clone, Copy)]
pub struct Clock {
    // its ticks, 0 where it has run out
    pub timer: u16,
    // whether the duration has passed
    pub expired: bool,
}

// The clock of an active server: 0 below the threshold of records reached, and again where the duration has passed.
fn run_clock(p: Settings, d: Delivery) -> Clock
    requires { d.timer < p.duration }
    ensures { result ≡ running_clock p d }
{
    if d.reached < p.threshold as usize {
        return Clock {
            timer: 0,
            expired: false,
        };
    }
    let timer = d.timer + 1;
    if timer == p.duration {
        return Clock {
            timer: 0,
            expired: true,
        };
    }
    Clock {
        timer,
        expired: false,
    }
}

// The clock after a tick: 0 while nobody is active.
fn tick_clock(p: Settings, d: Delivery) -> Clock
    requires { d.timer < p.duration }
    ensures { result ≡ clock_for p d d.active }
{
    match d.active {
        None => Clock {
            timer: 0,
            expired: false,
        },
        Some(_) => run_clock(p, d),
    }
}

// What a tick changes, by the clock after it. Where the timer has run out the next agreed server takes over, or all is sent again if there
// is none.
fn tick_change(p: Settings, d: Delivery, due: bool, clock: Clock) -> Change
    ensures { result ≡ tick_change_by p d due clock }
{
    let mut delivery = d;
    delivery.timer = clock.timer;
    if !clock.expired {
        return Change { delivery, due };
    }
    delivery.sent = 0;
    let late = servers::with_phase(d.servers, servers::number_of(d.active), Phase::Late);
    let choice = servers::choose_server(p.priorities, late, p.servers);
    if choice.is_none() {
        return Change { delivery, due };
    }
    delivery.servers = late;
    delivery.active = choice;
    delivery.reached = 0;
    Change {
        delivery,
        due: true,
    }
}

// One tick passes. Refused with 1.
pub fn tick(mut s: State) -> Result<State, Refusal>
    ensures { let o = tick_step s in Answered answer_number result (stepped_of o) o.answer }
{
    if !soundness::sound::is_sound(&s) {
        return Err(Refusal::UnsoundState);
    }
    let clock = tick_clock(s.settings, s.delivery);
    let change = tick_change(s.settings, s.delivery, s.due, clock);
    servers::change::apply(&mut s, change);
    Ok(s)
}
