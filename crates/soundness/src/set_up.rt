// Set-up: a fresh exporter.
ghost use Rattle.std.specs.Prelude.{◌≡◌, length};
ghost use Rattle.octets.specs.Answers.{Answered, answer_number};
ghost use Rattle.session.specs.Steps.{fresh, no_settings, refused_state, set_up, made_of};

use octets::Refusal;
use session::limits::{MAX_HELD, SERVER_ENTRIES};
use session::state::{Delivery, Phase, Queue, Server, Settings, State};

// A state that holds nothing.
fn fresh_state(p: Settings, capacity: usize) -> State
    ensures { result ≡ fresh p capacity }
{
    let closed = Server {
        phase: Phase::Closed,
    };
    let empty = [0u16; MAX_HELD];
    State {
        settings: p,
        capacity,
        delivery: Delivery {
            servers: [closed; SERVER_ENTRIES],
            active: None,
            sent: 0,
            reached: 0,
            timer: 0,
        },
        due: true,
        queue: Queue {
            count: 0,
            lengths: empty,
            templates: empty,
            receivers: empty,
        },
        start: 0,
        next: p.initial,
    }
}

// Settings that no exporter has.
fn no_settings() -> Settings
    ensures { result ≡ no_settings }
{
    Settings {
        session: 0,
        config: 0,
        boot: 0,
        initial: 0,
        servers: 0,
        priorities: [0u8; SERVER_ENTRIES],
        threshold: 0,
        duration: 0,
    }
}

// A state that every call refuses, for a caller to whom set-up gave none, or whose settings have a further limit, as those of a tape have.
pub fn refused_state() -> State
    ensures { result ≡ refused_state }
{
    fresh_state(no_settings(), 0)
}

// Makes an exporter over a store, whose length it keeps. Refused with 20 for a store or a setting outside the limits.
pub fn set_up(p: Settings, store: &[u8]) -> Result<State, Refusal>
    ensures { let m = set_up p (length store.now) in Answered answer_number result (made_of m) m.answer }
{
    let capacity = store.len();
    if !crate::sound::settings_sound(&p, capacity) {
        return Err(Refusal::SettingsOutsideLimits);
    }
    Ok(fresh_state(p, capacity))
}
