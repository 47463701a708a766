// Servers: their phases, the choice of the active one, and the steps of a delivery.
#![tactic(auto)]

ghost use Rattle.std.specs.Prelude.{◌≡◌, cond, not, map, get_or, set};
ghost use Rattle.session.specs.Servers.{server, phase_at, is_closed, is_offered, can_offer, restart};
ghost use Rattle.session.specs.Servers.{beats, preferred, choose, activated};
ghost use Rattle.servers.specs.Changes.{number_of};
ghost use Rattle.session.specs.declared.state.Phase.TheVariants.{Closed};

pub mod change;

use session::limits::{MAX_SERVERS, SERVER_ENTRIES};
use session::state::{Delivery, Phase, Server};

// The priority of a server, 0 past the last.
fn priority_at(priorities: [u8; SERVER_ENTRIES], v: u8) -> u8
    ensures { result ≡ get_or priorities v 0 }
{
    if v < MAX_SERVERS {
        priorities[v as usize]
    } else {
        0
    }
}

// The phase of a server, closed past the last.
pub fn phase_at(servers: [Server; SERVER_ENTRIES], v: u8) -> Phase
    ensures { result ≡ phase_at servers v }
{
    if v < MAX_SERVERS {
        let server = servers[v as usize];
        return server.phase;
    }
    Phase::Closed
}

// The servers with one in another phase; as they were for a number past the last.
pub fn with_phase(
    servers: [Server; SERVER_ENTRIES],
    v: u8,
    phase: Phase,
) -> [Server; SERVER_ENTRIES]
    ensures { result ≡ set servers v (server phase) }
{
    let mut changed = servers;
    if v < MAX_SERVERS {
        changed[v as usize] = Server { phase };
    }
    changed
}

// Whether a server in this phase is closed.
pub fn is_closed(phase: Phase) -> bool
    ensures { result ≡ is_closed phase }
{
    phase == Phase::Closed
}

// Whether a server in this phase was offered the templates and has not agreed to them yet.
pub fn is_offered(phase: Phase) -> bool
    ensures { result ≡ is_offered phase }
{
    phase == Phase::Offered
}

// Whether templates can be offered to a server in this phase.
pub fn can_offer(phase: Phase) -> bool
    ensures { result ≡ can_offer phase }
{
    matches!(phase, Phase::Started | Phase::Offered)
}

// A server after START NEGOTIATE: closed stays, any other becomes started.
fn restart_server(s: Server) -> Server
    ensures { result ≡ restart s }
{
    if is_closed(s.phase) {
        return s;
    }
    Server {
        phase: Phase::Started,
    }
}

// The servers after START NEGOTIATE.
pub fn restart_servers(servers: [Server; SERVER_ENTRIES]) -> [Server; SERVER_ENTRIES]
    ensures { result ≡ map restart servers }
{
    servers.map(restart_server)
}

// Whether a server has a higher priority than the choice so far, or there is none so far.
fn beats_best(priorities: [u8; SERVER_ENTRIES], v: u8, best: Option<u8>) -> bool
    ensures { result ≡ beats priorities v best }
{
    match best {
        None => true,
        Some(b) => priority_at(priorities, b) < priority_at(priorities, v),
    }
}

// The choice so far, or a server if it is agreed and has a higher priority.
fn better(
    priorities: [u8; SERVER_ENTRIES],
    servers: [Server; SERVER_ENTRIES],
    v: u8,
    best: Option<u8>,
) -> Option<u8>
    ensures { result ≡ preferred priorities servers v best }
{
    if (phase_at(servers, v) == Phase::Agreed) & beats_best(priorities, v, best) {
        return Some(v);
    }
    best
}

// Of the first n servers, the agreed one of highest priority, the one with the lowest number on ties.
pub fn choose_server(
    priorities: [u8; SERVER_ENTRIES],
    servers: [Server; SERVER_ENTRIES],
    n: u8,
) -> Option<u8>
    ensures { result ≡ choose priorities servers n }
{
    let mut best = None;
    for v in 0..n {
        best = better(priorities, servers, v, best);
    }
    best
}

// The active server's number, 0 for nobody.
pub fn number_of(a: Option<u8>) -> u8
    ensures { result ≡ number_of a }
{
    a.unwrap_or(0)
}

// The delivery after the choice is made anew: another than the active server begins an activation.
pub(crate) fn settle_delivery(d: Delivery, choice: Option<u8>, same: bool) -> Delivery
    ensures { result ≡ cond (not same) (activated d choice) d }
{
    if same {
        return d;
    }
    let servers = d.servers;
    Delivery {
        servers,
        active: choice,
        sent: 0,
        reached: 0,
        timer: 0,
    }
}
