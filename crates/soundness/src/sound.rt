// The limits of the settings, and whether a state is sound.
ghost use Rattle.std.specs.Prelude.{◌≡◌, ◌≤◌, ◌<◌, get_or};
ghost use Rattle.octets.specs.Each.{every};
ghost use Rattle.session.specs.Limits.{max_servers, max_held};
ghost use Rattle.soundness.specs.Parts.{Below};
ghost use Rattle.session.specs.Queue.{has};
ghost use Rattle.session.specs.Sound.{settings_sound, numbers_sound, entry_sound, activation_sound, sound};

use session::limits::{
    ALL_SERVERS, MAX_HELD, MAX_SERVERS, MAX_STORE_OCTETS, MAX_THRESHOLD, MIN_STORE_OCTETS,
};
use session::state::{Queue, Settings, State};
use wire::message::MAX_RECORD_OCTETS;

// Whether settings and a store's length are in their limits.
pub(crate) fn settings_sound(p: &Settings, room: usize) -> bool
    ensures { result ≡ settings_sound p.now room }
{
    (1 <= p.servers)
        & (p.servers <= MAX_SERVERS)
        & (1 <= p.threshold)
        & (p.threshold <= MAX_THRESHOLD)
        & (1 <= p.duration)
        & (MIN_STORE_OCTETS <= room)
        & (room <= MAX_STORE_OCTETS)
}

// Whether the numbers of a state are in their limits.
fn numbers_sound(s: &State) -> bool
    ensures { result ≡ numbers_sound s.now.settings s.now.capacity s.now.delivery s.now.queue.count s.now.start }
{
    let d = &s.delivery;
    settings_sound(&s.settings, s.capacity)
        & (s.queue.count <= MAX_HELD)
        & (s.start < s.capacity)
        & (d.sent <= d.reached)
        & (d.reached <= s.queue.count)
        & (d.timer < s.settings.duration)
}

// Whether each held record has at most 1,024 octets and was sent to existing servers only. By the place, since the arrays lie side by side.
fn entries_sound(q: &Queue, servers: u8) -> bool
    requires { (q.now.count ≤ max_held) × (servers ≤ max_servers) }
    ensures { result ≡ every q.now.count (entry_sound servers q.now.lengths q.now.receivers) }
{
    let most = MAX_RECORD_OCTETS as u16;
    let bound = 1u32 << servers;
    let mut ok = true;
    for i in 0..q.count {
        ok = ok & ((q.lengths[i] <= most) & ((q.receivers[i] as u32) < bound));
    }
    ok
}

// Whether each of the first n records was sent to a server: it is in what their sets have in common.
fn all_received(receivers: &[u16; MAX_HELD], n: usize, v: u8) -> bool
    requires { (n ≤ max_held) × (v < max_servers) }
    ensures { result ≡ every n (λ i. has (get_or receivers.now i 0) v) }
{
    let mut common = ALL_SERVERS;
    for i in 0..n {
        common = common & receivers[i];
    }
    queue::has_server(common, v)
}

// Whether the activation is as the records have it.
fn activation_sound(s: &State) -> bool
    requires { (s.now.delivery.reached ≤ max_held) × Below max_servers s.now.delivery.active }
    ensures { result ≡ activation_sound s.now.delivery s.now.queue.receivers s.now.delivery.active }
{
    let d = &s.delivery;
    match d.active {
        None => (d.sent == 0) & (d.reached == 0) & (d.timer == 0),
        Some(v) => all_received(&s.queue.receivers, d.reached, v),
    }
}

// Whether a state is sound.
pub fn is_sound(s: &State) -> bool
    ensures { result ≡ sound s.now }
{
    if !numbers_sound(s) {
        return false;
    }
    if !entries_sound(&s.queue, s.settings.servers) {
        return false;
    }
    if s.capacity < queue::octets_to(&s.queue.lengths, s.queue.count) as usize {
        return false;
    }
    let p = &s.settings;
    let d = &s.delivery;
    if d.active != servers::choose_server(p.priorities, d.servers, p.servers) {
        return false;
    }
    activation_sound(s)
}
