// Octets in the lent store, which is used as a ring.
ghost use Rattle.std.specs.Prelude.{◌≡◌, ◌%◌, ◌<◌};
ghost use Rattle.queue.specs.Rings.{ring_stored, ring_copied};

// A place modulo the ring's length; a place less than two lengths from the beginning takes no division.
pub(crate) fn wrapped(at: usize, room: usize) -> usize
    requires { 0 < room }
    ensures { result ≡ at % room }
{
    if at < room {
        return at;
    }
    let past = at - room;
    if past < room {
        return past;
    }
    past % room
}

// Copies octets to the places from `at` on, modulo the store's length: those up to its end, then the rest from its beginning. Nothing where
// there are more of them than places.
pub fn ring_write(store: &mut [u8], at: usize, octets: &[u8])
    ensures { store.new ≡ ring_stored store.old at octets.now }
{
    let room = store.len();
    if room < octets.len() {
        return;
    }
    if room == 0 {
        return;
    }
    let place = wrapped(at, room);
    let first = room - place;
    if octets.len() <= first {
        octets::copy(store, place, octets);
        return;
    }
    octets::copy(store, place, &octets[..first]);
    octets::copy(store, 0, &octets[first..]);
}

// Copies the n octets from place `at` on, modulo the store's length, to a place of the output, in one move where they do not reach past the
// store's end; nothing where `at` is no place of the store, where it has fewer than n, or where they do not fit the output.
pub fn ring_read(store: &[u8], at: usize, n: usize, out: &mut [u8], place: usize)
    ensures { out.new ≡ ring_copied store.now at n out.old place }
{
    let room = store.len();
    if room <= at {
        return;
    }
    if room < n {
        return;
    }
    let first = room - at;
    if n <= first {
        octets::copy(out, place, &store[at..at + n]);
        return;
    }
    if out.len().saturating_sub(place) < n {
        return;
    }
    octets::copy(out, place, &store[at..]);
    octets::copy(out, place + first, &store[..n - first]);
}
