// The queue without its first records, whose entries the others take over.
ghost use Rattle.std.specs.Prelude.{◌≡◌, ◌≤◌};
ghost use Rattle.session.specs.Limits.{max_held};
ghost use Rattle.session.specs.Queue.{shifted, drop_front};

use session::limits::MAX_HELD;
use session::state::Queue;

// The entries from n on, moved to the front, with 0 in those that this frees. One by one: with `copy_from_slice` no proof was found.
fn shift(entries: [u16; MAX_HELD], n: usize) -> [u16; MAX_HELD]
    requires { n ≤ max_held }
    ensures { result ≡ shifted entries n }
{
    let mut moved = [0u16; MAX_HELD];
    for i in 0..MAX_HELD - n {
        moved[i] = entries[n + i];
    }
    moved
}

// Takes the first n records out of the queue; where none is released it stays as it is.
pub(crate) fn release(q: &mut Queue, n: usize)
    requires { (n ≤ q.old.count) × (n ≤ max_held) }
    ensures { q.new ≡ drop_front q.old n }
{
    if n == 0 {
        return;
    }
    q.count -= n;
    q.lengths = shift(q.lengths, n);
    q.templates = shift(q.templates, n);
    q.receivers = shift(q.receivers, n);
}
