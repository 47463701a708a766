// Sets of servers, as the bits of a number: whether another server is in one, and one more server in it.
ghost use Rattle.std.specs.Prelude.{◌≡◌, ◌^◌, ◌<◌, not, ◌==◌};
ghost use Rattle.session.specs.Limits.{max_servers};
ghost use Rattle.session.specs.Queue.{with};

// Whether another server than v is in a set of existing servers: with v, it is not v alone.
pub(crate) fn has_other(set: u16, v: u8) -> bool
    requires { v < max_servers }
    ensures { result ≡ not ((with set v) == 2 ^ v) }
{
    let alone = 1u16 << v;
    (set | alone) != alone
}

// A set with a server.
pub(crate) fn with_server(set: u16, v: u8) -> u16
    requires { v < max_servers }
    ensures { result ≡ with set v }
{
    set | (1u16 << v)
}
