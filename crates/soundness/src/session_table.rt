// Whether a lent table is the session's: what answer 21 asks of the tables that put and offer are lent, and of a tape's.
ghost use Rattle.std.specs.Prelude.{◌≡◌, ◌&&◌, eqb};
ghost use Rattle.wire.specs.Table.{configuration_id};
ghost use Rattle.session.specs.Steps.{is_sessions};

use session::state::Settings;

// Whether a table is the session's, for a caller that has judged its form: it is sound, and its Configuration ID is the session's.
pub fn is_sessions_by(sound: bool, p: Settings, table: &[u8]) -> bool
    ensures { result ≡ sound && eqb (configuration_id table.now) p.config }
{
    sound & (wire::table::configuration_id(table) == p.config)
}

// Whether a table is the session's.
pub fn is_sessions(p: Settings, table: &[u8]) -> bool
    ensures { result ≡ is_sessions p table.now }
{
    let sound = wire::table::table_sound(table);
    is_sessions_by(sound, p, table)
}
