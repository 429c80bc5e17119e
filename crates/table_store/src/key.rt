// An entry's ready key: 0 if it is never ready, else the greater the earlier it is ready.
ghost use Rattle.std.specs.Prelude.{◌≡◌};
ghost use Rattle.connection.specs.Range.{InRange};
ghost use Rattle.connection.specs.Ready.{ready_instant};
ghost use Rattle.table.specs.Layout.{key};

use connection::parts::Connection;
use connection_slot::ready::ready_instant;

pub fn key_of(c: Connection) -> u64
    requires { InRange c }
    ensures { result ≡ key (ready_instant c) }
{
    match ready_instant(c) {
        None => 0,
        Some(i) => u64::MAX - i,
    }
}
