ghost use Rattle.std.specs.Prelude.{◌≡◌, slice_get};

use desk_choice::Tables;
use desk_tables::Server;

/// The backend with this index among all.
pub(crate) fn server_at(tables: &Tables, index: usize) -> Option<Server>
    ensures { result ≡ slice_get tables.now.servers.items index }
{
    tables.servers.get(index).copied()
}
