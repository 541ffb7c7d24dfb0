ghost use Rattle.std.specs.Prelude.{◌≤◌, ◌+◌};
ghost use Rattle.proxy_parts.specs.Clients.{ends_left as client_ends};
ghost use Rattle.proxy_parts.specs.Connections.{ends_left as connection_ends};

use letter_queues::LetterQueues;
use lload_reload::Plans;
use load_desk::Desk;
use proxy_parts::{Clients, Connections};
use std::alloc::Global;

/// All parts, the letters in flight, the plans so far, and the greatest connection that was linked, 0 where none was.
#[derive(Drop)]
pub struct World {
    pub(crate) desk: Desk,
    pub(crate) clients: Clients,
    pub(crate) connections: Connections,
    pub(crate) letters: LetterQueues,
    pub(crate) plans: Plans,
    pub(crate) greatest: u32,
    pub(crate) alloc: Global,
    ghost room: { client_ends clients + connection_ends connections ≤ letters.spare },
}
