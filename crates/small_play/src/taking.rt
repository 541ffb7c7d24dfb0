ghost use Rattle.std.specs.Prelude.{◌≡◌, true, map, OnOk};
ghost use Rattle.lload_spec.specs.Writable.{each_can_be_written};
ghost use Rattle.small_play.specs.FedMessages.{message};
ghost use Rattle.small_play.specs.Settling.{MayTakeEach, TookEach};

use crate::fed::Fed;
use lload_names::{Entries, NoMemory, PartName};
use small_world::World;
use std::collections::VecDeque;

/// Takes these messages of a part, one after another, each with all that follows from it. The entries go behind those
/// that are there.
pub(crate) fn take_each(
    world: &mut World,
    part: PartName,
    mut messages: VecDeque<Fed>,
    piece: &mut Entries,
) -> Result<(), NoMemory>
    requires { MayTakeEach world.old part (map message messages.items) }
    ensures took { OnOk result (TookEach part (map message messages.items) world.old world.new piece.old piece.new) }
    ensures writable { OnOk result (each_can_be_written piece.old ≡ true → each_can_be_written piece.new ≡ true) }
{
    while let Some(fed) = messages.pop_front() {
        let round = world.round(part, fed.id, fed.rest)?;
        piece.append(round)?;
    }
    Ok(())
}
