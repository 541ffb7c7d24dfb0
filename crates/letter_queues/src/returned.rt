ghost use Rattle.std.specs.Prelude.{◌≡◌, ◌++◌, None, OnOk};
ghost use Rattle.part_spec.specs.World.{lowest};
ghost use Rattle.letter_queues.specs.Queues.{receivers, senders_to, AreSame};
ghost use Rattle.letter_queues.specs.Batches.{flights_back};

use crate::parts::is_same;
use crate::sorted::SortedLetters;
use lload_names::{NoMemory, PartName, Posted};

/// A letter that was put back in front of its queue, and isn't sorted yet.
#[derive(Drop)]
pub(crate) struct Returned {
    pub(crate) from: PartName,
    pub(crate) posted: Posted,
}

/// Sorts a letter that was put back, where there is one. For want of memory it stays.
pub(crate) fn sort_returned(
    returned: &mut Option<Returned>,
    sorted: &mut SortedLetters,
) -> Result<(), NoMemory>
    ensures same { AreSame (flights_back returned.old ++ sorted.old) (flights_back returned.new ++ sorted.new) }
    ensures ok { OnOk result (returned.new ≡ None) }
{
    let Some(Returned { from, posted }) = returned.take() else {
        return Ok(());
    };
    match sorted.put_first(from, posted) {
        Ok(()) => Ok(()),
        Err(posted) => {
            *returned = Some(Returned { from, posted });
            Err(NoMemory)
        }
    }
}

/// The receiver of a letter that was put back.
pub(crate) fn receiver_of(returned: &Option<Returned>) -> Option<PartName>
    ensures { result ≡ lowest (receivers (flights_back returned.now)) }
{
    match returned {
        Some(back) => Some(back.posted.to),
        None => None,
    }
}

/// The sender of a letter that was put back, where it goes to a receiver.
#[tactic(auto, using(crate::proofs::Batches::back_sender))]
pub(crate) fn sender_to(returned: &Option<Returned>, receiver: PartName) -> Option<PartName>
    ensures { result ≡ lowest (senders_to receiver (flights_back returned.now)) }
{
    let Some(back) = returned else {
        return None;
    };
    if is_same(receiver, back.posted.to) {
        Some(back.from)
    } else {
        None
    }
}
