ghost use Rattle.std.specs.Prelude.{◌≡◌};
ghost use Rattle.letter_queues.specs.Rows.{is_spot_between};

use crate::parts::is_same;
use lload_names::PartName;

/// Where a sorted letter stands: by receiver, then by sender, then in the order of its queue.
#[derive(Clone, Copy, PartialEq, Eq, PartialOrd, Ord, Drop)]
pub(crate) struct Spot {
    pub(crate) receiver: PartName,
    pub(crate) sender: PartName,
    pub(crate) number: u64,
}

impl Spot {
    /// The first of all spots of a receiver.
    pub(crate) fn first_to(receiver: PartName) -> Spot
        ensures { result ≡ record { receiver = receiver; sender = PartName.Desk; number = 0 } }
    {
        Spot {
            receiver,
            sender: PartName::Desk,
            number: 0,
        }
    }

    /// The first of all spots from a sender to a receiver.
    pub(crate) fn first_between(sender: PartName, receiver: PartName) -> Spot
        ensures { result ≡ record { receiver = receiver; sender = sender; number = 0 } }
    {
        Spot {
            receiver,
            sender,
            number: 0,
        }
    }

    /// Whether the spot is in the queue of this sender and receiver.
    pub(crate) fn is_between(&self, sender: PartName, receiver: PartName) -> bool
        ensures { result ≡ is_spot_between sender receiver self.now }
    {
        is_same(sender, self.sender) && is_same(receiver, self.receiver)
    }
}
