ghost use Rattle.std.specs.Prelude.{◌≡◌};
ghost use Rattle.lload_spec.specs.Binding.{higher, own_action, rank};
ghost use Rattle.restrictions.specs.Actions.{action_view};

use lload_names::OpKind;

/// What a restriction does with a request, from the lowest to the highest.
#[derive(Clone, Copy, Debug, PartialEq, Eq, Drop)]
pub enum Action {
    /// Nothing.
    Ignore,
    /// It counts as a write (`write_coherence` in lloadd.conf(5)).
    Write,
    /// The client's later requests go to the same backend.
    Backend,
    /// The client's later requests go to the same connection.
    Connection,
    /// It is refused.
    Reject,
}

impl Action {
    /// The higher of two actions.
    pub(crate) fn higher(self, other: Action) -> Action
        ensures { action_view result ≡ higher (action_view self) (action_view other) }
    {
        if self.rank() < other.rank() {
            other
        } else {
            self
        }
    }

    /// Its place in the order.
    fn rank(self) -> u8
        ensures { result ≡ rank (action_view self) }
    {
        match self {
            Action::Ignore => 0,
            Action::Write => 1,
            Action::Backend => 2,
            Action::Connection => 3,
            Action::Reject => 4,
        }
    }
}

/// The action that a request of this kind begins with: Add, Modify, Delete and ModifyDN are writes (this project's own).
pub(crate) fn own_action(kind: OpKind) -> Action
    ensures { action_view result ≡ own_action kind }
{
    match kind {
        OpKind::Modify | OpKind::Add | OpKind::Delete | OpKind::ModifyDn => Action::Write,
        OpKind::Bind | OpKind::Search | OpKind::Compare | OpKind::Extended => Action::Ignore,
    }
}
