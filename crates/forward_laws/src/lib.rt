//! Where each Sent comes from: a law of the lists of all parts.
#![tactic(auto)]

ghost use Rattle.forward_laws.specs.Laws.{FifoSentChosen};

/// Each operation that was sent was chosen its connection while it was live, or goes on with an exchange there.
pub fn an_operation_is_sent_where_it_was_chosen()
    ensures { FifoSentChosen }
{}
