//! From what a connection answered to what the client got: a law of the lists of all parts.
#![tactic(auto)]

ghost use Rattle.answer_laws.specs.Laws.{FifoAnswered};

/// Where an operation was sent to an upstream, its client got a beginning of what that one answered, in order, or such a
/// beginning without a final answer and then one answer of the proxy's own.
pub fn a_client_gets_what_its_upstream_answered()
    ensures { FifoAnswered }
{}
