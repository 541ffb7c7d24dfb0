//! From the shares of the parts and the links between them to what the promise of one upstream's answers in order says of
//! several lists.
//!
//! Each function has an empty body, and its contract is a law: one clause of the promise, for families of lists, whatever
//! made them.
#![tactic(auto)]

ghost use Rattle.fifo_laws.specs.Laws.{FifoSentOnce, FifoUnanswered};

/// An operation is sent to one upstream at most, and there once.
pub fn an_operation_is_sent_once()
    ensures { FifoSentOnce }
{}

/// Where an operation was sent to no upstream, no upstream's answer reached its client: it got nothing, or one answer of
/// the proxy's own.
pub fn an_operation_that_was_not_sent_is_answered_by_the_proxy_alone()
    ensures { FifoUnanswered }
{}
