//! A machine of small moves, and the law of counting that it keeps.
//!
//! It stands for the parts of the load balancer with everything left out that doesn't bear on whether a letter is fit:
//! octets, moments, identities, windows, identifiers of messages. For each operation it keeps how far this is at its
//! client, at its connection and at the desk, and which letters about it wait, the oldest first. A turn of a real part is a
//! few of its moves. A layer above may rely on the law for every list of moves from the empty machine, whatever its moves
//! are: one that may not be made changes nothing.
#![tactic(auto)]

ghost use Rattle.move_laws.specs.Fit.{Law};

/// After every list of moves, each letter that waits first is fit where it will be taken: of each operation there is one
/// question, one choice, one request to a connection and one last answer; no bind connection gets two clients' Binds at a
/// time; pauses and their ends alternate; and an order goes only to a connection that has come up. Where nothing waits, the
/// rows of both sides agree.
pub fn every_letter_is_fit()
    ensures { Law }
{}
