//! A client's share of the promises: what each list of a client's turns keeps, up to the first letter that isn't fit.
//!
//! The functions have empty bodies, and their contracts are the laws. A layer above may rely on them for each list that a
//! client's turns make.
#![tactic(auto)]

ghost use Rattle.client_answer_laws.specs.Clauses.{ClientLife, ClientAnswered, ClientRefusals, ClientShares, ClientSuccesses};

/// Up to the first letter that isn't fit, a client's list is one of a client's life: each choice is the first of an operation
/// of its own, no message comes while the client's part holds, and the notice stands only before an end that it is sent for.
pub fn a_client_lives_its_life()
    ensures life { ClientLife }
{}

/// Up to the first letter that isn't fit, what a client got for each operation is a beginning of the answers that were taken for
/// it, or such a beginning without a final one and then one answer of the proxy's own; and a success that was kept back went out
/// only with a readable identity.
pub fn a_client_gets_the_answers_that_were_taken()
    ensures answered { ClientAnswered }
    ensures successes_known { ClientSuccesses }
{}

/// Up to the first letter that isn't fit, each operation that got an answer of the proxy's own has its cause: the choice that
/// refused it, the letter of a connection that was lost or late or knew no identity, or the first check of its own message or of
/// the Cancel that named it.
pub fn a_client_is_refused_for_a_cause()
    ensures refusals { ClientRefusals }
{}

/// Up to the first letter that isn't fit, a client's list keeps its whole share of the promises.
pub fn a_client_keeps_its_share()
    ensures shares { ClientShares }
{}
