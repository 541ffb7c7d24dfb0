//! More clauses of a client's share: what each list of a client's turns keeps of the promises, whatever comes to it.
//!
//! The functions have empty bodies, and their contracts are the laws. A layer above may rely on them for each list that a
//! client's turns make.
#![tactic(auto)]

ghost use Rattle.client_share_laws.specs.Clauses.{ClientBusy, ClientUnavailable, ClientGone, ClientOutsOwned, ClientInOrder, ClientNotices};

/// Each Busy, and each Unavailable, for a live operation of a client has its refusal directly behind it, whatever came to
/// the client.
pub fn a_client_is_told_of_its_choices()
    ensures busy { ClientBusy }
    ensures unavailable { ClientUnavailable }
{}

/// Each Gone of a client's list has its cause, whatever came to it: the first check of the message before it, an Unbind, or
/// an event of the link. And the protocol error notice stands only directly before an end that it is sent for.
pub fn a_client_goes_for_a_cause()
    ensures gone { ClientGone }
    ensures notices { ClientNotices }
{}

/// Each Out of a client's list is of one of its operations, or is the protocol error notice with Gone behind it, and none
/// stands behind Gone, whatever came to the client.
pub fn a_client_gets_answers_of_its_own()
    ensures outs_owned { ClientOutsOwned }
{}

/// A client's list begins with Arrived, which stands nowhere else, and has choices and late letters alone behind its end,
/// whatever came to the client.
pub fn a_client_arrives_first_and_goes_last()
    ensures in_order { ClientInOrder }
{}
