//! Each turn of a client makes what some moves of the machine's client make.
//!
//! The functions have empty bodies, and their contracts are the laws. A layer above may rely on them for every input of a
//! client, and for the end of its link.
#![tactic(auto)]

ghost use Rattle.stands_laws.specs.Follows.{ClientEndsLaw, ClientFollowsLaw};

/// What a client makes of an input is what some moves make: its state behind it stands for the machine's client, each letter
/// that it gives has one of the machine, and the letter that it took has left its queue in both. The same of the end of its
/// link.
pub fn turns_of_clients_are_moves()
    ensures inputs { ClientFollowsLaw }
    ensures ends { ClientEndsLaw }
{}
