//! Each turn of a bind connection makes what some moves of the machine's connection make.
//!
//! The function has an empty body, and its contracts are the laws. A layer above may rely on them for every input of a
//! bind connection, and for the end of its link.
#![tactic(auto)]

ghost use Rattle.stands_laws.specs.Follows.{BindEndsLaw, BindFollowsLaw};

/// What a bind connection makes of an input is what some moves make: its state behind it stands for the machine's
/// connection, each letter that it gives has one of the machine, and the letter that it took has left its queue in both. The
/// same of the end of its link.
pub fn turns_of_bind_connections_are_moves()
    ensures inputs { BindFollowsLaw }
    ensures ends { BindEndsLaw }
{}
