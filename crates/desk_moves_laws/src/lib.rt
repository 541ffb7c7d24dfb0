//! Each turn of the desk makes what one move of the machine's desk makes, or nothing that the machine knows.
//!
//! The function has an empty body, and its contract is the law. A layer above may rely on it for every input of the desk, a
//! plan among them.
#![tactic(auto)]

ghost use Rattle.stands_laws.specs.Follows.{DeskFollowsLaw};

/// What the desk makes of an input is what some moves make: its state behind it stands for the machine's desk, each choice that
/// it gives has one of the machine, which the machine's desk may choose, and the letter that it took has left its queue in
/// both.
pub fn turns_of_the_desk_are_moves()
    ensures { DeskFollowsLaw }
{}
