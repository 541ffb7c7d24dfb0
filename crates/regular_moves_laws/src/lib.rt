//! The turns of regular upstream connections are moves of the machine.
//!
//! The function has an empty body, and its contract is the law that `stands_laws` states of a regular connection.
#![tactic(auto)]

ghost use Rattle.stands_laws.specs.Follows.{RegularEndsLaw, RegularFollowsLaw};

/// Whatever comes to a regular connection, some moves of the machine make what its turn makes of it; and some make what the
/// end of its link makes.
pub fn a_regular_connection_makes_moves()
    ensures follows { RegularFollowsLaw }
    ensures ends { RegularEndsLaw }
{}
