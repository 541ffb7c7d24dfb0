//! From the links between lists to what is promised of rest: where no letter waits, what each part gave was taken, and so it
//! was heard.
//!
//! The function has an empty body, and its contract is the law, for families of lists, whatever made them.
#![tactic(auto)]

ghost use Rattle.settled_laws.specs.Laws.{RestLaw};

/// Where nothing waits, the desk heard each state of each connection, and that each choice which came too late was returned.
pub fn what_was_given_was_heard()
    ensures { RestLaw }
{}
