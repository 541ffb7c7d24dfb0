//! Clients that left their exchange: each gave a Leave of it to the connection that was chosen for it, and where this was taken
//! the exchange holds the connection no more.
//!
//! Each function has an empty body, and its contract is a law of families whose lists turns made. A layer above may rely on them
//! for each such family.
#![tactic(auto)]

ghost use Rattle.left_laws.specs.Laws.{LeavesAreTold, LeftGiveLeaves, LeftHoldNothing};

/// An exchange whose Leave its connection took holds it no more: the Leave took the connection down, or the exchange was over
/// there before.
pub fn what_was_left_holds_nothing()
    ensures { LeftHoldNothing }
{
    caused_laws::a_bind_connection_says_what_the_family_says();
}

/// A client that left its exchange, so that it is gone or sent a Bind of another version than 3 before a Bind of the exchange
/// was answered for good, gave a Leave of it to the connection that was chosen for it.
pub fn who_leaves_an_exchange_gives_a_leave()
    ensures { LeftGiveLeaves }
{}

/// So no client that left its exchange holds a connection that was chosen for it, where what each part took of another is all
/// that this one gave it.
pub fn who_left_holds_nothing()
    ensures { LeavesAreTold }
{
    what_was_left_holds_nothing();
    who_leaves_an_exchange_gives_a_leave();
}
