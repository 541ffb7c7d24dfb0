//! Where a request goes: only where its first check let it go on, and to a connection of its kind.
//!
//! The function has an empty body, and its contract is a law of families whose lists turns made.
#![tactic(auto)]

ghost use Rattle.sent_laws.specs.Laws.{GoesRightly};

/// Each request that was sent upstream, or that its connection missed, is one that its first check let go on, at a connection of
/// its kind: a Bind at a bind connection, another request at a regular one. A Bind that goes on in an exchange is where the
/// exchange is, any other request where it was chosen.
pub fn a_request_is_sent_where_its_first_check_let_it_go()
    ensures { GoesRightly }
{
    identity_laws::a_client_is_who_the_family_says();
}
