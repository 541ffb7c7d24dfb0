//! The laws of regular upstream connections: what a connection's turns keep of the promises, whatever comes to it.
//!
//! The functions have empty bodies, and their contracts are the laws. A layer above may rely on them for each list that a
//! regular connection's turns make. What an entry has to be, and that turns of such entries keep each clause (`Permits`,
//! `Clauses`), is said of connections of both kinds.
#![tactic(auto)]

ghost use Rattle.connection_laws.specs.Turns.{RegularShares, RegularGives};

/// Each list that the turns of a regular connection make keeps the connection's share, up to the first letter that isn't
/// fit.
pub fn a_regular_connection_keeps_its_share()
    ensures shares { RegularShares }
{}

/// Where each letter of a regular connection's list was fit, the letters that the list stands for are those that its turns
/// gave.
pub fn a_regular_connection_gives_what_its_turns_gave()
    ensures gives { RegularGives }
{}
