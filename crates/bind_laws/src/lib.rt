//! The laws of bind connections: what a connection's turns keep of the promises, whatever comes to it.
//!
//! The functions have empty bodies, and their contracts are the laws. A layer above may rely on them for each list that a
//! bind connection's turns make. What an entry has to be, and that turns of such entries keep each clause, is said of
//! connections of both kinds in `connection_laws`.
#![tactic(auto)]

ghost use Rattle.bind_laws.specs.Turns.{BindShares, BindGives, BindSays, BindMeets};

/// Each list that the turns of a bind connection make keeps the connection's share, up to the first letter that isn't fit.
pub fn a_bind_connection_keeps_its_share()
    ensures shares { BindShares }
{}

/// Where each letter of a bind connection's list was fit, the letters that the list stands for are those that its turns
/// gave.
pub fn a_bind_connection_gives_what_its_turns_gave()
    ensures gives { BindGives }
{}

/// What a bind connection's state says behind its list, up to the first letter that isn't fit, is what the list says, where
/// each Forward that was taken says of its operation what the family says: which identifiers are next and free, which were
/// given, and which request is open.
pub fn a_bind_connection_says_what_its_list_says()
    ensures says { BindSays }
    ensures meets { BindMeets }
{}
