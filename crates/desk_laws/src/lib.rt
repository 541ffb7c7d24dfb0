//! The desk's laws: what the desk's turns keep of the promises, whatever comes to it.
//!
//! The functions have empty bodies, and their contracts are the laws. A layer above may rely on them for each list that the
//! desk's turns make.
#![tactic(auto)]

ghost use Rattle.desk_laws.specs.Turns.{DeskShares, DeskGives, DeskSaysSo, DeskSaysWhoIsViable};

/// Each list that the desk's turns make keeps the desk's share, up to the first letter that isn't fit; the letters that it
/// stands for are those that the turns gave; and the facts that the desk's state has are those of the list.
pub fn the_desk_keeps_its_share()
    ensures shares { DeskShares }
    ensures gives { DeskGives }
    ensures says { DeskSaysSo }
    ensures viable { DeskSaysWhoIsViable }
{}
