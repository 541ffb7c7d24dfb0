//! A law of upstream connections of either kind: none that is retired and has nothing left to do waits for anything.
#![tactic(auto)]

ghost use Rattle.drained_laws.specs.Laws.{NoneComesDrained};

/// In each list that a connection's turns make, no message comes where the connection is retired and has nothing left to do:
/// it went down within the turn that left it so.
pub fn a_drained_connection_is_at_its_end()
    ensures { NoneComesDrained }
{}
