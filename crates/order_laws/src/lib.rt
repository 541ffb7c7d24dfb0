//! In what order the states of an upstream connection stand in its list.
#![tactic(auto)]

ghost use Rattle.order_laws.specs.Laws.{UpsInTime};

/// No connection comes up behind its retirement: where it keeps its share, its letters were fit, and no message came to it
/// while it had nothing left to do.
pub fn a_connection_comes_up_before_it_retires()
    ensures { UpsInTime }
{}
