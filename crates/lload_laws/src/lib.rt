//! Laws of the proxy's definitions: what lists of entries gain from one entry more at their end.
//!
//! The functions have empty bodies, and their contracts are the laws. The layers above append entries to the lists
//! of their parts, and prove what is promised of the longer list from what held of the shorter one by these laws:
//! operations, Outs and ends of a client's list, and the Sent entries of a connection's list. What a client is bound to
//! by its list is what it is bound to by the calls that its part makes of the list, entry by entry.
#![tactic(auto)]

ghost use Rattle.lload_laws.specs.ClientGrowth.{OperationsGrow, OutsGrow, EndingGrows, OwnNames, OldOperations, CountRises, CountStays, HoldsOfNamed};
ghost use Rattle.lload_laws.specs.ClientBinding.{BoundByCalls};
ghost use Rattle.lload_laws.specs.ConnectionGrowth.{SendingsGrow};

/// The operations of a client's list that grows by an entry: each stays, and the entry may make one more.
pub fn operations_grow()
    ensures grown { OperationsGrow }
    ensures count_rises { CountRises }
    ensures count_stays { CountStays }
{}

/// The names of a client's operations: the client, and the numbers from 1 to their count. A name keeps its operation
/// where the list grows by an entry.
pub fn operations_are_named()
    ensures own { OwnNames }
    ensures old { OldOperations }
    ensures holds { HoldsOfNamed }
{}

/// What a client got and how an operation ended, in a client's list that grows by an entry.
pub fn outs_and_endings_grow()
    ensures outs { OutsGrow }
    ensures ending { EndingGrows }
{}

/// The Sent entries of a connection's list that grows by an entry: each stays, with the entry in its reign where it
/// reigns, and then comes the entry where it is one.
pub fn connections_grow()
    ensures sendings { SendingsGrow }
{}

/// What a client is bound to by its list, at each place and at each moment, is what it is bound to by the calls that the
/// list comes to: a choice of a live operation whose action binds, each end of a chosen write, and each Bind.
pub fn clients_are_bound_by_calls()
    ensures same { BoundByCalls }
{}
