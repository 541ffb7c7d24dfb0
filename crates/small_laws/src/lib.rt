//! Laws of the small world's definitions: what lists of entries gain from one entry more at their end. This is of the
//! small world, which goes when the world of all parts stands.
//!
//! The functions have empty bodies, and their contracts are the laws. The layers above append entries to the lists
//! of their parts, and prove what is promised of the longer list from what held of the shorter one by these laws:
//! operations, Outs and ends of a client's list, Sent entries, answers and identifiers of a connection's list, and
//! the parts of a journal.
#![tactic(auto)]

ghost use Rattle.small_laws.specs.ClientGrowth.{OperationsGrow, OutsGrow, AnyGrows, EndingGrows, SomeEntryGrows, OwnNames, NoneBeyond, NewOperation, CountRises, CountStays, AllOperationsGrow, HoldsOfNamed, NamedIsThere};
ghost use Rattle.small_laws.specs.ConnectionGrowth.{SendingsGrow, AnswersGrow, GivenCountGrows};
ghost use Rattle.small_laws.specs.FamilyGrowth.{PartsAppend, ClientsAppend, ConnectionsAppend};

/// The parts of a journal that grows.
pub fn parts_grow()
    ensures entries { PartsAppend }
    ensures clients { ClientsAppend }
    ensures connections { ConnectionsAppend }
{}

/// The operations of a client's list that grows by an entry: each stays, and the entry may make one more.
pub fn operations_grow()
    ensures grown { OperationsGrow }
    ensures count_rises { CountRises }
    ensures count_stays { CountStays }
    ensures all { AllOperationsGrow }
{}

/// An entry that makes an operation makes the one of the next number.
pub fn named_operations_grow()
    ensures { NewOperation }
{}

/// The names of a client's operations: the client, and the numbers from 1 to their count.
pub fn operations_are_named()
    ensures own { OwnNames }
    ensures none_beyond { NoneBeyond }
    ensures holds { HoldsOfNamed }
    ensures there { NamedIsThere }
{}

/// What a client got and how an operation ended, in a client's list that grows by an entry.
pub fn outs_and_endings_grow()
    ensures outs { OutsGrow }
    ensures ending { EndingGrows }
{}

/// Tests of some entry, in a list that grows by an entry.
pub fn tests_of_some_grow()
    ensures any { AnyGrows }
    ensures looking_back { SomeEntryGrows }
{}

/// The Sent entries, answers and identifiers of a connection's list that grows by an entry.
pub fn connections_grow()
    ensures sendings { SendingsGrow }
    ensures answers { AnswersGrow }
    ensures identifiers { GivenCountGrows }
{}
