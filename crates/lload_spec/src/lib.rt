//! The proxy as far as its promises speak of it: journals and the lists of their parts, operations and how they end,
//! what upstreams answer, and what is promised of every journal.
//!
//! The definitions stand in `specs/`, one file for each topic. They speak of whole lists of entries: a place of a
//! list is what stands before it, and there is no state, table or queue in them. The layers above state their
//! contracts with them. The functions here have empty bodies: their contracts are laws of the definitions.
#![tactic(auto)]

ghost use Rattle.lload_spec.specs.Good.{Good, Promised};
ghost use Rattle.lload_spec.specs.Laws.{AnswersMayGrow, EndStays, FamilyIsWhole, LaterPlansMoveNone, LooksBack, NoneBroken};
ghost use Rattle.lload_spec.specs.PickLaws.{EqualMeansPickFirst, OrderPermutes, WeightedPermutes};
ghost use Rattle.lload_spec.specs.Plain.{plain};
ghost use Rattle.lload_spec.specs.Settled.{Settled};
ghost use Rattle.lload_spec.specs.Strict.{Strict};
ghost use Rattle.lload_spec.specs.Tested.{CausedTested, FifoTested, GoodTested, OneEachTested, SettledTested, StrictTested};
ghost use Rattle.lload_spec.specs.TextLaws.{TextsFollow};
ghost use Rattle.lload_spec.specs.Verdict.{first_broken};
ghost use Rattle.lload_spec.specs.WellFormed.{WellFormed};

/// What looks back alone needs a look at the new entry only.
pub fn later_entries_change_nothing_before()
    ensures { LooksBack }
{}

/// What a client got stays allowed when the connection's list grows.
pub fn answers_may_grow()
    ensures { AnswersMayGrow }
{}

/// The end of an operation stays when its client's list grows.
pub fn the_end_stays()
    ensures { EndStays }
{}

/// The text of a journal with more entries behind it is the text of the one and then the text of the others.
pub fn texts_follow()
    ensures { TextsFollow }
{}

/// The order in which a tier's backends are tried has each of them once.
pub fn each_backend_is_tried_once()
    ensures weighted { WeightedPermutes }
    ensures order { OrderPermutes }
{}

/// With equal mean latencies bestof picks the backend that weighted picks.
pub fn equal_means_pick_as_weighted()
    ensures { EqualMeansPickFirst }
{}

/// A plan that is added to those of a run moves no connection whose number isn't above its base.
pub fn later_plans_move_no_connection()
    ensures { LaterPlansMoveNone }
{}

/// Each promise holds exactly where its computed test passes.
pub fn promises_are_tested()
    ensures fifo { FifoTested }
    ensures one_each { OneEachTested }
    ensures caused { CausedTested }
    ensures good { GoodTested }
    ensures strict { StrictTested }
    ensures settled { SettledTested }
{}

/// No promise is broken exactly where the six promises are kept.
pub fn none_is_broken_where_all_are_kept()
    ensures { NoneBroken }
{}

/// The family of a journal names each part that has entries.
pub fn the_family_of_a_journal_is_whole()
    ensures { FamilyIsWhole }
{}
