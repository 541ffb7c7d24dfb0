//! The small world's definitions: journals and the lists of their parts, operations and how they end, what upstreams
//! answer, and what a script's lines do. This is of the small world, which goes when the world of all parts stands.
//!
//! The definitions stand in `specs/`, one file for each topic. They speak of whole lists of entries: a place of a
//! list is what stands before it, and there is no state, table or queue in them. The layers above state their
//! contracts with them. The functions here have empty bodies: their contracts are laws of the definitions.
#![tactic(auto)]

ghost use Rattle.small_spec.specs.Laws.{AnswersMayGrow, LooksBack};

/// What looks back alone needs a look at the new entry only.
pub fn later_entries_change_nothing_before()
    ensures { LooksBack }
{}

/// What a client got stays allowed when the connection's list grows.
pub fn answers_may_grow()
    ensures { AnswersMayGrow }
{}
