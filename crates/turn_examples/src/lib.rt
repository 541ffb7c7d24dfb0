//! Wrong turns, each the right turn of `part_spec` with one change, run beside the right turns of all other parts: with the right
//! turn a run keeps all promises, and with the wrong one the clauses that are named refuse its journal, and no others, checked
//! by computation. Nothing rests on this crate.
#![tactic(auto)]

pub mod binds;
pub mod clients;
pub mod connections;
pub mod desks;
pub mod silences;
