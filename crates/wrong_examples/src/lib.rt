//! Wrong journals, each made from a worked one by a small change, and the clause of the definitions that refuses it,
//! checked by computation. Nothing rests on this crate.
#![tactic(auto)]

pub mod alone;
pub mod beside;
pub mod binds;
pub mod choices;
pub mod connections;
pub mod deletes;
pub mod features;
pub mod journals;
pub mod picks;
pub mod refusals;
