//! The turns of the parts, computed on worked scripts: the world of all parts plays each script by the parts' turns alone, and what
//! it makes is what the script should make. Beside that there are letters that are fit and letters that aren't, and lists
//! that a clause of their part's share refuses. Nothing rests on this crate.
#![tactic(auto)]

pub mod alone_lists;
pub mod choices;
pub mod fits;
pub mod journals;
pub mod letters;
pub mod lines;
pub mod links;
pub mod merges;
pub mod promises;
pub mod rest;
pub mod rows;
pub mod rule_shares;
pub mod shares;
pub mod worked_letters;
pub mod wrong_lists;
