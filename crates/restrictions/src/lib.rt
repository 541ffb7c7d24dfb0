//! What requests are kept from, and what they bind, by their OIDs (`restrict_exop` and `restrict_control` in
//! lloadd.conf(5)).
//!
//! The layers above may rely on this: the action of a request is that of `lload_spec` under all settings with these
//! restrictions; an OID has the action that it was first given, and where it is given another nothing changes; for want
//! of memory nothing changes. An OID is looked up in the logarithm of how many there are.
#![tactic(auto)]

mod action;
mod actions;
mod table;
#[cfg(test)]
mod tests;

pub use action::Action;
pub use table::Restrictions;
