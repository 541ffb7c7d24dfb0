//! The configuration of the proxy: the directives of lloadd.conf(5) that this project takes, with its own arguments,
//! ranges, defaults and effects.
//!
//! The layers above may rely on this: [`read`] answers the configuration of a text, or its first fault, exactly as the
//! definition over the whole text says; each configuration that it gives is within the limits of the proxy; `plain`,
//! `bench`, `check_text` and `copy` are exact. [`faults`] goes on behind a faulty line by leaving it out: it gives the line
//! and the kind of every fault, of which the first is that of `read`. Want of memory is the one other answer.
#![tactic(auto)]

mod at_fault;
mod builtin;
mod check;
mod config;
mod draft;
pub mod examples;
mod finding;
mod line;
mod reading;
mod table;
#[cfg(test)]
mod tests;
mod values;

pub use at_fault::wanted_of;
pub use builtin::{bench, plain};
pub use check::check_text;
pub use config::{Address4, Config, Host, Hosts, OwnBind};
pub use finding::{LineFault, LineFaults, faults};
pub use reading::{ConfFault, read};
pub use table::{
    ACTIONS, Arguments, BACKEND_KEYS, BIND_KEYS, DIRECTIVES, Directive, Keys, Number, TIER_KINDS,
    Takes, directive_named,
};
