//! Tests of the whole: `run` over objects in memory, against worked configurations and scripts.
#![tactic(auto)]

#[cfg(test)]
mod checks;
#[cfg(test)]
mod faults;
#[cfg(test)]
mod replays;
#[cfg(test)]
mod running;
