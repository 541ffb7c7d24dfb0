//! The letters in flight between parts: first in first out from each sender to each receiver.
//!
//! What a turn gave is held without memory, as a batch, and sorted when there is memory; where a letter stands is no
//! part of what the queues are. The layers above may rely on this: contracts see one queue for each sender and receiver;
//! letters are moved and never copied; `hold`, `take`, `put_back` and the reads take no memory; for want of memory each
//! queue stays as it was; and whatever list of letters the queues carry, they go on as it does, and answer as it does.
#![tactic(auto)]

mod batch;
mod laws;
mod parts;
mod queues;
mod returned;
mod sorted;
mod spot;
#[cfg(test)]
mod tests;

pub use laws::queues_carry_letters;
pub use queues::LetterQueues;
