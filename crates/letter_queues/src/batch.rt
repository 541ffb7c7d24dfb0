ghost use Rattle.std.specs.Prelude.{◌≡◌, ◌≤◌, [], ◌++◌, OnOk, IfErr};
ghost use Rattle.std.specs.List.{list_any};
ghost use Rattle.std.specs.VecDeque.{deque_len, deque_capacity};
ghost use Rattle.lload_names.specs.Same.{same_part};
ghost use Rattle.part_spec.specs.World.{lowest};
ghost use Rattle.letter_queues.specs.Queues.{senders_to, receivers, AreSame};
ghost use Rattle.letter_queues.specs.Batches.{batch_flights, flights_in};

use crate::parts::lower_part;
use crate::sorted::SortedLetters;
use lload_names::{NoMemory, PartName, Posted};
use std::collections::VecDeque;

/// The letters of one turn that aren't sorted yet, with their sender.
#[derive(Drop)]
pub(crate) struct Batch {
    pub(crate) from: PartName,
    pub(crate) letters: VecDeque<Posted>,
}

impl Batch {
    /// Whether one of the letters goes to a receiver.
    fn has_letter_to(&self, receiver: PartName) -> bool
        ensures { result ≡ list_any (λ p. same_part receiver p.to) self.now.letters.items }
    {
        self.letters.iter().any(|posted| receiver == posted.to)
    }

    /// The lowest receiver of a letter.
    fn lowest_receiver(&self) -> Option<PartName>
        ensures { result ≡ lowest (receivers (batch_flights self.now)) }
    {
        let mut found = None;
        for posted in &self.letters {
            found = lower_part(found, Some(posted.to));
        }
        found
    }

    /// Sorts the letters, the first first. For want of memory those that are left come back.
    fn sort(self, sorted: &mut SortedLetters) -> Result<(), Batch>
        ensures ok { OnOk result (AreSame (sorted.old ++ batch_flights self) sorted.new) }
        ensures err { IfErr result (λ left. AreSame (sorted.old ++ batch_flights self) (sorted.new ++ batch_flights left)) }
    {
        let Batch { from, mut letters } = self;
        while let Some(posted) = letters.pop_front() {
            if let Err(posted) = sorted.put_last(from, posted) {
                letters.push_front_reserved(posted);
                return Err(Batch { from, letters });
            }
        }
        Ok(())
    }
}

/// Sorts all batches, the first first. For want of memory those that are left stay.
pub(crate) fn sort_all(
    given: &mut VecDeque<Batch>,
    sorted: &mut SortedLetters,
) -> Result<(), NoMemory>
    ensures same { AreSame (sorted.old ++ flights_in given.old.items) (sorted.new ++ flights_in given.new.items) }
    ensures all { OnOk result (given.new.items ≡ []) }
    ensures capacity { deque_capacity given.new ≡ deque_capacity given.old }
    ensures len { deque_len given.new ≤ deque_len given.old }
{
    while let Some(batch) = given.pop_front() {
        if let Err(left) = batch.sort(sorted) {
            given.push_front_reserved(left);
            return Err(NoMemory);
        }
    }
    Ok(())
}

/// The lowest receiver of a letter in a batch.
pub(crate) fn lowest_receiver_in(given: &VecDeque<Batch>) -> Option<PartName>
    ensures { result ≡ lowest (receivers (flights_in given.now.items)) }
{
    let mut found = None;
    for batch in given {
        found = lower_part(found, batch.lowest_receiver());
    }
    found
}

/// The lowest sender of a letter in a batch to a receiver.
pub(crate) fn lowest_sender_in(given: &VecDeque<Batch>, receiver: PartName) -> Option<PartName>
    ensures { result ≡ lowest (senders_to receiver (flights_in given.now.items)) }
{
    let mut found = None;
    for batch in given {
        if batch.has_letter_to(receiver) {
            found = lower_part(found, Some(batch.from));
        }
    }
    found
}
