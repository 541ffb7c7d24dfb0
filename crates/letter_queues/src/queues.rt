ghost use Rattle.std.specs.Prelude.{◌≡◌, ◌==◌, ◌+◌, ◌<◌, ◌≤◌, true, List, [], ◌∷◌, length, OnOk};
ghost use Rattle.part_spec.specs.World.{World, Flight, waiting, lowest_waiting};
ghost use Rattle.letter_queues.specs.Queues.{between, first_letter, later_letters, Carries, Gains, StaySame, OthersStay};

use crate::batch::{Batch, lowest_receiver_in, lowest_sender_in, sort_all};
use crate::parts::lower_part;
use crate::returned::{Returned, receiver_of, sender_to, sort_returned};
use crate::sorted::SortedLetters;
use lload_names::{Letter, NoMemory, PartName, Posted};
use std::alloc::Global;
use std::collections::VecDeque;
use std::marker::Model;

/// Letters in flight: a queue from each sender to each receiver.
///
/// The reads cost the logarithm of what is sorted, and go through all that isn't.
#[derive(Drop)]
pub struct LetterQueues {
    returned: Option<Returned>,
    sorted: SortedLetters,
    given: VecDeque<Batch>,
}

impl Model for LetterQueues {
    ghost use Rattle.letter_queues.specs.Queues.{Queues};

    ghost Value = { Queues };

    ghost use Rattle.std.specs.Prelude.{◌-◌, ◌&&◌, ◌==◌, ◌++◌, length, is_none};
    ghost use Rattle.std.specs.VecDeque.{deque_len, deque_capacity};
    ghost use Rattle.letter_queues.specs.Batches.{flights_in, flights_back};

    ghost view = { λ q. record {
      letters = flights_back q.returned ++ (q.sorted ++ flights_in q.given.items);
      is_sorted = is_none q.returned && length q.given.items == 0;
      spare = deque_capacity q.given - deque_len q.given;
    } };
}

impl LetterQueues {
    /// No letters, and no room for batches. It takes no memory; `alloc` serves later growth.
    pub fn new(alloc: Global) -> LetterQueues
        ensures letters { result.letters ≡ [] }
        ensures sorted { result.is_sorted ≡ true }
    {
        LetterQueues {
            returned: None,
            sorted: SortedLetters::new(alloc),
            given: VecDeque::new(alloc),
        }
    }

    /// Makes room for so many more batches. For want of memory all stays as it was.
    pub fn reserve(&mut self, more: usize) -> Result<(), NoMemory>
        ensures same { StaySame self.old self.new }
        ensures sorted { self.new.is_sorted ≡ self.old.is_sorted }
        ensures spare { OnOk result (more ≤ self.new.spare) }
        ensures kept { self.old.spare ≤ self.new.spare }
    {
        self.given.reserve(more)?;
        Ok(())
    }

    /// Holds the letters of one turn of a sender, each behind those of its queue. It takes no memory: a batch needs
    /// room, unless it is empty.
    pub fn hold(&mut self, from: PartName, letters: Vec<Posted>)
        requires { 0 < length letters.items → 0 < self.old.spare }
        ensures held { Gains from letters.items self.old self.new }
        ensures spare { self.old.spare ≤ self.new.spare + 1 }
        ensures nothing { length letters.items ≡ 0 → self.new ≡ self.old }
    {
        if letters.is_empty() {
            return;
        }
        self.given.push_back_reserved(Batch {
            from,
            letters: VecDeque::from_vec(letters),
        });
    }

    /// Sorts all letters. It changes no queue, also for want of memory.
    pub fn sort(&mut self) -> Result<(), NoMemory>
        ensures same { StaySame self.old self.new }
        ensures sorted { OnOk result (self.new.is_sorted ≡ true) }
        ensures spare { self.old.spare ≤ self.new.spare }
    {
        sort_returned(&mut self.returned, &mut self.sorted)?;
        sort_all(&mut self.given, &mut self.sorted)
    }

    /// Takes the first letter from a sender to a receiver out, where all are sorted; `None` exactly where there is none.
    /// It takes no memory.
    pub fn take(&mut self, sender: PartName, receiver: PartName) -> Option<Letter>
        requires { self.old.is_sorted ≡ true }
        ensures letter { result ≡ first_letter (between sender receiver self.old) }
        ensures rest { between sender receiver self.new ≡ later_letters (between sender receiver self.old) }
        ensures others { OthersStay sender receiver self.old self.new }
        ensures sorted { self.new.is_sorted ≡ true }
        ensures spare { self.new.spare ≡ self.old.spare }
    {
        self.sorted.take(sender, receiver)
    }

    /// Puts a letter back in front of its queue, where all are sorted. It takes no memory.
    pub fn put_back(&mut self, sender: PartName, receiver: PartName, letter: Letter)
        requires { self.old.is_sorted ≡ true }
        ensures back { between sender receiver self.new ≡ letter ∷ between sender receiver self.old }
        ensures others { OthersStay sender receiver self.old self.new }
        ensures spare { self.new.spare ≡ self.old.spare }
    {
        self.returned = Some(Returned {
            from: sender,
            posted: Posted {
                to: receiver,
                letter,
            },
        });
    }

    /// The lowest sender of a letter to a receiver; `None` exactly where there is none. It takes no memory.
    pub fn waiting(&self, receiver: PartName) -> Option<PartName>
        ensures { (w : World) → Carries w.letters self.now → result ≡ waiting w receiver }
    {
        let back = sender_to(&self.returned, receiver);
        let sorted = self.sorted.lowest_sender(receiver);
        let given = lowest_sender_in(&self.given, receiver);
        lower_part(back, lower_part(sorted, given))
    }

    /// The lowest receiver of a letter; `None` exactly where there is no letter. It takes no memory.
    pub fn lowest_waiting(&self) -> Option<PartName>
        ensures { (w : World) → Carries w.letters self.now → result ≡ lowest_waiting w }
    {
        let back = receiver_of(&self.returned);
        let sorted = self.sorted.lowest_receiver();
        let given = lowest_receiver_in(&self.given);
        lower_part(back, lower_part(sorted, given))
    }

    /// Whether there is no letter. It takes no memory.
    pub fn is_empty(&self) -> bool
        ensures { (letters : List Flight) → Carries letters self.now → result ≡ (length letters == 0) }
    {
        match self.lowest_waiting() {
            Some(_) => false,
            None => true,
        }
    }
}
