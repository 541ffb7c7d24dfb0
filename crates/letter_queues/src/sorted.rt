ghost use Rattle.std.specs.Prelude.{◌≡◌, [], ◌∷◌, ◌++◌, OnOk, OnErr, IfErr};
ghost use Rattle.part_spec.specs.World.{lowest, is_between, without_first, flights};
ghost use Rattle.letter_queues.specs.Queues.{first_letter, senders_to, receivers, queue, AreSame};
ghost use Rattle.letter_queues.specs.Rows.{first_spot_between};

use crate::parts::is_same;
use crate::spot::Spot;
use lload_names::{Letter, PartName, Posted};
use std::alloc::Global;
use std::collections::BTreeMap;
use std::marker::Model;

/// Letters by their spots. The numbers of all are above `low` and below `high`.
#[derive(Drop)]
pub(crate) struct SortedLetters {
    rows: BTreeMap<Spot, Letter>,
    low: u64,
    high: u64,
}

impl Model for SortedLetters {
    ghost use Rattle.std.specs.Prelude.{List};
    ghost use Rattle.part_spec.specs.World.{Flight};

    ghost Value = { List Flight };

    ghost use Rattle.letter_queues.specs.Rows.{flights_at, AreRows};

    ghost view = { λ s. flights_at s.rows.entries };

    ghost invariant = { λ s. AreRows s.low s.high s.rows.entries };
}

impl SortedLetters {
    const MIDDLE: u64 = 1 << 63;

    /// No letters.
    pub(crate) fn new(alloc: Global) -> SortedLetters
        ensures { result ≡ [] }
    {
        SortedLetters {
            rows: BTreeMap::new(alloc),
            low: SortedLetters::MIDDLE,
            high: SortedLetters::MIDDLE + 1,
        }
    }

    /// Puts a letter behind all others of its queue. For want of memory it comes back, and nothing changes.
    pub(crate) fn put_last(&mut self, sender: PartName, posted: Posted) -> Result<(), Posted>
        ensures put { OnOk result (AreSame (self.old ++ flights sender (posted ∷ [])) self.new) }
        ensures err { OnErr result (self.new ≡ self.old) }
        ensures back { IfErr result (λ p. p ≡ posted) }
    {
        let number = self.high;
        if number == u64::MAX {
            return Err(posted);
        }
        let Posted { to, letter } = posted;
        let spot = Spot {
            receiver: to,
            sender,
            number,
        };
        match self.rows.insert(spot, letter) {
            Ok(_) => {
                self.high = number + 1;
                Ok(())
            }
            Err(refused) => {
                let (_, letter) = refused.value;
                Err(Posted { to, letter })
            }
        }
    }

    /// Puts a letter in front of all others of its queue. For want of memory it comes back, and nothing changes.
    pub(crate) fn put_first(&mut self, sender: PartName, posted: Posted) -> Result<(), Posted>
        ensures put { OnOk result (AreSame (flights sender (posted ∷ []) ++ self.old) self.new) }
        ensures err { OnErr result (self.new ≡ self.old) }
        ensures back { IfErr result (λ p. p ≡ posted) }
    {
        let number = self.low;
        if number == 0 {
            return Err(posted);
        }
        let Posted { to, letter } = posted;
        let spot = Spot {
            receiver: to,
            sender,
            number,
        };
        match self.rows.insert(spot, letter) {
            Ok(_) => {
                self.low = number - 1;
                Ok(())
            }
            Err(refused) => {
                let (_, letter) = refused.value;
                Err(Posted { to, letter })
            }
        }
    }

    /// Takes the first letter of a queue out.
    pub(crate) fn take(&mut self, sender: PartName, receiver: PartName) -> Option<Letter>
        ensures letter { result ≡ first_letter (queue sender receiver self.old) }
        ensures rest { self.new ≡ without_first (is_between sender receiver) self.old }
    {
        let spot = spot_between(&self.rows, sender, receiver)?;
        self.rows.remove(&spot)
    }

    /// The lowest receiver of a letter.
    pub(crate) fn lowest_receiver(&self) -> Option<PartName>
        ensures { result ≡ lowest (receivers self.now) }
    {
        match self.rows.first_key_value() {
            Some((spot, _)) => Some(spot.receiver),
            None => None,
        }
    }

    /// The lowest sender of a letter to a receiver.
    pub(crate) fn lowest_sender(&self, receiver: PartName) -> Option<PartName>
        ensures { result ≡ lowest (senders_to receiver self.now) }
    {
        let (spot, _) = self.rows.range(Spot::first_to(receiver)..).next()?;
        if is_same(receiver, spot.receiver) {
            Some(spot.sender)
        } else {
            None
        }
    }
}

/// The spot of the first letter of a queue.
fn spot_between(rows: &BTreeMap<Spot, Letter>, sender: PartName, receiver: PartName) -> Option<Spot>
    ensures { result ≡ first_spot_between sender receiver rows.now.entries }
{
    let (spot, _) = rows.range(Spot::first_between(sender, receiver)..).next()?;
    if spot.is_between(sender, receiver) {
        Some(*spot)
    } else {
        None
    }
}
