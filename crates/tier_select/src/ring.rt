ghost use Rattle.std.specs.Prelude.{◌≡◌, ◌++◌, ◌∷◌, [], IfOk};
ghost use Rattle.lload_spec.specs.Picks.{last_of, mean};

use circular_buffer::HeapCircularBuffer;
use lload_names::NoMemory;
use std::alloc::Global;
use std::marker::Model;

/// How many latencies are kept.
const KEPT: usize = 16;

/// The last 16 latencies, in milliseconds.
#[derive(Drop)]
pub(crate) struct Ring {
    latencies: HeapCircularBuffer<u32>,
}

impl Model for Ring {
    ghost use Rattle.std.specs.Prelude.{◌≡◌, ◌≤◌, ℕ, List, length};

    ghost Value = { List ℕ };

    ghost view = { λ r. r.latencies.items };

    ghost invariant = { λ r. (r.latencies.capacity ≡ 16) × (length r.latencies.items ≤ 16) };
}

impl Ring {
    pub(crate) fn new(alloc: Global) -> Result<Ring, NoMemory>
        ensures { IfOk result (λ ring. ring ≡ []) }
    {
        Ok(Ring {
            latencies: HeapCircularBuffer::with_capacity(alloc, KEPT)?,
        })
    }

    pub(crate) fn note(&mut self, latency: u32)
        ensures { self.new ≡ last_of 16 (self.old ++ latency ∷ []) }
    {
        self.latencies.push_back(latency);
    }

    /// The mean, rounded down; 0 where there are no latencies.
    pub(crate) fn mean(&self) -> u64
        ensures { result ≡ mean self.now }
    {
        let count = self.latencies.len();
        let mut sum = 0;
        for index in 0..count {
            if let Some(latency) = self.latencies.get(index) {
                sum += *latency as u64;
            }
        }
        if count == 0 { 0 } else { sum / count as u64 }
    }
}
