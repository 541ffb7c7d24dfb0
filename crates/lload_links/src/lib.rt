//! The outside of the daemon: links, what hands them out, what tells which of them became ready, the clock, and the
//! gate before a read.
//!
//! Code that serves is generic over [`Link`], [`Harbour`], [`Poller`], [`Watch`], [`Clock`] and [`Gate`]. The layers
//! above may rely on this: no call of a link, a poller or a harbour blocks but the two waits; a count of faults never
//! falls, and `Failed` comes only where it rose in that call; what is left to read, was read and was written changes
//! only as the answers say, where it is told; each link that is handed out is unused; a harbour closes by `wait` alone.
//! Objects in memory tell all of it: [`MemLink`] and [`MemHarbour`] go by a plan, [`StillClock`] stands still, and
//! [`OpenGate`] is open. All of this is this project's own.
#![tactic(auto)]

mod clock;
mod harbour;
mod link;
mod mem_harbour;
mod mem_link;
mod mem_poller;
mod poller;
mod queue;
#[cfg(test)]
mod tests;

pub use clock::{Clock, Gate, OpenGate, PartNo, StillClock};
pub use harbour::{Accept, Address, Bell, Connect, Harbour, Listen, Made};
pub use link::{Link, LinkRead, LinkWrite, Origin, Ready, Seen};
pub use mem_harbour::{MemConnect, MemConnects, MemHarbour, MemLinks};
pub use mem_link::{MemLink, MemRead, MemReads, MemWrite, MemWrites};
pub use mem_poller::{MemPoller, MemWatch};
pub use poller::{Poller, Told, Watch, Watched, Woke};
pub use queue::Queue;
