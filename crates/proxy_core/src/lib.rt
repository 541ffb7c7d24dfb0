//! The world: all parts of the proxy, and the letters in flight between them.
//!
//! The layer above may rely on this, for all settings that agree with what a world has (its plans so far, and later ones
//! for connections above all that were linked): a new world stands for the empty run of the parts; a turn of a part that
//! may take its input, and a link that comes up, append the entries of the definitions' turn, and the world stands for
//! theirs behind it; so does the letter that waits first from a sender, which may always be taken, and then what was
//! appended is what the run's journal grows by; the end of a link does the same and takes no memory; for want of memory
//! nothing is appended, and the world stands for what it stood for. It stores no journal. A turn costs the logarithm of
//! the parts and letters, beside the part's own cost. `turn` and `turn_link` are the rules of which one call for each kind
//! of event is to be made: that call, a reload, and taking letters until none waits aren't here yet.
#![tactic(auto)]

mod ends;
mod made;
mod reads;
mod takes;
mod turns;
mod world;

pub use world::World;
