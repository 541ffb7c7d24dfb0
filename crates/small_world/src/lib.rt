//! The small world, which goes when the world of all parts stands: one client, one regular connection and the desk, of
//! Deletes and their answers, seen through the journal that its steps make.
//!
//! The layers above may rely on this: a world that stands for a journal stands, after each call, for that journal
//! with the answered entries behind it, and the journal of a world keeps the promises of the laws below. Where there
//! is no memory, nothing has changed.
#![tactic(auto)]

mod laws;
mod pieces;
mod world;

pub use laws::{a_world_keeps_the_first_promise, a_world_knows_its_journal};
pub use world::{Forwarded, Link, World};

#[cfg(test)]
mod tests {
    use super::*;
    use lload_names::{Body, PartName};
    use std::test::Fail;

    #[test]
    fn a_delete_goes_there_and_back(rt: HostRuntime) -> Result<(), Fail> {
        let alloc = rt.alloc();
        let mut world = World::plain(alloc)?;
        assert_eq!(rt; world.begin(PartName::Up(1))?.len(), 2);
        assert_eq!(rt; world.hear()?.len(), 1);
        assert_eq!(rt; world.begin(PartName::Client(1))?.len(), 1);
        let request = Body::from_slice(alloc, b"\x4A\x03o=a")?;
        assert_eq!(rt; world.round(PartName::Client(1), 5, request)?.len(), 5);
        let answer = Body::from_slice(alloc, b"\x6B\x07\x0A\x01\x00\x04\x00\x04\x00")?;
        assert_eq!(rt; world.round(PartName::Up(1), 1, answer)?.len(), 3);
        Ok(())
    }
}
