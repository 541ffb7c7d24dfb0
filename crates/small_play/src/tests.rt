use super::*;
use lload_names::{Body, Command, Entries, Entry, What};
use std::alloc::Global;
use std::test::Fail;

fn played(play: &mut Play, command: Command) -> Result<Entries, Fail> {
    match play.play(command) {
        Ok(piece) => Ok(piece),
        Err(Unplayed::DoesNotStand) => Err("the line doesn't stand")?,
        Err(Unplayed::NoMemory) => Err("no memory")?,
    }
}

#[test]
fn a_delete_is_answered(rt: HostRuntime) -> Result<(), Fail> {
    let alloc = rt.alloc();
    let mut play = Play::new(alloc)?;
    assert_eq!(rt; played(&mut play, Command::UpReady { n: 1 })?.len(), 2);
    assert_eq!(rt; played(&mut play, Command::Settle)?.len(), 1);
    assert_eq!(rt;
        played(&mut play, Command::ClientArrives { n: 1 })?.len(),
        1
    );
    let bytes = Body::from_slice(alloc, b"\x30\x08\x02\x01\x05\x4A\x03o=a")?;
    assert_eq!(rt;
        played(&mut play, Command::ClientBytes { n: 1, bytes })?.len(),
        0
    );
    assert_eq!(rt; played(&mut play, Command::Settle)?.len(), 5);
    let bytes = Body::from_slice(
        alloc,
        b"\x30\x0C\x02\x01\x01\x6B\x07\x0A\x01\x00\x04\x00\x04\x00",
    )?;
    assert_eq!(rt;
        played(&mut play, Command::UpBytes { n: 1, bytes })?.len(),
        0
    );
    let answered = played(&mut play, Command::Settle)?;
    let Some(
        Entry {
            what: What::Out { id, rest },
            ..
        },
    ) = answered.get(2)
    else {
        return Err("the client got nothing")?;
    };
    assert_eq!(rt; *id, 5);
    assert_eq!(rt;
        rest.as_slice(),
        b"\x6B\x07\x0A\x01\x00\x04\x00\x04\x00".as_slice()
    );
    Ok(())
}
