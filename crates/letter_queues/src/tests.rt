use super::*;
use lload_names::{Letter, PartName, Posted};
use std::test::Fail;

/// The connection that says it is up; 0 where there is no such letter.
fn conn_of(letter: &Option<Letter>) -> u32 {
    match letter {
        Some(Letter::IsUp { conn }) => *conn,
        _ => 0,
    }
}

#[test]
fn letters_are_held_sorted_taken_and_put_back_in_order(rt: HostRuntime) -> Result<(), Fail> {
    let mut queues = LetterQueues::new(rt.alloc());
    for conn in 1..3 {
        let mut letters = Vec::new(rt.alloc());
        letters.push(Posted {
            to: PartName::Desk,
            letter: Letter::IsUp { conn },
        })?;
        queues.reserve(1)?;
        queues.hold(PartName::Up(2), letters);
    }
    assert_eq!(rt; queues.lowest_waiting(), Some(PartName::Desk));
    queues.sort()?;
    let Some(letter) = queues.take(PartName::Up(2), PartName::Desk) else {
        return Err("no letter")?;
    };
    queues.put_back(PartName::Up(2), PartName::Desk, letter);
    queues.sort()?;
    assert_eq!(rt; queues.waiting(PartName::Desk), Some(PartName::Up(2)));
    let first = queues.take(PartName::Up(2), PartName::Desk);
    assert_eq!(rt; conn_of(&first), 1);
    let second = queues.take(PartName::Up(2), PartName::Desk);
    assert_eq!(rt; conn_of(&second), 2);
    assert_eq!(rt; queues.is_empty(), true);
    Ok(())
}
