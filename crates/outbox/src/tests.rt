use super::*;
use lload_names::{Entry, Letter, PartName, Posted, What};
use std::test::Fail;

#[test]
fn what_a_turn_makes_stands_in_order_until_it_is_cleared(rt: HostRuntime) -> Result<(), Fail> {
    let mut out = Outbox::new(rt.alloc());
    out.reserve(2, 1)?;
    out.entries.put(Entry {
        part: PartName::Up(1),
        at: 5,
        what: What::Retired,
    });
    out.entries.put(Entry {
        part: PartName::Desk,
        at: 7,
        what: What::Linked,
    });
    out.letters.put(Posted {
        to: PartName::Desk,
        letter: Letter::IsUp { conn: 1 },
    });
    assert_eq!(rt; out.entries.len(), 2);
    assert_eq!(rt; out.letters.len(), 1);
    let Some(first) = out.entries.as_slice().first() else {
        return Err("no entry")?;
    };
    assert_eq!(rt; first.at, 5);
    out.clear();
    assert_eq!(rt; out.entries.len(), 0);
    assert_eq!(rt; out.letters.len(), 0);
    Ok(())
}
