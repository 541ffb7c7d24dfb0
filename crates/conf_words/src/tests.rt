use crate::{LineReader, NextLine};
use std::test::Fail;

const FILE: &[u8] =
    b"# front\r\n\tof it\ntier weighted\r\nbackend-server \"uri=ldap://127.0.0.1\"\n\tweight=3\n\"";

#[test]
fn lines_are_read_and_a_fault_stays(rt: HostRuntime) -> Result<(), Fail> {
    let mut reader = LineReader::new(rt.alloc(), FILE);
    for text in [
        "Line { number: 3, words: Listed { values: [Word { text: \"tier\" }, Word { text: \"weighted\" }] } }",
        "Line { number: 4, words: Listed { values: [Word { text: \"backend-server\" }, Word { text: \"uri=ldap://127.0.0.1\" }, Word { text: \"weight=3\" }] } }",
        "Fault { line: 6, kind: 2 }",
        "Fault { line: 6, kind: 2 }",
    ] {
        let next = reader.next();
        assert_eq!(rt; format!(in rt.alloc(); "{next:?}")?.as_str(), text);
    }
    Ok(())
}

#[test]
fn the_end_comes_behind_the_last_line(rt: HostRuntime) -> Result<(), Fail> {
    let mut reader = LineReader::new(rt.alloc(), b"tier weighted");
    let _line = reader.next();
    let NextLine::End = reader.next() else {
        return Err("no end")?;
    };
    Ok(())
}
