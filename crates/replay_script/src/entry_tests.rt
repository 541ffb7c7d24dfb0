use crate::{LineFault, entry_line, read_entry};
use std::process::Abort;
use std::test::Fail;

/// The journal of one Delete that is answered, and of one that finds no connection.
const JOURNAL: [&str; 18] = [
    "0 up 1 linked\n",
    "0 up 1 up\n",
    "0 desk heard up 1\n",
    "0 client 1 arrived\n",
    "0 client 1 in 30080201054A036F3D61\n",
    "0 desk asked 1.1 regular free\n",
    "0 desk chose 1.1 up 1 of 1 word 0\n",
    "0 client 1 chosen 1.1 up 1 of 1\n",
    "0 up 1 sent 1.1 30080201014A036F3D61\n",
    "0 up 1 got 300C0201016B070A010004000400\n",
    "0 desk heard ended 1.1 up 1 latency 0\n",
    "0 client 1 out 300C0201056B070A010004000400\n",
    "0 client 1 arrived\n",
    "0 client 1 in 30080201054A036F3D61\n",
    "0 desk asked 1.1 regular free\n",
    "0 desk chose 1.1 unavailable word 0\n",
    "0 client 1 chosen 1.1 unavailable\n",
    "0 client 1 out 30240201056B1F0A0134040004186E6F20636F6E6E656374696F6E7320617661696C61626C65\n",
];

/// Lines of the other forms.
const LINES: [&str; 24] = [
    "18446744073709551615 client 4294967295 gone zeroid\n",
    "7 client 0 late 4294967295.18446744073709551615\n",
    "7 client 1 chosen 1.1 busy\n",
    "7 client 1 stalled\n",
    "7 client 1 flowing\n",
    "7 up 1 retired\n",
    "7 up 1 own 3006020101500101\n",
    "7 up 1 expired 1.1\n",
    "7 up 1 missed 1.1\n",
    "7 up 1 idle 1.1\n",
    "7 up 1 paused 2\n",
    "7 up 1 resumed 2\n",
    "7 up 1 down ownbind\n",
    "7 up 1 down drained\n",
    "7 desk asked 1.1 bind backend 2\n",
    "7 desk asked 1.1 regular conn 3\n",
    "7 desk chose 1.1 busy word 18446744073709551615\n",
    "7 desk chose 1.1 unavailable word 9\n",
    "7 desk heard retired 1\n",
    "7 desk heard down 1\n",
    "7 desk heard returned 1.2 up 3\n",
    "7 desk heard ended 1.1 up 1 latency none\n",
    "7 desk heard ended 1.1 up 1 latency 4294967295\n",
    "7 desk replanned 2 base 1\n",
];

#[test]
fn lines_are_read_and_written_again(rt: HostRuntime) -> Result<(), Fail> {
    for line in JOURNAL {
        again(&rt, line)?;
    }
    for line in LINES {
        again(&rt, line)?;
    }
    Ok(())
}

/// What is read of the line is written as it.
fn again(rt: &(impl Abort + AllocGlobal), line: &str) -> Result<(), Fail> {
    let entry = read_entry(rt.alloc(), line.as_bytes())?;
    let written = entry_line(rt.alloc(), &entry)?;
    assert_eq!(rt; written.as_slice(), line.as_bytes());
    Ok(())
}

#[test]
fn fields_are_read_at_their_places(rt: HostRuntime) -> Result<(), Fail> {
    for (line, wanted) in [
        (
            "9 up 2 sent 3.4 30080201054A036F3D61\n",
            "Entry { part: Up(2), at: 9, what: Sent { id: 5, op: OpName { client: 3, k: 4 }, rest: Body { bytes: [74, 3, 111, 61, 97] } } }",
        ),
        (
            "9 desk chose 3.4 up 5 of 6 word 7\n",
            "Entry { part: Desk, at: 9, what: Chose { op: OpName { client: 3, k: 4 }, answer: Go { conn: 5, backend: 6 }, word: 7 } }",
        ),
    ] {
        let entry = read_entry(rt.alloc(), line.as_bytes())?;
        let text = format!(in rt.alloc(); "{entry:?}")?;
        assert_eq!(rt; text.as_str(), wanted);
    }
    Ok(())
}

#[test]
fn lines_of_no_entry_are_refused(rt: HostRuntime) {
    for line in [
        "",
        "\n",
        "0 up 1 linked",
        "0 up 1 linked\r\n",
        "0 up 1 linked \n",
        "0  up 1 linked\n",
        " 0 up 1 linked\n",
        "00 up 1 linked\n",
        "18446744073709551616 up 1 linked\n",
        "0 up 4294967296 linked\n",
        "0 up linked\n",
        "0 desk 1 linked\n",
        "0 up 1 Linked\n",
        "0 up 1 linked linked\n",
        "0 up 1 late 1\n",
        "0 up 1 late 1.01\n",
        "0 up 1 late 1.1.1\n",
        "0 up 1 late 4294967296.1\n",
        "0 up 1 down why\n",
        "0 up 1 own 3006020101500\n",
        "0 up 1 own 300602010150010\n",
        "0 up 1 own 3006020101500101 \n",
        "0 client 1 in 30080201054a036f3d61\n",
        "0 client 1 in 3081080201054A036F3D61\n",
        "0 client 1 in 3009020200054A036F3D61\n",
        "0 client 1 in 3003020105\n",
        "0 client 1 in 30080201054A036F3D6100\n",
        "0 client 1 in\n",
        "0 desk chose 1.1 up 1 word 0\n",
        "0 desk chose 1.1 up 1 of 1\n",
        "0 desk asked 1.1 regular\n",
        "0 desk asked 1.1 free regular\n",
        "0 desk heard up 1 up 1\n",
        "0 desk heard ended 1.1 up 1 latency nothing\n",
        "0 desk replanned 2 base\n",
        "end 12\n",
    ] {
        let read = read_entry(rt.alloc(), line.as_bytes());
        assert!(rt; matches!(read, Err(LineFault::NotACommand)), "{line:?}");
    }
}
