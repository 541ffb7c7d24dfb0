ghost use Rattle.std.specs.Prelude.{IsTrue};
ghost use Rattle.lload_spec.specs.Entries.{is_news};
ghost use Rattle.lload_spec.specs.Writable.{can_be_written};

use crate::{LineFault, Maker, entry_line, read_line};
use lload_names::{
    Answer, Body, Bound, ConnKind, EndWhy, Entry, Letter, OpName, PartName, Want, What,
};
use std::process::Abort;
use std::test::Fail;

const OP: OpName = OpName { client: 1, k: 1 };

const DELETE: &[u8] = b"\x4A\x03o=a";

const ANSWER: &[u8] = b"\x6B\x07\x0A\x01\x00\x04\x00\x04\x00";

#[test]
fn commands_are_read(rt: HostRuntime) -> Result<(), Fail> {
    for (line, command) in [
        ("client 1 arrives", "ClientArrives { n: 1 }"),
        ("client 1 leaves", "ClientLeaves { n: 1 }"),
        ("client 1 stalls", "ClientStalls { n: 1 }"),
        ("client 4294967295 flows", "ClientFlows { n: 4294967295 }"),
        ("up 1 ready", "UpReady { n: 1 }"),
        ("up 4294967295 lost", "UpLost { n: 4294967295 }"),
        ("tick 0", "Tick { ms: 0 }"),
        (
            "word 18446744073709551615",
            "SetWord { w: 18446744073709551615 }",
        ),
        ("step desk", "Step { part: Desk }"),
        ("step client 1 message", "StepMessage { part: Client(1) }"),
        (
            "step up 1 from client 2",
            "StepFrom { part: Up(1), sender: Client(2) }",
        ),
        ("step up 1 tick", "StepTick { n: 1 }"),
        ("reload", "Reload"),
        ("settle", "Settle"),
        (
            "client 1 bytes 4A036f3D61",
            "ClientBytes { n: 1, bytes: Body { bytes: [74, 3, 111, 61, 97] } }",
        ),
        (
            "client 1 bytes ",
            "ClientBytes { n: 1, bytes: Body { bytes: [] } }",
        ),
        (
            "up 1 bytes 500102",
            "UpBytes { n: 1, bytes: Body { bytes: [80, 1, 2] } }",
        ),
    ] {
        let read = read_line(rt.alloc(), line.as_bytes())?;
        let text = format!(in rt.alloc(); "{read:?}")?;
        assert_eq!(rt; text.as_str(), command);
    }
    Ok(())
}

#[test]
fn other_lines_are_refused(rt: HostRuntime) {
    for line in [
        "",
        "client  1 arrives",
        "client 01 arrives",
        "client 4294967296 arrives",
        "client 1 bytes",
        "client 1 bytes 123",
        "client 1 bytes 0g",
        "up 0 ready",
        "up 1 arrives",
        "up 1 stalls",
        "client 1 flows 2",
        "reload 2",
        "word 18446744073709551616",
        "step desk tick",
        "settle ",
        "settle\r",
        "Settle",
    ] {
        let read = read_line(rt.alloc(), line.as_bytes());
        assert!(rt; matches!(read, Err(LineFault::NotACommand)), "{line:?}");
    }
}

#[test]
fn entries_of_clients_are_written(rt: HostRuntime) -> Result<(), Fail> {
    let op = OP;
    let rest = Body::from_slice(rt.alloc(), DELETE)?;
    let answer = Answer::Go {
        conn: 1,
        backend: 1,
    };
    let why = EndWhy::ZeroId;
    client(&rt, What::Arrived, "arrived");
    client(&rt, What::In { id: 5, rest }, "in 30080201054A036F3D61");
    client(&rt, What::Chosen { op, answer }, "chosen 1.1 up 1 of 1");
    client(&rt, What::Late { op }, "late 1.1");
    client(&rt, What::Gone { why }, "gone zeroid");
    client(&rt, What::Stalled, "stalled");
    client(&rt, What::Flowing, "flowing");
    let rest = Body::from_slice(rt.alloc(), ANSWER)?;
    let text = "out 300C0201056B070A010004000400";
    client(&rt, What::Out { id: 5, rest }, text);
    Ok(())
}

#[test]
fn states_of_connections_are_written(rt: HostRuntime) {
    let op = OP;
    let why = EndWhy::TimedOut;
    up(&rt, What::Linked, "linked");
    up(&rt, What::Up, "up");
    up(&rt, What::Retired, "retired");
    up(&rt, What::Expired { op }, "expired 1.1");
    up(&rt, What::Missed { op }, "missed 1.1");
    up(&rt, What::Idle { op }, "idle 1.1");
    up(&rt, What::Paused { client: 2 }, "paused 2");
    up(&rt, What::Resumed { client: 2 }, "resumed 2");
    up(&rt, What::Down { why }, "down timedout");
}

#[test]
fn messages_of_connections_are_written(rt: HostRuntime) -> Result<(), Fail> {
    let op = OP;
    let rest = Body::from_slice(rt.alloc(), DELETE)?;
    let text = "sent 1.1 30080201014A036F3D61";
    up(&rt, What::Sent { id: 1, op, rest }, text);
    let rest = Body::from_slice(rt.alloc(), b"\x50\x01\x02")?;
    up(&rt, What::Own { id: 3, rest }, "own 3006020103500102");
    let rest = Body::from_slice(rt.alloc(), ANSWER)?;
    let text = "got 300C0201016B070A010004000400";
    up(&rt, What::Got { id: 1, rest }, text);
    Ok(())
}

#[test]
fn choices_of_the_desk_are_written(rt: HostRuntime) {
    let (op, word) = (OP, 9);
    let want = Want {
        kind: ConnKind::Regular,
        bound: Bound::Free,
    };
    desk(&rt, What::Asked { op, want }, "asked 1.1 regular free");
    let want = Want {
        kind: ConnKind::Regular,
        bound: Bound::Backend(2),
    };
    let text = "asked 1.1 regular backend 2";
    desk(&rt, What::Asked { op, want }, text);
    let want = Want {
        kind: ConnKind::Bind,
        bound: Bound::Conn(3),
    };
    desk(&rt, What::Asked { op, want }, "asked 1.1 bind conn 3");
    let answer = Answer::Busy;
    let text = "chose 1.1 busy word 9";
    desk(&rt, What::Chose { op, answer, word }, text);
    let answer = Answer::Unavailable;
    let text = "chose 1.1 unavailable word 9";
    desk(&rt, What::Chose { op, answer, word }, text);
}

#[test]
fn plans_of_the_desk_are_written(rt: HostRuntime) {
    let (plan, base) = (2, 1);
    desk(&rt, What::Replanned { plan, base }, "replanned 2 base 1");
}

#[test]
fn letters_to_the_desk_are_written(rt: HostRuntime) {
    let (op, conn) = (OP, 1);
    heard(&rt, Letter::IsUp { conn }, "heard up 1");
    heard(&rt, Letter::IsRetired { conn }, "heard retired 1");
    heard(&rt, Letter::IsDown { conn }, "heard down 1");
    let text = "heard returned 1.1 up 1";
    heard(&rt, Letter::Returned { op, conn }, text);
    let (latency, text) = (Some(0), "heard ended 1.1 up 1 latency 0");
    heard(&rt, Letter::Ended { op, conn, latency }, text);
    let (latency, text) = (None, "heard ended 1.1 up 1 latency none");
    heard(&rt, Letter::Ended { op, conn, latency }, text);
}

fn client(rt: &(impl Abort + AllocGlobal), what: What, text: &str)
    requires { IsTrue (can_be_written what) }
{
    check(rt, PartName::Client(1), what, "client 1", text);
}

fn up(rt: &(impl Abort + AllocGlobal), what: What, text: &str)
    requires { IsTrue (can_be_written what) }
{
    check(rt, PartName::Up(1), what, "up 1", text);
}

fn desk(rt: &(impl Abort + AllocGlobal), what: What, text: &str)
    requires { IsTrue (can_be_written what) }
{
    check(rt, PartName::Desk, what, "desk", text);
}

fn heard(rt: &(impl Abort + AllocGlobal), letter: Letter, text: &str)
    requires { IsTrue (is_news letter) }
{
    desk(rt, What::Heard { letter }, text);
}

/// At the moment 7 the line of the part's entry has these words.
fn check(rt: &(impl Abort + AllocGlobal), part: PartName, what: What, words: &str, text: &str)
    requires { IsTrue (can_be_written what) }
{
    let line = entry_line(rt.alloc(), &Entry { part, at: 7, what });
    let wanted = format!(in rt.alloc(); "7 {words} {text}\n");
    match (line, wanted) {
        (Ok(line), Ok(wanted)) => assert_eq!(rt; line.as_slice(), wanted.as_bytes()),
        _ => assert!(rt; false, "no memory"),
    }
}

/// The commands of so many rounds of the seed 7, behind the opening; their random words were computed apart, as PCG32 has
/// them.
const FOUR_ROUNDS: [&str; 17] = [
    "client 2 bytes 30080201014A036F3D61",
    "settle",
    "up 1 bytes 300C0201016B070A010004000400",
    "settle",
    "client 7 bytes 30080201024A036F3D61",
    "settle",
    "up 4 bytes 300C0201016B070A010004000400",
    "settle",
    "client 6 bytes 30080201034A036F3D61",
    "settle",
    "up 2 bytes 300C0201016B070A010004000400",
    "settle",
    "client 5 bytes 3025020104632004000A01000A0100020100020100010100870B6F626A656374436C6173733000",
    "settle",
    "up 5 bytes 300C020101640704036F3D613000",
    "up 5 bytes 300C02010165070A010004000400",
    "settle",
];

#[test]
fn a_script_is_made_from_a_seed(rt: HostRuntime) -> Result<(), Fail> {
    let mut maker = Maker::new(rt.alloc(), 4, 7)?;
    for _ in 0..13 {
        assert!(rt; maker.next()?.is_some());
    }
    for line in FOUR_ROUNDS {
        let wanted = read_line(rt.alloc(), line.as_bytes())?;
        let wanted = format!(in rt.alloc(); "{wanted:?}")?;
        let command = maker.next()?;
        let text = format!(in rt.alloc(); "{command:?}")?;
        let some = format!(in rt.alloc(); "Some({wanted})")?;
        assert_eq!(rt; text.as_str(), some.as_str());
    }
    assert!(rt; maker.next()?.is_none());
    Ok(())
}
