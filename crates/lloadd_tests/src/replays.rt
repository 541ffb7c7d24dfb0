use crate::running::replay;
use lloadd_run::Status;
use std::test::Fail;

/// A Delete that goes to the upstream and comes back.
pub const ONE_DELETE: &str =
    "up 1 ready\nsettle\nclient 1 arrives\nclient 1 bytes 30080201054A036F3D61\nsettle\nup 1 bytes 300C0201016B070A010004000400\nsettle\n";

/// The lines of its journal.
pub const ITS_LINES: &str =
    "0 up 1 linked\n0 up 1 up\n0 desk heard up 1\n0 client 1 arrived\n0 client 1 in 30080201054A036F3D61\n0 desk asked 1.1 regular free\n0 desk chose 1.1 up 1 of 1 word 0\n0 client 1 chosen 1.1 up 1 of 1\n0 up 1 sent 1.1 30080201014A036F3D61\n0 up 1 got 300C0201016B070A010004000400\n0 desk heard ended 1.1 up 1 latency 0\n0 client 1 out 300C0201056B070A010004000400\n";

#[test]
fn a_delete_goes_there_and_back(rt: HostRuntime) -> Result<(), Fail> {
    let ran = replay(rt.alloc(), ONE_DELETE)?;
    assert_eq!(rt; ran.status, Status::Done);
    let text = format!(in rt.alloc(); "{ITS_LINES}end 12\n")?;
    assert_eq!(rt; ran.written.as_str(), text.as_str());
    Ok(())
}

#[test]
fn any_spelling_of_a_message_is_taken(rt: HostRuntime) -> Result<(), Fail> {
    let text = format!(in rt.alloc(); "{ITS_LINES}end 12\n")?;
    let rows = [
        (
            "3084000000080201054A036F3D61",
            "300C0201016B070A010004000400",
        ),
        (
            "300A02030000054A036F3D61",
            "3082000F0204000000016B070A010004000400",
        ),
    ];
    for (request, answer) in rows {
        let script = format!(in rt.alloc();
            "up 1 ready\nsettle\nclient 1 arrives\nclient 1 bytes {request}\nsettle\nup 1 bytes {answer}\nsettle\n"
        )?;
        let ran = replay(rt.alloc(), script.as_str())?;
        assert_eq!(rt; ran.status, Status::Done, "of {script}");
        assert_eq!(rt; ran.written.as_str(), text.as_str());
    }
    Ok(())
}

#[test]
fn whole_scripts_are_replayed(rt: HostRuntime) -> Result<(), Fail> {
    let rows = [
        ("", "end 0\n"),
        ("client 1 arrives\n", "0 client 1 arrived\nend 1\n"),
        (
            "client 1 arrives\nclient 1 bytes 30080201054A036F3D61\nsettle\n",
            "0 client 1 arrived\n0 client 1 in 30080201054A036F3D61\n0 desk asked 1.1 regular free\n0 desk chose 1.1 unavailable word 0\n0 client 1 chosen 1.1 unavailable\n0 client 1 out 30240201056B1F0A0134040004186E6F20636F6E6E656374696F6E7320617661696C61626C65\nend 6\n",
        ),
    ];
    for (script, text) in rows {
        let ran = replay(rt.alloc(), script)?;
        assert_eq!(rt; ran.status, Status::Done, "of {script}");
        assert_eq!(rt; ran.written.as_str(), text);
    }
    Ok(())
}

#[test]
fn the_first_wrong_line_is_named(rt: HostRuntime) -> Result<(), Fail> {
    let rows = [
        ("settle", 1, ""),
        ("client 2 arrives\n", 1, ""),
        ("client 1 bytes 00\nclient 1 arrives\n", 1, ""),
        ("tick 5\n", 1, ""),
        (
            "client 1 arrives\nclient 1 bytes 3025020107632004000A01000A0100020100020100010100870B6F626A656374436C6173733000\nsettle\n",
            2,
            "0 client 1 arrived\n",
        ),
    ];
    for (script, line, text) in rows {
        let ran = replay(rt.alloc(), script)?;
        assert_eq!(rt; ran.status, Status::ScriptRefused { line }, "of {script}");
        assert_eq!(rt; ran.written.as_str(), text);
    }
    Ok(())
}
