use crate::replays::{ITS_LINES, ONE_DELETE};
use crate::running::run_words;
use lload_names::Body;
use lloadd_run::Status;
use std::test::Fail;

#[test]
fn other_words_are_not_taken(rt: HostRuntime) -> Result<(), Fail> {
    for words in [
        "replay",
        "replay plain --id-limit 1",
        "check",
        "check -f",
        "check ",
    ] {
        let ran = run_words(rt.alloc(), words, Body::new(rt.alloc()), &[], &[])?;
        assert_eq!(rt; ran.status, Status::Usage, "of {words}");
        assert_eq!(rt; ran.written.as_str(), "");
    }
    Ok(())
}

#[test]
fn faults_are_told(rt: HostRuntime) -> Result<(), Fail> {
    let script = Body::from_slice(rt.alloc(), ONE_DELETE.as_bytes())?;
    let ran = run_words(rt.alloc(), "replay plain", script, &[0, 1], &[])?;
    assert_eq!(rt; ran.status, Status::ReadFault);
    assert_eq!(rt; ran.written.as_str(), ITS_LINES);
    let script = Body::from_slice(rt.alloc(), ONE_DELETE.as_bytes())?;
    let ran = run_words(rt.alloc(), "replay plain", script, &[], &[1])?;
    assert_eq!(rt; ran.status, Status::WriteFault);
    assert_eq!(rt; ran.written.as_str(), "");
    Ok(())
}

#[test]
fn too_long_a_script_is_told(rt: HostRuntime) -> Result<(), Fail> {
    let mut bytes = Vec::with_capacity(rt.alloc(), 67_108_865)?;
    for _ in 0..9_586_980u32 {
        bytes.extend_from_slice(b"settle\n")?;
    }
    bytes.extend_from_slice(b"settl")?;
    assert_eq!(rt; bytes.len(), 67_108_865);
    let ran = run_words(rt.alloc(), "replay plain", Body::from_vec(bytes), &[], &[])?;
    assert_eq!(rt; ran.status, Status::TooLong);
    assert_eq!(rt; ran.written.as_str(), "");
    Ok(())
}
