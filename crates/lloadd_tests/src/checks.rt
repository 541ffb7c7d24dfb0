use crate::running::{check, run_over, run_words};
use lload_names::{Body, Listed};
use lload_outside::MemFiles;
use lloadd_run::Status;
use std::test::Fail;

/// A file in the usual form.
const USUAL: &[u8] =
    b"# front of the directory\nfeature proxyauthz\nbindconf bindmethod=simple binddn=\"cn=proxy,dc=example,dc=com\"\n\tcredentials=secret timeout=30 network-timeout=5\nio-threads 2\nclient_max_pending 50\nwrite_coherence 5\nrestrict_exop 1.3.6.1.4.1.4203.1.11.1 write\nrestrict_control 1.2.840.113556.1.4.319 connection\ntier weighted\nbackend-server uri=ldap://127.0.0.1:1389 numconns=5\n\tbindconns=2 weight=3\nbackend-server uri=ldap://localhost:1390 numconns=5 bindconns=2\ntier roundrobin\nbackend-server uri=ldap://127.0.0.1:1391\n";

#[test]
fn good_configurations_are_accepted(rt: HostRuntime) -> Result<(), Fail> {
    let ran = check(rt.alloc(), Body::from_slice(rt.alloc(), USUAL)?)?;
    assert_eq!(rt; ran.status, Status::Done);
    assert_eq!(rt;
        ran.written.as_str(),
        "configuration accepted: 2 tiers, 3 backends, 34 places\n"
    );
    let ran = run_words(rt.alloc(), "check plain", Body::new(rt.alloc()), &[], &[])?;
    assert_eq!(rt; ran.status, Status::Done);
    assert_eq!(rt;
        ran.written.as_str(),
        "configuration accepted: 1 tiers, 1 backends, 2 places\n"
    );
    Ok(())
}

#[test]
fn the_first_fault_is_named(rt: HostRuntime) -> Result<(), Fail> {
    let rows = [
        ("", 1, 10),
        (
            "# front of the directory\nfeature proxyauthz\nbindconf bindmethod=simple binddn=cn=p credentials=s timeout=30\nrestrict_exop 1.2.3 isolate\nio-threads 2\n",
            4,
            8,
        ),
        (
            "tier roundrobin\nbackend-server uri=ldap://127.0.0.1:0\n",
            2,
            5,
        ),
    ];
    for (text, line, kind) in rows {
        let ran = check(rt.alloc(), Body::from_slice(rt.alloc(), text.as_bytes())?)?;
        assert_eq!(rt; ran.status, Status::ConfRefused { line, kind }, "of {text}");
        assert_eq!(rt; ran.written.as_str(), "");
    }
    Ok(())
}

#[test]
fn files_fail_or_are_too_long(rt: HostRuntime) -> Result<(), Fail> {
    let mut files = MemFiles::new(rt.alloc(), Listed::new(rt.alloc()), Body::new(rt.alloc()))?;
    let script = Body::new(rt.alloc());
    let ran = run_over(
        rt.alloc(),
        "check lloadd.conf",
        &mut files,
        script,
        &[],
        &[],
    )?;
    assert_eq!(rt; ran.status, Status::ReadFault);
    let blanks = vec![in rt.alloc(); b' '; 1_048_577]?;
    let ran = check(rt.alloc(), Body::from_vec(blanks))?;
    assert_eq!(rt; ran.status, Status::TooLong);
    let ran = run_words(rt.alloc(), "check plain", Body::new(rt.alloc()), &[], &[1])?;
    assert_eq!(rt; ran.status, Status::WriteFault);
    assert_eq!(rt; ran.written.as_str(), "");
    Ok(())
}
