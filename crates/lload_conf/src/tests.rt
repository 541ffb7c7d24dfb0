use super::*;
use std::test::Fail;

const TEXT: &[u8] =
    b"bindconf bindmethod=simple binddn=cn=proxy credentials=secret timeout=30\ntier weighted\nbackend-server uri=ldap://127.0.0.1:1389 numconns=5\n\tbindconns=2 weight=3\nbackend-server uri=ldap://localhost:1390/ numconns=5 bindconns=2\n";

#[test]
fn a_text_is_read_checked_and_copied(rt: HostRuntime) -> Result<(), Fail> {
    let alloc = rt.alloc();
    let config = read(alloc, TEXT)?.copy(alloc)?;
    assert_eq!(rt; config.timeout, 30);
    assert_eq!(rt;
        check_text(alloc, &config)?.as_slice(),
        b"configuration accepted: 1 tiers, 2 backends, 14 places\n".as_slice()
    );
    Ok(())
}

#[test]
fn a_faulty_line_is_named(rt: HostRuntime) -> Result<(), Fail> {
    let text = b"tier roundrobin\nbackend-server uri=ldap://127.0.0.1:0\n";
    let fault = read(rt.alloc(), text.as_slice());
    assert!(rt; matches!(fault, Err(ConfFault::Line { line: 2, kind: 5 })));
    Ok(())
}

#[test]
fn the_built_in_configurations_are_made(rt: HostRuntime) -> Result<(), Fail> {
    let alloc = rt.alloc();
    assert_eq!(rt; plain(alloc)?.hosts.len(), 1);
    assert_eq!(rt; bench(alloc)?.hosts.len(), 2);
    Ok(())
}
