use super::*;
use std::test::Fail;

#[test]
fn every_fault_is_advised_on(rt: HostRuntime) -> Result<(), Fail> {
    let advices = advise(rt.alloc(), b"teir roundrobin\nio-threads 17\n")?;
    let mut out = String::new(rt.alloc());
    for advice in advices.as_slice() {
        advice.write_line("a", &mut out)?;
    }
    assert_eq!(rt;
        out.as_str(),
        "a:1: teir: unknown directive; did you mean 'tier'? (line 1, kind 3)\na:2: 17: the number can't be read or is out of its range; give a number from 1 to 16 (line 2, kind 5)\na:3: the file has no backend; add one behind a tier: backend-server uri=ldap://127.0.0.1 (line 3, kind 10)\n"
    );
    Ok(())
}

#[test]
fn a_file_is_told(rt: HostRuntime) -> Result<(), Fail> {
    let text =
        b"loglevel any\ntier weighted\nbackend-server uri=ldap://127.0.0.1:1389 weight=3\n\tnumconns=5\ntier bestof\n";
    let told = tell(rt.alloc(), "a", text)?;
    assert_eq!(rt;
        std::str::from_utf8(told.out.as_slice())?,
        "a: configuration accepted: 2 tiers, 1 backends, 15 places\ntier  type        backend  address                places    regular  bind  weight\n1     weighted    1        127.0.0.1:1389         1-15      5        10    3\n2     bestof      none, so that the tier never decides\na:1: loglevel: taken without effect\n"
    );
    Ok(())
}

#[test]
fn a_file_is_converted(rt: HostRuntime) -> Result<(), Fail> {
    let text = b"# a\nlogfile x\n\ty\n\ntier weighted\nbackend-server uri=ldap://127.0.0.1";
    let told = tell_converted(rt.alloc(), "a", text)?;
    assert_eq!(rt;
        std::str::from_utf8(told.out.as_slice())?,
        "# a\n# logfile: OpenLDAP's, left out here: no log is written; remove the line (kind 3)\n# logfile x\n# \ty\n\ntier weighted\nbackend-server uri=ldap://127.0.0.1"
    );
    Ok(())
}
