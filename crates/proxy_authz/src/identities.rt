ghost use Rattle.std.specs.Prelude.{◌≡◌, [], IfOk, IsOk};
ghost use Rattle.std.specs.Option.{option_copied};
ghost use Rattle.ldap_spec.specs.Responses.{is_readable_who};
ghost use Rattle.lload_spec.specs.Identity.{simple_identity};

use lload_names::{Body, NoMemory};
use std::alloc::Global;

/// The identity that a successful simple Bind gives: `dn:` and the name, and none where the name or the password is
/// empty (RFC 4513, sections 5.1.1 to 5.1.3). Where it gives none, no memory is wanted.
pub fn simple_identity(alloc: Global, name: &[u8], password: &[u8]) -> Result<Body, NoMemory>
    ensures identity { IfOk result (λ who. who ≡ simple_identity name.now password.now) }
    ensures none { simple_identity name.now password.now ≡ [] → IsOk result }
{
    if name.is_empty() || password.is_empty() {
        return Ok(Body::new(alloc));
    }
    let mut who = b"dn:".to_vec(alloc)?;
    who.extend_from_slice(name)?;
    Ok(Body::from_vec(who))
}

/// Whether the value of an answer to Who Am I is an identity: it is absent or empty, or begins with `dn:` or `u:`
/// (RFC 4513, section 5.2.1.8; RFC 4532, section 2.2). It takes no memory.
pub fn readable_who(value: Option<&[u8]>) -> bool
    ensures { result ≡ is_readable_who (option_copied value.entry) }
{
    match value {
        None => true,
        Some(who) => who.is_empty() || who.starts_with(b"dn:") || who.starts_with(b"u:"),
    }
}
