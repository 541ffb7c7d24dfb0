ghost use Rattle.std.specs.Prelude.{◌≡◌, ◌+◌, ◌≤◌, length, IfOk};
ghost use Rattle.std.specs.Option.{option_copied};
ghost use Rattle.ldap_controls.specs.Lists.{control_view, octets_of};
ghost use Rattle.lload_spec.specs.Identity.{identity_control};
ghost use Rattle.lload_spec.specs.Settings.{Settings, is_privileged};
ghost use Rattle.proxy_authz.specs.Carrying.{own_name, Carries};

use ldap_controls::{Control, with_first};
use lload_names::{Body, NoMemory};
use std::alloc::Global;

/// The OID of the Proxied Authorization control (RFC 4370, section 3).
pub const PROXIED_AUTHORIZATION: &str = "2.16.840.1.113730.3.4.18";

/// Whether an identity is the proxy's own, which is `dn:` and `binddn`, byte for byte; `None` stands for settings without
/// an own Bind, under which no identity is. It takes no memory.
pub fn privileged(who: &[u8], binddn: Option<&[u8]>) -> bool
    ensures { (s : Settings) → own_name s ≡ option_copied binddn.entry → result ≡ is_privileged s who.now }
{
    match (who.strip_prefix(b"dn:"), binddn) {
        (Some(name), Some(own)) => name == own,
        _ => false,
    }
}

/// The rest that goes upstream for a request of a client with this identity, with proxied authorization on: the rest
/// itself for the proxy's own identity, else with the critical control of the identity first (RFC 4370, section 3).
pub fn proxied(
    alloc: Global,
    rest: &[u8],
    who: &[u8],
    binddn: Option<&[u8]>,
) -> Result<Body, NoMemory>
    requires { length rest.now + octets_of (identity_control who.now) ≤ 1048576000 }
    ensures { IfOk result (Carries (option_copied binddn.entry) rest.now who.now) }
{
    if privileged(who, binddn) {
        return Body::from_slice(alloc, rest);
    }
    with_first(alloc, rest, &identity_control(who))
}

/// The critical control that carries an identity.
fn identity_control(who: &[u8]) -> Control<'_>
    ensures { control_view result ≡ identity_control who.now }
{
    Control {
        oid: PROXIED_AUTHORIZATION.as_bytes(),
        critical: true,
        value: Some(who),
    }
}
