ghost use Rattle.std.specs.Prelude.{◌≡◌, ◌^◌, ◌<◌, ◌≤◌, ◌∷◌, [], length, IfOk, codes};
ghost use Rattle.ldap_spec.specs.Elements.{written};
ghost use Rattle.ldap_spec.specs.Bodies.{abandon, protocol_error_notice, result_fields, simple_bind, who_am_i};

use ber_envelope::{write_element, write_integer};
use lload_names::{Body, NoMemory};
use std::alloc::Global;

/// The name of the Notice of Disconnection (RFC 4511, section 4.4.1).
const NOTICE_OF_DISCONNECTION: &str = "1.3.6.1.4.1.1466.20036";

/// The name of Who Am I (RFC 4532).
const WHO_AM_I: &str = "1.3.6.1.4.1.4203.1.11.3";

/// The Notice of Disconnection for a protocol error (RFC 4511, section 4.4.1). It is sent with identifier 0.
pub fn notice_rest(alloc: Global) -> Result<Body, NoMemory>
    ensures { IfOk result (λ body. body ≡ protocol_error_notice) }
{
    let mut fields = result_of(alloc, 2, "protocol error")?;
    write_element(0x8A, NOTICE_OF_DISCONNECTION.as_bytes(), &mut fields)?;
    element(alloc, 0x78, fields.as_slice())
}

/// A simple Bind of version 3 (RFC 4511, section 4.2).
pub fn bind_rest(alloc: Global, dn: &[u8], credentials: &[u8]) -> Result<Body, NoMemory>
    requires dn { length dn.now ≤ 1048576 }
    requires credentials { length credentials.now ≤ 1048576 }
    ensures { IfOk result (λ body. body ≡ simple_bind dn.now credentials.now) }
{
    let mut fields = [0x02, 0x01, 0x03].to_vec(alloc)?;
    write_element(0x04, dn, &mut fields)?;
    write_element(0x80, credentials, &mut fields)?;
    element(alloc, 0x60, fields.as_slice())
}

/// The Abandon of the request with an identifier (RFC 4511, section 4.11).
pub fn abandon_rest(alloc: Global, id: u32) -> Result<Body, NoMemory>
    requires { id < 2 ^ 31 }
    ensures { IfOk result (λ body. body ≡ abandon id) }
{
    let mut bytes = Vec::new(alloc);
    write_integer(0x50, id, &mut bytes)?;
    Ok(Body::from_vec(bytes))
}

/// The Who Am I request (RFC 4532, section 2.1).
pub fn who_rest(alloc: Global) -> Result<Body, NoMemory>
    ensures { IfOk result (λ body. body ≡ who_am_i) }
{
    let mut fields = Vec::new(alloc);
    write_element(0x80, WHO_AM_I.as_bytes(), &mut fields)?;
    element(alloc, 0x77, fields.as_slice())
}

/// A result: its code, no matched name, and its diagnostic message (RFC 4511, section 4.1.9).
pub(crate) fn result_of(alloc: Global, code: u8, text: &str) -> Result<Vec<u8>, NoMemory>
    requires { length text.now ≤ 64 }
    ensures { IfOk result (λ fields. fields.items ≡ result_fields code text.now) }
{
    let mut fields = [0x0A, 0x01, code, 0x04, 0x00].to_vec(alloc)?;
    write_element(0x04, text.as_bytes(), &mut fields)?;
    Ok(fields)
}

/// One element with these contents.
pub(crate) fn element(alloc: Global, tag: u8, contents: &[u8]) -> Result<Body, NoMemory>
    requires { length contents.now < 2 ^ 32 }
    ensures { IfOk result (λ body. body ≡ written tag contents.now) }
{
    let mut bytes = Vec::new(alloc);
    write_element(tag, contents, &mut bytes)?;
    Ok(Body::from_vec(bytes))
}
