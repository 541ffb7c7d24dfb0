ghost use Rattle.std.specs.Prelude.{◌≡◌, ◌≤◌, length, IfOk};
ghost use Rattle.ldap_spec.specs.Bodies.{refusal, refusal_code as code_of_refusal, refusal_text as text_of_refusal, result_fields, timeout_code as code_of_timeout};
ghost use Rattle.ldap_spec.specs.Elements.{written};
ghost use Rattle.ldap_spec.specs.Kinds.{response_tag};

use crate::bodies::{element, result_of};
use crate::responses::final_tag;
use lload_names::{Body, NoMemory, OpKind, Refusal};
use std::alloc::Global;

/// The answer that refuses a request of this kind (this project's own; RFC 4511, section 4.1.9).
pub fn refusal_rest(alloc: Global, kind: OpKind, which: Refusal) -> Result<Body, NoMemory>
    ensures { IfOk result (λ body. body ≡ refusal kind which) }
{
    result_rest(alloc, kind, refusal_code(kind, which), refusal_text(which))
}

/// The last response to a request of this kind, with a code and a diagnostic message alone (RFC 4511, section 4.1.9).
pub fn result_rest(alloc: Global, kind: OpKind, code: u8, text: &str) -> Result<Body, NoMemory>
    requires { length text.now ≤ 64 }
    ensures { IfOk result (λ body. body ≡ written (response_tag kind) (result_fields code text.now)) }
{
    let fields = result_of(alloc, code, text)?;
    element(alloc, final_tag(kind), fields.as_slice())
}

/// The result code of a refusal (RFC 4511, appendix A; RFC 4370, section 4).
fn refusal_code(kind: OpKind, which: Refusal) -> u8
    ensures { result ≡ code_of_refusal kind which }
{
    match which {
        Refusal::C1 | Refusal::C2 => 51,
        Refusal::C3 | Refusal::C4 => 52,
        Refusal::C5 => timeout_code(kind),
        Refusal::C6 => 53,
        Refusal::C7 | Refusal::C10 | Refusal::C11 => 2,
        Refusal::C8 => 123,
        Refusal::C9 => 80,
    }
}

/// The code of a time limit: of the request for a Search, of the proxy for another (RFC 4511, appendix A).
fn timeout_code(kind: OpKind) -> u8
    ensures { result ≡ code_of_timeout kind }
{
    match kind {
        OpKind::Search => 3,
        _ => 11,
    }
}

/// The diagnostic message of a refusal (this project's own).
fn refusal_text(which: Refusal) -> &'static str
    ensures text { result.now ≡ text_of_refusal which }
    ensures short { length result.now ≤ 64 }
{
    match which {
        Refusal::C1 => "server busy",
        Refusal::C2 => "client has too many pending operations",
        Refusal::C3 => "no connections available",
        Refusal::C4 => "upstream connection lost",
        Refusal::C5 => "operation timed out",
        Refusal::C6 => "operation restricted",
        Refusal::C7 => "bind in progress",
        Refusal::C8 => "proxied authorization not allowed",
        Refusal::C9 => "identity not known",
        Refusal::C10 => "TLS not supported",
        Refusal::C11 => "LDAP version not supported",
    }
}
