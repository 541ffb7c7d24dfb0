ghost use Rattle.std.specs.Prelude.{◌≡◌, ◌≤◌, length, IfOk};
ghost use Rattle.ldap_spec.specs.Bodies.{cancel_answer, cancel_code as code_of_answer, cancel_text as text_of_answer};

use ldap_messages::result_rest;
use lload_names::{Body, CancelAnswer, NoMemory, OpKind};
use std::alloc::Global;

/// The answer to a Cancel, or to the operation that it names, as one to a request of this kind (RFC 3909, section 2.3).
pub fn cancel_rest(alloc: Global, kind: OpKind, which: CancelAnswer) -> Result<Body, NoMemory>
    ensures { IfOk result (λ body. body ≡ cancel_answer kind which) }
{
    result_rest(alloc, kind, cancel_code(which), cancel_text(which))
}

/// The result code of an answer (RFC 3909, section 2.3; RFC 4511, appendix A).
fn cancel_code(which: CancelAnswer) -> u8
    ensures { result ≡ code_of_answer which }
{
    match which {
        CancelAnswer::S1 => 0,
        CancelAnswer::C13 => 118,
        CancelAnswer::C14 => 119,
        CancelAnswer::C15 => 121,
        CancelAnswer::C16 => 2,
    }
}

/// The diagnostic message of an answer (this project's own).
fn cancel_text(which: CancelAnswer) -> &'static str
    ensures text { result.now ≡ text_of_answer which }
    ensures short { length result.now ≤ 64 }
{
    match which {
        CancelAnswer::S1 => "",
        CancelAnswer::C13 => "operation canceled",
        CancelAnswer::C14 => "no such operation",
        CancelAnswer::C15 => "cannot cancel",
        CancelAnswer::C16 => "cancel value not readable",
    }
}
