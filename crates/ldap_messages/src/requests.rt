ghost use Rattle.std.specs.Prelude.{◌≡◌, ℕ, List, None, Some, Option, IfSome, MatchOption};
ghost use Rattle.ldap_spec.specs.Kinds.{kind_of_tag};
ghost use Rattle.ldap_spec.specs.Requests.{method_of as method_from, bind_fields, request};
ghost use Rattle.ldap_messages.specs.Requests.{element, method_view, bind_view, view, authentication, IsMethodOf, HasMethod, MethodLends, BindLends, Lends};

use crate::parts::{first_part, tagged_part};
use ber_envelope::integer_of;
use lload_names::OpKind;

/// How a Bind authenticates (RFC 4511, section 4.2).
#[derive(Clone, Copy)]
pub enum Method<'a> {
    /// With this password.
    Simple { password: &'a [u8] },
    /// By this mechanism.
    Sasl { mechanism: &'a [u8] },
    /// In another way, by the tag of its element.
    Other { tag: u8 },
}

/// A Bind, as far as it is read (RFC 4511, section 4.2).
#[derive(Clone, Copy)]
pub struct BindRequest<'a> {
    pub version: u32,
    pub name: &'a [u8],
    pub method: Method<'a>,
}

/// A request, as far as it is read.
#[derive(Clone, Copy)]
pub enum Request<'a> {
    Bind(BindRequest<'a>),
    Unbind,
    /// The request with this identifier is given up (RFC 4511, section 4.11).
    Abandon { id: u32 },
    /// An Extended request of this name (RFC 4511, section 4.12).
    Extended { name: &'a [u8] },
    /// A request of which nothing is read but its kind.
    Plain(OpKind),
}

/// The request that a rest is; `None` exactly where a field that is read of it can't be read, or the tag is none of a
/// request. It lends parts of the rest and takes no memory.
pub fn classify(rest: &[u8]) -> Option<Request<'_>>
    ensures fields { MatchOption result (request rest.now ≡ None) (λ r. request rest.now ≡ Some (view r)) }
    ensures method { IfSome result (HasMethod rest.now) }
    ensures lent { IfSome result (Lends rest.now) }
{
    let operation = first_part(rest)?;
    match operation.tag {
        0x60 => Some(Request::Bind(bind_request(operation.contents)?)),
        0x42 => Some(Request::Unbind),
        0x50 => Some(Request::Abandon {
            id: integer_of(operation.contents)?,
        }),
        0x77 => Some(Request::Extended {
            name: tagged_part(operation.contents, 0x80)?.contents,
        }),
        tag => Some(Request::Plain(request_kind(tag)?)),
    }
}

/// The Bind with these contents.
fn bind_request(contents: &[u8]) -> Option<BindRequest<'_>>
    ensures fields { MatchOption result (bind_fields contents.now ≡ None) (λ b. bind_fields contents.now ≡ Some (bind_view b)) }
    ensures method { IfSome result (λ b. IsMethodOf (authentication contents.now) b.method) }
    ensures lent { IfSome result (BindLends contents.now) }
{
    let version = tagged_part(contents, 0x02)?;
    let name = tagged_part(version.behind, 0x04)?;
    let number = integer_of(version.contents)?;
    let authentication = first_part(name.behind)?;
    Some(BindRequest {
        version: number,
        name: name.contents,
        method: method_of(authentication.tag, authentication.contents)?,
    })
}

/// The method that an element of authentication says.
fn method_of(tag: u8, contents: &[u8]) -> Option<Method<'_>>
    ensures fields { MatchOption result (method_from (element tag contents.now) ≡ None) (λ m. method_from (element tag contents.now) ≡ Some (method_view m)) }
    ensures method { IfSome result (IsMethodOf (Some (element tag contents.now))) }
    ensures lent { IfSome result (MethodLends contents.now) }
{
    match tag {
        0x80 => Some(Method::Simple { password: contents }),
        0xA3 => Some(Method::Sasl {
            mechanism: tagged_part(contents, 0x04)?.contents,
        }),
        _ => Some(Method::Other { tag }),
    }
}

/// The kind of a request by its tag (RFC 4511, section 4.1.1).
fn request_kind(tag: u8) -> Option<OpKind>
    ensures { result ≡ kind_of_tag tag }
{
    match tag {
        0x60 => Some(OpKind::Bind),
        0x63 => Some(OpKind::Search),
        0x66 => Some(OpKind::Modify),
        0x68 => Some(OpKind::Add),
        0x4A => Some(OpKind::Delete),
        0x6C => Some(OpKind::ModifyDn),
        0x6E => Some(OpKind::Compare),
        0x77 => Some(OpKind::Extended),
        _ => None,
    }
}
