ghost use Rattle.std.specs.Prelude.{◌≡◌, ◌==◌};
ghost use Rattle.ldap_spec.specs.Tags.{extended_response};
ghost use Rattle.ldap_spec.specs.Kinds.{is_response, tag_of};
ghost use Rattle.conn_core.specs.Dropped.{is_dropped};

use crate::conn::ConnCore;
use ldap_messages::response_kind;

/// Whether the rest of a message is an extended response.
fn is_extended(rest: &[u8]) -> bool
    ensures { result ≡ (tag_of rest.now == extended_response) }
{
    rest.first() == Some(&0x78)
}

/// Whether it is a response at all.
fn is_response(rest: &[u8]) -> bool
    ensures { result ≡ is_response rest.now }
{
    response_kind(rest).is_some()
}

impl ConnCore {
    /// Whether a message that is under nothing that waits is dropped: an extended response under 0 (RFC 4511, section
    /// 4.4), or a response under an identifier that was given.
    pub fn is_dropped(&self, id: u32, rest: &[u8]) -> bool
        ensures { result ≡ is_dropped self.now.table.ids.next id rest.now }
    {
        if id == 0 && is_extended(rest) {
            return true;
        }
        self.was_given(id) && is_response(rest)
    }
}
