ghost use Rattle.std.specs.Prelude.{◌≡◌, None, Some, MatchOption};
ghost use Rattle.ldap_spec.specs.Messages.{message_within};
ghost use Rattle.small_play.specs.Feeding.{limit_of as limit_of_part};
ghost use Rattle.small_play.specs.FedMessages.{lent};

use ber_envelope::{Envelope, Read};
use lload_names::PartName;

/// How many octets the contents of a client's message may have (`sockbuf_max_incoming_client` in lloadd.conf(5)).
const MAX_INCOMING_CLIENT: u32 = 262_143;

/// How many octets the contents of an upstream's message may have (`sockbuf_max_incoming_upstream` in lloadd.conf(5)).
const MAX_INCOMING_UPSTREAM: u32 = 4_194_303;

/// A message of some bytes: its identifier, and the operation with what stands behind it.
#[derive(Clone, Copy)]
pub(crate) struct Lent<'a> {
    pub(crate) id: u32,
    pub(crate) rest: &'a [u8],
}

/// How many octets the contents of a message may have that a part takes, in the configuration `plain`.
pub(crate) fn limit_of(part: PartName) -> u32
    ensures { result ≡ limit_of_part part }
{
    match part {
        PartName::Desk => 0,
        PartName::Client(_) => MAX_INCOMING_CLIENT,
        PartName::Up(_) => MAX_INCOMING_UPSTREAM,
    }
}

/// The message that all of the bytes spell, where its contents have at most `limit` octets.
pub(crate) fn whole_message(bytes: &[u8], limit: u32) -> Option<Lent<'_>>
    ensures { MatchOption result (message_within limit bytes.now ≡ None) (λ m. message_within limit bytes.now ≡ Some (lent m)) }
{
    match Envelope::read(bytes, limit) {
        Read::Whole { id, rest_at, end } if end == bytes.len() => Some(Lent {
            id,
            rest: &bytes[rest_at..],
        }),
        _ => None,
    }
}
