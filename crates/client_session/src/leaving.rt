ghost use Rattle.std.specs.Prelude.{◌≡◌, ◌<◌, ◌≤◌, ◌&&◌, ◌++◌, ◌∷◌, false, [], None, OnOk, OnErr, List};
ghost use Rattle.lload_names.specs.declared.names.PartName.TheVariants.{Client};
ghost use Rattle.lload_names.specs.declared.names.What.TheVariants.{Gone, Out};
ghost use Rattle.ldap_spec.specs.Bodies.{protocol_error_notice};
ghost use Rattle.lload_spec.specs.FirstCheck.{Ends, Unbinds};
ghost use Rattle.lload_spec.specs.Settings.{Settings};
ghost use Rattle.part_spec.specs.ClientState.{ClientState, is_present, check_at};
ghost use Rattle.part_spec.specs.ClientTurn.{by_check, link_gone};
ghost use Rattle.part_spec.specs.Inputs.{where_so};
ghost use Rattle.client_session.specs.Closing.{closing, most_closing};
ghost use Rattle.client_session.specs.Did.{Did, IsSame};
ghost use Rattle.client_session.specs.Ended.{IsEnded, counted, is_of_bytes};
ghost use Rattle.client_session.specs.Stands.{Stands};
ghost use Rattle.ldap_spec.specs.Kinds.{kind_of as kind_of_rest};
ghost use Rattle.lload_names.specs.Same.{same_kind};
ghost use Rattle.lload_names.specs.declared.names.OpKind.TheVariants.{Bind};
ghost use Rattle.lload_spec.specs.Entries.{makes_operation as makes_operation_of};
ghost use Rattle.lload_spec.specs.Lists.{passes};

use crate::check::{kind_of, makes_operation};
use crate::part::ClientPart;
use ldap_messages::notice_rest;
use lload_names::{Body, EndWhy, NoMemory, OpKind, What};
use outbox::Outbox;

impl ClientPart {
    /// The bytes of the link are no message, or one that is too big: the client is told so, and its part ends. Another
    /// reason has no rule.
    pub(crate) fn lose(&mut self, at: u64, why: EndWhy, out: &mut Outbox) -> Result<(), NoMemory>
        ensures did { OnOk result ((s : Settings) (p : ClientState) → Stands s p self.old → Did s p at None (where_so (is_present p) (link_gone p why)) out.old out.new self.new) }
        ensures out { OnErr result (IsSame out.old out.new) }
        ensures err { OnErr result (self.new ≡ self.old) }
    {
        if !self.is_present() || !is_of_bytes(why) {
            return Ok(());
        }
        let notice = notice_rest(self.alloc)?;
        self.reserve_closing(2, out)?;
        self.put(
            at,
            What::Out {
                id: 0,
                rest: notice,
            },
            out,
        );
        self.finish(at, why, out);
        Ok(())
    }

    /// A message that ends the client, for this reason: it is told so.
    pub(crate) fn end_by_message(
        &mut self,
        at: u64,
        id: u32,
        rest: Body,
        why: EndWhy,
        out: &mut Outbox,
    ) -> Result<(), NoMemory>
        requires { self.old.operations.count < 18446744073709551615 }
        ensures did { OnOk result ((s : Settings) (p : ClientState) → Stands s p self.old → check_at s p (record { id = id; rest = rest }) ≡ Ends why → Did s p at None (by_check s p at (record { id = id; rest = rest }) (Ends why)) out.old out.new self.new) }
        ensures out { OnErr result (IsSame out.old out.new) }
        ensures err { OnErr result (self.new ≡ self.old) }
    {
        let notice = notice_rest(self.alloc)?;
        self.reserve_closing(3, out)?;
        self.count_in(id, rest.as_slice());
        self.put(at, What::In { id, rest }, out);
        self.put(
            at,
            What::Out {
                id: 0,
                rest: notice,
            },
            out,
        );
        self.finish(at, why, out);
        Ok(())
    }

    /// An Unbind: the client leaves (RFC 4511, section 4.3).
    pub(crate) fn unbind(
        &mut self,
        at: u64,
        id: u32,
        rest: Body,
        out: &mut Outbox,
    ) -> Result<(), NoMemory>
        requires { self.old.operations.count < 18446744073709551615 }
        ensures did { OnOk result ((s : Settings) (p : ClientState) → Stands s p self.old → check_at s p (record { id = id; rest = rest }) ≡ Unbinds → Did s p at None (by_check s p at (record { id = id; rest = rest }) Unbinds) out.old out.new self.new) }
        ensures out { OnErr result (IsSame out.old out.new) }
        ensures err { OnErr result (self.new ≡ self.old) }
    {
        self.reserve_closing(2, out)?;
        self.count_in(id, rest.as_slice());
        self.put(at, What::In { id, rest }, out);
        self.finish(at, EndWhy::Left, out);
        Ok(())
    }

    /// Counts a message that ends the client, where it makes an operation; a Bind empties the identity.
    fn count_in(&mut self, id: u32, rest: &[u8])
        requires { self.old.operations.count < 18446744073709551615 }
        ensures stands { (s : Settings) (p : ClientState) → Stands s p self.old → Stands s (counted (record { id = id; rest = rest.now }) p) self.new }
        ensures same { closing self.new ≡ closing self.old }
        ensures long { most_closing self.new ≡ most_closing self.old }
        ensures number { self.new.number ≡ self.old.number }
    {
        if !makes_one(id, rest) {
            return;
        }
        self.operations.pass();
        if !is_bind_request(rest) {
            return;
        }
        self.identity = Body::new(self.alloc);
        self.in_exchange = false;
    }
}

/// Whether the bytes of a link are the reason of an end: they are no message, or one that is too big.
fn is_of_bytes(why: EndWhy) -> bool
    ensures { result ≡ is_of_bytes why }
{
    matches!(why, EndWhy::Bad | EndWhy::TooBig)
}

/// Whether a message makes an operation: it has an identifier other than 0 and is no Unbind and no Abandon.
fn makes_one(id: u32, rest: &[u8]) -> bool
    ensures { result ≡ makes_operation_of (record { id = id; rest = rest.now }) }
{
    id != 0 && makes_operation(rest)
}

/// Whether a rest is a Bind, told by its first octet.
pub(crate) fn is_bind_request(rest: &[u8]) -> bool
    ensures { result ≡ passes (same_kind Bind) (kind_of_rest rest.now) }
{
    matches!(kind_of(rest), Some(OpKind::Bind))
}
