ghost use Rattle.std.specs.Prelude.{◌≡◌, ◌∷◌, ◌++◌, ◌==◌, [], true, false, max, find, ℕ, List, Option, OnOk, OnErr, OnSome, IfOk, IfSome, ◌<◌, Bool, filter, Some, None};
ghost use Rattle.std.specs.Option.{option_copied, option_map};
ghost use Rattle.ldap_spec.specs.Kinds.{kind_of, is_final as is_final_to};
ghost use Rattle.ldap_spec.specs.Messages.{Message};
ghost use Rattle.ldap_spec.specs.Requests.{request as request_of};
ghost use Rattle.ldap_spec.specs.Responses.{has_code};
ghost use Rattle.lload_spec.specs.BindingCalls.{Call, WriteEnded, standing};
ghost use Rattle.lload_spec.specs.Settings.{Settings};
ghost use Rattle.part_spec.specs.ClientState.{ClientState, ClientRow, without, with_bind_answer, with_answer, who_told, row_named, client_behind, step_clients};
ghost use Rattle.part_spec.specs.ClientTurn.{answer, client_turn, failure};
ghost use Rattle.part_spec.specs.Inputs.{entries_of, marked_by};
ghost use Rattle.part_spec.specs.Marked.{Taken};
ghost use Rattle.lload_names.specs.declared.names.PartName.{PartName};
ghost use Rattle.lload_names.specs.declared.inputs.Input.TheVariants as Input;
ghost use Rattle.lload_names.specs.declared.names.Letter.TheVariants as Letter;
ghost use Rattle.client_rows.specs.Rows.{has_number, has_id, IsNumbered};
ghost use Rattle.client_session.specs.Stands.{Stands, IsToldOnly, behind, seen, shown, simple_who, written, identity_by};

use crate::part::ClientPart;
use client_rows::Row;
use coherence::Window;
use ldap_messages::{refusal_rest, result_code};
use lload_names::{Body, Entry, NoMemory, OpKind, OpName, PartName, Refusal, What};
use outbox::Outbox;
use restrictions::Action;

impl ClientPart {
    /// An answer to an operation, with the identity that it tells: it goes out where the operation is live. For want of
    /// memory nothing changes.
    pub fn reply(
        &mut self,
        op: OpName,
        rest: Body,
        who: Option<Body>,
        now: u64,
        out: &mut Outbox,
    ) -> Result<(), NoMemory>
        ensures entries { OnOk result ((s : Settings) (p : ClientState) (word : ℕ) (sender : PartName) (last : Bool) → Stands s p self.old → out.new.entries.items ≡ out.old.entries.items ++ (client_turn s p (Input.LetterFrom now word sender (Letter.Reply op rest last who))).entries) }
        ensures letters { OnOk result ((s : Settings) (p : ClientState) (word : ℕ) (sender : PartName) (last : Bool) → Stands s p self.old → out.new.letters.items ≡ out.old.letters.items ++ (client_turn s p (Input.LetterFrom now word sender (Letter.Reply op rest last who))).letters) }
        ensures state { OnOk result ((s : Settings) (p : ClientState) (word : ℕ) (sender : PartName) (last : Bool) → Stands s p self.old → Stands s (behind s p (Input.LetterFrom now word sender (Letter.Reply op rest last who))) self.new) }
        ensures out { OnErr result ((out.new.entries.items ≡ out.old.entries.items) × (out.new.letters.items ≡ out.old.letters.items)) }
        ensures err { OnErr result (self.new ≡ self.old) }
    {
        if self.arrived {
            self.answer(op, rest, who, now, out)?;
        }
        Ok(())
    }

    /// A refusal of an operation by its connection: it goes out where the operation is live. For want of memory nothing
    /// changes.
    pub fn failed(
        &mut self,
        op: OpName,
        which: Refusal,
        now: u64,
        out: &mut Outbox,
    ) -> Result<(), NoMemory>
        ensures entries { OnOk result ((s : Settings) (p : ClientState) (word : ℕ) (sender : PartName) → Stands s p self.old → out.new.entries.items ≡ out.old.entries.items ++ (client_turn s p (Input.LetterFrom now word sender (Letter.Failed op which))).entries) }
        ensures letters { OnOk result ((s : Settings) (p : ClientState) (word : ℕ) (sender : PartName) → Stands s p self.old → out.new.letters.items ≡ out.old.letters.items ++ (client_turn s p (Input.LetterFrom now word sender (Letter.Failed op which))).letters) }
        ensures state { OnOk result ((s : Settings) (p : ClientState) (word : ℕ) (sender : PartName) → Stands s p self.old → Stands s (behind s p (Input.LetterFrom now word sender (Letter.Failed op which))) self.new) }
        ensures out { OnErr result ((out.new.entries.items ≡ out.old.entries.items) × (out.new.letters.items ≡ out.old.letters.items)) }
        ensures err { OnErr result (self.new ≡ self.old) }
    {
        if self.arrived {
            let rest = self.refusal_of(op, which)?;
            self.answer(op, rest, None, now, out)?;
        }
        Ok(())
    }

    /// The answer that refuses an operation; any bytes where it isn't live.
    pub(crate) fn refusal_of(&self, op: OpName, which: Refusal) -> Result<Body, NoMemory>
        ensures { IfOk result (λ rest. (s : Settings) (p : ClientState) → Stands s p self.now → (failure p op which).whats ≡ (answer p op rest).whats) }
    {
        match self.live(op) {
            Some(row) => refusal_rest(self.alloc, row.kind, which),
            None => Ok(Body::new(self.alloc)),
        }
    }

    /// An answer to an operation, once the client has arrived.
    fn answer(
        &mut self,
        op: OpName,
        rest: Body,
        who: Option<Body>,
        now: u64,
        out: &mut Outbox,
    ) -> Result<(), NoMemory>
        ensures entries { OnOk result ((s : Settings) (p : ClientState) → Stands s p self.old → out.new.entries.items ≡ out.old.entries.items ++ entries_of (PartName.Client p.number) (max p.moment now) (answer p op rest).whats) }
        ensures letters { out.new.letters.items ≡ out.old.letters.items }
        ensures state { OnOk result ((s : Settings) (p : ClientState) (mark : Option Taken) → Stands s p self.old → who_told mark ≡ who → Stands s (step_clients s p (marked_by mark (entries_of (PartName.Client p.number) (max p.moment now) (answer p op rest).whats))) self.new) }
        ensures out { OnErr result (out.new.entries.items ≡ out.old.entries.items) }
        ensures err { OnErr result (self.new ≡ self.old) }
    {
        out.reserve(1, 0)?;
        let at = self.moment.max(now);
        let what = self.take_answer(op, rest, who, at);
        out.entries.put(Entry {
            part: PartName::Client(self.number),
            at,
            what,
        });
        self.moment = at;
        Ok(())
    }

    /// What happens at an answer to an operation, which the operation takes where it is live. It takes no memory.
    pub(crate) fn take_answer(&mut self, op: OpName, rest: Body, who: Option<Body>, at: u64) -> What
        ensures what { (s : Settings) (p : ClientState) → Stands s p self.old → (answer p op rest).whats ≡ result ∷ [] }
        ensures state { (s : Settings) (p : ClientState) (mark : Option Taken) → Stands s p self.old → who_told mark ≡ who → Stands s (record (client_behind s at mark p result) { asked = p.asked }) self.new }
        ensures told { IsToldOnly result }
        ensures number { self.new.number ≡ self.old.number }
    {
        let Some(row) = self.live(op) else {
            return What::Late { op };
        };
        let id = row.id;
        let kind = row.kind;
        self.end_answered(op.k, kind, rest.as_slice(), who, at);
        What::Out { id, rest }
    }

    /// The live operation of a name.
    pub(crate) fn live(&self, op: OpName) -> Option<&Row>
        ensures named { (s : Settings) (p : ClientState) → Stands s p self.now → option_map (seen s) (row_named p op) ≡ option_map shown (option_copied result) }
        ensures found { IfSome result (λ row. find (has_number op.k) self.now.operations.rows ≡ Some row.now) }
        ensures alone { IfSome result (λ row. filter (has_id row.now.id) self.now.operations.rows ≡ row.now ∷ []) }
    {
        if op.client != self.number {
            return None;
        }
        self.operations.of(op.k)
    }

    /// Ends the live operation of a number at a moment, and hands it out. It takes no memory.
    pub(crate) fn end(&mut self, k: u64, at: u64) -> Option<Row>
        ensures row { result ≡ find (has_number k) self.old.operations.rows }
        ensures number { self.new.number ≡ self.old.number }
        ensures numbered { IsNumbered self.old.operations }
        ensures count { self.new.operations.count ≡ self.old.operations.count }
        ensures state { OnSome result ((s : Settings) (p : ClientState) → Stands s p self.old → Stands s (without (λ x. x.k == k) at p) self.new) }
    {
        let row = self.operations.take(k)?;
        end_write(&mut self.window, is_written(&row), at);
        Some(row)
    }

    /// Ends the live operation of a number, of this kind, where an answer to it is the last one. It takes no memory.
    fn end_answered(&mut self, k: u64, kind: OpKind, rest: &[u8], who: Option<Body>, at: u64)
        ensures state { (s : Settings) (p : ClientState) (mark : Option Taken) (r : ClientRow) → Stands s p self.old → who_told mark ≡ who → kind_of r.request.rest ≡ Some kind → option_map shown (find (has_number k) self.old.operations.rows) ≡ Some (seen s r) → Stands s (with_answer s at mark rest.now p r) self.new }
        ensures number { self.new.number ≡ self.old.number }
    {
        if !is_final(kind, rest) {
            return;
        }
        if let Some(row) = self.end(k, at) {
            if row.is_bind() {
                self.end_bind(row.who, rest, who);
            }
        }
    }

    /// Takes the final answer to a Bind, with the identity that came with it: its exchange goes on, or the connection is
    /// let go, and a success gives an identity (RFC 4511, section 4.2.2). It takes no memory.
    fn end_bind(&mut self, own: Option<Body>, rest: &[u8], who: Option<Body>)
        ensures number { self.new.number ≡ self.old.number }
        ensures state { (s : Settings) (p : ClientState) (mark : Option Taken) (bind : Message) → Stands s p self.old → who_told mark ≡ who → simple_who (request_of bind.rest) ≡ own → Stands s (with_bind_answer s mark bind rest.now p) self.new }
    {
        if has_code(14, rest) {
            self.in_exchange = true;
        } else {
            self.hold = None;
            self.identity = if has_code(0, rest) {
                self.identity_of(own, who)
            } else {
                Body::new(self.alloc)
            };
        }
    }

    /// The identity that a success gives: that of a simple Bind, else what Who Am I told, with proxied authorization on
    /// (RFC 4513, section 5.1; RFC 4532). It takes no memory.
    fn identity_of(&self, own: Option<Body>, who: Option<Body>) -> Body
        ensures { result ≡ identity_by self.now.settings.proxyauthz own who }
    {
        match (own, who) {
            (Some(own), _) => own,
            (None, Some(who)) if self.settings.proxyauthz => who,
            _ => Body::new(self.alloc),
        }
    }
}

/// Notes that a write ended at a moment, where it is one.
fn end_write(window: &mut Window, ends: bool, at: u64)
    ensures ended { (calls : List Call) → ends ≡ true → 0 < window.old.live → window.old ≡ standing window.old.seconds calls → window.new ≡ standing window.old.seconds (calls ++ WriteEnded at ∷ []) }
    ensures same { ends ≡ false → window.new ≡ window.old }
{
    if ends && window.live() > 0 {
        window.write_ended(at);
    }
}

/// Whether an operation is a write that was forwarded.
fn is_written(row: &Row) -> bool
    ensures { result ≡ written row.now }
{
    matches!(row.action, Action::Write) && row.connection().is_some()
}

/// Whether a rest has this result code.
fn has_code(code: u32, rest: &[u8]) -> bool
    ensures { result ≡ has_code code rest.now }
{
    result_code(rest) == Some(code)
}

/// Whether a rest is the last answer to a request of this kind, told by its first octet (RFC 4511, section 4.1.1).
fn is_final(kind: OpKind, rest: &[u8]) -> bool
    ensures { result ≡ is_final_to kind rest.now }
{
    let last = match kind {
        OpKind::Bind => 0x61,
        OpKind::Search => 0x65,
        OpKind::Modify => 0x67,
        OpKind::Add => 0x69,
        OpKind::Delete => 0x6B,
        OpKind::ModifyDn => 0x6D,
        OpKind::Compare => 0x6F,
        OpKind::Extended => 0x78,
    };
    rest.first() == Some(&last)
}
