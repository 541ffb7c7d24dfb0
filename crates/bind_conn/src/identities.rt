ghost use Rattle.std.specs.Prelude.{◌≡◌, ◌≤◌, ◌==◌, true, None, Option, IfOk, OnOk, OnErr};
ghost use Rattle.ldap_spec.specs.Responses.{who_value};
ghost use Rattle.lload_spec.specs.Lists.{passes};
ghost use Rattle.lload_spec.specs.Settings.{Settings};
ghost use Rattle.id_table.specs.Rows.{row_of};

use crate::part::BindPart;
use id_table::Kept;
use ldap_messages::{who_rest, who_value};
use lload_names::{Body, NoMemory, OpName, Refusal, What};
use outbox::Outbox;

impl BindPart {
    ghost use Rattle.std.specs.Option.{ForSome, IsSome};
    ghost use Rattle.part_spec.specs.Marked.{Taken};
    ghost use Rattle.part_spec.specs.BindTurn.{message};
    ghost use Rattle.conn_core.specs.Did.{Did};
    ghost use Rattle.bind_conn.specs.declared.told.Told.TheVariants.{Success};
    ghost use Rattle.bind_conn.specs.declared.told.WhoTold.TheVariants as told;
    ghost use Rattle.bind_conn.specs.Told.{told_of, who_told};
    ghost use Rattle.bind_conn.specs.Part.{Knows, state};

    /// A message that is the success of the live Bind, whose identity is asked for: it is kept back, and the proxy asks
    /// for the identity (RFC 4532, section 2.1).
    pub(crate) fn hold_back(
        &mut self,
        at: u64,
        id: u32,
        rest: Body,
        out: &mut Outbox,
    ) -> Result<(), NoMemory>
        requires row { ForSome (row_of id self.old.core.table.rows) (λ r. (r.kept ≡ None) × (told_of r.ask_who rest ≡ Success)) }
        requires live { IsSome (row_of id self.old.core.table.rows) }
        ensures did { OnOk result ((s : Settings) (mark : Option Taken) → Knows s self.old → Did s (state self.old) at mark (message s (state self.old) (record { id = id; rest = rest })) out.old out.new (state self.new)) }
        ensures knows { OnOk result ((s : Settings) → Knows s self.old → Knows s self.new) }
        ensures room { OnOk result ((1 ≤ out.new.entries.spare) × (2 ≤ out.new.letters.spare)) }
        ensures out { OnErr result ((out.new.entries.items ≡ out.old.entries.items) × (out.new.letters.items ≡ out.old.letters.items)) }
        ensures err { OnErr result (self.new ≡ self.old) }
    {
        let asked = who_rest(self.alloc)?;
        let told = rest.copy()?;
        out.reserve(4, 3)?;
        let Some(who) = self.core.own() else {
            return Ok(());
        };
        self.core.put(at, What::Got { id, rest: told }, out);
        self.core.keep(id, at, Kept { rest, who });
        self.core.moved(at);
        self.core.put_giving(
            at,
            who,
            What::Own {
                id: who,
                rest: asked,
            },
            out,
        );
        self.core.tell_retired(who, out);
        Ok(())
    }

    /// A message that is an intermediate response to the Who Am I of the live Bind, which is under `first`.
    pub(crate) fn wait_on(
        &mut self,
        at: u64,
        id: u32,
        first: u32,
        rest: Body,
        out: &mut Outbox,
    ) -> Result<(), NoMemory>
        requires row { ForSome (row_of first self.old.core.table.rows) (λ r. passes (λ k. k.who == id) r.kept ≡ true) }
        requires live { IsSome (row_of first self.old.core.table.rows) }
        requires told { who_told rest ≡ told.More }
        ensures did { OnOk result ((s : Settings) (mark : Option Taken) → Knows s self.old → Did s (state self.old) at mark (message s (state self.old) (record { id = id; rest = rest })) out.old out.new (state self.new)) }
        ensures knows { OnOk result ((s : Settings) → Knows s self.old → Knows s self.new) }
        ensures room { OnOk result ((1 ≤ out.new.entries.spare) × (2 ≤ out.new.letters.spare)) }
        ensures out { OnErr result ((out.new.entries.items ≡ out.old.entries.items) × (out.new.letters.items ≡ out.old.letters.items)) }
        ensures err { OnErr result (self.new ≡ self.old) }
    {
        out.reserve(2, 2)?;
        self.core.put(at, What::Got { id, rest }, out);
        self.core.touch(first, at);
        self.core.moved(at);
        Ok(())
    }

    /// The identity that an answer to a Who Am I tells.
    fn identity(&self, rest: &[u8]) -> Result<Option<Body>, NoMemory>
        ensures { IfOk result (λ who. who ≡ who_value rest.now) }
    {
        match who_value(rest) {
            Some(who) => {
                let body = Body::from_slice(self.alloc, who)?;
                Ok(Some(body))
            }
            None => Ok(None),
        }
    }

    /// A message that tells the identity behind the success that is kept back: both go to the client, and the holder
    /// lets go of the connection.
    pub(crate) fn tell(
        &mut self,
        at: u64,
        id: u32,
        first: u32,
        op: OpName,
        kept: Body,
        rest: Body,
        out: &mut Outbox,
    ) -> Result<(), NoMemory>
        requires row { ForSome (row_of first self.old.core.table.rows) (λ r. (r.op ≡ op) × (passes (λ k. k.who == id) r.kept ≡ true) × ForSome r.kept (λ k. k.rest ≡ kept)) }
        requires live { IsSome (row_of first self.old.core.table.rows) }
        requires told { who_told rest ≡ told.Tells }
        ensures did { OnOk result ((s : Settings) (mark : Option Taken) → Knows s self.old → Did s (state self.old) at mark (message s (state self.old) (record { id = id; rest = rest })) out.old out.new (state self.new)) }
        ensures knows { OnOk result ((s : Settings) → Knows s self.old → Knows s self.new) }
        ensures room { OnOk result ((1 ≤ out.new.entries.spare) × (2 ≤ out.new.letters.spare)) }
        ensures out { OnErr result ((out.new.entries.items ≡ out.old.entries.items) × (out.new.letters.items ≡ out.old.letters.items)) }
        ensures err { OnErr result (self.new ≡ self.old) }
    {
        let who = self.identity(rest.as_slice())?;
        out.reserve(2, 4)?;
        self.core.put(at, What::Got { id, rest }, out);
        self.core.finish(first);
        self.core.moved(at);
        self.core.reply(op, kept, true, who, out);
        self.release(out);
        Ok(())
    }

    /// A message that tells no identity: the Bind is refused, and the holder lets go of the connection.
    pub(crate) fn refuse(
        &mut self,
        at: u64,
        id: u32,
        first: u32,
        op: OpName,
        rest: Body,
        out: &mut Outbox,
    ) -> Result<(), NoMemory>
        requires row { ForSome (row_of first self.old.core.table.rows) (λ r. (r.op ≡ op) × (passes (λ k. k.who == id) r.kept ≡ true)) }
        requires live { IsSome (row_of first self.old.core.table.rows) }
        requires told { who_told rest ≡ told.Refuses }
        ensures did { OnOk result ((s : Settings) (mark : Option Taken) → Knows s self.old → Did s (state self.old) at mark (message s (state self.old) (record { id = id; rest = rest })) out.old out.new (state self.new)) }
        ensures knows { OnOk result ((s : Settings) → Knows s self.old → Knows s self.new) }
        ensures room { OnOk result ((1 ≤ out.new.entries.spare) × (2 ≤ out.new.letters.spare)) }
        ensures out { OnErr result ((out.new.entries.items ≡ out.old.entries.items) × (out.new.letters.items ≡ out.old.letters.items)) }
        ensures err { OnErr result (self.new ≡ self.old) }
    {
        out.reserve(2, 4)?;
        self.core.put(at, What::Got { id, rest }, out);
        self.core.finish(first);
        self.core.moved(at);
        self.core.fail(op, Refusal::C9, out);
        self.release(out);
        Ok(())
    }
}
