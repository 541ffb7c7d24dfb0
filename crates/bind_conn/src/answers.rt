ghost use Rattle.std.specs.Prelude.{◌≡◌, ◌≤◌, ◌+◌, ◌++◌, None, Option, OnOk, OnErr};
ghost use Rattle.lload_spec.specs.Settings.{Settings};
ghost use Rattle.id_table.specs.Rows.{row_of};

use crate::part::BindPart;
use lload_names::{Body, NoMemory, OpName, What};
use outbox::Outbox;

impl BindPart {
    ghost use Rattle.std.specs.Option.{ForSome, IsSome};
    ghost use Rattle.part_spec.specs.Marked.{Taken};
    ghost use Rattle.part_spec.specs.BindTurn.{message};
    ghost use Rattle.conn_core.specs.Closing.{holder_letters};
    ghost use Rattle.conn_core.specs.Did.{Did};
    ghost use Rattle.bind_conn.specs.declared.told.Told.TheVariants.{More, Going, Done};
    ghost use Rattle.bind_conn.specs.Told.{told_of};
    ghost use Rattle.bind_conn.specs.Part.{Knows, state};

    /// The holder lets go of the connection, and the desk hears its end. There is room for that.
    pub(crate) fn release(&mut self, out: &mut Outbox)
        requires { 1 ≤ out.old.letters.spare }
        ensures letters { out.new.letters.items ≡ out.old.letters.items ++ holder_letters self.old.core.number self.old.holder }
        ensures released { self.new ≡ record self.old { holder = None } }
        ensures letter_room { out.old.letters.spare ≤ out.new.letters.spare + 1 }
        ensures entries { out.new.entries ≡ out.old.entries }
    {
        if let Some(holder) = self.holder {
            self.core.tell_end(holder, None, out);
        }
        self.holder = None;
    }

    /// A message that is an intermediate response to the live Bind.
    pub(crate) fn answer(
        &mut self,
        at: u64,
        id: u32,
        op: OpName,
        rest: Body,
        out: &mut Outbox,
    ) -> Result<(), NoMemory>
        requires row { ForSome (row_of id self.old.core.table.rows) (λ r. (r.op ≡ op) × (r.kept ≡ None) × (told_of r.ask_who rest ≡ More)) }
        requires live { IsSome (row_of id self.old.core.table.rows) }
        ensures did { OnOk result ((s : Settings) (mark : Option Taken) → Knows s self.old → Did s (state self.old) at mark (message s (state self.old) (record { id = id; rest = rest })) out.old out.new (state self.new)) }
        ensures knows { OnOk result ((s : Settings) → Knows s self.old → Knows s self.new) }
        ensures room { OnOk result ((1 ≤ out.new.entries.spare) × (2 ≤ out.new.letters.spare)) }
        ensures out { OnErr result ((out.new.entries.items ≡ out.old.entries.items) × (out.new.letters.items ≡ out.old.letters.items)) }
        ensures err { OnErr result (self.new ≡ self.old) }
    {
        let told = rest.copy()?;
        out.reserve(2, 3)?;
        self.core.put(at, What::Got { id, rest: told }, out);
        self.core.touch(id, at);
        self.core.moved(at);
        self.core.reply(op, rest, false, None, out);
        Ok(())
    }

    /// A message that says that the live Bind is in progress: it is settled, and its holder keeps the connection for the
    /// next one of the exchange.
    pub(crate) fn go_on(
        &mut self,
        at: u64,
        id: u32,
        op: OpName,
        rest: Body,
        out: &mut Outbox,
    ) -> Result<(), NoMemory>
        requires row { ForSome (row_of id self.old.core.table.rows) (λ r. (r.op ≡ op) × (r.kept ≡ None) × (told_of r.ask_who rest ≡ Going)) }
        requires live { IsSome (row_of id self.old.core.table.rows) }
        ensures did { OnOk result ((s : Settings) (mark : Option Taken) → Knows s self.old → Did s (state self.old) at mark (message s (state self.old) (record { id = id; rest = rest })) out.old out.new (state self.new)) }
        ensures knows { OnOk result ((s : Settings) → Knows s self.old → Knows s self.new) }
        ensures room { OnOk result ((1 ≤ out.new.entries.spare) × (2 ≤ out.new.letters.spare)) }
        ensures out { OnErr result ((out.new.entries.items ≡ out.old.entries.items) × (out.new.letters.items ≡ out.old.letters.items)) }
        ensures err { OnErr result (self.new ≡ self.old) }
    {
        let told = rest.copy()?;
        out.reserve(2, 3)?;
        self.core.put(at, What::Got { id, rest: told }, out);
        self.core.finish(id);
        self.core.moved(at);
        self.core.reply(op, rest, true, None, out);
        Ok(())
    }

    /// A message that is the last answer to the live Bind: it is settled, and its holder lets go of the connection.
    pub(crate) fn finish(
        &mut self,
        at: u64,
        id: u32,
        op: OpName,
        rest: Body,
        out: &mut Outbox,
    ) -> Result<(), NoMemory>
        requires row { ForSome (row_of id self.old.core.table.rows) (λ r. (r.op ≡ op) × (r.kept ≡ None) × (told_of r.ask_who rest ≡ Done)) }
        requires live { IsSome (row_of id self.old.core.table.rows) }
        ensures did { OnOk result ((s : Settings) (mark : Option Taken) → Knows s self.old → Did s (state self.old) at mark (message s (state self.old) (record { id = id; rest = rest })) out.old out.new (state self.new)) }
        ensures knows { OnOk result ((s : Settings) → Knows s self.old → Knows s self.new) }
        ensures room { OnOk result ((1 ≤ out.new.entries.spare) × (2 ≤ out.new.letters.spare)) }
        ensures out { OnErr result ((out.new.entries.items ≡ out.old.entries.items) × (out.new.letters.items ≡ out.old.letters.items)) }
        ensures err { OnErr result (self.new ≡ self.old) }
    {
        let told = rest.copy()?;
        out.reserve(2, 4)?;
        self.core.put(at, What::Got { id, rest: told }, out);
        self.core.finish(id);
        self.core.moved(at);
        self.core.reply(op, rest, true, None, out);
        self.release(out);
        Ok(())
    }
}
