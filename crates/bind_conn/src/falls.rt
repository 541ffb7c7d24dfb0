ghost use Rattle.std.specs.Prelude.{◌≡◌, ◌≤◌, ◌==◌, false, true, None, Option, OnOk, OnErr};
ghost use Rattle.lload_spec.specs.Lists.{passes};
ghost use Rattle.lload_spec.specs.Settings.{Settings};
ghost use Rattle.id_table.specs.Rows.{row_of};

use crate::part::BindPart;
use lload_names::{Body, EndWhy, NoMemory, What};
use outbox::Outbox;

impl BindPart {
    ghost use Rattle.std.specs.Option.{ForSome, IsSome};
    ghost use Rattle.part_spec.specs.Marked.{Taken};
    ghost use Rattle.part_spec.specs.BindTurn.{message};
    ghost use Rattle.conn_core.specs.Did.{Did};
    ghost use Rattle.conn_core.specs.Dropped.{is_dropped};
    ghost use Rattle.bind_conn.specs.declared.told.Told.TheVariants.{Unfit};
    ghost use Rattle.bind_conn.specs.declared.told.WhoTold.TheVariants as told;
    ghost use Rattle.bind_conn.specs.Told.{told_of, who_told};
    ghost use Rattle.bind_conn.specs.Part.{Knows, Fells, is_met, state};

    /// A message that takes the connection down.
    fn fall(&mut self, at: u64, id: u32, rest: Body, out: &mut Outbox) -> Result<(), NoMemory>
        requires fells { (s : Settings) → Knows s self.old → Fells self.old at (record { id = id; rest = rest }) }
        ensures did { OnOk result ((s : Settings) (mark : Option Taken) → Knows s self.old → Did s (state self.old) at mark (message s (state self.old) (record { id = id; rest = rest })) out.old out.new (state self.new)) }
        ensures knows { OnOk result ((s : Settings) → Knows s self.old → Knows s self.new) }
        ensures room { OnOk result ((1 ≤ out.new.entries.spare) × (2 ≤ out.new.letters.spare)) }
        ensures out { OnErr result ((out.new.entries.items ≡ out.old.entries.items) × (out.new.letters.items ≡ out.old.letters.items)) }
        ensures err { OnErr result (self.new ≡ self.old) }
    {
        self.core.reserve_end(2, 2, out)?;
        self.core.put(at, What::Got { id, rest }, out);
        self.end(at, EndWhy::Bad, out);
        Ok(())
    }

    /// A message that can't answer the live Bind that it is under: the connection ends.
    pub(crate) fn misfit(
        &mut self,
        at: u64,
        id: u32,
        rest: Body,
        out: &mut Outbox,
    ) -> Result<(), NoMemory>
        requires row { ForSome (row_of id self.old.core.table.rows) (λ r. (r.kept ≡ None) × (told_of r.ask_who rest ≡ Unfit)) }
        requires live { IsSome (row_of id self.old.core.table.rows) }
        ensures did { OnOk result ((s : Settings) (mark : Option Taken) → Knows s self.old → Did s (state self.old) at mark (message s (state self.old) (record { id = id; rest = rest })) out.old out.new (state self.new)) }
        ensures knows { OnOk result ((s : Settings) → Knows s self.old → Knows s self.new) }
        ensures room { OnOk result ((1 ≤ out.new.entries.spare) × (2 ≤ out.new.letters.spare)) }
        ensures out { OnErr result ((out.new.entries.items ≡ out.old.entries.items) × (out.new.letters.items ≡ out.old.letters.items)) }
        ensures err { OnErr result (self.new ≡ self.old) }
    {
        self.fall(at, id, rest, out)
    }

    /// A message that can't answer the Who Am I of the live Bind: the connection ends.
    pub(crate) fn who_misfit(
        &mut self,
        at: u64,
        id: u32,
        first: u32,
        rest: Body,
        out: &mut Outbox,
    ) -> Result<(), NoMemory>
        requires row { ForSome (row_of first self.old.core.table.rows) (λ r. passes (λ k. k.who == id) r.kept ≡ true) }
        requires live { IsSome (row_of first self.old.core.table.rows) }
        requires told { who_told rest ≡ told.Unfit }
        ensures did { OnOk result ((s : Settings) (mark : Option Taken) → Knows s self.old → Did s (state self.old) at mark (message s (state self.old) (record { id = id; rest = rest })) out.old out.new (state self.new)) }
        ensures knows { OnOk result ((s : Settings) → Knows s self.old → Knows s self.new) }
        ensures room { OnOk result ((1 ≤ out.new.entries.spare) × (2 ≤ out.new.letters.spare)) }
        ensures out { OnErr result ((out.new.entries.items ≡ out.old.entries.items) × (out.new.letters.items ≡ out.old.letters.items)) }
        ensures err { OnErr result (self.new ≡ self.old) }
    {
        let _ = first;
        self.fall(at, id, rest, out)
    }

    /// A message that has no effect.
    fn ignore(&mut self, at: u64, id: u32, rest: Body, out: &mut Outbox) -> Result<(), NoMemory>
        requires stray { (s : Settings) → Knows s self.old → is_met id self.old.core.table.rows ≡ false }
        requires dropped { is_dropped self.old.core.table.ids.next id rest ≡ true }
        ensures did { OnOk result ((s : Settings) (mark : Option Taken) → Knows s self.old → Did s (state self.old) at mark (message s (state self.old) (record { id = id; rest = rest })) out.old out.new (state self.new)) }
        ensures knows { OnOk result ((s : Settings) → Knows s self.old → Knows s self.new) }
        ensures room { OnOk result ((1 ≤ out.new.entries.spare) × (2 ≤ out.new.letters.spare)) }
        ensures out { OnErr result ((out.new.entries.items ≡ out.old.entries.items) × (out.new.letters.items ≡ out.old.letters.items)) }
        ensures err { OnErr result (self.new ≡ self.old) }
    {
        out.reserve(2, 2)?;
        self.core.put(at, What::Got { id, rest }, out);
        self.core.moved(at);
        Ok(())
    }

    /// A message that is under nothing that waits: it has no effect, or the connection ends.
    pub(crate) fn stray(
        &mut self,
        at: u64,
        id: u32,
        rest: Body,
        out: &mut Outbox,
    ) -> Result<(), NoMemory>
        requires stray { (s : Settings) → Knows s self.old → is_met id self.old.core.table.rows ≡ false }
        ensures did { OnOk result ((s : Settings) (mark : Option Taken) → Knows s self.old → Did s (state self.old) at mark (message s (state self.old) (record { id = id; rest = rest })) out.old out.new (state self.new)) }
        ensures knows { OnOk result ((s : Settings) → Knows s self.old → Knows s self.new) }
        ensures room { OnOk result ((1 ≤ out.new.entries.spare) × (2 ≤ out.new.letters.spare)) }
        ensures out { OnErr result ((out.new.entries.items ≡ out.old.entries.items) × (out.new.letters.items ≡ out.old.letters.items)) }
        ensures err { OnErr result (self.new ≡ self.old) }
    {
        if self.core.is_dropped(id, rest.as_slice()) {
            return self.ignore(at, id, rest, out);
        }
        self.fall(at, id, rest, out)
    }
}
