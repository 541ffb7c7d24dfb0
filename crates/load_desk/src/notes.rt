ghost use Rattle.std.specs.Prelude.{◌≡◌, ◌≤◌, ◌+◌, ◌++◌, ◌∷◌, []};
ghost use Rattle.lload_names.specs.declared.names.PartName.TheVariants.{Client, Desk as DeskPart};
ghost use Rattle.lload_names.specs.declared.names.Letter.TheVariants.{Choice};
ghost use Rattle.lload_names.specs.declared.names.What.TheVariants as what;
ghost use Rattle.part_spec.specs.Inputs.{entries_of, to};

use lload_names::{Answer, Entry, Letter, OpName, PartName, Posted, Want, What};
use outbox::Outbox;

/// Appends an entry of the desk, for which there is room.
pub(crate) fn note(at: u64, what: What, out: &mut Outbox)
    requires { 1 ≤ out.old.entries.spare }
    ensures entries { out.new.entries.items ≡ out.old.entries.items ++ entries_of DeskPart at (what ∷ []) }
    ensures entry_room { out.new.entries.spare + 1 ≡ out.old.entries.spare }
    ensures letters { out.new.letters ≡ out.old.letters }
{
    out.entries.put(Entry {
        part: PartName::Desk,
        at,
        what,
    });
}

/// Appends that an operation was asked for and what was chosen, and tells its client; there is room for all three.
pub(crate) fn note_choice(
    at: u64,
    op: OpName,
    want: Want,
    answer: Answer,
    word: u64,
    out: &mut Outbox,
)
    requires entry_room { 2 ≤ out.old.entries.spare }
    requires letter_room { 1 ≤ out.old.letters.spare }
    ensures entries { out.new.entries.items ≡ out.old.entries.items ++ entries_of DeskPart at (what.Asked op want ∷ what.Chose op answer word ∷ []) }
    ensures letters { out.new.letters.items ≡ out.old.letters.items ++ to (Client op.client) (Choice op answer) }
{
    note(at, What::Asked { op, want }, out);
    note(at, What::Chose { op, answer, word }, out);
    out.letters.put(Posted {
        to: PartName::Client(op.client),
        letter: Letter::Choice { op, answer },
    });
}
