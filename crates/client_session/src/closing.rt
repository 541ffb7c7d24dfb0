ghost use Rattle.std.specs.Prelude.{◌≡◌, ◌≤◌, ◌+◌, ◌++◌, length, OnOk};
ghost use Rattle.lload_spec.specs.Pauses.{resume_letters};
ghost use Rattle.client_session.specs.Closing.{drop_of, drops, leave, endings, closing, most_endings, most_closing};

use crate::part::{ClientPart, Held};
use client_rows::{Operations, Row};
use lload_names::{Letter, NoMemory, OpName, PartName, Posted};
use outbox::Outbox;
use std::collections::BTreeSet;

impl ClientPart {
    /// How many letters the end of all that the client does gives at most.
    pub(crate) fn most_endings(&self) -> usize
        ensures most { result ≡ most_endings self.now }
        ensures small { result ≤ 9223372036854775808 }
    {
        self.operations.len() + 1
    }

    /// Makes room in an outbox for the end of the part, with so many entries. For want of memory nothing changes.
    pub(crate) fn reserve_closing(&self, entries: usize, out: &mut Outbox) -> Result<(), NoMemory>
        ensures entries { out.new.entries.items ≡ out.old.entries.items }
        ensures letters { out.new.letters.items ≡ out.old.letters.items }
        ensures entry_room { OnOk result (entries ≤ out.new.entries.spare) }
        ensures letter_room { OnOk result (most_closing self.now ≤ out.new.letters.spare) }
    {
        let Some(letters) = self.most_endings().checked_add(self.paused.len()) else {
            return Err(NoMemory);
        };
        out.reserve(entries, letters)
    }

    /// Posts the letters at the end of all that the client does, for which there is room: of each operation that was
    /// forwarded to a regular connection, and of the bind connection that it holds.
    pub(crate) fn put_endings(&self, out: &mut Outbox)
        requires { most_endings self.now ≤ out.old.letters.spare }
        ensures letters { out.new.letters.items ≡ out.old.letters.items ++ endings self.now }
        ensures entries { out.new.entries ≡ out.old.entries }
        ensures room { out.old.letters.spare ≤ out.new.letters.spare + most_endings self.now }
    {
        put_drops(self.number, &self.operations, out);
        put_leave(self.hold, out);
    }

    /// Posts the letters at the end of the part, for which there is room: each connection that it pauses is also read
    /// again.
    pub(crate) fn put_closing(&self, out: &mut Outbox)
        requires { most_closing self.now ≤ out.old.letters.spare }
        ensures letters { out.new.letters.items ≡ out.old.letters.items ++ closing self.now }
        ensures entries { out.new.entries ≡ out.old.entries }
    {
        self.put_endings(out);
        put_resumes(self.number, &self.paused, out);
    }
}

/// Posts the Drop of each operation that was forwarded to a regular connection, by rising number. There is room for them.
pub(crate) fn put_drops(client: u32, operations: &Operations, out: &mut Outbox)
    requires { length operations.now.rows ≤ out.old.letters.spare }
    ensures letters { out.new.letters.items ≡ out.old.letters.items ++ drops client operations.now.rows }
    ensures entries { out.new.entries ≡ out.old.entries }
    ensures room { out.old.letters.spare ≤ out.new.letters.spare + length operations.now.rows }
{
    for row in operations.values() {
        put_drop(client, row, out);
    }
}

/// Posts the Drop of an operation, where it was forwarded to a regular connection. There is room for it.
pub(crate) fn put_drop(client: u32, row: &Row, out: &mut Outbox)
    requires { 1 ≤ out.old.letters.spare }
    ensures letters { out.new.letters.items ≡ out.old.letters.items ++ drop_of client row.now }
    ensures entries { out.new.entries ≡ out.old.entries }
    ensures room { out.old.letters.spare ≤ out.new.letters.spare + 1 }
{
    if row.is_bind() {
        return;
    }
    if let Some(conn) = row.connection() {
        let op = OpName { client, k: row.k };
        out.letters.put(Posted {
            to: PartName::Up(conn),
            letter: Letter::Drop { op },
        });
    }
}

/// Posts the Leave of the bind connection that is held. There is room for it.
fn put_leave(hold: Option<Held>, out: &mut Outbox)
    requires { 1 ≤ out.old.letters.spare }
    ensures letters { out.new.letters.items ≡ out.old.letters.items ++ leave hold }
    ensures entries { out.new.entries ≡ out.old.entries }
    ensures room { out.old.letters.spare ≤ out.new.letters.spare + 1 }
{
    if let Some(held) = hold {
        out.letters.put(Posted {
            to: PartName::Up(held.conn),
            letter: Letter::Leave {
                holder: held.holder,
            },
        });
    }
}

/// Posts the Resume of each of these connections, by rising number. There is room for them.
pub(crate) fn put_resumes(client: u32, paused: &BTreeSet<u32>, out: &mut Outbox)
    requires { length paused.now.keys ≤ out.old.letters.spare }
    ensures letters { out.new.letters.items ≡ out.old.letters.items ++ resume_letters client paused.now.keys }
    ensures entries { out.new.entries ≡ out.old.entries }
{
    for conn in paused {
        out.letters.put(Posted {
            to: PartName::Up(*conn),
            letter: Letter::Resume { client },
        });
    }
}
