ghost use Rattle.std.specs.Prelude.{◌≡◌, ◌==◌, ◌≤◌, ◌+◌, ◌++◌, ◌∷◌, []};
ghost use Rattle.lload_names.specs.declared.names.Letter.TheVariants.{Ended};
ghost use Rattle.lload_names.specs.declared.names.PartName.TheVariants.{Desk, Client, Up};
ghost use Rattle.part_spec.specs.Inputs.{entries_of, failed, reply, to};
ghost use Rattle.conn_core.specs.Closing.{given_whats, retired_letters};

use crate::conn::ConnCore;
use lload_names::{Body, Entry, Letter, OpName, PartName, Posted, Refusal, What};
use outbox::Outbox;

impl ConnCore {
    /// Puts an entry of its list, for which there is room.
    pub fn put(&self, at: u64, what: What, out: &mut Outbox)
        requires { 1 ≤ out.old.entries.spare }
        ensures entries { out.new.entries.items ≡ out.old.entries.items ++ entries_of (Up self.now.number) at (what ∷ []) }
        ensures entry_room { out.new.entries.spare + 1 ≡ out.old.entries.spare }
        ensures letters { out.new.letters ≡ out.old.letters }
    {
        out.entries.put(Entry {
            part: PartName::Up(self.number()),
            at,
            what,
        });
    }

    /// Puts an entry that gives an identifier, and that it is retired where this is the limit. There is room for both.
    pub fn put_giving(&self, at: u64, id: u32, what: What, out: &mut Outbox)
        requires { 2 ≤ out.old.entries.spare }
        ensures entries { out.new.entries.items ≡ out.old.entries.items ++ entries_of (Up self.now.number) at (given_whats (id == self.now.table.limit) what) }
        ensures entry_room { out.old.entries.spare ≤ out.new.entries.spare + 2 }
        ensures letters { out.new.letters ≡ out.old.letters }
    {
        self.put(at, what, out);
        if self.is_limit(id) {
            self.put(at, What::Retired, out);
        }
    }

    /// Posts a letter to the desk, for which there is room.
    pub fn tell_desk(&self, letter: Letter, out: &mut Outbox)
        requires { 1 ≤ out.old.letters.spare }
        ensures letters { out.new.letters.items ≡ out.old.letters.items ++ to Desk letter }
        ensures letter_room { out.new.letters.spare + 1 ≡ out.old.letters.spare }
        ensures entries { out.new.entries ≡ out.old.entries }
    {
        out.letters.put(Posted {
            to: PartName::Desk,
            letter,
        });
    }

    /// Posts a letter to a client, for which there is room.
    pub fn tell_client(&self, client: u32, letter: Letter, out: &mut Outbox)
        requires { 1 ≤ out.old.letters.spare }
        ensures letters { out.new.letters.items ≡ out.old.letters.items ++ to (Client client) letter }
        ensures letter_room { out.new.letters.spare + 1 ≡ out.old.letters.spare }
        ensures entries { out.new.entries ≡ out.old.entries }
    {
        out.letters.put(Posted {
            to: PartName::Client(client),
            letter,
        });
    }

    /// Posts a reply to an operation's client, for which there is room.
    pub fn reply(&self, op: OpName, rest: Body, last: bool, who: Option<Body>, out: &mut Outbox)
        requires { 1 ≤ out.old.letters.spare }
        ensures letters { out.new.letters.items ≡ out.old.letters.items ++ reply op rest last who }
        ensures letter_room { out.new.letters.spare + 1 ≡ out.old.letters.spare }
        ensures entries { out.new.entries ≡ out.old.entries }
    {
        self.tell_client(
            op.client,
            Letter::Reply {
                op,
                rest,
                last,
                who,
            },
            out,
        );
    }

    /// Posts an operation's failure to its client, for which there is room.
    pub fn fail(&self, op: OpName, which: Refusal, out: &mut Outbox)
        requires { 1 ≤ out.old.letters.spare }
        ensures letters { out.new.letters.items ≡ out.old.letters.items ++ failed op which }
        ensures letter_room { out.new.letters.spare + 1 ≡ out.old.letters.spare }
        ensures entries { out.new.entries ≡ out.old.entries }
    {
        self.tell_client(op.client, Letter::Failed { op, which }, out);
    }

    /// Posts an operation's end to the desk, with its latency in milliseconds where it was answered. There is room for
    /// that.
    pub fn tell_end(&self, op: OpName, latency: Option<u32>, out: &mut Outbox)
        requires { 1 ≤ out.old.letters.spare }
        ensures letters { out.new.letters.items ≡ out.old.letters.items ++ to Desk (Ended op self.now.number latency) }
        ensures letter_room { out.new.letters.spare + 1 ≡ out.old.letters.spare }
        ensures entries { out.new.entries ≡ out.old.entries }
    {
        self.tell_desk(
            Letter::Ended {
                op,
                conn: self.number(),
                latency,
            },
            out,
        );
    }

    /// Tells the desk that it is retired, where this identifier is the limit. There is room for that.
    pub fn tell_retired(&self, id: u32, out: &mut Outbox)
        requires { 1 ≤ out.old.letters.spare }
        ensures letters { out.new.letters.items ≡ out.old.letters.items ++ retired_letters self.now.number (id == self.now.table.limit) }
        ensures letter_room { out.old.letters.spare ≤ out.new.letters.spare + 1 }
        ensures entries { out.new.entries ≡ out.old.entries }
    {
        if self.is_limit(id) {
            self.tell_desk(
                Letter::IsRetired {
                    conn: self.number(),
                },
                out,
            );
        }
    }
}
