ghost use Rattle.std.specs.Prelude.{◌≡◌, ◌==◌, ◌<◌, ◌≤◌, ◌+◌, ◌∷◌, ◌++◌, [], true, false, ℕ, List, Option, Some, None, OnOk, OnErr};
ghost use Rattle.ldap_spec.specs.Kinds.{kind_of};
ghost use Rattle.lload_names.specs.declared.names.OpKind.TheVariants.{Bind};
ghost use Rattle.lload_names.specs.declared.names.What.TheVariants.{In};
ghost use Rattle.lload_spec.specs.FirstCheck.{lets_go_on};
ghost use Rattle.lload_spec.specs.Settings.{Settings};
ghost use Rattle.part_spec.specs.ClientState.{ClientState, check_at};
ghost use Rattle.part_spec.specs.ClientTurn.{binds};
ghost use Rattle.part_spec.specs.Inputs.{act};
ghost use Rattle.client_session.specs.Did.{Did, IsSame};
ghost use Rattle.client_session.specs.GoesOn.{waiting_row, sent_to, body_to, goes_of};
ghost use Rattle.client_session.specs.Stands.{Stands, seen, shown};

use crate::choices::put_forward;
use crate::closing::put_drops;
use crate::part::{ClientPart, Held};
use client_rows::Row;
use lload_names::{
    Body, Bound, ConnKind, Letter, NoMemory, OpKind, OpName, PartName, Posted, Want, What,
};
use outbox::Outbox;

impl ClientPart {
    /// A Bind goes on: it ends all that its client does. Between the steps of an exchange its request goes to the
    /// connection that is held, else the desk is asked for one (RFC 4511, section 4.2.1).
    pub(crate) fn bind(
        &mut self,
        at: u64,
        row: Row,
        rest: Body,
        out: &mut Outbox,
    ) -> Result<(), NoMemory>
        requires next { row.k ≡ self.old.operations.count + 1 }
        requires room { self.old.operations.count < 18446744073709551615 }
        ensures did { OnOk result ((s : Settings) (p : ClientState) → Stands s p self.old → kind_of rest ≡ Some Bind → (row.id == 0) ≡ false → lets_go_on (check_at s p (record { id = row.id; rest = rest })) ≡ true → shown row ≡ seen s (waiting_row s p (record { id = row.id; rest = rest })) → Did s p at None (act (In row.id rest ∷ []) (binds s p at (record { id = row.id; rest = rest }))) out.old out.new self.new) }
        ensures out { OnErr result (IsSame out.old out.new) }
        ensures err { OnErr result ((s : Settings) (p : ClientState) → Stands s p self.old → Stands s p self.new) }
    {
        if self.in_exchange {
            self.bind_on(at, row, rest, out)?;
            return Ok(());
        }
        self.bind_anew(at, row, rest, out)?;
        Ok(())
    }

    /// A Bind that goes on in no exchange: the desk is asked for a bind connection.
    fn bind_anew(&mut self, at: u64, row: Row, rest: Body, out: &mut Outbox) -> Result<(), NoMemory>
        requires next { row.k ≡ self.old.operations.count + 1 }
        requires room { self.old.operations.count < 18446744073709551615 }
        ensures did { OnOk result ((s : Settings) (p : ClientState) → Stands s p self.old → p.in_exchange ≡ false → kind_of rest ≡ Some Bind → (row.id == 0) ≡ false → lets_go_on (check_at s p (record { id = row.id; rest = rest })) ≡ true → shown row ≡ seen s (waiting_row s p (record { id = row.id; rest = rest })) → Did s p at None (act (In row.id rest ∷ []) (binds s p at (record { id = row.id; rest = rest }))) out.old out.new self.new) }
        ensures out { OnErr result (IsSame out.old out.new) }
        ensures err { OnErr result ((s : Settings) (p : ClientState) → Stands s p self.old → Stands s p self.new) }
    {
        if self.asked == u64::MAX {
            return Err(NoMemory);
        }
        out.reserve(1, self.most_endings())?;
        self.kept.reserve(2, self.paused.len())?;
        let id = row.id;
        let op = OpName {
            client: self.number,
            k: row.k,
        };
        let ended = self.operations.replace(row)?;
        self.identity = Body::new(self.alloc);
        self.in_exchange = false;
        self.window.reset();
        self.asked += 1;
        self.moment = at;
        put_drops(self.number, &ended, out);
        self.put(at, What::In { id, rest }, out);
        let want = Want {
            kind: ConnKind::Bind,
            bound: Bound::Free,
        };
        out.letters.put(Posted {
            to: PartName::Desk,
            letter: Letter::Ask { op, want },
        });
        Ok(())
    }

    /// A Bind that goes on in its exchange: its request goes to the connection that is held.
    fn bind_on(&mut self, at: u64, row: Row, rest: Body, out: &mut Outbox) -> Result<(), NoMemory>
        requires next { row.k ≡ self.old.operations.count + 1 }
        requires room { self.old.operations.count < 18446744073709551615 }
        ensures did { OnOk result ((s : Settings) (p : ClientState) → Stands s p self.old → p.in_exchange ≡ true → kind_of rest ≡ Some Bind → (row.id == 0) ≡ false → lets_go_on (check_at s p (record { id = row.id; rest = rest })) ≡ true → shown row ≡ seen s (waiting_row s p (record { id = row.id; rest = rest })) → Did s p at None (act (In row.id rest ∷ []) (binds s p at (record { id = row.id; rest = rest }))) out.old out.new self.new) }
        ensures out { OnErr result (IsSame out.old out.new) }
        ensures err { OnErr result ((s : Settings) (p : ClientState) → Stands s p self.old → Stands s p self.new) }
    {
        out.reserve(1, self.most_endings())?;
        self.kept.reserve(2, self.paused.len())?;
        let id = row.id;
        let op = OpName {
            client: self.number,
            k: row.k,
        };
        let ask_who = self.asks_who(&row);
        let held = self.hold;
        let mut row = row;
        let request = send_to(held, &mut row);
        let ended = self.operations.replace(row)?;
        self.identity = Body::new(self.alloc);
        self.in_exchange = false;
        self.window.reset();
        self.moment = at;
        put_drops(self.number, &ended, out);
        self.put(at, What::In { id, rest }, out);
        put_goes_on(op, held, request, ask_who, out);
        Ok(())
    }
}

/// Notes that an operation goes to the connection that is held, and hands out its request.
fn send_to(held: Option<Held>, row: &mut Row) -> Option<Body>
    ensures row { row.new ≡ sent_to held row.old }
    ensures body { result ≡ body_to held row.old }
{
    match held {
        Some(held) => row.send(held.conn),
        None => None,
    }
}

/// Posts the Forward of a Bind with this request to the connection that is held. There is room for it.
fn put_goes_on(
    op: OpName,
    held: Option<Held>,
    request: Option<Body>,
    ask_who: bool,
    out: &mut Outbox,
)
    requires { 1 ≤ out.old.letters.spare }
    ensures letters { out.new.letters.items ≡ out.old.letters.items ++ goes_of op held request ask_who }
    ensures entries { out.new.entries ≡ out.old.entries }
{
    if let Some(held) = held {
        let conn = held.conn;
        put_forward(op, OpKind::Bind, request, ask_who, held.holder, conn, out);
    }
}
