ghost use Rattle.std.specs.Prelude.{◌≡◌, ◌<◌, ◌≤◌, ◌+◌, ◌-◌, ◌++◌, ◌∷◌, ◌&&◌, [], ℕ, true, find, Option, Some, None, OnOk, OnErr, IfOk, is_none, List};
ghost use Rattle.std.specs.Option.{option_map};
ghost use Rattle.ldap_spec.specs.Kinds.{kind_of};
ghost use Rattle.lload_names.specs.Same.{same_kind};
ghost use Rattle.lload_names.specs.declared.names.OpKind.TheVariants.{Bind};
ghost use Rattle.lload_names.specs.declared.names.Answer.TheVariants.{Go};
ghost use Rattle.lload_names.specs.declared.names.Hold.{Hold};
ghost use Rattle.lload_names.specs.declared.names.PartName.TheVariants.{Client};
ghost use Rattle.lload_names.specs.declared.names.Refusal.{Refusal};
ghost use Rattle.lload_names.specs.declared.names.What.TheVariants.{Chosen as ChosenEntry};
ghost use Rattle.lload_spec.specs.Answers.{wants_identity};
ghost use Rattle.lload_spec.specs.BindingCalls.{Call, Chosen, standing};
ghost use Rattle.lload_spec.specs.Settings.{Settings};
ghost use Rattle.part_spec.specs.ClientState.{ClientState, ClientRow, row_named};
ghost use Rattle.part_spec.specs.ClientTurn.{answer, choice, failure};
ghost use Rattle.part_spec.specs.Inputs.{act, entries_of, nothing};
ghost use Rattle.part_spec.specs.Marked.{Taken};
ghost use Rattle.restrictions.specs.Actions.{action_view};
ghost use Rattle.client_rows.specs.Rows.{has_number, is_bind, waiting_body};
ghost use Rattle.client_session.specs.Choices.{refusal_by, hold_of, with_chosen, refused_live, pauses_by, pausing_by, with_sent, hold_by, forward_of, pause_where};
ghost use Rattle.client_session.specs.Did.{Did, IsSame};
ghost use Rattle.client_session.specs.Fit.{IsDue, is_asked};
ghost use Rattle.client_session.specs.Stands.{Stands};

use crate::part::{ClientPart, Held};
use client_rows::Row;
use coherence::{Hold, Window};
use lload_names::{
    Answer, Body, Entry, Letter, NoMemory, OpKind, OpName, PartName, Posted, Refusal, What,
};
use outbox::Outbox;
use restrictions::Action;

impl ClientPart {
    /// The desk's choice for an operation: a live one goes to the connection, or is refused where there is none; one
    /// that is over is given back.
    pub(crate) fn choose(
        &mut self,
        at: u64,
        op: OpName,
        answer: Answer,
        out: &mut Outbox,
    ) -> Result<(), NoMemory>
        ensures did { OnOk result ((s : Settings) (p : ClientState) (mark : Option Taken) → Stands s p self.old → IsDue p op → Did s p at mark (choice s p op answer) out.old out.new self.new) }
        ensures out { OnErr result (IsSame out.old out.new) }
        ensures err { OnErr result ((s : Settings) (p : ClientState) → Stands s p self.old → Stands s p self.new) }
    {
        match answer {
            Answer::Go { conn, backend } => self.choose_connection(at, op, conn, backend, out),
            Answer::Busy => self.choose_none(at, op, answer, Refusal::C1, out),
            Answer::Unavailable => self.choose_none(at, op, answer, Refusal::C3, out),
        }
    }

    /// No connection was chosen: a live operation is refused.
    fn choose_none(
        &mut self,
        at: u64,
        op: OpName,
        answer: Answer,
        which: Refusal,
        out: &mut Outbox,
    ) -> Result<(), NoMemory>
        requires { refusal_by answer ≡ Some which }
        ensures did { OnOk result ((s : Settings) (p : ClientState) (mark : Option Taken) → Stands s p self.old → IsDue p op → Did s p at mark (choice s p op answer) out.old out.new self.new) }
        ensures out { OnErr result (IsSame out.old out.new) }
        ensures err { OnErr result (self.new ≡ self.old) }
    {
        let rest = self.refusal_of(op, which)?;
        out.reserve(2, 0)?;
        self.put_chosen(at, op, answer, out);
        self.refuse_live(at, op, rest, out);
        Ok(())
    }

    /// A connection was chosen: a live operation goes there, and one that is over is given back.
    fn choose_connection(
        &mut self,
        at: u64,
        op: OpName,
        conn: u32,
        backend: u32,
        out: &mut Outbox,
    ) -> Result<(), NoMemory>
        ensures did { OnOk result ((s : Settings) (p : ClientState) (mark : Option Taken) → Stands s p self.old → IsDue p op → Did s p at mark (choice s p op (Go conn backend)) out.old out.new self.new) }
        ensures out { OnErr result (IsSame out.old out.new) }
        ensures err { OnErr result ((s : Settings) (p : ClientState) → Stands s p self.old → Stands s p self.new) }
    {
        if self.window.live() == u64::MAX {
            return Err(NoMemory);
        }
        out.reserve(1, 2)?;
        let answer = Answer::Go { conn, backend };
        let Some(row) = self.live(op) else {
            self.put_chosen(at, op, answer, out);
            out.letters.put(Posted {
                to: PartName::Desk,
                letter: Letter::Returned { op, conn },
            });
            return Ok(());
        };
        let kind = row.kind;
        let action = row.action;
        let ask_who = self.asks_who(row);
        let pauses = self.pause(kind, conn)?;
        self.put_chosen(at, op, answer, out);
        let rest = self.send(op, kind, action, conn, backend);
        put_forward(op, kind, rest, ask_who, op, conn, out);
        put_pause(self.number, pauses, conn, out);
        Ok(())
    }

    /// Puts the entry of a choice, for which there is room, and waits for it no longer.
    fn put_chosen(&mut self, at: u64, op: OpName, answer: Answer, out: &mut Outbox)
        requires { 1 ≤ out.old.entries.spare }
        ensures entries { out.new.entries.items ≡ out.old.entries.items ++ record { part = Client self.old.number; at = at; what = ChosenEntry op answer } ∷ [] }
        ensures entry_room { out.new.entries.spare + 1 ≡ out.old.entries.spare }
        ensures letters { out.new.letters ≡ out.old.letters }
        ensures stands { (s : Settings) (p : ClientState) → Stands s p self.old → is_asked op p.asked ≡ true → Stands s (with_chosen at op p) self.new }
        ensures rest { self.new ≡ record self.old { moment = at; asked = self.old.asked - 1 } }
    {
        self.put(at, What::Chosen { op, answer }, out);
        self.asked = self.asked.saturating_sub(1);
        self.moment = at;
    }

    /// Puts an entry of the part's list, for which there is room.
    pub(crate) fn put(&self, at: u64, what: What, out: &mut Outbox)
        requires { 1 ≤ out.old.entries.spare }
        ensures entries { out.new.entries.items ≡ out.old.entries.items ++ record { part = Client self.now.number; at = at; what = what } ∷ [] }
        ensures entry_room { out.new.entries.spare + 1 ≡ out.old.entries.spare }
        ensures letters { out.new.letters ≡ out.old.letters }
    {
        out.entries.put(Entry {
            part: PartName::Client(self.number),
            at,
            what,
        });
    }

    /// Refuses an operation with this answer, where it is live. There is room for the entry.
    fn refuse_live(&mut self, at: u64, op: OpName, rest: Body, out: &mut Outbox)
        requires { 1 ≤ out.old.entries.spare }
        ensures did { (s : Settings) (p : ClientState) (which : Refusal) → Stands s p self.old → p.moment ≡ at → (failure p op which).whats ≡ (answer p op rest).whats → Did s p at None (act (refused_live (row_named p op) which) []) out.old out.new self.new }
    {
        if self.live(op).is_none() {
            return;
        }
        let what = self.take_answer(op, rest, None, at);
        self.put(at, what, out);
        self.moment = at;
    }

    /// Whether the identity behind a success of an operation is asked for: it is a Bind that isn't simple, with proxied
    /// authorization on (RFC 4532).
    pub(crate) fn asks_who(&self, row: &Row) -> bool
        ensures { result ≡ (self.now.settings.proxyauthz && is_bind row.now && is_none row.now.who) }
    {
        self.settings.proxyauthz && row.is_bind() && row.who.is_none()
    }

    /// Pauses a connection to which an operation of this kind goes, where the client is stalled, and says whether it
    /// does. A bind connection is never paused.
    fn pause(&mut self, kind: OpKind, conn: u32) -> Result<bool, NoMemory>
        ensures stands { OnOk result ((s : Settings) (p : ClientState) → Stands s p self.old → Stands s (record p { pausing = pausing_by kind conn p.pausing }) self.new) }
        ensures says { IfOk result (λ pauses. (s : Settings) (p : ClientState) → Stands s p self.old → pauses ≡ pauses_by kind conn p.pausing) }
        ensures operations { self.new.operations ≡ self.old.operations }
        ensures number { self.new.number ≡ self.old.number }
        ensures window { self.new.window ≡ self.old.window }
        ensures err { OnErr result ((s : Settings) (p : ClientState) → Stands s p self.old → Stands s p self.new) }
    {
        if !self.pauses(kind, conn) {
            return Ok(false);
        }
        let letters = self.most_endings() + 1;
        self.kept.reserve(letters, self.paused.len())?;
        self.paused.insert(conn)?;
        Ok(true)
    }

    /// Whether a connection to which an operation of this kind goes is to be paused.
    fn pauses(&self, kind: OpKind, conn: u32) -> bool
        ensures { (s : Settings) (p : ClientState) → Stands s p self.now → result ≡ pauses_by kind conn p.pausing }
    {
        !is_bind(kind) && self.stalled && !self.paused.contains(&conn)
    }

    /// Sends the live operation of a name, which waits, to a connection of a backend: it binds the client as its action
    /// says, and a Bind's client then holds the connection. Hands out its request. It takes no memory.
    fn send(
        &mut self,
        op: OpName,
        kind: OpKind,
        action: Action,
        conn: u32,
        backend: u32,
    ) -> Option<Body>
        requires { self.old.window.live < 18446744073709551615 }
        ensures rest { result ≡ waiting_body (find (has_number op.k) self.old.operations.rows) }
        ensures stands { (s : Settings) (p : ClientState) (r : ClientRow) → Stands s p self.old → row_named p op ≡ Some r → r.connection ≡ None → kind_of r.request.rest ≡ Some kind → action_view action ≡ r.action → Stands s (with_sent conn backend r p) self.new }
        ensures number { self.new.number ≡ self.old.number }
    {
        let rest = self.operations.send(op.k, conn);
        bind_by(&mut self.window, action, conn, backend);
        self.hold = hold_by(kind, conn, op, self.hold);
        rest
    }
}

/// Notes that an operation with this action was given a connection of a backend.
fn bind_by(window: &mut Window, action: Action, conn: u32, backend: u32)
    requires { window.old.live < 18446744073709551615 }
    ensures binds { (calls : List Call) (hold : Hold) → hold_of action ≡ Some hold → window.old ≡ standing window.old.seconds calls → window.new ≡ standing window.old.seconds (calls ++ Chosen hold conn backend ∷ []) }
    ensures same { hold_of action ≡ None → window.new ≡ window.old }
{
    if let Some(hold) = hold_of(action) {
        window.chosen(hold, conn, backend);
    }
}

/// How an action binds.
fn hold_of(action: Action) -> Option<Hold>
    ensures { result ≡ hold_of action }
{
    match action {
        Action::Write => Some(Hold::Write),
        Action::Backend => Some(Hold::Backend),
        Action::Connection => Some(Hold::Connection),
        Action::Ignore | Action::Reject => None,
    }
}

/// What the client holds once an operation of this kind goes to a connection.
fn hold_by(kind: OpKind, conn: u32, holder: OpName, hold: Option<Held>) -> Option<Held>
    ensures { result ≡ hold_by kind conn holder hold }
{
    if is_bind(kind) {
        Some(Held { conn, holder })
    } else {
        hold
    }
}

/// Whether a kind is that of a Bind.
pub(crate) fn is_bind(kind: OpKind) -> bool
    ensures { result ≡ same_kind Bind kind }
{
    matches!(kind, OpKind::Bind)
}

/// Posts the Forward of an operation with this request, where there is one. There is room for it.
pub(crate) fn put_forward(
    op: OpName,
    kind: OpKind,
    rest: Option<Body>,
    ask_who: bool,
    holder: OpName,
    conn: u32,
    out: &mut Outbox,
)
    requires { 1 ≤ out.old.letters.spare }
    ensures letters { out.new.letters.items ≡ out.old.letters.items ++ forward_of op kind rest ask_who holder conn }
    ensures entries { out.new.entries ≡ out.old.entries }
    ensures room { out.old.letters.spare ≤ out.new.letters.spare + 1 }
{
    if let Some(rest) = rest {
        out.letters.put(Posted {
            to: PartName::Up(conn),
            letter: Letter::Forward {
                op,
                kind,
                rest,
                ask_who,
                holder,
            },
        });
    }
}

/// Posts the Pause of a connection, where it is paused. There is room for it.
fn put_pause(client: u32, pauses: bool, conn: u32, out: &mut Outbox)
    requires { 1 ≤ out.old.letters.spare }
    ensures letters { out.new.letters.items ≡ out.old.letters.items ++ pause_where client pauses conn }
    ensures entries { out.new.entries ≡ out.old.entries }
{
    if pauses {
        out.letters.put(Posted {
            to: PartName::Up(conn),
            letter: Letter::Pause { client },
        });
    }
}
