ghost use Rattle.std.specs.Prelude.{◌≡◌, ◌&&◌, not};
ghost use Rattle.client_rows.specs.Rows.{is_bind, lets_wait, connection_of, sent_on, body_of, one};

use lload_names::{Body, OpKind};
use restrictions::Action;
use std::mem;

/// How far an operation is on its way.
#[derive(Debug, Drop)]
pub enum Way {
    /// It has no connection; this is its request as it goes upstream.
    Waits(Body),
    /// It was forwarded to a connection.
    Went(u32),
}

/// A live operation: its number, the identifier of its request, its kind and its effective action, whether that action
/// restricts later operations, the identity that a simple Bind gives where it succeeds, and how far it is on its way.
#[derive(Debug, Drop)]
pub struct Row {
    pub k: u64,
    pub id: u32,
    pub kind: OpKind,
    pub action: Action,
    pub restricts: bool,
    pub who: Option<Body>,
    pub way: Way,
}

impl Row {
    /// Whether it is a Bind.
    pub fn is_bind(&self) -> bool
        ensures { result ≡ is_bind self.now }
    {
        matches!(self.kind, OpKind::Bind)
    }

    /// The connection that it was forwarded to.
    pub fn connection(&self) -> Option<u32>
        ensures { result ≡ connection_of self.now }
    {
        match &self.way {
            Way::Waits(_) => None,
            Way::Went(conn) => Some(*conn),
        }
    }

    /// Whether it lets later messages of its client wait: it is a Bind, or restricts them and has no connection yet.
    pub fn lets_wait(&self) -> bool
        ensures { result ≡ lets_wait self.now }
    {
        self.is_bind() || self.restricts && self.connection().is_none()
    }

    /// Whether it no longer lets them wait once it has a connection.
    pub(crate) fn waits_for_connection(&self) -> bool
        ensures { result ≡ (lets_wait self.now && not (is_bind self.now)) }
    {
        self.lets_wait() && !self.is_bind()
    }

    /// Notes that it goes to a connection, and hands out its request, where it waited for one. Where it went before it
    /// stays.
    pub fn send(&mut self, conn: u32) -> Option<Body>
        ensures body { result ≡ body_of self.old.way }
        ensures sent { self.new ≡ record self.old { way = sent_on conn self.old.way } }
    {
        if self.connection().is_some() {
            return None;
        }
        match mem::replace(&mut self.way, Way::Went(conn)) {
            Way::Waits(rest) => Some(rest),
            Way::Went(_) => None,
        }
    }
}

/// How many operations that is: one or none.
pub(crate) fn one(counts: bool) -> usize
    ensures { result ≡ one counts }
{
    if counts { 1 } else { 0 }
}
