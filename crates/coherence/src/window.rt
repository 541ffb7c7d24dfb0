ghost use Rattle.std.specs.Prelude.{◌≡◌, ◌<◌, ◌++◌, ◌∷◌, [], List};
ghost use Rattle.lload_spec.specs.BindingCalls.{Call, Chosen, WriteEnded, Reset, standing, binding_after, is_open};

use lload_names::{Bound, Hold};
use std::marker::Model;

/// What a client is bound to, by the operations since its last Bind. An earlier choice of the same strength stays,
/// but for writes, of which the last counts.
#[derive(Drop)]
pub struct Window {
    seconds: i32,
    connection: Option<u32>,
    backend: Option<u32>,
    write: Option<u32>,
    live: u64,
    ended: u64,
}

impl Model for Window {
    ghost use Rattle.lload_spec.specs.BindingCalls.{Standing};

    ghost Value = { Standing };

    ghost view = { λ w. record { seconds = w.seconds; connection = w.connection; backend = w.backend; write = w.write; live = w.live; ended = w.ended } };
}

impl Window {
    /// No operation binds. For so many seconds behind the last end of a write the client stays bound to its backend;
    /// with 0 writes don't bind at all, and a negative number is for ever (write_coherence in lloadd.conf(5)).
    pub fn new(seconds: i32) -> Window
        ensures { result ≡ standing seconds [] }
    {
        Window {
            seconds,
            connection: None,
            backend: None,
            write: None,
            live: 0,
            ended: 0,
        }
    }

    /// An operation that binds in this way was given a connection of a backend, both by number.
    pub fn chosen(&mut self, hold: Hold, conn: u32, backend: u32)
        requires room { hold ≡ Hold.Write → self.old.live < 18446744073709551615 }
        ensures calls { (calls : List Call) → self.old ≡ standing self.old.seconds calls → self.new ≡ standing self.old.seconds (calls ++ Chosen hold conn backend ∷ []) }
    {
        match hold {
            Hold::Write => {
                self.write = Some(backend);
                self.live += 1;
            }
            Hold::Backend => self.backend = self.backend.or(Some(backend)),
            Hold::Connection => self.connection = self.connection.or(Some(conn)),
        }
    }

    /// One of the writes ended, at the moment `now` in milliseconds.
    pub fn write_ended(&mut self, now: u64)
        requires live { 0 < self.old.live }
        ensures calls { (calls : List Call) → self.old ≡ standing self.old.seconds calls → self.new ≡ standing self.old.seconds (calls ++ WriteEnded now ∷ []) }
    {
        self.live -= 1;
        self.ended = self.ended.max(now);
    }

    /// A Bind came: all operations before it have ended, and none binds any more.
    pub fn reset(&mut self)
        ensures calls { (calls : List Call) → self.old ≡ standing self.old.seconds calls → self.new ≡ standing self.old.seconds (calls ++ Reset ∷ []) }
    {
        self.connection = None;
        self.backend = None;
        self.write = None;
        self.live = 0;
        self.ended = 0;
    }

    /// How many of the writes since the last reset haven't ended.
    pub fn live(&self) -> u64
        ensures { result ≡ self.now.live }
    {
        self.live
    }

    /// What the client is bound to at the moment `now`, in milliseconds.
    pub fn target(&self, now: u64) -> Bound
        ensures calls { (calls : List Call) → self.now ≡ standing self.now.seconds calls → result ≡ binding_after self.now.seconds calls now }
    {
        if let Some(conn) = self.connection {
            return Bound::Conn(conn);
        }
        if let Some(backend) = self.backend {
            return Bound::Backend(backend);
        }
        match self.write {
            Some(backend) if self.is_open(now) => Bound::Backend(backend),
            _ => Bound::Free,
        }
    }

    /// Whether a write binds at the moment `now`, in milliseconds.
    fn is_open(&self, now: u64) -> bool
        ensures { result ≡ is_open self.now.seconds self.now.live self.now.ended now }
    {
        if self.seconds < 0 {
            return true;
        }
        let length = 1000 * self.seconds.unsigned_abs() as u64;
        length > 0 && (self.live > 0 || now < self.ended || now - self.ended < length)
    }
}
