ghost use Rattle.std.specs.Prelude.{◌≡◌, ◌<◌, ◌≤◌, ◌+◌, ◌^◌, ◌++◌, ◌∷◌, [], List, length, min, take, drop, Some, None, IsSome, IfNone, IfOk, IfSome, if◌then◌else◌, vec_len, vec_capacity};
ghost use Rattle.std.specs.VecDeque.{deque_len, deque_capacity};
ghost use Rattle.std.specs.Option.{option_to_list};
ghost use Rattle.lload_links.specs.Tells.{Reads, Writes, count_read};
ghost use Rattle.lload_links.specs.Plans.{bytes_of, due, is_ready, behind_look, write_answer, later_writes, read_answer, later_reads, Answers, counted};
ghost use Rattle.lload_links.specs.Held.{tells_of, due_reads, can_read, can_write, after_look, after_link_read, after_link_write, handed, is_the};

use crate::link::{Link, LinkRead, LinkWrite, Origin, Ready, Seen};
use crate::queue::Queue;
use lload_names::{Body, NoMemory};
use std::alloc::Global;
use std::collections::VecDeque;
use std::marker::Model;

/// A step of a link's reads.
#[derive(Debug, Drop)]
pub enum MemRead {
    /// These bytes come, as far as the buffer of each read has room. Where there is none, the step is passed over.
    Bytes(Body),
    /// One read, or one look, is answered `NotYet`.
    NotYet,
    /// Each is answered `NotYet` as long as fewer bytes than this were written to the link; then the step is passed over.
    Until(u32),
    /// One read fails.
    Fail,
}

/// A step of a link's writes.
#[derive(Clone, Copy, Debug, PartialEq, Eq, Drop)]
pub enum MemWrite {
    /// One write takes at most so many bytes. To take 0 bytes is to fail.
    Take(u32),
    /// One write is answered `NotYet`.
    NotYet,
    /// One write fails.
    Fail,
}

/// The reads of a link, in order. Behind them the peer has ended.
pub type MemReads = Queue<MemRead>;

/// The writes of a link, in order. Behind them a write takes all.
pub type MemWrites = Queue<MemWrite>;

/// A link in memory, which goes by the plans of its reads and writes. Contracts see what is left of these, the bytes that
/// were read and written, the last answers and how often it failed.
#[derive(Debug, Drop)]
pub struct MemLink {
    origin: Origin,
    number: usize,
    reads: VecDeque<MemRead>,
    writes: VecDeque<MemWrite>,
    was_read: Vec<u8>,
    written: Vec<u8>,
    last_read: Option<LinkRead>,
    last_write: Option<LinkWrite>,
    faults: u64,
}

impl Model for MemLink {
    ghost use Rattle.std.specs.Prelude.{◌≤◌, ◌+◌, length, vec_len, vec_capacity};
    ghost use Rattle.lload_links.specs.Plans.{bytes_of};
    ghost use Rattle.lload_links.specs.Held.{LinkHeld};

    ghost Value = { LinkHeld };

    ghost view = { λ l. record { origin = l.origin; number = l.number; reads = l.reads.items; writes = l.writes.items; was_read = l.was_read.items; written = l.written.items; last_read = l.last_read; last_write = l.last_write; faults = l.faults } };

    // Each byte that is still to be read has room among those that were.
    ghost invariant = { λ l. vec_len l.was_read + length (bytes_of l.reads.items) ≤ vec_capacity l.was_read };
}

impl MemLink {
    /// A link of its own with these plans. It makes room to keep what is read; `alloc` serves what is written, too.
    pub fn new(alloc: Global, reads: MemReads, writes: MemWrites) -> Result<MemLink, NoMemory>
        ensures { IfOk result (λ link. link ≡ record { origin = Origin.Own; number = 0; reads = reads; writes = writes; was_read = []; written = []; last_read = None; last_write = None; faults = 0 }) }
    {
        let room = byte_count(reads.as_slice()).ok_or(NoMemory)?;
        Ok(MemLink {
            origin: Origin::Own,
            number: 0,
            was_read: Vec::with_capacity(alloc, room)?,
            reads: reads.into_deque(),
            writes: writes.into_deque(),
            written: Vec::new(alloc),
            last_read: None,
            last_write: None,
            faults: 0,
        })
    }

    /// Who made it.
    pub fn origin(&self) -> Origin
        ensures { result ≡ self.now.origin }
    {
        self.origin
    }

    /// Whether it is the i-th link that its harbour accepted, or the i-th that it connected, counted from 0.
    pub(crate) fn is_the(&self, accepted: bool, i: u32) -> bool
        ensures { result ≡ is_the accepted i self.now }
    {
        let origin = if accepted {
            Origin::Accepted
        } else {
            Origin::Connected
        };
        self.origin == origin && self.number == i as usize
    }

    /// Its harbour hands it out under this number.
    pub(crate) fn hand_out(&mut self, origin: Origin, number: usize)
        ensures { self.new ≡ handed origin number self.old }
    {
        self.origin = origin;
        self.number = number;
    }

    /// It failed once more.
    pub(crate) fn fail(&mut self)
        ensures failed { self.new ≡ record self.old { faults = counted self.old.faults } }
        ensures count { self.new.faults < 2 ^ 64 }
    {
        self.faults = one_more(self.faults);
    }

    /// The bytes that were read, in order.
    pub fn was_read(&self) -> &[u8]
        ensures { result.now ≡ self.now.was_read }
    {
        self.was_read.as_slice()
    }

    /// The bytes that were written, in order.
    pub fn written(&self) -> &[u8]
        ensures { result.now ≡ self.now.written }
    {
        self.written.as_slice()
    }
}

/// How many bytes a step of reads gives.
fn step_len(step: &MemRead) -> usize
    ensures { result ≡ length (bytes_of (step.now ∷ [])) }
{
    match step {
        MemRead::Bytes(bytes) => bytes.len(),
        MemRead::NotYet | MemRead::Until(_) | MemRead::Fail => 0,
    }
}

/// How many bytes these reads give; `None` where it can't be said.
fn byte_count(reads: &[MemRead]) -> Option<usize>
    ensures { IfSome result (λ n. n ≡ length (bytes_of reads.now)) }
{
    let mut count = 0usize;
    for step in reads {
        count = count.checked_add(step_len(step))?;
    }
    Some(count)
}

/// Whether a step is passed over once so many bytes were written.
fn passes(step: &MemRead, written: usize) -> bool
    ensures { (rest : List MemRead) → due written (step.now ∷ rest) ≡ (if result then due written rest else step.now ∷ rest) }
{
    match step {
        MemRead::Bytes(bytes) => bytes.len() == 0,
        MemRead::Until(n) => *n as usize <= written,
        MemRead::NotYet | MemRead::Fail => false,
    }
}

/// Takes the step that is met, and drops those that are passed over before it.
fn take_due(reads: &mut VecDeque<MemRead>, written: usize) -> Option<MemRead>
    ensures due { option_to_list result ++ reads.new.items ≡ due written reads.old.items }
    ensures empty { IfNone result (reads.new.items ≡ []) }
    ensures room { IsSome result → deque_len reads.new < deque_capacity reads.new }
{
    while let Some(step) = reads.pop_front() {
        if !passes(&step, written) {
            return Some(step);
        }
    }
    None
}

/// Moves the next of these bytes to the front of the buffer, notes them, and puts those that are left back as a step.
fn give(
    reads: &mut VecDeque<MemRead>,
    was_read: &mut Vec<u8>,
    bytes: Body,
    buf: &mut [u8],
) -> LinkRead
    requires some { 0 < length buf.old }
    requires bytes { 0 < length bytes }
    requires step { deque_len reads.old < deque_capacity reads.old }
    requires room { vec_len was_read.old + length bytes ≤ vec_capacity was_read.old }
    ensures count { result ≡ LinkRead.Got (min (length bytes) (length buf.old)) }
    ensures moved { take (min (length bytes) (length buf.old)) buf.new ≡ take (min (length bytes) (length buf.old)) bytes }
    ensures reads { reads.new.items ≡ MemRead.Bytes (drop (min (length bytes) (length buf.old)) bytes) ∷ reads.old.items }
    ensures noted { was_read.new.items ≡ was_read.old.items ++ take (min (length bytes) (length buf.old)) buf.new }
    ensures len { vec_len was_read.new ≡ vec_len was_read.old + min (length bytes) (length buf.old) }
    ensures room { vec_capacity was_read.old ≤ vec_capacity was_read.new }
{
    let n = bytes.len().min(buf.len());
    buf[..n].copy_from_slice(&bytes.as_slice()[..n]);
    let _ = was_read.extend_from_slice(&buf[..n]);
    let mut rest = bytes.into_vec();
    rest.drain(..n);
    reads.push_front_reserved(MemRead::Bytes(Body::from_vec(rest)));
    LinkRead::Got(n)
}

/// What the next read answers.
fn next_read(
    reads: &mut VecDeque<MemRead>,
    was_read: &mut Vec<u8>,
    written: usize,
    buf: &mut [u8],
) -> LinkRead
    requires some { 0 < length buf.old }
    requires room { vec_len was_read.old + length (bytes_of reads.old.items) ≤ vec_capacity was_read.old }
    ensures answer { result ≡ read_answer (length buf.old) (due written reads.old.items) }
    ensures moved { Reads (Some (bytes_of reads.old.items)) buf.new result }
    ensures reads { reads.new.items ≡ later_reads (length buf.old) (due written reads.old.items) }
    ensures noted { was_read.new.items ≡ was_read.old.items ++ take (count_read result) buf.new }
    ensures room { vec_len was_read.new + length (bytes_of reads.new.items) ≤ vec_capacity was_read.new }
{
    match take_due(reads, written) {
        None => LinkRead::End,
        Some(MemRead::Bytes(bytes)) => give(reads, was_read, bytes, buf),
        Some(MemRead::NotYet) => LinkRead::NotYet,
        Some(MemRead::Until(n)) => {
            reads.push_front_reserved(MemRead::Until(n));
            LinkRead::NotYet
        }
        Some(MemRead::Fail) => LinkRead::Failed,
    }
}

/// Whether a read may give something; one `NotYet` is passed over.
fn look(reads: &mut VecDeque<MemRead>, written: usize) -> Ready
    ensures ready { result ≡ (if is_ready (due written reads.old.items) then Ready.Yes else Ready.NotYet) }
    ensures looked { reads.new.items ≡ behind_look (due written reads.old.items) }
    ensures bytes { length (bytes_of reads.new.items) ≡ length (bytes_of reads.old.items) }
{
    match take_due(reads, written) {
        None => Ready::Yes,
        Some(MemRead::NotYet) => Ready::NotYet,
        Some(MemRead::Until(n)) => {
            reads.push_front_reserved(MemRead::Until(n));
            Ready::NotYet
        }
        Some(step) => {
            reads.push_front_reserved(step);
            Ready::Yes
        }
    }
}

/// A count of faults once there was one more; it stays at its last value.
pub(crate) fn one_more(faults: u64) -> u64
    ensures { result ≡ counted faults }
{
    faults.saturating_add(1)
}

/// What the next write of so many bytes is to answer.
fn next_write(writes: &mut VecDeque<MemWrite>, len: usize) -> LinkWrite
    ensures answer { result ≡ write_answer len writes.old.items }
    ensures passed { writes.new.items ≡ later_writes len writes.old.items }
{
    if len == 0 {
        return LinkWrite::Failed;
    }
    match writes.pop_front() {
        None => LinkWrite::Put(len),
        Some(MemWrite::Take(0) | MemWrite::Fail) => LinkWrite::Failed,
        Some(MemWrite::Take(n)) => LinkWrite::Put((n as usize).min(len)),
        Some(MemWrite::NotYet) => LinkWrite::NotYet,
    }
}

impl Link for MemLink {
    ghost tells = { tells_of };

    ghost faults = { λ l. l.faults };

    ghost can_read = { λ l. Some (can_read l) };

    ghost can_write = { λ l. Some (can_write l) };

    fn told(&mut self, _seen: Seen)
        ensures { self.new ≡ self.old }
    {}

    fn ready(&mut self) -> Ready
        ensures ready { result ≡ (if can_read self.old then Ready.Yes else Ready.NotYet) }
        ensures looked { self.new ≡ after_look self.old }
    {
        look(&mut self.reads, self.written.len())
    }

    fn read(&mut self, buf: &mut [u8]) -> LinkRead
        requires { 0 < length buf.old }
        ensures answer { result ≡ read_answer (length buf.old) (due_reads self.old) }
        ensures moved { Reads (Some (bytes_of self.old.reads)) buf.new result }
        ensures after { self.new ≡ after_link_read self.old (length buf.old) buf.new }
        ensures count { self.new.faults < 2 ^ 64 }
    {
        let written = self.written.len();
        let answer = next_read(&mut self.reads, &mut self.was_read, written, buf);
        if answer == LinkRead::Failed {
            self.faults = one_more(self.faults);
        }
        self.last_read = Some(answer);
        answer
    }

    fn write(&mut self, piece: &[u8]) -> LinkWrite
        ensures answer { Answers (write_answer (length piece.now) self.old.writes) result }
        ensures taken { Writes piece.now result }
        ensures after { self.new ≡ after_link_write self.old piece.now result }
        ensures count { self.new.faults < 2 ^ 64 }
    {
        let answer = match next_write(&mut self.writes, piece.len()) {
            LinkWrite::Put(n) => match self.written.extend_from_slice(&piece[..n]) {
                Ok(()) => LinkWrite::Put(n),
                Err(_) => LinkWrite::Failed,
            },
            other => other,
        };
        if answer == LinkWrite::Failed {
            self.faults = one_more(self.faults);
        }
        self.last_write = Some(answer);
        answer
    }

    fn close(&mut self)
        ensures { self.new ≡ self.old }
    {}
}
