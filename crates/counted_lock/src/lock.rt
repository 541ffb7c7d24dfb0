ghost use Rattle.std.specs.Prelude.{◌≡◌, ℕ, ◌+◌, ◌%◌, ◌^◌, ◌<◌, ◌≤◌, ◌++◌, ◌∷◌, ◌⊎◌, [], length, Some, true, false, IfOk, IfErr, Contains};
ghost use mathlib.Core.Option.{some};
ghost use lib.ListN.{get_elem?};
ghost use Rattle.counted_lock.specs.Turns.{mark, turns_of, turns_by, turns_with, StartsWith, GrewBy, joined_seat, HasTurnsOf, WasJoined};
ghost use Rattle.counted_lock.specs.Views.{after_turn};
ghost use Rattle.counted_lock.specs.Told.{Took};
ghost use Rattle.counted_lock.specs.Held.{first_seat, next_seat};
ghost use Rattle.counted_lock.specs.declared.known.Stage.TheVariants.{Waiting, Holding};

use crate::known::View;
use crate::plays::{Bring, Confirm, Counted, Draw, Look, Make, Publish, Says, Tags};
use crate::{Keeps, TurnSeat, Work};
use atomic_table::{Refused, Seat, Table};
use std::alloc::{AllocFailed, Global};
use std::hint::spin_loop;
use std::marker::{Brand, Model};
use std::snapshot::Snapshot;
use std::sync::Wait;
use std::thread;

// How often a caller yields its processor, where another has a ticket, before it draws one.
const YIELDS_BEFORE_DRAW: u32 = 32;

// How often a caller with a ticket looks whether it is served before it yields its processor.
const LOOKS_PER_YIELD: u32 = 100;

/// A value under a ticket lock. Contracts see it as the name of the lock.
#[derive(Drop)]
pub struct CountedLock<T: Keeps> {
    table: Table<Option<T>, View<T::Turn>, u64, Counted, Global>,
}

impl<T: Keeps> Model for CountedLock<T> {
    ghost use Rattle.std.specs.Prelude.{◌≡◌};
    ghost use Rattle.atomic_table.specs.Seated.{TableId, table_id_coded};

    ghost Value = { TableId };

    ghost coded = { table_id_coded };

    ghost view = { λ l. l.table.shared.table_id };

    ghost invariant = { λ l. (l.table.shared.table_id.words ≡ 2) × (l.table.shared.table_id.slots ≡ 1) };
}

/// What a turn answers.
#[derive(Drop)]
pub struct Turned<R> {
    /// How many turns were made before this one, modulo 2^64.
    pub place: u64,
    /// What the work answered.
    pub reply: R,
}

impl<T: Keeps> CountedLock<T> {
    /// Puts a value under a lock, and gives the lock and the host's seat, which has this tag and the
    /// number 0. For want of memory it hands the value back.
    pub fn new(alloc: Global, value: T, tag: u64) -> Result<(CountedLock<T>, TurnSeat<T>), T>
        requires { T.stands [] value }
        ensures seat { IfOk result (λ r. r.1 ≡ first_seat r.0 tag) }
        ensures back { IfErr result (λ v. v ≡ value) }
    {
        let slots = one(alloc, value)?;
        match Table::new(alloc, &[0, 0], slots, &tag) {
            Ok((table, seat)) => Ok((CountedLock { table }, TurnSeat { seat })),
            Err(Refused { mut slots }) => {
                let Some(Some(value)) = slots.pop() else {
                    unreachable!()
                };
                slots.destroy_empty();
                Err(value)
            }
        }
    }

    /// Makes one turn, and answers how many were made before it, modulo 2^64, with the work's reply.
    ///
    /// May wait. While another caller has a ticket it yields its processor, up to 32 times, before it
    /// draws its own. Then it looks again and again whether its ticket is served, and yields after
    /// each hundred looks. It never sleeps, so a waiting caller costs processor time. Tickets are
    /// served in their order: where the caller that is served isn't running, all others with a ticket
    /// wait until the scheduler comes to it.
    pub fn turn<W: Work<T>, R: Wait>(
        &self,
        rt: &R,
        seat: &mut TurnSeat<T>,
        work: &mut W,
    ) -> Turned<W::Reply>
        requires seat { seat.old.lock ≡ self.now }
        requires tag { (r : W.Reply) → T.tag (W.turn work.old r) ≡ seat.old.tag }
        // What it had seen comes first, and this turn last.
        ensures seen { GrewBy seat.old.seen
            (mark seat.old.number (W.turn work.old result.reply)) seat.new.seen }
        ensures place { (before : ℕ) × (length seat.new.seen ≡ before + 1)
            × (result.place ≡ before % 2 ^ 64) }
        ensures own { seat.new.own ≡ seat.old.own ++ W.turn work.old result.reply ∷ [] }
        ensures by_number { turns_by seat.new.number seat.new.seen ≡ seat.new.own }
        ensures by_tag { turns_with T.tag seat.new.tag seat.new.seen ≡ seat.new.own }
        ensures stands { (value : T) × T.stands (turns_of seat.new.seen) value }
        ensures same { seat.new ≡ record seat.old { seen = seat.new.seen; own = seat.new.own } }
    {
        self.let_others_run();
        let ticket = self.table.shared.fetch_add::<Draw>(&mut seat.seat, 0, 1);
        self.wait(rt, &mut seat.seat, ticket);
        let found = self.table.shared.exchange(&mut seat.seat, 0, None);
        let Some(mut value) = found else {
            unreachable!()
        };
        let before = Snapshot::of(&*work);
        let reply = work.work(&mut value);
        let left = self.table.shared.exchange(&mut seat.seat, 0, Some(value));
        let None = left else { unreachable!() };
        self.publish::<Brand, W>(&mut seat.seat, &before, &reply);
        Turned {
            place: ticket,
            reply,
        }
    }

    /// Makes a seat with this tag, for another caller. It has seen what the host has seen.
    pub fn split(&self, host: &mut TurnSeat<T>, tag: u64) -> TurnSeat<T>
        requires lock { host.old.lock ≡ self.now }
        requires host { host.old.host ≡ true }
        requires few { host.old.made < 2 ^ 63 }
        requires tag { ¬ Contains host.old.tags tag }
        ensures host { host.new ≡ record host.old { made = host.old.made + 1; tags = host.old.tags ++ tag ∷ [] } }
        ensures seat { result ≡ next_seat host.old tag }
        ensures by_number { turns_by result.number result.seen ≡ [] }
        ensures by_tag { turns_with T.tag result.tag result.seen ≡ [] }
    {
        self.make::<Brand>(host, tag)
    }

    /// Takes a seat in. The host has then seen what either had seen, and keeps the seat's turns.
    pub fn join(&self, host: &mut TurnSeat<T>, seat: TurnSeat<T>)
        requires lock { host.old.lock ≡ self.now }
        requires host { host.old.host ≡ true }
        requires seat { seat.lock ≡ self.now }
        ensures had { StartsWith host.new.seen host.old.seen }
        ensures brought { StartsWith host.new.seen seat.seen }
        ensures no_more { (host.new.seen ≡ host.old.seen) ⊎ (host.new.seen ≡ seat.seen) }
        ensures seat_turns { turns_by seat.number host.new.seen ≡ seat.own }
        ensures host_turns { turns_by host.new.number host.new.seen ≡ host.new.own }
        ensures host_tag { turns_with T.tag host.new.tag host.new.seen ≡ host.new.own }
        ensures kept { host.new.gone ≡ host.old.gone ++ joined_seat seat.number seat.own ∷ [] }
        ensures count { host.new.joined ≡ host.old.joined + 1 }
        ensures same { host.new ≡ record host.old {
          seen = host.new.seen;
          joined = host.new.joined;
          gone = host.new.gone;
        } }
    {
        let TurnSeat { seat } = seat;
        self.table.shared.join_seat::<Bring>(&mut host.seat, seat);
        // A join alone doesn't tell that what both had seen begins one list. This look does.
        self.table.shared.load::<Confirm<T>>(&mut host.seat, 0);
    }

    /// Ends the lock, once all seats were joined, and hands out the value. It stands for all turns
    /// that were made.
    pub fn close(self, host: TurnSeat<T>) -> T
        requires lock { host.lock ≡ self }
        requires host { host.host ≡ true }
        requires joined { host.joined ≡ host.made }
        ensures stands { T.stands (turns_of host.seen) result }
        ensures host_turns { turns_by host.number host.seen ≡ host.own }
        ensures seat_turns { HasTurnsOf host.seen host.gone }
        ensures each_seat { (n : ℕ) → 0 < n → n ≤ host.made → WasJoined n host.gone }
        ensures no_other { (n : ℕ) → host.made < n → turns_by n host.seen ≡ [] }
        ensures by_tag { (n t : ℕ) → get_elem? host.tags n ≡ some t
            → turns_with T.tag t host.seen ≡ turns_by n host.seen }
    {
        let CountedLock { table } = self;
        let TurnSeat { seat } = host;
        let mut closed = table.close_with(seat);
        let found = closed.take(0);
        closed.free();
        let Some(value) = found else { unreachable!() };
        value
    }

    // Yields while another caller has a ticket, but not for ever: a ticket in the hands of a caller
    // that isn't running would hold up all others.
    fn let_others_run(&self) {
        for _ in 0..YIELDS_BEFORE_DRAW {
            if self.table.shared.peek(0) == self.table.shared.peek(1) {
                return;
            }
            thread::yield_now();
        }
    }

    // Waits until the seat's ticket is served, and takes the value.
    fn wait<R: Wait>(&self, rt: &R, seat: &mut Seat<Option<T>, View<T::Turn>>, ticket: u64)
        requires seat { seat.old.table_id ≡ self.now }
        requires empty { (seat.old.me.1 ≡ []) × (seat.old.me.0.spent ≡ false) }
        requires drawn { (n : ℕ) × (seat.old.me.0.stage ≡ Waiting n) × (n % 2 ^ 64 ≡ ticket) }
        ensures seat { seat.new.table_id ≡ self.now }
        ensures took { (n : ℕ) × Took T.stands T.tag n seat.old.me.0 ticket seat.new.me }
    {
        let mut looks = 0u32;
        for _ in rt.forever() {
            if self.table.shared.load::<Look<T>>(seat, 1) == ticket {
                return;
            }
            looks = looks.wrapping_add(1);
            if looks % LOOKS_PER_YIELD == 0 {
                thread::yield_now();
            } else {
                spin_loop();
            }
        }
        unreachable!()
    }

    // Gives the value back, with the turn that the work made, and serves the next ticket.
    fn publish<N: Says<T::Turn>, W: Work<T>>(
        &self,
        seat: &mut Seat<Option<T>, View<T::Turn>>,
        work: &Snapshot<W>,
        reply: &W::Reply,
    )
        requires said { N.said ≡ Some (W.turn work.now.value reply.now) }
        requires seat { seat.old.table_id ≡ self.now }
        requires live { seat.old.me.0.spent ≡ false }
        requires tag { T.tag (W.turn work.now.value reply.now) ≡ seat.old.me.0.tag }
        requires holds { (n : ℕ) × (x : T) × (seat.old.me.0.stage ≡ Holding n) × (seat.old.me.1 ≡ (0, Some x) ∷ [])
            × T.stands (turns_of seat.old.me.0.seen ++ W.turn work.now.value reply.now ∷ []) x }
        ensures seat { seat.new.table_id ≡ self.now }
        ensures turn { seat.new.me ≡ (after_turn seat.old.me.0 (W.turn work.now.value reply.now), []) }
    {
        let _ = work;
        let _ = reply;
        self.table.shared.fetch_add::<Publish<N>>(seat, 1, 1);
    }

    // Makes the seat with the tag that N names.
    fn make<N: Tags>(&self, host: &mut TurnSeat<T>, tag: u64) -> TurnSeat<T>
        requires named { N.tag ≡ tag }
        requires lock { host.old.lock ≡ self.now }
        requires host { host.old.host ≡ true }
        requires few { host.old.made < 2 ^ 63 }
        requires tag { ¬ Contains host.old.tags tag }
        ensures host { host.new ≡ record host.old { made = host.old.made + 1; tags = host.old.tags ++ tag ∷ [] } }
        ensures seat { result ≡ next_seat host.old tag }
        ensures by_number { turns_by result.number result.seen ≡ [] }
        ensures by_tag { turns_with T.tag result.tag result.seen ≡ [] }
    {
        let _ = tag;
        let seat = self.table.shared.split_seat::<Make<N>>(&mut host.seat);
        TurnSeat { seat }
    }
}

// A list of one value. For want of memory it hands the value back.
fn one<T>(alloc: Global, value: T) -> Result<Vec<Option<T>>, T>
    ensures ok { IfOk result (λ v. v.items ≡ Some value ∷ []) }
    ensures err { IfErr result (λ v. v ≡ value) }
{
    let mut slots = Vec::new(alloc);
    match slots.push(Some(value)) {
        Ok(()) => Ok(slots),
        Err(AllocFailed { value }) => {
            slots.destroy_empty();
            let Some(value) = value else { unreachable!() };
            Err(value)
        }
    }
}
