use crate::Keeps;
use crate::known::View;
use atomic_table::Seat;
use std::marker::Model;

/// A place at a lock, from which turns are made. It has no bytes.
///
/// Contracts see it as a record of its lock, its number and tag, whether it is the host, all turns
/// that it has seen, its own turns, and, for the host, the seats that it made and joined.
#[derive(Drop)]
pub struct TurnSeat<T: Keeps> {
    pub(crate) seat: Seat<Option<T>, View<T::Turn>>,
}

impl<T: Keeps> Model for TurnSeat<T> {
    ghost use Rattle.counted_lock.specs.Held.{Held, held_of, AtRest};

    ghost Value = { Held T.Turn };

    ghost view = { λ s. held_of s.seat.table_id s.seat.me.0 };

    ghost invariant = { λ s. AtRest T.tag s.seat.me };
}
