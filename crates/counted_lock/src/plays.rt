// The rule of the lock, and what each step on its words does to the seat that makes it.
ghost use Rattle.std.specs.Prelude.{Option, None, ℕ};
ghost use Rattle.counted_lock.specs.Rule.{Kept};
ghost use Rattle.counted_lock.specs.Views.{first_view, left_of, right_of, both_of, spent_view};
ghost use Rattle.counted_lock.specs.Told.{drew, looked, published, confirmed};

use crate::Keeps;
use crate::known::View;
use atomic_table::{Join, Play, Split, TableRule};
use std::marker::{Brand, PhantomData};

/// The rule of the lock's table, which is told the host's tag. No value of it is made.
pub struct Counted;

impl<T: Keeps> TableRule<Option<T>, View<T::Turn>, u64> for Counted {
    ghost holds = { λ _. Kept T.stands T.tag };

    ghost first = { first_view };
}

// A ticket is drawn.
pub(crate) struct Draw;

impl<T, Q> Play<Option<T>, View<Q>> for Draw {
    ghost then = { drew {T = T} };
}

// The served ticket is looked at. Where it is the seat's own, the seat takes the value.
pub(crate) struct Look<T: Keeps> {
    of: PhantomData<T>,
}

impl<T: Keeps> Play<Option<T>, View<T::Turn>> for Look<T> {
    ghost then = { looked T.stands T.tag };
}

// The turn that is published. A call at `Brand` picks it, in the proof alone.
pub(crate) trait Says<Q> {
    ghost said: { Option Q };
}

impl<Q> Says<Q> for Brand {
    ghost said = { None };
}

// The turn is published, and the value given back.
pub(crate) struct Publish<N> {
    of: PhantomData<N>,
}

impl<T, Q, N: Says<Q>> Play<Option<T>, View<Q>> for Publish<N> {
    ghost then = { published N.said };
}

// The tag of a new seat. A call at `Brand` picks it, in the proof alone.
pub(crate) trait Tags {
    ghost tag: { ℕ };
}

impl Tags for Brand {
    ghost tag = { 0 };
}

// A seat is made.
pub(crate) struct Make<N> {
    of: PhantomData<N>,
}

impl<Q, N: Tags> Split<View<Q>> for Make<N> {
    ghost left = { left_of N.tag };

    ghost right = { right_of N.tag };
}

// A seat is joined.
pub(crate) struct Bring;

impl<Q> Join<View<Q>> for Bring {
    ghost both = { both_of };

    ghost spent = { spent_view };
}

// The host looks at what a join brought.
pub(crate) struct Confirm<T: Keeps> {
    of: PhantomData<T>,
}

impl<T: Keeps> Play<Option<T>, View<T::Turn>> for Confirm<T> {
    ghost then = { confirmed {T = T} T.tag };
}
