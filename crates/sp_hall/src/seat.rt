// What a seat at the hall's table knows, and the kinds of its steps.
use crate::object::{Object, Shown};
use atomic_table::{Join, Play, Seat, Shared, Split, TableRule};
use std::collections::LinkedList;
use std::marker::PhantomData;
use std::snapshot::Snapshot;

/// What a seat knows. Contracts alone speak of it: no value of it is made.
pub struct View<E, S> {
    /// Its parts of all passes.
    pub parts: u64,
    /// By how much its calls raised the count.
    pub made: u64,
    /// What the object showed when the hall was made.
    pub opened: Shown<E, S>,
    /// Whether it has a ticket.
    pub drawn: bool,
    pub ticket: u64,
    /// Whether it is at its turn.
    pub turn: bool,
    /// What it has seen of the object.
    pub seen: Shown<E, S>,
    /// The shorter of two lists that met, with which the list that it has seen begins.
    pub short: Option<LinkedList<E>>,
    /// What the object showed when the turn came.
    pub base: Shown<E, S>,
}

pub type ViewOf<O> = View<<O as Object>::Entry, <O as Object>::Start>;

pub type SeatOf<O> = Seat<Option<O>, ViewOf<O>>;

pub type SharedOf<O> = Shared<Option<O>, ViewOf<O>, Snapshot<O>, HallRule<O>>;

/// The hall's rule.
pub struct HallRule<O> {
    object: PhantomData<O>,
}

impl<O: Object> TableRule<Option<O>, ViewOf<O>, Snapshot<O>> for HallRule<O> {
    ghost use Rattle.sp_hall.specs.Rule.{Ruled, opening_view};

    ghost holds = { λ key. Ruled O.shows (O.shows key.value) };

    ghost first = { λ key. opening_view (O.shows key.value) };
}

/// Draw: it has a ticket.
pub struct Drawing<O> {
    object: PhantomData<O>,
}

impl<O: Object> Play<Option<O>, ViewOf<O>> for Drawing<O> {
    ghost use Rattle.sp_hall.specs.Rule.{Draws};

    ghost then = { Draws O.shows };
}

/// Look: whether its turn has come.
pub struct Looking<O> {
    object: PhantomData<O>,
}

impl<O: Object> Play<Option<O>, ViewOf<O>> for Looking<O> {
    ghost use Rattle.sp_hall.specs.Rule.{Looks};

    ghost then = { Looks O.shows };
}

/// Finish: the object is back, and the turn is given on.
pub struct Finishing<O> {
    object: PhantomData<O>,
}

impl<O: Object> Play<Option<O>, ViewOf<O>> for Finishing<O> {
    ghost use Rattle.sp_hall.specs.Rule.{Finishes};

    ghost then = { Finishes O.shows };
}

/// Compare: of two lists that met the longer begins with the shorter.
pub struct Comparing;

impl<O, E, S> Play<Option<O>, View<E, S>> for Comparing {
    ghost use Rattle.sp_hall.specs.Rule.{Compares};

    ghost then = { Compares };
}

/// Split: a part goes to a new pass.
pub struct OnePart;

impl<E, S> Split<View<E, S>> for OnePart {
    ghost use Rattle.sp_hall.specs.Rule.{left_part, right_part};

    ghost left = { left_part };

    ghost right = { right_part };
}

/// Join: two passes become one.
pub struct Met;

impl<E, S> Join<View<E, S>> for Met {
    ghost use Rattle.sp_hall.specs.Rule.{met, spent_view};

    ghost both = { met };

    ghost spent = { spent_view };
}
