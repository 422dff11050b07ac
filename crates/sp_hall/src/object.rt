use std::collections::LinkedList;

/// What an object shows of itself in one state. Contracts alone speak of it: no value of it is made.
pub struct Shown<E, S> {
    /// What the object's `count` gives. No call lowers it.
    pub count: u64,
    /// How often something that the object rests on has failed. No call lowers it.
    pub faults: u64,
    /// A list that calls only extend. An object tells it in each of its states, or in none.
    pub list: Option<LinkedList<E>>,
    /// How much of the count stands before the list. It stays the same. Where no list is told, it says nothing.
    pub first: u64,
    /// What the list starts from, where the object tells it. It stays the same.
    pub start: Option<S>,
}

/// An object that a hall can hold.
///
/// It shows a count and a count of faults, which calls never lower. It may also show a list, which each call extends by
/// as many entries as it raises the count, and a start, which calls leave as it was.
pub trait Object {
    ghost use Rattle.std.specs.Prelude.{◌≡◌, ◌≤◌};
    ghost use Rattle.sp_hall.specs.States.{Begins, IsCounted};
    ghost use Rattle.sp_hall.specs.declared.object.Shown.{Shown};

    /// What a call asks.
    type Ask;

    /// What a call is answered.
    type Reply;

    /// What the list has. It is `()` for an object that tells no list.
    type Entry;

    /// What the list starts from. It is `()` for an object that tells no start.
    type Start;

    /// What the object shows.
    ghost shows: { Self → Shown Self.Entry Self.Start };

    /// What a call may do: the object before it, the ask, the object after it and the reply.
    ghost acts: { Self → Self.Ask → Self → Self.Reply → Type 0 };

    /// Does what is asked.
    fn act(&mut self, ask: Self::Ask) -> Self::Reply
        ensures acts { acts self.old ask self.new result }
        ensures count { (shows self.old).count ≤ (shows self.new).count }
        ensures faults { (shows self.old).faults ≤ (shows self.new).faults }
        ensures list { Begins (shows self.new).list (shows self.old).list }
        ensures counted { IsCounted (shows self.new) }
        ensures first { (shows self.new).first ≡ (shows self.old).first }
        ensures start { (shows self.new).start ≡ (shows self.old).start };

    /// The count.
    fn count(&self) -> u64
        ensures count { result ≡ (shows self.now).count }
        ensures counted { IsCounted (shows self.now) };
}
