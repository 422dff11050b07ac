// The entries of a log as a queue with room: new ones come behind, the oldest go in front, and neither
// moves the others.
ghost use Rattle.std.specs.Prelude.{◌≡◌, ◌≤◌, ◌<◌, ◌+◌, ◌-◌, ◌++◌, ◌∷◌, [], drop, find, length, nat_le, true, OnErr, OnOk};
ghost use Rattle.std.specs.List.{slice_get};
ghost use Rattle.std.specs.Option.{option_copied};
ghost use Rattle.sp_replaylog.specs.Log.{place_of};
ghost use Rattle.sp_replaylog.specs.Order.{IsInOrder, may_follow};

use crate::entry::Entry;
use crate::look;
use sp_base::moment::Moment;
use sp_base::number::MessageNo;
use std::alloc::{AllocError, Global};
use std::collections::VecDeque;
use std::marker::Model;

// Contracts see the entries, the oldest first, and the room that is reserved for more. Where neither
// numbers nor moments fall, as they never do in a spool, look-ups are quick.
#[derive(Drop)]
pub struct Entries {
    queue: VecDeque<Entry>,
    in_order: bool,
}

impl Model for Entries {
    ghost use Rattle.std.specs.Prelude.{◌≡◌, ℕ, ◌-◌, true};
    ghost use Rattle.std.specs.VecDeque.{deque_capacity, deque_len};
    ghost use Rattle.sp_base.specs.Rows.{Roomy};
    ghost use Rattle.sp_replaylog.specs.Order.{IsInOrder};
    ghost use Rattle.sp_replaylog.specs.declared.entry.Entry.{Entry};

    ghost Value = { Roomy Entry };

    ghost view = { λ e. record { items = e.queue.items; room = deque_capacity e.queue - deque_len e.queue } };

    ghost invariant = { λ e. e.in_order ≡ true → IsInOrder e.queue.items };
}

impl Entries {
    // No entries, and no room.
    pub fn new(alloc: Global) -> Entries
        ensures { result.items ≡ [] }
    {
        Entries {
            queue: VecDeque::new(alloc),
            in_order: true,
        }
    }

    // How many entries there are.
    pub fn len(&self) -> usize
        ensures { result ≡ length self.now.items }
    {
        self.queue.len()
    }

    // How many entries can be added without memory.
    pub fn room(&self) -> usize
        ensures { result ≡ self.now.room }
    {
        self.queue.capacity() - self.queue.len()
    }

    // The entry at a place, from 0.
    pub fn get(&self, place: usize) -> Option<Entry>
        ensures { result ≡ slice_get self.now.items place }
    {
        self.queue.get(place).copied()
    }

    // The latest entry.
    pub fn last(&self) -> Option<Entry>
        ensures { result ≡ slice_get self.now.items (length self.now.items - 1) }
    {
        self.queue.back().copied()
    }

    // The place, from 0, of the first entry of a number.
    pub fn place_of(&self, number: MessageNo) -> Option<usize>
        ensures { result ≡ place_of number self.now.items }
    {
        if self.in_order {
            look::searched_place(&self.queue, number)
        } else {
            look::walked_place(&self.queue, number)
        }
    }

    // The first entry from a moment on.
    pub fn from_moment(&self, moment: Moment) -> Option<&Entry>
        ensures { option_copied result ≡ find (λ e. nat_le moment e.moment) self.now.items }
    {
        if self.in_order {
            look::searched_moment(&self.queue, moment)
        } else {
            look::walked_moment(&self.queue, moment)
        }
    }

    // Makes room for `more` entries. Without memory there is the room that there was.
    pub fn reserve(&mut self, more: usize) -> Result<(), AllocError>
        ensures items { self.new.items ≡ self.old.items }
        ensures room { OnOk result (more ≤ self.new.room) }
        ensures kept { self.old.room ≤ self.new.room }
        ensures memory { OnErr result (self.old.room < more) }
    {
        self.queue.reserve(more)
    }

    // Adds an entry behind the others, and takes no memory.
    pub fn add(&mut self, entry: Entry)
        requires { 0 < self.old.room }
        ensures items { self.new.items ≡ self.old.items ++ entry ∷ [] }
        ensures room { self.new.room + 1 ≡ self.old.room }
    {
        let in_order = self.stays_in_order(&entry);
        self.queue.push_back_reserved(entry);
        self.in_order = in_order;
    }

    // Whether neither numbers nor moments fall with one more entry.
    fn stays_in_order(&self, entry: &Entry) -> bool
        ensures { result ≡ true → IsInOrder (self.now.items ++ entry.now ∷ []) }
    {
        if !self.in_order {
            return false;
        }
        may_follow(&self.last(), entry)
    }

    // Takes out the oldest entry. Its room stays.
    pub fn take_oldest(&mut self) -> Option<Entry>
        ensures oldest { result ≡ slice_get self.old.items 0 }
        ensures items { self.new.items ≡ drop 1 self.old.items }
        ensures room { self.new.room + length self.new.items ≡ self.old.room + length self.old.items }
    {
        self.queue.pop_front()
    }

    // Takes out all entries. Their room stays.
    pub fn clear(&mut self)
        ensures items { self.new.items ≡ [] }
        ensures room { self.new.room ≡ self.old.room + length self.old.items }
    {
        self.queue.clear();
        self.in_order = true;
    }
}

// Whether neither number nor moment falls from an entry, if there is one, to the next.
fn may_follow(last: &Option<Entry>, entry: &Entry) -> bool
    ensures { result ≡ may_follow last.now entry.now }
{
    match last {
        Some(last) => {
            last.number.value() <= entry.number.value()
                && last.moment.value() <= entry.moment.value()
        }
        None => true,
    }
}
