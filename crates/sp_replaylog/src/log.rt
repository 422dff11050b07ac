ghost use Rattle.std.specs.Prelude.{◌≡◌, ◌≤◌, ◌<◌, ◌+◌, ◌++◌, ◌∷◌, [], false, true, drop, length, option_map, unwrap_or, OnOk, OnErr};
ghost use Rattle.std.specs.List.{slice_get};
ghost use Rattle.sp_replaylog.specs.Log.{as_set, bytes_of, entry_of, first_number, last_number, log_after, longest_fitting, number_from, place_of, with_entry};

use crate::entries::Entries;
use crate::entry::Entry;
use sp_base::failure::Memory;
use sp_base::moment::Moment;
use sp_base::number::MessageNo;
use sp_message::message::Message;
use std::alloc::Global;
use std::marker::Model;

/// The replay log: the latest messages whose sizes sum to at most its maximum, in the order in which
/// they came. Off, it has none. Contracts see also the room that is reserved for more.
#[derive(Drop)]
pub struct Log {
    enabled: bool,
    maximum: u64,
    used: u64,
    entries: Entries,
}

impl Model for Log {
    ghost use Rattle.sp_replaylog.specs.Inside.{IsLog, log_view};
    ghost use Rattle.sp_replaylog.specs.Log.{LogView};

    ghost Value = { LogView };

    ghost view = { log_view };

    ghost invariant = { IsLog };
}

impl Log {
    /// A log that is off, with a maximum of 0 bytes, no entries and no room.
    pub fn new(alloc: Global) -> Log
        ensures enabled { result.enabled ≡ false }
        ensures maximum { result.maximum ≡ 0 }
        ensures entries { result.entries ≡ [] }
    {
        Log {
            enabled: false,
            maximum: 0,
            used: 0,
            entries: Entries::new(alloc),
        }
    }

    /// Whether it is on. Off, it has no entries.
    pub fn enabled(&self) -> bool
        ensures value { result ≡ self.now.enabled }
        ensures off { result ≡ false → self.now.entries ≡ [] }
    {
        self.enabled
    }

    /// The greatest sum of its entries' sizes, in bytes.
    pub fn maximum(&self) -> u64
        ensures { result ≡ self.now.maximum }
    {
        self.maximum
    }

    /// The sum of its entries' sizes, in bytes, which is at most the maximum.
    pub fn used(&self) -> u64
        ensures value { result ≡ bytes_of self.now.entries }
        ensures fits { result ≤ self.now.maximum }
    {
        self.used
    }

    /// How many entries it has.
    pub fn len(&self) -> usize
        ensures { result ≡ length self.now.entries }
    {
        self.entries.len()
    }

    /// How many messages can be appended without memory.
    pub fn room(&self) -> usize
        ensures { result ≡ self.now.room }
    {
        self.entries.room()
    }

    /// The entry at a place, from 0, the oldest first. None exactly where there are no more.
    pub fn get(&self, place: usize) -> Option<Entry>
        ensures { result ≡ slice_get self.now.entries place }
    {
        self.entries.get(place)
    }

    /// The number of the oldest entry, and 0 where there is none.
    pub fn first(&self) -> u64
        ensures { result ≡ first_number self.now.entries }
    {
        number_of(&self.entries.get(0))
    }

    /// The number of the latest entry, and 0 where there is none.
    pub fn last(&self) -> u64
        ensures { result ≡ last_number self.now.entries }
    {
        number_of(&self.entries.last())
    }

    /// The place, from 0, of the first entry of a number. None exactly where no entry has it.
    pub fn place_of(&self, number: MessageNo) -> Option<usize>
        ensures { result ≡ place_of number self.now.entries }
    {
        self.entries.place_of(number)
    }

    /// The number of the first entry whose moment is at least this one. None exactly where there is none.
    pub fn from_time(&self, moment: Moment) -> Option<MessageNo>
        ensures { result ≡ number_from moment self.now.entries }
    {
        self.entries.from_moment(moment).map(|e| e.number)
    }

    /// Makes room, so that the next `more` calls of `append` take no memory. Nothing else changes,
    /// with memory or without.
    pub fn reserve(&mut self, more: usize) -> Result<(), Memory>
        ensures enabled { self.new.enabled ≡ self.old.enabled }
        ensures maximum { self.new.maximum ≡ self.old.maximum }
        ensures entries { self.new.entries ≡ self.old.entries }
        ensures room { OnOk result (more ≤ self.new.room) }
        ensures kept { self.old.room ≤ self.new.room }
        ensures memory { OnErr result (self.old.room < more) }
    {
        match self.entries.reserve(more) {
            Ok(()) => Ok(()),
            Err(_) => Err(Memory),
        }
    }

    /// Takes out the oldest entry, and gives it. It takes no memory. Whoever keeps the messages calls
    /// it for each entry that is about to go, while `used` is above what may stay.
    pub fn take_oldest(&mut self) -> Option<Entry>
        ensures oldest { result ≡ slice_get self.old.entries 0 }
        ensures entries { self.new.entries ≡ drop 1 self.old.entries }
        ensures enabled { self.new.enabled ≡ self.old.enabled }
        ensures maximum { self.new.maximum ≡ self.old.maximum }
        ensures room { self.new.room + length self.new.entries ≡ self.old.room + length self.old.entries }
    {
        let oldest = self.entries.take_oldest();
        let size = bytes_of(&oldest);
        self.used -= size;
        oldest
    }

    /// Appends a message, where the log is on, and drops the oldest that don't fit any more: what it
    /// keeps is the longest suffix of the log and the message whose sizes sum to at most the maximum. A
    /// message larger than the maximum leaves none. With room reserved it takes no memory; without
    /// memory nothing has changed.
    pub fn append(
        &mut self,
        number: MessageNo,
        message: &Message,
        moment: Moment,
    ) -> Result<(), Memory>
        ensures entries { OnOk result (self.new.entries ≡ with_entry self.old.enabled self.old.maximum self.old.entries (entry_of number message.now moment)) }
        ensures enabled { self.new.enabled ≡ self.old.enabled }
        ensures maximum { self.new.maximum ≡ self.old.maximum }
        ensures memory { OnErr result (self.old.room ≡ 0) }
        ensures unchanged { OnErr result (self.new.entries ≡ self.old.entries) }
        ensures room { self.old.room ≤ self.new.room + 1 }
    {
        if self.entries.room() == 0 {
            self.reserve(1)?;
        }
        self.add(Entry {
            number,
            moment,
            size: message.size(),
        });
        Ok(())
    }

    /// Turns the log on or off and sets its maximum, in bytes. Off, it has no entries; on, it keeps the
    /// longest suffix whose sizes sum to at most the maximum. It takes no memory.
    pub fn set(&mut self, enabled: bool, maximum: u64)
        ensures enabled { self.new.enabled ≡ enabled }
        ensures maximum { self.new.maximum ≡ maximum }
        ensures entries { self.new.entries ≡ as_set enabled maximum self.old.entries }
        ensures room { self.new.room + length self.new.entries ≡ self.old.room + length self.old.entries }
    {
        if enabled {
            self.turn_on(maximum);
        } else {
            self.turn_off(maximum);
        }
    }

    // Turns the log on: the oldest entries go that don't fit the maximum.
    fn turn_on(&mut self, maximum: u64)
        ensures enabled { self.new.enabled ≡ true }
        ensures maximum { self.new.maximum ≡ maximum }
        ensures entries { self.new.entries ≡ longest_fitting maximum self.old.entries }
        ensures room { self.new.room + length self.new.entries ≡ self.old.room + length self.old.entries }
    {
        self.cut(maximum);
        self.enabled = true;
        self.maximum = maximum;
    }

    // Turns the log off, and takes out all entries.
    fn turn_off(&mut self, maximum: u64)
        ensures enabled { self.new.enabled ≡ false }
        ensures maximum { self.new.maximum ≡ maximum }
        ensures entries { self.new.entries ≡ [] }
        ensures room { self.new.room ≡ self.old.room + length self.old.entries }
    {
        self.clear();
        self.enabled = false;
        self.maximum = maximum;
    }

    // Appends an entry, where the log is on.
    fn add(&mut self, entry: Entry)
        requires room { 0 < self.old.room }
        ensures entries { self.new.entries ≡ with_entry self.old.enabled self.old.maximum self.old.entries entry }
        ensures enabled { self.new.enabled ≡ self.old.enabled }
        ensures maximum { self.new.maximum ≡ self.old.maximum }
        ensures room { self.old.room ≤ self.new.room + 1 }
    {
        if self.enabled {
            self.add_enabled(entry);
        }
    }

    // Appends an entry to a log that is on. The oldest go that don't fit beside it.
    fn add_enabled(&mut self, entry: Entry)
        requires enabled { self.old.enabled ≡ true }
        requires room { 0 < self.old.room }
        ensures entries { self.new.entries ≡ log_after self.old.maximum self.old.entries entry }
        ensures enabled { self.new.enabled ≡ self.old.enabled }
        ensures maximum { self.new.maximum ≡ self.old.maximum }
        ensures room { self.old.room ≤ self.new.room + 1 }
    {
        let maximum = self.maximum();
        if entry.size > maximum {
            self.clear();
            return;
        }
        self.cut(maximum - entry.size);
        self.push(entry);
    }

    // Adds an entry for which there is room, in memory and below the maximum.
    fn push(&mut self, entry: Entry)
        requires enabled { self.old.enabled ≡ true }
        requires fits { bytes_of self.old.entries + entry.size ≤ self.old.maximum }
        requires room { 0 < self.old.room }
        ensures entries { self.new.entries ≡ self.old.entries ++ entry ∷ [] }
        ensures enabled { self.new.enabled ≡ self.old.enabled }
        ensures maximum { self.new.maximum ≡ self.old.maximum }
        ensures room { self.new.room + 1 ≡ self.old.room }
    {
        self.used += entry.size;
        self.entries.add(entry);
    }

    // Takes out the oldest entries until the others have at most so many bytes.
    fn cut(&mut self, bytes: u64)
        ensures entries { self.new.entries ≡ longest_fitting bytes self.old.entries }
        ensures enabled { self.new.enabled ≡ self.old.enabled }
        ensures maximum { self.new.maximum ≡ self.old.maximum }
        ensures kept { self.old.room ≤ self.new.room }
        ensures room { self.new.room + length self.new.entries ≡ self.old.room + length self.old.entries }
    {
        while self.used() > bytes {
            self.take_oldest();
        }
    }

    // Takes out all entries.
    fn clear(&mut self)
        ensures entries { self.new.entries ≡ [] }
        ensures enabled { self.new.enabled ≡ self.old.enabled }
        ensures maximum { self.new.maximum ≡ self.old.maximum }
        ensures room { self.new.room ≡ self.old.room + length self.old.entries }
    {
        self.used = 0;
        self.entries.clear();
    }
}

// An entry's number, and 0 where there is none.
fn number_of(entry: &Option<Entry>) -> u64
    ensures { result ≡ unwrap_or (option_map (λ e. e.number) entry.now) 0 }
{
    match entry {
        Some(entry) => entry.number.value(),
        None => 0,
    }
}

// An entry's size, and 0 where there is none.
fn bytes_of(entry: &Option<Entry>) -> u64
    ensures { result ≡ unwrap_or (option_map (λ e. e.size) entry.now) 0 }
{
    let Some(entry) = entry else {
        return 0;
    };
    entry.size
}
