ghost use Rattle.std.specs.Prelude.{◌≡◌, ◌≤◌, ◌<◌, ◌+◌, ◌++◌, ◌∷◌, [], ◌==◌, All, None, if◌then◌else◌, length, IfSome, OnErr, OnOk};
ghost use Rattle.std.specs.Option.{option_copied};
ghost use Rattle.sp_replaylog.specs.Replays.{AreReplays, IsRunning, MayGoOn, gone_on, replay_on, with_step, without_replay};

use crate::replay::Replay;
use sp_base::failure::Memory;
use sp_base::number::{EndpointNo, MessageNo};
use sp_base::rows::Rows;
use std::alloc::Global;
use std::marker::Model;

/// The replays that run, in the order in which they started: at most one on an endpoint. Contracts see
/// also the room that is reserved for more.
#[derive(Drop)]
pub struct Replays {
    rows: Rows<Replay>,
}

impl Model for Replays {
    ghost use Rattle.sp_base.specs.Rows.{Roomy};
    ghost use Rattle.sp_replaylog.specs.Replays.{AreReplays};
    ghost use Rattle.sp_replaylog.specs.declared.replay.Replay.{Replay};

    ghost Value = { Roomy Replay };

    ghost view = { λ r. r.rows };

    ghost invariant = { λ r. AreReplays r.rows.items };
}

impl Replays {
    /// No replays, and no room.
    pub fn new(alloc: Global) -> Replays
        ensures { result.items ≡ [] }
    {
        Replays {
            rows: Rows::new(alloc),
        }
    }

    /// The replays in the order in which they started.
    pub fn as_slice(&self) -> &[Replay]
        ensures value { result.now ≡ self.now.items }
        ensures sound { AreReplays self.now.items }
    {
        self.rows.as_slice()
    }

    /// How many replays run.
    pub fn len(&self) -> usize
        ensures { result ≡ length self.now.items }
    {
        self.rows.len()
    }

    /// The replay that runs on an endpoint. None exactly where none does.
    pub fn find(&self, endpoint: EndpointNo) -> Option<Replay>
        ensures value { result ≡ replay_on endpoint self.now.items }
        ensures running { IfSome result IsRunning }
    {
        among(self.rows.as_slice(), endpoint).copied()
    }

    /// Makes room, so that the next `more` replays start without memory. Without memory the replays
    /// stay as they were.
    pub fn reserve(&mut self, more: usize) -> Result<(), Memory>
        ensures items { self.new.items ≡ self.old.items }
        ensures room { OnOk result (more ≤ self.new.room) }
        ensures kept { self.old.room ≤ self.new.room }
        ensures memory { OnErr result (self.old.room < more) }
    {
        if more <= self.rows.room() {
            return Ok(());
        }
        match self.rows.reserve(more) {
            Ok(()) => Ok(()),
            Err(_) => Err(Memory),
        }
    }

    /// Starts a replay on an endpoint on which none runs. Room has to be reserved; it takes no memory.
    pub fn start(&mut self, replay: Replay)
        requires running { IsRunning replay }
        requires none { replay_on replay.endpoint self.old.items ≡ None }
        requires room { 0 < self.old.room }
        ensures items { self.new.items ≡ self.old.items ++ replay ∷ [] }
        ensures room { self.old.room ≤ self.new.room + 1 }
    {
        self.rows.add(replay);
    }

    /// Lets the replay on an endpoint go on to an entry that is at most its last, having made so many
    /// more copies: at most one for each entry that it goes by. It takes no memory.
    pub fn go_on(&mut self, endpoint: EndpointNo, next: MessageNo, copies: u64)
        requires { MayGoOn endpoint next copies self.old.items }
        ensures items { self.new.items ≡ with_step endpoint next copies self.old.items }
        ensures room { self.new.room ≡ self.old.room }
    {
        go_on_among(self.rows.as_mut_slice(), endpoint, next, copies);
    }

    /// Takes out the replay on an endpoint, where one runs: it is complete, failed or cancelled. It
    /// takes no memory.
    pub fn end(&mut self, endpoint: EndpointNo)
        ensures items { self.new.items ≡ without_replay endpoint self.old.items }
        ensures room { self.new.room + length self.new.items ≡ self.old.room + length self.old.items }
    {
        self.rows.retain(|r| r.endpoint != endpoint);
    }
}

// The replay that runs on an endpoint.
fn among(rows: &[Replay], endpoint: EndpointNo) -> Option<&Replay>
    ensures { option_copied result ≡ replay_on endpoint rows.now }
{
    rows.iter().find(|r| r.endpoint == endpoint)
}

// Lets the replay on an endpoint go on.
fn go_on_among(rows: &mut [Replay], endpoint: EndpointNo, next: MessageNo, copies: u64)
    requires { All (λ r. r.endpoint ≡ endpoint → r.made + copies ≤ next) rows.old }
    ensures { rows.new ≡ with_step endpoint next copies rows.old }
{
    for row in rows.iter_mut() {
        *row = after_step(row, endpoint, next, copies);
    }
}

// The replay gone on, where it is the one on the endpoint.
fn after_step(row: &Replay, endpoint: EndpointNo, next: MessageNo, copies: u64) -> Replay
    requires { row.now.endpoint ≡ endpoint → row.now.made + copies ≤ next }
    ensures { result ≡ (if row.now.endpoint == endpoint then gone_on next copies row.now else row.now) }
{
    if row.endpoint != endpoint {
        return *row;
    }
    Replay {
        number: row.number,
        endpoint: row.endpoint,
        next,
        last: row.last,
        made: row.made + copies,
    }
}
