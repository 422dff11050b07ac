// One entry is answered, and its line is written.
ghost use Rattle.std.specs.Prelude.{◌≡◌, ◌≢◌, ◌≤◌, ◌∷◌, [], IfOk, List, OnErr, OnOk, length, true, ℕ};
ghost use Rattle.std.specs.Io.KnownBytes.{Appends};
ghost use Rattle.sp_base.specs.Causes.{HasCause, Rose};
ghost use Rattle.sp_base.specs.Name.{is_caller};
ghost use Rattle.sp_tape.specs.Acts.{AnswersEvent, AnswersLine, IsToldOf, IsUnitOf};
ghost use Rattle.sp_tape.specs.Serves.{AnswersAs, IsIn, IsUnitOfAsk, IsUnitOfFlow, Leaves, MayAnswer, Serves, WritesFront};
ghost use Rattle.sp_tape.specs.State.{RunState};

use crate::entry::{Entry, Kind};
use sp_base::declined::Declined;
use sp_base::failure::Failed;
use sp_base::io::Sink;
use sp_base::moment::Moment;
use sp_base::name::Name;
use sp_base::refusal::Refusal;
use sp_disk::disk::Disk;
use sp_event::answer::{Answered, Reply};
use sp_event::request::{Ask, Event, Query};
use sp_flowline::line::line;
use sp_flowline::read::read;
use sp_store::receipt::{CommitFault, Receipt};
use sp_store::store::Store;
use std::alloc::Global;
use std::slice;

/// How a turn ended.
#[derive(Clone, Copy, Debug, PartialEq, Eq)]
pub enum Served {
    Done,
    Fault,
    Memory,
}

/// Answers one entry, and hands its line to the sink as one piece.
pub fn serve<K: Sink, D: Disk>(
    alloc: Global,
    store: &mut Store<D>,
    sink: &mut K,
    entry: &Entry,
) -> Served
    requires stands { (S : RunState) × IsIn D.tells D.content D.may_leave S store.old }
    requires caller { is_caller entry.now.caller ≡ true }
    ensures serves { Serves D.tells D.content D.may_leave D.moment D.left_since D.faults entry.now store.old store.new
        (K.written sink.old) (K.written sink.new) result }
    ensures fault { result ≡ Served.Fault → Rose (K.faults sink.old) (K.faults sink.new) }
    ensures no_fault { result ≢ Served.Fault → K.faults sink.new ≡ K.faults sink.old }
{
    let answered = act(alloc, store, entry);
    let mut text = Vec::new(alloc);
    let Ok(()) = line(alloc, &answered, store.units(), &mut text) else {
        return Served::Memory;
    };
    match put(sink, text.as_slice()) {
        Ok(()) => Served::Done,
        Err(_) => Served::Fault,
    }
}

/// Hands a piece to the sink, again with the rest where it took a part, and flushes.
pub fn put<K: Sink>(sink: &mut K, text: &[u8]) -> Result<(), Failed>
    ensures ok { OnOk result (Appends (K.written sink.old) (K.written sink.new) text.now) }
    ensures front { WritesFront (K.written sink.old) (K.written sink.new) text.now }
    ensures cause { HasCause (K.faults sink.old) (K.faults sink.new) result }
{
    let mut at = 0;
    while at < text.len() {
        at += sink.write(&text[at..])?;
    }
    sink.flush()
}

// The answer to an entry. A restart's store was opened again before.
fn act<D: Disk>(alloc: Global, store: &mut Store<D>, entry: &Entry) -> Answered
    requires stands { (S : RunState) × IsIn D.tells D.content D.may_leave S store.old }
    requires caller { is_caller entry.now.caller ≡ true }
    ensures { Leaves D.tells D.content D.may_leave D.moment D.left_since D.faults
        (AnswersAs (D.tells store.old.disk).content store.old.max entry.now.kind entry.now)
        (IsUnitOfFlow entry.now) store.old store.new result }
{
    match entry.kind {
        Kind::Flow => act_flow(alloc, store, entry),
        Kind::Http => bad(1),
        Kind::Rdp => bad(1),
        Kind::Restart => Answered::Gave(Reply::Restart),
    }
}

fn bad(at: u64) -> Answered
    ensures { result ≡ Answered.Refused (Refusal.BadRequest at) None }
{
    refused(Refusal::BadRequest { at })
}

fn refused(refusal: Refusal) -> Answered
    ensures { result ≡ Answered.Refused refusal None }
{
    Answered::Refused {
        refusal,
        index: None,
    }
}

fn act_flow<D: Disk>(alloc: Global, store: &mut Store<D>, entry: &Entry) -> Answered
    requires stands { (S : RunState) × IsIn D.tells D.content D.may_leave S store.old }
    requires caller { is_caller entry.now.caller ≡ true }
    ensures { Leaves D.tells D.content D.may_leave D.moment D.left_since D.faults
        (AnswersLine (D.tells store.old.disk).content store.old.max entry.now.moment entry.now.caller entry.now.body)
        (IsUnitOf entry.now) store.old store.new result }
{
    match read(alloc, entry.body.as_slice()) {
        Ok(ask) => answer(alloc, store, entry.moment, &entry.caller, ask),
        Err(Declined::Refused(refusal)) => refused(refusal),
        Err(Declined::Memory) => Answered::Memory,
    }
}

fn answer<D: Disk>(
    alloc: Global,
    store: &mut Store<D>,
    moment: Moment,
    caller: &Name,
    ask: Ask,
) -> Answered
    requires stands { (S : RunState) × IsIn D.tells D.content D.may_leave S store.old }
    requires caller { is_caller caller.now ≡ true }
    ensures { Leaves D.tells D.content D.may_leave D.moment D.left_since D.faults
        (MayAnswer (D.tells store.old.disk).content store.old.max moment caller.now ask)
        (IsUnitOfAsk moment caller.now ask) store.old store.new result }
{
    match ask {
        Ask::Do(event) => commit(alloc, store, moment, caller, event),
        Ask::Look(query) => look(alloc, store, moment, caller, &query),
    }
}

fn look<D: Disk>(
    alloc: Global,
    store: &Store<D>,
    moment: Moment,
    caller: &Name,
    query: &Query,
) -> Answered
    requires { is_caller caller.now ≡ true }
    ensures { Leaves D.tells D.content D.may_leave D.moment D.left_since D.faults
        (MayAnswer (D.tells store.now.disk).content store.now.max moment caller.now (Ask.Look query.now))
        (IsUnitOfAsk moment caller.now (Ask.Look query.now)) store.now store.now result }
{
    match store.ask(alloc, moment, caller, query) {
        Ok(reply) => Answered::Gave(reply),
        Err(Declined::Refused(refusal)) => refused(refusal),
        Err(Declined::Memory) => Answered::Memory,
    }
}

fn commit<D: Disk>(
    alloc: Global,
    store: &mut Store<D>,
    moment: Moment,
    caller: &Name,
    event: Event,
) -> Answered
    requires stands { (S : RunState) × IsIn D.tells D.content D.may_leave S store.old }
    requires caller { is_caller caller.now ≡ true }
    ensures { Leaves D.tells D.content D.may_leave D.moment D.left_since D.faults
        (AnswersEvent (D.tells store.old.disk).content store.old.max moment caller.now event)
        (IsUnitOfAsk moment caller.now (Ask.Do event)) store.old store.new result }
{
    told(store.commit(alloc, moment, caller, slice::from_ref(&event)))
}

// The answer to what a commit of one event came to.
fn told(done: Result<Receipt, CommitFault>) -> Answered
    requires { IfOk done (λ receipt. length receipt.replies.items ≡ 1) }
    ensures { IsToldOf done result }
{
    match done {
        Ok(receipt) => Answered::Gave(first(receipt.replies)),
        Err(CommitFault::Refused { index: _, refusal }) => refused(refusal),
        Err(CommitFault::Memory) => Answered::Memory,
        Err(CommitFault::Full { len, need, max }) => Answered::Full { len, need, max },
        Err(CommitFault::Disk) => Answered::Disk,
    }
}

fn first<T: Drop>(items: Vec<T>) -> T
    requires { length items.items ≡ 1 }
    ensures { items.items ≡ result ∷ [] }
{
    let mut items = items;
    match items.pop() {
        Some(item) => item,
        None => unreachable!(),
    }
}
