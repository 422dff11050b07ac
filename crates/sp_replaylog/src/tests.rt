use crate::log::Log;
use crate::replay::Replay;
use crate::replays::Replays;
use sp_base::bytes::Bytes;
use sp_base::moment::Moment;
use sp_base::number::{EndpointNo, MessageNo, ReplayNo};
use sp_base::topic::Topic;
use sp_message::message::{Dest, Message, TimeToLive};
use sp_message::payload::{LONGEST_PAYLOAD, Payload};
use sp_message::property::Properties;
use std::alloc::Global;
use std::process::Abort;
use std::test::Fail;

const MEGABYTE: u64 = 1_048_576;

fn payload(alloc: Global, length: usize) -> Result<Payload, Fail> {
    let bytes = Bytes::from_vec(vec![in alloc; b'x'; length]?);
    if bytes.len() > LONGEST_PAYLOAD {
        return Err(Fail::from("too long"));
    }
    Ok(Payload::from_bytes(bytes))
}

// A message on the topic `t` with a payload of so many bytes: its size is 65 bytes more.
fn message(alloc: Global, length: usize) -> Result<Message, Fail> {
    let payload = payload(alloc, length)?;
    let topic = Topic::read(alloc, b"t")?;
    Ok(to_topic(topic, payload, Properties::none(alloc)))
}

fn to_topic(topic: Topic, payload: Payload, properties: Properties) -> Message {
    Message {
        dest: Dest::Topic(topic),
        payload,
        ttl: TimeToLive::of(0),
        eligible: false,
        properties,
    }
}

// The first and the last number, how many entries there are, and the sum of their sizes.
type Shown = (u64, u64, usize, u64);

fn shown(log: &Log) -> Shown {
    (log.first(), log.last(), log.len(), log.used())
}

// A log that is on, with this maximum, to which messages 1, 2 and so on are appended, with payloads of
// these lengths.
fn appended(alloc: Global, maximum: u64, lengths: &[usize]) -> Result<Log, Fail> {
    let mut log = Log::new(alloc);
    log.set(true, maximum);
    for (i, length) in lengths.iter().enumerate() {
        let message = message(alloc, *length)?;
        log.append(MessageNo::of(i as u64 + 1), &message, Moment::START)?;
    }
    Ok(log)
}

#[test]
fn appends_at_the_limit(rt: HostRuntime) -> Result<(), Fail> {
    let alloc = rt.alloc();
    for (maximum, lengths, then) in [
        // three of 65 bytes
        (195, [0, 0, 0], (1, 3, 3, 195)),
        (194, [0, 0, 0], (2, 3, 2, 130)),
        (64, [0, 0, 0], (0, 0, 0, 0)),
        // a larger one takes the place of as many as it must
        (195, [0, 0, 65], (2, 3, 2, 195)),
        (195, [0, 0, 66], (3, 3, 1, 131)),
        // one that is larger than the maximum takes the place of all, and isn't kept
        (195, [0, 0, 131], (0, 0, 0, 0)),
        (195, [0, 131, 0], (3, 3, 1, 65)),
    ] {
        assert_eq!(rt; shown(&appended(alloc, maximum, &lengths)?), then);
    }
    Ok(())
}

#[test]
fn a_log_is_cut_from_the_front_and_emptied(rt: HostRuntime) -> Result<(), Fail> {
    let alloc = rt.alloc();
    for (enabled, maximum, then) in [
        (true, 195, (1, 3, 3, 195)),
        (true, 194, (2, 3, 2, 130)),
        (true, 64, (0, 0, 0, 0)),
        (false, 195, (0, 0, 0, 0)),
    ] {
        let mut log = appended(alloc, 195, &[0, 0, 0])?;
        log.set(enabled, maximum);
        assert_eq!(rt; shown(&log), then);
    }
    Ok(())
}

// Takes out the oldest entries until the others have at most so many bytes, and gives their numbers.
fn given_up(alloc: Global, log: &mut Log, bytes: u64) -> Result<Vec<u64>, Fail> {
    let mut gone = Vec::new(alloc);
    for _ in 0..log.len() {
        if log.used() > bytes {
            let entry = log.take_oldest().ok_or("no entry")?;
            gone.push(entry.number.value())?;
        }
    }
    Ok(gone)
}

// Each entry that is about to go can be seen before.
#[test]
fn what_goes_is_given_before(rt: HostRuntime) -> Result<(), Fail> {
    let alloc = rt.alloc();
    let large = message(alloc, 65)?;
    let mut log = appended(alloc, 195, &[0, 0, 0])?;
    let gone = given_up(alloc, &mut log, 65)?;
    assert_eq!(rt; gone.as_slice(), [1, 2].as_slice());
    log.append(MessageNo::of(4), &large, Moment::START)?;
    assert_eq!(rt; shown(&log), (3, 4, 2, 195));
    Ok(())
}

// A log of entries with these numbers and moments.
fn log_of(alloc: Global, entries: &[(u32, u32)]) -> Result<Log, Fail> {
    let small = message(alloc, 0)?;
    let mut log = appended(alloc, MEGABYTE, &[])?;
    log.reserve(entries.len())?;
    for (number, moment) in entries {
        let number = MessageNo::of(u64::from(*number));
        let moment = Moment::new(u64::from(*moment)).ok_or("no moment")?;
        log.append(number, &small, moment)?;
    }
    Ok(log)
}

// The first number from a moment on, and the place of a number.
fn found(log: &Log, moment: u64, number: u32) -> Option<(Option<u64>, Option<usize>)> {
    let from = log.from_time(Moment::new(moment)?).map(|n| n.value());
    Some((from, log.place_of(MessageNo::of(u64::from(number)))))
}

#[test]
fn entries_by_moment_and_by_number(rt: HostRuntime) -> Result<(), Fail> {
    let alloc = rt.alloc();
    let log = log_of(alloc, &[(7, 10), (8, 20), (9, 20), (10, 30)])?;
    assert_eq!(rt; found(&log, 0, 6), Some((Some(7), None)));
    assert_eq!(rt; found(&log, 20, 7), Some((Some(8), Some(0))));
    assert_eq!(rt; found(&log, 21, 10), Some((Some(10), Some(3))));
    assert_eq!(rt; found(&log, 31, 11), Some((None, None)));
    Ok(())
}

#[test]
fn entries_where_moments_and_numbers_fall(rt: HostRuntime) -> Result<(), Fail> {
    let alloc = rt.alloc();
    let log = log_of(alloc, &[(8, 10), (7, 30), (9, 20), (7, 40)])?;
    assert_eq!(rt; found(&log, 20, 7), Some((Some(7), Some(1))));
    assert_eq!(rt; found(&log, 31, 9), Some((Some(7), Some(2))));
    assert_eq!(rt; found(&log, 41, 10), Some((None, None)));
    Ok(())
}

// Starts a replay of the entries 2 and 3 where none runs.
fn start(rt: &impl Abort, replays: &mut Replays, endpoint: EndpointNo) {
    assert!(rt; replays.find(endpoint).is_none());
    assert!(rt; replays.reserve(1) == Ok(()));
    replays.start(Replay {
        number: ReplayNo::of(2),
        endpoint,
        next: MessageNo::of(2),
        last: MessageNo::of(3),
        made: 0,
    });
}

// The replay goes on to an entry, with one copy more.
fn go_on(rt: &impl Abort, replays: &mut Replays, endpoint: EndpointNo, next: MessageNo) {
    let replay = replays.find(endpoint).expect(rt, "a replay");
    assert!(rt; next.value() <= replay.last.value());
    assert!(rt; replay.next.value() < next.value());
    replays.go_on(endpoint, next, 1);
}

// Of messages of 500,065 bytes a log of one megabyte holds two.
#[test]
fn a_log_goes_on_while_a_replay_waits(rt: HostRuntime) -> Result<(), Fail> {
    let large = message(rt.alloc(), 500_000)?;
    let mut log = appended(rt.alloc(), MEGABYTE, &[])?;
    for number in 1..=5 {
        log.append(MessageNo::of(number), &large, Moment::START)?;
        if number == 3 {
            assert_eq!(rt; shown(&log), (2, 3, 2, 1_000_130));
            assert_eq!(rt; log.place_of(MessageNo::of(1)), None);
        }
    }
    assert_eq!(rt; shown(&log), (4, 5, 2, 1_000_130));
    assert_eq!(rt; log.place_of(MessageNo::of(3)), None);
    Ok(())
}

#[test]
fn a_replay_from_start_to_end(rt: HostRuntime) -> Result<(), Fail> {
    let queue = EndpointNo::of(1);
    let mut replays = Replays::new(rt.alloc());
    start(&rt, &mut replays, queue);
    start(&rt, &mut replays, EndpointNo::of(2));
    go_on(&rt, &mut replays, queue, MessageNo::of(3));
    let running = replays.find(queue).ok_or("no replay")?;
    assert_eq!(rt;
        (running.next.value(), running.last.value(), running.made),
        (3, 3, 1)
    );
    replays.end(queue);
    assert_eq!(rt; replays.find(queue), None);
    assert_eq!(rt; replays.len(), 1);
    Ok(())
}

// One megabyte holds 16,131 messages of 65 bytes. Each append costs the same, however many came before.
#[test]
fn a_million_appends(rt: HostRuntime) -> Result<(), Fail> {
    let small = message(rt.alloc(), 0)?;
    let mut log = appended(rt.alloc(), MEGABYTE, &[])?;
    for number in 1..=1_000_000 {
        log.append(MessageNo::of(number), &small, Moment::START)?;
    }
    assert_eq!(rt; shown(&log), (983_870, 1_000_000, 16_131, 1_048_515));
    Ok(())
}
