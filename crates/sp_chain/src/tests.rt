use crate::chains::Chains;
use crate::deadline::Deadline;
use crate::deadlines::Deadlines;
use crate::node::Key;
use crate::numbers::Numbers;
use std::alloc::Global;
use std::test::Fail;

/// A value in a chain, and where it stands.
#[derive(Clone, Copy)]
struct Row {
    key: Key,
    chain: usize,
    value: u64,
}

/// The values of a chain, from the first to the last.
fn listed(alloc: Global, chains: &Chains<u64>, chain: usize) -> Result<Vec<u64>, Fail> {
    let mut values = Vec::new(alloc);
    let mut at = chains.first(chain);
    for _step in 0..=chains.capacity() {
        let Some(key) = at else { break };
        values.push(chains.get(key).copied().unwrap_or(0))?;
        at = chains.after(key);
    }
    Ok(values)
}

/// The values of the rows of a chain, in their order.
fn expected(alloc: Global, rows: &[Row], chain: usize) -> Result<Vec<u64>, Fail> {
    let mut values = Vec::new(alloc);
    for row in rows {
        if row.chain == chain {
            values.push(row.value)?;
        }
    }
    Ok(values)
}

/// The next of numbers that look like chance.
fn drawn(last: u64) -> u64 {
    last.wrapping_mul(6_364_136_223_846_793_005)
        .wrapping_add(1_442_695_040_888_963_407)
}

#[test]
fn each_chain_keeps_its_order(rt: HostRuntime) -> Result<(), Fail> {
    let mut chains: Chains<u64> = Chains::new(rt.alloc());
    chains.reserve(3, 2)?;
    assert!(rt; chains.chains() >= 2 && chains.room() >= 3);
    let a = chains.append(0, 10);
    let b = chains.append(1, 20);
    let c = chains.append(0, 30);
    assert_eq!(rt; chains.first(0), Some(a));
    assert_eq!(rt; chains.after(a), Some(c));
    assert_eq!(rt; chains.before(c), Some(a));
    assert_eq!(rt; chains.last(0), Some(c));
    assert_eq!(rt; chains.replace(c, 31), Some(30));
    assert_eq!(rt; chains.remove(a), Some(10));
    assert_eq!(rt; chains.remove(a), None);
    assert!(rt; chains.room() > 0);
    assert_eq!(rt; chains.insert_before(a, 5), None);
    let d = chains.insert_before(c, 25);
    assert_eq!(rt; chains.first(0), d);
    assert_eq!(rt; chains.remove(d.unwrap_or(0)), Some(25));
    assert_eq!(rt; chains.first(0), Some(c));
    assert_eq!(rt; chains.after(c), None);
    assert_eq!(rt; chains.get(c).copied(), Some(31));
    assert_eq!(rt; chains.first(1), Some(b));
    assert_eq!(rt; chains.first(7), None);
    Ok(())
}

#[test]
fn a_random_walk_over_chains_agrees_with_plain_rows(rt: HostRuntime) -> Result<(), Fail> {
    let alloc = rt.alloc();
    let mut chains: Chains<u64> = Chains::new(alloc);
    let mut rows: Vec<Row> = Vec::new(alloc);
    let mut draw = 1u64;
    for step in 0..600u64 {
        draw = drawn(draw);
        chains.reserve(1, 3)?;
        let chain = ((draw >> 33) % 3) as usize;
        let place = ((draw >> 40) % 60) as usize;
        if place < rows.len() && draw >> 63 == 0 && chains.room() > 0 {
            let next = rows[place];
            if let Some(key) = chains.insert_before(next.key, step) {
                let chain = next.chain;
                let value = step;
                rows.insert(place, Row { key, chain, value })?;
            }
        } else if place < rows.len() {
            let row = rows.remove(place);
            assert_eq!(rt; chains.remove(row.key), Some(row.value));
            assert!(rt; chains.get(row.key).is_none());
        } else if chain < chains.chains() && chains.room() > 0 {
            let key = chains.append(chain, step);
            rows.push(Row {
                key,
                chain,
                value: step,
            })?;
        }
        let found = listed(alloc, &chains, chain)?;
        let wanted = expected(alloc, rows.as_slice(), chain)?;
        assert_eq!(rt; found.as_slice(), wanted.as_slice());
    }
    assert!(rt; rows.len() > 20);
    Ok(())
}

#[test]
fn numbers_keep_their_keys_until_they_are_taken_out(rt: HostRuntime) -> Result<(), Fail> {
    let mut numbers = Numbers::new(rt.alloc());
    let mut present = Vec::new(rt.alloc());
    present.resize(50, false)?;
    let mut draw = 5u64;
    for _step in 0..500 {
        draw = drawn(draw);
        let number = (draw >> 33) % 50;
        let place = number as usize;
        numbers.reserve(1)?;
        if place < present.len() && numbers.room() > 0 {
            if present[place] {
                assert_eq!(rt; numbers.get(number), Some(place + 7));
                assert_eq!(rt; numbers.remove(number), Some(place + 7));
            } else {
                assert_eq!(rt; numbers.remove(number), None);
                numbers.insert(number, place + 7);
            }
            present[place] = !present[place];
        }
        let wanted = if present.get(place).copied() == Some(true) {
            Some(place + 7)
        } else {
            None
        };
        assert_eq!(rt; numbers.get(number), wanted);
    }
    Ok(())
}

/// The first of deadlines in a plain list.
fn least(deadlines: &[Option<Deadline>]) -> Option<Deadline> {
    let mut first: Option<Deadline> = None;
    for deadline in deadlines {
        let Some(deadline) = deadline else { continue };
        match first {
            Some(other) if (other.moment, other.number) < (deadline.moment, deadline.number) => {}
            _ => first = Some(*deadline),
        }
    }
    first
}

#[test]
fn a_random_walk_over_deadlines_agrees_with_a_plain_list(rt: HostRuntime) -> Result<(), Fail> {
    let mut deadlines = Deadlines::new(rt.alloc());
    let mut plain: Vec<Option<Deadline>> = Vec::new(rt.alloc());
    assert_eq!(rt; deadlines.first(), None);
    let mut draw = 9u64;
    for step in 0..600u64 {
        draw = drawn(draw);
        let place = ((draw >> 33) % (1 + step / 20)) as usize;
        deadlines.reserve(place + 1)?;
        plain.resize(30, None)?;
        if place < deadlines.places() && place < plain.len() {
            if plain[place].is_some() {
                deadlines.remove(place);
                plain[place] = None;
            } else {
                let deadline = Deadline {
                    moment: (draw >> 50) % 4,
                    number: step,
                };
                deadlines.insert(place, deadline);
                plain[place] = Some(deadline);
            }
            assert_eq!(rt; deadlines.get(place), plain[place]);
        }
        assert_eq!(rt; deadlines.first(), least(plain.as_slice()));
    }
    assert!(rt; deadlines.places() >= 30);
    Ok(())
}
