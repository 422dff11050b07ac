use crate::bytes::Bytes;
use crate::items::Items;
use crate::moment::{LAST_MOMENT, Moment};
use crate::name::Name;
use crate::number::Ranged;
use crate::rows::Rows;
use crate::text::Str;
use crate::topic::{Topic, TopicError};
use std::test::Fail;

#[test]
fn which_bytes_are_names(rt: HostRuntime) -> Result<(), Fail> {
    let alloc = rt.alloc();
    let longest = vec![in alloc; b'x'; 200]?;
    let too_long = vec![in alloc; b'x'; 201]?;
    for (bytes, is_one) in [
        (&b"q1"[..], true),
        (&b"#DEAD_MSG_QUEUE"[..], true),
        (&b"a.b-c/d_e"[..], true),
        (longest.as_slice(), true),
        (too_long.as_slice(), false),
        (&b""[..], false),
        (&b"a b"[..], false),
        (&b"caf\xc3\xa9"[..], false),
    ] {
        assert_eq!(rt; Name::read(alloc, bytes).is_ok(), is_one);
    }
    Ok(())
}

#[test]
fn which_bytes_are_topics(rt: HostRuntime) -> Result<(), Fail> {
    let alloc = rt.alloc();
    let longest = vec![in alloc; b'x'; 250]?;
    let too_long = vec![in alloc; 0xff; 251]?;
    let deepest = vec![in alloc; b'/'; 127]?;
    let too_deep = vec![in alloc; b'/'; 128]?;
    for (bytes, fault) in [
        (&b"orders/new"[..], None),
        (&b"//a/"[..], None),
        (&b"caf\xc3\xa9/*/>"[..], None),
        (longest.as_slice(), None),
        (deepest.as_slice(), None),
        (&b""[..], Some(0)),
        (too_long.as_slice(), Some(250)),
        (&b"a/\xc3"[..], Some(2)),
        (too_deep.as_slice(), Some(127)),
    ] {
        let found = match Topic::read(alloc, bytes) {
            Ok(_) => None,
            Err(TopicError::Bad { at }) => Some(at),
            Err(TopicError::Memory) => Some(1000),
        };
        assert_eq!(rt; found, fault);
    }
    let topic = Topic::read(alloc, b"a/b")?;
    assert!(rt; topic.copy(alloc)?.same(&topic));
    Ok(())
}

#[test]
fn moments_end_where_json_numbers_do(rt: HostRuntime) {
    assert!(rt; Moment::new(LAST_MOMENT).is_some());
    assert!(rt; Moment::new(LAST_MOMENT + 1).is_none());
}

#[test]
fn rows_are_filtered_replaced_and_found(rt: HostRuntime) -> Result<(), Fail> {
    let alloc = rt.alloc();
    let mut rows = Rows::new(alloc);
    rows.reserve(4)?;
    for row in [2u64, 3, 5, 7] {
        if rows.room() > 0 {
            rows.add(row);
        }
    }
    rows.retain(|row| *row != 3);
    assert!(rt; rows.as_slice() == [2, 5, 7].as_slice());
    assert_eq!(rt; rows.place_of(5, |row| *row), Some(1));
    assert_eq!(rt; rows.place_of(3, |row| *row), None);
    assert!(rt; rows.room() >= 1);
    if rows.len() == 3 {
        rows.replace(1, 11);
    }
    for row in rows.as_mut_slice() {
        *row %= 10;
    }
    assert!(rt; rows.as_slice() == [2, 1, 7].as_slice());
    Ok(())
}

#[test]
fn numbers_have_ranges(rt: HostRuntime) {
    type Small = Ranged<(), 1, 64>;
    assert!(rt; Small::new(0).is_none());
    assert_eq!(rt; Small::new(1).map(|n| n.value()), Some(1));
    assert_eq!(rt; Small::new(64).map(|n| n.value()), Some(64));
    assert!(rt; Small::new(65).is_none());
}

#[test]
fn texts_and_lists_are_copied(rt: HostRuntime) -> Result<(), Fail> {
    let alloc = rt.alloc();
    let text = Str::copy_of(alloc, "hello")?;
    assert!(rt; text.copy(alloc)?.same(&text));
    let bytes = Bytes::copy_of(alloc, b"hello")?;
    assert!(rt; bytes.copy(alloc)?.same(&bytes));
    let name = Name::read(alloc, b"q1")?;
    assert!(rt; name.copy(alloc)?.same(&name));
    assert!(rt; name.text(alloc)?.as_str() == "q1");
    assert_eq!(rt; Items::one(alloc, 7u64)?.len(), 1);
    Ok(())
}
