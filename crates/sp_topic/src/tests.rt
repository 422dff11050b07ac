use crate::subscription::{Subscription, SubscriptionError};
use crate::subscriptions::{AddError, MOST_SUBSCRIPTIONS, Subscriptions};
use sp_base::topic::Topic;
use std::test::Fail;

#[test]
fn which_bytes_are_subscriptions(rt: HostRuntime) -> Result<(), Fail> {
    let alloc = rt.alloc();
    let mut longest = vec![in alloc; b'x'; 251]?;
    longest[0] = b'!';
    let mut too_long = vec![in alloc; b'x'; 252]?;
    too_long[0] = b'!';
    let plain_too_long = vec![in alloc; b'x'; 251]?;
    let deepest = vec![in alloc; b'/'; 127]?;
    let too_deep = vec![in alloc; b'/'; 128]?;
    let mut exception_too_deep = vec![in alloc; b'/'; 129]?;
    exception_too_deep[0] = b'!';
    for (bytes, fault) in [
        (&b"orders/>"[..], None),
        (&b"!orders/test/*"[..], None),
        (&b"!!a"[..], None),
        (&b"#share/group/a"[..], None),
        (&b"caf\xc3\xa9/*"[..], None),
        (longest.as_slice(), None),
        (deepest.as_slice(), None),
        (&b""[..], Some(0)),
        (&b"!"[..], Some(1)),
        (plain_too_long.as_slice(), Some(250)),
        (too_long.as_slice(), Some(251)),
        (&b"a/\xff"[..], Some(2)),
        (&b"!a/\xff"[..], Some(3)),
        (too_deep.as_slice(), Some(127)),
        (exception_too_deep.as_slice(), Some(128)),
    ] {
        let found = match Subscription::read(alloc, bytes) {
            Ok(_) => None,
            Err(SubscriptionError::Bad { at }) => Some(at),
            Err(SubscriptionError::Memory) => Some(1000),
        };
        assert_eq!(rt; found, fault);
    }
    Ok(())
}

#[test]
fn which_topics_a_subscription_matches(rt: HostRuntime) -> Result<(), Fail> {
    let alloc = rt.alloc();
    for (subscription, topic, matched) in [
        ("a/*/c", "a/b/c", true),
        ("a/b*/c", "a/b/c", true),
        ("a/>", "a/b/c", true),
        ("a/b/c/>", "a/b/c", false),
        (">", "a/b/c", true),
        ("a/>", "a", false),
        ("a/>", "a/", true),
        ("dog*", "dog", true),
        ("dog*", "hotdog", false),
        ("*", "a/b", false),
        ("*", "/", false),
        ("*/*", "/", true),
        ("//*", "//", true),
        ("a//b", "a//b", true),
        ("a//b", "a/b", false),
        ("a*b/c", "axb/c", false),
        ("a*b/c", "a*b/c", true),
        ("a/>/c", "a/b/c", false),
        ("a/>/c", "a/>/c", true),
        ("a/b>", "a/bc", false),
        ("stra\u{df}e/*", "stra\u{df}e/\u{e9}", true),
        ("stra*", "stra\u{df}e", true),
        ("!a/*", "a/b", true),
    ] {
        let subscription = Subscription::read(alloc, subscription.as_bytes())?;
        let topic = Topic::read(alloc, topic.as_bytes())?;
        assert_eq!(rt; subscription.matches(&topic), matched);
    }
    Ok(())
}

#[test]
fn exceptions_leave_out_in_either_order(rt: HostRuntime) -> Result<(), Fail> {
    let alloc = rt.alloc();
    for (first, second) in [
        ("orders/>", "!orders/test/*"),
        ("!orders/test/*", "orders/>"),
    ] {
        let mut subscriptions = Subscriptions::new(alloc);
        subscriptions.add(Subscription::read(alloc, first.as_bytes())?)?;
        subscriptions.reserve()?;
        subscriptions.add(Subscription::read(alloc, second.as_bytes())?)?;
        assert!(rt; subscriptions.takes(&Topic::read(alloc, b"orders/new")?));
        assert!(rt; !subscriptions.takes(&Topic::read(alloc, b"orders/test/1")?));
        assert!(rt; subscriptions.takes(&Topic::read(alloc, b"orders/test/1/x")?));
        assert!(rt; subscriptions.remove(&Subscription::read(alloc, b"!orders/test/*")?));
        assert!(rt; !subscriptions.remove(&Subscription::read(alloc, b"orders/test/*")?));
        assert!(rt; subscriptions.takes(&Topic::read(alloc, b"orders/test/1")?));
    }
    Ok(())
}

#[test]
fn an_endpoint_has_a_hundred_at_most(rt: HostRuntime) -> Result<(), Fail> {
    let alloc = rt.alloc();
    let mut subscriptions = Subscriptions::new(alloc);
    let mut text = [b'0'; 2];
    for tens in b'0'..=b'9' {
        for ones in b'0'..=b'9' {
            text[0] = tens;
            text[1] = ones;
            subscriptions.add(Subscription::read(alloc, &text)?)?;
        }
    }
    assert_eq!(rt; subscriptions.len(), MOST_SUBSCRIPTIONS);
    let again = subscriptions.add(Subscription::read(alloc, b"00")?);
    assert!(rt; matches!(again, Err(AddError::Exists)));
    let more = subscriptions.add(Subscription::read(alloc, b"100")?);
    assert!(rt; matches!(more, Err(AddError::Full)));
    Ok(())
}
