use crate::tree::Tree;
use sp_base::number::EndpointNo;
use sp_base::topic::Topic;
use sp_topic::subscription::Subscription;
use sp_topic::subscriptions::Subscriptions;
use std::alloc::Global;
use std::test::Fail;

/// The numbers of the endpoints that take a topic.
fn takers(alloc: Global, tree: &Tree, topic: &str) -> Result<Vec<EndpointNo>, Fail> {
    let mut into = Vec::new(alloc);
    tree.matching(&Topic::read(alloc, topic.as_bytes())?, &mut into)?;
    Ok(into)
}

#[test]
fn each_endpoint_stands_once_in_rising_number(rt: HostRuntime) -> Result<(), Fail> {
    let alloc = rt.alloc();
    let mut tree = Tree::new(alloc);
    for (endpoint, text) in [
        (EndpointNo::of(9), "a/*/c"),
        (EndpointNo::of(2), "a/b*/c"),
        (EndpointNo::of(3), "a/>"),
        (EndpointNo::of(4), "a/b/c/>"),
        (EndpointNo::of(5), ">"),
        (EndpointNo::of(9), "a/b/*"),
        (EndpointNo::of(1), ">"),
        (EndpointNo::of(1), "!a/>"),
        (EndpointNo::of(6), "!a/b/c"),
    ] {
        tree.insert(endpoint, &Subscription::read(alloc, text.as_bytes())?)?;
    }
    let mut into = Vec::from_slice(alloc, &[EndpointNo::of(7), EndpointNo::of(3)])?;
    tree.matching(&Topic::read(alloc, b"a/b/c")?, &mut into)?;
    let expected = [
        EndpointNo::of(2),
        EndpointNo::of(3),
        EndpointNo::of(5),
        EndpointNo::of(9),
    ];
    assert_eq!(rt; into.as_slice(), expected.as_slice());
    let rest = Subscription::read(alloc, b">")?;
    tree.reserve(&rest)?;
    tree.remove(EndpointNo::of(5), &rest);
    let left = takers(alloc, &tree, "x")?;
    assert_eq!(rt; left.as_slice(), [EndpointNo::of(1)].as_slice());
    Ok(())
}

#[test]
fn one_subscription_takes_what_it_matches(rt: HostRuntime) -> Result<(), Fail> {
    let alloc = rt.alloc();
    for (subscription, topic, matched) in [
        ("a/*/c", "a/b/c", true),
        ("a/b*/c", "a/b/c", true),
        ("a/>", "a/b/c", true),
        ("a/b/c/>", "a/b/c", false),
        (">", "a/b/c", true),
        ("a/>", "a", false),
        ("a/>", "a/", true),
        ("dog*", "dog", true),
        ("dog*", "hotdog", false),
        ("*", "a/b", false),
        ("*", "/", false),
        ("*/*", "/", true),
        ("//*", "//", true),
        ("a//b", "a//b", true),
        ("a//b", "a/b", false),
        ("a*b/c", "axb/c", false),
        ("a*b/c", "a*b/c", true),
        ("a/>/c", "a/b/c", false),
        ("a/>/c", "a/>/c", true),
        ("a/b>", "a/bc", false),
        ("stra\u{df}e/*", "stra\u{df}e/\u{e9}", true),
        ("stra*", "stra\u{df}e", true),
        ("a*", "a*", true),
        ("!a/*", "a/b", false),
    ] {
        let mut tree = Tree::new(alloc);
        let subscription = Subscription::read(alloc, subscription.as_bytes())?;
        tree.insert(EndpointNo::of(1), &subscription)?;
        let found = takers(alloc, &tree, topic)?;
        assert_eq!(rt; found.len(), if matched { 1 } else { 0 });
    }
    Ok(())
}

/// The next of a row of numbers that look drawn by lot.
fn draw(last: u64) -> u64 {
    (last % 2147483647 * 48271) % 2147483647
}

const TEXTS: [&str; 12] = [
    "a/b/c", "a/*/c", "a/b*/*", "a/>", ">", "*/b/>", "a/b", "!a/b/c", "!a/*", "!>", "!a/b/>", "*",
];

const TOPICS: [&str; 6] = ["a/b/c", "a/b", "a", "x/b/c", "a/bc/c", "a/"];

#[test]
fn what_is_put_in_and_taken_out_leaves_the_tree_as_a_list(rt: HostRuntime) -> Result<(), Fail> {
    let alloc = rt.alloc();
    let mut tree = Tree::new(alloc);
    let mut list = Subscriptions::new(alloc);
    let mut lot = 7;
    for _ in 0..200 {
        lot = draw(lot);
        let text = TEXTS[(lot % 12) as usize];
        let subscription = Subscription::read(alloc, text.as_bytes())?;
        if list.has(&subscription) {
            list.remove(&subscription);
            tree.remove(EndpointNo::of(3), &subscription);
        } else {
            tree.insert(EndpointNo::of(3), &subscription)?;
            list.add(subscription)?;
        }
        for topic in TOPICS {
            let expected = list.takes(&Topic::read(alloc, topic.as_bytes())?);
            assert_eq!(rt;
                takers(alloc, &tree, topic)?.len(),
                if expected { 1 } else { 0 }
            );
        }
    }
    Ok(())
}

#[test]
fn each_of_a_hundred_thousand_topics_has_its_one_endpoint(rt: HostRuntime) -> Result<(), Fail> {
    let alloc = rt.alloc();
    let mut tree = Tree::new(alloc);
    for endpoint in 1..1001 {
        for k in 1..101 {
            let text = format!(in alloc; "t/{endpoint}/{k}")?;
            let subscription = Subscription::read(alloc, text.as_bytes())?;
            tree.insert(EndpointNo::of(endpoint), &subscription)?;
        }
    }
    for endpoint in 1..1001 {
        for k in 1..101 {
            let topic = format!(in alloc; "t/{endpoint}/{k}")?;
            let found = takers(alloc, &tree, topic.as_str())?;
            assert_eq!(rt; found.as_slice(), [EndpointNo::of(endpoint)].as_slice());
        }
    }
    Ok(())
}
