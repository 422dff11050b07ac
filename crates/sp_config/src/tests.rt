use crate::access_type::AccessType;
use crate::attr::Attr;
use crate::attributes::Attributes;
use crate::discard::{DiscardBehavior, Why};
use crate::kind::EndpointKind;
use crate::range::Range;
use crate::setting::Setting;
use crate::settings::Settings;
use crate::value::AttrValue;
use sp_base::choice::{Choice, at_place, named};
use sp_base::moment::Moment;
use sp_base::name::Name;
use sp_base::refusal::Permission;
use std::alloc::Global;
use std::test::Fail;

fn name(alloc: Global, text: &str) -> Result<Name, Fail> {
    Ok(Name::read(alloc, text.as_bytes())?)
}

fn defaults(alloc: Global) -> Result<Attributes, Fail> {
    Ok(Attributes::defaults(alloc, name(alloc, "shop")?)?)
}

fn numbers(attributes: &Attributes) -> [u64; 8] {
    [
        attributes.max_bind_count(),
        attributes.max_delivered_unacked_msgs_per_flow(),
        attributes.max_msg_size(),
        attributes.max_msg_spool_usage(),
        attributes.quota_bytes(),
        attributes.max_redelivery_count(),
        attributes.max_ttl(),
        attributes.partition_count(),
    ]
}

fn flags(attributes: &Attributes) -> [bool; 3] {
    [
        attributes.egress_enabled(),
        attributes.ingress_enabled(),
        attributes.respect_ttl_enabled(),
    ]
}

fn choices(attributes: &Attributes) -> [&'static str; 3] {
    [
        attributes.access_type().word(),
        attributes.permission().word(),
        attributes.reject_msg_to_sender_on_discard_behavior().word(),
    ]
}

fn owner(attributes: &Attributes) -> &str {
    match attributes.owner() {
        Some(name) => name.as_str(),
        None => "",
    }
}

/// Whether the attribute has this name, the name leads back to it, and its values are in the range.
fn is_named(attr: Attr, name: &str, range: Range) -> bool {
    attr.name() == name && named(name) == Some(attr) && attr.range() == range
}

#[test]
fn fifteen_attributes_with_their_names_and_ranges(rt: HostRuntime) {
    for (attr, name, range) in [
        (Attr::AccessType, "accessType", Range::OneOf { words: 2 }),
        (Attr::DeadMsgQueue, "deadMsgQueue", Range::SomeName),
        (Attr::EgressEnabled, "egressEnabled", Range::TrueOrFalse),
        (Attr::IngressEnabled, "ingressEnabled", Range::TrueOrFalse),
        (Attr::MaxBindCount, "maxBindCount", between(0, 10_000)),
        (
            Attr::MaxDeliveredUnackedMsgsPerFlow,
            "maxDeliveredUnackedMsgsPerFlow",
            between(1, 10_000),
        ),
        (Attr::MaxMsgSize, "maxMsgSize", between(0, 30_000_000)),
        (
            Attr::MaxMsgSpoolUsage,
            "maxMsgSpoolUsage",
            between(1, 800_000),
        ),
        (
            Attr::MaxRedeliveryCount,
            "maxRedeliveryCount",
            between(0, 255),
        ),
        (Attr::MaxTtl, "maxTtl", between(0, 4_294_967_295)),
        (Attr::Owner, "owner", Range::NameOrEmpty),
        (Attr::PartitionCount, "partitionCount", between(0, 64)),
        (Attr::Permission, "permission", Range::OneOf { words: 5 }),
        (
            Attr::RejectMsgToSenderOnDiscardBehavior,
            "rejectMsgToSenderOnDiscardBehavior",
            Range::OneOf { words: 3 },
        ),
        (
            Attr::RespectTtlEnabled,
            "respectTtlEnabled",
            Range::TrueOrFalse,
        ),
    ] {
        assert!(rt; is_named(attr, name, range), "{name}");
    }
    for name in ["", "colour", "AccessType", "maxTtl "] {
        assert!(rt; named::<Attr>(name).is_none(), "{name}");
    }
}

fn between(least: u64, most: u64) -> Range {
    Range::Between { least, most }
}

#[test]
fn which_values_a_range_has(rt: HostRuntime) -> Result<(), Fail> {
    let name = name(rt.alloc(), "dead")?;
    let values = [
        AttrValue::Whole(7),
        AttrValue::Flag(false),
        AttrValue::Word(1),
        AttrValue::Text(None),
        AttrValue::Text(Some(name)),
    ];
    for (range, expected) in [
        (between(7, 7), [true, false, false, false, false]),
        (between(8, 9), [false; 5]),
        (between(0, 6), [false; 5]),
        (Range::TrueOrFalse, [false, true, false, false, false]),
        (
            Range::OneOf { words: 2 },
            [false, false, true, false, false],
        ),
        (Range::OneOf { words: 1 }, [false; 5]),
        (Range::SomeName, [false, false, false, false, true]),
        (Range::NameOrEmpty, [false, false, false, true, true]),
    ] {
        assert_eq!(rt; has(range, &values), expected);
    }
    Ok(())
}

fn has(range: Range, values: &[AttrValue; 5]) -> [bool; 5] {
    [
        range.has(&values[0]),
        range.has(&values[1]),
        range.has(&values[2]),
        range.has(&values[3]),
        range.has(&values[4]),
    ]
}

fn is_choice<C: Choice + PartialEq>(place: u8, word: &str) -> bool {
    match at_place::<C>(place as usize) {
        Some(choice) => choice.word() == word && named(word) == Some(choice),
        None => false,
    }
}

/// Whether the word stands for the choice at this place, and both lead back to it.
fn is_word(attr: Attr, place: u8, word: &str) -> bool {
    if attr.word_place(word) != Some(place) {
        return false;
    }
    match attr {
        Attr::AccessType => is_choice::<AccessType>(place, word),
        Attr::Permission => is_choice::<Permission>(place, word),
        _ => is_choice::<DiscardBehavior>(place, word),
    }
}

#[test]
fn words_lead_both_ways(rt: HostRuntime) {
    let behavior = Attr::RejectMsgToSenderOnDiscardBehavior;
    for (attr, place, word) in [
        (Attr::AccessType, 0, "exclusive"),
        (Attr::AccessType, 1, "non-exclusive"),
        (Attr::Permission, 0, "no-access"),
        (Attr::Permission, 1, "read-only"),
        (Attr::Permission, 2, "consume"),
        (Attr::Permission, 3, "modify-topic"),
        (Attr::Permission, 4, "delete"),
        (behavior, 0, "always"),
        (behavior, 1, "when-queue-enabled"),
        (behavior, 2, "never"),
    ] {
        assert!(rt; is_word(attr, place, word), "{word}");
    }
    for (attr, word) in [
        (Attr::AccessType, "Exclusive"),
        (Attr::Permission, "none"),
        (behavior, ""),
        (Attr::Owner, "delete"),
    ] {
        assert!(rt; attr.word_place(word).is_none(), "{word}");
    }
}

#[test]
fn two_kinds_of_endpoints(rt: HostRuntime) {
    let found = ["queue", "topic-endpoint", "topic"].map(|word| named(word));
    let [queue, topic_endpoint] = [EndpointKind::Queue, EndpointKind::TopicEndpoint];
    assert_eq!(rt; found, [Some(queue), Some(topic_endpoint), None]);
    assert_eq!(rt;
        [queue.word(), topic_endpoint.word()],
        ["queue", "topic-endpoint"]
    );
}

fn copied(alloc: Global) -> Result<Attributes, Fail> {
    Ok(defaults(alloc)?.copy(alloc)?)
}

#[test]
fn the_defaults_and_a_copy_of_them(rt: HostRuntime) -> Result<(), Fail> {
    let attributes = copied(rt.alloc())?;
    assert_eq!(rt;
        numbers(&attributes),
        [1_000, 1_000, 10_000_000, 5_000, 5_242_880_000, 0, 0, 0]
    );
    assert_eq!(rt; flags(&attributes), [true, true, false]);
    assert_eq!(rt;
        choices(&attributes),
        ["non-exclusive", "no-access", "always"]
    );
    assert_eq!(rt; attributes.dead_msg_queue().as_str(), "#DEAD_MSG_QUEUE");
    assert_eq!(rt; owner(&attributes), "shop");
    assert!(rt; attributes.rejects(Why::Ingress));
    Ok(())
}

/// The defaults, in which one attribute of each kind is changed.
fn changed(alloc: Global) -> Result<Attributes, Fail> {
    let mut attributes = defaults(alloc)?;
    let dead = name(alloc, "dead")?;
    attributes.change(Attr::DeadMsgQueue, AttrValue::Text(Some(dead)))?;
    attributes.change(Attr::MaxTtl, AttrValue::Whole(3))?;
    attributes.change(Attr::Owner, AttrValue::Text(None))?;
    attributes.change(Attr::Permission, AttrValue::Word(4))?;
    attributes.change(Attr::RespectTtlEnabled, AttrValue::Flag(true))?;
    Ok(attributes)
}

#[test]
fn a_change_sets_one_attribute_or_none(rt: HostRuntime) -> Result<(), Fail> {
    let mut attributes = changed(rt.alloc())?;
    let refused = attributes.change(Attr::MaxTtl, AttrValue::Whole(4_294_967_296));
    assert!(rt; refused.is_err());
    assert_eq!(rt;
        numbers(&attributes),
        [1_000, 1_000, 10_000_000, 5_000, 5_242_880_000, 0, 3, 0]
    );
    assert_eq!(rt; flags(&attributes), [true, true, true]);
    assert_eq!(rt; choices(&attributes), ["non-exclusive", "delete", "always"]);
    assert_eq!(rt; attributes.dead_msg_queue().as_str(), "dead");
    assert_eq!(rt; owner(&attributes), "");
    Ok(())
}

/// The settings of whole numbers, if they are settings.
fn settings(alloc: Global, rows: [(Attr, u64); 2]) -> Result<Option<Settings>, Fail> {
    let mut settings = Vec::new(alloc);
    for (attr, n) in rows {
        let value = AttrValue::Whole(n);
        settings.push(Setting { attr, value })?;
    }
    Ok(Settings::from_vec(settings))
}

#[test]
fn settings_rise_and_are_in_range(rt: HostRuntime) -> Result<(), Fail> {
    let alloc = rt.alloc();
    for (rows, expected) in [
        ([(Attr::MaxTtl, 3), (Attr::PartitionCount, 64)], true),
        ([(Attr::PartitionCount, 64), (Attr::MaxTtl, 3)], false),
        ([(Attr::MaxTtl, 3), (Attr::MaxTtl, 4)], false),
        ([(Attr::MaxTtl, 3), (Attr::PartitionCount, 65)], false),
    ] {
        assert_eq!(rt; settings(alloc, rows)?.is_some(), expected);
    }
    Ok(())
}

fn two_settings(alloc: Global) -> Result<Settings, Fail> {
    let rows = [(Attr::MaxTtl, 3), (Attr::PartitionCount, 1)];
    Ok(settings(alloc, rows)?.ok_or("no settings")?.copy(alloc)?)
}

/// The defaults, in which two attributes are set.
fn settled(alloc: Global) -> Result<Attributes, Fail> {
    let attributes = defaults(alloc)?;
    let settings = two_settings(alloc)?;
    Ok(attributes.changed(alloc, &settings)?)
}

#[test]
fn settings_change_theirs_and_leave_the_rest(rt: HostRuntime) -> Result<(), Fail> {
    let changed = settled(rt.alloc())?;
    assert_eq!(rt;
        numbers(&changed),
        [1_000, 1_000, 10_000_000, 5_000, 5_242_880_000, 0, 3, 1]
    );
    assert_eq!(rt; flags(&changed), [true, true, false]);
    assert_eq!(rt; owner(&changed), "shop");
    Ok(())
}

#[test]
fn a_topic_endpoint_has_no_partitions(rt: HostRuntime) -> Result<(), Fail> {
    let settings = two_settings(rt.alloc())?;
    assert_eq!(rt; settings.bad_attribute(EndpointKind::Queue), None);
    assert_eq!(rt;
        settings.bad_attribute(EndpointKind::TopicEndpoint),
        Some(Attr::PartitionCount)
    );
    Ok(())
}

/// When a copy expires that is made at the moment.
fn deadline(
    alloc: Global,
    respected: bool,
    ttl: u64,
    max_ttl: u64,
    moment: u64,
) -> Result<Option<u64>, Fail> {
    let mut attributes = defaults(alloc)?;
    attributes.change(Attr::RespectTtlEnabled, AttrValue::Flag(respected))?;
    attributes.change(Attr::MaxTtl, AttrValue::Whole(max_ttl))?;
    let moment = Moment::new(moment).ok_or("no moment")?;
    Ok(attributes.deadline(ttl.min(4_294_967_295_000), moment))
}

#[test]
fn the_lesser_positive_bound_is_the_deadline(rt: HostRuntime) -> Result<(), Fail> {
    let alloc = rt.alloc();
    for (respected, ttl, max_ttl, moment, expected) in [
        (true, 5_000, 3, 0, Some(3_000)),
        (true, 2_000, 3, 0, Some(2_000)),
        (true, 1_000, 0, 5_000, Some(6_000)),
        (true, 0, 3, 7, Some(3_007)),
        (true, 0, 0, 7, None),
        (false, 5_000, 3, 0, None),
        (
            true,
            4_294_967_295_000,
            4_294_967_295,
            9_007_199_254_740_991,
            Some(9_011_494_222_035_991),
        ),
    ] {
        assert_eq!(rt; deadline(alloc, respected, ttl, max_ttl, moment)?, expected);
    }
    Ok(())
}

fn rejected(behavior: DiscardBehavior) -> [bool; 3] {
    [
        behavior.rejects(Why::Ingress),
        behavior.rejects(Why::Size),
        behavior.rejects(Why::Quota),
    ]
}

#[test]
fn which_reasons_reject_a_publish(rt: HostRuntime) {
    for (behavior, reasons) in [
        (DiscardBehavior::Always, [true, true, true]),
        (DiscardBehavior::WhenQueueEnabled, [false, true, true]),
        (DiscardBehavior::Never, [false, false, false]),
    ] {
        assert_eq!(rt; rejected(behavior), reasons);
    }
}
