ghost use Rattle.sp_access.specs.Flows.{is_bound};
ghost use Rattle.std.specs.Prelude.{◌≡◌};

use crate::flows::Flows;
use sp_base::bytes::Bytes;
use sp_base::name::Name;
use sp_base::number::{EndpointNo, FlowNo};
use sp_config::attr::Attr;
use sp_config::attributes::Attributes;
use sp_config::value::AttrValue;
use sp_message::message::{Dest, Message, TimeToLive};
use sp_message::payload::Payload;
use sp_message::property::Properties;
use sp_selector::selector::Selector;
use std::alloc::Global;
use std::test::Fail;

// Binds a flow of the caller of this name, with the selector that a text is, or with none.
fn bind(
    alloc: Global,
    flows: &mut Flows,
    endpoint: EndpointNo,
    text: &[u8],
    selector: Option<Selector>,
) -> Option<FlowNo> {
    let caller = Name::read(alloc, text).ok()?;
    if !caller.is_caller() || flows.next().value() >= 1 << 62 {
        return None;
    }
    flows.bind(endpoint, caller, selector).ok()
}

fn unbind(flows: &mut Flows, flow: FlowNo) -> bool {
    if !is_bound(flows, flow) {
        return false;
    }
    flows.unbind(flow);
    true
}

fn is_bound(flows: &Flows, flow: FlowNo) -> bool
    ensures { result ≡ is_bound flows.now.flows flow }
{
    flows
        .as_slice()
        .iter()
        .any(|f| f.number.value() == flow.value())
}

// The endpoint of a caller's flow, and whether it has a selector.
fn shown(alloc: Global, flows: &Flows, text: &[u8], flow: FlowNo) -> Option<(u64, bool)> {
    let caller = Name::read(alloc, text).ok()?;
    let found = flows.find(&caller, flow)?;
    Some((found.endpoint.value(), found.selector.is_some()))
}

#[test]
fn flows_come_and_go_in_order(rt: HostRuntime) -> Result<(), Fail> {
    let alloc = rt.alloc();
    let mut flows = Flows::new(alloc, FlowNo::of(7));
    let selector = Some(Selector::read(alloc, b"a = 1")?);
    let first = EndpointNo::of(1);
    assert_eq!(rt; flows.reserve(), Ok(()));
    assert_eq!(rt;
        bind(alloc, &mut flows, first, b"shop", selector),
        Some(FlowNo::of(7))
    );
    assert_eq!(rt;
        bind(alloc, &mut flows, first, b"bank", None),
        Some(FlowNo::of(8))
    );
    assert_eq!(rt;
        bind(alloc, &mut flows, EndpointNo::of(2), b"shop", None),
        Some(FlowNo::of(9))
    );
    assert_eq!(rt; flows.count(first), 2);
    assert_eq!(rt; shown(alloc, &flows, b"bank", FlowNo::of(7)), None);
    assert_eq!(rt;
        shown(alloc, &flows, b"shop", FlowNo::of(7)),
        Some((1, true))
    );
    assert_eq!(rt; unbind(&mut flows, FlowNo::of(8)), true);
    assert_eq!(rt; (flows.len(), flows.count(first)), (2, 1));
    flows.unbind_all();
    assert_eq!(rt; (flows.len(), flows.count(first)), (0, 0));
    assert_eq!(rt; flows.next(), FlowNo::of(10));
    Ok(())
}

fn hello(alloc: Global) -> Result<Message, Fail> {
    Ok(Message {
        dest: Dest::Queue(Name::read(alloc, b"q1")?),
        payload: Payload::from_bytes(Bytes::from_vec(Vec::new(alloc))),
        ttl: TimeToLive::of(0),
        eligible: false,
        properties: Properties::none(alloc),
    })
}

// Attributes that share copies as these two say: a word's place, and the number of partitions.
fn attributes(alloc: Global, access: u8, partitions: u64) -> Result<Attributes, Fail> {
    let mut attributes = Attributes::defaults(alloc, Name::read(alloc, b"shop")?)?;
    attributes.change(Attr::AccessType, AttrValue::Word(access))?;
    attributes.change(Attr::PartitionCount, AttrValue::Whole(partitions))?;
    Ok(attributes)
}

// Which of the flows 1, 3 and 4 may take a copy of a partition that this flow holds, if any; flow 2 is
// bound to another endpoint.
fn takers(
    alloc: Global,
    flows: &Flows,
    attributes: &Attributes,
    partition: u64,
    holder: Option<u64>,
) -> Result<[bool; 3], Fail> {
    let message = hello(alloc)?;
    let holder = match holder {
        None => None,
        Some(number) => Some(FlowNo::new(number).ok_or("no number")?),
    };
    let asked = [FlowNo::of(1), FlowNo::of(3), FlowNo::of(4)];
    Ok(asked.map(|flow| flows.may(flow, attributes, partition, holder, &message)))
}

fn three_flows(alloc: Global) -> Result<Flows, Fail> {
    let mut flows = Flows::new(alloc, FlowNo::of(1));
    for endpoint in [1, 2, 1, 1] {
        bind(alloc, &mut flows, EndpointNo::of(endpoint), b"shop", None).ok_or("unbound")?;
    }
    Ok(flows)
}

const OWNERS: [(u64, Option<u64>, [bool; 3]); 6] = [
    (0, None, [true, false, false]),
    (1, None, [false, true, false]),
    (2, None, [false, false, true]),
    (3, None, [true, false, false]),
    (3, Some(4), [false, false, true]),
    (0, Some(3), [false, true, false]),
];

#[test]
fn each_of_four_partitions_has_one_of_three_flows(rt: HostRuntime) -> Result<(), Fail> {
    let alloc = rt.alloc();
    let flows = three_flows(alloc)?;
    let shared = attributes(alloc, 1, 4)?;
    for (partition, holder, taking) in OWNERS {
        assert_eq!(rt;
            takers(alloc, &flows, &shared, partition, holder)?,
            taking,
            "{partition}"
        );
    }
    Ok(())
}

#[test]
fn an_exclusive_endpoint_has_its_first_flow_and_any_other_all(rt: HostRuntime) -> Result<(), Fail> {
    let alloc = rt.alloc();
    let mut flows = three_flows(alloc)?;
    let exclusive = attributes(alloc, 0, 4)?;
    let plain = attributes(alloc, 1, 0)?;
    assert_eq!(rt;
        takers(alloc, &flows, &exclusive, 3, None)?,
        [true, false, false]
    );
    assert_eq!(rt;
        takers(alloc, &flows, &plain, 3, Some(4))?,
        [true, true, true]
    );
    assert!(rt; unbind(&mut flows, FlowNo::of(1)));
    assert_eq!(rt;
        takers(alloc, &flows, &exclusive, 3, None)?,
        [false, true, false]
    );
    Ok(())
}
