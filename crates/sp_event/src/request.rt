use sp_base::name::Name;
use sp_base::number::{CopyNo, FlowNo, Ranged};
use sp_config::kind::EndpointKind;
use sp_config::settings::Settings;
use sp_message::message::Message;
use sp_selector::selector::Selector;
use sp_topic::subscription::Subscription;

/// What a number counts.
#[derive(Clone, Copy, Debug, PartialEq, Eq)]
pub struct OfPulls;

/// For how many copies at most a pull asks, from 1 to 64.
pub type PullCount = Ranged<OfPulls, 1, 64>;

/// How a flow settles a copy that it holds.
#[derive(Clone, Copy, Debug, PartialEq, Eq)]
pub enum Outcome {
    /// The work is done: the copy is closed, and nobody gets it again.
    Accepted,
    /// The work failed: the copy is given back, and ends where it has had its last attempt.
    Failed,
    /// The copy is no good: it ends, whatever attempts it has left.
    Rejected,
}

/// A request that may change the ledger.
#[derive(Drop)]
pub enum Event {
    /// An endpoint of this name and kind comes. The caller owns it, and its attributes are the
    /// defaults but for those that are given.
    Provision {
        endpoint: Name,
        kind: EndpointKind,
        attributes: Settings,
    },
    /// An endpoint goes. No flow may be bound to it, and no copy may be spooled there.
    Deprovision {
        endpoint: Name,
    },
    /// Some attributes of an endpoint get other values.
    Change {
        endpoint: Name,
        attributes: Settings,
    },
    /// A queue gets a subscription that it doesn't have.
    Subscribe {
        endpoint: Name,
        subscription: Subscription,
    },
    /// A queue loses a subscription that it has.
    Unsubscribe {
        endpoint: Name,
        subscription: Subscription,
    },
    /// A message is published; a copy is made for each endpoint that takes it.
    Publish {
        message: Message,
    },
    /// A new flow of the caller is bound to an endpoint. A topic endpoint is bound with the topic
    /// that it takes messages on from now on, a queue without one. A selector is the flow's at a
    /// queue, and the endpoint's own at a topic endpoint.
    Bind {
        endpoint: Name,
        selector: Option<Selector>,
        topic: Option<Subscription>,
    },
    /// A flow of the caller gives back what it holds, and goes.
    Unbind {
        flow: FlowNo,
    },
    /// A flow of the caller is handed out at most `count` copies.
    Pull {
        flow: FlowNo,
        count: PullCount,
    },
    /// A flow of the caller settles a copy that it holds.
    Settle {
        flow: FlowNo,
        copy: CopyNo,
        outcome: Outcome,
    },
    /// The copies end that no flow holds and whose deadline has come: at most 1,024, the earliest
    /// first.
    Tick,
    /// Copies of an endpoint are deleted that no flow holds: the one of this number if it is among
    /// them, or without a number the first 1,024.
    DeleteCopies {
        endpoint: Name,
        copy: Option<CopyNo>,
    },
    /// Every flow gives back what it holds, and goes: the flows of a spool don't outlive it. It is
    /// never refused.
    Restart,
}

/// A request that only looks.
#[derive(Debug, Drop)]
pub enum Query {
    /// How many copies an endpoint has had, and what became of them; over all endpoints that
    /// ever were, where none is named.
    Tally { endpoint: Option<Name> },
    /// What has become of a copy.
    Copy { copy: CopyNo },
    /// Which flows are bound to an endpoint.
    Flows { endpoint: Name },
}

/// A request: to do something, or to look.
#[derive(Drop)]
pub enum Ask {
    Do(Event),
    Look(Query),
}
