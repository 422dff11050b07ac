ghost use Rattle.std.specs.Prelude.{◌≡◌};
ghost use Rattle.sp_base.specs.Refusal.{number_of, rule_name};

pub mod shown;
#[cfg(test)]
mod tests;
mod words;

use crate::text::Str;

/// What a caller who isn't the owner may do with an endpoint, in rising order.
#[derive(Clone, Copy, Debug, PartialEq, Eq)]
pub enum Permission {
    NoAccess,
    ReadOnly,
    Consume,
    ModifyTopic,
    Delete,
}

/// What a number is drawn for.
#[derive(Clone, Copy, Debug, PartialEq, Eq)]
pub enum Kind {
    Endpoint,
    Message,
    Copy,
    Flow,
    Replay,
    Unit,
}

/// Why a request is refused, with the values that are shown. A refused request changes nothing.
/// Where several rules are broken, the one of the least number is told.
#[derive(Debug, Drop)]
pub enum Refusal {
    /// 1: the bytes are no request; `at` says what is wrong with them.
    BadRequest {
        at: u64,
    },
    /// 2: the delivery mode is direct.
    DirectMode,
    /// 3: the topic isn't one; `at` is the offset in bytes.
    BadTopic {
        at: u64,
    },
    /// 4: the subscription isn't one; `at` is the offset in bytes.
    BadSubscription {
        at: u64,
    },
    /// 5: the selector isn't one; `at` is the offset in bytes.
    BadSelector {
        at: u64,
    },
    /// 6: the first attribute, by name, that is unknown or out of its range.
    BadAttribute {
        name: Str,
    },
    /// 7: no such endpoint is there.
    UnknownEndpoint {
        name: Str,
    },
    /// 8: a queue or topic endpoint has the name.
    EndpointExists {
        name: Str,
    },
    /// 9: as many endpoints are there as may be.
    EndpointLimit {
        max: u64,
    },
    /// 10: the caller lacks the permission that the request needs.
    NoAccess {
        need: Permission,
        has: Permission,
    },
    /// 11: flows or spooled copies of the endpoint are in the way.
    InUse {
        flows: u64,
        copies: u64,
    },
    /// 12: the endpoint has the subscription.
    SubscriptionExists,
    /// 13: the endpoint has as many subscriptions as it may.
    SubscriptionLimit {
        max: u64,
    },
    /// 14: the endpoint doesn't have the subscription.
    UnknownSubscription,
    /// 15: the endpoint takes no messages now.
    IngressDisabled {
        name: Str,
    },
    /// 16: the endpoint gives no messages now.
    EgressDisabled {
        name: Str,
    },
    /// 17: the message is larger than may be, in bytes.
    MessageTooLarge {
        size: u64,
        max: u64,
    },
    /// 18: the copy doesn't fit the endpoint's quota, in bytes.
    QuotaExceeded {
        name: Str,
        used: u64,
        size: u64,
        max: u64,
    },
    /// 19: the copies don't fit the quota of all endpoints together, in bytes.
    VpnQuotaExceeded {
        used: u64,
        size: u64,
        max: u64,
    },
    /// 20: as many flows are bound as may be.
    BindLimit {
        bound: u64,
        max: u64,
    },
    /// 21: the flow isn't bound, or isn't the caller's.
    UnknownFlow {
        flow: u64,
    },
    /// 22: the flow doesn't hold the copy.
    NotHeld {
        copy: u64,
    },
    /// 23: a replay runs on the endpoint.
    ReplayActive {
        replay: u64,
    },
    /// 24: no replay runs on the endpoint.
    NoReplay,
    /// 25: the replay log is off.
    LogDisabled,
    /// 26: the message isn't in the replay log, which has those between first and last.
    NotInLog {
        first: u64,
        last: u64,
    },
    /// 27: the numbers of the kind are drawn.
    IdsSpent {
        kind: Kind,
    },
}

/// A rule that a request may break.
#[derive(Clone, Copy, Debug)]
pub struct Rule {
    /// Its place, from 1 to 27, in the order in which refusals are told.
    pub number: u8,
    pub name: &'static str,
}

impl Refusal {
    /// The rule that the request breaks.
    pub fn rule(&self) -> Rule
        ensures number { result.number ≡ number_of self.now }
        ensures name { result.name.now ≡ rule_name self.now }
    {
        match self {
            Refusal::BadRequest { .. } => numbered(1, "BadRequest"),
            Refusal::DirectMode => numbered(2, "DirectMode"),
            Refusal::BadTopic { .. } => numbered(3, "BadTopic"),
            Refusal::BadSubscription { .. } => numbered(4, "BadSubscription"),
            Refusal::BadSelector { .. } => numbered(5, "BadSelector"),
            Refusal::BadAttribute { .. } => numbered(6, "BadAttribute"),
            Refusal::UnknownEndpoint { .. } => numbered(7, "UnknownEndpoint"),
            Refusal::EndpointExists { .. } => numbered(8, "EndpointExists"),
            Refusal::EndpointLimit { .. } => numbered(9, "EndpointLimit"),
            Refusal::NoAccess { .. } => numbered(10, "NoAccess"),
            Refusal::InUse { .. } => numbered(11, "InUse"),
            Refusal::SubscriptionExists => numbered(12, "SubscriptionExists"),
            Refusal::SubscriptionLimit { .. } => numbered(13, "SubscriptionLimit"),
            Refusal::UnknownSubscription => numbered(14, "UnknownSubscription"),
            Refusal::IngressDisabled { .. } => numbered(15, "IngressDisabled"),
            Refusal::EgressDisabled { .. } => numbered(16, "EgressDisabled"),
            Refusal::MessageTooLarge { .. } => numbered(17, "MessageTooLarge"),
            Refusal::QuotaExceeded { .. } => numbered(18, "QuotaExceeded"),
            Refusal::VpnQuotaExceeded { .. } => numbered(19, "VpnQuotaExceeded"),
            Refusal::BindLimit { .. } => numbered(20, "BindLimit"),
            Refusal::UnknownFlow { .. } => numbered(21, "UnknownFlow"),
            Refusal::NotHeld { .. } => numbered(22, "NotHeld"),
            Refusal::ReplayActive { .. } => numbered(23, "ReplayActive"),
            Refusal::NoReplay => numbered(24, "NoReplay"),
            Refusal::LogDisabled => numbered(25, "LogDisabled"),
            Refusal::NotInLog { .. } => numbered(26, "NotInLog"),
            Refusal::IdsSpent { .. } => numbered(27, "IdsSpent"),
        }
    }

    /// The number of the rule, from 1 to 27.
    pub fn number(&self) -> u8
        ensures { result ≡ number_of self.now }
    {
        self.rule().number
    }
}

fn numbered(number: u8, name: &'static str) -> Rule
    ensures number { result.number ≡ number }
    ensures name { result.name.now ≡ name.now }
{
    Rule { number, name }
}
