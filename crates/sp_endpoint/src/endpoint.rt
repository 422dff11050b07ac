ghost use Rattle.std.specs.Prelude.{◌≡◌, ◌<◌, ◌++◌, ◌∷◌, [], bytes_eq, false, filter, length, not, IfOk, OnOk};
ghost use Rattle.sp_config.specs.Attributes.{defaults};
ghost use Rattle.sp_config.specs.Settings.{with_settings};
ghost use Rattle.sp_endpoint.specs.Endpoint.{new_endpoint};
ghost use Rattle.sp_endpoint.specs.Endpoints.{is_queue};
ghost use Rattle.sp_endpoint.specs.Index.{is_plain, texts};
ghost use Rattle.sp_topic.specs.Subscriptions.{has_text};

use sp_base::name::Name;
use sp_base::number::EndpointNo;
use sp_config::attributes::Attributes;
use sp_config::kind::EndpointKind;
use sp_config::settings::Settings;
use sp_selector::selector::{self, Selector};
use sp_topic::subscription::Subscription;
use sp_topic::subscriptions::{AddError, Subscriptions};
use std::alloc::{AllocError, Global};
use std::marker::Model;

/// An endpoint that is there. A topic endpoint has no subscriptions, and has a topic from its first
/// bind on, and a selector where it was bound with one; a queue has neither.
#[derive(Drop)]
pub struct Endpoint {
    pub number: EndpointNo,
    pub name: Name,
    pub kind: EndpointKind,
    pub attributes: Attributes,
    pub subscriptions: Subscriptions,
    pub topic: Option<Subscription>,
    pub selector: Option<Selector>,
}

impl Model for Endpoint {
    ghost use Rattle.sp_endpoint.specs.Endpoint.{EndpointView};
    ghost use Rattle.sp_endpoint.specs.Inside.{view_of};

    ghost Value = { EndpointView };

    ghost view = { view_of };
}

impl Endpoint {
    /// An endpoint that this caller makes: with the caller's defaults but for these values, and without
    /// subscriptions, topic and selector.
    pub fn made(
        alloc: Global,
        number: EndpointNo,
        caller: &Name,
        name: &Name,
        kind: EndpointKind,
        settings: &Settings,
    ) -> Result<Endpoint, AllocError>
        ensures { IfOk result (λ e. e ≡ new_endpoint number caller.now name.now kind settings.now) }
    {
        Ok(Endpoint {
            number,
            name: name.copy(alloc)?,
            kind,
            attributes: defaults(alloc, caller)?.changed(alloc, settings)?,
            subscriptions: Subscriptions::new(alloc),
            topic: None,
            selector: None,
        })
    }

    /// A second endpoint, whose attributes have these values.
    pub fn with_settings(&self, alloc: Global, settings: &Settings) -> Result<Endpoint, AllocError>
        ensures { IfOk result (λ e. e ≡ record self.now { attributes = with_settings settings.now self.now.attributes }) }
    {
        Ok(Endpoint {
            number: self.number,
            name: self.name.copy(alloc)?,
            kind: self.kind,
            attributes: self.attributes.changed(alloc, settings)?,
            subscriptions: self.subscriptions.copy(alloc)?,
            topic: copy_of(alloc, &self.topic)?,
            selector: selector::copy_of(alloc, &self.selector)?,
        })
    }

    /// A second endpoint with one more subscription, which stands last.
    pub fn with_subscription(
        &self,
        alloc: Global,
        subscription: &Subscription,
    ) -> Result<Endpoint, AllocError>
        requires other { has_text self.now.subscriptions subscription.now ≡ false }
        requires room { length self.now.subscriptions < 100 }
        ensures { IfOk result (λ e. e ≡ record self.now { subscriptions = self.now.subscriptions ++ subscription.now ∷ [] }) }
    {
        let mut subscriptions = self.subscriptions.copy(alloc)?;
        add(&mut subscriptions, subscription.copy(alloc)?)?;
        self.with_subscriptions(alloc, subscriptions)
    }

    /// A second endpoint without a subscription.
    pub fn without_subscription(
        &self,
        alloc: Global,
        subscription: &Subscription,
    ) -> Result<Endpoint, AllocError>
        ensures { IfOk result (λ e. e ≡ record self.now { subscriptions = filter (λ s. not (bytes_eq s subscription.now)) self.now.subscriptions }) }
    {
        let mut subscriptions = self.subscriptions.copy(alloc)?;
        subscriptions.remove(subscription);
        self.with_subscriptions(alloc, subscriptions)
    }

    fn with_subscriptions(
        &self,
        alloc: Global,
        subscriptions: Subscriptions,
    ) -> Result<Endpoint, AllocError>
        ensures { IfOk result (λ e. e ≡ record self.now { subscriptions = subscriptions.items }) }
    {
        Ok(Endpoint {
            number: self.number,
            name: self.name.copy(alloc)?,
            kind: self.kind,
            attributes: self.attributes.copy(alloc)?,
            subscriptions,
            topic: copy_of(alloc, &self.topic)?,
            selector: selector::copy_of(alloc, &self.selector)?,
        })
    }

    /// A second endpoint with this topic and selector, or with none.
    pub fn with_topic(
        &self,
        alloc: Global,
        topic: &Option<Subscription>,
        selector: Option<Selector>,
    ) -> Result<Endpoint, AllocError>
        ensures { IfOk result (λ e. e ≡ record self.now { topic = topic.now; selector = selector }) }
    {
        Ok(Endpoint {
            number: self.number,
            name: self.name.copy(alloc)?,
            kind: self.kind,
            attributes: self.attributes.copy(alloc)?,
            subscriptions: self.subscriptions.copy(alloc)?,
            topic: copy_of(alloc, topic)?,
            selector,
        })
    }

    /// The texts by which it takes topics: a queue's subscriptions, or a topic endpoint's topic.
    pub fn texts(&self) -> &[Subscription]
        ensures { result.now ≡ texts self.now.kind self.now }
    {
        match self.kind {
            EndpointKind::Queue => self.subscriptions.as_slice(),
            EndpointKind::TopicEndpoint => self.topic.as_slice(),
        }
    }

    /// Whether it takes what its texts take: an exception as the topic of a topic endpoint takes what it
    /// matches all the same.
    pub fn is_plain(&self) -> bool
        ensures { result ≡ is_plain self.now.kind self.now }
    {
        match (self.kind, &self.topic) {
            (EndpointKind::TopicEndpoint, Some(topic)) => !topic.is_exception(),
            _ => true,
        }
    }

    /// Whether it is a queue.
    pub fn is_queue(&self) -> bool
        ensures { result ≡ is_queue self.now.kind }
    {
        match self.kind {
            EndpointKind::Queue => true,
            EndpointKind::TopicEndpoint => false,
        }
    }
}

/// The attributes of an endpoint that this caller makes.
fn defaults(alloc: Global, caller: &Name) -> Result<Attributes, AllocError>
    ensures { IfOk result (λ a. a ≡ defaults caller.now) }
{
    match Attributes::defaults(alloc, caller.copy(alloc)?) {
        Ok(attributes) => Ok(attributes),
        Err(_) => Err(AllocError),
    }
}

/// A second topic with the same bytes, where there is one.
fn copy_of(alloc: Global, topic: &Option<Subscription>) -> Result<Option<Subscription>, AllocError>
    ensures { IfOk result (λ t. t ≡ topic.now) }
{
    match topic {
        None => Ok(None),
        Some(topic) => Ok(Some(topic.copy(alloc)?)),
    }
}

/// Adds a subscription that isn't there, where there is a place for one more.
fn add(subscriptions: &mut Subscriptions, subscription: Subscription) -> Result<(), AllocError>
    requires other { has_text subscriptions.old.items subscription ≡ false }
    requires room { length subscriptions.old.items < 100 }
    ensures { OnOk result (subscriptions.new.items ≡ subscriptions.old.items ++ subscription ∷ []) }
{
    match subscriptions.add(subscription) {
        Ok(()) => Ok(()),
        Err(AddError::Memory) => Err(AllocError),
        Err(AddError::Exists | AddError::Full) => unreachable!(),
    }
}
