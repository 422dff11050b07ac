ghost use Rattle.std.specs.Prelude.{◌≡◌, ◌≤◌, ◌<◌, ◌+◌, ◌++◌, ◌∷◌, [], All, AllPairs, filter, length, OnOk, IfOk, map};
ghost use Rattle.std.specs.List.{cons_option, filter_map};
ghost use Rattle.std.specs.Option.{option_copied};
ghost use Rattle.sp_base.specs.Rows.{IsPlace};
ghost use Rattle.sp_endpoint.specs.Endpoints.{named, numbered, queue_named, replaced, without_endpoint};
ghost use Rattle.sp_endpoint.specs.Takers.{takers, takes_message};
ghost use Rattle.sp_message.specs.declared.message.Dest.TheVariants as dest;
ghost use Rattle.sp_selector.specs.Takes.{passes};

use crate::endpoint::Endpoint;
use crate::index::Index;
use crate::takers;
use sp_base::items::push_some;
use sp_base::name::Name;
use sp_base::number::EndpointNo;
use sp_base::rows::Rows;
use sp_base::topic::Topic;
use sp_message::message::{Dest, Message};
use sp_selector::selector::passes;
use std::alloc::{AllocError, Global};
use std::marker::Model;

/// The endpoints that are there, in order of number. Contracts see them as a list, with the room that
/// is reserved for more.
#[derive(Drop)]
pub struct Endpoints {
    rows: Rows<Endpoint>,
    index: Index,
}

impl Model for Endpoints {
    ghost use Rattle.std.specs.Prelude.{◌<◌, AllPairs};
    ghost use Rattle.sp_base.specs.Rows.{Roomy};
    ghost use Rattle.sp_endpoint.specs.Endpoint.{EndpointView};

    ghost Value = { Roomy EndpointView };

    ghost view = { λ e. e.rows };

    ghost use Rattle.sp_endpoint.specs.Index.{Indexes};

    ghost invariant = { λ e. (AllPairs (λ (a b : EndpointView). a.number < b.number) e.rows.items)
        × Indexes e.index e.rows.items };
}

impl Endpoints {
    /// No endpoints, and no room.
    pub fn new(alloc: Global) -> Endpoints
        ensures { result.items ≡ [] }
    {
        Endpoints {
            rows: Rows::new(alloc),
            index: Index::new(alloc),
        }
    }

    /// The endpoints in order of number.
    pub fn as_slice(&self) -> &[Endpoint]
        ensures value { result.now ≡ self.now.items }
        ensures order { AllPairs (λ a b. a.number < b.number) self.now.items }
    {
        self.rows.as_slice()
    }

    /// How many endpoints there are.
    pub fn len(&self) -> usize
        ensures { result ≡ length self.now.items }
    {
        self.rows.len()
    }

    /// Makes room, so that the next `more` endpoints are added without memory. Without memory the
    /// endpoints stay as they were.
    pub fn reserve(&mut self, more: usize) -> Result<(), AllocError>
        ensures items { self.new.items ≡ self.old.items }
        ensures room { OnOk result (more ≤ self.new.room) }
        ensures kept { self.old.room ≤ self.new.room }
    {
        self.rows.reserve(more)
    }

    /// Makes room for the subscriptions or the topic that an endpoint of this number doesn't have yet, so
    /// that it is added or put in the place of that one without memory. Without memory the endpoints
    /// stay as they were.
    pub fn reserve_for(&mut self, endpoint: &Endpoint) -> Result<(), AllocError>
        ensures { self.new ≡ self.old }
    {
        match self.place(endpoint.number) {
            Some(place) => {
                let from = self.rows.as_slice()[place].texts();
                self.index.reserve(from, endpoint.texts())
            }
            None => self.index.reserve(&[], endpoint.texts()),
        }
    }

    /// Adds an endpoint whose number is above all that are there. Room has to be reserved; it takes no
    /// memory.
    pub fn add(&mut self, endpoint: Endpoint)
        requires above { All (λ e. e.number < endpoint.number) self.old.items }
        requires room { 0 < self.old.room }
        ensures items { self.new.items ≡ self.old.items ++ endpoint ∷ [] }
        ensures room { self.old.room ≤ self.new.room + 1 }
    {
        self.index.put(&[], &endpoint);
        self.rows.add(endpoint);
    }

    /// Takes out the endpoint of a number, where it is there. It takes no memory.
    pub fn remove(&mut self, number: EndpointNo)
        ensures items { self.new.items ≡ without_endpoint number self.old.items }
        ensures room { self.old.room ≤ self.new.room }
    {
        let Some(place) = self.place(number) else {
            return;
        };
        self.index
            .remove(number, self.rows.as_slice()[place].texts());
        self.rows.retain(|e| e.number != number);
    }

    /// Puts an endpoint in the place of the one of its number, where that is there. It takes no memory.
    pub fn replace(&mut self, endpoint: Endpoint)
        ensures items { self.new.items ≡ replaced endpoint self.old.items }
        ensures room { self.new.room ≡ self.old.room }
    {
        if let Some(place) = self.place(endpoint.number) {
            self.index
                .put(self.rows.as_slice()[place].texts(), &endpoint);
            self.rows.replace(place, endpoint);
        }
    }

    /// The endpoint of a number.
    pub fn find_number(&self, number: EndpointNo) -> Option<&Endpoint>
        ensures { option_copied result ≡ numbered number self.now.items }
    {
        match self.place(number) {
            Some(place) => Some(&self.rows.as_slice()[place]),
            None => None,
        }
    }

    /// The endpoint of a name.
    pub fn find(&self, name: &Name) -> Option<&Endpoint>
        ensures { option_copied result ≡ named name.now self.now.items }
    {
        self.rows.as_slice().iter().find(|e| e.name.same(name))
    }

    /// The queue of a name.
    pub fn find_queue(&self, name: &Name) -> Option<&Endpoint>
        ensures { option_copied result ≡ queue_named name.now self.now.items }
    {
        self.rows
            .as_slice()
            .iter()
            .find(|e| e.is_queue() && e.name.same(name))
    }

    /// The endpoints that take a message, in the byte order of their names.
    pub fn takers(&self, alloc: Global, message: &Message) -> Result<Vec<&Endpoint>, AllocError>
        ensures { IfOk result (λ found. map (λ e. e.now) found.items ≡ takers self.now.items message.now) }
    {
        let mut found = self.among(alloc, message)?;
        takers::sort(&mut found)?;
        Ok(found)
    }

    /// The endpoints that take a message, in order of number.
    fn among(&self, alloc: Global, message: &Message) -> Result<Vec<&Endpoint>, AllocError>
        ensures { IfOk result (λ found. map (λ e. e.now) found.items ≡ filter (takes_message message.now) self.now.items) }
    {
        match &message.dest {
            Dest::Topic(topic) => self.looked_up(alloc, topic, message),
            Dest::Queue(_) => takers::among(alloc, self.rows.as_slice(), message),
        }
    }

    /// The same where the message goes to a topic: by the index, or where that is gone by each
    /// endpoint's texts.
    fn looked_up(
        &self,
        alloc: Global,
        topic: &Topic,
        message: &Message,
    ) -> Result<Vec<&Endpoint>, AllocError>
        requires { message.now.dest ≡ dest.Topic topic.now }
        ensures { IfOk result (λ found. map (λ e. e.now) found.items ≡ filter (takes_message message.now) self.now.items) }
    {
        let Some(tree) = self.index.tree() else {
            return takers::among(alloc, self.rows.as_slice(), message);
        };
        let mut numbers = Vec::new(alloc);
        tree.matching(topic, &mut numbers)?;
        self.passing(alloc, numbers.as_slice(), message)
    }

    /// The endpoints of some numbers whose selectors take a message.
    fn passing(
        &self,
        alloc: Global,
        numbers: &[EndpointNo],
        message: &Message,
    ) -> Result<Vec<&Endpoint>, AllocError>
        ensures { IfOk result (λ found. map (λ e. e.now) found.items
            ≡ filter (λ e. passes e.selector message.now.properties) (filter_map (λ n. numbered n self.now.items) numbers.now)) }
    {
        let mut found = Vec::new(alloc);
        for number in numbers {
            push_some(&mut found, self.find_passing(*number, message))?;
        }
        Ok(found)
    }

    fn find_passing(&self, number: EndpointNo, message: &Message) -> Option<&Endpoint>
        ensures { cons_option (option_copied result) []
            ≡ filter (λ e. passes e.selector message.now.properties) (cons_option (numbered number self.now.items) []) }
    {
        let found = self.find_number(number)?;
        if !passes(&found.selector, &message.properties) {
            return None;
        }
        Some(found)
    }

    /// The place of the endpoint of a number.
    fn place(&self, number: EndpointNo) -> Option<usize>
        ensures { IsPlace (λ e. e.number) self.now.items number result }
    {
        self.rows.place_of(number.value(), |e| e.number.value())
    }
}
