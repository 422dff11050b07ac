ghost use Rattle.std.specs.Prelude.{◌≡◌, ◌≤◌, ◌<◌, ◌++◌, ◌∷◌, ◌==◌, false, ℕ, List, Bool, None, Some, [], bytes_eq, if◌then◌else◌, filter, not, OnOk, OnErr};
ghost use Rattle.sp_tree.specs.Node.{AreTexts, HasSameEndpoints, KeepsRoom, child_at, endpoints_at, is_at};

use crate::children::Children;
use crate::ending::Ending;
use sp_base::number::EndpointNo;
use sp_base::rows::Rows;
use std::alloc::{AllocError, Global};

/// The endpoints of the plain subscriptions and of the exceptions that end at one place.
#[derive(Drop)]
pub struct Ends {
    pub plain: Rows<EndpointNo>,
    pub exceptions: Rows<EndpointNo>,
}

impl Ends {
    fn new(alloc: Global) -> Ends
        ensures plain { result.plain.items ≡ [] }
        ensures exceptions { result.exceptions.items ≡ [] }
    {
        Ends {
            plain: Rows::new(alloc),
            exceptions: Rows::new(alloc),
        }
    }
}

/// A level that subscriptions share which have the same levels before it.
#[derive(Drop)]
pub struct Node {
    /// The children whose level is the text.
    pub by_text: Children,
    /// The children whose level is the text and a `*`.
    pub by_prefix: Children,
    /// The endpoints of the subscriptions that end here.
    pub here: Ends,
    /// The endpoints of the subscriptions that end here in a `>` for one more level or several.
    pub below: Ends,
}

impl Node {
    /// A node without children and endpoints.
    pub fn new(alloc: Global) -> Node
        ensures children { (level : List ℕ) → child_at result level ≡ None }
        ensures texts { AreTexts result }
        ensures endpoints { (rest exception : Bool) → (endpoints_at result rest exception).items ≡ [] }
    {
        Node {
            by_text: Children::new(alloc),
            by_prefix: Children::new(alloc),
            here: Ends::new(alloc),
            below: Ends::new(alloc),
        }
    }

    /// The child that a subscription's level leads to.
    pub fn child(&self, level: &[u8]) -> Option<usize>
        ensures { result ≡ child_at self.now level.now }
    {
        match level.strip_suffix(b"*") {
            Some(prefix) => self.by_prefix.get(prefix),
            None => self.by_text.get(level),
        }
    }

    /// Names the child that a subscription's level leads to. Without memory the children stay as they
    /// were.
    pub fn set_child(&mut self, alloc: Global, level: &[u8], place: usize) -> Result<(), AllocError>
        ensures ok { OnOk result ((other : List ℕ) → child_at self.new other
            ≡ if bytes_eq level.now other then Some place else child_at self.old other) }
        ensures err { OnErr result ((other : List ℕ) → child_at self.new other ≡ child_at self.old other) }
        ensures texts { AreTexts self.old → AreTexts self.new }
        ensures here { self.new.here ≡ self.old.here }
        ensures below { self.new.below ≡ self.old.below }
    {
        match level.strip_suffix(b"*") {
            Some(prefix) => self.by_prefix.set(alloc, prefix, place),
            None => self.by_text.set(alloc, level, place),
        }
    }

    /// The endpoints of the subscriptions that end so.
    pub fn endpoints(&self, ending: Ending) -> &[EndpointNo]
        ensures { result.now ≡ (endpoints_at self.now ending.rest ending.exception).items }
    {
        match (ending.rest, ending.exception) {
            (false, false) => self.here.plain.as_slice(),
            (false, true) => self.here.exceptions.as_slice(),
            (true, false) => self.below.plain.as_slice(),
            (true, true) => self.below.exceptions.as_slice(),
        }
    }

    /// How many endpoints can be added there without memory.
    pub fn room(&self, ending: Ending) -> usize
        ensures { result ≡ (endpoints_at self.now ending.rest ending.exception).room }
    {
        match (ending.rest, ending.exception) {
            (false, false) => self.here.plain.room(),
            (false, true) => self.here.exceptions.room(),
            (true, false) => self.below.plain.room(),
            (true, true) => self.below.exceptions.room(),
        }
    }

    /// Makes room for one endpoint more. Without memory the endpoints stay as they were.
    pub fn reserve(&mut self, ending: Ending) -> Result<(), AllocError>
        ensures endpoints { HasSameEndpoints self.old self.new }
        ensures room { OnOk result (0 < (endpoints_at self.new ending.rest ending.exception).room) }
        ensures kept { KeepsRoom self.old self.new }
        ensures by_text { self.new.by_text ≡ self.old.by_text }
        ensures by_prefix { self.new.by_prefix ≡ self.old.by_prefix }
    {
        match (ending.rest, ending.exception) {
            (false, false) => self.here.plain.reserve(1),
            (false, true) => self.here.exceptions.reserve(1),
            (true, false) => self.below.plain.reserve(1),
            (true, true) => self.below.exceptions.reserve(1),
        }
    }

    /// Adds an endpoint where room is reserved, and takes no memory.
    pub fn add(&mut self, ending: Ending, endpoint: EndpointNo)
        requires { 0 < (endpoints_at self.old ending.rest ending.exception).room }
        ensures endpoints { (rest exception : Bool) → (endpoints_at self.new rest exception).items
            ≡ (endpoints_at self.old rest exception).items
            ++ (if is_at ending rest exception then endpoint ∷ [] else []) }
        ensures room { (rest exception : Bool) → is_at ending rest exception ≡ false
            → (endpoints_at self.old rest exception).room ≤ (endpoints_at self.new rest exception).room }
        ensures by_text { self.new.by_text ≡ self.old.by_text }
        ensures by_prefix { self.new.by_prefix ≡ self.old.by_prefix }
    {
        match (ending.rest, ending.exception) {
            (false, false) => self.here.plain.add(endpoint),
            (false, true) => self.here.exceptions.add(endpoint),
            (true, false) => self.below.plain.add(endpoint),
            (true, true) => self.below.exceptions.add(endpoint),
        }
    }

    /// Takes an endpoint out. It takes no memory.
    pub fn remove(&mut self, ending: Ending, endpoint: EndpointNo)
        ensures endpoints { (rest exception : Bool) → (endpoints_at self.new rest exception).items
            ≡ (if is_at ending rest exception
            then filter (λ n. not (n == endpoint)) (endpoints_at self.old rest exception).items
            else (endpoints_at self.old rest exception).items) }
        ensures room { KeepsRoom self.old self.new }
        ensures by_text { self.new.by_text ≡ self.old.by_text }
        ensures by_prefix { self.new.by_prefix ≡ self.old.by_prefix }
    {
        match (ending.rest, ending.exception) {
            (false, false) => without(&mut self.here.plain, endpoint),
            (false, true) => without(&mut self.here.exceptions, endpoint),
            (true, false) => without(&mut self.below.plain, endpoint),
            (true, true) => without(&mut self.below.exceptions, endpoint),
        }
    }
}

fn without(endpoints: &mut Rows<EndpointNo>, endpoint: EndpointNo)
    ensures items { endpoints.new.items ≡ filter (λ n. not (n == endpoint)) endpoints.old.items }
    ensures room { endpoints.old.room ≤ endpoints.new.room }
{
    endpoints.retain(|n| *n != endpoint);
}
