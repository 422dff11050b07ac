ghost use Rattle.std.specs.Prelude.{◌≡◌, ◌≤◌, ◌<◌, ◌+◌, ◌^◌, ◌++◌, ◌∷◌, [], Some, None, true, bytes_eq, if◌then◌else◌, length, IfOk, OnOk, OnErr};
ghost use Rattle.std.specs.Option.{option_copied};
ghost use Rattle.sp_access.specs.Flows.{flow_count, flow_numbered, flow_of, is_bound, without_flow};
ghost use Rattle.sp_base.specs.Name.{is_caller};
ghost use Rattle.sp_base.specs.Rows.{IsPlace};

use crate::flow::Flow;
use sp_base::failure::Memory;
use sp_base::name::Name;
use sp_base::number::{EndpointNo, FlowNo};
use sp_base::rows::Rows;
use sp_selector::selector::Selector;
use std::alloc::{AllocError, Global};
use std::marker::Model;

/// The bound flows, in the order in which they were bound, and the number of the next. Contracts see
/// also the room that is reserved for more.
#[derive(Drop)]
pub struct Flows {
    rows: Rows<Flow>,
    next: FlowNo,
}

impl Model for Flows {
    ghost use Rattle.sp_access.specs.Flows.{FlowsView};
    ghost use Rattle.sp_access.specs.InsideFlows.{AreNumbered, flows_view};

    ghost Value = { FlowsView };

    ghost view = { flows_view };

    ghost invariant = { AreNumbered };
}

impl Flows {
    /// No flows, and no room. The first is bound under this number.
    pub fn new(alloc: Global, next: FlowNo) -> Flows
        ensures flows { result.flows ≡ [] }
        ensures next { result.next ≡ next }
    {
        Flows {
            rows: Rows::new(alloc),
            next,
        }
    }

    /// The flows in the order in which they were bound.
    pub fn as_slice(&self) -> &[Flow]
        ensures { result.now ≡ self.now.flows }
    {
        self.rows.as_slice()
    }

    /// How many flows are bound.
    pub fn len(&self) -> usize
        ensures { result ≡ length self.now.flows }
    {
        self.rows.len()
    }

    /// The number under which the next flow is bound.
    pub fn next(&self) -> FlowNo
        ensures { result ≡ self.now.next }
    {
        self.next
    }

    /// Makes room, so that the next `bind` takes no memory; where the room is there, it takes none
    /// itself. The flows stay as they were.
    pub fn reserve(&mut self) -> Result<(), Memory>
        ensures flows { self.new.flows ≡ self.old.flows }
        ensures next { self.new.next ≡ self.old.next }
        ensures room { OnOk result (0 < self.new.room) }
        ensures memory { OnErr result (self.old.room ≡ 0) }
        ensures kept { self.old.room ≤ self.new.room }
    {
        match self.rows.reserve(1) {
            Ok(()) => Ok(()),
            Err(_) => Err(Memory),
        }
    }

    /// Makes room, so that the next `more` binds take no memory; where the room is there, it takes
    /// none itself. The flows stay as they were.
    pub fn reserve_more(&mut self, more: usize) -> Result<(), AllocError>
        ensures flows { self.new.flows ≡ self.old.flows }
        ensures next { self.new.next ≡ self.old.next }
        ensures room { OnOk result (more ≤ self.new.room) }
        ensures memory { OnErr result (self.old.room < more) }
        ensures kept { self.old.room ≤ self.new.room }
    {
        self.rows.reserve(more)
    }

    /// Binds a new flow of a caller to an endpoint, last in order and under the next number. With room
    /// reserved it takes no memory; without memory nothing has changed.
    pub fn bind(
        &mut self,
        e: EndpointNo,
        caller: Name,
        selector: Option<Selector>,
    ) -> Result<FlowNo, Memory>
        requires caller { is_caller caller ≡ true }
        requires number { self.old.next < 2 ^ 62 }
        ensures number { IfOk result (λ f. f ≡ self.old.next) }
        ensures bound { OnOk result (self.new.flows ≡ self.old.flows ++ record { number = self.old.next; endpoint = e; caller = caller; selector = selector } ∷ []) }
        ensures next { OnOk result (self.new.next ≡ self.old.next + 1) }
        ensures memory { OnErr result (self.old.room ≡ 0) }
        ensures unbound { OnErr result (self.new.flows ≡ self.old.flows) }
        ensures unspent { OnErr result (self.new.next ≡ self.old.next) }
        ensures room { self.old.room ≤ self.new.room + 1 }
    {
        self.reserve()?;
        Ok(self.add(e, caller, selector))
    }

    fn add(&mut self, endpoint: EndpointNo, caller: Name, selector: Option<Selector>) -> FlowNo
        requires caller { is_caller caller ≡ true }
        requires number { self.old.next < 2 ^ 62 }
        requires room { 0 < self.old.room }
        ensures number { result ≡ self.old.next }
        ensures bound { self.new.flows ≡ self.old.flows ++ record { number = self.old.next; endpoint = endpoint; caller = caller; selector = selector } ∷ [] }
        ensures next { self.new.next ≡ self.old.next + 1 }
        ensures room { self.old.room ≤ self.new.room + 1 }
    {
        let number = self.next;
        self.rows.add(Flow {
            number,
            endpoint,
            caller,
            selector,
        });
        self.next = FlowNo::of(number.value() + 1);
        number
    }

    /// Takes out a flow that is bound. It takes no memory.
    pub fn unbind(&mut self, f: FlowNo)
        requires bound { is_bound self.old.flows f ≡ true }
        ensures flows { self.new.flows ≡ without_flow f self.old.flows }
        ensures next { self.new.next ≡ self.old.next }
        ensures room { self.old.room ≤ self.new.room }
    {
        self.rows.retain(|row| row.number != f);
    }

    /// Takes out all flows. It takes no memory, and the next number stays.
    pub fn unbind_all(&mut self)
        ensures flows { self.new.flows ≡ [] }
        ensures next { self.new.next ≡ self.old.next }
        ensures room { self.old.room ≤ self.new.room }
    {
        self.rows.retain(|_| false);
    }

    /// The flow of a number, where it is the caller's.
    pub fn find(&self, caller: &Name, number: FlowNo) -> Option<&Flow>
        ensures { option_copied result ≡ flow_of self.now.flows caller.now number }
    {
        match self.place(number) {
            Some(place) => own(&self.rows.as_slice()[place], caller),
            None => None,
        }
    }

    /// How many flows are bound to an endpoint.
    pub fn count(&self, endpoint: EndpointNo) -> usize
        ensures { result ≡ flow_count self.now.flows endpoint }
    {
        self.rows
            .as_slice()
            .iter()
            .filter(|f| f.endpoint == endpoint)
            .count()
    }

    /// The flow of a number.
    pub fn find_number(&self, number: FlowNo) -> Option<&Flow>
        ensures { option_copied result ≡ flow_numbered self.now.flows number }
    {
        match self.place(number) {
            Some(place) => Some(&self.rows.as_slice()[place]),
            None => None,
        }
    }

    /// The place of the flow of a number.
    fn place(&self, number: FlowNo) -> Option<usize>
        ensures { IsPlace (λ f. f.number) self.now.flows number result }
    {
        self.rows.place_of(number.value(), |f| f.number.value())
    }
}

/// The flow, where it is the caller's.
fn own<'a>(flow: &'a Flow, caller: &Name) -> Option<&'a Flow>
    ensures { option_copied result ≡ (if bytes_eq flow.now.caller caller.now then Some flow.now else None) }
{
    if flow.caller.same(caller) {
        Some(flow)
    } else {
        None
    }
}
