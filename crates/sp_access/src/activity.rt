//! Which flow of an endpoint is handed out a copy.
ghost use Rattle.std.specs.List.{slice_get};
ghost use Rattle.std.specs.Option.{option_copied};
ghost use Rattle.std.specs.Prelude.{◌≡◌, None, option_map};
ghost use Rattle.sp_access.specs.Activity.{flows_of, has_turn, is_active, is_owner, may_take, owner};

use crate::flow::Flow;
use crate::flows::Flows;
use sp_base::number::{EndpointNo, FlowNo};
use sp_config::attributes::Attributes;
use sp_message::message::Message;
use sp_selector::selector::passes;

impl Flows {
    /// Whether a flow may take a copy of a message that belongs to a partition, whose holder, if any,
    /// is the flow that holds the least held copy of it. The message has to pass the flow's selector;
    /// on an exclusive endpoint the flow is the one that was bound first; on a partitioned queue it is
    /// the holder, or where there is none it stands at the place that the partition's number is modulo
    /// the number of flows. Any other endpoint asks for the selector alone. A flow that isn't bound may
    /// take nothing.
    pub fn may(
        &self,
        f: FlowNo,
        a: &Attributes,
        partition: u64,
        holder: Option<FlowNo>,
        m: &Message,
    ) -> bool
        ensures { result ≡ may_take self.now.flows f a.now partition holder m.now }
    {
        match self.find_number(f) {
            None => false,
            Some(flow) => {
                passes(&flow.selector, &m.properties)
                    && self.has_turn(a, flow.endpoint, flow.number, partition, holder)
            }
        }
    }

    // Whether it is the turn of a flow of an endpoint to take a copy of a partition.
    fn has_turn(
        &self,
        a: &Attributes,
        endpoint: EndpointNo,
        flow: FlowNo,
        partition: u64,
        holder: Option<FlowNo>,
    ) -> bool
        ensures { result ≡ has_turn a.now (flows_of self.now.flows endpoint) flow partition holder }
    {
        if !self.is_active(a, endpoint, flow) {
            return false;
        }
        if !a.is_partitioned() {
            return true;
        }
        is_owner(self.owner(endpoint, partition, holder), flow)
    }

    /// Whether a flow of an endpoint with these attributes is handed out copies: on an exclusive one the
    /// flow that was bound first alone is.
    pub fn is_active(&self, a: &Attributes, endpoint: EndpointNo, flow: FlowNo) -> bool
        ensures { result ≡ is_active a.now (flows_of self.now.flows endpoint) flow }
    {
        if !a.access_type().is_exclusive() {
            return true;
        }
        is_owner(self.nth_of(endpoint, 0), flow)
    }

    // The flow at a place among those of an endpoint.
    fn nth_flow(&self, endpoint: EndpointNo, place: usize) -> Option<&Flow>
        ensures { option_copied result ≡ slice_get (flows_of self.now.flows endpoint) place }
    {
        self.as_slice()
            .iter()
            .filter(|f| f.endpoint == endpoint)
            .nth(place)
    }

    fn nth_of(&self, endpoint: EndpointNo, place: usize) -> Option<FlowNo>
        ensures { result ≡ option_map (λ f. f.number) (slice_get (flows_of self.now.flows endpoint) place) }
    {
        match self.nth_flow(endpoint, place) {
            None => None,
            Some(flow) => Some(flow.number),
        }
    }

    // The owner of a partition: its holder, or the flow in its place.
    fn owner(&self, endpoint: EndpointNo, partition: u64, holder: Option<FlowNo>) -> Option<FlowNo>
        ensures { result ≡ owner (flows_of self.now.flows endpoint) partition holder }
    {
        match holder {
            Some(holder) => Some(holder),
            None => self.in_place(endpoint, partition),
        }
    }

    // Of k flows the one at the place that the partition's number is modulo k.
    fn in_place(&self, endpoint: EndpointNo, partition: u64) -> Option<FlowNo>
        ensures { result ≡ owner (flows_of self.now.flows endpoint) partition None }
    {
        let flows = self.count(endpoint);
        if flows == 0 {
            return None;
        }
        self.nth_of(endpoint, (partition % flows as u64) as usize)
    }
}

// Whether the owner is this flow.
fn is_owner(owner: Option<FlowNo>, flow: FlowNo) -> bool
    ensures { result ≡ is_owner owner flow }
{
    match owner {
        None => false,
        Some(number) => number == flow,
    }
}
