// Each kind of change of the tables. None takes memory.
ghost use Rattle.sp_core.specs.Room.{Has, Takes};
ghost use Rattle.sp_plan.specs.Plan.{need_of};
ghost use Rattle.sp_core.specs.Stands.{Stands};
ghost use Rattle.sp_ledger.specs.Allowed.{IsAllowed};
ghost use Rattle.sp_ledger.specs.Changes.{becomes, binds, changed, closes, comes, frees, goes, holds, moves, publishes, unbinds, unbinds_all};
ghost use Rattle.sp_ledger.specs.Ledger.{Ledger};

use crate::state::Core;
use sp_access::flow::Flow;
use sp_base::items::Items;
use sp_base::number::{CopyNo, EndpointNo, FlowNo, MessageNo};
use sp_copies::closed::Closing;
use sp_copies::made::{NewCopy, Share};
use sp_endpoint::endpoint::Endpoint;
use sp_message::message::Message;
use sp_plan::published::Published;

impl Core {
    pub(crate) fn come(&mut self, endpoint: Endpoint)
        requires room { Has self.old (need_of (comes endpoint)) }
        requires may { (L : Ledger) × Stands self.old L × IsAllowed (comes endpoint) L }
        ensures changed { (L : Ledger) → Stands self.old L → IsAllowed (comes endpoint) L → Stands self.new (changed (comes endpoint) L) }
        ensures room { Takes (need_of (comes endpoint)) self.old self.new }
    {
        self.next_endpoint = EndpointNo::of(endpoint.number.value() + 1);
        self.endpoints.add(endpoint);
    }

    pub(crate) fn go(&mut self, endpoint: EndpointNo)
        requires may { (L : Ledger) × Stands self.old L × IsAllowed (goes endpoint) L }
        ensures changed { (L : Ledger) → Stands self.old L → IsAllowed (goes endpoint) L → Stands self.new (changed (goes endpoint) L) }
        ensures room { Takes (need_of (goes endpoint)) self.old self.new }
    {
        self.endpoints.remove(endpoint);
    }

    pub(crate) fn become_other(&mut self, endpoint: Endpoint)
        requires may { (L : Ledger) × Stands self.old L × IsAllowed (becomes endpoint) L }
        ensures changed { (L : Ledger) → Stands self.old L → IsAllowed (becomes endpoint) L → Stands self.new (changed (becomes endpoint) L) }
        ensures room { Takes (need_of (becomes endpoint)) self.old self.new }
    {
        self.endpoints.replace(endpoint);
    }

    pub(crate) fn publish(&mut self, message: Message, shares: Items<Share>)
        requires room { Has self.old (need_of (publishes message shares)) }
        requires may { (L : Ledger) × Stands self.old L × IsAllowed (publishes message shares) L }
        ensures changed { (L : Ledger) → Stands self.old L → IsAllowed (publishes message shares) L → Stands self.new (changed (publishes message shares) L) }
        ensures room { Takes (need_of (publishes message shares)) self.old self.new }
    {
        self.messages.add(Published {
            number: self.next_message,
            message,
            moment: self.clock,
        });
        self.copies.publish(shares.as_slice(), self.clock);
        self.next_message = MessageNo::of(self.next_message.value() + 1);
    }

    pub(crate) fn close(&mut self, copy: CopyNo, how: Closing)
        requires may { (L : Ledger) × Stands self.old L × IsAllowed (closes copy how) L }
        ensures changed { (L : Ledger) → Stands self.old L → IsAllowed (closes copy how) L → Stands self.new (changed (closes copy how) L) }
        ensures room { Takes (need_of (closes copy how)) self.old self.new }
    {
        self.copies.close(copy, how, self.clock);
    }

    pub(crate) fn move_copy(&mut self, copy: CopyNo, new: NewCopy)
        requires room { Has self.old (need_of (moves copy new)) }
        requires may { (L : Ledger) × Stands self.old L × IsAllowed (moves copy new) L }
        ensures changed { (L : Ledger) → Stands self.old L → IsAllowed (moves copy new) L → Stands self.new (changed (moves copy new) L) }
        ensures room { Takes (need_of (moves copy new)) self.old self.new }
    {
        let to = CopyNo::of(self.copies.next());
        self.copies.close(copy, Closing::Moved(to), self.clock);
        self.copies.make(new);
    }

    pub(crate) fn hold(&mut self, copy: CopyNo, flow: FlowNo)
        requires may { (L : Ledger) × Stands self.old L × IsAllowed (holds copy flow) L }
        ensures changed { (L : Ledger) → Stands self.old L → IsAllowed (holds copy flow) L → Stands self.new (changed (holds copy flow) L) }
        ensures room { Takes (need_of (holds copy flow)) self.old self.new }
    {
        self.copies.hold(copy, flow);
    }

    pub(crate) fn free(&mut self, copy: CopyNo)
        requires may { (L : Ledger) × Stands self.old L × IsAllowed (frees copy) L }
        ensures changed { (L : Ledger) → Stands self.old L → IsAllowed (frees copy) L → Stands self.new (changed (frees copy) L) }
        ensures room { Takes (need_of (frees copy)) self.old self.new }
    {
        self.copies.give_back(copy);
    }

    pub(crate) fn bind(&mut self, flow: Flow)
        requires room { Has self.old (need_of (binds flow)) }
        requires may { (L : Ledger) × Stands self.old L × IsAllowed (binds flow) L }
        ensures changed { (L : Ledger) → Stands self.old L → IsAllowed (binds flow) L → Stands self.new (changed (binds flow) L) }
        ensures room { Takes (need_of (binds flow)) self.old self.new }
    {
        let Flow {
            number: _,
            endpoint,
            caller,
            selector,
        } = flow;
        match self.flows.bind(endpoint, caller, selector) {
            Ok(_) => {}
            Err(_) => unreachable!(),
        }
    }

    pub(crate) fn unbind(&mut self, flow: FlowNo)
        requires may { (L : Ledger) × Stands self.old L × IsAllowed (unbinds flow) L }
        ensures changed { (L : Ledger) → Stands self.old L → IsAllowed (unbinds flow) L → Stands self.new (changed (unbinds flow) L) }
        ensures room { Takes (need_of (unbinds flow)) self.old self.new }
    {
        self.flows.unbind(flow);
    }

    pub(crate) fn unbind_all(&mut self)
        requires may { (L : Ledger) × Stands self.old L × IsAllowed unbinds_all L }
        ensures changed { (L : Ledger) → Stands self.old L → IsAllowed unbinds_all L → Stands self.new (changed unbinds_all L) }
        ensures room { Takes (need_of unbinds_all) self.old self.new }
    {
        self.flows.unbind_all();
    }
}
