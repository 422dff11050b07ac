use sp_base::name::Name;
use sp_base::number::{EndpointNo, FlowNo};
use sp_selector::selector::Selector;
use std::marker::Model;

/// A flow that a caller, whose name has at most 64 bytes, has bound to an endpoint, with the
/// selector that it was bound with, if any.
#[derive(Drop)]
pub struct Flow {
    pub number: FlowNo,
    pub endpoint: EndpointNo,
    pub caller: Name,
    pub selector: Option<Selector>,
}

impl Model for Flow {
    ghost use Rattle.std.specs.Prelude.{◌≡◌, true};
    ghost use Rattle.sp_access.specs.Flow.{FlowView};
    ghost use Rattle.sp_access.specs.Inside.{view_of};
    ghost use Rattle.sp_base.specs.Name.{is_caller};

    ghost Value = { FlowView };

    ghost view = { view_of };

    ghost invariant = { λ f. is_caller f.caller ≡ true };
}
