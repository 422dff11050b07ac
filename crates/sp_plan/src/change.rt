use sp_access::flow::Flow;
use sp_base::items::Items;
use sp_base::number::{CopyNo, EndpointNo, FlowNo};
use sp_copies::closed::Closing;
use sp_copies::made::{NewCopy, Share};
use sp_endpoint::endpoint::Endpoint;
use sp_message::message::Message;

/// A change of the tables: one of the ledger's, with what it puts there.
#[derive(Drop)]
pub enum Change {
    /// An endpoint comes under the next number.
    Comes(Endpoint),
    /// An endpoint goes.
    Goes(EndpointNo),
    /// An endpoint that is there has other fields.
    Becomes(Endpoint),
    /// A message is published under the next number, with its copies in order of number.
    Publishes {
        message: Message,
        shares: Items<Share>,
    },
    /// A spooled copy closes.
    Closes {
        copy: CopyNo,
        how: Closing,
    },
    /// A spooled copy closes, and a copy of its message is made elsewhere under the next number.
    Moves {
        copy: CopyNo,
        new: NewCopy,
    },
    /// A free copy is held by a flow.
    Holds {
        copy: CopyNo,
        flow: FlowNo,
    },
    /// A held copy is free again.
    Frees(CopyNo),
    /// A flow is bound under the next number.
    Binds(Flow),
    /// A flow goes.
    Unbinds(FlowNo),
    /// All flows go.
    UnbindsAll,
}
