// The fates of copies in JSON.
ghost use Rattle.std.specs.Prelude.{◌≡◌, OnOk};
ghost use Rattle.serde_json.specs.View.{members_view};
ghost use Rattle.sp_json.specs.Fates.{cause_word, fate_word, with_fate};

use crate::members::{Members, put_text, put_whole};
use sp_copies::closed::{Cause, Fate};
use std::alloc::{AllocError, Global};

/// The word of a cause.
pub fn cause_word(cause: Cause) -> &'static str
    ensures { result.now ≡ cause_word cause }
{
    match cause {
        Cause::NotSpooled => "NotSpooled",
        Cause::Expired => "Expired",
        Cause::RedeliveryExceeded => "RedeliveryExceeded",
        Cause::Rejected => "Rejected",
        Cause::DmqMissing => "DmqMissing",
        Cause::DmqSelf => "DmqSelf",
        Cause::DmqDisabled => "DmqDisabled",
        Cause::DmqQuota => "DmqQuota",
        Cause::TopicChanged => "TopicChanged",
        Cause::Deleted => "Deleted",
    }
}

fn fate_word(fate: Fate) -> &'static str
    ensures { result.now ≡ fate_word fate }
{
    match fate {
        Fate::Never => "never",
        Fate::Spooled => "spooled",
        Fate::Accepted => "accepted",
        Fate::Moved(_) => "moved",
        Fate::Discarded(_) => "discarded",
        Fate::Earlier => "earlier",
    }
}

/// Adds a fate to the fields of an object, with the copy that a moved one became, or the cause of
/// a discard.
pub fn put_fate(map: &mut Members, alloc: Global, fate: Fate) -> Result<(), AllocError>
    ensures { OnOk result (members_view map.new.entries ≡ with_fate fate (members_view map.old.entries)) }
{
    put_text(map, alloc, "fate", fate_word(fate))?;
    match &fate {
        Fate::Moved(to) => put_whole(map, alloc, "to", to.value()),
        Fate::Discarded(cause) => put_text(map, alloc, "cause", cause_word(*cause)),
        Fate::Never | Fate::Spooled | Fate::Accepted | Fate::Earlier => Ok(()),
    }
}
