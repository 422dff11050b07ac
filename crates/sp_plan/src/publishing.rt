//! The copies of a message that is published, and what is told of them.
ghost use Rattle.sp_ledger.specs.Publish.{partition_for, share_for, told_copies};
ghost use Rattle.std.specs.Prelude.{◌≡◌, ◌≤◌, ◌+◌, ◌^◌, IfOk, length, map};

use sp_base::items::Items;
use sp_base::moment::Moment;
use sp_base::number::{CopyNo, MessageNo};
use sp_config::attributes::Attributes;
use sp_copies::closed::Fate;
use sp_copies::made::{NewCopy, Origin, Share};
use sp_endpoint::endpoint::Endpoint;
use sp_event::answer::PublishedCopy;
use sp_message::message::Message;
use sp_message::partition::partition;
use std::alloc::{AllocError, Global};

/// The copies of a message of this number that is published at a moment, one for each endpoint that
/// takes it.
pub fn all_shares(
    alloc: Global,
    into: &[&Endpoint],
    message: &Message,
    number: MessageNo,
    moment: Moment,
) -> Result<Items<Share>, AllocError>
    ensures { IfOk result (λ shares. shares ≡ map (λ e. share_for message.now number moment e.now) into.now) }
{
    Ok(Items::from_vec(shares_of(alloc, into, message, number, moment)?))
}

fn shares_of(
    alloc: Global,
    into: &[&Endpoint],
    message: &Message,
    number: MessageNo,
    moment: Moment,
) -> Result<Vec<Share>, AllocError>
    ensures { IfOk result (λ shares. shares.items ≡ map (λ e. share_for message.now number moment e.now) into.now) }
{
    into.iter()
        .map(|e| share_for(e, message, number, moment))
        .collect(alloc)
}

fn share_for(endpoint: &Endpoint, message: &Message, number: MessageNo, moment: Moment) -> Share
    ensures { result ≡ share_for message.now number moment endpoint.now }
{
    Share {
        copy: NewCopy {
            endpoint: endpoint.number,
            message: number,
            size: message.size(),
            origin: Origin::Published,
            deadline: endpoint.attributes.deadline(message.ttl.value(), moment),
            partition: partition_for(&endpoint.attributes, message, number),
        },
        is_spooled: true,
    }
}

/// The partition that a message of this number belongs to: only a partitioned queue has several.
pub fn partition_for(attributes: &Attributes, message: &Message, number: MessageNo) -> u64
    ensures { result ≡ partition_for message.now number attributes.now }
{
    if !attributes.is_partitioned() {
        return 0;
    }
    partition(message, number, attributes.partition_count())
}

/// What is told of the copies, which are numbered from `first` on.
pub fn told_copies(
    alloc: Global,
    into: &[&Endpoint],
    first: u64,
) -> Result<Items<PublishedCopy>, AllocError>
    requires { first + length into.now ≤ 2 ^ 62 }
    ensures { IfOk result (λ told. told ≡ told_copies first (map (λ e. e.now) into.now)) }
{
    let mut told = Vec::new(alloc);
    let mut number = first;
    for endpoint in into {
        told.push(PublishedCopy {
            copy: CopyNo::of(number),
            endpoint: endpoint.name.copy(alloc)?,
            fate: Fate::Spooled,
        })?;
        number += 1;
    }
    Ok(Items::from_vec(told))
}
