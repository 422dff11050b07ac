// The texts of one endpoint in the tree are changed for others.
ghost use Rattle.std.specs.Prelude.{◌≡◌, ◌≢◌, ◌≤◌, ◌==◌, ◌&&◌, ◌||◌, ℕ, List, OnOk, bytes_eq, length, not, take};
ghost use Rattle.sp_topic.specs.Subscriptions.{has_text};
ghost use Rattle.sp_tree.specs.Tree.{AreTextsOf, SamePairs, has_pair};

use sp_base::number::EndpointNo;
use sp_topic::subscription::Subscription;
use sp_tree::tree::Tree;
use std::alloc::AllocError;

/// Makes room for the texts that `renew` will put in.
pub fn reserve_new(
    tree: &mut Tree,
    from: &[Subscription],
    to: &[Subscription],
) -> Result<(), AllocError>
    ensures { SamePairs tree.old tree.new }
{
    for subscription in &to[common(from, to)..] {
        tree.reserve(subscription)?;
    }
    Ok(())
}

/// Changes the texts of a number for others. Those with which both begin aren't touched.
pub fn renew(
    tree: &mut Tree,
    number: EndpointNo,
    from: &[Subscription],
    to: &[Subscription],
) -> Result<(), AllocError>
    ensures own { AreTextsOf tree.old number from.now → OnOk result (AreTextsOf tree.new number to.now) }
    ensures others { OnOk result ((n : ℕ) (text : List ℕ) → n ≢ number →
        has_pair tree.new n text ≡ has_pair tree.old n text) }
{
    let same = common(from, to);
    take_out(tree, number, &from[same..], to);
    put_in(tree, number, &to[same..])
}

/// How many texts at the beginning are the same.
fn common(from: &[Subscription], to: &[Subscription]) -> usize
    ensures from { result ≤ length from.now }
    ensures to { result ≤ length to.now }
    ensures same { take result from.now ≡ take result to.now }
{
    let mut same = 0;
    while same < from.len() && same < to.len() && from[same].same(&to[same]) {
        same += 1;
    }
    same
}

/// Takes out the texts of a number that go, but for those that are kept.
fn take_out(tree: &mut Tree, number: EndpointNo, gone: &[Subscription], kept: &[Subscription])
    ensures { (n : ℕ) (text : List ℕ) → has_pair tree.new n text
        ≡ (has_pair tree.old n text && not (n == number && (has_text gone.now text && not (has_text kept.now text)))) }
{
    for subscription in gone {
        take_one_out(tree, number, subscription, kept);
    }
}

fn take_one_out(tree: &mut Tree, number: EndpointNo, gone: &Subscription, kept: &[Subscription])
    ensures { (n : ℕ) (text : List ℕ) → has_pair tree.new n text
        ≡ (has_pair tree.old n text && not (n == number && (bytes_eq gone.now text && not (has_text kept.now text)))) }
{
    if !has(kept, gone) {
        tree.remove(number, gone);
    }
}

fn has(texts: &[Subscription], text: &Subscription) -> bool
    ensures { result ≡ has_text texts.now text.now }
{
    texts.iter().any(|t| t.same(text))
}

/// Puts texts of a number in.
fn put_in(tree: &mut Tree, number: EndpointNo, come: &[Subscription]) -> Result<(), AllocError>
    ensures { OnOk result ((n : ℕ) (text : List ℕ) → has_pair tree.new n text
        ≡ (has_pair tree.old n text || (number == n && has_text come.now text))) }
{
    for subscription in come {
        tree.insert(number, subscription)?;
    }
    Ok(())
}
