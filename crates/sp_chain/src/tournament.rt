// A tree over the places of deadlines, as rows: the nodes below a number of places are those that `inner`
// has, and behind them follow the leaves. A node's children are at twice its number and behind it.
ghost use Rattle.std.specs.Prelude.{◌≡◌, ◌<◌, ◌*◌, ◌+◌, length};
ghost use Rattle.sp_chain.specs.Deadlines.{at, earlier};
ghost use Rattle.sp_chain.specs.Tournament.{IsRightBut, IsTournament, node};

use crate::deadline::{Deadline, earlier};

/// The deadline at a place.
pub fn leaf(leaves: &[Option<Deadline>], place: usize) -> Option<Deadline>
    ensures { result ≡ at leaves.now place }
{
    if place < leaves.len() {
        leaves[place]
    } else {
        None
    }
}

/// What a node or a leaf has.
pub fn node(
    inner: &[Option<Deadline>],
    leaves: &[Option<Deadline>],
    number: usize,
) -> Option<Deadline>
    ensures { result ≡ node inner.now leaves.now number }
{
    if number < leaves.len() {
        leaf(inner, number)
    } else {
        leaf(leaves, number - leaves.len())
    }
}

// The earlier of what a node's children have.
fn earlier_child(
    inner: &[Option<Deadline>],
    leaves: &[Option<Deadline>],
    number: usize,
) -> Option<Deadline>
    requires { number < length leaves.now }
    ensures { result ≡ earlier (node inner.now leaves.now (2 * number)) (node inner.now leaves.now (2 * number + 1)) }
{
    earlier(
        node(inner, leaves, 2 * number),
        node(inner, leaves, 2 * number + 1),
    )
}

/// Makes the node of this number right, and those above it, where all others are.
pub fn mend(inner: &mut [Option<Deadline>], leaves: &[Option<Deadline>], number: usize)
    requires len { length inner.old ≡ length leaves.now }
    requires below { number < length leaves.now }
    requires right { IsRightBut inner.old leaves.now number }
    ensures { IsTournament inner.new leaves.now }
{
    let mut at = number;
    while at > 0 {
        inner[at] = earlier_child(inner, leaves, at);
        at /= 2;
    }
}

/// Makes all nodes right, from the last to the first.
pub fn build(inner: &mut [Option<Deadline>], leaves: &[Option<Deadline>])
    requires { length inner.old ≡ length leaves.now }
    ensures { IsTournament inner.new leaves.now }
{
    for back in 1..leaves.len() {
        let at = leaves.len() - back;
        inner[at] = earlier_child(inner, leaves, at);
    }
}
