// Look-ups among entries: quick ones where the keys never fall, and walks from the front for all others.
ghost use Rattle.std.specs.Prelude.{◌≡◌, ◌≤◌, length, find, nat_le, nat_lt, true, false};
ghost use Rattle.std.specs.List.{slice_get};
ghost use Rattle.std.specs.List.Sorted.{IsNonDecreasingBy, IsPartitionPoint};
ghost use Rattle.std.specs.Option.{option_copied};
ghost use Rattle.sp_replaylog.specs.Log.{place_of};

use crate::entry::Entry;
use sp_base::moment::Moment;
use sp_base::number::MessageNo;
use std::collections::VecDeque;

// The place of the first entry of a number, where the numbers never fall.
pub fn searched_place(queue: &VecDeque<Entry>, number: MessageNo) -> Option<usize>
    requires { IsNonDecreasingBy (λ e. e.number) queue.now.items }
    ensures { result ≡ place_of number queue.now.items }
{
    let place = numbers_below(queue, number);
    if place == queue.len() {
        return None;
    }
    if queue[place].number.value() != number.value() {
        return None;
    }
    Some(place)
}

// How many entries have a number below this one, where the numbers never fall.
fn numbers_below(queue: &VecDeque<Entry>, number: MessageNo) -> usize
    requires { IsNonDecreasingBy (λ e. e.number) queue.now.items }
    ensures parted { IsPartitionPoint (λ e. nat_lt e.number number ≡ true) (λ e. nat_lt e.number number ≡ false) queue.now.items result }
    ensures bound { result ≤ length queue.now.items }
{
    queue.partition_point(|e| e.number.value() < number.value())
}

// The place of the first entry of a number.
pub fn walked_place(queue: &VecDeque<Entry>, number: MessageNo) -> Option<usize>
    ensures { result ≡ place_of number queue.now.items }
{
    queue.iter().position(|e| e.number == number)
}

// The first entry from a moment on, where the moments never fall.
pub fn searched_moment(queue: &VecDeque<Entry>, moment: Moment) -> Option<&Entry>
    requires { IsNonDecreasingBy (λ e. e.moment) queue.now.items }
    ensures { option_copied result ≡ find (λ e. nat_le moment e.moment) queue.now.items }
{
    at_place(queue, moments_below(queue, moment))
}

fn at_place(queue: &VecDeque<Entry>, place: usize) -> Option<&Entry>
    ensures { option_copied result ≡ slice_get queue.now.items place }
{
    queue.get(place)
}

// How many entries have a moment before this one, where the moments never fall.
fn moments_below(queue: &VecDeque<Entry>, moment: Moment) -> usize
    requires { IsNonDecreasingBy (λ e. e.moment) queue.now.items }
    ensures parted { IsPartitionPoint (λ e. nat_lt e.moment moment ≡ true) (λ e. nat_lt e.moment moment ≡ false) queue.now.items result }
    ensures bound { result ≤ length queue.now.items }
{
    queue.partition_point(|e| e.moment.value() < moment.value())
}

// The first entry from a moment on.
pub fn walked_moment(queue: &VecDeque<Entry>, moment: Moment) -> Option<&Entry>
    ensures { option_copied result ≡ find (λ e. nat_le moment e.moment) queue.now.items }
{
    queue.iter().find(|e| e.moment.value() >= moment.value())
}
