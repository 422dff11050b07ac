// The words of the attributes that are a choice.
ghost use Rattle.std.specs.Prelude.{◌≡◌, ◌≤◌, length};
ghost use Rattle.sp_base.specs.Choice.{place_named};
ghost use Rattle.sp_config.specs.Choices.{word_place};

use crate::access_type::AccessType;
use crate::attr::Attr;
use crate::discard::DiscardBehavior;
use sp_base::choice::{Choice, place_named};
use sp_base::refusal::Permission;

impl Attr {
    /// The place, from 0, of a word among those that the attribute may be. None exactly where the
    /// attribute is no choice, or hasn't the word.
    pub fn word_place(self, word: &str) -> Option<u8>
        ensures { result ≡ word_place self word.now }
    {
        match self {
            Attr::AccessType => small_place::<AccessType>(word),
            Attr::Permission => small_place::<Permission>(word),
            Attr::RejectMsgToSenderOnDiscardBehavior => small_place::<DiscardBehavior>(word),
            _ => None,
        }
    }
}

fn small_place<C: Choice>(word: &str) -> Option<u8>
    requires { length C.choices ≤ 256 }
    ensures { result ≡ place_named C.word_of C.choices word.now }
{
    match place_named::<C>(word) {
        Some(place) => Some(place as u8),
        None => None,
    }
}
