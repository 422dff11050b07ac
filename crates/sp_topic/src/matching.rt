ghost use Rattle.std.specs.Prelude.{◌≡◌};
ghost use Rattle.sp_base.specs.Topic.{levels};
ghost use Rattle.sp_topic.specs.Matching.{level_matches, levels_match};

use crate::cut::cut_level;

/// Whether the levels of a subscription's topic match those of a topic.
#[tactic(auto, using(crate::proofs::Matches::steps))]
pub(crate) fn texts_match(subscription: &[u8], topic: &[u8]) -> bool
    ensures { result ≡ levels_match (levels subscription.now) (levels topic.now) }
{
    let cut = cut_level(subscription);
    let topic_cut = cut_level(topic);
    if cut.is_rest() {
        return true;
    }
    if !level_matches(cut.level, topic_cut.level) {
        return false;
    }
    match (cut.rest, topic_cut.rest) {
        (None, None) => true,
        (Some(more), Some(topic_more)) => texts_match(more, topic_more),
        (Some(_), None) => false,
        (None, Some(_)) => false,
    }
}

fn level_matches(level: &[u8], topic_level: &[u8]) -> bool
    ensures { result ≡ level_matches level.now topic_level.now }
{
    match level.strip_suffix(b"*") {
        Some(prefix) => topic_level.starts_with(prefix),
        None => level == topic_level,
    }
}
