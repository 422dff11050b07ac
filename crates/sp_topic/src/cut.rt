ghost use Rattle.std.specs.Prelude.{◌≡◌, ◌==◌, ◌<◌, ◌∷◌, [], length, position, IfSome};
ghost use Rattle.std.specs.Option.{option_map_or};
ghost use Rattle.sp_base.specs.Topic.{levels};
ghost use Rattle.sp_topic.specs.Matching.{is_rest};

/// The first level of a text, and what follows its slash where there are more levels.
#[derive(Clone, Copy)]
pub struct Cut<'a> {
    pub level: &'a [u8],
    pub rest: Option<&'a [u8]>,
}

impl Cut<'_> {
    /// Whether it is a last level that is `>` alone.
    #[tactic(auto, using(crate::proofs::Matches::is_rest_more))]
    pub fn is_rest(&self) -> bool
        ensures { result ≡ is_rest (self.now.level.now ∷ option_map_or (λ rest. levels rest.now) self.now.rest []) }
    {
        match self.rest {
            Some(_) => false,
            None => self.level == b">".as_slice(),
        }
    }
}

/// Cuts a text behind its first level.
pub fn cut_level(text: &[u8]) -> Cut<'_>
    ensures levels { levels text.now ≡ result.level.now ∷ option_map_or (λ rest. levels rest.now) result.rest [] }
    ensures shorter { IfSome result.rest (λ rest. length rest.now < length text.now) }
{
    match first_slash(text) {
        Some(at) => Cut {
            level: &text[..at],
            rest: Some(&text[at + 1..]),
        },
        None => Cut {
            level: text,
            rest: None,
        },
    }
}

fn first_slash(text: &[u8]) -> Option<usize>
    ensures { result ≡ position (λ b. b == 47) text.now }
{
    text.iter().position(|byte| *byte == b'/')
}
