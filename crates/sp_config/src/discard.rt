ghost use Rattle.std.specs.Prelude.{◌≡◌};
ghost use Rattle.sp_config.specs.Rejects.{rejects_for};

use sp_base::choice::Choice;

/// Why an endpoint can't spool a message.
#[derive(Clone, Copy, Debug, PartialEq, Eq)]
pub enum Why {
    /// It takes no messages now.
    Ingress,
    /// The message is larger than its endpoint allows.
    Size,
    /// The endpoint's quota has no room for it.
    Quota,
}

/// For which reasons an endpoint that can't spool a message rejects the publish. For the others the
/// publish succeeds, and the endpoint's copy is discarded.
#[derive(Clone, Copy, Debug, PartialEq, Eq)]
pub enum DiscardBehavior {
    /// For any reason.
    Always,
    /// For its size and for the quota.
    WhenQueueEnabled,
    /// For none.
    Never,
}

impl Choice for DiscardBehavior {
    ghost use Rattle.std.specs.Prelude.{refl};
    ghost use Rattle.sp_config.specs.declared.discard.DiscardBehavior.TheVariants.{Always, WhenQueueEnabled, Never};
    ghost use Rattle.sp_config.specs.Choices.{behavior_word, behaviors};

    ghost word_of = { behavior_word };

    ghost choices = { behaviors };

    fn word(self) -> &'static str {
        match self {
            DiscardBehavior::Always => "always",
            DiscardBehavior::WhenQueueEnabled => "when-queue-enabled",
            DiscardBehavior::Never => "never",
        }
    }

    fn all() -> &'static [DiscardBehavior] {
        &[
            DiscardBehavior::Always,
            DiscardBehavior::WhenQueueEnabled,
            DiscardBehavior::Never,
        ]
    }

    ghost each_by_its_word = { elim [ Always ↦ refl | WhenQueueEnabled ↦ refl | Never ↦ refl ] };
}

impl DiscardBehavior {
    /// Whether it rejects the publish for this reason.
    pub fn rejects(self, why: Why) -> bool
        ensures { result ≡ rejects_for self why }
    {
        match self {
            DiscardBehavior::Always => true,
            DiscardBehavior::WhenQueueEnabled => why != Why::Ingress,
            DiscardBehavior::Never => false,
        }
    }
}
