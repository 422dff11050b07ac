use sp_base::choice::Choice;

/// How a message is sent.
#[derive(Clone, Copy, Debug, PartialEq, Eq)]
pub enum Mode {
    /// It is spooled.
    Persistent,
    /// It is spooled too.
    NonPersistent,
    /// It would pass by without being spooled, so a spool refuses it.
    Direct,
}

impl Choice for Mode {
    ghost use Rattle.std.specs.Prelude.{refl};
    ghost use Rattle.sp_flowline.specs.declared.mode.Mode.TheVariants.{Persistent, NonPersistent, Direct};
    ghost use Rattle.sp_flowline.specs.Publishes.{mode_word, all_modes};

    ghost word_of = { mode_word };

    ghost choices = { all_modes };

    fn word(self) -> &'static str {
        match self {
            Mode::Persistent => "persistent",
            Mode::NonPersistent => "non-persistent",
            Mode::Direct => "direct",
        }
    }

    fn all() -> &'static [Mode] {
        &[Mode::Persistent, Mode::NonPersistent, Mode::Direct]
    }

    ghost each_by_its_word = { elim [ Persistent ↦ refl | NonPersistent ↦ refl | Direct ↦ refl ] };
}
