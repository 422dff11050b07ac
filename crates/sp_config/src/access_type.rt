ghost use Rattle.std.specs.Prelude.{◌≡◌};
ghost use Rattle.sp_config.specs.Attributes.{is_exclusive};

use sp_base::choice::Choice;

/// Which flows of an endpoint are handed out copies.
#[derive(Clone, Copy, Debug, PartialEq, Eq)]
pub enum AccessType {
    /// The flow that was bound first.
    Exclusive,
    /// All flows.
    NonExclusive,
}

impl AccessType {
    /// Whether one flow at a time is handed out copies.
    pub fn is_exclusive(self) -> bool
        ensures { result ≡ is_exclusive self }
    {
        match self {
            AccessType::Exclusive => true,
            AccessType::NonExclusive => false,
        }
    }
}

impl Choice for AccessType {
    ghost use Rattle.std.specs.Prelude.{refl};
    ghost use Rattle.sp_config.specs.declared.access_type.AccessType.TheVariants.{Exclusive, NonExclusive};
    ghost use Rattle.sp_config.specs.Choices.{access_type_word, access_types};

    ghost word_of = { access_type_word };

    ghost choices = { access_types };

    fn word(self) -> &'static str {
        match self {
            AccessType::Exclusive => "exclusive",
            AccessType::NonExclusive => "non-exclusive",
        }
    }

    fn all() -> &'static [AccessType] {
        &[AccessType::Exclusive, AccessType::NonExclusive]
    }

    ghost each_by_its_word = { elim [ Exclusive ↦ refl | NonExclusive ↦ refl ] };
}
