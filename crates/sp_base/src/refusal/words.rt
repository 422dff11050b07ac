// The words of permissions and of kinds of numbers.
use crate::choice::Choice;
use crate::refusal::{Kind, Permission};

impl Choice for Permission {
    ghost use Rattle.std.specs.Prelude.{refl};
    ghost use Rattle.sp_base.specs.declared.refusal.Permission.TheVariants.{NoAccess, ReadOnly, Consume, ModifyTopic, Delete};
    ghost use Rattle.sp_base.specs.Words.{permission_word, permissions};

    ghost word_of = { permission_word };

    ghost choices = { permissions };

    fn word(self) -> &'static str {
        match self {
            Permission::NoAccess => "no-access",
            Permission::ReadOnly => "read-only",
            Permission::Consume => "consume",
            Permission::ModifyTopic => "modify-topic",
            Permission::Delete => "delete",
        }
    }

    fn all() -> &'static [Permission] {
        &[
            Permission::NoAccess,
            Permission::ReadOnly,
            Permission::Consume,
            Permission::ModifyTopic,
            Permission::Delete,
        ]
    }

    ghost each_by_its_word = { elim [ NoAccess ↦ refl | ReadOnly ↦ refl | Consume ↦ refl | ModifyTopic ↦ refl | Delete ↦ refl ] };
}

impl Choice for Kind {
    ghost use Rattle.std.specs.Prelude.{refl};
    ghost use Rattle.sp_base.specs.declared.refusal.Kind.TheVariants.{Endpoint, Message, Copy, Flow, Replay, Unit};
    ghost use Rattle.sp_base.specs.Words.{kind_word, kinds};

    ghost word_of = { kind_word };

    ghost choices = { kinds };

    fn word(self) -> &'static str {
        match self {
            Kind::Endpoint => "endpoint",
            Kind::Message => "message",
            Kind::Copy => "copy",
            Kind::Flow => "flow",
            Kind::Replay => "replay",
            Kind::Unit => "unit",
        }
    }

    fn all() -> &'static [Kind] {
        &[
            Kind::Endpoint,
            Kind::Message,
            Kind::Copy,
            Kind::Flow,
            Kind::Replay,
            Kind::Unit,
        ]
    }

    ghost each_by_its_word = { elim [ Endpoint ↦ refl | Message ↦ refl | Copy ↦ refl | Flow ↦ refl | Replay ↦ refl | Unit ↦ refl ] };
}
