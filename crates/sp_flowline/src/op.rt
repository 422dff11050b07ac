ghost use Rattle.std.specs.Prelude.{◌≡◌};
ghost use Rattle.sp_flowline.specs.Op.{fields_of};

use sp_base::choice::Choice;
use sp_json::names::FieldNames;

/// What a request asks for.
#[derive(Clone, Copy, Debug, PartialEq, Eq)]
pub enum Op {
    Provision,
    Deprovision,
    Change,
    Subscribe,
    Unsubscribe,
    Publish,
    Bind,
    Unbind,
    Pull,
    Settle,
    Tick,
    Delete,
    Tally,
    Copy,
    Flows,
}

impl Choice for Op {
    ghost use Rattle.std.specs.Prelude.{refl};
    ghost use Rattle.sp_flowline.specs.declared.op.Op.TheVariants.{Provision, Deprovision, Change, Subscribe, Unsubscribe, Publish, Bind, Unbind, Pull, Settle, Tick, Delete, Tally, Copy, Flows};
    ghost use Rattle.sp_flowline.specs.Op.{op_word, all_ops};

    ghost word_of = { op_word };

    ghost choices = { all_ops };

    fn word(self) -> &'static str {
        match self {
            Op::Provision => "provision",
            Op::Deprovision => "deprovision",
            Op::Change => "change",
            Op::Subscribe => "subscribe",
            Op::Unsubscribe => "unsubscribe",
            Op::Publish => "publish",
            Op::Bind => "bind",
            Op::Unbind => "unbind",
            Op::Pull => "pull",
            Op::Settle => "settle",
            Op::Tick => "tick",
            Op::Delete => "delete",
            Op::Tally => "tally",
            Op::Copy => "copy",
            Op::Flows => "flows",
        }
    }

    fn all() -> &'static [Op] {
        &[
            Op::Provision,
            Op::Deprovision,
            Op::Change,
            Op::Subscribe,
            Op::Unsubscribe,
            Op::Publish,
            Op::Bind,
            Op::Unbind,
            Op::Pull,
            Op::Settle,
            Op::Tick,
            Op::Delete,
            Op::Tally,
            Op::Copy,
            Op::Flows,
        ]
    }

    ghost each_by_its_word = { elim [ Provision ↦ refl | Deprovision ↦ refl | Change ↦ refl | Subscribe ↦ refl | Unsubscribe ↦ refl | Publish ↦ refl | Bind ↦ refl | Unbind ↦ refl | Pull ↦ refl | Settle ↦ refl | Tick ↦ refl | Delete ↦ refl | Tally ↦ refl | Copy ↦ refl | Flows ↦ refl ] };
}

impl Op {
    /// The names of the fields that its requests have: those that have to be there, those of which
    /// one has to be there, and those that may be.
    pub fn fields(self) -> FieldNames
        ensures { result ≡ fields_of self }
    {
        match self {
            Op::Provision => FieldNames::new(&["op", "endpoint"], &[], &["kind", "attributes"]),
            Op::Deprovision => FieldNames::new(&["op", "endpoint"], &[], &[]),
            Op::Change => FieldNames::new(&["op", "endpoint", "attributes"], &[], &[]),
            Op::Subscribe => FieldNames::new(&["op", "endpoint", "subscription"], &[], &[]),
            Op::Unsubscribe => FieldNames::new(&["op", "endpoint", "subscription"], &[], &[]),
            Op::Publish => FieldNames::new(
                &["op"],
                &["topic", "queue"],
                &["mode", "payload", "payload64", "ttl", "dmq", "properties"],
            ),
            Op::Bind => FieldNames::new(&["op", "endpoint"], &[], &["selector", "topic"]),
            Op::Unbind => FieldNames::new(&["op", "flow"], &[], &[]),
            Op::Pull => FieldNames::new(&["op", "flow"], &[], &["count"]),
            Op::Settle => FieldNames::new(&["op", "flow", "copy", "outcome"], &[], &[]),
            Op::Tick => FieldNames::new(&["op"], &[], &[]),
            Op::Delete => FieldNames::new(&["op", "endpoint"], &[], &["copy"]),
            Op::Tally => FieldNames::new(&["op"], &[], &["endpoint"]),
            Op::Copy => FieldNames::new(&["op", "copy"], &[], &[]),
            Op::Flows => FieldNames::new(&["op", "endpoint"], &[], &[]),
        }
    }
}
