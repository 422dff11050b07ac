ghost use Rattle.std.specs.Prelude.{◌≡◌, ◌++◌, ◌∷◌, [], false, IfOk, OnOk, OnErr};
ghost use Rattle.serde_json.specs.View.{view};
ghost use Rattle.serde_json.specs.Written.{compact_text, has_float};
ghost use Rattle.sp_flowline.specs.Answers.{refusal_data, refused_data, full_data, answer_data, line_of};

use crate::replies::reply_value;
use serde_json::{Value, json};
use sp_base::failure::Memory;
use sp_base::refusal::Refusal;
use sp_event::answer::Answered;
use sp_json::members::{put_text, put_whole};
use sp_json::refusals::shown_members;
use std::alloc::{AllocError, Global};

/// Appends the line of an answer at a number of units: compact JSON, its keys in ascending byte
/// order, and a line feed. Without memory `into` stays as it was.
pub fn line(alloc: Global, answer: &Answered, unit: u64, into: &mut Vec<u8>) -> Result<(), Memory>
    ensures ok { OnOk result (into.new.items ≡ into.old.items ++ line_of answer.now unit) }
    ensures err { OnErr result (into.new.items ≡ into.old.items) }
{
    let Ok(value) = answer_value(alloc, answer, unit) else {
        return Err(Memory);
    };
    match append_line(alloc, &value, into) {
        Ok(()) => Ok(()),
        Err(_) => Err(Memory),
    }
}

fn append_line(alloc: Global, value: &Value, into: &mut Vec<u8>) -> Result<(), AllocError>
    requires { has_float (view value.now) ≡ false }
    ensures ok { OnOk result (into.new.items ≡ into.old.items ++ (compact_text (view value.now) ++ 10 ∷ [])) }
    ensures err { OnErr result (into.new.items ≡ into.old.items) }
{
    let bytes = value.to_vec(alloc)?;
    into.reserve(bytes.len().saturating_add(1))?;
    into.extend_from_slice(bytes.as_slice())?;
    into.push(b'\n')?;
    Ok(())
}

fn answer_value(alloc: Global, answer: &Answered, unit: u64) -> Result<Value, AllocError>
    ensures { IfOk result (λ v. view v ≡ answer_data answer.now unit) }
{
    match answer {
        Answered::Gave(reply) => reply_value(alloc, reply, unit),
        Answered::Refused { refusal, index: _ } => refused_value(alloc, refusal, unit),
        Answered::Memory => json!(in alloc; {"memory": true}),
        Answered::Disk => json!(in alloc; {"fault": "disk"}),
        Answered::Full { len, need, max } => full_value(alloc, *len, *need, *max),
    }
}

fn refusal_value(alloc: Global, refusal: &Refusal) -> Result<Value, AllocError>
    ensures { IfOk result (λ v. view v ≡ refusal_data refusal.now) }
{
    let mut map = shown_members(alloc, refusal)?;
    let rule = refusal.rule();
    put_text(&mut map, alloc, "rule", rule.name)?;
    put_whole(&mut map, alloc, "no", rule.number as u64)?;
    Ok(Value::Object(map))
}

fn refused_value(alloc: Global, refusal: &Refusal, unit: u64) -> Result<Value, AllocError>
    ensures { IfOk result (λ v. view v ≡ refused_data refusal.now unit) }
{
    let refused = refusal_value(alloc, refusal)?;
    json!(in alloc; {"refused": refused, "unit": unit})
}

fn full_value(alloc: Global, len: u64, need: u64, max: u64) -> Result<Value, AllocError>
    ensures { IfOk result (λ v. view v ≡ full_data len need max) }
{
    json!(in alloc; {"full": {"len": len, "max": max, "need": need}})
}
