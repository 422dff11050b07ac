ghost use Rattle.std.specs.Prelude.{◌≡◌, ◌==◌, ◌&&◌, Some, None};
ghost use Rattle.std.specs.List.{list_any};
ghost use Rattle.serde_json.specs.View.{view};
ghost use Rattle.sp_base.specs.Declined.{Obeys};
ghost use Rattle.sp_json.specs.Fields.{has_key};
ghost use Rattle.sp_flowline.specs.Request.{IsReadAs, Reads, reading_of, has_exclusive};

use crate::asks::ask_in;
use crate::op::Op;
use serde_json::Value;
use sp_base::declined::Declined;
use sp_base::refusal::Refusal;
use sp_event::request::Ask;
use sp_json::fields::{choice_at, has_key};
use std::alloc::Global;

/// The request that a line is, without its line feed. A line that is none is refused as a bad
/// request whose `at` is the first that applies: 0, the bytes are no JSON text of one line;
/// 1, they are no object, or its op is missing, no text or unknown; 2, a required field is
/// missing; 3, there is a field that the op doesn't have, or there are two that exclude each
/// other; 4, a field has the wrong JSON kind or a value outside its range. The direct mode, a topic,
/// a subscription or a selector that is none, and the first attribute that is unknown or can't have its
/// value, are refused after that, each by its own rule.
pub fn read(alloc: Global, line: &[u8]) -> Result<Ask, Declined<Refusal>>
    ensures { Reads line.now result }
{
    if has_line_feed(line) {
        return Err(bad(0));
    }
    match Value::from_slice(alloc, line) {
        Ok(value) => read_value(alloc, &value),
        Err(error) => {
            if error.is_memory() {
                Err(Declined::Memory)
            } else {
                Err(bad(0))
            }
        }
    }
}

fn has_line_feed(line: &[u8]) -> bool
    ensures { result ≡ list_any (λ b. b == 10) line.now }
{
    line.iter().any(|b| *b == b'\n')
}

fn bad(at: u64) -> Declined<Refusal>
    ensures { result ≡ Declined.Refused (Refusal.BadRequest at) }
{
    Declined::Refused(Refusal::BadRequest { at })
}

fn read_value(alloc: Global, value: &Value) -> Result<Ask, Declined<Refusal>>
    ensures { Obeys (reading_of (view value.now)) result }
{
    let Some(op) = choice_at::<Op>(value, "op") else {
        return Err(bad(1));
    };
    let fields = op.fields();
    if !fields.has_required(value) {
        return Err(bad(2));
    }
    if fields.has_another(value) || has_exclusive(value) {
        return Err(bad(3));
    }
    ask_in(alloc, value, op)
}

// Whether there are two fields that exclude each other: both forms of a payload, or both
// destinations.
fn has_exclusive(value: &Value) -> bool
    ensures { result ≡ has_exclusive (view value.now) }
{
    has_both(value, "payload", "payload64") || has_both(value, "topic", "queue")
}

fn has_both(value: &Value, one: &str, other: &str) -> bool
    ensures { result ≡ (has_key one.now (view value.now) && has_key other.now (view value.now)) }
{
    has_key(value, one) && has_key(value, other)
}
