// Selectors in the fields of a JSON object.
ghost use Rattle.sp_base.specs.Declined.{Obeys};
ghost use Rattle.std.specs.Option.{option_copied};
ghost use Rattle.sp_json.specs.Selectors.{selector_from, selector_of};

use sp_base::declined::Declined;
use sp_base::refusal::Refusal;
use sp_selector::selector::{Selector, SelectorError};
use std::alloc::Global;

/// The selector that a text is, where there is one. Bad where it is no selector, at the offset from
/// which it can't become one.
pub fn selector_from(
    alloc: Global,
    text: Option<&str>,
) -> Result<Option<Selector>, Declined<Refusal>>
    ensures { Obeys (selector_from (option_copied text.entry)) result }
{
    match text {
        None => Ok(None),
        Some(text) => Ok(Some(selector_of(alloc, text)?)),
    }
}

fn selector_of(alloc: Global, text: &str) -> Result<Selector, Declined<Refusal>>
    ensures { Obeys (selector_of text.now) result }
{
    match Selector::read(alloc, text.as_bytes()) {
        Ok(selector) => Ok(selector),
        Err(SelectorError::Bad { at }) => Err(Declined::Refused(Refusal::BadSelector { at })),
        Err(SelectorError::Memory) => Err(Declined::Memory),
    }
}
