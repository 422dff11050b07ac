// The values that refusals show, as members of a JSON object.
ghost use Rattle.std.specs.Prelude.{◌≡◌, IfOk, OnOk, fold};
ghost use Rattle.serde_json.specs.Data.{no_members};
ghost use Rattle.serde_json.specs.View.{members_view};
ghost use Rattle.sp_json.specs.Refusals.{with_shown, shown_members};

use crate::members::{Members, put_text, put_whole};
use serde_json::Map;
use sp_base::choice::Choice;
use sp_base::refusal::Refusal;
use sp_base::refusal::shown::{Shown, ShownValue};
use std::alloc::{AllocError, Global};

/// The members that show the values of a refusal under their names.
pub fn shown_members(alloc: Global, refusal: &Refusal) -> Result<Members, AllocError>
    ensures { IfOk result (λ map. members_view map.entries ≡ shown_members refusal.now) }
{
    let shown = refusal.shown(alloc)?;
    members_of(alloc, shown.as_slice())
}

fn members_of(alloc: Global, shown: &[Shown]) -> Result<Members, AllocError>
    ensures { IfOk result (λ map. members_view map.entries ≡ fold with_shown no_members shown.now) }
{
    let mut map = Map::new(alloc);
    for value in shown {
        put_shown(&mut map, alloc, value)?;
    }
    Ok(map)
}

fn put_shown(map: &mut Members, alloc: Global, shown: &Shown) -> Result<(), AllocError>
    ensures { OnOk result (members_view map.new.entries ≡ with_shown (members_view map.old.entries) shown.now) }
{
    match shown.value() {
        ShownValue::Number(n) => put_whole(map, alloc, shown.name(), *n),
        ShownValue::Text(text) => put_text(map, alloc, shown.name(), text.as_str()),
        ShownValue::Permission(permission) => put_text(map, alloc, shown.name(), permission.word()),
        ShownValue::Kind(kind) => put_text(map, alloc, shown.name(), kind.word()),
    }
}
