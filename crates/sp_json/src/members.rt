// The members of a JSON object that is being made.
ghost use Rattle.std.specs.Prelude.{◌≡◌, OnOk};
ghost use Rattle.serde_json.specs.Data.{string, put};
ghost use Rattle.serde_json.specs.View.{members_view};
ghost use Rattle.sp_json.specs.Members.{whole};

use serde_json::{Map, Value};
use std::alloc::{AllocError, Global};

pub type Members = Map<String, Value>;

/// Adds a whole number.
pub fn put_whole(map: &mut Members, alloc: Global, key: &str, n: u64) -> Result<(), AllocError>
    ensures { OnOk result (members_view map.new.entries ≡ put key.now (whole n) (members_view map.old.entries)) }
{
    serde_json::put(map, alloc, key, Value::from(n))
}

/// Adds a text.
pub fn put_text(map: &mut Members, alloc: Global, key: &str, text: &str) -> Result<(), AllocError>
    ensures { OnOk result (members_view map.new.entries ≡ put key.now (string text.now) (members_view map.old.entries)) }
{
    let value = Value::try_from_str(alloc, text)?;
    serde_json::put(map, alloc, key, value)
}
