//! Keys of a JSON object.
ghost use Rattle.std.specs.Prelude.{◌≡◌, OnOk};
ghost use Rattle.serde_json.specs.Data.{number, string, put as with_member};
ghost use Rattle.serde_json.specs.Find.{of_integer};
ghost use Rattle.serde_json.specs.View.{members_view};

use serde_json::{Map, Value, put};
use std::alloc::{AllocError, Global};

pub(crate) fn put_text(
    members: &mut Map<String, Value>,
    alloc: Global,
    key: &str,
    text: &str,
) -> Result<(), AllocError>
    ensures { OnOk result (members_view members.new.entries ≡ with_member key.now (string text.now) (members_view members.old.entries)) }
{
    put(members, alloc, key, Value::try_from_str(alloc, text)?)
}

pub(crate) fn put_int(
    members: &mut Map<String, Value>,
    alloc: Global,
    key: &str,
    int: i32,
) -> Result<(), AllocError>
    ensures { OnOk result (members_view members.new.entries ≡ with_member key.now (number (of_integer int)) (members_view members.old.entries)) }
{
    put(members, alloc, key, Value::from(int))
}
