//! The fields of an object.

ghost use Rattle.std.specs.Prelude.{◌≡◌, map, option_map, string_bytes};
ghost use Rattle.serde_json.specs.View.{members_view, view};
ghost use Rattle.vr_json.specs.Reading as reading;
ghost use Rattle.vr_json.specs.Reading.{Answers, seen, unknown_key};

use crate::fault::refusal;
use crate::{Cause, Path, ReadFail};
use serde_json::{Map, Value};
use std::alloc::Global;

/// The value of the field `name`, if the object has one. Calls of `Fields` ask it, and `vr_app` for the solution of a
/// check or of `spans`, which it hands on unread.
///
/// Another value than an object is refused with the cause `OtherKind`, at `path`.
#[tactic(auto, unfolding(crate::specs::Reading::and_then, crate::specs::Reading::at_path, crate::specs::Reading::field))]
pub fn field<'a>(
    alloc: Global,
    value: &'a Value,
    name: &str,
    path: &Path,
) -> Result<Option<&'a Value>, ReadFail>
    ensures { Answers (seen (option_map (λ v. view v.now)) result) (reading.field name.now path.now (view value.now)) }
{
    if value.is_object() {
        Ok(value.get(name))
    } else {
        Err(refusal(alloc, Cause::OtherKind, path.here()))
    }
}

// Whether a key is one of the names.
fn is_named(names: &[&str], key: &str) -> bool
    ensures { result ≡ reading.is_named (map (λ name. name.now) names.now) key.now }
{
    names.iter().any(|name| *name == key)
}

// The first key, in byte order, that is none of the names.
fn first_unknown<'a>(members: &'a Map<String, Value>, names: &[&str]) -> Option<&'a String>
    ensures { option_map (λ key. string_bytes key.now) result
        ≡ unknown_key (map (λ name. name.now) names.now) (members_view members.now.entries) }
{
    members.keys().find(|key| !is_named(names, key.as_str()))
}

/// Refuses an object that has another field than `names`.
///
/// The first such key in byte order is refused with the cause `UnknownKey`, at the path of its field.
/// Another value than an object is refused with the cause `OtherKind`, at `path`.
#[tactic(auto, unfolding(crate::specs::Reading::and_then, crate::specs::Reading::at_path, crate::specs::Reading::known, crate::specs::Reading::if_unknown))]
pub fn known(alloc: Global, value: &Value, names: &[&str], path: &Path) -> Result<(), ReadFail>
    ensures { Answers result (reading.known (map (λ name. name.now) names.now) path.now (view value.now)) }
{
    match value.as_object() {
        None => Err(refusal(alloc, Cause::OtherKind, path.here())),
        Some(members) => match first_unknown(members, names) {
            None => Ok(()),
            Some(key) => Err(refusal(alloc, Cause::UnknownKey, path.field(key.as_str()))),
        },
    }
}
