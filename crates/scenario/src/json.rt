//! What members of JSON objects say.
ghost use Rattle.std.specs.Prelude.{◌≡◌, map, option_map, option_and_then};
ghost use Rattle.serde_json.specs.Find.{as_array, as_bool, as_number, as_u64, get};
ghost use Rattle.serde_json.specs.View.{view, members_view};
ghost use Rattle.scenario.specs.Json.{number_of_json, list, number_member, flag_at, text_at, list_at, number_or, flag_or, list_or_none, counted_members, count_members, only};

use serde_json::{Map, Value};

/// A whole number.
pub fn number(value: &Value) -> Option<u64>
    ensures { result ≡ number_of_json (view value.now) }
{
    value.as_u64()
}

/// The values of a list.
#[tactic(auto, using(crate::proofs::Members::values_of_view))]
pub fn list(value: &Value) -> Option<&[Value]>
    ensures { option_map (λ values. map view values.now) result ≡ list (view value.now) }
{
    Some(value.as_array()?.as_slice())
}

/// The whole number at a name of an object.
pub fn number_at(name: &str, value: &Value) -> Option<u64>
    ensures { result ≡ number_member name.now (view value.now) }
{
    value.get(name)?.as_u64()
}

/// Whether a member of an object says `true`.
pub fn flag_at(name: &str, value: &Value) -> Option<bool>
    ensures { result ≡ flag_at name.now (view value.now) }
{
    value.get(name)?.as_bool()
}

/// The text at a name of an object.
pub fn text_at<'v>(name: &str, value: &'v Value) -> Option<&'v str>
    ensures { option_map (λ text. text.now) result ≡ text_at name.now (view value.now) }
{
    value.get(name)?.as_str()
}

/// The list at a name of an object.
pub fn list_at<'v>(name: &str, value: &'v Value) -> Option<&'v [Value]>
    ensures { option_map (λ values. map view values.now) result ≡ list_at name.now (view value.now) }
{
    list(value.get(name)?)
}

/// The whole number at a name of an object, or this one where the member is left out.
pub fn number_or(left_out: u64, name: &str, value: &Value) -> Option<u64>
    ensures { result ≡ number_or left_out name.now (view value.now) }
{
    match value.get(name) {
        Some(said) => said.as_u64(),
        None => Some(left_out),
    }
}

/// Whether a member of an object says `true`, or this where it is left out.
pub fn flag_or(left_out: bool, name: &str, value: &Value) -> Option<bool>
    ensures { result ≡ flag_or left_out name.now (view value.now) }
{
    match value.get(name) {
        Some(said) => said.as_bool(),
        None => Some(left_out),
    }
}

/// The list at a name of an object, or an empty one where the member is left out.
pub fn list_or_none<'v>(name: &str, value: &'v Value) -> Option<&'v [Value]>
    ensures { option_map (λ values. map view values.now) result ≡ list_or_none name.now (view value.now) }
{
    match value.get(name) {
        Some(said) => list(said),
        None => Some(&[]),
    }
}

/// How many members of a name there are: none or one.
pub fn counted(name: &str, value: &Value) -> usize
    ensures { result ≡ counted_members name.now (view value.now) }
{
    usize::from(value.get(name).is_some())
}

#[tactic(auto, using(crate::proofs::Members::count_members_of_view))]
fn count_members(members: &Map<String, Value>) -> usize
    ensures { result ≡ count_members (members_view members.now.entries) }
{
    members.len()
}

/// What was read of an object, if it has so many members, and so no others than those that were read.
pub fn only<T: Drop>(count: usize, value: &Value, said: T) -> Option<T>
    ensures { result ≡ only count (view value.now) said }
{
    let members = value.as_object()?;
    (count_members(members) == count).then_some(said)
}
