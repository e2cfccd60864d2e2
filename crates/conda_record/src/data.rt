//! Which JSON values that borrow their text are data: a number is text there, and may be out of the
//! range of a float.

ghost use Rattle.std.specs.Prelude.{◌≡◌, ◌<◌, ◌==◌, length, slice_index, is_some, option_map, IsTrue, true, false};
ghost use Rattle.fast_float.specs.Text.{minus};
ghost use Rattle.json.specs.Value.{value_view, items_view, members_view};
ghost use Rattle.serde_json.specs.Data.{no_members};
ghost use Rattle.serde_json.specs.Find.{as_u64};
ghost use Rattle.serde_json.specs.Read.{number_of, number_from, float_of, of_json, of_items, of_members};

use fast_float::Numeral;
use json::Value;

/// Whether each number of a value, however deep, is in range.
#[cycle(is_data)]
pub fn is_data(value: &Value<'_>) -> bool
    ensures { result ≡ is_some (of_json (value_view value.now)) }
{
    match value {
        Value::Number(text) => number(text).is_some(),
        Value::Array(items) => are_items(items),
        Value::Object(members) => are_members(members),
        Value::Null | Value::Bool(_) | Value::String(_) => true,
    }
}

// Whether each number in the elements of an array is in range.
#[cycle(is_data)]
fn are_items(items: &Vec<Value<'_>>) -> bool
    ensures { result ≡ is_some (of_items (items_view items.now.items)) }
{
    for item in items {
        if !is_data(item) {
            return false;
        }
    }
    true
}

// Whether each number in the members of an object is in range.
#[cycle(is_data)]
fn are_members(members: &Vec<(&str, Value<'_>)>) -> bool
    ensures { result ≡ is_some (of_members (members_view members.now.items) no_members) }
{
    for member in members {
        if !is_data(&member.1) {
            return false;
        }
    }
    true
}

// None where a number is out of range, else whether it is a whole number from 0 to 2^64 - 1, and
// which one.
pub(crate) fn number(text: &str) -> Option<Option<u64>>
    ensures { result ≡ option_map as_u64 (number_of text.now) }
{
    let bytes = text.as_bytes();
    if has_minus(bytes) {
        negative(&Numeral::scan(&bytes[1..]))
    } else {
        unsigned(&Numeral::scan(bytes))
    }
}

// The same of the digits of a number without a sign.
fn unsigned(numeral: &Numeral<'_>) -> Option<Option<u64>>
    ensures { result ≡ option_map as_u64 (number_from false numeral.now) }
{
    match numeral.to_u64() {
        Some(n) => Some(Some(n)),
        None => nearest(false, numeral),
    }
}

// The same of the digits behind a minus sign.
fn negative(numeral: &Numeral<'_>) -> Option<Option<u64>>
    ensures { result ≡ option_map as_u64 (number_from true numeral.now) }
{
    if let Some(n) = numeral.to_i64(true) {
        if n < 0 {
            return Some(None);
        }
    }
    nearest(true, numeral)
}

// The same of digits that are read as the nearest float.
fn nearest(negative: bool, numeral: &Numeral<'_>) -> Option<Option<u64>>
    ensures { result ≡ option_map as_u64 (float_of negative numeral.now) }
{
    if numeral.to_float::<f64>(negative).is_finite() {
        Some(None)
    } else {
        None
    }
}

// Whether a text begins with a minus sign.
fn has_minus(bytes: &[u8]) -> bool
    ensures value { result ≡ (slice_index bytes.now 0 == minus) }
    ensures within { IsTrue result → 0 < length bytes.now }
{
    !bytes.is_empty() && bytes[0] == b'-'
}
