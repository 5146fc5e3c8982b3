//! What stands at the keys of an object.
ghost use Rattle.std.specs.Prelude.{◌≡◌, codes, map, option_map};
ghost use Rattle.serde_json.specs.View.{view};
ghost use Rattle.life_script.specs.Reading.{has_key, number_at, string_at, bool_at, status_at, asks_at, is_null_at, items_in, items_at, is_string};

use http::StatusCode;
use serde_json::Value;

/// The most asks of one poll that are read.
const MAX_ASKS: u8 = 16;

/// Whether an object has this key.
pub fn has(value: &Value, key: &str) -> bool
    ensures { result ≡ has_key key.now (view value.now) }
{
    value.get(key).is_some()
}

/// The number at a key.
pub fn number_at(value: &Value, key: &str) -> Option<u64>
    ensures { result ≡ number_at key.now (view value.now) }
{
    value.get(key)?.as_u64()
}

/// The text of the string at a key.
pub fn string_at<'v>(value: &'v Value, key: &str) -> Option<&'v str>
    ensures { option_map (λ text. text.now) result ≡ string_at key.now (view value.now) }
{
    value.get(key)?.as_str()
}

/// True or false, at a key.
pub fn bool_at(value: &Value, key: &str) -> Option<bool>
    ensures { result ≡ bool_at key.now (view value.now) }
{
    value.get(key)?.as_bool()
}

/// The status at a key.
pub fn status_at(value: &Value, key: &str) -> Option<StatusCode>
    ensures { result ≡ status_at key.now (view value.now) }
{
    let number = number_at(value, key)?;
    let number = u16::try_from(number).ok()?;
    StatusCode::from_u16(number).ok()
}

/// The number of asks at a key.
pub fn asks_at(value: &Value, key: &str) -> Option<u8>
    ensures { result ≡ asks_at key.now (view value.now) }
{
    let number = number_at(value, key)?;
    let number = u8::try_from(number).ok()?;
    if number <= MAX_ASKS {
        Some(number)
    } else {
        None
    }
}

/// Whether the value at a key is there, and is null.
pub fn is_null_at(value: &Value, key: &str) -> bool
    ensures { result ≡ is_null_at key.now (view value.now) }
{
    match value.get(key) {
        Some(found) => found.is_null(),
        None => false,
    }
}

/// The items of an array.
pub fn items_in(value: &Value) -> Option<&[Value]>
    ensures { option_map (λ items. map view items.now) result ≡ items_in (view value.now) }
{
    let items = value.as_array()?;
    Some(items.as_slice())
}

/// The items of the array at a key.
pub fn items_at<'v>(value: &'v Value, key: &str) -> Option<&'v [Value]>
    ensures { option_map (λ items. map view items.now) result ≡ items_at key.now (view value.now) }
{
    items_in(value.get(key)?)
}

/// Whether it is this string.
pub fn is_string(value: &Value, text: &str) -> bool
    ensures { result ≡ is_string text.now (view value.now) }
{
    match value.as_str() {
        Some(found) => found == text,
        None => false,
    }
}
