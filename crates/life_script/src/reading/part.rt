//! What is read of one value, and of the values of an array.
ghost use Rattle.std.specs.Prelude.{◌≡◌, IfOk, map};
ghost use Rattle.serde_json.specs.Data.{Data};
ghost use Rattle.serde_json.specs.View.{view};
ghost use Rattle.life_script.specs.Reading.{Read, Bad, Good, all_of, all_at};

use crate::error::ReadError;
use crate::reading::fields::items_at;
use life_core::List;
use serde_json::Value;
use std::alloc::Global;

/// What a value is read as.
pub trait Part: Drop {
    /// What a value says.
    ghost reads: { Data → Read Self };

    /// Reads a value.
    fn read(alloc: Global, value: &Value) -> Result<Self, ReadError>
        ensures ok { IfOk result (λ part. reads (view value.now) ≡ Good part) }
        ensures bad { result ≡ Err ReadError.BadScenario → reads (view value.now) ≡ Bad };
}

/// Reads each value.
fn read_all<T: Part>(alloc: Global, values: &[Value]) -> Result<List<T>, ReadError>
    ensures ok { IfOk result (λ list. all_of T.reads (map view values.now) ≡ Good list.items) }
    ensures bad { result ≡ Err ReadError.BadScenario → all_of T.reads (map view values.now) ≡ Bad }
{
    let mut list = List::new(alloc);
    for value in values {
        let part = T::read(alloc, value)?;
        list.push(part)?;
    }
    Ok(list)
}

/// Reads each value of the array at a key.
pub fn read_all_at<T: Part>(alloc: Global, value: &Value, key: &str) -> Result<List<T>, ReadError>
    ensures ok { IfOk result (λ list. all_at T.reads key.now (view value.now) ≡ Good list.items) }
    ensures bad { result ≡ Err ReadError.BadScenario →
        all_at T.reads key.now (view value.now) ≡ Bad }
{
    match items_at(value, key) {
        Some(items) => read_all(alloc, items),
        None => Err(ReadError::BadScenario),
    }
}
