//! Scenarios read from bytes.
ghost use Rattle.std.specs.Prelude.{◌≡◌, IfOk};
ghost use Rattle.serde_json.specs.View.{view};
ghost use Rattle.life_script.specs.Reading.{OrNoMemory, Reads, IsBadScenario, is_version_1, HasScenario, IsScenario};

mod client;
mod fields;
mod header;
mod layers;
mod part;
mod request;
mod service;

use crate::error::ReadError;
use crate::scenario::{Limits, Scenario, Step};
use fields::{items_at, number_at};
use layers::read_limits;
use part::read_all_at;
use request::read_scripts;
use serde_json::Value;
use std::alloc::Global;

/// Reads a scenario. It is bad where the bytes are not UTF-8 or not JSON, or have not the shape of a
/// scenario. So each answer but want of memory comes by its cause, and by nothing else.
pub fn read_scenario(alloc: Global, bytes: &[u8]) -> Result<(Limits, Scenario), ReadError>
    ensures read { IfOk result (λ read. Reads bytes.now read.0 read.1) }
    ensures bad { result ≡ Err ReadError.BadScenario → IsBadScenario bytes.now }
    ensures whole { (limits : _) (scenario : _) → Reads bytes.now limits scenario
        → OrNoMemory result (Ok (limits, scenario)) }
    ensures each_bad { IsBadScenario bytes.now → OrNoMemory result (Err ReadError.BadScenario) }
{
    read_text(alloc, bytes)
}

/// The same, by the tree of the text.
fn read_text(alloc: Global, bytes: &[u8]) -> Result<(Limits, Scenario), ReadError>
    ensures read { IfOk result (λ read. Reads bytes.now read.0 read.1) }
    ensures bad { result ≡ Err ReadError.BadScenario → IsBadScenario bytes.now }
{
    match Value::from_slice(alloc, bytes) {
        Ok(top) => read_top(alloc, &top),
        Err(error) => {
            if error.is_memory() {
                Err(ReadError::NoMemory)
            } else {
                Err(ReadError::BadScenario)
            }
        }
    }
}

/// Reads the tree of a text.
fn read_top(alloc: Global, top: &Value) -> Result<(Limits, Scenario), ReadError>
    ensures ok { IfOk result (λ read. IsScenario (view top.now) read.0 read.1) }
    ensures bad { result ≡ Err ReadError.BadScenario →
        (limits : _) (scenario : _) → ¬ (IsScenario (view top.now) limits scenario) }
{
    if !is_version_1(top) {
        return Err(ReadError::BadScenario);
    }
    let Some(limits) = top.get("limits") else {
        return Err(ReadError::BadScenario);
    };
    let limits = read_limits(alloc, limits)?;
    let scenario = read_parts(alloc, top)?;
    Ok((limits, scenario))
}

/// Whether the version is the one that is read.
fn is_version_1(top: &Value) -> bool
    ensures { result ≡ is_version_1 (view top.now) }
{
    number_at(top, "version") == Some(1)
}

/// Reads the requests, the steps and the end.
fn read_parts(alloc: Global, top: &Value) -> Result<Scenario, ReadError>
    ensures ok { IfOk result (HasScenario (view top.now)) }
    ensures bad { result ≡ Err ReadError.BadScenario →
        (scenario : _) → ¬ (HasScenario (view top.now) scenario) }
{
    let Some(requests) = items_at(top, "requests") else {
        return Err(ReadError::BadScenario);
    };
    let requests = read_scripts(alloc, requests)?;
    let steps = read_all_at::<Step>(alloc, top, "steps")?;
    let Some(end) = number_at(top, "end") else {
        return Err(ReadError::BadScenario);
    };
    Ok(Scenario {
        requests,
        steps,
        end,
    })
}
