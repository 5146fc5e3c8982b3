//! What is read of the client: its steps.
ghost use Rattle.std.specs.Prelude.{◌≡◌};
ghost use Rattle.serde_json.specs.View.{view};
ghost use Rattle.life_script.specs.Reading.{act_of, step_of, step_part};

use crate::error::ReadError;
use crate::reading::part::Part;
use crate::scenario::{Act, Step};
use serde_json::Value;
use std::alloc::Global;

/// What is done with a request.
fn act_of(text: &str) -> Option<Act>
    ensures { result ≡ act_of text.now }
{
    match text {
        "call" => Some(Act::Call),
        "poll" => Some(Act::Poll),
        "drop" => Some(Act::Drop),
        _ => None,
    }
}

/// The step that an array is.
fn step_of(value: &Value) -> Option<Step>
    ensures { result ≡ step_of (view value.now) }
{
    let [at, request, act] = value.as_array()?.as_slice() else {
        return None;
    };
    let at = at.as_u64()?;
    let request = request.as_u64()?;
    let act = act_of(act.as_str()?)?;
    Some(Step { at, request, act })
}

impl Part for Step {
    ghost reads = { step_part };

    fn read(_alloc: Global, value: &Value) -> Result<Step, ReadError> {
        step_of(value).ok_or(ReadError::BadScenario)
    }
}
