//! What is read of the layers: their limits.
ghost use Rattle.std.specs.Prelude.{◌≡◌, ℕ, IfOk, List, Some, None};
ghost use Rattle.serde_json.specs.View.{view};
ghost use Rattle.life_script.specs.Reading.{as_classifier, classifier_at, gate_of, limits_of, limits_with};

use crate::error::ReadError;
use crate::reading::fields::{bool_at, number_at, status_at, string_at};
use crate::reading::header::read_name;
use crate::scenario::Limits;
use http::HeaderName;
use life_classify::classify::DriveClassifier;
use life_core::Text;
use serde_json::Value;
use std::alloc::Global;

/// Reads the limits.
pub fn read_limits(alloc: Global, limits: &Value) -> Result<Limits, ReadError>
    ensures ok { IfOk result (λ found. limits_of (view limits.now) ≡ Some found) }
    ensures bad { result ≡ Err ReadError.BadScenario → limits_of (view limits.now) ≡ None }
{
    let gate = read_gate(alloc, limits)?;
    limits_with(limits, gate).ok_or(ReadError::BadScenario)
}

/// Reads the header that lets a request through and what its first value must be.
fn read_gate(alloc: Global, limits: &Value) -> Result<(HeaderName, Text), ReadError>
    ensures ok { IfOk result (λ (gate : List ℕ × List ℕ). gate_of (view limits.now) ≡ Some gate) }
    ensures bad { result ≡ Err ReadError.BadScenario → gate_of (view limits.now) ≡ None }
{
    let (Some(name), Some(value)) = (
        string_at(limits, "gate_name"),
        string_at(limits, "gate_value"),
    ) else {
        return Err(ReadError::BadScenario);
    };
    let name = read_name(alloc, name)?;
    Ok((name, Text::copy(alloc, value)?))
}

/// The classifier of this name.
fn as_classifier(text: &str) -> Option<DriveClassifier>
    ensures { result ≡ as_classifier text.now }
{
    match text {
        "http" => Some(DriveClassifier::Http),
        "grpc" => Some(DriveClassifier::Grpc),
        _ => None,
    }
}

/// The classifier at a key.
fn classifier_at(value: &Value, key: &str) -> Option<DriveClassifier>
    ensures { result ≡ classifier_at key.now (view value.now) }
{
    as_classifier(string_at(value, key)?)
}

/// How the layers are set, where the gate is set so.
fn limits_with(value: &Value, gate: (HeaderName, Text)) -> Option<Limits>
    ensures { result ≡ limits_with (view value.now) (gate.0, gate.1) }
{
    let timeout = number_at(value, "timeout")?;
    let timeout_status = status_at(value, "timeout_status")?;
    let body_deadline = number_at(value, "body_deadline")?;
    let byte_limit = number_at(value, "byte_limit")?;
    let classifier = classifier_at(value, "classifier")?;
    let span_headers = bool_at(value, "span_headers")?;
    let (gate_name, gate_value) = gate;
    Some(Limits {
        timeout,
        timeout_status,
        body_deadline,
        byte_limit,
        gate_name,
        gate_value,
        classifier,
        span_headers,
    })
}
