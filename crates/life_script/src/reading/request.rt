//! What is read of the requests: their scripts.
ghost use Rattle.std.specs.Prelude.{◌≡◌, IfOk, map};
ghost use Rattle.serde_json.specs.View.{view};
ghost use Rattle.life_script.specs.Reading.{HasMethod, HasTarget, IsScript, AreScripts};

use crate::error::ReadError;
use crate::reading::fields::string_at;
use crate::reading::service::{read_message, read_service};
use crate::scenario::{Script, Scripts, share_list};
use http::method::MethodError;
use http::{Method, Uri};
use http_uri::UriError;
use life_core::List;
use serde_json::Value;
use std::alloc::Global;

/// Reads the method of a request.
fn read_method(alloc: Global, value: &Value) -> Result<Method, ReadError>
    ensures ok { IfOk result (HasMethod (view value.now)) }
    ensures bad { result ≡ Err ReadError.BadScenario →
        (method : _) → ¬ (HasMethod (view value.now) method) }
{
    let Some(text) = string_at(value, "method") else {
        return Err(ReadError::BadScenario);
    };
    match Method::from_bytes(alloc, text.as_bytes()) {
        Ok(method) => Ok(method),
        Err(MethodError::Invalid) => Err(ReadError::BadScenario),
        Err(MethodError::OutOfMemory) => Err(ReadError::NoMemory),
    }
}

/// Reads the target of a request.
fn read_target(alloc: Global, value: &Value) -> Result<Uri, ReadError>
    ensures ok { IfOk result (HasTarget (view value.now)) }
    ensures bad { result ≡ Err ReadError.BadScenario →
        (uri : _) → ¬ (HasTarget (view value.now) uri) }
{
    let Some(text) = string_at(value, "uri") else {
        return Err(ReadError::BadScenario);
    };
    match Uri::from_str(alloc, text) {
        Ok(uri) => Ok(uri),
        Err(UriError::Invalid(_)) => Err(ReadError::BadScenario),
        Err(UriError::OutOfMemory) => Err(ReadError::NoMemory),
    }
}

/// Reads the script of a request.
fn read_script(alloc: Global, value: &Value) -> Result<Script, ReadError>
    ensures ok { IfOk result (IsScript (view value.now)) }
    ensures bad { result ≡ Err ReadError.BadScenario →
        (script : _) → ¬ (IsScript (view value.now) script) }
{
    let method = read_method(alloc, value)?;
    let uri = read_target(alloc, value)?;
    let (headers, body) = read_message(alloc, value)?;
    let (call, polls) = read_service(alloc, value)?;
    Ok(Script {
        method,
        uri,
        headers,
        body: share_list(alloc, body)?,
        call,
        polls: share_list(alloc, polls)?,
    })
}

/// Reads the scripts of the requests.
pub fn read_scripts(alloc: Global, values: &[Value]) -> Result<Scripts, ReadError>
    ensures ok { IfOk result (λ scripts. AreScripts (map view values.now) scripts.items) }
    ensures bad { result ≡ Err ReadError.BadScenario →
        (scripts : _) → ¬ (AreScripts (map view values.now) scripts) }
{
    let mut scripts = List::new(alloc);
    for value in values {
        let script = read_script(alloc, value)?;
        scripts.push(script)?;
    }
    Ok(scripts)
}
