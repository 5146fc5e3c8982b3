//! Header fields that layers read and write.
ghost use Rattle.std.specs.Prelude.{◌≡◌, IfOk, OnOk};
ghost use Rattle.http_header.specs.HeaderMap.{get};
ghost use Rattle.life_core.specs.Header.{put_in};

use crate::Got;
use crate::recorder::NoMemory;
use crate::twin::Twin;
use http::header::{HeaderMap, HeaderMapError, HeaderName, HeaderValue};
use std::alloc::Global;

/// The first value under the name, as one of its own.
pub fn first_value(headers: &HeaderMap, name: &HeaderName) -> Got<Option<HeaderValue>>
    ensures { IfOk result (λ value. value ≡ get headers.now name.now) }
{
    match headers.get(name) {
        Some(value) => match value.clone() {
            Ok(twin) => Ok(Some(twin)),
            Err(_) => Err(NoMemory),
        },
        None => Ok(None),
    }
}

/// Inserts under a name of its own.
fn insert_in(headers: &mut HeaderMap, key: HeaderName, value: HeaderValue) -> Got<()>
    ensures { OnOk result (headers.new ≡ put_in headers.old key value) }
{
    match headers.insert(key, value) {
        Ok(_) => Ok(()),
        Err(HeaderMapError::MaxSizeReached) => Ok(()),
        Err(HeaderMapError::OutOfMemory) => Err(NoMemory),
    }
}

/// Puts the value in place of all those under the name. A map that is full stays as it is.
pub fn put_value(headers: &mut HeaderMap, name: &HeaderName, value: HeaderValue) -> Got<()>
    ensures { OnOk result (headers.new ≡ put_in headers.old name.now value) }
{
    let Ok(key) = name.clone() else {
        return Err(NoMemory);
    };
    insert_in(headers, key, value)
}

impl Twin for HeaderName {
    fn twin(&self, _alloc: Global) -> Got<HeaderName> {
        match self.clone() {
            Ok(twin) => Ok(twin),
            Err(_) => Err(NoMemory),
        }
    }
}

impl Twin for HeaderValue {
    fn twin(&self, _alloc: Global) -> Got<HeaderValue> {
        match self.clone() {
            Ok(twin) => Ok(twin),
            Err(_) => Err(NoMemory),
        }
    }
}

impl Twin for HeaderMap {
    #[tactic(auto, using(crate::proofs::Headers::map_same))]
    fn twin(&self, _alloc: Global) -> Got<HeaderMap> {
        match self.clone() {
            Ok(twin) => Ok(twin),
            Err(_) => Err(NoMemory),
        }
    }
}
