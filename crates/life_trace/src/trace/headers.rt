//! Headers that are told where they are asked for.
ghost use Rattle.std.specs.Prelude.{◌≡◌, IfOk, IsTrue, OnErr};
ghost use Rattle.life_trace.specs.Headers as spec;

use http::HeaderMap;
use life_core::{Fields, Got};
use std::alloc::Global;

/// The headers as they are shown, where they are asked for. Else it takes no memory.
pub(crate) fn headers_told(alloc: Global, include: bool, headers: &HeaderMap) -> Got<Option<Fields>>
    ensures told { IfOk result (λ told. told ≡ spec.headers_told include headers.now) }
    ensures asked { OnErr result (IsTrue include) }
{
    if include {
        Ok(Some(Fields::of(alloc, headers)?))
    } else {
        Ok(None)
    }
}
