//! The refusal of this module's validators.
ghost use Rattle.life_gate.specs.Judged.{IsBareRefusal};

use http::StatusCode;
use life_core::{Response, ResponseHead};
use std::alloc::Global;

/// A response with this status, HTTP/1.1, no headers, a default extension and a default body.
pub(crate) fn bare_refusal<R: Default, X: Default>(
    alloc: Global,
    status: StatusCode,
) -> Response<R, X>
    ensures { IsBareRefusal R.is_default X.is_default status result }
{
    Response::from_parts(ResponseHead::bare(alloc, status), R::default())
}
