//! A caller: any service, behind a limit of its request bodies and with its panics caught.
#![tactic(auto)]

ghost use Rattle.std.specs.Prelude.{◌≡◌, IfOk};
ghost use Rattle.life_limit.specs.Catch.{catch_service, default_handler};
ghost use Rattle.life_limit.specs.Limit.{limit_service};

use life_core::{Got, ServiceBuilder};
use life_limit::catch_panic::{CatchPanic, CatchPanicLayer, DefaultResponseForPanic};
use life_limit::limit::{RequestBodyLimit, RequestBodyLimitLayer};
use std::alloc::Global;

/// A service behind a limit, its panics caught.
pub type Guarded<S> = RequestBodyLimit<CatchPanic<S, DefaultResponseForPanic>>;

/// The service, guarded: a request body has at most `limit` bytes.
pub fn guarded<S: Drop>(alloc: Global, service: S, limit: u64) -> Got<Guarded<S>>
    ensures { IfOk result (λ made.
        made ≡ limit_service (catch_service service default_handler) limit) }
{
    ServiceBuilder::new()
        .layer(RequestBodyLimitLayer::new(limit))
        .layer(CatchPanicLayer::new())
        .service(alloc, service)
}

#[cfg(test)]
mod tests;
