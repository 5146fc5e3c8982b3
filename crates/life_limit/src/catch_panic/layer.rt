//! What makes `CatchPanic` services.
ghost use Rattle.std.specs.Prelude.{◌≡◌};

use crate::catch_panic::handler::DefaultResponseForPanic;
use crate::catch_panic::service::CatchPanic;
use life_core::{Got, Layer, Twin};
use std::alloc::Global;

/// Makes `CatchPanic` services.
#[derive(Drop)]
pub struct CatchPanicLayer<T> {
    panic_handler: T,
}

impl CatchPanicLayer<DefaultResponseForPanic> {
    ghost use Rattle.life_limit.specs.Catch.{catch_layer, default_handler};

    /// The layer with the default handler.
    pub fn new() -> CatchPanicLayer<DefaultResponseForPanic>
        ensures { result ≡ catch_layer default_handler }
    {
        CatchPanicLayer::custom(DefaultResponseForPanic)
    }
}

impl Default for CatchPanicLayer<DefaultResponseForPanic> {
    ghost use Rattle.life_limit.specs.Catch.{IsDefaultLayer};

    ghost is_default = { IsDefaultLayer };

    fn default() -> CatchPanicLayer<DefaultResponseForPanic> {
        CatchPanicLayer::new()
    }
}

impl<T> CatchPanicLayer<T> {
    ghost use Rattle.life_limit.specs.Catch.{catch_layer};

    /// The layer with this handler.
    pub fn custom(panic_handler: T) -> CatchPanicLayer<T>
        ensures { result ≡ catch_layer panic_handler }
    {
        CatchPanicLayer { panic_handler }
    }
}

impl<S, T: Twin> Layer<S> for CatchPanicLayer<T> {
    type Service = CatchPanic<S, T>;

    ghost use Rattle.life_limit.specs.Catch.{catch_service};

    ghost round = { λ layer inner. catch_service inner layer.panic_handler };

    fn layer(&self, alloc: Global, inner: S) -> Got<CatchPanic<S, T>>
    where
        S: Drop,
    {
        let panic_handler = self.panic_handler.twin(alloc)?;
        Ok(CatchPanic::custom(inner, panic_handler))
    }
}

impl<T: Twin> Twin for CatchPanicLayer<T> {
    fn twin(&self, alloc: Global) -> Got<CatchPanicLayer<T>> {
        let panic_handler = self.panic_handler.twin(alloc)?;
        Ok(CatchPanicLayer::custom(panic_handler))
    }
}
