//! What makes `OnEarlyDropService` services.
ghost use Rattle.std.specs.Prelude.{◌≡◌, IfOk};

use crate::on_early_drop::service::OnEarlyDropService;
use life_core::{Got, Layer, Twin};
use std::alloc::Global;

/// Makes services that watch each request, by a hook for its future and one for the body of its response.
#[derive(Drop)]
pub struct OnEarlyDropLayer<OFD, OBD> {
    on_future_drop: OFD,
    on_body_drop: OBD,
}

impl OnEarlyDropLayer<(), ()> {
    ghost use Rattle.life_drop.specs.EarlyService.{early_layer};

    /// The layer with no hooks, to be given one or both.
    pub fn builder() -> OnEarlyDropLayer<(), ()>
        ensures { result ≡ early_layer tt tt }
    {
        OnEarlyDropLayer {
            on_future_drop: (),
            on_body_drop: (),
        }
    }
}

impl<H: Twin + Drop> OnEarlyDropLayer<H, H> {
    ghost use Rattle.life_drop.specs.EarlyService.{early_layer};

    /// The layer with this hook in both places.
    pub fn new(alloc: Global, hook: H) -> Got<OnEarlyDropLayer<H, H>>
        ensures { IfOk result (λ layer. layer ≡ early_layer hook hook) }
    {
        let on_future_drop = hook.twin(alloc)?;
        Ok(OnEarlyDropLayer {
            on_future_drop,
            on_body_drop: hook,
        })
    }
}

impl<OFD, OBD> OnEarlyDropLayer<OFD, OBD> {
    ghost use Rattle.life_drop.specs.EarlyService.{early_layer};

    /// The layer with another hook for futures. The hook for bodies stays.
    pub fn on_future_drop<N>(self, hook: N) -> OnEarlyDropLayer<N, OBD>
    where
        OFD: Drop,
        ensures { result ≡ early_layer hook self.on_body_drop }
    {
        let OnEarlyDropLayer {
            on_future_drop: _,
            on_body_drop,
        } = self;
        OnEarlyDropLayer {
            on_future_drop: hook,
            on_body_drop,
        }
    }

    /// The layer with another hook for bodies. The hook for futures stays.
    pub fn on_body_drop<N>(self, hook: N) -> OnEarlyDropLayer<OFD, N>
    where
        OBD: Drop,
        ensures { result ≡ early_layer self.on_future_drop hook }
    {
        let OnEarlyDropLayer {
            on_future_drop,
            on_body_drop: _,
        } = self;
        OnEarlyDropLayer {
            on_future_drop,
            on_body_drop: hook,
        }
    }
}

impl<S, OFD: Twin + Drop, OBD: Twin> Layer<S> for OnEarlyDropLayer<OFD, OBD> {
    type Service = OnEarlyDropService<S, OFD, OBD>;

    ghost use Rattle.life_drop.specs.EarlyService.{early_service};

    ghost round = { λ layer inner. early_service inner layer.on_future_drop layer.on_body_drop };

    fn layer(&self, alloc: Global, inner: S) -> Got<OnEarlyDropService<S, OFD, OBD>>
    where
        S: Drop,
    {
        let on_future_drop = self.on_future_drop.twin(alloc)?;
        let on_body_drop = self.on_body_drop.twin(alloc)?;
        Ok(OnEarlyDropService::new(inner, on_future_drop, on_body_drop))
    }
}

impl<OFD: Twin + Drop, OBD: Twin> Twin for OnEarlyDropLayer<OFD, OBD> {
    fn twin(&self, alloc: Global) -> Got<OnEarlyDropLayer<OFD, OBD>> {
        let on_future_drop = self.on_future_drop.twin(alloc)?;
        let on_body_drop = self.on_body_drop.twin(alloc)?;
        Ok(OnEarlyDropLayer {
            on_future_drop,
            on_body_drop,
        })
    }
}
