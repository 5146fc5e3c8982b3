//! Layers put together, after tower's `ServiceBuilder`.
ghost use Rattle.std.specs.Prelude.{◌≡◌, IfOk};

use crate::Got;
use crate::layer::{Identity, Layer, Stack};
use crate::twin::Twin;
use std::alloc::Global;

/// Collects layers. The one that is added first stands outermost.
#[derive(Debug, Drop)]
pub struct ServiceBuilder<L> {
    layer: L,
}

impl ServiceBuilder<Identity> {
    ghost use Rattle.life_core.specs.Layered.{identity, built};

    /// No layers yet.
    pub fn new() -> ServiceBuilder<Identity>
        ensures { result ≡ built identity }
    {
        ServiceBuilder {
            layer: Identity::new(),
        }
    }
}

impl<L> ServiceBuilder<L> {
    ghost use Rattle.life_core.specs.Layered.{built, layer_of, stacked};

    /// These layers round one more.
    pub fn layer<T>(self, layer: T) -> ServiceBuilder<Stack<T, L>>
        ensures { result ≡ built (stacked layer (layer_of self)) }
    {
        let ServiceBuilder { layer: outer } = self;
        ServiceBuilder {
            layer: Stack::new(layer, outer),
        }
    }

    /// All layers round this service.
    pub fn service<S: Drop>(self, alloc: Global, inner: S) -> Got<L::Service>
    where
        L: Layer<S> + Drop,
        ensures { IfOk result (λ made. made ≡ L.round (layer_of self) inner) }
    {
        let ServiceBuilder { layer } = self;
        layer.layer(alloc, inner)
    }
}

impl<L: Twin> Twin for ServiceBuilder<L> {
    fn twin(&self, alloc: Global) -> Got<ServiceBuilder<L>> {
        Ok(ServiceBuilder {
            layer: self.layer.twin(alloc)?,
        })
    }
}
