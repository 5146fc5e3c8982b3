//! What makes a service of a service, after tower's module `layer`.
ghost use Rattle.std.specs.Prelude.{◌≡◌, IfOk};

use crate::Got;
use crate::twin::Twin;
use std::alloc::Global;

/// Makes a service round another.
pub trait Layer<S> {
    type Service;

    /// The service that is made round an inner one.
    ghost round: { Self → S → Self.Service };

    /// A service round `inner`.
    fn layer(&self, alloc: Global, inner: S) -> Got<Self::Service>
    where
        S: Drop,
        ensures { IfOk result (λ made. made ≡ round self.now inner) };
}

/// Makes the inner service itself.
#[derive(Clone, Copy, Debug)]
pub struct Identity;

impl Identity {
    ghost use Rattle.life_core.specs.Layered.{identity};

    /// The layer that adds nothing.
    pub fn new() -> Identity
        ensures { result ≡ identity }
    {
        Identity
    }
}

impl<S> Layer<S> for Identity {
    type Service = S;

    ghost round = { λ _ inner. inner };

    fn layer(&self, _alloc: Global, inner: S) -> Got<S>
    where
        S: Drop,
    {
        Ok(inner)
    }
}

impl Twin for Identity {
    fn twin(&self, _alloc: Global) -> Got<Identity> {
        Ok(*self)
    }
}

/// Two layers, one round the other.
#[derive(Debug, Drop)]
pub struct Stack<I, O> {
    inner: I,
    outer: O,
}

impl<I, O> Stack<I, O> {
    ghost use Rattle.life_core.specs.Layered.{stacked};

    /// The service of `outer` round the one of `inner`.
    pub fn new(inner: I, outer: O) -> Stack<I, O>
        ensures { result ≡ stacked inner outer }
    {
        Stack { inner, outer }
    }
}

impl<S, I, O> Layer<S> for Stack<I, O>
where
    I: Layer<S>,
    I::Service: Drop,
    O: Layer<I::Service>,
{
    type Service = O::Service;

    ghost use Rattle.life_core.specs.Layered.{round_both};

    ghost round = { round_both I.round O.round };

    fn layer(&self, alloc: Global, inner: S) -> Got<O::Service>
    where
        S: Drop,
    {
        let middle = self.inner.layer(alloc, inner)?;
        self.outer.layer(alloc, middle)
    }
}

impl<I: Twin + Drop, O: Twin> Twin for Stack<I, O> {
    fn twin(&self, alloc: Global) -> Got<Stack<I, O>> {
        let inner = self.inner.twin(alloc)?;
        let outer = self.outer.twin(alloc)?;
        Ok(Stack { inner, outer })
    }
}
