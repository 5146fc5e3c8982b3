//! Hooks that do nothing.
ghost use Rattle.std.specs.Prelude.{◌≡◌, ⊤};
ghost use Rattle.life_drop.specs.Noop.{DropsNothing, MakesNoop, MakesNothing, RespondsNoop};

use crate::on_early_drop::traits::{OnBodyDrop, OnDropCallback, OnFutureDrop};
use life_core::{Got, Recorder, Request, ResponseHead, Span, Twin};
use std::alloc::Global;

/// A callback that does nothing.
#[derive(Clone, Copy)]
pub struct NoopDropCallback;

impl Twin for NoopDropCallback {
    fn twin(&self, _alloc: Global) -> Got<NoopDropCallback> {
        Ok(*self)
    }
}

impl<L: Recorder> OnDropCallback<L> for NoopDropCallback {
    ghost may = { λ _. ⊤ };

    ghost drops = { DropsNothing };

    fn on_drop(self, _alloc: Global, _now: u64, _rec: &mut L) -> Got<()> {
        Ok(())
    }
}

impl<B, X, L: Recorder> OnFutureDrop<B, X, L> for () {
    type Callback = NoopDropCallback;

    ghost may = { λ _. ⊤ };

    ghost makes = { MakesNoop };

    fn make(
        &mut self,
        _alloc: Global,
        _request: &Request<B, X>,
        _now: u64,
        _span: &Option<Span>,
    ) -> Got<NoopDropCallback> {
        Ok(NoopDropCallback)
    }
}

impl<B, X, L: Recorder> OnBodyDrop<B, X, L> for () {
    type Intermediate = ();

    type Callback = NoopDropCallback;

    ghost may = { λ _. ⊤ };

    ghost may_respond = { λ _. ⊤ };

    ghost makes_at_call = { MakesNothing };

    ghost makes_at_response = { RespondsNoop };

    fn make_at_call(
        &mut self,
        _alloc: Global,
        _request: &Request<B, X>,
        _now: u64,
        _span: &Option<Span>,
    ) -> Got<()> {
        Ok(())
    }

    fn make_at_response(
        &mut self,
        _alloc: Global,
        _intermediate: (),
        _head: &ResponseHead<X>,
    ) -> Got<NoopDropCallback> {
        Ok(NoopDropCallback)
    }
}
