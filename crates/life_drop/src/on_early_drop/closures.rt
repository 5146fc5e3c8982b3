//! Closures as hooks and callbacks.
ghost use Rattle.std.specs.Prelude.{◌≡◌, ℕ, Option, Result, Ok, IfOk};
ghost use Rattle.std.specs.Borrow.{Bor, MutBor};
ghost use Rattle.life_core.specs.declared.message.Request.{Request};
ghost use Rattle.life_core.specs.declared.message.ResponseHead.{ResponseHead};
ghost use Rattle.life_core.specs.declared.recorder.NoMemory.{NoMemory};
ghost use Rattle.life_core.specs.declared.span.Span.{Span};
ghost use Rattle.life_drop.specs.Closures.{ClosureDrops, ClosureMakes, ClosureResponds};

use crate::on_early_drop::traits::{OnBodyDrop, OnDropCallback, OnFutureDrop};
use life_core::{Got, HookFn, Recorder, Request, ResponseHead, Span, Twin};
use std::alloc::Global;

impl<F, L> OnDropCallback<L> for HookFn<F>
where
    L: Recorder,
    F: FnOnce(Global, u64, &mut L) -> Got<()> + Drop,
{
    // The closure may always be called, and leaves the references of the recorder.
    ghost may = { λ hook. F.IsAlwaysCallable hook.closure
        × ((alloc : _) (now : ℕ) (rec : MutBor L) (answer : Result Unit NoMemory) (left : MutBor L)
        → F.post hook.closure alloc now rec answer left → L.place left.now ≡ L.place rec.now) };

    ghost drops = { λ hook at was answer now.
        ClosureDrops F.FnOnce L.recorded hook.closure at was answer now };

    fn on_drop(self, alloc: Global, now: u64, rec: &mut L) -> Got<()> {
        let HookFn { closure } = self;
        closure(alloc, now, rec)
    }
}

impl<F, C, B, X, L> OnFutureDrop<B, X, L> for HookFn<F>
where
    L: Recorder,
    C: OnDropCallback<L>,
    F: FnMut(Global, &Request<B, X>, u64, &Option<Span>) -> Got<C> + Drop,
{
    type Callback = C;

    // The closure may always be called, and what it gives may be called.
    ghost may = { λ hook. F.IsAlwaysCallable hook.closure
        × ((before after : F) (alloc : _) (request : Bor (Request B X)) (now : ℕ)
        (span : Bor (Option Span)) (answer : Result C NoMemory)
        → F.step before alloc request now span answer after → IfOk answer C.may) };

    ghost makes = { λ hook request m answer after.
        ClosureMakes F.FnMut hook.closure request m answer after.closure };

    fn make(
        &mut self,
        alloc: Global,
        request: &Request<B, X>,
        now: u64,
        span: &Option<Span>,
    ) -> Got<C> {
        (self.closure)(alloc, request, now, span)
    }
}

/// A chain of three closures: the first is called at the call of the request, what it gives at the response, and
/// what that gives where the response's body is dropped early.
#[derive(Drop)]
pub struct OnBodyDropFn<F> {
    closure: F,
}

impl<F> OnBodyDropFn<F> {
    ghost use Rattle.life_drop.specs.declared.on_early_drop.closures.OnBodyDropFn.{OnBodyDropFn as Chain};

    /// The chain that begins with this closure.
    pub fn new(closure: F) -> OnBodyDropFn<F>
        ensures { result ≡ record { closure = closure } }
    {
        OnBodyDropFn { closure }
    }
}

impl<F: Copy> Twin for OnBodyDropFn<F> {
    /// An equal chain. It takes no memory.
    fn twin(&self, _alloc: Global) -> Got<OnBodyDropFn<F>>
        ensures { result ≡ Ok self.now }
    {
        Ok(OnBodyDropFn {
            closure: self.closure,
        })
    }
}

impl<F, G, C, B, X, L> OnBodyDrop<B, X, L> for OnBodyDropFn<F>
where
    L: Recorder,
    C: OnDropCallback<L>,
    G: FnOnce(Global, &ResponseHead<X>) -> Got<C> + Drop,
    F: FnMut(Global, &Request<B, X>, u64, &Option<Span>) -> Got<G> + Drop,
{
    type Intermediate = G;

    type Callback = C;

    // The closure may always be called, what it gives may be called, and what that gives in turn.
    ghost may = { λ hook. F.IsAlwaysCallable hook.closure
        × ((before after : F) (alloc : _) (request : Bor (Request B X)) (now : ℕ)
        (span : Bor (Option Span)) (answer : Result G NoMemory)
        → F.step before alloc request now span answer after → IfOk answer (λ given.
        G.IsAlwaysCallable given × ((alloc : _) (head : Bor (ResponseHead X))
        (answer : Result C NoMemory) → G.post given alloc head answer → IfOk answer C.may))) };

    ghost may_respond = { λ given. G.IsAlwaysCallable given
        × ((alloc : _) (head : Bor (ResponseHead X)) (answer : Result C NoMemory)
        → G.post given alloc head answer → IfOk answer C.may) };

    ghost makes_at_call = { λ hook request m answer after.
        ClosureMakes F.FnMut hook.closure request m answer after.closure };

    ghost makes_at_response = { λ hook given head answer after.
        ClosureResponds G.FnOnce given head answer × (after ≡ hook) };

    fn make_at_call(
        &mut self,
        alloc: Global,
        request: &Request<B, X>,
        now: u64,
        span: &Option<Span>,
    ) -> Got<G> {
        (self.closure)(alloc, request, now, span)
    }

    fn make_at_response(
        &mut self,
        alloc: Global,
        intermediate: G,
        head: &ResponseHead<X>,
    ) -> Got<C> {
        intermediate(alloc, head)
    }
}
