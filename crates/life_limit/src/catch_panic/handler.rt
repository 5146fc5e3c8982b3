//! Handlers of panics.
ghost use Rattle.std.specs.Prelude.{◌≡◌, ℕ, IfOk, Result, ⊤};
ghost use Rattle.std.specs.Borrow.{MutBor};
ghost use Rattle.life_core.specs.declared.fault.PanicText.{PanicText};
ghost use Rattle.life_core.specs.declared.message.Response.{Response};
ghost use Rattle.life_core.specs.declared.recorder.NoMemory.{NoMemory};
ghost use Rattle.life_limit.specs.Catch.{Handles, DefaultHandles, ClosureHandles, IsDefaultHandler};

use bytes::Bytes;
use http::StatusCode;
use life_core::{
    Event, Full, Got, HookFn, Level, PanicText, Recorder, Response, ResponseHead, Spend, Twin,
};
use std::alloc::Global;

/// Makes responses to panics. It may be dropped.
pub trait ResponseForPanic<X, L: Recorder>: Drop {
    type ResponseBody: Spend<L>;

    /// It may be called.
    ghost may: { Self → Type 0 };

    /// What a call means.
    ghost handles: { Handles Self Self.ResponseBody X };

    /// The response to a panic that said this.
    fn response_for_panic(
        &mut self,
        alloc: Global,
        err: PanicText,
        rec: &mut L,
    ) -> Got<Response<Self::ResponseBody, X>>
        requires { may self.old }
        ensures handles { handles self.old err (L.recorded rec.old) result self.new
            (L.recorded rec.new) }
        ensures may { may self.new }
        ensures body { IfOk result (λ response. Self.ResponseBody.may response.body) }
        ensures place { L.place rec.new ≡ L.place rec.old };
}

/// Records the panic at level `Error`, and answers 500 with a plain text that does not tell it.
#[derive(Clone, Copy, Debug)]
pub struct DefaultResponseForPanic;

impl Default for DefaultResponseForPanic {
    ghost is_default = { IsDefaultHandler };

    fn default() -> DefaultResponseForPanic {
        DefaultResponseForPanic
    }
}

impl Twin for DefaultResponseForPanic {
    fn twin(&self, _alloc: Global) -> Got<DefaultResponseForPanic> {
        Ok(*self)
    }
}

impl<X: Default + Drop, L: Recorder> ResponseForPanic<X, L> for DefaultResponseForPanic {
    type ResponseBody = Full;

    ghost may = { λ _. ⊤ };

    ghost handles = { DefaultHandles X.is_default };

    fn response_for_panic(
        &mut self,
        alloc: Global,
        err: PanicText,
        rec: &mut L,
    ) -> Got<Response<Full, X>> {
        rec.note(Event::Panic {
            level: Level::Error,
            text: err,
        })?;
        let head = ResponseHead::text(alloc, StatusCode::INTERNAL_SERVER_ERROR)?;
        let body = Full::new(Bytes::from_static(b"Service panicked"));
        Ok(Response::from_parts(head, body))
    }
}

impl<F, P, X, L> ResponseForPanic<X, L> for HookFn<F>
where
    L: Recorder,
    P: Spend<L>,
    F: FnMut(Global, PanicText, &mut L) -> Got<Response<P, X>> + Drop,
{
    type ResponseBody = P;

    // The closure may always be called, leaves the references of the recorder, and gives bodies that may be
    // called.
    ghost may = { λ hook. F.IsAlwaysCallable hook.closure
        × ((before after : F) (alloc : _) (text : PanicText) (rec : MutBor L)
        (answer : Result (Response P X) NoMemory) (left : MutBor L)
        → F.step before alloc text rec answer left after → (L.place left.now ≡ L.place rec.now)
        × IfOk answer (λ response. P.may response.body)) };

    ghost handles = { λ hook text was answer after now.
        ClosureHandles F.FnMut L.recorded hook.closure text was answer after.closure now };

    fn response_for_panic(
        &mut self,
        alloc: Global,
        err: PanicText,
        rec: &mut L,
    ) -> Got<Response<P, X>> {
        (self.closure)(alloc, err, rec)
    }
}
