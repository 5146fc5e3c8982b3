//! What judges a request.
ghost use Rattle.std.specs.Prelude.{◌≡◌};
ghost use Rattle.life_gate.specs.Gate.{Validates, ClosureValidates};

use life_core::{Got, HookFn, Request, Response};
use std::alloc::Global;

/// Judges requests. It may be dropped.
pub trait ValidateRequest<B, X>: Drop {
    /// The body of a refusal.
    type ResponseBody;

    /// It may be called.
    ghost may: { Self → Type 0 };

    /// What a call means.
    ghost validates: { Validates Self B Self.ResponseBody X };

    /// Lets the request pass, or answers the response that refuses it. It may change the request.
    fn validate(
        &mut self,
        alloc: Global,
        request: &mut Request<B, X>,
    ) -> Got<Result<(), Response<Self::ResponseBody, X>>>
        requires { may self.old }
        ensures validates { validates self.old request.old result self.new request.new }
        ensures may { may self.new };
}

impl<F, B, P, X> ValidateRequest<B, X> for HookFn<F>
where
    F: FnMut(Global, &mut Request<B, X>) -> Got<Result<(), Response<P, X>>> + Drop,
{
    type ResponseBody = P;

    // The closure may always be called.
    ghost may = { λ hook. F.IsAlwaysCallable hook.closure };

    ghost validates = { λ hook request answer after left.
        ClosureValidates F.FnMut hook.closure request answer after.closure left };

    fn validate(
        &mut self,
        alloc: Global,
        request: &mut Request<B, X>,
    ) -> Got<Result<(), Response<P, X>>> {
        (self.closure)(alloc, request)
    }
}
