//! The hooks that watch a request, and what they leave to be called where it is dropped early.
ghost use Rattle.std.specs.Prelude.{◌≡◌, ℕ, IfOk, Result};
ghost use Rattle.life_core.specs.Moment.{Moment};
ghost use Rattle.life_core.specs.Recorded.{Recorded};
ghost use Rattle.life_core.specs.declared.message.Request.{Request};
ghost use Rattle.life_core.specs.declared.message.ResponseHead.{ResponseHead};
ghost use Rattle.life_core.specs.declared.recorder.NoMemory.{NoMemory};

use life_core::{Got, Recorder, Request, ResponseHead, Span};
use std::alloc::Global;

/// Called where what it watches is dropped early. It may be dropped itself, which calls nothing.
pub trait OnDropCallback<L: Recorder>: Drop {
    /// It may be called.
    ghost may: { Self → Type 0 };

    /// What calling it at a time means.
    ghost drops: { Self → ℕ → Recorded → Result Unit NoMemory → Recorded → Type 0 };

    /// Tells of the drop at `now`.
    fn on_drop(self, alloc: Global, now: u64, rec: &mut L) -> Got<()>
        requires { may self }
        ensures drops { drops self now (L.recorded rec.old) result (L.recorded rec.new) }
        ensures place { L.place rec.new ≡ L.place rec.old };
}

/// Makes the callback of a request's future.
pub trait OnFutureDrop<B, X, L: Recorder>: Drop {
    type Callback: OnDropCallback<L>;

    /// It may be called.
    ghost may: { Self → Type 0 };

    /// What a call of `make` means.
    ghost makes: { Self → Request B X → Moment → Result Self.Callback NoMemory → Self → Type 0 };

    /// The callback for a request that is called at `now`.
    fn make(
        &mut self,
        alloc: Global,
        request: &Request<B, X>,
        now: u64,
        span: &Option<Span>,
    ) -> Got<Self::Callback>
        requires { may self.old }
        ensures makes { makes self.old request.now (record { now = now; span = span.now })
            result self.new }
        ensures may { may self.new }
        ensures callback { IfOk result Self.Callback.may };
}

/// Makes the callback of a response's body in two steps: at the call of the request and at the response.
pub trait OnBodyDrop<B, X, L: Recorder>: Drop {
    type Intermediate: Drop;

    type Callback: OnDropCallback<L>;

    /// It may be called.
    ghost may: { Self → Type 0 };

    /// What was made at the call may be passed on at the response.
    ghost may_respond: { Self.Intermediate → Type 0 };

    /// What a call of `make_at_call` means.
    ghost makes_at_call: { Self → Request B X → Moment
        → Result Self.Intermediate NoMemory → Self → Type 0 };

    /// What a call of `make_at_response` means.
    ghost makes_at_response: { Self → Self.Intermediate → ResponseHead X
        → Result Self.Callback NoMemory → Self → Type 0 };

    /// What is kept of a request that is called at `now`.
    fn make_at_call(
        &mut self,
        alloc: Global,
        request: &Request<B, X>,
        now: u64,
        span: &Option<Span>,
    ) -> Got<Self::Intermediate>
        requires { may self.old }
        ensures makes { makes_at_call self.old request.now (record { now = now; span = span.now })
            result self.new }
        ensures may { may self.new }
        ensures intermediate { IfOk result may_respond };

    /// The callback for the body of this response.
    fn make_at_response(
        &mut self,
        alloc: Global,
        intermediate: Self::Intermediate,
        head: &ResponseHead<X>,
    ) -> Got<Self::Callback>
        requires may { may self.old }
        requires intermediate { may_respond intermediate }
        ensures makes { makes_at_response self.old intermediate head.now result self.new }
        ensures may { may self.new }
        ensures callback { IfOk result Self.Callback.may };
}
