//! Values that must be spent.
ghost use Rattle.std.specs.Prelude.{IfOk};
ghost use Rattle.life_core.specs.Moment.{moment_of, SameContext};
ghost use Rattle.life_core.specs.Calls.{Abandons};

use crate::Got;
use crate::context::Cx;
use crate::message::{Request, Response};
use crate::recorder::Recorder;

/// A future or a body. To abandon it is the only way to be rid of it.
pub trait Spend<L: Recorder> {
    /// What it holds may be called.
    ghost may: { Self → Type 0 };

    /// What abandoning it means.
    ghost abandons: { Abandons Self };

    /// Gives it up. It is spent whatever is answered.
    fn abandon(self, cx: &mut Cx<'_, L>) -> Got<()>
        requires { may self }
        ensures abandons { abandons self (L.recorded cx.old.rec.now) (moment_of cx.old) result
            (L.recorded cx.new.rec.now) }
        ensures context { SameContext L.place cx.old cx.new };
}

/// What a message promises of the body in it.
pub trait Sound<L: Recorder> {
    /// What its body holds may be called.
    ghost sound: { Self → Type 0 };
}

impl<B: Spend<L>, X, L: Recorder> Sound<L> for Request<B, X> {
    ghost sound = { λ request. B.may request.body };
}

impl<B: Spend<L>, X, L: Recorder> Sound<L> for Response<B, X> {
    ghost sound = { λ response. B.may response.body };
}

impl<T: Sound<L>, E, L: Recorder> Sound<L> for Result<T, E> {
    ghost sound = { λ answer. IfOk answer T.sound };
}
