//! Values that give a future for each request.
ghost use Rattle.std.specs.Prelude.{IfOk};
ghost use Rattle.life_core.specs.Moment.{moment_of, SameContext};
ghost use Rattle.life_core.specs.Calls.{Readies, Calls};

use crate::Got;
use crate::context::Cx;
use crate::future::Future;
use crate::poll::Poll;
use crate::recorder::Recorder;
use crate::spend::Sound;

/// A service, after tower's.
pub trait Service<R: Sound<L>, L: Recorder> {
    type Response: Sound<L>;

    type Error;

    type Future: Future<L, Output = Result<Self::Response, Self::Error>>;

    /// It may be called.
    ghost may: { Self → Type 0 };

    /// What asking for readiness means.
    ghost readies: { Readies Self Self.Error };

    /// What a call means.
    ghost calls: { Calls Self R Self.Future };

    /// Asks whether it is ready to be called. It takes no memory.
    fn poll_ready(&mut self, cx: &mut Cx<'_, L>) -> Poll<Result<(), Self::Error>>
        ensures readies { readies self.old (L.recorded cx.old.rec.now) (moment_of cx.old) result
            self.new (L.recorded cx.new.rec.now) }
        ensures may { may self.old → may self.new }
        ensures context { SameContext L.place cx.old cx.new };

    /// A future for this request. An error leaves a service that may be called again.
    fn call(&mut self, req: R, cx: &mut Cx<'_, L>) -> Got<Self::Future>
        requires may { may self.old }
        requires sound { R.sound req }
        ensures calls { calls self.old req (L.recorded cx.old.rec.now) (moment_of cx.old) result
            self.new (L.recorded cx.new.rec.now) }
        ensures may { may self.new }
        ensures live { IfOk result Self.Future.live }
        ensures future_may { IfOk result Self.Future.may }
        ensures context { SameContext L.place cx.old cx.new };
}
