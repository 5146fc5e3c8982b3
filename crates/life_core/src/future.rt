//! Values that answer once.
ghost use Rattle.std.specs.Prelude.{IfOk};
ghost use Rattle.life_core.specs.Moment.{moment_of, SameContext};
ghost use Rattle.life_core.specs.Poll.{IfReady, OnPending};
ghost use Rattle.life_core.specs.Calls.{Polls};

use crate::Got;
use crate::context::Cx;
use crate::poll::Poll;
use crate::recorder::Recorder;
use crate::spend::{Sound, Spend};

/// A value that is polled until it answers.
pub trait Future<L: Recorder>: Spend<L> {
    type Output: Sound<L>;

    /// Holds from the call on, until it has answered or was refused for memory.
    ghost live: { Self → Type 0 };

    /// What a poll means.
    ghost polls: { Polls Self Self.Output };

    /// Asks for the answer.
    fn poll(&mut self, cx: &mut Cx<'_, L>) -> Got<Poll<Self::Output>>
        requires live { live self.old }
        requires may { Self.may self.old }
        ensures polls { polls self.old (L.recorded cx.old.rec.now) (moment_of cx.old) result
            self.new (L.recorded cx.new.rec.now) }
        ensures live { IfOk result (λ answer. OnPending answer (live self.new)) }
        ensures sound { IfOk result (λ answer. IfReady answer Self.Output.sound) }
        ensures may { Self.may self.new }
        ensures context { SameContext L.place cx.old cx.new };
}
