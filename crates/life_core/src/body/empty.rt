//! A body of nothing, after http-body-util's `Empty`.
ghost use Rattle.std.specs.Prelude.{◌≡◌, ⊤, true, Some, Ok};
ghost use Rattle.life_core.specs.Calls.{NothingToAbandon};
ghost use Rattle.life_core.specs.Full.{EmptyFrames, empty_body};

use crate::Got;
use crate::body::Body;
use crate::context::Cx;
use crate::poll::Poll;
use crate::recorder::Recorder;
use crate::spend::Spend;
use crate::twin::Twin;
use bytes::Bytes;
use http_body::{Frame, SizeHint};
use std::alloc::Global;
use std::convert::Infallible;

/// A body that is at its end. It may also be dropped.
#[derive(Debug, Drop)]
pub struct Empty;

impl Empty {
    /// A body of nothing.
    pub fn new() -> Empty
        ensures { result ≡ empty_body }
    {
        Empty
    }
}

impl Twin for Empty {
    /// A body of nothing. It takes no memory.
    fn twin(&self, _alloc: Global) -> Got<Empty>
        ensures { result ≡ Ok self.now }
    {
        Ok(Empty)
    }
}

impl<L: Recorder> Spend<L> for Empty {
    ghost may = { λ _. ⊤ };

    ghost abandons = { NothingToAbandon };

    fn abandon(self, _cx: &mut Cx<'_, L>) -> Got<()> {
        drop(self);
        Ok(())
    }
}

impl<L: Recorder> Body<L> for Empty {
    type Data = Bytes;

    type Error = Infallible;

    ghost frames = { EmptyFrames };

    ghost ends = { λ _. true };

    ghost hints = { λ _. (0, Some 0) };

    fn poll_frame(
        &mut self,
        _cx: &mut Cx<'_, L>,
    ) -> Got<Poll<Option<Result<Frame<Bytes>, Infallible>>>> {
        Ok(Poll::Ready(None))
    }

    fn is_end_stream(&self) -> bool {
        true
    }

    fn size_hint(&self) -> SizeHint {
        SizeHint::with_exact(0)
    }
}
