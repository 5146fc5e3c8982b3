//! A body of one chunk, after http-body-util's `Full`.
ghost use Rattle.std.specs.Prelude.{◌≡◌, ⊤};
ghost use Rattle.life_core.specs.Calls.{NothingToAbandon};
ghost use Rattle.life_core.specs.Full.{FullFrames, IsEmptyFull, full_of, full_ends, full_hints};

use crate::Got;
use crate::body::{Body, DefaultBody};
use crate::context::Cx;
use crate::poll::Poll;
use crate::recorder::{NoMemory, Recorder};
use crate::spend::Spend;
use crate::twin::Twin;
use bytes::Bytes;
use http_body::{Frame, SizeHint};
use std::alloc::Global;
use std::convert::Infallible;

/// Gives one chunk and then its end. It may also be dropped.
#[derive(Drop)]
pub struct Full {
    chunk: Option<Bytes>,
}

impl Full {
    /// A body of this chunk, or of none where the chunk is empty.
    pub fn new(chunk: Bytes) -> Full
        ensures { result ≡ full_of chunk }
    {
        if chunk.is_empty() {
            return Full { chunk: None };
        }
        Full { chunk: Some(chunk) }
    }
}

impl Default for Full {
    ghost is_default = { IsEmptyFull };

    fn default() -> Full {
        Full { chunk: None }
    }
}

impl Twin for Full {
    fn twin(&self, _alloc: Global) -> Got<Full> {
        let Some(chunk) = &self.chunk else {
            return Ok(Full { chunk: None });
        };
        match chunk.clone() {
            Ok(chunk) => Ok(Full { chunk: Some(chunk) }),
            Err(_) => Err(NoMemory),
        }
    }
}

impl<L: Recorder> Spend<L> for Full {
    ghost may = { λ _. ⊤ };

    ghost abandons = { NothingToAbandon };

    fn abandon(self, _cx: &mut Cx<'_, L>) -> Got<()> {
        drop(self);
        Ok(())
    }
}

impl<L: Recorder> Body<L> for Full {
    type Data = Bytes;

    type Error = Infallible;

    ghost frames = { FullFrames };

    ghost ends = { full_ends };

    ghost hints = { full_hints };

    fn poll_frame(
        &mut self,
        _cx: &mut Cx<'_, L>,
    ) -> Got<Poll<Option<Result<Frame<Bytes>, Infallible>>>> {
        match self.chunk.take() {
            Some(chunk) => Ok(Poll::Ready(Some(Ok(Frame::data(chunk))))),
            None => Ok(Poll::Ready(None)),
        }
    }

    fn is_end_stream(&self) -> bool {
        self.chunk.is_none()
    }

    fn size_hint(&self) -> SizeHint {
        match &self.chunk {
            Some(chunk) => SizeHint::with_exact(chunk.len() as u64),
            None => SizeHint::with_exact(0),
        }
    }
}

impl<L: Recorder> DefaultBody<L> for Full {
    ghost default_may = { λ _ _. tt };
}
