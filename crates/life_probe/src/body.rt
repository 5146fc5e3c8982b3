//! A body whose answers a test chooses.
ghost use Rattle.std.specs.Prelude.{⊤, ◌&&◌, ◌==◌};
ghost use Rattle.http_body.specs.SizeHint.{lower, upper};

use bytes::Bytes;
use http::header::{HeaderMap, HeaderName, HeaderValue};
use http_body::{Frame, SizeHint};
use life_core::{Body, Cx, DefaultBody, Got, NoMemory, Poll, Recorder, Spend, Twin};
use std::alloc::Global;

/// One answer of a body.
#[derive(Clone, Copy)]
pub enum Says {
    Chunk(&'static [u8]),
    /// Trailers with `x-sum: 7`.
    Trailers,
    /// The fault 3.
    Fault,
    Pending,
}

/// A body that says these in turn, and then its end. The default is at its end, and tells it.
#[derive(Clone, Copy)]
pub struct ProbeBody {
    pub says: &'static [Says],
    /// Whether it tells its end as soon as nothing is left to say.
    pub tells: bool,
    pub hint: SizeHint,
}

impl ProbeBody {
    /// A body that says these, does not tell its end and hints nothing.
    pub fn new(says: &'static [Says]) -> ProbeBody {
        ProbeBody {
            says,
            tells: false,
            hint: SizeHint::new(),
        }
    }

    /// The same, which tells its end.
    pub fn telling(says: &'static [Says]) -> ProbeBody {
        ProbeBody {
            says,
            tells: true,
            hint: SizeHint::new(),
        }
    }
}

impl Default for ProbeBody {
    ghost is_default = { λ _. ⊤ };

    fn default() -> ProbeBody {
        ProbeBody::telling(&[])
    }
}

impl Twin for ProbeBody {
    fn twin(&self, _alloc: Global) -> Got<ProbeBody> {
        Ok(*self)
    }
}

/// The header `x-sum: 7`.
fn sum_of_seven(alloc: Global) -> Got<HeaderMap> {
    let mut headers = HeaderMap::new(alloc);
    match headers.append(
        HeaderName::from_static("x-sum"),
        HeaderValue::from_static("7"),
    ) {
        Ok(_) => Ok(headers),
        Err(_) => Err(NoMemory),
    }
}

impl<L: Recorder> Spend<L> for ProbeBody {
    ghost may = { λ _. ⊤ };

    ghost abandons = { λ _ _ _ _ _. ⊤ };

    fn abandon(self, _cx: &mut Cx<'_, L>) -> Got<()> {
        Ok(())
    }
}

impl<L: Recorder> Body<L> for ProbeBody {
    type Data = Bytes;

    type Error = u64;

    ghost frames = { λ _ _ _ _ _ _. ⊤ };

    ghost ends = { λ body. body.tells && (Rattle.std.specs.Prelude.length body.says.now == 0) };

    ghost hints = { λ body. (lower body.hint, upper body.hint) };

    fn poll_frame(&mut self, cx: &mut Cx<'_, L>) -> Got<Poll<Option<Result<Frame<Bytes>, u64>>>> {
        let Some((first, rest)) = self.says.split_first() else {
            return Ok(Poll::Ready(None));
        };
        self.says = rest;
        match *first {
            Says::Chunk(bytes) => {
                let chunk = Frame::data(Bytes::from_static(bytes));
                Ok(Poll::Ready(Some(Ok(chunk))))
            }
            Says::Trailers => {
                let trailers = Frame::trailers(sum_of_seven(cx.alloc)?);
                Ok(Poll::Ready(Some(Ok(trailers))))
            }
            Says::Fault => Ok(Poll::Ready(Some(Err(3)))),
            Says::Pending => Ok(Poll::Pending),
        }
    }

    fn is_end_stream(&self) -> bool {
        self.tells && self.says.is_empty()
    }

    fn size_hint(&self) -> SizeHint {
        self.hint
    }
}

impl<L: Recorder> DefaultBody<L> for ProbeBody {
    ghost default_may = { λ _ _. tt };
}
