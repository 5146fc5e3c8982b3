//! Streams of frames.
ghost use Rattle.std.specs.Prelude.{◌≡◌, ℕ, Option, Bool};
ghost use Rattle.life_core.specs.Moment.{moment_of, SameContext};
ghost use Rattle.life_core.specs.Calls.{Frames};
ghost use Rattle.http_body.specs.SizeHint.{lower, upper};

mod boxed;
mod empty;
mod full;
mod limited;

use crate::Got;
use crate::context::Cx;
use crate::poll::Poll;
use crate::recorder::Recorder;
use crate::spend::Spend;
pub use boxed::UnsyncBoxBody;
pub use empty::Empty;
pub use full::Full;
use http_body::{Frame, SizeHint};
pub use limited::Limited;
use std::fmt;

/// A fault of a body that wraps another.
#[derive(Debug, Drop)]
pub enum BodyError<E> {
    /// It took too long.
    Elapsed,
    /// A chunk was longer than the room left.
    LengthLimit,
    /// The fault of the wrapped body.
    Inner(E),
}

impl<E: fmt::Display> fmt::Display for BodyError<E> {
    ghost use Rattle.life_core.specs.Texts.{body_error_text};

    ghost output = { body_error_text E.output };

    fn fmt<W: fmt::Write>(&self, f: &mut fmt::Formatter<W>) -> fmt::Result {
        match self {
            BodyError::Elapsed => write!(f, "data was not received within the designated timeout"),
            BodyError::LengthLimit => write!(f, "length limit exceeded"),
            BodyError::Inner(fault) => write!(f, "{fault}"),
        }
    }
}

/// A stream of frames. It may be polled after its end and after a fault.
pub trait Body<L: Recorder>: Spend<L> {
    type Data;

    type Error;

    /// What a poll means.
    ghost frames: { Frames Self Self.Data Self.Error };

    /// Whether it tells its end.
    ghost ends: { Self → Bool };

    /// At least and at most how many bytes are left.
    ghost hints: { Self → ℕ × Option ℕ };

    /// Asks for the next frame; none is the end.
    fn poll_frame(
        &mut self,
        cx: &mut Cx<'_, L>,
    ) -> Got<Poll<Option<Result<Frame<Self::Data>, Self::Error>>>>
        requires { Self.may self.old }
        ensures frames { frames self.old (L.recorded cx.old.rec.now) (moment_of cx.old) result
            self.new (L.recorded cx.new.rec.now) }
        ensures may { Self.may self.new }
        ensures context { SameContext L.place cx.old cx.new };

    /// Whether no frame is left, as far as the body tells.
    fn is_end_stream(&self) -> bool
        ensures { result ≡ ends self.now };

    /// Bounds on the number of bytes that are left.
    fn size_hint(&self) -> SizeHint
        ensures lower { lower result ≡ (hints self.now).0 }
        ensures upper { upper result ≡ (hints self.now).1 };
}

/// A body whose default holds nothing that may not be called.
pub trait DefaultBody<L: Recorder>: Body<L> + Default {
    ghost default_may: { (body : Self) → Self.is_default body → Self.may body };
}
