//! What is recorded.
use crate::fault::PanicText;
use crate::fields::Fields;
use crate::latency::Latency;
use crate::list::List;
use crate::span::Span;
use crate::text::{Octets, Text};
use http::StatusCode;
use std::fmt;

/// How much an event matters, as in `tracing`.
#[derive(Clone, Copy, Debug)]
pub enum Level {
    /// What failed.
    Error,
    /// What may be wrong.
    Warn,
    /// What is worth telling.
    Info,
    /// What helps to find a fault.
    Debug,
    /// Every step.
    Trace,
}

impl Level {
    ghost use Rattle.std.specs.Prelude.{◌≡◌};
    ghost use Rattle.life_core.specs.Texts.{level_name};

    /// Its name, in capitals.
    pub fn name(self) -> &'static str
        ensures { result.now ≡ level_name self }
    {
        match self {
            Level::Error => "ERROR",
            Level::Warn => "WARN",
            Level::Info => "INFO",
            Level::Debug => "DEBUG",
            Level::Trace => "TRACE",
        }
    }
}

impl fmt::Display for Level {
    ghost use Rattle.std.specs.Prelude.{Some};
    ghost use Rattle.life_core.specs.Texts.{level_name};

    ghost output = { λ level. Some (level_name level) };

    fn fmt<W: fmt::Write>(&self, f: &mut fmt::Formatter<W>) -> fmt::Result {
        f.write_str(self.name())
    }
}

/// What was dropped before its end.
#[derive(Clone, Copy, Debug)]
pub enum DropKind {
    /// A future that had not answered.
    Future,
    /// A body that had not ended, of a response with this status.
    Body(StatusCode),
}

/// What a service was handed when it asked for a frame of its request's body.
#[derive(Debug, Drop)]
pub enum Handed {
    /// A chunk of these bytes.
    Chunk(Octets),
    /// Trailers, as they are shown.
    Trailers(Fields),
    /// No frame yet.
    Pending,
    /// No frame is left.
    End,
    /// A chunk was longer than the room left.
    LengthLimit,
    /// The body took too long.
    Elapsed,
    /// The body's own fault.
    Inner(Text),
}

/// One thing that was recorded.
#[derive(Debug, Drop)]
pub enum Event {
    /// A request was called, in this span.
    Started {
        level: Level,
        span: Span,
    },
    /// A response came this long after the call. The status is that of HTTP or of gRPC, if there is one; the
    /// headers are told where they were asked for.
    Finished {
        level: Level,
        latency: Latency,
        status: Option<i32>,
        headers: Option<Fields>,
    },
    /// A body ended this long after its response, with this status of gRPC, if there is one.
    Ended {
        level: Level,
        duration: Latency,
        status: Option<i32>,
    },
    /// A failure of this class, this long after the call or after the last ready answer of the body.
    Failed {
        level: Level,
        class: Text,
        latency: Latency,
    },
    /// A chunk of so many bytes, this long after the last ready answer of the body, or after the call.
    Chunk {
        bytes: u64,
        latency: Latency,
    },
    /// A service panicked.
    Panic {
        level: Level,
        text: PanicText,
    },
    /// A service asked for a frame of its request's body.
    Handed {
        got: Handed,
    },
    /// A request was dropped early, this long after its call.
    Dropped {
        what: DropKind,
        latency: Latency,
    },
}

/// Events in the order in which they were recorded.
pub type Events = List<Event>;
