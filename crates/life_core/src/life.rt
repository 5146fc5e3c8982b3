//! What has come of a response's body so far.
ghost use Rattle.std.specs.Prelude.{◌≡◌};
ghost use Rattle.life_core.specs.Life.{life_begun, life_after, passed_of};
ghost use Rattle.life_core.specs.Timer.{since};

use crate::clock::since;
use http_body::Frame;

/// A ready answer of a body. `ended` is whether the body tells its end after it.
#[derive(Clone, Copy, Debug)]
pub enum Passed {
    /// A chunk.
    Chunk { ended: bool },
    /// Trailers.
    Trailers { ended: bool },
    /// The end.
    End,
    /// A fault.
    Fault,
}

impl Passed {
    /// What a ready answer of a body was, after which it tells its end or does not. It takes no memory.
    pub fn of<D, E>(answer: &Option<Result<Frame<D>, E>>, ended: bool) -> Passed
        ensures { result ≡ passed_of answer.now ended }
    {
        match answer {
            None => Passed::End,
            Some(Err(_)) => Passed::Fault,
            Some(Ok(frame)) => match frame.data_ref() {
                Some(_) => Passed::Chunk { ended },
                None => Passed::Trailers { ended },
            },
        }
    }
}

/// The life of one response: when it was called, when it answered, and what its body has answered since.
/// All times are in nanoseconds.
#[derive(Clone, Copy, Debug)]
pub struct Life {
    called: u64,
    responded: u64,
    last: u64,
    closed: bool,
    faulted: bool,
    done: bool,
}

impl Life {
    /// That of a request that was called at `called` and answered at `now`, with a body that tells its end or
    /// does not. It takes no memory.
    pub fn begin(called: u64, now: u64, ended: bool) -> Life
        ensures { result ≡ life_begun called now ended }
    {
        Life {
            called,
            responded: now,
            last: called,
            closed: false,
            faulted: false,
            done: ended,
        }
    }

    /// The body gave a ready answer at `now`. It takes no memory.
    pub fn pass(&mut self, now: u64, what: Passed)
        ensures { self.new ≡ life_after self.old now what }
    {
        self.last = now;
        match what {
            Passed::Chunk { ended } => {
                self.closed = self.closed || ended;
                self.done = self.done || ended;
            }
            Passed::Trailers { ended } => {
                self.closed = true;
                self.done = self.done || ended;
            }
            Passed::End => {
                self.closed = true;
                self.done = true;
            }
            Passed::Fault => {
                self.faulted = true;
                self.done = true;
            }
        }
    }

    /// When the request was called.
    pub fn called(&self) -> u64
        ensures { result ≡ self.now.called }
    {
        self.called
    }

    /// When the response came.
    pub fn responded(&self) -> u64
        ensures { result ≡ self.now.responded }
    {
        self.responded
    }

    /// When the last ready answer of the body came; before the first, when the request was called.
    pub fn last(&self) -> u64
        ensures { result ≡ self.now.last }
    {
        self.last
    }

    /// Whether trailers, a chunk after which the body tells its end, or the end came.
    pub fn closed(&self) -> bool
        ensures { result ≡ self.now.closed }
    {
        self.closed
    }

    /// Whether a fault came.
    pub fn faulted(&self) -> bool
        ensures { result ≡ self.now.faulted }
    {
        self.faulted
    }

    /// Whether the body is over: it told its end, or its end or a fault came.
    pub fn done(&self) -> bool
        ensures { result ≡ self.now.done }
    {
        self.done
    }

    /// How long ago the last ready answer came, or 0 where it lies ahead.
    pub fn latency(&self, now: u64) -> u64
        ensures { result ≡ since self.now.last now }
    {
        since(self.last, now)
    }

    /// How long ago the response came, or 0 where that lies ahead.
    pub fn duration(&self, now: u64) -> u64
        ensures { result ≡ since self.now.responded now }
    {
        since(self.responded, now)
    }
}
