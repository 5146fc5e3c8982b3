//! What is called where a body ends.
ghost use Rattle.std.specs.Prelude.{◌≡◌, ℕ, Ok, Result, ⊤};
ghost use Rattle.std.specs.Borrow.{Bor, MutBor};
ghost use Rattle.std.specs.Option.{option_copied};
ghost use Rattle.life_core.specs.declared.recorder.NoMemory.{NoMemory};
ghost use Rattle.life_core.specs.declared.span.Span.{Span};
ghost use Rattle.life_trace.specs.Closures.{ClosureSeesEos};
ghost use Rattle.life_trace.specs.DefaultOnEos.{RecordsEnd, default_on_eos, with_latency_unit, with_level};
ghost use Rattle.life_trace.specs.Hooks.{SeesEos};
ghost use Rattle.life_trace.specs.Silent.{SilentEnd};

use crate::trace::status::trailers_status;
use crate::trace::{DEFAULT_LATENCY_UNIT, DEFAULT_MESSAGE_LEVEL};
use http::HeaderMap;
use life_core::{Event, Got, HookFn, Latency, LatencyUnit, Level, Recorder, Span, Twin};
use std::alloc::Global;

/// Called once where a response's body ends: with its trailers, or without them.
pub trait OnEos<L: Recorder>: Drop {
    /// It may be called.
    ghost may: { Self → Type 0 };

    /// What a call means.
    ghost sees_eos: { SeesEos Self };

    /// Tells of the end, which came `stream_duration` nanoseconds after the response, in the request's span.
    fn on_eos(
        self,
        alloc: Global,
        trailers: Option<&HeaderMap>,
        stream_duration: u64,
        span: &Span,
        rec: &mut L,
    ) -> Got<()>
        requires { may self }
        ensures sees { sees_eos self (option_copied trailers.entry) stream_duration span.now
            (L.recorded rec.old) result (L.recorded rec.new) }
        ensures place { L.place rec.new ≡ L.place rec.old };
}

impl<L: Recorder> OnEos<L> for () {
    ghost may = { λ _. ⊤ };

    ghost sees_eos = { λ _ _ _ _. SilentEnd };

    fn on_eos(
        self,
        _alloc: Global,
        _trailers: Option<&HeaderMap>,
        _stream_duration: u64,
        _span: &Span,
        _rec: &mut L,
    ) -> Got<()> {
        Ok(())
    }
}

impl<L, F> OnEos<L> for HookFn<F>
where
    L: Recorder,
    F: FnOnce(Global, Option<&HeaderMap>, u64, &Span, &mut L) -> Got<()> + Drop,
{
    // The closure may be called, and leaves the references of the recorder.
    ghost may = { λ hook. F.IsAlwaysCallable hook.closure
        × ((alloc : _) (trailers : _) (duration : ℕ) (span : Bor Span) (rec : MutBor L)
        (answer : Result Unit NoMemory) (left : MutBor L)
        → F.post hook.closure alloc trailers duration span rec answer left
        → L.place left.now ≡ L.place rec.now) };

    ghost sees_eos = { λ hook trailers duration span was answer now.
        ClosureSeesEos L.recorded F.FnOnce hook.closure trailers duration span was answer now };

    fn on_eos(
        self,
        alloc: Global,
        trailers: Option<&HeaderMap>,
        stream_duration: u64,
        span: &Span,
        rec: &mut L,
    ) -> Got<()> {
        let HookFn { closure } = self;
        closure(alloc, trailers, stream_duration, span, rec)
    }
}

/// Records that a body ended, with the status that its trailers tell.
#[derive(Debug, Drop)]
pub struct DefaultOnEos {
    level: Level,
    latency_unit: LatencyUnit,
}

impl DefaultOnEos {
    /// The hook at level `Debug` and with the default unit.
    pub fn new() -> DefaultOnEos
        ensures { result ≡ default_on_eos }
    {
        DefaultOnEos {
            level: DEFAULT_MESSAGE_LEVEL,
            latency_unit: DEFAULT_LATENCY_UNIT,
        }
    }

    /// The same hook at this level.
    pub fn level(mut self, level: Level) -> DefaultOnEos
        ensures { result ≡ with_level self level }
    {
        self.level = level;
        self
    }

    /// The same hook with the duration in this unit.
    pub fn latency_unit(mut self, latency_unit: LatencyUnit) -> DefaultOnEos
        ensures { result ≡ with_latency_unit self latency_unit }
    {
        self.latency_unit = latency_unit;
        self
    }
}

impl Default for DefaultOnEos {
    ghost is_default = { λ hook. hook ≡ default_on_eos };

    fn default() -> DefaultOnEos {
        DefaultOnEos::new()
    }
}

impl Twin for DefaultOnEos {
    /// An equal hook. It takes no memory.
    fn twin(&self, _alloc: Global) -> Got<DefaultOnEos>
        ensures { result ≡ Ok self.now }
    {
        Ok(DefaultOnEos {
            level: self.level,
            latency_unit: self.latency_unit,
        })
    }
}

impl<L: Recorder> OnEos<L> for DefaultOnEos {
    ghost may = { λ _. ⊤ };

    ghost sees_eos = { RecordsEnd };

    fn on_eos(
        self,
        alloc: Global,
        trailers: Option<&HeaderMap>,
        stream_duration: u64,
        _span: &Span,
        rec: &mut L,
    ) -> Got<()> {
        let status = trailers_status(alloc, trailers)?;
        rec.note(Event::Ended {
            level: self.level,
            duration: Latency {
                unit: self.latency_unit,
                nanos: stream_duration,
            },
            status,
        })
    }
}
