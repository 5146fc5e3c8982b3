//! What is called where a request fails.
ghost use Rattle.std.specs.Prelude.{◌≡◌, ℕ, Ok, Result, ⊤};
ghost use Rattle.std.specs.Borrow.{Bor, MutBor};
ghost use Rattle.life_core.specs.declared.recorder.NoMemory.{NoMemory};
ghost use Rattle.life_core.specs.declared.span.Span.{Span};
ghost use Rattle.life_trace.specs.Closures.{ClosureSeesFailure};
ghost use Rattle.life_trace.specs.DefaultOnFailure.{RecordsFailure, default_on_failure, with_latency_unit, with_level};
ghost use Rattle.life_trace.specs.Hooks.{SeesFailure};
ghost use Rattle.life_trace.specs.Silent.{Silent};

use crate::trace::{DEFAULT_ERROR_LEVEL, DEFAULT_LATENCY_UNIT};
use life_core::{Event, Got, HookFn, Latency, LatencyUnit, Level, Recorder, Span, Text, Twin};
use std::alloc::Global;
use std::fmt::Display;

/// Called where a response, its end or an error was classified as a failure.
pub trait OnFailure<C, L: Recorder>: Drop {
    /// It may be called.
    ghost may: { Self → Type 0 };

    /// What a call means.
    ghost sees_failure: { SeesFailure Self C };

    /// Tells of the failure, which came `latency` nanoseconds after the call, or after the last ready answer of
    /// the body, in the request's span.
    fn on_failure(
        &mut self,
        alloc: Global,
        failure_classification: C,
        latency: u64,
        span: &Span,
        rec: &mut L,
    ) -> Got<()>
        requires { may self.old }
        ensures sees { sees_failure self.old failure_classification latency span.now
            (L.recorded rec.old) result self.new (L.recorded rec.new) }
        ensures may { may self.new }
        ensures place { L.place rec.new ≡ L.place rec.old };
}

impl<C: Drop, L: Recorder> OnFailure<C, L> for () {
    ghost may = { λ _. ⊤ };

    ghost sees_failure = { λ hook _ _ _. Silent hook };

    fn on_failure(
        &mut self,
        _alloc: Global,
        _failure_classification: C,
        _latency: u64,
        _span: &Span,
        _rec: &mut L,
    ) -> Got<()> {
        Ok(())
    }
}

impl<C, L, F> OnFailure<C, L> for HookFn<F>
where
    L: Recorder,
    F: FnMut(Global, C, u64, &Span, &mut L) -> Got<()> + Drop,
{
    // The closure may always be called, and leaves the references of the recorder.
    ghost may = { λ hook. F.IsAlwaysCallable hook.closure
        × ((before after : F) (alloc : _) (class : C) (latency : ℕ) (span : Bor Span)
        (rec : MutBor L) (answer : Result Unit NoMemory) (left : MutBor L)
        → F.step before alloc class latency span rec answer left after
        → L.place left.now ≡ L.place rec.now) };

    ghost sees_failure = { λ hook class latency span was answer after now.
        ClosureSeesFailure L.recorded F.FnMut hook.closure class latency span was answer
        after.closure now };

    fn on_failure(
        &mut self,
        alloc: Global,
        failure_classification: C,
        latency: u64,
        span: &Span,
        rec: &mut L,
    ) -> Got<()> {
        (self.closure)(alloc, failure_classification, latency, span, rec)
    }
}

/// Records each failure, with the text of its class.
#[derive(Debug, Drop)]
pub struct DefaultOnFailure {
    level: Level,
    latency_unit: LatencyUnit,
}

impl DefaultOnFailure {
    /// The hook at level `Error` and with the default unit.
    pub fn new() -> DefaultOnFailure
        ensures { result ≡ default_on_failure }
    {
        DefaultOnFailure {
            level: DEFAULT_ERROR_LEVEL,
            latency_unit: DEFAULT_LATENCY_UNIT,
        }
    }

    /// The same hook at this level.
    pub fn level(mut self, level: Level) -> DefaultOnFailure
        ensures { result ≡ with_level self level }
    {
        self.level = level;
        self
    }

    /// The same hook with the latency in this unit.
    pub fn latency_unit(mut self, latency_unit: LatencyUnit) -> DefaultOnFailure
        ensures { result ≡ with_latency_unit self latency_unit }
    {
        self.latency_unit = latency_unit;
        self
    }
}

impl Default for DefaultOnFailure {
    ghost is_default = { λ hook. hook ≡ default_on_failure };

    fn default() -> DefaultOnFailure {
        DefaultOnFailure::new()
    }
}

impl Twin for DefaultOnFailure {
    /// An equal hook. It takes no memory.
    fn twin(&self, _alloc: Global) -> Got<DefaultOnFailure>
        ensures { result ≡ Ok self.now }
    {
        Ok(DefaultOnFailure {
            level: self.level,
            latency_unit: self.latency_unit,
        })
    }
}

impl<C: Display + Drop, L: Recorder> OnFailure<C, L> for DefaultOnFailure {
    ghost may = { λ _. ⊤ };

    ghost sees_failure = { λ hook class. RecordsFailure hook (C.output class) };

    fn on_failure(
        &mut self,
        alloc: Global,
        failure_classification: C,
        latency: u64,
        _span: &Span,
        rec: &mut L,
    ) -> Got<()> {
        let class = Text::shown(alloc, &failure_classification)?;
        rec.note(Event::Failed {
            level: self.level,
            class,
            latency: Latency {
                unit: self.latency_unit,
                nanos: latency,
            },
        })
    }
}
