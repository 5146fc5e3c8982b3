//! What the end of a response's body still calls.
ghost use Rattle.std.specs.Prelude.{◌≡◌, IfOk};
ghost use Rattle.std.specs.Option.{option_copied};
ghost use Rattle.life_classify.specs.Classifier.{IfOpen};
ghost use Rattle.life_trace.specs.Tail.{times_at, TailMay, FailureSeen, EndClassified, Closes, Faults, TailBegins};

use crate::trace::on_eos::OnEos;
use crate::trace::on_failure::OnFailure;
use http::HeaderMap;
use life_classify::classify::{ClassifiedResponse, ClassifyEos};
use life_core::{Got, Life, Recorder, Span};
use std::alloc::Global;
use std::fmt::Display;
use std::mem;

/// What the end of a response's body still calls. What was taken from it is not called again.
#[derive(Drop)]
pub enum Tail<C, EO, FA> {
    /// The class is open: the end or a fault gives it.
    Classed {
        /// Gives the class.
        classifier: C,
        /// Called at the end.
        on_eos: EO,
        /// Called where the class is a failure.
        on_failure: FA,
    },
    /// The class was given.
    Unclassed {
        /// Called at the end.
        on_eos: EO,
    },
    /// Nothing is left.
    Spent,
}

/// How long before a ready answer of a body others came, in nanoseconds.
#[derive(Clone, Copy)]
pub(crate) struct Times {
    /// The time since the ready answer before it, or since the call where there is none.
    pub latency: u64,
    /// The time since the response.
    pub duration: u64,
}

impl Times {
    /// Those of an answer at `now`.
    pub(crate) fn at(life: &Life, now: u64) -> Times
        ensures { result ≡ times_at life.now now }
    {
        Times {
            latency: life.latency(now),
            duration: life.duration(now),
        }
    }
}

/// Calls the hook where the class is a failure.
fn see_class<FailureClass, FA, L>(
    class: Result<(), FailureClass>,
    mut on_failure: FA,
    alloc: Global,
    latency: u64,
    span: &Span,
    rec: &mut L,
) -> Got<()>
where
    FA: OnFailure<FailureClass, L>,
    L: Recorder,
    requires { FA.may on_failure }
    ensures seen { FailureSeen FA.sees_failure class on_failure latency span.now
        (L.recorded rec.old) result (L.recorded rec.new) }
    ensures place { L.place rec.new ≡ L.place rec.old }
{
    match class {
        Ok(()) => Ok(()),
        Err(class) => on_failure.on_failure(alloc, class, latency, span, rec),
    }
}

/// Classifies the end, and calls the hook where the class is a failure.
fn classify_end<C, FA, L>(
    classifier: C,
    on_failure: FA,
    alloc: Global,
    trailers: Option<&HeaderMap>,
    latency: u64,
    span: &Span,
    rec: &mut L,
) -> Got<()>
where
    C: ClassifyEos,
    FA: OnFailure<C::FailureClass, L>,
    L: Recorder,
    requires { C.may classifier × FA.may on_failure }
    ensures classified { EndClassified C.classifies_eos FA.sees_failure classifier on_failure
        (option_copied trailers.entry) latency span.now
        (L.recorded rec.old) result (L.recorded rec.new) }
    ensures place { L.place rec.new ≡ L.place rec.old }
{
    let class = classifier.classify_eos(alloc, trailers)?;
    see_class(class, on_failure, alloc, latency, span, rec)
}

impl<C, EO, FA> Tail<C, EO, FA> {
    /// What a response of this class leaves. A class that is a failure already calls the hook.
    pub(crate) fn begin<L: Recorder>(
        class: ClassifiedResponse<C::FailureClass, C>,
        on_eos: EO,
        on_failure: FA,
        alloc: Global,
        latency: u64,
        span: &Span,
        rec: &mut L,
    ) -> Got<Tail<C, EO, FA>>
    where
        C: ClassifyEos,
        EO: OnEos<L>,
        FA: OnFailure<C::FailureClass, L>,
        requires class { IfOpen class C.may }
        requires hooks { EO.may on_eos × FA.may on_failure }
        ensures begins { TailBegins FA.sees_failure class on_eos on_failure latency span.now
            (L.recorded rec.old) result (L.recorded rec.new) }
        ensures may { IfOk result (TailMay C.may EO.may FA.may) }
        ensures place { L.place rec.new ≡ L.place rec.old }
    {
        match class {
            ClassifiedResponse::Ready(class) => {
                match see_class(class, on_failure, alloc, latency, span, rec) {
                    Ok(()) => Ok(Tail::Unclassed { on_eos }),
                    Err(no_memory) => Err(no_memory),
                }
            }
            ClassifiedResponse::RequiresEos(classifier) => Ok(Tail::Classed {
                classifier,
                on_eos,
                on_failure,
            }),
        }
    }

    /// The end of the body, with its trailers where they came: calls what is left. All of it is taken, also
    /// where a call is refused.
    pub(crate) fn close<L: Recorder>(
        &mut self,
        alloc: Global,
        trailers: Option<&HeaderMap>,
        times: Times,
        span: &Span,
        rec: &mut L,
    ) -> Got<()>
    where
        C: ClassifyEos,
        EO: OnEos<L>,
        FA: OnFailure<C::FailureClass, L>,
        requires { TailMay C.may EO.may FA.may self.old }
        ensures closes { Closes C.classifies_eos EO.sees_eos FA.sees_failure self.old
            (option_copied trailers.entry) times span.now
            (L.recorded rec.old) result self.new (L.recorded rec.new) }
        ensures may { TailMay C.may EO.may FA.may self.new }
        ensures place { L.place rec.new ≡ L.place rec.old }
    {
        match mem::replace(self, Tail::Spent) {
            Tail::Classed {
                classifier,
                on_eos,
                on_failure,
            } => {
                classify_end(
                    classifier,
                    on_failure,
                    alloc,
                    trailers,
                    times.latency,
                    span,
                    rec,
                )?;
                on_eos.on_eos(alloc, trailers, times.duration, span, rec)
            }
            Tail::Unclassed { on_eos } => {
                on_eos.on_eos(alloc, trailers, times.duration, span, rec)
            }
            Tail::Spent => Ok(()),
        }
    }

    /// A fault of the body: gives the class where it is open, and calls the hook of failures. Both are taken,
    /// also where a call is refused; the hook of the end stays.
    pub(crate) fn fault<E: Display, L: Recorder>(
        &mut self,
        alloc: Global,
        error: &E,
        latency: u64,
        span: &Span,
        rec: &mut L,
    ) -> Got<()>
    where
        C: ClassifyEos,
        EO: OnEos<L>,
        FA: OnFailure<C::FailureClass, L>,
        requires { TailMay C.may EO.may FA.may self.old }
        ensures faults { Faults C.classifies_error FA.sees_failure self.old (E.output error.now)
            latency span.now (L.recorded rec.old) result self.new (L.recorded rec.new) }
        ensures may { TailMay C.may EO.may FA.may self.new }
        ensures place { L.place rec.new ≡ L.place rec.old }
    {
        match mem::replace(self, Tail::Spent) {
            Tail::Classed {
                classifier,
                on_eos,
                mut on_failure,
            } => {
                *self = Tail::Unclassed { on_eos };
                let class = classifier.classify_error(alloc, error)?;
                on_failure.on_failure(alloc, class, latency, span, rec)
            }
            Tail::Unclassed { on_eos } => {
                *self = Tail::Unclassed { on_eos };
                Ok(())
            }
            Tail::Spent => Ok(()),
        }
    }
}
