//! What classifies responses, ends of streams and errors, and what makes a classifier for a request.
ghost use Rattle.std.specs.Prelude.{◌≡◌, IfOk};
ghost use Rattle.std.specs.Option.{option_copied};
ghost use Rattle.life_classify.specs.Mapped.{mapped};
ghost use Rattle.life_classify.specs.Classifier.{ClassifiesResponse, ClassifiesEos, ClassifiesError, MakesClassifier, IfOpen};

use crate::classify::map_failure_class::MapFailureClass;
use http::HeaderMap;
use life_core::{Got, Request, Response};
use std::alloc::Global;
use std::fmt::Display;

/// What a response was classified as.
#[derive(Debug, Drop)]
pub enum ClassifiedResponse<FailureClass, ClassifyEos> {
    /// The head of the response told it.
    Ready(Result<(), FailureClass>),
    /// The end of the stream will tell it.
    RequiresEos(ClassifyEos),
}

/// Classifies ends of streams. It may be dropped.
pub trait ClassifyEos: Drop {
    /// What a failure is classified as.
    type FailureClass;

    /// It may be called.
    ghost may: { Self → Type 0 };

    /// What a call at an end of a stream means.
    ghost classifies_eos: { ClassifiesEos Self Self.FailureClass };

    /// What a call at an error means.
    ghost classifies_error: { ClassifiesError Self Self.FailureClass };

    /// Classifies the end of a stream by its trailers, if any came.
    fn classify_eos(
        self,
        alloc: Global,
        trailers: Option<&HeaderMap>,
    ) -> Got<Result<(), Self::FailureClass>>
        requires { may self }
        ensures { classifies_eos self (option_copied trailers.entry) result };

    /// Classifies an error, which is always a failure.
    fn classify_error<E: Display>(self, alloc: Global, error: &E) -> Got<Self::FailureClass>
        requires { may self }
        ensures { classifies_error self (E.output error.now) result };

    /// The classifier that gives what `f` makes of each failure class.
    fn map_failure_class<F>(self, f: F) -> MapFailureClass<Self, F>
    where
        Self: Sized,
        ensures { result ≡ mapped self f }
    {
        MapFailureClass::new(self, f)
    }
}

/// Classifies responses. It may be dropped.
pub trait ClassifyResponse: Drop {
    /// What a failure is classified as.
    type FailureClass: Drop;

    /// What classifies the end of a stream, where the response's head does not tell.
    type ClassifyEos: ClassifyEos<FailureClass = Self::FailureClass>;

    /// It may be called.
    ghost may: { Self → Type 0 };

    /// What a call at a response means.
    ghost classifies_response: { ClassifiesResponse Self Self.FailureClass Self.ClassifyEos };

    /// What a call at an error means.
    ghost classifies_error: { ClassifiesError Self Self.FailureClass };

    /// Classifies a response by its head.
    fn classify_response<B, X>(
        self,
        alloc: Global,
        res: &Response<B, X>,
    ) -> Got<ClassifiedResponse<Self::FailureClass, Self::ClassifyEos>>
        requires { may self }
        ensures classifies { classifies_response self res.now.head.parts result }
        ensures open { IfOk result (λ classified. IfOpen classified Self.ClassifyEos.may) };

    /// Classifies an error, which is always a failure.
    fn classify_error<E: Display>(self, alloc: Global, error: &E) -> Got<Self::FailureClass>
        requires { may self }
        ensures { classifies_error self (E.output error.now) result };

    /// The classifier that gives what `f` makes of each failure class.
    fn map_failure_class<F>(self, f: F) -> MapFailureClass<Self, F>
    where
        Self: Sized,
        ensures { result ≡ mapped self f }
    {
        MapFailureClass::new(self, f)
    }
}

/// Makes a classifier for each request with an extension of type `X`. It may be dropped.
pub trait MakeClassifier<X>: Drop {
    /// What a failure is classified as.
    type FailureClass: Drop;

    /// What classifies the end of a stream.
    type ClassifyEos: ClassifyEos;

    /// What is made.
    type Classifier: ClassifyResponse<
        FailureClass = Self::FailureClass,
        ClassifyEos = Self::ClassifyEos,
    >;

    /// It may be called.
    ghost may: { Self → Type 0 };

    /// What a call means.
    ghost makes: { MakesClassifier Self X Self.Classifier };

    /// A classifier for the response to this request.
    fn make_classifier<B>(&self, alloc: Global, req: &Request<B, X>) -> Got<Self::Classifier>
        requires { may self.now }
        ensures makes { makes self.now req.now.head result }
        ensures classifier { IfOk result Self.Classifier.may };
}
