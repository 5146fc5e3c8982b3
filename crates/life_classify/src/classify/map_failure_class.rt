//! A classifier that changes the failure class of another.
ghost use Rattle.std.specs.Prelude.{◌≡◌};
ghost use Rattle.life_classify.specs.Mapped.{ResponseMapped, EosMapped, ErrorMapped};

use crate::classify::traits::{ClassifiedResponse, ClassifyEos, ClassifyResponse};
use http::HeaderMap;
use life_core::{Got, Response, Twin};
use std::alloc::Global;
use std::fmt::Display;

/// The inner classifier, with each failure class changed by `f` and nothing else.
#[derive(Drop)]
pub struct MapFailureClass<C, F> {
    inner: C,
    f: F,
}

impl<C, F> MapFailureClass<C, F> {
    ghost use Rattle.life_classify.specs.Mapped.{mapped};

    /// The classifier with its failure class changed by `f`.
    pub(crate) fn new(inner: C, f: F) -> MapFailureClass<C, F>
        ensures { result ≡ mapped inner f }
    {
        MapFailureClass { inner, f }
    }
}

impl<C, F, NewClass> ClassifyEos for MapFailureClass<C, F>
where
    C: ClassifyEos,
    F: FnOnce(C::FailureClass) -> NewClass + Drop,
{
    type FailureClass = NewClass;

    ghost may = { λ whole. C.may whole.inner × F.IsAlwaysCallable whole.f };

    ghost classifies_eos = { EosMapped F.post C.classifies_eos };

    ghost classifies_error = { ErrorMapped F.post C.classifies_error };

    fn classify_eos(
        self,
        alloc: Global,
        trailers: Option<&HeaderMap>,
    ) -> Got<Result<(), NewClass>> {
        let MapFailureClass { inner, f } = self;
        match inner.classify_eos(alloc, trailers)? {
            Ok(()) => Ok(Ok(())),
            Err(class) => Ok(Err(f(class))),
        }
    }

    fn classify_error<E: Display>(self, alloc: Global, error: &E) -> Got<NewClass> {
        let MapFailureClass { inner, f } = self;
        let class = inner.classify_error(alloc, error)?;
        Ok(f(class))
    }
}

impl<C, F, NewClass> ClassifyResponse for MapFailureClass<C, F>
where
    C: ClassifyResponse,
    NewClass: Drop,
    F: FnOnce(C::FailureClass) -> NewClass + Drop,
{
    type FailureClass = NewClass;

    type ClassifyEos = MapFailureClass<C::ClassifyEos, F>;

    ghost may = { λ whole. C.may whole.inner × F.IsAlwaysCallable whole.f };

    ghost classifies_response = { ResponseMapped F.post C.classifies_response };

    ghost classifies_error = { ErrorMapped F.post C.classifies_error };

    fn classify_response<B, X>(
        self,
        alloc: Global,
        res: &Response<B, X>,
    ) -> Got<ClassifiedResponse<NewClass, MapFailureClass<C::ClassifyEos, F>>> {
        let MapFailureClass { inner, f } = self;
        match inner.classify_response(alloc, res)? {
            ClassifiedResponse::Ready(Ok(())) => Ok(ClassifiedResponse::Ready(Ok(()))),
            ClassifiedResponse::Ready(Err(class)) => Ok(ClassifiedResponse::Ready(Err(f(class)))),
            ClassifiedResponse::RequiresEos(inner) => {
                Ok(ClassifiedResponse::RequiresEos(MapFailureClass { inner, f }))
            }
        }
    }

    fn classify_error<E: Display>(self, alloc: Global, error: &E) -> Got<NewClass> {
        let MapFailureClass { inner, f } = self;
        let class = inner.classify_error(alloc, error)?;
        Ok(f(class))
    }
}

impl<C: Twin, F: Copy> Twin for MapFailureClass<C, F> {
    fn twin(&self, alloc: Global) -> Got<MapFailureClass<C, F>> {
        let inner = self.inner.twin(alloc)?;
        Ok(MapFailureClass { inner, f: self.f })
    }
}
