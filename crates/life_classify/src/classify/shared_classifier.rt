//! One classifier for all requests.
ghost use Rattle.std.specs.Prelude.{◌≡◌};

use crate::classify::traits::{ClassifyResponse, MakeClassifier};
use life_core::{Got, Request, Twin};
use std::alloc::Global;

/// Gives each request a twin of one classifier.
#[derive(Drop)]
pub struct SharedClassifier<C> {
    classifier: C,
}

impl<C> SharedClassifier<C> {
    ghost use Rattle.life_classify.specs.Shared.{shared};

    /// The maker of twins of this classifier.
    pub fn new(classifier: C) -> SharedClassifier<C>
    where
        C: ClassifyResponse + Twin,
        ensures { result ≡ shared classifier }
    {
        SharedClassifier { classifier }
    }
}

impl<X, C: ClassifyResponse + Twin> MakeClassifier<X> for SharedClassifier<C> {
    ghost use Rattle.life_classify.specs.Shared.{MakesTwins};

    type FailureClass = C::FailureClass;

    type ClassifyEos = C::ClassifyEos;

    type Classifier = C;

    ghost may = { λ maker. C.may maker.classifier };

    ghost makes = { MakesTwins };

    fn make_classifier<B>(&self, alloc: Global, _req: &Request<B, X>) -> Got<C> {
        self.classifier.twin(alloc)
    }
}

impl<C: Twin> Twin for SharedClassifier<C> {
    fn twin(&self, alloc: Global) -> Got<SharedClassifier<C>> {
        let classifier = self.classifier.twin(alloc)?;
        Ok(SharedClassifier { classifier })
    }
}
