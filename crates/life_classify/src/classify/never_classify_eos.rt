//! What classifies ends of streams for classifiers that never need it.
ghost use Rattle.std.specs.Prelude.{◌≡◌, Err, ⊤};

use crate::classify::traits::ClassifyEos;
use http::HeaderMap;
use life_core::{Got, NoMemory, Twin};
use std::alloc::Global;
use std::fmt::Display;
use std::marker::PhantomData;

/// Stands where a classifier tells each response by its head. Nothing makes one, so its calls are never reached. It
/// is no type without values, since no call could meet a contract there: its calls refuse.
#[derive(Drop)]
pub struct NeverClassifyEos<T> {
    _output_ty: PhantomData<T>,
}

impl<T> ClassifyEos for NeverClassifyEos<T> {
    type FailureClass = T;

    ghost may = { λ _. ⊤ };

    ghost classifies_eos = { λ _ _ answer. answer ≡ Err (record {}) };

    ghost classifies_error = { λ _ _ answer. answer ≡ Err (record {}) };

    fn classify_eos(self, _alloc: Global, _trailers: Option<&HeaderMap>) -> Got<Result<(), T>> {
        Err(NoMemory)
    }

    fn classify_error<E: Display>(self, _alloc: Global, _error: &E) -> Got<T> {
        Err(NoMemory)
    }
}

impl<T> Twin for NeverClassifyEos<T> {
    fn twin(&self, _alloc: Global) -> Got<NeverClassifyEos<T>> {
        Ok(NeverClassifyEos {
            _output_ty: PhantomData,
        })
    }
}
