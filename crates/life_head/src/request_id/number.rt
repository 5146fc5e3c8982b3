//! Ids that are numbers.
ghost use Rattle.std.specs.Prelude.{⊤};
ghost use Rattle.life_head.specs.Ids.{NumberMakes};

use crate::request_id::id::{MakeRequestId, RequestId};
use http::header::HeaderValue;
use life_core::{Got, NoMemory, Request, Slot, Twin};
use std::alloc::Global;

/// The number of a request.
#[derive(Clone, Copy, Debug)]
pub struct Number(pub u64);

impl Twin for Number {
    fn twin(&self, _alloc: Global) -> Got<Number> {
        Ok(*self)
    }
}

/// Names a request by the number in its extension, in decimal. One without a number gets no id.
#[derive(Clone, Copy, Debug)]
pub struct ByNumber;

impl<B, X: Slot<Number>> MakeRequestId<B, X> for ByNumber {
    ghost may = { λ _. ⊤ };

    ghost makes = { NumberMakes X.holds };

    fn make_request_id(
        &mut self,
        alloc: Global,
        request: &Request<B, X>,
    ) -> Got<Option<RequestId>> {
        let Some(number) = request.ext().get() else {
            return Ok(None);
        };
        match HeaderValue::from_u64(alloc, number.0) {
            Ok(value) => Ok(Some(RequestId::new(value))),
            Err(_) => Err(NoMemory),
        }
    }
}

impl Twin for ByNumber {
    fn twin(&self, _alloc: Global) -> Got<ByNumber> {
        Ok(*self)
    }
}
