//! A maker of ids that counts.
ghost use Rattle.std.specs.Prelude.{⊤};

use http::header::HeaderValue;
use life_core::{Got, NoMemory, Request, Twin};
use life_head::request_id::{MakeRequestId, RequestId};
use std::alloc::Global;

/// Names requests by its number, which grows by 1 with each.
#[derive(Clone, Copy)]
pub struct Counter(pub u64);

impl<B, X> MakeRequestId<B, X> for Counter {
    ghost may = { λ _. ⊤ };

    ghost makes = { λ _ _ _ _. ⊤ };

    fn make_request_id(
        &mut self,
        alloc: Global,
        _request: &Request<B, X>,
    ) -> Got<Option<RequestId>> {
        let count = self.0;
        self.0 = count.wrapping_add(1);
        match HeaderValue::from_u64(alloc, count) {
            Ok(value) => Ok(Some(RequestId::from(value))),
            Err(_) => Err(NoMemory),
        }
    }
}

impl Twin for Counter {
    fn twin(&self, _alloc: Global) -> Got<Counter> {
        Ok(*self)
    }
}
