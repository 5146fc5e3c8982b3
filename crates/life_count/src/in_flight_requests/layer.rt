//! What makes `InFlightRequests` services.
ghost use Rattle.std.specs.Prelude.{◌≡◌};

use crate::in_flight_requests::service::InFlightRequests;
use crate::plain_meter::PlainMeter;
use life_core::{Got, Layer, Twin};
use std::alloc::Global;

/// Makes `InFlightRequests` services.
#[derive(Drop)]
pub struct InFlightRequestsLayer;

impl InFlightRequestsLayer {
    ghost use Rattle.life_count.specs.InFlight.{in_flight_layer};
    ghost use Rattle.life_count.specs.Meter.{none_live};

    /// The layer. What its services count by is the meter of each call's recorder.
    pub fn new() -> InFlightRequestsLayer
        ensures { result ≡ in_flight_layer }
    {
        InFlightRequestsLayer
    }

    /// The layer, and a meter to count at most `cap` live requests by.
    pub fn pair(cap: u64) -> (InFlightRequestsLayer, PlainMeter)
        ensures { result ≡ (in_flight_layer, none_live cap) }
    {
        (InFlightRequestsLayer::new(), PlainMeter::new(cap))
    }
}

impl<S> Layer<S> for InFlightRequestsLayer {
    type Service = InFlightRequests<S>;

    ghost use Rattle.life_count.specs.InFlight.{in_flight};

    ghost round = { λ _ inner. in_flight inner };

    fn layer(&self, _alloc: Global, inner: S) -> Got<InFlightRequests<S>>
    where
        S: Drop,
    {
        Ok(InFlightRequests::new(inner))
    }
}

impl Twin for InFlightRequestsLayer {
    fn twin(&self, _alloc: Global) -> Got<InFlightRequestsLayer> {
        Ok(InFlightRequestsLayer::new())
    }
}
