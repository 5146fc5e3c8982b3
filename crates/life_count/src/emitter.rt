//! Tells the number of live requests at regular times.
ghost use Rattle.std.specs.Prelude.{◌≡◌, ◌↔◌, ◌≤◌, ◌+◌, IfOk, IsErr, IsSome, IfSome, OnSome, IfNone};
ghost use Rattle.life_count.specs.Emitter.{ticks};

use std::marker::Model;
use thiserror::Error;

/// An interval between ticks is 0.
#[derive(Clone, Copy, Debug, Error)]
#[error("the interval between ticks is 0")]
pub struct BadInterval;

/// Tells the number of live requests once a tick, as `InFlightRequestsCounter::run_emitter` of tower-http does,
/// but it is polled, and ended, by its caller. Its ticks are the start, the start and one interval, the start and
/// two intervals, and so on without end; those past the last time of the clock never come.
#[derive(Drop)]
pub struct Emitter {
    /// The next tick, in nanoseconds. It may be past the last time of the clock.
    next: u128,
    /// In nanoseconds.
    interval: u64,
}

impl Model for Emitter {
    ghost use Rattle.std.specs.Prelude.{◌<◌, ◌^◌};
    ghost use Rattle.life_count.specs.Emitter.{Ticks};

    ghost Value = { Ticks };

    ghost view = { λ e. record { next = e.next; interval = e.interval } };

    ghost invariant = { λ e. e.next < 2 ^ 65 };
}

impl Emitter {
    /// An emitter whose first tick is at `start` and whose further ones are `interval` apart, both in nanoseconds.
    /// It is refused exactly where the interval is 0.
    pub fn new(start: u64, interval: u64) -> Result<Emitter, BadInterval>
        ensures refused { IsErr result ↔ (interval ≡ 0) }
        ensures made { IfOk result (λ emitter. emitter ≡ ticks start interval) }
    {
        if interval == 0 {
            return Err(BadInterval);
        }
        Ok(Emitter {
            next: start.into(),
            interval,
        })
    }

    /// The number `live` where the next tick is at or before `now`, which uses up that one tick; else nothing. So
    /// ticks that were missed are told one a poll. It takes no memory.
    pub fn poll(&mut self, now: u64, live: u64) -> Option<u64>
        ensures due { IsSome result ↔ (self.old.next ≤ now) }
        ensures number { IfSome result (λ told. told ≡ live) }
        ensures used { OnSome result
            (self.new ≡ ticks (self.old.next + self.old.interval) self.old.interval) }
        ensures kept { IfNone result (self.new ≡ self.old) }
    {
        if self.next > now.into() {
            return None;
        }
        self.next += u128::from(self.interval);
        Some(live)
    }
}
