//! A meter that counts by itself.
ghost use Rattle.std.specs.Prelude.{◌≡◌, []};
ghost use Rattle.life_count.specs.Meter.{none_live};

use crate::meter::{Full, Meter};
use std::marker::Model;

/// Counts by itself: no others count into its number.
#[derive(Drop)]
pub struct PlainMeter {
    live: u64,
    cap: u64,
}

impl Model for PlainMeter {
    ghost use Rattle.std.specs.Prelude.{◌≤◌};
    ghost use Rattle.life_core.specs.Recorded.{Counted};

    ghost Value = { Counted };

    ghost view = { λ m. record { live = m.live; cap = m.cap; others = 0 } };

    ghost invariant = { λ m. m.live ≤ m.cap };
}

impl PlainMeter {
    /// A meter by which nothing is live, and at most `cap` requests may be.
    pub fn new(cap: u64) -> PlainMeter
        ensures { result ≡ none_live cap }
    {
        PlainMeter { live: 0, cap }
    }
}

impl Meter for PlainMeter {
    ghost use Rattle.life_count.specs.Meter.{nothing_aside};

    ghost counts = { λ m. m };

    ghost aside = { λ _. nothing_aside };

    ghost holds = { λ _. [] };

    fn enter(&mut self) -> Result<(), Full> {
        if self.live == self.cap {
            return Err(Full);
        }
        self.live += 1;
        Ok(())
    }

    fn leave(&mut self) -> bool {
        if self.live == 0 {
            return false;
        }
        self.live -= 1;
        true
    }

    fn full(&self) -> bool {
        self.live == self.cap
    }

    fn own(&self) -> u64 {
        self.live
    }

    fn get(&mut self) -> u64 {
        self.live
    }
}
