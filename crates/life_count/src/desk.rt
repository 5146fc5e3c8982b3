//! A log and a meter, both borrowed.
ghost use Rattle.std.specs.Prelude.{◌≡◌, ◌∷◌};
ghost use Rattle.std.proofs.Common.{refl};

use crate::meter::{Full, Meter, Metered};
use life_core::{Event, Got, Log, Recorder};

/// Records in a log and counts by a meter.
#[derive(Drop)]
pub struct Desk<'a, M> {
    /// Where events go.
    pub log: &'a mut Log,
    /// What counts.
    pub meter: &'a mut M,
}

impl<M: Meter> Recorder for Desk<'_, M> {
    ghost recorded = { λ d. record { log = d.log.now.items; spare = d.log.now.spare; rest = M.counts d.meter.now } };

    ghost place = { λ d. d.log.ghost_name ∷ d.meter.ghost_name ∷ M.holds d.meter.now };

    fn reserve(&mut self, n: u64) -> Got<()> {
        self.log.reserve(n)
    }

    fn note(&mut self, event: Event) -> Got<()> {
        self.log.note(event)
    }
}

impl<M: Meter> Meter for Desk<'_, M> {
    ghost counts = { λ d. M.counts d.meter.now };

    ghost aside = { λ d. record { log = d.log.now.items; spare = d.log.now.spare } };

    ghost holds = { λ d. d.log.ghost_name ∷ d.meter.ghost_name ∷ M.holds d.meter.now };

    fn enter(&mut self) -> Result<(), Full> {
        self.meter.enter()
    }

    fn leave(&mut self) -> bool {
        self.meter.leave()
    }

    fn full(&self) -> bool {
        self.meter.full()
    }

    fn own(&self) -> u64 {
        self.meter.own()
    }

    fn get(&mut self) -> u64 {
        self.meter.get()
    }
}

impl<M: Meter> Metered for Desk<'_, M> {
    ghost agrees = { λ _. refl };

    ghost placed = { λ _. refl };
}
