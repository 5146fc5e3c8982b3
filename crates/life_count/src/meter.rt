//! What counts requests.
ghost use Rattle.std.specs.Prelude.{◌≡◌, ◌≤◌, ◌+◌, List};
ghost use base.Fml.{GName};
ghost use Rattle.life_core.specs.Recorded.{Counted};
ghost use Rattle.life_count.specs.Meter.{Aside, Enters, Leaves, is_full, with_counts};

use life_core::Recorder;
use thiserror::Error;

/// As many requests are live as may be.
#[derive(Clone, Copy, Debug, Error)]
#[error("as many requests are in flight as may be")]
pub struct Full;

/// Counts live requests, up to a cap. No call takes memory.
pub trait Meter {
    /// How many requests are live by this meter, the most of them, and how many at most are live by others that
    /// count into the same number.
    ghost counts: { Self → Counted };

    /// What it keeps beside its numbers: the events and the room of a meter that is also a recorder.
    ghost aside: { Self → Aside };

    /// What it keeps for good: the `&mut` references that it holds, and what tells apart what it counts by.
    ghost holds: { Self → List GName };

    /// Counts one more request. It is refused exactly where the meter is full, and then nothing changes.
    fn enter(&mut self) -> Result<(), Full>
        ensures enters { Enters (counts self.old) result (counts self.new) }
        ensures aside { aside self.new ≡ aside self.old }
        ensures holds { holds self.new ≡ holds self.old };

    /// Counts one request less. The answer is false exactly where none is live, and then nothing changes.
    fn leave(&mut self) -> bool
        ensures leaves { Leaves (counts self.old) result (counts self.new) }
        ensures aside { aside self.new ≡ aside self.old }
        ensures holds { holds self.new ≡ holds self.old };

    /// Whether as many requests are live by this meter as may be.
    fn full(&self) -> bool
        ensures { result ≡ is_full (counts self.now) };

    /// How many requests are live by this meter.
    fn own(&self) -> u64
        ensures { result ≡ (counts self.now).live };

    /// How many requests are live by this meter and by others, at one moment of the call.
    fn get(&mut self) -> u64
        ensures least { (counts self.old).live ≤ result }
        ensures most { result ≤ (counts self.old).live + (counts self.old).others }
        ensures counts { counts self.new ≡ counts self.old }
        ensures aside { aside self.new ≡ aside self.old }
        ensures holds { holds self.new ≡ holds self.old };
}

/// A recorder that is also a meter: its numbers are the meter's.
pub trait Metered: Recorder + Meter {
    /// It records what the meter keeps aside, and beside it the meter's numbers.
    ghost agrees: { (s : Self) → Self.recorded s ≡ with_counts (Self.aside s) (Self.counts s) };

    /// Its calls as a recorder and as a meter keep the same for good.
    ghost placed: { (s : Self) → Self.place s ≡ Self.holds s };
}
