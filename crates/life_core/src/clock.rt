//! Times and lengths, in whole nanoseconds.
ghost use Rattle.std.specs.Prelude.{◌≡◌, ◌≤◌, ℕ, IsTrue, true};
ghost use Rattle.life_core.specs.Timer.{due, since};

/// Started at one time, for some length.
#[derive(Clone, Copy, Debug)]
pub struct Timer {
    /// When it started, in nanoseconds.
    pub start: u64,
    /// How long it runs, in nanoseconds.
    pub length: u64,
}

impl Timer {
    #[tactic(auto, using(crate::proofs::Timers::due_later))]
    /// Whether the length is over. A clock below the start is not due, and length 0 is due at its start.
    pub fn is_due(self, now: u64) -> bool
        ensures due { result ≡ due self.start self.length now }
        ensures stays { (later : ℕ) → now ≤ later → IsTrue result
            → due self.start self.length later ≡ true }
    {
        now >= self.start && now - self.start >= self.length
    }
}

/// How long ago the start was, or 0 where it lies ahead.
pub fn since(start: u64, now: u64) -> u64
    ensures { result ≡ since start now }
{
    now.saturating_sub(start)
}
