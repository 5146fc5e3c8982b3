//! Where events go.
ghost use Rattle.std.specs.Prelude.{◌≡◌, List};
ghost use base.Fml.{GName};
ghost use Rattle.life_core.specs.Recorded.{Recorded, Reserves, Notes};

use crate::Got;
use crate::event::Event;
use std::alloc::{AllocError, AllocFailed};

/// Want of memory.
#[derive(Clone, Copy, Debug)]
pub struct NoMemory;

impl From<AllocError> for NoMemory {
    fn from(_: AllocError) -> NoMemory {
        NoMemory
    }
}

impl<T: Drop> From<AllocFailed<T>> for NoMemory {
    fn from(_: AllocFailed<T>) -> NoMemory {
        NoMemory
    }
}

/// Takes events, one after another.
pub trait Recorder {
    /// The events so far, the room that was made for more, and three numbers that recording leaves.
    ghost recorded: { Self → Recorded };

    /// The `&mut` references that it holds, which every call leaves in place.
    ghost place: { Self → List GName };

    /// Makes room for n more events. No event is recorded, also after an error.
    fn reserve(&mut self, n: u64) -> Got<()>
        ensures reserves { Reserves (recorded self.old) n result (recorded self.new) }
        ensures place { place self.new ≡ place self.old };

    /// Records an event. It is refused only where no room was left, and then nothing is recorded.
    fn note(&mut self, event: Event) -> Got<()>
        ensures notes { Notes (recorded self.old) event result (recorded self.new) }
        ensures place { place self.new ≡ place self.old };
}
