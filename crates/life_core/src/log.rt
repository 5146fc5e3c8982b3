//! The recorder in memory.
ghost use Rattle.std.specs.Prelude.{◌≡◌, ◌==◌, [], length, if◌then◌else◌};

use crate::Got;
use crate::event::{DropKind, Event, Events};
use crate::list::List;
use crate::recorder::Recorder;
use std::alloc::Global;
use std::marker::{Model, PhantomData};

/// A list of events.
#[derive(Drop)]
pub struct Log {
    alloc: Global,
    events: Events,
    /// Names a type inside of the events, which the proof of `note` has to see.
    kinds: PhantomData<DropKind>,
}

impl Model for Log {
    ghost use Rattle.life_core.specs.List.{Listed};
    ghost use Rattle.life_core.specs.declared.event.Event.{Event as Recordable};

    ghost Value = { Listed Recordable };

    ghost view = { λ l. l.events };
}

impl Log {
    /// An empty log. It takes no memory.
    pub fn new(alloc: Global) -> Log
        ensures { result ≡ record { items = []; spare = 0 } }
    {
        Log {
            alloc,
            events: List::new(alloc),
            kinds: PhantomData,
        }
    }

    /// Takes all events out. A log without events keeps its room, and any other is left without room. It takes
    /// no memory.
    pub fn take(&mut self) -> Events
        ensures taken { result.items ≡ self.old.items }
        ensures left { self.new.items ≡ [] }
        ensures room { self.new.spare ≡ (if length self.old.items == 0 then self.old.spare else 0) }
    {
        let none = List::new(self.alloc);
        if self.events.is_empty() {
            return none;
        }
        std::mem::replace(&mut self.events, none)
    }
}

impl Recorder for Log {
    ghost use Rattle.life_core.specs.Recorded.{none_counted};

    ghost recorded = { λ l. record { log = l.items; spare = l.spare; rest = none_counted } };

    ghost place = { λ _. [] };

    fn reserve(&mut self, n: u64) -> Got<()> {
        self.events.reserve(n)
    }

    fn note(&mut self, event: Event) -> Got<()> {
        self.events.push(event)
    }
}
