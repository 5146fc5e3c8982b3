//! Times, hooks and places.
ghost use Rattle.std.specs.Prelude.{Some, refl};

use crate::asserting::is;
use life_core::{HookFn, Slot, Timer, Twin, since};

/// The starts and lengths of timers, the time, whether they are due then, and how long ago they were started.
const CLOCKS: [(&str, u64, u64, u64, bool, u64); 5] = [
    ("a clock below the start", 100, 20, 90, false, 0),
    ("just before the end", 100, 20, 119, false, 19),
    ("at the end", 100, 20, 120, true, 20),
    ("no length, below the start", 5, 0, 4, false, 0),
    ("no length, at the start", 5, 0, 5, true, 0),
];

#[test]
fn clocks(rt: HostRuntime) {
    for &(name, start, length, now, due, gone) in &CLOCKS {
        is(&rt, name, Timer { start, length }.is_due(now), due);
        is(&rt, name, since(start, now), gone);
    }
}

#[test]
fn closures_as_hooks(rt: HostRuntime) {
    let bound = 5;
    let hook = HookFn::new(move |number: u64| number < bound);
    let twin = hook.twin(rt.alloc()).expect(&rt, "memory");
    for (number, want) in [(4, true), (5, false)] {
        is(&rt, "the hook", (hook.closure)(number), want);
        is(&rt, "its twin", (twin.closure)(number), want);
    }
}

/// Two places.
#[derive(Clone, Copy)]
struct Places {
    number: Option<u64>,
    sign: Option<bool>,
}

impl Slot<u64> for Places {
    ghost holds = { λ places. places.number };

    ghost after = { λ places number. record places { number = Some number } };

    ghost set_gives = { λ _ _. refl };

    fn get(&self) -> Option<&u64> {
        self.number.as_ref()
    }

    fn set(&mut self, value: u64) {
        self.number = Some(value);
    }
}

#[test]
fn slots(rt: HostRuntime) {
    let mut places = Places {
        number: None,
        sign: Some(true),
    };
    is(&rt, "at first", places.get().copied(), None);
    places.set(7);
    is(&rt, "what was set", places.get().copied(), Some(7));
    is(&rt, "another place", places.sign, Some(true));
}
