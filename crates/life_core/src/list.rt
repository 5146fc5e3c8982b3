//! Lists that contracts see as their items, with the room that they have for more.
ghost use Rattle.std.specs.Prelude.{◌≡◌, ◌+◌, ◌≤◌, ◌<◌, [], ◌∷◌, ◌++◌, length, slice_get, Some, IfOk, OnOk, OnErr, MatchOption, ◌==◌};
ghost use Rattle.std.specs.Option.{option_copied};

use crate::Got;
use crate::recorder::NoMemory;
use crate::twin::Twin;
use std::alloc::Global;
use std::marker::Model;

/// A list. Its items may be values that must be spent.
#[derive(Debug)]
pub struct List<T> {
    items: Vec<T>,
}

impl<T> Model for List<T> {
    ghost use Rattle.std.specs.Prelude.{◌-◌};
    ghost use Rattle.std.specs.Vec.{vec_capacity, vec_len};
    ghost use Rattle.life_core.specs.List.{Listed, listed_coded};

    ghost Value = { Listed T };

    ghost coded = { listed_coded T.code };

    ghost view = { λ l. record {
      items = l.items.items;
      spare = vec_capacity l.items - vec_len l.items;
    } };
}

impl<T: Drop> Drop for List<T> {
    fn drop(self) {
        let List { items } = self;
        drop(items);
    }
}

impl<T> List<T> {
    ghost use Rattle.std.specs.Borrow.{sem};
    ghost use Rattle.life_core.specs.Lending.{LendsItem, LendsItems};

    /// The empty list. It takes no memory.
    pub fn new(alloc: Global) -> List<T>
        ensures { result ≡ record { items = []; spare = 0 } }
    {
        List {
            items: Vec::new(alloc),
        }
    }

    /// How many items it has.
    pub fn len(&self) -> u64
        ensures { result ≡ length self.now.items }
    {
        self.items.len() as u64
    }

    /// Whether it has no item.
    pub fn is_empty(&self) -> bool
        ensures { result ≡ (length self.now.items == 0) }
    {
        self.items.is_empty()
    }

    /// The item at an index, or none past the end.
    pub fn get(&self, i: u64) -> Option<&T>
        ensures { option_copied result ≡ slice_get self.now.items i }
    {
        self.items.get(i as usize)
    }

    /// All items, in order.
    pub fn as_slice(&self) -> &[T]
        ensures { result.now ≡ self.now.items }
    {
        self.items.as_slice()
    }

    /// All items, to be changed; the list keeps its length.
    pub fn as_mut_slice(&mut self) -> &mut [T]
        ensures* writes_back { sem 𝓛 (LendsItems T.row self.entry result) }
        ensures value { result.now ≡ self.old.items }
    {
        self.items.as_mut_slice()
    }

    /// The item at an index, to be changed.
    pub fn item_mut(&mut self, i: u64) -> &mut T
        requires { i < length self.old.items }
        ensures* writes_back { sem 𝓛 (LendsItem T.row i self.entry result) }
        ensures value { slice_get self.old.items i ≡ Some result.now }
    {
        &mut self.items[i as usize]
    }

    /// Makes room for n more items. The items stay, also after an error.
    pub fn reserve(&mut self, n: u64) -> Got<()>
        ensures items { self.new.items ≡ self.old.items }
        ensures room { OnOk result (n ≤ self.new.spare) }
    {
        match self.items.reserve(n as usize) {
            Ok(()) => Ok(()),
            Err(_) => Err(NoMemory),
        }
    }

    /// Takes the last item out, or answers none where there is none. It takes no memory.
    pub fn pop(&mut self) -> Option<T>
        ensures items { MatchOption result ((self.old.items ≡ []) × (self.new ≡ self.old))
            (λ last. self.old.items ≡ self.new.items ++ last ∷ []) }
        ensures spare { MatchOption result (self.new.spare ≡ self.old.spare)
            (λ _. self.new.spare ≡ self.old.spare + 1) }
    {
        self.items.pop()
    }

    /// Puts an item at the end, for which there is room. It takes no memory.
    pub fn put_back(&mut self, item: T)
        requires { 1 ≤ self.old.spare }
        ensures items { self.new.items ≡ self.old.items ++ item ∷ [] }
        ensures spare { self.new.spare + 1 ≡ self.old.spare }
    {
        let end = self.items.len();
        match self.items.insert(end, item) {
            Ok(()) => (),
            Err(_) => unreachable!(),
        }
    }
}

impl<T: Drop> List<T> {
    /// Puts an item at the end. It is refused only where no room was left, and then the items stay.
    pub fn push(&mut self, item: T) -> Got<()>
        ensures items { OnOk result (self.new.items ≡ self.old.items ++ item ∷ []) }
        ensures spare { OnOk result (self.old.spare ≤ self.new.spare + 1) }
        ensures kept { OnErr result (self.new.items ≡ self.old.items) }
        ensures full { OnErr result (self.old.spare ≡ 0) }
    {
        match self.items.push(item) {
            Ok(()) => Ok(()),
            Err(_) => Err(NoMemory),
        }
    }
}

impl<T: Twin + Drop> List<T> {
    /// A list of twins of the items.
    pub fn twin_items(&self, alloc: Global) -> Got<List<T>>
        ensures { IfOk result (λ list. list.items ≡ self.now.items) }
    {
        let mut twins = List::new(alloc);
        for item in self.as_slice() {
            twins.push(item.twin(alloc)?)?;
        }
        Ok(twins)
    }
}
