//! Places for values of several types in one extension.
ghost use Rattle.std.specs.Prelude.{◌≡◌, Option, Some};
ghost use Rattle.std.specs.Option.{option_copied};

/// A place for a value of type `T`, in place of a type's entry in `http`'s `Extensions`.
pub trait Slot<T> {
    /// The value that it has, or none.
    ghost holds: { Self → Option T };

    /// The whole after a `set`.
    ghost after: { Self → T → Self };

    /// The value, or none.
    fn get(&self) -> Option<&T>
        ensures { option_copied result ≡ holds self.now };

    /// Sets the value, in place of the one that it had.
    fn set(&mut self, value: T)
        ensures { self.new ≡ after self.old value };

    /// A value that was set is there.
    ghost set_gives: { (whole : Self) → (item : T) → holds (after whole item) ≡ Some item };
}
