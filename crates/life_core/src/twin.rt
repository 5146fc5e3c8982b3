//! Equal values, in place of `Clone`.
ghost use Rattle.std.specs.Prelude.{◌≡◌, Ok, IfOk};

use crate::Got;
use std::alloc::Global;

/// A value of which an equal one can be made.
pub trait Twin {
    /// An equal value.
    fn twin(&self, alloc: Global) -> Got<Self>
        ensures { IfOk result (λ twin. twin ≡ self.now) };
}

impl Twin for () {
    /// The same. It takes no memory.
    fn twin(&self, _alloc: Global) -> Got<()>
        ensures { result ≡ Ok tt }
    {
        Ok(())
    }
}
