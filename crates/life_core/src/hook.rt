//! Hooks, validators and handlers made of closures.
ghost use Rattle.std.specs.Prelude.{◌≡◌, Ok};

use crate::Got;
use crate::twin::Twin;
use std::alloc::Global;

/// A closure where a hook, a validator or a handler is asked for.
#[derive(Drop)]
pub struct HookFn<F> {
    /// What is called.
    pub closure: F,
}

impl<F> HookFn<F> {
    /// The closure as a hook.
    pub fn new(closure: F) -> HookFn<F>
        ensures { result ≡ record { closure = closure } }
    {
        HookFn { closure }
    }
}

impl<F: Copy> Twin for HookFn<F> {
    /// An equal hook. It takes no memory.
    fn twin(&self, _alloc: Global) -> Got<HookFn<F>>
        ensures { result ≡ Ok self.now }
    {
        Ok(HookFn {
            closure: self.closure,
        })
    }
}
