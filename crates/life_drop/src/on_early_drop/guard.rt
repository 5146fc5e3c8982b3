//! A callback that is called unless what it watches was completed before.
ghost use Rattle.std.specs.Prelude.{◌≡◌};
ghost use Rattle.life_drop.specs.Guard.{Fires, IsArmed, IsDisarmed, GuardMay, callback_of};

use crate::on_early_drop::traits::OnDropCallback;
use life_core::{Got, Recorder};
use std::alloc::Global;

/// Calls its callback where it is abandoned before it was completed.
pub struct OnEarlyDropGuard<C> {
    callback: Option<C>,
}

impl<C> OnEarlyDropGuard<C> {
    /// A guard that was not completed.
    pub fn new(callback: C) -> OnEarlyDropGuard<C>
        ensures { IsArmed callback result }
    {
        OnEarlyDropGuard {
            callback: Some(callback),
        }
    }

    /// Drops the callback, which is not called.
    pub fn completed(&mut self)
    where
        C: Drop,
        ensures { IsDisarmed self.new }
    {
        self.callback = None;
    }

    /// Calls the callback, where the guard was not completed. An error is the callback's.
    pub fn abandon<L: Recorder>(self, alloc: Global, now: u64, rec: &mut L) -> Got<()>
    where
        C: OnDropCallback<L>,
        requires { GuardMay C.may self }
        ensures fires { Fires C.drops self now (L.recorded rec.old) result (L.recorded rec.new) }
        ensures place { L.place rec.new ≡ L.place rec.old }
    {
        let OnEarlyDropGuard { callback } = self;
        match callback {
            Some(callback) => callback.on_drop(alloc, now, rec),
            None => Ok(()),
        }
    }
}
