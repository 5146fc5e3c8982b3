//! How a request starts and stops counting.
ghost use Rattle.std.specs.Prelude.{◌≡◌};
ghost use Rattle.life_core.specs.Moment.{moment_of, SameContext};
ghost use Rattle.life_count.specs.InFlight.{InFlightAbandons, has_room, entered, left};

use crate::meter::Metered;
use life_core::{Cx, Got, Spend};

/// Counts one more request where the meter is not full, and answers whether it did.
pub(crate) fn enter<L: Metered>(rec: &mut L) -> bool
    ensures counted { result ≡ has_room (L.recorded rec.old) }
    ensures entered { L.recorded rec.new ≡ entered result (L.recorded rec.old) }
    ensures place { L.place rec.new ≡ L.place rec.old }
{
    rec.enter().is_ok()
}

/// Counts one request less, where this one was counted.
pub(crate) fn leave<L: Metered>(counted: bool, rec: &mut L)
    ensures left { L.recorded rec.new ≡ left counted (L.recorded rec.old) }
    ensures place { L.place rec.new ≡ L.place rec.old }
{
    if counted {
        let _ = rec.leave();
    }
}

/// Abandons the future or the body by which a request counted, or did not. Whatever that answers, the request then
/// counts no longer.
pub(crate) fn abandon<F: Spend<L>, L: Metered>(
    inner: F,
    counted: bool,
    cx: &mut Cx<'_, L>,
) -> Got<()>
    requires { F.may inner }
    ensures abandons { InFlightAbandons F.abandons inner counted (L.recorded cx.old.rec.now)
        (moment_of cx.old) result (L.recorded cx.new.rec.now) }
    ensures context { SameContext L.place cx.old cx.new }
{
    let abandoned = inner.abandon(cx);
    leave(counted, cx.rec);
    abandoned
}
