//! The exchanges of a session, one for each request.
ghost use Rattle.std.specs.Prelude.{◌≡◌, ℕ, ◌≤◌, ◌<◌, ◌+◌, [], List, length, slice_get, slice_set, Some, IfOk};
ghost use Rattle.std.specs.List.{All, AllZip};
ghost use Rattle.life_script.specs.Valid.{EachFits};
ghost use Rattle.life_session.specs.Exchange.{IsFresh, MayGoOn};
ghost use Rattle.life_session.specs.Session.{May, RunsOn, IsStoryOf};
ghost use Rattle.life_session.specs.Table.{KeepsServing};

use crate::exchange::{Exchange, abandon_at, begin_exchange, finish_exchange, take_turn};
use crate::table::Driven;
use life_core::{Got, NoMemory};
use life_script::{Script, Step, ToldList};
use std::alloc::{AllocFailed, Global};

/// Abandons all exchanges at a time; what that records is lost.
pub(crate) fn abandon_all<D: Driven>(
    exchanges: Vec<Exchange<D::Future, D::Body>>,
    at: u64,
    alloc: Global,
)
    requires { All (May D.meaning) exchanges.items }
{
    let mut rest = exchanges.into_iter();
    while let Some(exchange) = rest.next() {
        abandon_at::<D>(exchange, at, alloc);
    }
    rest.destroy_empty();
}

/// An exchange for each request, with room for as many turns as are counted.
pub(crate) fn begin_all<D: Driven>(
    alloc: Global,
    counts: &[u64],
) -> Got<Vec<Exchange<D::Future, D::Body>>>
    ensures may { IfOk result (λ exchanges. All (May D.meaning) exchanges.items) }
    ensures fresh { IfOk result (λ exchanges. AllZip IsFresh counts.now exchanges.items) }
{
    let mut exchanges = Vec::new(alloc);
    for count in counts {
        let exchange = match begin_exchange::<D::Future, D::Body>(alloc, *count) {
            Ok(exchange) => exchange,
            Err(no_memory) => {
                abandon_all::<D>(exchanges, 0, alloc);
                return Err(no_memory);
            }
        };
        if let Err(AllocFailed { value }) = exchanges.push(exchange) {
            abandon_at::<D>(value, 0, alloc);
            abandon_all::<D>(exchanges, 0, alloc);
            return Err(NoMemory);
        }
    }
    Ok(exchanges)
}

/// Runs a step in the exchange of its request. Where it is refused for memory, what was live of that request
/// was abandoned; a Drop is not refused.
pub(crate) fn run_step<D: Driven>(
    stack: &mut D::Stack,
    scripts: &[Script],
    exchanges: &mut Vec<Exchange<D::Future, D::Body>>,
    step: Step,
    alloc: Global,
) -> Got<()>
    requires may { All (May D.meaning) exchanges.old.items }
    requires may_stack { D.meaning.may stack.old }
    requires within { step.request < length exchanges.old.items }
    requires scripted { length exchanges.old.items ≡ length scripts.now }
    requires fits { EachFits scripts.now }
    requires room { (e : _) → slice_get exchanges.old.items step.request ≡ Some e
        → 1 ≤ e.turns.spare }
    ensures may { All (May D.meaning) exchanges.new.items }
    ensures may_stack { D.meaning.may stack.new }
    ensures kept { KeepsServing D.meaning stack.old stack.new }
    ensures ran { RunsOn D.meaning stack.old step scripts.now exchanges.old.items result
        exchanges.new.items }
{
    let i = step.request as usize;
    D::idles();
    take_turn::<D>(stack, &scripts[i], &mut exchanges[i], step, alloc)
}

/// What is told of each request, in order, where all steps were run and the end is at a time. The list has
/// room for it, so it takes no memory.
pub(crate) fn finish_exchanges<D: Driven>(
    exchanges: Vec<Exchange<D::Future, D::Body>>,
    end: u64,
    mut told: ToldList,
    alloc: Global,
) -> ToldList
    requires may { All (May D.meaning) exchanges.items }
    requires empty { told.items ≡ [] }
    requires room { length exchanges.items ≤ told.spare }
    ensures { AllZip (IsStoryOf D.meaning end) exchanges.items result.items }
{
    let mut rest = exchanges.into_iter();
    while let Some(exchange) = rest.next() {
        told.put_back(finish_exchange::<D>(exchange, end, alloc));
    }
    rest.destroy_empty();
    told
}
