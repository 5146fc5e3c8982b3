//! What a session keeps of one request, over any stack that keeps a table.
ghost use Rattle.std.specs.Prelude.{◌≡◌, ℕ, ◌≤◌, List, IfOk, IsOk};
ghost use Rattle.life_script.specs.Valid.{ScriptFits};
ghost use Rattle.life_session.specs.Acts.{Own};
ghost use Rattle.life_session.specs.Exchange.{AbandonIsDone, ActOfServed, DropIsDone, EndShown, ExchangeAt, HasRoom, IsFresh, IsIdle, MayGoOn, TurnOfServed, recorded_in};
ghost use Rattle.life_session.specs.Session.{IsStoryOf};
ghost use Rattle.life_session.specs.Table.{KeepsServing};

pub mod exchanges;
pub mod live;
pub mod seeing;

use crate::exchange::live::{Live, act_on, finish};
use crate::table::Driven;
use life_core::{Cx, Got, Log, NoMemory, Recorder};
use life_script::{Act, Answer, Script, Step, Told, Turn, Turns};
use std::alloc::Global;
use std::mem;

/// What is live of a request, the log of its current step, and its turns so far.
pub struct Exchange<F, B> {
    /// What is live of it.
    pub live: Live<F, B>,
    /// Empty between the steps, with room for the record of the early drop of what is live.
    pub log: Log,
    /// Its turns so far, with room for those to come.
    pub turns: Turns,
}

/// A request that was not called, with room for the turns of so many steps.
pub fn begin_exchange<F, B>(alloc: Global, steps: u64) -> Got<Exchange<F, B>>
    ensures fresh { IfOk result (IsFresh steps) }
{
    let mut turns = Turns::new(alloc);
    turns.reserve(steps)?;
    Ok(Exchange {
        live: Live::Fresh,
        log: Log::new(alloc),
        turns,
    })
}

/// One act at its time.
fn act_at<S: Driven>(
    stack: &mut S::Stack,
    script: &Script,
    step: Step,
    live: Live<S::Future, S::Body>,
    alloc: Global,
    log: &mut Log,
) -> Got<(Live<S::Future, S::Body>, Answer)>
    requires may { MayGoOn S.meaning live }
    requires may_stack { S.meaning.may stack.old }
    requires fits { ScriptFits script.now }
    ensures may { IfOk result (λ p. MayGoOn S.meaning p.0) }
    ensures may_stack { S.meaning.may stack.new }
    ensures kept { KeepsServing S.meaning stack.old stack.new }
    ensures dropped { DropIsDone S.meaning live step.act log.old.spare result }
    ensures idle { step.act ≡ Act.Drop → IfOk result (λ p. IsIdle p.0) }
    ensures shown { (limits : S.Limits) (acts : List Own)
        → ActOfServed S.meaning (S.meaning.key_of limits step.request script.now) acts stack.old
        live (step.at, step.act) (recorded_in log.old) result (recorded_in log.new) }
{
    let span = None;
    let mut cx = Cx {
        now: step.at,
        span: &span,
        alloc,
        rec: log,
    };
    act_on::<S, Log>(stack, script, step.request, live, step.act, &mut cx)
}

/// Abandons what is live at a time.
fn finish_at<S: Driven>(
    live: Live<S::Future, S::Body>,
    at: u64,
    alloc: Global,
    log: &mut Log,
) -> Got<()>
    requires { MayGoOn S.meaning live }
    ensures done { AbandonIsDone S.meaning live log.old.spare result }
    ensures shown { EndShown S.meaning live at (recorded_in log.old) result (recorded_in log.new) }
{
    let span = None;
    let mut cx = Cx {
        now: at,
        span: &span,
        alloc,
        rec: log,
    };
    finish::<S, Log>(live, &mut cx)
}

/// Makes room for the record of the early drop of what is live.
fn make_room<F, B>(live: &Live<F, B>, log: &mut Log) -> Got<()>
    ensures items { log.new.items ≡ log.old.items }
    ensures room { IfOk result (λ done. HasRoom live.now log.new.spare) }
    ensures idle { IsIdle live.now → IsOk result }
{
    match live {
        Live::Fresh => Ok(()),
        Live::Future(_) => log.reserve(1),
        Live::Body(_) => log.reserve(1),
        Live::Over => Ok(()),
    }
}

/// Abandons what is live of an exchange at a time; what that records is lost.
pub fn abandon_at<S: Driven>(exchange: Exchange<S::Future, S::Body>, at: u64, alloc: Global)
    requires { MayGoOn S.meaning exchange.live }
{
    let Exchange {
        live,
        mut log,
        turns: _,
    } = exchange;
    let _ = finish_at::<S>(live, at, alloc, &mut log);
}

/// Puts what is live where nothing is.
fn settle<F, B>(place: &mut Live<F, B>, live: Live<F, B>)
    requires { place.old ≡ Live.Over }
    ensures { place.new ≡ live }
{
    match mem::replace(place, live) {
        Live::Over => (),
        _ => unreachable!(),
    }
}

/// Runs a step of this request; no header list of its script holds over 1,000 values. Where it is refused for
/// memory, what was live was abandoned; a Drop is not refused.
pub fn take_turn<S: Driven>(
    stack: &mut S::Stack,
    script: &Script,
    exchange: &mut Exchange<S::Future, S::Body>,
    step: Step,
    alloc: Global,
) -> Got<()>
    requires may { MayGoOn S.meaning exchange.old.live }
    requires may_stack { S.meaning.may stack.old }
    requires fits { ScriptFits script.now }
    requires room { 1 ≤ exchange.old.turns.spare }
    ensures may { MayGoOn S.meaning exchange.new.live }
    ensures may_stack { S.meaning.may stack.new }
    ensures kept { KeepsServing S.meaning stack.old stack.new }
    ensures dropped { (k : S.Key) (acts : List Own) (left : ℕ)
        → ExchangeAt S.meaning k acts left exchange.old → step.act ≡ Act.Drop → IsOk result }
    ensures ran { (limits : S.Limits) (acts : List Own) (left : ℕ)
        → TurnOfServed S.meaning (S.meaning.key_of limits step.request script.now) acts left
        stack.old (step.at, step.act) exchange.old result exchange.new }
{
    let live = mem::replace(&mut exchange.live, Live::Over);
    let (live, answer) = match act_at::<S>(stack, script, step, live, alloc, &mut exchange.log) {
        Ok(acted) => acted,
        Err(no_memory) => return Err(no_memory),
    };
    let events = exchange.log.take();
    exchange.turns.put_back(Turn { answer, events });
    match make_room(&live, &mut exchange.log) {
        Ok(()) => {
            settle(&mut exchange.live, live);
            Ok(())
        }
        Err(no_memory) => {
            let _ = finish_at::<S>(live, step.at, alloc, &mut exchange.log);
            Err(no_memory)
        }
    }
}

/// What is told of a request whose steps all were run, where the end is at a time. It takes no memory.
pub fn finish_exchange<S: Driven>(
    exchange: Exchange<S::Future, S::Body>,
    end: u64,
    alloc: Global,
) -> Told
    requires { MayGoOn S.meaning exchange.live }
    ensures { IsStoryOf S.meaning end exchange result }
{
    let Exchange {
        live,
        mut log,
        turns,
    } = exchange;
    let _ = finish_at::<S>(live, end, alloc, &mut log);
    Told {
        turns,
        at_end: log.take(),
    }
}
