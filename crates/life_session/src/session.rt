//! A session: the steps of a scenario, run one after another, over any stack that keeps a table.
ghost use Rattle.std.specs.Prelude.{◌≡◌, ◌==◌, ◌<◌, length, slice_get, Some, Err, IfOk, IfErr, IsOk};
ghost use Rattle.life_script.specs.Valid.{IsValid, verdict};
ghost use Rattle.life_script.specs.declared.error.DriveError.TheVariants.{NoMemory as OutOfMemory};
ghost use Rattle.life_script.specs.declared.scenario.Step.{Step as StepView};
ghost use Rattle.life_session.specs.Report.{report_by};
ghost use Rattle.life_session.specs.Session.{IsBegun, IsNext, IsRefused, IsSession};
ghost use Rattle.life_session.specs.Table.{tables};

use crate::acts::count_steps;
use crate::exchange::Exchange;
use crate::exchange::exchanges::{abandon_all, begin_all, finish_exchanges, run_step};
use crate::report::Report;
use crate::table::Driven;
use life_core::{Got, NoMemory, Twin};
use life_script::{Act, DriveError, Scenario, Scripts, Steps, ToldList, check};
use std::alloc::Global;
use std::marker::Model;
use std::rc::Rc;

/// A scenario whose first steps were run. What is live of each request stands where its own steps so far have
/// brought it, whatever the others did.
pub struct Session<D: Driven> {
    /// Boxed, as the stack is, so that a session is small where it is moved.
    limits: Box<D::Limits>,
    scripts: Rc<Scripts>,
    steps: Steps,
    end: u64,
    done: u64,
    stack: Box<D::Stack>,
    exchanges: Vec<Exchange<D::Future, D::Body>>,
    /// Empty, with room for what is told of each request.
    told: ToldList,
    alloc: Global,
}

impl<D: Driven> Model for Session<D> {
    ghost use Rattle.std.specs.Prelude.{◌≡◌, ◌≤◌, [], length};
    ghost use Rattle.life_session.specs.Session.{IsSession, SessionView, session_of};

    ghost Value = { SessionView D.Limits D.Stack D.Future D.Body };

    ghost view = { λ s.
        session_of s.limits.value s.scripts.value.items s.steps.items s.end s.done s.stack.value
        s.exchanges.items };

    ghost invariant = { λ s. IsSession D.meaning
        (session_of s.limits.value s.scripts.value.items s.steps.items s.end s.done s.stack.value
        s.exchanges.items)
        × (s.told.items ≡ []) × (length s.exchanges.items ≤ s.told.spare) };
}

/// Twins of scripts, to be shared.
pub fn share(alloc: Global, scripts: &Scripts) -> Got<Rc<Scripts>>
    ensures { IfOk result (λ shared. shared.value.items ≡ scripts.now.items) }
{
    let scripts = scripts.twin_items(alloc)?;
    match Rc::new(alloc, scripts) {
        Ok(shared) => Ok(shared),
        Err(_) => Err(NoMemory),
    }
}

/// A value in a box.
fn boxed<T: Drop>(alloc: Global, value: T) -> Got<Box<T>>
    ensures { IfOk result (λ b. b.value ≡ value) }
{
    match Box::new(alloc, value) {
        Ok(boxed) => Ok(boxed),
        Err(_) => Err(NoMemory),
    }
}

/// A session of a valid scenario.
fn begin_valid<D: Driven>(alloc: Global, limits: &D::Limits, scenario: &Scenario) -> Got<Session<D>>
    requires { IsValid scenario.now }
    ensures { IfOk result (IsBegun limits.now scenario.now) }
{
    D::idles();
    let requests = scenario.requests.len();
    let counts = count_steps(alloc, requests, scenario.steps.as_slice())?;
    let scripts = share(alloc, &scenario.requests)?;
    let shared = match scripts.clone() {
        Ok(shared) => shared,
        Err(_) => return Err(NoMemory),
    };
    let steps = scenario.steps.twin_items(alloc)?;
    let mut told = ToldList::new(alloc);
    told.reserve(requests)?;
    let own_limits = boxed(alloc, limits.twin(alloc)?)?;
    let stack = boxed(alloc, D::stack_over(alloc, limits, shared)?)?;
    let exchanges = begin_all::<D>(alloc, counts.as_slice())?;
    Ok(Session {
        limits: own_limits,
        stack,
        scripts,
        steps,
        end: scenario.end,
        done: 0,
        exchanges,
        told,
        alloc,
    })
}

impl<D: Driven> Session<D> {
    /// A session of a scenario, of which no step was run. A scenario that is not valid is refused; the one
    /// other error is want of memory. After an error nothing is live.
    pub fn begin(
        alloc: Global,
        limits: &D::Limits,
        scenario: &Scenario,
    ) -> Result<Session<D>, DriveError>
        ensures begun { IfOk result (IsBegun limits.now scenario.now) }
        ensures valid { IsOk result → IsValid scenario.now }
        ensures refused { IfErr result (λ e. IsRefused scenario.now e) }
        ensures exact { IfErr (verdict scenario.now) (λ e. result ≡ Err e) }
        ensures complete { IsValid scenario.now → IfErr result (λ e. e ≡ OutOfMemory) }
    {
        check(scenario)?;
        Ok(begin_valid::<D>(alloc, limits, scenario)?)
    }

    /// Whether all steps were run.
    pub fn done(&self) -> bool
        ensures done { result ≡ (self.now.done == length self.now.scenario.steps) }
        ensures stands { IsSession D.meaning self.now }
    {
        self.done == self.steps.len()
    }

    /// Runs the next step. After an error all that was live was abandoned; a Drop is not refused and takes no
    /// memory.
    pub fn step(self) -> Got<Session<D>>
        requires { self.done < length self.scenario.steps }
        ensures next { IfOk result (IsNext self) }
        ensures dropped { (x : StepView) → slice_get self.scenario.steps self.done ≡ Some x
            → x.act ≡ Act.Drop → IsOk result }
    {
        let Session {
            limits,
            scripts,
            steps,
            end,
            done,
            mut stack,
            mut exchanges,
            told,
            alloc,
        } = self;
        let step = steps.as_slice()[done as usize];
        match run_step::<D>(&mut *stack, scripts.as_slice(), &mut exchanges, step, alloc) {
            Ok(()) => Ok(Session {
                limits,
                scripts,
                steps,
                end,
                done: done + 1,
                stack,
                exchanges,
                told,
                alloc,
            }),
            Err(no_memory) => {
                abandon_all::<D>(exchanges, step.at, alloc);
                Err(no_memory)
            }
        }
    }

    /// The report of a session whose steps all were run. What is still live is abandoned at the end, in the
    /// order of the requests' numbers. It takes no memory.
    pub fn finish(self) -> Report
        requires { self.done ≡ length self.scenario.steps }
        ensures { result ≡ report_by (tables D.meaning self.limits) self.scenario }
    {
        let Session {
            limits: _,
            scripts: _,
            steps,
            end,
            done: _,
            stack: _,
            exchanges,
            told,
            alloc,
        } = self;
        let told = finish_exchanges::<D>(exchanges, end, told, alloc);
        Report { told, steps, end }
    }
}

/// Drives the requests of a scenario through a stack that keeps a table, step by step, and tells what each step
/// answered and recorded, by the table. Each request is told as if it were alone. A scenario that is not valid is
/// refused before any step is made; the one other error is want of memory. After an error nothing is live.
pub fn drive<D: Driven>(
    alloc: Global,
    limits: &D::Limits,
    scenario: &Scenario,
) -> Result<Report, DriveError>
    ensures told { IfOk result (λ r. r ≡ report_by (tables D.meaning limits.now) scenario.now) }
    ensures valid { IsOk result → IsValid scenario.now }
    ensures refused { IfErr result (λ e. IsRefused scenario.now e) }
    ensures exact { IfErr (verdict scenario.now) (λ e. result ≡ Err e) }
    ensures complete { IsValid scenario.now → IfErr result (λ e. e ≡ OutOfMemory) }
{
    let mut session = Session::<D>::begin(alloc, limits, scenario)?;
    while !session.done() {
        session = session.step()?;
    }
    Ok(session.finish())
}
