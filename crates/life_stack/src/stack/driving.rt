//! Drives the steps of a scenario, one after another.
ghost use Rattle.std.specs.Prelude.{◌≡◌, ◌≤◌, slice_get, Some, Err, IfOk, IfErr, IsOk};
ghost use Rattle.life_script.specs.Valid.{IsValid, verdict};
ghost use Rattle.life_script.specs.declared.error.DriveError.TheVariants.{NoMemory as OutOfMemory};
ghost use Rattle.life_session.specs.Session.{IsRefused};
ghost use Rattle.life_stack.specs.Stack.Drive.{IsOfScenario, EachRequest, EachTold, drop_time_of, report_of};
ghost use Rattle.life_stack.specs.Table.Handed.{room};
ghost use Rattle.life_stack.specs.Table.Request.{numbered};
ghost use Rattle.life_session.specs.Acts.{own};
ghost use Rattle.life_stack.specs.Table.Story.{body_bytes, drop_records, drops, story};

use crate::stack::keeping::DrivenLayers;
use life_script::{DriveError, Limits, Scenario};
use life_session::Report;
use std::alloc::Global;

/// Drives the requests of a scenario through the stack that its limits give, step by step, and tells what
/// each step answered and recorded. Each request is told as if it were alone. A scenario that is not valid is
/// refused before any step is made; the one other error is want of memory. After an error nothing is live.
pub fn drive(alloc: Global, limits: &Limits, scenario: &Scenario) -> Result<Report, DriveError>
    // What is reported is the table's: of each request its story, told by its own steps and the end.
    ensures told { IfOk result (λ r. r ≡ report_of limits.now scenario.now) }
    ensures whole { IfOk result (IsOfScenario scenario.now) }
    ensures each { IfOk result (λ r. EachRequest scenario.now (λ i script.
        slice_get r.told i ≡ Some (story limits.now (numbered i script) (own r.steps i) r.end))) }
    // Each request has the early drops of its table, none or one.
    ensures once { IfOk result (λ r. EachTold scenario.now r (λ i script t.
        drop_records t ≡ drops limits.now (numbered i script) (own r.steps i) (drop_time_of r i))) }
    // Of its body the service was handed no more bytes than there is room for.
    ensures bounded { IfOk result (λ r. EachTold scenario.now r (λ i script t.
        body_bytes t ≤ room limits.now script)) }
    // A report is of a valid scenario. An error says what is wrong with it, or that there was no memory.
    ensures valid { IsOk result → IsValid scenario.now }
    ensures refused { IfErr result (λ e. IsRefused scenario.now e) }
    ensures exact { IfErr (verdict scenario.now) (λ e. result ≡ Err e) }
    ensures complete { IsValid scenario.now → IfErr result (λ e. e ≡ OutOfMemory) }
{
    life_session::drive::<DrivenLayers>(alloc, limits, scenario)
}
