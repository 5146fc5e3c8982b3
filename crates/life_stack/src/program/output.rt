//! The output for the bytes of a source.
ghost use Rattle.std.specs.Prelude.{◌≡◌, List, ℕ, IfOk};
ghost use Rattle.life_script.specs.Reading.{Reads};
ghost use Rattle.life_stack.specs.Program.Lines.{refused_at};
ghost use Rattle.life_stack.specs.Program.Output.{IsOutputFor};

use crate::program::status::Status;
use crate::stack::driving::drive;
use life_core::{Got, NoMemory, Octets};
use life_script::{DriveError, Limits, ReadError, Scenario, read_scenario};
use life_session::report_text;
use std::alloc::Global;

/// A text to be written, and the status of a run that writes it whole.
#[derive(Drop)]
pub struct Output {
    /// The status of a run that writes the text whole.
    pub status: Status,
    /// The bytes to be written.
    pub text: Octets,
}

/// A line of output.
fn line(alloc: Global, status: Status, text: &str) -> Got<Output>
    ensures { IfOk result (λ output. (output.status ≡ status) × (output.text ≡ text.now)) }
{
    let text = Octets::copy(alloc, text.as_bytes())?;
    Ok(Output { status, text })
}

/// The line of a refusal, with the number of what is refused.
fn refusal(alloc: Global, why: &str, number: u64) -> Got<Output>
    ensures { IfOk result (λ output. (output.status ≡ Status.Refused)
        × (output.text ≡ refused_at why.now number)) }
{
    let text = format!(in alloc; "refused: {why} {number}\n")?;
    line(alloc, Status::Refused, text.as_str())
}

/// The output for a scenario.
fn output_of(alloc: Global, limits: &Limits, scenario: &Scenario) -> Got<Output>
    ensures { (bytes : List ℕ) → Reads bytes limits.now scenario.now
        → IfOk result (λ output. IsOutputFor bytes output.status output.text) }
{
    match drive(alloc, limits, scenario) {
        Ok(report) => {
            let text = report_text(alloc, &report)?;
            Ok(Output {
                status: Status::Done,
                text,
            })
        }
        Err(DriveError::TooManyHeaders(request)) => {
            refusal(alloc, "too many headers in request", request)
        }
        Err(DriveError::ClockBack(step)) => refusal(alloc, "clock back at step", step),
        Err(DriveError::NoRequest(step)) => refusal(alloc, "no request at step", step),
        Err(DriveError::NoMemory) => Err(NoMemory),
    }
}

/// The output for the bytes that a source gave to its end.
pub fn output_for(alloc: Global, bytes: &[u8]) -> Got<Output>
    ensures { IfOk result (λ output. IsOutputFor bytes.now output.status output.text) }
{
    match read_scenario(alloc, bytes) {
        Ok((limits, scenario)) => output_of(alloc, &limits, &scenario),
        Err(ReadError::BadScenario) => line(alloc, Status::BadScenario, "bad scenario\n"),
        Err(ReadError::NoMemory) => Err(NoMemory),
    }
}
