//! A run: words and a source in, a status and a text out.
ghost use Rattle.std.specs.Prelude.{◌≡◌, ◌≤◌, ◌<◌, ◌-◌, ◌^◌, ◌⊎◌, List, ℕ, None, Some, length};
ghost use Rattle.life_script.specs.Scenario.{ScenarioView};
ghost use Rattle.life_script.specs.declared.scenario.Limits.{Limits};
ghost use Rattle.life_stack.specs.Stack.Drive.{report_of};
ghost use Rattle.life_session.specs.Report.{report_text};
ghost use Rattle.life_stack.specs.Program.Faults.{Faulted};
ghost use Rattle.life_stack.specs.Program.Input.{most_bytes};
ghost use Rattle.life_stack.specs.Program.Lines.{usage_line};
ghost use Rattle.life_stack.specs.Program.Run.{EndedEarly, RanOn, HasOutput, HasScenario};
ghost use Rattle.life_stack.specs.Program.Words.{command};
ghost use Rattle.life_stack.specs.Program.Writing.{IsSteady};

use crate::program::input::{Stopped, take_all};
use crate::program::output::output_for;
use crate::program::status::Status;
use crate::program::words::{Command, command_of};
use crate::program::writing::answer;
use life_core::{Sink, Source};
use std::alloc::Global;

/// Reads a scenario from the source, drives it and writes its report.
fn drive_source<S: Source, K: Sink>(alloc: Global, source: &mut S, sink: &mut K) -> Status
    ensures ran { (taken : List ℕ) × (output : List ℕ)
        × RanOn (Some Command.Drive) taken output (S.rest source.old) (S.rest source.new)
        (K.held sink.old) (K.held sink.new) result
        × IsSteady K.reliable K.faults output sink.old sink.new }
    ensures source_fault { result ≡ Status.SourceFault → Faulted S.faults source.old source.new }
    ensures sink_fault { result ≡ Status.SinkFault → Faulted K.faults sink.old sink.new }
    ensures unwritten { EndedEarly result → sink.new ≡ sink.old }
    ensures source_later { S.faults source.old ≤ S.faults source.new }
    ensures sink_later { K.faults sink.old ≤ K.faults sink.new }
    ensures source_steady { S.reliable source.old → S.faults source.new ≡ S.faults source.old }
{
    let bytes = match take_all(alloc, source) {
        Ok(bytes) => bytes,
        Err(Stopped::Fault) => return Status::SourceFault,
        Err(Stopped::TooLong) => {
            return answer(sink, b"input over 16777216 bytes\n", Status::TooLong);
        }
        Err(Stopped::NoMemory) => return Status::NoMemory,
    };
    match output_for(alloc, bytes.as_slice()) {
        Ok(output) => answer(sink, output.text.as_slice(), output.status),
        Err(_) => Status::NoMemory,
    }
}

/// Does what the words ask for: reads the source to its end, drives the scenario that its bytes are, and
/// writes the report to the sink.
///
/// The answer is `Done` where the report was written whole. `Usage`, `TooLong`, `BadScenario` and `Refused`
/// are answered where their line was written whole. `SourceFault` is a read that failed, and `NoMemory` want
/// of memory: nothing was written then. `SinkFault` is a write that failed: the first bytes of the output
/// may have been written. Reading the words and writing take no memory.
pub fn run<S: Source, K: Sink>(
    alloc: Global,
    words: &[String],
    source: &mut S,
    sink: &mut K,
) -> Status
    // What was taken from the source, the output, and how much of that was written.
    ensures ran { (taken : List ℕ) × (output : List ℕ)
        × RanOn (command words.now) taken output (S.rest source.old) (S.rest source.new)
        (K.held sink.old) (K.held sink.new) result
        × IsSteady K.reliable K.faults output sink.old sink.new }

    // Words that are no command get the usage line, and nothing is read then.
    ensures usage { command words.now ≡ None
        → (result ≡ Status.Usage) ⊎ (result ≡ Status.SinkFault) }
    ensures usage_only { result ≡ Status.Usage → command words.now ≡ None }
    ensures unread { command words.now ≡ None → source.new ≡ source.old }

    // A run that was stopped before it had an output writes nothing.
    ensures unwritten { EndedEarly result → sink.new ≡ sink.old }

    // A fault is answered only where one was counted.
    ensures source_fault { result ≡ Status.SourceFault → Faulted S.faults source.old source.new }
    ensures sink_fault { result ≡ Status.SinkFault → Faulted K.faults sink.old sink.new }
    ensures source_later { S.faults source.old ≤ S.faults source.new }
    ensures sink_later { K.faults sink.old ≤ K.faults sink.new }
    ensures source_steady { S.reliable source.old → S.faults source.new ≡ S.faults source.old }

    // Where no fault is counted, the output is written: the report of a valid scenario, the line on what is
    // no valid scenario, and the line on wrong words.
    ensures complete { (limits : Limits) (scenario : ScenarioView)
        → command words.now ≡ Some Command.Drive → HasScenario (S.rest source.old) limits scenario
        → ¬ Faulted S.faults source.old source.new → ¬ Faulted K.faults sink.old sink.new
        → (result ≡ Status.Done) ⊎ (result ≡ Status.NoMemory) }
    ensures complete_each { (status : Status)
        → command words.now ≡ Some Command.Drive → HasOutput (S.rest source.old) status
        → ¬ Faulted S.faults source.old source.new → ¬ Faulted K.faults sink.old sink.new
        → (result ≡ status) ⊎ (result ≡ Status.NoMemory) }
    ensures complete_too_long { (bytes : List ℕ) → command words.now ≡ Some Command.Drive
        → S.rest source.old ≡ Some bytes → most_bytes < length bytes
        → ¬ Faulted S.faults source.old source.new → ¬ Faulted K.faults sink.old sink.new
        → (result ≡ Status.TooLong) ⊎ (result ≡ Status.NoMemory) }
    ensures complete_usage { command words.now ≡ None → ¬ Faulted K.faults sink.old sink.new
        → result ≡ Status.Usage }

    // The same of ends none of whose calls will fail.
    ensures assured { (limits : Limits) (scenario : ScenarioView) (room : ℕ)
        → command words.now ≡ Some Command.Drive → HasScenario (S.rest source.old) limits scenario
        → S.reliable source.old → S.faults source.old < 2 ^ 64 - 1
        → K.reliable sink.old room → length (report_text (report_of limits scenario)) ≤ room
        → K.faults sink.old < 2 ^ 64 - 1
        → (result ≡ Status.Done) ⊎ (result ≡ Status.NoMemory) }
    ensures assured_usage { (room : ℕ) → command words.now ≡ None
        → K.reliable sink.old room → length usage_line ≤ room → K.faults sink.old < 2 ^ 64 - 1
        → result ≡ Status.Usage }
{
    match command_of(words) {
        Some(Command::Drive) => drive_source(alloc, source, sink),
        None => answer(sink, b"usage: drive\n", Status::Usage),
    }
}
