//! Writing a text whole.
ghost use Rattle.std.specs.Prelude.{◌≡◌, ◌≢◌, ◌≤◌, OnOk, OnErr};
ghost use Rattle.std.specs.Io.KnownBytes.{Appends};
ghost use Rattle.life_stack.specs.Program.Faults.{Faulted};
ghost use Rattle.life_stack.specs.Program.Writing.{AppendsPrefix, IsAnswered, IsSteady};

use crate::program::status::Status;
use life_core::{Failed, Sink};

/// Writes all of the bytes. It fails where a write fails, and then a prefix of them was taken. It takes no
/// memory.
pub fn write_all<K: Sink>(sink: &mut K, bytes: &[u8]) -> Result<(), Failed>
    ensures whole { OnOk result (Appends (K.held sink.old) (K.held sink.new) bytes.now) }
    ensures prefix { OnErr result (AppendsPrefix (K.held sink.old) (K.held sink.new) bytes.now) }
    ensures cause { OnErr result (Faulted K.faults sink.old sink.new) }
    ensures later { K.faults sink.old ≤ K.faults sink.new }
    ensures steady { IsSteady K.reliable K.faults bytes.now sink.old sink.new }
{
    let mut at = 0;
    while at < bytes.len() {
        at += sink.write(&bytes[at..])?;
    }
    Ok(())
}

/// Writes an output, and answers the status that is meant, or a fault of the sink. It takes no
/// memory.
pub fn answer<K: Sink>(sink: &mut K, output: &[u8], meant: Status) -> Status
    requires { meant ≢ Status.SinkFault }
    ensures answered { IsAnswered output.now (K.held sink.old) (K.held sink.new) meant result }
    ensures cause { result ≡ Status.SinkFault → Faulted K.faults sink.old sink.new }
    ensures later { K.faults sink.old ≤ K.faults sink.new }
    ensures steady { IsSteady K.reliable K.faults output.now sink.old sink.new }
{
    match write_all(sink, output) {
        Ok(()) => meant,
        Err(Failed) => Status::SinkFault,
    }
}
