//! Taking a source's bytes.
ghost use Rattle.std.specs.Prelude.{◌≡◌, ◌≤◌, List, ℕ, Err};
ghost use Rattle.std.specs.Io.KnownBytes.{Consumes};
ghost use Rattle.life_stack.specs.Program.Faults.{Faulted};
ghost use Rattle.life_stack.specs.Program.Input.{IsTaken};

use life_core::{Failed, Octets, Source};
use std::alloc::Global;

/// The most bytes that are taken as a scenario.
const MOST: usize = 16_777_216;

/// The most bytes that are asked for at once.
const PIECE: usize = 8192;

/// Why a source was not taken to its end.
#[derive(Clone, Copy, Debug)]
pub enum Stopped {
    /// A read failed.
    Fault,
    /// One byte more than the most was taken.
    TooLong,
    /// There was no memory for the bytes.
    NoMemory,
}

/// Takes a source's bytes to their end, or up to one byte more than the most that are taken.
pub fn take_all<S: Source>(alloc: Global, source: &mut S) -> Result<Octets, Stopped>
    ensures took { (taken : List ℕ) × Consumes (S.rest source.old) (S.rest source.new) taken
        × IsTaken taken (S.rest source.new) result }
    ensures cause { result ≡ Err Stopped.Fault → Faulted S.faults source.old source.new }
    ensures later { S.faults source.old ≤ S.faults source.new }
    ensures reliable { S.reliable source.old → S.faults source.new ≡ S.faults source.old }
{
    let mut bytes = Vec::new(alloc);
    let mut piece = [0; PIECE];
    'pieces: loop {
        let most = PIECE.min(MOST + 1 - bytes.len());
        let count = match source.read(&mut piece[..most]) {
            Ok(count) => count,
            Err(Failed) => return Err(Stopped::Fault),
        };
        if count == 0 {
            return Ok(Octets::from_vec(bytes));
        }
        if bytes.len() + count > MOST {
            return Err(Stopped::TooLong);
        }
        if bytes.extend_from_slice(&piece[..count]).is_err() {
            return Err(Stopped::NoMemory);
        }
    }
}
