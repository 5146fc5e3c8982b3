//! Panics as plain answers.
ghost use Rattle.std.specs.Prelude.{◌≡◌};

use crate::Got;
use crate::text::Text;
use crate::twin::Twin;
use std::alloc::Global;

/// What a panic said, where that is a text.
#[derive(Debug, Drop)]
pub enum PanicText {
    /// The panic said this.
    Known(Text),
    /// What it said is no text.
    Unknown,
}

impl Twin for PanicText {
    fn twin(&self, alloc: Global) -> Got<PanicText> {
        match self {
            PanicText::Known(text) => Ok(PanicText::Known(text.twin(alloc)?)),
            PanicText::Unknown => Ok(PanicText::Unknown),
        }
    }
}

/// What may be answered in place of a response: a panic, or an error.
#[derive(Debug, Drop)]
pub enum Fault<E> {
    /// It panicked.
    Panicked(PanicText),
    /// Its own error.
    Err(E),
}
