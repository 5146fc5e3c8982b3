//! What is called where a chunk of a body comes.
ghost use Rattle.std.specs.Prelude.{◌≡◌, ℕ, Ok, Result, ⊤};
ghost use Rattle.std.specs.Borrow.{Bor, MutBor};
ghost use Rattle.life_core.specs.declared.recorder.NoMemory.{NoMemory};
ghost use Rattle.life_core.specs.declared.span.Span.{Span};
ghost use Rattle.life_trace.specs.Closures.{ClosureSeesChunk};
ghost use Rattle.life_trace.specs.DefaultOnBodyChunk.{default_on_body_chunk};
ghost use Rattle.life_trace.specs.Hooks.{SeesChunk};
ghost use Rattle.life_trace.specs.NoteChunk.{RecordsChunk, note_chunk};
ghost use Rattle.life_trace.specs.Silent.{Silent};

use bytes::Bytes;
use life_core::{Event, Got, HookFn, Latency, LatencyUnit, Recorder, Span, Twin};
use std::alloc::Global;

/// Called with each chunk of a response's body, also an empty one.
pub trait OnBodyChunk<D, L: Recorder>: Drop {
    /// It may be called.
    ghost may: { Self → Type 0 };

    /// What a call means.
    ghost sees_chunk: { SeesChunk Self D };

    /// Tells of the chunk, which came `latency` nanoseconds after the last ready answer of the body, or after
    /// the call where it is the first, in the request's span.
    fn on_body_chunk(
        &mut self,
        alloc: Global,
        chunk: &D,
        latency: u64,
        span: &Span,
        rec: &mut L,
    ) -> Got<()>
        requires { may self.old }
        ensures sees { sees_chunk self.old chunk.now latency span.now (L.recorded rec.old) result
            self.new (L.recorded rec.new) }
        ensures may { may self.new }
        ensures place { L.place rec.new ≡ L.place rec.old };
}

impl<D, L: Recorder> OnBodyChunk<D, L> for () {
    ghost may = { λ _. ⊤ };

    ghost sees_chunk = { λ hook _ _ _. Silent hook };

    fn on_body_chunk(
        &mut self,
        _alloc: Global,
        _chunk: &D,
        _latency: u64,
        _span: &Span,
        _rec: &mut L,
    ) -> Got<()> {
        Ok(())
    }
}

impl<D, L, F> OnBodyChunk<D, L> for HookFn<F>
where
    L: Recorder,
    F: FnMut(Global, &D, u64, &Span, &mut L) -> Got<()> + Drop,
{
    // The closure may always be called, and leaves the references of the recorder.
    ghost may = { λ hook. F.IsAlwaysCallable hook.closure
        × ((before after : F) (alloc : _) (chunk : Bor D) (latency : ℕ) (span : Bor Span)
        (rec : MutBor L) (answer : Result Unit NoMemory) (left : MutBor L)
        → F.step before alloc chunk latency span rec answer left after
        → L.place left.now ≡ L.place rec.now) };

    ghost sees_chunk = { λ hook chunk latency span was answer after now.
        ClosureSeesChunk L.recorded F.FnMut hook.closure chunk latency span was answer
        after.closure now };

    fn on_body_chunk(
        &mut self,
        alloc: Global,
        chunk: &D,
        latency: u64,
        span: &Span,
        rec: &mut L,
    ) -> Got<()> {
        (self.closure)(alloc, chunk, latency, span, rec)
    }
}

/// Does nothing.
#[derive(Debug, Drop)]
pub struct DefaultOnBodyChunk {
    _priv: (),
}

impl DefaultOnBodyChunk {
    /// The hook.
    pub fn new() -> DefaultOnBodyChunk
        ensures { result ≡ default_on_body_chunk }
    {
        DefaultOnBodyChunk { _priv: () }
    }
}

impl Default for DefaultOnBodyChunk {
    ghost is_default = { λ hook. hook ≡ default_on_body_chunk };

    fn default() -> DefaultOnBodyChunk {
        DefaultOnBodyChunk::new()
    }
}

impl Twin for DefaultOnBodyChunk {
    /// An equal hook. It takes no memory.
    fn twin(&self, _alloc: Global) -> Got<DefaultOnBodyChunk>
        ensures { result ≡ Ok self.now }
    {
        Ok(DefaultOnBodyChunk { _priv: () })
    }
}

impl<D, L: Recorder> OnBodyChunk<D, L> for DefaultOnBodyChunk {
    ghost may = { λ _. ⊤ };

    ghost sees_chunk = { λ hook _ _ _. Silent hook };

    fn on_body_chunk(
        &mut self,
        _alloc: Global,
        _chunk: &D,
        _latency: u64,
        _span: &Span,
        _rec: &mut L,
    ) -> Got<()> {
        Ok(())
    }
}

/// Records the length of each chunk, and its latency in nanoseconds.
#[derive(Debug, Drop)]
pub struct NoteChunk {
    _priv: (),
}

impl NoteChunk {
    /// The hook.
    pub fn new() -> NoteChunk
        ensures { result ≡ note_chunk }
    {
        NoteChunk { _priv: () }
    }
}

impl Default for NoteChunk {
    ghost is_default = { λ hook. hook ≡ note_chunk };

    fn default() -> NoteChunk {
        NoteChunk::new()
    }
}

impl Twin for NoteChunk {
    /// An equal hook. It takes no memory.
    fn twin(&self, _alloc: Global) -> Got<NoteChunk>
        ensures { result ≡ Ok self.now }
    {
        Ok(NoteChunk { _priv: () })
    }
}

impl<L: Recorder> OnBodyChunk<Bytes, L> for NoteChunk {
    ghost may = { λ _. ⊤ };

    ghost sees_chunk = { RecordsChunk };

    fn on_body_chunk(
        &mut self,
        _alloc: Global,
        chunk: &Bytes,
        latency: u64,
        _span: &Span,
        rec: &mut L,
    ) -> Got<()> {
        rec.note(Event::Chunk {
            bytes: chunk.len() as u64,
            latency: Latency {
                unit: LatencyUnit::Nanos,
                nanos: latency,
            },
        })
    }
}
