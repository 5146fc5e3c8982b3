//! Records each early drop.
ghost use Rattle.std.specs.Prelude.{◌≡◌, ⊤};
ghost use Rattle.life_drop.specs.Note.{NotesDrop, NotesFuture, NotesStart, NotesBody};

use crate::on_early_drop::traits::{OnBodyDrop, OnDropCallback, OnFutureDrop};
use life_core::{
    DropKind, Event, Got, Latency, LatencyUnit, Recorder, Request, ResponseHead, Span, Twin, since,
};
use std::alloc::Global;

/// A hook for both slots that records each early drop, with the time since the call in nanoseconds.
#[derive(Clone, Copy)]
pub struct NoteDrop;

/// Records what was dropped, and how long after the call.
#[derive(Clone, Copy)]
pub struct NoteDropped {
    what: DropKind,
    start: u64,
}

impl NoteDrop {
    /// The hook.
    pub fn new() -> NoteDrop {
        NoteDrop
    }
}

impl Twin for NoteDrop {
    fn twin(&self, _alloc: Global) -> Got<NoteDrop> {
        Ok(*self)
    }
}

impl<L: Recorder> OnDropCallback<L> for NoteDropped {
    ghost may = { λ _. ⊤ };

    ghost drops = { NotesDrop };

    fn on_drop(self, _alloc: Global, now: u64, rec: &mut L) -> Got<()> {
        rec.note(Event::Dropped {
            what: self.what,
            latency: Latency {
                unit: LatencyUnit::Nanos,
                nanos: since(self.start, now),
            },
        })
    }
}

impl<B, X, L: Recorder> OnFutureDrop<B, X, L> for NoteDrop {
    type Callback = NoteDropped;

    ghost may = { λ _. ⊤ };

    ghost makes = { NotesFuture };

    fn make(
        &mut self,
        _alloc: Global,
        _request: &Request<B, X>,
        now: u64,
        _span: &Option<Span>,
    ) -> Got<NoteDropped> {
        Ok(NoteDropped {
            what: DropKind::Future,
            start: now,
        })
    }
}

impl<B, X, L: Recorder> OnBodyDrop<B, X, L> for NoteDrop {
    type Intermediate = u64;

    type Callback = NoteDropped;

    ghost may = { λ _. ⊤ };

    ghost may_respond = { λ _. ⊤ };

    ghost makes_at_call = { NotesStart };

    ghost makes_at_response = { NotesBody };

    fn make_at_call(
        &mut self,
        _alloc: Global,
        _request: &Request<B, X>,
        now: u64,
        _span: &Option<Span>,
    ) -> Got<u64> {
        Ok(now)
    }

    fn make_at_response(
        &mut self,
        _alloc: Global,
        intermediate: u64,
        head: &ResponseHead<X>,
    ) -> Got<NoteDropped> {
        Ok(NoteDropped {
            what: DropKind::Body(head.parts.status),
            start: intermediate,
        })
    }
}
