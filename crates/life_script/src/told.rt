//! What is told of a request.
use crate::answer::Answer;
use life_core::{Events, List};
use std::marker::Model;

/// The answer of a step, and what was recorded in it.
#[derive(Debug, Drop)]
pub struct Turn {
    /// What the step answered.
    pub answer: Answer,
    /// What was recorded in it.
    pub events: Events,
}

impl Model for Turn {
    ghost use Rattle.life_script.specs.Told.{TurnView};

    ghost Value = { TurnView };

    ghost view = { λ turn. record { answer = turn.answer; events = turn.events.items } };
}

/// Turns in the order of their steps.
pub type Turns = List<Turn>;

/// The turns of a request, and what was recorded where it was dropped at the end.
#[derive(Debug, Drop)]
pub struct Told {
    /// Its turns.
    pub turns: Turns,
    /// What was recorded where it was dropped at the end.
    pub at_end: Events,
}

impl Model for Told {
    ghost use Rattle.life_script.specs.Told.{ToldView};

    ghost Value = { ToldView };

    ghost view = { λ told. record { turns = told.turns.items; at_end = told.at_end.items } };
}

/// What is told of each request, in the order of their numbers.
pub type ToldList = List<Told>;
