//! The life of a body, over all orders of three answers.
use crate::asserting::is;
use life_core::{Life, Passed};
use std::process::Abort;

/// Each ready answer of a body, with the two that may or may not tell the end told both ways.
const ANSWERS: [Passed; 6] = [
    Passed::Chunk { ended: false },
    Passed::Chunk { ended: true },
    Passed::Trailers { ended: false },
    Passed::Trailers { ended: true },
    Passed::End,
    Passed::Fault,
];

/// Whether an answer closes a body: trailers, a chunk that is its last, and its end.
fn closes(answer: Passed) -> bool {
    match answer {
        Passed::Chunk { ended } => ended,
        Passed::Trailers { ended: _ } | Passed::End => true,
        Passed::Fault => false,
    }
}

/// Whether an answer is a fault.
fn is_fault(answer: Passed) -> bool {
    matches!(answer, Passed::Fault)
}

/// Whether a body is over after an answer: its end, a fault, and what tells the end.
fn is_over(answer: Passed) -> bool {
    match answer {
        Passed::Chunk { ended } | Passed::Trailers { ended } => ended,
        Passed::End | Passed::Fault => true,
    }
}

/// Asserts the life of a response that was called at 3, answered at 5, and whose body answered these at 6, 7 and
/// 9.
fn lives(rt: &impl Abort, first: Passed, second: Passed, third: Passed) {
    let mut life = Life::begin(3, 5, false);
    life.pass(6, first);
    life.pass(7, second);
    life.pass(9, third);
    let answers = [first, second, third];
    is(
        rt,
        "closed",
        life.closed(),
        answers.iter().any(|answer| closes(*answer)),
    );
    is(
        rt,
        "faulted",
        life.faulted(),
        answers.iter().any(|answer| is_fault(*answer)),
    );
    is(
        rt,
        "done",
        life.done(),
        answers.iter().any(|answer| is_over(*answer)),
    );
    is(
        rt,
        "its times",
        life.called() == 3 && life.responded() == 5,
        true,
    );
    is(
        rt,
        "its last time",
        life.last() == 9 && life.latency(11) == 2,
        true,
    );
    is(
        rt,
        "a clock that goes back",
        life.duration(8) == 3 && life.latency(8) == 0,
        true,
    );
}

#[test]
fn orders_of_three_answers(rt: HostRuntime) {
    for first in &ANSWERS {
        for second in &ANSWERS {
            for third in &ANSWERS {
                lives(&rt, *first, *second, *third);
            }
        }
    }
}

#[test]
fn ended_from_the_start(rt: HostRuntime) {
    is(&rt, "done", Life::begin(3, 5, true).done(), true);
}
