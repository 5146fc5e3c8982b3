//! A stack of one's own, driven by the same session as the driven layers: deadlines of bodies round the detection
//! of early drops, which there stand the other way round.
#![tactic(auto)]

mod stack;

pub use stack::{
    Deadline, ROOM, SecondBody, SecondFuture, SecondLayers, SecondRequest, SecondStack,
};
