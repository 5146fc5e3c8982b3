//! Scenarios: what is asked of the driven stack, and what is told of it.
#![tactic(auto)]

mod answer;
mod checks;
mod error;
mod headers;
mod reading;
mod scenario;
mod texts;
mod told;

pub use answer::{Answer, Seen};
pub use checks::{MAX_HEADER_VALUES, check};
pub use error::{DriveError, ReadError};
pub use headers::HeaderList;
pub use reading::read_scenario;
pub use scenario::{
    Act, BodyItem, BodyItems, CallItem, Limits, PollItem, PollItems, Reply, Scenario, Script,
    Scripts, Step, Steps, Then,
};
pub use texts::{TextBuilder, answer_text, event_text};
pub use told::{Told, ToldList, Turn, Turns};
