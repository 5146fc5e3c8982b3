//! What it is to keep a table, and what a session does with any stack that keeps one.
#![tactic(auto)]

mod acts;
mod exchange;
mod report;
mod session;
mod table;

pub use exchange::Exchange;
pub use exchange::live::{Live, act_on, finish};
pub use exchange::seeing::seen_in;
pub use report::{Report, report_text};
pub use session::{Session, drive, share};
pub use table::Driven;
