//! The driven stack over a scripted service, and the program's top call.
#![tactic(auto)]

mod program;
mod service;
mod stack;

pub use life_session::{Report, report_text};
pub use program::running::run;
pub use program::status::Status;
pub use service::ScriptService;
pub use service::body::ScriptBody;
pub use service::ext::Ext;
pub use service::future::ScriptFuture;
pub use stack::driving::drive;
pub use stack::keeping::{DrivenLayers, Session};
pub use stack::{
    DriveBody, DriveFuture, DriveStack, abandon_body, abandon_future, call_stack, drive_stack,
    poll_body, poll_future, request_of, script_request,
};
