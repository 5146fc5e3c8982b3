//! The program around a drive: what is read, its output, and what of that is written.
mod input;
mod output;
pub mod running;
pub mod status;
mod words;
mod writing;
