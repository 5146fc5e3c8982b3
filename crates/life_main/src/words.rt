//! The words of the command line.
use life_core::{Got, NoMemory};
use std::alloc::AllocGlobal;
use std::env::args;
use std::io::ErrorKind;
use std::rt::Env;

/// The arguments after the program's name, or none where one is no text.
pub fn words_of(rt: &(impl Env + AllocGlobal)) -> Got<Vec<String>> {
    match args(rt) {
        Ok(words) => Ok(words.skip(1).collect(rt.alloc())?),
        Err(error) if error.kind() == ErrorKind::OutOfMemory => Err(NoMemory),
        Err(_) => Ok(Vec::new(rt.alloc())),
    }
}
