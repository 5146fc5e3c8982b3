//! The program: the words of the command line, standard input and standard output.
#![tactic(auto)]

mod stdio;
mod words;

use crate::stdio::{StdSink, StdSource};
use crate::words::words_of;
use life_stack::{Status, run};
use std::process::ExitCode;

fn main(rt: HostRuntime) -> ExitCode {
    let status = match words_of(&rt) {
        Ok(words) => {
            let mut source = StdSource::new(rt.stdin());
            let mut sink = StdSink::new(rt.stdout());
            run(rt.alloc(), words.as_slice(), &mut source, &mut sink)
        }
        Err(_) => Status::NoMemory,
    };
    ExitCode::from(status.number())
}
