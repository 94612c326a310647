//! The program: hands its words and the desk of real files to the call `run`.
#![tactic(auto)]

use emp_engine::run::run;
use emp_file_desk::file_desk::FileDesk;
use std::process::ExitCode;
use std::{env, io};

/// The words without the program's name.
fn words(rt: &HostRuntime) -> io::Result<Vec<String>> {
    let mut words = Vec::new(rt.alloc());
    for word in env::args(rt)?.skip(1) {
        words.push(word)?;
    }
    Ok(words)
}

/// Ends with the answer of `run`, or with 9 where the words cannot be had from the system.
fn main(rt: HostRuntime) -> ExitCode {
    let alloc = rt.alloc();
    match words(&rt) {
        Ok(words) => ExitCode::from(run(alloc, words.as_slice(), &mut FileDesk::new(rt))),
        Err(_) => ExitCode::from(9),
    }
}
