//! The program `cedar_site`. Its commands check policies, decide requests, load and serve sites, pull from one,
//! exchange between two, merge states and deltas, execute scripts, and explain codes and what is rejected.
#![tactic(auto)]

use program::{LineFault, SystemHost, report_words, run};
use std::env;
use std::io::ErrorKind;
use std::process::ExitCode;

/// Returns the arguments of the command line, the first of which is the program's name.
fn words(rt: &HostRuntime) -> Result<Vec<String>, LineFault> {
    match env::args(rt) {
        Ok(words) => match words.collect::<Vec<String>>(rt.alloc()) {
            Ok(words) => Ok(words),
            Err(_) => Err(LineFault::NoMemory),
        },
        Err(error) => match error.kind() {
            ErrorKind::OutOfMemory => Err(LineFault::NoMemory),
            _ => Err(LineFault::NotText),
        },
    }
}

fn main(rt: HostRuntime) -> ExitCode {
    let mut host = SystemHost {
        files: &rt,
        answers: rt.stdout(),
        faults: rt.stderr(),
        lines: Some(rt.stdout()),
        warnings: Some(rt.stderr()),
    };
    match words(&rt) {
        Ok(words) => run(rt.alloc(), &mut host, words.as_slice()),
        Err(fault) => report_words(&mut host, &fault),
    }
}
