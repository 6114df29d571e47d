//! The program `bare_decide`: decides one request without a schema. Its arguments name three files: the policies, the
//! entities, the request. It prints the answer line or the error line that `cedar_site decide` prints without
//! `--schema`, and needs fewer crates.
//!
//! The answer line goes to standard output, with status 0; an error line goes to standard error, with status 1. The
//! status is 2 for another number of arguments, and 3 if a file or the arguments can't be read, or a stream fails.
#![tactic(auto)]

use decision_texts::{Refusal, decide_texts, error_line};
use std::io::Write;
use std::process::ExitCode;
use std::{env, fs, io};

/// The status if a file or the arguments could not be read, or a stream failed.
const FAILED: u8 = 3;

/// The error line of code 1 (out of memory), a constant so that it is written without an allocation.
const NO_MEMORY_LINE: &[u8; 47] = b"{\"error\":{\"code\":1,\"place\":null,\"within\":null}}";

/// Writes a label, a line and a line feed.
fn write_line<W: Write>(out: &mut W, label: &str, line: &[u8]) -> io::Result<()> {
    out.write_all(label.as_bytes())?;
    out.write_all(line)?;
    out.write_all(b"\n")
}

/// Writes a label, a line and a line feed, and returns the status of the run: `status`, or `FAILED` if writing fails.
fn report_line<W: Write + Drop>(mut out: W, label: &str, line: &[u8], status: u8) -> ExitCode {
    match write_line(&mut out, label, line) {
        Ok(()) => ExitCode::from(status),
        Err(_) => ExitCode::from(FAILED),
    }
}

/// Reports on standard error that the file `name` can't be read, and returns the status 3.
fn report_unreadable(rt: &HostRuntime, name: &str) -> ExitCode {
    report_line(rt.stderr(), "fault: ", name.as_bytes(), FAILED)
}

/// Reports an error as a line on standard error, and returns the status 1, or 3 if writing fails.
fn report_rejection(rt: &HostRuntime, refusal: Refusal) -> ExitCode {
    match error_line(rt.alloc(), refusal) {
        Ok(line) => report_line(rt.stderr(), "", &line, 1),
        Err(_) => report_line(rt.stderr(), "", NO_MEMORY_LINE, 1),
    }
}

/// Decides a request, and prints the answer or the error. The arguments are the contents of the three files.
fn decide(rt: &HostRuntime, policies: &[u8], entities: &[u8], request: &[u8]) -> ExitCode {
    match decide_texts(rt.alloc(), policies, entities, request) {
        Ok(line) => report_line(rt.stdout(), "", &line, 0),
        Err(refusal) => report_rejection(rt, refusal),
    }
}

/// Reads the request from the file `request`, and then decides it.
fn decide_from_request(
    rt: &HostRuntime,
    policies: &[u8],
    entities: &[u8],
    request: &str,
) -> ExitCode {
    match fs::read(rt, request) {
        Ok(text) => decide(rt, policies, entities, &text),
        Err(_) => report_unreadable(rt, request),
    }
}

/// Reads the entities from the file `entities`, and then goes on with the request.
fn decide_from_entities(
    rt: &HostRuntime,
    policies: &[u8],
    entities: &str,
    request: &str,
) -> ExitCode {
    match fs::read(rt, entities) {
        Ok(text) => decide_from_request(rt, policies, &text, request),
        Err(_) => report_unreadable(rt, entities),
    }
}

/// Reads the policies from the file `policies`, and then goes on with the other files.
fn decide_from_files(rt: &HostRuntime, policies: &str, entities: &str, request: &str) -> ExitCode {
    match fs::read(rt, policies) {
        Ok(text) => decide_from_entities(rt, &text, entities, request),
        Err(_) => report_unreadable(rt, policies),
    }
}

/// Decides the request of three files. `words` are the program's name and the arguments, which name the files. For
/// another number of arguments it prints the usage, with status 2.
fn run(rt: &HostRuntime, words: &[String]) -> ExitCode {
    match words {
        [_, policies, entities, request] => decide_from_files(rt, policies, entities, request),
        _ => {
            report_line(
                rt.stderr(),
                "usage: bare_decide POLICIES ENTITIES REQUEST",
                b"",
                2,
            )
        }
    }
}

fn main(rt: HostRuntime) -> ExitCode {
    let Ok(words) = env::args(&rt) else {
        return ExitCode::from(FAILED);
    };
    match words.collect::<Vec<String>>(rt.alloc()) {
        Ok(words) => run(&rt, &words),
        Err(_) => ExitCode::from(FAILED),
    }
}
