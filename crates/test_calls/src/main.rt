//! Runs test cases of calls that no command shows. Each line of standard input is one case, a word and a text; the
//! program prints the line, an arrow, and the outcome. It copies a line that is empty or begins with `#`, so line N
//! of its output belongs to line N of its input.
//!
//! Texts (`texts`):
//!
//! - `name`, `json`: the parsed text in its canonical form.
//! - `tokens`: the number of tokens, and the kind and the byte offset of each; or the byte offset at which no token
//!   begins.
//! - `place`: for a byte offset and a text, the line and the column of that byte, and the offset of the first byte of
//!   its character.
//! - `excerpt`: the lines that show the part between two bars, in one line, with line feeds and tabs as `\n` and `\t`.
//!
//! Policies (`spans`), after the digits of a path, or `-`:
//!
//! - `span`: the text of the core node at the path; `named`: the name that this node itself has.
//!
//! Streams (`streams`) to a service that answers each request by its body, or by its target, and counts:
//!
//! - `serve`: the statuses of the replies, with `!` if the last one ends the stream; the number of calls of the
//!   service; and the lengths of the prefixes of the text that get more replies than all shorter ones. The outcome must
//!   be the same for the text split in two at each byte, and read byte by byte and written in pieces; else it is
//!   `differs`.
//! - `whole`: only the statuses, for a long text that is not split; `slow`: only the statuses, for a text that is read
//!   byte by byte and written in pieces.
//! - `reply`: the replies themselves.
//!
//! Fetched replies (`fetching`):
//!
//! - `fetch`: the outcome of fetching the text as the reply, however it is split, and the number of unread bytes if it
//!   is read in pieces of 7 bytes.
//! - `far`: the outcome for a reply that is not split: its status and the size of its body, or the error; `refused` if
//!   out of memory.
//!
//! In a text `\r`, `\n`, `\t` and `\\` have their usual meaning, `\v` is the byte 11, `\p` 12 and `\f` 255, `\d`
//! is U+202E, `\k` 1,024 letters and `\h` a header field with its line end.
#![tactic(auto)]

mod excerpts;
mod fetching;
mod keeping;
mod pieces;
mod spans;
mod streams;
mod texts;
mod ways;
mod written;

use crate::written::{bad_row, unescaped};
use plain::NoMemory;
use std::alloc::Global;
use std::io;

/// Returns the outcome of the test case with this word and this text.
fn row_outcome(alloc: Global, word: &str, text: &str) -> Result<String, NoMemory> {
    let bytes = unescaped(alloc, text)?;
    match word {
        "tokens" | "name" | "json" | "place" | "excerpt" => texts::row_outcome(alloc, word, &bytes),
        "span" | "named" => spans::row_outcome(alloc, word, &bytes),
        "serve" | "whole" | "slow" | "reply" => streams::row_outcome(alloc, word, &bytes),
        "fetch" | "far" => fetching::row_outcome(alloc, word, &bytes),
        _ => bad_row(alloc),
    }
}

/// Returns the line that is printed for a line of input.
fn outcome_text(alloc: Global, line: &str) -> Result<String, NoMemory> {
    if line.is_empty() || line.starts_with('#') {
        return String::from_str(alloc, line);
    }
    let (word, text) = line.split_once(' ').unwrap_or((line, ""));
    let outcome = row_outcome(alloc, word, text)?;
    format!(in alloc; "{line}  ->  {outcome}")
}

/// Prints the line for a line of input.
fn print_line(rt: &HostRuntime, line: &str) -> io::Result<()> {
    let told = outcome_text(rt.alloc(), line)?;
    println!(rt; "{told}")
}

/// Prints the line for each line of input.
fn print_lines(rt: &HostRuntime, text: &str) -> io::Result<()> {
    for line in text.lines() {
        print_line(rt, line)?;
    }
    Ok(())
}

fn main(rt: HostRuntime) -> io::Result<()> {
    let text = io::read_to_string(rt.alloc(), rt.reader())?;
    print_lines(&rt, text.as_str())
}
