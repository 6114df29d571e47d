//! Runs test cases, most of them through the public calls of whole sites: [`Site::run`], [`simulate`] and [`serve`].
//!
//! Each line of standard input is one case. The program prints the line, an arrow, and the outcome. It copies a line
//! that is empty or begins with `#`, so line N of its output belongs to line N of its input.
//!
//! - `under SCHEMA` sets the schema of the cases after it, and prints `given`.
//! - `start NAME` starts an empty site of this name, and prints the label of the schema.
//! - `NAME INPUT` gives the site of this name an input, and prints the reply. ` ¶ ` separates several inputs, which are
//!   one run, and their replies. An input is `put_policy ID TEXT`, `delete_policy ID`, `put_entity JSON`,
//!   `delete_entity TYPE ID`, `authorize JSON`, `take MESSAGE`, `get_policy ID`, `state`, `summary` or
//!   `delta SUMMARY`.
//! - `prefixes NAME INPUT` gives the site each proper prefix of the bytes of an input `put_entity`, `take`, `authorize`
//!   or `delta`, and prints the replies. Equal consecutive replies are printed once, after their number and ` × `.
//! - `says NAME INPUT` does the same as `NAME INPUT`, but prints the message of an error in place of its code.
//! - `standing NAME` prints which caches of the site are present: its ancestor cache and its index of policies.
//! - `tried NAME` prints how many policies the last answer of the site evaluated.
//! - `context TYPE ID JSON` reads the context of a request for this action, and prints it as the attributes of an
//!   entity.
//! - `network ERROR` prints the message of an error of a served stream (`served read`) or of a request (`read`).
//! - `world COUNT EVENT` executes events at COUNT empty sites, and prints the reply to each event and the state of each
//!   site. ` ¶ ` separates events. An event is the number of a site and one of the first five inputs, or `summary`,
//!   `offer`, `offer_delta NUMBER` or `deliver NUMBER`.
//! - `serve STREAM` serves an empty site, `00001`, over a stream of requests, and prints the outcome and the replies.
//!   In STREAM ` ¶ ` separates the bytes of one read from those of the next. An outcome is the code of the error (`-`
//!   without one), the number of unread bytes, the numbers of whole replies and of bytes after them, and the site's
//!   state.
//! - `reads STREAM` prints the outcome if the first read fails, if the second read fails, and so on, up to a read that
//!   never happens. `writes SIZE STREAM` does the same for writes, each of at most SIZE bytes.
//! - `logs SIZE STREAM` serves with a log that accepts at most SIZE bytes in each write. It prints the outcome if the
//!   first write of the log fails, if the second fails, and so on, up to a write that never happens. An outcome is the
//!   code of the error, the numbers of whole replies and of bytes after them, and what the log has.
//! - `cuts STREAM` prints, as `serve` does, the outcome if two reads cut the stream after its first byte, after its
//!   second byte, and so on; and then the outcomes if the second of these reads fails. Equal consecutive outcomes are
//!   printed once, as by `prefixes`.
//! - `together PIECES` serves an empty site over three connections at once, with a log, and prints the code of the
//!   error, the site's state, what the sockets note (test_connection_loop), and what the log has. ` ¶ ` separates
//!   pieces, which come one after another; a piece is the number of its connection, from 0, and bytes.
//!
//! A case of another form has the outcome `bad row`, and one for which an allocation fails `no memory`. An error is
//! printed as `refused`, its code, its place and the code of its inner error, with `-` for what it does not have. In an
//! input `⟦3×ab⟧` is `ababab`, `⟦2№a#+⟧` is `a01a12` (`#` is the number of the repetition, from 0, and `+` the next
//! number), and `⟦0a ff⟧` is the bytes 10 and 255. In a stream `\r` and `\n` are a carriage return and a line feed, and
//! a backslash with any other byte is that byte.
//!
//! [`Site::run`]: site::Site::run
//! [`simulate`]: site::simulate
//! [`serve`]: http_service::serve
#![tactic(auto)]

mod contexts;
mod given;
mod inputs;
mod line;
mod network;
mod prefixes;
mod repeats;
mod replies;
mod streams;
mod together;
mod worlds;
mod written;

use crate::given::Given;
use crate::line::Line;
use crate::written::first_word;
use plain::NoMemory;
use std::alloc::Global;
use std::io;
use std::io::Write;

/// Appends the outcome of a case.
fn push_outcome(alloc: Global, given: &mut Given, row: &str, line: &mut Line) {
    let (word, text) = first_word(row);
    match word {
        "under" => given.set_schema(alloc, text, line),
        "start" => given.start(alloc, text, line),
        "world" => worlds::push_world(alloc, given.schema(), text, line),
        "context" => contexts::push_context(alloc, given.schema(), text, line),
        "serve" | "reads" | "writes" | "logs" | "cuts" => {
            streams::push_stream(alloc, given.schema(), word, text, line)
        }
        "together" => together::push_together(alloc, given.schema(), text, line),
        "prefixes" => prefixes::push_prefixes(alloc, given, text, line),
        "network" => network::push_network(text, line),
        "standing" | "tried" => given.push_measure(word, text, line),
        "says" => given.push_messages(alloc, text, line),
        name => given.push_replies(alloc, name, text, line),
    }
}

/// Returns whether a line of standard input is a case.
fn is_case(text: &str) -> bool {
    !text.is_empty() && !text.starts_with('#')
}

/// Returns the line that is printed for a line of standard input.
fn printed(alloc: Global, given: &mut Given, text: &str) -> Result<Vec<u8>, NoMemory> {
    let mut line = Line::new(alloc);
    line.push(text.as_bytes());
    if is_case(text) {
        line.push(b"  ->  ");
        push_outcome(alloc, given, text, &mut line);
    }
    line.push(b"\n");
    line.ended()
}

/// Writes bytes to standard output.
fn print_bytes(rt: &HostRuntime, bytes: &[u8]) -> io::Result<()> {
    let mut out = io::writer(rt);
    out.write_all(bytes)
}

/// Prints the line for a line of standard input.
fn print_line(rt: &HostRuntime, given: &mut Given, text: &str) -> io::Result<()> {
    let line = printed(rt.alloc(), given, text)?;
    print_bytes(rt, &line)
}

/// Prints the line for each line of standard input.
fn print_lines(rt: &HostRuntime, given: &mut Given, text: &str) -> io::Result<()> {
    for line in text.lines() {
        print_line(rt, given, line)?;
    }
    Ok(())
}

fn main(rt: HostRuntime) -> io::Result<()> {
    let text = io::read_to_string(rt.alloc(), rt.reader())?;
    let mut given = Given::new(rt.alloc());
    print_lines(&rt, &mut given, text.as_str())
}
