//! Cases of streams of requests, served over devices that fail.
use crate::given::new_site;
use crate::line::{BAD_ROW, BETWEEN, Line, NO_MEMORY};
use crate::repeats::Repeats;
use crate::replies::push_state;
use crate::written::{first_word, number_of, push_escaped, push_unescaped, text_in};
use entities::Schema;
use http_service::{
    Fed, Kept, LoggedFault, Plan, Site, SiteName, StreamFault, serve, serve_logged,
};
use plain::{NoMemory, Shared, pair_with};
use std::alloc::Global;

/// The number of calls of a device, and of replies, after which a case is cut off; no case has so many.
const MOST: u64 = 100;

/// A stream of requests: its bytes, and how many of them each read returns.
#[derive(Drop)]
struct Stream {
    bytes: Vec<u8>,
    reads: Vec<usize>,
}

/// How the devices under a stream work.
#[derive(Clone, Copy)]
struct Devices<'a> {
    /// How many bytes each read returns at most.
    reads: &'a [usize],
    /// The number of the read that fails, from 0, if one does.
    failing_read: Option<u64>,
    /// How many bytes each write accepts at most.
    writes: &'a [usize],
    /// The number of the write that fails, from 0, if one does.
    failing_write: Option<u64>,
    /// How many bytes the second read of a case `cuts` returns; 0 in other cases.
    second: usize,
    /// Whether the outcome shows the replies.
    is_shown: bool,
}

/// Returns the devices of a case: for `reads` and `writes` the read or the write with this number fails.
fn devices_of<'a>(word: &str, reads: &'a [usize], writes: &'a [usize], number: u64) -> Devices<'a> {
    let is_read = word == "reads";
    let is_write = word == "writes";
    Devices {
        reads,
        failing_read: if is_read { Some(number) } else { None },
        writes,
        failing_write: if is_write { Some(number) } else { None },
        second: 0,
        is_shown: !is_read && !is_write,
    }
}

/// Returns the devices of a stream that is cut into two reads, of which the second fails if `is_to_fail`.
fn devices_of_cut<'a>(reads: &'a [usize; 2], is_to_fail: bool) -> Devices<'a> {
    Devices {
        reads,
        failing_read: if is_to_fail { Some(1) } else { None },
        writes: &[],
        failing_write: None,
        second: reads[1],
        is_shown: !is_to_fail,
    }
}

/// Appends the part of a stream that one read returns.
fn push_read(bytes: &mut Line, reads: &mut Vec<usize>, text: &str) {
    let before = bytes.len();
    push_unescaped(bytes, text);
    if reads.push(bytes.len().saturating_sub(before)).is_err() {
        bytes.fail();
    }
}

/// Returns the stream that a string describes.
fn stream_of(alloc: Global, text: &str) -> Result<Stream, NoMemory> {
    let mut bytes = Line::new(alloc);
    let mut reads = Vec::new(alloc);
    for one in text.split(BETWEEN) {
        push_read(&mut bytes, &mut reads, one);
    }
    let (reads, bytes) = pair_with(reads, bytes.ended())?;
    Ok(Stream { bytes, reads })
}

/// Returns the bytes after the first reply, if that is whole.
fn after_reply(replies: &str) -> Option<&str> {
    let (head, rest) = replies.split_once("\r\n\r\n")?;
    let (_, length) = head.split_once("Content-Length: ")?;
    let (digits, _) = length.split_once("\r\n").unwrap_or((length, ""));
    let (_, behind) = rest.split_at_checked(number_of(digits)?)?;
    Some(behind)
}

/// Appends the number of whole replies, and of the bytes after them.
fn push_count(line: &mut Line, replies: &str) {
    let mut rest = replies;
    for count in 0..MOST {
        match after_reply(rest) {
            Some(behind) => rest = behind,
            None => {
                line.push_number(count);
                break;
            }
        }
    }
    line.push(b" replies + ");
    line.push_number(rest.len() as u64);
    line.push(b" bytes, ");
}

/// Appends the code of an error, or `-` without one.
fn push_fault(line: &mut Line, fault: Option<StreamFault>) {
    match fault {
        None => line.push(b"-, "),
        Some(StreamFault::Read) => line.push(b"70, "),
        Some(StreamFault::Write) => line.push(b"71, "),
        Some(StreamFault::NoMemory) => line.push(b"1, "),
    }
}

/// Appends the code of an error of a stream with a log, or `-` without one.
fn push_logged_fault(line: &mut Line, fault: Option<LoggedFault>) {
    match fault {
        None => push_fault(line, None),
        Some(LoggedFault::Stream(fault)) => push_fault(line, Some(fault)),
        Some(LoggedFault::Log) => line.push(b"76, "),
    }
}

/// Appends the number of unread bytes, or `second read` if they are as many as the second of two reads returns.
fn push_unread(line: &mut Line, unread: usize, second: usize) {
    if second > 0 && unread == second {
        line.push(b"second read");
    } else {
        line.push_number(unread as u64);
    }
    line.push(b" unread, ");
}

/// Returns whether an error is the reader's or the writer's.
fn is_of_device(fault: Option<StreamFault>) -> bool {
    match fault {
        Some(StreamFault::Read) => true,
        Some(StreamFault::Write) => true,
        _ => false,
    }
}

/// Appends the replies themselves, if they are to be shown.
fn push_shown(line: &mut Line, replies: &[u8], is_shown: bool) {
    if is_shown {
        line.begin_part();
        push_escaped(line, replies);
    }
}

/// Serves a site over devices and appends the outcome. Returns whether a device failed.
fn push_served(
    alloc: Global,
    site: &mut Site,
    bytes: &[u8],
    devices: Devices<'_>,
    line: &mut Line,
) -> bool {
    let mut reader = Fed::new(bytes, Plan::new(devices.reads, devices.failing_read));
    let mut writer = Kept::new(alloc, Plan::new(devices.writes, devices.failing_write));
    let fault = serve(alloc, site, &mut reader, &mut writer).err();
    push_fault(line, fault);
    push_unread(line, reader.left().len(), devices.second);
    push_count(line, text_in(writer.bytes()));
    push_state(line, site);
    push_shown(line, writer.bytes(), devices.is_shown);
    is_of_device(fault)
}

/// Serves an empty site over devices and appends the outcome. Returns whether a device failed.
fn push_served_anew(
    alloc: Global,
    schema: &Shared<Schema>,
    bytes: &[u8],
    devices: Devices<'_>,
    line: &mut Line,
) -> bool {
    line.begin_part();
    match new_site(alloc, schema, SiteName::from_number(1)) {
        Ok(mut site) => push_served(alloc, &mut site, bytes, devices, line),
        Err(_) => {
            line.push(NO_MEMORY);
            false
        }
    }
}

/// For `reads` and `writes`, serves a stream once for each call of the device, with a failure of that call, up to a
/// call that never happens. For `serve`, serves the stream once, without a failure.
fn push_in_turn(
    alloc: Global,
    schema: &Shared<Schema>,
    word: &str,
    stream: &Stream,
    size: usize,
    line: &mut Line,
) {
    let writes = [size];
    for number in 0..MOST {
        let devices = devices_of(word, &stream.reads, &writes, number);
        if !push_served_anew(alloc, schema, &stream.bytes, devices, line) {
            break;
        }
    }
}

/// Serves a stream once for each byte after which two reads cut it, of which the second fails if `is_to_fail`.
fn push_each_cut(
    alloc: Global,
    schema: &Shared<Schema>,
    bytes: &[u8],
    is_to_fail: bool,
    line: &mut Line,
) {
    let mut repeats = Repeats::new(alloc);
    for place in 1..bytes.len() {
        let reads = [place, bytes.len() - place];
        let mut outcome = Line::new(alloc);
        let devices = devices_of_cut(&reads, is_to_fail);
        push_served_anew(alloc, schema, bytes, devices, &mut outcome);
        repeats.add(outcome, line);
    }
    repeats.push_to(line);
}

/// Serves an empty site with a log and appends the error, the replies, and what the log has. Returns whether the log
/// failed.
fn push_served_logged(
    alloc: Global,
    schema: &Shared<Schema>,
    stream: &Stream,
    log: Plan<'_>,
    line: &mut Line,
) -> bool {
    line.begin_part();
    let Ok(mut site) = new_site(alloc, schema, SiteName::from_number(1)) else {
        line.push(NO_MEMORY);
        return false;
    };
    let mut reader = Fed::new(&stream.bytes, Plan::new(&stream.reads, None));
    let mut writer = Kept::new(alloc, Plan::new(&[], None));
    let mut log = Kept::new(alloc, log);
    let fault = serve_logged(alloc, &mut site, &mut reader, &mut writer, &mut log).err();
    push_logged_fault(line, fault);
    push_count(line, text_in(writer.bytes()));
    push_escaped(line, log.bytes());
    matches!(fault, Some(LoggedFault::Log))
}

/// Serves a stream once for each write of the log, with a failure of that write, up to a write that never happens.
fn push_logged_in_turn(
    alloc: Global,
    schema: &Shared<Schema>,
    stream: &Stream,
    size: usize,
    line: &mut Line,
) {
    let writes = [size];
    for number in 0..MOST {
        let log = Plan::new(&writes, Some(number));
        if !push_served_logged(alloc, schema, stream, log, line) {
            break;
        }
    }
}

/// Returns the largest size of a write, and the string that describes the stream.
fn size_and_text<'a>(word: &str, text: &'a str) -> (usize, &'a str) {
    if word != "writes" && word != "logs" {
        return (usize::MAX, text);
    }
    let (size, text) = first_word(text);
    (number_of(size).unwrap_or(usize::MAX), text)
}

/// Appends the outcome of a case.
pub(crate) fn push_stream(
    alloc: Global,
    schema: Option<&Shared<Schema>>,
    word: &str,
    text: &str,
    line: &mut Line,
) {
    let Some(schema) = schema else {
        line.push(BAD_ROW);
        return;
    };
    let (size, text) = size_and_text(word, text);
    match stream_of(alloc, text) {
        Ok(stream) if word == "cuts" => {
            push_each_cut(alloc, schema, &stream.bytes, false, line);
            push_each_cut(alloc, schema, &stream.bytes, true, line);
        }
        Ok(stream) if word == "logs" => push_logged_in_turn(alloc, schema, &stream, size, line),
        Ok(stream) => push_in_turn(alloc, schema, word, &stream, size, line),
        Err(_) => line.push(NO_MEMORY),
    }
}
