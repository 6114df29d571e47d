//! Test cases of streams, answered by a service that counts.
ghost use Rattle.std.specs.Prelude.{◌≡◌, ℕ, List};
ghost use Rattle.http_streams.specs.Laws.{AgreeOn, AnswersAll, HasOneAnswer, in_memory};
ghost use Rattle.test_calls.specs.Counts.{asked_alike, counts};

use crate::pieces::Line;
use crate::ways::{PLAIN, SLOW, StreamSplit, by_reads, reader_of, writer_of};
use crate::written::shown;
use http::StatusCode;
use http_streams::CommitFailed;
use http_streams::laws::one_answer;
use http_streams::serve::{StreamFault, serve};
use http_streams::service::{Answers, Service};
use plain::NoMemory;
use std::alloc::Global;

/// Answers each request by its body, or by its target if the body is empty. Counts the requests, and the failed
/// allocations.
#[derive(Drop)]
struct Counter {
    requests: u64,
    refused: u64,
}

impl Counter {
    fn new() -> Counter
        ensures { result ≡ record { requests = 0; refused = 0 } }
    {
        Counter {
            requests: 0,
            refused: 0,
        }
    }
}

impl Answers for Counter {
    ghost answers = { counts };

    ghost same = { asked_alike };
}

impl Service for Counter {
    fn call(
        &mut self,
        method: &[u8],
        target: &[u8],
        body: &[u8],
        text: &mut Vec<u8>,
        _line: &mut Vec<u8>,
    ) -> StatusCode {
        self.requests = self.requests.saturating_add(1);
        let said = if body.is_empty() { target } else { body };
        match text.extend_from_slice(said) {
            Ok(()) => StatusCode::OK,
            Err(_) => {
                self.refused = self.refused.saturating_add(1);
                StatusCode::SERVICE_UNAVAILABLE
            }
        }
    }

    fn put_refusal_line(_status: StatusCode, _line: &mut Vec<u8>) {}

    fn commit(&mut self) -> Result<(), CommitFailed> {
        Ok(())
    }
}

/// Proves that the service has one answer to each request, except when out of memory. No-op.
fn has_one_answer()
    ensures { HasOneAnswer (in_memory counts) asked_alike }
{}

/// Proves that a stream has one answer, however it is split: the test cases observe what is proved here. No-op.
fn agrees()
    ensures { (old old2 new new2 : Counter) → (stream out more : List ℕ) → asked_alike old old2
        → AnswersAll (in_memory counts) old stream out new → AnswersAll (in_memory counts) old2 stream more new2
        → AgreeOn (in_memory counts) asked_alike old old2 stream out more new new2 }
{
    has_one_answer();
    one_answer::<Counter>();
}

/// The outcome of a stream.
#[derive(Drop)]
struct Outcome {
    out: Vec<u8>,
    requests: u64,
    fault: Option<StreamFault>,
}

impl Outcome {
    /// Returns whether the stream was answered to its end, with the bytes of `whole` for as many requests.
    fn is_as(&self, whole: &Outcome) -> bool {
        self.out == whole.out && self.requests == whole.requests && self.fault.is_none()
    }

    /// Returns whether the sent bytes are a prefix of those sent for the whole.
    fn begins(&self, whole: &Outcome) -> bool {
        whole.out.as_slice().starts_with(self.out.as_slice())
    }
}

/// Serves the bytes, split in this way.
fn run(alloc: Global, bytes: &[u8], way: StreamSplit<'_>) -> Result<Outcome, NoMemory> {
    let mut counter = Counter::new();
    let mut reader = reader_of(way, bytes);
    let mut writer = writer_of(way, alloc);
    let fault = serve(alloc, &mut counter, &mut reader, &mut writer).err();
    let out = Vec::from_slice(alloc, writer.bytes())?;
    Ok(Outcome {
        out,
        requests: counter.requests,
        fault,
    })
}

/// Returns whether the bytes, split in this way, have the outcome `whole`.
fn is_same(
    alloc: Global,
    bytes: &[u8],
    whole: &Outcome,
    way: StreamSplit<'_>,
) -> Result<bool, NoMemory> {
    let found = run(alloc, bytes, way)?;
    Ok(found.is_as(whole))
}

/// Returns whether the bytes have the outcome `whole` for each split into two pieces, and if they are read byte by byte
/// and written in pieces.
fn is_one_answer(alloc: Global, bytes: &[u8], whole: &Outcome) -> Result<bool, NoMemory> {
    agrees();
    if !whole.is_as(whole) {
        return Ok(false);
    }
    for at in 0..bytes.len() {
        let reads = [at, usize::MAX];
        if !is_same(alloc, bytes, whole, by_reads(&reads))? {
            return Ok(false);
        }
    }
    is_same(alloc, bytes, whole, SLOW)
}

/// Returns the number of bytes that are sent for the prefix `part` of the stream; `None` after an error, or if they are
/// not a prefix of those for the whole.
fn answered(alloc: Global, part: &[u8], whole: &Outcome) -> Result<Option<usize>, NoMemory> {
    let found = run(alloc, part, PLAIN)?;
    if found.fault.is_none() && found.begins(whole) {
        Ok(Some(found.out.len()))
    } else {
        Ok(None)
    }
}

/// Returns a blank and a length.
fn place_told(alloc: Global, place: usize) -> Result<String, NoMemory> {
    format!(in alloc; " {place}")
}

/// Appends the length of each prefix of the bytes that gets more of the replies than the prefix that is one byte
/// shorter. Returns `false` if a prefix gets less, gets bytes with which the replies do not begin, or has an error.
fn push_steps(
    alloc: Global,
    bytes: &[u8],
    whole: &Outcome,
    told: &mut Line,
) -> Result<bool, NoMemory> {
    let mut before = 0;
    for at in 0..bytes.len() {
        let place = at + 1;
        match answered(alloc, &bytes[..place], whole)? {
            Some(now) if now > before => {
                told.push_made(place_told(alloc, place));
                before = now;
            }
            Some(now) if now == before => {}
            _ => return Ok(false),
        }
    }
    Ok(true)
}

/// Appends the status of the reply that the bytes begin with, if they begin with one.
fn push_status(told: &mut Line, rest: &[u8]) {
    if rest.starts_with(b"HTTP/1.1 ".as_slice()) && rest.len() > 12 {
        if !told.is_empty() {
            told.push(" ");
        }
        for byte in &rest[9..12] {
            told.push_char(char::from(*byte));
        }
    }
}

/// Appends the status of each reply, and `!` after one that ends the stream.
fn push_statuses(told: &mut Line, out: &[u8]) {
    for at in 0..out.len() {
        let rest = &out[at..];
        push_status(told, rest);
        if rest.starts_with(b"Connection: close".as_slice()) {
            told.push("!");
        }
    }
}

/// Returns the statuses of the sent replies.
fn statuses(alloc: Global, out: &[u8]) -> Result<String, NoMemory> {
    let mut told = Line::new(alloc);
    push_statuses(&mut told, out);
    told.ended()
}

/// Returns the number of calls of the service, as a test case shows it.
fn asked_told(alloc: Global, asked: u64) -> Result<String, NoMemory> {
    format!(in alloc; " ({asked}) at")
}

/// Appends the statuses, the number of calls of the service, and the lengths of [`push_steps`], whose result it
/// returns.
fn push_served(
    alloc: Global,
    bytes: &[u8],
    whole: &Outcome,
    told: &mut Line,
) -> Result<bool, NoMemory> {
    push_statuses(told, whole.out.as_slice());
    told.push_made(asked_told(alloc, whole.requests));
    push_steps(alloc, bytes, whole, told)
}

/// Returns the statuses, the number of calls, and the lengths of [`push_steps`]; `differs` if that returns `false`.
fn outcome_of_steps(alloc: Global, bytes: &[u8], whole: &Outcome) -> Result<String, NoMemory> {
    let mut told = Line::new(alloc);
    if push_served(alloc, bytes, whole, &mut told)? {
        return told.ended();
    }
    String::from_str(alloc, "differs")
}

/// Returns the outcome of a test case `serve`; `differs` if it depends on how the stream is split.
fn served(alloc: Global, bytes: &[u8], whole: &Outcome) -> Result<String, NoMemory> {
    if is_one_answer(alloc, bytes, whole)? {
        return outcome_of_steps(alloc, bytes, whole);
    }
    String::from_str(alloc, "differs")
}

/// Returns how the stream of the test case `word` is split.
fn way_of(word: &str) -> StreamSplit<'static> {
    match word {
        "slow" => SLOW,
        _ => PLAIN,
    }
}

/// Returns the line for the outcome of a stream.
fn outcome_text(
    alloc: Global,
    word: &str,
    bytes: &[u8],
    found: &Outcome,
) -> Result<String, NoMemory> {
    match word {
        "serve" => served(alloc, bytes, found),
        "reply" => shown(alloc, found.out.as_slice()),
        _ => statuses(alloc, found.out.as_slice()),
    }
}

/// Returns the outcome of the test case `word` for the stream `bytes`.
pub(crate) fn row_outcome(alloc: Global, word: &str, bytes: &[u8]) -> Result<String, NoMemory> {
    let found = run(alloc, bytes, way_of(word))?;
    outcome_text(alloc, word, bytes, &found)
}
