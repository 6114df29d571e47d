//! Cases of inputs that end early.
use crate::given::Given;
use crate::inputs::input_of_bytes;
use crate::line::{Line, NO_MEMORY};
use crate::repeats::Repeats;
use crate::written::{expanded, first_word};
use std::alloc::Global;

/// Gives a site each proper prefix of some bytes as an input, the shortest first, and appends its replies.
fn push_each(
    alloc: Global,
    given: &mut Given,
    name: &str,
    word: &str,
    bytes: &[u8],
    line: &mut Line,
) {
    let mut repeats = Repeats::new(alloc);
    for end in 0..bytes.len() {
        let mut reply = Line::new(alloc);
        let input = input_of_bytes(word, &bytes[..end]);
        given.push_run(alloc, name, &[input], &mut reply);
        repeats.add(reply, line);
    }
    repeats.push_to(line);
}

/// Appends the outcome of a case.
pub(crate) fn push_prefixes(alloc: Global, given: &mut Given, text: &str, line: &mut Line) {
    let (name, input) = first_word(text);
    let (word, text) = first_word(input);
    match expanded(alloc, text) {
        Ok(bytes) => push_each(alloc, given, name, word, &bytes, line),
        Err(_) => line.push(NO_MEMORY),
    }
}
