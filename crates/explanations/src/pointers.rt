//! JSON pointers.
ghost use Rattle.std.specs.Prelude.{◌≡◌, ◌++◌, ◌∷◌, OnOk, string_bytes, encode_utf8_all};
ghost use Rattle.explanations.specs.Steps.{step_view, steps_view};
ghost use Rattle.explanations.specs.Pointers.{escaped_char, escaped, token_of, pointer_of};

use crate::steps::Step;
use plain::NoMemory;

/// Appends the escaped form of a character of a key.
fn push_escaped(out: &mut String, c: char) -> Result<(), NoMemory>
    ensures { OnOk result (string_bytes out.new ≡ string_bytes out.old ++ encode_utf8_all (escaped_char c)) }
{
    match c {
        '~' => out.push_str("~0"),
        '/' => out.push_str("~1"),
        _ => out.push(c),
    }
}

/// Appends the escaped form of a key.
fn push_key(out: &mut String, key: &str) -> Result<(), NoMemory>
    ensures { OnOk result (string_bytes out.new ≡ string_bytes out.old ++ escaped key.now) }
{
    for c in key.chars() {
        match push_escaped(out, c) {
            Ok(()) => {}
            Err(fault) => return Err(fault),
        }
    }
    Ok(())
}

/// Appends a step: `/` and its reference token.
fn push_step(out: &mut String, step: Step<'_>) -> Result<(), NoMemory>
    ensures { OnOk result (string_bytes out.new ≡ string_bytes out.old ++ (47 ∷ token_of (step_view step.entry))) }
{
    match out.push('/') {
        Ok(()) => match step {
            Step::Key(key) => push_key(out, key),
            Step::Index(index) => write!(out, "{index}"),
        },
        Err(fault) => Err(fault),
    }
}

/// Appends the JSON pointer of a path (RFC 6901), such as `/attrs/home/zip`; nothing for the empty path. In a key `~`
/// is written `~0`, and `/` is written `~1`.
pub(crate) fn push_steps(out: &mut String, path: &[Step<'_>]) -> Result<(), NoMemory>
    ensures { OnOk result (string_bytes out.new ≡ string_bytes out.old ++ pointer_of (steps_view path.now)) }
{
    for step in path {
        match push_step(out, *step) {
            Ok(()) => {}
            Err(fault) => return Err(fault),
        }
    }
    Ok(())
}
