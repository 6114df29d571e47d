//! The line of a policy's verdict.
ghost use Rattle.std.specs.Prelude.{◌≡◌, ◌++◌, [], IfOk};
ghost use Rattle.serde_json.specs.View.{view};
ghost use Rattle.schema_decisions.specs.Lines.{passed_json, refused_json, verdict_word, verdict_json, verdict_line};
ghost use Rattle.schema_decisions.specs.inner.Named.{outcome_of, set_apart};

use json_words::write_json;
use plain::NoMemory;
use serde_json::{Value, json};
use std::alloc::Global;
use validator::{TypeFault, Verdict};

/// Returns the word for a policy that passes.
fn verdict_word(impossible: bool) -> &'static str
    ensures { result.now ≡ verdict_word impossible }
{
    if impossible { "impossible" } else { "accepted" }
}

/// Returns the JSON of a policy that passes.
fn passed_value(alloc: Global, id: &str, word: &str) -> Result<Value, NoMemory>
    ensures { IfOk result (λ v. view v ≡ passed_json id.now word.now) }
{
    json!(in alloc; {"id": id, "verdict": word})
}

/// Returns the JSON of a policy that does not pass.
fn refused_value(alloc: Global, id: &str, code: u64) -> Result<Value, NoMemory>
    ensures { IfOk result (λ v. view v ≡ refused_json id.now code) }
{
    json!(in alloc; {"code": code, "id": id, "verdict": "refused"})
}

/// Returns the JSON of a policy's verdict or error.
fn verdict_value(
    alloc: Global,
    id: &str,
    verdict: Result<Verdict, TypeFault>,
) -> Result<Value, NoMemory>
    ensures { IfOk result (λ v. view v ≡ verdict_json id.now (outcome_of verdict)) }
{
    match verdict {
        Ok(verdict) => passed_value(alloc, id, verdict_word(verdict.impossible)),
        Err(fault) => refused_value(alloc, id, u64::from(fault.code())),
    }
}

/// Returns the line of a policy's verdict or error, without a line feed.
pub(crate) fn verdict_line(
    alloc: Global,
    id: &str,
    verdict: Result<Verdict, TypeFault>,
) -> Result<Vec<u8>, NoMemory>
    ensures { IfOk result (λ b. b.items ≡ verdict_line id.now (outcome_of verdict)) }
{
    let value = verdict_value(alloc, id, verdict)?;
    write_json(alloc, &value)
}

/// Appends the line feed before the next line, unless that is the first.
fn end_line(text: &mut Vec<u8>, is_first: bool) -> Result<(), NoMemory>
    ensures { IfOk result (λ _. text.new.items ≡ text.old.items ++ set_apart is_first []) }
{
    if is_first {
        return Ok(());
    }
    text.push(b'\n')?;
    Ok(())
}

/// Appends a line, after a line feed unless it is the first.
pub(crate) fn add_line(text: &mut Vec<u8>, is_first: bool, line: &[u8]) -> Result<(), NoMemory>
    ensures { IfOk result (λ _. text.new.items ≡ text.old.items ++ set_apart is_first line.now) }
{
    end_line(text, is_first)?;
    text.extend_from_slice(line)?;
    Ok(())
}
