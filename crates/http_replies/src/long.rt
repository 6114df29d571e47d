//! Appends the bodies that may need an allocation. If the allocation fails, the text is unchanged.
ghost use Rattle.std.specs.Prelude.{◌≡◌, ◌≤◌, ◌++◌, IfOk, OnOk, OnErr, vec_len};
ghost use Rattle.std.specs.Vec.{vec_capacity};
ghost use Rattle.serde_json.specs.View.{view};
ghost use Rattle.answer_lines.specs.Lines.{answer_line};
ghost use Rattle.http_replies.specs.Lines.{found_json, found_line};

use answer_lines::{Answer, answer_line};
use json_words::write_json;
use plain::NoMemory;
use serde_json::{Value, json};
use site::Stamp;
use std::alloc::Global;

/// Appends the line of an answer.
pub(crate) fn append_answer(
    alloc: Global,
    text: &mut Vec<u8>,
    answer: &Answer,
) -> Result<(), NoMemory>
    ensures ok { OnOk result (text.new.items ≡ text.old.items ++ answer_line answer.now) }
    ensures err { OnErr result (text.new.items ≡ text.old.items) }
    ensures len { OnErr result (vec_len text.new ≡ vec_len text.old) }
    ensures kept { vec_capacity text.old ≤ vec_capacity text.new }
{
    match answer_line(alloc, answer) {
        Ok(line) => text.extend_from_slice(line.as_slice()),
        Err(error) => Err(error),
    }
}

/// Returns the JSON of a stored policy.
fn found_value(alloc: Global, policy: &str, stamp: Stamp) -> Result<Value, NoMemory>
    ensures { IfOk result (λ v. view v ≡ found_json policy.now stamp) }
{
    json!(in alloc; {"count": stamp.count, "site": stamp.site.as_str(), "text": policy})
}

/// Returns the line of a stored policy.
fn found_line(alloc: Global, policy: &str, stamp: Stamp) -> Result<Vec<u8>, NoMemory>
    ensures { IfOk result (λ b. b.items ≡ found_line policy.now stamp) }
{
    let value = found_value(alloc, policy, stamp)?;
    write_json(alloc, &value)
}

/// Appends the line of a stored policy.
pub(crate) fn append_found(
    alloc: Global,
    text: &mut Vec<u8>,
    policy: &str,
    stamp: Stamp,
) -> Result<(), NoMemory>
    ensures ok { OnOk result (text.new.items ≡ text.old.items ++ found_line policy.now stamp) }
    ensures err { OnErr result (text.new.items ≡ text.old.items) }
    ensures len { OnErr result (vec_len text.new ≡ vec_len text.old) }
    ensures kept { vec_capacity text.old ≤ vec_capacity text.new }
{
    match found_line(alloc, policy, stamp) {
        Ok(line) => text.extend_from_slice(line.as_slice()),
        Err(error) => Err(error),
    }
}
