//! The line of an answer, written token by token.
ghost use Rattle.std.specs.Prelude.{◌≡◌, IfOk, OnOk};
ghost use Rattle.serde_json.specs.Data.{string};
ghost use Rattle.entity_uids.specs.Tokens.{AppendsTokens, tokens_of};
ghost use Rattle.entity_uids.specs.Uids.{uid_json};
ghost use Rattle.answer_lines.specs.Lines.{decision_word, error_word, erring_json, each_json};
ghost use Rattle.answer_lines.specs.Lines.{answer_json, answer_line};

use authoriser::{Answer, Decision, ErringPolicy, PolicyError};
use entity_uids::write_uid;
use json::Writer;
use plain::{NoMemory, Text};
use std::alloc::Global;
use values::EntityUid;

/// The capacity in bytes that is reserved for the line of an answer. The buffer grows only for a longer line.
const USUAL_LINE: usize = 256;

/// Returns the word of a decision in the line.
fn decision_word(decision: Decision) -> &'static str
    ensures { result.now ≡ decision_word decision }
{
    match decision {
        Decision::Allow => "Allow",
        Decision::Deny => "Deny",
    }
}

/// Returns the word of a policy's error in the line.
fn error_word(error: PolicyError) -> &'static str
    ensures { result.now ≡ error_word error }
{
    match error {
        PolicyError::EntityDoesNotExist => "entityDoesNotExist",
        PolicyError::AttrDoesNotExist => "attrDoesNotExist",
        PolicyError::TypeError => "typeError",
        PolicyError::ArithBoundsError => "arithBoundsError",
        PolicyError::ExtensionError => "extensionError",
    }
}

/// Writes an erroring policy with its error, as in `{"error":"typeError","policy":"policy0"}`.
fn write_erring(out: &mut Writer, erring: &ErringPolicy) -> Result<(), NoMemory>
    ensures { OnOk result (AppendsTokens out.old out.new (tokens_of (erring_json erring.now))) }
{
    out.begin_object()?;
    out.key("error")?;
    out.string(error_word(erring.error))?;
    out.key("policy")?;
    out.string(erring.policy.as_str())?;
    out.end_object()?;
    Ok(())
}

/// Writes the entities of a cycle, as an array.
fn write_cycle(out: &mut Writer, uids: &[EntityUid]) -> Result<(), NoMemory>
    ensures { OnOk result (AppendsTokens out.old out.new (tokens_of (each_json uid_json uids.now))) }
{
    out.begin_array()?;
    for uid in uids {
        write_uid(out, uid)?;
    }
    out.end_array()?;
    Ok(())
}

/// Writes the erroring policies, as an array.
fn write_errors(out: &mut Writer, errors: &[ErringPolicy]) -> Result<(), NoMemory>
    ensures { OnOk result (AppendsTokens out.old out.new (tokens_of (each_json erring_json errors.now))) }
{
    out.begin_array()?;
    for erring in errors {
        write_erring(out, erring)?;
    }
    out.end_array()?;
    Ok(())
}

/// Writes the ids of the determining policies, as an array.
fn write_reason(out: &mut Writer, ids: &[Text]) -> Result<(), NoMemory>
    ensures { OnOk result (AppendsTokens out.old out.new (tokens_of (each_json (λ id. string id) ids.now))) }
{
    out.begin_array()?;
    for id in ids {
        out.string(id.as_str())?;
    }
    out.end_array()?;
    Ok(())
}

/// Writes an answer, as an object.
fn write_answer(out: &mut Writer, answer: &Answer) -> Result<(), NoMemory>
    ensures { OnOk result (AppendsTokens out.old out.new (tokens_of (answer_json answer.now))) }
{
    out.begin_object()?;
    out.key("cycle")?;
    write_cycle(out, answer.cycle.as_slice())?;
    out.key("decision")?;
    out.string(decision_word(answer.decision))?;
    out.key("errors")?;
    write_errors(out, answer.errors.as_slice())?;
    out.key("reason")?;
    write_reason(out, answer.reason.as_slice())?;
    out.end_object()?;
    Ok(())
}

/// Returns the line of an answer, without its line end, such as
/// `{"cycle":[],"decision":"Allow","errors":[],"reason":["policy0"]}`. The only error is `NoMemory`.
pub fn answer_line(alloc: Global, answer: &Answer) -> Result<Vec<u8>, NoMemory>
    ensures { IfOk result (λ b. b.items ≡ answer_line answer.now) }
{
    let line = Vec::with_capacity(alloc, USUAL_LINE)?;
    let mut out = Writer::new(line);
    write_answer(&mut out, answer)?;
    Ok(out.into_inner())
}
