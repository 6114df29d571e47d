//! Parses a script line by line.
ghost use Rattle.std.specs.Prelude.{◌≡◌, IfOk, IfErr, Some};
ghost use Rattle.schema_decisions.specs.answer_lines.Refusals.{bad_shape, no_memory};
ghost use Rattle.program_drills.specs.Scripts.{AreEventsOf, IsScriptRefused};

use crate::made::{MadeCounts, after_operation};
use crate::one_line::script_line_of;
use crate::split::first_line;
use http_service::Event;
use schema_decisions::{Place, Refusal};
use std::alloc::Global;

/// Returns the error (30, bad shape) of the line at an index.
fn unread_line(index: usize) -> Refusal
    ensures { result ≡ bad_shape (Some index) }
{
    Refusal {
        code: 30,
        place: Some(Place::Index(index)),
        within: None,
    }
}

/// Returns the events of a script, one for each line, at `count` sites.
///
/// # Errors
///
/// - 30: a line is not an event. The place is the index of the first such line, from 0. The line is not a JSON object,
///   names no operation at `do`, lacks a required member, or has one of another JSON kind. Or it has the number of a
///   site that does not exist, or of a message or a summary that no earlier line makes.
/// - 1, at any point: out of memory.
pub(crate) fn read_script(alloc: Global, count: u16, script: &[u8]) -> Result<Vec<Event>, Refusal>
    ensures read { IfOk result (λ events. AreEventsOf count script.now events.items) }
    ensures refused { IfErr result (λ r. (r ≡ no_memory → ⊥) → IsScriptRefused count script.now r) }
{
    let mut events = Vec::new(alloc);
    let mut made = MadeCounts {
        messages: 0,
        summaries: 0,
    };
    let mut rest = script;
    while !rest.is_empty() {
        let (line, behind) = first_line(rest);
        let Some(event) = script_line_of(alloc, count, made, line)? else {
            return Err(unread_line(events.len()));
        };
        made = after_operation(made, &event.operation);
        events.push(event)?;
        rest = behind;
    }
    Ok(events)
}
