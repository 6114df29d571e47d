//! Executes a script under a schema.
ghost use Rattle.std.specs.Prelude.{◌≤◌, ◌≡◌, IfOk, IfErr};
ghost use Rattle.schema_decisions.specs.answer_lines.Refusals.{no_memory};
ghost use Rattle.schema_decisions.specs.schema.Views.{schema_view};
ghost use Rattle.program_drills.specs.Drills.{IsDrilled, IsOutputOf, IsDrillRefused};
ghost use Rattle.program_drills.specs.Scripts.{IsScriptRefused};
ghost use Rattle.program_drills.specs.inner.ScriptRuns.{IsDrilledUnder};

use crate::reporting::world_lines;
use crate::whole::read_script;
use http_service::{Event, simulate};
use plain::{NoMemory, Shared};
use schema_decisions::{Refusal, Schema, parse_schema};
use std::alloc::Global;

/// Executes events at `count` sites, and returns the lines of the events and of the sites.
fn play(
    alloc: Global,
    schema: &Shared<Schema>,
    count: u16,
    events: &[Event],
) -> Result<Vec<u8>, NoMemory>
    requires { (1 ≤ count) × (count ≤ 64) }
    ensures { IfOk result (λ text. IsOutputOf (schema_view schema.now) count events.now text.items) }
{
    let world = simulate(alloc, schema, count, events)?;
    world_lines(alloc, &world)
}

/// Executes a script under a parsed schema.
fn drill_under(
    alloc: Global,
    schema: &Shared<Schema>,
    count: u16,
    script: &[u8],
) -> Result<Vec<u8>, Refusal>
    requires { (1 ≤ count) × (count ≤ 64) }
    ensures drilled { IfOk result (λ text. IsDrilledUnder (schema_view schema.now) count script.now text.items) }
    ensures refused { IfErr result (λ r. (r ≡ no_memory → ⊥) → IsScriptRefused count script.now r) }
{
    let events = read_script(alloc, count, script)?;
    Ok(play(alloc, schema, count, &events)?)
}

/// Executes a script at `count` empty sites of a schema, and returns the output lines: one for each event, then the
/// state of each site, joined by line feeds. `count` is from 1 to 64. The sites are named `00001`, `00002` and so on.
///
/// A line of the script is a JSON object with the number of a site at `site` and an operation at `do`, with its
/// arguments at further keys: `put_policy` (`id`, `text`), `delete_policy` (`id`), `put_entity` (`entity`),
/// `delete_entity` (`uid`), `authorize` (`request`), `summary`, `offer`, `offer_delta` (`summary`, a number), `deliver`
/// (`message`, a number).
///
/// The line of an event is the body of the service's reply. For `summary`, `offer` and `offer_delta` the line is
/// instead the number of the summary or message that the event makes, from 0, as in `{"message":0}`, or the error line.
///
/// # Errors
///
/// In the order checked:
///
/// - 20 to 25, without a place: the schema is rejected.
/// - 30: a line of the script is not an event, or names a message or a summary that no earlier line makes. The place is
///   the index of the first such line, from 0. No event is executed.
/// - 1, at any point: out of memory.
pub fn drill_text(
    alloc: Global,
    schema: &[u8],
    count: u16,
    script: &[u8],
) -> Result<Vec<u8>, Refusal>
    requires { (1 ≤ count) × (count ≤ 64) }
    ensures drilled { IfOk result (λ text. IsDrilled count schema.now script.now text.items) }
    ensures refused { IfErr result (λ r. (r ≡ no_memory → ⊥) → IsDrillRefused count schema.now script.now r) }
{
    let schema = parse_schema(alloc, schema)?;
    let schema = Shared::new(alloc, schema)?;
    drill_under(alloc, &schema, count, script)
}
