//! The setting under which texts are parsed: a schema, or none.
ghost use Rattle.std.specs.Prelude.{◌≡◌, IfOk, IfErr, map};
ghost use Rattle.serde_json.specs.View.{view};
ghost use Rattle.json_words.specs.ReadsAs.{ReadsAs};
ghost use Rattle.plain.specs.AllocationErrors.{OrNoMemory};
ghost use Rattle.answer_lines.specs.Refusals.{no_memory};
ghost use Rattle.decision_texts.specs.Settings.{Reading};

use answer_lines::{Policy, Refusal};
use entity_data::{ActionSource, Entity};
use serde_json::Value;
use std::alloc::Global;
use values::Request;

/// The setting under which texts are parsed.
///
/// It says which policies are admitted, which entity and which request a JSON value describes, their errors, and which
/// actions are declared. The order in which texts are checked is the same in each setting
/// ([`crate::decide_under_setting`]).
pub trait Setting {
    /// The declared actions.
    type Actions: ActionSource + Drop;

    /// Defines the parsed value of each text, or its error, and the declared actions.
    ghost reading: { Self → Reading };

    /// Returns the declared actions. Does not allocate.
    fn actions(&self) -> Self::Actions
        ensures { Self.Actions.declared result ≡ (reading self.now).actions };

    /// Checks that the policies of a file, in the file's order, are admitted. Returns their first error if they are
    /// not.
    fn check_policies(&self, alloc: Global, policies: &[(String, Policy)]) -> Result<(), Refusal>
        ensures admitted { IfOk result (λ _. (reading self.now).admits (map (λ p. p.1) policies.now)) }
        ensures refused { IfErr result
            (OrNoMemory no_memory ((reading self.now).rejects (map (λ p. p.1) policies.now))) };

    /// Returns the entity that a value describes, or its error, with neither an offset nor an index.
    fn read_entity(&self, alloc: Global, value: &Value) -> Result<Entity, Refusal>
        ensures { ReadsAs no_memory (λ e. e) result ((reading self.now).entity (view value.now)) };

    /// Returns the request that a value describes, or its error, with neither an offset nor an index.
    fn read_request(&self, alloc: Global, value: &Value) -> Result<Request, Refusal>
        ensures read { IfOk result ((reading self.now).states (view value.now)) }
        ensures refused { IfErr result (OrNoMemory no_memory ((reading self.now).faults (view value.now))) };
}
