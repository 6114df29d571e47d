//! The satisfied and erroring policies, recorded one after another.
ghost use Rattle.std.specs.Prelude.{◌≡◌, ◌∷◌, [], ◌++◌, List, map, IfOk, OnOk};
ghost use Rattle.authoriser.specs.Answers.{PolicyOutcome, decided};
ghost use Rattle.authoriser.specs.inner.Views.{Counts, ids, faults};

use crate::answer::{Answer, Decision, ErringPolicy};
use crate::outcome::{Outcome, PolicyError};
use plain::{Items, NoMemory, Text};
use scope_index::Effect;
use std::alloc::Global;

/// The ids of the satisfied permits and forbids, and the erroring policies, each list in the order of recording.
#[derive(Drop)]
pub(crate) struct Tally<'a> {
    pub(crate) permits: Vec<&'a str>,
    pub(crate) forbids: Vec<&'a str>,
    pub(crate) errors: Vec<(&'a str, PolicyError)>,
}

impl<'a> Tally<'a> {
    /// Creates an empty tally.
    pub(crate) fn new(alloc: Global) -> Tally<'a>
        ensures { Counts result [] }
    {
        Tally {
            permits: Vec::new(alloc),
            forbids: Vec::new(alloc),
            errors: Vec::new(alloc),
        }
    }

    /// Adds the outcome of one policy.
    pub(crate) fn note(
        &mut self,
        id: &'a str,
        effect: Effect,
        outcome: Outcome,
    ) -> Result<(), NoMemory>
        ensures { OnOk result ((js : List PolicyOutcome) → Counts self.old js
            → Counts self.new (js ++ record { id = id.now; effect = effect; outcome = outcome } ∷ [])) }
    {
        match (outcome, effect) {
            (Outcome::Satisfied, Effect::Permit) => self.permits.push(id)?,
            (Outcome::Satisfied, Effect::Forbid) => self.forbids.push(id)?,
            (Outcome::NotSatisfied, _) => {}
            (Outcome::Errs(error), _) => self.errors.push((id, error))?,
        }
        Ok(())
    }

    /// Returns the answer that follows from the recorded policies. Only the ids in the answer are copied.
    pub(crate) fn into_answer(self, alloc: Global) -> Result<Answer, NoMemory>
        ensures { IfOk result (λ a. a ≡ decided (ids self.entry.permits.items) (ids self.entry.forbids.items)
            (faults self.entry.errors.items)) }
    {
        if !self.permits.is_empty() && self.forbids.is_empty() {
            answer_of(alloc, Decision::Allow, &self.permits, &self.errors)
        } else {
            answer_of(alloc, Decision::Deny, &self.forbids, &self.errors)
        }
    }
}

/// Returns the answer with this decision, these determining policies and these errors.
fn answer_of(
    alloc: Global,
    decision: Decision,
    ids: &[&str],
    errors: &[(&str, PolicyError)],
) -> Result<Answer, NoMemory>
    ensures { IfOk result (λ a. a
        ≡ record { decision = decision; reason = map (λ x. x.now) ids.now; errors = faults errors.now; cycle = [] }) }
{
    let reason = copy_ids(alloc, ids)?;
    let errors = copy_errors(alloc, errors)?;
    Ok(Answer {
        decision,
        reason,
        errors,
        cycle: Items::new(alloc),
    })
}

/// Copies the ids.
fn copy_ids(alloc: Global, ids: &[&str]) -> Result<Items<Text>, NoMemory>
    ensures { IfOk result (λ copies. copies ≡ map (λ x. x.now) ids.now) }
{
    let mut copies = Vec::with_capacity(alloc, ids.len())?;
    for id in ids {
        copies.push(Text::from_str(alloc, id)?)?;
    }
    Ok(Items::from_vec(copies))
}

/// Copies the erroring policies, each with its error.
fn copy_errors(
    alloc: Global,
    errors: &[(&str, PolicyError)],
) -> Result<Items<ErringPolicy>, NoMemory>
    ensures { IfOk result (λ copies. copies ≡ faults errors.now) }
{
    let mut copies = Vec::with_capacity(alloc, errors.len())?;
    for (id, error) in errors {
        let policy = Text::from_str(alloc, id)?;
        copies.push(ErringPolicy {
            policy,
            error: *error,
        })?;
    }
    Ok(Items::from_vec(copies))
}
