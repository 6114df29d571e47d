//! Paths to the parts of a JSON value, and their steps.
ghost use Rattle.std.specs.Prelude.{◌≡◌, [], ◌∷◌, IfOk, MatchResult, Some, reverse};
ghost use Rattle.explanations.specs.Steps as step;
ghost use Rattle.explanations.specs.Steps.{step_view, steps_view};
ghost use Rattle.explanations.specs.inner.FoundPaths.{under};

use plain::NoMemory;
use std::alloc::Global;
use std::marker::Model;

/// A step from a JSON value to one of its parts. A key is borrowed from the JSON or the schema, or is a constant.
#[derive(Clone, Copy)]
pub(crate) enum Step<'p> {
    /// To the member of an object that has this key.
    Key(&'p str),
    /// To the item of an array at this index, counted from 0.
    Index(usize),
}

/// A path that grows at its beginning. Contracts see its steps, from the whole value on.
pub(crate) struct Trail<'p> {
    steps: Vec<Step<'p>>,
}

impl<'p> Model for Trail<'p> {
    ghost use Rattle.std.specs.Prelude.{List, reverse};
    ghost use Rattle.explanations.specs.Steps.{Step as PlainStep, steps_view};

    ghost Value = { List PlainStep };

    ghost view = { λ t. steps_view (reverse t.steps.items) };
}

impl<'p> Trail<'p> {
    /// Creates the path of a value to itself. Does not allocate.
    pub(crate) fn here(alloc: Global) -> Trail<'p>
        ensures { result ≡ [] }
    {
        Trail {
            steps: Vec::new(alloc),
        }
    }

    /// Returns the path with a step in front of it. Always `Some`, since callers return optional paths.
    pub(crate) fn under(self, step: Step<'p>) -> Result<Option<Trail<'p>>, NoMemory>
        ensures { IfOk result (λ o. o ≡ Some (step_view step.entry ∷ self.entry)) }
    {
        let Trail { mut steps } = self;
        steps.push(step)?;
        Ok(Some(Trail { steps }))
    }

    /// Returns the steps of the path, from the whole value on.
    pub(crate) fn into_path(self) -> Vec<Step<'p>>
        ensures { steps_view result.items ≡ self.entry }
    {
        let Trail { mut steps } = self;
        steps.reverse();
        steps
    }
}

/// Returns the path that a search found, if it found one, with a key in front of it. The call's only error is
/// `NoMemory`, its own or that of the search.
pub(crate) fn under_key<'p>(
    key: &'p str,
    found: Result<Option<Trail<'p>>, NoMemory>,
) -> Result<Option<Trail<'p>>, NoMemory>
    ensures { IfOk result (λ o. MatchResult found.entry (λ path. o ≡ under (step.Key key.entry.now) path) (λ _. ⊥)) }
{
    match found {
        Ok(Some(trail)) => trail.under(Step::Key(key)),
        Ok(None) => Ok(None),
        Err(fault) => Err(fault),
    }
}

/// Returns the path whose only step is this key. Always `Some`.
pub(crate) fn at_key<'p>(alloc: Global, key: &'p str) -> Result<Option<Trail<'p>>, NoMemory>
    ensures { IfOk result (λ o. o ≡ Some (step.Key key.entry.now ∷ [])) }
{
    Trail::here(alloc).under(Step::Key(key))
}
