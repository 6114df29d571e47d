//! Patterns of `like`.
ghost use Rattle.std.specs.Prelude.{◌≡◌, ◌↔◌, ◌<◌, ◌++◌, [], ◌∷◌, IsTrue, length};
ghost use Rattle.grammar_core.specs.Like.{Matches, literal, after_stars};
ghost use Rattle.grammar_core.specs.LikeTest.{Joins, is_match};

use plain::{Items, Text};
use std::marker::Model;

/// A pattern of `like`: literal texts, with a wildcard between adjacent ones. Contracts see the list of the literal
/// texts, which has one item more than there are wildcards. A literal text may be empty.
///
/// Source: Cedar reference guide, "Operators: like".
#[derive(Drop)]
pub struct Pattern {
    /// The literal texts that are followed by a wildcard.
    before: Items<Text>,
    /// The literal text after the last wildcard, or the only one.
    last: Text,
}

impl Model for Pattern {
    ghost use Rattle.std.specs.Prelude.{List, ℕ, ◌++◌, [], ◌∷◌};

    ghost Value = { List (List ℕ) };

    ghost view = { λ p. p.before ++ p.last ∷ [] };
}

impl Pattern {
    /// Returns the pattern whose literal texts are `literals`, at least one, with a wildcard between adjacent ones.
    /// Does not allocate.
    pub fn from_literals(literals: Vec<Text>) -> Pattern
        requires { 0 < length literals.items }
        ensures { result ≡ literals.items }
    {
        let mut before = literals;
        let last = before.pop().unwrap();
        Pattern {
            before: Items::from_vec(before),
            last,
        }
    }

    /// Returns the literal texts that are followed by a wildcard, in order, and the last one. Does not allocate.
    pub fn literals(&self) -> (&[Text], &Text)
        ensures { result.0.now ++ result.1.now ∷ [] ≡ self.now }
    {
        (self.before.as_slice(), &self.last)
    }

    /// Returns whether two patterns are equal. Does not allocate.
    pub fn same(&self, other: &Pattern) -> bool
        ensures { IsTrue result ↔ (self.now ≡ other.now) }
    {
        same_texts(&self.before, &other.before) && self.last.same(&other.last)
    }

    /// Returns whether a string matches the pattern: whether it is a concatenation of pieces, one for each literal and
    /// each wildcard in order. A literal's piece equals the literal, and a wildcard's piece is any string.
    ///
    /// O(length of the pattern times length of the string). Does not allocate.
    pub fn matches(&self, text: &str) -> bool
        ensures like { IsTrue result ↔ Matches self.now text.now }
        ensures test { result ≡ is_match self.now text.now }
    {
        match self.before.as_slice().split_first() {
            Some((first, middle)) => first_matches(first, middle, &self.last, text),
            None => text == self.last.as_str(),
        }
    }
}

/// Returns whether a string begins with the first literal, and its rest matches the other literals, in order, with a
/// wildcard before each.
fn first_matches(first: &Text, middle: &[Text], last: &Text, text: &str) -> bool
    ensures { IsTrue result ↔ Joins (literal first.now ∷ after_stars (middle.now ++ last.now ∷ [])) text.now }
{
    match text.strip_prefix(first.as_str()) {
        Some(rest) => others_match(middle, last.as_str(), rest),
        None => false,
    }
}

/// Returns whether a string matches the literals `middle` and then `last`, with a wildcard before each.
///
/// Each literal but the last is matched at its first occurrence. That leaves the longest rest, and the next wildcard
/// may match what a later occurrence would have skipped, so the search never backtracks.
fn others_match(middle: &[Text], last: &str, text: &str) -> bool
    ensures { IsTrue result ↔ Joins (after_stars (middle.now ++ last.now ∷ [])) text.now }
{
    let mut rest = text;
    for literal in middle {
        let Some((_, after)) = rest.split_once(literal.as_str()) else {
            return false;
        };
        rest = after;
    }
    rest.ends_with(last)
}

/// Returns whether two lists of strings are equal.
fn same_texts(ones: &Items<Text>, twos: &Items<Text>) -> bool
    ensures { IsTrue result ↔ (ones.now ≡ twos.now) }
{
    if ones.len() != twos.len() {
        return false;
    }
    let others = twos.as_slice();
    for (at, one) in ones.as_slice().iter().enumerate() {
        if !one.same(&others[at]) {
            return false;
        }
    }
    true
}
