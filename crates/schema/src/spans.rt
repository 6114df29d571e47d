//! Spans of numbers, and the sets that lists of them represent.
ghost use Rattle.std.specs.Prelude.{◌≡◌, ◌||◌, ℕ, IfOk, OnOk, MatchOption, ⊤};
ghost use Rattle.schema.specs.Spans.{in_span, has_number};

use plain::{Items, NoMemory};
use std::alloc::Global;

/// A span: the numbers from the first to the last, inclusive; empty if the last is less than the first.
#[derive(Clone, Copy, PartialEq, Eq, PartialOrd, Ord)]
pub struct NumberSpan {
    pub first: usize,
    pub last: usize,
}

/// Returns whether a number is in a span.
fn is_in(span: &NumberSpan, number: usize) -> bool
    ensures { result ≡ in_span number span.now }
{
    span.first <= number && number <= span.last
}

/// Returns whether one of the spans contains a number. Does not allocate.
pub fn has_number(spans: &[NumberSpan], number: usize) -> bool
    ensures { result ≡ has_number spans.now number }
{
    for span in spans {
        if is_in(span, number) {
            return true;
        }
    }
    false
}

/// Returns the span of the numbers of both spans, if `next` is not empty and begins in `span` or directly after it;
/// else `None`.
fn over(span: NumberSpan, next: NumberSpan) -> Option<NumberSpan>
    ensures { MatchOption result ⊤ (λ whole. (n : ℕ) → in_span n whole ≡ (in_span n span || in_span n next)) }
{
    if span.first > next.first || next.first > next.last {
        return None;
    }
    if next.first > span.last && next.first - span.last > 1 {
        return None;
    }
    Some(NumberSpan {
        first: span.first,
        last: span.last.max(next.last),
    })
}

/// Appends a span, merged with the last one if [`over`] can merge them.
fn append(spans: &mut Vec<NumberSpan>, next: NumberSpan) -> Result<(), NoMemory>
    ensures { OnOk result ((n : ℕ) → has_number spans.new.items n
        ≡ (has_number spans.old.items n || in_span n next)) }
{
    let Some(span) = spans.pop() else {
        spans.push(next)?;
        return Ok(());
    };
    match over(span, next) {
        Some(whole) => spans.push(whole)?,
        None => {
            spans.push(span)?;
            spans.push(next)?;
        }
    }
    Ok(())
}

/// Returns spans of the same numbers, merged if they touch, so that few remain. The contract specifies the set of
/// numbers, not how many spans there are or their order. The only error is `NoMemory`.
pub fn joined(alloc: Global, spans: Vec<NumberSpan>) -> Result<Items<NumberSpan>, NoMemory>
    ensures { IfOk result (λ found. (n : ℕ) → has_number found n ≡ has_number spans.items n) }
{
    let mut spans = spans;
    spans.sort_unstable();
    let mut found = Vec::new(alloc);
    for span in &spans {
        append(&mut found, *span)?;
    }
    Ok(Items::from_vec(found))
}
