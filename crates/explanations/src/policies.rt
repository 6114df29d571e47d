//! Explains policies that do not pass validation.
ghost use Rattle.std.specs.Prelude.{◌≡◌, false, OnOk, IfOk, map, string_bytes, option_map};
ghost use Rattle.schema_decisions.specs.schema.Views.{schema_view};
ghost use Rattle.explanations.specs.TextParts.{AppendsSome};
ghost use Rattle.explanations.specs.Policies.{is_searched, IsSpanFound, IsFaultText};
ghost use Rattle.explanations.specs.Policies.{IsCheckExplained, IsPolicyExplained, ArePoliciesExplained};

use crate::finding::SourceFinding;
use crate::node_limits::has_at_most;
use crate::pieces::{Piece, piece_at};
use crate::source::push_source;
use crate::text_parts::part_of;
use entities::Schema;
use fault_places::{PolicyFault, Span, TypeFault, check, explain_fault, name_span, span_of};
use plain::NoMemory;
use policy_grammar::Policy;
use std::alloc::Global;

// The greatest length in bytes of a policy that is searched for the expression at fault.
const MOST_BYTES: usize = 10000;

// The greatest number of nodes of the condition of such a policy. The search types the part at fault again on each of
// at most 1,000 levels. So in an environment it types at most 10,000,000 nodes, ten times the 1,000,000 nodes of the
// largest policy.
const MOST_NODES: u32 = 10000;

/// Returns whether a policy is searched for the expression at fault.
fn is_searched(piece: Piece, policy: &Policy) -> bool
    ensures { result ≡ is_searched piece policy.now }
{
    piece.end.saturating_sub(piece.start) <= MOST_BYTES
        && has_at_most(&policy.condition, MOST_NODES)
}

/// Returns the span, in the text of the policy, of the undeclared name (40, 41), else of the expression at fault;
/// `None` if it was not found.
fn found_span(
    alloc: Global,
    text: &str,
    piece: Piece,
    fault: &PolicyFault,
) -> Result<Option<Span>, NoMemory>
    ensures { IfOk result (IsSpanFound text.now piece fault.now) }
{
    let part = part_of(text, piece.start, piece.end);
    let path = fault.path.as_slice();
    match fault.fault {
        TypeFault::UnknownType | TypeFault::UnknownAction => name_span(alloc, part, path),
        _ => span_of(alloc, part, path),
    }
}

/// Appends why a policy does not pass validation, with its error `fault`: at the name or the expression at fault or, if
/// no span of it was found, at the whole policy.
fn push_fault(
    alloc: Global,
    out: &mut String,
    file: &str,
    text: &str,
    piece: Piece,
    fault: &PolicyFault,
) -> Result<(), NoMemory>
    ensures { OnOk result (AppendsSome (IsFaultText file.now text.now piece fault.now)
        (string_bytes out.old) (string_bytes out.new)) }
{
    let whole = SourceFinding {
        code: u16::from(fault.fault.code()),
        start: piece.start,
        end: piece.end,
        cause: fault.cause.as_str(),
        detail: fault.detail.as_str(),
        note: "the whole policy is shown, not the expression at fault",
    };
    let finding = match found_span(alloc, text, piece, fault)? {
        Some(span) => SourceFinding {
            start: piece.start.saturating_add(span.start),
            end: piece.start.saturating_add(span.end),
            note: "",
            ..whole
        },
        None => whole,
    };
    push_source(alloc, out, file, text, &finding)
}

/// Appends why a policy does not pass, if it does not, without a search for the expression at fault.
fn explain_large(
    alloc: Global,
    out: &mut String,
    schema: &Schema,
    file: &str,
    text: &str,
    piece: Piece,
    policy: &Policy,
) -> Result<(), NoMemory>
    ensures { is_searched piece policy.now ≡ false → OnOk result (AppendsSome
        (IsCheckExplained (schema_view schema.now) file.now text.now piece policy.now)
        (string_bytes out.old) (string_bytes out.new)) }
{
    match check(alloc, schema, policy) {
        Ok(_verdict) => Ok(()),
        Err(fault) => match fault {
            TypeFault::NoMemory => Err(NoMemory),
            _ => {
                let finding = SourceFinding {
                    code: u16::from(fault.code()),
                    start: piece.start,
                    end: piece.end,
                    cause: "",
                    detail: "",
                    note: "the policy is too large to show the expression at fault",
                };
                push_source(alloc, out, file, text, &finding)
            }
        },
    }
}

/// Appends why a policy does not pass validation; nothing if the policy passes, or without a schema.
fn explain_policy(
    alloc: Global,
    out: &mut String,
    schema: Option<&Schema>,
    file: &str,
    text: &str,
    piece: Piece,
    policy: &Policy,
) -> Result<(), NoMemory>
    ensures { OnOk result (AppendsSome (IsPolicyExplained (option_map (λ s. schema_view s.now) schema.entry)
        file.now text.now piece policy.now) (string_bytes out.old) (string_bytes out.new)) }
{
    let Some(schema) = schema else {
        return Ok(());
    };
    if !is_searched(piece, policy) {
        return explain_large(alloc, out, schema, file, text, piece, policy);
    }
    match explain_fault(alloc, schema, policy)? {
        Some(fault) => push_fault(alloc, out, file, text, piece, &fault),
        None => Ok(()),
    }
}

/// Appends why policies of a file do not pass validation, in the order of the file, if there is a schema.
pub(crate) fn explain_policies(
    alloc: Global,
    out: &mut String,
    schema: Option<&Schema>,
    file: &str,
    text: &str,
    pieces: &[Piece],
    policies: &[(String, Policy)],
) -> Result<(), NoMemory>
    ensures { OnOk result (AppendsSome (ArePoliciesExplained (option_map (λ s. schema_view s.now) schema.entry)
        file.now text.now pieces.now (map (λ p. p.1) policies.now)) (string_bytes out.old) (string_bytes out.new)) }
{
    for (place, named) in policies.iter().enumerate() {
        let piece = piece_at(pieces, place);
        explain_policy(alloc, out, schema, file, text, piece, &named.1)?;
    }
    Ok(())
}
