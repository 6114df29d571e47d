//! Puts the policies of a file, each with its own text.
ghost use Rattle.std.specs.Prelude.{◌≡◌, length, map, string_bytes, IfOk, IfErr, OnOk};
ghost use Rattle.policy_grammar.specs.Cuts.{AreTextsOf};
ghost use Rattle.site.specs.SiteViews.{schema_of, store_in, IsSameSite};
ghost use Rattle.plain.specs.AllocationErrors.{OrNoMemory};
ghost use Rattle.schema_decisions.specs.answer_lines.Refusals.{no_memory};
ghost use Rattle.site_loading.specs.Puts.{policy_put, Accepts, AcceptsAll, RefusesAt, RefusesFirst};
ghost use Rattle.site_loading.specs.Loads.{policy_puts, LoadsPolicies, RefusesPolicies};
ghost use Rattle.site_loading.specs.inner.Steps.{HasTokens};

use crate::refusal::put_refusal;
use plain::NoMemory;
use policy_grammar::{LexFault, Policy, files_are_cut_by_policies, lexing_is_unique, policy_texts};
use schema_decisions::{Refusal, policies_of_file};
use site::Site;
use std::alloc::Global;

/// Puts one policy. An error other than `NoMemory` is returned with the index `place`.
fn put_policy(site: &mut Site, place: usize, id: &str, text: &str) -> Result<(), Refusal>
    ensures accepted { OnOk result (Accepts (schema_of site.old) site.old.name (store_in site.old)
        (policy_put id.now text.now) (store_in site.new)) }
    ensures refused { IfErr result (OrNoMemory no_memory
        (RefusesAt (schema_of site.old) site.old.name (store_in site.old)
        place (policy_put id.now text.now))) }
    ensures same { IsSameSite site.old site.new }
{
    match site.put_policy(id, text) {
        Ok(_) => Ok(()),
        Err(fault) => Err(put_refusal(place, fault)),
    }
}

/// Returns the texts of the policies of a file, in order. The file must be UTF-8, and the lexer must split it into
/// tokens without an error.
fn texts_of<'t>(alloc: Global, bytes: &'t [u8]) -> Result<Vec<&'t str>, NoMemory>
    requires { HasTokens bytes.now }
    ensures { IfOk result (λ texts. AreTextsOf bytes.now (map (λ t. t.now) texts.items)) }
{
    lexing_is_unique();
    let Ok(text) = str::from_utf8(bytes) else {
        unreachable!();
    };
    match policy_texts(alloc, text) {
        Ok(texts) => Ok(texts),
        Err(LexFault::NoMemory) => Err(NoMemory),
        Err(LexFault::BadToken(_)) => unreachable!(),
    }
}

/// Puts `texts` under the names in `policies`, in their order, up to the first that is rejected. The earlier puts
/// remain. There must be as many texts as policies.
fn put_each(site: &mut Site, policies: &[(String, Policy)], texts: &[&str]) -> Result<(), Refusal>
    requires { length texts.now ≡ length policies.now }
    ensures accepted { OnOk result (AcceptsAll (schema_of site.old) site.old.name (store_in site.old)
        (policy_puts (map (λ p. string_bytes p.0) policies.now) (map (λ t. t.now) texts.now)) (store_in site.new)) }
    ensures refused { IfErr result (OrNoMemory no_memory
        (RefusesFirst (schema_of site.old) site.old.name (store_in site.old) 0
        (policy_puts (map (λ p. string_bytes p.0) policies.now) (map (λ t. t.now) texts.now)))) }
    ensures same { IsSameSite site.old site.new }
{
    for (place, policy) in policies.iter().enumerate() {
        put_policy(site, place, policy.0.as_str(), texts[place])?;
    }
    Ok(())
}

/// Puts the policies of a file in their order, each under its name in the file with its own text from the file.
///
/// # Errors
///
/// In this order:
///
/// - 10 to 19, at a byte offset: the file is rejected.
/// - The error of the first rejected put, at the policy's index in the file; the earlier puts remain.
/// - `NoMemory` (1): an allocation failed; possible at any point.
pub(crate) fn load_policies(alloc: Global, site: &mut Site, bytes: &[u8]) -> Result<(), Refusal>
    ensures loaded { OnOk result (LoadsPolicies (schema_of site.old) site.old.name (store_in site.old) bytes.now
        (store_in site.new)) }
    ensures refused { IfErr result (OrNoMemory no_memory (RefusesPolicies (schema_of site.old) site.old.name
        (store_in site.old) bytes.now)) }
    ensures same { IsSameSite site.old site.new }
{
    files_are_cut_by_policies();
    let policies = policies_of_file(alloc, bytes)?;
    let texts = texts_of(alloc, bytes)?;
    put_each(site, &policies, &texts)
}
