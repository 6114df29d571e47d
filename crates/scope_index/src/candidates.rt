//! The candidate policies of a request: those in the buckets of the keys that match it.
ghost use Rattle.std.specs.Prelude.{◌≡◌, ◌↔◌, ◌⊎◌, Some, Contains, IfOk, OnOk};
ghost use Rattle.std.specs.Option.{option_copied};
ghost use Rattle.std.specs.List.Sorted.{IsPermutation, IsSortedByKey, IsStrictlySortedBy};
ghost use Rattle.values.specs.declared.entity_uid.EntityUid.{EntityUid as PlainUid};
ghost use Rattle.values.specs.Names.{text_cmp};
ghost use Rattle.ancestor_search.specs.Hierarchy.{IsIn, referenced};
ghost use Rattle.policy_grammar.specs.declared.policy.Policy.{Policy as PlainPolicy};
ghost use Rattle.scope_index.specs.Keys.{IndexKey, IsMet, Candidate, ids, kept_at, lent};
ghost use Rattle.scope_index.specs.Buckets.{BucketsHaveOnePolicyPerId, HaveOnePolicyPerIdTogether, HaveOnePolicyPerId};
ghost use Rattle.scope_index.specs.Buckets.{IsCandidateByEntity};
ghost use Rattle.scope_index.specs.Buckets.{bucket_at, policy_of_uid, policy_of_key};

use crate::buckets::{Buckets, EntityBuckets};
use ancestor_search::Ancestry;
use plain::NoMemory;
use policy_grammar::Policy;
use std::alloc::Global;
use std::collections::BTreeMap;
use values::{EntityUid, Request};

// If at least this many policies are candidates of every request, they are listed in their bucket's order, by id, and
// then the other candidates are added. The candidates do not depend on this number.
const MANY: usize = 64;

// The other candidates are inserted one by one only if there are at most this many of them (see `are_few`). The
// candidates do not depend on this number.
const FEW: usize = 128;

// Appends the policies of a bucket to the candidates.
fn add_policies<'a>(
    bucket: &'a BTreeMap<String, Policy>,
    found: &mut Vec<(&'a str, &'a Policy)>,
) -> Result<(), NoMemory>
    ensures { OnOk result ((o : Candidate) → Contains (lent found.new.items) o
        ↔ Contains (lent found.old.items) o ⊎ (kept_at bucket.now.entries o.0 ≡ Some o.1)) }
{
    found.reserve(bucket.len())?;
    for (id, policy) in bucket {
        found.push((id.as_str(), policy))?;
    }
    Ok(())
}

// Returns the bucket of an entity, if it has one.
fn bucket_at<'a>(under: &'a EntityBuckets, uid: &EntityUid) -> Option<&'a BTreeMap<String, Policy>>
    ensures { option_copied result ≡ bucket_at under.now uid.now }
{
    match under.get(&uid.type_name) {
        Some(named) => named.get(&uid.id),
        None => None,
    }
}

// Appends the policies in the bucket of an entity to the candidates.
fn add_bucket<'a>(
    under: &'a EntityBuckets,
    uid: &EntityUid,
    found: &mut Vec<(&'a str, &'a Policy)>,
) -> Result<(), NoMemory>
    ensures { OnOk result ((o : Candidate) → Contains (lent found.new.items) o
        ↔ Contains (lent found.old.items) o ⊎ (policy_of_uid under.now uid.now o.0 ≡ Some o.1)) }
{
    match bucket_at(under, uid) {
        Some(bucket) => add_policies(bucket, found),
        None => Ok(()),
    }
}

// Appends the policies that are candidates of every request.
fn add_always<'a>(
    buckets: &'a Buckets,
    found: &mut Vec<(&'a str, &'a Policy)>,
) -> Result<(), NoMemory>
    ensures { OnOk result ((o : Candidate) → Contains (lent found.new.items) o
        ↔ Contains (lent found.old.items) o ⊎ (kept_at buckets.now.always.entries o.0 ≡ Some o.1)) }
{
    add_policies(&buckets.always, found)
}

// Appends the policies in the bucket of each of these entities.
fn add_each<'a>(
    under: &'a EntityBuckets,
    entities: &[&EntityUid],
    found: &mut Vec<(&'a str, &'a Policy)>,
) -> Result<(), NoMemory>
    ensures { OnOk result ((o : Candidate) → Contains (lent found.new.items) o
        ↔ Contains (lent found.old.items) o
        ⊎ ((e : PlainUid) × Contains (referenced entities.now) e × (policy_of_uid under.now e o.0 ≡ Some o.1))) }
{
    for entity in entities {
        add_bucket(under, entity, found)?;
    }
    Ok(())
}

// Appends the policies in the buckets of an entity and of each of its ancestors.
fn add_with_ancestors<'a, A: Ancestry>(
    under: &'a EntityBuckets,
    ancestry: &A,
    uid: &EntityUid,
    found: &mut Vec<(&'a str, &'a Policy)>,
) -> Result<(), NoMemory>
    ensures { OnOk result ((o : Candidate) → Contains (lent found.new.items) o
        ↔ Contains (lent found.old.items) o
        ⊎ ((e : PlainUid) × IsIn (A.parents ancestry.now) uid.now e × (policy_of_uid under.now e o.0 ≡ Some o.1))) }
{
    add_bucket(under, uid, found)?;
    let ancestors = ancestry.ancestors(uid)?;
    add_each(under, &ancestors, found)?;
    Ok(())
}

// Appends the policies in the principal buckets of the request's principal and its ancestors, and those in the resource
// buckets of the request's resource and its ancestors.
fn add_by_entities<'a, A: Ancestry>(
    buckets: &'a Buckets,
    request: &Request,
    ancestry: &A,
    found: &mut Vec<(&'a str, &'a Policy)>,
) -> Result<(), NoMemory>
    ensures { OnOk result ((o : Candidate) → Contains (lent found.new.items) o
        ↔ Contains (lent found.old.items) o ⊎ IsCandidateByEntity (A.parents ancestry.now) request.now buckets.now o) }
{
    add_with_ancestors(&buckets.principals, ancestry, &request.principal, found)?;
    add_with_ancestors(&buckets.resources, ancestry, &request.resource, found)?;
    Ok(())
}

// Returns the candidate policies of a request, in any order, possibly with duplicates.
fn unsorted_candidates<'a, A: Ancestry>(
    alloc: Global,
    buckets: &'a Buckets,
    request: &Request,
    ancestry: &A,
) -> Result<Vec<(&'a str, &'a Policy)>, NoMemory>
    ensures { IfOk result (λ found. (o : Candidate) → Contains (lent found.items) o
        ↔ ((k : IndexKey) × IsMet (A.parents ancestry.now) request.now k
        × (policy_of_key buckets.now k o.0 ≡ Some o.1))) }
{
    let mut found = Vec::new(alloc);
    add_always(buckets, &mut found)?;
    add_by_entities(buckets, request, ancestry, &mut found)?;
    Ok(found)
}

// Sorts candidates by their ids. Those of a bucket are a sorted run already; the stable sort merges long sorted runs
// without sorting them again. If it cannot allocate, the candidates are sorted in place.
fn sort_by_id<'a>(policies: &mut Vec<(&'a str, &'a Policy)>)
    ensures permutation { IsPermutation policies.old.items policies.new.items }
    ensures sorted { IsSortedByKey (λ p. p.0.now) text_cmp policies.new.items }
{
    match policies.sort_by_key(|policy| policy.0) {
        Ok(()) => {}
        Err(_) => policies.sort_unstable_by_key(|policy| policy.0),
    }
}

// Returns the policies `found`, ascending by id and without duplicates.
fn in_order<'a>(found: Vec<(&'a str, &'a Policy)>) -> Vec<(&'a str, &'a Policy)>
    requires { HaveOnePolicyPerId (lent found.items) }
    ensures same { (o : Candidate) → Contains (lent result.items) o ↔ Contains (lent found.entry.items) o }
    ensures ascending { IsStrictlySortedBy text_cmp (ids (lent result.items)) }
{
    let mut policies = found;
    sort_by_id(&mut policies);
    policies.dedup_by_key(|policy| policy.0);
    policies
}

// Returns the policies of a bucket, ascending by id, in a list with capacity for `FEW` more.
fn all_of<'a>(
    alloc: Global,
    bucket: &'a BTreeMap<String, Policy>,
) -> Result<Vec<(&'a str, &'a Policy)>, NoMemory>
    ensures all { IfOk result (λ ps. (o : Candidate) → Contains (lent ps.items) o
        ↔ (kept_at bucket.now.entries o.0 ≡ Some o.1)) }
    ensures ascending { IfOk result (λ ps. IsStrictlySortedBy text_cmp (ids (lent ps.items))) }
{
    let mut all = Vec::with_capacity(alloc, bucket.len() + FEW)?;
    for (id, policy) in bucket {
        all.push((id.as_str(), policy))?;
    }
    Ok(all)
}

// Inserts a policy at its position in a list that ascends by id, unless the list has it.
fn place<'a>(
    all: &mut Vec<(&'a str, &'a Policy)>,
    id: &'a str,
    policy: &'a Policy,
) -> Result<(), NoMemory>
    requires ascending { IsStrictlySortedBy text_cmp (ids (lent all.old.items)) }
    requires one { (p : PlainPolicy) → Contains (lent all.old.items) (id.now, p) → p ≡ policy.now }
    ensures ascending { OnOk result (IsStrictlySortedBy text_cmp (ids (lent all.new.items))) }
    ensures same { OnOk result ((o : Candidate) → Contains (lent all.new.items) o
        ↔ Contains (lent all.old.items) o ⊎ ((id.now, policy.now) ≡ o)) }
{
    match all.binary_search_by_key(&id, |other| other.0) {
        Ok(_) => Ok(()),
        Err(at) => {
            all.insert(at, (id, policy))?;
            Ok(())
        }
    }
}

// Inserts policies at their positions in a list that ascends by id, except those that the list has.
fn place_each<'a>(
    all: &mut Vec<(&'a str, &'a Policy)>,
    policies: &[(&'a str, &'a Policy)],
) -> Result<(), NoMemory>
    requires ascending { IsStrictlySortedBy text_cmp (ids (lent all.old.items)) }
    requires one { HaveOnePolicyPerIdTogether (lent all.old.items) (lent policies.now) }
    ensures ascending { OnOk result (IsStrictlySortedBy text_cmp (ids (lent all.new.items))) }
    ensures same { OnOk result ((o : Candidate) → Contains (lent all.new.items) o
        ↔ Contains (lent all.old.items) o ⊎ Contains (lent policies.now) o) }
{
    for (id, policy) in policies {
        place(all, id, policy)?;
    }
    Ok(())
}

// Returns whether `others` policies are few enough to be inserted one by one into a sorted list of `all` policies: at
// most `FEW`, and at most a quarter of `all`. Each insertion moves the policies after it; beyond these limits,
// appending the policies and sorting the list is cheaper.
fn are_few(others: usize, all: usize) -> bool {
    others <= FEW && others <= all / 4
}

// Returns the policies of both lists, ascending by id and without duplicates. `all` ascends by id; `others` may be in
// any order.
fn joined<'a>(
    all: Vec<(&'a str, &'a Policy)>,
    others: &[(&'a str, &'a Policy)],
) -> Result<Vec<(&'a str, &'a Policy)>, NoMemory>
    requires ascending { IsStrictlySortedBy text_cmp (ids (lent all.items)) }
    requires one { HaveOnePolicyPerIdTogether (lent all.items) (lent others.now) }
    ensures same { IfOk result (λ ps. (o : Candidate) → Contains (lent ps.items) o
        ↔ Contains (lent all.entry.items) o ⊎ Contains (lent others.now) o) }
    ensures ascending { IfOk result (λ ps. IsStrictlySortedBy text_cmp (ids (lent ps.items))) }
{
    let mut all = all;
    if are_few(others.len(), all.len()) {
        place_each(&mut all, others)?;
        return Ok(all);
    }
    all.extend_from_slice(others)?;
    Ok(in_order(all))
}

// Returns the candidate policies of a request, ascending by id. It is meant for the case that many policies are
// candidates of every request.
fn merged_candidates<'a, A: Ancestry>(
    alloc: Global,
    buckets: &'a Buckets,
    request: &Request,
    ancestry: &A,
) -> Result<Vec<(&'a str, &'a Policy)>, NoMemory>
    requires { BucketsHaveOnePolicyPerId buckets.now }
    ensures found { IfOk result (λ ps. (o : Candidate) → Contains (lent ps.items) o
        ↔ ((k : IndexKey) × IsMet (A.parents ancestry.now) request.now k
        × (policy_of_key buckets.now k o.0 ≡ Some o.1))) }
    ensures ascending { IfOk result (λ ps. IsStrictlySortedBy text_cmp (ids (lent ps.items))) }
{
    let mut others = Vec::new(alloc);
    add_by_entities(buckets, request, ancestry, &mut others)?;
    let all = all_of(alloc, &buckets.always)?;
    Ok(joined(all, &others)?)
}

/// Returns the candidate policies of a request, ascending by id.
pub(crate) fn candidates_of<'a, A: Ancestry>(
    alloc: Global,
    buckets: &'a Buckets,
    request: &Request,
    ancestry: &A,
) -> Result<Vec<(&'a str, &'a Policy)>, NoMemory>
    requires { BucketsHaveOnePolicyPerId buckets.now }
    ensures found { IfOk result (λ ps. (o : Candidate) → Contains (lent ps.items) o
        ↔ ((k : IndexKey) × IsMet (A.parents ancestry.now) request.now k
        × (policy_of_key buckets.now k o.0 ≡ Some o.1))) }
    ensures ascending { IfOk result (λ ps. IsStrictlySortedBy text_cmp (ids (lent ps.items))) }
{
    if buckets.always.len() >= MANY {
        return merged_candidates(alloc, buckets, request, ancestry);
    }
    Ok(in_order(unsorted_candidates(alloc, buckets, request, ancestry)?))
}
