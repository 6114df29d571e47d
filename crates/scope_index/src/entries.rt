//! Adding and removing a policy, in the index's map by id and in its buckets.
ghost use Rattle.std.specs.Prelude.{◌≡◌, ℕ, List, Some, None, cond, IfOk, OnOk, OnErr, string_bytes};
ghost use Rattle.std.specs.Str.{bytes_eq};
ghost use Rattle.scope_index.specs.Keys.{kept_at};
ghost use Rattle.scope_index.specs.Buckets.{AreFiled};

use crate::buckets::{Buckets, put, take};
use plain::{NoMemory, pair_with};
use policy_grammar::Policy;
use std::alloc::Global;
use std::collections::BTreeMap;

/// Removes the policy of an id, if there is one. Does not allocate.
pub(crate) fn forget(kept: &mut BTreeMap<String, Policy>, buckets: &mut Buckets, id: &str)
    requires { AreFiled kept.old.entries buckets.old }
    ensures filed { AreFiled kept.new.entries buckets.new }
    ensures gone { (q : List ℕ) → kept_at kept.new.entries q
        ≡ cond (bytes_eq id.now q) None (kept_at kept.old.entries q) }
{
    if let Some(policy) = kept.remove(id) {
        take(buckets, &policy.scope, id);
    }
}

// Adds a policy whose id is new. `own` and `second` are each the id with a shared reference to the policy: `own` for
// the map by id, `second` for the bucket. If an allocation fails, the index is unchanged.
fn enter(
    alloc: Global,
    kept: &mut BTreeMap<String, Policy>,
    buckets: &mut Buckets,
    id: &str,
    policy: &Policy,
    own: (String, Policy),
    second: (String, Policy),
) -> Result<(), NoMemory>
    requires filed { AreFiled kept.old.entries buckets.old }
    requires absent { kept_at kept.old.entries id.now ≡ None }
    requires own_id { string_bytes own.0 ≡ id.now }
    requires own_share { own.1 ≡ policy.now }
    requires second_id { string_bytes second.0 ≡ id.now }
    requires second_share { second.1 ≡ policy.now }
    ensures filed { AreFiled kept.new.entries buckets.new }
    ensures ok { OnOk result ((q : List ℕ) → kept_at kept.new.entries q
        ≡ cond (bytes_eq id.now q) (Some policy.now) (kept_at kept.old.entries q)) }
    ensures err { OnErr result ((q : List ℕ) → kept_at kept.new.entries q ≡ kept_at kept.old.entries q) }
{
    let (own_id, own_share) = own;
    kept.insert(own_id, own_share)?;
    let (second_id, second_share) = second;
    let filed = put(alloc, buckets, &policy.scope, second_id, second_share);
    if filed.is_err() {
        kept.remove(id);
    }
    filed
}

// Returns an id with a shared reference to its policy, to be added.
fn entry_of(alloc: Global, id: &str, policy: &Policy) -> Result<(String, Policy), NoMemory>
    ensures id { IfOk result (λ entry. string_bytes entry.0 ≡ id.now) }
    ensures share { IfOk result (λ entry. entry.1 ≡ policy.now) }
{
    pair_with(String::from_str(alloc, id)?, policy.share())
}

/// Adds a shared reference to a policy, replacing the policy of its id.
///
/// # Errors
///
/// - `NoMemory`: an allocation failed, or a count of references to the policy would overflow. The id then has no
///   policy.
pub(crate) fn keep(
    alloc: Global,
    kept: &mut BTreeMap<String, Policy>,
    buckets: &mut Buckets,
    id: &str,
    policy: &Policy,
) -> Result<(), NoMemory>
    requires { AreFiled kept.old.entries buckets.old }
    ensures filed { AreFiled kept.new.entries buckets.new }
    ensures ok { OnOk result ((q : List ℕ) → kept_at kept.new.entries q
        ≡ cond (bytes_eq id.now q) (Some policy.now) (kept_at kept.old.entries q)) }
    ensures err { OnErr result ((q : List ℕ) → kept_at kept.new.entries q
        ≡ cond (bytes_eq id.now q) None (kept_at kept.old.entries q)) }
{
    forget(kept, buckets, id);
    let own = entry_of(alloc, id, policy)?;
    let (own, second) = pair_with(own, entry_of(alloc, id, policy))?;
    enter(alloc, kept, buckets, id, policy, own, second)
}
