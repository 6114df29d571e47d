//! Policies by id, in a bucket for each key.
ghost use Rattle.std.specs.Prelude.{◌≡◌, ◌&&◌, IsTrue, IfOk, OnOk, OnErr, ℕ, List, Some, None, cond, string_bytes};
ghost use Rattle.std.specs.Str.{bytes_eq};
ghost use Rattle.scope_index.specs.Keys.{index_key, kept_at};
ghost use Rattle.values.specs.declared.entity_uid.EntityUid.{EntityUid as PlainUid};
ghost use Rattle.scope_index.specs.Buckets.{policy_of_entity_id, policy_of_uid, is_same_text, IsSetAtUid, IsSetAtId};
ghost use Rattle.scope_index.specs.Buckets.{IsSetAtKey};
ghost use Rattle.scope_index.specs.Buckets.{AreSameEntityBuckets, AreSameTypeBuckets, AreSameBuckets, AreEmpty};

use crate::scope_key::{ScopeKey, key_of};
use plain::{NoMemory, pair_with};
use policy_grammar::{Policy, Scope};
use std::alloc::Global;
use std::collections::BTreeMap;
use values::{EntityUid, SharedText, TypeName};

/// The buckets of the entities of one type, by the id of the entity.
pub(crate) type TypeBuckets = BTreeMap<SharedText, BTreeMap<String, Policy>>;

/// The buckets of entities, by the type of the entity and then by its id: a look-up finds the type first, and then
/// compares ids alone.
pub(crate) type EntityBuckets = BTreeMap<TypeName, TypeBuckets>;

/// Policies by id, in a bucket for each key.
#[derive(Drop)]
pub(crate) struct Buckets {
    /// The policies whose scope names an entity neither for the principal nor for the resource.
    pub(crate) always: BTreeMap<String, Policy>,
    /// The policies whose scope names an entity for the principal, by that entity.
    pub(crate) principals: EntityBuckets,
    /// The other policies, by the entity that their scope names for the resource.
    pub(crate) resources: EntityBuckets,
}

// Returns a bucket of one policy.
fn alone(alloc: Global, id: String, policy: Policy) -> Result<BTreeMap<String, Policy>, NoMemory>
    ensures { IfOk result (λ bucket. (q : List ℕ) → kept_at bucket.entries q
        ≡ cond (bytes_eq (string_bytes id) q) (Some policy) None) }
{
    let mut bucket = BTreeMap::new(alloc);
    bucket.insert(id, policy)?;
    Ok(bucket)
}

// Puts a policy into the bucket of an entity, given the buckets of the entity's type (`named`) and the entity's id
// (`entity`).
fn put_named(
    alloc: Global,
    named: &mut TypeBuckets,
    entity: &SharedText,
    id: String,
    policy: Policy,
) -> Result<(), NoMemory>
    ensures ok { OnOk result (IsSetAtId entity.now (string_bytes id) (Some policy) named.old named.new) }
    ensures err { OnErr result (AreSameTypeBuckets named.old named.new) }
{
    if let Some(bucket) = named.get_mut(entity) {
        bucket.insert(id, policy)?;
        return Ok(());
    }
    let (bucket, entity) = pair_with(alone(alloc, id, policy)?, entity.copy())?;
    named.insert(entity, bucket)?;
    Ok(())
}

// Returns the buckets of a type: a single bucket, that of the entity with the id `entity`. The bucket has one policy.
fn only(
    alloc: Global,
    entity: &SharedText,
    id: String,
    policy: Policy,
) -> Result<TypeBuckets, NoMemory>
    ensures { IfOk result (λ named. (e q : List ℕ) → policy_of_entity_id named e q
        ≡ cond (is_same_text entity.now e && bytes_eq (string_bytes id) q) (Some policy) None) }
{
    let mut named = BTreeMap::new(alloc);
    put_named(alloc, &mut named, entity, id, policy)?;
    Ok(named)
}

// Puts a policy into the bucket of an entity.
fn put_under(
    alloc: Global,
    under: &mut EntityBuckets,
    uid: &EntityUid,
    id: String,
    policy: Policy,
) -> Result<(), NoMemory>
    ensures ok { OnOk result (IsSetAtUid uid.now (string_bytes id) (Some policy) under.old under.new) }
    ensures err { OnErr result (AreSameEntityBuckets under.old under.new) }
{
    if let Some(named) = under.get_mut(&uid.type_name) {
        return put_named(alloc, named, &uid.id, id, policy);
    }
    let (named, type_name) = pair_with(only(alloc, &uid.id, id, policy)?, uid.type_name.copy())?;
    under.insert(type_name, named)?;
    Ok(())
}

// Removes the policy of an id from the bucket of an entity, given the buckets of the entity's type. Returns whether the
// entity then has an empty bucket.
fn remove_from_bucket(named: &mut TypeBuckets, entity: &SharedText, id: &str) -> bool
    ensures turns { IsSetAtId entity.now id.now None named.old named.new }
    ensures none { IsTrue result → (q : List ℕ) → policy_of_entity_id named.new entity.now q ≡ None }
{
    match named.get_mut(entity) {
        Some(bucket) => {
            bucket.remove(id);
            bucket.is_empty()
        }
        None => false,
    }
}

// Removes the policy of an id from the bucket of an entity, given the buckets of the entity's type. Also removes the
// bucket if it is then empty.
fn take_named(named: &mut TypeBuckets, entity: &SharedText, id: &str)
    ensures { IsSetAtId entity.now id.now None named.old named.new }
{
    if remove_from_bucket(named, entity, id) {
        named.remove(entity);
    }
}

// Removes the policy of an id from the bucket of an entity. Returns whether the entity's type then has an entry without
// buckets.
fn remove_from_type(under: &mut EntityBuckets, uid: &EntityUid, id: &str) -> bool
    ensures turns { IsSetAtUid uid.now id.now None under.old under.new }
    ensures none { IsTrue result → (u : PlainUid) (q : List ℕ) → IsTrue (is_same_text uid.now.type_name u.type_name)
        → policy_of_uid under.new u q ≡ None }
{
    match under.get_mut(&uid.type_name) {
        Some(named) => {
            take_named(named, &uid.id, id);
            named.is_empty()
        }
        None => false,
    }
}

// Removes the policy of an id from the bucket of an entity. Also removes the bucket, and the entry of the entity's
// type, if they are then empty.
fn take_under(under: &mut EntityBuckets, uid: &EntityUid, id: &str)
    ensures { IsSetAtUid uid.now id.now None under.old under.new }
{
    if remove_from_type(under, uid, id) {
        under.remove(&uid.type_name);
    }
}

impl Buckets {
    /// Creates empty buckets.
    pub(crate) fn new(alloc: Global) -> Self
        ensures { AreEmpty result }
    {
        Buckets {
            always: BTreeMap::new(alloc),
            principals: BTreeMap::new(alloc),
            resources: BTreeMap::new(alloc),
        }
    }
}

/// Puts a policy into the bucket of a scope's key. If an allocation fails, nothing changes.
pub(crate) fn put(
    alloc: Global,
    buckets: &mut Buckets,
    scope: &Scope,
    id: String,
    policy: Policy,
) -> Result<(), NoMemory>
    ensures ok { OnOk result (IsSetAtKey (index_key scope.now) (string_bytes id) (Some policy) buckets.old
        buckets.new) }
    ensures err { OnErr result (AreSameBuckets buckets.old buckets.new) }
{
    match key_of(scope) {
        ScopeKey::Always => {
            buckets.always.insert(id, policy)?;
            Ok(())
        }
        ScopeKey::Principal(uid) => put_under(alloc, &mut buckets.principals, uid, id, policy),
        ScopeKey::Resource(uid) => put_under(alloc, &mut buckets.resources, uid, id, policy),
    }
}

/// Removes the policy of an id from the bucket of a scope's key. Does not allocate.
pub(crate) fn take(buckets: &mut Buckets, scope: &Scope, id: &str)
    ensures { IsSetAtKey (index_key scope.now) id.now None buckets.old buckets.new }
{
    match key_of(scope) {
        ScopeKey::Always => {
            buckets.always.remove(id);
        }
        ScopeKey::Principal(uid) => take_under(&mut buckets.principals, uid, id),
        ScopeKey::Resource(uid) => take_under(&mut buckets.resources, uid, id),
    }
}
