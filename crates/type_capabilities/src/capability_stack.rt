//! A stack of capabilities, in which a look-up finds a capability.
ghost use Rattle.std.specs.Prelude.{◌≡◌, ◌<◌, ◌↔◌, ℕ, [], ◌∷◌, ◌++◌, IsTrue, OnOk, OnErr, Contains, take, length, Some};
ghost use Rattle.std.specs.Prelude.{cond};
ghost use Rattle.std.specs.List.{slice_get};
ghost use Rattle.std.specs.Ordering.{is_eq};
ghost use Rattle.type_capabilities.specs.CapabilityList.{CapabilityValue, capability_of, capabilities, capability_cmp};
ghost use Rattle.type_capabilities.specs.Stacks.{AreFound, place_of};

use crate::capability::{Capability, is_same};
use plain::NoMemory;
use std::alloc::Global;
use std::collections::BTreeMap;
use std::marker::Model;

/// A stack of capabilities, each an expression and the name of a field. Contracts see the list of the capabilities,
/// from the bottom.
///
/// A capability is found by one look-up in an ordered map. Popped capabilities stay in memory beyond the top, so that
/// popping takes constant time, and pushing the same capabilities again takes no allocation and no look-up.
#[derive(Drop)]
pub struct Capabilities<'a> {
    /// The capabilities, followed by some that were popped.
    stack: Vec<Capability<'a>>,
    /// The number of capabilities that are not popped.
    height: usize,
    /// For each capability in `stack`, popped or not, its lowest index. Entries of other capabilities may remain.
    places: BTreeMap<Capability<'a>, usize>,
}

impl<'a> Model for Capabilities<'a> {
    ghost use Rattle.std.specs.Prelude.{◌≤◌, List, take, length};
    ghost use Rattle.type_capabilities.specs.CapabilityList.{CapabilityValue, capabilities};
    ghost use Rattle.type_capabilities.specs.Stacks.{AreFound, place_of};
    ghost use Rattle.std.specs.Coded.{codes};
    ghost use Rattle.grammar_core.specs.contracts.expr.Expr as e;

    ghost Value = { List CapabilityValue };

    ghost coded = { Prim.hlevel (codes, e.the_row.coded) };

    ghost view = { λ k. take k.height (capabilities k.stack.items) };

    ghost invariant = { λ k. (k.height ≤ length k.stack.items)
        × AreFound (capabilities k.stack.items) (λ p. place_of k.places p) };
}

/// Returns whether a capability is at an index of the stack.
fn is_capability_at(stack: &[Capability<'_>], at: usize, capability: &Capability<'_>) -> bool
    ensures { IsTrue result ↔ (slice_get (capabilities stack.now) at ≡ Some (capability_of capability.now)) }
{
    match stack.get(at) {
        Some(found) => is_same(found, capability),
        None => false,
    }
}

/// Returns whether a capability is among the first `height` of the stack, given in `places` the lowest index of each
/// capability of the stack.
fn is_capability_below<'a>(
    stack: &[Capability<'a>],
    places: &BTreeMap<Capability<'a>, usize>,
    capability: &Capability<'a>,
    height: usize,
) -> bool
    ensures { AreFound (capabilities stack.now) (λ p. place_of places.now p)
        → (IsTrue result ↔ Contains (take height (capabilities stack.now)) (capability_of capability.now)) }
{
    match places.get(capability) {
        Some(at) => *at < height && is_capability_at(stack, *at, capability),
        None => false,
    }
}

/// Records `at` as the index of a capability. After `NoMemory` nothing is recorded.
fn note<'a>(
    places: &mut BTreeMap<Capability<'a>, usize>,
    capability: Capability<'a>,
    at: usize,
) -> Result<(), NoMemory>
    ensures ok { OnOk result ((p : CapabilityValue) → place_of places.new p
        ≡ cond (is_eq (capability_cmp (capability_of capability.entry) p)) (Some at) (place_of places.old p)) }
    ensures err { OnErr result ((p : CapabilityValue) → place_of places.new p ≡ place_of places.old p) }
{
    places.insert(capability, at)?;
    Ok(())
}

/// Appends a capability that is not in the stack, and records its index. After `NoMemory` the stack is unchanged.
fn put_new<'a>(
    stack: &mut Vec<Capability<'a>>,
    places: &mut BTreeMap<Capability<'a>, usize>,
    capability: Capability<'a>,
) -> Result<(), NoMemory>
    ensures found { AreFound (capabilities stack.old.items) (λ p. place_of places.old p)
        → ¬ Contains (capabilities stack.old.items) (capability_of capability.entry)
        → AreFound (capabilities stack.new.items) (λ p. place_of places.new p) }
    ensures ok { OnOk result (stack.new.items ≡ stack.old.items ++ capability.entry ∷ []) }
    ensures err { OnErr result (stack.new.items ≡ stack.old.items) }
{
    note(places, capability, stack.len())?;
    stack.push(capability)?;
    Ok(())
}

/// Appends a capability, and records its index if it is not in the stack yet. After `NoMemory` the stack is unchanged.
fn put<'a>(
    stack: &mut Vec<Capability<'a>>,
    places: &mut BTreeMap<Capability<'a>, usize>,
    capability: Capability<'a>,
) -> Result<(), NoMemory>
    ensures found { AreFound (capabilities stack.old.items) (λ p. place_of places.old p)
        → AreFound (capabilities stack.new.items) (λ p. place_of places.new p) }
    ensures ok { OnOk result (stack.new.items ≡ stack.old.items ++ capability.entry ∷ []) }
    ensures err { OnErr result (stack.new.items ≡ stack.old.items) }
{
    if is_capability_below(stack.as_slice(), places, &capability, stack.len()) {
        stack.push(capability)?;
        return Ok(());
    }
    put_new(stack, places, capability)
}

impl<'a> Capabilities<'a> {
    /// Creates an empty stack. Does not allocate.
    pub fn new(alloc: Global) -> Capabilities<'a>
        ensures { result ≡ [] }
    {
        Capabilities {
            stack: Vec::new(alloc),
            height: 0,
            places: BTreeMap::new(alloc),
        }
    }

    /// Returns the number of capabilities.
    pub fn len(&self) -> usize
        ensures { result ≡ length self.now }
    {
        self.height
    }

    /// Returns whether a capability is in the stack. Takes O(log n) comparisons, where n is the number of capabilities
    /// that were ever pushed. Does not allocate.
    pub fn knows(&self, capability: &Capability<'a>) -> bool
        ensures { IsTrue result ↔ Contains self.now (capability_of capability.now) }
    {
        is_capability_below(self.stack.as_slice(), &self.places, capability, self.height)
    }

    /// Pushes a capability. Pushing popped capabilities again, in the same order and before any other, takes one
    /// comparison each and does not allocate.
    ///
    /// After `NoMemory` the stack is unchanged.
    pub fn push(&mut self, capability: Capability<'a>) -> Result<(), NoMemory>
        ensures ok { OnOk result (self.new ≡ self.old ++ capability_of capability.entry ∷ []) }
        ensures err { OnErr result (self.new ≡ self.old) }
    {
        if is_capability_at(self.stack.as_slice(), self.height, &capability) {
            self.height += 1;
            return Ok(());
        }
        self.stack.truncate(self.height);
        put(&mut self.stack, &mut self.places, capability)?;
        self.height += 1;
        Ok(())
    }

    /// Pushes these capabilities, in order. After `NoMemory` the first n of them are pushed, where n is less than their
    /// number.
    pub fn push_all(&mut self, these: &[Capability<'a>]) -> Result<(), NoMemory>
        ensures ok { OnOk result (self.new ≡ self.old ++ capabilities these.now) }
        ensures err { OnErr result
            ((n : ℕ) × (n < length these.now) × (self.new ≡ self.old ++ capabilities (take n these.now))) }
    {
        for capability in these {
            self.push(*capability)?;
        }
        Ok(())
    }

    /// Pops all capabilities but the first `height`, in constant time. No-op if there are no more than `height`.
    pub fn truncate_to(&mut self, height: usize)
        ensures { self.new ≡ take height self.old }
    {
        if height < self.height {
            self.height = height;
        }
    }
}
