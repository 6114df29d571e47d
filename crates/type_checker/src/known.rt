//! Operations on known and gained capabilities.
ghost use Rattle.std.specs.Prelude.{◌≡◌, ◌↔◌, ◌∷◌, [], ◌++◌, IsTrue, IfOk, Contains};
ghost use Rattle.typing.specs.Gained.{CapabilityList, InBoth};
ghost use Rattle.type_capabilities.specs.CapabilityList.{capability_of, capabilities};

use grammar_core::Expr;
use plain::NoMemory;
use std::alloc::Global;
use type_capabilities::{Capabilities, Capability};

/// Returns whether the capability for `whole.name` is known.
pub(crate) fn knows<'a>(known: &Capabilities<'a>, whole: &'a Expr, name: &'a str) -> bool
    ensures { IsTrue result ↔ Contains known.now (whole.entry.now, name.entry.now) }
{
    known.knows(&Capability { whole, name })
}

/// Appends the capability `pair` to `both` if it is in `right`.
fn keep<'a>(
    both: &mut Vec<Capability<'a>>,
    pair: Capability<'a>,
    right: &Capabilities<'a>,
) -> Result<(), NoMemory>
    ensures { (L : CapabilityList) → InBoth L right.now (capabilities both.old.items)
        → IfOk result (λ _. InBoth (L ++ capability_of pair.entry ∷ []) right.now (capabilities both.new.items)) }
{
    if !right.knows(&pair) {
        return Ok(());
    }
    both.push(pair)?;
    Ok(())
}

/// Returns the capabilities of `these` that are known, in their order.
fn known_among<'a>(
    alloc: Global,
    these: &[Capability<'a>],
    known: &Capabilities<'a>,
) -> Result<Vec<Capability<'a>>, NoMemory>
    ensures { IfOk result (λ both. InBoth (capabilities these.now) known.now (capabilities both.items)) }
{
    let mut both = Vec::new(alloc);
    for pair in these {
        keep(&mut both, *pair, known)?;
    }
    Ok(both)
}

/// Creates the stack of these capabilities, in their order.
pub(crate) fn stacked<'a>(
    alloc: Global,
    these: &[Capability<'a>],
) -> Result<Capabilities<'a>, NoMemory>
    ensures { IfOk result (λ known. known ≡ capabilities these.now) }
{
    let mut known = Capabilities::new(alloc);
    known.push_all(these)?;
    Ok(known)
}

/// Returns the capabilities of `left` that are in `right` too. Makes `right` a stack, which has fast look-ups.
pub(crate) fn in_both<'a>(
    alloc: Global,
    left: &[Capability<'a>],
    right: &[Capability<'a>],
) -> Result<Vec<Capability<'a>>, NoMemory>
    ensures { IfOk result (λ both. InBoth (capabilities left.now) (capabilities right.now) (capabilities both.items)) }
{
    let known = stacked(alloc, right)?;
    known_among(alloc, left, &known)
}

/// Returns the capabilities of `left` that are in `right` too.
pub(crate) fn in_both_lists<'a>(
    alloc: Global,
    left: &Vec<Capability<'a>>,
    right: &Vec<Capability<'a>>,
) -> Result<Vec<Capability<'a>>, NoMemory>
    ensures { IfOk result
        (λ both. InBoth (capabilities left.now.items) (capabilities right.now.items) (capabilities both.items)) }
{
    in_both(alloc, left.as_slice(), right.as_slice())
}

/// Pushes gained capabilities onto the known ones.
pub(crate) fn know_too<'a>(
    known: &mut Capabilities<'a>,
    gains: &Vec<Capability<'a>>,
) -> Result<(), NoMemory>
    ensures { IfOk result (λ _. known.new ≡ known.old ++ capabilities gains.now.items) }
{
    known.push_all(gains.as_slice())?;
    Ok(())
}

/// Appends gained capabilities to those gained before.
pub(crate) fn gain_too<'a>(
    gains: &mut Vec<Capability<'a>>,
    own: &Vec<Capability<'a>>,
) -> Result<(), NoMemory>
    ensures { IfOk result (λ _. gains.new.items ≡ gains.old.items ++ own.now.items) }
{
    gains.extend_from_slice(own.as_slice())?;
    Ok(())
}
