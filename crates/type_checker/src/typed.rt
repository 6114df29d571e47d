//! The types of expressions with the gained capabilities, and the steps that form such types.
ghost use Rattle.std.specs.Prelude.{◌≡◌, ◌↔◌, ◌++◌, ◌∷◌, [], IsTrue, Ok, Err, OnOk};
ghost use Rattle.typing.specs.Types as types;
ghost use Rattle.typing.specs.Rows.{MayBeTrue};
ghost use Rattle.type_checker.specs.Views.{boolean_view};
ghost use Rattle.type_checker.specs.inner.Judged.{IsRow, AddsGained, IsBranch};

use crate::known::gain_too;
use crate::static_type::{BooleanType, StaticType};
use plain::NoMemory;
use std::alloc::Global;
use type_capabilities::Capability;
use typing::TypeFault;

/// The type of an expression, and the capabilities that it gains.
#[derive(Drop)]
pub struct Typed<'a> {
    /// The type of the expression.
    pub kind: StaticType<'a>,
    /// The capabilities that are known if the expression is true.
    pub gains: Vec<Capability<'a>>,
}

impl<'a> Typed<'a> {
    /// Appends the type to `types`, and the gained capabilities to `known`.
    ///
    /// # Errors
    ///
    /// - `NoMemory`: an allocation failed. `types` may then already have the type.
    pub fn add_to(
        self,
        types: &mut Vec<StaticType<'a>>,
        known: &mut Vec<Capability<'a>>,
    ) -> Result<(), NoMemory>
        ensures { OnOk result ((types.new.items ≡ types.old.items ++ self.entry.kind ∷ [])
            × (known.new.items ≡ known.old.items ++ self.entry.gains.items)) }
    {
        let Typed { kind, gains } = self;
        types.push(kind)?;
        known.extend_from_slice(gains.as_slice())
    }
}

/// The judgement on an `if` up to its `then`.
#[derive(Drop)]
pub(crate) enum Then<'a> {
    /// The test is False: only `else` is typed.
    Skipped,
    /// The test is True: only `then` is typed. The capabilities are those of the test and of `then`.
    Only(Typed<'a>),
    /// The test is Bool: both branches are typed. The capabilities are those of the test and of `then`.
    Both(Typed<'a>),
}

/// Returns the type of an expression that is known to give `truth`.
pub(crate) fn truth_type(truth: bool) -> BooleanType
    ensures { boolean_view result ≡ types.truth_type truth }
{
    if truth {
        BooleanType::True
    } else {
        BooleanType::False
    }
}

/// Returns whether the right side of `&&` is typed: whether the left side, of the type `left`, may be true.
pub(crate) fn is_right_checked(left: BooleanType) -> bool
    ensures { IsTrue result ↔ MayBeTrue (boolean_view left) }
{
    left.may_be_true()
}

/// Returns a type without gained capabilities.
pub(crate) fn plain<'a>(alloc: Global, kind: StaticType<'a>) -> Typed<'a>
    ensures kind { result.kind ≡ kind.entry }
    ensures gains { result.gains.items ≡ [] }
{
    Typed {
        kind,
        gains: Vec::new(alloc),
    }
}

/// Returns the type in `row` without gained capabilities, or the error in `row`.
pub(crate) fn typed_row<'a>(
    alloc: Global,
    row: Result<StaticType<'a>, TypeFault>,
) -> Result<Typed<'a>, TypeFault>
    ensures { IsRow row.entry result }
{
    match row {
        Ok(kind) => Ok(plain(alloc, kind)),
        Err(fault) => Err(fault),
    }
}

/// Returns the judgement `typed` with the capabilities `gains` in front of its own.
pub(crate) fn gained_too<'a>(
    gains: Vec<Capability<'a>>,
    typed: Result<Typed<'a>, TypeFault>,
) -> Result<Typed<'a>, TypeFault>
    ensures { AddsGained gains.entry.items typed.entry result }
{
    let Typed { kind, gains: own } = typed?;
    let mut gains = gains;
    gain_too(&mut gains, &own)?;
    Ok(Typed { kind, gains })
}

/// Returns the type in `typed` as that of `then`, the only branch that is typed, or the error in `typed`.
pub(crate) fn only<'a>(typed: Result<Typed<'a>, TypeFault>) -> Result<Then<'a>, TypeFault>
    ensures { IsBranch (λ t. Then.Only t) typed.entry result }
{
    match typed {
        Ok(typed) => Ok(Then::Only(typed)),
        Err(fault) => Err(fault),
    }
}

/// Returns the type in `typed` as that of `then`, the first of two branches that are typed, or the error in `typed`.
pub(crate) fn both<'a>(typed: Result<Typed<'a>, TypeFault>) -> Result<Then<'a>, TypeFault>
    ensures { IsBranch (λ t. Then.Both t) typed.entry result }
{
    match typed {
        Ok(typed) => Ok(Then::Both(typed)),
        Err(fault) => Err(fault),
    }
}
