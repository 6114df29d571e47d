//! Builders of expressions. The parts are moved into the expression; on an error they are dropped.
ghost use Rattle.std.specs.Prelude.{◌≡◌, IfOk};

use crate::expr::Expr;
use crate::operator::{Binary, BinaryCall, Unary, UnaryCall};
use crate::sharing::{three, twice, two};
use plain::{NoMemory, Shared, Text};
use std::alloc::Global;
use values::TypeName;

impl Expr {
    /// Returns `if test then consequent else alternative`, or `NoMemory`.
    pub fn if_then_else(
        alloc: Global,
        test: Expr,
        consequent: Expr,
        alternative: Expr,
    ) -> Result<Expr, NoMemory>
        ensures { IfOk result (λ expr. expr ≡ Expr.If test consequent alternative) }
    {
        let (test, consequent, alternative) = three(alloc, test, consequent, alternative)?;
        Ok(Expr::If(test, consequent, alternative))
    }

    /// Returns `left && right`, or `NoMemory`.
    pub fn and(alloc: Global, left: Expr, right: Expr) -> Result<Expr, NoMemory>
        ensures { IfOk result (λ expr. expr ≡ Expr.And left right) }
    {
        let (left, right) = two(alloc, left, right)?;
        Ok(Expr::And(left, right))
    }

    /// Returns `left || right`, or `NoMemory`.
    pub fn or(alloc: Global, left: Expr, right: Expr) -> Result<Expr, NoMemory>
        ensures { IfOk result (λ expr. expr ≡ Expr.Or left right) }
    {
        let (left, right) = two(alloc, left, right)?;
        Ok(Expr::Or(left, right))
    }

    /// Returns an operator with its operand, or `NoMemory`.
    pub fn unary(alloc: Global, operator: Unary, operand: Expr) -> Result<Expr, NoMemory>
        ensures { IfOk result (λ expr. expr ≡ Expr.Unary operator operand) }
    {
        Ok(Expr::Unary(operator, Shared::new(alloc, operand)?))
    }

    /// Returns an operator with its operands, or `NoMemory`.
    pub fn binary(
        alloc: Global,
        operator: Binary,
        left: Expr,
        right: Expr,
    ) -> Result<Expr, NoMemory>
        ensures { IfOk result (λ expr. expr ≡ Expr.Binary operator left right) }
    {
        let (left, right) = two(alloc, left, right)?;
        Ok(Expr::Binary(operator, left, right))
    }

    /// Returns `owner.name`, or `NoMemory`.
    pub fn field(alloc: Global, owner: Expr, name: Text) -> Result<Expr, NoMemory>
        ensures { IfOk result (λ expr. expr ≡ Expr.Field owner name) }
    {
        Ok(Expr::Field(Shared::new(alloc, owner)?, name))
    }

    /// Returns `owner has name`, or `NoMemory`.
    pub fn has(alloc: Global, owner: Expr, name: Text) -> Result<Expr, NoMemory>
        ensures { IfOk result (λ expr. expr ≡ Expr.Has owner name) }
    {
        Ok(Expr::Has(Shared::new(alloc, owner)?, name))
    }

    /// Returns a call with one operand, or `NoMemory`.
    pub fn unary_call(alloc: Global, called: UnaryCall, operand: Expr) -> Result<Expr, NoMemory>
        ensures { IfOk result (λ expr. expr ≡ Expr.UnaryCall called operand) }
    {
        Ok(Expr::UnaryCall(called, Shared::new(alloc, operand)?))
    }

    /// Returns a call with two operands, a method's receiver first, or `NoMemory`.
    pub fn binary_call(
        alloc: Global,
        called: BinaryCall,
        left: Expr,
        right: Expr,
    ) -> Result<Expr, NoMemory>
        ensures { IfOk result (λ expr. expr ≡ Expr.BinaryCall called left right) }
    {
        let (left, right) = two(alloc, left, right)?;
        Ok(Expr::BinaryCall(called, left, right))
    }

    /// Returns `left != right`, which is `!(left == right)`, or `NoMemory`.
    pub fn not_equal(alloc: Global, left: Expr, right: Expr) -> Result<Expr, NoMemory>
        ensures { IfOk result (λ expr. expr ≡ Expr.Unary Unary.Not (Expr.Binary Binary.Equal left right)) }
    {
        let equal = Expr::binary(alloc, Binary::Equal, left, right)?;
        Expr::unary(alloc, Unary::Not, equal)
    }

    /// Returns `left > right`, which is `!(left <= right)`, or `NoMemory`.
    pub fn greater(alloc: Global, left: Expr, right: Expr) -> Result<Expr, NoMemory>
        ensures { IfOk result (λ expr. expr ≡ Expr.Unary Unary.Not (Expr.Binary Binary.LessOrEqual left right)) }
    {
        let less_or_equal = Expr::binary(alloc, Binary::LessOrEqual, left, right)?;
        Expr::unary(alloc, Unary::Not, less_or_equal)
    }

    /// Returns `left >= right`, which is `!(left < right)`, or `NoMemory`.
    pub fn greater_or_equal(alloc: Global, left: Expr, right: Expr) -> Result<Expr, NoMemory>
        ensures { IfOk result (λ expr. expr ≡ Expr.Unary Unary.Not (Expr.Binary Binary.Less left right)) }
    {
        let less = Expr::binary(alloc, Binary::Less, left, right)?;
        Expr::unary(alloc, Unary::Not, less)
    }

    /// Returns `operand is type_name in ancestor`, which is `operand is type_name && operand in ancestor`, or
    /// `NoMemory`. The operand occurs twice in the expression, and is shared.
    pub fn is_in(
        alloc: Global,
        operand: Expr,
        type_name: TypeName,
        ancestor: Expr,
    ) -> Result<Expr, NoMemory>
        ensures { IfOk result (λ expr. expr ≡ Expr.And (Expr.Unary (Unary.Is type_name) operand)
            (Expr.Binary Binary.In operand ancestor)) }
    {
        let (tested, operand, ancestor) = twice(alloc, operand, ancestor)?;
        let is = Expr::Unary(Unary::Is(type_name), tested);
        let within = Expr::Binary(Binary::In, operand, ancestor);
        Expr::and(alloc, is, within)
    }
}
