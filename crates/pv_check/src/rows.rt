//! What an expression makes of its typed operands, beside the scopes, which stay open.
ghost use Rattle.std.specs.Prelude.{◌≡◌, Bool, IfOk, OnOk, Some};
ghost use Rattle.pv_typed.specs.Known.{AreKnown};
ghost use Rattle.pv_typed.specs.Tables.{whole_unit};
ghost use Rattle.pv_typed.specs.NodeTrees.{expression_at, IsExpression};
ghost use Rattle.pv_typed.specs.Constants.{and_then};
ghost use Rattle.pv_check.specs.Arms.{after_node, OpenIf, row_of_one, row_of_two, operand_after, conditional_from};
ghost use Rattle.pv_check.specs.Assignment.{assign_of};
ghost use Rattle.pv_check.specs.Kept.{Kept, AreSmall, expression_if, env_of};
ghost use Rattle.pv_check.specs.Open.{IsOpen, Texts, IfAnswered};
ghost use Rattle.pv_check.specs.Postfix.{arrow_from, increment_of};
ghost use Rattle.pv_check.specs.Rows.{operand};
ghost use Rattle.pv_check.specs.RowParts.{subscript, member, arrow, increment, unary, binary, conditional, assignment, comma};
ghost use Rattle.pv_check.specs.Values.{value_of};

use crate::arms::{One, Two};
use crate::assignment::comma as comma_node;
use crate::conditional::conditional as conditional_node;
use crate::members::{arrow_from, member_from};
use crate::modifiable::is_modifiable;
use crate::operators::{assign, binary as binary_node, unary as unary_node};
use crate::postfix::{increment_if, subscript as subscript_node};
use crate::scopes::Scopes;
use crate::values::value;
use pv_tree::{AssignOperator, BinaryOperator, NodeId, UnaryOperator};
use pv_typed::{IncrementOperator, TypedUnit};
use pv_types::NoMemory;

/// `a -> name` (C17 6.5.2.3p4).
fn arrow_node(
    into: &mut TypedUnit,
    line: u32,
    name: u32,
    a: NodeId,
) -> Result<Option<NodeId>, NoMemory>
    requires known { AreKnown into.old }
    requires small { AreSmall into.old.known }
    requires node { IsExpression into.old a }
    ensures node { IfAnswered result (IsExpression into.new) }
    ensures typed { IfOk result (λ r. expression_if into.new r ≡ and_then (value_of (env_of into.old) (expression_at into.old a)) (arrow_from (whole_unit into.old).completed line name)) }
    ensures kept { OnOk result (Kept into.old into.new) }
{
    let Ok(found) = value(into, a) else {
        return Err(NoMemory);
    };
    let Some(x) = found else {
        return Ok(None);
    };
    let Ok(r) = arrow_from(into, line, name, x) else {
        return Err(NoMemory);
    };
    Ok(r)
}

/// `++` and `--` (C17 6.5.2.4, 6.5.3.1).
fn increment_node(
    into: &mut TypedUnit,
    line: u32,
    op: IncrementOperator,
    a: NodeId,
) -> Result<Option<NodeId>, NoMemory>
    requires known { AreKnown into.old }
    requires node { IsExpression into.old a }
    ensures node { IfAnswered result (IsExpression into.new) }
    ensures typed { IfOk result (λ r. expression_if into.new r ≡ increment_of (env_of into.old) line op (expression_at into.old a)) }
    ensures kept { OnOk result (Kept into.old into.new) }
{
    let modifiable = is_modifiable(into, a);
    let r = increment_if(into, line, op, a, modifiable)?;
    Ok(r)
}

/// Assignments (C17 6.5.16p2).
fn assign_node(
    into: &mut TypedUnit,
    line: u32,
    op: AssignOperator,
    a: NodeId,
    b: NodeId,
) -> Result<Option<NodeId>, NoMemory>
    requires known { AreKnown into.old }
    requires left { IsExpression into.old a }
    requires right { IsExpression into.old b }
    ensures node { IfAnswered result (IsExpression into.new) }
    ensures typed { IfOk result (λ r. expression_if into.new r ≡ assign_of (env_of into.old) line op (expression_at into.old a) (expression_at into.old b)) }
    ensures kept { OnOk result (Kept into.old into.new) }
{
    let modifiable = is_modifiable(into, a);
    if !modifiable {
        return Ok(None);
    }
    let r = assign(into, line, op, a, b)?;
    Ok(r)
}

/// `a . name` (C17 6.5.2.3p3).
fn member(
    s: &Scopes,
    line: u32,
    name: u32,
    a: NodeId,
    into: &mut TypedUnit,
) -> Result<Option<NodeId>, NoMemory>
    requires open { IsOpen into.old s.now }
    requires node { IsExpression into.old a }
    ensures open { IfOk result (λ r. OpenIf into.new s.now r) }
    ensures typed { (texts : Texts) (hidden : Bool) → IfOk result (λ r. after_node texts hidden s.now into.new r ≡ member line name (operand_after texts hidden s.now into.old a)) }
    ensures kept { OnOk result (Kept into.old into.new) }
{
    let r = member_from(into, line, name, a)?;
    Ok(r)
}

/// `a -> name` (C17 6.5.2.3p4).
fn arrow(
    s: &Scopes,
    line: u32,
    name: u32,
    a: NodeId,
    into: &mut TypedUnit,
) -> Result<Option<NodeId>, NoMemory>
    requires open { IsOpen into.old s.now }
    requires node { IsExpression into.old a }
    ensures open { IfOk result (λ r. OpenIf into.new s.now r) }
    ensures typed { (texts : Texts) (hidden : Bool) → IfOk result (λ r. after_node texts hidden s.now into.new r ≡ and_then (operand (Some (operand_after texts hidden s.now into.old a))) (arrow line name)) }
    ensures kept { OnOk result (Kept into.old into.new) }
{
    let r = arrow_node(into, line, name, a)?;
    Ok(r)
}

/// `++` and `--` (C17 6.5.2.4, 6.5.3.1).
fn increment(
    s: &Scopes,
    line: u32,
    op: IncrementOperator,
    a: NodeId,
    into: &mut TypedUnit,
) -> Result<Option<NodeId>, NoMemory>
    requires open { IsOpen into.old s.now }
    requires node { IsExpression into.old a }
    ensures open { IfOk result (λ r. OpenIf into.new s.now r) }
    ensures typed { (texts : Texts) (hidden : Bool) → IfOk result (λ r. after_node texts hidden s.now into.new r ≡ increment line op (operand_after texts hidden s.now into.old a)) }
    ensures kept { OnOk result (Kept into.old into.new) }
{
    let r = increment_node(into, line, op, a)?;
    Ok(r)
}

/// A unary operator (C17 6.5.3).
fn unary(
    s: &Scopes,
    line: u32,
    op: UnaryOperator,
    a: NodeId,
    into: &mut TypedUnit,
) -> Result<Option<NodeId>, NoMemory>
    requires open { IsOpen into.old s.now }
    requires node { IsExpression into.old a }
    ensures open { IfOk result (λ r. OpenIf into.new s.now r) }
    ensures typed { (texts : Texts) (hidden : Bool) → IfOk result (λ r. after_node texts hidden s.now into.new r ≡ unary line op (operand_after texts hidden s.now into.old a)) }
    ensures kept { OnOk result (Kept into.old into.new) }
{
    let r = unary_node(into, line, op, a)?;
    Ok(r)
}

/// What is made of one operand.
pub(crate) fn one(
    s: &Scopes,
    what: One,
    line: u32,
    a: NodeId,
    into: &mut TypedUnit,
) -> Result<Option<NodeId>, NoMemory>
    requires open { IsOpen into.old s.now }
    requires node { IsExpression into.old a }
    ensures open { IfOk result (λ r. OpenIf into.new s.now r) }
    ensures typed { (texts : Texts) (hidden : Bool) → IfOk result (λ r. after_node texts hidden s.now into.new r ≡ row_of_one what line (operand_after texts hidden s.now into.old a)) }
    ensures kept { OnOk result (Kept into.old into.new) }
{
    match what {
        One::Member(name) => member(s, line, name, a, into),
        One::Arrow(name) => arrow(s, line, name, a, into),
        One::Increment(op) => increment(s, line, op, a, into),
        One::Unary(op) => unary(s, line, op, a, into),
    }
}

/// `a [ b ]` (C17 6.5.2.1).
fn subscript(
    s: &Scopes,
    line: u32,
    a: NodeId,
    b: NodeId,
    into: &mut TypedUnit,
) -> Result<Option<NodeId>, NoMemory>
    requires open { IsOpen into.old s.now }
    requires left { IsExpression into.old a }
    requires right { IsExpression into.old b }
    ensures open { IfOk result (λ r. OpenIf into.new s.now r) }
    ensures typed { (texts : Texts) (hidden : Bool) → IfOk result (λ r. after_node texts hidden s.now into.new r ≡ subscript line (expression_at into.old a) (operand_after texts hidden s.now into.old b)) }
    ensures kept { OnOk result (Kept into.old into.new) }
{
    let r = subscript_node(into, line, a, b)?;
    Ok(r)
}

/// A binary operator (C17 6.5.5 to 6.5.14).
fn binary(
    s: &Scopes,
    line: u32,
    op: BinaryOperator,
    a: NodeId,
    b: NodeId,
    into: &mut TypedUnit,
) -> Result<Option<NodeId>, NoMemory>
    requires open { IsOpen into.old s.now }
    requires left { IsExpression into.old a }
    requires right { IsExpression into.old b }
    ensures open { IfOk result (λ r. OpenIf into.new s.now r) }
    ensures typed { (texts : Texts) (hidden : Bool) → IfOk result (λ r. after_node texts hidden s.now into.new r ≡ binary line op (expression_at into.old a) (operand_after texts hidden s.now into.old b)) }
    ensures kept { OnOk result (Kept into.old into.new) }
{
    let r = binary_node(into, line, op, a, b)?;
    Ok(r)
}

/// An assignment (C17 6.5.16).
fn assignment(
    s: &Scopes,
    line: u32,
    op: AssignOperator,
    a: NodeId,
    b: NodeId,
    into: &mut TypedUnit,
) -> Result<Option<NodeId>, NoMemory>
    requires open { IsOpen into.old s.now }
    requires left { IsExpression into.old a }
    requires right { IsExpression into.old b }
    ensures open { IfOk result (λ r. OpenIf into.new s.now r) }
    ensures typed { (texts : Texts) (hidden : Bool) → IfOk result (λ r. after_node texts hidden s.now into.new r ≡ assignment line op (expression_at into.old a) (operand_after texts hidden s.now into.old b)) }
    ensures kept { OnOk result (Kept into.old into.new) }
{
    let r = assign_node(into, line, op, a, b)?;
    Ok(r)
}

/// `a , b` (C17 6.5.17).
fn comma(
    s: &Scopes,
    line: u32,
    a: NodeId,
    b: NodeId,
    into: &mut TypedUnit,
) -> Result<Option<NodeId>, NoMemory>
    requires open { IsOpen into.old s.now }
    requires left { IsExpression into.old a }
    requires right { IsExpression into.old b }
    ensures open { IfOk result (λ r. OpenIf into.new s.now r) }
    ensures typed { (texts : Texts) (hidden : Bool) → IfOk result (λ r. after_node texts hidden s.now into.new r ≡ comma line (expression_at into.old a) (operand_after texts hidden s.now into.old b)) }
    ensures kept { OnOk result (Kept into.old into.new) }
{
    let r = comma_node(into, line, a, b)?;
    Ok(r)
}

/// What is made of two operands.
pub(crate) fn two(
    s: &Scopes,
    what: Two,
    line: u32,
    a: NodeId,
    b: NodeId,
    into: &mut TypedUnit,
) -> Result<Option<NodeId>, NoMemory>
    requires open { IsOpen into.old s.now }
    requires left { IsExpression into.old a }
    requires right { IsExpression into.old b }
    ensures open { IfOk result (λ r. OpenIf into.new s.now r) }
    ensures typed { (texts : Texts) (hidden : Bool) → IfOk result (λ r. after_node texts hidden s.now into.new r ≡ row_of_two what line (expression_at into.old a) (operand_after texts hidden s.now into.old b)) }
    ensures kept { OnOk result (Kept into.old into.new) }
{
    match what {
        Two::Index => subscript(s, line, a, b, into),
        Two::Binary(op) => binary(s, line, op, a, b, into),
        Two::Assign(op) => assignment(s, line, op, a, b, into),
        Two::Comma => comma(s, line, a, b, into),
    }
}

/// What is made of three operands (C17 6.5.15).
pub(crate) fn three(
    s: &Scopes,
    line: u32,
    a: NodeId,
    b: NodeId,
    c: NodeId,
    into: &mut TypedUnit,
) -> Result<Option<NodeId>, NoMemory>
    requires open { IsOpen into.old s.now }
    requires first { IsExpression into.old a }
    requires second { IsExpression into.old b }
    requires third { IsExpression into.old c }
    ensures open { IfOk result (λ r. OpenIf into.new s.now r) }
    ensures typed { (texts : Texts) (hidden : Bool) → IfOk result (λ r. after_node texts hidden s.now into.new r ≡ conditional_from into.old line a b (operand_after texts hidden s.now into.old c)) }
    ensures kept { OnOk result (Kept into.old into.new) }
{
    let r = conditional_node(s.allocator(), into, line, a, b, c)?;
    Ok(r)
}
