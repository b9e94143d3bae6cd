// Plain lvalues that are read and written back (C17 6.5.2.4, 6.5.3.1, 6.5.16.2), as full expressions.
ghost use Rattle.std.specs.Prelude.{◌≡◌, IfSome, IfNone, if◌then◌else◌};
ghost use Rattle.pv_typed.specs.declared.nodes.Typed.{Typed as Row};
ghost use Rattle.pv_typed.specs.Known.{AreKnown};
ghost use Rattle.pv_typed.specs.Nodes.{form_in};
ghost use Rattle.pv_typed.specs.TypedTree.{TypedTree, form_of, type_of};
ghost use Rattle.pv_typed.specs.Tables.{nodes};
ghost use Rattle.pv_typed.specs.NodeTrees.{expression_at, IsExpression};
ghost use Rattle.pv_world.specs.Worlds.{Worth};
ghost use Rattle.pv_world.specs.declared.got.Shape.{Shape as Form};
ghost use Rattle.pv_eval.specs.TypeForms.{kind_of, shape_of};
ghost use Rattle.pv_eval.specs.Steps.{is_after};
ghost use Rattle.pv_eval.specs.declared.codes.Code.{Code as Known};
ghost use Rattle.pv_eval.specs.Codes.{IsCode, AreCodes};
ghost use Rattle.pv_eval.specs.Plainly.{Performs, IsConverted, StepsTo, CombinesTo, found_worth};

use crate::codes::{IntegerPlace, Operand};
use crate::compound::{after, down, operator};
use crate::plain::Found;
use crate::plain_coded::{rounded, value};
use crate::plain_conversions::converted_value;
use crate::plain_numbers::{kept, operated};
use crate::plain_places::{element, pointed_size};
use crate::plain_reads::{loaded_integer, read_at};
use crate::plain_stores::{assigned, stored_integer};
use crate::plan::Plan;
use crate::types::{kind, shape};
use crate::values::minus;
use pv_num::{BinOp, IntKind, promoted};
use pv_tree::NodeId;
use pv_typed::{IncrementOperator, Sign, TypedUnit};
use pv_world::{Shape, World};
use std::alloc::Global;

/// 1 added to a value of an integer type of this kind, or taken off it (C17 6.5.2.4p2, 6.5.3.1p2).
fn stepped_integer(
    unit: &TypedUnit,
    world: &World,
    n: NodeId,
    o: IncrementOperator,
    kind: IntKind,
    v: Found,
) -> Option<Found>
    requires { shape_of (type_of (expression_at unit.now n)) ≡ Form.Int kind }
    ensures { IfSome result (λ z. StepsTo unit.now world.now (type_of (expression_at unit.now n)) o (found_worth v) (found_worth z)) }
{
    let sum = operated(operator(o), promoted(kind), v, Found::Number(1))?;
    kept(kind, sum)
}

/// 1 added to a value of the node's type, or taken off it (C17 6.5.2.4p2, 6.5.3.1p2).
fn stepped(
    unit: &TypedUnit,
    world: &World,
    n: NodeId,
    o: IncrementOperator,
    v: Found,
) -> Option<Found>
    requires { IsExpression unit.now n }
    ensures { IfSome result (λ z. StepsTo unit.now world.now (type_of (expression_at unit.now n)) o (found_worth v) (found_worth z)) }
{
    let t = unit.type_of(n);
    match shape(unit.types(), t) {
        Shape::Int(kind) => stepped_integer(unit, world, n, o, kind, v),
        Shape::Pointer => {
            let size = pointed_size(unit, t)?;
            element(world, down(o), size, v, Found::Number(1))
        }
        Shape::Whole => None,
    }
}

/// What `++` or `--` gives, by the value before and the one behind (C17 6.5.2.4p2, p3, 6.5.3.1p2).
fn chosen(o: IncrementOperator, v: Found, z: Found) -> Found
    ensures { found_worth result ≡ (if is_after o then found_worth v else found_worth z) }
{
    if after(o) { v } else { z }
}

/// `++` and `--` of a plain lvalue, as a full expression; `None` where nothing is stored: then nothing has changed.
pub(crate) fn increment(
    alloc: Global,
    unit: &TypedUnit,
    plan: &Plan,
    world: &mut World,
    n: NodeId,
    o: IncrementOperator,
    a: NodeId,
) -> Option<Found>
    requires codes { AreCodes unit.now plan.now }
    requires known { AreKnown unit.now }
    requires there { IsExpression unit.now n }
    requires left { IsExpression unit.now a }
    requires form { form_of (expression_at unit.now n) ≡ form_in unit.now.lists (nodes unit.now) (Row.Increment o a) }
    ensures some { IfSome result (λ v. Performs unit.now world.old world.new (expression_at unit.now n) (found_worth v)) }
    ensures none { IfNone result (world.new ≡ world.old) }
{
    let place = value(alloc, unit, plan, world, a)?;
    let v = read_at(alloc, unit, world, a, place)?;
    let z = stepped(unit, world, n, o, v)?;
    if assigned(alloc, unit, world, a, place, z) {
        Some(chosen(o, v, z))
    } else {
        None
    }
}

/// The operator of a compound assignment on what was read, converted to the operator's kind, and the value of its right operand, which
/// was; the result is converted back (C17 6.5.16.2p3).
fn combined_as(op: BinOp, at: IntKind, back: IntKind, v: Found, right: Found) -> Option<Found>
    ensures { (x : TypedTree) (second : Worth) → IsConverted x second (found_worth right) → IfSome result (λ z. CombinesTo x op at back (found_worth v) second (found_worth z)) }
{
    let left = kept(at, v)?;
    let z = operated(op, at, left, right)?;
    kept(back, z)
}

/// The operator of a compound assignment on what was read and the value of its right operand, both converted to the operator's
/// kind, and the result converted back to the kind of the node's type (C17 6.5.16.2p3).
fn combined(
    unit: &TypedUnit,
    n: NodeId,
    op: BinOp,
    at: IntKind,
    d: NodeId,
    v: Found,
    second: Found,
) -> Option<Found>
    requires there { IsExpression unit.now n }
    requires right { IsExpression unit.now d }
    ensures { IfSome result (λ z. CombinesTo (expression_at unit.now d) op at (kind_of (type_of (expression_at unit.now n))) (found_worth v) (found_worth second) (found_worth z)) }
{
    let right = converted_value(unit, d, second)?;
    combined_as(op, at, kind(unit.types(), unit.type_of(n)), v, right)
}

/// The compound assignment of a plain expression's value to a plain lvalue of an integer type, as a full expression; `None` where
/// nothing is stored: then nothing has changed.
pub(crate) fn compound_assign(
    alloc: Global,
    unit: &TypedUnit,
    plan: &Plan,
    world: &mut World,
    n: NodeId,
    op: BinOp,
    at: IntKind,
    a: NodeId,
    d: NodeId,
) -> Option<Found>
    requires codes { AreCodes unit.now plan.now }
    requires known { AreKnown unit.now }
    requires there { IsExpression unit.now n }
    requires left { IsExpression unit.now a }
    requires right { IsExpression unit.now d }
    requires form { form_of (expression_at unit.now n) ≡ form_in unit.now.lists (nodes unit.now) (Row.CompoundAssign op at a d) }
    ensures some { IfSome result (λ v. Performs unit.now world.old world.new (expression_at unit.now n) (found_worth v)) }
    ensures none { IfNone result (world.new ≡ world.old) }
{
    let place = value(alloc, unit, plan, world, a)?;
    let v = read_at(alloc, unit, world, a, place)?;
    let second = value(alloc, unit, plan, world, d)?;
    let z = combined(unit, n, op, at, d, v, second)?;
    if assigned(alloc, unit, world, a, place, z) {
        Some(z)
    } else {
        None
    }
}

/// A plain lvalue of a pointer type that is moved by a plain expression's value (C17 6.5.16.2p1), as a full expression; `None`
/// where nothing is stored: then nothing has changed.
pub(crate) fn pointer_assign(
    alloc: Global,
    unit: &TypedUnit,
    plan: &Plan,
    world: &mut World,
    n: NodeId,
    sign: Sign,
    a: NodeId,
    d: NodeId,
) -> Option<Found>
    requires codes { AreCodes unit.now plan.now }
    requires known { AreKnown unit.now }
    requires there { IsExpression unit.now n }
    requires left { IsExpression unit.now a }
    requires right { IsExpression unit.now d }
    requires form { form_of (expression_at unit.now n) ≡ form_in unit.now.lists (nodes unit.now) (Row.PointerAssign sign a d) }
    ensures some { IfSome result (λ v. Performs unit.now world.old world.new (expression_at unit.now n) (found_worth v)) }
    ensures none { IfNone result (world.new ≡ world.old) }
{
    let size = pointed_size(unit, unit.type_of(n))?;
    let place = value(alloc, unit, plan, world, a)?;
    let v = read_at(alloc, unit, world, a, place)?;
    let second = value(alloc, unit, plan, world, d)?;
    let z = element(world, minus(sign), size, v, second)?;
    if assigned(alloc, unit, world, a, place, z) {
        Some(z)
    } else {
        None
    }
}

/// `++` and `--` of an integer at a place, as `increment`, by what is known of the node.
pub(crate) fn increment_integer(
    alloc: Global,
    unit: &TypedUnit,
    plan: &Plan,
    world: &mut World,
    n: NodeId,
    x: IntegerPlace,
    o: IncrementOperator,
    back: IntKind,
) -> Option<Found>
    requires codes { AreCodes unit.now plan.now }
    requires known { AreKnown unit.now }
    requires code { IsCode unit.now n (Known.Increment x o back) }
    ensures some { IfSome result (λ v. Performs unit.now world.old world.new (expression_at unit.now n) (found_worth v)) }
    ensures none { IfNone result (world.new ≡ world.old) }
{
    let place = value(alloc, unit, plan, world, x.node)?;
    let v = loaded_integer(alloc, unit, world, x, place)?;
    let z = stepped_integer(unit, world, n, o, back, v)?;
    if stored_integer(alloc, unit, world, x, place, z) {
        Some(chosen(o, v, z))
    } else {
        None
    }
}

/// The compound assignment of an integer, as `compound_assign`, by what is known of the node.
pub(crate) fn compound_integer(
    alloc: Global,
    unit: &TypedUnit,
    plan: &Plan,
    world: &mut World,
    n: NodeId,
    x: IntegerPlace,
    right: Operand,
    op: BinOp,
    at: IntKind,
    back: IntKind,
) -> Option<Found>
    requires codes { AreCodes unit.now plan.now }
    requires known { AreKnown unit.now }
    requires code { IsCode unit.now n (Known.Compound x right op at back) }
    ensures some { IfSome result (λ v. Performs unit.now world.old world.new (expression_at unit.now n) (found_worth v)) }
    ensures none { IfNone result (world.new ≡ world.old) }
{
    let place = value(alloc, unit, plan, world, x.node)?;
    let v = loaded_integer(alloc, unit, world, x, place)?;
    let second = value(alloc, unit, plan, world, right.node)?;
    let w = rounded(right.to, second)?;
    let z = combined_as(op, at, back, v, w)?;
    if stored_integer(alloc, unit, world, x, place, z) {
        Some(z)
    } else {
        None
    }
}
