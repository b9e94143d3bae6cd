// Conversions of what plain expressions give (C17 6.3), where they don't hang on the world.
ghost use Rattle.std.specs.Prelude.{Bool, IfSome};
ghost use Rattle.pv_types.specs.Known.{tree};
ghost use Rattle.pv_typed.specs.declared.nodes.Typed.{Typed as Row};
ghost use Rattle.pv_typed.specs.TypedTree.{type_of};
ghost use Rattle.pv_typed.specs.NodeTrees.{expression_at, IsExpression};
ghost use Rattle.pv_world.specs.Worlds.{World as WorldView};
ghost use Rattle.pv_world.specs.Worths.{int, pointer, null_pointer};
ghost use Rattle.pv_eval.specs.Conversions.{how_to};
ghost use Rattle.pv_eval.specs.Operations.{Converts};
ghost use Rattle.pv_eval.specs.Plainly.{AlwaysGives, GivesWith, IsConverted, found_worth};

use crate::plain::Found;
use crate::plain_numbers::rounded;
use crate::types::shape;
use pv_tree::NodeId;
use pv_typed::{Typed, TypedUnit};
use pv_types::TypeId;
use pv_world::Shape;

/// 0 as a pointer, which is null (C17 6.3.2.3p3).
fn nulled(unit: &TypedUnit, from: TypeId, to: TypeId, x: i64) -> Option<Found>
    ensures { (implied : Bool) → IfSome result (λ z. AlwaysGives (λ b. Converts (how_to b implied (tree unit.now.known from.0) (tree unit.now.known to.0)) (int x)) (found_worth z)) }
{
    let Shape::Int(_) = shape(unit.types(), from) else {
        return None;
    };
    let Shape::Pointer = shape(unit.types(), to) else {
        return None;
    };
    if x == 0 { Some(Found::Null) } else { None }
}

/// An integer that is converted to another type.
fn changed_number(unit: &TypedUnit, from: TypeId, to: TypeId, x: i64) -> Option<Found>
    ensures { (implied : Bool) → IfSome result (λ z. AlwaysGives (λ b. Converts (how_to b implied (tree unit.now.known from.0) (tree unit.now.known to.0)) (int x)) (found_worth z)) }
{
    match rounded(unit, from, to, x) {
        Some(z) => Some(Found::Number(z)),
        None => nulled(unit, from, to, x),
    }
}

/// Null as a pointer of another type (C17 6.3.2.3p4).
fn null_as(unit: &TypedUnit, from: TypeId, to: TypeId) -> Option<Found>
    ensures { (implied : Bool) → IfSome result (λ z. AlwaysGives (λ b. Converts (how_to b implied (tree unit.now.known from.0) (tree unit.now.known to.0)) (pointer null_pointer)) (found_worth z)) }
{
    let Shape::Pointer = shape(unit.types(), from) else {
        return None;
    };
    let Shape::Pointer = shape(unit.types(), to) else {
        return None;
    };
    Some(Found::Null)
}

/// A value that is converted from a type to a type.
fn changed(unit: &TypedUnit, from: TypeId, to: TypeId, v: Found) -> Option<Found>
    ensures { (implied : Bool) → IfSome result (λ z. AlwaysGives (λ b. Converts (how_to b implied (tree unit.now.known from.0) (tree unit.now.known to.0)) (found_worth v)) (found_worth z)) }
{
    match v {
        Found::Number(x) => changed_number(unit, from, to, x),
        Found::Null => null_as(unit, from, to),
        Found::Place(_) => None,
    }
}

/// The value of an operand, converted where its node is an implicit conversion.
pub(crate) fn converted_value(unit: &TypedUnit, d: NodeId, v: Found) -> Option<Found>
    requires { IsExpression unit.now d }
    ensures { IfSome result (λ z. IsConverted (expression_at unit.now d) (found_worth v) (found_worth z)) }
{
    match unit.node(d) {
        Typed::Convert(inner) => changed(unit, unit.type_of(inner), unit.type_of(d), v),
        _ => Some(v),
    }
}

/// The value of a node's one operand, converted to the node's type by a cast.
pub(crate) fn cast(unit: &TypedUnit, n: NodeId, a: NodeId, first: Found) -> Option<Found>
    requires there { IsExpression unit.now n }
    requires operand { IsExpression unit.now a }
    ensures { (w : WorldView) → IfSome result (λ v. GivesWith unit.now w (type_of (expression_at unit.now n)) (Row.Cast a) (found_worth first) (found_worth v)) }
{
    changed(unit, unit.type_of(a), unit.type_of(n), first)
}
