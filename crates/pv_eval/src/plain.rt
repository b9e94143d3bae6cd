// Nodes of plain expressions (C17 6.5): what one gives from a world, where its operands have given values and nothing stops it.
ghost use Rattle.std.specs.Prelude.{IfSome};
ghost use Rattle.pv_typed.specs.TypedTree.{type_of};
ghost use Rattle.pv_typed.specs.Formed.{NamesIn};
ghost use Rattle.pv_typed.specs.Known.{AreKnown};
ghost use Rattle.pv_typed.specs.Children.{HasOperands};
ghost use Rattle.pv_typed.specs.NodeTrees.{expression_at, IsExpression};
ghost use Rattle.pv_eval.specs.Plainly.{GivesAlone, GivesWith, GivesWithBoth, found_worth};

use crate::plain_comparisons::{equality, negated};
use crate::plain_conversions::cast;
use crate::plain_numbers::{arithmetic, natural, unary};
use crate::plain_places::{object, part, subscript, summed};
use crate::types::is_none;
use pv_tree::NodeId;
use pv_typed::{Typed, TypedUnit};
use pv_world::World;

/// A place in a storage instance, or one past its last byte.
#[derive(Clone, Copy)]
pub(crate) struct Spot {
    /// The number of the instance.
    pub(crate) inst: u64,
    /// The address.
    pub(crate) address: u64,
}

/// What a plain expression gives.
#[derive(Clone, Copy)]
pub(crate) enum Found {
    /// An integer.
    Number(i64),
    /// A place, which a pointer is too.
    Place(Spot),
    /// The null pointer.
    Null,
}

/// A node without operands.
pub(crate) fn alone(unit: &TypedUnit, world: &World, x: Typed) -> Option<Found>
    requires { NamesIn unit.now x }
    ensures { IfSome result (λ v. GivesAlone unit.now world.now x (found_worth v)) }
{
    match x {
        Typed::Constant(k) => Some(Found::Number(k)),
        Typed::Sizeof(k) => natural(k),
        Typed::Object(o) => object(world, o, unit.object(o).lasting),
        _ => None,
    }
}

/// A node of this type whose one operand has given a value, unless it reads (plain_coded.rt).
pub(crate) fn with_one(
    unit: &TypedUnit,
    world: &World,
    n: NodeId,
    x: Typed,
    first: Found,
) -> Option<Found>
    requires known { AreKnown unit.now }
    requires there { IsExpression unit.now n }
    requires operands { HasOperands unit.now.rows unit.now.lists n.0 x }
    ensures { IfSome result (λ v. GivesWith unit.now world.now (type_of (expression_at unit.now n)) x (found_worth first) (found_worth v)) }
{
    match x {
        Typed::ArrayPointer(_) | Typed::Convert(_) | Typed::Address(_) => Some(first),
        Typed::Indirection(_) => {
            if is_none(unit.types(), unit.type_of(n)) {
                None
            } else {
                Some(first)
            }
        }
        Typed::Member(_, offset) => part(world, first, offset),
        Typed::Arrow(_, offset) => part(world, first, offset),
        Typed::Unary(op, a) => unary(unit, op, n, a, first),
        Typed::Not(_) => negated(world, first),
        Typed::Cast(a) => cast(unit, n, a, first),
        _ => None,
    }
}

/// A node of this type whose two operands have given values.
pub(crate) fn with_both(
    unit: &TypedUnit,
    world: &World,
    n: NodeId,
    x: Typed,
    first: Found,
    second: Found,
) -> Option<Found>
    requires known { AreKnown unit.now }
    requires there { IsExpression unit.now n }
    requires operands { HasOperands unit.now.rows unit.now.lists n.0 x }
    ensures { IfSome result (λ v. GivesWithBoth unit.now world.now (type_of (expression_at unit.now n)) x (found_worth first) (found_worth second) (found_worth v)) }
{
    match x {
        Typed::Arithmetic(op, a, d) => arithmetic(unit, op, a, d, first, second),
        Typed::Subscript(a, _) => subscript(unit, world, a, first, second),
        Typed::PointerSum(sign, a, _) => summed(unit, world, n, sign, a, first, second),
        Typed::PointerEquality(op, a, d) => equality(unit, world, op, a, d, first, second),
        _ => None,
    }
}
