// Values of plain expressions that are compared (C17 6.5.3.3p5, 6.5.9p6, 6.8.4.1p2): numbers, and pointers that are null or point into
// a live instance.
ghost use Rattle.std.specs.Ordering.{int_eq};
ghost use Rattle.std.specs.Prelude.{◌≡◌, pos, not, IfSome, if◌then◌else◌};
ghost use Rattle.pv_types.specs.Ty.{Ty};
ghost use Rattle.pv_typed.specs.declared.nodes.Typed.{Typed as Row};
ghost use Rattle.pv_typed.specs.NodeTrees.{IsExpression};
ghost use Rattle.pv_world.specs.Worths.{pointer, truth_int};
ghost use Rattle.pv_eval.specs.Operations.{Equals, Negates, Tests};
ghost use Rattle.pv_eval.specs.Plainly.{GivesAt, GivesWithBoth, IsLooked, found_worth, pointer_at};

use crate::plain::{Found, Spot};
use crate::plain_conversions::converted_value;
use crate::plain_reads::is_live;
use crate::values::unequal;
use pv_num::BinOp;
use pv_tree::NodeId;
use pv_typed::TypedUnit;
use pv_world::World;

/// 1 or 0.
fn truth(t: bool) -> Found
    ensures { found_worth result ≡ truth_int t }
{
    if t {
        Found::Number(1)
    } else {
        Found::Number(0)
    }
}

/// The address of a place in a live instance.
fn live_address(world: &World, p: Spot) -> Option<u64>
    ensures { IfSome result (λ a. IsLooked world.now.memory.table (pointer (pointer_at p)) a) }
{
    if is_live(world, p.inst) {
        Some(p.address)
    } else {
        None
    }
}

/// The address of a pointer that may be looked at.
fn looked_at(world: &World, v: Found) -> Option<u64>
    ensures { IfSome result (λ a. IsLooked world.now.memory.table (found_worth v) a) }
{
    match v {
        Found::Number(_) => None,
        Found::Null => Some(0),
        Found::Place(p) => live_address(world, p),
    }
}

/// Whether two are the same, or whether they are not.
fn sameness(negated: bool, same: bool) -> bool
    ensures { result ≡ (if negated then not same else same) }
{
    if negated { !same } else { same }
}

/// Whether two pointers are equal, or unequal.
fn compared(world: &World, negated: bool, v: Found, x: Found) -> Option<Found>
    ensures { IfSome result (λ z. GivesAt world.now (λ b. Equals negated (found_worth v) (found_worth x)) (found_worth z)) }
{
    let left = looked_at(world, v)?;
    let right = looked_at(world, x)?;
    Some(truth(sameness(negated, left == right)))
}

/// The operator of a node on two pointers, each converted where that is implied.
pub(crate) fn equality(
    unit: &TypedUnit,
    world: &World,
    op: BinOp,
    a: NodeId,
    d: NodeId,
    first: Found,
    second: Found,
) -> Option<Found>
    requires left { IsExpression unit.now a }
    requires right { IsExpression unit.now d }
    ensures { (t : Ty) → IfSome result (λ v. GivesWithBoth unit.now world.now t (Row.PointerEquality op a d) (found_worth first) (found_worth second) (found_worth v)) }
{
    let v = converted_value(unit, a, first)?;
    let x = converted_value(unit, d, second)?;
    compared(world, unequal(op), v, x)
}

/// Whether a pointer is null, as `!` gives it.
fn is_null(world: &World, v: Found) -> Option<Found>
    ensures { IfSome result (λ z. GivesAt world.now (λ b. Negates (found_worth v)) (found_worth z)) }
{
    let address = looked_at(world, v)?;
    Some(truth(address == 0))
}

/// Whether a number is 0.
pub(crate) fn is_zero(x: i64) -> bool
    ensures { result ≡ int_eq x (pos 0) }
{
    x == 0
}

/// Whether a value is 0 or null, as `!` gives it.
pub(crate) fn negated(world: &World, first: Found) -> Option<Found>
    ensures { IfSome result (λ v. GivesAt world.now (λ b. Negates (found_worth first)) (found_worth v)) }
{
    match first {
        Found::Number(x) => Some(truth(is_zero(x))),
        Found::Place(_) => is_null(world, first),
        Found::Null => is_null(world, first),
    }
}

/// Whether a pointer is not null, as a controlling expression asks.
fn is_set(world: &World, v: Found) -> Option<bool>
    ensures { IfSome result (λ t. GivesAt world.now (λ b. Tests (found_worth v)) (truth_int t)) }
{
    let address = looked_at(world, v)?;
    Some(address != 0)
}

/// Whether a value is neither 0 nor null, as a controlling expression asks (C17 6.8.4.1p2).
pub(crate) fn is_true(world: &World, v: Found) -> Option<bool>
    ensures { IfSome result (λ t. GivesAt world.now (λ b. Tests (found_worth v)) (truth_int t)) }
{
    match v {
        Found::Number(x) => Some(!is_zero(x)),
        Found::Place(_) => is_set(world, v),
        Found::Null => is_set(world, v),
    }
}
