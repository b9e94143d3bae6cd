// Stores of what plain expressions give (C17 6.5.16p3, 6.5.16.1).
ghost use Rattle.std.specs.Prelude.{◌≡◌, ◌≤◌, true, false, IfSome, IfNone};
ghost use Rattle.pv_types.specs.Known.{tree, env};
ghost use Rattle.pv_types.specs.Layouts.{layout_in};
ghost use Rattle.pv_typed.specs.Known.{AreKnown};
ghost use Rattle.pv_typed.specs.declared.nodes.Typed.{Typed as Row};
ghost use Rattle.pv_typed.specs.Nodes.{form_in};
ghost use Rattle.pv_typed.specs.TypedTree.{form_of, type_of};
ghost use Rattle.pv_typed.specs.Tables.{nodes};
ghost use Rattle.pv_typed.specs.NodeTrees.{expression_at, IsExpression};
ghost use Rattle.pv_world.specs.Worths.{pointer, pointer_of};
ghost use Rattle.pv_world.specs.Coming.{worth_of};
ghost use Rattle.pv_eval.specs.TypeForms.{shape_of};
ghost use Rattle.pv_eval.specs.Sizes.{IsComplete};
ghost use Rattle.pv_eval.specs.declared.codes.Code.{Code as Known};
ghost use Rattle.pv_eval.specs.Codes.{IsCode, IsIntegerPlace, IsPointerPlace, AreCodes};
ghost use Rattle.pv_eval.specs.Plainly.{Performs, StoresAt, found_worth, pointer_at};
ghost use Rattle.pv_eval.specs.Designated.{IsDesignated};

use crate::codes::{IntegerPlace, Operand, PointerPlace};
use crate::members::Designated;
use crate::permission::permits_own_access;
use crate::plain::{Found, Spot};
use crate::plain_coded::{rounded, value};
use crate::plain_conversions::converted_value;
use crate::plain_reads::reached;
use crate::plan::Plan;
use crate::types::{AccessedType, accessed, accessed_integer, accessed_pointer, number};
use pv_object::{Pointer, Value};
use pv_prov::Prov;
use pv_tree::NodeId;
use pv_typed::TypedUnit;
use pv_world::{Got, World};
use std::alloc::Global;

/// What was found, as the machine of expressions has it.
pub(crate) fn got(v: Found) -> Got
    ensures { worth_of result ≡ found_worth v }
{
    match v {
        Found::Number(n) => Got::Scalar(Value::Int(i128::from(n))),
        Found::Place(p) => Got::Scalar(Value::Pointer(Pointer {
            address: p.address,
            prov: Prov::Inst(p.inst),
        })),
        Found::Null => Got::Scalar(Value::Pointer(Pointer {
            address: 0,
            prov: Prov::Empty,
        })),
    }
}

/// The value is stored at a place, if nothing keeps it from being stored (C17 6.5.16p3); with what is known of what the lvalue designates.
fn store(
    alloc: Global,
    unit: &TypedUnit,
    world: &mut World,
    own: Designated,
    x: AccessedType,
    p: Spot,
    v: Found,
) -> bool
    requires known { AreKnown unit.now }
    requires own { IsDesignated unit.now own x.l.t }
    requires complete { IsComplete unit.now.known x.l }
    requires align { x.align ≡ (layout_in (env unit.now.known) (tree unit.now.known x.l.t.0)).align }
    requires some { 1 ≤ x.align }
    requires form { x.form ≡ shape_of (tree unit.now.known x.l.t.0) }
    ensures stored { result ≡ true → StoresAt unit.now world.old (tree unit.now.known x.l.t.0) (pointer_at p) (found_worth v) world.new }
    ensures same { result ≡ false → world.new ≡ world.old }
{
    let place = got(Found::Place(p));
    let stored = got(v);
    if !world.can_write(x.form, x.l.size, &place, &stored) {
        return false;
    }
    let Some(target) = reached(world, p, x.l.size, x.align, true) else {
        return false;
    };
    let at = target.reach;
    let Ok(true) = permits_own_access(alloc, unit, world, own, &at, target.kind, x.l, true) else {
        return false;
    };
    let number = number(unit.types(), x.l.t);
    world.store(&at, x.l.size, number, x.form, &stored);
    true
}

/// The assignment of a value to the place of the first operand, if nothing keeps it from being stored.
pub(crate) fn assigned(
    alloc: Global,
    unit: &TypedUnit,
    world: &mut World,
    a: NodeId,
    place: Found,
    v: Found,
) -> bool
    requires known { AreKnown unit.now }
    requires there { IsExpression unit.now a }
    ensures stored { result ≡ true → StoresAt unit.now world.old (type_of (expression_at unit.now a)) (pointer_of (found_worth place)) (found_worth v) world.new }
    ensures place { result ≡ true → found_worth place ≡ pointer (pointer_of (found_worth place)) }
    ensures same { result ≡ false → world.new ≡ world.old }
{
    let Found::Place(p) = place else {
        return false;
    };
    let Some(x) = accessed(unit.types(), unit.type_of(a)) else {
        return false;
    };
    store(alloc, unit, world, Designated::Unknown, x, p, v)
}

/// The assignment of a plain expression's value to a plain lvalue (C17 6.5.16.1), as a full expression; `None` where it is not
/// made: then nothing has changed.
pub(crate) fn assign(
    alloc: Global,
    unit: &TypedUnit,
    plan: &Plan,
    world: &mut World,
    n: NodeId,
    a: NodeId,
    d: NodeId,
) -> Option<Found>
    requires codes { AreCodes unit.now plan.now }
    requires known { AreKnown unit.now }
    requires left { IsExpression unit.now a }
    requires right { IsExpression unit.now d }
    requires form { form_of (expression_at unit.now n) ≡ form_in unit.now.lists (nodes unit.now) (Row.Assign a d) }
    ensures some { IfSome result (λ v. Performs unit.now world.old world.new (expression_at unit.now n) (found_worth v)) }
    ensures none { IfNone result (world.new ≡ world.old) }
{
    let place = value(alloc, unit, plan, world, a)?;
    let second = value(alloc, unit, plan, world, d)?;
    let v = converted_value(unit, d, second)?;
    if assigned(alloc, unit, world, a, place, v) {
        Some(v)
    } else {
        None
    }
}

/// The value is stored at a place of an integer type, as `assigned`, by what is known of it.
pub(crate) fn stored_integer(
    alloc: Global,
    unit: &TypedUnit,
    world: &mut World,
    x: IntegerPlace,
    place: Found,
    v: Found,
) -> bool
    requires known { AreKnown unit.now }
    requires there { IsIntegerPlace unit.now x }
    ensures stored { result ≡ true → StoresAt unit.now world.old (type_of (expression_at unit.now x.node)) (pointer_of (found_worth place)) (found_worth v) world.new }
    ensures place { result ≡ true → found_worth place ≡ pointer (pointer_of (found_worth place)) }
    ensures same { result ≡ false → world.new ≡ world.old }
{
    let Found::Place(p) = place else {
        return false;
    };
    let Some(at) = accessed_integer(unit.types(), x.t, x.kind) else {
        return false;
    };
    store(alloc, unit, world, x.own, at, p, v)
}

/// The value is stored at a place of a pointer type, as `assigned`, by what is known of it.
fn stored_pointer(
    alloc: Global,
    unit: &TypedUnit,
    world: &mut World,
    x: PointerPlace,
    place: Found,
    v: Found,
) -> bool
    requires known { AreKnown unit.now }
    requires there { IsPointerPlace unit.now x }
    ensures stored { result ≡ true → StoresAt unit.now world.old (type_of (expression_at unit.now x.node)) (pointer_of (found_worth place)) (found_worth v) world.new }
    ensures place { result ≡ true → found_worth place ≡ pointer (pointer_of (found_worth place)) }
    ensures same { result ≡ false → world.new ≡ world.old }
{
    let Found::Place(p) = place else {
        return false;
    };
    let Some(at) = accessed_pointer(unit.types(), x.t) else {
        return false;
    };
    store(alloc, unit, world, x.own, at, p, v)
}

/// The assignment of what needs no conversion to a place of a pointer type, as `assign`, by what is known of its node.
pub(crate) fn assign_pointer(
    alloc: Global,
    unit: &TypedUnit,
    plan: &Plan,
    world: &mut World,
    n: NodeId,
    x: PointerPlace,
    d: NodeId,
) -> Option<Found>
    requires codes { AreCodes unit.now plan.now }
    requires known { AreKnown unit.now }
    requires code { IsCode unit.now n (Known.AssignPointer x d) }
    ensures some { IfSome result (λ v. Performs unit.now world.old world.new (expression_at unit.now n) (found_worth v)) }
    ensures none { IfNone result (world.new ≡ world.old) }
{
    let place = value(alloc, unit, plan, world, x.node)?;
    let v = value(alloc, unit, plan, world, d)?;
    if stored_pointer(alloc, unit, world, x, place, v) {
        Some(v)
    } else {
        None
    }
}

/// The assignment of an integer, as `assign`, by what is known of its node.
pub(crate) fn assign_integer(
    alloc: Global,
    unit: &TypedUnit,
    plan: &Plan,
    world: &mut World,
    n: NodeId,
    x: IntegerPlace,
    right: Operand,
) -> Option<Found>
    requires codes { AreCodes unit.now plan.now }
    requires known { AreKnown unit.now }
    requires code { IsCode unit.now n (Known.Assign x right) }
    ensures some { IfSome result (λ v. Performs unit.now world.old world.new (expression_at unit.now n) (found_worth v)) }
    ensures none { IfNone result (world.new ≡ world.old) }
{
    let place = value(alloc, unit, plan, world, x.node)?;
    let second = value(alloc, unit, plan, world, right.node)?;
    let v = rounded(right.to, second)?;
    if stored_integer(alloc, unit, world, x, place, v) {
        Some(v)
    } else {
        None
    }
}
