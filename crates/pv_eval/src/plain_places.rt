// Places that plain expressions designate, and pointers that they move (C17 6.5.1p2, 6.5.2.1, 6.5.2.3, 6.5.6p8).
ghost use Rattle.std.specs.Prelude.{◌≡◌, ◌≤◌, ◌^◌, pos, neg_ℤ, ◌≤ℤ◌, true, IfSome};
ghost use Rattle.pv_fault.specs.declared.faults.Clause.{Clause};
ghost use Rattle.pv_tree.specs.declared.nodes.NodeId.{NodeId as Number};
ghost use Rattle.pv_types.specs.Ty.{Ty};
ghost use Rattle.pv_types.specs.Known.{tree};
ghost use Rattle.pv_object.specs.OperationParts.{address_on};
ghost use Rattle.pv_typed.specs.declared.nodes.Typed.{Typed as Row};
ghost use Rattle.pv_typed.specs.TypedTree.{type_of};
ghost use Rattle.pv_typed.specs.NodeTrees.{expression_at, IsExpression};
ghost use Rattle.pv_world.specs.Worths.{pointer};
ghost use Rattle.pv_world.specs.Objects.{address_of, instance_of};
ghost use Rattle.pv_world.specs.Pointers.{distance};
ghost use Rattle.pv_types.specs.Sorts.{is_pointer};
ghost use Rattle.pv_eval.specs.Sizes.{element_in};
ghost use Rattle.pv_eval.specs.Operations.{Selects, Moves};
ghost use Rattle.pv_eval.specs.Plainly.{GivesAt, GivesWithBoth, HasMoved, found_worth, pointer_at};

use crate::plain::{Found, Spot};
use crate::plain_numbers::{is_small, number, small};
use crate::types::{element_size, pointee};
use crate::values::minus;
use pv_tree::NodeId;
use pv_typed::{Sign, TypedUnit};
use pv_types::TypeId;
use pv_world::World;

/// The place of an object in scope.
#[inline(always)]
pub(crate) fn object(world: &World, o: u32, lasting: bool) -> Option<Found>
    ensures { IfSome result (λ v. found_worth v ≡ pointer (address_of world.now (instance_of world.now o lasting))) }
{
    match world.bound_to(o, lasting) {
        Some(inst) => {
            let address = world.memory().instances().base(inst);
            Some(Found::Place(Spot { inst, address }))
        }
        None => None,
    }
}

/// An address so many bytes on.
fn sum(address: u64, by: i64) -> Option<u64>
    ensures { IfSome result (λ to. address_on address by ≡ to) }
{
    let to = i128::from(address) + i128::from(by);
    if 0 <= to && to <= 0x7fff_ffff_ffff_ffff {
        Some(to as u64)
    } else {
        None
    }
}

/// A place so many bytes on, in its instance or one past its last byte (C17 6.5.6p8).
fn shifted(world: &World, p: Spot, by: i64) -> Option<Spot>
    ensures { (c : Clause) → IfSome result (λ q. HasMoved c world.now.memory.table (pointer_at p) by (pointer_at q)) }
{
    let x = world.memory().instances().info(p.inst)?;
    let address = sum(p.address, by)?;
    if address < x.base {
        return None;
    }
    if address - x.base > x.size {
        return None;
    }
    Some(Spot {
        inst: p.inst,
        address,
    })
}

/// The member that begins at the offset from a place.
pub(crate) fn part(world: &World, place: Found, offset: u64) -> Option<Found>
    ensures { IfSome result (λ v. GivesAt world.now (λ b. Selects offset (found_worth place)) (found_worth v)) }
{
    let Found::Place(p) = place else {
        return None;
    };
    let by = small(i128::from(offset))?;
    match shifted(world, p, by) {
        Some(q) => Some(Found::Place(q)),
        None => None,
    }
}

/// How far so many elements of this size are.
fn distance(minus: bool, size: u64, n: i128) -> i128
    requires sized { size ≤ 2 ^ 32 }
    requires low { neg_ℤ (pos (2 ^ 64)) ≤ℤ n }
    requires high { n ≤ℤ pos (2 ^ 64) }
    ensures { result ≡ distance minus size n }
{
    let far = n * i128::from(size);
    if minus { -far } else { far }
}

/// A place moved by so many elements of this size.
pub(crate) fn element(
    world: &World,
    minus: bool,
    size: u64,
    place: Found,
    index: Found,
) -> Option<Found>
    requires { size ≤ 2 ^ 32 }
    ensures { IfSome result (λ v. GivesAt world.now (λ b. Moves minus true size (found_worth place) (found_worth index)) (found_worth v)) }
{
    let Found::Place(p) = place else {
        return None;
    };
    let n = number(index)?;
    if !is_small(n) {
        return None;
    }
    let by = small(distance(minus, size, i128::from(n)))?;
    match shifted(world, p, by) {
        Some(q) => Some(Found::Place(q)),
        None => None,
    }
}

/// The size of what a pointer of the type points to, if it is a pointer type.
pub(crate) fn pointed_size(unit: &TypedUnit, t: TypeId) -> Option<u64>
    ensures pointer { IfSome result (λ n. is_pointer (tree unit.now.known t.0) ≡ true) }
    ensures size { IfSome result (λ n. n ≡ element_in unit.now.known (tree unit.now.known t.0)) }
    ensures small { IfSome result (λ n. n ≤ 2 ^ 32) }
{
    match pointee(unit.types(), t) {
        Some(_) => element_size(unit.types(), t),
        None => None,
    }
}

/// The element of a node whose first operand is the pointer.
pub(crate) fn subscript(
    unit: &TypedUnit,
    world: &World,
    a: NodeId,
    first: Found,
    second: Found,
) -> Option<Found>
    requires { IsExpression unit.now a }
    ensures { (t : Ty) (d : Number) → IfSome result (λ v. GivesWithBoth unit.now world.now t (Row.Subscript a d) (found_worth first) (found_worth second) (found_worth v)) }
{
    let size = pointed_size(unit, unit.type_of(a))?;
    element(world, false, size, first, second)
}

/// The sum of a node whose first operand is the pointer.
pub(crate) fn summed(
    unit: &TypedUnit,
    world: &World,
    n: NodeId,
    sign: Sign,
    a: NodeId,
    first: Found,
    second: Found,
) -> Option<Found>
    requires there { IsExpression unit.now n }
    requires left { IsExpression unit.now a }
    ensures { (d : Number) → IfSome result (λ v. GivesWithBoth unit.now world.now (type_of (expression_at unit.now n)) (Row.PointerSum sign a d) (found_worth first) (found_worth second) (found_worth v)) }
{
    let _ = pointee(unit.types(), unit.type_of(a))?;
    let size = pointed_size(unit, unit.type_of(n))?;
    element(world, minus(sign), size, first, second)
}
