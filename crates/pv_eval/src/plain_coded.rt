// Plain expressions by what is known of their nodes (C17 6.5): what one gives from a world, where nothing stops it.
ghost use Rattle.std.specs.Prelude.{◌≡◌, ◌<◌, ◌++◌, ◌∷◌, [], true, false, IfSome, length};
ghost use Rattle.pv_seq.specs.SequencingParts.{access_of};
ghost use Rattle.pv_types.specs.Ty.{Ty, IntTy};
ghost use Rattle.pv_types.specs.Known.{tree};
ghost use Rattle.pv_types.specs.Sorts.{bare_type};
ghost use Rattle.pv_typed.specs.declared.nodes.Typed.{Typed as Row};
ghost use Rattle.pv_typed.specs.Known.{AreKnown};
ghost use Rattle.pv_typed.specs.TypedTree.{type_of};
ghost use Rattle.pv_typed.specs.NodeTrees.{expression_at, IsExpression};
ghost use Rattle.pv_eval.specs.Sizes.{points};
ghost use Rattle.pv_eval.specs.Plainly.{Yields, YieldsNoting, GivesNoting, found_worth};
ghost use Rattle.pv_eval.specs.Designated.{IsDesignated};
ghost use Rattle.pv_eval.specs.declared.codes.Code.{Code as Known};
ghost use Rattle.pv_eval.specs.Codes.{IsCode, AreCodes, RoundsTo, RoundsBy, CalculatesBy};

use crate::codes::Code;
use crate::members::Designated;
use crate::operands::{first_operand, second_operand};
use crate::plain::{Found, alone, with_both, with_one};
use crate::plain_numbers::{integer, is_small, number, operated};
use crate::plain_places::{element, object, part};
use crate::plain_reads::{load, load_pointer};
use crate::plan::Plan;
use crate::types::{accessed_integer, accessed_pointer};
use crate::values::minus;
use pv_num::{BinOp, IntKind, convert, fits};
use pv_seq::Access;
use pv_tree::NodeId;
use pv_typed::TypedUnit;
use pv_types::TypeId;
use pv_world::World;
use std::alloc::Global;

/// What was read, once the read is noted (C17 6.5p2), if whoever asks for it wants that.
#[inline(always)]
fn noted(v: Found, place: u64, length: u64, noting: bool, notes: &mut Vec<Access>) -> Option<Found>
    ensures same { IfSome result (λ z. z ≡ v) }
    ensures noted { IfSome result (λ z. noting ≡ true → notes.new.items ≡ notes.old.items ++ access_of place length false ∷ []) }
{
    if !noting {
        return Some(v);
    }
    let a = Access {
        place,
        length,
        writes: false,
    };
    match notes.push(a) {
        Ok(()) => Some(v),
        Err(_) => None,
    }
}

/// The integer at the place that the operand of a node gave; with what is known of what the operand designates.
#[inline(always)]
fn read_integer(
    alloc: Global,
    unit: &TypedUnit,
    world: &World,
    own: Designated,
    a: NodeId,
    t: TypeId,
    kind: IntKind,
    place: Found,
    noting: bool,
    notes: &mut Vec<Access>,
) -> Option<Found>
    requires known { AreKnown unit.now }
    requires number { t.0 < length unit.now.known.terms }
    requires same { tree unit.now.known t.0 ≡ bare_type (type_of (expression_at unit.now a)) }
    requires integer { tree unit.now.known t.0 ≡ IntTy kind }
    requires own { IsDesignated unit.now own t }
    ensures { (s : Ty) → IfSome result (λ v. GivesNoting unit.now world.now s (Row.Read a) (found_worth place) (found_worth v) noting notes.old.items notes.new.items) }
{
    let Found::Place(p) = place else {
        return None;
    };
    let x = accessed_integer(unit.types(), t, kind)?;
    let v = load(alloc, unit, world, own, x, kind, p)?;
    noted(v, p.address, x.l.size, noting, notes)
}

/// The pointer at the place that the operand of a node gave; with what is known of what the operand designates.
#[inline(always)]
fn read_pointer(
    alloc: Global,
    unit: &TypedUnit,
    world: &World,
    own: Designated,
    a: NodeId,
    t: TypeId,
    place: Found,
    noting: bool,
    notes: &mut Vec<Access>,
) -> Option<Found>
    requires known { AreKnown unit.now }
    requires number { t.0 < length unit.now.known.terms }
    requires same { tree unit.now.known t.0 ≡ bare_type (type_of (expression_at unit.now a)) }
    requires pointer { points (tree unit.now.known t.0) ≡ true }
    requires own { IsDesignated unit.now own t }
    ensures { (s : Ty) → IfSome result (λ v. GivesNoting unit.now world.now s (Row.Read a) (found_worth place) (found_worth v) noting notes.old.items notes.new.items) }
{
    let Found::Place(p) = place else {
        return None;
    };
    let x = accessed_pointer(unit.types(), t)?;
    let v = load_pointer(alloc, unit, world, own, x, p)?;
    noted(v, p.address, x.l.size, noting, notes)
}

/// A number that was found, converted from an integer type to this kind (C17 6.3.1.2, 6.3.1.3). Most are members of the kind.
fn rounded_number(kind: IntKind, v: Found) -> Option<Found>
    ensures { IfSome result (λ z. RoundsTo kind (found_worth v) (found_worth z)) }
{
    let x = number(v)?;
    if !is_small(x) {
        return None;
    }
    let n = i128::from(x);
    if fits(kind, n) {
        return Some(v);
    }
    integer(convert(kind, n))
}

/// What an operand gave, converted as is known of it.
pub(crate) fn rounded(to: Option<IntKind>, v: Found) -> Option<Found>
    ensures { IfSome result (λ z. RoundsBy to (found_worth v) (found_worth z)) }
{
    match to {
        None => Some(v),
        Some(kind) => rounded_number(kind, v),
    }
}

/// An operator on what two operands gave, each converted as is known of it.
#[inline(always)]
fn arithmetic(
    op: BinOp,
    kind: IntKind,
    left: Option<IntKind>,
    right: Option<IntKind>,
    first: Found,
    second: Found,
) -> Option<Found>
    ensures { IfSome result (λ z. CalculatesBy op kind left right (found_worth first) (found_worth second) (found_worth z)) }
{
    let x = rounded(left, first)?;
    let y = rounded(right, second)?;
    operated(op, kind, x, y)
}

/// What a node gives whose operands are evaluated first, by what is known of it.
#[cycle(value_by)]
fn composed(
    alloc: Global,
    unit: &TypedUnit,
    plan: &Plan,
    world: &World,
    n: NodeId,
    noting: bool,
    notes: &mut Vec<Access>,
) -> Option<Found>
    requires known { AreKnown unit.now }
    requires codes { AreCodes unit.now plan.now }
    requires there { IsExpression unit.now n }
    ensures { IfSome result (λ v. YieldsNoting unit.now world.now (expression_at unit.now n) (found_worth v) noting notes.old.items notes.new.items) }
{
    // What is known is asked for once more, and not handed on: then no more of it is read than what its form has.
    let code = plan.code(n);
    match code {
        Code::Same(a) => value_by(alloc, unit, plan, world, a, noting, notes),
        Code::Part(a, offset) => {
            let place = value_by(alloc, unit, plan, world, a, noting, notes)?;
            part(world, place, offset)
        }
        Code::Integer(a, t, kind, own) => {
            let place = value_by(alloc, unit, plan, world, a, noting, notes)?;
            read_integer(alloc, unit, world, own, a, t, kind, place, noting, notes)
        }
        Code::Pointer(a, t, own) => {
            let place = value_by(alloc, unit, plan, world, a, noting, notes)?;
            read_pointer(alloc, unit, world, own, a, t, place, noting, notes)
        }
        Code::Arithmetic(op, kind, left, right) => {
            let first = value_by(alloc, unit, plan, world, left.node, noting, notes)?;
            let second = value_by(alloc, unit, plan, world, right.node, noting, notes)?;
            arithmetic(op, kind, left.to, right.to, first, second)
        }
        Code::Element(a, d, size) => {
            let first = value_by(alloc, unit, plan, world, a, noting, notes)?;
            let second = value_by(alloc, unit, plan, world, d, noting, notes)?;
            element(world, false, size, first, second)
        }
        Code::Sum(sign, a, d, size) => {
            let first = value_by(alloc, unit, plan, world, a, noting, notes)?;
            let second = value_by(alloc, unit, plan, world, d, noting, notes)?;
            element(world, minus(sign), size, first, second)
        }
        _ => by_node(alloc, unit, plan, world, n, noting, notes),
    }
}

/// What a node gives of which nothing is known: by the node itself.
#[cycle(value_by)]
fn by_node(
    alloc: Global,
    unit: &TypedUnit,
    plan: &Plan,
    world: &World,
    n: NodeId,
    noting: bool,
    notes: &mut Vec<Access>,
) -> Option<Found>
    requires known { AreKnown unit.now }
    requires codes { AreCodes unit.now plan.now }
    requires there { IsExpression unit.now n }
    ensures { IfSome result (λ v. YieldsNoting unit.now world.now (expression_at unit.now n) (found_worth v) noting notes.old.items notes.new.items) }
{
    let x = unit.node(n);
    let Some(a) = first_operand(x) else {
        return alone(unit, world, x);
    };
    let first = value_by(alloc, unit, plan, world, a, noting, notes)?;
    let Some(d) = second_operand(x) else {
        return with_one(unit, world, n, x, first);
    };
    let second = value_by(alloc, unit, plan, world, d, noting, notes)?;
    with_both(unit, world, n, x, first, second)
}

/// The integer in an object, by what is known of the node that reads it.
fn own_integer(
    alloc: Global,
    unit: &TypedUnit,
    world: &World,
    n: NodeId,
    a: NodeId,
    t: TypeId,
    kind: IntKind,
    o: u32,
    lasting: bool,
    noting: bool,
    notes: &mut Vec<Access>,
) -> Option<Found>
    requires known { AreKnown unit.now }
    requires code { IsCode unit.now n (Known.OwnInteger a t kind o lasting) }
    ensures { IfSome result (λ v. YieldsNoting unit.now world.now (expression_at unit.now n) (found_worth v) noting notes.old.items notes.new.items) }
{
    let place = object(world, o, lasting)?;
    read_integer(
        alloc,
        unit,
        world,
        Designated::Object(o),
        a,
        t,
        kind,
        place,
        noting,
        notes,
    )
}

/// The pointer in an object, by what is known of the node that reads it.
fn own_pointer(
    alloc: Global,
    unit: &TypedUnit,
    world: &World,
    n: NodeId,
    a: NodeId,
    t: TypeId,
    o: u32,
    lasting: bool,
    noting: bool,
    notes: &mut Vec<Access>,
) -> Option<Found>
    requires known { AreKnown unit.now }
    requires code { IsCode unit.now n (Known.OwnPointer a t o lasting) }
    ensures { IfSome result (λ v. YieldsNoting unit.now world.now (expression_at unit.now n) (found_worth v) noting notes.old.items notes.new.items) }
{
    let place = object(world, o, lasting)?;
    let own = Designated::Object(o);
    read_pointer(alloc, unit, world, own, a, t, place, noting, notes)
}

/// What a plain expression gives from this world, by what is known of its nodes, where nothing stops it, and where that is a
/// number of 64 bits with a sign, or a place. What it reads stands in the notes then, behind what stood there, if `noting`.
///
/// `None` says nothing: the machine of expressions finds the same, or why there is no value. The world stays in any case.
#[inline(always)]
#[cycle(value_by)]
pub(crate) fn value_by(
    alloc: Global,
    unit: &TypedUnit,
    plan: &Plan,
    world: &World,
    n: NodeId,
    noting: bool,
    notes: &mut Vec<Access>,
) -> Option<Found>
    requires known { AreKnown unit.now }
    requires codes { AreCodes unit.now plan.now }
    requires there { IsExpression unit.now n }
    ensures { IfSome result (λ v. YieldsNoting unit.now world.now (expression_at unit.now n) (found_worth v) noting notes.old.items notes.new.items) }
{
    let code = plan.code(n);
    match code {
        Code::Number(k) => Some(Found::Number(k)),
        Code::Object(o, lasting) => object(world, o, lasting),
        Code::OwnInteger(a, t, kind, o, lasting) => {
            own_integer(alloc, unit, world, n, a, t, kind, o, lasting, noting, notes)
        }
        Code::OwnPointer(a, t, o, lasting) => own_pointer(
            alloc, unit, world, n, a, t, o, lasting, noting, notes,
        ),
        _ => composed(alloc, unit, plan, world, n, noting, notes),
    }
}

/// What a plain expression gives, as by `value_by`, where nobody asks what it reads.
#[inline(always)]
pub(crate) fn value(
    alloc: Global,
    unit: &TypedUnit,
    plan: &Plan,
    world: &World,
    n: NodeId,
) -> Option<Found>
    requires known { AreKnown unit.now }
    requires codes { AreCodes unit.now plan.now }
    requires there { IsExpression unit.now n }
    ensures { IfSome result (λ v. Yields unit.now world.now (expression_at unit.now n) (found_worth v)) }
{
    let mut notes = Vec::new(alloc);
    value_by(alloc, unit, plan, world, n, false, &mut notes)
}
