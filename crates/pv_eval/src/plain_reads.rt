// Integers and pointers that plain expressions read (C17 6.3.2.1p2).
ghost use Rattle.std.specs.Prelude.{◌≡◌, ◌≤◌, true, ◌&&◌, IfSome, is_some, [], Ok, pos};
ghost use Rattle.pv_num.specs.Kinds.{greatest_member, convert_of};
ghost use Rattle.pv_prov.specs.declared.names.Prov.TheVariants.{Inst};
ghost use Rattle.pv_inst.specs.declared.values.Test.TheVariants.{Live};
ghost use Rattle.pv_inst.specs.Use.{use_answer};
ghost use Rattle.pv_types.specs.Known.{tree, env};
ghost use Rattle.pv_types.specs.Layouts.{layout_in};
ghost use Rattle.pv_shadow.specs.Bytes.{bytes_from};
ghost use Rattle.pv_object.specs.Reaching.{IsReach};
ghost use Rattle.pv_object.specs.Access.{readonly_stop};
ghost use Rattle.pv_object.specs.Loading.{is_trap};
ghost use Rattle.pv_typed.specs.Known.{AreKnown};
ghost use Rattle.pv_typed.specs.TypedTree.{type_of};
ghost use Rattle.pv_typed.specs.NodeTrees.{expression_at, IsExpression};
ghost use Rattle.pv_world.specs.Worths.{int, pointer, pointer_of};
ghost use Rattle.pv_world.specs.declared.got.Shape.{Shape as Form};
ghost use Rattle.pv_eval.specs.TypeForms.{shape_of};
ghost use Rattle.pv_eval.specs.Sizes.{IsComplete};
ghost use Rattle.pv_world.specs.Suiting.{knows};
ghost use Rattle.pv_eval.specs.Codes.{IsIntegerPlace};
ghost use Rattle.pv_eval.specs.Designated.{IsDesignated};
ghost use Rattle.pv_eval.specs.Plainly.{ReadsFrom, HasReached, IsLooked, IsPlainNumber, HasKind, alone_tried, found_worth, pointer_at};

use crate::codes::IntegerPlace;
use crate::dividing::is_multiple;
use crate::members::Designated;
use crate::permission::permits_own_access;
use crate::plain::{Found, Spot};
use crate::plain_numbers::{integer, natural};
use crate::types::{AccessedType, accessed, accessed_integer};
use pv_inst::{Kind, Tried};
use pv_num::{IntKind, convert};
use pv_object::{Pointer, Reach};
use pv_prov::Prov;
use pv_tree::NodeId;
use pv_typed::TypedUnit;
use pv_world::{Shape, World};
use std::alloc::Global;

/// What the use of a name finds that is the name of one live instance.
const ALONE: Tried = Tried {
    pair: None,
    low: true,
    high: false,
};

/// Where an access goes, and the kind of the instance there.
#[derive(Clone, Copy)]
pub(crate) struct Target {
    pub(crate) reach: Reach,
    pub(crate) kind: Kind,
}

/// Whether a number is no value of the type (C17 6.2.6.1p5).
fn traps(kind: IntKind, number: u64) -> bool
    ensures { result ≡ is_trap kind number }
{
    match kind {
        IntKind::Bool => number > 1,
        _ => false,
    }
}

/// Whether no byte of an instance may be written (C17 6.4.5p7, 6.7.3p6).
fn is_readonly(kind: Kind) -> bool
    ensures { result ≡ is_some (readonly_stop kind) }
{
    match kind {
        Kind::Literal => true,
        Kind::Declared { constant } => constant,
        Kind::Heap | Kind::Function => false,
    }
}

/// Whether it is a write, and what is written to is read-only.
fn is_stopped(write: bool, kind: Kind) -> bool
    ensures { result ≡ (write && is_some (readonly_stop kind)) }
{
    write && is_readonly(kind)
}

/// Where an access to so many bytes goes, if it passes its checks (C17 6.5.3.2p4, 6.2.4p2, 6.4.5p7, 6.7.3p6).
pub(crate) fn reached(world: &World, p: Spot, n: u64, align: u64, write: bool) -> Option<Target>
    requires { 1 ≤ align }
    ensures reached { IfSome result (λ r. HasReached world.now.memory.table (pointer_at p) n align write r.reach) }
    ensures within { IfSome result (λ r. IsReach world.now.memory.table r.reach n) }
    ensures kind { IfSome result (λ r. HasKind world.now.memory.table r.reach r.kind) }
{
    let x = world.memory().instances().info(p.inst)?;
    if p.address < x.base {
        return None;
    }
    let offset = p.address - x.base;
    if offset > x.size {
        return None;
    }
    if n > x.size - offset {
        return None;
    }
    if !is_multiple(p.address, align) {
        return None;
    }
    if x.kind.is_function() {
        return None;
    }
    if is_stopped(write, x.kind) {
        return None;
    }
    let reach = Reach {
        inst: p.inst,
        offset,
        address: p.address,
        tried: ALONE,
    };
    Some(Target {
        reach,
        kind: x.kind,
    })
}

/// The number in so many bytes that were reached.
fn number_at(world: &World, at: &Reach, n: u64) -> Option<u64>
    requires few { n ≤ 8 }
    requires reached { IsReach world.now.memory.table at.now n }
    ensures { IfSome result (λ k. IsPlainNumber (bytes_from world.now.memory.bytes at.now.address n) k) }
{
    world.memory().number(at, n)
}

/// The greatest member of the kind (C17 6.2.5p2, p5, p9).
fn greatest(kind: IntKind) -> u64
    ensures { pos result ≡ greatest_member kind }
{
    match kind {
        IntKind::Bool => 1,
        IntKind::Char | IntKind::SChar => 0x7f,
        IntKind::UChar => 0xff,
        IntKind::Short => 0x7fff,
        IntKind::UShort => 0xffff,
        IntKind::Int => 0x7fff_ffff,
        IntKind::UInt => 0xffff_ffff,
        IntKind::Long | IntKind::LLong => 0x7fff_ffff_ffff_ffff,
        IntKind::ULong | IntKind::ULLong => 0xffff_ffff_ffff_ffff,
    }
}

/// The value of this kind whose bits are this number (C17 6.2.6.2p2). Most are members of the kind, and no conversion changes them.
fn valued(kind: IntKind, number: u64) -> Option<Found>
    ensures { IfSome result (λ v. found_worth v ≡ int (convert_of kind (pos number))) }
{
    if number <= greatest(kind) {
        return natural(number);
    }
    integer(convert(kind, i128::from(number)))
}

/// Whether each instance that became exposed was told of.
fn is_told(world: &World) -> bool
    ensures { result ≡ true → world.now.memory.table.pending ≡ [] }
{
    world.memory().is_told()
}

/// The integer of this kind at a place, if nothing keeps it from being read; with what is known of what the lvalue designates.
#[inline(always)]
pub(crate) fn load(
    alloc: Global,
    unit: &TypedUnit,
    world: &World,
    own: Designated,
    x: AccessedType,
    kind: IntKind,
    p: Spot,
) -> Option<Found>
    requires known { AreKnown unit.now }
    requires own { IsDesignated unit.now own x.l.t }
    requires complete { IsComplete unit.now.known x.l }
    requires align { x.align ≡ (layout_in (env unit.now.known) (tree unit.now.known x.l.t.0)).align }
    requires some { 1 ≤ x.align }
    requires form { shape_of (tree unit.now.known x.l.t.0) ≡ Form.Int kind }
    ensures { IfSome result (λ v. ReadsFrom unit.now world.now (tree unit.now.known x.l.t.0) (pointer_at p) (found_worth v)) }
{
    if x.l.size > 8 {
        return None;
    }
    let target = reached(world, p, x.l.size, x.align, false)?;
    let at = target.reach;
    let Ok(true) = permits_own_access(alloc, unit, world, own, &at, target.kind, x.l, false) else {
        return None;
    };
    if !is_told(world) {
        return None;
    }
    let number = number_at(world, &at, x.l.size)?;
    if traps(kind, number) {
        return None;
    }
    valued(kind, number)
}

/// Whether an instance is live.
pub(crate) fn is_live(world: &World, inst: u64) -> bool
    ensures used { result ≡ true → use_answer world.now.memory.table (Inst inst) Live ≡ Ok alone_tried }
    ensures known { result ≡ true → knows world.now.memory.table (Inst inst) ≡ true }
{
    world.memory().instances().info(inst).is_some()
}

/// A place in a live instance, which a pointer with this name and address points to.
fn live_place(world: &World, inst: u64, address: u64) -> Option<Found>
    ensures value { IfSome result (λ v. found_worth v ≡ pointer (record { address = address; prov = Inst inst })) }
    ensures looked { IfSome result (λ v. IsLooked world.now.memory.table (pointer (record { address = address; prov = Inst inst })) address) }
{
    if is_live(world, inst) {
        Some(Found::Place(Spot { inst, address }))
    } else {
        None
    }
}

/// The null pointer, which a pointer with the empty name is that has the address 0 (C17 6.3.2.3p3).
fn null_place(world: &World, address: u64) -> Option<Found>
    ensures value { IfSome result (λ v. found_worth v ≡ pointer (record { address = address; prov = Prov.Empty })) }
    ensures looked { IfSome result (λ v. IsLooked world.now.memory.table (pointer (record { address = address; prov = Prov.Empty })) address) }
{
    if address == 0 {
        Some(Found::Null)
    } else {
        None
    }
}

/// What a pointer is that was stored, if it is null or points into a live instance.
fn pointed(world: &World, p: Pointer) -> Option<Found>
    ensures value { IfSome result (λ v. found_worth v ≡ pointer p) }
    ensures looked { IfSome result (λ v. IsLooked world.now.memory.table (pointer p) p.address) }
{
    match p.prov {
        Prov::Inst(inst) => live_place(world, inst, p.address),
        Prov::Empty => null_place(world, p.address),
        Prov::Pair(_) => None,
    }
}

/// The pointer at a place, if it was stored whole, is null or points into a live instance, and nothing keeps it from being read; with
/// what is known of what the lvalue designates.
#[inline(always)]
pub(crate) fn load_pointer(
    alloc: Global,
    unit: &TypedUnit,
    world: &World,
    own: Designated,
    x: AccessedType,
    p: Spot,
) -> Option<Found>
    requires known { AreKnown unit.now }
    requires own { IsDesignated unit.now own x.l.t }
    requires complete { IsComplete unit.now.known x.l }
    requires align { x.align ≡ (layout_in (env unit.now.known) (tree unit.now.known x.l.t.0)).align }
    requires some { 1 ≤ x.align }
    requires form { shape_of (tree unit.now.known x.l.t.0) ≡ Form.Pointer }
    ensures { IfSome result (λ v. ReadsFrom unit.now world.now (tree unit.now.known x.l.t.0) (pointer_at p) (found_worth v)) }
{
    if x.l.size != 8 {
        return None;
    }
    let target = reached(world, p, 8, x.align, false)?;
    let at = target.reach;
    let Ok(true) = permits_own_access(alloc, unit, world, own, &at, target.kind, x.l, false) else {
        return None;
    };
    if !is_told(world) {
        return None;
    }
    let there = world.memory().whole_pointer(&at)?;
    pointed(world, there)
}

/// What is read at the place that a node designates, through the node's type.
pub(crate) fn read_at(
    alloc: Global,
    unit: &TypedUnit,
    world: &World,
    a: NodeId,
    place: Found,
) -> Option<Found>
    requires known { AreKnown unit.now }
    requires there { IsExpression unit.now a }
    ensures place { IfSome result (λ v. found_worth place ≡ pointer (pointer_of (found_worth place))) }
    ensures reads { IfSome result (λ v. ReadsFrom unit.now world.now (type_of (expression_at unit.now a)) (pointer_of (found_worth place)) (found_worth v)) }
{
    let Found::Place(p) = place else {
        return None;
    };
    let x = accessed(unit.types(), unit.type_of(a))?;
    match x.form {
        Shape::Int(kind) => load(alloc, unit, world, Designated::Unknown, x, kind, p),
        Shape::Pointer => load_pointer(alloc, unit, world, Designated::Unknown, x, p),
        Shape::Whole => None,
    }
}

/// What is read at a place of an integer type, by what is known of it.
pub(crate) fn loaded_integer(
    alloc: Global,
    unit: &TypedUnit,
    world: &World,
    x: IntegerPlace,
    place: Found,
) -> Option<Found>
    requires known { AreKnown unit.now }
    requires there { IsIntegerPlace unit.now x }
    ensures place { IfSome result (λ v. found_worth place ≡ pointer (pointer_of (found_worth place))) }
    ensures reads { IfSome result (λ v. ReadsFrom unit.now world.now (type_of (expression_at unit.now x.node)) (pointer_of (found_worth place)) (found_worth v)) }
{
    let Found::Place(p) = place else {
        return None;
    };
    let at = accessed_integer(unit.types(), x.t, x.kind)?;
    load(alloc, unit, world, x.own, at, x.kind, p)
}
