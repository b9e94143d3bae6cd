// Which accesses the effective type of an object permits (C17 6.5p6, 6.5p7).
ghost use Rattle.std.specs.Prelude.{◌≡◌, ◌≤◌, ◌<◌, ◌^◌, Bool, true, Some, length, IsTrue, IfOk, IfSome};
ghost use Rattle.std.specs.Option.{option_map};
ghost use Rattle.pv_types.specs.Known.{tree, env};
ghost use Rattle.pv_types.specs.Formed.{IsBuilt};
ghost use Rattle.pv_types.specs.Layouts.{is_complete_in, layout_in};
ghost use Rattle.pv_types.specs.Sorts.{bare_type, is_character, is_scalar_in};
ghost use Rattle.pv_effect.specs.EffectiveType.{permits_marks};
ghost use Rattle.pv_inst.specs.declared.values.Kind.TheVariants.{Heap};
ghost use Rattle.pv_shadow.specs.Bytes.{bytes_from};
ghost use Rattle.pv_object.specs.Reaching.{IsReach};
ghost use Rattle.pv_typed.specs.Known.{AreKnown};
ghost use Rattle.pv_eval.specs.TypeForms.{lvalue};
ghost use Rattle.pv_eval.specs.Sizes.{setting_of, size_in, IsComplete};
ghost use Rattle.pv_eval.specs.Permission.{permits_object, type_by, permits_in, permits};
ghost use Rattle.pv_eval.specs.PermissionParts.{marks_of};
ghost use Rattle.pv_eval.specs.Plainly.{IsObject, is_declared};
ghost use Rattle.pv_eval.specs.Designated.{StandsAt, StandsInElement, IsMemberPlace, IsDesignated};

use crate::dividing::{is_multiple, quotient};
use crate::members::{Designated, MemberPlace};
use crate::types::{Complete, is_character, layer, measured_by_layers};
use pv_effect::{permits_declared, permits_marks};
use pv_inst::Kind;
use pv_layout::bare;
use pv_object::Reach;
use pv_prov::NoMemory;
use pv_shadow::Byte;
use pv_typed::TypedUnit;
use pv_types::{Term, TypeId, bytes_of};
use pv_world::World;
use std::alloc::Global;

/// By which types bytes were stored.
fn marks_of(alloc: Global, bytes: &[Byte]) -> Result<Vec<Option<(u32, u8)>>, NoMemory>
    ensures { IfOk result (λ v. v.items ≡ marks_of bytes.now) }
{
    let mut marks = Vec::new(alloc);
    for i in 0..bytes.len() {
        if marks.push(bytes[i].mark).is_err() {
            return Err(NoMemory);
        }
    }
    Ok(marks)
}

/// The declared type of an object, which is complete (C17 6.7p7). Where this is asked it is mostly an array or a structure.
fn type_by(unit: &TypedUnit, object: Option<u32>) -> Option<Complete>
    requires { AreKnown unit.now }
    ensures kind { option_map (λ l. tree unit.now.known l.t.0) result ≡ type_by (setting_of unit.now) object }
    ensures complete { IfSome result (λ l. IsComplete unit.now.known l) }
{
    let Some(o) = object else {
        return None;
    };
    if o < unit.objects() {
        measured_by_layers(unit.types(), unit.object(o).t)
    } else {
        None
    }
}

/// Whether an object of an integer or pointer type is accessed as a whole, at its own type. Most accesses are such, and need no
/// search for a part, nor for qualifiers.
#[inline(always)]
#[tactic(auto, using(crate::proofs::Allowing::whole_integer, crate::proofs::Allowing::whole_pointer, crate::proofs::Allowing::integer_bare, crate::proofs::Allowing::pointer_bare))]
fn is_whole_scalar(unit: &TypedUnit, object: Option<u32>, offset: u64, want: TypeId) -> bool
    requires { AreKnown unit.now }
    ensures unqualified { IsTrue result → bare_type (tree unit.now.known want.0) ≡ tree unit.now.known want.0 }
    ensures permitted { IsTrue result → permits_object (setting_of unit.now) (type_by (setting_of unit.now) object) offset (tree unit.now.known want.0) ≡ true }
{
    let Some(o) = object else {
        return false;
    };
    if offset != 0 || o >= unit.objects() || unit.object(o).t.0 != want.0 {
        return false;
    }
    match layer(unit.types(), want) {
        Term::Int(_) => true,
        Term::Pointer(_) => true,
        _ => false,
    }
}

/// Whether an element of an array of integers is accessed as a whole, at its own type. Such accesses are frequent, and need no
/// search for a part.
#[inline(always)]
fn is_element(unit: &TypedUnit, object: Option<u32>, offset: u64, want: TypeId) -> bool
    requires { AreKnown unit.now }
    ensures { IsTrue result → permits_object (setting_of unit.now) (type_by (setting_of unit.now) object) offset (tree unit.now.known want.0) ≡ true }
{
    let Some(o) = object else {
        return false;
    };
    if o >= unit.objects() {
        return false;
    }
    let Term::Array(element, Some(n)) = layer(unit.types(), unit.object(o).t) else {
        return false;
    };
    let Term::Int(kind) = layer(unit.types(), want) else {
        return false;
    };
    if bare(unit.types(), element).0 != want.0 || n > 0x2000_0000 {
        return false;
    }
    let size = bytes_of(kind);
    if !is_multiple(offset, size) {
        return false;
    }
    if quotient(offset, size) >= n {
        return false;
    }
    true
}

/// Whether what is stored in an object may be accessed through an lvalue of the type (C17 6.5p7).
#[inline(always)]
fn permits_object(unit: &TypedUnit, object: Option<u32>, offset: u64, want: TypeId) -> bool
    requires known { AreKnown unit.now }
    requires want { want.0 < length unit.now.known.terms }
    requires complete { IsTrue (is_complete_in (env unit.now.known) (tree unit.now.known want.0)) }
    requires small { size_in unit.now.known (tree unit.now.known want.0) ≤ 2 ^ 32 }
    ensures { result ≡ permits_object (setting_of unit.now) (type_by (setting_of unit.now) object) offset (tree unit.now.known want.0) }
{
    if is_element(unit, object, offset, want) {
        return true;
    }
    let types = unit.types();
    match type_by(unit, object) {
        Some(declared) => permits_declared(types, declared.t, offset, want),
        None => is_character(types, want),
    }
}

/// Whether what is stored in an object may be accessed through an lvalue of the type, qualifiers aside (C17 6.5p7). They are looked for
/// only where the access is not through the object's own type.
#[inline(always)]
fn permits_own(unit: &TypedUnit, object: Option<u32>, offset: u64, l: Complete) -> bool
    requires known { AreKnown unit.now }
    requires complete { IsComplete unit.now.known l }
    ensures { result ≡ permits_object (setting_of unit.now) (type_by (setting_of unit.now) object) offset (bare_type (tree unit.now.known l.t.0)) }
{
    if is_whole_scalar(unit, object, offset, l.t) {
        return true;
    }
    let want = bare(unit.types(), l.t);
    permits_object(unit, object, offset, want)
}

/// Whether it is an integer or pointer type without qualifiers (C17 6.2.5p21).
fn is_bare_scalar(unit: &TypedUnit, t: TypeId) -> bool
    requires { t.0 < length unit.now.known.terms }
    ensures scalar { IsTrue result → is_scalar_in (tree unit.now.known t.0) ≡ true }
    ensures built { IsBuilt unit.now.known }
{
    match unit.types().view(t) {
        Term::Int(_) => true,
        Term::Pointer(_) => true,
        _ => false,
    }
}

/// Whether an integer or a pointer in an allocation is read at the type at which it was stored, as a whole. Most reads are such, and
/// need no list of marks.
fn is_own_store(unit: &TypedUnit, world: &World, at: &Reach, want: TypeId, size: u64) -> bool
    requires want { want.0 < length unit.now.known.terms }
    requires size { size ≡ size_in unit.now.known (tree unit.now.known want.0) }
    requires reached { IsReach world.now.memory.table at.now size }
    ensures { IsTrue result → permits_marks unit.now.known (layout_in (env unit.now.known) (tree unit.now.known want.0)).parts (marks_of (bytes_from world.now.memory.bytes at.now.address size)) ≡ true }
{
    if !is_bare_scalar(unit, want) {
        return false;
    }
    if size < 1 || size > 8 {
        return false;
    }
    world.memory().is_marked(at, size, want.0)
}

/// Whether what was stored in an allocation may be read through an lvalue of the type (C17 6.5p6).
fn permits_heap(
    alloc: Global,
    unit: &TypedUnit,
    world: &World,
    at: &Reach,
    want: TypeId,
    size: u64,
) -> Result<bool, NoMemory>
    requires want { want.0 < length unit.now.known.terms }
    requires complete { IsTrue (is_complete_in (env unit.now.known) (tree unit.now.known want.0)) }
    requires small { size_in unit.now.known (tree unit.now.known want.0) ≤ 2 ^ 32 }
    requires size { size ≡ size_in unit.now.known (tree unit.now.known want.0) }
    requires reached { IsReach world.now.memory.table at.now size }
    ensures { IfOk result (λ p. p ≡ permits_marks unit.now.known (layout_in (env unit.now.known) (tree unit.now.known want.0)).parts (marks_of (bytes_from world.now.memory.bytes at.now.address size))) }
{
    if is_own_store(unit, world, at, want, size) {
        return Ok(true);
    }
    let bytes = world.memory().read_bytes(at, size)?;
    let marks = marks_of(alloc, &bytes)?;
    Ok(permits_marks(unit.types(), &marks, want))
}

/// Whether an access through an lvalue of the type is permitted, where it was reached in an allocation: a write gives its bytes that type
/// (C17 6.5p6).
fn permits_allocation(
    alloc: Global,
    unit: &TypedUnit,
    world: &World,
    at: &Reach,
    l: Complete,
    write: bool,
) -> Result<bool, NoMemory>
    requires complete { IsComplete unit.now.known l }
    requires reached { IsReach world.now.memory.table at.now l.size }
    ensures { IfOk result (λ p. p ≡ permits_in (setting_of unit.now) world.now (lvalue (setting_of unit.now) (tree unit.now.known l.t.0)) at.now write Heap) }
{
    if write {
        return Ok(true);
    }
    let want = bare(unit.types(), l.t);
    permits_heap(alloc, unit, world, at, want, l.size)
}

/// Whether an access through an lvalue of the type is permitted, where it was reached in an instance of the kind (C17 6.5p7).
#[inline(always)]
pub(crate) fn permits_in(
    alloc: Global,
    unit: &TypedUnit,
    world: &World,
    at: &Reach,
    kind: Kind,
    l: Complete,
    write: bool,
) -> Result<bool, NoMemory>
    requires known { AreKnown unit.now }
    requires complete { IsComplete unit.now.known l }
    requires reached { IsReach world.now.memory.table at.now l.size }
    ensures { IfOk result (λ p. p ≡ permits_in (setting_of unit.now) world.now (lvalue (setting_of unit.now) (tree unit.now.known l.t.0)) at.now write kind) }
{
    match kind {
        Kind::Declared { .. } => Ok(permits_own(unit, world.owner(at.inst), at.offset, l)),
        Kind::Literal => {
            let want = bare(unit.types(), l.t);
            Ok(is_character(unit.types(), want))
        }
        Kind::Function => Ok(false),
        Kind::Heap => permits_allocation(alloc, unit, world, at, l, write),
    }
}

/// Whether an access through an lvalue of the type is permitted, where it was reached (C17 6.5p7).
#[inline(always)]
pub(crate) fn permits(
    alloc: Global,
    unit: &TypedUnit,
    world: &World,
    at: &Reach,
    l: Complete,
    write: bool,
) -> Result<bool, NoMemory>
    requires known { AreKnown unit.now }
    requires complete { IsComplete unit.now.known l }
    requires reached { IsReach world.now.memory.table at.now l.size }
    ensures { IfOk result (λ p. p ≡ permits (setting_of unit.now) world.now (lvalue (setting_of unit.now) (tree unit.now.known l.t.0)) at.now write) }
{
    let Some(x) = world.memory().instances().info(at.inst) else {
        unreachable!();
    };
    permits_in(alloc, unit, world, at, x.kind, l, write)
}

/// Whether an instance was made for an object.
fn is_declared(kind: Kind) -> bool
    ensures { result ≡ is_declared kind }
{
    match kind {
        Kind::Declared { .. } => true,
        Kind::Literal | Kind::Heap | Kind::Function => false,
    }
}

/// Whether what was reached is the beginning of this object.
fn is_object(world: &World, o: u32, at: &Reach, kind: Kind) -> bool
    ensures { IsTrue result → IsObject world.now o at.now kind }
{
    if !is_declared(kind) {
        return false;
    }
    let Some(whose) = world.owner(at.inst) else {
        return false;
    };
    if whose != o {
        return false;
    }
    at.offset == 0
}

/// Whether such a scalar of the member begins at the offset in the structure.
fn stands_at(p: MemberPlace, offset: u64, width: u64) -> bool
    requires { 1 ≤ width }
    ensures { IsTrue result → StandsAt p offset width }
{
    let start = p.start as u64;
    if offset < start {
        return false;
    }
    let past = offset - start;
    let length = p.length as u64;
    if past >= length {
        return false;
    }
    is_multiple(past, width)
}

/// The same of an array of so many of the structures. Larger ones are left to the search for a part.
fn stands_in_element(p: MemberPlace, n: u64, offset: u64, width: u64) -> bool
    requires some { 1 ≤ width }
    requires size { 1 ≤ p.size }
    ensures { IsTrue result → StandsInElement p n offset width }
{
    let size = p.size as u64;
    if n > 0x10_0000 {
        return false;
    }
    if size > 0x1000 {
        return false;
    }
    if offset / size >= n {
        return false;
    }
    stands_at(p, offset % size, width)
}

/// Whether an object is the structure of a member or an array of such structures, and has such a scalar of the member at the offset.
fn is_in_object(unit: &TypedUnit, o: u32, p: MemberPlace, offset: u64, l: Complete) -> bool
    requires complete { IsComplete unit.now.known l }
    requires place { IsMemberPlace unit.now.known p l.t }
    ensures { IsTrue result → permits_object (setting_of unit.now) (type_by (setting_of unit.now) (Some o)) offset (tree unit.now.known l.t.0) ≡ true }
{
    if o >= unit.objects() {
        return false;
    }
    let whole = unit.object(o).t;
    if whole.0 == p.whole.0 {
        return stands_at(p, offset, l.size);
    }
    let Term::Array(element, Some(n)) = layer(unit.types(), whole) else {
        return false;
    };
    if element.0 != p.whole.0 {
        return false;
    }
    stands_in_element(p, n, offset, l.size)
}

/// Whether what was reached is such a scalar of a member, in an object that is known to have it there.
fn is_at_member(
    unit: &TypedUnit,
    world: &World,
    p: MemberPlace,
    at: &Reach,
    kind: Kind,
    l: Complete,
) -> bool
    requires complete { IsComplete unit.now.known l }
    requires place { IsMemberPlace unit.now.known p l.t }
    ensures { (write : Bool) → IsTrue result → permits_in (setting_of unit.now) world.now (lvalue (setting_of unit.now) (tree unit.now.known l.t.0)) at.now write kind ≡ true }
{
    if !is_declared(kind) {
        return false;
    }
    let Some(o) = world.owner(at.inst) else {
        return false;
    };
    is_in_object(unit, o, p, at.offset, l)
}

/// Whether what was reached is what the lvalue is known to designate: then an access through it is permitted.
#[inline(always)]
fn is_designated(
    unit: &TypedUnit,
    world: &World,
    own: Designated,
    at: &Reach,
    kind: Kind,
    l: Complete,
) -> bool
    requires own { IsDesignated unit.now own l.t }
    requires complete { IsComplete unit.now.known l }
    ensures { (write : Bool) → IsTrue result → permits_in (setting_of unit.now) world.now (lvalue (setting_of unit.now) (tree unit.now.known l.t.0)) at.now write kind ≡ true }
{
    match own {
        Designated::Unknown => false,
        Designated::Object(o) => is_object(world, o, at, kind),
        Designated::Member(p) => is_at_member(unit, world, p, at, kind, l),
    }
}

/// Whether an access through an lvalue of the type is permitted, as `permits_in` tells it, where something may be known of what the
/// lvalue designates: then no part of a type is searched for.
#[inline(always)]
pub(crate) fn permits_own_access(
    alloc: Global,
    unit: &TypedUnit,
    world: &World,
    own: Designated,
    at: &Reach,
    kind: Kind,
    l: Complete,
    write: bool,
) -> Result<bool, NoMemory>
    requires known { AreKnown unit.now }
    requires own { IsDesignated unit.now own l.t }
    requires complete { IsComplete unit.now.known l }
    requires reached { IsReach world.now.memory.table at.now l.size }
    ensures { IfOk result (λ p. p ≡ permits_in (setting_of unit.now) world.now (lvalue (setting_of unit.now) (tree unit.now.known l.t.0)) at.now write kind) }
{
    if is_designated(unit, world, own, at, kind, l) {
        return Ok(true);
    }
    permits_in(alloc, unit, world, at, kind, l, write)
}
