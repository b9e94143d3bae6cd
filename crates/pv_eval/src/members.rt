// What is known, before a run, of what an lvalue of a scalar type designates, so that no part of its object's type is searched for
// when it is accessed (C17 6.5p7).
ghost use Rattle.std.specs.Prelude.{◌≡◌, ◌<◌, true, length, IsTrue, IfSome};
ghost use Rattle.pv_types.specs.Known.{tree, env};
ghost use Rattle.pv_types.specs.Layouts.{is_complete_in};
ghost use Rattle.pv_typed.specs.NodeTrees.{IsExpression};
ghost use Rattle.pv_types.specs.Sorts.{is_scalar_in};
ghost use Rattle.pv_eval.specs.Sizes.{IsComplete};
ghost use Rattle.pv_eval.specs.Designated.{IsUniform, IsMemberPlace, IsDesignated};

use crate::types::{Complete, measured_by_layers, pointee};
use pv_layout::{bare, size};
use pv_tree::NodeId;
use pv_typed::{Typed, TypedUnit};
use pv_types::{Term, TypeId, Types};

/// Where a member of a structure stands that is a scalar, or an array of scalars (C17 6.7.2.1p15): in bytes.
#[derive(Clone, Copy)]
pub(crate) struct MemberPlace {
    /// The structure's type.
    pub(crate) whole: TypeId,
    /// How many bytes the structure has.
    pub(crate) size: u32,
    /// Where the member begins in it.
    pub(crate) start: u32,
    /// How many bytes the member has.
    pub(crate) length: u32,
}

/// What is known of what an lvalue of a scalar type designates (6.3.2.1p1).
#[derive(Clone, Copy)]
pub(crate) enum Designated {
    /// Nothing.
    Unknown,
    /// The object of this number, which was declared with the lvalue's type.
    Object(u32),
    /// A scalar in this member, wherever the structure stands.
    Member(MemberPlace),
}

/// A number of bytes, where it has 32 bits.
fn word(n: u64) -> Option<u32>
    ensures { IfSome result (λ k. k ≡ n) }
{
    if n <= 0xffff_ffff {
        Some(n as u32)
    } else {
        None
    }
}

/// Whether it is an integer or pointer type without qualifiers (C17 6.2.5p21).
fn is_bare_scalar(types: &Types, t: TypeId) -> bool
    requires { t.0 < length types.now.terms }
    ensures { IsTrue result → is_scalar_in (tree types.now t.0) ≡ true }
{
    match types.view(t) {
        Term::Int(_) => true,
        Term::Pointer(_) => true,
        _ => false,
    }
}

/// Whether a type is this scalar type, or an array of such scalars, of whatever depth (C17 6.2.5p20).
fn is_array_of(types: &Types, whole: TypeId, t: TypeId) -> bool
    requires known { whole.0 < length types.now.terms }
    requires complete { IsTrue (is_complete_in (env types.now) (tree types.now whole.0)) }
    requires scalar { is_scalar_in (tree types.now t.0) ≡ true }
    ensures { IsTrue result → IsUniform types.now (tree types.now t.0) (tree types.now whole.0) }
{
    let mut at = whole;
    'layers: loop {
        if at.0 == t.0 {
            return true;
        }
        let Term::Array(element, _) = types.view(at) else {
            return false;
        };
        at = element;
    }
}

/// The member that begins at the offset in a structure, if it is of this type or an array of such scalars.
fn place_in(types: &Types, l: Complete, offset: u64, t: TypeId) -> Option<MemberPlace>
    requires complete { IsComplete types.now l }
    requires scalar { is_scalar_in (tree types.now t.0) ≡ true }
    ensures { IfSome result (λ p. IsMemberPlace types.now p t) }
{
    let Term::Struct(tag) = types.view(l.t) else {
        return None;
    };
    let Some((start, member)) = types.member_over(tag, offset) else {
        return None;
    };
    if start != offset {
        return None;
    }
    if !is_array_of(types, member, t) {
        return None;
    }
    let bytes = size(types, member);
    let length = word(bytes)?;
    let whole = word(l.size)?;
    let first = word(start)?;
    Some(MemberPlace {
        whole: l.t,
        size: whole,
        start: first,
        length,
    })
}

/// Of a node that designates an element of an array, the node that designates the array; of any other the node itself.
fn array_of(unit: &TypedUnit, a: NodeId) -> NodeId
    requires { IsExpression unit.now a }
    ensures { IsExpression unit.now result }
{
    let Typed::Subscript(first, _) = unit.node(a) else {
        return a;
    };
    let Typed::ArrayPointer(whole) = unit.node(first) else {
        return a;
    };
    whole
}

/// The structure of which a node designates a member, and where that begins in it, in bytes (C17 6.5.2.3p3, p4). What comes of it
/// is looked after in the table of types.
fn structure_of(unit: &TypedUnit, a: NodeId) -> Option<(TypeId, u64)>
    requires { IsExpression unit.now a }
{
    match unit.node(a) {
        Typed::Member(whole, offset) => Some((unit.type_of(whole), offset)),
        Typed::Arrow(whole, offset) => match pointee(unit.types(), unit.type_of(whole)) {
            Some(t) => Some((t, offset)),
            None => None,
        },
        _ => None,
    }
}

/// The member of a structure that a node of this type designates, or an element of which it designates.
fn member_place(unit: &TypedUnit, a: NodeId, t: TypeId) -> Option<MemberPlace>
    requires { IsExpression unit.now a }
    ensures { IfSome result (λ p. IsMemberPlace unit.now.known p t) }
{
    let row = array_of(unit, a);
    let member = array_of(unit, row);
    let (whole, offset) = structure_of(unit, member)?;
    let types = unit.types();
    if !types.has(t) {
        return None;
    }
    if !is_bare_scalar(types, t) {
        return None;
    }
    if !types.has(whole) {
        return None;
    }
    let l = measured_by_layers(types, bare(types, whole))?;
    place_in(types, l, offset, t)
}

/// What is known of what a node of this type designates that is no object's name.
pub(crate) fn in_structure(unit: &TypedUnit, a: NodeId, t: TypeId) -> Designated
    requires { IsExpression unit.now a }
    ensures { IsDesignated unit.now result t }
{
    match member_place(unit, a, t) {
        Some(p) => Designated::Member(p),
        None => Designated::Unknown,
    }
}
