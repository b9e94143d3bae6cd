// The parts of an object that initializers are for.
ghost use Rattle.std.specs.Prelude.{◌≡◌, ◌<◌, ◌≤◌, ◌+◌, ◌*◌, ◌^◌, length, IsTrue, is_some, option_map, false, true};
ghost use Rattle.pv_types.specs.Known.{tree, trees, tree_in, env};
ghost use Rattle.pv_types.specs.Formed.{is_union_in, completions, PartsBelow, IsTagged, IsBuilt};
ghost use Rattle.pv_types.specs.Sorts.{bare_type, is_scalar};
ghost use Rattle.pv_types.specs.Layouts.{layout_in, is_complete_in, look};
ghost use Rattle.pv_types.specs.LayoutParts.{or_none};
ghost use Rattle.pv_unit.specs.Parts.{is_text, has_element, part_in, part_at, first_leaf};
ghost use Rattle.pv_unit.specs.PartParts.{within, is_aggregate, character_layer};
ghost use Rattle.pv_types.specs.Ty.{ArrayOf, StructTag, UnionTag};
ghost use Rattle.pv_check.specs.Growing.{AreSized};
ghost use Rattle.pv_unit.specs.Subobjects.{part_of, IsPart, IsInner, IsInnerIf, HasRoom};

use pv_layout::{bare, size, struct_number};
use pv_num::is_character_kind;
use pv_types::{Term, TypeId, Types};

/// No object is larger.
pub(crate) const LARGEST: u64 = 1 << 32;

/// A part of an object: where it begins, in bytes from the object's beginning, and its type.
#[derive(Clone, Copy)]
pub(crate) struct Subobject {
    pub offset: u64,
    pub t: TypeId,
}

/// The outermost layer of the type without the qualifiers around it.
pub(crate) fn layer(types: &Types, t: TypeId) -> Term
    requires { t.0 < length types.now.terms }
    ensures tree { bare_type (tree types.now t.0) ≡ tree_in types.now.lists (trees types.now) result }
    ensures earlier { PartsBelow types.now.lists (length types.now.terms) result }
    ensures tagged { IsTagged types.now.tags result }
    ensures built { IsBuilt types.now }
{
    types.view(bare(types, t))
}

/// The same of a type, qualifiers aside.
fn is_character(types: &Types, t: TypeId) -> bool
    requires { t.0 < length types.now.terms }
    ensures { result ≡ character_layer (bare_type (tree types.now t.0)) }
{
    match layer(types, t) {
        Term::Int(kind) => is_character_kind(kind),
        Term::Void
        | Term::Pointer(_)
        | Term::Array(_, _)
        | Term::Struct(_)
        | Term::Union(_)
        | Term::Function { .. }
        | Term::Const(_) => false,
    }
}

/// Whether it is an array of characters (C17 6.7.9p14).
pub(crate) fn is_text(types: &Types, t: TypeId) -> bool
    requires { t.0 < length types.now.terms }
    ensures { result ≡ is_text (tree types.now t.0) }
{
    match layer(types, t) {
        Term::Array(element, _) => is_character(types, element),
        Term::Void
        | Term::Int(_)
        | Term::Pointer(_)
        | Term::Struct(_)
        | Term::Union(_)
        | Term::Function { .. }
        | Term::Const(_) => false,
    }
}

/// Whether it is an integer or pointer type (C17 6.2.5p21).
pub(crate) fn is_scalar(types: &Types, t: TypeId) -> bool
    requires { t.0 < length types.now.terms }
    ensures { result ≡ is_scalar (tree types.now t.0) }
{
    match layer(types, t) {
        Term::Int(_) | Term::Pointer(_) => true,
        Term::Void
        | Term::Array(_, _)
        | Term::Struct(_)
        | Term::Union(_)
        | Term::Function { .. }
        | Term::Const(_) => false,
    }
}

/// Whether it has parts: an array, a structure or a union.
pub(crate) fn is_aggregate(types: &Types, t: TypeId) -> bool
    requires { t.0 < length types.now.terms }
    ensures { result ≡ is_aggregate (tree types.now t.0) }
{
    match layer(types, t) {
        Term::Array(_, _) | Term::Struct(_) | Term::Union(_) => true,
        Term::Void | Term::Int(_) | Term::Pointer(_) | Term::Function { .. } | Term::Const(_) =>
            false,
    }
}

/// Whether an array has this element; one of unknown size has as many as the largest object has room for.
fn has_element(count: Option<u64>, bytes: u64, number: u64) -> bool
    requires { 0 < bytes }
    ensures { result ≡ has_element count bytes number }
{
    match count {
        Some(elements) => number < elements,
        None => number < LARGEST / bytes,
    }
}

/// The element of this number of an array, whose size may be unknown.
fn element_number(
    types: &Types,
    whole: Subobject,
    element: TypeId,
    count: Option<u64>,
    number: u64,
) -> Option<Subobject>
    requires known { element.0 < length types.now.terms }
    requires complete { is_complete_in (env types.now) (tree types.now element.0) ≡ true }
    requires built { IsBuilt types.now }
    requires room { HasRoom (layout_in (env types.now) (tree types.now element.0)).size whole.offset count }
    ensures part { option_map (part_of types.now) result ≡ option_map (within (part_of types.now whole)) (part_in (completions types.now) (ArrayOf (tree types.now element.0) count) number) }
    ensures is { IsInnerIf types.now result }
{
    let bytes = size(types, element);
    if has_element(count, bytes, number) {
        Some(Subobject {
            offset: whole.offset + number * bytes,
            t: element,
        })
    } else {
        None
    }
}

/// The member of this number of a structure.
fn member_number(types: &Types, whole: Subobject, tag: u32, number: u64) -> Option<Subobject>
    requires built { IsBuilt types.now }
    requires made { tag < length types.now.tags }
    requires complete { IsTrue (is_some (look (env types.now) tag)) }
    requires structure { is_union_in types.now.done tag ≡ false }
    requires room { whole.offset + (or_none (look (env types.now) tag)).size ≤ 2 ^ 32 }
    ensures part { option_map (part_of types.now) result ≡ option_map (within (part_of types.now whole)) (part_in (completions types.now) (StructTag tag) number) }
    ensures is { IsInnerIf types.now result }
{
    match struct_number(types, tag, number) {
        Some((start, t)) => Some(Subobject {
            offset: whole.offset + start,
            t,
        }),
        None => None,
    }
}

/// The first member of a union, which is the one that an initializer is for (C17 6.7.9p17).
fn first_member(types: &Types, whole: Subobject, tag: u32, number: u64) -> Option<Subobject>
    requires made { tag < length types.now.tags }
    requires complete { IsTrue (is_some (look (env types.now) tag)) }
    requires union { is_union_in types.now.done tag ≡ true }
    requires room { whole.offset + (or_none (look (env types.now) tag)).size ≤ 2 ^ 32 }
    ensures part { option_map (part_of types.now) result ≡ option_map (within (part_of types.now whole)) (part_in (completions types.now) (UnionTag tag) number) }
    ensures is { IsInnerIf types.now result }
{
    let members = types.members(tag);
    if number == 0 && !members.is_empty() {
        Some(Subobject {
            offset: whole.offset,
            t: members[0].t,
        })
    } else {
        None
    }
}

/// The part of an object that initializer number `number` of a list is for, from 0 (C17 6.7.9p17 to p20).
pub(crate) fn part_at(types: &Types, whole: Subobject, number: u64) -> Option<Subobject>
    requires sized { AreSized types.now }
    requires whole { IsPart types.now whole }
    ensures part { option_map (part_of types.now) result ≡ part_at (completions types.now) (part_of types.now whole) number }
    ensures built { IsBuilt types.now }
    ensures is { IsInnerIf types.now result }
{
    match layer(types, whole.t) {
        Term::Array(element, count) => element_number(types, whole, element, count, number),
        Term::Struct(tag) => member_number(types, whole, tag, number),
        Term::Union(tag) => first_member(types, whole, tag, number),
        Term::Void | Term::Int(_) | Term::Pointer(_) | Term::Function { .. } | Term::Const(_) => {
            None
        }
    }
}

/// The first scalar of a part of an object: the first part of its first part, and so on.
pub(crate) fn first_leaf(types: &Types, whole: Subobject) -> Option<Subobject>
    requires sized { AreSized types.now }
    requires whole { IsInner types.now whole }
    ensures part { option_map (part_of types.now) result ≡ first_leaf (completions types.now) (part_of types.now whole) }
    ensures is { IsInnerIf types.now result }
{
    let mut at = whole;
    while !is_scalar(types, at.t) {
        match part_at(types, at, 0) {
            Some(first) => at = first,
            None => return None,
        }
    }
    Some(at)
}
