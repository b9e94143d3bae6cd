// The parts of arrays, structures and unions that are shown (C17 6.2.5p20).
ghost use Rattle.std.specs.Prelude.{◌≡◌, ◌<◌, ◌≤◌, ◌*◌, ◌^◌, nat_lt, length, is_some, IsTrue, IfOk, OnOk, Some, None, true, false};
ghost use Rattle.pv_types.specs.Ty.{ArrayOf, StructTag, UnionTag};
ghost use Rattle.pv_types.specs.Sorts.{bare_type};
ghost use Rattle.pv_types.specs.Known.{tree, env, heading_at};
ghost use Rattle.pv_types.specs.Formed.{members_in, is_union_in};
ghost use Rattle.pv_types.specs.Layouts.{look};
ghost use Rattle.pv_types.specs.LayoutParts.{or_none};
ghost use Rattle.pv_types.specs.Places.{struct_places, union_places};
ghost use Rattle.pv_typed.specs.Tables.{whole_unit};
ghost use Rattle.pv_describe.specs.Bounds.{AreSmall};
ghost use Rattle.pv_values.specs.Values as specified;
ghost use Rattle.pv_values.specs.ShapeParts as specified_parts;
ghost use Rattle.pv_values.specs.ShapeParts.{AreShown, AreParts, elements_of, first_parts, with_part};

use pv_layout::{align, bare, measure, size};
use pv_typed::TypedUnit;
use pv_types::{Member, NoMemory, Term, TypeId, Types};
use std::alloc::Global;

// The most elements of an array that are shown.
const MOST_ELEMENTS: u64 = 16;

// The most members of a structure or union that are shown.
const MOST_MEMBERS: usize = 64;

/// A part: the name of a member, where it begins, and its type.
#[derive(Clone, Copy)]
pub(crate) struct Part {
    pub name: Option<u32>,
    pub offset: u64,
    pub t: TypeId,
}

/// The parts that are shown, between these bytes, and whether there are more.
#[derive(Drop)]
pub(crate) struct Shape {
    pub opens: u8,
    pub closes: u8,
    pub parts: Vec<Part>,
    pub more: bool,
}

/// The parts of an array, structure or union that is complete; any other type has none.
pub(crate) fn shape_of(alloc: Global, u: &TypedUnit, t: TypeId) -> Result<Option<Shape>, NoMemory>
    requires known { t.0 < length u.now.known.terms }
    requires small { AreSmall u.now.known }
    ensures shape { IfOk result (AreShown (whole_unit u.now) u.now.known (bare_type (tree u.now.known t.0))) }
    ensures parts { IfOk result (AreParts (length u.now.known.terms)) }
{
    let types = u.types();
    let whole = bare(types, t);
    match types.view(whole) {
        Term::Array(element, Some(n)) => array_shape(alloc, u, whole, element, n),
        Term::Struct(tag) => struct_shape(alloc, u, tag),
        Term::Union(tag) => union_shape(alloc, u, tag),
        _ => Ok(None),
    }
}

// Whether a type is complete (C17 6.2.5p1), and its objects are not too large.
fn is_measured(types: &Types, t: TypeId) -> bool
    requires { t.0 < length types.now.terms }
    ensures { result ≡ specified.is_measured (env types.now) (tree types.now t.0) }
{
    if types.is_complete(t) {
        measure(types, t).is_some()
    } else {
        false
    }
}

// The elements of an array, if it is measured.
fn array_shape(
    alloc: Global,
    u: &TypedUnit,
    whole: TypeId,
    element: TypeId,
    n: u64,
) -> Result<Option<Shape>, NoMemory>
    requires known { whole.0 < length u.now.known.terms }
    requires part { element.0 < length u.now.known.terms }
    requires is { tree u.now.known whole.0 ≡ ArrayOf (tree u.now.known element.0) (Some n) }
    ensures shape { IfOk result (AreShown (whole_unit u.now) u.now.known (ArrayOf (tree u.now.known element.0) (Some n))) }
    ensures parts { IfOk result (AreParts (length u.now.known.terms)) }
{
    let types = u.types();
    if !is_measured(types, whole) {
        return Ok(None);
    }
    let bytes = size(types, element);
    let parts = elements(alloc, element, bytes, shown_of(n))?;
    Ok(Some(bracketed(parts, n)))
}

// How many elements are shown.
fn shown_of(n: u64) -> u64
    ensures value { result ≡ specified_parts.shown_of n }
    ensures most { result ≤ n }
{
    if n < MOST_ELEMENTS { n } else { MOST_ELEMENTS }
}

// These elements of so many.
fn bracketed(parts: Vec<Part>, n: u64) -> Shape
    ensures { result ≡ record { opens = 91; closes = 93; parts = parts; more = nat_lt 16 n } }
{
    Shape {
        opens: b'[',
        closes: b']',
        parts,
        more: MOST_ELEMENTS < n,
    }
}

// So many elements of this size.
fn elements(alloc: Global, element: TypeId, bytes: u64, count: u64) -> Result<Vec<Part>, NoMemory>
    requires { count * bytes ≤ 2 ^ 32 }
    ensures { IfOk result (λ v. v.items ≡ elements_of element bytes 0 count) }
{
    let mut parts = Vec::new(alloc);
    for i in 0..count {
        parts.push(Part {
            name: None,
            offset: i * bytes,
            t: element,
        })?;
    }
    Ok(parts)
}

// The members of a structure, if it is complete.
fn struct_shape(alloc: Global, u: &TypedUnit, tag: u32) -> Result<Option<Shape>, NoMemory>
    requires made { tag < length u.now.known.tags }
    requires structure { (heading_at u.now.known.tags tag).union ≡ false }
    requires small { AreSmall u.now.known }
    ensures shape { IfOk result (AreShown (whole_unit u.now) u.now.known (StructTag tag)) }
    ensures parts { IfOk result (AreParts (length u.now.known.terms)) }
{
    let types = u.types();
    let count = types.members(tag).len();
    if count == 0 {
        return Ok(None);
    }
    let parts = struct_parts(alloc, u, tag)?;
    Ok(Some(braced(parts, count)))
}

// The members of a union, if it is complete.
fn union_shape(alloc: Global, u: &TypedUnit, tag: u32) -> Result<Option<Shape>, NoMemory>
    requires made { tag < length u.now.known.tags }
    requires union { (heading_at u.now.known.tags tag).union ≡ true }
    ensures shape { IfOk result (AreShown (whole_unit u.now) u.now.known (UnionTag tag)) }
    ensures parts { IfOk result (AreParts (length u.now.known.terms)) }
{
    let types = u.types();
    let count = types.members(tag).len();
    if count == 0 {
        return Ok(None);
    }
    let parts = union_parts(alloc, u, tag)?;
    Ok(Some(braced(parts, count)))
}

// These of so many members.
fn braced(parts: Vec<Part>, members: usize) -> Shape
    ensures { result ≡ record { opens = 123; closes = 125; parts = parts; more = nat_lt 64 members } }
{
    Shape {
        opens: b'{',
        closes: b'}',
        parts,
        more: MOST_MEMBERS < members,
    }
}

// The members of a structure that are shown, each behind the one before (C17 6.7.2.1p15).
fn struct_parts(alloc: Global, u: &TypedUnit, tag: u32) -> Result<Vec<Part>, NoMemory>
    requires made { tag < length u.now.known.tags }
    requires complete { IsTrue (is_some (look (env u.now.known) tag)) }
    requires structure { is_union_in u.now.known.done tag ≡ false }
    requires small { (or_none (look (env u.now.known) tag)).size ≤ 2 ^ 32 }
    ensures { IfOk result (λ v. v.items ≡ first_parts (struct_places u.now.known 0 (members_in u.now.known.done tag))) }
{
    let types = u.types();
    let mut parts = Vec::new(alloc);
    let mut end = 0u64;
    for m in types.members(tag) {
        let start = end.next_multiple_of(align(types, m.t));
        let bytes = size(types, m.t);
        add_part(&mut parts, member_at(*m, start))?;
        end = start + bytes;
    }
    Ok(parts)
}

// The members of a union that are shown, which all begin where it begins (C17 6.7.2.1p16).
fn union_parts(alloc: Global, u: &TypedUnit, tag: u32) -> Result<Vec<Part>, NoMemory>
    requires { tag < length u.now.known.tags }
    ensures { IfOk result (λ v. v.items ≡ first_parts (union_places u.now.known (members_in u.now.known.done tag))) }
{
    let mut parts = Vec::new(alloc);
    for m in u.types().members(tag) {
        add_part(&mut parts, member_at(*m, 0))?;
    }
    Ok(parts)
}

// A member that begins there.
fn member_at(m: Member, start: u64) -> Part
    ensures { result ≡ record { name = Some m.name; offset = start; t = m.t } }
{
    Part {
        name: Some(m.name),
        offset: start,
        t: m.t,
    }
}

// Adds a part, unless as many as are shown are there.
fn add_part(parts: &mut Vec<Part>, part: Part) -> Result<(), NoMemory>
    ensures { OnOk result (parts.new.items ≡ with_part parts.old.items part) }
{
    if parts.len() < MOST_MEMBERS {
        parts.push(part)?;
    }
    Ok(())
}
