// The scalars of a type that one byte lies in.
ghost use Rattle.std.specs.Prelude.{◌≡◌, ◌<◌, ◌≤◌, ◌^◌, ◌+◌, ◌&&◌, ◌||◌, nat_lt, ℕ, Bool, length, IsTrue, is_some, false, true};
ghost use Rattle.pv_types.specs.Ty.{Ty};
ghost use Rattle.pv_types.specs.Qualifiers.{is_const};
ghost use Rattle.pv_types.specs.Known.{tree, env};
ghost use Rattle.pv_types.specs.Formed.{named_members, is_union_in, IsBuilt};
ghost use Rattle.pv_types.specs.Layouts.{layout_in, is_complete_in, look};
ghost use Rattle.pv_types.specs.LayoutParts.{part_count, union_parts, struct_parts, or_none};
ghost use Rattle.pv_layout.specs.Parts.{leaves};
ghost use Rattle.pv_effect.specs.EffectiveType.{some_over, accepts};
ghost use Rattle.pv_effect.specs.Searches.{is_sought, passes, comes_to, IsBelow, is_over_type, is_over_members, element_parts};

use crate::kinds::{is_character, same_or_counterpart};
use pv_layout::{bare, last_deep, size};
use pv_types::{Term, TypeId, Types};

/// Which scalar a byte has to lie in.
#[derive(Clone, Copy)]
pub(crate) enum Sought {
    /// One of any type.
    Any,
    /// One that accepts the mark: the number of the type that was stored, and which of its bytes the byte is.
    Accepting { stored: u32, place: u8 },
}

/// What a search comes to, or what it goes on in.
#[derive(Clone, Copy)]
enum Search {
    Settled(bool),
    In { t: TypeId, offset: u64 },
}

/// Whether the byte lies in a scalar part that is what is sought. The members of a union all count.
pub(crate) fn lies_in(types: &Types, t: TypeId, offset: u64, sought: Sought) -> bool
    requires known { t.0 < length types.now.terms }
    requires complete { IsTrue (is_complete_in (env types.now) (tree types.now t.0)) }
    requires small { (layout_in (env types.now) (tree types.now t.0)).size ≤ 2 ^ 32 }
    ensures { result ≡ some_over (env types.now) (is_sought types.now sought) offset (leaves (layout_in (env types.now) (tree types.now t.0)).parts) }
{
    found(types, t, offset, sought)
}

/// The same: a loop down to the scalar, so that a deep type needs no deep stack. Qualifiers around a type change nothing
/// of what it looks for, and are left out.
#[cycle(found)]
fn found(types: &Types, t: TypeId, offset: u64, sought: Sought) -> bool
    requires known { t.0 < length types.now.terms }
    requires complete { IsTrue (is_complete_in (env types.now) (tree types.now t.0)) }
    requires small { (layout_in (env types.now) (tree types.now t.0)).size ≤ 2 ^ 32 }
    ensures { result ≡ some_over (env types.now) (passes types.now sought) offset (layout_in (env types.now) (tree types.now t.0)).parts }
{
    let mut at = bare(types, t);
    let mut rest = offset;
    loop {
        match below(types, at, rest, sought) {
            Search::Settled(answer) => return answer,
            Search::In { t, offset } => {
                at = bare(types, t);
                rest = offset;
            }
        }
    }
}

/// Where in the type, which has no qualifiers around it, to look for the byte.
#[cycle(found)]
fn below(types: &Types, t: TypeId, offset: u64, sought: Sought) -> Search
    requires known { t.0 < length types.now.terms }
    requires unqualified { is_const (tree types.now t.0) ≡ false }
    requires complete { IsTrue (is_complete_in (env types.now) (tree types.now t.0)) }
    requires small { (layout_in (env types.now) (tree types.now t.0)).size ≤ 2 ^ 32 }
    ensures value { comes_to (passes types.now sought) types.now result ≡ some_over (env types.now) (passes types.now sought) offset (layout_in (env types.now) (tree types.now t.0)).parts }
    ensures below { IsBelow types.now (part_count (layout_in (env types.now) (tree types.now t.0))) result }
{
    match types.view(t) {
        Term::Array(element, Some(n)) => in_array(types, element, n, offset),
        Term::Struct(tag) => in_structure(types, tag, offset),
        Term::Union(tag) => in_union(types, tag, offset, sought),
        Term::Int(_) | Term::Pointer(_) => Search::Settled(in_scalar(types, t, offset, sought)),
        Term::Void | Term::Array(_, None) | Term::Function { .. } | Term::Const(_) =>
            Search::Settled(false),
    }
}

/// Whether the scalar has such a byte, and is what is sought.
fn in_scalar(types: &Types, t: TypeId, offset: u64, sought: Sought) -> bool
    requires known { t.0 < length types.now.terms }
    requires complete { IsTrue (is_complete_in (env types.now) (tree types.now t.0)) }
    requires small { (layout_in (env types.now) (tree types.now t.0)).size ≤ 2 ^ 32 }
    ensures { result ≡ (nat_lt offset (layout_in (env types.now) (tree types.now t.0)).size && is_sought types.now sought offset (tree types.now t.0)) }
{
    if offset >= size(types, t) {
        return false;
    }
    match sought {
        Sought::Any => true,
        Sought::Accepting { stored, place } => accepts(types, t, offset, stored, place),
    }
}

/// Whether a scalar accepts the mark on one of its bytes (C17 6.5p7).
fn accepts(types: &Types, t: TypeId, byte: u64, stored: u32, place: u8) -> bool
    requires { t.0 < length types.now.terms }
    ensures { result ≡ accepts types.now (stored, place) byte (tree types.now t.0) }
{
    if is_character(types, t) {
        return true;
    }
    let stored = TypeId(stored);
    if !types.has(stored) {
        return false;
    }
    u64::from(place) == byte && same_or_counterpart(types, t, stored)
}

/// The element that holds the byte (C17 6.5.2.1p2).
fn in_array(types: &Types, element: TypeId, n: u64, offset: u64) -> Search
    requires built { IsBuilt types.now }
    requires known { element.0 < length types.now.terms }
    requires complete { IsTrue (is_complete_in (env types.now) (tree types.now element.0)) }
    requires small { (layout_in (env types.now) (tree types.now element.0)).size ≤ 2 ^ 32 }
    ensures value { (f : ℕ → Ty → Bool) → comes_to f types.now result ≡ some_over (env types.now) f offset (element_parts n (layout_in (env types.now) (tree types.now element.0))) }
    ensures below { IsBelow types.now (part_count (layout_in (env types.now) (tree types.now element.0)) + 1) result }
{
    let size = size(types, element);
    if offset / size < n {
        Search::In {
            t: element,
            offset: offset % size,
        }
    } else {
        Search::Settled(false)
    }
}

/// The member that holds the byte: the members of a structure don't overlap (C17 6.7.2.1p15).
fn in_structure(types: &Types, tag: u32, offset: u64) -> Search
    requires made { tag < length types.now.tags }
    requires complete { IsTrue (is_some (look (env types.now) tag)) }
    requires structure { is_union_in types.now.done tag ≡ false }
    requires small { (or_none (look (env types.now) tag)).size ≤ 2 ^ 32 }
    ensures value { (f : ℕ → Ty → Bool) → comes_to f types.now result ≡ some_over (env types.now) f offset (struct_parts (env types.now) (named_members types.now tag) 0) }
    ensures below { IsBelow types.now (part_count (or_none (look (env types.now) tag))) result }
{
    match types.member_over(tag, offset) {
        Some((start, t)) => Search::In {
            t,
            offset: offset - start,
        },
        None => Search::Settled(false),
    }
}

/// One of the members, where no member of another type has it: all begin where the union does (C17 6.7.2.1p16).
#[cycle(found)]
fn in_union(types: &Types, tag: u32, offset: u64, sought: Sought) -> Search
    requires made { tag < length types.now.tags }
    requires complete { IsTrue (is_some (look (env types.now) tag)) }
    requires union { is_union_in types.now.done tag ≡ true }
    requires small { (or_none (look (env types.now) tag)).size ≤ 2 ^ 32 }
    ensures value { comes_to (passes types.now sought) types.now result ≡ some_over (env types.now) (passes types.now sought) offset (union_parts (env types.now) (named_members types.now tag)) }
    ensures below { IsBelow types.now (part_count (or_none (look (env types.now) tag))) result }
{
    let members = types.members(tag);
    let main = members[last_deep(types, members)].t;
    if found_in_others(types, tag, main, offset, sought) {
        Search::Settled(true)
    } else {
        Search::In { t: main, offset }
    }
}

/// Whether a member of another type than the one left out has it.
#[cycle(found)]
fn found_in_others(types: &Types, tag: u32, main: TypeId, offset: u64, sought: Sought) -> bool
    requires made { tag < length types.now.tags }
    requires complete { IsTrue (is_some (look (env types.now) tag)) }
    requires union { is_union_in types.now.done tag ≡ true }
    requires small { (or_none (look (env types.now) tag)).size ≤ 2 ^ 32 }
    ensures { (result || is_over_type types.now sought offset main.0) ≡ (is_over_members types.now sought offset tag || is_over_type types.now sought offset main.0) }
{
    for m in types.members(tag) {
        if m.t.0 != main.0 {
            if found(types, m.t, offset, sought) {
                return true;
            }
        }
    }
    false
}
