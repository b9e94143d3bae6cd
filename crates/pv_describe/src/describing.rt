// What the modes `check` and `layout` print.
ghost use Rattle.std.specs.Prelude.{◌≡◌, ◌<◌, ◌≤◌, ◌+◌, ◌++◌, ◌^◌, length, is_some, IsTrue, IfOk, OnOk, true, false};
ghost use Rattle.pv_types.specs.Ty.{StructTag, UnionTag};
ghost use Rattle.pv_types.specs.Known.{tree, env, heading_at};
ghost use Rattle.pv_types.specs.Formed.{is_union_in, IsBuilt};
ghost use Rattle.pv_types.specs.Layouts.{look};
ghost use Rattle.pv_types.specs.LayoutParts.{or_none};
ghost use Rattle.pv_types.specs.Members.{placed_in};
ghost use Rattle.pv_typed.specs.Tables.{whole_unit};
ghost use Rattle.pv_typed.specs.Known.{AreKnown};
ghost use Rattle.pv_describe.specs.Describing as described;
ghost use Rattle.pv_describe.specs.DescribingParts as described_parts;
ghost use Rattle.pv_describe.specs.Bounds.{AreSmall};

use crate::lines::{head_line, member_line};
use pv_layout::{align, size};
use pv_typed::TypedUnit;
use pv_types::{NoMemory, Term, TypeId};
use std::alloc::Global;

/// What `check` prints: how many external declarations there are (C17 6.9p1). The only error is want of memory.
pub fn check_text(alloc: Global, u: &TypedUnit) -> Result<Vec<u8>, NoMemory>
    ensures { IfOk result (λ v. v.items ≡ described.check_text (whole_unit u.now)) }
{
    let count = u.declarations();
    Ok(format!(in alloc; "checked declarations={count}\n")?.into_bytes())
}

/// What `layout` prints: each structure and union with a tag that is completed at file scope, in that order, with its
/// members (C17 6.7.2.1p15, p16). Sizes, alignments and offsets are in bytes. The only error is want of memory.
pub fn layout_text(alloc: Global, u: &TypedUnit) -> Result<Vec<u8>, NoMemory>
    requires known { AreKnown u.now }
    requires small { AreSmall u.now.known }
    ensures { IfOk result (λ v. v.items ≡ described.layout_text (whole_unit u.now)) }
{
    let mut text = Vec::new(alloc);
    for t in u.tags() {
        add_tag(alloc, u, *t, &mut text)?;
    }
    Ok(text)
}

/// Adds a type's text: nothing, unless it is a complete structure or union (C17 6.7.2.1).
fn add_tag(alloc: Global, u: &TypedUnit, t: TypeId, text: &mut Vec<u8>) -> Result<(), NoMemory>
    requires known { t.0 < length u.now.known.terms }
    requires small { AreSmall u.now.known }
    ensures { OnOk result (text.new.items ≡ text.old.items ++ described.tag_text (whole_unit u.now) (tree u.now.known t.0)) }
{
    match u.types().view(t) {
        Term::Struct(tag) => add_struct(alloc, u, t, tag, text),
        Term::Union(tag) => add_union(alloc, u, t, tag, text),
        Term::Void
        | Term::Int(_)
        | Term::Pointer(_)
        | Term::Array(_, _)
        | Term::Function { .. }
        | Term::Const(_) => Ok(()),
    }
}

/// Adds a structure, if it is complete (C17 6.7.2.1p15).
fn add_struct(
    alloc: Global,
    u: &TypedUnit,
    t: TypeId,
    tag: u32,
    text: &mut Vec<u8>,
) -> Result<(), NoMemory>
    requires known { t.0 < length u.now.known.terms }
    requires is { tree u.now.known t.0 ≡ StructTag tag }
    requires made { tag < length u.now.known.tags }
    requires structure { (heading_at u.now.known.tags tag).union ≡ false }
    requires built { IsBuilt u.now.known }
    requires small { AreSmall u.now.known }
    ensures { OnOk result (text.new.items ≡ text.old.items ++ described.tag_text (whole_unit u.now) (StructTag tag)) }
{
    let types = u.types();
    if !types.is_complete(t) {
        return Ok(());
    }
    let head = head_line(
        alloc,
        b"struct ",
        tag_name(u, tag),
        size(types, t),
        align(types, t),
    )?;
    text.extend_from_slice(&head)?;
    add_struct_members(alloc, u, tag, text)
}

/// Adds a union, if it is complete (C17 6.7.2.1p16).
fn add_union(
    alloc: Global,
    u: &TypedUnit,
    t: TypeId,
    tag: u32,
    text: &mut Vec<u8>,
) -> Result<(), NoMemory>
    requires known { t.0 < length u.now.known.terms }
    requires is { tree u.now.known t.0 ≡ UnionTag tag }
    requires made { tag < length u.now.known.tags }
    requires union { (heading_at u.now.known.tags tag).union ≡ true }
    requires built { IsBuilt u.now.known }
    requires small { AreSmall u.now.known }
    ensures { OnOk result (text.new.items ≡ text.old.items ++ described.tag_text (whole_unit u.now) (UnionTag tag)) }
{
    let types = u.types();
    if !types.is_complete(t) {
        return Ok(());
    }
    let head = head_line(
        alloc,
        b"union ",
        tag_name(u, tag),
        size(types, t),
        align(types, t),
    )?;
    text.extend_from_slice(&head)?;
    add_union_members(alloc, u, tag, text)
}

/// Adds the members of a structure (C17 6.7.2.1p15).
fn add_struct_members(
    alloc: Global,
    u: &TypedUnit,
    tag: u32,
    text: &mut Vec<u8>,
) -> Result<(), NoMemory>
    requires made { tag < length u.now.known.tags }
    requires complete { IsTrue (is_some (look (env u.now.known) tag)) }
    requires structure { is_union_in u.now.known.done tag ≡ false }
    requires small { (or_none (look (env u.now.known) tag)).size ≤ 2 ^ 32 }
    ensures { OnOk result (text.new.items ≡ text.old.items ++ described.member_lines (whole_unit u.now) (placed_in (whole_unit u.now).completed (StructTag tag))) }
{
    let types = u.types();
    let mut end = 0u64;
    for m in types.members(tag) {
        let start = end.next_multiple_of(align(types, m.t));
        let bytes = size(types, m.t);
        let line = member_line(alloc, source_name(u, m.name), start, bytes)?;
        text.extend_from_slice(&line)?;
        end = start + bytes;
    }
    Ok(())
}

/// Adds the members of a union (C17 6.7.2.1p16).
fn add_union_members(
    alloc: Global,
    u: &TypedUnit,
    tag: u32,
    text: &mut Vec<u8>,
) -> Result<(), NoMemory>
    requires made { tag < length u.now.known.tags }
    requires complete { IsTrue (is_some (look (env u.now.known) tag)) }
    requires union { is_union_in u.now.known.done tag ≡ true }
    requires small { (or_none (look (env u.now.known) tag)).size ≤ 2 ^ 32 }
    ensures { OnOk result (text.new.items ≡ text.old.items ++ described.member_lines (whole_unit u.now) (placed_in (whole_unit u.now).completed (UnionTag tag))) }
{
    let types = u.types();
    for m in types.members(tag) {
        let line = member_line(alloc, source_name(u, m.name), 0, size(types, m.t))?;
        text.extend_from_slice(&line)?;
    }
    Ok(())
}

/// The name of a structure or union, empty where it has none (C17 6.7.2.3).
fn tag_name(u: &TypedUnit, tag: u32) -> &[u8]
    requires { tag < length u.now.known.tags }
    ensures { result.now ≡ described_parts.tag_name (whole_unit u.now) tag }
{
    match u.types().tag_name(tag) {
        Some(name) => source_name(u, name),
        None => &[],
    }
}

/// The text of a name of the source (C17 6.4.2.1).
fn source_name(u: &TypedUnit, name: u32) -> &[u8]
    ensures { result.now ≡ described.source_name (whole_unit u.now) name }
{
    let names = u.names();
    let place = u64::from(name) + 2;
    if place < u64::from(names.len()) {
        names.text(place as u32)
    } else {
        &[]
    }
}
