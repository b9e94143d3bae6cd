//! Structures, unions and enumerations with their lists (C17 6.7.2.1, 6.7.2.2), whose members have specifiers of their own.
ghost use Rattle.std.specs.Prelude.{◌≡◌, ◌<◌, ◌≤◌, ◌+◌, IfOk, IfSome, Some, length};
ghost use Rattle.pv_tree.specs.Tables.{Is, is_expression, is_declaration, is_declarator, tree_at, trees_at, optional_at, IsListOf};
ghost use Rattle.pv_types.specs.Known.{tree};
ghost use Rattle.pv_num.specs.declared.kinds.IntKind.TheVariants as kind;
ghost use Rattle.pv_check.specs.Declarators.{after_value};
ghost use Rattle.pv_check.specs.Growing.{IsType};
ghost use Rattle.pv_check.specs.MembersRead.{after_members, AreMembers, members_after};
ghost use Rattle.pv_check.specs.Open.{state_of, IsOpen, Goes, IfAnswered};
ghost use Rattle.pv_check.specs.Seeing.{seen_in};
ghost use Rattle.pv_check.specs.SeenAfter.{after_seen};
ghost use Rattle.pv_check.specs.Tags.{opened_enumeration};
ghost use Rattle.pv_check.specs.Typing.{members, member_in, member_declarators, member_declarator, enumerators, enumerator_in, enumerator_value};
ghost use Rattle.pv_check.specs.WordRows.{total};
ghost use Rattle.pv_check.specs.ListedRows.{with_composite_list, with_enumeration_list, declared_members, declared_member};

use crate::composites::{MemberList, completed_seen, member_of, no_members};
use crate::declarators::{integer_at, steps_of};
use crate::enumerations::{enumerated, enumeration_seen, opened_enumeration};
use crate::scopes::Scopes;
use crate::special_names::declared_name;
use crate::specifiers::Seen;
use crate::tags::opened;
use crate::type_names::specified_type;
use pv_token::Tokens;
use pv_tree::{Decl, ListId, NodeId, Unit};
use pv_typed::TypedUnit;
use pv_types::{NoMemory, TypeId};

/// A structure or a union with its members (C17 6.7.2.1p1).
#[cycle(typed)]
pub(crate) fn composite_listed(
    u: &Unit,
    t: &Tokens,
    s: &mut Scopes,
    into: &mut TypedUnit,
    union: bool,
    tag: Option<u32>,
    list: ListId,
    seen: Seen,
    unevaluated: bool,
) -> Result<Option<Seen>, NoMemory>
    requires list { IsListOf u.now is_declaration list }
    requires opened { IsOpen into.old s.old }
    requires named { IsType into.old.known seen.named }
    ensures opened { IfAnswered result (λ x. IsOpen into.new s.new) }
    ensures goes { IfAnswered result (λ x. Goes into.old into.new) }
    ensures known { IfAnswered result (λ x. IsType into.new.known x.named) }
    ensures bounded { IfAnswered result (λ x. total x.words ≤ total seen.words) }
    ensures answer { IfOk result (λ r. after_seen t.now.texts unevaluated s.new into.new r ≡ with_composite_list u.now.forest union tag list (seen_in into.old.known seen) (state_of t.now.texts unevaluated s.old into.old)) }
{
    let Some(number) = opened(s, into, union, tag)? else {
        return Ok(None);
    };
    let Some(ms) = members(u, t, s, into, list, unevaluated)? else {
        return Ok(None);
    };
    let r = completed_seen(s, into, union, tag, number, ms, seen)?;
    Ok(r)
}

/// The members of a list (C17 6.7.2.1p1).
#[cycle(typed)]
fn members(
    u: &Unit,
    t: &Tokens,
    s: &mut Scopes,
    into: &mut TypedUnit,
    list: ListId,
    unevaluated: bool,
) -> Result<Option<MemberList>, NoMemory>
    requires list { IsListOf u.now is_declaration list }
    requires opened { IsOpen into.old s.old }
    ensures opened { IfAnswered result (λ x. IsOpen into.new s.new) }
    ensures goes { IfAnswered result (λ x. Goes into.old into.new) }
    ensures members { IfAnswered result (AreMembers into.new.known) }
    ensures answer { IfOk result (λ r. after_members t.now.texts unevaluated s.new into.new r ≡ members (trees_at u.now.forest list) (state_of t.now.texts unevaluated s.old into.old)) }
{
    let nodes = u.list(list);
    let mut ms = no_members(s.allocator());
    let mut i = 0;
    while i < nodes.len() {
        let Some(more) = member(u, t, s, into, nodes[i], ms, unevaluated)? else {
            return Ok(None);
        };
        ms = more;
        i += 1;
    }
    Ok(Some(ms))
}

/// The members with those of one declaration more (C17 6.7.2.1p1, struct-declaration).
#[cycle(typed)]
fn member(
    u: &Unit,
    t: &Tokens,
    s: &mut Scopes,
    into: &mut TypedUnit,
    n: NodeId,
    before: MemberList,
    unevaluated: bool,
) -> Result<Option<MemberList>, NoMemory>
    requires node { Is u.now is_declaration n }
    requires opened { IsOpen into.old s.old }
    requires members { AreMembers into.old.known before }
    ensures opened { IfAnswered result (λ x. IsOpen into.new s.new) }
    ensures goes { IfAnswered result (λ x. Goes into.old into.new) }
    ensures members { IfAnswered result (AreMembers into.new.known) }
    ensures answer { IfOk result (λ r. after_members t.now.texts unevaluated s.new into.new r ≡ member_in (tree_at u.now.forest n) (members_after t.now.texts unevaluated s.old into.old before)) }
{
    match u.decl(n) {
        Decl::Member { specs, declarators } => {
            let Some(base) = specified_type(u, t, s, into, specs, unevaluated)? else {
                return Ok(None);
            };
            let r = member_declarators(u, t, s, into, declarators, base, before, unevaluated)?;
            Ok(r)
        }
        Decl::Function { .. }
        | Decl::Declaration { .. }
        | Decl::InitDeclarator { .. }
        | Decl::Enumerator { .. }
        | Decl::Parameter { .. }
        | Decl::TypeName { .. } => Ok(None),
    }
}

/// The members with those of a list of declarators more (C17 6.7.2.1p1, struct-declarator-list).
#[cycle(typed)]
fn member_declarators(
    u: &Unit,
    t: &Tokens,
    s: &mut Scopes,
    into: &mut TypedUnit,
    list: ListId,
    base: TypeId,
    before: MemberList,
    unevaluated: bool,
) -> Result<Option<MemberList>, NoMemory>
    requires list { IsListOf u.now is_declarator list }
    requires opened { IsOpen into.old s.old }
    requires base { base.0 < length into.old.known.terms }
    requires members { AreMembers into.old.known before }
    ensures opened { IfAnswered result (λ x. IsOpen into.new s.new) }
    ensures goes { IfAnswered result (λ x. Goes into.old into.new) }
    ensures members { IfAnswered result (AreMembers into.new.known) }
    ensures answer { IfOk result (λ r. after_members t.now.texts unevaluated s.new into.new r ≡ declared_members u.now.forest list (tree into.old.known base.0) (members_after t.now.texts unevaluated s.old into.old before)) }
{
    let nodes = u.list(list);
    let mut ms = before;
    let mut i = 0;
    while i < nodes.len() {
        let Some(more) = member_declarator(u, t, s, into, nodes[i], base, ms, unevaluated)? else {
            return Ok(None);
        };
        ms = more;
        i += 1;
    }
    Ok(Some(ms))
}

/// The members with that of a declarator more.
#[cycle(typed)]
fn member_declarator(
    u: &Unit,
    t: &Tokens,
    s: &mut Scopes,
    into: &mut TypedUnit,
    n: NodeId,
    base: TypeId,
    before: MemberList,
    unevaluated: bool,
) -> Result<Option<MemberList>, NoMemory>
    requires node { Is u.now is_declarator n }
    requires opened { IsOpen into.old s.old }
    requires base { base.0 < length into.old.known.terms }
    requires members { AreMembers into.old.known before }
    ensures opened { IfAnswered result (λ x. IsOpen into.new s.new) }
    ensures goes { IfAnswered result (λ x. Goes into.old into.new) }
    ensures members { IfAnswered result (AreMembers into.new.known) }
    ensures answer { IfOk result (λ r. after_members t.now.texts unevaluated s.new into.new r ≡ declared_member u.now.forest n (tree into.old.known base.0) (members_after t.now.texts unevaluated s.old into.old before)) }
{
    let alloc = s.allocator();
    let Some(steps) = steps_of(alloc, u, t, s, into, n, unevaluated)? else {
        return Ok(None);
    };
    let named = declared_name(u, n);
    let r = member_of(s, into, named, base, &steps.list, before)?;
    Ok(r)
}

/// An enumeration with its enumerators (C17 6.7.2.2p1).
#[cycle(typed)]
pub(crate) fn enumeration_listed(
    u: &Unit,
    t: &Tokens,
    s: &mut Scopes,
    into: &mut TypedUnit,
    tag: Option<u32>,
    list: ListId,
    seen: Seen,
    unevaluated: bool,
) -> Result<Option<Seen>, NoMemory>
    requires list { IsListOf u.now is_declaration list }
    requires opened { IsOpen into.old s.old }
    requires named { IsType into.old.known seen.named }
    ensures opened { IfAnswered result (λ x. IsOpen into.new s.new) }
    ensures goes { IfAnswered result (λ x. Goes into.old into.new) }
    ensures known { IfAnswered result (λ x. IsType into.new.known x.named) }
    ensures bounded { IfAnswered result (λ x. total x.words ≤ total seen.words) }
    ensures answer { IfOk result (λ r. after_seen t.now.texts unevaluated s.new into.new r ≡ with_enumeration_list u.now.forest tag list (seen_in into.old.known seen) (state_of t.now.texts unevaluated s.old into.old)) }
{
    if !opened_enumeration(s, into, tag)? {
        return Ok(None);
    }
    let Some(_last) = enumerators(u, t, s, into, list, unevaluated)? else {
        return Ok(None);
    };
    let r = enumeration_seen(s, into, tag, seen)?;
    Ok(r)
}

/// The enumerators of a list, and the value that one behind them has without its own (C17 6.7.2.2p3).
#[cycle(typed)]
fn enumerators(
    u: &Unit,
    t: &Tokens,
    s: &mut Scopes,
    into: &mut TypedUnit,
    list: ListId,
    unevaluated: bool,
) -> Result<Option<i128>, NoMemory>
    requires list { IsListOf u.now is_declaration list }
    requires opened { IsOpen into.old s.old }
    ensures opened { IfAnswered result (λ x. IsOpen into.new s.new) }
    ensures goes { IfAnswered result (λ x. Goes into.old into.new) }
    ensures answer { IfOk result (λ r. after_value t.now.texts unevaluated s.new into.new r ≡ enumerators (trees_at u.now.forest list) (state_of t.now.texts unevaluated s.old into.old)) }
{
    let nodes = u.list(list);
    let mut next = 0;
    let mut i = 0;
    while i < nodes.len() {
        let Some(more) = enumerator(u, t, s, into, nodes[i], next, unevaluated)? else {
            return Ok(None);
        };
        next = more;
        i += 1;
    }
    Ok(Some(next))
}

/// An enumerator, by the value that it has without its own, and that which the next one has so.
#[cycle(typed)]
fn enumerator(
    u: &Unit,
    t: &Tokens,
    s: &mut Scopes,
    into: &mut TypedUnit,
    n: NodeId,
    next: i128,
    unevaluated: bool,
) -> Result<Option<i128>, NoMemory>
    requires node { Is u.now is_declaration n }
    requires opened { IsOpen into.old s.old }
    ensures opened { IfAnswered result (λ x. IsOpen into.new s.new) }
    ensures goes { IfAnswered result (λ x. Goes into.old into.new) }
    ensures answer { IfOk result (λ r. after_value t.now.texts unevaluated s.new into.new r ≡ enumerator_in (tree_at u.now.forest n) (record { value = next; state = state_of t.now.texts unevaluated s.old into.old })) }
{
    match u.decl(n) {
        Decl::Enumerator { name, value } => {
            let Some(k) = enumerator_value(u, t, s, into, value, next, unevaluated)? else {
                return Ok(None);
            };
            let r = enumerated(s, into, name, k)?;
            Ok(r)
        }
        Decl::Function { .. }
        | Decl::Declaration { .. }
        | Decl::InitDeclarator { .. }
        | Decl::Member { .. }
        | Decl::Parameter { .. }
        | Decl::TypeName { .. } => Ok(None),
    }
}

/// The value of an enumerator (C17 6.7.2.2p3).
#[cycle(typed)]
fn enumerator_value(
    u: &Unit,
    t: &Tokens,
    s: &mut Scopes,
    into: &mut TypedUnit,
    value: Option<NodeId>,
    next: i128,
    unevaluated: bool,
) -> Result<Option<i128>, NoMemory>
    requires node { IfSome value (λ n. Is u.now is_expression n) }
    requires opened { IsOpen into.old s.old }
    ensures opened { IfAnswered result (λ x. IsOpen into.new s.new) }
    ensures goes { IfAnswered result (λ x. Goes into.old into.new) }
    ensures answer { IfOk result (λ r. after_value t.now.texts unevaluated s.new into.new r ≡ enumerator_value (optional_at u.now.forest value) next (state_of t.now.texts unevaluated s.old into.old)) }
{
    match value {
        None => Ok(Some(next)),
        Some(n) => {
            let r = integer_at(u, t, s, into, n, unevaluated)?;
            Ok(r)
        }
    }
}
