// Members of structures and unions, and their completion (C17 6.7.2.1).
ghost use Rattle.std.specs.Prelude.{◌≡◌, ◌&&◌, ◌<◌, ◌≤◌, ◌^◌, ◌++◌, ◌∷◌, [], Bool, List, Option, nat_le, length, map, IfOk, OnOk, IsTrue, Some, None};
ghost use Rattle.pv_types.specs.Known.{tree, trees, env, named_in};
ghost use Rattle.pv_types.specs.Formed.{members_in, MembersBelow, NamesDiffer, AreComplete};
ghost use Rattle.pv_types.specs.Layouts.{look, is_complete_in, layout_in, tag_type};
ghost use Rattle.pv_typed.specs.Tables.{whole_unit};
ghost use Rattle.pv_typed.specs.Known.{AreKnown};
ghost use Rattle.pv_typed.specs.Entries.{with_completed};
ghost use Rattle.pv_check.specs.Growing.{IsType};
ghost use Rattle.pv_check.specs.Open.{state_of, IsOpen, Goes, HasTag, after_type, Texts, IfAnswered};
ghost use Rattle.pv_check.specs.Tags.{filed_with, completion_of, with_member};
ghost use Rattle.pv_check.specs.TagParts.{is_new_member};
ghost use Rattle.pv_check.specs.Raw.{Raw};
ghost use Rattle.pv_check.specs.MembersRead.{members_if, members_shown, after_members, AreMembers, members_after};
ghost use Rattle.pv_types.specs.Ty.{Ty};
ghost use Rattle.pv_check.specs.Derivations.{Signature};
ghost use Rattle.pv_check.specs.WordRows.{total};
ghost use Rattle.pv_check.specs.Rows.{member_of};
ghost use Rattle.pv_check.specs.Seeing.{seen_in};
ghost use Rattle.pv_check.specs.SeenAfter.{after_seen};
ghost use Rattle.pv_check.specs.Specifiers.{with_type};
ghost use Rattle.pv_check.specs.Stepping.{AreSteps};
ghost use Rattle.pv_check.specs.ListedRows.{member_from_steps, with_some_members};

use crate::derivations::Step;
use crate::scopes::Scopes;
use crate::specifiers::{Seen, with_type};
use crate::tags::{composite_type, is_open};
use crate::type_names::derived_in;
use indexmap::IndexSet;
use pv_layout::measure;
use pv_typed::TypedUnit;
use pv_types::{Member, NoMemory, TypeId};
use std::alloc::Global;

/// Gives a tag its members (C17 6.7.2.1p8), and tells whether the type has 2^32 bytes at most (5.2.4.1).
pub(crate) fn fill(
    into: &mut TypedUnit,
    t: TypeId,
    union: bool,
    number: u32,
    members: Vec<Member>,
) -> bool
    requires known { AreKnown into.old }
    requires tag { HasTag into.old union number }
    requires incomplete { members_in into.old.known.done number ≡ [] }
    requires fresh { look (env into.old.known) number ≡ None }
    requires some { 0 < length members.items }
    requires types { MembersBelow (length into.old.known.terms) members.items }
    requires differ { NamesDiffer members.items }
    requires complete { AreComplete (env into.old.known) (named_in (trees into.old.known) members.items) }
    requires number { t.0 < length into.old.known.terms }
    requires tree { tree into.old.known t.0 ≡ tag_type union number }
    ensures whole { whole_unit into.new ≡ with_completed (whole_unit into.old) (record { tag = number; union = union; members = named_in (trees into.old.known) members.items }) }
    ensures number { t.0 < length into.new.known.terms }
    ensures tree { tree into.new.known t.0 ≡ tag_type union number }
    ensures small { result ≡ nat_le (layout_in (env into.new.known) (tag_type union number)).size (2 ^ 32) }
    ensures goes { IsTrue result → Goes into.old into.new }
{
    into.complete(number, members);
    measure(into.types(), t).is_some()
}

/// Notes a structure or union with a tag that is completed at file scope.
fn filed(s: &Scopes, into: &mut TypedUnit, name: Option<u32>, t: TypeId) -> Result<(), NoMemory>
    requires opened { IsOpen into.old s.now }
    requires number { t.0 < length into.old.known.terms }
    ensures goes { OnOk result (Goes into.old into.new) }
    ensures types { OnOk result (into.new.known ≡ into.old.known) }
    ensures state { OnOk result ((texts : Texts) (u : Bool) → state_of texts u s.now into.new ≡ filed_with name (tree into.old.known t.0) (state_of texts u s.now into.old)) }
{
    if name.is_none() {
        return Ok(());
    }
    if s.count() != 1 {
        return Ok(());
    }
    into.add_tag(t)?;
    Ok(())
}

/// The type of a structure or union whose members were read (C17 6.7.2.1p8), `None` where one of them completed the tag, or
/// where it is larger than 2^32 bytes.
pub(crate) fn completed(
    s: &Scopes,
    into: &mut TypedUnit,
    union: bool,
    name: Option<u32>,
    number: u32,
    members: Vec<Member>,
) -> Result<Option<TypeId>, NoMemory>
    requires opened { IsOpen into.old s.now }
    requires tag { HasTag into.old union number }
    requires some { 0 < length members.items }
    requires types { MembersBelow (length into.old.known.terms) members.items }
    requires differ { NamesDiffer members.items }
    requires complete { AreComplete (env into.old.known) (named_in (trees into.old.known) members.items) }
    ensures opened { IfAnswered result (λ k. IsOpen into.new s.now) }
    ensures goes { IfAnswered result (λ k. Goes into.old into.new) }
    ensures known { IfOk result (λ r. IsType into.new.known r) }
    ensures answer { IfOk result (λ r. (texts : Texts) (u : Bool) → after_type texts u s.now into.new r ≡ completion_of union name number (named_in (trees into.old.known) members.items) (state_of texts u s.now into.old)) }
{
    let t = composite_type(into, union, number)?;
    if !is_open(into, number) {
        return Ok(None);
    }
    if !fill(into, t, union, number, members) {
        return Ok(None);
    }
    filed(s, into, name, t)?;
    Ok(Some(t))
}

/// The members of a structure or union as far as they are read (C17 6.7.2.1p1), and their names.
#[derive(Drop)]
pub(crate) struct MemberList {
    pub(crate) list: Vec<Member>,
    pub(crate) names: IndexSet<u32>,
}

/// No members.
pub(crate) fn no_members(alloc: Global) -> MemberList
    ensures list { result.list.items ≡ [] }
    ensures names { result.names.keys ≡ [] }
{
    MemberList {
        list: Vec::new(alloc),
        names: IndexSet::new(alloc),
    }
}

/// Whether no member has the name (C17 6.2.3p1).
fn is_new_member(members: &MemberList, name: u32) -> bool
    requires { members.now.names.keys ≡ map (λ (x : Member). x.name) members.now.list.items }
    ensures { (ts : List Ty) → result ≡ is_new_member name (named_in ts members.now.list.items) }
{
    !members.names.contains(&name)
}

/// The members with one more, whose name is new.
fn with_one(members: MemberList, name: u32, t: TypeId) -> Result<MemberList, NoMemory>
    requires named { members.names.keys ≡ map (λ (x : Member). x.name) members.list.items }
    requires fresh { IsTrue (is_new_member name (named_in [] members.list.items)) }
    ensures list { IfOk result (λ r. r.list.items ≡ members.list.items ++ (record { name = name; t = t } ∷ [])) }
    ensures names { IfOk result (λ r. r.names.keys ≡ map (λ (x : Member). x.name) r.list.items) }
{
    let mut more = members;
    more.names.insert(name)?;
    more.list.push(Member { name, t })?;
    Ok(more)
}

/// Whether a member of this name and type may stand behind the others (C17 6.7.2.1p3).
fn may_add(into: &TypedUnit, members: &MemberList, name: u32, t: TypeId) -> bool
    requires number { t.0 < length into.now.known.terms }
    requires named { members.now.names.keys ≡ map (λ (x : Member). x.name) members.now.list.items }
    ensures { result ≡ is_complete_in (env into.now.known) (tree into.now.known t.0) && is_new_member name (named_in (trees into.now.known) members.now.list.items) }
{
    into.types().is_complete(t) && is_new_member(members, name)
}

/// The members with one more (C17 6.7.2.1p9), `None` where its type is incomplete or its name is there.
fn with_member(
    into: &TypedUnit,
    members: MemberList,
    name: u32,
    t: TypeId,
) -> Result<Option<MemberList>, NoMemory>
    requires number { t.0 < length into.now.known.terms }
    requires members { AreMembers into.now.known members }
    ensures members { IfAnswered result (AreMembers into.now.known) }
    ensures answer { IfOk result (λ r. (texts : Texts) (u : Bool) (s : Raw) → members_if into.now.known r ≡ with_member (state_of texts u s into.now) (members_shown into.now.known members) name (tree into.now.known t.0)) }
{
    if !may_add(into, &members, name, t) {
        return Ok(None);
    }
    let more = with_one(members, name, t)?;
    Ok(Some(more))
}

/// The members with one more, by its name, the type that its specifiers name, and the steps of its declarator.
pub(crate) fn member_of(
    s: &Scopes,
    into: &mut TypedUnit,
    named: Option<(u32, u32)>,
    base: TypeId,
    steps: &[Step],
    members: MemberList,
) -> Result<Option<MemberList>, NoMemory>
    requires opened { IsOpen into.old s.now }
    requires base { base.0 < length into.old.known.terms }
    requires steps { AreSteps into.old.known steps.now }
    requires members { AreMembers into.old.known members }
    ensures opened { OnOk result (IsOpen into.new s.now) }
    ensures goes { OnOk result (Goes into.old into.new) }
    ensures members { IfAnswered result (AreMembers into.new.known) }
    ensures answer { IfOk result (λ r. (texts : Texts) (u : Bool) (g : Option Signature) → after_members texts u s.now into.new r ≡ member_from_steps texts u s.now into.old named base members steps.now g) }
{
    let Some((name, _)) = named else {
        return Ok(None);
    };
    let Some(t) = derived_in(into, false, steps, base)? else {
        return Ok(None);
    };
    let r = with_member(into, members, name, t)?;
    Ok(r)
}

/// A structure or union among specifiers, whose members were read.
pub(crate) fn completed_seen(
    s: &Scopes,
    into: &mut TypedUnit,
    union: bool,
    name: Option<u32>,
    number: u32,
    members: MemberList,
    seen: Seen,
) -> Result<Option<Seen>, NoMemory>
    requires opened { IsOpen into.old s.now }
    requires tag { HasTag into.old union number }
    requires members { AreMembers into.old.known members }
    requires named { IsType into.old.known seen.named }
    ensures opened { IfAnswered result (λ x. IsOpen into.new s.now) }
    ensures goes { IfAnswered result (λ x. Goes into.old into.new) }
    ensures known { IfAnswered result (λ x. IsType into.new.known x.named) }
    ensures bounded { IfAnswered result (λ x. total x.words ≤ total seen.words) }
    ensures answer { IfOk result (λ r. (texts : Texts) (u : Bool) → after_seen texts u s.now into.new r ≡ with_some_members union name number (seen_in into.old.known seen) (members_after texts u s.now into.old members)) }
{
    if members.list.is_empty() {
        return Ok(None);
    }
    let Some(t) = completed(s, into, union, name, number, members.list)? else {
        return Ok(None);
    };
    Ok(with_type(seen, t))
}
