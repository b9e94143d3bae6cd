// Specifiers (C17 6.7.1 to 6.7.3), with the scopes and tables that typing fills.
ghost use Rattle.std.specs.Prelude.{◌≡◌, ◌<◌, ◌≤◌, ◌+◌, ◌-◌, ◌^◌, ℕ, Some, None, IfOk, OnOk, IfSome, IsTrue};
ghost use Rattle.pv_tree.specs.Tables.{Forest, Is, HasList, is_specifier, is_declaration, specifier_at, trees_at, IsListOf};
ghost use Rattle.pv_tree.specs.Children.{HasSpecChildren};
ghost use Rattle.pv_check.specs.ListedRows.{list_specifier, list_of, is_unlisted, is_no_keyword, with_composite_tag, with_enumeration_tag, with_typedef_name};
ghost use Rattle.pv_check.specs.Specifiers.{Seen as WhatIsSeen, typedef_of, with_type};
ghost use Rattle.pv_check.specs.State.{State};
ghost use Rattle.pv_check.specs.Scopes.{look};
ghost use Rattle.pv_tree.specs.Nodes.{specifier_of};
ghost use Rattle.pv_tree.specs.Syntax.{Keyword};
ghost use Rattle.pv_types.specs.Known.{Known};
ghost use Rattle.pv_check.specs.Open.{state_of, IsOpen, Goes, EntryKnown, IfAnswered};
ghost use Rattle.pv_check.specs.Raw.{meaning_if};
ghost use Rattle.pv_typed.specs.Tables.{Stored};
ghost use Rattle.pv_check.specs.Growing.{IsType, type_if};
ghost use Rattle.pv_check.specs.WordRows.{total};
ghost use Rattle.pv_check.specs.Seeing.{seen_in};
ghost use Rattle.pv_check.specs.SeenAfter.{after_seen};
ghost use Rattle.pv_check.specs.Typing.{specifier, specifiers};

use crate::listed::{composite_listed, enumeration_listed};
use crate::scopes::{Entry, Scopes};
use crate::specifiers::{Seen, nothing_seen, with_keyword, with_type};
use crate::tags::{composite_tag, enumeration_tag};
use pv_token::{Tokens, Word};
use pv_tree::{ListId, NodeId, Spec, Unit};
use pv_typed::TypedUnit;
use pv_types::{NoMemory, TypeId};

/// The word that a specifier is, if it is one.
fn keyword_of(spec: Spec) -> Option<Word>
    ensures word { IfSome result (λ w. (f : Forest) (line : ℕ) → specifier_of f line spec ≡ Keyword line w) }
    ensures others { result ≡ None → IsTrue (is_no_keyword spec) }
{
    match spec {
        Spec::Typedef => Some(Word::Typedef),
        Spec::Extern => Some(Word::Extern),
        Spec::Static => Some(Word::Static),
        Spec::Const => Some(Word::Const),
        Spec::Void => Some(Word::Void),
        Spec::Char => Some(Word::Char),
        Spec::Short => Some(Word::Short),
        Spec::Int => Some(Word::Int),
        Spec::Long => Some(Word::Long),
        Spec::Signed => Some(Word::Signed),
        Spec::Unsigned => Some(Word::Unsigned),
        Spec::Bool => Some(Word::Bool),
        _ => None,
    }
}

/// A tag specifier without a list, `struct name` or `union name`.
fn composite_seen(
    t: &Tokens,
    s: &mut Scopes,
    into: &mut TypedUnit,
    union: bool,
    name: u32,
    seen: Seen,
    unevaluated: bool,
) -> Result<Option<Seen>, NoMemory>
    requires opened { IsOpen into.old s.old }
    requires named { IsType into.old.known seen.named }
    ensures opened { OnOk result (IsOpen into.new s.new) }
    ensures goes { OnOk result (Goes into.old into.new) }
    ensures known { IfAnswered result (λ x. IsType into.new.known x.named) }
    ensures bounded { IfAnswered result (λ x. total x.words ≤ total seen.words) }
    ensures answer { IfOk result (λ r. after_seen t.now.texts unevaluated s.new into.new r ≡ with_composite_tag union name (seen_in into.old.known seen) (state_of t.now.texts unevaluated s.old into.old)) }
{
    let Some(named) = composite_tag(s, into, union, name)? else {
        return Ok(None);
    };
    Ok(with_type(seen, named))
}

/// A tag specifier without a list, `enum name`.
fn enumeration_seen(
    t: &Tokens,
    s: &Scopes,
    into: &mut TypedUnit,
    name: u32,
    seen: Seen,
    unevaluated: bool,
) -> Result<Option<Seen>, NoMemory>
    requires opened { IsOpen into.old s.now }
    requires named { IsType into.old.known seen.named }
    ensures opened { OnOk result (IsOpen into.new s.now) }
    ensures goes { OnOk result (Goes into.old into.new) }
    ensures known { IfAnswered result (λ x. IsType into.new.known x.named) }
    ensures bounded { IfAnswered result (λ x. total x.words ≤ total seen.words) }
    ensures answer { IfOk result (λ r. after_seen t.now.texts unevaluated s.now into.new r ≡ with_enumeration_tag name (seen_in into.old.known seen) (state_of t.now.texts unevaluated s.now into.old)) }
{
    let Some(named) = enumeration_tag(s, into, name)? else {
        return Ok(None);
    };
    Ok(with_type(seen, named))
}

/// The type that a typedef name stands for (C17 6.7.8p3).
fn typedef_of(found: Option<Entry>) -> Option<TypeId>
    ensures value { (m : Known) → type_if m result ≡ typedef_of (meaning_if m found) }
    ensures known { (m : Stored) → IfSome found (EntryKnown m) → IsType m.known result }
{
    match found {
        Some(Entry::Typedef(t)) => Some(t),
        Some(Entry::Object(_)) | Some(Entry::Function(_)) | Some(Entry::Constant(_)) => None,
        None => None,
    }
}

/// A typedef name (C17 6.7.8p3).
fn typedef_seen(
    t: &Tokens,
    s: &Scopes,
    into: &TypedUnit,
    name: u32,
    seen: Seen,
    unevaluated: bool,
) -> Option<Seen>
    requires opened { IsOpen into.now s.now }
    requires named { IsType into.now.known seen.named }
    ensures known { IfSome result (λ x. IsType into.now.known x.named) }
    ensures bounded { IfSome result (λ x. total x.words ≤ total seen.words) }
    ensures answer { after_seen t.now.texts unevaluated s.now into.now result ≡ with_typedef_name name (seen_in into.now.known seen) (state_of t.now.texts unevaluated s.now into.now) }
{
    let found = s.look(name);
    let Some(named) = typedef_of(found) else {
        return None;
    };
    with_type(seen, named)
}

/// A specifier with a list.
#[derive(Clone, Copy)]
pub(crate) enum Listed {
    /// A structure or a union with its members (C17 6.7.2.1).
    Composite {
        union: bool,
        name: Option<u32>,
        list: ListId,
    },
    /// An enumeration with its enumerators (C17 6.7.2.2).
    Enumeration {
        name: Option<u32>,
        list: ListId,
    },
}

/// The list that a specifier has, if it has one.
fn listed_of(spec: Spec) -> Option<Listed>
    ensures value { IfSome result (λ x. (f : Forest) (line : ℕ) (seen : WhatIsSeen) (z : State) → specifier (specifier_of f line spec) seen z ≡ list_specifier f x seen z) }
    ensures lists { (f : Forest) (k : ℕ) → HasSpecChildren f k spec → IfSome result (λ x. HasList f k is_declaration (list_of x)) }
    ensures others { result ≡ None → IsTrue (is_unlisted spec) }
{
    match spec {
        Spec::Struct { name, members } => Some(Listed::Composite {
            union: false,
            name,
            list: members,
        }),
        Spec::Union { name, members } => Some(Listed::Composite {
            union: true,
            name,
            list: members,
        }),
        Spec::Enum {
            name,
            enumerators,
            ..
        } => Some(Listed::Enumeration {
            name,
            list: enumerators,
        }),
        _ => None,
    }
}

/// A tag specifier without a list, or a typedef name.
fn named_specifier(
    t: &Tokens,
    s: &mut Scopes,
    into: &mut TypedUnit,
    spec: Spec,
    seen: Seen,
    unevaluated: bool,
) -> Result<Option<Seen>, NoMemory>
    requires plain { IsTrue (is_unlisted spec) }
    requires other { IsTrue (is_no_keyword spec) }
    requires opened { IsOpen into.old s.old }
    requires named { IsType into.old.known seen.named }
    ensures opened { OnOk result (IsOpen into.new s.new) }
    ensures goes { OnOk result (Goes into.old into.new) }
    ensures known { IfAnswered result (λ x. IsType into.new.known x.named) }
    ensures bounded { IfAnswered result (λ x. total x.words ≤ total seen.words) }
    ensures answer { (f : Forest) (line : ℕ) → IfOk result (λ r. after_seen t.now.texts unevaluated s.new into.new r ≡ specifier (specifier_of f line spec) (seen_in into.old.known seen) (state_of t.now.texts unevaluated s.old into.old)) }
{
    match spec {
        Spec::StructTag(name) => composite_seen(t, s, into, false, name, seen, unevaluated),
        Spec::UnionTag(name) => composite_seen(t, s, into, true, name, seen, unevaluated),
        Spec::EnumTag(name) => enumeration_seen(t, s, into, name, seen, unevaluated),
        Spec::TypedefName(name) => Ok(typedef_seen(t, s, into, name, seen, unevaluated)),
        _ => Ok(None),
    }
}

/// One specifier more that has no list (C17 6.7p1).
fn plain_specifier(
    t: &Tokens,
    s: &mut Scopes,
    into: &mut TypedUnit,
    spec: Spec,
    seen: Seen,
    unevaluated: bool,
) -> Result<Option<Seen>, NoMemory>
    requires plain { IsTrue (is_unlisted spec) }
    requires opened { IsOpen into.old s.old }
    requires named { IsType into.old.known seen.named }
    requires few { total seen.words < 2 ^ 64 - 1 }
    ensures opened { OnOk result (IsOpen into.new s.new) }
    ensures goes { OnOk result (Goes into.old into.new) }
    ensures known { IfAnswered result (λ x. IsType into.new.known x.named) }
    ensures bounded { IfAnswered result (λ x. total x.words ≤ total seen.words + 1) }
    ensures answer { (f : Forest) (line : ℕ) → IfOk result (λ r. after_seen t.now.texts unevaluated s.new into.new r ≡ specifier (specifier_of f line spec) (seen_in into.old.known seen) (state_of t.now.texts unevaluated s.old into.old)) }
{
    if let Some(word) = keyword_of(spec) {
        return Ok(with_keyword(seen, word));
    }
    named_specifier(t, s, into, spec, seen, unevaluated)
}

/// One specifier more (C17 6.7p1).
#[cycle(typed)]
pub(crate) fn specifier(
    u: &Unit,
    t: &Tokens,
    s: &mut Scopes,
    into: &mut TypedUnit,
    n: NodeId,
    seen: Seen,
    unevaluated: bool,
) -> Result<Option<Seen>, NoMemory>
    requires node { Is u.now is_specifier n }
    requires opened { IsOpen into.old s.old }
    requires named { IsType into.old.known seen.named }
    requires few { total seen.words < 2 ^ 64 - 1 }
    ensures opened { IfAnswered result (λ x. IsOpen into.new s.new) }
    ensures goes { IfAnswered result (λ x. Goes into.old into.new) }
    ensures known { IfAnswered result (λ x. IsType into.new.known x.named) }
    ensures bounded { IfAnswered result (λ x. total x.words ≤ total seen.words + 1) }
    ensures answer { IfOk result (λ r. after_seen t.now.texts unevaluated s.new into.new r ≡ specifier (specifier_at u.now.forest n) (seen_in into.old.known seen) (state_of t.now.texts unevaluated s.old into.old)) }
{
    let spec = u.spec(n);
    match listed_of(spec) {
        Some(x) => {
            let r = listed_specifier(u, t, s, into, x, seen, unevaluated)?;
            Ok(r)
        }
        None => {
            let r = plain_specifier(t, s, into, spec, seen, unevaluated)?;
            Ok(r)
        }
    }
}

/// One specifier more that has a list.
#[cycle(typed)]
fn listed_specifier(
    u: &Unit,
    t: &Tokens,
    s: &mut Scopes,
    into: &mut TypedUnit,
    x: Listed,
    seen: Seen,
    unevaluated: bool,
) -> Result<Option<Seen>, NoMemory>
    requires list { IsListOf u.now is_declaration (list_of x) }
    requires opened { IsOpen into.old s.old }
    requires named { IsType into.old.known seen.named }
    ensures opened { IfAnswered result (λ y. IsOpen into.new s.new) }
    ensures goes { IfAnswered result (λ y. Goes into.old into.new) }
    ensures known { IfAnswered result (λ y. IsType into.new.known y.named) }
    ensures bounded { IfAnswered result (λ y. total y.words ≤ total seen.words) }
    ensures answer { IfOk result (λ r. after_seen t.now.texts unevaluated s.new into.new r ≡ list_specifier u.now.forest x (seen_in into.old.known seen) (state_of t.now.texts unevaluated s.old into.old)) }
{
    match x {
        Listed::Composite { union, name, list } => {
            composite_listed(u, t, s, into, union, name, list, seen, unevaluated)
        }
        Listed::Enumeration { name, list } => {
            enumeration_listed(u, t, s, into, name, list, seen, unevaluated)
        }
    }
}

/// Specifiers in a row (C17 6.7p1).
#[cycle(typed)]
pub fn specifiers(
    u: &Unit,
    t: &Tokens,
    s: &mut Scopes,
    into: &mut TypedUnit,
    list: ListId,
    unevaluated: bool,
) -> Result<Option<Seen>, NoMemory>
    requires list { IsListOf u.now is_specifier list }
    requires opened { IsOpen into.old s.old }
    ensures opened { IfAnswered result (λ x. IsOpen into.new s.new) }
    ensures goes { IfAnswered result (λ x. Goes into.old into.new) }
    ensures known { IfAnswered result (λ x. IsType into.new.known x.named) }
    ensures answer { IfOk result (λ r. after_seen t.now.texts unevaluated s.new into.new r ≡ specifiers (trees_at u.now.forest list) (state_of t.now.texts unevaluated s.old into.old)) }
{
    let nodes = u.list(list);
    let mut seen = nothing_seen();
    let mut i = 0;
    while i < nodes.len() {
        let Some(more) = specifier(u, t, s, into, nodes[i], seen, unevaluated)? else {
            return Ok(None);
        };
        seen = more;
        i += 1;
    }
    Ok(Some(seen))
}
