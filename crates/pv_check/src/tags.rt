// Structures, unions and enumerations: what declares a tag and what it names (C17 6.7.2.3).
ghost use Rattle.std.specs.Bool.{beq};
ghost use Rattle.std.specs.Prelude.{◌≡◌, ◌&&◌, ◌<◌, [], Bool, Some, None, length, IfOk, OnOk, IfSome, IsTrue};
ghost use Rattle.pv_types.specs.Known.{heading_at, tree, trees, tree_in, env};
ghost use Rattle.pv_types.specs.Formed.{IsKnown, members_in};
ghost use Rattle.pv_types.specs.Layouts.{tag_type, look};
ghost use Rattle.pv_typed.specs.Tables.{whole_unit};
ghost use Rattle.pv_typed.specs.Known.{AreKnown};
ghost use Rattle.pv_typed.specs.Entries.{with_heading};
ghost use Rattle.pv_check.specs.Growing.{AreSized, is_sized, IsType};
ghost use Rattle.pv_check.specs.Raw.{Raw, tag_meaning_if};
ghost use Rattle.pv_check.specs.Open.{state_of, IsOpen, Goes, HasTag, TagKnown, after_type, after_number, Texts, IfAnswered};
ghost use Rattle.pv_check.specs.Scopes.{look_tag};
ghost use Rattle.pv_check.specs.Tags.{declared_new, composite_named, enumeration_named, is_open, opened_named, tag_before_list};

use crate::interning::interned;
use crate::scopes::{Scopes, TagEntry};
use pv_num::IntKind;
use pv_typed::TypedUnit;
use pv_types::{NoMemory, Term, TypeId};

/// The number of the type with this outermost layer.
pub(crate) fn interned_in(into: &mut TypedUnit, term: Term) -> Result<TypeId, NoMemory>
    requires known { AreKnown into.old }
    requires term { IsKnown into.old.known term }
    requires sized { AreSized into.old.known → IsTrue (is_sized (env into.old.known) (tree_in into.old.known.lists (trees into.old.known) term)) }
    ensures known { IfOk result (λ r. r.0 < length into.new.known.terms) }
    ensures tree { IfOk result (λ r. tree into.new.known r.0 ≡ tree_in into.new.known.lists (trees into.new.known) term) }
    ensures whole { OnOk result (whole_unit into.new ≡ whole_unit into.old) }
    ensures goes { OnOk result (Goes into.old into.new) }
{
    let r = interned(into.types_mut(), term)?;
    Ok(r)
}

/// Whether the tag is a union's.
fn is_union(into: &TypedUnit, number: u32) -> bool
    requires { number < length into.now.known.tags }
    ensures { result ≡ (heading_at into.now.known.tags number).union }
{
    into.types().is_union(number)
}

/// A new tag, incomplete: its number (C17 6.7.2.3p8).
fn new_tag(into: &mut TypedUnit, name: Option<u32>, union: bool) -> Result<u32, NoMemory>
    requires known { AreKnown into.old }
    ensures number { IfOk result (λ n. n ≡ length into.old.known.tags) }
    ensures known { IfOk result (λ n. HasTag into.new union n) }
    ensures whole { OnOk result (whole_unit into.new ≡ with_heading (whole_unit into.old) (record { name = name; union = union })) }
    ensures goes { OnOk result (Goes into.old into.new) }
{
    let n = into.tag(name, union)?;
    Ok(n)
}

/// A new tag that is declared in the innermost scope (C17 6.7.2.3p8).
fn declared_new(
    s: &mut Scopes,
    into: &mut TypedUnit,
    name: u32,
    union: bool,
) -> Result<u32, NoMemory>
    requires opened { IsOpen into.old s.old }
    ensures opened { OnOk result (IsOpen into.new s.new) }
    ensures goes { OnOk result (Goes into.old into.new) }
    ensures known { IfOk result (λ n. HasTag into.new union n) }
    ensures answer { IfOk result (λ n. (texts : Texts) (u : Bool) → record { value = n; state = state_of texts u s.new into.new } ≡ declared_new name union (state_of texts u s.old into.old)) }
{
    let number = new_tag(into, Some(name), union)?;
    s.bind_tag(name, TagEntry::Composite(number))?;
    Ok(number)
}

/// The type of a structure or a union.
pub(crate) fn composite_type(
    into: &mut TypedUnit,
    union: bool,
    number: u32,
) -> Result<TypeId, NoMemory>
    requires known { AreKnown into.old }
    requires sized { AreSized into.old.known }
    requires tag { HasTag into.old union number }
    ensures known { IfOk result (λ r. r.0 < length into.new.known.terms) }
    ensures tree { IfOk result (λ r. tree into.new.known r.0 ≡ tag_type union number) }
    ensures whole { OnOk result (whole_unit into.new ≡ whole_unit into.old) }
    ensures goes { OnOk result (Goes into.old into.new) }
{
    if union {
        let r = interned_in(into, Term::Union(number))?;
        Ok(r)
    } else {
        let r = interned_in(into, Term::Struct(number))?;
        Ok(r)
    }
}

/// `struct name` or `union name`, where the tag stands for this, and if for nothing, then it is declared
/// (C17 6.7.2.3p8).
pub fn composite_named(
    s: &mut Scopes,
    into: &mut TypedUnit,
    union: bool,
    name: u32,
    found: Option<TagEntry>,
) -> Result<Option<TypeId>, NoMemory>
    requires opened { IsOpen into.old s.old }
    requires found { IfSome found (TagKnown into.old) }
    ensures opened { OnOk result (IsOpen into.new s.new) }
    ensures goes { OnOk result (Goes into.old into.new) }
    ensures known { IfOk result (λ r. IsType into.new.known r) }
    ensures answer { IfOk result (λ r. (texts : Texts) (u : Bool) → after_type texts u s.new into.new r ≡ composite_named union name (tag_meaning_if into.old.known found) (state_of texts u s.old into.old)) }
{
    match found {
        None => {
            let number = declared_new(s, into, name, union)?;
            let t = composite_type(into, union, number)?;
            Ok(Some(t))
        }
        Some(TagEntry::Composite(number)) => {
            let other = is_union(into, number);
            if other == union {
                let t = composite_type(into, other, number)?;
                Ok(Some(t))
            } else {
                Ok(None)
            }
        }
        Some(_) => Ok(None),
    }
}

/// `enum name`, which stands behind its enumerators alone (C17 6.7.2.3p3).
fn enumeration_named(
    s: &Scopes,
    into: &mut TypedUnit,
    found: Option<TagEntry>,
) -> Result<Option<TypeId>, NoMemory>
    requires opened { IsOpen into.old s.now }
    ensures opened { OnOk result (IsOpen into.new s.now) }
    ensures goes { OnOk result (Goes into.old into.new) }
    ensures known { IfOk result (λ r. IsType into.new.known r) }
    ensures answer { IfOk result (λ r. (texts : Texts) (u : Bool) → after_type texts u s.now into.new r ≡ enumeration_named (tag_meaning_if into.old.known found) (state_of texts u s.now into.old)) }
{
    match found {
        Some(TagEntry::Enumerated) => {
            let t = interned_in(into, Term::Int(IntKind::Int))?;
            Ok(Some(t))
        }
        _ => Ok(None),
    }
}

/// `struct name` or `union name` (C17 6.7.2.3p8).
pub(crate) fn composite_tag(
    s: &mut Scopes,
    into: &mut TypedUnit,
    union: bool,
    name: u32,
) -> Result<Option<TypeId>, NoMemory>
    requires opened { IsOpen into.old s.old }
    ensures opened { OnOk result (IsOpen into.new s.new) }
    ensures goes { OnOk result (Goes into.old into.new) }
    ensures known { IfOk result (λ r. IsType into.new.known r) }
    ensures answer { IfOk result (λ r. (texts : Texts) (u : Bool) → after_type texts u s.new into.new r ≡ composite_named union name (look_tag (state_of texts u s.old into.old).scopes name) (state_of texts u s.old into.old)) }
{
    let found = s.tag_entry(name);
    let r = composite_named(s, into, union, name, found)?;
    Ok(r)
}

/// `enum name` (C17 6.7.2.3p3).
pub(crate) fn enumeration_tag(
    s: &Scopes,
    into: &mut TypedUnit,
    name: u32,
) -> Result<Option<TypeId>, NoMemory>
    requires opened { IsOpen into.old s.now }
    ensures opened { OnOk result (IsOpen into.new s.now) }
    ensures goes { OnOk result (Goes into.old into.new) }
    ensures known { IfOk result (λ r. IsType into.new.known r) }
    ensures answer { IfOk result (λ r. (texts : Texts) (u : Bool) → after_type texts u s.now into.new r ≡ enumeration_named (look_tag (state_of texts u s.now into.old).scopes name) (state_of texts u s.now into.old)) }
{
    let found = s.tag_entry(name);
    let r = enumeration_named(s, into, found)?;
    Ok(r)
}

/// Whether the tag has no members yet (C17 6.7.2.3p1).
pub(crate) fn is_open(into: &TypedUnit, number: u32) -> bool
    requires { number < length into.now.known.tags }
    ensures value { (texts : Texts) (u : Bool) (s : Raw) → result ≡ is_open (state_of texts u s into.now) number }
    ensures fresh { IsTrue result → look (env into.now.known) number ≡ None }
    ensures empty { IsTrue result → members_in into.now.known.done number ≡ [] }
{
    into.types().members(number).is_empty()
}

/// Whether members of this kind may be given to the tag (C17 6.7.2.3p1).
fn may_open(into: &TypedUnit, union: bool, number: u32) -> bool
    requires { number < length into.now.known.tags }
    ensures { (texts : Texts) (u : Bool) (s : Raw) → result ≡ beq (heading_at into.now.known.tags number).union union && is_open (state_of texts u s into.now) number }
{
    let other = is_union(into, number);
    other == union && is_open(into, number)
}

/// What stands before `{` for a tag in the innermost scope (C17 6.7.2.3p1, p8): an incomplete tag of this kind, or a
/// new one.
fn opened_named(
    s: &mut Scopes,
    into: &mut TypedUnit,
    union: bool,
    name: u32,
    found: Option<TagEntry>,
) -> Result<Option<u32>, NoMemory>
    requires opened { IsOpen into.old s.old }
    requires found { IfSome found (TagKnown into.old) }
    ensures opened { OnOk result (IsOpen into.new s.new) }
    ensures goes { OnOk result (Goes into.old into.new) }
    ensures known { IfAnswered result (HasTag into.new union) }
    ensures answer { IfOk result (λ r. (texts : Texts) (u : Bool) → after_number texts u s.new into.new r ≡ opened_named union name (tag_meaning_if into.old.known found) (state_of texts u s.old into.old)) }
{
    match found {
        None => {
            let number = declared_new(s, into, name, union)?;
            Ok(Some(number))
        }
        Some(TagEntry::Composite(number)) => {
            if may_open(into, union, number) {
                Ok(Some(number))
            } else {
                Ok(None)
            }
        }
        Some(_) => Ok(None),
    }
}

/// The tag of a structure or a union before its members (C17 6.7.2.1p1).
pub(crate) fn opened(
    s: &mut Scopes,
    into: &mut TypedUnit,
    union: bool,
    name: Option<u32>,
) -> Result<Option<u32>, NoMemory>
    requires opened { IsOpen into.old s.old }
    ensures opened { OnOk result (IsOpen into.new s.new) }
    ensures goes { OnOk result (Goes into.old into.new) }
    ensures known { IfAnswered result (HasTag into.new union) }
    ensures answer { IfOk result (λ r. (texts : Texts) (u : Bool) → after_number texts u s.new into.new r ≡ tag_before_list union name (state_of texts u s.old into.old)) }
{
    match name {
        None => {
            let number = new_tag(into, None, union)?;
            Ok(Some(number))
        }
        Some(n) => {
            let found = s.inner_tag(n);
            let r = opened_named(s, into, union, n, found)?;
            Ok(r)
        }
    }
}
