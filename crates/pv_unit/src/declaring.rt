//! What a declarator at file scope declares (C17 6.7, 6.9.2): a type, an object or a function.
ghost use Rattle.std.specs.Prelude.{◌≡◌, ◌<◌, ◌&&◌, ◌||◌, not, IfOk, IfSome, OnOk, Some, None, length, false, true};
ghost use Rattle.pv_types.specs.Known.{tree};
ghost use Rattle.pv_types.specs.Compatible.{are_compatible};
ghost use Rattle.pv_typed.specs.Tables.{whole_unit};
ghost use Rattle.pv_check.specs.Raw.{raw_innermost, meaning_if};
ghost use Rattle.pv_check.specs.Open.{IsOpen, Goes, EntryKnown, Texts, IfAnswered};
ghost use Rattle.pv_typed.specs.TypedTree.{is_function};
ghost use Rattle.pv_check.specs.Scopes.{find};
ghost use Rattle.pv_typed.specs.Mains.{named_main};
ghost use Rattle.pv_unit.specs.MainType.{main_type};
ghost use Rattle.pv_unit.specs.Redeclarations.{unit_name, with_new_object, with_new_function, may_have, object_again, object_declared, function_again, function_declared};
ghost use Rattle.pv_unit.specs.EntityParts.{function_found};
ghost use Rattle.pv_unit.specs.Declarations.{typedef_again, typedef_found, typedef_declared, plain_entity, is_extern};
ghost use Rattle.pv_unit.specs.DeclarationParts.{plain_function, plain_object};
ghost use Rattle.pv_unit.specs.RuleParts.{is_typedef};
ghost use Rattle.pv_unit.specs.declared.entities.Outer.{Outer};
ghost use Rattle.pv_unit.specs.There.{AreThere};
ghost use Rattle.pv_unit.specs.Outside.{unit_state, unit_if, number_if};

use crate::declarators::DeclaredType;
use crate::entities::Outer;
use crate::function_names::may_have;
use crate::known_names::is_main;
use crate::mains::is_main_type;
use crate::objects::{
    found, function_composed, new_function, new_object, new_typedef, object_composed,
};
use pv_check::{Entry, Scopes, Storage, is_function, same_type};
use pv_typed::TypedUnit;
use pv_types::{NoMemory, TypeId};

/// One object more of file scope.
fn object_more(
    s: &mut Scopes,
    into: &mut TypedUnit,
    outer: &mut Outer,
    name: u32,
    line: u32,
    t: TypeId,
) -> Result<u32, NoMemory>
    requires opened { IsOpen into.old s.old }
    requires known { t.0 < length into.old.known.terms }
    requires fresh { find (raw_innermost s.old.scopes).names name ≡ None }
    requires entities { AreThere into.old outer.old.entities }
    ensures opened { OnOk result (IsOpen into.new s.new) }
    ensures goes { OnOk result (Goes into.old into.new) }
    ensures number { IfOk result (λ o. o < length into.new.objects) }
    ensures entities { OnOk result (AreThere into.new outer.new.entities) }
    ensures answer { IfOk result (λ o. (texts : Texts) → (o, unit_state texts s.new into.new outer.new) ≡ with_new_object name line (tree into.old.known t.0) (unit_state texts s.old into.old outer.old)) }
{
    let o = new_object(s, into, name, line, t, true)?;
    outer.entities.add(name, false, o)?;
    Ok(o)
}

/// One function more.
fn function_more(
    s: &mut Scopes,
    into: &mut TypedUnit,
    outer: &mut Outer,
    name: u32,
    line: u32,
    t: TypeId,
) -> Result<u32, NoMemory>
    requires opened { IsOpen into.old s.old }
    requires known { t.0 < length into.old.known.terms }
    requires fresh { find (raw_innermost s.old.scopes).names name ≡ None }
    requires entities { AreThere into.old outer.old.entities }
    ensures opened { OnOk result (IsOpen into.new s.new) }
    ensures goes { OnOk result (Goes into.old into.new) }
    ensures number { IfOk result (λ f. f < length into.new.functions) }
    ensures entities { OnOk result (AreThere into.new outer.new.entities) }
    ensures answer { IfOk result (λ f. (texts : Texts) → (f, unit_state texts s.new into.new outer.new) ≡ with_new_function name line (tree into.old.known t.0) (unit_state texts s.old into.old outer.old)) }
{
    let f = new_function(s, into, name, line, t)?;
    outer.entities.add(name, true, f)?;
    Ok(f)
}

/// A declaration of an object, where its name stands for this in the scope.
fn object_again(
    before: Option<Entry>,
    s: &mut Scopes,
    into: &mut TypedUnit,
    outer: &mut Outer,
    name: u32,
    line: u32,
    t: TypeId,
) -> Result<Option<u32>, NoMemory>
    requires opened { IsOpen into.old s.old }
    requires known { t.0 < length into.old.known.terms }
    requires found { before ≡ find (raw_innermost s.old.scopes).names name }
    requires there { IfSome before (EntryKnown into.old) }
    requires entities { AreThere into.old outer.old.entities }
    ensures opened { OnOk result (IsOpen into.new s.new) }
    ensures goes { OnOk result (Goes into.old into.new) }
    ensures number { IfAnswered result (λ o. o < length into.new.objects) }
    ensures entities { OnOk result (AreThere into.new outer.new.entities) }
    ensures answer { IfOk result (λ r. (texts : Texts) → number_if texts s.new into.new outer.new r ≡ object_again (meaning_if into.old.known before) name line (tree into.old.known t.0) (unit_state texts s.old into.old outer.old)) }
{
    match before {
        None => {
            let o = object_more(s, into, outer, name, line, t)?;
            Ok(Some(o))
        }
        Some(Entry::Object(o)) => {
            let same = object_composed(s, into, o, t)?;
            if same { Ok(Some(o)) } else { Ok(None) }
        }
        Some(Entry::Function(_)) | Some(Entry::Typedef(_)) | Some(Entry::Constant(_)) => Ok(None),
    }
}

/// A declaration of a function, where its name stands for this in the scope.
fn function_again(
    before: Option<Entry>,
    s: &mut Scopes,
    into: &mut TypedUnit,
    outer: &mut Outer,
    name: u32,
    line: u32,
    t: TypeId,
) -> Result<Option<u32>, NoMemory>
    requires opened { IsOpen into.old s.old }
    requires known { t.0 < length into.old.known.terms }
    requires found { before ≡ find (raw_innermost s.old.scopes).names name }
    requires there { IfSome before (EntryKnown into.old) }
    requires entities { AreThere into.old outer.old.entities }
    ensures opened { OnOk result (IsOpen into.new s.new) }
    ensures goes { OnOk result (Goes into.old into.new) }
    ensures number { IfAnswered result (λ f. f < length into.new.functions) }
    ensures entities { OnOk result (AreThere into.new outer.new.entities) }
    ensures answer { IfOk result (λ r. (texts : Texts) → number_if texts s.new into.new outer.new r ≡ function_again (meaning_if into.old.known before) name line (tree into.old.known t.0) (unit_state texts s.old into.old outer.old)) }
{
    match before {
        None => {
            let f = function_more(s, into, outer, name, line, t)?;
            Ok(Some(f))
        }
        Some(Entry::Function(f)) => {
            let same = function_composed(s, into, f, t)?;
            if same { Ok(Some(f)) } else { Ok(None) }
        }
        Some(Entry::Object(_)) | Some(Entry::Typedef(_)) | Some(Entry::Constant(_)) => Ok(None),
    }
}

/// A declaration of an object (C17 6.7p4), which is not `main` (5.1.2.2.1p1).
pub(crate) fn object_declared(
    s: &mut Scopes,
    into: &mut TypedUnit,
    outer: &mut Outer,
    name: u32,
    line: u32,
    t: TypeId,
) -> Result<Option<u32>, NoMemory>
    requires opened { IsOpen into.old s.old }
    requires known { t.0 < length into.old.known.terms }
    requires entities { AreThere into.old outer.old.entities }
    ensures opened { OnOk result (IsOpen into.new s.new) }
    ensures goes { OnOk result (Goes into.old into.new) }
    ensures number { IfAnswered result (λ o. o < length into.new.objects) }
    ensures entities { OnOk result (AreThere into.new outer.new.entities) }
    ensures answer { IfOk result (λ r. (texts : Texts) → number_if texts s.new into.new outer.new r ≡ object_declared name line (tree into.old.known t.0) (unit_state texts s.old into.old outer.old)) }
{
    if is_main(into, name) {
        return Ok(None);
    }
    let before = found(s, into, name);
    let r = object_again(before, s, into, outer, name, line, t)?;
    Ok(r)
}

/// A declaration of a function (C17 6.7p4).
fn function_found(
    s: &mut Scopes,
    into: &mut TypedUnit,
    outer: &mut Outer,
    name: u32,
    line: u32,
    t: TypeId,
) -> Result<Option<u32>, NoMemory>
    requires opened { IsOpen into.old s.old }
    requires known { t.0 < length into.old.known.terms }
    requires entities { AreThere into.old outer.old.entities }
    ensures opened { OnOk result (IsOpen into.new s.new) }
    ensures goes { OnOk result (Goes into.old into.new) }
    ensures number { IfAnswered result (λ f. f < length into.new.functions) }
    ensures entities { OnOk result (AreThere into.new outer.new.entities) }
    ensures answer { IfOk result (λ r. (texts : Texts) → number_if texts s.new into.new outer.new r ≡ function_found name line (tree into.old.known t.0) (unit_state texts s.old into.old outer.old)) }
{
    let before = found(s, into, name);
    let r = function_again(before, s, into, outer, name, line, t)?;
    Ok(r)
}

/// The same, where its name may have the type.
pub(crate) fn function_declared(
    s: &mut Scopes,
    into: &mut TypedUnit,
    outer: &mut Outer,
    name: u32,
    line: u32,
    t: TypeId,
) -> Result<Option<u32>, NoMemory>
    requires opened { IsOpen into.old s.old }
    requires known { t.0 < length into.old.known.terms }
    requires entities { AreThere into.old outer.old.entities }
    ensures opened { OnOk result (IsOpen into.new s.new) }
    ensures goes { OnOk result (Goes into.old into.new) }
    ensures number { IfAnswered result (λ f. f < length into.new.functions) }
    ensures entities { OnOk result (AreThere into.new outer.new.entities) }
    ensures answer { IfOk result (λ r. (texts : Texts) → number_if texts s.new into.new outer.new r ≡ function_declared name line (tree into.old.known t.0) (unit_state texts s.old into.old outer.old)) }
{
    let may = may_have(s, into, name, t)?;
    if !may {
        return Ok(None);
    }
    let r = function_found(s, into, outer, name, line, t)?;
    Ok(r)
}

/// A declaration of a type, where its name stands for this in the scope (C17 6.7p3).
fn typedef_again(
    before: Option<Entry>,
    s: &mut Scopes,
    into: &TypedUnit,
    name: u32,
    t: TypeId,
) -> Result<bool, NoMemory>
    requires opened { IsOpen into.now s.old }
    requires known { t.0 < length into.now.known.terms }
    requires found { before ≡ find (raw_innermost s.old.scopes).names name }
    requires there { IfSome before (EntryKnown into.now) }
    ensures opened { OnOk result (IsOpen into.now s.new) }
    ensures answer { IfOk result (λ b. (texts : Texts) (o : Outer) → unit_if texts s.new into.now o b ≡ typedef_again (meaning_if into.now.known before) name (tree into.now.known t.0) (unit_state texts s.old into.now o)) }
{
    match before {
        None => {
            new_typedef(s, into, name, t)?;
            Ok(true)
        }
        Some(Entry::Typedef(v)) => Ok(same_type(into.types(), v, t)),
        Some(Entry::Object(_)) | Some(Entry::Function(_)) | Some(Entry::Constant(_)) => Ok(false),
    }
}

/// Whether the name may be a typedef name of the type: `main` is that of a function's (C17 5.1.2.2.1p1).
fn may_be_typedef(s: &Scopes, into: &mut TypedUnit, name: u32, t: TypeId) -> Result<bool, NoMemory>
    requires opened { IsOpen into.old s.now }
    requires known { t.0 < length into.old.known.terms }
    ensures opened { OnOk result (IsOpen into.new s.now) }
    ensures goes { OnOk result (Goes into.old into.new) }
    ensures whole { OnOk result (whole_unit into.new ≡ whole_unit into.old) }
    ensures answer { IfOk result (λ b. b ≡ not (named_main into.old.names (unit_name name) && not (is_function (tree into.old.known t.0) && are_compatible (tree into.old.known t.0) main_type))) }
{
    if !is_main(into, name) {
        return Ok(true);
    }
    if !is_function(into.types(), t) {
        return Ok(false);
    }
    let b = is_main_type(s, into, t)?;
    Ok(b)
}

/// A declaration of a type, whose name may stand for one.
fn typedef_found(s: &mut Scopes, into: &TypedUnit, name: u32, t: TypeId) -> Result<bool, NoMemory>
    requires opened { IsOpen into.now s.old }
    requires known { t.0 < length into.now.known.terms }
    ensures opened { OnOk result (IsOpen into.now s.new) }
    ensures answer { IfOk result (λ b. (texts : Texts) (o : Outer) → unit_if texts s.new into.now o b ≡ typedef_found name (tree into.now.known t.0) (unit_state texts s.old into.now o)) }
{
    let before = found(s, into, name);
    let b = typedef_again(before, s, into, name, t)?;
    Ok(b)
}

/// Whether one of the two is so.
fn either(a: bool, b: bool) -> bool
    ensures { result ≡ (a || b) }
{
    a || b
}

/// A declaration of a type (C17 6.7.8).
pub(crate) fn typedef_declared(
    s: &mut Scopes,
    into: &mut TypedUnit,
    outer: &mut Outer,
    name: u32,
    d: DeclaredType,
) -> Result<bool, NoMemory>
    requires opened { IsOpen into.old s.old }
    requires known { d.t.0 < length into.old.known.terms }
    requires entities { AreThere into.old outer.old.entities }
    ensures opened { OnOk result (IsOpen into.new s.new) }
    ensures goes { OnOk result (Goes into.old into.new) }
    ensures entities { OnOk result (AreThere into.new outer.new.entities) }
    ensures answer { IfOk result (λ b. (texts : Texts) → unit_if texts s.new into.new outer.new b ≡ typedef_declared name (tree into.old.known d.t.0) d.without_size (unit_state texts s.old into.old outer.old)) }
{
    let may = may_be_typedef(s, into, name, d.t)?;
    if !may {
        return Ok(false);
    }
    let without = either(outer.unsized_typedef, d.without_size);
    outer.unsized_typedef = without;
    let b = typedef_found(s, into, name, d.t)?;
    Ok(b)
}

/// Whether it is `extern`.
fn is_extern(storage: Storage) -> bool
    ensures { result ≡ is_extern storage }
{
    match storage {
        Storage::Extern => true,
        Storage::Plain | Storage::Typedef | Storage::Static => false,
    }
}

/// Whether it is `typedef`.
pub(crate) fn is_typedef(storage: Storage) -> bool
    ensures { result ≡ is_typedef storage }
{
    match storage {
        Storage::Typedef => true,
        Storage::Plain | Storage::Extern | Storage::Static => false,
    }
}

/// An object without an initializer: it is defined where it is not `extern` (C17 6.9.2p1, p2).
fn plain_object(
    s: &mut Scopes,
    into: &mut TypedUnit,
    outer: &mut Outer,
    storage: Storage,
    name: u32,
    line: u32,
    d: DeclaredType,
) -> Result<bool, NoMemory>
    requires opened { IsOpen into.old s.old }
    requires known { d.t.0 < length into.old.known.terms }
    requires entities { AreThere into.old outer.old.entities }
    ensures opened { OnOk result (IsOpen into.new s.new) }
    ensures goes { OnOk result (Goes into.old into.new) }
    ensures entities { OnOk result (AreThere into.new outer.new.entities) }
    ensures answer { IfOk result (λ b. (texts : Texts) → unit_if texts s.new into.new outer.new b ≡ plain_object storage (tree into.old.known d.t.0) (name, line) d.without_size (unit_state texts s.old into.old outer.old)) }
{
    let Some(o) = object_declared(s, into, outer, name, line, d.t)? else {
        return Ok(false);
    };
    let defined = !is_extern(storage);
    outer
        .entities
        .note(false, o, defined, false, d.without_size);
    Ok(true)
}

/// A function without a body.
fn plain_function(
    s: &mut Scopes,
    into: &mut TypedUnit,
    outer: &mut Outer,
    name: u32,
    line: u32,
    d: DeclaredType,
) -> Result<bool, NoMemory>
    requires opened { IsOpen into.old s.old }
    requires known { d.t.0 < length into.old.known.terms }
    requires entities { AreThere into.old outer.old.entities }
    ensures opened { OnOk result (IsOpen into.new s.new) }
    ensures goes { OnOk result (Goes into.old into.new) }
    ensures entities { OnOk result (AreThere into.new outer.new.entities) }
    ensures answer { IfOk result (λ b. (texts : Texts) → unit_if texts s.new into.new outer.new b ≡ plain_function (tree into.old.known d.t.0) (name, line) d.without_size (unit_state texts s.old into.old outer.old)) }
{
    let Some(f) = function_declared(s, into, outer, name, line, d.t)? else {
        return Ok(false);
    };
    outer.entities.note(true, f, false, false, d.without_size);
    Ok(true)
}

/// A function, or an object without an initializer.
pub(crate) fn plain_entity(
    s: &mut Scopes,
    into: &mut TypedUnit,
    outer: &mut Outer,
    storage: Storage,
    name: u32,
    line: u32,
    d: DeclaredType,
) -> Result<bool, NoMemory>
    requires opened { IsOpen into.old s.old }
    requires known { d.t.0 < length into.old.known.terms }
    requires entities { AreThere into.old outer.old.entities }
    ensures opened { OnOk result (IsOpen into.new s.new) }
    ensures goes { OnOk result (Goes into.old into.new) }
    ensures entities { OnOk result (AreThere into.new outer.new.entities) }
    ensures answer { IfOk result (λ b. (texts : Texts) → unit_if texts s.new into.new outer.new b ≡ plain_entity storage (tree into.old.known d.t.0) (name, line) d.without_size (unit_state texts s.old into.old outer.old)) }
{
    if is_function(into.types(), d.t) {
        plain_function(s, into, outer, name, line, d)
    } else {
        plain_object(s, into, outer, storage, name, line, d)
    }
}
