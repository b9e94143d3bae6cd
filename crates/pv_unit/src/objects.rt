//! Objects and functions in the tables, and their names in the innermost scope (C17 6.2.1, 6.7).
ghost use Rattle.std.specs.Prelude.{◌≡◌, ◌<◌, ◌+◌, Bool, None, Some, IfOk, IfSome, IsTrue, OnOk, true, if◌then◌else◌, length};
ghost use Rattle.pv_types.specs.Known.{tree};
ghost use Rattle.pv_types.specs.Compatible.{are_compatible};
ghost use Rattle.pv_typed.specs.Known.{AreKnown};
ghost use Rattle.pv_typed.specs.Tables.{whole_unit};
ghost use Rattle.pv_check.specs.Composite.{composite_of};
ghost use Rattle.pv_check.specs.Open.{state_of, after_nothing, IsOpen, Goes, EntryKnown, Texts, IfAnswered};
ghost use Rattle.pv_check.specs.Growing.{type_if};
ghost use Rattle.pv_check.specs.Raw.{raw_innermost, meaning_if, with_name};
ghost use Rattle.pv_check.specs.State.{TypedefOf};
ghost use Rattle.pv_check.specs.Scopes.{find, innermost_scope, bind};
ghost use Rattle.pv_unit.specs.Redeclarations.{new_object, new_function, with_object_type, with_function_type};
ghost use Rattle.pv_unit.specs.RuleParts.{object_composed, function_composed};

use pv_check::{Entry, Scopes, composite};
use pv_typed::{Function, Object, TypedUnit};
use pv_types::{NoMemory, TypeId};
use std::alloc::Global;

/// The number of a name of the source among those of the unit, where it is there: every name of the source is, behind
/// two others.
pub(crate) fn unit_name(into: &TypedUnit, name: u32) -> Result<u32, NoMemory>
    ensures { IfOk result (λ n. (n ≡ name + 2) × (n < length into.now.names)) }
{
    let n = name as u64 + 2;
    if n >= into.names().len() as u64 {
        return Err(NoMemory);
    }
    Ok(n as u32)
}

/// What the innermost scope has for a name.
pub(crate) fn found(s: &Scopes, into: &TypedUnit, name: u32) -> Option<Entry>
    requires { IsOpen into.now s.now }
    ensures raw { result ≡ find (raw_innermost s.now.scopes).names name }
    ensures known { IfSome result (EntryKnown into.now) }
    ensures meaning { (texts : Texts) (u : Bool) → meaning_if into.now.known result ≡ find (innermost_scope (state_of texts u s.now into.now).scopes).names name }
{
    s.inner(name)
}

/// The name gets a meaning in the innermost scope, which has none for it.
fn named(s: &mut Scopes, name: u32, what: Entry) -> Result<(), NoMemory>
    requires some { 0 < length s.old.scopes }
    requires fresh { find (raw_innermost s.old.scopes).names name ≡ None }
    ensures { OnOk result (s.new ≡ with_name s.old name what) }
{
    s.declare(name, what)?;
    Ok(())
}

/// A new object, which has the name in the innermost scope.
pub(crate) fn new_object(
    s: &mut Scopes,
    into: &mut TypedUnit,
    name: u32,
    line: u32,
    t: TypeId,
    lasting: bool,
) -> Result<u32, NoMemory>
    requires opened { IsOpen into.old s.old }
    requires known { t.0 < length into.old.known.terms }
    requires fresh { find (raw_innermost s.old.scopes).names name ≡ None }
    ensures opened { OnOk result (IsOpen into.new s.new) }
    ensures goes { OnOk result (Goes into.old into.new) }
    ensures number { IfOk result (λ o. (o ≡ length into.old.objects) × (o < length into.new.objects)) }
    ensures types { OnOk result (into.new.known ≡ into.old.known) }
    ensures answer { OnOk result ((texts : Texts) (u : Bool) → state_of texts u s.new into.new ≡ new_object name line (tree into.old.known t.0) lasting (state_of texts u s.old into.old)) }
{
    let known = unit_name(into, name)?;
    let o = into.add_object(Object {
        name: known,
        t,
        line,
        lasting,
        braced: false,
    })?;
    named(s, name, Entry::Object(o))?;
    Ok(o)
}

/// A new function, which has the name in the innermost scope.
pub(crate) fn new_function(
    s: &mut Scopes,
    into: &mut TypedUnit,
    name: u32,
    line: u32,
    t: TypeId,
) -> Result<u32, NoMemory>
    requires opened { IsOpen into.old s.old }
    requires known { t.0 < length into.old.known.terms }
    requires fresh { find (raw_innermost s.old.scopes).names name ≡ None }
    ensures opened { OnOk result (IsOpen into.new s.new) }
    ensures goes { OnOk result (Goes into.old into.new) }
    ensures number { IfOk result (λ f. (f ≡ length into.old.functions) × (f < length into.new.functions)) }
    ensures types { OnOk result (into.new.known ≡ into.old.known) }
    ensures answer { OnOk result ((texts : Texts) (u : Bool) → state_of texts u s.new into.new ≡ new_function name line (tree into.old.known t.0) (state_of texts u s.old into.old)) }
{
    let known = unit_name(into, name)?;
    let f = into.add_function(Function {
        name: known,
        t,
        line,
        body: None,
    })?;
    named(s, name, Entry::Function(f))?;
    Ok(f)
}

/// The name stands for the type in the innermost scope.
pub(crate) fn new_typedef(
    s: &mut Scopes,
    into: &TypedUnit,
    name: u32,
    t: TypeId,
) -> Result<(), NoMemory>
    requires opened { IsOpen into.now s.old }
    requires known { t.0 < length into.now.known.terms }
    requires fresh { find (raw_innermost s.old.scopes).names name ≡ None }
    ensures opened { OnOk result (IsOpen into.now s.new) }
    ensures answer { OnOk result ((texts : Texts) (u : Bool) → state_of texts u s.new into.now ≡ bind name (TypedefOf (tree into.now.known t.0)) (state_of texts u s.old into.now)) }
{
    named(s, name, Entry::Typedef(t))?;
    Ok(())
}

/// The object gets another type.
pub(crate) fn retyped_object(s: &Scopes, into: &mut TypedUnit, o: u32, t: TypeId)
    requires opened { IsOpen into.old s.now }
    requires object { o < length into.old.objects }
    requires known { t.0 < length into.old.known.terms }
    ensures opened { IsOpen into.new s.now }
    ensures goes { Goes into.old into.new }
    ensures types { into.new.known ≡ into.old.known }
    ensures answer { (texts : Texts) (u : Bool) → state_of texts u s.now into.new ≡ with_object_type o (tree into.old.known t.0) (state_of texts u s.now into.old) }
{
    let old = into.object(o);
    into.set_object(
        o,
        Object {
            name: old.name,
            t,
            line: old.line,
            lasting: old.lasting,
            braced: old.braced,
        },
    );
}

/// The function gets another type.
pub(crate) fn retyped_function(s: &Scopes, into: &mut TypedUnit, f: u32, t: TypeId)
    requires opened { IsOpen into.old s.now }
    requires function { f < length into.old.functions }
    requires known { t.0 < length into.old.known.terms }
    ensures opened { IsOpen into.new s.now }
    ensures goes { Goes into.old into.new }
    ensures types { into.new.known ≡ into.old.known }
    ensures answer { (texts : Texts) (u : Bool) → state_of texts u s.now into.new ≡ with_function_type f (tree into.old.known t.0) (state_of texts u s.now into.old) }
{
    let old = into.function(f);
    into.set_function(
        f,
        Function {
            name: old.name,
            t,
            line: old.line,
            body: old.body,
        },
    );
}

/// The composite of two types that are compatible, in the tables of a unit.
fn composite_in(
    alloc: Global,
    into: &mut TypedUnit,
    a: TypeId,
    b: TypeId,
) -> Result<TypeId, NoMemory>
    requires known { AreKnown into.old }
    requires first { a.0 < length into.old.known.terms }
    requires second { b.0 < length into.old.known.terms }
    requires compatible { IsTrue (are_compatible (tree into.old.known a.0) (tree into.old.known b.0)) }
    ensures known { IfOk result (λ r. r.0 < length into.new.known.terms) }
    ensures tree { IfOk result (λ r. tree into.new.known r.0 ≡ composite_of (tree into.old.known a.0) (tree into.old.known b.0)) }
    ensures whole { OnOk result (whole_unit into.new ≡ whole_unit into.old) }
    ensures goes { OnOk result (Goes into.old into.new) }
{
    let r = composite(alloc, into.types_mut(), a, b)?;
    Ok(r)
}

/// The composite of two types, if they are compatible (C17 6.2.7p3).
fn composed(
    s: &Scopes,
    into: &mut TypedUnit,
    a: TypeId,
    b: TypeId,
) -> Result<Option<TypeId>, NoMemory>
    requires opened { IsOpen into.old s.now }
    requires first { a.0 < length into.old.known.terms }
    requires second { b.0 < length into.old.known.terms }
    ensures opened { OnOk result (IsOpen into.new s.now) }
    ensures goes { OnOk result (Goes into.old into.new) }
    ensures whole { OnOk result (whole_unit into.new ≡ whole_unit into.old) }
    ensures known { IfAnswered result (λ t. t.0 < length into.new.known.terms) }
    ensures tree { IfOk result (λ r. type_if into.new.known r ≡ (if are_compatible (tree into.old.known a.0) (tree into.old.known b.0) then Some (composite_of (tree into.old.known a.0) (tree into.old.known b.0)) else None)) }
{
    if !into.types().compatible(a, b) {
        return Ok(None);
    }
    let t = composite_in(s.allocator(), into, a, b)?;
    Ok(Some(t))
}

/// One declaration more of an object (C17 6.7p4, 6.2.7p4).
pub(crate) fn object_composed(
    s: &Scopes,
    into: &mut TypedUnit,
    o: u32,
    t: TypeId,
) -> Result<bool, NoMemory>
    requires opened { IsOpen into.old s.now }
    requires object { o < length into.old.objects }
    requires known { t.0 < length into.old.known.terms }
    ensures opened { OnOk result (IsOpen into.new s.now) }
    ensures goes { OnOk result (Goes into.old into.new) }
    ensures answer { IfOk result (λ b. (texts : Texts) (u : Bool) → after_nothing texts u s.now into.new b ≡ object_composed o (tree into.old.known t.0) (state_of texts u s.now into.old)) }
{
    let before = into.object(o);
    let Some(both) = composed(s, into, before.t, t)? else {
        return Ok(false);
    };
    retyped_object(s, into, o, both);
    Ok(true)
}

/// One declaration more of a function (C17 6.7p4, 6.2.7p4).
pub(crate) fn function_composed(
    s: &Scopes,
    into: &mut TypedUnit,
    f: u32,
    t: TypeId,
) -> Result<bool, NoMemory>
    requires opened { IsOpen into.old s.now }
    requires function { f < length into.old.functions }
    requires known { t.0 < length into.old.known.terms }
    ensures opened { OnOk result (IsOpen into.new s.now) }
    ensures goes { OnOk result (Goes into.old into.new) }
    ensures answer { IfOk result (λ b. (texts : Texts) (u : Bool) → after_nothing texts u s.now into.new b ≡ function_composed f (tree into.old.known t.0) (state_of texts u s.now into.old)) }
{
    let before = into.function(f);
    let Some(both) = composed(s, into, before.t, t)? else {
        return Ok(false);
    };
    retyped_function(s, into, f, both);
    Ok(true)
}
