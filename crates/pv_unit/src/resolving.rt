//! Names that nothing defines (C17 6.9p5), `main` (C17 5.1.2.2.1), and static objects (C17 6.2.4p3).
ghost use Rattle.std.specs.Prelude.{◌≡◌, ◌<◌, ◌&&◌, ◌||◌, nat_eq, ℕ, Bool, true, false, length, map, None, Some, is_some, IfOk, OnOk};
ghost use Rattle.std.specs.Cmp.Lexicographic.{pointwise};
ghost use Rattle.pv_typed.specs.Formed.{Grown};
ghost use Rattle.pv_typed.specs.Known.{AreKnown};
ghost use Rattle.pv_typed.specs.Mains.{main_text};
ghost use Rattle.pv_typed.specs.Tables.{whole_unit};
ghost use Rattle.pv_typed.specs.TypedUnits.{object_at, function_at};
ghost use Rattle.pv_check.specs.Open.{Texts, state_in};
ghost use Rattle.pv_check.specs.Raw.{used_of};
ghost use Rattle.pv_unit.specs.Entering.{entity_of};
ghost use Rattle.pv_unit.specs.Resolving.{has_use, AreUses, ArePointed, placed_if};
ghost use Rattle.pv_unit.specs.Units.{uses, is_unresolved, first_unresolved, has_main, statics_from, points, placed_from, with_statics, with_placed};
ghost use Rattle.pv_unit.specs.Definitions.{is_defined};
ghost use Rattle.pv_unit.specs.UnitParts.{is_of_library, is_main_function, is_used, is_pointed};
ghost use Rattle.std.specs.List.{list_any};

use crate::entities::{Entity, Outer};
use crate::library_names::is_of_library;
use indexmap::IndexSet;
use pv_check::{Named, Scopes};
use pv_typed::TypedUnit;
use pv_types::NoMemory;
use std::alloc::Global;

/// The numbers of the objects and of the functions that expressions name.
#[derive(Drop)]
struct Uses {
    objects: IndexSet<u32>,
    functions: IndexSet<u32>,
}

/// One more that an expression names.
fn add_use(all: &mut Uses, what: Named) -> Result<(), NoMemory>
    ensures { OnOk result ((f : Bool) (k : ℕ) → has_use all.new f k ≡ (has_use all.old f k || uses f k (used_of what))) }
{
    match what {
        Named::Object(o) => {
            all.objects.insert(o)?;
        }
        Named::Function(f) | Named::Pointed(f) => {
            all.functions.insert(f)?;
        }
    }
    Ok(())
}

/// All that expressions name.
fn uses_of(alloc: Global, used: &[Named]) -> Result<Uses, NoMemory>
    ensures { IfOk result (AreUses used.now) }
{
    let mut all = Uses {
        objects: IndexSet::new(alloc),
        functions: IndexSet::new(alloc),
    };
    for what in used {
        add_use(&mut all, *what)?;
    }
    Ok(all)
}

/// Whether an expression names it.
fn is_used(all: &Uses, e: Entity) -> bool
    ensures { result ≡ has_use all.now e.function e.number }
{
    if e.function {
        all.functions.contains(&e.number)
    } else {
        all.objects.contains(&e.number)
    }
}

/// Whether an expression names it, and nothing defines it.
fn is_unresolved(s: &Scopes, into: &TypedUnit, all: &Uses, e: Entity) -> bool
    requires { AreUses s.now.used all.now }
    ensures { (texts : Texts) → result ≡ is_unresolved (state_in texts s.now into.now) (entity_of e) }
{
    is_used(all, e) && !e.defined && !(e.function && is_of_library(into, e.name))
}

/// The name of the first declared object or function that an expression names and that nothing defines.
pub(crate) fn unresolved(
    s: &Scopes,
    into: &TypedUnit,
    outer: &Outer,
) -> Result<Option<u32>, NoMemory>
    ensures { IfOk result (λ r. (texts : Texts) → r ≡ first_unresolved (state_in texts s.now into.now) outer.now.entities) }
{
    let all = uses_of(s.allocator(), s.used())?;
    for i in 0..outer.entities.len() {
        let e = outer.entities.at(i);
        if is_unresolved(s, into, &all, e) {
            return Ok(Some(e.name));
        }
    }
    Ok(None)
}

/// Whether a name is `main`.
fn is_main(text: &[u8]) -> bool
    ensures { result ≡ pointwise nat_eq text.now main_text }
{
    text == b"main".as_slice()
}

/// Whether the function is `main`, and has a body.
fn is_main_function(into: &TypedUnit, f: u32) -> bool
    requires known { AreKnown into.now }
    requires function { f < length into.now.functions }
    ensures { result ≡ is_main_function into.now.names (function_at (whole_unit into.now) f) }
{
    let function = into.function(f);
    function.body.is_some() && is_main(into.names().text(function.name))
}

/// Whether `main` is defined.
pub(crate) fn has_main(into: &TypedUnit) -> bool
    requires known { AreKnown into.now }
    ensures { result ≡ has_main (whole_unit into.now) }
{
    for f in 0..into.functions() {
        if is_main_function(into, f) {
            return true;
        }
    }
    false
}

/// Whether an object has static storage and is defined.
fn is_static(into: &TypedUnit, outer: &Outer, o: u32) -> bool
    requires { o < length into.now.objects }
    ensures { result ≡ ((object_at (whole_unit into.now) o).lasting && is_defined o outer.now.entities) }
{
    into.object(o).lasting && outer.entities.is_defined(o)
}

/// Notes the objects with static storage that are defined, in the order of their numbers.
pub(crate) fn add_statics(into: &mut TypedUnit, outer: &Outer) -> Result<(), NoMemory>
    ensures types { OnOk result (into.new.known ≡ into.old.known) }
    ensures grown { OnOk result (Grown into.old into.new) }
    ensures whole { OnOk result (whole_unit into.new ≡ with_statics (statics_from outer.now.entities 0 (whole_unit into.old).objects) (whole_unit into.old)) }
{
    for o in 0..into.objects() {
        if is_static(into, outer, o) {
            into.add_static(o)?;
        }
    }
    Ok(())
}

/// One more use, which may evaluate a pointer to a function.
fn add_pointed(all: &mut IndexSet<u32>, what: Named) -> Result<(), NoMemory>
    ensures { OnOk result ((k : ℕ) → list_any (nat_eq k) all.new.keys ≡ (list_any (nat_eq k) all.old.keys || points k (used_of what))) }
{
    match what {
        Named::Pointed(f) => {
            all.insert(f)?;
        }
        Named::Object(_) | Named::Function(_) => {}
    }
    Ok(())
}

/// The numbers of the functions to which pointers are evaluated.
fn pointed_in(alloc: Global, used: &[Named]) -> Result<IndexSet<u32>, NoMemory>
    ensures { IfOk result (λ s. ArePointed used.now s.keys) }
{
    let mut all = IndexSet::new(alloc);
    for what in used {
        add_pointed(&mut all, *what)?;
    }
    Ok(all)
}

/// Whether a pointer to a function is evaluated, and the function has a body.
fn is_placed(s: &Scopes, into: &TypedUnit, all: &IndexSet<u32>, f: u32) -> bool
    requires pointed { ArePointed s.now.used all.now.keys }
    requires function { f < length into.now.functions }
    ensures { result ≡ (is_some (function_at (whole_unit into.now) f).body && is_pointed f (map used_of s.now.used)) }
{
    into.function(f).body.is_some() && all.contains(&f)
}

/// Notes a function, if it is pointed to and has a body.
fn place_one(s: &Scopes, into: &mut TypedUnit, all: &IndexSet<u32>, f: u32) -> Result<(), NoMemory>
    requires pointed { ArePointed s.now.used all.now.keys }
    requires function { f < length into.old.functions }
    ensures types { OnOk result (into.new.known ≡ into.old.known) }
    ensures grown { OnOk result (Grown into.old into.new) }
    ensures whole { OnOk result (whole_unit into.new ≡ placed_if (is_some (function_at (whole_unit into.old) f).body && is_pointed f (map used_of s.now.used)) f (whole_unit into.old)) }
{
    if !is_placed(s, into, all, f) {
        return Ok(());
    }
    into.add_placed(f)
}

/// Notes the functions that are pointed to and have a body, in the order of their numbers.
pub(crate) fn add_placed(s: &Scopes, into: &mut TypedUnit) -> Result<(), NoMemory>
    ensures types { OnOk result (into.new.known ≡ into.old.known) }
    ensures grown { OnOk result (Grown into.old into.new) }
    ensures whole { OnOk result (whole_unit into.new ≡ with_placed (placed_from (map used_of s.now.used) 0 (whole_unit into.old).functions) (whole_unit into.old)) }
{
    let all = pointed_in(s.allocator(), s.used())?;
    for f in 0..into.functions() {
        place_one(s, into, &all, f)?;
    }
    Ok(())
}
