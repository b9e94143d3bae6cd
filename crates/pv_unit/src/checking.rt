//! Typing a translation unit (C17 6.9).
ghost use Rattle.std.specs.Prelude.{◌≡◌, ◌<◌, ◌≤◌, ◌^◌, ◌&&◌, nat_lt, not, ℕ, List, map, Some, is_some, IsTrue, IfOk, IfErr, OnOk};
ghost use Rattle.pv_token.specs.Table.{Table};
ghost use Rattle.pv_tree.specs.Syntax.{DeclarationTree};
ghost use Rattle.pv_types.specs.Known.{env};
ghost use Rattle.pv_types.specs.Layouts.{layout_in, AllFill};
ghost use Rattle.pv_types.specs.Ty.{StructTag};
ghost use Rattle.pv_typed.specs.Formed.{Grown};
ghost use Rattle.pv_typed.specs.Known.{AreKnown};
ghost use Rattle.pv_typed.specs.Mains.{main_of};
ghost use Rattle.pv_typed.specs.Tables.{whole_unit};
ghost use Rattle.pv_check.specs.Open.{IsOpen, Texts};
ghost use Rattle.pv_check.specs.Raw.{used_of};
ghost use Rattle.pv_unit.specs.Checking.{externals_in, IsStop, IsResolved, IsLack, IsCause, IsNamed};
ghost use Rattle.pv_unit.specs.Definitions.{may_end};
ghost use Rattle.pv_unit.specs.Identifiers.{HasIdentifiers};
ghost use Rattle.pv_unit.specs.Outside.{unit_state};
ghost use Rattle.pv_unit.specs.There.{AreThere};
ghost use Rattle.pv_unit.specs.Units.{Checked, IsTyped, Typed, UnitComes, finished_unit, unit_at_first, statics_from, placed_from, with_statics, with_placed};
ghost use Rattle.pv_unit.specs.declared.checking.CheckError.TheVariants.{NoMemory as OutOfMemory};

use crate::ending::may_end;
use crate::entities::{Entities, Outer};
use crate::functions::external;
use crate::resolving::{add_placed, add_statics, has_main, unresolved};
use crate::starting::{first_scopes, named_unit};
use pv_check::Scopes;
use pv_token::Tokens;
use pv_tree::Unit;
use pv_typed::TypedUnit;
use pv_types::NoMemory;
use std::alloc::Global;
use thiserror::Error;

/// Why a unit has no typing.
#[derive(Clone, Copy, Debug, Error)]
pub enum CheckError {
    /// The external declarations before this one, from 0, have a typing, and with it they have none.
    #[error("the external declaration {index} breaks a constraint")]
    Constraint { index: u32 },
    /// This name is the first declared of those that an expression names and nothing defines. The number is the tokens'.
    #[error("nothing defines the name {name}")]
    Unresolved { name: u32 },
    /// `main` is not defined.
    #[error("main is not defined")]
    NoMain,
    /// Memory ran out, or a table is full. The unit may have a typing or not.
    #[error("out of memory")]
    NoMemory,
}

impl From<NoMemory> for CheckError {
    ghost from_gives = { λ _ e. e ≡ OutOfMemory };

    fn from(_e: NoMemory) -> CheckError {
        CheckError::NoMemory
    }
}

/// Whether the last of so many external declarations breaks a constraint of the whole unit.
fn is_left_open(s: &Scopes, into: &TypedUnit, outer: &Outer, count: u32) -> bool
    requires opened { IsOpen into.now s.now }
    requires entities { AreThere into.now outer.now.entities }
    ensures { (texts : Texts) → result ≡ (nat_lt 0 count && not (may_end (unit_state texts s.now into.now outer.now))) }
{
    count > 0 && !may_end(into, outer)
}

/// Types the external declarations of a unit in their order, up to the first that has no typing.
fn all_declarations(
    u: &Unit,
    t: &Tokens,
    s: &mut Scopes,
    into: &mut TypedUnit,
    outer: &mut Outer,
) -> Result<(), CheckError>
    requires opened { IsOpen into.old s.old }
    requires entities { AreThere into.old outer.old.entities }
    ensures opened { OnOk result (IsOpen into.new s.new) }
    ensures typed { OnOk result (IsTyped (externals_in u.now) (unit_state t.now.texts s.old into.old outer.old) (unit_state t.now.texts s.new into.new outer.new)) }
    ensures refused { IfErr result (IsStop (externals_in u.now) (unit_state t.now.texts s.old into.old outer.old)) }
{
    let count = u.count();
    for i in 0..count {
        match external(u, t, s, into, outer, u.external(i)) {
            Ok(true) => {}
            Ok(false) => return Err(CheckError::Constraint { index: i }),
            Err(NoMemory) => return Err(CheckError::NoMemory),
        }
    }
    if is_left_open(s, into, outer, count) {
        return Err(CheckError::Constraint { index: count - 1 });
    }
    Ok(())
}

/// Looks for names that nothing defines, and for `main`. A name that is none of the tokens', which none is that was read
/// of them, gives want of memory.
fn resolved(t: &Tokens, s: &Scopes, into: &TypedUnit, outer: &Outer) -> Result<(), CheckError>
    requires known { AreKnown into.now }
    ensures fine { OnOk result (IsResolved (unit_state t.now.texts s.now into.now outer.now)) }
    ensures refused { IfErr result (IsLack (unit_state t.now.texts s.now into.now outer.now)) }
    ensures named { IfErr result (IsNamed t.now) }
{
    if let Some(name) = unresolved(s, into, outer)? {
        if name >= t.names_len() {
            return Err(CheckError::NoMemory);
        }
        return Err(CheckError::Unresolved { name });
    }
    if !has_main(into) {
        return Err(CheckError::NoMain);
    }
    Ok(())
}

/// Notes the static objects.
fn with_statics(into: &mut TypedUnit, outer: &Outer) -> Result<(), CheckError>
    ensures whole { OnOk result (whole_unit into.new ≡ with_statics (statics_from outer.now.entities 0 (whole_unit into.old).objects) (whole_unit into.old)) }
    ensures types { OnOk result (into.new.known ≡ into.old.known) }
    ensures grown { OnOk result (Grown into.old into.new) }
    ensures refused { IfErr result (λ e. e ≡ OutOfMemory) }
{
    match add_statics(into, outer) {
        Ok(()) => Ok(()),
        Err(NoMemory) => Err(CheckError::NoMemory),
    }
}

/// Notes the functions that are pointed to.
fn with_placed(s: &Scopes, into: &mut TypedUnit) -> Result<(), CheckError>
    ensures whole { OnOk result (whole_unit into.new ≡ with_placed (placed_from (map used_of s.now.used) 0 (whole_unit into.old).functions) (whole_unit into.old)) }
    ensures types { OnOk result (into.new.known ≡ into.old.known) }
    ensures grown { OnOk result (Grown into.old into.new) }
    ensures refused { IfErr result (λ e. e ≡ OutOfMemory) }
{
    match add_placed(s, into) {
        Ok(()) => Ok(()),
        Err(NoMemory) => Err(CheckError::NoMemory),
    }
}

/// Notes the static objects, and the functions that are pointed to.
fn with_both(s: &Scopes, into: &mut TypedUnit, outer: &Outer) -> Result<(), CheckError>
    ensures whole { (texts : Texts) → OnOk result (whole_unit into.new ≡ finished_unit (unit_state texts s.now into.old outer.now)) }
    ensures types { OnOk result (into.new.known ≡ into.old.known) }
    ensures grown { OnOk result (Grown into.old into.new) }
    ensures refused { IfErr result (λ e. e ≡ OutOfMemory) }
{
    match with_statics(into, outer) {
        Ok(()) => with_placed(s, into),
        Err(e) => Err(e),
    }
}

/// Looks for names that nothing defines, and for `main`, and notes the static objects and the functions that are pointed to.
fn finished(t: &Tokens, s: &Scopes, into: &mut TypedUnit, outer: &Outer) -> Result<(), CheckError>
    requires known { AreKnown into.old }
    ensures fine { OnOk result (IsResolved (unit_state t.now.texts s.now into.old outer.now)) }
    ensures whole { OnOk result (whole_unit into.new ≡ finished_unit (unit_state t.now.texts s.now into.old outer.now)) }
    ensures types { OnOk result (into.new.known ≡ into.old.known) }
    ensures grown { OnOk result (Grown into.old into.new) }
    ensures refused { IfErr result (IsLack (unit_state t.now.texts s.now into.old outer.now)) }
    ensures named { IfErr result (IsNamed t.now) }
{
    match resolved(t, s, into, outer) {
        Ok(()) => with_both(s, into, outer),
        Err(e) => Err(e),
    }
}

/// Types the external declarations over the tables before the first one.
fn filled(
    u: &Unit,
    t: &Tokens,
    s: &mut Scopes,
    into: &mut TypedUnit,
    outer: &mut Outer,
) -> Result<(), CheckError>
    requires first { unit_state t.now.texts s.old into.old outer.old ≡ unit_at_first t.now }
    requires opened { IsOpen into.old s.old }
    requires entities { AreThere into.old outer.old.entities }
    ensures typed { OnOk result (UnitComes t.now (externals_in u.now) (Typed (whole_unit into.new))) }
    ensures known { OnOk result (AreKnown into.new) }
    ensures main { OnOk result (IsTrue (is_some (main_of (whole_unit into.new)))) }
    ensures small { OnOk result ((n : ℕ) → (layout_in (env into.new.known) (StructTag n)).size ≤ 2 ^ 32) }
    ensures refused { IfErr result (IsCause t.now (externals_in u.now)) }
    ensures named { IfErr result (IsNamed t.now) }
{
    match all_declarations(u, t, s, into, outer) {
        Ok(()) => finished(t, s, into, outer),
        Err(e) => Err(e),
    }
}

/// A law of the tables of types, which are those of a unit with a function: each completed structure and union has a byte.
fn no_empty_tag(into: &TypedUnit)
    requires known { AreKnown into.now }
    requires main { IsTrue (is_some (main_of (whole_unit into.now))) }
    ensures { AllFill (env into.now.known) }
{
    let function = into.function(0);
    let _layer = into.types().view(function.t);
}

/// Types a unit (C17 6.9). `Constraint` comes exactly where some of the first external declarations have no typing,
/// and tells how many of them have one; `Unresolved` where they all have one, and an expression names what neither the
/// unit nor the library defines; `NoMain` where neither is so, and `main` is not defined.
pub fn check(alloc: Global, u: &Unit, t: &Tokens) -> Result<TypedUnit, CheckError>
    ensures typed { IfOk result (λ w. UnitComes t.now (externals_in u.now) (Typed (whole_unit w))) }
    ensures known { IfOk result AreKnown }
    ensures identified { IfOk result (λ w. HasIdentifiers t.now (whole_unit w)) }
    ensures main { IfOk result (λ w. IsTrue (is_some (main_of (whole_unit w)))) }
    ensures small { IfOk result (λ w. (n : ℕ) → (layout_in (env w.known) (StructTag n)).size ≤ 2 ^ 32) }
    ensures filled { IfOk result (λ w. AllFill (env w.known)) }
    ensures refused { IfErr result (IsCause t.now (externals_in u.now)) }
    ensures named { IfErr result (IsNamed t.now) }
{
    let mut s = first_scopes(alloc)?;
    let mut into = named_unit(alloc, t)?;
    let mut outer = Outer {
        entities: Entities::new(alloc),
        unsized_typedef: false,
    };
    match filled(u, t, &mut s, &mut into, &mut outer) {
        Ok(()) => {
            no_empty_tag(&into);
            Ok(into)
        }
        Err(e) => Err(e),
    }
}

/// A law: each unit comes to one answer, and to no other.
pub fn one_answer()
    ensures some { (t : Table) (ds : List DeclarationTree) → (a : Checked) × UnitComes t ds a }
    ensures one { (t : Table) (ds : List DeclarationTree) (a b : Checked) → UnitComes t ds a → UnitComes t ds b → a ≡ b }
{}
