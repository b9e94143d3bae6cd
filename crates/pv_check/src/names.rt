//! Identifiers (C17 6.5.1p2).
ghost use Rattle.std.specs.Prelude.{◌≡◌, ◌<◌, Some, IfOk, IfSome, OnOk, length, is_some};
ghost use Rattle.pv_types.specs.Ty.{IntTy};
ghost use Rattle.pv_num.specs.declared.kinds.IntKind.TheVariants.{Int};
ghost use Rattle.pv_typed.specs.TypedTree.{Object, Function, Constant};
ghost use Rattle.pv_typed.specs.TypedUnits.{object_at, function_at, name_at};
ghost use Rattle.pv_typed.specs.Tables.{whole_unit};
ghost use Rattle.pv_typed.specs.NodeTrees.{IsExpression};
ghost use Rattle.pv_typed.specs.Known.{AreKnown};
ghost use Rattle.pv_check.specs.State.{ObjectName, FunctionName, ConstantOf};
ghost use Rattle.pv_check.specs.Scopes.{look};
ghost use Rattle.pv_check.specs.Primary.{name_of};
ghost use Rattle.pv_check.specs.PrimaryParts.{designator_of, used_function};
ghost use Rattle.pv_library.specs.LibraryNames.{library_named};
ghost use Rattle.pv_check.specs.Raw.{scopes_shown, meaning_if, used_of};
ghost use Rattle.pv_check.specs.Open.{state_of, IsOpen, Goes, EntryKnown, Texts, IfAnswered};
ghost use Rattle.pv_check.specs.Arms.{after_node, OpenIf};
ghost use Rattle.pv_check.specs.Kept.{Kept, expression_if};
ghost use Rattle.pv_check.specs.Values.{source_node};

use crate::scopes::{Entry, Named, Scopes};
use crate::values::{add, intern};
use pv_library::library_named;
use pv_num::IntKind;
use pv_tree::NodeId;
use pv_typed::{Typed, TypedUnit};
use pv_types::{NoMemory, Term};

/// The object that an identifier designates.
pub(crate) fn object(into: &mut TypedUnit, line: u32, o: u32) -> Result<Option<NodeId>, NoMemory>
    requires known { AreKnown into.old }
    requires object { o < length into.old.objects }
    ensures node { IfAnswered result (IsExpression into.new) }
    ensures typed { IfOk result (λ r. expression_if into.new r ≡ Some (source_node line (object_at (whole_unit into.old) o).t (Object o))) }
    ensures kept { OnOk result (Kept into.old into.new) }
{
    let t = into.object(o).t;
    let r = add(into, Typed::Object(o), t, line, true)?;
    Ok(Some(r))
}

/// An enumeration constant (C17 6.4.4.3).
pub(crate) fn enumerator(
    into: &mut TypedUnit,
    line: u32,
    value: i32,
) -> Result<Option<NodeId>, NoMemory>
    requires known { AreKnown into.old }
    ensures node { IfAnswered result (IsExpression into.new) }
    ensures typed { IfOk result (λ r. expression_if into.new r ≡ Some (source_node line (IntTy Int) (Constant value))) }
    ensures kept { OnOk result (Kept into.old into.new) }
{
    let Ok(t) = intern(into, Term::Int(IntKind::Int)) else {
        return Err(NoMemory);
    };
    let Ok(r) = add(into, Typed::Constant(value as i64), t, line, true) else {
        return Err(NoMemory);
    };
    Ok(Some(r))
}

/// What a name designates.
#[tactic(auto, using(crate::proofs::Showing::look_shown, crate::proofs::Opening::look_known))]
pub(crate) fn look_up(s: &Scopes, into: &TypedUnit, n: u32) -> Option<Entry>
    requires open { IsOpen into.now s.now }
    ensures meaning { look (scopes_shown into.now.known s.now.scopes) n ≡ meaning_if into.now.known result }
    ensures known { IfSome result (EntryKnown into.now) }
{
    s.look(n)
}

/// An object that an identifier designates, which counts as used.
fn named_object(
    s: &mut Scopes,
    hidden: bool,
    line: u32,
    o: u32,
    into: &mut TypedUnit,
) -> Result<Option<NodeId>, NoMemory>
    requires open { IsOpen into.old s.old }
    requires object { o < length into.old.objects }
    ensures open { IfOk result (λ r. OpenIf into.new s.new r) }
    ensures typed { (texts : Texts) → IfOk result (λ r. after_node texts hidden s.new into.new r ≡ name_of line (Some (ObjectName o)) (state_of texts hidden s.old into.old)) }
    ensures goes { OnOk result (Goes into.old into.new) }
{
    s.note(Named::Object(o))?;
    let r = object(into, line, o)?;
    Ok(r)
}

/// An enumerator that an identifier designates.
fn named_constant(
    s: &Scopes,
    hidden: bool,
    line: u32,
    value: i32,
    into: &mut TypedUnit,
) -> Result<Option<NodeId>, NoMemory>
    requires open { IsOpen into.old s.now }
    ensures open { IfOk result (λ r. OpenIf into.new s.now r) }
    ensures typed { (texts : Texts) → IfOk result (λ r. after_node texts hidden s.now into.new r ≡ name_of line (Some (ConstantOf value)) (state_of texts hidden s.now into.old)) }
    ensures goes { OnOk result (Goes into.old into.new) }
{
    let r = enumerator(into, line, value)?;
    Ok(r)
}

/// Whether a function is one of the library.
fn is_of_library(into: &TypedUnit, f: u32) -> bool
    requires known { AreKnown into.now }
    requires function { f < length into.now.functions }
    ensures { result ≡ is_some (library_named (name_at (whole_unit into.now) (function_at (whole_unit into.now) f).name)) }
{
    let name = into.function(f).name;
    library_named(into.names().text(name)).is_some()
}

/// The designator of a function.
fn designator(into: &mut TypedUnit, line: u32, f: u32) -> Result<Option<NodeId>, NoMemory>
    requires known { AreKnown into.old }
    requires function { f < length into.old.functions }
    ensures node { IfAnswered result (IsExpression into.new) }
    ensures typed { IfOk result (λ r. expression_if into.new r ≡ Some (source_node line (function_at (whole_unit into.old) f).t (Function f))) }
    ensures kept { OnOk result (Kept into.old into.new) }
{
    let t = into.function(f).t;
    let r = add(into, Typed::Function(f), t, line, true)?;
    Ok(Some(r))
}

/// How a function that an expression names is noted: in the operand of `sizeof` it isn't pointed to.
fn as_named(hidden: bool, f: u32) -> Named
    ensures { used_of result ≡ used_function hidden f }
{
    if hidden {
        Named::Function(f)
    } else {
        Named::Pointed(f)
    }
}

/// A function that an identifier designates, which is pointed to, but in the operand of `sizeof`.
fn placed_function(
    s: &mut Scopes,
    hidden: bool,
    line: u32,
    f: u32,
    into: &mut TypedUnit,
) -> Result<Option<NodeId>, NoMemory>
    requires open { IsOpen into.old s.old }
    requires function { f < length into.old.functions }
    ensures open { IfOk result (λ r. OpenIf into.new s.new r) }
    ensures typed { (texts : Texts) → IfOk result (λ r. after_node texts hidden s.new into.new r ≡ Some (designator_of line f (state_of texts hidden s.old into.old))) }
    ensures goes { OnOk result (Goes into.old into.new) }
{
    s.note(as_named(hidden, f))?;
    let r = designator(into, line, f)?;
    Ok(r)
}

/// A function that an identifier designates; one of the library is a callee alone.
fn named_function(
    s: &mut Scopes,
    hidden: bool,
    line: u32,
    f: u32,
    into: &mut TypedUnit,
) -> Result<Option<NodeId>, NoMemory>
    requires open { IsOpen into.old s.old }
    requires function { f < length into.old.functions }
    ensures open { IfOk result (λ r. OpenIf into.new s.new r) }
    ensures typed { (texts : Texts) → IfOk result (λ r. after_node texts hidden s.new into.new r ≡ name_of line (Some (FunctionName f)) (state_of texts hidden s.old into.old)) }
    ensures goes { OnOk result (Goes into.old into.new) }
{
    if is_of_library(into, f) {
        return Ok(None);
    }
    placed_function(s, hidden, line, f, into)
}

/// What an identifier designates: an object, an enumerator or a function.
pub(crate) fn name(
    s: &mut Scopes,
    hidden: bool,
    line: u32,
    n: u32,
    into: &mut TypedUnit,
) -> Result<Option<NodeId>, NoMemory>
    requires open { IsOpen into.old s.old }
    ensures open { IfOk result (λ r. OpenIf into.new s.new r) }
    ensures typed { (texts : Texts) → IfOk result (λ r. after_node texts hidden s.new into.new r ≡ name_of line (look (scopes_shown into.old.known s.old.scopes) n) (state_of texts hidden s.old into.old)) }
    ensures goes { OnOk result (Goes into.old into.new) }
{
    match look_up(s, into, n) {
        Some(Entry::Object(o)) => named_object(s, hidden, line, o, into),
        Some(Entry::Constant(value)) => named_constant(s, hidden, line, value, into),
        Some(Entry::Function(f)) => named_function(s, hidden, line, f, into),
        Some(Entry::Typedef(_)) | None => Ok(None),
    }
}
