//! Assignments (C17 6.5.16) and the comma (C17 6.5.17).
ghost use Rattle.std.specs.Prelude.{◌≡◌, ◌<◌, IfOk, OnOk, length, Some, None};
ghost use Rattle.pv_types.specs.Known.{tree};
ghost use Rattle.pv_typed.specs.TypedTree.{type_of, Assign, CompoundAssign, PointerAssign};
ghost use Rattle.pv_typed.specs.NodeTrees.{expression_at, IsExpression};
ghost use Rattle.pv_typed.specs.Known.{AreKnown};
ghost use Rattle.pv_check.specs.Kept.{Kept, env_of, expression_if};
ghost use Rattle.pv_check.specs.Values.{may_point, may_assign};
ghost use Rattle.pv_check.specs.ValueParts.{assigned_with};
ghost use Rattle.pv_check.specs.Assignment.{compound_at, arithmetic_assign, shift_assign, comma_of};
ghost use Rattle.pv_check.specs.AssignmentParts.{pointer_assign, assigned_to};
ghost use Rattle.pv_check.specs.Open.{IfAnswered};

use crate::kinds::common;
use crate::sorts::{are_alike, complete_pointed_by, has_void, is_const, kind_of, same};
use crate::values::{add, converted, to_kind};
use pv_layout::bare;
use pv_num::{BinOp, IntKind, promoted};
use pv_tree::NodeId;
use pv_typed::{Sign, Typed, TypedUnit};
use pv_types::{NoMemory, Term, TypeId, Types};

/// Whether a pointer to the right type may be assigned to one to the left type (C17 6.5.16.1p1).
fn may_point(types: &Types, t: TypeId, u: TypeId) -> bool
    requires left { t.0 < length types.now.terms }
    requires right { u.0 < length types.now.terms }
    ensures { result ≡ may_point (tree types.now t.0) (tree types.now u.0) }
{
    let qualified = is_const(types, t) || !is_const(types, u);
    qualified && (are_alike(types, t, u) || has_void(types, t, u))
}

/// Whether a value of the right type, a null pointer constant or not, may be assigned where the left type is wanted.
fn may_assign(types: &Types, t: TypeId, u: TypeId, null: bool) -> bool
    requires left { t.0 < length types.now.terms }
    requires right { u.0 < length types.now.terms }
    ensures { result ≡ may_assign (tree types.now t.0) (tree types.now u.0) null }
{
    match types.view(t) {
        Term::Int(kind) => match types.view(u) {
            Term::Int(_) => true,
            Term::Pointer(_) => matches!(kind, IntKind::Bool),
            _ => false,
        },
        Term::Pointer(x) => match types.view(u) {
            Term::Pointer(y) => null || may_point(types, x, y),
            _ => null,
        },
        Term::Struct(_) | Term::Union(_) => same(types, t, u),
        _ => false,
    }
}

/// A value as it is assigned where the type is wanted; `null` says that it is a null pointer constant (C17 6.5.16.1).
pub fn assigned_as(
    into: &mut TypedUnit,
    t: TypeId,
    a: NodeId,
    null: bool,
) -> Result<Option<NodeId>, NoMemory>
    requires known { AreKnown into.old }
    requires target { t.0 < length into.old.known.terms }
    requires node { IsExpression into.old a }
    ensures node { IfAnswered result (IsExpression into.new) }
    ensures typed { IfOk result (λ r. expression_if into.new r ≡ assigned_with null (tree into.old.known t.0) (expression_at into.old a)) }
    ensures kept { OnOk result (Kept into.old into.new) }
{
    let plain = bare(into.types(), t);
    let from = into.type_of(a);
    if !may_assign(into.types(), plain, from, null) {
        return Ok(None);
    }
    let r = converted(into, plain, a)?;
    Ok(Some(r))
}

/// `a = b` of an lvalue and a value of its type (C17 6.5.16p3).
pub(crate) fn assign_to(
    into: &mut TypedUnit,
    line: u32,
    a: NodeId,
    b: NodeId,
) -> Result<Option<NodeId>, NoMemory>
    requires known { AreKnown into.old }
    requires left { IsExpression into.old a }
    requires right { IsExpression into.old b }
    ensures node { IfAnswered result (IsExpression into.new) }
    ensures typed { IfOk result (λ r. expression_if into.new r ≡ assigned_to line (expression_at into.old a) (Some (expression_at into.old b))) }
    ensures kept { OnOk result (Kept into.old into.new) }
{
    let t = bare(into.types(), into.type_of(a));
    let r = add(into, Typed::Assign(a, b), t, line, true)?;
    Ok(Some(r))
}

/// `a op= b`, where the operator works in a kind (C17 6.5.16.2p3).
fn compound_at(
    into: &mut TypedUnit,
    line: u32,
    op: BinOp,
    a: NodeId,
    b: NodeId,
    kind: IntKind,
    right: IntKind,
) -> Result<Option<NodeId>, NoMemory>
    requires known { AreKnown into.old }
    requires left { IsExpression into.old a }
    requires right { IsExpression into.old b }
    ensures node { IfAnswered result (IsExpression into.new) }
    ensures typed { IfOk result (λ r. expression_if into.new r ≡ compound_at line op (expression_at into.old a) (expression_at into.old b) kind right) }
    ensures kept { OnOk result (Kept into.old into.new) }
{
    let t = bare(into.types(), into.type_of(a));
    let Ok(value) = to_kind(into, right, b) else {
        return Err(NoMemory);
    };
    let Ok(r) = add(
        into,
        Typed::CompoundAssign(op, kind, a, value),
        t,
        line,
        true,
    ) else {
        return Err(NoMemory);
    };
    Ok(Some(r))
}

/// `a op= b` of integers (C17 6.5.16.2p2).
pub(crate) fn arithmetic_assign(
    into: &mut TypedUnit,
    line: u32,
    op: BinOp,
    a: NodeId,
    b: NodeId,
) -> Result<Option<NodeId>, NoMemory>
    requires known { AreKnown into.old }
    requires left { IsExpression into.old a }
    requires right { IsExpression into.old b }
    ensures node { IfAnswered result (IsExpression into.new) }
    ensures typed { IfOk result (λ r. expression_if into.new r ≡ arithmetic_assign line op (expression_at into.old a) (expression_at into.old b)) }
    ensures kept { OnOk result (Kept into.old into.new) }
{
    let Some(k) = kind_of(into.types(), into.type_of(a)) else {
        return Ok(None);
    };
    let Some(l) = kind_of(into.types(), into.type_of(b)) else {
        return Ok(None);
    };
    let kind = common(k, l);
    let r = compound_at(into, line, op, a, b, kind, kind)?;
    Ok(r)
}

/// `a <<= b`, `a >>= b` (C17 6.5.16.2p2).
pub(crate) fn shift_assign(
    into: &mut TypedUnit,
    line: u32,
    op: BinOp,
    a: NodeId,
    b: NodeId,
) -> Result<Option<NodeId>, NoMemory>
    requires known { AreKnown into.old }
    requires left { IsExpression into.old a }
    requires right { IsExpression into.old b }
    ensures node { IfAnswered result (IsExpression into.new) }
    ensures typed { IfOk result (λ r. expression_if into.new r ≡ shift_assign line op (expression_at into.old a) (expression_at into.old b)) }
    ensures kept { OnOk result (Kept into.old into.new) }
{
    let Some(k) = kind_of(into.types(), into.type_of(a)) else {
        return Ok(None);
    };
    let Some(l) = kind_of(into.types(), into.type_of(b)) else {
        return Ok(None);
    };
    let r = compound_at(into, line, op, a, b, promoted(k), promoted(l))?;
    Ok(r)
}

/// `a += b`, `a -= b` of a pointer and an integer (C17 6.5.16.2p1).
pub(crate) fn pointer_assign(
    into: &mut TypedUnit,
    line: u32,
    sign: Sign,
    a: NodeId,
    b: NodeId,
) -> Result<Option<NodeId>, NoMemory>
    requires known { AreKnown into.old }
    requires left { IsExpression into.old a }
    requires right { IsExpression into.old b }
    ensures node { IfAnswered result (IsExpression into.new) }
    ensures typed { IfOk result (λ r. expression_if into.new r ≡ pointer_assign (env_of into.old) line sign (expression_at into.old a) (expression_at into.old b)) }
    ensures kept { OnOk result (Kept into.old into.new) }
{
    let t = into.type_of(a);
    if complete_pointed_by(into.types(), t).is_none() {
        return Ok(None);
    }
    if kind_of(into.types(), into.type_of(b)).is_none() {
        return Ok(None);
    }
    let plain = bare(into.types(), t);
    let r = add(into, Typed::PointerAssign(sign, a, b), plain, line, true)?;
    Ok(Some(r))
}

/// `a , b` of two values (C17 6.5.17p2).
pub(crate) fn comma(
    into: &mut TypedUnit,
    line: u32,
    a: NodeId,
    b: NodeId,
) -> Result<Option<NodeId>, NoMemory>
    requires known { AreKnown into.old }
    requires left { IsExpression into.old a }
    requires right { IsExpression into.old b }
    ensures node { IfAnswered result (IsExpression into.new) }
    ensures typed { IfOk result (λ r. expression_if into.new r ≡ Some (comma_of line (expression_at into.old a) (expression_at into.old b))) }
    ensures kept { OnOk result (Kept into.old into.new) }
{
    let t = into.type_of(b);
    let r = add(into, Typed::Comma(a, b), t, line, true)?;
    Ok(Some(r))
}
