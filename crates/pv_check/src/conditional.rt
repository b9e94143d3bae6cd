// The conditional operator (C17 6.5.15).
ghost use Rattle.std.specs.Prelude.{◌≡◌, ◌<◌, length, IfOk, OnOk, Some};
ghost use Rattle.pv_types.specs.Known.{tree};
ghost use Rattle.pv_types.specs.Ty.{VoidTy};
ghost use Rattle.pv_typed.specs.TypedTree.{type_of};
ghost use Rattle.pv_typed.specs.Addresses.{is_null_constant};
ghost use Rattle.pv_typed.specs.NodeTrees.{expression_at, IsExpression};
ghost use Rattle.pv_typed.specs.Known.{AreKnown};
ghost use Rattle.pv_check.specs.Conditional.{pointer_type, plain_type, result_type, conditional_of};
ghost use Rattle.pv_check.specs.ConditionalParts.{type_of_chosen, pointer_to, chosen_node, pointer_of_both};
ghost use Rattle.pv_check.specs.Growing.{Grows, IsType, type_if};
ghost use Rattle.pv_check.specs.Kept.{Kept, expression_if};
ghost use Rattle.pv_check.specs.Open.{IfAnswered};

use crate::composite_types::composite;
use crate::interning::interned;
use crate::kinds::common;
use crate::qualified::qualified;
use crate::sorts::{has_void, is_const, is_scalar, same};
use crate::values::{add, converted};
use pv_layout::bare;
use pv_tree::NodeId;
use pv_typed::{Typed, TypedUnit, is_null_constant};
use pv_types::{NoMemory, Term, TypeId, Types};
use std::alloc::Global;

/// A pointer to the type, `const` or not.
fn pointer_to(types: &mut Types, constant: bool, t: TypeId) -> Result<TypeId, NoMemory>
    requires { t.0 < length types.old.terms }
    ensures known { IfOk result (λ r. r.0 < length types.new.terms) }
    ensures tree { IfOk result (λ r. tree types.new r.0 ≡ pointer_to constant (tree types.old t.0)) }
    ensures grows { OnOk result (Grows types.old types.new) }
{
    if constant {
        let Ok(inner) = qualified(types, t) else {
            return Err(NoMemory);
        };
        let Ok(r) = interned(types, Term::Pointer(inner)) else {
            return Err(NoMemory);
        };
        return Ok(r);
    }
    interned(types, Term::Pointer(t))
}

/// A pointer to `void`, `const` or not.
fn pointer_to_void(types: &mut Types, constant: bool) -> Result<TypeId, NoMemory>
    ensures known { IfOk result (λ r. r.0 < length types.new.terms) }
    ensures tree { IfOk result (λ r. tree types.new r.0 ≡ pointer_to constant VoidTy) }
    ensures grows { OnOk result (Grows types.old types.new) }
{
    let Ok(void) = interned(types, Term::Void) else {
        return Err(NoMemory);
    };
    let Ok(r) = pointer_to(types, constant, void) else {
        return Err(NoMemory);
    };
    Ok(r)
}

/// What pointers to these types give, where neither is a null pointer constant (C17 6.5.15p6).
fn merged(
    alloc: Global,
    types: &mut Types,
    t: TypeId,
    u: TypeId,
) -> Result<Option<TypeId>, NoMemory>
    requires left { t.0 < length types.old.terms }
    requires right { u.0 < length types.old.terms }
    ensures known { IfOk result (λ r. IsType types.new r) }
    ensures tree { IfOk result (λ r. type_if types.new r ≡ pointer_of_both (tree types.old t.0) (tree types.old u.0)) }
    ensures grows { OnOk result (Grows types.old types.new) }
{
    let constant = is_const(types, t) || is_const(types, u);
    let left = bare(types, t);
    let right = bare(types, u);
    if types.compatible(left, right) {
        let Ok(both) = composite(alloc, types, left, right) else {
            return Err(NoMemory);
        };
        let Ok(r) = pointer_to(types, constant, both) else {
            return Err(NoMemory);
        };
        return Ok(Some(r));
    }
    if has_void(types, t, u) {
        let Ok(r) = pointer_to_void(types, constant) else {
            return Err(NoMemory);
        };
        return Ok(Some(r));
    }
    Ok(None)
}

/// The type of the result, where both operands are pointers (C17 6.5.15p6), to these types.
fn pointer_type(
    alloc: Global,
    types: &mut Types,
    t: TypeId,
    u: TypeId,
    left: bool,
    right: bool,
) -> Result<Option<TypeId>, NoMemory>
    requires left { t.0 < length types.old.terms }
    requires right { u.0 < length types.old.terms }
    ensures known { IfOk result (λ r. IsType types.new r) }
    ensures tree { IfOk result (λ r. type_if types.new r ≡ pointer_type (tree types.old t.0) (tree types.old u.0) left right) }
    ensures grows { OnOk result (Grows types.old types.new) }
{
    if left == right {
        return merged(alloc, types, t, u);
    }
    let r = interned(types, Term::Pointer(if right { t } else { u }))?;
    Ok(Some(r))
}

/// The type of the result, where neither operand is a pointer (C17 6.5.15p3, p5).
fn plain_type(types: &mut Types, t: TypeId, u: TypeId) -> Result<Option<TypeId>, NoMemory>
    requires left { t.0 < length types.old.terms }
    requires right { u.0 < length types.old.terms }
    ensures known { IfOk result (λ r. IsType types.new r) }
    ensures tree { IfOk result (λ r. type_if types.new r ≡ plain_type (tree types.old t.0) (tree types.old u.0)) }
    ensures grows { OnOk result (Grows types.old types.new) }
{
    match types.view(t) {
        Term::Int(k) => {
            let Term::Int(l) = types.view(u) else {
                return Ok(None);
            };
            let r = interned(types, Term::Int(common(k, l)))?;
            Ok(Some(r))
        }
        Term::Void => {
            let Term::Void = types.view(u) else {
                return Ok(None);
            };
            Ok(Some(t))
        }
        Term::Struct(_) | Term::Union(_) => {
            if same(types, t, u) {
                Ok(Some(u))
            } else {
                Ok(None)
            }
        }
        _ => Ok(None),
    }
}

/// The type of the result (C17 6.5.15p3, p5, p6), by the types of the second and the third operand, and whether they are
/// null pointer constants.
fn result_type(
    alloc: Global,
    types: &mut Types,
    t: TypeId,
    u: TypeId,
    left: bool,
    right: bool,
) -> Result<Option<TypeId>, NoMemory>
    requires left { t.0 < length types.old.terms }
    requires right { u.0 < length types.old.terms }
    ensures known { IfOk result (λ r. IsType types.new r) }
    ensures tree { IfOk result (λ r. type_if types.new r ≡ result_type (tree types.old t.0) (tree types.old u.0) left right) }
    ensures grows { OnOk result (Grows types.old types.new) }
{
    if let Term::Pointer(to) = types.view(t) {
        if let Term::Pointer(other) = types.view(u) {
            return pointer_type(alloc, types, to, other, left, right);
        }
        return Ok(if right { Some(t) } else { None });
    }
    if let Term::Pointer(_) = types.view(u) {
        return Ok(if left { Some(u) } else { None });
    }
    plain_type(types, t, u)
}

/// The same of two values of a unit.
fn type_of_both(
    alloc: Global,
    into: &mut TypedUnit,
    b: NodeId,
    c: NodeId,
) -> Result<Option<TypeId>, NoMemory>
    requires known { AreKnown into.old }
    requires second { IsExpression into.old b }
    requires third { IsExpression into.old c }
    ensures known { IfOk result (λ r. IsType into.new.known r) }
    ensures tree { IfOk result (λ r. type_if into.new.known r ≡ type_of_chosen (expression_at into.old b) (expression_at into.old c)) }
    ensures kept { OnOk result (Kept into.old into.new) }
{
    let t = into.type_of(b);
    let u = into.type_of(c);
    let left = is_null_constant(into, b);
    let right = is_null_constant(into, c);
    let r = result_type(alloc, into.types_mut(), t, u, left, right)?;
    Ok(r)
}

/// The node, of this type.
fn chosen(
    into: &mut TypedUnit,
    line: u32,
    a: NodeId,
    b: NodeId,
    c: NodeId,
    t: TypeId,
) -> Result<NodeId, NoMemory>
    requires known { AreKnown into.old }
    requires first { IsExpression into.old a }
    requires second { IsExpression into.old b }
    requires third { IsExpression into.old c }
    requires typed { t.0 < length into.old.known.terms }
    ensures node { IfOk result (λ r. IsExpression into.new r) }
    ensures typed { IfOk result (λ r. Some (expression_at into.new r) ≡ chosen_node line (expression_at into.old a) (expression_at into.old b) (expression_at into.old c) (Some (tree into.old.known t.0))) }
    ensures kept { OnOk result (Kept into.old into.new) }
{
    let Ok(second) = converted(into, t, b) else {
        return Err(NoMemory);
    };
    let Ok(third) = converted(into, t, c) else {
        return Err(NoMemory);
    };
    let Ok(r) = add(into, Typed::Conditional(a, second, third), t, line, true) else {
        return Err(NoMemory);
    };
    Ok(r)
}

/// `a ? b : c` of three values (C17 6.5.15).
pub(crate) fn conditional(
    alloc: Global,
    into: &mut TypedUnit,
    line: u32,
    a: NodeId,
    b: NodeId,
    c: NodeId,
) -> Result<Option<NodeId>, NoMemory>
    requires known { AreKnown into.old }
    requires first { IsExpression into.old a }
    requires second { IsExpression into.old b }
    requires third { IsExpression into.old c }
    ensures node { IfAnswered result (IsExpression into.new) }
    ensures typed { IfOk result (λ r. expression_if into.new r ≡ conditional_of line (expression_at into.old a) (expression_at into.old b) (expression_at into.old c)) }
    ensures kept { OnOk result (Kept into.old into.new) }
{
    if !is_scalar(into.types(), into.type_of(a)) {
        return Ok(None);
    }
    let Ok(found) = type_of_both(alloc, into, b, c) else {
        return Err(NoMemory);
    };
    let Some(t) = found else {
        return Ok(None);
    };
    let Ok(r) = chosen(into, line, a, b, c, t) else {
        return Err(NoMemory);
    };
    Ok(Some(r))
}
