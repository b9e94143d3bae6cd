//! The value that is taken of an operand (C17 6.3.2.1), and conversions (C17 6.3).
ghost use Rattle.std.specs.Prelude.{◌≡◌, ◌<◌, Some, IfOk, OnOk, IsTrue, length};
ghost use Rattle.pv_types.specs.Known.{tree, tree_in, trees, env};
ghost use Rattle.pv_types.specs.Formed.{IsKnown};
ghost use Rattle.pv_types.specs.Ty.{IntTy, PointerTo};
ghost use Rattle.pv_check.specs.Growing.{is_sized};
ghost use Rattle.pv_check.specs.Kept.{AreSmall, Kept, env_of, expression_if};
ghost use Rattle.pv_typed.specs.TypedTree.{Node, ArrayPointer, is_lvalue, type_of};
ghost use Rattle.pv_typed.specs.Nodes.{form_in};
ghost use Rattle.pv_typed.specs.Children.{HasOperands};
ghost use Rattle.pv_typed.specs.Formed.{NamesIn};
ghost use Rattle.pv_check.specs.Qualified.{const_version};
ghost use Rattle.pv_types.specs.SameTypes.{same_type};
ghost use Rattle.pv_typed.specs.Tables.{nodes};
ghost use Rattle.pv_typed.specs.NodeTrees.{expression_at, IsExpression};
ghost use Rattle.pv_typed.specs.Known.{AreKnown};
ghost use Rattle.pv_check.specs.Values.{implied_node, read_at, value_of, conversion_to, promoted_value};
ghost use Rattle.pv_check.specs.Open.{IfAnswered};

use crate::interning::interned;
use crate::qualified::qualified;
use crate::sorts::{is_void, same};
use pv_layout::bare;
use pv_num::{IntKind, promoted};
use pv_tree::NodeId;
use pv_typed::{Typed, TypedUnit};
use pv_types::{NoMemory, Term, TypeId, Types};

/// The number of a type.
pub(crate) fn intern(into: &mut TypedUnit, term: Term) -> Result<TypeId, NoMemory>
    requires known { AreKnown into.old }
    requires term { IsKnown into.old.known term }
    requires sized { AreSmall into.old.known → IsTrue (is_sized (env into.old.known) (tree_in into.old.known.lists (trees into.old.known) term)) }
    ensures number { IfOk result (λ t. t.0 < length into.new.known.terms) }
    ensures tree { IfOk result (λ t. tree into.new.known t.0 ≡ tree_in into.new.known.lists (trees into.new.known) term) }
    ensures kept { OnOk result (Kept into.old into.new) }
{
    let t = interned(into.types_mut(), term)?;
    Ok(t)
}

/// Adds a node of a type, whose first token stands on the line.
#[inline(always)]
pub(crate) fn add(
    into: &mut TypedUnit,
    x: Typed,
    t: TypeId,
    line: u32,
    counts: bool,
) -> Result<NodeId, NoMemory>
    requires operands { HasOperands into.old.rows into.old.lists (length into.old.rows) x }
    requires named { NamesIn into.old x }
    requires typed { t.0 < length into.old.known.terms }
    ensures node { IfOk result (λ n. IsExpression into.new n) }
    ensures tree { IfOk result (λ n. expression_at into.new n ≡ Node (tree into.old.known t.0) line counts (form_in into.old.lists (nodes into.old) x)) }
    ensures kept { OnOk result (Kept into.old into.new) }
{
    let n = into.add_node(x, t, line, counts)?;
    Ok(n)
}

/// The type with `const`, which of an array its elements have (C17 6.7.3p9).
pub(crate) fn constant(into: &mut TypedUnit, t: TypeId) -> Result<TypeId, NoMemory>
    requires known { AreKnown into.old }
    requires target { t.0 < length into.old.known.terms }
    ensures number { IfOk result (λ r. r.0 < length into.new.known.terms) }
    ensures tree { IfOk result (λ r. tree into.new.known r.0 ≡ const_version (tree into.old.known t.0)) }
    ensures kept { OnOk result (Kept into.old into.new) }
{
    let r = qualified(into.types_mut(), t)?;
    Ok(r)
}

/// Whether it is an lvalue (C17 6.3.2.1p1) or a function designator (6.3.2.1p4).
#[inline(always)]
pub(crate) fn is_lvalue(into: &TypedUnit, n: NodeId) -> bool
    requires known { AreKnown into.now }
    requires node { IsExpression into.now n }
    ensures { result ≡ is_lvalue (expression_at into.now n) }
{
    match into.node(n) {
        Typed::Object(_) | Typed::Function(_) | Typed::String(_) => true,
        Typed::Subscript(_, _) | Typed::Member(_, _) | Typed::Arrow(_, _) => true,
        Typed::Indirection(_) => !is_void(into.types(), into.type_of(n)),
        _ => false,
    }
}

/// The pointer that stands for a place: to the first element of an array, or to a function (C17 6.3.2.1p3, p4).
fn pointer_to_place(
    into: &mut TypedUnit,
    line: u32,
    t: TypeId,
    n: NodeId,
) -> Result<Option<NodeId>, NoMemory>
    requires known { AreKnown into.old }
    requires node { IsExpression into.old n }
    requires target { t.0 < length into.old.known.terms }
    ensures node { IfAnswered result (IsExpression into.new) }
    ensures value { IfOk result (λ r. expression_if into.new r ≡ Some (implied_node line (PointerTo (tree into.old.known t.0)) (ArrayPointer (expression_at into.old n)))) }
    ensures kept { OnOk result (Kept into.old into.new) }
{
    let Ok(to) = intern(into, Term::Pointer(t)) else {
        return Err(NoMemory);
    };
    let Ok(r) = add(into, Typed::ArrayPointer(n), to, line, false) else {
        return Err(NoMemory);
    };
    Ok(Some(r))
}

/// What an lvalue holds, or the pointer to the first element of an array, or to a function (C17 6.3.2.1p2 to p4).
fn read(into: &mut TypedUnit, n: NodeId) -> Result<Option<NodeId>, NoMemory>
    requires known { AreKnown into.old }
    requires node { IsExpression into.old n }
    ensures node { IfAnswered result (IsExpression into.new) }
    ensures value { IfOk result (λ r. expression_if into.new r ≡ read_at (env_of into.old) (expression_at into.old n) (type_of (expression_at into.old n))) }
    ensures kept { OnOk result (Kept into.old into.new) }
{
    let t = into.type_of(n);
    let line = into.line_of(n);
    if let Term::Array(element, _) = into.types().view(t) {
        return pointer_to_place(into, line, element, n);
    }
    if let Term::Function { .. } = into.types().view(t) {
        return pointer_to_place(into, line, t, n);
    }
    if !into.types().is_complete(t) {
        return Ok(None);
    }
    let plain = bare(into.types(), t);
    let Ok(r) = add(into, Typed::Read(n), plain, line, false) else {
        return Err(NoMemory);
    };
    Ok(Some(r))
}

/// The value of an operand (C17 6.3.2.1), `None` where it has an incomplete type.
#[inline(always)]
pub(crate) fn value(into: &mut TypedUnit, n: NodeId) -> Result<Option<NodeId>, NoMemory>
    requires known { AreKnown into.old }
    requires node { IsExpression into.old n }
    ensures node { IfAnswered result (IsExpression into.new) }
    ensures value { IfOk result (λ r. expression_if into.new r ≡ value_of (env_of into.old) (expression_at into.old n)) }
    ensures kept { OnOk result (Kept into.old into.new) }
{
    if is_lvalue(into, n) {
        let r = read(into, n)?;
        Ok(r)
    } else {
        Ok(Some(n))
    }
}

/// A value converted to a type without qualifiers (C17 6.3); it stays as it is where it has the type.
pub(crate) fn converted(into: &mut TypedUnit, t: TypeId, n: NodeId) -> Result<NodeId, NoMemory>
    requires known { AreKnown into.old }
    requires node { IsExpression into.old n }
    requires target { t.0 < length into.old.known.terms }
    ensures node { IfOk result (λ r. IsExpression into.new r) }
    ensures value { IfOk result (λ r. expression_at into.new r ≡ conversion_to (tree into.old.known t.0) (expression_at into.old n)) }
    ensures kept { OnOk result (Kept into.old into.new) }
{
    let from = into.type_of(n);
    if same(into.types(), from, t) {
        return Ok(n);
    }
    let line = into.line_of(n);
    let r = add(into, Typed::Convert(n), t, line, false)?;
    Ok(r)
}

/// Whether it is this integer type.
pub(crate) fn has_kind(types: &Types, t: TypeId, kind: IntKind) -> bool
    requires { t.0 < length types.now.terms }
    ensures { result ≡ same_type (tree types.now t.0) (IntTy kind) }
{
    match types.view(t) {
        Term::Int(k) => k == kind,
        Term::Void
        | Term::Pointer(_)
        | Term::Array(_, _)
        | Term::Struct(_)
        | Term::Union(_)
        | Term::Function { .. }
        | Term::Const(_) => false,
    }
}

/// A value converted to an integer type. The type is looked up only where the value has another one.
pub(crate) fn to_kind(into: &mut TypedUnit, kind: IntKind, n: NodeId) -> Result<NodeId, NoMemory>
    requires known { AreKnown into.old }
    requires node { IsExpression into.old n }
    ensures node { IfOk result (λ r. IsExpression into.new r) }
    ensures value { IfOk result (λ r. expression_at into.new r ≡ conversion_to (IntTy kind) (expression_at into.old n)) }
    ensures kept { OnOk result (Kept into.old into.new) }
{
    if has_kind(into.types(), into.type_of(n), kind) {
        return Ok(n);
    }
    let Ok(t) = intern(into, Term::Int(kind)) else {
        return Err(NoMemory);
    };
    let Ok(r) = converted(into, t, n) else {
        return Err(NoMemory);
    };
    Ok(r)
}

/// A value of an integer type promoted, another as it is (C17 6.3.1.1p2).
pub fn promoted_value(into: &mut TypedUnit, n: NodeId) -> Result<NodeId, NoMemory>
    requires known { AreKnown into.old }
    requires node { IsExpression into.old n }
    ensures node { IfOk result (λ r. IsExpression into.new r) }
    ensures value { IfOk result (λ r. expression_at into.new r ≡ promoted_value (expression_at into.old n)) }
    ensures kept { OnOk result (Kept into.old into.new) }
{
    let t = into.type_of(n);
    match into.types().view(t) {
        Term::Int(kind) => {
            let r = to_kind(into, promoted(kind), n)?;
            Ok(r)
        }
        _ => Ok(n),
    }
}
