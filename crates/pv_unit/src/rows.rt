//! Parts of statements that hold no statements (C17 6.8).
ghost use Rattle.std.specs.Prelude.{false, ◌≡◌, ◌<◌, length, IfOk, OnOk, Some};
ghost use Rattle.pv_tree.specs.Tables.{expression_at as expression_of, optional_at, is_expression, is_statement, Is, IsOptionalOf};
ghost use Rattle.pv_types.specs.Known.{tree};
ghost use Rattle.pv_typed.specs.TypedTree.{type_of};
ghost use Rattle.pv_typed.specs.NodeTrees.{expression_at, IsExpression, IsStatement};
ghost use Rattle.pv_check.specs.Arms.{after_node};
ghost use Rattle.pv_check.specs.Kept.{expression_if};
ghost use Rattle.pv_check.specs.Open.{IsOpen, Texts, state_in, KeepsState, IfAnswered};
ghost use Rattle.pv_types.specs.Sorts.{kind_of, is_scalar};
ghost use Rattle.pv_typed.specs.Constants.{and_then};
ghost use Rattle.pv_check.specs.Values.{as_if_assigned, promoted_value};
ghost use Rattle.pv_unit.specs.Stated.{stated_if, optional_if, IsOptional, Moves, value_in};
ghost use Rattle.pv_unit.specs.Statements.{taken_value, condition, expression_if_any, switch_value};
ghost use Rattle.pv_unit.specs.StatementParts.{nothing_returned, value_returned, switched_by};
ghost use Rattle.pv_unit.specs.Switching.{switched_if, IsLabelledIf, IsBlockIf};

use crate::adding::add;
use pv_check::{Scopes, assigned_as, is_scalar, is_void, kind_of, operand, promoted_value};
use pv_num::IntKind;
use pv_token::Tokens;
use pv_tree::{ListId, NodeId, Stmt, Unit};
use pv_typed::{TypedStmt, TypedUnit, is_null_constant};
use pv_types::{NoMemory, TypeId};

/// An expression, and its value taken (C17 6.3.2.1).
pub(crate) fn value_of(
    u: &Unit,
    t: &Tokens,
    s: &mut Scopes,
    into: &mut TypedUnit,
    a: NodeId,
) -> Result<Option<NodeId>, NoMemory>
    requires node { Is u.now is_expression a }
    requires opened { IsOpen into.old s.old }
    ensures there { IfAnswered result (IsExpression into.new) }
    ensures moves { IfAnswered result (λ n. Moves into.old s.old into.new s.new) }
    ensures typed { IfOk result (λ r. after_node t.now.texts false s.new into.new r ≡ taken_value (expression_of u.now.forest a) (state_in t.now.texts s.old into.old)) }
{
    let r = operand(s, u, t, a, false, into)?;
    Ok(r)
}

/// Whether the expression is a scalar.
fn has_scalar(into: &TypedUnit, s: &Scopes, a: NodeId) -> bool
    requires opened { IsOpen into.now s.now }
    requires node { IsExpression into.now a }
    ensures { result ≡ is_scalar (type_of (expression_at into.now a)) }
{
    is_scalar(into.types(), into.type_of(a))
}

/// A condition, which is a scalar (C17 6.8.4.1p1, 6.8.5p2).
pub(crate) fn condition(
    u: &Unit,
    t: &Tokens,
    s: &mut Scopes,
    into: &mut TypedUnit,
    a: NodeId,
) -> Result<Option<NodeId>, NoMemory>
    requires node { Is u.now is_expression a }
    requires opened { IsOpen into.old s.old }
    ensures there { IfAnswered result (IsExpression into.new) }
    ensures moves { IfAnswered result (λ n. Moves into.old s.old into.new s.new) }
    ensures typed { IfOk result (λ r. after_node t.now.texts false s.new into.new r ≡ condition (expression_of u.now.forest a) (state_in t.now.texts s.old into.old)) }
{
    let Some(value) = value_of(u, t, s, into, a)? else {
        return Ok(None);
    };
    if has_scalar(into, s, value) {
        Ok(Some(value))
    } else {
        Ok(None)
    }
}

/// An expression that may be left out.
pub(crate) fn optional_value(
    u: &Unit,
    t: &Tokens,
    s: &mut Scopes,
    into: &mut TypedUnit,
    a: Option<NodeId>,
) -> Result<Option<Option<NodeId>>, NoMemory>
    requires node { IsOptionalOf u.now is_expression a }
    requires opened { IsOpen into.old s.old }
    ensures there { IfAnswered result (IsOptional into.new) }
    ensures moves { IfAnswered result (λ n. Moves into.old s.old into.new s.new) }
    ensures typed { IfOk result (λ r. optional_if t.now.texts s.new into.new r ≡ expression_if_any taken_value (optional_at u.now.forest a) (state_in t.now.texts s.old into.old)) }
{
    let Some(node) = a else {
        return Ok(Some(None));
    };
    let Some(value) = value_of(u, t, s, into, node)? else {
        return Ok(None);
    };
    Ok(Some(Some(value)))
}

/// A condition that may be left out.
pub(crate) fn optional_condition(
    u: &Unit,
    t: &Tokens,
    s: &mut Scopes,
    into: &mut TypedUnit,
    a: Option<NodeId>,
) -> Result<Option<Option<NodeId>>, NoMemory>
    requires node { IsOptionalOf u.now is_expression a }
    requires opened { IsOpen into.old s.old }
    ensures there { IfAnswered result (IsOptional into.new) }
    ensures moves { IfAnswered result (λ n. Moves into.old s.old into.new s.new) }
    ensures typed { IfOk result (λ r. optional_if t.now.texts s.new into.new r ≡ expression_if_any condition (optional_at u.now.forest a) (state_in t.now.texts s.old into.old)) }
{
    let Some(node) = a else {
        return Ok(Some(None));
    };
    let Some(value) = condition(u, t, s, into, node)? else {
        return Ok(None);
    };
    Ok(Some(Some(value)))
}

/// The value as one of the type, converted as if by assignment (C17 6.5.16.1p1).
fn assigned(
    s: &Scopes,
    into: &mut TypedUnit,
    wanted: TypeId,
    a: NodeId,
) -> Result<Option<NodeId>, NoMemory>
    requires opened { IsOpen into.old s.now }
    requires known { wanted.0 < length into.old.known.terms }
    requires node { IsExpression into.old a }
    ensures there { IfAnswered result (IsExpression into.new) }
    ensures moves { OnOk result (Moves into.old s.now into.new s.now) }
    ensures state { OnOk result (KeepsState s.now into.old into.new) }
    ensures typed { IfOk result (λ r. expression_if into.new r ≡ as_if_assigned (tree into.old.known wanted.0) (expression_at into.old a)) }
{
    let null = is_null_constant(into, a);
    let r = assigned_as(into, wanted, a, null)?;
    Ok(r)
}

/// `return` without a value (C17 6.8.6.4p1).
pub(crate) fn nothing_returned(
    s: &Scopes,
    into: &mut TypedUnit,
    returned: TypeId,
    line: u32,
) -> Result<Option<NodeId>, NoMemory>
    requires opened { IsOpen into.old s.now }
    requires known { returned.0 < length into.old.known.terms }
    ensures there { IfAnswered result (IsStatement into.new) }
    ensures moves { IfAnswered result (λ n. Moves into.old s.now into.new s.now) }
    ensures typed { IfOk result (λ r. (texts : Texts) → stated_if texts s.now into.new r ≡ nothing_returned (tree into.old.known returned.0) line (state_in texts s.now into.old)) }
{
    if is_void(into.types(), returned) {
        let made = add(s, into, TypedStmt::Return(None), line, &[])?;
        Ok(Some(made))
    } else {
        Ok(None)
    }
}

/// `return` with a value that is typed.
fn converted_returned(
    s: &Scopes,
    into: &mut TypedUnit,
    returned: TypeId,
    line: u32,
    value: NodeId,
) -> Result<Option<NodeId>, NoMemory>
    requires opened { IsOpen into.old s.now }
    requires known { returned.0 < length into.old.known.terms }
    requires node { IsExpression into.old value }
    ensures there { IfAnswered result (IsStatement into.new) }
    ensures moves { IfAnswered result (λ n. Moves into.old s.now into.new s.now) }
    ensures typed { IfOk result (λ r. (texts : Texts) → stated_if texts s.now into.new r ≡ value_returned (tree into.old.known returned.0) line (value_in texts s.now into.old value)) }
{
    if is_void(into.types(), returned) {
        return Ok(None);
    }
    let Some(converted) = assigned(s, into, returned, value)? else {
        return Ok(None);
    };
    let made = add(s, into, TypedStmt::Return(Some(converted)), line, &[])?;
    Ok(Some(made))
}

/// `return` with a value (C17 6.8.6.4).
pub(crate) fn value_returned(
    u: &Unit,
    t: &Tokens,
    s: &mut Scopes,
    into: &mut TypedUnit,
    returned: TypeId,
    line: u32,
    a: NodeId,
) -> Result<Option<NodeId>, NoMemory>
    requires node { Is u.now is_expression a }
    requires opened { IsOpen into.old s.old }
    requires known { returned.0 < length into.old.known.terms }
    ensures there { IfAnswered result (IsStatement into.new) }
    ensures moves { IfAnswered result (λ n. Moves into.old s.old into.new s.new) }
    ensures typed { IfOk result (λ r. stated_if t.now.texts s.new into.new r ≡ and_then (taken_value (expression_of u.now.forest a) (state_in t.now.texts s.old into.old)) (value_returned (tree into.old.known returned.0) line)) }
{
    let Some(value) = value_of(u, t, s, into, a)? else {
        return Ok(None);
    };
    let r = converted_returned(s, into, returned, line, value)?;
    Ok(r)
}

/// The controlling expression of a switch, promoted.
#[derive(Clone, Copy)]
pub(crate) struct Controlling {
    pub(crate) value: NodeId,
    /// The kind of its type.
    pub(crate) kind: IntKind,
}

/// A value promoted, which is an integer (C17 6.8.4.2p1, p5).
fn promoted(
    s: &Scopes,
    into: &mut TypedUnit,
    found: NodeId,
) -> Result<Option<Controlling>, NoMemory>
    requires opened { IsOpen into.old s.now }
    requires node { IsExpression into.old found }
    ensures there { IfAnswered result (λ x. IsExpression into.new x.value) }
    ensures moves { OnOk result (Moves into.old s.now into.new s.now) }
    ensures typed { IfOk result (λ r. (texts : Texts) → switched_if texts s.now into.new r ≡ switched_by (record { value = expression_at into.old found; state = state_in texts s.now into.old })) }
{
    let value = promoted_value(into, found)?;
    let Some(kind) = kind_of(into.types(), into.type_of(value)) else {
        return Ok(None);
    };
    Ok(Some(Controlling { value, kind }))
}

/// The controlling expression of a switch (C17 6.8.4.2p1).
pub(crate) fn switched(
    u: &Unit,
    t: &Tokens,
    s: &mut Scopes,
    into: &mut TypedUnit,
    a: NodeId,
) -> Result<Option<Controlling>, NoMemory>
    requires node { Is u.now is_expression a }
    requires opened { IsOpen into.old s.old }
    ensures there { IfAnswered result (λ x. IsExpression into.new x.value) }
    ensures moves { IfAnswered result (λ x. Moves into.old s.old into.new s.new) }
    ensures typed { IfOk result (λ r. switched_if t.now.texts s.new into.new r ≡ switch_value (expression_of u.now.forest a) (state_in t.now.texts s.old into.old)) }
{
    let Some(found) = value_of(u, t, s, into, a)? else {
        return Ok(None);
    };
    let r = promoted(s, into, found)?;
    Ok(r)
}

/// The labels of a statement and what stands behind them, if it has labels (C17 6.8.1).
pub(crate) fn labelled_parts(u: &Unit, n: NodeId) -> Option<(ListId, NodeId)>
    requires { Is u.now is_statement n }
    ensures { IsLabelledIf u.now.forest n result }
{
    match u.stmt(n) {
        Stmt::Labelled {
            labels,
            statement: body,
        } => Some((labels, body)),
        Stmt::Block(_)
        | Stmt::Expr(_)
        | Stmt::If(_, _)
        | Stmt::IfElse(_, _, _)
        | Stmt::While(_, _)
        | Stmt::DoWhile(_, _)
        | Stmt::For { .. }
        | Stmt::ForDeclaration { .. }
        | Stmt::Switch(_, _)
        | Stmt::SwitchBlock(_)
        | Stmt::Case(_)
        | Stmt::Default
        | Stmt::Break
        | Stmt::Continue
        | Stmt::Return(_) => None,
    }
}

/// The items of a switch's block, if it is one.
pub(crate) fn block_items(u: &Unit, n: NodeId) -> Option<ListId>
    requires { Is u.now is_statement n }
    ensures { IsBlockIf u.now.forest n result }
{
    match u.stmt(n) {
        Stmt::SwitchBlock(items) => Some(items),
        Stmt::Block(_)
        | Stmt::Expr(_)
        | Stmt::If(_, _)
        | Stmt::IfElse(_, _, _)
        | Stmt::While(_, _)
        | Stmt::DoWhile(_, _)
        | Stmt::For { .. }
        | Stmt::ForDeclaration { .. }
        | Stmt::Switch(_, _)
        | Stmt::Labelled { .. }
        | Stmt::Case(_)
        | Stmt::Default
        | Stmt::Break
        | Stmt::Continue
        | Stmt::Return(_) => None,
    }
}
