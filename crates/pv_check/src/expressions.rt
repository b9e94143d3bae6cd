//! Expressions (C17 6.5): their parts from left to right, and what is made of them. They call type names, and those
//! call them for the sizes of arrays: one cycle, through three modules.
ghost use Rattle.std.specs.Prelude.{◌≡◌, ◌<◌, false, IfOk, OnOk, Some, length};
ghost use Rattle.pv_tree.specs.Tables.{Is, is_expression, is_declaration, expression_at as expression_of_node, arguments_at, IsListOf};
ghost use Rattle.pv_typed.specs.Known.{Each};
ghost use Rattle.pv_check.specs.Passing.{after_nodes};
ghost use Rattle.pv_typed.specs.NodeTrees.{expression_at, IsExpression};
ghost use Rattle.pv_types.specs.Known.{tree};
ghost use Rattle.pv_check.specs.State.{give};
ghost use Rattle.pv_typed.specs.Constants.{and_then};
ghost use Rattle.pv_check.specs.Unary.{sizeof_type, cast_of};
ghost use Rattle.pv_check.specs.Open.{state_of, IsOpen, Goes, Texts, state_in, IfAnswered};
ghost use Rattle.pv_check.specs.Arms.{after_node, OpenIf, row_of_one, first_operand};
ghost use Rattle.pv_check.specs.Kept.{Kept, env_of};
ghost use Rattle.pv_check.specs.Rows.{operand};
ghost use Rattle.pv_check.specs.RowParts.{sizeof_named, cast, call};
ghost use Rattle.pv_check.specs.Typing.{types, type_named, arguments};
ghost use Rattle.pv_check.specs.Operands.{of_two_operands, of_three_operands, size_of_operand, size_of_named_type, cast_to_type, callee_of, call_with_list};
ghost use Rattle.pv_check.specs.Callees.{CalledIf, after_callee};

use crate::arms::{One, Two};
use crate::calls::{Target, call, used_callee};
use crate::constants::{letter, number};
use crate::names::name;
use crate::rows::{one, three, two};
use crate::scopes::Scopes;
use crate::texts::text;
use crate::type_names::type_named;
use crate::unary::{cast, size_of};
use crate::values::value;
use pv_token::Tokens;
use pv_tree::{Expr, ListId, NodeId, Unit};
use pv_typed::{IncrementOperator, TypedUnit};
use pv_types::{NoMemory, TypeId};
use std::alloc::Global;

/// The value of an operand that is typed.
fn value_of(
    s: &Scopes,
    hidden: bool,
    into: &mut TypedUnit,
    a: NodeId,
) -> Result<Option<NodeId>, NoMemory>
    requires open { IsOpen into.old s.now }
    requires node { IsExpression into.old a }
    ensures open { IfOk result (λ r. OpenIf into.new s.now r) }
    ensures typed { (texts : Texts) → IfOk result (λ r. after_node texts hidden s.now into.new r ≡ operand (after_node texts hidden s.now into.old (Some a))) }
    ensures kept { OnOk result (Kept into.old into.new) }
{
    let r = value(into, a)?;
    Ok(r)
}

/// The size of a type, in the state that the operand of `sizeof` leaves.
fn size_of_type(
    s: &Scopes,
    hidden: bool,
    line: u32,
    x: TypeId,
    into: &mut TypedUnit,
) -> Result<Option<NodeId>, NoMemory>
    requires open { IsOpen into.old s.now }
    requires target { x.0 < length into.old.known.terms }
    ensures open { IfOk result (λ r. OpenIf into.new s.now r) }
    ensures typed { (texts : Texts) → IfOk result (λ r. after_node texts hidden s.now into.new r ≡ give (sizeof_type (env_of into.old) line (tree into.old.known x.0)) (state_of texts hidden s.now into.old)) }
    ensures kept { OnOk result (Kept into.old into.new) }
{
    let r = size_of(into, line, x)?;
    Ok(r)
}

/// A value cast to a type.
fn cast_value(
    s: &Scopes,
    hidden: bool,
    line: u32,
    x: TypeId,
    a: NodeId,
    into: &mut TypedUnit,
) -> Result<Option<NodeId>, NoMemory>
    requires open { IsOpen into.old s.now }
    requires target { x.0 < length into.old.known.terms }
    requires node { IsExpression into.old a }
    ensures open { IfOk result (λ r. OpenIf into.new s.now r) }
    ensures typed { (texts : Texts) → IfOk result (λ r. after_node texts hidden s.now into.new r ≡ give (cast_of line (tree into.old.known x.0) (expression_at into.old a)) (state_of texts hidden s.now into.old)) }
    ensures kept { OnOk result (Kept into.old into.new) }
{
    let r = cast(into, line, x, a)?;
    Ok(r)
}

/// The typed tree of an expression; `None` exactly where it has none (C17 6.5).
pub fn expression(
    s: &mut Scopes,
    u: &Unit,
    t: &Tokens,
    e: NodeId,
    into: &mut TypedUnit,
) -> Result<Option<NodeId>, NoMemory>
    requires node { Is u.now is_expression e }
    requires open { IsOpen into.old s.old }
    ensures open { IfOk result (λ r. OpenIf into.new s.new r) }
    ensures typed { IfOk result (λ r. after_node t.now.texts false s.new into.new r ≡ types (expression_of_node u.now.forest e) (state_in t.now.texts s.old into.old)) }
{
    typed(s, u, t, e, false, into)
}

/// The typed tree of an expression, `None` exactly where it has none (C17 6.5).
#[cycle(typed)]
fn typed(
    s: &mut Scopes,
    u: &Unit,
    t: &Tokens,
    e: NodeId,
    hidden: bool,
    into: &mut TypedUnit,
) -> Result<Option<NodeId>, NoMemory>
    requires node { Is u.now is_expression e }
    requires open { IsOpen into.old s.old }
    ensures open { IfOk result (λ r. OpenIf into.new s.new r) }
    ensures typed { IfOk result (λ r. after_node t.now.texts hidden s.new into.new r ≡ types (expression_of_node u.now.forest e) (state_of t.now.texts hidden s.old into.old)) }
    ensures goes { IfAnswered result (λ v. Goes into.old into.new) }
{
    let line = u.line(e);
    match u.expr(e) {
        Expr::Paren(a) => typed(s, u, t, a, hidden, into),
        Expr::Member(a, n) => of_one(s, u, t, One::Member(n), line, a, hidden, into),
        Expr::Arrow(a, n) => of_one(s, u, t, One::Arrow(n), line, a, hidden, into),
        Expr::PostIncrement(a) => {
            let what = One::Increment(IncrementOperator::PostIncrement);
            of_one(s, u, t, what, line, a, hidden, into)
        }
        Expr::PostDecrement(a) => {
            let what = One::Increment(IncrementOperator::PostDecrement);
            of_one(s, u, t, what, line, a, hidden, into)
        }
        Expr::PreIncrement(a) => {
            let what = One::Increment(IncrementOperator::PreIncrement);
            of_one(s, u, t, what, line, a, hidden, into)
        }
        Expr::PreDecrement(a) => {
            let what = One::Increment(IncrementOperator::PreDecrement);
            of_one(s, u, t, what, line, a, hidden, into)
        }
        Expr::Unary(op, a) => of_one(s, u, t, One::Unary(op), line, a, hidden, into),
        Expr::Index(a, b) => of_two(s, u, t, Two::Index, line, a, b, hidden, into),
        Expr::Binary(op, a, b) => of_two(s, u, t, Two::Binary(op), line, a, b, hidden, into),
        Expr::Assign(op, a, b) => of_two(s, u, t, Two::Assign(op), line, a, b, hidden, into),
        Expr::Comma(a, b) => of_two(s, u, t, Two::Comma, line, a, b, hidden, into),
        Expr::Conditional(a, b, c) => of_three(s, u, t, line, a, b, c, hidden, into),
        Expr::SizeofExpr(a) => measured(s, u, t, line, a, hidden, into),
        Expr::SizeofType(n) => sizeof_named(s, u, t, line, n, hidden, into),
        Expr::Cast(n, a) => cast_to(s, u, t, line, n, a, hidden, into),
        Expr::Name(n) => name(s, hidden, line, n, into),
        Expr::Number {
            value,
            decimal,
            unsigned,
            longs,
        } => number(s, hidden, line, value, decimal, unsigned, longs, into),
        Expr::Character(value) => letter(s, hidden, line, value, into),
        Expr::Text { first, more } => text(s, hidden, t, line, first, more, into),
        Expr::Call(f, args) => {
            let r = call_to(s, u, t, line, f, args, hidden, into)?;
            Ok(r)
        }
    }
}

/// The value of an operand (C17 6.3.2.1).
#[cycle(typed)]
pub fn operand(
    s: &mut Scopes,
    u: &Unit,
    t: &Tokens,
    a: NodeId,
    hidden: bool,
    into: &mut TypedUnit,
) -> Result<Option<NodeId>, NoMemory>
    requires node { Is u.now is_expression a }
    requires open { IsOpen into.old s.old }
    ensures open { IfOk result (λ r. OpenIf into.new s.new r) }
    ensures typed { IfOk result (λ r. after_node t.now.texts hidden s.new into.new r ≡ operand (types (expression_of_node u.now.forest a) (state_of t.now.texts hidden s.old into.old))) }
    ensures goes { IfAnswered result (λ v. Goes into.old into.new) }
{
    let Some(x) = typed(s, u, t, a, hidden, into)? else {
        return Ok(None);
    };
    let r = value_of(s, hidden, into, x)?;
    Ok(r)
}

/// What is made of one operand.
#[cycle(typed)]
fn of_one(
    s: &mut Scopes,
    u: &Unit,
    t: &Tokens,
    what: One,
    line: u32,
    a: NodeId,
    hidden: bool,
    into: &mut TypedUnit,
) -> Result<Option<NodeId>, NoMemory>
    requires node { Is u.now is_expression a }
    requires open { IsOpen into.old s.old }
    ensures open { IfOk result (λ r. OpenIf into.new s.new r) }
    ensures typed { IfOk result (λ r. after_node t.now.texts hidden s.new into.new r ≡ and_then (types (expression_of_node u.now.forest a) (state_of t.now.texts hidden s.old into.old)) (row_of_one what line)) }
    ensures goes { IfAnswered result (λ v. Goes into.old into.new) }
{
    let Some(x) = typed(s, u, t, a, hidden, into)? else {
        return Ok(None);
    };
    let r = one(s, what, line, x, into)?;
    Ok(r)
}

/// The first of two operands.
#[cycle(typed)]
fn first_of(
    s: &mut Scopes,
    u: &Unit,
    t: &Tokens,
    what: Two,
    a: NodeId,
    hidden: bool,
    into: &mut TypedUnit,
) -> Result<Option<NodeId>, NoMemory>
    requires node { Is u.now is_expression a }
    requires open { IsOpen into.old s.old }
    ensures open { IfOk result (λ r. OpenIf into.new s.new r) }
    ensures typed { IfOk result (λ r. after_node t.now.texts hidden s.new into.new r ≡ first_operand what (types (expression_of_node u.now.forest a) (state_of t.now.texts hidden s.old into.old))) }
    ensures goes { IfAnswered result (λ v. Goes into.old into.new) }
{
    match what {
        Two::Assign(_) => typed(s, u, t, a, hidden, into),
        _ => operand(s, u, t, a, hidden, into),
    }
}

/// What is made of two operands.
#[cycle(typed)]
fn of_two(
    s: &mut Scopes,
    u: &Unit,
    t: &Tokens,
    what: Two,
    line: u32,
    a: NodeId,
    b: NodeId,
    hidden: bool,
    into: &mut TypedUnit,
) -> Result<Option<NodeId>, NoMemory>
    requires node { Is u.now is_expression a }
    requires node_b { Is u.now is_expression b }
    requires open { IsOpen into.old s.old }
    ensures open { IfOk result (λ r. OpenIf into.new s.new r) }
    ensures typed { IfOk result (λ r. after_node t.now.texts hidden s.new into.new r ≡ of_two_operands u.now.forest what line a b (state_of t.now.texts hidden s.old into.old)) }
    ensures goes { IfAnswered result (λ v. Goes into.old into.new) }
{
    let Some(x) = first_of(s, u, t, what, a, hidden, into)? else {
        return Ok(None);
    };
    let Some(y) = operand(s, u, t, b, hidden, into)? else {
        return Ok(None);
    };
    let r = two(s, what, line, x, y, into)?;
    Ok(r)
}

/// What is made of three operands.
#[cycle(typed)]
fn of_three(
    s: &mut Scopes,
    u: &Unit,
    t: &Tokens,
    line: u32,
    a: NodeId,
    b: NodeId,
    c: NodeId,
    hidden: bool,
    into: &mut TypedUnit,
) -> Result<Option<NodeId>, NoMemory>
    requires node { Is u.now is_expression a }
    requires node_b { Is u.now is_expression b }
    requires node_c { Is u.now is_expression c }
    requires open { IsOpen into.old s.old }
    ensures open { IfOk result (λ r. OpenIf into.new s.new r) }
    ensures typed { IfOk result (λ r. after_node t.now.texts hidden s.new into.new r ≡ of_three_operands u.now.forest line a b c (state_of t.now.texts hidden s.old into.old)) }
    ensures goes { IfAnswered result (λ v. Goes into.old into.new) }
{
    let Some(x) = operand(s, u, t, a, hidden, into)? else {
        return Ok(None);
    };
    let Some(y) = operand(s, u, t, b, hidden, into)? else {
        return Ok(None);
    };
    let Some(z) = operand(s, u, t, c, hidden, into)? else {
        return Ok(None);
    };
    let r = three(s, line, x, y, z, into)?;
    Ok(r)
}

/// `sizeof a` (C17 6.5.3.4).
#[cycle(typed)]
fn measured(
    s: &mut Scopes,
    u: &Unit,
    t: &Tokens,
    line: u32,
    a: NodeId,
    hidden: bool,
    into: &mut TypedUnit,
) -> Result<Option<NodeId>, NoMemory>
    requires node { Is u.now is_expression a }
    requires open { IsOpen into.old s.old }
    ensures open { IfOk result (λ r. OpenIf into.new s.new r) }
    ensures typed { IfOk result (λ r. after_node t.now.texts hidden s.new into.new r ≡ size_of_operand u.now.forest line a (state_of t.now.texts hidden s.old into.old)) }
    ensures goes { IfAnswered result (λ v. Goes into.old into.new) }
{
    let Some(x) = typed(s, u, t, a, true, into)? else {
        return Ok(None);
    };
    let r = size_of_type(s, hidden, line, into.type_of(x), into)?;
    Ok(r)
}

/// `sizeof ( type )` (C17 6.5.3.4).
#[cycle(typed)]
fn sizeof_named(
    s: &mut Scopes,
    u: &Unit,
    t: &Tokens,
    line: u32,
    n: NodeId,
    hidden: bool,
    into: &mut TypedUnit,
) -> Result<Option<NodeId>, NoMemory>
    requires node { Is u.now is_declaration n }
    requires open { IsOpen into.old s.old }
    ensures open { IfOk result (λ r. OpenIf into.new s.new r) }
    ensures typed { IfOk result (λ r. after_node t.now.texts hidden s.new into.new r ≡ size_of_named_type u.now.forest line n (state_of t.now.texts hidden s.old into.old)) }
    ensures goes { IfAnswered result (λ v. Goes into.old into.new) }
{
    let Some(x) = type_named(s, u, t, n, true, into)? else {
        return Ok(None);
    };
    let r = size_of_type(s, hidden, line, x, into)?;
    Ok(r)
}

/// `( type ) a` (C17 6.5.4).
#[cycle(typed)]
fn cast_to(
    s: &mut Scopes,
    u: &Unit,
    t: &Tokens,
    line: u32,
    n: NodeId,
    a: NodeId,
    hidden: bool,
    into: &mut TypedUnit,
) -> Result<Option<NodeId>, NoMemory>
    requires named { Is u.now is_declaration n }
    requires node { Is u.now is_expression a }
    requires open { IsOpen into.old s.old }
    ensures open { IfOk result (λ r. OpenIf into.new s.new r) }
    ensures typed { IfOk result (λ r. after_node t.now.texts hidden s.new into.new r ≡ cast_to_type u.now.forest line n a (state_of t.now.texts hidden s.old into.old)) }
    ensures goes { IfAnswered result (λ v. Goes into.old into.new) }
{
    let Some(x) = type_named(s, u, t, n, hidden, into)? else {
        return Ok(None);
    };
    let Some(y) = operand(s, u, t, a, hidden, into)? else {
        return Ok(None);
    };
    let r = cast_value(s, hidden, line, x, y, into)?;
    Ok(r)
}

/// What a call calls: a function by its name, or the value of the callee (C17 6.5.2.2p1).
#[cycle(typed)]
fn callee_of(
    s: &mut Scopes,
    u: &Unit,
    t: &Tokens,
    f: NodeId,
    hidden: bool,
    into: &mut TypedUnit,
) -> Result<Option<Target>, NoMemory>
    requires node { Is u.now is_expression f }
    requires open { IsOpen into.old s.old }
    ensures open { IfOk result (λ r. CalledIf into.new s.new r) }
    ensures typed { IfOk result (λ r. after_callee t.now.texts hidden s.new into.new r ≡ callee_of (expression_of_node u.now.forest f) (state_of t.now.texts hidden s.old into.old)) }
    ensures goes { IfAnswered result (λ v. Goes into.old into.new) }
{
    if let Some(c) = used_callee(s, u, into, f)? {
        return Ok(Some(Target::Named(c)));
    }
    let Some(a) = operand(s, u, t, f, hidden, into)? else {
        return Ok(None);
    };
    Ok(Some(Target::Pointed(a)))
}

/// `f ( arguments )` (C17 6.5.2.2).
#[cycle(typed)]
fn call_to(
    s: &mut Scopes,
    u: &Unit,
    t: &Tokens,
    line: u32,
    f: NodeId,
    args: ListId,
    hidden: bool,
    into: &mut TypedUnit,
) -> Result<Option<NodeId>, NoMemory>
    requires node { Is u.now is_expression f }
    requires list { IsListOf u.now is_expression args }
    requires open { IsOpen into.old s.old }
    ensures open { IfOk result (λ r. OpenIf into.new s.new r) }
    ensures typed { IfOk result (λ r. after_node t.now.texts hidden s.new into.new r ≡ call_with_list u.now.forest line f args (state_of t.now.texts hidden s.old into.old)) }
    ensures goes { IfAnswered result (λ v. Goes into.old into.new) }
{
    let Some(c) = callee_of(s, u, t, f, hidden, into)? else {
        return Ok(None);
    };
    let Some(list) = arguments(s, u, t, args, hidden, into)? else {
        return Ok(None);
    };
    let r = call(s, hidden, line, c, &list, into)?;
    Ok(r)
}

/// The values of arguments, from left to right (C17 6.5.2.2p4).
#[cycle(typed)]
fn arguments(
    s: &mut Scopes,
    u: &Unit,
    t: &Tokens,
    args: ListId,
    hidden: bool,
    into: &mut TypedUnit,
) -> Result<Option<Vec<NodeId>>, NoMemory>
    requires list { IsListOf u.now is_expression args }
    requires open { IsOpen into.old s.old }
    ensures open { IfAnswered result (λ v. IsOpen into.new s.new) }
    ensures nodes { IfAnswered result (λ v. Each (IsExpression into.new) v.items) }
    ensures typed { IfOk result (λ r. after_nodes t.now.texts hidden s.new into.new r ≡ arguments (arguments_at u.now.forest args) (state_of t.now.texts hidden s.old into.old)) }
    ensures goes { IfAnswered result (λ v. Goes into.old into.new) }
{
    let nodes = u.list(args);
    let mut list = Vec::new(s.allocator());
    let mut i = 0;
    while i < nodes.len() {
        let Some(x) = operand(s, u, t, nodes[i], hidden, into)? else {
            return Ok(None);
        };
        list.push(x)?;
        i += 1;
    }
    Ok(Some(list))
}
