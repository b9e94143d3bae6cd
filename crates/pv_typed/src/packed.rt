// Rows as the table of nodes keeps them: packed in 32 bytes, and the few that need more by the number of a whole row.
ghost use Rattle.std.specs.Prelude.{◌≡◌, ℕ, List, IfSome};
ghost use Rattle.pv_typed.specs.declared.rows.Row.{Row};
ghost use Rattle.pv_typed.specs.Packed.{statement_of, row_of, IsThere};

use crate::nodes::{Typed, TypedStmt};
use crate::rows::{Row, What};
use pv_tree::{ListId, NodeId};
use pv_types::TypeId;

/// A statement's node (C17 6.8) in 16 bytes: as `TypedStmt`, but the value of a `case` (6.8.1) has 64 bits and stands
/// behind its body, so that no gap is left between them, and there is no `for` (6.8.5.3).
#[derive(Clone, Copy)]
pub enum ShortStatement {
    Block(ListId),
    Declare(u32),
    Expression(NodeId),
    Empty,
    If(NodeId, NodeId),
    IfElse(NodeId, NodeId, NodeId),
    Switch(NodeId, NodeId),
    Case(NodeId, i64),
    Default(NodeId),
    While(NodeId, NodeId),
    DoWhile(NodeId, NodeId),
    Continue,
    Break,
    Return(Option<NodeId>),
}

/// A row of the table in 32 bytes. Its fields stand in an order that leaves no gap before the node.
#[derive(Clone, Copy)]
pub enum Packed {
    /// An expression's row.
    Expression {
        counts: bool,
        plain: Option<u16>,
        t: TypeId,
        line: u32,
        x: Typed,
    },
    /// A statement's row.
    Statement {
        declared: u32,
        line: u32,
        x: ShortStatement,
    },
    /// The number of a row in the table of whole rows, from 0.
    Whole(u32),
}

const _: () = prove!(size_of::<Packed>() == 32);

/// The number, where it has 64 bits with a sign.
fn small(k: i128) -> Option<i64>
    ensures { IfSome result (λ x. x ≡ k) }
{
    if -0x8000_0000_0000_0000 <= k && k <= 0x7fff_ffff_ffff_ffff {
        Some(k as i64)
    } else {
        None
    }
}

/// The short form of a statement's node, where it has one.
pub(crate) fn short_statement(x: TypedStmt) -> Option<ShortStatement>
    ensures { IfSome result (λ s. statement_of s ≡ x) }
{
    match x {
        TypedStmt::Block(items) => Some(ShortStatement::Block(items)),
        TypedStmt::Declare(o) => Some(ShortStatement::Declare(o)),
        TypedStmt::Expression(a) => Some(ShortStatement::Expression(a)),
        TypedStmt::Empty => Some(ShortStatement::Empty),
        TypedStmt::If(condition, body) => Some(ShortStatement::If(condition, body)),
        TypedStmt::IfElse(condition, body, other) => {
            Some(ShortStatement::IfElse(condition, body, other))
        }
        TypedStmt::Switch(a, body) => Some(ShortStatement::Switch(a, body)),
        TypedStmt::Case(value, body) => Some(ShortStatement::Case(body, small(value)?)),
        TypedStmt::Default(body) => Some(ShortStatement::Default(body)),
        TypedStmt::While(condition, body) => Some(ShortStatement::While(condition, body)),
        TypedStmt::DoWhile(body, condition) => Some(ShortStatement::DoWhile(body, condition)),
        TypedStmt::For { .. } => None,
        TypedStmt::ForDeclaration { .. } => None,
        TypedStmt::Continue => Some(ShortStatement::Continue),
        TypedStmt::Break => Some(ShortStatement::Break),
        TypedStmt::Return(value) => Some(ShortStatement::Return(value)),
    }
}

/// The node by its short form.
#[inline(always)]
pub(crate) fn statement_of(s: ShortStatement) -> TypedStmt
    ensures { result ≡ statement_of s }
{
    match s {
        ShortStatement::Block(items) => TypedStmt::Block(items),
        ShortStatement::Declare(o) => TypedStmt::Declare(o),
        ShortStatement::Expression(a) => TypedStmt::Expression(a),
        ShortStatement::Empty => TypedStmt::Empty,
        ShortStatement::If(condition, body) => TypedStmt::If(condition, body),
        ShortStatement::IfElse(condition, body, other) => TypedStmt::IfElse(condition, body, other),
        ShortStatement::Switch(a, body) => TypedStmt::Switch(a, body),
        ShortStatement::Case(body, value) => TypedStmt::Case(i128::from(value), body),
        ShortStatement::Default(body) => TypedStmt::Default(body),
        ShortStatement::While(condition, body) => TypedStmt::While(condition, body),
        ShortStatement::DoWhile(body, condition) => TypedStmt::DoWhile(body, condition),
        ShortStatement::Continue => TypedStmt::Continue,
        ShortStatement::Break => TypedStmt::Break,
        ShortStatement::Return(value) => TypedStmt::Return(value),
    }
}

/// The row in 32 bytes, where its node has a short form: then it refers to no whole row.
#[inline(always)]
pub(crate) fn short_row(row: Row) -> Option<Packed>
    ensures row { IfSome result (λ k. (whole : List Row) → row_of whole k ≡ row) }
    ensures there { IfSome result (λ k. (n : ℕ) → IsThere n k) }
{
    let line = row.line;
    match row.what {
        What::Expression {
            x,
            t,
            counts,
            plain,
        } => Some(Packed::Expression {
            counts,
            plain,
            t,
            line,
            x,
        }),
        What::Statement { x, declared } => {
            let x = short_statement(x)?;
            Some(Packed::Statement { declared, line, x })
        }
    }
}
