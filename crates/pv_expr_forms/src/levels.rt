//! The levels of operators and of finished trees (C17 6.5.1 to 6.5.17).
ghost use Rattle.std.specs.Prelude.{◌≡◌, ℕ};
ghost use Rattle.pv_tree.specs.Levels.{binary_rank, rank};
ghost use Rattle.pv_tree.specs.Nodes.{expression_of};
ghost use Rattle.pv_tree.specs.Tables.{Forest};
ghost use Rattle.pv_expr_forms.specs.Follows.{join_rank, join_left, join_right, follow_rank, follow_left};
ghost use Rattle.pv_expr_forms.specs.Numbers.{level_number};

use crate::follows::{Follow, Join};
use pv_tree::{BinaryOperator, Expr};

/// The levels of expressions that other parts of the grammar have.
#[derive(Clone, Copy)]
pub enum Level {
    /// An expression (C17 6.5.17p1).
    Comma,
    /// An assignment expression (C17 6.5.16p1).
    Assignment,
    /// A conditional expression (C17 6.5.15p1), as which constant expressions are written
    /// (C17 6.6p1).
    Conditional,
}

impl Level {
    /// Its number, as the levels of trees are counted.
    pub fn number(self) -> u8
        ensures { result ≡ level_number self }
    {
        match self {
            Level::Comma => 1,
            Level::Assignment => 2,
            Level::Conditional => 3,
        }
    }
}

/// The level of an operator that groups to the left.
fn binary_rank(op: BinaryOperator) -> u8
    ensures { result ≡ binary_rank op }
{
    match op {
        BinaryOperator::Multiply | BinaryOperator::Divide | BinaryOperator::Remainder => 13,
        BinaryOperator::Add | BinaryOperator::Subtract => 12,
        BinaryOperator::ShiftLeft | BinaryOperator::ShiftRight => 11,
        BinaryOperator::Less
        | BinaryOperator::Greater
        | BinaryOperator::LessEqual
        | BinaryOperator::GreaterEqual => 10,
        BinaryOperator::Equal | BinaryOperator::NotEqual => 9,
        BinaryOperator::And => 8,
        BinaryOperator::ExclusiveOr => 7,
        BinaryOperator::Or => 6,
        BinaryOperator::LogicalAnd => 5,
        BinaryOperator::LogicalOr => 4,
    }
}

impl Join {
    /// The level of the whole.
    fn rank(self) -> u8
        ensures { result ≡ join_rank self }
    {
        match self {
            Join::Binary(op) => binary_rank(op),
            Join::Assign(_) => 2,
            Join::Comma => 1,
        }
    }

    /// The loosest level of the left operand.
    fn left(self) -> u8
        ensures { result ≡ join_left self }
    {
        match self {
            Join::Binary(op) => binary_rank(op),
            Join::Assign(_) => 15,
            Join::Comma => 1,
        }
    }

    /// The loosest level of the right operand.
    pub fn right(self) -> u8
        ensures { result ≡ join_right self }
    {
        match self {
            Join::Binary(op) => binary_rank(op) + 1,
            Join::Assign(_) | Join::Comma => 2,
        }
    }
}

impl Follow {
    /// The level of the whole.
    pub fn rank(self) -> u8
        ensures { result ≡ follow_rank self }
    {
        match self {
            Follow::Join(op) => op.rank(),
            Follow::Ask => 3,
            _ => 16,
        }
    }

    /// The loosest level of what it goes on from.
    pub fn left(self) -> u8
        ensures { result ≡ follow_left self }
    {
        match self {
            Follow::Join(op) => op.left(),
            Follow::Ask => 4,
            _ => 16,
        }
    }
}

/// The tightest level that a finished expression belongs to.
#[inline(always)]
pub fn rank(e: Expr) -> u8
    ensures { (f : Forest) (line : ℕ) → result ≡ rank (expression_of f line e) }
{
    match e {
        Expr::Comma(_, _) => 1,
        Expr::Assign(_, _, _) => 2,
        Expr::Conditional(_, _, _) => 3,
        Expr::Binary(op, _, _) => binary_rank(op),
        Expr::Cast(_, _) => 14,
        Expr::PreIncrement(_)
        | Expr::PreDecrement(_)
        | Expr::Unary(_, _)
        | Expr::SizeofExpr(_)
        | Expr::SizeofType(_) => 15,
        Expr::Index(_, _)
        | Expr::Call(_, _)
        | Expr::Member(_, _)
        | Expr::Arrow(_, _)
        | Expr::PostIncrement(_)
        | Expr::PostDecrement(_) => 16,
        Expr::Name(_)
        | Expr::Number { .. }
        | Expr::Character(_)
        | Expr::Text { .. }
        | Expr::Paren(_) => 17,
    }
}
