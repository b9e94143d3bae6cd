//! The operators by their tokens: what stands before an operand, and what goes on behind one.
ghost use Rattle.std.specs.Prelude.{◌≡◌, true, None};
ghost use Rattle.pv_expr_forms.specs.Follows.{prefix_of, prefix_operand, binary_of, assign_of, other_of, follow_of_mark, follow_of};

use pv_token::{Mark, TokenKind, Word};
use pv_tree::{AssignOperator, BinaryOperator, UnaryOperator};

/// What stands before one operand (C17 6.5.3p1).
#[derive(Clone, Copy)]
pub enum Prefix {
    /// `++`
    Increment,
    /// `--`
    Decrement,
    /// `sizeof`
    Sizeof,
    /// An operator whose operand is a cast expression.
    Unary(UnaryOperator),
}

/// What stands between two operands (C17 6.5.5 to 6.5.14, 6.5.16, 6.5.17).
#[derive(Clone, Copy)]
pub enum Join {
    /// An operator that groups to the left.
    Binary(BinaryOperator),
    /// `=` and its like.
    Assign(AssignOperator),
    /// `,`
    Comma,
}

/// How an expression goes on behind its first operand.
#[derive(Clone, Copy)]
pub enum Follow {
    /// An operator and a second operand.
    Join(Join),
    /// `? expression : conditional expression` (C17 6.5.15).
    Ask,
    /// `[ expression ]` (C17 6.5.2.1).
    Index,
    /// `( arguments )` (C17 6.5.2.2).
    Call,
    /// `. name` (C17 6.5.2.3).
    Dot,
    /// `-> name` (C17 6.5.2.3).
    Arrow,
    /// `++` (C17 6.5.2.4).
    Increment,
    /// `--` (C17 6.5.2.4).
    Decrement,
}

/// The operator before an operand that a token is.
pub fn prefix_of(kind: TokenKind) -> Option<Prefix>
    ensures { result ≡ prefix_of kind }
{
    match kind {
        TokenKind::Word(Word::Sizeof) => Some(Prefix::Sizeof),
        TokenKind::Mark(Mark::Increment) => Some(Prefix::Increment),
        TokenKind::Mark(Mark::Decrement) => Some(Prefix::Decrement),
        TokenKind::Mark(Mark::And) => Some(Prefix::Unary(UnaryOperator::Address)),
        TokenKind::Mark(Mark::Star) => Some(Prefix::Unary(UnaryOperator::Indirection)),
        TokenKind::Mark(Mark::Plus) => Some(Prefix::Unary(UnaryOperator::Plus)),
        TokenKind::Mark(Mark::Minus) => Some(Prefix::Unary(UnaryOperator::Minus)),
        TokenKind::Mark(Mark::Tilde) => Some(Prefix::Unary(UnaryOperator::Complement)),
        TokenKind::Mark(Mark::Not) => Some(Prefix::Unary(UnaryOperator::Not)),
        _ => None,
    }
}

impl Prefix {
    /// The loosest level of the operand.
    pub fn operand(self) -> u8
        ensures { result ≡ prefix_operand self }
    {
        match self {
            Prefix::Unary(_) => 14,
            _ => 15,
        }
    }
}

/// The operator that groups to the left that a punctuator is.
fn binary_of(mark: Mark) -> Option<BinaryOperator>
    ensures { result ≡ binary_of mark }
{
    match mark {
        Mark::Star => Some(BinaryOperator::Multiply),
        Mark::Slash => Some(BinaryOperator::Divide),
        Mark::Percent => Some(BinaryOperator::Remainder),
        Mark::Plus => Some(BinaryOperator::Add),
        Mark::Minus => Some(BinaryOperator::Subtract),
        Mark::Shl => Some(BinaryOperator::ShiftLeft),
        Mark::Shr => Some(BinaryOperator::ShiftRight),
        Mark::Less => Some(BinaryOperator::Less),
        Mark::Greater => Some(BinaryOperator::Greater),
        Mark::LessEqual => Some(BinaryOperator::LessEqual),
        Mark::GreaterEqual => Some(BinaryOperator::GreaterEqual),
        Mark::Equal => Some(BinaryOperator::Equal),
        Mark::NotEqual => Some(BinaryOperator::NotEqual),
        Mark::And => Some(BinaryOperator::And),
        Mark::Caret => Some(BinaryOperator::ExclusiveOr),
        Mark::Or => Some(BinaryOperator::Or),
        Mark::AndAnd => Some(BinaryOperator::LogicalAnd),
        Mark::OrOr => Some(BinaryOperator::LogicalOr),
        _ => None,
    }
}

/// The operator of an assignment that a punctuator is.
fn assign_of(mark: Mark) -> Option<AssignOperator>
    ensures { result ≡ assign_of mark }
{
    match mark {
        Mark::Assign => Some(AssignOperator::Assign),
        Mark::MulAssign => Some(AssignOperator::Multiply),
        Mark::DivAssign => Some(AssignOperator::Divide),
        Mark::RemAssign => Some(AssignOperator::Remainder),
        Mark::AddAssign => Some(AssignOperator::Add),
        Mark::SubAssign => Some(AssignOperator::Subtract),
        Mark::ShlAssign => Some(AssignOperator::ShiftLeft),
        Mark::ShrAssign => Some(AssignOperator::ShiftRight),
        Mark::AndAssign => Some(AssignOperator::And),
        Mark::XorAssign => Some(AssignOperator::ExclusiveOr),
        Mark::OrAssign => Some(AssignOperator::Or),
        _ => None,
    }
}

/// How an expression goes on with a punctuator that is neither of these.
fn other_of(mark: Mark) -> Option<Follow>
    ensures { result ≡ other_of mark }
{
    match mark {
        Mark::Comma => Some(Follow::Join(Join::Comma)),
        Mark::Question => Some(Follow::Ask),
        Mark::OpenBracket => Some(Follow::Index),
        Mark::OpenParen => Some(Follow::Call),
        Mark::Dot => Some(Follow::Dot),
        Mark::Arrow => Some(Follow::Arrow),
        Mark::Increment => Some(Follow::Increment),
        Mark::Decrement => Some(Follow::Decrement),
        _ => None,
    }
}

/// Whether it is one of the punctuators behind which most operands end.
fn ends_operand(mark: Mark) -> bool
    ensures { result ≡ true → follow_of_mark mark ≡ None }
{
    match mark {
        Mark::CloseParen => true,
        Mark::CloseBracket => true,
        Mark::CloseBrace => true,
        Mark::Semicolon => true,
        Mark::Colon => true,
        _ => false,
    }
}

/// How an expression goes on with a token. Those with which none goes on are mostly known by a single test.
pub fn follow_of(kind: TokenKind) -> Option<Follow>
    ensures { result ≡ follow_of kind }
{
    let TokenKind::Mark(mark) = kind else {
        return None;
    };
    if ends_operand(mark) {
        return None;
    }
    if let Some(op) = binary_of(mark) {
        return Some(Follow::Join(Join::Binary(op)));
    }
    if let Some(op) = assign_of(mark) {
        return Some(Follow::Join(Join::Assign(op)));
    }
    other_of(mark)
}
