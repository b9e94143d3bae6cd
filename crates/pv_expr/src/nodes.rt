//! The finished trees of a unit, and new ones made of them.
ghost use Rattle.std.specs.Prelude.{◌≡◌, ◌≤◌, ◌<◌, true, false, All, length, Some, nat_eq};
ghost use Rattle.indexmap.specs.IndexSet.{contains};
ghost use Rattle.pv_tree.specs.Children.{HasExprChildren};
ghost use Rattle.pv_tree.specs.Depths.{expression_depth, declaration_depth};
ghost use Rattle.pv_tree.specs.Levels.{rank};
ghost use Rattle.pv_tree.specs.Lines.{expression_line};
ghost use Rattle.pv_tree.specs.Nodes.{expression_of};
ghost use Rattle.pv_tree.specs.Syntax.{Member, Arrow};
ghost use Rattle.pv_tree.specs.Tables.{expression_at, declaration_at, arguments_of, is_expression, is_declaration, Is, Extends};
ghost use Rattle.pv_expr_forms.specs.Follows.{join_tree, prefix_tree};
ghost use Rattle.pv_expr_forms.specs.Parts.{leaf_of, made_with_name};
ghost use Rattle.pv_expr_forms.specs.Reader.{paren_end, index_end};
ghost use Rattle.pv_expr_forms.specs.Answers.{AnswersAt};
ghost use Rattle.pv_expr.specs.Going.{operand_level, with_suffix, with_right, called_with, GoesOnAt};
ghost use Rattle.pv_expr.specs.Openings.{operand_of, IsOpening, opening_tree};

use indexmap::IndexSet;
use pv_expr_forms::{
    Follow, Join, Prefix, after_bracket, after_close, follow_of, is_type, name_next, peek, rank,
    texts_in_row,
};
use pv_token::{NoMemory, Token, TokenKind, Tokens};
use pv_tree::{Expr, NodeId, Unit};

/// What stands before an operand.
#[derive(Clone, Copy)]
pub(crate) enum Opening {
    /// A parenthesis, whose other one stands behind the operand (C17 6.5.1p5).
    Paren,
    /// A type name in parentheses (C17 6.5.4).
    Cast(NodeId),
    /// An operator (C17 6.5.3).
    Operator(Prefix),
}

impl Opening {
    /// The level of the operand.
    pub(crate) fn operand(self) -> u8
        ensures { result ≡ operand_of self }
    {
        match self {
            Opening::Paren => 1,
            Opening::Cast(_) => 14,
            Opening::Operator(op) => op.operand(),
        }
    }
}

/// The tightest level that an expression belongs to.
#[inline(always)]
pub(crate) fn rank_of(unit: &Unit, n: NodeId) -> u8
    requires { Is unit.now is_expression n }
    ensures { result ≡ rank (expression_at unit.now.forest n) }
{
    rank(unit.expr(n))
}

/// Whether a tree that nothing went on from yet is looser than a level. It is a cast or tighter, so that its node is looked
/// at for the tightest levels alone.
#[inline(always)]
pub(crate) fn is_looser(unit: &Unit, n: NodeId, level: u8) -> bool
    requires node { Is unit.now is_expression n }
    requires cast { 14 ≤ rank (expression_at unit.now.forest n) }
    ensures looser { result ≡ true → rank (expression_at unit.now.forest n) < level }
    ensures tight { result ≡ false → level ≤ rank (expression_at unit.now.forest n) }
{
    if level <= 14 {
        return false;
    }
    rank_of(unit, n) < level
}

/// The depth of an expression.
pub(crate) fn depth_of(unit: &Unit, n: NodeId) -> u32
    requires { Is unit.now is_expression n }
    ensures { result ≡ expression_depth (expression_at unit.now.forest n) }
{
    unit.depth(n)
}

/// The depth of a type name.
pub(crate) fn type_depth(unit: &Unit, n: NodeId) -> u32
    requires { Is unit.now is_declaration n }
    ensures { result ≡ declaration_depth (declaration_at unit.now.forest n) }
{
    unit.depth(n)
}

/// The line of the first token of an expression.
pub(crate) fn line_of(unit: &Unit, n: NodeId) -> u32
    requires { Is unit.now is_expression n }
    ensures { result ≡ expression_line (expression_at unit.now.forest n) }
{
    unit.line(n)
}

/// A new expression that ends at a place.
#[inline(always)]
pub(crate) fn found(
    tokens: &Tokens,
    next: u32,
    expr: Expr,
    line: u32,
    into: &mut Unit,
) -> Result<Option<(NodeId, u32)>, NoMemory>
    requires place { next ≤ length tokens.now.tokens }
    requires children { HasExprChildren into.old.forest (length into.old.forest.trees) expr }
    ensures keeps { Extends into.old into.new }
    ensures ok { AnswersAt into.new tokens.now.tokens next result (λ ts. Some (expression_of into.old.forest line expr, ts)) }
{
    Ok(Some((into.add_expr(expr, line)?, next)))
}

/// A name, a constant or string literals in a row, whose first token ends at a place
/// (C17 6.5.1p1).
#[tactic(auto, using(pv_tree::proofs::Kept::extends_same), unfolding(pv_expr_forms::specs::Parts::leaf_of))]
pub(crate) fn leaf(
    tokens: &Tokens,
    typedefs: &IndexSet<u32>,
    at: u32,
    token: Token,
    into: &mut Unit,
) -> Result<Option<(NodeId, u32)>, NoMemory>
    requires { at ≤ length tokens.now.tokens }
    ensures keeps { Extends into.old into.new }
    ensures ok { AnswersAt into.new tokens.now.tokens at result (leaf_of (contains nat_eq typedefs.now) token.line token.kind) }
{
    let line = token.line;
    match token.kind {
        TokenKind::Name(name) => {
            if is_type(typedefs, name) {
                return Ok(None);
            }
            found(tokens, at, Expr::Name(name), line, into)
        }
        TokenKind::Number {
            value,
            decimal,
            unsigned,
            longs,
        } => found(
            tokens,
            at,
            Expr::Number {
                value,
                decimal,
                unsigned,
                longs,
            },
            line,
            into,
        ),
        TokenKind::Character(value) => found(tokens, at, Expr::Character(value), line, into),
        TokenKind::Text(first) => {
            let (more, next) = texts_in_row(tokens, at, first);
            found(tokens, next, Expr::Text { first, more }, line, into)
        }
        TokenKind::Word(_) | TokenKind::Mark(_) => Ok(None),
    }
}

/// What stands in parentheses, whose inside ends at a place (C17 6.5.1p5).
#[tactic(auto, using(pv_tree::proofs::Kept::extends_same), unfolding(pv_expr_forms::specs::Reader::paren_end))]
fn close(
    tokens: &Tokens,
    at: u32,
    inside: NodeId,
    line: u32,
    into: &mut Unit,
) -> Result<Option<(NodeId, u32)>, NoMemory>
    requires place { at ≤ length tokens.now.tokens }
    requires inside { Is into.old is_expression inside }
    ensures keeps { Extends into.old into.new }
    ensures ok { AnswersAt into.new tokens.now.tokens at result (paren_end line (expression_at into.old.forest inside)) }
{
    match after_close(tokens, at) {
        Some(next) => found(tokens, next, Expr::Paren(inside), line, into),
        None => Ok(None),
    }
}

/// An element, whose index ends at a place (C17 6.5.2.1).
#[tactic(auto, using(pv_tree::proofs::Kept::extends_same), unfolding(pv_expr_forms::specs::Reader::index_end))]
fn index(
    tokens: &Tokens,
    at: u32,
    array: NodeId,
    index: NodeId,
    into: &mut Unit,
) -> Result<Option<(NodeId, u32)>, NoMemory>
    requires place { at ≤ length tokens.now.tokens }
    requires array { Is into.old is_expression array }
    requires index { Is into.old is_expression index }
    ensures keeps { Extends into.old into.new }
    ensures ok { AnswersAt into.new tokens.now.tokens at result (index_end (expression_at into.old.forest array) (expression_at into.old.forest index)) }
{
    match after_bracket(tokens, at) {
        Some(next) => {
            let line = line_of(into, array);
            found(tokens, next, Expr::Index(array, index), line, into)
        }
        None => Ok(None),
    }
}

/// A member, whose name stands at a place (C17 6.5.2.3p1).
#[tactic(auto, using(pv_tree::proofs::Kept::extends_same), unfolding(pv_expr_forms::specs::Parts::made_with_name))]
fn member(
    tokens: &Tokens,
    typedefs: &IndexSet<u32>,
    at: u32,
    whole: NodeId,
    into: &mut Unit,
) -> Result<Option<(NodeId, u32)>, NoMemory>
    requires place { at ≤ length tokens.now.tokens }
    requires whole { Is into.old is_expression whole }
    ensures keeps { Extends into.old into.new }
    ensures ok { AnswersAt into.new tokens.now.tokens at result (made_with_name (contains nat_eq typedefs.now) (Member (expression_line (expression_at into.old.forest whole)) (expression_at into.old.forest whole))) }
{
    match name_next(tokens, typedefs, at) {
        Some((name, next)) => {
            let line = line_of(into, whole);
            found(tokens, next, Expr::Member(whole, name), line, into)
        }
        None => Ok(None),
    }
}

/// A member behind a pointer, whose name stands at a place (C17 6.5.2.3p2).
#[tactic(auto, using(pv_tree::proofs::Kept::extends_same), unfolding(pv_expr_forms::specs::Parts::made_with_name))]
fn arrow(
    tokens: &Tokens,
    typedefs: &IndexSet<u32>,
    at: u32,
    pointer: NodeId,
    into: &mut Unit,
) -> Result<Option<(NodeId, u32)>, NoMemory>
    requires place { at ≤ length tokens.now.tokens }
    requires pointer { Is into.old is_expression pointer }
    ensures keeps { Extends into.old into.new }
    ensures ok { AnswersAt into.new tokens.now.tokens at result (made_with_name (contains nat_eq typedefs.now) (Arrow (expression_line (expression_at into.old.forest pointer)) (expression_at into.old.forest pointer))) }
{
    match name_next(tokens, typedefs, at) {
        Some((name, next)) => {
            let line = line_of(into, pointer);
            found(tokens, next, Expr::Arrow(pointer, name), line, into)
        }
        None => Ok(None),
    }
}

/// The tree of an operand, which ends at a place, and of what stands before it.
#[tactic(auto, unfolding(crate::specs::Openings::opening_tree))]
pub(crate) fn enclosed(
    tokens: &Tokens,
    at: u32,
    form: Opening,
    operand: NodeId,
    line: u32,
    into: &mut Unit,
) -> Result<Option<(NodeId, u32)>, NoMemory>
    requires place { at ≤ length tokens.now.tokens }
    requires form { IsOpening into.old form }
    requires operand { Is into.old is_expression operand }
    ensures keeps { Extends into.old into.new }
    ensures ok { AnswersAt into.new tokens.now.tokens at result (opening_tree into.old.forest line form (expression_at into.old.forest operand)) }
{
    match form {
        Opening::Paren => close(tokens, at, operand, line, into),
        Opening::Cast(name) => found(tokens, at, Expr::Cast(name, operand), line, into),
        Opening::Operator(op) => prefixed(tokens, at, op, operand, line, into),
    }
}

/// How a tree goes on at a place, where its level and its depth permit that.
pub(crate) fn follow_at(
    tokens: &Tokens,
    at: u32,
    left: NodeId,
    level: u8,
    below: u32,
    unit: &Unit,
) -> Option<Follow>
    requires place { at ≤ length tokens.now.tokens }
    requires left { Is unit.now is_expression left }
    ensures { GoesOnAt tokens.now.tokens at level below (expression_at unit.now.forest left) result }
{
    if depth_of(unit, left) > below {
        return None;
    }
    let Some(token) = peek(tokens, at) else {
        return None;
    };
    let Some(follow) = follow_of(token.kind) else {
        return None;
    };
    if follow.rank() < level || rank_of(unit, left) < follow.left() {
        return None;
    }
    Some(follow)
}

/// The level of the operand that a tree goes on with, where it goes on with one.
pub(crate) fn operand_level(follow: Follow) -> Option<u8>
    ensures { result ≡ operand_level follow }
{
    match follow {
        Follow::Join(op) => Some(op.right()),
        Follow::Ask | Follow::Index => Some(1),
        _ => None,
    }
}

/// The tree that goes on from a tree without any further tree (C17 6.5.2.3, 6.5.2.4).
#[tactic(auto, using(pv_tree::proofs::Kept::extends_same), unfolding(crate::specs::Going::with_suffix))]
pub(crate) fn suffixed(
    tokens: &Tokens,
    typedefs: &IndexSet<u32>,
    at: u32,
    tree: NodeId,
    follow: Follow,
    into: &mut Unit,
) -> Result<Option<(NodeId, u32)>, NoMemory>
    requires place { at ≤ length tokens.now.tokens }
    requires tree { Is into.old is_expression tree }
    ensures keeps { Extends into.old into.new }
    ensures ok { AnswersAt into.new tokens.now.tokens at result (with_suffix (contains nat_eq typedefs.now) (expression_at into.old.forest tree) follow) }
{
    let line = line_of(into, tree);
    match follow {
        Follow::Dot => member(tokens, typedefs, at, tree, into),
        Follow::Arrow => arrow(tokens, typedefs, at, tree, into),
        Follow::Increment => found(tokens, at, Expr::PostIncrement(tree), line, into),
        Follow::Decrement => found(tokens, at, Expr::PostDecrement(tree), line, into),
        _ => Ok(None),
    }
}

/// The tree that goes on from a tree with one operand, which ends at a place (C17 6.5.2.1, 6.5.5
/// to 6.5.14, 6.5.16, 6.5.17).
#[tactic(auto, using(pv_tree::proofs::Kept::extends_same), unfolding(crate::specs::Going::with_right))]
pub(crate) fn combined(
    tokens: &Tokens,
    at: u32,
    left: NodeId,
    right: NodeId,
    follow: Follow,
    into: &mut Unit,
) -> Result<Option<(NodeId, u32)>, NoMemory>
    requires place { at ≤ length tokens.now.tokens }
    requires left { Is into.old is_expression left }
    requires right { Is into.old is_expression right }
    ensures keeps { Extends into.old into.new }
    ensures ok { AnswersAt into.new tokens.now.tokens at result (with_right (expression_at into.old.forest left) (expression_at into.old.forest right) follow) }
{
    match follow {
        Follow::Join(op) => joined(tokens, at, op, left, right, into),
        Follow::Index => index(tokens, at, left, right, into),
        _ => Ok(None),
    }
}

/// An operator before its operand, which ends at a place (C17 6.5.3).
fn prefixed(
    tokens: &Tokens,
    at: u32,
    op: Prefix,
    operand: NodeId,
    line: u32,
    into: &mut Unit,
) -> Result<Option<(NodeId, u32)>, NoMemory>
    requires place { at ≤ length tokens.now.tokens }
    requires operand { Is into.old is_expression operand }
    ensures keeps { Extends into.old into.new }
    ensures ok { AnswersAt into.new tokens.now.tokens at result (λ ts. Some (prefix_tree line op (expression_at into.old.forest operand), ts)) }
{
    let expr = match op {
        Prefix::Increment => Expr::PreIncrement(operand),
        Prefix::Decrement => Expr::PreDecrement(operand),
        Prefix::Sizeof => Expr::SizeofExpr(operand),
        Prefix::Unary(unary) => Expr::Unary(unary, operand),
    };
    found(tokens, at, expr, line, into)
}

/// An operator between two operands, of which the right one ends at a place (C17 6.5.5 to 6.5.14,
/// 6.5.16, 6.5.17).
fn joined(
    tokens: &Tokens,
    at: u32,
    op: Join,
    left: NodeId,
    right: NodeId,
    into: &mut Unit,
) -> Result<Option<(NodeId, u32)>, NoMemory>
    requires place { at ≤ length tokens.now.tokens }
    requires left { Is into.old is_expression left }
    requires right { Is into.old is_expression right }
    ensures keeps { Extends into.old into.new }
    ensures ok { AnswersAt into.new tokens.now.tokens at result (λ ts. Some (join_tree op (expression_at into.old.forest left) (expression_at into.old.forest right), ts)) }
{
    let line = line_of(into, left);
    let expr = match op {
        Join::Binary(binary) => Expr::Binary(binary, left, right),
        Join::Assign(assign) => Expr::Assign(assign, left, right),
        Join::Comma => Expr::Comma(left, right),
    };
    found(tokens, at, expr, line, into)
}

/// A call, whose arguments end at a place (C17 6.5.2.2).
pub(crate) fn call(
    tokens: &Tokens,
    at: u32,
    callee: NodeId,
    arguments: &[NodeId],
    into: &mut Unit,
) -> Result<Option<(NodeId, u32)>, NoMemory>
    requires place { at ≤ length tokens.now.tokens }
    requires callee { Is into.old is_expression callee }
    requires arguments { All (λ n. Is into.old is_expression n) arguments.now }
    ensures keeps { Extends into.old into.new }
    ensures ok { AnswersAt into.new tokens.now.tokens at result (λ ts. Some (called_with (expression_at into.old.forest callee) (arguments_of into.old.forest arguments.now), ts)) }
{
    let line = line_of(into, callee);
    let list = into.add_list(arguments)?;
    found(tokens, at, Expr::Call(callee, list), line, into)
}
