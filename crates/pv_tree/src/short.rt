//! Nodes in few bytes, as the table of nodes has them.
//!
//! A short form has at most 16 bytes. The nodes that need more have none: a `for`, an abstract array, a constant from
//! 2^32 on.
ghost use Rattle.std.specs.Prelude.{◌≡◌, ℕ, List, IfSome};
ghost use Rattle.pv_tree.specs.Short.{long_expr, long_declarator, long_spec, long_stmt, long_node, IsAmong};
ghost use Rattle.pv_tree.specs.declared.nodes.Expr.TheVariants as expr;
ghost use Rattle.pv_tree.specs.declared.nodes.Node.{Node};

use crate::nodes::{Decl, Declarator, Expr, Init, ListId, Node, NodeId, Spec, Stmt};
use crate::operators::{AssignOperator, BinaryOperator, UnaryOperator};

/// The least integer constant (C17 6.4.4.1) that has no short form.
const LEAST_LARGE: u64 = 1 << 32;

/// An expression (C17 6.5), but no constant from 2^32 on.
#[derive(Clone, Copy)]
pub(crate) enum ShortExpr {
    Name(u32),
    Number {
        decimal: bool,
        unsigned: bool,
        longs: u8,
        value: u32,
    },
    Character(i32),
    Text(u32, u32),
    Paren(NodeId),
    Index(NodeId, NodeId),
    Call(NodeId, ListId),
    Member(NodeId, u32),
    Arrow(NodeId, u32),
    PostIncrement(NodeId),
    PostDecrement(NodeId),
    PreIncrement(NodeId),
    PreDecrement(NodeId),
    Unary(UnaryOperator, NodeId),
    SizeofExpr(NodeId),
    SizeofType(NodeId),
    Cast(NodeId, NodeId),
    Binary(BinaryOperator, NodeId, NodeId),
    Conditional(NodeId, NodeId, NodeId),
    Assign(AssignOperator, NodeId, NodeId),
    Comma(NodeId, NodeId),
}

/// A declarator (C17 6.7.6, 6.7.7), but no abstract array.
#[derive(Clone, Copy)]
pub(crate) enum ShortDeclarator {
    Name(u32),
    Paren(NodeId),
    Pointer(u32, NodeId),
    Array(NodeId, Option<NodeId>),
    Function(bool, NodeId, ListId),
    AbstractParen(NodeId),
    AbstractPointer(u32, Option<NodeId>),
    AbstractFunction(bool, Option<NodeId>, ListId),
}

/// A declaration specifier (C17 6.7p1). The order of the fields leaves no gap.
#[derive(Clone, Copy)]
pub(crate) enum ShortSpec {
    Typedef,
    Extern,
    Static,
    Const,
    Void,
    Char,
    Short,
    Int,
    Long,
    Signed,
    Unsigned,
    Bool,
    Struct(Option<u32>, ListId),
    StructTag(u32),
    Union(Option<u32>, ListId),
    UnionTag(u32),
    Enum(bool, Option<u32>, ListId),
    EnumTag(u32),
    TypedefName(u32),
}

/// A statement, a block or a label (C17 6.8), but no `for`.
#[derive(Clone, Copy)]
pub(crate) enum ShortStmt {
    Block(ListId),
    Expr(Option<NodeId>),
    If(NodeId, NodeId),
    IfElse(NodeId, NodeId, NodeId),
    While(NodeId, NodeId),
    DoWhile(NodeId, NodeId),
    Switch(NodeId, NodeId),
    SwitchBlock(ListId),
    Labelled(ListId, NodeId),
    Case(NodeId),
    Default,
    Break,
    Continue,
    Return(Option<NodeId>),
}

/// A node in 20 bytes: in its short form, or by the place of the whole node in a list of those that have none.
#[derive(Clone, Copy)]
pub(crate) enum ShortNode {
    Expr(ShortExpr),
    Decl(Decl),
    Declarator(ShortDeclarator),
    Spec(ShortSpec),
    Init(Init),
    Stmt(ShortStmt),
    Whole(u32),
}

/// The short form of an integer constant (C17 6.4.4.1), where it has one.
#[inline(always)]
fn short_number(value: u64, decimal: bool, unsigned: bool, longs: u8) -> Option<ShortExpr>
    ensures { IfSome result (λ s. long_expr s ≡ expr.Number value decimal unsigned longs) }
{
    if value < LEAST_LARGE {
        let value = value as u32;
        Some(ShortExpr::Number {
            decimal,
            unsigned,
            longs,
            value,
        })
    } else {
        None
    }
}

/// The short form of an expression, where it has one.
#[inline(always)]
fn short_expr(e: Expr) -> Option<ShortExpr>
    ensures { IfSome result (λ s. long_expr s ≡ e) }
{
    match e {
        Expr::Name(n) => Some(ShortExpr::Name(n)),
        Expr::Number {
            value,
            decimal,
            unsigned,
            longs,
        } => short_number(value, decimal, unsigned, longs),
        Expr::Character(value) => Some(ShortExpr::Character(value)),
        Expr::Text { first, more } => Some(ShortExpr::Text(first, more)),
        Expr::Paren(a) => Some(ShortExpr::Paren(a)),
        Expr::Index(a, i) => Some(ShortExpr::Index(a, i)),
        Expr::Call(callee, arguments) => Some(ShortExpr::Call(callee, arguments)),
        Expr::Member(a, n) => Some(ShortExpr::Member(a, n)),
        Expr::Arrow(a, n) => Some(ShortExpr::Arrow(a, n)),
        Expr::PostIncrement(a) => Some(ShortExpr::PostIncrement(a)),
        Expr::PostDecrement(a) => Some(ShortExpr::PostDecrement(a)),
        Expr::PreIncrement(a) => Some(ShortExpr::PreIncrement(a)),
        Expr::PreDecrement(a) => Some(ShortExpr::PreDecrement(a)),
        Expr::Unary(op, a) => Some(ShortExpr::Unary(op, a)),
        Expr::SizeofExpr(a) => Some(ShortExpr::SizeofExpr(a)),
        Expr::SizeofType(t) => Some(ShortExpr::SizeofType(t)),
        Expr::Cast(t, a) => Some(ShortExpr::Cast(t, a)),
        Expr::Binary(op, a, b) => Some(ShortExpr::Binary(op, a, b)),
        Expr::Conditional(a, b, c) => Some(ShortExpr::Conditional(a, b, c)),
        Expr::Assign(op, a, b) => Some(ShortExpr::Assign(op, a, b)),
        Expr::Comma(a, b) => Some(ShortExpr::Comma(a, b)),
    }
}

/// The expression that a short form stands for.
#[inline(always)]
pub(crate) fn long_expr(s: ShortExpr) -> Expr
    ensures { result ≡ long_expr s }
{
    match s {
        ShortExpr::Name(n) => Expr::Name(n),
        ShortExpr::Number {
            decimal,
            unsigned,
            longs,
            value,
        } => Expr::Number {
            value: value as u64,
            decimal,
            unsigned,
            longs,
        },
        ShortExpr::Character(value) => Expr::Character(value),
        ShortExpr::Text(first, more) => Expr::Text { first, more },
        ShortExpr::Paren(a) => Expr::Paren(a),
        ShortExpr::Index(a, i) => Expr::Index(a, i),
        ShortExpr::Call(callee, arguments) => Expr::Call(callee, arguments),
        ShortExpr::Member(a, n) => Expr::Member(a, n),
        ShortExpr::Arrow(a, n) => Expr::Arrow(a, n),
        ShortExpr::PostIncrement(a) => Expr::PostIncrement(a),
        ShortExpr::PostDecrement(a) => Expr::PostDecrement(a),
        ShortExpr::PreIncrement(a) => Expr::PreIncrement(a),
        ShortExpr::PreDecrement(a) => Expr::PreDecrement(a),
        ShortExpr::Unary(op, a) => Expr::Unary(op, a),
        ShortExpr::SizeofExpr(a) => Expr::SizeofExpr(a),
        ShortExpr::SizeofType(t) => Expr::SizeofType(t),
        ShortExpr::Cast(t, a) => Expr::Cast(t, a),
        ShortExpr::Binary(op, a, b) => Expr::Binary(op, a, b),
        ShortExpr::Conditional(a, b, c) => Expr::Conditional(a, b, c),
        ShortExpr::Assign(op, a, b) => Expr::Assign(op, a, b),
        ShortExpr::Comma(a, b) => Expr::Comma(a, b),
    }
}

/// The short form of a declarator, where it has one.
#[inline(always)]
fn short_declarator(d: Declarator) -> Option<ShortDeclarator>
    ensures { IfSome result (λ s. long_declarator s ≡ d) }
{
    match d {
        Declarator::Name(n) => Some(ShortDeclarator::Name(n)),
        Declarator::Paren(d) => Some(ShortDeclarator::Paren(d)),
        Declarator::Pointer { consts, declarator } => Some(ShortDeclarator::Pointer(
            consts, declarator,
        )),
        Declarator::Array { declarator, size } => Some(ShortDeclarator::Array(declarator, size)),
        Declarator::Function {
            declarator,
            parameters,
            variadic,
        } => Some(ShortDeclarator::Function(variadic, declarator, parameters)),
        Declarator::AbstractParen(d) => Some(ShortDeclarator::AbstractParen(d)),
        Declarator::AbstractPointer { consts, declarator } => Some(ShortDeclarator::AbstractPointer(
            consts, declarator,
        )),
        Declarator::AbstractArray { .. } => None,
        Declarator::AbstractFunction {
            declarator,
            parameters,
            variadic,
        } => Some(ShortDeclarator::AbstractFunction(variadic, declarator, parameters)),
    }
}

/// The declarator that a short form stands for.
#[inline(always)]
pub(crate) fn long_declarator(s: ShortDeclarator) -> Declarator
    ensures { result ≡ long_declarator s }
{
    match s {
        ShortDeclarator::Name(n) => Declarator::Name(n),
        ShortDeclarator::Paren(d) => Declarator::Paren(d),
        ShortDeclarator::Pointer(consts, declarator) => Declarator::Pointer { consts, declarator },
        ShortDeclarator::Array(declarator, size) => Declarator::Array { declarator, size },
        ShortDeclarator::Function(variadic, declarator, parameters) => Declarator::Function {
            declarator,
            parameters,
            variadic,
        },
        ShortDeclarator::AbstractParen(d) => Declarator::AbstractParen(d),
        ShortDeclarator::AbstractPointer(consts, declarator) => Declarator::AbstractPointer {
            consts,
            declarator,
        },
        ShortDeclarator::AbstractFunction(variadic, declarator, parameters) =>
            Declarator::AbstractFunction {
                declarator,
                parameters,
                variadic,
            },
    }
}

/// The short form of a specifier.
#[inline(always)]
fn short_spec(s: Spec) -> ShortSpec
    ensures { long_spec result ≡ s }
{
    match s {
        Spec::Typedef => ShortSpec::Typedef,
        Spec::Extern => ShortSpec::Extern,
        Spec::Static => ShortSpec::Static,
        Spec::Const => ShortSpec::Const,
        Spec::Void => ShortSpec::Void,
        Spec::Char => ShortSpec::Char,
        Spec::Short => ShortSpec::Short,
        Spec::Int => ShortSpec::Int,
        Spec::Long => ShortSpec::Long,
        Spec::Signed => ShortSpec::Signed,
        Spec::Unsigned => ShortSpec::Unsigned,
        Spec::Bool => ShortSpec::Bool,
        Spec::Struct { name, members } => ShortSpec::Struct(name, members),
        Spec::StructTag(n) => ShortSpec::StructTag(n),
        Spec::Union { name, members } => ShortSpec::Union(name, members),
        Spec::UnionTag(n) => ShortSpec::UnionTag(n),
        Spec::Enum {
            name,
            enumerators,
            comma,
        } => ShortSpec::Enum(comma, name, enumerators),
        Spec::EnumTag(n) => ShortSpec::EnumTag(n),
        Spec::TypedefName(n) => ShortSpec::TypedefName(n),
    }
}

/// The specifier that a short form stands for.
#[inline(always)]
pub(crate) fn long_spec(s: ShortSpec) -> Spec
    ensures { result ≡ long_spec s }
{
    match s {
        ShortSpec::Typedef => Spec::Typedef,
        ShortSpec::Extern => Spec::Extern,
        ShortSpec::Static => Spec::Static,
        ShortSpec::Const => Spec::Const,
        ShortSpec::Void => Spec::Void,
        ShortSpec::Char => Spec::Char,
        ShortSpec::Short => Spec::Short,
        ShortSpec::Int => Spec::Int,
        ShortSpec::Long => Spec::Long,
        ShortSpec::Signed => Spec::Signed,
        ShortSpec::Unsigned => Spec::Unsigned,
        ShortSpec::Bool => Spec::Bool,
        ShortSpec::Struct(name, members) => Spec::Struct { name, members },
        ShortSpec::StructTag(n) => Spec::StructTag(n),
        ShortSpec::Union(name, members) => Spec::Union { name, members },
        ShortSpec::UnionTag(n) => Spec::UnionTag(n),
        ShortSpec::Enum(comma, name, enumerators) => Spec::Enum {
            name,
            enumerators,
            comma,
        },
        ShortSpec::EnumTag(n) => Spec::EnumTag(n),
        ShortSpec::TypedefName(n) => Spec::TypedefName(n),
    }
}

/// The short form of a statement, where it has one.
#[inline(always)]
fn short_stmt(s: Stmt) -> Option<ShortStmt>
    ensures { IfSome result (λ r. long_stmt r ≡ s) }
{
    match s {
        Stmt::Block(items) => Some(ShortStmt::Block(items)),
        Stmt::Expr(a) => Some(ShortStmt::Expr(a)),
        Stmt::If(a, body) => Some(ShortStmt::If(a, body)),
        Stmt::IfElse(a, yes, no) => Some(ShortStmt::IfElse(a, yes, no)),
        Stmt::While(a, body) => Some(ShortStmt::While(a, body)),
        Stmt::DoWhile(body, a) => Some(ShortStmt::DoWhile(body, a)),
        Stmt::For { .. } | Stmt::ForDeclaration { .. } => None,
        Stmt::Switch(a, block) => Some(ShortStmt::Switch(a, block)),
        Stmt::SwitchBlock(items) => Some(ShortStmt::SwitchBlock(items)),
        Stmt::Labelled { labels, statement } => Some(ShortStmt::Labelled(labels, statement)),
        Stmt::Case(a) => Some(ShortStmt::Case(a)),
        Stmt::Default => Some(ShortStmt::Default),
        Stmt::Break => Some(ShortStmt::Break),
        Stmt::Continue => Some(ShortStmt::Continue),
        Stmt::Return(a) => Some(ShortStmt::Return(a)),
    }
}

/// The statement that a short form stands for.
#[inline(always)]
pub(crate) fn long_stmt(s: ShortStmt) -> Stmt
    ensures { result ≡ long_stmt s }
{
    match s {
        ShortStmt::Block(items) => Stmt::Block(items),
        ShortStmt::Expr(a) => Stmt::Expr(a),
        ShortStmt::If(a, body) => Stmt::If(a, body),
        ShortStmt::IfElse(a, yes, no) => Stmt::IfElse(a, yes, no),
        ShortStmt::While(a, body) => Stmt::While(a, body),
        ShortStmt::DoWhile(body, a) => Stmt::DoWhile(body, a),
        ShortStmt::Switch(a, block) => Stmt::Switch(a, block),
        ShortStmt::SwitchBlock(items) => Stmt::SwitchBlock(items),
        ShortStmt::Labelled(labels, statement) => Stmt::Labelled { labels, statement },
        ShortStmt::Case(a) => Stmt::Case(a),
        ShortStmt::Default => Stmt::Default,
        ShortStmt::Break => Stmt::Break,
        ShortStmt::Continue => Stmt::Continue,
        ShortStmt::Return(a) => Stmt::Return(a),
    }
}

/// The short form of a node, where it has one.
#[inline(always)]
pub(crate) fn short_node(node: Node) -> Option<ShortNode>
    ensures node { IfSome result (λ s. (whole : List Node) → long_node whole s ≡ node) }
    ensures among { IfSome result (λ s. (n : ℕ) → IsAmong n s) }
{
    match node {
        Node::Expr(e) => Some(ShortNode::Expr(short_expr(e)?)),
        Node::Decl(d) => Some(ShortNode::Decl(d)),
        Node::Declarator(d) => Some(ShortNode::Declarator(short_declarator(d)?)),
        Node::Spec(s) => Some(ShortNode::Spec(short_spec(s))),
        Node::Init(i) => Some(ShortNode::Init(i)),
        Node::Stmt(s) => Some(ShortNode::Stmt(short_stmt(s)?)),
    }
}
