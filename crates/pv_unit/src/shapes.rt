// The shape that an initializer has.
ghost use Rattle.std.specs.Prelude.{◌≡◌, ◌<◌, length, option_map};
ghost use Rattle.pv_types.specs.Known.{tree};
ghost use Rattle.pv_types.specs.Formed.{completions};
ghost use Rattle.pv_tree.specs.Tables.{expression_at, initializer_at, trees_at, is_expression, is_initializer, Is, IsListOf};
ghost use Rattle.pv_unit.specs.Initializers.{only_expression, is_zero, filling, single_shape, list_shape, shape_of};
ghost use Rattle.pv_unit.specs.InitializerParts.{expression_shape, begins_deep};
ghost use Rattle.pv_unit.specs.Shapes.{shape_in, IsShape, IsShapeIf, IsExpressionIf};
ghost use Rattle.pv_check.specs.Growing.{AreSized};
ghost use Rattle.pv_unit.specs.Subobjects.{part_of, IsPart};

use crate::parts::{Subobject, is_aggregate, is_scalar, is_text, part_at};
use pv_tree::{Expr, Init, ListId, NodeId, Unit};
use pv_types::{TypeId, Types};

/// What an initializer is (C17 6.7.9).
#[derive(Clone, Copy)]
pub(crate) enum Shape {
    /// String literals that fill an array of characters (6.7.9p14): their line, the first, and how many more follow.
    Fill { line: u32, first: u32, more: u32 },
    /// One expression (6.7.9p11, p13).
    Single(NodeId),
    /// The list `{0}`, whose constant initializes the first scalar.
    Zero(NodeId),
    /// A list in braces, each initializer of which is for a part (6.7.9p16).
    Each,
    /// None of these.
    Wrong,
}

/// The one expression of a list of initializers, if it has no more and no braces.
fn only(u: &Unit, inits: ListId) -> Option<NodeId>
    requires { IsListOf u.now is_initializer inits }
    ensures expression { option_map (expression_at u.now.forest) result ≡ only_expression (trees_at u.now.forest inits) }
    ensures is { IsExpressionIf u.now result }
{
    let list = u.list(inits);
    if list.len() != 1 {
        return None;
    }
    match u.init(list[0]) {
        Init::Expr(a) => Some(a),
        Init::Braces { .. } => None,
    }
}

/// Whether it is the constant 0, without a suffix.
fn is_zero(u: &Unit, a: NodeId) -> bool
    requires { Is u.now is_expression a }
    ensures { result ≡ is_zero (expression_at u.now.forest a) }
{
    match u.expr(a) {
        Expr::Number {
            value,
            decimal: _,
            unsigned,
            longs,
        } => value == 0 && !unsigned && longs == 0,
        Expr::Name(_)
        | Expr::Character(_)
        | Expr::Text { .. }
        | Expr::Paren(_)
        | Expr::Index(_, _)
        | Expr::Call(_, _)
        | Expr::Member(_, _)
        | Expr::Arrow(_, _)
        | Expr::PostIncrement(_)
        | Expr::PostDecrement(_)
        | Expr::PreIncrement(_)
        | Expr::PreDecrement(_)
        | Expr::Unary(_, _)
        | Expr::SizeofExpr(_)
        | Expr::SizeofType(_)
        | Expr::Cast(_, _)
        | Expr::Binary(_, _, _)
        | Expr::Conditional(_, _, _)
        | Expr::Assign(_, _, _)
        | Expr::Comma(_, _) => false,
    }
}

/// The string literals that fill an array of characters, if the type is one and the expression is so.
fn filling(u: &Unit, text: bool, a: NodeId) -> Option<Shape>
    requires { Is u.now is_expression a }
    ensures shape { option_map (shape_in u.now.forest) result ≡ filling text (expression_at u.now.forest a) }
    ensures is { IsShapeIf u.now result }
{
    if !text {
        return None;
    }
    match u.expr(a) {
        Expr::Text { first, more } => Some(Shape::Fill {
            line: u.line(a),
            first,
            more,
        }),
        Expr::Name(_)
        | Expr::Number { .. }
        | Expr::Character(_)
        | Expr::Paren(_)
        | Expr::Index(_, _)
        | Expr::Call(_, _)
        | Expr::Member(_, _)
        | Expr::Arrow(_, _)
        | Expr::PostIncrement(_)
        | Expr::PostDecrement(_)
        | Expr::PreIncrement(_)
        | Expr::PreDecrement(_)
        | Expr::Unary(_, _)
        | Expr::SizeofExpr(_)
        | Expr::SizeofType(_)
        | Expr::Cast(_, _)
        | Expr::Binary(_, _, _)
        | Expr::Conditional(_, _, _)
        | Expr::Assign(_, _, _)
        | Expr::Comma(_, _) => None,
    }
}

/// The shape of one expression without braces.
fn expression_shape(types: &Types, u: &Unit, t: TypeId, a: NodeId) -> Shape
    requires known { t.0 < length types.now.terms }
    requires node { Is u.now is_expression a }
    ensures shape { shape_in u.now.forest result ≡ expression_shape (tree types.now t.0) (expression_at u.now.forest a) }
    ensures is { IsShape u.now result }
{
    match filling(u, is_text(types, t), a) {
        Some(fill) => fill,
        None => Shape::Single(a),
    }
}

/// Whether the expression in braces is 0, and the first part has parts itself.
fn begins_deep(types: &Types, u: &Unit, part: Subobject, a: NodeId) -> bool
    requires sized { AreSized types.now }
    requires part { IsPart types.now part }
    requires node { Is u.now is_expression a }
    ensures { result ≡ begins_deep (completions types.now) (part_of types.now part) (expression_at u.now.forest a) }
{
    if !is_zero(u, a) {
        return false;
    }
    match part_at(types, part, 0) {
        Some(first) => is_aggregate(types, first.t),
        None => false,
    }
}

/// The shape of one expression in braces.
fn single_shape(types: &Types, u: &Unit, part: Subobject, a: NodeId) -> Shape
    requires sized { AreSized types.now }
    requires part { IsPart types.now part }
    requires node { Is u.now is_expression a }
    ensures shape { shape_in u.now.forest result ≡ single_shape (completions types.now) (part_of types.now part) (expression_at u.now.forest a) }
    ensures is { IsShape u.now result }
{
    if let Some(fill) = filling(u, is_text(types, part.t), a) {
        return fill;
    }
    if is_scalar(types, part.t) {
        return Shape::Single(a);
    }
    if begins_deep(types, u, part, a) {
        return Shape::Zero(a);
    }
    Shape::Each
}

/// The shape of a list in braces.
fn list_shape(types: &Types, u: &Unit, part: Subobject, inits: ListId) -> Shape
    requires sized { AreSized types.now }
    requires part { IsPart types.now part }
    requires list { IsListOf u.now is_initializer inits }
    ensures shape { shape_in u.now.forest result ≡ list_shape (completions types.now) (part_of types.now part) (only_expression (trees_at u.now.forest inits)) }
    ensures is { IsShape u.now result }
{
    if let Some(a) = only(u, inits) {
        return single_shape(types, u, part, a);
    }
    if is_scalar(types, part.t) {
        return Shape::Wrong;
    }
    Shape::Each
}

/// The shape of an initializer for a part of an object.
pub(crate) fn shape_of(types: &Types, u: &Unit, part: Subobject, i: NodeId) -> Shape
    requires sized { AreSized types.now }
    requires part { IsPart types.now part }
    requires node { Is u.now is_initializer i }
    ensures shape { shape_in u.now.forest result ≡ shape_of (completions types.now) (part_of types.now part) (initializer_at u.now.forest i) }
    ensures is { IsShape u.now result }
{
    match u.init(i) {
        Init::Expr(a) => expression_shape(types, u, part.t, a),
        Init::Braces { inits, comma: _ } => list_shape(types, u, part, inits),
    }
}
