// An expression, a declaration and units, as they are read from their tokens. The answers are an independent reader's.
ghost use Rattle.std.specs.Prelude.{IfSome};
ghost use Rattle.pv_tree.specs.Tables.{Is, is_declaration, is_expression};

use indexmap::IndexSet;
use pv_decl::{declaration, type_names};
use pv_expr::{Level, expression};
use pv_lex::tokens;
use pv_stmt::{SynError, unit};
use pv_token::Tokens;
use pv_tree::{BinaryOperator, Expr, NodeId, Unit};
use std::alloc::Global;
use std::process::Abort;

/// The tokens of a source.
pub(crate) fn lexed(rt: &impl Abort, alloc: Global, source: &[u8]) -> Tokens {
    assert!(rt; source.len() <= 1000);
    tokens(alloc, source).expect(rt, "no tokens")
}

/// The expression that the tokens begin with, and the token behind it. The one clause spares its callers all else that
/// `expression` promises.
pub(crate) fn read_expression(
    alloc: Global,
    tokens: &Tokens,
    into: &mut Unit,
) -> Option<(NodeId, u32)>
    ensures { IfSome result (λ x. Is into.new is_expression x.0) }
{
    let types = IndexSet::new(alloc);
    let Ok(reader) = type_names(alloc, tokens, 0, tokens.len(), &types, into) else {
        return None;
    };
    match expression(tokens, 0, Level::Comma, 500, &types, into, &reader) {
        Ok(found) => found,
        Err(_) => None,
    }
}

/// The declaration that stands behind the first token, a typedef name, and the token behind it.
fn read_declaration(alloc: Global, tokens: &Tokens, into: &mut Unit) -> Option<(NodeId, u32)>
    ensures { IfSome result (λ x. Is into.new is_declaration x.0) }
{
    let mut types = IndexSet::new(alloc);
    let Ok(_) = types.insert(0) else {
        return None;
    };
    let Ok(reader) = type_names(alloc, tokens, 1, tokens.len(), &types, into) else {
        return None;
    };
    match declaration(tokens, 1, 500, &types, into, &reader) {
        Ok(found) => found,
        Err(_) => None,
    }
}

/// The unit that the tokens are. That it has no clause spares its callers all that `unit` promises.
fn read_unit(alloc: Global, tokens: &Tokens) -> Result<Unit, SynError> {
    unit(alloc, tokens)
}

/// Whether a sum of five tokens is read, the second operand of which is a product.
fn reads_a_sum(alloc: Global, t: &Tokens, trees: &mut Unit) -> bool {
    let Some((n, end)) = read_expression(alloc, t, trees) else {
        return false;
    };
    matches!(trees.expr(n), Expr::Binary(BinaryOperator::Add, _, _))
        && trees.depth(n) == 3
        && end == 5
}

#[test]
fn an_expression_is_read(rt: HostRuntime) {
    let alloc = rt.alloc();
    let t = lexed(&rt, alloc, b"a + b * c");
    let mut trees = Unit::new(alloc);
    assert!(&rt; reads_a_sum(alloc, &t, &mut trees));
}

/// Whether a declaration of 15 tokens is read, an array of arrays and an array of pointers.
fn reads_arrays(alloc: Global, t: &Tokens, trees: &mut Unit) -> bool {
    let Some((n, end)) = read_declaration(alloc, t, trees) else {
        return false;
    };
    trees.depth(n) == 4 && end == 16
}

/// Both are of the type that `t` names.
#[test]
fn a_declaration_is_read(rt: HostRuntime) {
    let alloc = rt.alloc();
    let t = lexed(&rt, alloc, b"t t a[2][3], *b[4];");
    let mut trees = Unit::new(alloc);
    assert!(&rt; reads_arrays(alloc, &t, &mut trees));
}

/// Whether there are two external declarations, the first of which is no function.
fn has_two(trees: &Unit) -> bool {
    if trees.count() != 2 {
        return false;
    }
    let first = trees.external(0);
    trees.is_declaration(first)
}

#[test]
fn a_unit_is_read(rt: HostRuntime) {
    let alloc = rt.alloc();
    let t = lexed(&rt, alloc, b"int a; int f(int n) { return n; }");
    let trees = read_unit(alloc, &t).expect(&rt, "no unit");
    assert!(&rt; has_two(&trees));
}

/// Whether one external declaration is read, and none behind it.
fn ends_early(alloc: Global, t: &Tokens) -> bool {
    matches!(read_unit(alloc, t), Err(SynError::Syntax { whole: 1 }))
}

#[test]
fn what_is_no_unit_is_refused(rt: HostRuntime) {
    let alloc = rt.alloc();
    let t = lexed(&rt, alloc, b"int a; 1; int c;");
    assert!(&rt; ends_early(alloc, &t));
}
