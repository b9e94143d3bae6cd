//! Parts of statements that no statement stands in.
ghost use Rattle.pv_tree.specs.Syntax.{NoTrees};
ghost use Rattle.pv_tree.specs.Tables.{is_declaration, is_expression, is_statement};
ghost use Rattle.pv_expr_forms.specs.Numbers.{level_number};
ghost use Rattle.pv_decl_forms.specs.Pieces.{part_if_any, row};
ghost use Rattle.pv_decl_forms.specs.Reader.{declaration};
ghost use Rattle.pv_stmt_forms.specs.Parts.{test_of, PartAnswers, FirstAnswers, HeadAnswers};
ghost use Rattle.pv_stmt_forms.specs.Statements.{expression, condition, expression_before, simple, return_behind, only_declaration, label};
ghost use Rattle.pv_expr_forms.specs.Sources.{known_names, tokens_from, IsReady, ReadsInto};
ghost use Rattle.pv_decl_forms.specs.Sources.{Reads, ReadsRow, ReadsIfAny};

use pv_expr::Level;
use pv_expr_forms::{Source, begins_type, peek};
use pv_stmt_forms::{
    First, ForHead, LabelWord, Sign, after, found_before, found_statement, is_declaration,
    label_word,
};
use pv_token::NoMemory;
use pv_tree::{NodeId, Stmt, TypeReader, Unit};

/// The expression of a level at a place, and the place behind it (C17 6.5).
fn expression<R: TypeReader>(
    source: &Source<'_, R>,
    at: u32,
    level: Level,
    depth: u32,
    into: &mut Unit,
) -> Result<Option<(NodeId, u32)>, NoMemory>
    requires { IsReady R.types source.now into.old at }
    ensures { Reads R.types source.now at into.old into.new is_expression result (λ names. expression names depth (level_number level)) }
{
    pv_expr::expression(
        source.tokens,
        at,
        level,
        depth,
        source.typedefs,
        into,
        source.reader,
    )
}

/// The expression in parentheses at a place, and the place behind them (C17 6.8.4, 6.8.5).
pub(crate) fn condition<R: TypeReader>(
    source: &Source<'_, R>,
    at: u32,
    depth: u32,
    into: &mut Unit,
) -> Result<Option<(NodeId, u32)>, NoMemory>
    requires { IsReady R.types source.now into.old at }
    ensures { Reads R.types source.now at into.old into.new is_expression result (λ names. condition names depth) }
{
    let Some(inside) = after(source.tokens, at, Sign::OpenParen) else {
        return Ok(None);
    };
    let Some((value, end)) = expression(source, inside, Level::Comma, depth, into)? else {
        return Ok(None);
    };
    match after(source.tokens, end, Sign::CloseParen) {
        Some(next) => Ok(Some((value, next))),
        None => Ok(None),
    }
}

// The expression at a place, if there is one, and the place behind it.
fn optional_expression<R: TypeReader>(
    source: &Source<'_, R>,
    at: u32,
    depth: u32,
    into: &mut Unit,
) -> Result<(Option<NodeId>, u32), NoMemory>
    requires { IsReady R.types source.now into.old at }
    ensures { ReadsIfAny R.types source.now at into.old into.new is_expression result (λ names ts. part_if_any ts (expression names depth 1 ts)) }
{
    match expression(source, at, Level::Comma, depth, into)? {
        Some((value, end)) => Ok((Some(value), end)),
        None => Ok((None, at)),
    }
}

// The expression at a place, if there is one, and the place behind the sign behind it.
fn expression_before<R: TypeReader>(
    source: &Source<'_, R>,
    at: u32,
    sign: Sign,
    depth: u32,
    into: &mut Unit,
) -> Result<Option<(Option<NodeId>, u32)>, NoMemory>
    requires { IsReady R.types source.now into.old at }
    ensures { ReadsInto into.old into.new result (λ r. PartAnswers into.new source.now.tokens.now.tokens r (expression_before (known_names R.types source.now into.old) depth (test_of sign) (tokens_from source.now at))) }
{
    let (value, end) = optional_expression(source, at, depth, into)?;
    match after(source.tokens, end, sign) {
        Some(next) => Ok(Some((value, next))),
        None => Ok(None),
    }
}

/// An expression statement, or `;` alone (C17 6.8.3).
pub(crate) fn plain<R: TypeReader>(
    source: &Source<'_, R>,
    at: u32,
    line: u32,
    depth: u32,
    into: &mut Unit,
) -> Result<Option<(NodeId, u32)>, NoMemory>
    requires { IsReady R.types source.now into.old at }
    ensures { Reads R.types source.now at into.old into.new is_statement result (λ names. simple names depth line) }
{
    match expression_before(source, at, Sign::Semicolon, depth, into)? {
        Some((value, end)) => { found_statement(source.tokens, end, Stmt::Expr(value), line, into) }
        None => Ok(None),
    }
}

/// A `return`, from behind its keyword on (C17 6.8.6.4).
pub(crate) fn returned<R: TypeReader>(
    source: &Source<'_, R>,
    at: u32,
    line: u32,
    depth: u32,
    into: &mut Unit,
) -> Result<Option<(NodeId, u32)>, NoMemory>
    requires { IsReady R.types source.now into.old at }
    ensures { Reads R.types source.now at into.old into.new is_statement result (λ names. return_behind names depth line) }
{
    match expression_before(source, at, Sign::Semicolon, depth, into)? {
        Some((value, end)) => {
            found_statement(source.tokens, end, Stmt::Return(value), line, into)
        }
        None => Ok(None),
    }
}

/// The declaration or the head of a function at a place, and the place behind it (C17 6.7, 6.9.1).
pub(crate) fn declaration<R: TypeReader>(
    source: &Source<'_, R>,
    at: u32,
    depth: u32,
    into: &mut Unit,
) -> Result<Option<(NodeId, u32)>, NoMemory>
    requires { IsReady R.types source.now into.old at }
    ensures { Reads R.types source.now at into.old into.new is_declaration result (λ names. declaration names depth) }
{
    pv_decl::declaration(
        source.tokens,
        at,
        depth,
        source.typedefs,
        into,
        source.reader,
    )
}

/// The declaration at a place, and the place behind it (C17 6.7).
pub(crate) fn declared<R: TypeReader>(
    source: &Source<'_, R>,
    at: u32,
    depth: u32,
    into: &mut Unit,
) -> Result<Option<(NodeId, u32)>, NoMemory>
    requires { IsReady R.types source.now into.old at }
    ensures { Reads R.types source.now at into.old into.new is_declaration result (λ names ts. only_declaration (declaration names depth ts)) }
{
    let Some((node, end)) = declaration(source, at, depth, into)? else {
        return Ok(None);
    };
    if is_declaration(into, node) {
        Ok(Some((node, end)))
    } else {
        Ok(None)
    }
}

// The first part of a `for`, from behind its `(` on (C17 6.8.5p1).
fn for_first<R: TypeReader>(
    source: &Source<'_, R>,
    at: u32,
    depth: u32,
    into: &mut Unit,
) -> Result<Option<(First, u32)>, NoMemory>
    requires { IsReady R.types source.now into.old at }
    ensures { ReadsInto into.old into.new result (λ r. FirstAnswers into.new (known_names R.types source.now into.old) depth source.now.tokens.now.tokens r (tokens_from source.now at)) }
{
    if begins_type(source.tokens, source.typedefs, at) {
        match declared(source, at, depth, into)? {
            Some((declaration, end)) => Ok(Some((First::Declaration(declaration), end))),
            None => Ok(None),
        }
    } else {
        match expression_before(source, at, Sign::Semicolon, depth, into)? {
            Some((first, end)) => Ok(Some((First::Expression(first), end))),
            None => Ok(None),
        }
    }
}

/// What stands before the body of a `for`, from behind its keyword on (C17 6.8.5p1).
pub(crate) fn for_head<R: TypeReader>(
    source: &Source<'_, R>,
    at: u32,
    depth: u32,
    into: &mut Unit,
) -> Result<Option<(ForHead, u32)>, NoMemory>
    requires { IsReady R.types source.now into.old at }
    ensures { ReadsInto into.old into.new result (λ r. HeadAnswers into.new (known_names R.types source.now into.old) depth source.now.tokens.now.tokens r (tokens_from source.now at)) }
{
    let Some(inside) = after(source.tokens, at, Sign::OpenParen) else {
        return Ok(None);
    };
    let Some((first, next)) = for_first(source, inside, depth, into)? else {
        return Ok(None);
    };
    let Some((condition, behind)) = expression_before(source, next, Sign::Semicolon, depth, into)?
    else {
        return Ok(None);
    };
    match expression_before(source, behind, Sign::CloseParen, depth, into)? {
        Some((step, end)) => Ok(Some((
            ForHead {
                first,
                condition,
                step,
            },
            end,
        ))),
        None => Ok(None),
    }
}

// A label at a place, and the place behind it (C17 6.8.1).
fn label<R: TypeReader>(
    source: &Source<'_, R>,
    at: u32,
    depth: u32,
    into: &mut Unit,
) -> Result<Option<(NodeId, u32)>, NoMemory>
    requires { IsReady R.types source.now into.old at }
    ensures { Reads R.types source.now at into.old into.new is_statement result (λ names. label names depth) }
{
    let Some(token) = peek(source.tokens, at) else {
        return Ok(None);
    };
    let Some(word) = label_word(token.kind) else {
        return Ok(None);
    };
    let next = at + 1;
    match word {
        LabelWord::Case => match expression(source, next, Level::Conditional, depth, into)? {
            Some((value, end)) => {
                let label = Stmt::Case(value);
                found_before(source.tokens, end, Sign::Colon, label, token.line, into)
            }
            None => Ok(None),
        },
        LabelWord::Default => {
            let label = Stmt::Default;
            found_before(source.tokens, next, Sign::Colon, label, token.line, into)
        }
    }
}

/// The labels in a row at a place, and the place behind them (C17 6.8.1).
pub(crate) fn labels<R: TypeReader>(
    source: &Source<'_, R>,
    at: u32,
    depth: u32,
    into: &mut Unit,
) -> Result<(Vec<NodeId>, u32), NoMemory>
    requires { IsReady R.types source.now into.old at }
    ensures { ReadsRow R.types source.now at into.old into.new is_statement result (λ names. row (label names depth) NoTrees) }
{
    let mut labels = Vec::new(*source.typedefs.allocator());
    let mut next = at;
    loop {
        let Some((found, end)) = label(source, next, depth, into)? else {
            return Ok((labels, next));
        };
        labels.push(found)?;
        next = end;
    }
}
