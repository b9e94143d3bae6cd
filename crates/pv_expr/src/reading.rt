//! Reading an expression from the left, by the levels of its operators.
ghost use Rattle.std.specs.Prelude.{Some, option_and_then};
ghost use Rattle.pv_tree.specs.Tables.{expression_at, is_expression, Is};
ghost use Rattle.pv_expr_forms.specs.Reader.{read, head, longest_tree, longer_tree, third_operand, call_behind, sizeof_named_type};
ghost use Rattle.pv_expr_forms.specs.Sources.{IsReady, Reads};

use crate::nodes::{
    call, combined, enclosed, follow_at, found, is_looser, leaf, line_of, operand_level, suffixed,
};
use crate::openings::{opening_at, type_closed};
use pv_expr_forms::{
    Follow, Source, after_close, after_colon, is_close, is_comma, measures_type, peek,
};
use pv_token::NoMemory;
use pv_tree::{Expr, NodeId, TypeReader, Unit};

/// The longest tree of a level and of at most so much depth that begins at a place, and the
/// place behind it.
#[cycle(reading)]
pub(crate) fn read_tree<R: TypeReader>(
    source: &Source<'_, R>,
    at: u32,
    level: u8,
    depth: u32,
    into: &mut Unit,
) -> Result<Option<(NodeId, u32)>, NoMemory>
    requires { IsReady R.types source.now into.old at }
    ensures { Reads R.types source.now at into.old into.new result (λ names. read names depth level) }
{
    if depth == 0 {
        return Ok(None);
    }
    let below = depth - 1;
    match read_head(source, at, below, into)? {
        None => Ok(None),
        Some((first, next)) => {
            if is_looser(into, first, level) {
                return Ok(None);
            }
            grow(source, next, first, level, below, into)
        }
    }
}

// A tree that nothing went on from yet (C17 6.5.1, 6.5.3, 6.5.4).
#[cycle(reading)]
fn read_head<R: TypeReader>(
    source: &Source<'_, R>,
    at: u32,
    below: u32,
    into: &mut Unit,
) -> Result<Option<(NodeId, u32)>, NoMemory>
    requires { IsReady R.types source.now into.old at }
    ensures { Reads R.types source.now at into.old into.new result (λ names. head names (read names below) below) }
{
    let Some(token) = peek(source.tokens, at) else {
        return Ok(None);
    };
    let next = at + 1;
    if measures_type(source.tokens, source.typedefs, token.kind, next) {
        return measure(source, next + 1, token.line, below, into);
    }
    let Some((form, start)) = opening_at(source, token.kind, next, below, into) else {
        return leaf(source.tokens, source.typedefs, next, token, into);
    };
    match read_tree(source, start, form.operand(), below, into)? {
        Some((operand, end)) => enclosed(source.tokens, end, form, operand, token.line, into),
        None => Ok(None),
    }
}

// The size of a type, whose name is behind the parenthesis (C17 6.5.3.4).
fn measure<R: TypeReader>(
    source: &Source<'_, R>,
    at: u32,
    line: u32,
    below: u32,
    into: &mut Unit,
) -> Result<Option<(NodeId, u32)>, NoMemory>
    requires { IsReady R.types source.now into.old at }
    ensures { Reads R.types source.now at into.old into.new result (λ names ts. option_and_then (λ x. sizeof_named_type below line x.0 x.1) (names.type_at ts)) }
{
    match type_closed(source, at, below, into) {
        Some((name, next)) => { found(source.tokens, next, Expr::SizeofType(name), line, into) }
        None => Ok(None),
    }
}

// The longest tree of a level that begins with a tree.
#[cycle(reading)]
fn grow<R: TypeReader>(
    source: &Source<'_, R>,
    at: u32,
    first: NodeId,
    level: u8,
    below: u32,
    into: &mut Unit,
) -> Result<Option<(NodeId, u32)>, NoMemory>
    requires ready { IsReady R.types source.now into.old at }
    requires node { Is into.old is_expression first }
    ensures { Reads R.types source.now at into.old into.new result
        (λ names ts. Some (longest_tree names (read names below) level below (expression_at into.old.forest first) ts)) }
{
    let mut left = first;
    let mut next = at;
    loop {
        match extend(source, next, left, level, below, into)? {
            Some((longer, end)) => {
                left = longer;
                next = end;
            }
            None => return Ok(Some((left, next))),
        }
    }
}

// The next longer tree of a level that begins with a tree (C17 6.5.2, 6.5.5 to 6.5.17).
#[cycle(reading)]
fn extend<R: TypeReader>(
    source: &Source<'_, R>,
    at: u32,
    left: NodeId,
    level: u8,
    below: u32,
    into: &mut Unit,
) -> Result<Option<(NodeId, u32)>, NoMemory>
    requires ready { IsReady R.types source.now into.old at }
    requires node { Is into.old is_expression left }
    ensures { Reads R.types source.now at into.old into.new result
        (λ names. longer_tree names (read names below) level below (expression_at into.old.forest left)) }
{
    let Some(follow) = follow_at(source.tokens, at, left, level, below, into) else {
        return Ok(None);
    };
    match operand_level(follow) {
        None => match follow {
            Follow::Call => arguments(source, at + 1, left, below, into),
            _ => suffixed(source.tokens, source.typedefs, at + 1, left, follow, into),
        },
        Some(tightness) => match read_tree(source, at + 1, tightness, below, into)? {
            None => Ok(None),
            Some((operand, next)) => match follow {
                Follow::Ask => ask(source, next, left, operand, below, into),
                _ => combined(source.tokens, next, left, operand, follow, into),
            },
        },
    }
}

// A conditional expression, whose middle operand ends at the place (C17 6.5.15).
#[cycle(reading)]
#[tactic(auto, unfolding(pv_expr_forms::specs::Reader::third_operand))]
fn ask<R: TypeReader>(
    source: &Source<'_, R>,
    at: u32,
    condition: NodeId,
    yes: NodeId,
    below: u32,
    into: &mut Unit,
) -> Result<Option<(NodeId, u32)>, NoMemory>
    requires ready { IsReady R.types source.now into.old at }
    requires condition { Is into.old is_expression condition }
    requires yes { Is into.old is_expression yes }
    ensures { Reads R.types source.now at into.old into.new result (λ names. third_operand (read names below) (expression_at into.old.forest condition) (expression_at into.old.forest yes)) }
{
    let Some(next) = after_colon(source.tokens, at) else {
        return Ok(None);
    };
    match read_tree(source, next, 3, below, into)? {
        Some((no, end)) => {
            let line = line_of(into, condition);
            found(
                source.tokens,
                end,
                Expr::Conditional(condition, yes, no),
                line,
                into,
            )
        }
        None => Ok(None),
    }
}

// A call, whose arguments begin at the place (C17 6.5.2.2).
#[cycle(reading)]
fn arguments<R: TypeReader>(
    source: &Source<'_, R>,
    at: u32,
    callee: NodeId,
    below: u32,
    into: &mut Unit,
) -> Result<Option<(NodeId, u32)>, NoMemory>
    requires ready { IsReady R.types source.now into.old at }
    requires node { Is into.old is_expression callee }
    ensures { Reads R.types source.now at into.old into.new result (λ names. call_behind (read names below) (expression_at into.old.forest callee)) }
{
    if let Some(next) = after_close(source.tokens, at) {
        return call(source.tokens, next, callee, &[], into);
    }
    let mut list = Vec::new(*source.typedefs.allocator());
    let mut next = at;
    loop {
        let Some((argument, end)) = read_tree(source, next, 2, below, into)? else {
            return Ok(None);
        };
        list.push(argument)?;
        let Some(token) = peek(source.tokens, end) else {
            return Ok(None);
        };
        if is_comma(token.kind) {
            next = end + 1;
            continue;
        }
        if is_close(token.kind) {
            return call(source.tokens, end + 1, callee, &list, into);
        }
        return Ok(None);
    }
}
