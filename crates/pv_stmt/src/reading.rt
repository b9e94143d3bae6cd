//! Reading a statement from the left, with the statements within it.
ghost use Rattle.pv_tree.specs.Syntax.{NoTrees};
ghost use Rattle.pv_tree.specs.Tables.{tree_at, is_expression, is_item, is_statement, Is};
ghost use Rattle.pv_decl_forms.specs.Pieces.{row};
ghost use Rattle.pv_stmt_forms.specs.Parts.{item_in, block_behind};
ghost use Rattle.pv_stmt_forms.specs.Statements.{statement, selection, else_part, loop, do_loop, for_loop, switch, labels_and_statement, SwitchBlocks, readers, Statements};
ghost use Rattle.pv_expr_forms.specs.Sources.{IsReady};
ghost use Rattle.pv_decl_forms.specs.Sources.{Reads, ReadsRow};

use crate::nodes::ends_open;
use crate::parts::{condition, declared, for_head, labels, plain, returned};
use pv_expr_forms::{Source, begins_type, line_at, peek};
use pv_stmt_forms::{
    Sign, StatementForm, Within, after, block_of, for_node, form_of, found_before, found_statement,
    labelled_of,
};
use pv_token::NoMemory;
use pv_tree::{NodeId, Stmt, TypeReader, Unit};

/// The longest statement of at most so much depth that begins at a place, and the place behind
/// it (C17 6.8).
#[cycle(reading)]
pub(crate) fn statement<R: TypeReader>(
    source: &Source<'_, R>,
    at: u32,
    depth: u32,
    into: &mut Unit,
) -> Result<Option<(NodeId, u32)>, NoMemory>
    requires { IsReady R.types source.now into.old at }
    ensures { Reads R.types source.now at into.old into.new is_statement result (λ names. statement names depth) }
{
    if depth == 0 {
        return Ok(None);
    }
    let Some(token) = peek(source.tokens, at) else {
        return Ok(None);
    };
    let (next, line, below) = (at + 1, token.line, depth - 1);
    match form_of(token.kind) {
        StatementForm::Braces => braced(source, next, Within::Block, line, below, into),
        StatementForm::If => selection(source, next, line, below, into),
        StatementForm::While => while_loop(source, next, line, below, into),
        StatementForm::Do => do_loop(source, next, line, below, into),
        StatementForm::For => for_loop(source, next, line, below, into),
        StatementForm::Switch => switch(source, next, line, below, into),
        StatementForm::Break => {
            found_before(
                source.tokens,
                next,
                Sign::Semicolon,
                Stmt::Break,
                line,
                into,
            )
        }
        StatementForm::Continue => {
            found_before(
                source.tokens,
                next,
                Sign::Semicolon,
                Stmt::Continue,
                line,
                into,
            )
        }
        StatementForm::Return => returned(source, next, line, below, into),
        StatementForm::Plain => plain(source, at, line, below, into),
    }
}

// An `if`, from behind its keyword on (C17 6.8.4.1).
#[cycle(reading)]
fn selection<R: TypeReader>(
    source: &Source<'_, R>,
    at: u32,
    line: u32,
    below: u32,
    into: &mut Unit,
) -> Result<Option<(NodeId, u32)>, NoMemory>
    requires { IsReady R.types source.now into.old at }
    ensures { Reads R.types source.now at into.old into.new is_statement result (λ names. selection names below (readers names below Statements) line) }
{
    let Some((condition, next)) = condition(source, at, below, into)? else {
        return Ok(None);
    };
    match statement(source, next, below, into)? {
        Some((body, end)) => chosen(source, end, condition, body, line, below, into),
        None => Ok(None),
    }
}

// An `if`, once its first statement is read. One that ends with an `if` without `else` is
// followed by no `else`: what stands there was too deep for that `if` (C17 6.8.4.1p3).
#[cycle(reading)]
fn chosen<R: TypeReader>(
    source: &Source<'_, R>,
    at: u32,
    condition: NodeId,
    body: NodeId,
    line: u32,
    below: u32,
    into: &mut Unit,
) -> Result<Option<(NodeId, u32)>, NoMemory>
    requires ready { IsReady R.types source.now into.old at }
    requires condition { Is into.old is_expression condition }
    requires body { Is into.old is_statement body }
    ensures { Reads R.types source.now at into.old into.new is_statement result (λ names. else_part (readers names below Statements) line (tree_at into.old.forest condition) (tree_at into.old.forest body)) }
{
    let alone = Stmt::If(condition, body);
    let Some(next) = after(source.tokens, at, Sign::Else) else {
        return found_statement(source.tokens, at, alone, line, into);
    };
    if ends_open(into, body) {
        return found_statement(source.tokens, at, alone, line, into);
    }
    match statement(source, next, below, into)? {
        Some((other, end)) => {
            let both = Stmt::IfElse(condition, body, other);
            found_statement(source.tokens, end, both, line, into)
        }
        None => found_statement(source.tokens, at, alone, line, into),
    }
}

// A `while`, from behind its keyword on (C17 6.8.5.1).
#[cycle(reading)]
fn while_loop<R: TypeReader>(
    source: &Source<'_, R>,
    at: u32,
    line: u32,
    below: u32,
    into: &mut Unit,
) -> Result<Option<(NodeId, u32)>, NoMemory>
    requires { IsReady R.types source.now into.old at }
    ensures { Reads R.types source.now at into.old into.new is_statement result (λ names. loop names below (readers names below Statements) line) }
{
    let Some((condition, next)) = condition(source, at, below, into)? else {
        return Ok(None);
    };
    match statement(source, next, below, into)? {
        Some((body, end)) => {
            found_statement(source.tokens, end, Stmt::While(condition, body), line, into)
        }
        None => Ok(None),
    }
}

// A `do`, from behind its keyword on (C17 6.8.5.2).
#[cycle(reading)]
fn do_loop<R: TypeReader>(
    source: &Source<'_, R>,
    at: u32,
    line: u32,
    below: u32,
    into: &mut Unit,
) -> Result<Option<(NodeId, u32)>, NoMemory>
    requires { IsReady R.types source.now into.old at }
    ensures { Reads R.types source.now at into.old into.new is_statement result (λ names. do_loop names below (readers names below Statements) line) }
{
    let Some((body, next)) = statement(source, at, below, into)? else {
        return Ok(None);
    };
    let Some(inside) = after(source.tokens, next, Sign::While) else {
        return Ok(None);
    };
    match condition(source, inside, below, into)? {
        Some((value, end)) => {
            let statement = Stmt::DoWhile(body, value);
            found_before(source.tokens, end, Sign::Semicolon, statement, line, into)
        }
        None => Ok(None),
    }
}

// A `for`, from behind its keyword on (C17 6.8.5.3).
#[cycle(reading)]
fn for_loop<R: TypeReader>(
    source: &Source<'_, R>,
    at: u32,
    line: u32,
    below: u32,
    into: &mut Unit,
) -> Result<Option<(NodeId, u32)>, NoMemory>
    requires { IsReady R.types source.now into.old at }
    ensures { Reads R.types source.now at into.old into.new is_statement result (λ names. for_loop names below (readers names below Statements) line) }
{
    let Some((head, next)) = for_head(source, at, below, into)? else {
        return Ok(None);
    };
    match statement(source, next, below, into)? {
        Some((body, end)) => {
            found_statement(source.tokens, end, for_node(head, body), line, into)
        }
        None => Ok(None),
    }
}

// A `switch`, from behind its keyword on, whose body is a block (C17 6.8.4.2).
#[cycle(reading)]
fn switch<R: TypeReader>(
    source: &Source<'_, R>,
    at: u32,
    line: u32,
    below: u32,
    into: &mut Unit,
) -> Result<Option<(NodeId, u32)>, NoMemory>
    requires { IsReady R.types source.now into.old at }
    ensures { Reads R.types source.now at into.old into.new is_statement result (λ names. switch names below (readers names below SwitchBlocks) line) }
{
    let Some((value, next)) = condition(source, at, below, into)? else {
        return Ok(None);
    };
    if below == 0 {
        return Ok(None);
    }
    let Some(inside) = after(source.tokens, next, Sign::OpenBrace) else {
        return Ok(None);
    };
    let first = line_at(source.tokens, next);
    match braced(source, inside, Within::Switch, first, below - 1, into)? {
        Some((block, end)) => {
            found_statement(source.tokens, end, Stmt::Switch(value, block), line, into)
        }
        None => Ok(None),
    }
}

// What braces enclose, from behind `{` on, with the `}` behind it (C17 6.8.2, 6.8.4.2).
#[cycle(reading)]
fn braced<R: TypeReader>(
    source: &Source<'_, R>,
    at: u32,
    within: Within,
    line: u32,
    below: u32,
    into: &mut Unit,
) -> Result<Option<(NodeId, u32)>, NoMemory>
    requires { IsReady R.types source.now into.old at }
    ensures { Reads R.types source.now at into.old into.new is_statement result (λ names. block_behind within names below line) }
{
    let (items, end) = items(source, at, within, below, into)?;
    block_of(source.tokens, end, within, &items, line, into)
}

// The items in a row at a place, and the place behind them (C17 6.8.2p1).
#[cycle(reading)]
fn items<R: TypeReader>(
    source: &Source<'_, R>,
    at: u32,
    within: Within,
    depth: u32,
    into: &mut Unit,
) -> Result<(Vec<NodeId>, u32), NoMemory>
    requires { IsReady R.types source.now into.old at }
    ensures { ReadsRow R.types source.now at into.old into.new is_item result (λ names. row (item_in within names depth) NoTrees) }
{
    let mut items = Vec::new(*source.typedefs.allocator());
    let mut next = at;
    loop {
        let Some((found, end)) = item(source, next, within, depth, into)? else {
            return Ok((items, next));
        };
        items.push(found)?;
        next = end;
    }
}

// A declaration, wherever a token that begins one stands (C17 6.7p1), or a statement.
#[cycle(reading)]
fn item<R: TypeReader>(
    source: &Source<'_, R>,
    at: u32,
    within: Within,
    depth: u32,
    into: &mut Unit,
) -> Result<Option<(NodeId, u32)>, NoMemory>
    requires { IsReady R.types source.now into.old at }
    ensures { Reads R.types source.now at into.old into.new is_item result (λ names. item_in within names depth) }
{
    if begins_type(source.tokens, source.typedefs, at) {
        return declared(source, at, depth, into);
    }
    match within {
        Within::Block => statement(source, at, depth, into),
        Within::Switch => labelled(source, at, depth, into),
    }
}

// A statement, which labels may stand before (C17 6.8.1).
#[cycle(reading)]
fn labelled<R: TypeReader>(
    source: &Source<'_, R>,
    at: u32,
    depth: u32,
    into: &mut Unit,
) -> Result<Option<(NodeId, u32)>, NoMemory>
    requires { IsReady R.types source.now into.old at }
    ensures { Reads R.types source.now at into.old into.new is_statement result (λ names. labels_and_statement names depth (readers names depth Statements)) }
{
    let line = line_at(source.tokens, at);
    let (labels, next) = labels(source, at, depth, into)?;
    let Some((statement, end)) = statement(source, next, depth, into)? else {
        return Ok(None);
    };
    if labels.is_empty() {
        return Ok(Some((statement, end)));
    }
    labelled_of(source.tokens, end, &labels, statement, line, into)
}
