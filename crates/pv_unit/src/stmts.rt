//! Typing statements (C17 6.8).
ghost use Rattle.std.specs.Prelude.{false, ◌≡◌, [], ◌<◌, true, length, IfOk, OnOk};
ghost use Rattle.pv_tree.specs.Tables.{expression_at as expression_of, statement_at as statement_of, tree_at, trees_at, is_expression, is_statement, is_declaration, is_item, Is, HasList, Has, IsOptionalOf};
ghost use Rattle.pv_tree.specs.Syntax.{Block, If, IfElse, While, DoWhile, Switch, Labelled};
ghost use Rattle.pv_tree.specs.TreeLines.{tree_line};
ghost use Rattle.pv_typed.specs.NodeTrees.{IsStatement};
ghost use Rattle.pv_check.specs.Open.{IsOpen, state_in, IfAnswered};
ghost use Rattle.pv_unit.specs.TypedStatements.{typed_statement, typed_items, typed_item, switch_block};
ghost use Rattle.pv_unit.specs.Scoped.{inner, scoped_statement, has_scope, switch_body};
ghost use Rattle.pv_unit.specs.Stated.{around_in, stated_if, items_in, items_if, AreStatements, StatementsOn, Moves, MovesOn};
ghost use Rattle.pv_unit.specs.Switching.{labels_of, HasKeys, body_in, body_if, marked_if};
ghost use Rattle.pv_unit.specs.AtNodes.{IsFor, IsForDeclaration, labelled_statement_at, switch_item_at, switch_items_at};

use crate::adding::{add, add_block, add_declaration, add_round, enter, leave};
use crate::labels::{Labels, all_labels, no_labels, under};
use crate::plain::{
    Place, break_statement, continue_statement, expression_statement, first_declared,
    return_statement,
};
use crate::rows::{
    block_items, condition, labelled_parts, optional_condition, optional_value, switched,
};
use pv_check::Scopes;
use pv_num::IntKind;
use pv_token::Tokens;
use pv_tree::{ListId, NodeId, Stmt, Unit};
use pv_typed::{TypedStmt, TypedUnit};
use pv_types::NoMemory;

/// A statement in a scope of its own (C17 6.8.4p3, 6.8.5p5).
#[cycle(stating)]
fn inner(
    u: &Unit,
    t: &Tokens,
    s: &mut Scopes,
    into: &mut TypedUnit,
    w: Place,
    n: NodeId,
) -> Result<Option<NodeId>, NoMemory>
    requires node { Is u.now is_statement n }
    requires opened { IsOpen into.old s.old }
    requires known { w.result.0 < length into.old.known.terms }
    ensures there { IfAnswered result (IsStatement into.new) }
    ensures moves { IfAnswered result (λ n. Moves into.old s.old into.new s.new) }
    ensures typed { IfOk result (λ r. stated_if t.now.texts s.new into.new r ≡ inner (around_in into.old.known w) (statement_of u.now.forest n) (state_in t.now.texts s.old into.old)) }
{
    enter(s, into)?;
    let Some(made) = statement(u, t, s, into, w, n)? else {
        return Ok(None);
    };
    leave(s, into);
    Ok(Some(made))
}

/// `if` without `else` (C17 6.8.4.1).
#[cycle(stating)]
fn if_statement(
    u: &Unit,
    t: &Tokens,
    s: &mut Scopes,
    into: &mut TypedUnit,
    w: Place,
    n: NodeId,
    a: NodeId,
    body: NodeId,
) -> Result<Option<NodeId>, NoMemory>
    requires node { Is u.now is_statement n }
    requires condition { Is u.now is_expression a }
    requires body { Has u.now.forest n.0 is_statement body }
    requires is { statement_of u.now.forest n ≡ If (tree_line (tree_at u.now.forest n)) (expression_of u.now.forest a) (statement_of u.now.forest body) }
    requires opened { IsOpen into.old s.old }
    requires known { w.result.0 < length into.old.known.terms }
    ensures there { IfAnswered result (IsStatement into.new) }
    ensures moves { IfAnswered result (λ n. Moves into.old s.old into.new s.new) }
    ensures typed { IfOk result (λ r. stated_if t.now.texts s.new into.new r ≡ scoped_statement (around_in into.old.known w) (statement_of u.now.forest n) (state_in t.now.texts s.old into.old)) }
{
    let Some(value) = condition(u, t, s, into, a)? else {
        return Ok(None);
    };
    let Some(taken) = inner(u, t, s, into, w, body)? else {
        return Ok(None);
    };
    let made = add(s, into, TypedStmt::If(value, taken), u.line(n), &[])?;
    Ok(Some(made))
}

/// `if` with `else` (C17 6.8.4.1).
#[cycle(stating)]
fn else_statement(
    u: &Unit,
    t: &Tokens,
    s: &mut Scopes,
    into: &mut TypedUnit,
    w: Place,
    n: NodeId,
    a: NodeId,
    body: NodeId,
    other: NodeId,
) -> Result<Option<NodeId>, NoMemory>
    requires node { Is u.now is_statement n }
    requires condition { Is u.now is_expression a }
    requires body { Has u.now.forest n.0 is_statement body }
    requires other { Has u.now.forest n.0 is_statement other }
    requires is { statement_of u.now.forest n ≡ IfElse (tree_line (tree_at u.now.forest n)) (expression_of u.now.forest a) (statement_of u.now.forest body) (statement_of u.now.forest other) }
    requires opened { IsOpen into.old s.old }
    requires known { w.result.0 < length into.old.known.terms }
    ensures there { IfAnswered result (IsStatement into.new) }
    ensures moves { IfAnswered result (λ n. Moves into.old s.old into.new s.new) }
    ensures typed { IfOk result (λ r. stated_if t.now.texts s.new into.new r ≡ scoped_statement (around_in into.old.known w) (statement_of u.now.forest n) (state_in t.now.texts s.old into.old)) }
{
    let Some(value) = condition(u, t, s, into, a)? else {
        return Ok(None);
    };
    let Some(taken) = inner(u, t, s, into, w, body)? else {
        return Ok(None);
    };
    let Some(otherwise) = inner(u, t, s, into, w, other)? else {
        return Ok(None);
    };
    let made = add(
        s,
        into,
        TypedStmt::IfElse(value, taken, otherwise),
        u.line(n),
        &[],
    )?;
    Ok(Some(made))
}

/// `while` (C17 6.8.5.1).
#[cycle(stating)]
fn while_statement(
    u: &Unit,
    t: &Tokens,
    s: &mut Scopes,
    into: &mut TypedUnit,
    w: Place,
    n: NodeId,
    a: NodeId,
    body: NodeId,
) -> Result<Option<NodeId>, NoMemory>
    requires node { Is u.now is_statement n }
    requires condition { Is u.now is_expression a }
    requires body { Has u.now.forest n.0 is_statement body }
    requires is { statement_of u.now.forest n ≡ While (tree_line (tree_at u.now.forest n)) (expression_of u.now.forest a) (statement_of u.now.forest body) }
    requires opened { IsOpen into.old s.old }
    requires known { w.result.0 < length into.old.known.terms }
    ensures there { IfAnswered result (IsStatement into.new) }
    ensures moves { IfAnswered result (λ n. Moves into.old s.old into.new s.new) }
    ensures typed { IfOk result (λ r. stated_if t.now.texts s.new into.new r ≡ scoped_statement (around_in into.old.known w) (statement_of u.now.forest n) (state_in t.now.texts s.old into.old)) }
{
    let Some(value) = condition(u, t, s, into, a)? else {
        return Ok(None);
    };
    let around = Place {
        result: w.result,
        breaks: true,
        continues: true,
    };
    let Some(repeated) = inner(u, t, s, into, around, body)? else {
        return Ok(None);
    };
    let made = add(s, into, TypedStmt::While(value, repeated), u.line(n), &[])?;
    Ok(Some(made))
}

/// `do` (C17 6.8.5.2).
#[cycle(stating)]
fn do_statement(
    u: &Unit,
    t: &Tokens,
    s: &mut Scopes,
    into: &mut TypedUnit,
    w: Place,
    n: NodeId,
    body: NodeId,
    a: NodeId,
) -> Result<Option<NodeId>, NoMemory>
    requires node { Is u.now is_statement n }
    requires body { Has u.now.forest n.0 is_statement body }
    requires condition { Is u.now is_expression a }
    requires is { statement_of u.now.forest n ≡ DoWhile (tree_line (tree_at u.now.forest n)) (statement_of u.now.forest body) (expression_of u.now.forest a) }
    requires opened { IsOpen into.old s.old }
    requires known { w.result.0 < length into.old.known.terms }
    ensures there { IfAnswered result (IsStatement into.new) }
    ensures moves { IfAnswered result (λ n. Moves into.old s.old into.new s.new) }
    ensures typed { IfOk result (λ r. stated_if t.now.texts s.new into.new r ≡ scoped_statement (around_in into.old.known w) (statement_of u.now.forest n) (state_in t.now.texts s.old into.old)) }
{
    let around = Place {
        result: w.result,
        breaks: true,
        continues: true,
    };
    let Some(repeated) = inner(u, t, s, into, around, body)? else {
        return Ok(None);
    };
    let Some(value) = condition(u, t, s, into, a)? else {
        return Ok(None);
    };
    let made = add(s, into, TypedStmt::DoWhile(repeated, value), u.line(n), &[])?;
    Ok(Some(made))
}

/// `for` with an expression first, or none (C17 6.8.5.3).
#[cycle(stating)]
fn for_statement(
    u: &Unit,
    t: &Tokens,
    s: &mut Scopes,
    into: &mut TypedUnit,
    w: Place,
    n: NodeId,
    first: Option<NodeId>,
    a: Option<NodeId>,
    step: Option<NodeId>,
    body: NodeId,
) -> Result<Option<NodeId>, NoMemory>
    requires node { Is u.now is_statement n }
    requires first { IsOptionalOf u.now is_expression first }
    requires a { IsOptionalOf u.now is_expression a }
    requires step { IsOptionalOf u.now is_expression step }
    requires body { Has u.now.forest n.0 is_statement body }
    requires is { IsFor u.now.forest n first a step body }
    requires opened { IsOpen into.old s.old }
    requires known { w.result.0 < length into.old.known.terms }
    ensures there { IfAnswered result (IsStatement into.new) }
    ensures moves { IfAnswered result (λ n. Moves into.old s.old into.new s.new) }
    ensures typed { IfOk result (λ r. stated_if t.now.texts s.new into.new r ≡ scoped_statement (around_in into.old.known w) (statement_of u.now.forest n) (state_in t.now.texts s.old into.old)) }
{
    let Some(begin) = optional_value(u, t, s, into, first)? else {
        return Ok(None);
    };
    let Some(value) = optional_condition(u, t, s, into, a)? else {
        return Ok(None);
    };
    let Some(next) = optional_value(u, t, s, into, step)? else {
        return Ok(None);
    };
    let around = Place {
        result: w.result,
        breaks: true,
        continues: true,
    };
    let Some(repeated) = inner(u, t, s, into, around, body)? else {
        return Ok(None);
    };
    let x = TypedStmt::For {
        first: begin,
        condition: value,
        step: next,
        body: repeated,
    };
    let made = add(s, into, x, u.line(n), &[])?;
    Ok(Some(made))
}

/// `for` with a declaration (C17 6.8.5.3).
#[cycle(stating)]
fn for_declaration(
    u: &Unit,
    t: &Tokens,
    s: &mut Scopes,
    into: &mut TypedUnit,
    w: Place,
    n: NodeId,
    declaration: NodeId,
    a: Option<NodeId>,
    step: Option<NodeId>,
    body: NodeId,
) -> Result<Option<NodeId>, NoMemory>
    requires node { Is u.now is_statement n }
    requires declaration { Is u.now is_declaration declaration }
    requires a { IsOptionalOf u.now is_expression a }
    requires step { IsOptionalOf u.now is_expression step }
    requires body { Has u.now.forest n.0 is_statement body }
    requires is { IsForDeclaration u.now.forest n declaration a step body }
    requires opened { IsOpen into.old s.old }
    requires known { w.result.0 < length into.old.known.terms }
    ensures there { IfAnswered result (IsStatement into.new) }
    ensures moves { IfAnswered result (λ n. Moves into.old s.old into.new s.new) }
    ensures typed { IfOk result (λ r. stated_if t.now.texts s.new into.new r ≡ scoped_statement (around_in into.old.known w) (statement_of u.now.forest n) (state_in t.now.texts s.old into.old)) }
{
    let mut items = Vec::new(s.allocator());
    if !first_declared(u, t, s, into, declaration, &mut items)? {
        return Ok(None);
    }
    let Some(value) = optional_condition(u, t, s, into, a)? else {
        return Ok(None);
    };
    let Some(next) = optional_value(u, t, s, into, step)? else {
        return Ok(None);
    };
    let around = Place {
        result: w.result,
        breaks: true,
        continues: true,
    };
    let Some(repeated) = inner(u, t, s, into, around, body)? else {
        return Ok(None);
    };
    let made = add_round(s, into, u.line(n), items.as_slice(), value, next, repeated)?;
    Ok(Some(made))
}

/// A block (C17 6.8.2).
#[cycle(stating)]
fn block_statement(
    u: &Unit,
    t: &Tokens,
    s: &mut Scopes,
    into: &mut TypedUnit,
    w: Place,
    n: NodeId,
    list: ListId,
) -> Result<Option<NodeId>, NoMemory>
    requires node { Is u.now is_statement n }
    requires list { HasList u.now.forest n.0 is_item list }
    requires is { statement_of u.now.forest n ≡ Block (tree_line (tree_at u.now.forest n)) (trees_at u.now.forest list) }
    requires opened { IsOpen into.old s.old }
    requires known { w.result.0 < length into.old.known.terms }
    ensures there { IfAnswered result (IsStatement into.new) }
    ensures moves { IfAnswered result (λ n. Moves into.old s.old into.new s.new) }
    ensures typed { IfOk result (λ r. stated_if t.now.texts s.new into.new r ≡ scoped_statement (around_in into.old.known w) (statement_of u.now.forest n) (state_in t.now.texts s.old into.old)) }
{
    let mut items = Vec::new(s.allocator());
    if !all_items(u, t, s, into, w, n, list, &mut items)? {
        return Ok(None);
    }
    let made = add_block(s, into, u.line(n), items.as_slice())?;
    Ok(Some(made))
}

/// One item more of a block (C17 6.8.2p1), behind those that there are.
#[cycle(stating)]
fn item(
    u: &Unit,
    t: &Tokens,
    s: &mut Scopes,
    into: &mut TypedUnit,
    w: Place,
    n: NodeId,
    items: &mut Vec<NodeId>,
) -> Result<bool, NoMemory>
    requires node { Is u.now is_item n }
    requires opened { IsOpen into.old s.old }
    requires known { w.result.0 < length into.old.known.terms }
    requires items { AreStatements into.old items.old.items }
    ensures there { IfOk result (StatementsOn into.new items.new.items) }
    ensures moves { IfOk result (MovesOn into.old s.old into.new s.new) }
    ensures typed { IfOk result (λ b. items_if t.now.texts s.new into.new items.new.items b ≡ typed_item (around_in into.old.known w) (tree_at u.now.forest n) (items_in t.now.texts s.old into.old items.old.items)) }
{
    if u.is_declaration(n) {
        let b = add_declaration(u, t, s, into, n, items)?;
        return Ok(b);
    }
    let Some(made) = statement(u, t, s, into, w, n)? else {
        return Ok(false);
    };
    items.push(made)?;
    Ok(true)
}

/// The items of a block, in their order.
#[cycle(stating)]
pub(crate) fn all_items(
    u: &Unit,
    t: &Tokens,
    s: &mut Scopes,
    into: &mut TypedUnit,
    w: Place,
    n: NodeId,
    list: ListId,
    items: &mut Vec<NodeId>,
) -> Result<bool, NoMemory>
    requires list { HasList u.now.forest n.0 is_item list }
    requires node { Is u.now is_statement n }
    requires opened { IsOpen into.old s.old }
    requires known { w.result.0 < length into.old.known.terms }
    requires empty { items.old.items ≡ [] }
    ensures there { IfOk result (StatementsOn into.new items.new.items) }
    ensures moves { IfOk result (MovesOn into.old s.old into.new s.new) }
    ensures typed { IfOk result (λ b. items_if t.now.texts s.new into.new items.new.items b ≡ typed_items (around_in into.old.known w) (trees_at u.now.forest list) (state_in t.now.texts s.old into.old)) }
{
    let nodes = u.list(list);
    for node in nodes {
        if !item(u, t, s, into, w, *node, items)? {
            return Ok(false);
        }
    }
    Ok(true)
}

/// A statement behind labels, under them (C17 6.8.1).
#[cycle(stating)]
fn under_labels(
    u: &Unit,
    t: &Tokens,
    s: &mut Scopes,
    into: &mut TypedUnit,
    w: Place,
    kind: IntKind,
    n: NodeId,
    list: ListId,
    body: NodeId,
    labels: &mut Labels,
) -> Result<Option<NodeId>, NoMemory>
    requires node { Is u.now is_statement n }
    requires list { HasList u.now.forest n.0 is_statement list }
    requires body { Has u.now.forest n.0 is_statement body }
    requires opened { IsOpen into.old s.old }
    requires known { w.result.0 < length into.old.known.terms }
    requires same { HasKeys labels.old }
    requires is { statement_of u.now.forest n ≡ Labelled (tree_line (tree_at u.now.forest n)) (trees_at u.now.forest list) (statement_of u.now.forest body) }
    ensures there { IfAnswered result (IsStatement into.new) }
    ensures same { OnOk result (HasKeys labels.new) }
    ensures moves { IfAnswered result (λ n. Moves into.old s.old into.new s.new) }
    ensures typed { IfOk result (λ r. marked_if t.now.texts s.new into.new labels.new.all.items r ≡ labelled_statement_at u.now into.old w kind n (labels_of labels.old.all.items) (state_in t.now.texts s.old into.old)) }
{
    let before = labels.all.len();
    if !all_labels(u, t, s, into, kind, list, labels)? {
        return Ok(None);
    }
    let Some(made) = statement(u, t, s, into, w, body)? else {
        return Ok(None);
    };
    let marked = under(s, into, labels.all.as_slice(), before, made)?;
    Ok(Some(marked))
}

/// A statement of a switch's block, with labels or without (C17 6.8.1).
#[cycle(stating)]
fn labelled(
    u: &Unit,
    t: &Tokens,
    s: &mut Scopes,
    into: &mut TypedUnit,
    w: Place,
    kind: IntKind,
    n: NodeId,
    labels: &mut Labels,
) -> Result<Option<NodeId>, NoMemory>
    requires node { Is u.now is_statement n }
    requires opened { IsOpen into.old s.old }
    requires known { w.result.0 < length into.old.known.terms }
    requires same { HasKeys labels.old }
    ensures there { IfAnswered result (IsStatement into.new) }
    ensures same { OnOk result (HasKeys labels.new) }
    ensures moves { IfAnswered result (λ n. Moves into.old s.old into.new s.new) }
    ensures typed { IfOk result (λ r. marked_if t.now.texts s.new into.new labels.new.all.items r ≡ labelled_statement_at u.now into.old w kind n (labels_of labels.old.all.items) (state_in t.now.texts s.old into.old)) }
{
    match labelled_parts(u, n) {
        Some((list, body)) => under_labels(u, t, s, into, w, kind, n, list, body, labels),
        None => {
            let made = statement(u, t, s, into, w, n)?;
            Ok(made)
        }
    }
}

/// One item more of a switch's block, behind those that there are.
#[cycle(stating)]
fn switch_item(
    u: &Unit,
    t: &Tokens,
    s: &mut Scopes,
    into: &mut TypedUnit,
    w: Place,
    kind: IntKind,
    n: NodeId,
    items: &mut Vec<NodeId>,
    labels: &mut Labels,
) -> Result<bool, NoMemory>
    requires node { Is u.now is_item n }
    requires opened { IsOpen into.old s.old }
    requires known { w.result.0 < length into.old.known.terms }
    requires items { AreStatements into.old items.old.items }
    requires same { HasKeys labels.old }
    ensures there { IfOk result (StatementsOn into.new items.new.items) }
    ensures moves { IfOk result (MovesOn into.old s.old into.new s.new) }
    ensures same { OnOk result (HasKeys labels.new) }
    ensures typed { IfOk result (λ b. body_if t.now.texts s.new into.new items.new.items labels.new.all.items b ≡ switch_item_at u.now into.old w kind n (body_in t.now.texts s.old into.old items.old.items labels.old.all.items)) }
{
    if u.is_declaration(n) {
        let b = add_declaration(u, t, s, into, n, items)?;
        return Ok(b);
    }
    let Some(made) = labelled(u, t, s, into, w, kind, n, labels)? else {
        return Ok(false);
    };
    items.push(made)?;
    Ok(true)
}

/// The items of a switch's block, in their order.
#[cycle(stating)]
fn switch_items(
    u: &Unit,
    t: &Tokens,
    s: &mut Scopes,
    into: &mut TypedUnit,
    w: Place,
    kind: IntKind,
    n: NodeId,
    list: ListId,
    items: &mut Vec<NodeId>,
    labels: &mut Labels,
) -> Result<bool, NoMemory>
    requires list { HasList u.now.forest n.0 is_item list }
    requires node { Is u.now is_statement n }
    requires opened { IsOpen into.old s.old }
    requires known { w.result.0 < length into.old.known.terms }
    requires empty { items.old.items ≡ [] }
    requires none { labels.old.all.items ≡ [] }
    requires same { HasKeys labels.old }
    ensures there { IfOk result (StatementsOn into.new items.new.items) }
    ensures moves { IfOk result (MovesOn into.old s.old into.new s.new) }
    ensures typed { IfOk result (λ b. body_if t.now.texts s.new into.new items.new.items labels.new.all.items b ≡ switch_items_at u.now into.old w kind list (state_in t.now.texts s.old into.old)) }
{
    let nodes = u.list(list);
    for node in nodes {
        if !switch_item(u, t, s, into, w, kind, *node, items, labels)? {
            return Ok(false);
        }
    }
    Ok(true)
}

/// The items of a switch's block, in a scope that stands open (C17 6.8.4.2).
#[cycle(stating)]
fn switch_body(
    u: &Unit,
    t: &Tokens,
    s: &mut Scopes,
    into: &mut TypedUnit,
    w: Place,
    kind: IntKind,
    n: NodeId,
) -> Result<Option<NodeId>, NoMemory>
    requires node { Is u.now is_statement n }
    requires opened { IsOpen into.old s.old }
    requires known { w.result.0 < length into.old.known.terms }
    ensures there { IfAnswered result (IsStatement into.new) }
    ensures moves { IfAnswered result (λ n. Moves into.old s.old into.new s.new) }
    ensures typed { IfOk result (λ r. stated_if t.now.texts s.new into.new r ≡ switch_body (around_in into.old.known w) kind (statement_of u.now.forest n) (state_in t.now.texts s.old into.old)) }
{
    let Some(list) = block_items(u, n) else {
        return Ok(None);
    };
    let around = Place {
        result: w.result,
        breaks: true,
        continues: w.continues,
    };
    let mut items = Vec::new(s.allocator());
    let mut labels = no_labels(s.allocator());
    if !switch_items(
        u,
        t,
        s,
        into,
        around,
        kind,
        n,
        list,
        &mut items,
        &mut labels,
    )? {
        return Ok(None);
    }
    let made = add_block(s, into, u.line(n), items.as_slice())?;
    Ok(Some(made))
}

/// The block of a switch (C17 6.8.4.2).
#[cycle(stating)]
fn switch_block(
    u: &Unit,
    t: &Tokens,
    s: &mut Scopes,
    into: &mut TypedUnit,
    w: Place,
    kind: IntKind,
    n: NodeId,
) -> Result<Option<NodeId>, NoMemory>
    requires node { Is u.now is_statement n }
    requires opened { IsOpen into.old s.old }
    requires known { w.result.0 < length into.old.known.terms }
    ensures there { IfAnswered result (IsStatement into.new) }
    ensures moves { IfAnswered result (λ n. Moves into.old s.old into.new s.new) }
    ensures typed { IfOk result (λ r. stated_if t.now.texts s.new into.new r ≡ switch_block (around_in into.old.known w) kind (statement_of u.now.forest n) (state_in t.now.texts s.old into.old)) }
{
    enter(s, into)?;
    let Some(made) = switch_body(u, t, s, into, w, kind, n)? else {
        return Ok(None);
    };
    leave(s, into);
    Ok(Some(made))
}

/// `switch` (C17 6.8.4.2).
#[cycle(stating)]
fn switch_statement(
    u: &Unit,
    t: &Tokens,
    s: &mut Scopes,
    into: &mut TypedUnit,
    w: Place,
    n: NodeId,
    a: NodeId,
    body: NodeId,
) -> Result<Option<NodeId>, NoMemory>
    requires node { Is u.now is_statement n }
    requires condition { Is u.now is_expression a }
    requires body { Has u.now.forest n.0 is_statement body }
    requires is { statement_of u.now.forest n ≡ Switch (tree_line (tree_at u.now.forest n)) (expression_of u.now.forest a) (statement_of u.now.forest body) }
    requires opened { IsOpen into.old s.old }
    requires known { w.result.0 < length into.old.known.terms }
    ensures there { IfAnswered result (IsStatement into.new) }
    ensures moves { IfAnswered result (λ n. Moves into.old s.old into.new s.new) }
    ensures typed { IfOk result (λ r. stated_if t.now.texts s.new into.new r ≡ scoped_statement (around_in into.old.known w) (statement_of u.now.forest n) (state_in t.now.texts s.old into.old)) }
{
    let Some(controlling) = switched(u, t, s, into, a)? else {
        return Ok(None);
    };
    let Some(block) = switch_block(u, t, s, into, w, controlling.kind, body)? else {
        return Ok(None);
    };
    let made = add(
        s,
        into,
        TypedStmt::Switch(controlling.value, block),
        u.line(n),
        &[],
    )?;
    Ok(Some(made))
}

/// A statement that has a scope, within this scope (C17 6.8.2, 6.8.4p3, 6.8.5p5).
#[cycle(stating)]
fn scoped(
    u: &Unit,
    t: &Tokens,
    s: &mut Scopes,
    into: &mut TypedUnit,
    w: Place,
    n: NodeId,
) -> Result<Option<NodeId>, NoMemory>
    requires node { Is u.now is_statement n }
    requires opened { IsOpen into.old s.old }
    requires known { w.result.0 < length into.old.known.terms }
    ensures there { IfAnswered result (IsStatement into.new) }
    ensures moves { IfAnswered result (λ n. Moves into.old s.old into.new s.new) }
    ensures typed { IfOk result (λ r. stated_if t.now.texts s.new into.new r ≡ scoped_statement (around_in into.old.known w) (statement_of u.now.forest n) (state_in t.now.texts s.old into.old)) }
{
    match u.stmt(n) {
        Stmt::Block(list) => block_statement(u, t, s, into, w, n, list),
        Stmt::If(a, body) => if_statement(u, t, s, into, w, n, a, body),
        Stmt::IfElse(a, body, other) => else_statement(u, t, s, into, w, n, a, body, other),
        Stmt::While(a, body) => while_statement(u, t, s, into, w, n, a, body),
        Stmt::DoWhile(body, a) => do_statement(u, t, s, into, w, n, body, a),
        Stmt::For {
            first,
            condition: a,
            step,
            body,
        } => for_statement(u, t, s, into, w, n, first, a, step, body),
        Stmt::ForDeclaration {
            declaration,
            condition: a,
            step,
            body,
        } => for_declaration(u, t, s, into, w, n, declaration, a, step, body),
        Stmt::Switch(a, body) => switch_statement(u, t, s, into, w, n, a, body),
        Stmt::Expr(_)
        | Stmt::Break
        | Stmt::Continue
        | Stmt::Return(_)
        | Stmt::SwitchBlock(_)
        | Stmt::Labelled { .. }
        | Stmt::Case(_)
        | Stmt::Default => Ok(None),
    }
}

/// A statement that has a scope (C17 6.8.2, 6.8.4p3, 6.8.5p5).
#[cycle(stating)]
fn in_scope(
    u: &Unit,
    t: &Tokens,
    s: &mut Scopes,
    into: &mut TypedUnit,
    w: Place,
    n: NodeId,
) -> Result<Option<NodeId>, NoMemory>
    requires node { Is u.now is_statement n }
    requires scope { has_scope (statement_of u.now.forest n) ≡ true }
    requires opened { IsOpen into.old s.old }
    requires known { w.result.0 < length into.old.known.terms }
    ensures there { IfAnswered result (IsStatement into.new) }
    ensures moves { IfAnswered result (λ n. Moves into.old s.old into.new s.new) }
    ensures typed { IfOk result (λ r. stated_if t.now.texts s.new into.new r ≡ typed_statement (around_in into.old.known w) (statement_of u.now.forest n) (state_in t.now.texts s.old into.old)) }
{
    enter(s, into)?;
    let Some(made) = scoped(u, t, s, into, w, n)? else {
        return Ok(None);
    };
    leave(s, into);
    Ok(Some(made))
}

/// A statement (C17 6.8).
#[cycle(stating)]
fn statement(
    u: &Unit,
    t: &Tokens,
    s: &mut Scopes,
    into: &mut TypedUnit,
    w: Place,
    n: NodeId,
) -> Result<Option<NodeId>, NoMemory>
    requires node { Is u.now is_statement n }
    requires opened { IsOpen into.old s.old }
    requires known { w.result.0 < length into.old.known.terms }
    ensures there { IfAnswered result (IsStatement into.new) }
    ensures moves { IfAnswered result (λ n. Moves into.old s.old into.new s.new) }
    ensures typed { IfOk result (λ r. stated_if t.now.texts s.new into.new r ≡ typed_statement (around_in into.old.known w) (statement_of u.now.forest n) (state_in t.now.texts s.old into.old)) }
{
    match u.stmt(n) {
        Stmt::Block(_)
        | Stmt::If(_, _)
        | Stmt::IfElse(_, _, _)
        | Stmt::While(_, _)
        | Stmt::DoWhile(_, _)
        | Stmt::For { .. }
        | Stmt::ForDeclaration { .. }
        | Stmt::Switch(_, _) => in_scope(u, t, s, into, w, n),
        Stmt::Expr(a) => expression_statement(u, t, s, into, w, n, a),
        Stmt::Break => break_statement(u, t, s, into, w, n),
        Stmt::Continue => continue_statement(u, t, s, into, w, n),
        Stmt::Return(a) => return_statement(u, t, s, into, w, n, a),
        Stmt::SwitchBlock(_) | Stmt::Labelled { .. } | Stmt::Case(_) | Stmt::Default => Ok(None),
    }
}
