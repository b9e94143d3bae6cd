//! Statements that hold no statements (C17 6.8.3, 6.8.6), and the declaration of a `for`.
ghost use Rattle.std.specs.Prelude.{false, ◌≡◌, [], ◌<◌, length, IfOk, OnOk};
ghost use Rattle.pv_tree.specs.Tables.{statement_at as statement_of, declaration_at, tree_at, optional_at, is_expression, is_statement, is_declaration, Is, IsOptionalOf};
ghost use Rattle.pv_tree.specs.Syntax.{ExpressionStatement, Break, Continue, Return};
ghost use Rattle.pv_tree.specs.TreeLines.{tree_line};
ghost use Rattle.pv_typed.specs.NodeTrees.{statement_at, IsStatement};
ghost use Rattle.pv_check.specs.Open.{IsOpen, EntryKnown, Texts, state_in, KeepsState, IfAnswered};
ghost use Rattle.pv_check.specs.Raw.{meaning_in};
ghost use Rattle.pv_typed.specs.Constants.{and_then};
ghost use Rattle.pv_unit.specs.Blocks.{block_declaration};
ghost use Rattle.pv_unit.specs.Statements.{is_automatic};
ghost use Rattle.pv_unit.specs.StatementParts.{automatic_alone};
ghost use Rattle.pv_unit.specs.TypedStatements.{if_automatic, typed_statement};
ghost use Rattle.pv_unit.specs.Made.{expression_of};
ghost use Rattle.pv_unit.specs.Stated.{around_in, optional_in, stated_if, items_if, IsOptional, StatementsOn, Moves, MovesOn};

use crate::adding::{add, add_declaration};
use crate::rows::{nothing_returned, optional_value, value_returned};
use pv_check::{Entry, Scopes};
use pv_token::Tokens;
use pv_tree::{NodeId, Unit};
use pv_typed::{TypedStmt, TypedUnit};
use pv_types::{NoMemory, TypeId};

/// Where a statement stands.
#[derive(Clone, Copy)]
pub(crate) struct Place {
    /// The type that its function returns.
    pub(crate) result: TypeId,
    /// Whether a `break` has something to leave.
    pub(crate) breaks: bool,
    /// Whether a `continue` has.
    pub(crate) continues: bool,
}

/// Adds an expression statement, or an empty one (C17 6.8.3).
fn add_expression(
    s: &Scopes,
    into: &mut TypedUnit,
    value: Option<NodeId>,
    line: u32,
) -> Result<NodeId, NoMemory>
    requires opened { IsOpen into.old s.now }
    requires value { IsOptional into.old value }
    ensures there { IfOk result (IsStatement into.new) }
    ensures tree { IfOk result (λ n. statement_at into.new n ≡ expression_of line (optional_in into.old value)) }
    ensures state { OnOk result (KeepsState s.now into.old into.new) }
    ensures moves { OnOk result (Moves into.old s.now into.new s.now) }
{
    match value {
        Some(e) => add(s, into, TypedStmt::Expression(e), line, &[]),
        None => add(s, into, TypedStmt::Empty, line, &[]),
    }
}

/// An expression statement, or `;` alone (C17 6.8.3).
pub(crate) fn expression_statement(
    u: &Unit,
    t: &Tokens,
    s: &mut Scopes,
    into: &mut TypedUnit,
    w: Place,
    n: NodeId,
    a: Option<NodeId>,
) -> Result<Option<NodeId>, NoMemory>
    requires node { Is u.now is_statement n }
    requires a { IsOptionalOf u.now is_expression a }
    requires is { statement_of u.now.forest n ≡ ExpressionStatement (tree_line (tree_at u.now.forest n)) (optional_at u.now.forest a) }
    requires opened { IsOpen into.old s.old }
    requires known { w.result.0 < length into.old.known.terms }
    ensures there { IfAnswered result (IsStatement into.new) }
    ensures moves { IfAnswered result (λ n. Moves into.old s.old into.new s.new) }
    ensures typed { IfOk result (λ r. stated_if t.now.texts s.new into.new r ≡ typed_statement (around_in into.old.known w) (statement_of u.now.forest n) (state_in t.now.texts s.old into.old)) }
{
    let Some(value) = optional_value(u, t, s, into, a)? else {
        return Ok(None);
    };
    let made = add_expression(s, into, value, u.line(n))?;
    Ok(Some(made))
}

/// `break` (C17 6.8.6.3).
pub(crate) fn break_statement(
    u: &Unit,
    t: &Tokens,
    s: &mut Scopes,
    into: &mut TypedUnit,
    w: Place,
    n: NodeId,
) -> Result<Option<NodeId>, NoMemory>
    requires node { Is u.now is_statement n }
    requires is { statement_of u.now.forest n ≡ Break (tree_line (tree_at u.now.forest n)) }
    requires opened { IsOpen into.old s.old }
    requires known { w.result.0 < length into.old.known.terms }
    ensures there { IfAnswered result (IsStatement into.new) }
    ensures moves { IfAnswered result (λ n. Moves into.old s.old into.new s.new) }
    ensures typed { IfOk result (λ r. stated_if t.now.texts s.new into.new r ≡ typed_statement (around_in into.old.known w) (statement_of u.now.forest n) (state_in t.now.texts s.old into.old)) }
{
    if w.breaks {
        let made = add(s, into, TypedStmt::Break, u.line(n), &[])?;
        Ok(Some(made))
    } else {
        Ok(None)
    }
}

/// `continue` (C17 6.8.6.2).
pub(crate) fn continue_statement(
    u: &Unit,
    t: &Tokens,
    s: &mut Scopes,
    into: &mut TypedUnit,
    w: Place,
    n: NodeId,
) -> Result<Option<NodeId>, NoMemory>
    requires node { Is u.now is_statement n }
    requires is { statement_of u.now.forest n ≡ Continue (tree_line (tree_at u.now.forest n)) }
    requires opened { IsOpen into.old s.old }
    requires known { w.result.0 < length into.old.known.terms }
    ensures there { IfAnswered result (IsStatement into.new) }
    ensures moves { IfAnswered result (λ n. Moves into.old s.old into.new s.new) }
    ensures typed { IfOk result (λ r. stated_if t.now.texts s.new into.new r ≡ typed_statement (around_in into.old.known w) (statement_of u.now.forest n) (state_in t.now.texts s.old into.old)) }
{
    if w.continues {
        let made = add(s, into, TypedStmt::Continue, u.line(n), &[])?;
        Ok(Some(made))
    } else {
        Ok(None)
    }
}

/// `return` (C17 6.8.6.4).
pub(crate) fn return_statement(
    u: &Unit,
    t: &Tokens,
    s: &mut Scopes,
    into: &mut TypedUnit,
    w: Place,
    n: NodeId,
    a: Option<NodeId>,
) -> Result<Option<NodeId>, NoMemory>
    requires node { Is u.now is_statement n }
    requires a { IsOptionalOf u.now is_expression a }
    requires is { statement_of u.now.forest n ≡ Return (tree_line (tree_at u.now.forest n)) (optional_at u.now.forest a) }
    requires opened { IsOpen into.old s.old }
    requires known { w.result.0 < length into.old.known.terms }
    ensures there { IfAnswered result (IsStatement into.new) }
    ensures moves { IfAnswered result (λ n. Moves into.old s.old into.new s.new) }
    ensures typed { IfOk result (λ r. stated_if t.now.texts s.new into.new r ≡ typed_statement (around_in into.old.known w) (statement_of u.now.forest n) (state_in t.now.texts s.old into.old)) }
{
    let line = u.line(n);
    match a {
        Some(value) => {
            let r = value_returned(u, t, s, into, w.result, line, value)?;
            Ok(r)
        }
        None => {
            let r = nothing_returned(s, into, w.result, line)?;
            Ok(r)
        }
    }
}

/// Whether a name designates an automatic object.
fn is_automatic(s: &Scopes, into: &TypedUnit, what: Entry) -> bool
    requires opened { IsOpen into.now s.now }
    requires known { EntryKnown into.now what }
    ensures { (texts : Texts) → result ≡ is_automatic (state_in texts s.now into.now) (meaning_in into.now.known what) }
{
    match what {
        Entry::Object(o) => !into.object(o).lasting,
        Entry::Function(_) | Entry::Typedef(_) | Entry::Constant(_) => false,
    }
}

/// Whether the innermost scope declares nothing but automatic objects.
fn automatic_alone(s: &Scopes, into: &TypedUnit) -> bool
    requires { IsOpen into.now s.now }
    ensures { (texts : Texts) → result ≡ automatic_alone (state_in texts s.now into.now) }
{
    for i in 0..s.bound() {
        let Some(what) = s.inner_at(i as usize) else {
            return false;
        };
        if !is_automatic(s, into, what) {
            return false;
        }
    }
    true
}

/// The declaration of a `for`, which declares automatic objects alone (C17 6.8.5p3).
pub(crate) fn first_declared(
    u: &Unit,
    t: &Tokens,
    s: &mut Scopes,
    into: &mut TypedUnit,
    d: NodeId,
    items: &mut Vec<NodeId>,
) -> Result<bool, NoMemory>
    requires node { Is u.now is_declaration d }
    requires opened { IsOpen into.old s.old }
    requires none { items.old.items ≡ [] }
    ensures there { IfOk result (StatementsOn into.new items.new.items) }
    ensures moves { IfOk result (MovesOn into.old s.old into.new s.new) }
    ensures typed { IfOk result (λ b. items_if t.now.texts s.new into.new items.new.items b ≡ and_then (block_declaration (declaration_at u.now.forest d) (state_in t.now.texts s.old into.old)) if_automatic) }
{
    if !add_declaration(u, t, s, into, d, items)? {
        return Ok(false);
    }
    Ok(automatic_alone(s, into))
}
