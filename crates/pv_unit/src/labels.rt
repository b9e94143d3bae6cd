//! Labels of a switch (C17 6.8.1, 6.8.4.2).
ghost use Rattle.std.specs.Prelude.{false, ◌≡◌, ◌<◌, ◌++◌, ◌∷◌, [], ◌≤◌, if◌then◌else◌, not, length, map, drop, IfOk, OnOk};
ghost use Rattle.pv_tree.specs.Tables.{statement_at as statement_of, trees_at, expression_at as expression_of, is_expression, is_statement, Is, IsListOf};
ghost use Rattle.pv_typed.specs.NodeTrees.{statement_at, expression_at, IsExpression, IsStatement};
ghost use Rattle.pv_check.specs.Open.{IsOpen, Texts, state_in, KeepsState, IfAnswered};
ghost use Rattle.pv_typed.specs.Constants.{and_then};
ghost use Rattle.pv_unit.specs.Stated.{Moves, MovesOn};
ghost use Rattle.pv_unit.specs.Statements.{taken_value, typed_label, under};
ghost use Rattle.pv_unit.specs.StatementParts.{case_label, stands};
ghost use Rattle.pv_unit.specs.Switching.{label_of, labels_of, key_of, HasKeys, label_if, labels_if, label_behind, labels_behind};

use crate::adding::add as add_statement;
use crate::rows::value_of;
use indexmap::IndexSet;
use pv_check::Scopes;
use pv_num::{IntKind, convert};
use pv_token::Tokens;
use pv_tree::{ListId, NodeId, Stmt, Unit};
use pv_typed::{TypedStmt, TypedUnit, integer};
use pv_types::NoMemory;
use std::alloc::Global;

/// A label of a switch.
#[derive(Clone, Copy)]
pub(crate) enum Label {
    /// `case`, with its value in the type of the switch.
    Case { line: u32, value: i128 },
    /// `default`.
    Default { line: u32 },
}

/// The labels of a switch, as far as they were seen, and the set of what they are.
#[derive(Drop)]
pub(crate) struct Labels {
    pub(crate) all: Vec<Label>,
    pub(crate) keys: IndexSet<Option<i128>>,
}

/// No labels.
pub(crate) fn no_labels(alloc: Global) -> Labels
    ensures none { result.all.items ≡ [] }
    ensures same { HasKeys result }
{
    Labels {
        all: Vec::new(alloc),
        keys: IndexSet::new(alloc),
    }
}

/// What two labels that are one share: the value of a `case`.
fn key_of(l: Label) -> Option<i128>
    ensures { result ≡ key_of l }
{
    match l {
        Label::Case { line: _, value } => Some(value),
        Label::Default { .. } => None,
    }
}

/// One label more, if it is not among them.
fn add(labels: &mut Labels, l: Label) -> Result<bool, NoMemory>
    requires same { HasKeys labels.old }
    ensures same { OnOk result (HasKeys labels.new) }
    ensures new { IfOk result (λ b. b ≡ not (stands (label_of l) (map label_of labels.old.all.items))) }
    ensures all { IfOk result (λ b. labels.new.all.items ≡ (if b then labels.old.all.items ++ (l ∷ []) else labels.old.all.items)) }
{
    let (_, added) = labels.keys.insert_full(key_of(l))?;
    if added {
        labels.all.push(l)?;
    }
    Ok(added)
}

/// The value of a label, converted to the type of the switch (C17 6.8.4.2p5).
fn case_label(
    s: &Scopes,
    into: &TypedUnit,
    kind: IntKind,
    line: u32,
    value: NodeId,
) -> Option<Label>
    requires opened { IsOpen into.now s.now }
    requires node { IsExpression into.now value }
    ensures { (texts : Texts) → label_if texts s.now into.now result ≡ case_label kind line (record { value = expression_at into.now value; state = state_in texts s.now into.now }) }
{
    match integer(into, value) {
        Some(number) => Some(Label::Case {
            line,
            value: convert(kind, number),
        }),
        None => None,
    }
}

/// `case` with its constant (C17 6.8.4.2p3).
fn constant_label(
    u: &Unit,
    t: &Tokens,
    s: &mut Scopes,
    into: &mut TypedUnit,
    kind: IntKind,
    line: u32,
    a: NodeId,
) -> Result<Option<Label>, NoMemory>
    requires node { Is u.now is_expression a }
    requires opened { IsOpen into.old s.old }
    ensures moves { IfAnswered result (λ l. Moves into.old s.old into.new s.new) }
    ensures typed { IfOk result (λ r. label_if t.now.texts s.new into.new r ≡ and_then (taken_value (expression_of u.now.forest a) (state_in t.now.texts s.old into.old)) (case_label kind line)) }
{
    let Some(value) = value_of(u, t, s, into, a)? else {
        return Ok(None);
    };
    Ok(case_label(s, into, kind, line, value))
}

/// A label, whose constant is converted to the type of the switch.
fn one_label(
    u: &Unit,
    t: &Tokens,
    s: &mut Scopes,
    into: &mut TypedUnit,
    kind: IntKind,
    n: NodeId,
) -> Result<Option<Label>, NoMemory>
    requires node { Is u.now is_statement n }
    requires opened { IsOpen into.old s.old }
    ensures moves { IfAnswered result (λ l. Moves into.old s.old into.new s.new) }
    ensures typed { IfOk result (λ r. label_if t.now.texts s.new into.new r ≡ typed_label kind (statement_of u.now.forest n) (state_in t.now.texts s.old into.old)) }
{
    let line = u.line(n);
    match u.stmt(n) {
        Stmt::Case(a) => {
            let r = constant_label(u, t, s, into, kind, line, a)?;
            Ok(r)
        }
        Stmt::Default => Ok(Some(Label::Default { line })),
        Stmt::Block(_)
        | Stmt::Expr(_)
        | Stmt::If(_, _)
        | Stmt::IfElse(_, _, _)
        | Stmt::While(_, _)
        | Stmt::DoWhile(_, _)
        | Stmt::For { .. }
        | Stmt::ForDeclaration { .. }
        | Stmt::Switch(_, _)
        | Stmt::SwitchBlock(_)
        | Stmt::Labelled { .. }
        | Stmt::Break
        | Stmt::Continue
        | Stmt::Return(_) => Ok(None),
    }
}

/// A statement under the labels from a place on.
pub(crate) fn under(
    s: &Scopes,
    into: &mut TypedUnit,
    labels: &[Label],
    from: usize,
    body: NodeId,
) -> Result<NodeId, NoMemory>
    requires opened { IsOpen into.old s.now }
    requires body { IsStatement into.old body }
    requires place { from ≤ length labels.now }
    ensures there { IfOk result (IsStatement into.new) }
    ensures tree { IfOk result (λ n. statement_at into.new n ≡ under (labels_of (drop from labels.now)) (statement_at into.old body)) }
    ensures state { OnOk result (KeepsState s.now into.old into.new) }
    ensures moves { OnOk result (Moves into.old s.now into.new s.now) }
{
    let mut node = body;
    let mut at = labels.len();
    while at > from {
        at -= 1;
        node = match labels[at] {
            Label::Case { line, value } => {
                add_statement(s, into, TypedStmt::Case(value, node), line, &[])?
            }
            Label::Default { line } => {
                add_statement(s, into, TypedStmt::Default(node), line, &[])?
            }
        };
    }
    Ok(node)
}

/// One label more, if the switch doesn't have it yet (C17 6.8.4.2p3).
fn further(
    u: &Unit,
    t: &Tokens,
    s: &mut Scopes,
    into: &mut TypedUnit,
    kind: IntKind,
    n: NodeId,
    labels: &mut Labels,
) -> Result<bool, NoMemory>
    requires node { Is u.now is_statement n }
    requires opened { IsOpen into.old s.old }
    requires same { HasKeys labels.old }
    ensures same { OnOk result (HasKeys labels.new) }
    ensures moves { IfOk result (MovesOn into.old s.old into.new s.new) }
    ensures typed { IfOk result (λ b. labels_if t.now.texts s.new into.new labels.new.all.items b ≡ label_behind kind (labels_of labels.old.all.items) (statement_of u.now.forest n) (state_in t.now.texts s.old into.old)) }
{
    let Some(found) = one_label(u, t, s, into, kind, n)? else {
        return Ok(false);
    };
    let added = add(labels, found)?;
    Ok(added)
}

/// The labels of a statement, behind those that the switch has.
pub(crate) fn all_labels(
    u: &Unit,
    t: &Tokens,
    s: &mut Scopes,
    into: &mut TypedUnit,
    kind: IntKind,
    list: ListId,
    labels: &mut Labels,
) -> Result<bool, NoMemory>
    requires list { IsListOf u.now is_statement list }
    requires opened { IsOpen into.old s.old }
    requires same { HasKeys labels.old }
    ensures same { OnOk result (HasKeys labels.new) }
    ensures moves { IfOk result (MovesOn into.old s.old into.new s.new) }
    ensures typed { IfOk result (λ b. labels_if t.now.texts s.new into.new labels.new.all.items b ≡ labels_behind kind (labels_of labels.old.all.items) (trees_at u.now.forest list) (state_in t.now.texts s.old into.old)) }
{
    let nodes = u.list(list);
    for node in nodes {
        if !further(u, t, s, into, kind, *node, labels)? {
            return Ok(false);
        }
    }
    Ok(true)
}
