// Parts of statements.
ghost use Rattle.std.specs.Prelude.{◌≡◌, IfSome, None, Some, true};
ghost use Rattle.pv_typed.specs.Trees.{is_scope_tree};
ghost use Rattle.pv_typed.specs.Nodes.{optional_in};
ghost use Rattle.pv_typed.specs.Tables.{nodes};
ghost use Rattle.pv_typed.specs.NodeTrees.{statement_at, IsExpression, IsStatement};
ghost use Rattle.pv_exec.specs.Parts.{do_of, choice_of, items_of};
ghost use Rattle.pv_exec.specs.Tasks.{returned_of, declarations_of};
ghost use Rattle.pv_exec.specs.Fits.{HasList};
ghost use Rattle.pv_exec.specs.Read.{do_read, choice_read, list_read, items_read, ChoiceFits};

use pv_tree::{ListId, NodeId};
use pv_typed::{TypedStmt, TypedUnit};

/// The parts of a `do`.
#[derive(Clone, Copy)]
pub struct DoParts {
    pub condition: NodeId,
    pub body: NodeId,
}

/// A loop whose condition comes first (C17 6.8.5.1, 6.8.5.3): its statement, its condition and its body.
#[derive(Clone, Copy)]
pub struct RoundParts {
    pub statement: NodeId,
    pub condition: NodeId,
    pub body: NodeId,
}

/// The parts of an `if`.
#[derive(Clone, Copy)]
pub struct ChoiceParts {
    pub condition: NodeId,
    pub body: NodeId,
    pub other: Option<NodeId>,
}

/// The parts of a `do`, where the statement is one (C17 6.8.5.2).
pub fn do_parts(unit: &TypedUnit, n: NodeId) -> Option<DoParts>
    requires there { IsStatement unit.now n }
    ensures value { do_of (statement_at unit.now n) ≡ do_read (nodes unit.now) result }
    ensures there { IfSome result (λ p. IsExpression unit.now p.condition × IsStatement unit.now p.body) }
{
    match unit.statement(n) {
        TypedStmt::DoWhile(body, condition) => Some(DoParts { condition, body }),
        TypedStmt::Block(_) => None,
        TypedStmt::Declare(_) => None,
        TypedStmt::Expression(_) => None,
        TypedStmt::Empty => None,
        TypedStmt::If(_, _) => None,
        TypedStmt::IfElse(_, _, _) => None,
        TypedStmt::Switch(_, _) => None,
        TypedStmt::Case(_, _) => None,
        TypedStmt::Default(_) => None,
        TypedStmt::While(_, _) => None,
        TypedStmt::For {
            first: _,
            condition: _,
            step: _,
            body: _,
        } => None,
        TypedStmt::ForDeclaration {
            declarations: _,
            condition: _,
            step: _,
            body: _,
        } => None,
        TypedStmt::Continue => None,
        TypedStmt::Break => None,
        TypedStmt::Return(_) => None,
    }
}

/// The parts of an `if`, where the statement is one (C17 6.8.4.1).
pub fn choice_parts(unit: &TypedUnit, n: NodeId) -> Option<ChoiceParts>
    requires there { IsStatement unit.now n }
    ensures value { choice_of (statement_at unit.now n) ≡ choice_read (nodes unit.now) result }
    ensures there { IfSome result (ChoiceFits unit.now) }
{
    match unit.statement(n) {
        TypedStmt::If(condition, body) => Some(ChoiceParts {
            condition,
            body,
            other: None,
        }),
        TypedStmt::IfElse(condition, body, y) => Some(ChoiceParts {
            condition,
            body,
            other: Some(y),
        }),
        TypedStmt::Block(_) => None,
        TypedStmt::Declare(_) => None,
        TypedStmt::Expression(_) => None,
        TypedStmt::Empty => None,
        TypedStmt::Switch(_, _) => None,
        TypedStmt::Case(_, _) => None,
        TypedStmt::Default(_) => None,
        TypedStmt::While(_, _) => None,
        TypedStmt::DoWhile(_, _) => None,
        TypedStmt::For {
            first: _,
            condition: _,
            step: _,
            body: _,
        } => None,
        TypedStmt::ForDeclaration {
            declarations: _,
            condition: _,
            step: _,
            body: _,
        } => None,
        TypedStmt::Continue => None,
        TypedStmt::Break => None,
        TypedStmt::Return(_) => None,
    }
}

/// The list of a block, where the statement is one (C17 6.8.2).
pub fn block_items(unit: &TypedUnit, n: NodeId) -> Option<ListId>
    requires there { IsStatement unit.now n }
    ensures value { items_of (statement_at unit.now n) ≡ items_read (nodes unit.now) unit.now.lists (statement_at unit.now n) result }
    ensures there { IfSome result (HasList unit.now) }
    ensures scope { IfSome result (λ l. is_scope_tree (statement_at unit.now n) ≡ true) }
{
    match unit.statement(n) {
        TypedStmt::Block(items) => Some(items),
        TypedStmt::Declare(_) => None,
        TypedStmt::Expression(_) => None,
        TypedStmt::Empty => None,
        TypedStmt::If(_, _) => None,
        TypedStmt::IfElse(_, _, _) => None,
        TypedStmt::Switch(_, _) => None,
        TypedStmt::Case(_, _) => None,
        TypedStmt::Default(_) => None,
        TypedStmt::While(_, _) => None,
        TypedStmt::DoWhile(_, _) => None,
        TypedStmt::For {
            first: _,
            condition: _,
            step: _,
            body: _,
        } => None,
        TypedStmt::ForDeclaration {
            declarations: _,
            condition: _,
            step: _,
            body: _,
        } => None,
        TypedStmt::Continue => None,
        TypedStmt::Break => None,
        TypedStmt::Return(_) => None,
    }
}

/// The value that a `return` passes on, if it has one (C17 6.8.6.4).
pub fn return_value(unit: &TypedUnit, n: NodeId) -> Option<NodeId>
    requires there { IsStatement unit.now n }
    ensures value { returned_of (statement_at unit.now n) ≡ optional_in (nodes unit.now) result }
    ensures there { IfSome result (IsExpression unit.now) }
{
    match unit.statement(n) {
        TypedStmt::Return(value) => value,
        TypedStmt::Block(_) => None,
        TypedStmt::Declare(_) => None,
        TypedStmt::Expression(_) => None,
        TypedStmt::Empty => None,
        TypedStmt::If(_, _) => None,
        TypedStmt::IfElse(_, _, _) => None,
        TypedStmt::Switch(_, _) => None,
        TypedStmt::Case(_, _) => None,
        TypedStmt::Default(_) => None,
        TypedStmt::While(_, _) => None,
        TypedStmt::DoWhile(_, _) => None,
        TypedStmt::For {
            first: _,
            condition: _,
            step: _,
            body: _,
        } => None,
        TypedStmt::ForDeclaration {
            declarations: _,
            condition: _,
            step: _,
            body: _,
        } => None,
        TypedStmt::Continue => None,
        TypedStmt::Break => None,
    }
}

/// The declarations of a `for` that has some (C17 6.8.5.3).
pub fn declarations(unit: &TypedUnit, n: NodeId) -> Option<ListId>
    requires there { IsStatement unit.now n }
    ensures value { declarations_of (statement_at unit.now n) ≡ list_read (nodes unit.now) unit.now.lists result }
    ensures there { IfSome result (HasList unit.now) }
{
    match unit.statement(n) {
        TypedStmt::ForDeclaration {
            declarations,
            condition: _,
            step: _,
            body: _,
        } => Some(declarations),
        TypedStmt::Block(_) => None,
        TypedStmt::Declare(_) => None,
        TypedStmt::Expression(_) => None,
        TypedStmt::Empty => None,
        TypedStmt::If(_, _) => None,
        TypedStmt::IfElse(_, _, _) => None,
        TypedStmt::Switch(_, _) => None,
        TypedStmt::Case(_, _) => None,
        TypedStmt::Default(_) => None,
        TypedStmt::While(_, _) => None,
        TypedStmt::DoWhile(_, _) => None,
        TypedStmt::For {
            first: _,
            condition: _,
            step: _,
            body: _,
        } => None,
        TypedStmt::Continue => None,
        TypedStmt::Break => None,
        TypedStmt::Return(_) => None,
    }
}
