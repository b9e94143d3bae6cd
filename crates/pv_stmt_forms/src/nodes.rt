//! The finished trees of a unit, and statements made of them.
ghost use Rattle.std.specs.Prelude.{◌≡◌, ◌≤◌, ℕ, All, length, Some, option_map};
ghost use Rattle.pv_tree.specs.Children.{HasStmtChildren};
ghost use Rattle.pv_tree.specs.Nodes.{statement_of};
ghost use Rattle.pv_tree.specs.Places.{is_declaration_tree};
ghost use Rattle.pv_tree.specs.Syntax.{Labelled, OfStatement};
ghost use Rattle.pv_tree.specs.Tables.{Forest, Has, HasList, tree_at, declaration_at, statement_at, trees_of, trees_at, is_declaration, is_statement, is_item, Is, Extends};
ghost use Rattle.pv_expr_forms.specs.Reader.{after};
ghost use Rattle.pv_stmt_forms.specs.Parts.{HasHead, test_of, block_tree, for_by};
ghost use Rattle.pv_stmt_forms.specs.Statements.{block_end};
ghost use Rattle.pv_decl_forms.specs.Answers.{AnswersAt};

use crate::forms::{First, ForHead, Sign, Within};
use crate::places::after;
use pv_token::{NoMemory, Tokens};
use pv_tree::{Decl, ListId, NodeId, Stmt, Unit};

/// Whether a node is a whole declaration, and no part or head of one.
pub fn is_declaration(unit: &Unit, n: NodeId) -> bool
    requires { Is unit.now is_declaration n }
    ensures { result ≡ is_declaration_tree (declaration_at unit.now.forest n) }
{
    matches!(unit.decl(n), Decl::Declaration { .. })
}

/// A new statement that ends at a place.
#[inline(always)]
pub fn found_statement(
    tokens: &Tokens,
    next: u32,
    statement: Stmt,
    line: u32,
    into: &mut Unit,
) -> Result<Option<(NodeId, u32)>, NoMemory>
    requires place { next ≤ length tokens.now.tokens }
    requires children { HasStmtChildren into.old.forest (length into.old.forest.trees) statement }
    ensures keeps { Extends into.old into.new }
    ensures ok { AnswersAt into.new is_statement tokens.now.tokens next result (λ ts. Some (OfStatement (statement_of into.old.forest line statement), ts)) }
{
    Ok(Some((into.add_stmt(statement, line)?, next)))
}

/// A new statement that ends behind a sign, if that stands at a place.
#[tactic(auto, using(pv_tree::proofs::Kept::extends_same))]
pub fn found_before(
    tokens: &Tokens,
    at: u32,
    sign: Sign,
    statement: Stmt,
    line: u32,
    into: &mut Unit,
) -> Result<Option<(NodeId, u32)>, NoMemory>
    requires place { at ≤ length tokens.now.tokens }
    requires children { HasStmtChildren into.old.forest (length into.old.forest.trees) statement }
    ensures keeps { Extends into.old into.new }
    ensures ok { AnswersAt into.new is_statement tokens.now.tokens at result (λ ts. option_map (λ rest. (OfStatement (statement_of into.old.forest line statement), rest)) (after (test_of sign) ts)) }
{
    match after(tokens, at, sign) {
        Some(next) => found_statement(tokens, next, statement, line, into),
        None => Ok(None),
    }
}

// The node of braces.
fn block_node(within: Within, items: ListId) -> Stmt
    ensures is { (f : Forest) (line : ℕ) → OfStatement (statement_of f line result) ≡ block_tree within line (trees_at f items) }
    ensures children { (f : Forest) (count : ℕ) → HasList f count is_item items → HasStmtChildren f count result }
{
    match within {
        Within::Block => Stmt::Block(items),
        Within::Switch => Stmt::SwitchBlock(items),
    }
}

/// Braces, whose items end at a place (C17 6.8.2, 6.8.4.2).
#[tactic(auto, using(pv_tree::proofs::Kept::extends_same))]
pub fn block_of(
    tokens: &Tokens,
    at: u32,
    within: Within,
    items: &[NodeId],
    line: u32,
    into: &mut Unit,
) -> Result<Option<(NodeId, u32)>, NoMemory>
    requires place { at ≤ length tokens.now.tokens }
    requires items { All (λ n. Is into.old is_item n) items.now }
    ensures keeps { Extends into.old into.new }
    ensures ok { AnswersAt into.new is_statement tokens.now.tokens at result (λ ts. block_end (block_tree within line) (trees_of into.old.forest items.now, ts)) }
{
    let Some(end) = after(tokens, at, Sign::CloseBrace) else {
        return Ok(None);
    };
    let items = into.add_list(items)?;
    found_statement(tokens, end, block_node(within, items), line, into)
}

/// A statement with labels before it, which ends at a place (C17 6.8.1).
pub fn labelled_of(
    tokens: &Tokens,
    end: u32,
    labels: &[NodeId],
    statement: NodeId,
    line: u32,
    into: &mut Unit,
) -> Result<Option<(NodeId, u32)>, NoMemory>
    requires place { end ≤ length tokens.now.tokens }
    requires labels { All (λ n. Is into.old is_statement n) labels.now }
    requires statement { Is into.old is_statement statement }
    ensures keeps { Extends into.old into.new }
    ensures ok { AnswersAt into.new is_statement tokens.now.tokens end result (λ ts. Some (OfStatement (Labelled line (trees_of into.old.forest labels.now) (statement_at into.old.forest statement)), ts)) }
{
    let labels = into.add_list(labels)?;
    let labelled = Stmt::Labelled { labels, statement };
    found_statement(tokens, end, labelled, line, into)
}

/// The node of a `for` (C17 6.8.5.3).
pub fn for_node(head: ForHead, body: NodeId) -> Stmt
    ensures is { (f : Forest) (line : ℕ) → OfStatement (statement_of f line result) ≡ for_by f line head (tree_at f body) }
    ensures children { (f : Forest) (count : ℕ) → HasHead f count head → Has f count is_statement body → HasStmtChildren f count result }
{
    let condition = head.condition;
    let step = head.step;
    match head.first {
        First::Declaration(declaration) => Stmt::ForDeclaration {
            declaration,
            condition,
            step,
            body,
        },
        First::Expression(first) => Stmt::For {
            first,
            condition,
            step,
            body,
        },
    }
}
