//! Statements added to the tables of a unit (C17 6.8).
ghost use Rattle.std.specs.Prelude.{◌≡◌, ◌<◌, ◌+◌, ◌++◌, ◌∷◌, [], false, map, length, IfOk, IfSome, OnOk};
ghost use Rattle.pv_tree.specs.Tables.{Is, is_declaration, declaration_at};
ghost use Rattle.pv_typed.specs.Children.{HasKinds, HasParts};
ghost use Rattle.pv_typed.specs.Formed.{AreObjects, DeclaresIn};
ghost use Rattle.pv_typed.specs.Nodes.{statement_form};
ghost use Rattle.pv_typed.specs.Tables.{nodes};
ghost use Rattle.pv_typed.specs.NodeTrees.{list_at, statement_at, IsStatement};
ghost use Rattle.pv_typed.specs.TypedStatement.{Declare};
ghost use Rattle.pv_check.specs.Open.{IsOpen, Texts, state_in, KeepsState};
ghost use Rattle.pv_check.specs.Scopes.{in_new_scope, behind_scope};
ghost use Rattle.pv_unit.specs.Reaching.{AreReached, reached_of};
ghost use Rattle.pv_unit.specs.Stated.{optional_list, statements_in, optional_in, items_if, IsOptional, AreStatements, StatementsOn, Moves, MovesOn, items_in};
ghost use Rattle.pv_unit.specs.Statements.{reached_declarations, declared_by, declared_in, block_of, round_of};
ghost use Rattle.pv_unit.specs.Made.{declared_item};

use crate::blocks::{Reached, block_declaration};
use pv_check::Scopes;
use pv_token::Tokens;
use pv_tree::{ListId, NodeId, Unit};
use pv_typed::{TypedStmt, TypedUnit};
use pv_types::NoMemory;

/// Adds a statement, which declares these objects.
pub(crate) fn add(
    s: &Scopes,
    into: &mut TypedUnit,
    x: TypedStmt,
    line: u32,
    declared: &[u32],
) -> Result<NodeId, NoMemory>
    requires opened { IsOpen into.old s.now }
    requires parts { HasParts into.old.rows into.old.lists (length into.old.rows) x }
    requires named { DeclaresIn into.old x }
    requires objects { AreObjects into.old declared.now }
    ensures there { IfOk result (IsStatement into.new) }
    ensures tree { IfOk result (λ n. statement_at into.new n ≡ statement_form into.old.lists (nodes into.old) line declared.now x) }
    ensures state { OnOk result (KeepsState s.now into.old into.new) }
    ensures moves { OnOk result (Moves into.old s.now into.new s.now) }
{
    let n = into.add_statement(x, line, declared)?;
    Ok(n)
}

/// A scope begins (C17 6.2.1p4).
pub(crate) fn enter(s: &mut Scopes, into: &TypedUnit) -> Result<(), NoMemory>
    requires { IsOpen into.now s.old }
    ensures opened { OnOk result (IsOpen into.now s.new) }
    ensures deep { OnOk result (length s.new.scopes ≡ length s.old.scopes + 1) }
    ensures state { OnOk result ((texts : Texts) → state_in texts s.new into.now ≡ in_new_scope (state_in texts s.old into.now)) }
{
    s.enter()?;
    Ok(())
}

/// The innermost scope ends, within which there are others.
pub(crate) fn leave(s: &mut Scopes, into: &TypedUnit)
    requires opened { IsOpen into.now s.old }
    requires within { 1 < length s.old.scopes }
    ensures opened { IsOpen into.now s.new }
    ensures deep { length s.new.scopes + 1 ≡ length s.old.scopes }
    ensures state { (texts : Texts) → state_in texts s.new into.now ≡ behind_scope (state_in texts s.old into.now) }
{
    s.leave();
}

/// A statement that reaches the declaration of an automatic object, behind those that there are.
fn declare_one(
    s: &Scopes,
    into: &mut TypedUnit,
    x: Reached,
    items: &mut Vec<NodeId>,
) -> Result<(), NoMemory>
    requires opened { IsOpen into.old s.now }
    requires object { x.object < length into.old.objects }
    requires items { AreStatements into.old items.old.items }
    ensures there { OnOk result (AreStatements into.new items.new.items) }
    ensures items { OnOk result (statements_in into.new items.new.items ≡ statements_in into.old items.old.items ++ (Declare x.line x.object ∷ [])) }
    ensures state { OnOk result (KeepsState s.now into.old into.new) }
    ensures moves { OnOk result (Moves into.old s.now into.new s.now) }
{
    let n = add(s, into, TypedStmt::Declare(x.object), x.line, &[])?;
    items.push(n)?;
    Ok(())
}

/// The same of all that a declaration reaches (C17 6.8.2).
fn declare(
    s: &Scopes,
    into: &mut TypedUnit,
    all: &[Reached],
    items: &mut Vec<NodeId>,
) -> Result<(), NoMemory>
    requires opened { IsOpen into.old s.now }
    requires objects { AreReached into.old all.now }
    requires items { AreStatements into.old items.old.items }
    ensures there { OnOk result (AreStatements into.new items.new.items) }
    ensures items { OnOk result (statements_in into.new items.new.items ≡ statements_in into.old items.old.items ++ reached_declarations (map reached_of all.now)) }
    ensures state { OnOk result (KeepsState s.now into.old into.new) }
    ensures moves { OnOk result (Moves into.old s.now into.new s.now) }
{
    for x in all {
        declare_one(s, into, *x, items)?;
    }
    Ok(())
}

/// A declaration in a block, whose reached objects become statements behind those that there are (C17 6.8.2p1).
pub(crate) fn add_declaration(
    u: &Unit,
    t: &Tokens,
    s: &mut Scopes,
    into: &mut TypedUnit,
    d: NodeId,
    items: &mut Vec<NodeId>,
) -> Result<bool, NoMemory>
    requires node { Is u.now is_declaration d }
    requires opened { IsOpen into.old s.old }
    requires items { AreStatements into.old items.old.items }
    ensures there { IfOk result (StatementsOn into.new items.new.items) }
    ensures moves { IfOk result (MovesOn into.old s.old into.new s.new) }
    ensures typed { IfOk result (λ b. items_if t.now.texts s.new into.new items.new.items b ≡ declared_item (declaration_at u.now.forest d) (items_in t.now.texts s.old into.old items.old.items)) }
{
    let mut all = Vec::new(s.allocator());
    let found = block_declaration(u, t, s, into, d, &mut all)?;
    if !found {
        return Ok(false);
    }
    declare(s, into, all.as_slice(), items)?;
    Ok(true)
}

/// The automatic object whose declaration a statement reaches.
fn declared_object(into: &TypedUnit, n: NodeId) -> Option<u32>
    requires { IsStatement into.now n }
    ensures object { optional_list result ≡ declared_by (statement_at into.now n) }
    ensures there { IfSome result (λ o. o < length into.now.objects) }
{
    match into.statement(n) {
        TypedStmt::Declare(o) => Some(o),
        TypedStmt::Block(_)
        | TypedStmt::Expression(_)
        | TypedStmt::Empty
        | TypedStmt::If(_, _)
        | TypedStmt::IfElse(_, _, _)
        | TypedStmt::Switch(_, _)
        | TypedStmt::Case(_, _)
        | TypedStmt::Default(_)
        | TypedStmt::While(_, _)
        | TypedStmt::DoWhile(_, _)
        | TypedStmt::For { .. }
        | TypedStmt::ForDeclaration { .. }
        | TypedStmt::Continue
        | TypedStmt::Break
        | TypedStmt::Return(_) => None,
    }
}

/// It behind others.
fn add_declared(into: &TypedUnit, n: NodeId, objects: &mut Vec<u32>) -> Result<(), NoMemory>
    requires node { IsStatement into.now n }
    requires objects { AreObjects into.now objects.old.items }
    ensures objects { OnOk result (objects.new.items ≡ objects.old.items ++ declared_by (statement_at into.now n)) }
    ensures there { OnOk result (AreObjects into.now objects.new.items) }
{
    if let Some(o) = declared_object(into, n) {
        objects.push(o)?;
    }
    Ok(())
}

/// The objects that statements of a block declare (C17 6.8.2).
fn objects_of(s: &Scopes, into: &TypedUnit, items: &[NodeId]) -> Result<Vec<u32>, NoMemory>
    requires { AreStatements into.now items.now }
    ensures objects { IfOk result (λ v. v.items ≡ declared_in (statements_in into.now items.now)) }
    ensures there { IfOk result (λ v. AreObjects into.now v.items) }
{
    let mut objects = Vec::new(s.allocator());
    for n in items {
        add_declared(into, *n, &mut objects)?;
    }
    Ok(objects)
}

/// Adds a list of statements.
fn add_items(s: &Scopes, into: &mut TypedUnit, items: &[NodeId]) -> Result<ListId, NoMemory>
    requires opened { IsOpen into.old s.now }
    requires items { AreStatements into.old items.now }
    ensures list { IfOk result (λ l. HasKinds into.new.rows into.new.lists (length into.new.rows) false l) }
    ensures same { IfOk result (λ l. list_at into.new l ≡ items.now) }
    ensures state { OnOk result (KeepsState s.now into.old into.new) }
    ensures moves { OnOk result (Moves into.old s.now into.new s.now) }
{
    let l = into.add_list(items)?;
    Ok(l)
}

/// Adds a block of these statements (C17 6.8.2).
pub(crate) fn add_block(
    s: &Scopes,
    into: &mut TypedUnit,
    line: u32,
    items: &[NodeId],
) -> Result<NodeId, NoMemory>
    requires opened { IsOpen into.old s.now }
    requires items { AreStatements into.old items.now }
    ensures there { IfOk result (IsStatement into.new) }
    ensures tree { IfOk result (λ n. statement_at into.new n ≡ block_of line (statements_in into.old items.now)) }
    ensures state { OnOk result (KeepsState s.now into.old into.new) }
    ensures moves { OnOk result (Moves into.old s.now into.new s.now) }
{
    let objects = objects_of(s, into, items)?;
    let list = add_items(s, into, items)?;
    let n = add(s, into, TypedStmt::Block(list), line, objects.as_slice())?;
    Ok(n)
}

/// Adds a `for` with a declaration, of which these statements reach the objects (C17 6.8.5.3).
pub(crate) fn add_round(
    s: &Scopes,
    into: &mut TypedUnit,
    line: u32,
    items: &[NodeId],
    condition: Option<NodeId>,
    step: Option<NodeId>,
    body: NodeId,
) -> Result<NodeId, NoMemory>
    requires opened { IsOpen into.old s.now }
    requires items { AreStatements into.old items.now }
    requires condition { IsOptional into.old condition }
    requires step { IsOptional into.old step }
    requires body { IsStatement into.old body }
    ensures there { IfOk result (IsStatement into.new) }
    ensures tree { IfOk result (λ n. statement_at into.new n ≡ round_of line (statements_in into.old items.now) (optional_in into.old condition) (optional_in into.old step) (statement_at into.old body)) }
    ensures state { OnOk result (KeepsState s.now into.old into.new) }
    ensures moves { OnOk result (Moves into.old s.now into.new s.now) }
{
    let objects = objects_of(s, into, items)?;
    let declarations = add_items(s, into, items)?;
    let x = TypedStmt::ForDeclaration {
        declarations,
        condition,
        step,
        body,
    };
    let n = add(s, into, x, line, objects.as_slice())?;
    Ok(n)
}
