//! Function definitions and external declarations (C17 6.9, 6.9.1).
ghost use Rattle.std.specs.Prelude.{◌≡◌, ◌<◌, ◌+◌, [], false, length, IfOk, IfSome, OnOk, Some};
ghost use Rattle.pv_tree.specs.Tables.{Is, HasList, declaration_at, statement_at as statement_of, is_declarator, is_declaration, is_item, is_specifier, is_statement, IsListOf};
ghost use Rattle.pv_tree.specs.Syntax.{is_external};
ghost use Rattle.pv_typed.specs.Known.{Each};
ghost use Rattle.pv_typed.specs.NodeTrees.{statement_at, IsStatement};
ghost use Rattle.pv_check.specs.Declarators.{parameters_shown, ParameterKnown, SignatureKnown};
ghost use Rattle.pv_check.specs.Open.{IsOpen, Goes, ScopeKnown, Texts, state_in};
ghost use Rattle.pv_check.specs.Raw.{raw_of, scope_shown};
ghost use Rattle.pv_unit.specs.Bodies.{ArePartsIf, IsBodyIf, head_made};
ghost use Rattle.pv_unit.specs.DeclaredIn.{OpenOn};
ghost use Rattle.pv_unit.specs.Functions.{within, with_parameter, with_parameters, typed_body, typed_declaration, typed_external};
ghost use Rattle.pv_unit.specs.FunctionParts.{counted_state, with_body, with_definition};
ghost use Rattle.pv_unit.specs.Outside.{unit_state, unit_if};
ghost use Rattle.pv_unit.specs.Stated.{items_if, statements_in, AreStatements, Moves, MovesOn, StatementsOn};
ghost use Rattle.pv_unit.specs.There.{AreThere, ThereOn};
ghost use Rattle.pv_unit.specs.AtNodes.{body_items_at, definition_at};

use crate::adding::{add_block, leave};
use crate::entities::Outer;
use crate::heads::{Defined, head};
use crate::outside::file_declaration;
use crate::plain::Place;
use crate::stmts::all_items;
use pv_check::{Parameter, Scope, Scopes, Signature};
use pv_token::Tokens;
use pv_tree::{Decl, ListId, NodeId, Stmt, Unit};
use pv_typed::{Function, TypedUnit};
use pv_types::{NoMemory, TypeId};

/// A scope begins again, within the others (C17 6.2.1p4).
fn reenter(s: &mut Scopes, into: &TypedUnit, scope: Scope) -> Result<(), NoMemory>
    requires opened { IsOpen into.now s.old }
    requires known { ScopeKnown into.now (raw_of scope) }
    ensures opened { OnOk result (IsOpen into.now s.new) }
    ensures deep { OnOk result (length s.new.scopes ≡ length s.old.scopes + 1) }
    ensures state { OnOk result ((texts : Texts) → state_in texts s.new into.now ≡ within (scope_shown into.now.known (raw_of scope)) (state_in texts s.old into.now)) }
{
    s.reenter(scope)?;
    Ok(())
}

/// The function gets the object of one parameter.
fn add_object(s: &Scopes, into: &mut TypedUnit, f: u32, o: u32) -> Result<(), NoMemory>
    requires opened { IsOpen into.old s.now }
    requires function { f < length into.old.functions }
    requires object { o < length into.old.objects }
    ensures moves { OnOk result (Moves into.old s.now into.new s.now) }
    ensures types { OnOk result (into.new.known ≡ into.old.known) }
    ensures state { OnOk result ((texts : Texts) → state_in texts s.now into.new ≡ with_parameter f (Some o) (state_in texts s.now into.old)) }
{
    into.add_param(f, o)?;
    Ok(())
}

/// The same, if it has a name.
fn add_parameter(s: &Scopes, into: &mut TypedUnit, f: u32, o: Option<u32>) -> Result<(), NoMemory>
    requires opened { IsOpen into.old s.now }
    requires function { f < length into.old.functions }
    requires object { IfSome o (λ k. k < length into.old.objects) }
    ensures moves { OnOk result (Moves into.old s.now into.new s.now) }
    ensures types { OnOk result (into.new.known ≡ into.old.known) }
    ensures state { OnOk result ((texts : Texts) → state_in texts s.now into.new ≡ with_parameter f o (state_in texts s.now into.old)) }
{
    match o {
        None => Ok(()),
        Some(k) => add_object(s, into, f, k),
    }
}

/// The function gets the objects of its parameters, in order (C17 6.9.1p9).
fn add_parameters(
    s: &Scopes,
    into: &mut TypedUnit,
    f: u32,
    parameters: &[Parameter],
) -> Result<(), NoMemory>
    requires opened { IsOpen into.old s.now }
    requires function { f < length into.old.functions }
    requires parameters { Each (ParameterKnown into.old) parameters.now }
    ensures moves { OnOk result (Moves into.old s.now into.new s.now) }
    ensures types { OnOk result (into.new.known ≡ into.old.known) }
    ensures state { OnOk result ((texts : Texts) → state_in texts s.now into.new ≡ with_parameters f (parameters_shown into.old.known parameters.now) (state_in texts s.now into.old)) }
{
    for p in parameters {
        add_parameter(s, into, f, p.object)?;
    }
    Ok(())
}

/// The function gets its body.
fn set_body(s: &Scopes, into: &mut TypedUnit, f: u32, body: NodeId)
    requires opened { IsOpen into.old s.now }
    requires function { f < length into.old.functions }
    requires body { IsStatement into.old body }
    ensures moves { Moves into.old s.now into.new s.now }
    ensures state { (texts : Texts) → state_in texts s.now into.new ≡ with_body f (statement_at into.old body) (state_in texts s.now into.old) }
{
    let old = into.function(f);
    into.set_function(
        f,
        Function {
            name: old.name,
            t: old.t,
            line: old.line,
            body: Some(body),
        },
    );
}

/// The items of a function's body, if it is a block.
fn block_items(u: &Unit, n: NodeId) -> Option<ListId>
    requires { Is u.now is_statement n }
    ensures { IsBodyIf u.now.forest n result }
{
    match u.stmt(n) {
        Stmt::Block(list) => Some(list),
        Stmt::Expr(_)
        | Stmt::If(_, _)
        | Stmt::IfElse(_, _, _)
        | Stmt::While(_, _)
        | Stmt::DoWhile(_, _)
        | Stmt::For { .. }
        | Stmt::ForDeclaration { .. }
        | Stmt::Switch(_, _)
        | Stmt::SwitchBlock(_)
        | Stmt::Labelled { .. }
        | Stmt::Case(_)
        | Stmt::Default
        | Stmt::Break
        | Stmt::Continue
        | Stmt::Return(_) => None,
    }
}

/// The items of a body, in the scope of the parameters (C17 6.2.1p4), which ends behind them.
fn scoped(
    u: &Unit,
    t: &Tokens,
    s: &mut Scopes,
    into: &mut TypedUnit,
    result_type: TypeId,
    scope: Scope,
    block: NodeId,
    list: ListId,
    items: &mut Vec<NodeId>,
) -> Result<bool, NoMemory>
    requires node { Is u.now is_statement block }
    requires list { HasList u.now.forest block.0 is_item list }
    requires opened { IsOpen into.old s.old }
    requires returned { result_type.0 < length into.old.known.terms }
    requires scope { ScopeKnown into.old (raw_of scope) }
    requires empty { items.old.items ≡ [] }
    ensures there { IfOk result (StatementsOn into.new items.new.items) }
    ensures moves { IfOk result (MovesOn into.old s.old into.new s.new) }
    ensures answer { IfOk result (λ b. items_if t.now.texts s.new into.new items.new.items b ≡ body_items_at u.now into.old.known result_type scope list (state_in t.now.texts s.old into.old)) }
{
    let around = Place {
        result: result_type,
        breaks: false,
        continues: false,
    };
    reenter(s, into, scope)?;
    if !all_items(u, t, s, into, around, block, list, items)? {
        return Ok(false);
    }
    leave(s, into);
    Ok(true)
}

/// The function gets its parameters, and the block of these statements as its body.
fn finish(
    s: &Scopes,
    into: &mut TypedUnit,
    f: u32,
    parameters: &[Parameter],
    line: u32,
    items: &[NodeId],
) -> Result<(), NoMemory>
    requires opened { IsOpen into.old s.now }
    requires function { f < length into.old.functions }
    requires parameters { Each (ParameterKnown into.old) parameters.now }
    requires items { AreStatements into.old items.now }
    ensures moves { OnOk result (Moves into.old s.now into.new s.now) }
    ensures state { OnOk result ((texts : Texts) → state_in texts s.now into.new ≡ with_definition f (parameters_shown into.old.known parameters.now) line (statements_in into.old items.now) (state_in texts s.now into.old)) }
{
    let made = add_block(s, into, line, items)?;
    add_parameters(s, into, f, parameters)?;
    set_body(s, into, f, made);
    Ok(())
}

/// The body of a function with these parameters.
fn body(
    u: &Unit,
    t: &Tokens,
    s: &mut Scopes,
    into: &mut TypedUnit,
    outer: &Outer,
    defined: Defined,
    own: Signature,
    block: NodeId,
) -> Result<bool, NoMemory>
    requires node { Is u.now is_statement block }
    requires opened { IsOpen into.old s.old }
    requires function { defined.function < length into.old.functions }
    requires returned { defined.result_type.0 < length into.old.known.terms }
    requires own { SignatureKnown into.old own }
    requires entities { AreThere into.old outer.now.entities }
    ensures opened { IfOk result (OpenOn into.new s.new) }
    ensures entities { IfOk result (ThereOn into.new outer.now.entities) }
    ensures answer { IfOk result (λ b. unit_if t.now.texts s.new into.new outer.now b ≡ typed_body (statement_of u.now.forest block) (head_made t.now.texts s.old into.old outer.now defined own)) }
{
    let Some(list) = block_items(u, block) else {
        return Ok(false);
    };
    let mut items = Vec::new(s.allocator());
    let Signature {
        parameters,
        variadic: _,
        scope,
    } = own;
    if !scoped(
        u,
        t,
        s,
        into,
        defined.result_type,
        scope,
        block,
        list,
        &mut items,
    )? {
        return Ok(false);
    }
    finish(
        s,
        into,
        defined.function,
        &parameters,
        u.line(block),
        items.as_slice(),
    )?;
    Ok(true)
}

/// The parts of a function definition.
#[derive(Clone, Copy)]
pub(crate) struct FunctionParts {
    pub(crate) specs: ListId,
    pub(crate) declarator: NodeId,
    pub(crate) block: NodeId,
}

/// The parts of the declaration, if it is a function definition.
fn definition_parts(u: &Unit, d: NodeId) -> Option<FunctionParts>
    requires { Is u.now is_declaration d }
    ensures { ArePartsIf u.now d result }
{
    match u.decl(d) {
        Decl::Function {
            specs,
            declarator,
            block,
        } => Some(FunctionParts {
            specs,
            declarator,
            block,
        }),
        Decl::Declaration { .. }
        | Decl::InitDeclarator { .. }
        | Decl::Member { .. }
        | Decl::Enumerator { .. }
        | Decl::Parameter { .. }
        | Decl::TypeName { .. } => None,
    }
}

/// A function definition (C17 6.9.1).
fn definition(
    u: &Unit,
    t: &Tokens,
    s: &mut Scopes,
    into: &mut TypedUnit,
    outer: &mut Outer,
    x: FunctionParts,
) -> Result<bool, NoMemory>
    requires specs { IsListOf u.now is_specifier x.specs }
    requires declarator { Is u.now is_declarator x.declarator }
    requires block { Is u.now is_statement x.block }
    requires opened { IsOpen into.old s.old }
    requires entities { AreThere into.old outer.old.entities }
    ensures opened { IfOk result (OpenOn into.new s.new) }
    ensures entities { IfOk result (ThereOn into.new outer.new.entities) }
    ensures answer { IfOk result (λ b. unit_if t.now.texts s.new into.new outer.new b ≡ definition_at u.now x (unit_state t.now.texts s.old into.old outer.old)) }
{
    let Some(h) = head(u, t, s, into, outer, x.specs, x.declarator)? else {
        return Ok(false);
    };
    let b = body(u, t, s, into, outer, h.defined, h.signature, x.block)?;
    Ok(b)
}

/// A function definition, or a declaration (C17 6.9p1).
fn declaration(
    u: &Unit,
    t: &Tokens,
    s: &mut Scopes,
    into: &mut TypedUnit,
    outer: &mut Outer,
    d: NodeId,
) -> Result<bool, NoMemory>
    requires node { Is u.now is_declaration d }
    requires opened { IsOpen into.old s.old }
    requires entities { AreThere into.old outer.old.entities }
    ensures opened { IfOk result (OpenOn into.new s.new) }
    ensures entities { IfOk result (ThereOn into.new outer.new.entities) }
    ensures answer { IfOk result (λ b. unit_if t.now.texts s.new into.new outer.new b ≡ typed_declaration (declaration_at u.now.forest d) (unit_state t.now.texts s.old into.old outer.old)) }
{
    let Some(x) = definition_parts(u, d) else {
        let b = file_declaration(u, t, s, into, outer, d)?;
        return Ok(b);
    };
    let b = definition(u, t, s, into, outer, x)?;
    Ok(b)
}

/// Counts one external declaration more.
fn count(s: &Scopes, into: &mut TypedUnit) -> Result<(), NoMemory>
    requires opened { IsOpen into.old s.now }
    ensures goes { OnOk result (Goes into.old into.new) }
    ensures opened { OnOk result (IsOpen into.new s.now) }
    ensures state { OnOk result ((texts : Texts) → state_in texts s.now into.new ≡ counted_state (state_in texts s.now into.old)) }
{
    into.add_declaration()?;
    Ok(())
}

/// One external declaration more (C17 6.9p1).
pub(crate) fn external(
    u: &Unit,
    t: &Tokens,
    s: &mut Scopes,
    into: &mut TypedUnit,
    outer: &mut Outer,
    d: NodeId,
) -> Result<bool, NoMemory>
    requires node { Is u.now is_external d }
    requires opened { IsOpen into.old s.old }
    requires entities { AreThere into.old outer.old.entities }
    ensures opened { IfOk result (OpenOn into.new s.new) }
    ensures entities { IfOk result (ThereOn into.new outer.new.entities) }
    ensures answer { IfOk result (λ b. unit_if t.now.texts s.new into.new outer.new b ≡ typed_external (declaration_at u.now.forest d) (unit_state t.now.texts s.old into.old outer.old)) }
{
    if !declaration(u, t, s, into, outer, d)? {
        return Ok(false);
    }
    count(s, into)?;
    Ok(true)
}
