//! Declarations at file scope (C17 6.7, 6.9.2).
ghost use Rattle.std.specs.Prelude.{◌≡◌, ◌<◌, IfOk, OnOk, None, length};
ghost use Rattle.pv_types.specs.Known.{tree};
ghost use Rattle.pv_tree.specs.Tables.{Is, tree_at, trees_at, declaration_at, initializer_at, is_declaration, is_declarator, is_initializer, is_specifier, IsListOf, IsOptionalOf};
ghost use Rattle.pv_check.specs.Open.{IsOpen, Goes};
ghost use Rattle.pv_unit.specs.Declarations.{object_initialized, given_entity, file_init_declarator, file_declarators, only_tag, file_alone, file_declaration};
ghost use Rattle.pv_unit.specs.DeclarationParts.{file_declared};
ghost use Rattle.pv_unit.specs.DeclaredIn.{OpenOn, GoesOn, specified_in, type_in};
ghost use Rattle.pv_unit.specs.There.{AreThere, ThereOn};
ghost use Rattle.pv_unit.specs.Outside.{unit_state, unit_if};
ghost use Rattle.pv_unit.specs.AtNodes.{typedef_entity_at, variable_entity_at, entity_declared_at, file_declarator_at};

use crate::declarators::{
    DeclaredType, bound, only_tag, specified, tag_alone, tags_alone, type_declared,
};
use crate::declaring::{is_typedef, object_declared, plain_entity, typedef_declared};
use crate::entities::Outer;
use crate::giving::given;
use pv_check::{Scopes, Specified, Storage, declared_name, is_function};
use pv_token::Tokens;
use pv_tree::{Decl, ListId, NodeId, Unit};
use pv_typed::TypedUnit;
use pv_types::NoMemory;

/// An object of file scope gets its one initializer (C17 6.7.9).
fn object_initialized(
    u: &Unit,
    t: &Tokens,
    s: &mut Scopes,
    into: &mut TypedUnit,
    outer: &mut Outer,
    o: u32,
    i: NodeId,
) -> Result<bool, NoMemory>
    requires node { Is u.now is_initializer i }
    requires opened { IsOpen into.old s.old }
    requires object { o < length into.old.objects }
    requires entities { AreThere into.old outer.old.entities }
    ensures opened { IfOk result (OpenOn into.new s.new) }
    ensures goes { IfOk result (GoesOn into.old into.new) }
    ensures entities { IfOk result (ThereOn into.new outer.new.entities) }
    ensures answer { IfOk result (λ b. unit_if t.now.texts s.new into.new outer.new b ≡ object_initialized (initializer_at u.now.forest i) (o, unit_state t.now.texts s.old into.old outer.old)) }
{
    if outer.entities.is_initialized(false, o) {
        return Ok(false);
    }
    if !given(u, t, s, into, true, o, i)? {
        return Ok(false);
    }
    outer.entities.note(false, o, true, true, false);
    Ok(true)
}

/// An object of file scope with an initializer.
fn given_entity(
    u: &Unit,
    t: &Tokens,
    s: &mut Scopes,
    into: &mut TypedUnit,
    outer: &mut Outer,
    name: u32,
    line: u32,
    d: DeclaredType,
    i: NodeId,
) -> Result<bool, NoMemory>
    requires node { Is u.now is_initializer i }
    requires opened { IsOpen into.old s.old }
    requires known { d.t.0 < length into.old.known.terms }
    requires entities { AreThere into.old outer.old.entities }
    ensures opened { IfOk result (OpenOn into.new s.new) }
    ensures goes { IfOk result (GoesOn into.old into.new) }
    ensures entities { IfOk result (ThereOn into.new outer.new.entities) }
    ensures answer { IfOk result (λ b. unit_if t.now.texts s.new into.new outer.new b ≡ given_entity (tree into.old.known d.t.0) (name, line) (initializer_at u.now.forest i) (unit_state t.now.texts s.old into.old outer.old)) }
{
    if is_function(into.types(), d.t) {
        return Ok(false);
    }
    let Some(o) = object_declared(s, into, outer, name, line, d.t)? else {
        return Ok(false);
    };
    let b = object_initialized(u, t, s, into, outer, o, i)?;
    Ok(b)
}

/// A function or an object, with an initializer or without.
fn variable_entity(
    u: &Unit,
    t: &Tokens,
    s: &mut Scopes,
    into: &mut TypedUnit,
    outer: &mut Outer,
    storage: Storage,
    name: u32,
    line: u32,
    d: DeclaredType,
    init: Option<NodeId>,
) -> Result<bool, NoMemory>
    requires init { IsOptionalOf u.now is_initializer init }
    requires opened { IsOpen into.old s.old }
    requires known { d.t.0 < length into.old.known.terms }
    requires entities { AreThere into.old outer.old.entities }
    ensures opened { IfOk result (OpenOn into.new s.new) }
    ensures goes { IfOk result (GoesOn into.old into.new) }
    ensures entities { IfOk result (ThereOn into.new outer.new.entities) }
    ensures answer { IfOk result (λ b. unit_if t.now.texts s.new into.new outer.new b ≡ variable_entity_at u.now storage (type_in into.old.known d) (name, line) init (unit_state t.now.texts s.old into.old outer.old)) }
{
    match init {
        None => {
            let b = plain_entity(s, into, outer, storage, name, line, d)?;
            Ok(b)
        }
        Some(i) => {
            let b = given_entity(u, t, s, into, outer, name, line, d, i)?;
            Ok(b)
        }
    }
}

/// A type, which has no initializer.
fn typedef_entity(
    t: &Tokens,
    s: &mut Scopes,
    into: &mut TypedUnit,
    outer: &mut Outer,
    u: &Unit,
    name: u32,
    line: u32,
    d: DeclaredType,
    init: Option<NodeId>,
) -> Result<bool, NoMemory>
    requires opened { IsOpen into.old s.old }
    requires known { d.t.0 < length into.old.known.terms }
    requires entities { AreThere into.old outer.old.entities }
    ensures opened { OnOk result (IsOpen into.new s.new) }
    ensures goes { OnOk result (Goes into.old into.new) }
    ensures entities { OnOk result (AreThere into.new outer.new.entities) }
    ensures answer { IfOk result (λ b. unit_if t.now.texts s.new into.new outer.new b ≡ typedef_entity_at u.now (type_in into.old.known d) (name, line) init (unit_state t.now.texts s.old into.old outer.old)) }
{
    match init {
        None => {
            let b = typedef_declared(s, into, outer, name, d)?;
            Ok(b)
        }
        Some(_) => Ok(false),
    }
}

/// What a declarator declares at file scope.
fn entity_declared(
    u: &Unit,
    t: &Tokens,
    s: &mut Scopes,
    into: &mut TypedUnit,
    outer: &mut Outer,
    storage: Storage,
    name: u32,
    line: u32,
    d: DeclaredType,
    init: Option<NodeId>,
) -> Result<bool, NoMemory>
    requires init { IsOptionalOf u.now is_initializer init }
    requires opened { IsOpen into.old s.old }
    requires known { d.t.0 < length into.old.known.terms }
    requires entities { AreThere into.old outer.old.entities }
    ensures opened { IfOk result (OpenOn into.new s.new) }
    ensures goes { IfOk result (GoesOn into.old into.new) }
    ensures entities { IfOk result (ThereOn into.new outer.new.entities) }
    ensures answer { IfOk result (λ b. unit_if t.now.texts s.new into.new outer.new b ≡ entity_declared_at u.now storage (type_in into.old.known d) (name, line) init (unit_state t.now.texts s.old into.old outer.old)) }
{
    if is_typedef(storage) {
        let b = typedef_entity(t, s, into, outer, u, name, line, d, init)?;
        Ok(b)
    } else {
        let b = variable_entity(u, t, s, into, outer, storage, name, line, d, init)?;
        Ok(b)
    }
}

/// A declarator at file scope, with an initializer or without.
fn file_declarator(
    u: &Unit,
    t: &Tokens,
    s: &mut Scopes,
    into: &mut TypedUnit,
    outer: &mut Outer,
    x: Specified,
    d: NodeId,
    init: Option<NodeId>,
) -> Result<bool, NoMemory>
    requires node { Is u.now is_declarator d }
    requires init { IsOptionalOf u.now is_initializer init }
    requires opened { IsOpen into.old s.old }
    requires known { x.t.0 < length into.old.known.terms }
    requires entities { AreThere into.old outer.old.entities }
    ensures opened { IfOk result (OpenOn into.new s.new) }
    ensures goes { IfOk result (GoesOn into.old into.new) }
    ensures entities { IfOk result (ThereOn into.new outer.new.entities) }
    ensures answer { IfOk result (λ b. unit_if t.now.texts s.new into.new outer.new b ≡ file_declarator_at u.now (specified_in into.old.known x) d init (unit_state t.now.texts s.old into.old outer.old)) }
{
    let Some((name, line)) = declared_name(u, d) else {
        return Ok(false);
    };
    let Some(made) = type_declared(u, t, s, into, true, x.t, d)? else {
        return Ok(false);
    };
    let b = entity_declared(u, t, s, into, outer, x.storage, name, line, made, init)?;
    Ok(b)
}

/// The same of a node of the list of a declaration.
fn file_init_declarator(
    u: &Unit,
    t: &Tokens,
    s: &mut Scopes,
    into: &mut TypedUnit,
    outer: &mut Outer,
    x: Specified,
    n: NodeId,
) -> Result<bool, NoMemory>
    requires node { Is u.now is_declaration n }
    requires opened { IsOpen into.old s.old }
    requires known { x.t.0 < length into.old.known.terms }
    requires entities { AreThere into.old outer.old.entities }
    ensures opened { IfOk result (OpenOn into.new s.new) }
    ensures goes { IfOk result (GoesOn into.old into.new) }
    ensures entities { IfOk result (ThereOn into.new outer.new.entities) }
    ensures answer { IfOk result (λ b. unit_if t.now.texts s.new into.new outer.new b ≡ file_init_declarator (specified_in into.old.known x) (tree_at u.now.forest n) (unit_state t.now.texts s.old into.old outer.old)) }
{
    match u.decl(n) {
        Decl::InitDeclarator { declarator, init } => {
            file_declarator(u, t, s, into, outer, x, declarator, init)
        }
        Decl::Function { .. }
        | Decl::Declaration { .. }
        | Decl::Member { .. }
        | Decl::Enumerator { .. }
        | Decl::Parameter { .. }
        | Decl::TypeName { .. } => Ok(false),
    }
}

/// The declarators of a declaration at file scope, in their order.
fn file_declarators(
    u: &Unit,
    t: &Tokens,
    s: &mut Scopes,
    into: &mut TypedUnit,
    outer: &mut Outer,
    x: Specified,
    list: ListId,
) -> Result<bool, NoMemory>
    requires list { IsListOf u.now is_declaration list }
    requires opened { IsOpen into.old s.old }
    requires known { x.t.0 < length into.old.known.terms }
    requires entities { AreThere into.old outer.old.entities }
    ensures opened { IfOk result (OpenOn into.new s.new) }
    ensures goes { IfOk result (GoesOn into.old into.new) }
    ensures entities { IfOk result (ThereOn into.new outer.new.entities) }
    ensures answer { IfOk result (λ b. unit_if t.now.texts s.new into.new outer.new b ≡ file_declarators (trees_at u.now.forest list) (specified_in into.old.known x) (unit_state t.now.texts s.old into.old outer.old)) }
{
    let nodes = u.list(list);
    for n in nodes {
        if !file_init_declarator(u, t, s, into, outer, x, *n)? {
            return Ok(false);
        }
    }
    Ok(true)
}

/// Specifiers alone, which declare something (C17 6.7p2).
fn specifiers_alone(
    u: &Unit,
    t: &Tokens,
    s: &mut Scopes,
    into: &mut TypedUnit,
    outer: &Outer,
    specs: ListId,
) -> Result<bool, NoMemory>
    requires specs { IsListOf u.now is_specifier specs }
    requires opened { IsOpen into.old s.old }
    requires entities { AreThere into.old outer.now.entities }
    ensures opened { IfOk result (OpenOn into.new s.new) }
    ensures goes { IfOk result (GoesOn into.old into.new) }
    ensures entities { IfOk result (ThereOn into.new outer.now.entities) }
    ensures answer { IfOk result (λ b. unit_if t.now.texts s.new into.new outer.now b ≡ file_alone None (trees_at u.now.forest specs) (unit_state t.now.texts s.old into.old outer.now)) }
{
    let before = bound(s, into);
    let Some(_) = specified(u, t, s, into, specs)? else {
        return Ok(false);
    };
    Ok(tags_alone(u, s, into, specs, before))
}

/// A declaration at file scope without declarators.
fn file_alone(
    u: &Unit,
    t: &Tokens,
    s: &mut Scopes,
    into: &mut TypedUnit,
    outer: &Outer,
    specs: ListId,
) -> Result<bool, NoMemory>
    requires specs { IsListOf u.now is_specifier specs }
    requires opened { IsOpen into.old s.old }
    requires entities { AreThere into.old outer.now.entities }
    ensures opened { IfOk result (OpenOn into.new s.new) }
    ensures goes { IfOk result (GoesOn into.old into.new) }
    ensures entities { IfOk result (ThereOn into.new outer.now.entities) }
    ensures answer { IfOk result (λ b. unit_if t.now.texts s.new into.new outer.now b ≡ file_alone (only_tag (trees_at u.now.forest specs)) (trees_at u.now.forest specs) (unit_state t.now.texts s.old into.old outer.now)) }
{
    match only_tag(u, specs) {
        Some((word, name)) => {
            let b = tag_alone(s, into, word, name)?;
            Ok(b)
        }
        None => {
            let b = specifiers_alone(u, t, s, into, outer, specs)?;
            Ok(b)
        }
    }
}

/// A declaration at file scope with declarators.
fn file_declared(
    u: &Unit,
    t: &Tokens,
    s: &mut Scopes,
    into: &mut TypedUnit,
    outer: &mut Outer,
    specs: ListId,
    declared: ListId,
) -> Result<bool, NoMemory>
    requires specs { IsListOf u.now is_specifier specs }
    requires declared { IsListOf u.now is_declaration declared }
    requires opened { IsOpen into.old s.old }
    requires entities { AreThere into.old outer.old.entities }
    ensures opened { IfOk result (OpenOn into.new s.new) }
    ensures goes { IfOk result (GoesOn into.old into.new) }
    ensures entities { IfOk result (ThereOn into.new outer.new.entities) }
    ensures answer { IfOk result (λ b. unit_if t.now.texts s.new into.new outer.new b ≡ file_declared (trees_at u.now.forest specs) (trees_at u.now.forest declared) (unit_state t.now.texts s.old into.old outer.old)) }
{
    let Some(x) = specified(u, t, s, into, specs)? else {
        return Ok(false);
    };
    let b = file_declarators(u, t, s, into, outer, x, declared)?;
    Ok(b)
}

/// A declaration at file scope (C17 6.9p1).
pub(crate) fn file_declaration(
    u: &Unit,
    t: &Tokens,
    s: &mut Scopes,
    into: &mut TypedUnit,
    outer: &mut Outer,
    n: NodeId,
) -> Result<bool, NoMemory>
    requires node { Is u.now is_declaration n }
    requires opened { IsOpen into.old s.old }
    requires entities { AreThere into.old outer.old.entities }
    ensures opened { IfOk result (OpenOn into.new s.new) }
    ensures goes { IfOk result (GoesOn into.old into.new) }
    ensures entities { IfOk result (ThereOn into.new outer.new.entities) }
    ensures answer { IfOk result (λ b. unit_if t.now.texts s.new into.new outer.new b ≡ file_declaration (declaration_at u.now.forest n) (unit_state t.now.texts s.old into.old outer.old)) }
{
    match u.decl(n) {
        Decl::Declaration { specs, declared } => {
            let declarators = u.list(declared);
            if declarators.len() > 0 {
                file_declared(u, t, s, into, outer, specs, declared)
            } else {
                file_alone(u, t, s, into, outer, specs)
            }
        }
        Decl::Function { .. }
        | Decl::InitDeclarator { .. }
        | Decl::Member { .. }
        | Decl::Enumerator { .. }
        | Decl::Parameter { .. }
        | Decl::TypeName { .. } => Ok(false),
    }
}
