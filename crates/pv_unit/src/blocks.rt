//! Declarations in blocks (C17 6.7, 6.2.4): automatic and static objects.
ghost use Rattle.std.specs.Prelude.{◌≡◌, ◌<◌, ◌++◌, [], ℕ, is_some, false, map, IfOk, OnOk, None, length};
ghost use Rattle.pv_types.specs.Known.{tree};
ghost use Rattle.pv_tree.specs.Syntax.{OfInitializer, Present};
ghost use Rattle.pv_tree.specs.Tables.{Forest, Is, trees_at, declaration_at, initializer_at, optional_at, is_declaration, is_declarator, is_initializer, is_specifier, IsListOf, IsOptionalOf};
ghost use Rattle.pv_types.specs.Layouts.{is_complete_in};
ghost use Rattle.pv_typed.specs.Tables.{Stored, whole_unit};
ghost use Rattle.pv_typed.specs.TypedUnits.{object_at};
ghost use Rattle.pv_check.specs.State.{env};
ghost use Rattle.pv_check.specs.Open.{IsOpen, Goes, Texts, state_in, IfAnswered};
ghost use Rattle.pv_unit.specs.Blocks.{is_present, block_storage, with_initializer, block_object, block_declarators, block_alone, block_declaration, reached_object};
ghost use Rattle.pv_unit.specs.BlockParts.{block_declared};
ghost use Rattle.pv_unit.specs.Declarations.{only_tag};
ghost use Rattle.pv_unit.specs.DeclaredIn.{OpenOn, GoesOn, state_on};
ghost use Rattle.pv_unit.specs.Reaching.{reached_of, reached_in, reached_if, AreReached, ReachedOn};
ghost use Rattle.pv_unit.specs.AtNodes.{block_declarator_at, block_init_declarator_at};

use crate::declarators::{bound, only_tag, specified, tag_alone, tags_alone, type_declared};
use crate::giving::given;
use crate::objects::{found, new_object};
use pv_check::{Scopes, Storage, declared_name, is_function};
use pv_token::Tokens;
use pv_tree::{Decl, ListId, NodeId, Unit};
use pv_typed::TypedUnit;
use pv_types::{NoMemory, TypeId};

/// An automatic object that a declaration reaches.
#[derive(Clone, Copy)]
pub(crate) struct Reached {
    /// The number of the object.
    pub(crate) object: u32,
    /// The line of its name.
    pub(crate) line: u32,
}

/// Whether the objects that a storage class declares in a block are static; no others may stand there.
fn block_storage(storage: Storage) -> Option<bool>
    ensures { result ≡ block_storage storage }
{
    match storage {
        Storage::Plain => Some(false),
        Storage::Static => Some(true),
        Storage::Typedef | Storage::Extern => None,
    }
}

/// Whether the object has a complete type (C17 6.7p7).
fn is_whole(s: &Scopes, into: &TypedUnit, o: u32) -> bool
    requires opened { IsOpen into.now s.now }
    requires object { o < length into.now.objects }
    ensures { (texts : Texts) → result ≡ is_complete_in (env (state_in texts s.now into.now)) (object_at (whole_unit into.now) o).t }
{
    into.types().is_complete(into.object(o).t)
}

/// The object with its initializer, behind which its type is complete.
fn with_given(
    u: &Unit,
    t: &Tokens,
    s: &mut Scopes,
    into: &mut TypedUnit,
    lasting: bool,
    o: u32,
    i: NodeId,
) -> Result<bool, NoMemory>
    requires node { Is u.now is_initializer i }
    requires opened { IsOpen into.old s.old }
    requires object { o < length into.old.objects }
    ensures opened { IfOk result (OpenOn into.new s.new) }
    ensures goes { IfOk result (GoesOn into.old into.new) }
    ensures answer { IfOk result (λ b. state_on t.now.texts s.new into.new b ≡ with_initializer lasting o (Present (OfInitializer (initializer_at u.now.forest i))) (state_in t.now.texts s.old into.old)) }
{
    let has = given(u, t, s, into, lasting, o, i)?;
    if !has {
        return Ok(false);
    }
    Ok(is_whole(s, into, o))
}

/// The object, whose type is complete at the end of its declarator, or of its initializer where there is one.
fn with_initializer(
    u: &Unit,
    t: &Tokens,
    s: &mut Scopes,
    into: &mut TypedUnit,
    lasting: bool,
    o: u32,
    init: Option<NodeId>,
) -> Result<bool, NoMemory>
    requires init { IsOptionalOf u.now is_initializer init }
    requires opened { IsOpen into.old s.old }
    requires object { o < length into.old.objects }
    ensures opened { IfOk result (OpenOn into.new s.new) }
    ensures goes { IfOk result (GoesOn into.old into.new) }
    ensures answer { IfOk result (λ b. state_on t.now.texts s.new into.new b ≡ with_initializer lasting o (optional_at u.now.forest init) (state_in t.now.texts s.old into.old)) }
{
    match init {
        None => Ok(is_whole(s, into, o)),
        Some(i) => {
            let b = with_given(u, t, s, into, lasting, o, i)?;
            Ok(b)
        }
    }
}

/// A new object of a block (C17 6.7p3).
fn block_object(
    u: &Unit,
    t: &Tokens,
    s: &mut Scopes,
    into: &mut TypedUnit,
    lasting: bool,
    made: TypeId,
    name: u32,
    line: u32,
    init: Option<NodeId>,
) -> Result<Option<u32>, NoMemory>
    requires init { IsOptionalOf u.now is_initializer init }
    requires opened { IsOpen into.old s.old }
    requires known { made.0 < length into.old.known.terms }
    ensures opened { IfAnswered result (λ o. IsOpen into.new s.new) }
    ensures goes { IfAnswered result (λ o. Goes into.old into.new) }
    ensures number { IfAnswered result (λ o. (o ≡ length (whole_unit into.old).objects) × (o < length into.new.objects)) }
    ensures answer { IfOk result (λ r. state_on t.now.texts s.new into.new (is_some r) ≡ block_object lasting (tree into.old.known made.0) (name, line) (optional_at u.now.forest init) (state_in t.now.texts s.old into.old)) }
{
    if found(s, into, name).is_some() {
        return Ok(None);
    }
    let o = new_object(s, into, name, line, made, lasting)?;
    let done = with_initializer(u, t, s, into, lasting, o, init)?;
    if done { Ok(Some(o)) } else { Ok(None) }
}

/// Whether there is an initializer.
fn is_given(init: Option<NodeId>) -> bool
    ensures { (f : Forest) → result ≡ is_present (optional_at f init) }
{
    match init {
        Some(_) => true,
        None => false,
    }
}

/// An automatic object is reached, behind those that there are; a static one is not.
fn reach(all: &mut Vec<Reached>, lasting: bool, object: u32, line: u32) -> Result<(), NoMemory>
    ensures all { OnOk result ((n : ℕ) → map reached_of all.new.items ≡ map reached_of all.old.items ++ reached_object lasting object (n, line)) }
    ensures there { OnOk result ((m : Stored) → AreReached m all.old.items → object < length m.objects → AreReached m all.new.items) }
{
    if !lasting {
        all.push(Reached { object, line })?;
    }
    Ok(())
}

/// A declarator in a block, whose object, if it is automatic, is reached behind those that there are.
fn block_declarator(
    u: &Unit,
    t: &Tokens,
    s: &mut Scopes,
    into: &mut TypedUnit,
    lasting: bool,
    base: TypeId,
    d: NodeId,
    init: Option<NodeId>,
    all: &mut Vec<Reached>,
) -> Result<bool, NoMemory>
    requires node { Is u.now is_declarator d }
    requires init { IsOptionalOf u.now is_initializer init }
    requires opened { IsOpen into.old s.old }
    requires known { base.0 < length into.old.known.terms }
    requires there { AreReached into.old all.old.items }
    ensures opened { IfOk result (OpenOn into.new s.new) }
    ensures goes { IfOk result (GoesOn into.old into.new) }
    ensures there { IfOk result (ReachedOn into.new all.new.items) }
    ensures answer { IfOk result (λ b. reached_if t.now.texts s.new into.new all.new.items b ≡ block_declarator_at u.now lasting (tree into.old.known base.0) d init (reached_in t.now.texts s.old into.old all.old.items)) }
{
    let Some((name, line)) = declared_name(u, d) else {
        return Ok(false);
    };
    let has = is_given(init);
    let Some(made) = type_declared(u, t, s, into, has, base, d)? else {
        return Ok(false);
    };
    if is_function(into.types(), made.t) {
        return Ok(false);
    }
    let Some(object) = block_object(u, t, s, into, lasting, made.t, name, line, init)? else {
        return Ok(false);
    };
    reach(all, lasting, object, line)?;
    Ok(true)
}

/// The same of a node of the list of a declaration.
fn block_init_declarator(
    u: &Unit,
    t: &Tokens,
    s: &mut Scopes,
    into: &mut TypedUnit,
    lasting: bool,
    base: TypeId,
    n: NodeId,
    all: &mut Vec<Reached>,
) -> Result<bool, NoMemory>
    requires node { Is u.now is_declaration n }
    requires opened { IsOpen into.old s.old }
    requires known { base.0 < length into.old.known.terms }
    requires there { AreReached into.old all.old.items }
    ensures opened { IfOk result (OpenOn into.new s.new) }
    ensures goes { IfOk result (GoesOn into.old into.new) }
    ensures there { IfOk result (ReachedOn into.new all.new.items) }
    ensures answer { IfOk result (λ b. reached_if t.now.texts s.new into.new all.new.items b ≡ block_init_declarator_at u.now lasting (tree into.old.known base.0) n (reached_in t.now.texts s.old into.old all.old.items)) }
{
    match u.decl(n) {
        Decl::InitDeclarator { declarator, init } => {
            block_declarator(u, t, s, into, lasting, base, declarator, init, all)
        }
        Decl::Function { .. }
        | Decl::Declaration { .. }
        | Decl::Member { .. }
        | Decl::Enumerator { .. }
        | Decl::Parameter { .. }
        | Decl::TypeName { .. } => Ok(false),
    }
}

/// The declarators of a declaration in a block, in their order.
fn block_declarators(
    u: &Unit,
    t: &Tokens,
    s: &mut Scopes,
    into: &mut TypedUnit,
    lasting: bool,
    base: TypeId,
    list: ListId,
    all: &mut Vec<Reached>,
) -> Result<bool, NoMemory>
    requires list { IsListOf u.now is_declaration list }
    requires opened { IsOpen into.old s.old }
    requires known { base.0 < length into.old.known.terms }
    requires none { all.old.items ≡ [] }
    ensures opened { IfOk result (OpenOn into.new s.new) }
    ensures goes { IfOk result (GoesOn into.old into.new) }
    ensures there { IfOk result (ReachedOn into.new all.new.items) }
    ensures answer { IfOk result (λ b. reached_if t.now.texts s.new into.new all.new.items b ≡ block_declarators (trees_at u.now.forest list) lasting (tree into.old.known base.0) (state_in t.now.texts s.old into.old)) }
{
    let nodes = u.list(list);
    for n in nodes {
        if !block_init_declarator(u, t, s, into, lasting, base, *n, all)? {
            return Ok(false);
        }
    }
    Ok(true)
}

/// Specifiers alone in a block, which declare something (C17 6.7p2).
fn specifiers_alone(
    u: &Unit,
    t: &Tokens,
    s: &mut Scopes,
    into: &mut TypedUnit,
    specs: ListId,
) -> Result<bool, NoMemory>
    requires specs { IsListOf u.now is_specifier specs }
    requires opened { IsOpen into.old s.old }
    ensures opened { IfOk result (OpenOn into.new s.new) }
    ensures goes { IfOk result (GoesOn into.old into.new) }
    ensures answer { IfOk result (λ b. reached_if t.now.texts s.new into.new [] b ≡ block_alone None (trees_at u.now.forest specs) (state_in t.now.texts s.old into.old)) }
{
    let before = bound(s, into);
    let Some(x) = specified(u, t, s, into, specs)? else {
        return Ok(false);
    };
    let Some(_) = block_storage(x.storage) else {
        return Ok(false);
    };
    Ok(tags_alone(u, s, into, specs, before))
}

/// A declaration in a block without declarators.
fn block_alone(
    u: &Unit,
    t: &Tokens,
    s: &mut Scopes,
    into: &mut TypedUnit,
    specs: ListId,
) -> Result<bool, NoMemory>
    requires specs { IsListOf u.now is_specifier specs }
    requires opened { IsOpen into.old s.old }
    ensures opened { IfOk result (OpenOn into.new s.new) }
    ensures goes { IfOk result (GoesOn into.old into.new) }
    ensures answer { IfOk result (λ b. reached_if t.now.texts s.new into.new [] b ≡ block_alone (only_tag (trees_at u.now.forest specs)) (trees_at u.now.forest specs) (state_in t.now.texts s.old into.old)) }
{
    match only_tag(u, specs) {
        Some((word, name)) => {
            let b = tag_alone(s, into, word, name)?;
            Ok(b)
        }
        None => {
            let b = specifiers_alone(u, t, s, into, specs)?;
            Ok(b)
        }
    }
}

/// A declaration in a block with declarators.
fn block_declared(
    u: &Unit,
    t: &Tokens,
    s: &mut Scopes,
    into: &mut TypedUnit,
    specs: ListId,
    declared: ListId,
    all: &mut Vec<Reached>,
) -> Result<bool, NoMemory>
    requires specs { IsListOf u.now is_specifier specs }
    requires declared { IsListOf u.now is_declaration declared }
    requires opened { IsOpen into.old s.old }
    requires none { all.old.items ≡ [] }
    ensures opened { IfOk result (OpenOn into.new s.new) }
    ensures goes { IfOk result (GoesOn into.old into.new) }
    ensures there { IfOk result (ReachedOn into.new all.new.items) }
    ensures answer { IfOk result (λ b. reached_if t.now.texts s.new into.new all.new.items b ≡ block_declared (trees_at u.now.forest specs) (trees_at u.now.forest declared) (state_in t.now.texts s.old into.old)) }
{
    let Some(x) = specified(u, t, s, into, specs)? else {
        return Ok(false);
    };
    let Some(lasting) = block_storage(x.storage) else {
        return Ok(false);
    };
    let b = block_declarators(u, t, s, into, lasting, x.t, declared, all)?;
    Ok(b)
}

/// A declaration in a block, and the automatic objects that it reaches (C17 6.8.2p1).
pub(crate) fn block_declaration(
    u: &Unit,
    t: &Tokens,
    s: &mut Scopes,
    into: &mut TypedUnit,
    n: NodeId,
    all: &mut Vec<Reached>,
) -> Result<bool, NoMemory>
    requires node { Is u.now is_declaration n }
    requires opened { IsOpen into.old s.old }
    requires none { all.old.items ≡ [] }
    ensures opened { IfOk result (OpenOn into.new s.new) }
    ensures goes { IfOk result (GoesOn into.old into.new) }
    ensures there { IfOk result (ReachedOn into.new all.new.items) }
    ensures answer { IfOk result (λ b. reached_if t.now.texts s.new into.new all.new.items b ≡ block_declaration (declaration_at u.now.forest n) (state_in t.now.texts s.old into.old)) }
{
    match u.decl(n) {
        Decl::Declaration { specs, declared } => {
            let declarators = u.list(declared);
            if declarators.len() > 0 {
                block_declared(u, t, s, into, specs, declared, all)
            } else {
                block_alone(u, t, s, into, specs)
            }
        }
        Decl::Function { .. }
        | Decl::InitDeclarator { .. }
        | Decl::Member { .. }
        | Decl::Enumerator { .. }
        | Decl::Parameter { .. }
        | Decl::TypeName { .. } => Ok(false),
    }
}
