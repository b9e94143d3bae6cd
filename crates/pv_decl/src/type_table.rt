//! The type names that stand in parentheses.
ghost use Rattle.std.specs.Prelude.{◌≡◌, ◌<◌, ◌≤◌, ◌&&◌, ◌⊎◌, ℕ, false, length, drop, None, IfOk, IfSome};
ghost use Rattle.pv_tree.specs.Spells.{begins_type};
ghost use Rattle.pv_tree.specs.Tables.{Tables, declaration_at, is_declaration, is_declarator, Is, Extends};
ghost use Rattle.pv_tree.specs.TypeNames.{AreTied, TypeMap};
ghost use Rattle.pv_tree.specs.Units.{depth_limit};
ghost use Rattle.pv_expr_forms.specs.Known.{names_in};
ghost use Rattle.pv_expr_forms.specs.Spelled.{IsSpelled, IsLongest, IsOnly, NothingSpells};
ghost use Rattle.pv_decl_forms.specs.Answers.{Answers};
ghost use Rattle.pv_decl_forms.specs.Givens.{AreGiven, parameter_list};
ghost use Rattle.pv_decl_forms.specs.Grammar.{SpellsTypeName};
ghost use Rattle.pv_decl.specs.Filled.{list_map, entry};
ghost use Rattle.pv_decl.specs.NameTables.{type_map, no_names, with_name, is_behind_open, EachBehindOpen};

use crate::declarations::Declarations;
use crate::lists::ParameterLists;
use crate::sparse::Sparse;
use indexmap::IndexSet;
use pv_decl_forms::DEPTH_LIMIT;
use pv_expr_forms::{Source, begins_type, is_close, is_open, peek};
use pv_token::{Mark, NoMemory, TokenKind, Tokens};
use pv_tree::{NodeId, TypeReader, Unit};
use std::alloc::Global;
use std::marker::Model;

/// So many tokens are few for a list of parameters and the `)` behind it.
const FEW: u32 = 8;

/// The type names that begin at places behind a `(` (C17 6.7.7).
#[derive(Drop)]
pub struct TypeNames {
    /// The place behind the last one.
    to: u32,
    /// What begins at each place, from the last back to the first.
    found: Sparse<(NodeId, u32)>,
}

impl Model for TypeNames {
    ghost use Rattle.pv_decl.specs.NameTables.{NameTable};

    ghost Value = { NameTable };

    ghost view = { λ n. record { to = n.to; found = n.found } };
}

impl TypeNames {
    // No type names, before a place.
    fn new(alloc: Global, to: u32) -> TypeNames
        ensures { result ≡ no_names to }
    {
        TypeNames {
            to,
            found: Sparse::new(alloc),
        }
    }

    // One place more, before the others. The only error is want of memory.
    fn push(&mut self, found: Option<(NodeId, u32)>) -> Result<(), NoMemory>
        ensures { IfOk result (λ _. self.new ≡ with_name self.old found) }
    {
        self.found.push(found)?;
        Ok(())
    }
}

impl TypeReader for TypeNames {
    ghost use Rattle.pv_decl.specs.NameTables.{type_map};

    ghost types = { type_map };

    fn type_name(&self, at: u32) -> Option<(NodeId, u32)> {
        if at >= self.to {
            return None;
        }
        let back = (self.to - 1 - at) as usize;
        if back < self.found.len() {
            self.found.at(back)
        } else {
            None
        }
    }
}

// Whether `(` is the token before a place.
fn is_behind_open(t: &Tokens, at: u32) -> bool
    requires { at ≤ length t.now.tokens }
    ensures { result ≡ is_behind_open t.now.tokens at }
{
    if at == 0 {
        return false;
    }
    match peek(t, at - 1) {
        Some(token) => is_open(token.kind),
        None => false,
    }
}

// Whether `(` is before a place and a type name may begin there: most of what stands in parentheses is none by its first token.
fn opens_type(t: &Tokens, at: u32, types: &IndexSet<u32>) -> bool
    requires { at ≤ length t.now.tokens }
    ensures { (map : TypeMap) (u : Tables) → result ≡ (is_behind_open t.now.tokens at && begins_type (names_in types.now map u t.now.tokens) (drop at t.now.tokens)) }
{
    is_behind_open(t, at) && begins_type(t, types, at)
}

// The type name at a place, if `(` is before it, and the place behind the type name.
fn entry(
    t: &Tokens,
    at: u32,
    opens: bool,
    types: &IndexSet<u32>,
    names: &TypeNames,
    lists: &ParameterLists,
    into: &mut Unit,
) -> Result<Option<(NodeId, u32)>, NoMemory>
    requires place { at ≤ length t.now.tokens }
    requires opens { opens ≡ (is_behind_open t.now.tokens at && begins_type (names_in types.now (type_map names.now) into.old t.now.tokens) (drop at t.now.tokens)) }
    requires tied { AreGiven (list_map lists.now) types.now (type_map names.now) into.old t.now.tokens }
    ensures keeps { Extends into.old into.new }
    ensures ok { IfOk result (λ r. Answers into.new is_declaration t.now.tokens r (entry (names_in types.now (type_map names.now) into.old t.now.tokens) depth_limit t.now.tokens at)) }
{
    if !opens {
        return Ok(None);
    }
    let source = Source {
        tokens: t,
        typedefs: types,
        reader: names,
    };
    let declarations = Declarations { source, lists };
    declarations.type_name(at, DEPTH_LIMIT, into)
}

// Whether few tokens stand at a place before a `)`, and none of them opens a bracket. A list of parameters there has none
// within, so whoever asks for it reads it in a few steps; and most who open such a parenthesis, as casts do, ask for none.
// Every answer is right, since a list that isn't known is read.
fn closes_soon(t: &Tokens, at: u32) -> bool
    requires { at ≤ length t.now.tokens }
{
    let mut next = at;
    let mut left = FEW;
    while left > 0 {
        let Some(token) = peek(t, next) else {
            return false;
        };
        match token.kind {
            TokenKind::Mark(Mark::CloseParen) => return true,
            TokenKind::Mark(Mark::OpenParen | Mark::OpenBracket | Mark::OpenBrace) => return false,
            _ => {
                next += 1;
                left -= 1;
            }
        }
    }
    false
}

// Whether a list of parameters may be long at a place where a type name may begin, or may not. It isn't where the type name
// that is found there is one token before a `)`, as in most casts. (A hint: no promise rests on it.)
fn may_be_long(t: &Tokens, at: u32, opens: bool, found: Option<(NodeId, u32)>) -> bool {
    let Some((_, end)) = found else {
        return opens;
    };
    if end != at.saturating_add(1) {
        return opens;
    }
    if end >= t.len() {
        return opens;
    }
    opens && !is_close(t.at(end).kind)
}

// The list of parameters at a place, as an abstract declarator, if a type name may begin there behind a `(`, and the list
// may be long.
fn list_entry(
    t: &Tokens,
    at: u32,
    opens: bool,
    types: &IndexSet<u32>,
    names: &TypeNames,
    lists: &ParameterLists,
    into: &mut Unit,
) -> Result<Option<Option<(NodeId, u32)>>, NoMemory>
    requires place { at ≤ length t.now.tokens }
    requires tied { AreGiven (list_map lists.now) types.now (type_map names.now) into.old t.now.tokens }
    ensures keeps { Extends into.old into.new }
    ensures ok { IfOk result (λ r. IfSome r (λ o. Answers into.new is_declarator t.now.tokens o (parameter_list (names_in types.now (type_map names.now) into.old t.now.tokens) depth_limit (drop at t.now.tokens)))) }
{
    if !opens {
        return Ok(None);
    }
    if closes_soon(t, at) {
        return Ok(None);
    }
    let source = Source {
        tokens: t,
        typedefs: types,
        reader: names,
    };
    let declarations = Declarations { source, lists };
    Ok(Some(declarations.parameters(at, None, 0, DEPTH_LIMIT, into)?))
}

/// The longest type name of at most 500 levels of nesting that begins at each place from `from` to
/// before `to` whose token before is a `(`.
///
/// They are filled from the last place to the first, since a type name within another begins
/// later. So are the lists of parameters, and a list within another is not read once more: else
/// what stands in many of them would be read as often. `types` are the numbers of the typedef
/// names. The nodes are added to `into`, also those that turn out to be part of no type name. The
/// error is want of memory, or that `into` is full.
pub fn type_names(
    alloc: Global,
    t: &Tokens,
    from: u32,
    to: u32,
    types: &IndexSet<u32>,
    into: &mut Unit,
) -> Result<TypeNames, NoMemory>
    // Older nodes stay, also on a refusal.
    ensures keeps { Extends into.old into.new }
    // Each type name is a node that spells the tokens from its place.
    ensures tied { IfOk result (λ r. AreTied (type_map r) into.new t.now.tokens) }
    // What is found behind a `(` spells the tokens up to its end.
    ensures found { IfOk result (λ r. let spells = SpellsTypeName (names_in types.now (type_map r) into.new t.now.tokens) depth_limit t.now.tokens in
        EachBehindOpen t.now.tokens from to (λ at. IsSpelled (spells at) (Is into.new is_declaration) (declaration_at into.new.forest) t.now.tokens at (type_map r at))) }
    // No type name spells more.
    ensures longest { IfOk result (λ r. let spells = SpellsTypeName (names_in types.now (type_map r) into.new t.now.tokens) depth_limit t.now.tokens in
        EachBehindOpen t.now.tokens from to (λ at. IsLongest (spells at) t.now.tokens at (type_map r at))) }
    // No other type name spells the same.
    ensures only { IfOk result (λ r. let spells = SpellsTypeName (names_in types.now (type_map r) into.new t.now.tokens) depth_limit t.now.tokens in
        EachBehindOpen t.now.tokens from to (λ at. IsOnly (spells at) (declaration_at into.new.forest) (type_map r at))) }
    // Where nothing is found behind a `(`, no type name spells anything.
    ensures none { IfOk result (λ r. let spells = SpellsTypeName (names_in types.now (type_map r) into.new t.now.tokens) depth_limit t.now.tokens in
        EachBehindOpen t.now.tokens from to (λ at. type_map r at ≡ None → NothingSpells (spells at) t.now.tokens at)) }
    // Nothing is found at any other place.
    ensures elsewhere { IfOk result (λ r. (at : ℕ) → is_behind_open t.now.tokens at ≡ false → type_map r at ≡ None) }
    ensures outside { IfOk result (λ r. (at : ℕ) → (at < from) ⊎ (to ≤ at) → type_map r at ≡ None) }
{
    let end = to.min(t.len());
    let mut names = TypeNames::new(alloc, end);
    let mut lists = ParameterLists::new(alloc, end);
    let mut at = end;
    while at > from {
        at -= 1;
        let opens = opens_type(t, at, types);
        let found = entry(t, at, opens, types, &names, &lists, into)?;
        names.push(found)?;
        let asked = may_be_long(t, at, opens, found);
        let list = list_entry(t, at, asked, types, &names, &lists, into)?;
        lists.note(at, list)?;
    }
    Ok(names)
}
