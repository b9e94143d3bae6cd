//! The first external declarations of some tokens (C17 6.9).
ghost use Rattle.std.specs.Prelude.{◌≡◌, ◌≤◌, ℕ, List, length, None, IfOk, IfSome};
ghost use Rattle.indexmap.specs.IndexSet.{IsEmpty};
ghost use Rattle.pv_token.specs.declared.token_table.Token.{Token};
ghost use Rattle.pv_tree.specs.Syntax.{DeclarationTree};
ghost use Rattle.pv_tree.specs.Tables.{no_tables};
ghost use Rattle.pv_tree.specs.Units.{no_types, SpellExternals, IsWhole};
ghost use Rattle.pv_stmt.specs.Behind.{IsBehind, SomeBehind};

use crate::external::external;
use crate::typedefs::add_types;
use indexmap::IndexSet;
use pv_token::{NoMemory, Tokens};
use pv_tree::Unit;
use std::alloc::Global;

/// The place behind the first `count` external declarations (C17 6.9p1): the index, from 0, of the token that stands there, and the number
/// of the tokens where none does.
///
/// There is none where the tokens don't begin with so many.
pub fn begins(alloc: Global, t: &Tokens, count: u32) -> Result<Option<u32>, NoMemory>
    ensures place { IfOk result (λ r. IfSome r (λ place. IsBehind t.now.tokens count place)) }
    ensures none { IfOk result (λ r. r ≡ None → (place : ℕ) → IsBehind t.now.tokens count place → ⊥) }
{
    let mut unit = Unit::new(alloc);
    // The typedef names are let go before an error is passed on.
    place_behind(alloc, t, count, &mut IndexSet::new(alloc), &mut unit)
}

/// Reads external declarations into an empty unit until it has so many. The typedef names are added to a set that is empty at first.
fn place_behind(
    alloc: Global,
    t: &Tokens,
    count: u32,
    types: &mut IndexSet<u32>,
    into: &mut Unit,
) -> Result<Option<u32>, NoMemory>
    requires types { IsEmpty types.old }
    requires unit { into.old ≡ no_tables }
    ensures place { IfOk result (λ r. IfSome r (λ place. IsBehind t.now.tokens count place)) }
    ensures none { IfOk result (λ r. r ≡ None → (place : ℕ) → IsBehind t.now.tokens count place → ⊥) }
{
    let mut at = 0;
    while into.count() < count {
        let Some((declaration, end)) = external(alloc, t, at, types, into)? else {
            return Ok(None);
        };
        into.add_external(declaration)?;
        add_types(into, declaration, types)?;
        at = end;
    }
    Ok(Some(at))
}

/// A law: behind so many external declarations there is one place at most.
pub fn one_place()
    ensures { (tokens : List Token) (n p q : ℕ) → IsBehind tokens n p → IsBehind tokens n q → p ≡ q }
{}

/// A law: behind as many external declarations as spell the first tokens there is a place, and so there is behind fewer.
pub fn so_many_begin()
    ensures fewer { (tokens left : List Token) (ds : List DeclarationTree) (n : ℕ) →
        SpellExternals no_types ds tokens left → n ≤ length ds → SomeBehind tokens n }
    ensures whole { (tokens : List Token) (n : ℕ) → IsWhole tokens n → SomeBehind tokens n }
{}
