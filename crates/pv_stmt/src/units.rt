//! Translation units (C17 6.9).
ghost use Rattle.std.specs.Prelude.{◌≡◌, ◌≤◌, ℕ, List, length, drop, Err, IfOk};
ghost use Rattle.indexmap.specs.IndexSet.{IsEmpty};
ghost use Rattle.pv_token.specs.declared.token_table.Token.{Token};
ghost use Rattle.pv_tree.specs.Syntax.{DeclarationTree};
ghost use Rattle.pv_tree.specs.Tables.{no_tables};
ghost use Rattle.pv_tree.specs.Units.{no_types, SpellUnit, IsWhole};
ghost use Rattle.pv_stmt_forms.specs.Externals.{units};
ghost use Rattle.pv_stmt_forms.specs.Units.{externals_of};
ghost use Rattle.pv_stmt.specs.declared.units.SynError.TheVariants.{NoMemory as OutOfMemory};

use crate::external::external;
use crate::typedefs::add_types;
use indexmap::IndexSet;
use pv_token::{NoMemory, Tokens};
use pv_tree::Unit;
use std::alloc::Global;
use thiserror::Error;

/// Why tokens have no translation unit.
#[derive(Clone, Copy, Debug, Error)]
pub enum SynError {
    /// No row of external declarations spells the tokens. At most `whole` of them spell their
    /// beginning: what stands behind these is none.
    #[error("no external declaration stands behind the first {whole}")]
    Syntax { whole: u32 },
    /// Memory ran out, or a table of the unit is full. The tokens may be a unit or not.
    #[error("out of memory")]
    NoMemory,
}

impl From<NoMemory> for SynError {
    ghost from_gives = { λ _ e. e ≡ OutOfMemory };

    fn from(_e: NoMemory) -> SynError {
        SynError::NoMemory
    }
}

/// Reads external declarations into an empty unit as long as there are any, and gives the place
/// behind them. The typedef names are added to a set that is empty at first.
fn read_all(
    alloc: Global,
    t: &Tokens,
    types: &mut IndexSet<u32>,
    into: &mut Unit,
) -> Result<u32, NoMemory>
    requires types { IsEmpty types.old }
    requires unit { into.old ≡ no_tables }
    ensures place { IfOk result (λ end. end ≤ length t.now.tokens) }
    ensures reads { IfOk result (λ end. ◌≡◌ {A = List DeclarationTree × List Token} (externals_of into.new, drop end t.now.tokens) (units no_types t.now.tokens)) }
{
    let mut at = 0;
    while let Some((declaration, end)) = external(alloc, t, at, types, into)? {
        into.add_external(declaration)?;
        add_types(into, declaration, types)?;
        at = end;
    }
    Ok(at)
}

/// The translation unit that the tokens are (C17 6.9p1).
///
/// Its external declarations spell all tokens in order, each of at most 500 levels of nesting, and
/// no others do. The name that a declaration with `typedef` declares is a typedef name from behind
/// that external declaration on, and no name else. No tokens are a unit without external
/// declarations.
pub fn unit(alloc: Global, t: &Tokens) -> Result<Unit, SynError>
    // The external declarations spell the tokens.
    ensures spelled { IfOk result (λ u. SpellUnit t.now.tokens (externals_of u)) }
    // No others do.
    ensures only { IfOk result (λ u. (ds : List DeclarationTree) → SpellUnit t.now.tokens ds → ds ≡ externals_of u) }
    // Where it is refused, none do, and no more than so many spell the first tokens.
    ensures syntax { (whole : ℕ) → result ≡ Err (SynError.Syntax whole) → ((ds : List DeclarationTree) → SpellUnit t.now.tokens ds → ⊥) × IsWhole t.now.tokens whole }
{
    // Most tokens come to a node at most, and few to two.
    let count = t.len() as usize;
    let mut unit = Unit::with_room(alloc, 2 * count)?;
    // The typedef names are let go before an error is passed on.
    let read = read_all(alloc, t, &mut IndexSet::new(alloc), &mut unit);
    let end = read?;
    if end < t.len() {
        return Err(SynError::Syntax {
            whole: unit.count(),
        });
    }
    Ok(unit)
}
