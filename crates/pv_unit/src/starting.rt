//! The tables and the scopes before the first declaration of a unit.
ghost use Rattle.std.specs.Prelude.{◌≡◌, ◌∷◌, [], IfOk, OnOk};
ghost use Rattle.pv_typed.specs.Formed.{Grown};
ghost use Rattle.pv_typed.specs.Tables.{whole_unit};
ghost use Rattle.pv_check.specs.Raw.{no_raw};
ghost use Rattle.pv_unit.specs.Starting.{with_name_behind, IsFirst};

use pv_check::Scopes;
use pv_token::Tokens;
use pv_typed::TypedUnit;
use pv_types::NoMemory;
use std::alloc::Global;

/// Adds a name behind the others. One that is there already gives want of memory: the names of tokens differ, and none
/// begins with `@`.
fn add_name(into: &mut TypedUnit, text: &[u8]) -> Result<(), NoMemory>
    ensures names { OnOk result (whole_unit into.new ≡ with_name_behind (whole_unit into.old) text.now) }
    ensures types { OnOk result (into.new.known ≡ into.old.known) }
    ensures grown { OnOk result (Grown into.old into.new) }
{
    let next = into.names().len();
    let n = into.add_name(text)?;
    if n == next { Ok(()) } else { Err(NoMemory) }
}

/// Empty tables, with the names of the tokens behind the two that no token has.
pub(crate) fn named_unit(alloc: Global, t: &Tokens) -> Result<TypedUnit, NoMemory>
    ensures { IfOk result (IsFirst t.now) }
{
    let mut into = TypedUnit::new(alloc)?;
    for n in 0..t.names_len() {
        add_name(&mut into, t.name(n))?;
    }
    Ok(into)
}

/// The scope of a file (C17 6.2.1p4), with nothing in it.
pub(crate) fn first_scopes(alloc: Global) -> Result<Scopes, NoMemory>
    ensures { IfOk result (λ s. s ≡ record { scopes = no_raw ∷ []; used = [] }) }
{
    let mut s = Scopes::new(alloc);
    s.enter()?;
    Ok(s)
}
