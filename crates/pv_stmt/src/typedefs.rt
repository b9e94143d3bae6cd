//! The typedef names that external declarations add (C17 6.7.8p3).
ghost use Rattle.std.specs.Prelude.{◌≡◌, ℕ, OnOk, nat_eq};
ghost use Rattle.indexmap.specs.IndexSet.{contains};
ghost use Rattle.pv_tree.specs.Tables.{declaration_at, is_declaration, Is};
ghost use Rattle.pv_tree.specs.Units.{with_types};

use indexmap::IndexSet;
use pv_stmt_forms::{add_all, add_name, has_typedef};
use pv_token::NoMemory;
use pv_tree::{Decl, NodeId, Unit};

/// Adds the names that an external declaration declares with `typedef`.
pub(crate) fn add_types(
    unit: &Unit,
    external: NodeId,
    types: &mut IndexSet<u32>,
) -> Result<(), NoMemory>
    requires { Is unit.now is_declaration external }
    ensures { OnOk result ((m : ℕ) → contains nat_eq types.new m ≡ with_types (contains nat_eq types.old) (declaration_at unit.now.forest external) m) }
{
    match unit.decl(external) {
        Decl::Function {
            specs,
            declarator,
            ..
        } => {
            if has_typedef(unit, specs) {
                add_name(unit, declarator, types)
            } else {
                Ok(())
            }
        }
        Decl::Declaration { specs, declared } => {
            if has_typedef(unit, specs) {
                add_all(unit, declared, types)
            } else {
                Ok(())
            }
        }
        _ => Ok(()),
    }
}
