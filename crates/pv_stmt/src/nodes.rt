//! The finished statements of a unit.
ghost use Rattle.std.specs.Prelude.{◌≡◌};
ghost use Rattle.pv_tree.specs.Places.{ends_open};
ghost use Rattle.pv_tree.specs.Tables.{statement_at, is_statement, Is};

use pv_tree::{NodeId, Stmt, Unit};

/// Whether a statement ends with an `if` that has no `else` (C17 6.8.4.1p3).
pub(crate) fn ends_open(unit: &Unit, n: NodeId) -> bool
    requires { Is unit.now is_statement n }
    ensures { result ≡ ends_open (statement_at unit.now.forest n) }
{
    match unit.stmt(n) {
        Stmt::If(_, _) => true,
        Stmt::IfElse(_, _, last) | Stmt::While(_, last) => ends_open(unit, last),
        Stmt::For { body, .. } | Stmt::ForDeclaration { body, .. } => ends_open(unit, body),
        _ => false,
    }
}
