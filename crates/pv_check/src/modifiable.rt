// Lvalues that may be changed (C17 6.3.2.1p1).
ghost use Rattle.std.specs.Prelude.{◌≡◌};
ghost use Rattle.pv_typed.specs.NodeTrees.{expression_at, IsExpression};
ghost use Rattle.pv_typed.specs.Known.{AreKnown};
ghost use Rattle.pv_check.specs.Kept.{env_of};
ghost use Rattle.pv_check.specs.Values.{is_modifiable};

use crate::sorts::is_array;
use crate::values::is_lvalue;
use pv_tree::NodeId;
use pv_typed::TypedUnit;

/// Whether it is a modifiable lvalue (C17 6.3.2.1p1): of a complete object type that is no array, and of which no part
/// is `const`.
pub(crate) fn is_modifiable(into: &TypedUnit, a: NodeId) -> bool
    requires known { AreKnown into.now }
    requires node { IsExpression into.now a }
    ensures { result ≡ is_modifiable (env_of into.now) (expression_at into.now a) }
{
    let t = into.type_of(a);
    let types = into.types();
    if !is_lvalue(into, a) || is_array(types, t) {
        return false;
    }
    types.is_complete(t) && !types.has_const(t)
}
