// Types that typing makes.
ghost use Rattle.std.specs.Prelude.{◌≡◌, ◌<◌, length, IfOk, OnOk, IsTrue};
ghost use Rattle.pv_types.specs.Known.{tree, trees, tree_in, env};
ghost use Rattle.pv_types.specs.Formed.{IsKnown};
ghost use Rattle.pv_check.specs.Growing.{Grows, AreSized, is_sized};

use pv_types::{NoMemory, Term, TypeId, Types};

/// The number of the type with this outermost layer.
pub fn interned(types: &mut Types, term: Term) -> Result<TypeId, NoMemory>
    requires known { IsKnown types.old term }
    requires sized { AreSized types.old → IsTrue (is_sized (env types.old) (tree_in types.old.lists (trees types.old) term)) }
    ensures known { IfOk result (λ r. r.0 < length types.new.terms) }
    ensures tree { IfOk result (λ r. tree types.new r.0 ≡ tree_in types.new.lists (trees types.new) term) }
    ensures grows { OnOk result (Grows types.old types.new) }
{
    let r = types.intern(term)?;
    Ok(r)
}
