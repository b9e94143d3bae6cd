// Access to objects that have a declared type.
ghost use Rattle.std.specs.Prelude.{◌≡◌, ◌<◌, ◌≤◌, ◌^◌, length, IsTrue};
ghost use Rattle.pv_types.specs.Known.{tree, env};
ghost use Rattle.pv_types.specs.Layouts.{layout_in, is_complete_in};
ghost use Rattle.pv_effect.specs.EffectiveType.{permits_declared};

use crate::kinds::{is_character, is_composite};
use pv_layout::{leaf_at, part_at};
use pv_types::{TypeId, Types};

/// Whether an object of the declared type `whole` may be accessed at the offset, in bytes, through an lvalue of the
/// type `want` (C17 6.5p7).
///
/// An lvalue of character type may access it at every offset, also past its end. One of another scalar type needs a
/// scalar there, in whatever members of unions, whose type is, qualifiers aside, compatible with `want` or its signed
/// or unsigned counterpart. One of a structure or union needs one there that is, qualifiers aside, compatible. No
/// lvalue of array type accesses anything (C17 6.3.2.1p3): of these the answer is `false`.
pub fn permits_declared(types: &Types, whole: TypeId, offset: u64, want: TypeId) -> bool
    requires whole { whole.0 < length types.now.terms }
    requires whole_complete { IsTrue (is_complete_in (env types.now) (tree types.now whole.0)) }
    requires whole_small { (layout_in (env types.now) (tree types.now whole.0)).size ≤ 2 ^ 32 }
    requires want { want.0 < length types.now.terms }
    requires want_complete { IsTrue (is_complete_in (env types.now) (tree types.now want.0)) }
    requires want_small { (layout_in (env types.now) (tree types.now want.0)).size ≤ 2 ^ 32 }
    ensures { result ≡ permits_declared (layout_in (env types.now) (tree types.now whole.0)).parts offset (tree types.now want.0) }
{
    if is_character(types, want) {
        return true;
    }
    if is_composite(types, want) {
        part_at(types, whole, offset, want)
    } else {
        leaf_at(types, whole, offset, want)
    }
}
