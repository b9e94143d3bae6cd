// What kind of type it is, qualifiers aside.
ghost use Rattle.std.specs.Prelude.{◌≡◌, ◌<◌, length};
ghost use Rattle.pv_types.specs.Known.{tree};
ghost use Rattle.pv_effect.specs.EffectiveType.{same_or_counterpart};
ghost use Rattle.pv_types.specs.Sorts.{is_composite, is_character};

use pv_layout::{bare, leaf_at};
use pv_num::is_character_kind;
use pv_types::{Term, TypeId, Types};

/// Whether it is a character type (C17 6.2.5p15).
pub(crate) fn is_character(types: &Types, t: TypeId) -> bool
    requires { t.0 < length types.now.terms }
    ensures { result ≡ is_character (tree types.now t.0) }
{
    match types.view(bare(types, t)) {
        Term::Int(kind) => is_character_kind(kind),
        _ => false,
    }
}

/// Whether it is a structure or union.
pub(crate) fn is_composite(types: &Types, t: TypeId) -> bool
    requires { t.0 < length types.now.terms }
    ensures { result ≡ is_composite (tree types.now t.0) }
{
    match types.view(bare(types, t)) {
        Term::Struct(_) | Term::Union(_) => true,
        _ => false,
    }
}

/// Whether one of two types is the other or its signed or unsigned counterpart (C17 6.2.5p6).
///
/// Of integer types only equal ones are compatible, so for these `leaf_at` tells it.
pub(crate) fn same_or_counterpart(types: &Types, t: TypeId, u: TypeId) -> bool
    requires left { t.0 < length types.now.terms }
    requires right { u.0 < length types.now.terms }
    ensures { result ≡ same_or_counterpart (tree types.now t.0) (tree types.now u.0) }
{
    let one = bare(types, t);
    match types.view(one) {
        Term::Int(_) => leaf_at(types, one, 0, u),
        _ => one.0 == bare(types, u).0,
    }
}
