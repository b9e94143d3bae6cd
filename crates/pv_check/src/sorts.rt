//! What sort of type an expression has, qualifiers aside (C17 6.2.5).
ghost use Rattle.std.specs.Prelude.{◌≡◌, ◌<◌, length, is_some, IfSome};
ghost use Rattle.pv_types.specs.Known.{tree, env};
ghost use Rattle.pv_types.specs.SameTypes.{same_type};
ghost use Rattle.pv_types.specs.Qualifiers.{is_const};
ghost use Rattle.pv_check.specs.Sorts.{is_array, points_to_function, is_void_beside, has_void, complete_pointed_by, are_alike};
ghost use Rattle.pv_types.specs.Sorts.{kind_of, pointed_by, is_scalar, is_void, is_composite};
ghost use Rattle.pv_typed.specs.TypedTree.{is_function};
ghost use Rattle.pv_check.specs.SortParts.{is_truth};
ghost use Rattle.pv_check.specs.Shown.{type_if};

use pv_layout::bare;
use pv_num::IntKind;
use pv_types::{Term, TypeId, Types};

/// The kind of an integer type (C17 6.2.5p17).
pub fn kind_of(types: &Types, t: TypeId) -> Option<IntKind>
    requires { t.0 < length types.now.terms }
    ensures { result ≡ kind_of (tree types.now t.0) }
{
    match types.view(bare(types, t)) {
        Term::Int(kind) => Some(kind),
        _ => None,
    }
}

/// Whether it is an integer type (C17 6.2.5p17).
pub(crate) fn is_integer(types: &Types, t: TypeId) -> bool
    requires { t.0 < length types.now.terms }
    ensures { result ≡ is_some (kind_of (tree types.now t.0)) }
{
    match types.view(bare(types, t)) {
        Term::Int(_) => true,
        _ => false,
    }
}

/// What a pointer type points to (C17 6.2.5p20).
pub(crate) fn pointed_by(types: &Types, t: TypeId) -> Option<TypeId>
    requires { t.0 < length types.now.terms }
    ensures tree { type_if types.now result ≡ pointed_by (tree types.now t.0) }
    ensures known { IfSome result (λ u. u.0 < length types.now.terms) }
{
    match types.view(bare(types, t)) {
        Term::Pointer(to) => Some(to),
        _ => None,
    }
}

/// The complete object type that a pointer type points to (C17 6.5.6p2).
pub(crate) fn complete_pointed_by(types: &Types, t: TypeId) -> Option<TypeId>
    requires { t.0 < length types.now.terms }
    ensures tree { type_if types.now result ≡ complete_pointed_by (env types.now) (tree types.now t.0) }
    ensures known { IfSome result (λ u. u.0 < length types.now.terms) }
{
    let to = pointed_by(types, t)?;
    if types.is_complete(to) {
        Some(to)
    } else {
        None
    }
}

/// Whether it is an integer or a pointer type (C17 6.2.5p21).
pub fn is_scalar(types: &Types, t: TypeId) -> bool
    requires { t.0 < length types.now.terms }
    ensures { result ≡ is_scalar (tree types.now t.0) }
{
    match types.view(bare(types, t)) {
        Term::Int(_) | Term::Pointer(_) => true,
        _ => false,
    }
}

/// Whether it is `void` (C17 6.2.5p19).
pub fn is_void(types: &Types, t: TypeId) -> bool
    requires { t.0 < length types.now.terms }
    ensures { result ≡ is_void (tree types.now t.0) }
{
    match types.view(bare(types, t)) {
        Term::Void => true,
        _ => false,
    }
}

/// Whether it is a structure or a union (C17 6.2.5p20).
pub(crate) fn is_composite(types: &Types, t: TypeId) -> bool
    requires { t.0 < length types.now.terms }
    ensures { result ≡ is_composite (tree types.now t.0) }
{
    match types.view(bare(types, t)) {
        Term::Struct(_) | Term::Union(_) => true,
        _ => false,
    }
}

/// Whether it is an array type (C17 6.2.5p20).
pub(crate) fn is_array(types: &Types, t: TypeId) -> bool
    requires { t.0 < length types.now.terms }
    ensures { result ≡ is_array (tree types.now t.0) }
{
    match types.view(t) {
        Term::Array(_, _) => true,
        _ => false,
    }
}

/// Whether it has `const` itself (C17 6.2.5p26).
pub(crate) fn is_const(types: &Types, t: TypeId) -> bool
    requires { t.0 < length types.now.terms }
    ensures { result ≡ is_const (tree types.now t.0) }
{
    match types.view(t) {
        Term::Const(_) => true,
        _ => false,
    }
}

/// Whether the two are compatible, qualifiers aside.
pub(crate) fn are_alike(types: &Types, t: TypeId, u: TypeId) -> bool
    requires left { t.0 < length types.now.terms }
    requires right { u.0 < length types.now.terms }
    ensures { result ≡ are_alike (tree types.now t.0) (tree types.now u.0) }
{
    types.compatible(bare(types, t), bare(types, u))
}

/// Whether the two are one type.
pub fn same(types: &Types, t: TypeId, u: TypeId) -> bool
    requires left { t.0 < length types.now.terms }
    requires right { u.0 < length types.now.terms }
    ensures { result ≡ same_type (tree types.now t.0) (tree types.now u.0) }
{
    let _layer = types.view(t);
    t == u
}

/// Whether it is a pointer to a function (C17 6.2.5p20).
pub(crate) fn points_to_function(types: &Types, t: TypeId) -> bool
    requires { t.0 < length types.now.terms }
    ensures { result ≡ points_to_function (tree types.now t.0) }
{
    match pointed_by(types, t) {
        Some(to) => is_function(types, to),
        None => false,
    }
}

/// Whether the left one is `void`, and the right one no function (C17 6.3.2.3p1).
pub(crate) fn is_void_beside(types: &Types, t: TypeId, u: TypeId) -> bool
    requires left { t.0 < length types.now.terms }
    requires right { u.0 < length types.now.terms }
    ensures { result ≡ is_void_beside (tree types.now t.0) (tree types.now u.0) }
{
    is_void(types, t) && !is_function(types, u)
}

/// Whether one is `void`, and the other no function (C17 6.3.2.3p1).
pub(crate) fn has_void(types: &Types, t: TypeId, u: TypeId) -> bool
    requires left { t.0 < length types.now.terms }
    requires right { u.0 < length types.now.terms }
    ensures { result ≡ has_void (tree types.now t.0) (tree types.now u.0) }
{
    is_void_beside(types, t, u) || is_void_beside(types, u, t)
}

/// Whether it is `_Bool` (C17 6.2.5p6).
pub(crate) fn is_truth(types: &Types, t: TypeId) -> bool
    requires { t.0 < length types.now.terms }
    ensures { result ≡ is_truth (tree types.now t.0) }
{
    match kind_of(types, t) {
        Some(IntKind::Bool) => true,
        _ => false,
    }
}

/// Whether it is a function type (C17 6.2.5p20).
pub fn is_function(types: &Types, t: TypeId) -> bool
    requires { t.0 < length types.now.terms }
    ensures { result ≡ is_function (tree types.now t.0) }
{
    match types.view(t) {
        Term::Function { .. } => true,
        _ => false,
    }
}
