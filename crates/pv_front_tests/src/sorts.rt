// Which sort of types a type is of (C17 6.2.5), as the typing of expressions asks.
use pv_check::{is_function, is_scalar, is_void, kind_of, same_type};
use pv_num::IntKind;
use pv_types::{Term, TypeId, Types};
use std::alloc::Global;

/// A qualified integer type is of its kind, and a scalar type.
fn has_its_kind(types: &mut Types) -> bool {
    let Ok(long) = types.intern(Term::Int(IntKind::Long)) else {
        return false;
    };
    match types.intern(Term::Const(long)) {
        Ok(constant) => {
            kind_of(types, constant) == Some(IntKind::Long)
                && is_scalar(types, constant)
                && !is_void(types, constant)
                && is_other(types, long, constant)
        }
        Err(_) => false,
    }
}

/// The first type is the same as itself, but not as the second.
fn is_other(types: &Types, t: TypeId, u: TypeId) -> bool {
    if !types.has(t) {
        return false;
    }
    if !types.has(u) {
        return false;
    }
    same_type(types, t, t) && !same_type(types, t, u)
}

/// `void`, and a function that takes and gives nothing.
fn are_no_scalars(alloc: Global, types: &mut Types) -> bool {
    let Ok(void) = types.intern(Term::Void) else {
        return false;
    };
    if is_scalar(types, void) || !is_void(types, void) {
        return false;
    }
    let Ok(params) = types.params(Vec::new(alloc)) else {
        return false;
    };
    let term = Term::Function {
        result: void,
        params,
        variadic: false,
    };
    match types.intern(term) {
        Ok(function) => is_function(types, function) && kind_of(types, function).is_none(),
        Err(_) => false,
    }
}

/// Both.
pub(crate) fn are_told_apart(alloc: Global, types: &mut Types) -> bool {
    has_its_kind(types) && are_no_scalars(alloc, types)
}
