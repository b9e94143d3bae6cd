// The composite type of two compatible types (C17 6.2.7p3).
ghost use Rattle.std.specs.Prelude.{◌≡◌, ◌<◌, ◌≤◌, Option, length, IfOk, OnOk, IsTrue};
ghost use Rattle.pv_types.specs.Formed.{are_adjusted, AllBelow, parameters_at};
ghost use Rattle.pv_types.specs.Known.{tree, trees, tys_in};
ghost use Rattle.pv_types.specs.Compatible.{are_compatible};
ghost use Rattle.pv_types.specs.Matching.{Matches, MatchAll};
ghost use Rattle.pv_check.specs.Composite.{composite_of, composites};
ghost use Rattle.std.specs.Option.{option_or};
ghost use Rattle.pv_check.specs.Growing.{Grows};
ghost use Rattle.pv_check.specs.Signatures.{IsSignature, signature_in};

use crate::interning::interned;
use pv_types::{NoMemory, Term, TypeId, Types};
use std::alloc::Global;

/// What a function type is made of.
#[derive(Clone, Copy)]
struct Signature {
    result: TypeId,
    params: u32,
    variadic: bool,
}

/// The composite type of two compatible types (C17 6.2.7p3).
pub fn composite(alloc: Global, types: &mut Types, a: TypeId, b: TypeId) -> Result<TypeId, NoMemory>
    requires left { a.0 < length types.old.terms }
    requires right { b.0 < length types.old.terms }
    requires compatible { IsTrue (are_compatible (tree types.old a.0) (tree types.old b.0)) }
    ensures known { IfOk result (λ r. r.0 < length types.new.terms) }
    ensures tree { IfOk result (λ r. tree types.new r.0 ≡ composite_of (tree types.old a.0) (tree types.old b.0)) }
    ensures grows { OnOk result (Grows types.old types.new) }
{
    let r = joined(alloc, types, a, b)?;
    Ok(r)
}

/// A size that one of them knows (C17 6.2.7p3).
fn known_size(m: Option<u64>, n: Option<u64>) -> Option<u64>
    ensures { result ≡ option_or m n }
{
    match m {
        Some(_) => m,
        None => n,
    }
}

/// The number of a list of parameters' types.
fn listed(types: &mut Types, list: Vec<TypeId>) -> Result<u32, NoMemory>
    requires known { AllBelow (length types.old.terms) list.items }
    requires adjusted { IsTrue (are_adjusted (tys_in (trees types.old) list.items)) }
    ensures number { IfOk result (λ p. p < length types.new.lists) }
    ensures list { IfOk result (λ p. parameters_at types.new p ≡ tys_in (trees types.old) list.items) }
    ensures grows { OnOk result (Grows types.old types.new) }
{
    let p = types.params(list)?;
    Ok(p)
}

/// The composite type of two that are compatible, but for qualifiers around them.
#[cycle(joined)]
fn joined(alloc: Global, types: &mut Types, a: TypeId, b: TypeId) -> Result<TypeId, NoMemory>
    requires left { a.0 < length types.old.terms }
    requires right { b.0 < length types.old.terms }
    requires matching { Matches (tree types.old a.0) (tree types.old b.0) }
    ensures known { IfOk result (λ r. r.0 < length types.new.terms) }
    ensures tree { IfOk result (λ r. tree types.new r.0 ≡ composite_of (tree types.old a.0) (tree types.old b.0)) }
    ensures grows { OnOk result (Grows types.old types.new) }
{
    if a.0 == b.0 {
        return Ok(a);
    }
    match types.view(a) {
        Term::Pointer(t) => {
            let Term::Pointer(u) = types.view(b) else {
                return Ok(a);
            };
            let inner = joined(alloc, types, t, u)?;
            let r = interned(types, Term::Pointer(inner))?;
            Ok(r)
        }
        Term::Array(t, m) => {
            let Term::Array(u, n) = types.view(b) else {
                return Ok(a);
            };
            let inner = joined(alloc, types, t, u)?;
            let r = interned(types, Term::Array(inner, known_size(m, n)))?;
            Ok(r)
        }
        Term::Const(t) => {
            let Term::Const(u) = types.view(b) else {
                return Ok(a);
            };
            let inner = joined(alloc, types, t, u)?;
            let r = interned(types, Term::Const(inner))?;
            Ok(r)
        }
        Term::Function {
            result,
            params,
            variadic,
        } => {
            let left = Signature {
                result,
                params,
                variadic,
            };
            let Term::Function {
                result,
                params,
                variadic,
            } = types.view(b)
            else {
                return Ok(a);
            };
            let right = Signature {
                result,
                params,
                variadic,
            };
            joined_function(alloc, types, a.0, left, right)
        }
        Term::Void | Term::Int(_) | Term::Struct(_) | Term::Union(_) => Ok(a),
    }
}

/// The composite type of two function types, the first with parts below the bound.
#[cycle(joined)]
fn joined_function(
    alloc: Global,
    types: &mut Types,
    bound: u32,
    left: Signature,
    right: Signature,
) -> Result<TypeId, NoMemory>
    requires bound { bound ≤ length types.old.terms }
    requires left { IsSignature types.old bound left }
    requires right { IsSignature types.old (length types.old.terms) right }
    requires matching { Matches (signature_in types.old left) (signature_in types.old right) }
    ensures known { IfOk result (λ r. r.0 < length types.new.terms) }
    ensures tree { IfOk result (λ r. tree types.new r.0 ≡ composite_of (signature_in types.old left) (signature_in types.old right)) }
    ensures grows { OnOk result (Grows types.old types.new) }
{
    let Ok(firsts) = Vec::from_slice(alloc, types.param_list(left.params)) else {
        return Err(NoMemory);
    };
    let Ok(seconds) = Vec::from_slice(alloc, types.param_list(right.params)) else {
        return Err(NoMemory);
    };
    let Ok(list) = joined_list(alloc, types, bound, &firsts, &seconds) else {
        return Err(NoMemory);
    };
    let Ok(params) = listed(types, list) else {
        return Err(NoMemory);
    };
    let Ok(result) = joined(alloc, types, left.result, right.result) else {
        return Err(NoMemory);
    };
    let whole = Term::Function {
        result,
        params,
        variadic: left.variadic,
    };
    let Ok(r) = interned(types, whole) else {
        return Err(NoMemory);
    };
    Ok(r)
}

/// The composite types of two lists of parameters' types, the first below the bound.
#[cycle(joined)]
fn joined_list(
    alloc: Global,
    types: &mut Types,
    bound: u32,
    left: &[TypeId],
    right: &[TypeId],
) -> Result<Vec<TypeId>, NoMemory>
    requires bound { bound ≤ length types.old.terms }
    requires left { AllBelow bound left.now }
    requires right { AllBelow (length types.old.terms) right.now }
    requires matching { MatchAll (tys_in (trees types.old) left.now) (tys_in (trees types.old) right.now) }
    ensures known { IfOk result (λ l. AllBelow (length types.new.terms) l.items) }
    ensures list { IfOk result (λ l. tys_in (trees types.new) l.items ≡ composites (tys_in (trees types.old) left.now) (tys_in (trees types.old) right.now)) }
    ensures grows { OnOk result (Grows types.old types.new) }
{
    let mut list = Vec::new(alloc);
    let mut i = 0;
    while i < left.len() {
        let Ok(one) = joined(alloc, types, left[i], right[i]) else {
            return Err(NoMemory);
        };
        list.push(one)?;
        i += 1;
    }
    Ok(list)
}
