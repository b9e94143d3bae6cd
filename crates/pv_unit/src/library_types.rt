//! The types of the library's functions (C17 7.21.6.3, 7.22.3, 7.22.4, 7.24), in a table of types.
ghost use Rattle.std.specs.Prelude.{◌≡◌, ◌<◌, length, IfOk, OnOk};
ghost use Rattle.pv_num.specs.declared.kinds.IntKind.TheVariants.{Char};
ghost use Rattle.pv_types.specs.Ty.{FunctionTy, IntTy, PointerTo, VoidTy};
ghost use Rattle.pv_types.specs.Known.{tree, trees, tys_in};
ghost use Rattle.pv_types.specs.Formed.{AllBelow, parameters_at};
ghost use Rattle.pv_check.specs.Growing.{Grows};
ghost use Rattle.pv_library.specs.LibraryTypes.{prototype};
ghost use Rattle.pv_unit.specs.Prototypes.{constant_if, simple_type, simple_types};

use pv_check::interned;
use pv_library::Library;
use pv_num::IntKind;
use pv_types::{NoMemory, Term, TypeId, Types};
use std::alloc::Global;

/// The types of results and parameters of the library's functions.
#[derive(Clone, Copy)]
pub(crate) enum Simple {
    Void,
    Int,
    /// `unsigned long`
    Size,
    /// `void *`
    Bytes,
    /// `const void *`
    ConstantBytes,
    /// `char *`
    Text,
    /// `const char *`
    ConstantText,
}

/// The type with `const`, if that is wanted.
fn constant_if(types: &mut Types, constant: bool, t: TypeId) -> Result<TypeId, NoMemory>
    requires { t.0 < length types.old.terms }
    ensures known { IfOk result (λ r. r.0 < length types.new.terms) }
    ensures tree { IfOk result (λ r. tree types.new r.0 ≡ constant_if constant (tree types.old t.0)) }
    ensures grows { OnOk result (Grows types.old types.new) }
{
    if !constant {
        return Ok(t);
    }
    let r = interned(types, Term::Const(t))?;
    Ok(r)
}

/// A pointer to the type.
fn pointer(types: &mut Types, t: TypeId) -> Result<TypeId, NoMemory>
    requires { t.0 < length types.old.terms }
    ensures known { IfOk result (λ r. r.0 < length types.new.terms) }
    ensures tree { IfOk result (λ r. tree types.new r.0 ≡ PointerTo (tree types.old t.0)) }
    ensures grows { OnOk result (Grows types.old types.new) }
{
    let r = interned(types, Term::Pointer(t))?;
    Ok(r)
}

/// `void *` or `const void *`.
fn to_void(types: &mut Types, constant: bool) -> Result<TypeId, NoMemory>
    ensures known { IfOk result (λ r. r.0 < length types.new.terms) }
    ensures tree { IfOk result (λ r. tree types.new r.0 ≡ PointerTo (constant_if constant VoidTy)) }
    ensures grows { OnOk result (Grows types.old types.new) }
{
    let void = interned(types, Term::Void)?;
    let target = constant_if(types, constant, void)?;
    let r = pointer(types, target)?;
    Ok(r)
}

/// `char *` or `const char *`.
fn to_char(types: &mut Types, constant: bool) -> Result<TypeId, NoMemory>
    ensures known { IfOk result (λ r. r.0 < length types.new.terms) }
    ensures tree { IfOk result (λ r. tree types.new r.0 ≡ PointerTo (constant_if constant (IntTy Char))) }
    ensures grows { OnOk result (Grows types.old types.new) }
{
    let char = interned(types, Term::Int(IntKind::Char))?;
    let target = constant_if(types, constant, char)?;
    let r = pointer(types, target)?;
    Ok(r)
}

/// One of those types.
fn simple_type(types: &mut Types, x: Simple) -> Result<TypeId, NoMemory>
    ensures known { IfOk result (λ r. r.0 < length types.new.terms) }
    ensures tree { IfOk result (λ r. tree types.new r.0 ≡ simple_type x) }
    ensures grows { OnOk result (Grows types.old types.new) }
{
    match x {
        Simple::Void => interned(types, Term::Void),
        Simple::Int => interned(types, Term::Int(IntKind::Int)),
        Simple::Size => interned(types, Term::Int(IntKind::ULong)),
        Simple::Bytes => to_void(types, false),
        Simple::ConstantBytes => to_void(types, true),
        Simple::Text => to_char(types, false),
        Simple::ConstantText => to_char(types, true),
    }
}

/// The numbers of such types, in order.
fn listed(alloc: Global, types: &mut Types, xs: &[Simple]) -> Result<Vec<TypeId>, NoMemory>
    ensures below { IfOk result (λ v. AllBelow (length types.new.terms) v.items) }
    ensures trees { IfOk result (λ v. tys_in (trees types.new) v.items ≡ simple_types xs.now) }
    ensures grows { OnOk result (Grows types.old types.new) }
{
    let mut list = Vec::new(alloc);
    for x in xs {
        let t = simple_type(types, *x)?;
        list.push(t)?;
    }
    Ok(list)
}

/// The number of the list of such parameters.
fn parameters(alloc: Global, types: &mut Types, xs: &[Simple]) -> Result<u32, NoMemory>
    ensures number { IfOk result (λ p. p < length types.new.lists) }
    ensures parameters { IfOk result (λ p. parameters_at types.new p ≡ simple_types xs.now) }
    ensures grows { OnOk result (Grows types.old types.new) }
{
    let list = listed(alloc, types, xs)?;
    let p = types.params(list)?;
    Ok(p)
}

/// The type of a function with these parameters.
fn returning(types: &mut Types, x: Simple, params: u32, variadic: bool) -> Result<TypeId, NoMemory>
    requires { params < length types.old.lists }
    ensures known { IfOk result (λ r. r.0 < length types.new.terms) }
    ensures tree { IfOk result (λ r. tree types.new r.0 ≡ FunctionTy (simple_type x) (parameters_at types.old params) variadic) }
    ensures grows { OnOk result (Grows types.old types.new) }
{
    let result_type = simple_type(types, x)?;
    let r = interned(
        types,
        Term::Function {
            result: result_type,
            params,
            variadic,
        },
    )?;
    Ok(r)
}

/// The type of a function with such parameters.
fn function(
    alloc: Global,
    types: &mut Types,
    x: Simple,
    xs: &[Simple],
    variadic: bool,
) -> Result<TypeId, NoMemory>
    ensures known { IfOk result (λ r. r.0 < length types.new.terms) }
    ensures tree { IfOk result (λ r. tree types.new r.0 ≡ FunctionTy (simple_type x) (simple_types xs.now) variadic) }
    ensures grows { OnOk result (Grows types.old types.new) }
{
    let p = parameters(alloc, types, xs)?;
    let r = returning(types, x, p, variadic)?;
    Ok(r)
}

/// The type that the function's prototype gives it.
pub(crate) fn prototype(alloc: Global, types: &mut Types, f: Library) -> Result<TypeId, NoMemory>
    ensures known { IfOk result (λ r. r.0 < length types.new.terms) }
    ensures tree { IfOk result (λ r. tree types.new r.0 ≡ prototype f) }
    ensures grows { OnOk result (Grows types.old types.new) }
{
    match f {
        Library::Malloc => function(alloc, types, Simple::Bytes, &[Simple::Size], false),
        Library::Calloc => {
            let xs = [Simple::Size, Simple::Size];
            function(alloc, types, Simple::Bytes, &xs, false)
        }
        Library::Free => function(alloc, types, Simple::Void, &[Simple::Bytes], false),
        Library::Realloc => {
            let xs = [Simple::Bytes, Simple::Size];
            function(alloc, types, Simple::Bytes, &xs, false)
        }
        Library::Memcpy | Library::Memmove => {
            let xs = [Simple::Bytes, Simple::ConstantBytes, Simple::Size];
            function(alloc, types, Simple::Bytes, &xs, false)
        }
        Library::Memset => {
            let xs = [Simple::Bytes, Simple::Int, Simple::Size];
            function(alloc, types, Simple::Bytes, &xs, false)
        }
        Library::Memcmp => {
            let xs = [Simple::ConstantBytes, Simple::ConstantBytes, Simple::Size];
            function(alloc, types, Simple::Int, &xs, false)
        }
        Library::Strlen => function(alloc, types, Simple::Size, &[Simple::ConstantText], false),
        Library::Strcmp => {
            let xs = [Simple::ConstantText, Simple::ConstantText];
            function(alloc, types, Simple::Int, &xs, false)
        }
        Library::Strcpy => {
            let xs = [Simple::Text, Simple::ConstantText];
            function(alloc, types, Simple::Text, &xs, false)
        }
        Library::Exit => function(alloc, types, Simple::Void, &[Simple::Int], false),
        Library::Abort => function(alloc, types, Simple::Void, &[], false),
        Library::Printf => function(alloc, types, Simple::Int, &[Simple::ConstantText], true),
    }
}
