//! The type of `main` (C17 5.1.2.2.1p1).
ghost use Rattle.std.specs.Prelude.{◌≡◌, ◌<◌, false, length, IfOk, OnOk};
ghost use Rattle.pv_num.specs.declared.kinds.IntKind.TheVariants.{Int};
ghost use Rattle.pv_types.specs.Ty.{IntTy, FunctionTy, NoTys};
ghost use Rattle.pv_types.specs.Known.{tree};
ghost use Rattle.pv_types.specs.Formed.{parameters_at};
ghost use Rattle.pv_types.specs.Compatible.{are_compatible};
ghost use Rattle.pv_typed.specs.Tables.{whole_unit};
ghost use Rattle.pv_typed.specs.Known.{AreKnown};
ghost use Rattle.pv_check.specs.Growing.{Grows};
ghost use Rattle.pv_check.specs.Open.{IsOpen, Goes};
ghost use Rattle.pv_unit.specs.MainType.{main_type};

use pv_check::{Scopes, interned};
use pv_num::IntKind;
use pv_typed::TypedUnit;
use pv_types::{NoMemory, Term, TypeId, Types};
use std::alloc::Global;

/// The number of the list of no parameters.
fn no_parameters(alloc: Global, types: &mut Types) -> Result<u32, NoMemory>
    ensures number { IfOk result (λ p. p < length types.new.lists) }
    ensures parameters { IfOk result (λ p. parameters_at types.new p ≡ NoTys) }
    ensures grows { OnOk result (Grows types.old types.new) }
{
    let none = Vec::new(alloc);
    let p = types.params(none)?;
    Ok(p)
}

/// The type of a function with these parameters that returns `int`.
fn returning_int(types: &mut Types, params: u32) -> Result<TypeId, NoMemory>
    requires { params < length types.old.lists }
    ensures known { IfOk result (λ r. r.0 < length types.new.terms) }
    ensures tree { IfOk result (λ r. tree types.new r.0 ≡ FunctionTy (IntTy Int) (parameters_at types.old params) false) }
    ensures grows { OnOk result (Grows types.old types.new) }
{
    let result_type = interned(types, Term::Int(IntKind::Int))?;
    let r = interned(
        types,
        Term::Function {
            result: result_type,
            params,
            variadic: false,
        },
    )?;
    Ok(r)
}

/// `int (void)`.
fn main_type(alloc: Global, types: &mut Types) -> Result<TypeId, NoMemory>
    ensures known { IfOk result (λ r. r.0 < length types.new.terms) }
    ensures tree { IfOk result (λ r. tree types.new r.0 ≡ main_type) }
    ensures grows { OnOk result (Grows types.old types.new) }
{
    let p = no_parameters(alloc, types)?;
    let r = returning_int(types, p)?;
    Ok(r)
}

/// The same in the tables of a unit.
fn main_type_in(alloc: Global, into: &mut TypedUnit) -> Result<TypeId, NoMemory>
    requires known { AreKnown into.old }
    ensures known { IfOk result (λ r. r.0 < length into.new.known.terms) }
    ensures tree { IfOk result (λ r. tree into.new.known r.0 ≡ main_type) }
    ensures whole { OnOk result (whole_unit into.new ≡ whole_unit into.old) }
    ensures goes { OnOk result (Goes into.old into.new) }
{
    let r = main_type(alloc, into.types_mut())?;
    Ok(r)
}

/// Whether the type is compatible with that of `main`.
pub(crate) fn is_main_type(s: &Scopes, into: &mut TypedUnit, t: TypeId) -> Result<bool, NoMemory>
    requires opened { IsOpen into.old s.now }
    requires known { t.0 < length into.old.known.terms }
    ensures opened { OnOk result (IsOpen into.new s.now) }
    ensures goes { OnOk result (Goes into.old into.new) }
    ensures whole { OnOk result (whole_unit into.new ≡ whole_unit into.old) }
    ensures answer { IfOk result (λ b. b ≡ are_compatible (tree into.old.known t.0) main_type) }
{
    let m = main_type_in(s.allocator(), into)?;
    Ok(into.types().compatible(t, m))
}
