// Types by declarators (C17 6.7.6): the steps from a declarator's name outwards, and the type that they make of another.
ghost use Rattle.std.specs.Prelude.{◌≡◌, ◌<◌, ◌≤◌, ◌^◌, ◌*◌, nat_le, drop, length, IfOk, OnOk, Some, IsTrue};
ghost use Rattle.pv_types.specs.Known.{tree, env};
ghost use Rattle.pv_types.specs.Formed.{parameters_at};
ghost use Rattle.pv_types.specs.Layouts.{is_complete_in, layout_in};
ghost use Rattle.pv_check.specs.Growing.{Grows, AreSized, IsType, type_if};
ghost use Rattle.pv_check.specs.Derivations.{step, derived_type, array_of};
ghost use Rattle.pv_check.specs.DerivationParts.{pointer_to, function_of};
ghost use Rattle.pv_check.specs.Stepping.{step_in, IsStep, AreSteps, steps_in};

use crate::interning::interned;
use crate::qualified::with_const;
use crate::sorts::{is_array, is_function};
use pv_layout::{bare, size};
use pv_types::{NoMemory, Term, TypeId, Types};

/// One step from the name outwards (C17 6.7.6p4).
#[derive(Clone, Copy)]
pub enum Step {
    /// A pointer, `const` or not (6.7.6.1).
    Pointer { constant: bool },
    /// An array, and how many elements it has, where that is said (6.7.6.2).
    Array(Option<u64>),
    /// A function: the number of its parameters' types, and whether more arguments may follow (6.7.6.3).
    Function { params: u32, variadic: bool },
}

/// A pointer to the type, `const` or not.
fn pointer_to(types: &mut Types, constant: bool, t: TypeId) -> Result<Option<TypeId>, NoMemory>
    requires { t.0 < length types.old.terms }
    ensures known { IfOk result (λ r. IsType types.new r) }
    ensures tree { IfOk result (λ r. type_if types.new r ≡ pointer_to constant (tree types.old t.0)) }
    ensures grows { OnOk result (Grows types.old types.new) }
{
    let Ok(pointer) = interned(types, Term::Pointer(t)) else {
        return Err(NoMemory);
    };
    let Ok(r) = with_const(types, constant, pointer) else {
        return Err(NoMemory);
    };
    Ok(r)
}

/// Whether an array of so many has at most 2^32 bytes (C17 5.2.4.1).
fn is_small(types: &Types, n: u64, t: TypeId) -> bool
    requires known { t.0 < length types.now.terms }
    requires complete { IsTrue (is_complete_in (env types.now) (tree types.now t.0)) }
    requires sized { AreSized types.now }
    ensures { result ≡ nat_le (n * (layout_in (env types.now) (tree types.now t.0)).size) (2 ^ 32) }
{
    let bytes = n as u128 * size(types, t) as u128;
    bytes <= 0x1_0000_0000
}

/// An array of the type: of so many elements, or of a number that is not said, where that may be.
fn array_of(
    types: &mut Types,
    unsized_may_be: bool,
    n: Option<u64>,
    t: TypeId,
) -> Result<Option<TypeId>, NoMemory>
    requires known { t.0 < length types.old.terms }
    requires sized { AreSized types.old }
    ensures known { IfOk result (λ r. IsType types.new r) }
    ensures tree { IfOk result (λ r. type_if types.new r ≡ array_of unsized_may_be (env types.old) n (tree types.old t.0)) }
    ensures grows { OnOk result (Grows types.old types.new) }
{
    if !types.is_complete(t) {
        return Ok(None);
    }
    let may = match n {
        Some(count) => is_small(types, count, t),
        None => unsized_may_be,
    };
    if !may {
        return Ok(None);
    }
    let r = interned(types, Term::Array(t, n))?;
    Ok(Some(r))
}

/// A function that returns the type (C17 6.7.6.3p1).
fn function_of(
    types: &mut Types,
    params: u32,
    variadic: bool,
    t: TypeId,
) -> Result<Option<TypeId>, NoMemory>
    requires known { t.0 < length types.old.terms }
    requires list { params < length types.old.lists }
    ensures known { IfOk result (λ r. IsType types.new r) }
    ensures tree { IfOk result (λ r. type_if types.new r ≡ function_of (parameters_at types.old params) variadic (tree types.old t.0)) }
    ensures grows { OnOk result (Grows types.old types.new) }
{
    if is_function(types, t) {
        return Ok(None);
    }
    if is_array(types, t) {
        return Ok(None);
    }
    let result = bare(types, t);
    let r = interned(
        types,
        Term::Function {
            result,
            params,
            variadic,
        },
    )?;
    Ok(Some(r))
}

/// One step more.
fn stepped(
    types: &mut Types,
    unsized_may_be: bool,
    one: Step,
    t: TypeId,
) -> Result<Option<TypeId>, NoMemory>
    requires known { t.0 < length types.old.terms }
    requires step { IsStep types.old one }
    requires sized { AreSized types.old }
    ensures known { IfOk result (λ r. IsType types.new r) }
    ensures tree { IfOk result (λ r. type_if types.new r ≡ step unsized_may_be (env types.old) (step_in types.old one) (tree types.old t.0)) }
    ensures grows { OnOk result (Grows types.old types.new) }
{
    match one {
        Step::Pointer { constant } => pointer_to(types, constant, t),
        Step::Array(n) => array_of(types, unsized_may_be, n, t),
        Step::Function { params, variadic } => function_of(types, params, variadic, t),
    }
}

/// The type that the steps from a place on make of the type (C17 6.7.6p4): the last step comes first.
pub(crate) fn derived(
    types: &mut Types,
    unsized_may_be: bool,
    steps: &[Step],
    from: usize,
    t: TypeId,
) -> Result<Option<TypeId>, NoMemory>
    requires known { t.0 < length types.old.terms }
    requires steps { AreSteps types.old steps.now }
    requires place { from ≤ length steps.now }
    requires sized { AreSized types.old }
    ensures known { IfOk result (λ r. IsType types.new r) }
    ensures tree { IfOk result (λ r. type_if types.new r ≡ derived_type unsized_may_be (env types.old) (steps_in types.old (drop from steps.now)) (tree types.old t.0)) }
    ensures grows { OnOk result (Grows types.old types.new) }
{
    if from >= steps.len() {
        return Ok(Some(t));
    }
    let Some(inner) = derived(types, unsized_may_be, steps, from + 1, t)? else {
        return Ok(None);
    };
    let r = stepped(types, unsized_may_be, steps[from], inner)?;
    Ok(r)
}
