//! Parameters of functions (C17 6.7.6.3), and the scope that a list of them leaves (C17 6.2.1p4).
ghost use Rattle.std.specs.Prelude.{◌≡◌, ◌<◌, ◌+◌, ◌++◌, ◌∷◌, [], Bool, List, Some, None, Option, true, false, length, IfOk, IfSome, OnOk, IsTrue};
ghost use Rattle.pv_types.specs.Adjusted.{is_adjusted};
ghost use Rattle.pv_types.specs.Formed.{are_adjusted, parameters_at, AllBelow};
ghost use Rattle.pv_types.specs.Known.{Known, tree, trees, tys_in, env};
ghost use Rattle.pv_typed.specs.Entries.{with_object};
ghost use Rattle.pv_typed.specs.Known.{Each, AreKnown};
ghost use Rattle.pv_typed.specs.Tables.{Stored, whole_unit};
ghost use Rattle.pv_check.specs.Declarators.{parameters_shown, signature_shown, signature_if, steps_shown, parameters_if, after_parameter, after_steps, parameters_after, with_parameter_of_type, parameter_from, ParameterKnown, SignatureKnown, StepsKnown, KnownSteps};
ghost use Rattle.pv_check.specs.Derivations.{Parameter as WholeParameter, Signature as WholeSignature, derived_type, adjustment_of, means_none, no_void, proper_parameters, parameter_types, nearest_parameters};
ghost use Rattle.pv_check.specs.Growing.{AreSized, Grows, IsType, type_if};
ghost use Rattle.pv_check.specs.Open.{state_of, IsOpen, Goes, Texts, IfAnswered};
ghost use Rattle.pv_check.specs.RowParts.{parameter_of, by_function};
ghost use Rattle.pv_check.specs.Scopes.{in_new_scope};
ghost use Rattle.pv_typed.specs.Constants.{and_then};
ghost use Rattle.pv_check.specs.declared.derivations.Step.TheVariants.{Function};
ghost use Rattle.pv_check.specs.Stepping.{AreSteps, steps_in};

use crate::declarators::{Steps, with_step};
use crate::derivations::{Step, derived};
use crate::interning::interned;
use crate::scopes::{Entry, Scope, Scopes};
use crate::sorts::is_void;
use pv_layout::bare;
use pv_typed::{Object, TypedUnit};
use pv_types::{NoMemory, Term, TypeId, Types};
use std::alloc::Global;

/// A parameter of a function (C17 6.7.6.3).
#[derive(Clone, Copy)]
pub struct Parameter {
    /// Its type, as an object has it (6.7.6.3p7).
    pub t: TypeId,
    /// The number of its name, if it has one.
    pub name: Option<u32>,
    /// The number of its object, if it has a name.
    pub object: Option<u32>,
}

/// A list of parameters, and the scope that it leaves.
#[derive(Drop)]
pub struct Signature {
    /// The parameters, in order; none for `void` alone.
    pub parameters: Vec<Parameter>,
    /// Whether more arguments may follow.
    pub variadic: bool,
    /// What the list declared.
    pub scope: Scope,
}

/// The type that a parameter of the type has: of an array, a pointer (C17 6.7.6.3p7); no parameter is a function.
fn adjusted(types: &mut Types, t: TypeId) -> Result<Option<TypeId>, NoMemory>
    requires { t.0 < length types.old.terms }
    ensures known { IfOk result (λ r. IsType types.new r) }
    ensures tree { IfOk result (λ r. type_if types.new r ≡ adjustment_of (tree types.old t.0)) }
    ensures grows { OnOk result (Grows types.old types.new) }
{
    match types.view(t) {
        Term::Array(element, _) => {
            let r = interned(types, Term::Pointer(element))?;
            Ok(Some(r))
        }
        Term::Function { .. } => {
            let r = interned(types, Term::Pointer(t))?;
            Ok(Some(r))
        }
        Term::Const(inner) => {
            if types.is_adjusted(inner) {
                Ok(Some(t))
            } else {
                Ok(None)
            }
        }
        _ => Ok(Some(t)),
    }
}

/// The type of a parameter that the steps of its declarator make.
fn parameter_type(
    types: &mut Types,
    steps: &[Step],
    base: TypeId,
) -> Result<Option<TypeId>, NoMemory>
    requires known { base.0 < length types.old.terms }
    requires steps { AreSteps types.old steps.now }
    requires sized { AreSized types.old }
    ensures known { IfOk result (λ r. IsType types.new r) }
    ensures tree { IfOk result (λ r. type_if types.new r ≡ and_then (derived_type true (env types.old) (steps_in types.old steps.now) (tree types.old base.0)) adjustment_of) }
    ensures grows { OnOk result (Grows types.old types.new) }
{
    let Ok(found) = derived(types, true, steps, 0, base) else {
        return Err(NoMemory);
    };
    let Some(t) = found else {
        return Ok(None);
    };
    let Ok(r) = adjusted(types, t) else {
        return Err(NoMemory);
    };
    Ok(r)
}

/// The same in the tables of a unit.
fn parameter_type_in(
    into: &mut TypedUnit,
    steps: &[Step],
    base: TypeId,
) -> Result<Option<TypeId>, NoMemory>
    requires known { AreKnown into.old }
    requires sized { AreSized into.old.known }
    requires base { base.0 < length into.old.known.terms }
    requires steps { AreSteps into.old.known steps.now }
    ensures known { IfOk result (λ r. IsType into.new.known r) }
    ensures tree { IfOk result (λ r. type_if into.new.known r ≡ and_then (derived_type true (env into.old.known) (steps_in into.old.known steps.now) (tree into.old.known base.0)) adjustment_of) }
    ensures whole { OnOk result (whole_unit into.new ≡ whole_unit into.old) }
    ensures goes { OnOk result (Goes into.old into.new) }
{
    let r = parameter_type(into.types_mut(), steps, base)?;
    Ok(r)
}

/// The object of a parameter (C17 6.9.1p9), by the number of its name in the source. The table of names has every name
/// of the source behind two others; there is `NoMemory` where it lacks this one.
fn parameter_object(into: &mut TypedUnit, n: u32, line: u32, t: TypeId) -> Result<u32, NoMemory>
    requires target { t.0 < length into.old.known.terms }
    ensures number { IfOk result (λ o. o ≡ length into.old.objects) }
    ensures more { OnOk result (length into.new.objects ≡ length into.old.objects + 1) }
    ensures types { OnOk result (into.new.known ≡ into.old.known) }
    ensures whole { OnOk result (whole_unit into.new ≡ with_object (whole_unit into.old) (record { name = n + 2; t = tree into.old.known t.0; line = line; lasting = false; braced = false; inits = [] })) }
    ensures goes { OnOk result (Goes into.old into.new) }
{
    let name = n as u64 + 2;
    if name >= into.names().len() as u64 {
        return Err(NoMemory);
    }
    let o = into.add_object(Object {
        name: name as u32,
        t,
        line,
        lasting: false,
        braced: false,
    })?;
    Ok(o)
}

/// A parameter with a name, which begins behind its declarator (C17 6.2.1p7); `None` where the list has the name.
fn named_parameter(
    s: &mut Scopes,
    into: &mut TypedUnit,
    n: u32,
    line: u32,
    t: TypeId,
) -> Result<Option<Parameter>, NoMemory>
    requires opened { IsOpen into.old s.old }
    requires target { t.0 < length into.old.known.terms }
    requires adjusted { IsTrue (is_adjusted (tree into.old.known t.0)) }
    ensures opened { IfAnswered result (λ p. IsOpen into.new s.new) }
    ensures goes { OnOk result (Goes into.old into.new) }
    ensures known { IfAnswered result (ParameterKnown into.new) }
    ensures answer { IfOk result (λ r. (texts : Texts) (u : Bool) (ps : List WholeParameter) → after_parameter texts u s.new into.new ps r ≡ with_parameter_of_type texts u s.old into.old ps (Some (n, line)) t) }
{
    let o = parameter_object(into, n, line, t)?;
    if !s.declare(n, Entry::Object(o))? {
        return Ok(None);
    }
    Ok(Some(Parameter {
        t,
        name: Some(n),
        object: Some(o),
    }))
}

/// A parameter, by its name and the line of that, the type that its specifiers name, and the steps of its declarator.
pub(crate) fn parameter_of(
    s: &mut Scopes,
    into: &mut TypedUnit,
    named: Option<(u32, u32)>,
    base: TypeId,
    steps: &[Step],
) -> Result<Option<Parameter>, NoMemory>
    requires opened { IsOpen into.old s.old }
    requires base { base.0 < length into.old.known.terms }
    requires steps { AreSteps into.old.known steps.now }
    ensures opened { IfAnswered result (λ p. IsOpen into.new s.new) }
    ensures goes { OnOk result (Goes into.old into.new) }
    ensures known { IfAnswered result (ParameterKnown into.new) }
    ensures answer { IfOk result (λ r. (texts : Texts) (u : Bool) (ps : List WholeParameter) (g : Option WholeSignature) →
        after_parameter texts u s.new into.new ps r ≡ parameter_from texts u s.old into.old named base ps steps.now g) }
{
    let Some(t) = parameter_type_in(into, steps, base)? else {
        return Ok(None);
    };
    match named {
        None => Ok(Some(Parameter {
            t,
            name: None,
            object: None,
        })),
        Some((n, line)) => {
            let r = named_parameter(s, into, n, line, t)?;
            Ok(r)
        }
    }
}

/// Whether `void` stands alone, unqualified and without a name (C17 6.7.6.3p10).
fn means_none(types: &Types, ps: &[Parameter]) -> bool
    requires { Each (λ (p : Parameter). p.t.0 < length types.now.terms) ps.now }
    ensures { result ≡ means_none (parameters_shown types.now ps.now) }
{
    if ps.len() != 1 {
        return false;
    }
    let p = ps[0];
    matches!(types.view(p.t), Term::Void) && p.name.is_none()
}

/// Whether no parameter is `void` (C17 6.7.6.3p4, 6.9.1p7).
fn no_void(types: &Types, ps: &[Parameter]) -> bool
    requires { Each (λ (p : Parameter). p.t.0 < length types.now.terms) ps.now }
    ensures { result ≡ no_void (parameters_shown types.now ps.now) }
{
    let mut i = 0;
    while i < ps.len() {
        if is_void(types, ps[i].t) {
            return false;
        }
        i += 1;
    }
    true
}

/// The parameters, none where `void` says so; `None` where one is `void` otherwise.
fn proper(into: &TypedUnit, variadic: bool, ps: Vec<Parameter>) -> Option<Vec<Parameter>>
    requires { Each (ParameterKnown into.now) ps.items }
    ensures known { IfSome result (λ v. Each (ParameterKnown into.now) v.items) }
    ensures answer { parameters_if into.now.known result ≡ proper_parameters variadic (parameters_shown into.now.known ps.items) }
{
    if !variadic && means_none(into.types(), &ps) {
        let mut none = ps;
        none.clear();
        return Some(none);
    }
    if no_void(into.types(), &ps) {
        Some(ps)
    } else {
        None
    }
}

/// The types of parameters in that of their function, where no qualifiers count (C17 6.7.6.3p15).
fn unqualified_types(
    alloc: Global,
    types: &Types,
    ps: &[Parameter],
) -> Result<Vec<TypeId>, NoMemory>
    requires { Each (λ (p : Parameter). p.t.0 < length types.now.terms) ps.now }
    ensures below { IfOk result (λ v. AllBelow (length types.now.terms) v.items) }
    ensures types { IfOk result (λ v. tys_in (trees types.now) v.items ≡ parameter_types (parameters_shown types.now ps.now)) }
{
    let mut list = Vec::new(alloc);
    let mut i = 0;
    while i < ps.len() {
        let t = bare(types, ps[i].t);
        list.push(t)?;
        i += 1;
    }
    Ok(list)
}

/// The number of a list of types.
fn list_number(types: &mut Types, list: Vec<TypeId>) -> Result<u32, NoMemory>
    requires known { AllBelow (length types.old.terms) list.items }
    requires adjusted { IsTrue (are_adjusted (tys_in (trees types.old) list.items)) }
    ensures number { IfOk result (λ p. p < length types.new.lists) }
    ensures parameters { IfOk result (λ p. parameters_at types.new p ≡ tys_in (trees types.old) list.items) }
    ensures grows { OnOk result (Grows types.old types.new) }
{
    let p = types.params(list)?;
    Ok(p)
}

/// The number of the list of types that parameters have in the type of their function.
fn parameter_types(alloc: Global, into: &mut TypedUnit, ps: &[Parameter]) -> Result<u32, NoMemory>
    requires known { AreKnown into.old }
    requires parameters { Each (ParameterKnown into.old) ps.now }
    ensures number { IfOk result (λ p. p < length into.new.known.lists) }
    ensures parameters { IfOk result (λ p. parameters_at into.new.known p ≡ parameter_types (parameters_shown into.old.known ps.now)) }
    ensures whole { OnOk result (whole_unit into.new ≡ whole_unit into.old) }
    ensures goes { OnOk result (Goes into.old into.new) }
{
    let list = unqualified_types(alloc, into.types(), ps)?;
    let p = list_number(into.types_mut(), list)?;
    Ok(p)
}

/// Whether no step stands before.
fn is_first(steps: &[Step]) -> bool
    ensures none { result ≡ true → steps.now ≡ [] }
    ensures some { result ≡ false → 0 < length steps.now }
{
    steps.is_empty()
}

/// One step more, a function; its list of parameters is the declarator's where no step stands before it (C17 6.9.1p2).
fn with_signature(x: Steps, params: u32, g: Signature) -> Result<Steps, NoMemory>
    ensures list { IfOk result (λ r. r.list.items ≡ x.list.items ++ (Function params g.variadic ∷ [])) }
    ensures signature { IfOk result (λ r. (m : Known) → signature_if m r.signature ≡ nearest_parameters (steps_in m x.list.items) (signature_if m x.signature) (signature_shown m g)) }
    ensures known { IfOk result (λ r. (m : Stored) → SignatureKnown m g → IfSome x.signature (SignatureKnown m) → IfSome r.signature (SignatureKnown m)) }
{
    let nearest = is_first(&x.list);
    let more = with_step(
        x,
        Step::Function {
            params,
            variadic: g.variadic,
        },
    )?;
    if nearest {
        Ok(Steps {
            list: more.list,
            signature: Some(g),
        })
    } else {
        Ok(more)
    }
}

/// Opens a scope for a list of parameters (C17 6.2.1p4).
pub(crate) fn entered(s: &mut Scopes, into: &TypedUnit) -> Result<(), NoMemory>
    requires opened { IsOpen into.now s.old }
    ensures opened { OnOk result (IsOpen into.now s.new) }
    ensures deeper { OnOk result (length s.new.scopes ≡ length s.old.scopes + 1) }
    ensures answer { OnOk result ((texts : Texts) (u : Bool) → state_of texts u s.new into.now ≡ in_new_scope (state_of texts u s.old into.now)) }
{
    s.enter()?;
    Ok(())
}

/// The steps of a declarator with a function more, whose parameters were read: their scope is closed (C17 6.7.6.3).
pub(crate) fn by_function(
    s: &mut Scopes,
    into: &mut TypedUnit,
    x: Steps,
    variadic: bool,
    ps: Vec<Parameter>,
) -> Result<Option<Steps>, NoMemory>
    requires opened { IsOpen into.old s.old }
    requires deep { 1 < length s.old.scopes }
    requires steps { StepsKnown into.old x }
    requires parameters { Each (ParameterKnown into.old) ps.items }
    ensures opened { IfAnswered result (λ k. IsOpen into.new s.new) }
    ensures goes { OnOk result (Goes into.old into.new) }
    ensures known { IfOk result (λ r. KnownSteps into.new r) }
    ensures answer { IfOk result (λ r. (texts : Texts) (u : Bool) → after_steps texts u s.new into.new r ≡ by_function variadic (steps_shown into.old.known x) (parameters_after texts u s.old into.old ps.items)) }
{
    let Some(list) = proper(into, variadic, ps) else {
        return Ok(None);
    };
    let params = parameter_types(s.allocator(), into, &list)?;
    let scope = s.take_innermost();
    let g = Signature {
        parameters: list,
        variadic,
        scope,
    };
    let r = with_signature(x, params, g)?;
    Ok(Some(r))
}
