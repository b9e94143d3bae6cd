//! Heads of function definitions (C17 6.9.1).
ghost use Rattle.std.specs.Prelude.{◌≡◌, ◌<◌, ◌&&◌, ◌||◌, IfOk, IfSome, OnOk, Some, None, true, false, length, is_some};
ghost use Rattle.pv_tree.specs.Tables.{Is, declarator_at, trees_at, is_declarator, is_specifier, IsListOf};
ghost use Rattle.pv_types.specs.Known.{tree, env};
ghost use Rattle.pv_check.specs.Derivations.{Signature as WholeSignature};
ghost use Rattle.pv_check.specs.Raw.{Raw};
ghost use Rattle.pv_check.specs.Stepping.{steps_in, AreSteps};
ghost use Rattle.pv_check.specs.Open.{IsOpen, Goes, Texts, state_in, IfAnswered};
ghost use Rattle.pv_types.specs.Sorts.{is_void};
ghost use Rattle.pv_unit.specs.Definitions.{may_be_defined, defined_once, head_of, head, may_head};
ghost use Rattle.pv_unit.specs.HeadParts.{head_derived, head_signed, head_stepped, head_specified, is_definable, head_function, may_define, may_return};
ghost use Rattle.pv_check.specs.Declarators.{parameter_shown, parameters_shown, steps_shown, StepsKnown};
ghost use Rattle.pv_unit.specs.DeclaredIn.{specified_in};
ghost use Rattle.pv_unit.specs.Heads.{ParametersKnown, HeadKnown, head_if, heading_if, HeadBy, HeadWith};
ghost use Rattle.pv_unit.specs.There.{AreThere};
ghost use Rattle.pv_unit.specs.Outside.{unit_state};

use crate::declarators::specified;
use crate::declaring::function_declared;
use crate::entities::Outer;
use crate::library_names::is_of_library;
use pv_check::{
    Parameter, Scopes, Signature, Specified, Step, Steps, Storage, declared_name, derived_in,
    is_void, steps_of,
};
use pv_token::Tokens;
use pv_tree::{ListId, NodeId, Unit};
use pv_typed::TypedUnit;
use pv_types::{NoMemory, Term, TypeId, Types};

/// A function that is defined.
#[derive(Clone, Copy)]
pub(crate) struct Defined {
    /// Its number among the functions.
    pub(crate) function: u32,
    /// The type that it returns.
    pub(crate) result_type: TypeId,
}

/// Whether a declaration with the storage class may have a body.
pub(crate) fn may_head(storage: Storage) -> bool
    ensures { result ≡ may_head storage }
{
    match storage {
        Storage::Typedef => false,
        Storage::Plain | Storage::Extern | Storage::Static => true,
    }
}

/// Whether a function may return it (C17 6.9.1p3).
fn may_return(types: &Types, t: TypeId) -> bool
    requires { t.0 < length types.now.terms }
    ensures { result ≡ may_return (env types.now) (tree types.now t.0) }
{
    is_void(types, t) || types.is_complete(t)
}

/// Whether a function that is defined may have the parameter (C17 6.9.1p5, p7).
fn is_definable(types: &Types, p: Parameter) -> bool
    requires { p.t.0 < length types.now.terms }
    ensures { result ≡ is_definable (env types.now) (parameter_shown types.now p) }
{
    p.name.is_some() && types.is_complete(p.t)
}

/// Whether it may have all of these.
fn may_define(types: &Types, parameters: &[Parameter]) -> bool
    requires { ParametersKnown types.now parameters.now }
    ensures { result ≡ may_define (env types.now) (parameters_shown types.now parameters.now) }
{
    for p in parameters {
        if !is_definable(types, *p) {
            return false;
        }
    }
    true
}

/// What a definition asks of its function beyond what a declaration does.
fn may_be_defined(
    into: &TypedUnit,
    name: u32,
    result_type: TypeId,
    variadic: bool,
    parameters: &[Parameter],
) -> bool
    requires known { result_type.0 < length into.now.known.terms }
    requires parameters { ParametersKnown into.now.known parameters.now }
    ensures { (texts : Texts) (s : Raw) → result ≡ may_be_defined (state_in texts s into.now) name (tree into.now.known result_type.0) variadic (parameters_shown into.now.known parameters.now) }
{
    !variadic
        && !is_of_library(into, name)
        && may_return(into.types(), result_type)
        && may_define(into.types(), parameters)
}

/// The function is defined, if it was not before (C17 6.9p5).
fn defined_once(
    s: &Scopes,
    into: &TypedUnit,
    outer: &mut Outer,
    function: u32,
    result_type: TypeId,
) -> Option<Defined>
    requires entities { AreThere into.now outer.old.entities }
    ensures there { IfSome result (λ d. (d.function ≡ function) × (d.result_type ≡ result_type)) }
    ensures entities { AreThere into.now outer.new.entities }
    ensures answer { (texts : Texts) (g : WholeSignature) → head_if texts s.now into.now outer.new g result ≡ defined_once (tree into.now.known result_type.0) g (function, unit_state texts s.now into.now outer.old) }
{
    if outer.entities.is_initialized(true, function) {
        return None;
    }
    outer.entities.note(true, function, true, true, false);
    Some(Defined {
        function,
        result_type,
    })
}

/// The function is declared, and defined.
fn head_function(
    s: &mut Scopes,
    into: &mut TypedUnit,
    outer: &mut Outer,
    t: TypeId,
    result_type: TypeId,
    name: u32,
    line: u32,
) -> Result<Option<Defined>, NoMemory>
    requires opened { IsOpen into.old s.old }
    requires known { t.0 < length into.old.known.terms }
    requires returned { result_type.0 < length into.old.known.terms }
    requires entities { AreThere into.old outer.old.entities }
    ensures opened { OnOk result (IsOpen into.new s.new) }
    ensures goes { OnOk result (Goes into.old into.new) }
    ensures there { IfAnswered result (λ d. (d.function < length into.new.functions) × (d.result_type.0 < length into.new.known.terms)) }
    ensures entities { OnOk result (AreThere into.new outer.new.entities) }
    ensures answer { IfOk result (HeadBy (head_function (tree into.old.known t.0) (tree into.old.known result_type.0) (name, line)) s.old into.old outer.old s.new into.new outer.new) }
{
    let Some(f) = function_declared(s, into, outer, name, line, t)? else {
        return Ok(None);
    };
    let r = defined_once(s, into, outer, f, result_type);
    Ok(r)
}

/// The head of a definition of a function that has the type.
fn head_of(
    s: &mut Scopes,
    into: &mut TypedUnit,
    outer: &mut Outer,
    t: TypeId,
    parameters: &[Parameter],
    name: u32,
    line: u32,
) -> Result<Option<Defined>, NoMemory>
    requires opened { IsOpen into.old s.old }
    requires known { t.0 < length into.old.known.terms }
    requires parameters { ParametersKnown into.old.known parameters.now }
    requires entities { AreThere into.old outer.old.entities }
    ensures opened { OnOk result (IsOpen into.new s.new) }
    ensures goes { OnOk result (Goes into.old into.new) }
    ensures there { IfAnswered result (λ d. (d.function < length into.new.functions) × (d.result_type.0 < length into.new.known.terms)) }
    ensures entities { OnOk result (AreThere into.new outer.new.entities) }
    ensures answer { IfOk result (HeadWith parameters.now (λ g. head_of (tree into.old.known t.0) g (name, line)) s.old into.old outer.old s.new into.new outer.new) }
{
    match into.types().view(t) {
        Term::Function {
            result: result_type,
            params: _,
            variadic,
        } => {
            if !may_be_defined(into, name, result_type, variadic, parameters) {
                return Ok(None);
            }
            let r = head_function(s, into, outer, t, result_type, name, line)?;
            Ok(r)
        }
        Term::Void
        | Term::Int(_)
        | Term::Pointer(_)
        | Term::Array(_, _)
        | Term::Struct(_)
        | Term::Union(_)
        | Term::Const(_) => Ok(None),
    }
}

/// The same, where the declarator makes the type with these steps.
pub(crate) fn head_derived(
    s: &mut Scopes,
    into: &mut TypedUnit,
    outer: &mut Outer,
    base: TypeId,
    steps: &[Step],
    parameters: &[Parameter],
    name: u32,
    line: u32,
) -> Result<Option<Defined>, NoMemory>
    requires opened { IsOpen into.old s.old }
    requires base { base.0 < length into.old.known.terms }
    requires steps { AreSteps into.old.known steps.now }
    requires parameters { ParametersKnown into.old.known parameters.now }
    requires entities { AreThere into.old outer.old.entities }
    ensures opened { OnOk result (IsOpen into.new s.new) }
    ensures goes { OnOk result (Goes into.old into.new) }
    ensures there { IfAnswered result (λ d. (d.function < length into.new.functions) × (d.result_type.0 < length into.new.known.terms)) }
    ensures entities { OnOk result (AreThere into.new outer.new.entities) }
    ensures answer { IfOk result (HeadWith parameters.now (λ g. head_derived (tree into.old.known base.0) (steps_in into.old.known steps.now) g (name, line)) s.old into.old outer.old s.new into.new outer.new) }
{
    let Some(t) = derived_in(into, false, steps, base)? else {
        return Ok(None);
    };
    let r = head_of(s, into, outer, t, parameters, name, line)?;
    Ok(r)
}

/// A function that is defined, with its list of parameters.
#[derive(Drop)]
pub(crate) struct Heading {
    pub(crate) defined: Defined,
    pub(crate) signature: Signature,
}

/// The head of a definition of the function that the declarator declares (C17 6.9.1p2).
fn head_stepped(
    u: &Unit,
    t: &Tokens,
    s: &mut Scopes,
    into: &mut TypedUnit,
    outer: &mut Outer,
    base: TypeId,
    d: NodeId,
    name: u32,
    line: u32,
) -> Result<Option<Heading>, NoMemory>
    requires node { Is u.now is_declarator d }
    requires opened { IsOpen into.old s.old }
    requires base { base.0 < length into.old.known.terms }
    requires entities { AreThere into.old outer.old.entities }
    ensures opened { IfAnswered result (λ h. IsOpen into.new s.new) }
    ensures known { IfAnswered result (HeadKnown into.new) }
    ensures entities { IfAnswered result (λ h. AreThere into.new outer.new.entities) }
    ensures answer { IfOk result (λ r. heading_if t.now.texts s.new into.new outer.new r ≡ head_stepped (tree into.old.known base.0) (declarator_at u.now.forest d) (unit_state t.now.texts s.old into.old outer.old) (name, line)) }
{
    let Some(steps) = steps_of(s.allocator(), u, t, s, into, d, false)? else {
        return Ok(None);
    };
    let r = head_signed(s, into, outer, base, steps, name, line)?;
    Ok(r)
}

/// The head, where a list of parameters stands next to the name (C17 6.9.1p2).
fn head_signed(
    s: &mut Scopes,
    into: &mut TypedUnit,
    outer: &mut Outer,
    base: TypeId,
    steps: Steps,
    name: u32,
    line: u32,
) -> Result<Option<Heading>, NoMemory>
    requires opened { IsOpen into.old s.old }
    requires base { base.0 < length into.old.known.terms }
    requires steps { StepsKnown into.old steps }
    requires entities { AreThere into.old outer.old.entities }
    ensures opened { IfAnswered result (λ h. IsOpen into.new s.new) }
    ensures known { IfAnswered result (HeadKnown into.new) }
    ensures entities { IfAnswered result (λ h. AreThere into.new outer.new.entities) }
    ensures answer { IfOk result (λ r. (texts : Texts) → heading_if texts s.new into.new outer.new r ≡ head_signed (tree into.old.known base.0) (steps_shown into.old.known steps) (name, line) (unit_state texts s.old into.old outer.old)) }
{
    let Steps { list, signature } = steps;
    let Some(own) = signature else {
        return Ok(None);
    };
    let Some(defined) = head_derived(s, into, outer, base, &list, &own.parameters, name, line)?
    else {
        return Ok(None);
    };
    Ok(Some(Heading {
        defined,
        signature: own,
    }))
}

/// The head of a definition behind its specifiers.
fn head_specified(
    u: &Unit,
    t: &Tokens,
    s: &mut Scopes,
    into: &mut TypedUnit,
    outer: &mut Outer,
    x: Specified,
    d: NodeId,
) -> Result<Option<Heading>, NoMemory>
    requires node { Is u.now is_declarator d }
    requires opened { IsOpen into.old s.old }
    requires known { x.t.0 < length into.old.known.terms }
    requires entities { AreThere into.old outer.old.entities }
    ensures opened { IfAnswered result (λ h. IsOpen into.new s.new) }
    ensures known { IfAnswered result (HeadKnown into.new) }
    ensures entities { IfAnswered result (λ h. AreThere into.new outer.new.entities) }
    ensures answer { IfOk result (λ r. heading_if t.now.texts s.new into.new outer.new r ≡ head_specified (specified_in into.old.known x) (declarator_at u.now.forest d) (unit_state t.now.texts s.old into.old outer.old)) }
{
    if !may_head(x.storage) {
        return Ok(None);
    }
    let Some((name, line)) = declared_name(u, d) else {
        return Ok(None);
    };
    let r = head_stepped(u, t, s, into, outer, x.t, d, name, line)?;
    Ok(r)
}

/// The head of a definition (C17 6.9.1p1).
pub(crate) fn head(
    u: &Unit,
    t: &Tokens,
    s: &mut Scopes,
    into: &mut TypedUnit,
    outer: &mut Outer,
    specs: ListId,
    d: NodeId,
) -> Result<Option<Heading>, NoMemory>
    requires specs { IsListOf u.now is_specifier specs }
    requires node { Is u.now is_declarator d }
    requires opened { IsOpen into.old s.old }
    requires entities { AreThere into.old outer.old.entities }
    ensures opened { IfAnswered result (λ h. IsOpen into.new s.new) }
    ensures known { IfAnswered result (HeadKnown into.new) }
    ensures entities { IfAnswered result (λ h. AreThere into.new outer.new.entities) }
    ensures answer { IfOk result (λ r. heading_if t.now.texts s.new into.new outer.new r ≡ head (trees_at u.now.forest specs) (declarator_at u.now.forest d) (unit_state t.now.texts s.old into.old outer.old)) }
{
    let Some(x) = specified(u, t, s, into, specs)? else {
        return Ok(None);
    };
    let r = head_specified(u, t, s, into, outer, x, d)?;
    Ok(r)
}
