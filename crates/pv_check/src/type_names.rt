//! Type names (C17 6.7.7), and what specifiers and the steps of declarators come to.
ghost use Rattle.std.specs.Prelude.{◌≡◌, ◌<◌, Bool, length, Some, None, IfOk, OnOk, false, IfSome, ℕ};
ghost use Rattle.pv_types.specs.Known.{tree, env};
ghost use Rattle.pv_typed.specs.Tables.{whole_unit};
ghost use Rattle.pv_typed.specs.Known.{AreKnown};
ghost use Rattle.pv_check.specs.Derivations.{derived_type};
ghost use Rattle.pv_check.specs.Growing.{AreSized, IsType, type_if};
ghost use Rattle.pv_check.specs.Open.{IsOpen, Goes, state_of, after_type, Texts, IfAnswered};
ghost use Rattle.pv_check.specs.Seeing.{seen_in, specified_if, IsSpecified};
ghost use Rattle.pv_check.specs.Specifiers.{specification_of};
ghost use Rattle.pv_check.specs.SpecifierParts.{without_storage};
ghost use Rattle.pv_check.specs.State.{State, give};
ghost use Rattle.pv_typed.specs.Constants.{and_then};
ghost use Rattle.pv_check.specs.WordRows.{base_of};
ghost use Rattle.pv_check.specs.Stepping.{steps_in, AreSteps};
ghost use Rattle.pv_tree.specs.Nodes.{specifier_of};
ghost use Rattle.pv_tree.specs.Tables.{Forest, Is, is_declaration, declaration_at, is_declarator, is_specifier, trees_at, IsListOf};
ghost use Rattle.pv_check.specs.Rows.{type_without_storage};
ghost use Rattle.pv_check.specs.Typing.{type_named, specifiers};
ghost use Rattle.pv_tree.specs.Syntax.{TypeName, OfSpecifier, NoTrees, Then};
ghost use Rattle.pv_check.specs.Operands.{type_of_name};

use crate::declarators::optional_steps;
use crate::derivations::{Step, derived};
use crate::scopes::Scopes;
use crate::specifiers::{Seen, Specified, Storage, base_of, taken_together};
use crate::specifying::specifiers;
use pv_num::IntKind;
use pv_token::Tokens;
use pv_tree::{Decl, ListId, NodeId, Spec, Unit};
use pv_typed::TypedUnit;
use pv_types::{NoMemory, TypeId};
use std::alloc::Global;

/// What specifiers say, all together.
pub fn concluded(into: &mut TypedUnit, seen: Seen) -> Result<Option<Specified>, NoMemory>
    requires known { AreKnown into.old }
    requires named { IsType into.old.known seen.named }
    ensures known { IfOk result (λ r. IsSpecified into.new.known r) }
    ensures value { IfOk result (λ r. specified_if into.new.known r ≡ specification_of (seen_in into.old.known seen)) }
    ensures whole { OnOk result (whole_unit into.new ≡ whole_unit into.old) }
    ensures goes { OnOk result (Goes into.old into.new) }
{
    let r = taken_together(into.types_mut(), seen)?;
    Ok(r)
}

/// The type of specifiers that may have no storage class (C17 6.7.2.1p1, 6.7.6.3p2, 6.7.7p1).
fn plain(into: &mut TypedUnit, seen: Seen) -> Result<Option<TypeId>, NoMemory>
    requires known { AreKnown into.old }
    requires named { IsType into.old.known seen.named }
    ensures known { IfOk result (λ r. IsType into.new.known r) }
    ensures tree { IfOk result (λ r. type_if into.new.known r ≡ and_then (specification_of (seen_in into.old.known seen)) without_storage) }
    ensures whole { OnOk result (whole_unit into.new ≡ whole_unit into.old) }
    ensures goes { OnOk result (Goes into.old into.new) }
{
    let Some(x) = concluded(into, seen)? else {
        return Ok(None);
    };
    match x.storage {
        Storage::Plain => Ok(Some(x.t)),
        Storage::Typedef | Storage::Extern | Storage::Static => Ok(None),
    }
}

/// The same beside the scopes, which stay open.
pub(crate) fn base_type(
    s: &Scopes,
    into: &mut TypedUnit,
    seen: Seen,
) -> Result<Option<TypeId>, NoMemory>
    requires opened { IsOpen into.old s.now }
    requires named { IsType into.old.known seen.named }
    ensures opened { OnOk result (IsOpen into.new s.now) }
    ensures known { IfOk result (λ r. IsType into.new.known r) }
    ensures tree { IfOk result (λ r. type_if into.new.known r ≡ and_then (specification_of (seen_in into.old.known seen)) without_storage) }
    ensures whole { OnOk result (whole_unit into.new ≡ whole_unit into.old) }
    ensures goes { OnOk result (Goes into.old into.new) }
{
    let r = plain(into, seen)?;
    Ok(r)
}

/// The type that steps make of a type (C17 6.7.6p4).
pub fn derived_in(
    into: &mut TypedUnit,
    unsized_may_be: bool,
    steps: &[Step],
    t: TypeId,
) -> Result<Option<TypeId>, NoMemory>
    requires known { AreKnown into.old }
    requires sized { AreSized into.old.known }
    requires base { t.0 < length into.old.known.terms }
    requires steps { AreSteps into.old.known steps.now }
    ensures known { IfOk result (λ r. IsType into.new.known r) }
    ensures tree { IfOk result (λ r. type_if into.new.known r ≡ derived_type unsized_may_be (env into.old.known) (steps_in into.old.known steps.now) (tree into.old.known t.0)) }
    ensures whole { OnOk result (whole_unit into.new ≡ whole_unit into.old) }
    ensures goes { OnOk result (Goes into.old into.new) }
{
    let r = derived(into.types_mut(), unsized_may_be, steps, 0, t)?;
    Ok(r)
}

/// The type of specifiers in a row that may have no storage class.
#[cycle(typed)]
pub fn specified_type(
    u: &Unit,
    t: &Tokens,
    s: &mut Scopes,
    into: &mut TypedUnit,
    specs: ListId,
    unevaluated: bool,
) -> Result<Option<TypeId>, NoMemory>
    requires specs { IsListOf u.now is_specifier specs }
    requires opened { IsOpen into.old s.old }
    ensures opened { IfAnswered result (λ k. IsOpen into.new s.new) }
    ensures goes { IfAnswered result (λ k. Goes into.old into.new) }
    ensures known { IfOk result (λ r. IsType into.new.known r) }
    ensures answer { IfOk result (λ r. after_type t.now.texts unevaluated s.new into.new r ≡ and_then (specifiers (trees_at u.now.forest specs) (state_of t.now.texts unevaluated s.old into.old)) type_without_storage) }
{
    let Some(seen) = specifiers(u, t, s, into, specs, unevaluated)? else {
        return Ok(None);
    };
    let r = base_type(s, into, seen)?;
    Ok(r)
}

/// The type that one keyword names by itself (C17 6.7.2p2), if it names one: an integer type, or `void`.
fn type_of_word(spec: Spec) -> Option<Option<IntKind>>
    ensures { IfSome result (λ x. (f : Forest) (line : ℕ) (z : State) → and_then (specifiers (Then NoTrees (OfSpecifier (specifier_of f line spec))) z) type_without_storage ≡ give (Some (base_of x)) z) }
{
    match spec {
        Spec::Void => Some(None),
        Spec::Char => Some(Some(IntKind::Char)),
        Spec::Short => Some(Some(IntKind::Short)),
        Spec::Int => Some(Some(IntKind::Int)),
        Spec::Signed => Some(Some(IntKind::Int)),
        Spec::Unsigned => Some(Some(IntKind::UInt)),
        Spec::Long => Some(Some(IntKind::Long)),
        Spec::Bool => Some(Some(IntKind::Bool)),
        _ => None,
    }
}

/// The type of a type name that is one keyword, as most are in casts. No words are counted for it, and no steps looked for.
fn word_alone(u: &Unit, specs: ListId, declarator: Option<NodeId>) -> Option<Option<IntKind>>
    requires { IsListOf u.now is_specifier specs }
    ensures { IfSome result (λ x. (line : ℕ) (z : State) → type_of_name u.now.forest line specs declarator z ≡ give (Some (base_of x)) z) }
{
    if declarator.is_some() {
        return None;
    }
    let nodes = u.list(specs);
    if nodes.len() != 1 {
        return None;
    }
    type_of_word(u.spec(nodes[0]))
}

/// The type of a type name that is one keyword, beside the scopes, which stay open.
fn word_type(
    s: &Scopes,
    into: &mut TypedUnit,
    base: Option<IntKind>,
) -> Result<Option<TypeId>, NoMemory>
    requires opened { IsOpen into.old s.now }
    ensures open { IfAnswered result (λ x. (x.0 < length into.new.known.terms) × IsOpen into.new s.now) }
    ensures goes { IfAnswered result (λ v. Goes into.old into.new) }
    ensures answer { (texts : Texts) (hidden : Bool) → IfOk result (λ r. after_type texts hidden s.now into.new r ≡ give (Some (base_of base)) (state_of texts hidden s.now into.old)) }
{
    let r = base_of(into.types_mut(), base)?;
    Ok(Some(r))
}

/// The type that a type name names (C17 6.7.7).
#[cycle(typed)]
pub(crate) fn type_named(
    s: &mut Scopes,
    u: &Unit,
    t: &Tokens,
    n: NodeId,
    hidden: bool,
    into: &mut TypedUnit,
) -> Result<Option<TypeId>, NoMemory>
    requires node { Is u.now is_declaration n }
    requires open { IsOpen into.old s.old }
    ensures open { IfAnswered result (λ x. (x.0 < length into.new.known.terms) × IsOpen into.new s.new) }
    ensures typed { IfOk result (λ r. after_type t.now.texts hidden s.new into.new r ≡ type_named (declaration_at u.now.forest n) (state_of t.now.texts hidden s.old into.old)) }
    ensures goes { IfAnswered result (λ v. Goes into.old into.new) }
{
    let alloc = s.allocator();
    match u.decl(n) {
        Decl::TypeName { specs, declarator } => match word_alone(u, specs, declarator) {
            Some(base) => word_type(s, into, base),
            None => type_name(alloc, u, t, s, into, specs, declarator, hidden),
        },
        Decl::Function { .. }
        | Decl::Declaration { .. }
        | Decl::InitDeclarator { .. }
        | Decl::Member { .. }
        | Decl::Enumerator { .. }
        | Decl::Parameter { .. } => Ok(None),
    }
}

/// The type that a type name names (C17 6.7.7p2).
#[cycle(typed)]
pub(crate) fn type_name(
    alloc: Global,
    u: &Unit,
    t: &Tokens,
    s: &mut Scopes,
    into: &mut TypedUnit,
    specs: ListId,
    declarator: Option<NodeId>,
    unevaluated: bool,
) -> Result<Option<TypeId>, NoMemory>
    requires specs { IsListOf u.now is_specifier specs }
    requires declarator { IfSome declarator (λ n. Is u.now is_declarator n) }
    requires opened { IsOpen into.old s.old }
    ensures opened { IfAnswered result (λ k. IsOpen into.new s.new) }
    ensures goes { IfAnswered result (λ k. Goes into.old into.new) }
    ensures known { IfOk result (λ r. IsType into.new.known r) }
    ensures answer { (line : ℕ) → IfOk result (λ r. after_type t.now.texts unevaluated s.new into.new r ≡ type_of_name u.now.forest line specs declarator (state_of t.now.texts unevaluated s.old into.old)) }
{
    let Some(base) = specified_type(u, t, s, into, specs, unevaluated)? else {
        return Ok(None);
    };
    let Some(steps) = optional_steps(alloc, u, t, s, into, declarator, unevaluated)? else {
        return Ok(None);
    };
    let r = derived_in(into, false, &steps.list, base)?;
    Ok(r)
}
