//! Lists of parameters (C17 6.7.6.3), which declarators and the lists' declarators need one another for.
ghost use Rattle.std.specs.Prelude.{◌≡◌, IfOk, List, Some};
ghost use Rattle.pv_tree.specs.Tables.{Is, is_declaration, tree_at, trees_at, IsListOf};
ghost use Rattle.pv_typed.specs.Known.{Each};
ghost use Rattle.pv_check.specs.Declarators.{after_parameter, after_parameters, after_steps, steps_shown, ParameterKnown, StepsKnown, KnownSteps, value_after};
ghost use Rattle.pv_check.specs.Derivations.{Parameter as WholeParameter};
ghost use Rattle.pv_check.specs.Open.{state_of, IsOpen, Goes, IfAnswered};
ghost use Rattle.pv_check.specs.RowParts.{by_function};
ghost use Rattle.pv_check.specs.Typing.{parameters, parameter_in};
ghost use Rattle.pv_check.specs.Operands.{with_parameter_list};

use crate::declarators::{Steps, optional_steps};
use crate::parameters::{Parameter, by_function, entered, parameter_of};
use crate::scopes::Scopes;
use crate::special_names::optional_name;
use crate::type_names::specified_type;
use pv_token::Tokens;
use pv_tree::{Decl, ListId, NodeId, Unit};
use pv_typed::TypedUnit;
use pv_types::NoMemory;
use std::alloc::Global;

/// The steps of a declarator with a function more, whose list of parameters has a scope of its own (C17 6.2.1p4).
#[cycle(typed)]
pub(crate) fn with_parameters(
    alloc: Global,
    u: &Unit,
    t: &Tokens,
    s: &mut Scopes,
    into: &mut TypedUnit,
    x: Steps,
    list: ListId,
    variadic: bool,
    unevaluated: bool,
) -> Result<Option<Steps>, NoMemory>
    requires list { IsListOf u.now is_declaration list }
    requires opened { IsOpen into.old s.old }
    requires steps { StepsKnown into.old x }
    ensures opened { IfAnswered result (λ k. IsOpen into.new s.new) }
    ensures goes { IfAnswered result (λ k. Goes into.old into.new) }
    ensures known { IfOk result (λ r. KnownSteps into.new r) }
    ensures answer { IfOk result (λ r. after_steps t.now.texts unevaluated s.new into.new r ≡ with_parameter_list u.now.forest list variadic (steps_shown into.old.known x) (state_of t.now.texts unevaluated s.old into.old)) }
{
    entered(s, into)?;
    let Some(ps) = parameters(alloc, u, t, s, into, list, unevaluated)? else {
        return Ok(None);
    };
    let r = by_function(s, into, x, variadic, ps)?;
    Ok(r)
}

/// The parameters of a list, each declared in the innermost scope (C17 6.7.6.3p1).
#[cycle(typed)]
fn parameters(
    alloc: Global,
    u: &Unit,
    t: &Tokens,
    s: &mut Scopes,
    into: &mut TypedUnit,
    list: ListId,
    unevaluated: bool,
) -> Result<Option<Vec<Parameter>>, NoMemory>
    requires list { IsListOf u.now is_declaration list }
    requires opened { IsOpen into.old s.old }
    ensures opened { IfAnswered result (λ v. IsOpen into.new s.new) }
    ensures goes { IfAnswered result (λ v. Goes into.old into.new) }
    ensures known { IfAnswered result (λ v. Each (ParameterKnown into.new) v.items) }
    ensures answer { IfOk result (λ r. after_parameters t.now.texts unevaluated s.new into.new r ≡ parameters (trees_at u.now.forest list) (state_of t.now.texts unevaluated s.old into.old)) }
{
    let nodes = u.list(list);
    let mut ps = Vec::new(alloc);
    let mut i = 0;
    while i < nodes.len() {
        let Some(p) = parameter(alloc, u, t, s, into, nodes[i], unevaluated)? else {
            return Ok(None);
        };
        ps.push(p)?;
        i += 1;
    }
    Ok(Some(ps))
}

/// A parameter (C17 6.7.6.3p1, p2).
#[cycle(typed)]
fn parameter(
    alloc: Global,
    u: &Unit,
    t: &Tokens,
    s: &mut Scopes,
    into: &mut TypedUnit,
    n: NodeId,
    unevaluated: bool,
) -> Result<Option<Parameter>, NoMemory>
    requires node { Is u.now is_declaration n }
    requires opened { IsOpen into.old s.old }
    ensures opened { IfAnswered result (λ p. IsOpen into.new s.new) }
    ensures goes { IfAnswered result (λ p. Goes into.old into.new) }
    ensures known { IfAnswered result (ParameterKnown into.new) }
    ensures answer { IfOk result (λ r. (ps : List WholeParameter) → after_parameter t.now.texts unevaluated s.new into.new ps r ≡ parameter_in (tree_at u.now.forest n) (value_after t.now.texts unevaluated s.old into.old ps)) }
{
    match u.decl(n) {
        Decl::Parameter { specs, declarator } => {
            let Some(base) = specified_type(u, t, s, into, specs, unevaluated)? else {
                return Ok(None);
            };
            let Some(steps) = optional_steps(alloc, u, t, s, into, declarator, unevaluated)? else {
                return Ok(None);
            };
            let named = optional_name(u, declarator);
            let r = parameter_of(s, into, named, base, &steps.list)?;
            Ok(r)
        }
        Decl::Function { .. }
        | Decl::Declaration { .. }
        | Decl::InitDeclarator { .. }
        | Decl::Member { .. }
        | Decl::Enumerator { .. }
        | Decl::TypeName { .. } => Ok(None),
    }
}
