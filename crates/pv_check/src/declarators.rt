//! Steps of declarators (C17 6.7.6), from the name outwards.
ghost use Rattle.std.specs.Prelude.{◌≡◌, ◌++◌, ◌∷◌, [], IfOk, ◌<◌, IfSome, Some};
ghost use Rattle.pv_check.specs.Derivations.{size_of};
ghost use Rattle.pv_tree.specs.Tables.{Is, is_expression, expression_at as expression_of_node, is_declarator, declarator_at, optional_at};
ghost use Rattle.pv_check.specs.Open.{state_of, IsOpen, Goes, IfAnswered};
ghost use Rattle.pv_check.specs.Rows.{operand, integer_value};
ghost use Rattle.pv_check.specs.Typing.{types, steps, optional_steps, array_size};
ghost use Rattle.pv_check.specs.Declarators.{after_steps, after_value, KnownSteps};

use crate::derivations::Step;
use crate::expressions::operand;
use crate::forms::{Form, form_of};
use crate::parameter_lists::with_parameters;
use crate::parameters::Signature;
use crate::scopes::Scopes;
use pv_token::Tokens;
use pv_tree::{NodeId, Unit};
use pv_typed::{TypedUnit, integer};
use pv_types::NoMemory;
use std::alloc::Global;

/// The steps of a declarator from its name outwards (C17 6.7.6p4).
#[derive(Drop)]
pub struct Steps {
    /// The steps.
    pub list: Vec<Step>,
    /// The list of parameters that stands next to the name, if one does (C17 6.9.1p2).
    pub signature: Option<Signature>,
}

/// One step more.
pub(crate) fn with_step(x: Steps, one: Step) -> Result<Steps, NoMemory>
    ensures list { IfOk result (λ r. r.list.items ≡ x.list.items ++ (one ∷ [])) }
    ensures signature { IfOk result (λ r. r.signature ≡ x.signature) }
{
    let mut more = x;
    more.list.push(one)?;
    Ok(more)
}

/// How many elements an array may have (C17 6.7.6.2p1).
pub(crate) fn size_of(k: i128) -> Option<u64>
    ensures { result ≡ size_of k }
{
    if 0 < k && k <= 0x1_0000_0000 {
        Some(k as u64)
    } else {
        None
    }
}

/// The value of an integer constant expression (C17 6.6p6).
#[cycle(typed)]
pub(crate) fn integer_at(
    u: &Unit,
    t: &Tokens,
    s: &mut Scopes,
    into: &mut TypedUnit,
    n: NodeId,
    unevaluated: bool,
) -> Result<Option<i128>, NoMemory>
    requires node { Is u.now is_expression n }
    requires opened { IsOpen into.old s.old }
    ensures opened { IfAnswered result (λ k. IsOpen into.new s.new) }
    ensures goes { IfAnswered result (λ k. Goes into.old into.new) }
    ensures answer { IfOk result (λ r. after_value t.now.texts unevaluated s.new into.new r ≡ integer_value (operand (types (expression_of_node u.now.forest n) (state_of t.now.texts unevaluated s.old into.old)))) }
{
    let Some(x) = operand(s, u, t, n, unevaluated, into)? else {
        return Ok(None);
    };
    Ok(integer(into, x))
}

/// The size of an array, where it is said (C17 6.7.6.2p1).
#[cycle(typed)]
pub(crate) fn array_size(
    u: &Unit,
    t: &Tokens,
    s: &mut Scopes,
    into: &mut TypedUnit,
    size: Option<NodeId>,
    unevaluated: bool,
) -> Result<Option<Option<u64>>, NoMemory>
    requires node { IfSome size (λ n. Is u.now is_expression n) }
    requires opened { IsOpen into.old s.old }
    ensures opened { IfAnswered result (λ k. IsOpen into.new s.new) }
    ensures goes { IfAnswered result (λ k. Goes into.old into.new) }
    ensures answer { IfOk result (λ r. after_value t.now.texts unevaluated s.new into.new r ≡ array_size (optional_at u.now.forest size) (state_of t.now.texts unevaluated s.old into.old)) }
{
    let Some(n) = size else {
        return Ok(Some(None));
    };
    let Some(k) = integer_at(u, t, s, into, n, unevaluated)? else {
        return Ok(None);
    };
    match size_of(k) {
        Some(count) => Ok(Some(Some(count))),
        None => Ok(None),
    }
}

/// The steps of a declarator, abstract or not (C17 6.7.6, 6.7.7).
#[cycle(typed)]
pub fn steps_of(
    alloc: Global,
    u: &Unit,
    t: &Tokens,
    s: &mut Scopes,
    into: &mut TypedUnit,
    n: NodeId,
    unevaluated: bool,
) -> Result<Option<Steps>, NoMemory>
    requires node { Is u.now is_declarator n }
    requires opened { IsOpen into.old s.old }
    ensures opened { IfAnswered result (λ k. IsOpen into.new s.new) }
    ensures goes { IfAnswered result (λ k. Goes into.old into.new) }
    ensures known { IfOk result (λ r. KnownSteps into.new r) }
    ensures answer { IfOk result (λ r. after_steps t.now.texts unevaluated s.new into.new r ≡ steps (declarator_at u.now.forest n) (state_of t.now.texts unevaluated s.old into.old)) }
{
    match form_of(u, s, into, n) {
        Form::Name => Ok(Some(Steps {
            list: Vec::new(alloc),
            signature: None,
        })),
        Form::Paren(d) => {
            let r = steps_of(alloc, u, t, s, into, d, unevaluated)?;
            Ok(r)
        }
        Form::Pointer(d, constant) => {
            let Some(x) = optional_steps(alloc, u, t, s, into, d, unevaluated)? else {
                return Ok(None);
            };
            let r = with_step(x, Step::Pointer { constant })?;
            Ok(Some(r))
        }
        Form::Array(d, size) => {
            let Some(x) = optional_steps(alloc, u, t, s, into, d, unevaluated)? else {
                return Ok(None);
            };
            let Some(count) = array_size(u, t, s, into, size, unevaluated)? else {
                return Ok(None);
            };
            let r = with_step(x, Step::Array(count))?;
            Ok(Some(r))
        }
        Form::Function(d, list, variadic) => {
            let Some(x) = optional_steps(alloc, u, t, s, into, d, unevaluated)? else {
                return Ok(None);
            };
            let r = with_parameters(alloc, u, t, s, into, x, list, variadic, unevaluated)?;
            Ok(r)
        }
        Form::Misplaced => Ok(None),
    }
}

/// The same of an abstract declarator that may be left out (C17 6.7.7p1).
#[cycle(typed)]
pub(crate) fn optional_steps(
    alloc: Global,
    u: &Unit,
    t: &Tokens,
    s: &mut Scopes,
    into: &mut TypedUnit,
    d: Option<NodeId>,
    unevaluated: bool,
) -> Result<Option<Steps>, NoMemory>
    requires node { IfSome d (λ n. Is u.now is_declarator n) }
    requires opened { IsOpen into.old s.old }
    ensures opened { IfAnswered result (λ k. IsOpen into.new s.new) }
    ensures goes { IfAnswered result (λ k. Goes into.old into.new) }
    ensures known { IfOk result (λ r. KnownSteps into.new r) }
    ensures answer { IfOk result (λ r. after_steps t.now.texts unevaluated s.new into.new r ≡ optional_steps (optional_at u.now.forest d) (state_of t.now.texts unevaluated s.old into.old)) }
{
    match d {
        None => Ok(Some(Steps {
            list: Vec::new(alloc),
            signature: None,
        })),
        Some(n) => {
            let r = steps_of(alloc, u, t, s, into, n, unevaluated)?;
            Ok(r)
        }
    }
}
