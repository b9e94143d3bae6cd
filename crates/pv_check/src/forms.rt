//! What stands outermost in a declarator, abstract or not (C17 6.7.6, 6.7.7).
ghost use Rattle.std.specs.Prelude.{◌≡◌, Bool};
ghost use Rattle.pv_tree.specs.Tables.{Is, is_declarator, declarator_at};
ghost use Rattle.pv_check.specs.Forms.{HasFormParts, form_steps};
ghost use Rattle.pv_check.specs.Open.{state_of, Texts};
ghost use Rattle.pv_check.specs.Typing.{steps};

use crate::scopes::Scopes;
use crate::special_names::may_be_variadic;
use pv_tree::{Declarator, ListId, NodeId, Unit};
use pv_typed::TypedUnit;

/// What stands outermost in a declarator, and what it stands round: no declarator, where an abstract one has none there.
#[derive(Clone, Copy)]
pub(crate) enum Form {
    /// A name.
    Name,
    /// Parentheses.
    Paren(NodeId),
    /// `*`, and whether `const` stands behind it (C17 6.7.6.1).
    Pointer(Option<NodeId>, bool),
    /// Brackets, and the size in them (C17 6.7.6.2).
    Array(Option<NodeId>, Option<NodeId>),
    /// A list of parameters, and whether `...` ends it (C17 6.7.6.3).
    Function(Option<NodeId>, ListId, bool),
    /// `...` where it may not stand.
    Misplaced,
}

/// What stands outermost in a declarator.
pub(crate) fn form_of(u: &Unit, s: &Scopes, into: &TypedUnit, n: NodeId) -> Form
    requires { Is u.now is_declarator n }
    ensures parts { HasFormParts u.now.forest n.0 result }
    ensures answer { (texts : Texts) (h : Bool) → form_steps u.now.forest result (state_of texts h s.now into.now) ≡ steps (declarator_at u.now.forest n) (state_of texts h s.now into.now) }
{
    match u.declarator(n) {
        Declarator::Name(_) => Form::Name,
        Declarator::Paren(d) | Declarator::AbstractParen(d) => Form::Paren(d),
        Declarator::Pointer { consts, declarator } => Form::Pointer(Some(declarator), 0 < consts),
        Declarator::AbstractPointer { consts, declarator } => Form::Pointer(declarator, 0 < consts),
        Declarator::Array { declarator, size } => Form::Array(Some(declarator), size),
        Declarator::AbstractArray { declarator, size } => Form::Array(declarator, size),
        Declarator::Function {
            declarator,
            parameters,
            variadic,
        } => {
            if may_be_variadic(u, s, into, variadic, declarator) {
                Form::Function(Some(declarator), parameters, variadic)
            } else {
                Form::Misplaced
            }
        }
        Declarator::AbstractFunction {
            declarator,
            parameters,
            variadic,
        } => {
            if variadic {
                Form::Misplaced
            } else {
                Form::Function(declarator, parameters, variadic)
            }
        }
    }
}
