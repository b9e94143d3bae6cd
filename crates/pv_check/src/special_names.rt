//! Names that have a meaning of their own (C17 5.1.2.2.1p1, 7.21.6.3p1), and the name that a declarator declares.
ghost use Rattle.std.specs.Prelude.{◌≡◌, ◌+◌, Bool, IfSome};
ghost use Rattle.pv_tree.specs.Tables.{Is, is_declarator, declarator_at, optional_at};
ghost use Rattle.pv_check.specs.Derivations.{declared_name, optional_name, is_printf_declarator, may_be_variadic};
ghost use Rattle.pv_check.specs.Open.{state_of, Texts};
ghost use Rattle.pv_check.specs.Texts.{same_text, has_text};
ghost use Rattle.pv_check.specs.PrintfFormats.{is_printf};
ghost use Rattle.pv_typed.specs.Mains.{named_main};

use crate::scopes::Scopes;
use pv_tree::{Declarator, NodeId, Unit};
use pv_typed::TypedUnit;

/// Whether two texts are equal.
fn same_text(a: &[u8], b: &[u8]) -> bool
    ensures { result ≡ same_text a.now b.now }
{
    a == b
}

/// Whether a name of the source, by its number there, has this text: names of the source stand behind two others.
fn has_text(into: &TypedUnit, n: u32, text: &[u8]) -> bool
    ensures { result ≡ has_text into.now.names (n + 2) text.now }
{
    let name = n as u64 + 2;
    if name < into.names().len() as u64 {
        same_text(into.names().text(name as u32), text)
    } else {
        same_text(&[], text)
    }
}

/// Whether a name of the source is `main`.
pub(crate) fn is_main(into: &TypedUnit, n: u32) -> bool
    ensures { result ≡ named_main into.now.names (n + 2) }
{
    has_text(into, n, b"main")
}

/// Whether a name of the source is `printf`.
fn is_printf(into: &TypedUnit, n: u32) -> bool
    ensures { result ≡ is_printf into.now.names (n + 2) }
{
    has_text(into, n, b"printf")
}

/// The name that a declarator declares, and its line.
pub fn declared_name(u: &Unit, n: NodeId) -> Option<(u32, u32)>
    requires { Is u.now is_declarator n }
    ensures { result ≡ declared_name (declarator_at u.now.forest n) }
{
    match u.declarator(n) {
        Declarator::Name(name) => Some((name, u.line(n))),
        Declarator::Paren(d) => declared_name(u, d),
        Declarator::Pointer { declarator, .. } => declared_name(u, declarator),
        Declarator::Array { declarator, .. } => declared_name(u, declarator),
        Declarator::Function { declarator, .. } => declared_name(u, declarator),
        _ => None,
    }
}

/// The same of a declarator that may be left out.
pub(crate) fn optional_name(u: &Unit, d: Option<NodeId>) -> Option<(u32, u32)>
    requires { IfSome d (λ n. Is u.now is_declarator n) }
    ensures { result ≡ optional_name (optional_at u.now.forest d) }
{
    match d {
        Some(n) => declared_name(u, n),
        None => None,
    }
}

/// Whether a declarator is the name `printf`, parentheses aside.
fn is_printf_declarator(u: &Unit, into: &TypedUnit, n: NodeId) -> bool
    requires { Is u.now is_declarator n }
    ensures { result ≡ is_printf_declarator into.now.names (declarator_at u.now.forest n) }
{
    match u.declarator(n) {
        Declarator::Name(name) => is_printf(into, name),
        Declarator::Paren(d) => is_printf_declarator(u, into, d),
        _ => false,
    }
}

/// Whether the list of parameters behind a declarator may end with `...`: in the declaration of `printf` at file scope.
pub(crate) fn may_be_variadic(
    u: &Unit,
    s: &Scopes,
    into: &TypedUnit,
    variadic: bool,
    n: NodeId,
) -> bool
    requires { Is u.now is_declarator n }
    ensures { (texts : Texts) (h : Bool) → result ≡ may_be_variadic variadic (declarator_at u.now.forest n) (state_of texts h s.now into.now) }
{
    if !variadic {
        return true;
    }
    s.count() == 1 && is_printf_declarator(u, into, n)
}
