//! What the name of a function asks of its type (C17 5.1.2.2.1p1, 7.1.4p2).
ghost use Rattle.std.specs.Prelude.{◌≡◌, ◌<◌, ◌||◌, ◌&&◌, not, length, IfOk, OnOk};
ghost use Rattle.pv_types.specs.Known.{tree};
ghost use Rattle.pv_types.specs.Compatible.{are_compatible};
ghost use Rattle.pv_typed.specs.Tables.{whole_unit};
ghost use Rattle.pv_check.specs.Open.{IsOpen, Goes};
ghost use Rattle.pv_check.specs.PrintfFormats.{is_printf};
ghost use Rattle.pv_typed.specs.Mains.{named_main};
ghost use Rattle.pv_unit.specs.MainType.{main_type};
ghost use Rattle.pv_unit.specs.Redeclarations.{unit_name, is_variadic, may_have};

use crate::known_names::{is_main, is_printf};
use crate::mains::is_main_type;
use crate::prototypes::agrees;
use pv_check::Scopes;
use pv_typed::TypedUnit;
use pv_types::{NoMemory, Term, TypeId, Types};

/// Whether more arguments may follow those of the parameters.
fn is_variadic(types: &Types, t: TypeId) -> bool
    requires { t.0 < length types.now.terms }
    ensures { result ≡ is_variadic (tree types.now t.0) }
{
    match types.view(t) {
        Term::Function {
            result: _,
            params: _,
            variadic,
        } => variadic,
        Term::Void
        | Term::Int(_)
        | Term::Pointer(_)
        | Term::Array(_, _)
        | Term::Struct(_)
        | Term::Union(_)
        | Term::Const(_) => false,
    }
}

/// `main` is `int (void)`.
fn main_allows(s: &Scopes, into: &mut TypedUnit, name: u32, t: TypeId) -> Result<bool, NoMemory>
    requires opened { IsOpen into.old s.now }
    requires known { t.0 < length into.old.known.terms }
    ensures opened { OnOk result (IsOpen into.new s.now) }
    ensures goes { OnOk result (Goes into.old into.new) }
    ensures whole { OnOk result (whole_unit into.new ≡ whole_unit into.old) }
    ensures answer { IfOk result (λ b. b ≡ (not (named_main into.old.names (unit_name name)) || are_compatible (tree into.old.known t.0) main_type)) }
{
    if !is_main(into, name) {
        return Ok(true);
    }
    let b = is_main_type(s, into, t)?;
    Ok(b)
}

/// `...` is `printf`'s alone.
fn variadic_allows(into: &TypedUnit, name: u32, t: TypeId) -> bool
    requires { t.0 < length into.now.known.terms }
    ensures { result ≡ (not (is_variadic (tree into.now.known t.0)) || is_printf into.now.names (unit_name name)) }
{
    !is_variadic(into.types(), t) || is_printf(into, name)
}

/// Whether a function with the name may have the type.
pub(crate) fn may_have(
    s: &Scopes,
    into: &mut TypedUnit,
    name: u32,
    t: TypeId,
) -> Result<bool, NoMemory>
    requires opened { IsOpen into.old s.now }
    requires known { t.0 < length into.old.known.terms }
    ensures opened { OnOk result (IsOpen into.new s.now) }
    ensures goes { OnOk result (Goes into.old into.new) }
    ensures whole { OnOk result (whole_unit into.new ≡ whole_unit into.old) }
    ensures answer { IfOk result (λ b. b ≡ may_have into.old.names (unit_name name) (tree into.old.known t.0)) }
{
    let main = main_allows(s, into, name, t)?;
    let library = agrees(s, into, name, t)?;
    let variadic = variadic_allows(into, name, t);
    Ok(all_three(main, library, variadic))
}

/// Whether all three are so.
fn all_three(a: bool, b: bool, c: bool) -> bool
    ensures { result ≡ (a && b && c) }
{
    a && b && c
}
