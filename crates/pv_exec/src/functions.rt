// What a call of a function gives where its body ends without a value (C17 5.1.2.2.3, 6.9.1p12).
ghost use Rattle.std.specs.Prelude.{◌≡◌, ◌<◌, length, nat_eq};
ghost use Rattle.std.specs.Cmp.Lexicographic.{pointwise};
ghost use Rattle.pv_types.specs.Known.{tree};
ghost use Rattle.pv_typed.specs.TypedUnits.{function_at};
ghost use Rattle.pv_typed.specs.Mains.{main_text, named_main};
ghost use Rattle.pv_typed.specs.Tables.{whole_unit};
ghost use Rattle.pv_world.specs.Coming.{worth_of};
ghost use Rattle.pv_eval.specs.States.{Setting};
ghost use Rattle.pv_eval.specs.TypeForms.{gives_none};
ghost use Rattle.pv_types.specs.Sorts.{is_void};
ghost use Rattle.pv_eval.specs.Runnable.{IsRunnable};
ghost use Rattle.pv_exec.specs.Calls.{value_at_end, value_by};
ghost use Rattle.pv_exec.specs.Works.{flow_of};

use crate::task::Flow;
use pv_object::Value;
use pv_typed::TypedUnit;
use pv_types::{Term, TypeId, Types};
use pv_world::Got;

// Whether a type is `void`, qualifiers aside.
fn is_none(types: &Types, t: TypeId) -> bool
    requires { t.0 < length types.now.terms }
    ensures { result ≡ is_void (tree types.now t.0) }
{
    let mut at = t;
    'layers: loop {
        match types.view(at) {
            Term::Void => return true,
            Term::Const(inner) => at = inner,
            _ => return false,
        }
    }
}

// Whether a function of the type returns nothing.
fn gives_none(types: &Types, t: TypeId) -> bool
    requires { t.0 < length types.now.terms }
    ensures { result ≡ gives_none (tree types.now t.0) }
{
    match types.view(t) {
        Term::Function { result, .. } => is_none(types, result),
        _ => false,
    }
}

// Whether a text is `main`.
fn is_main(text: &[u8]) -> bool
    ensures { result ≡ pointwise nat_eq text.now main_text }
{
    text == b"main".as_slice()
}

/// Whether a function is `main`.
pub fn names_main(unit: &TypedUnit, f: u32) -> bool
    requires runnable { IsRunnable unit.now }
    requires there { f < length unit.now.functions }
    ensures { result ≡ named_main unit.now.names (function_at (whole_unit unit.now) f).name }
{
    is_main(unit.names().text(unit.function(f).name))
}

fn value_at_end(unit: &TypedUnit, f: u32) -> Got
    requires runnable { IsRunnable unit.now }
    requires there { f < length unit.now.functions }
    ensures { (b : Setting) → b.unit ≡ whole_unit unit.now → worth_of result ≡ value_at_end b (function_at b.unit f) }
{
    if names_main(unit, f) {
        return Got::Scalar(Value::Int(0));
    }
    if gives_none(unit.types(), unit.function(f).t) {
        Got::Nothing
    } else {
        Got::Missing
    }
}

/// What a call gives whose body was left so.
pub fn value_by(unit: &TypedUnit, f: u32, flow: Flow) -> Got
    requires runnable { IsRunnable unit.now }
    requires there { f < length unit.now.functions }
    ensures { (b : Setting) → b.unit ≡ whole_unit unit.now → worth_of result ≡ value_by b (function_at b.unit f) (flow_of flow) }
{
    match flow {
        Flow::Returns(v) => v.take(),
        Flow::Falls => value_at_end(unit, f),
        Flow::Breaks => value_at_end(unit, f),
        Flow::Continues => value_at_end(unit, f),
    }
}
