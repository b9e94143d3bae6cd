// What operations ask of the values that they are given.
ghost use Rattle.std.specs.Prelude.{◌≡◌};
ghost use Rattle.std.specs.Option.{option_map};
ghost use Rattle.pv_inst.specs.Table.{Table, IsMadeIn};
ghost use Rattle.pv_world.specs.Worths.{missing_value, why_not_set, why_missing, int_of, pointer_of, truth_int};
ghost use Rattle.pv_world.specs.Coming.{worth_of, wrong_for, IsMadeWorth};
ghost use Rattle.pv_world.specs.PointerParts.{uneven};

use crate::got::{Cause, Got};
use pv_fault::{Clause, Fault, Reason, Verdict};
use pv_object::{Pointer, Value};
use pv_prov::Prov;

/// Why a value can't be operated on: it is missing (6.9.1p12), or it was never set (6.3.2.1p2).
pub(crate) fn unplain(v: &Got) -> Option<Cause>
    ensures { option_map wrong_for result ≡ why_not_set (worth_of v.now) }
{
    match v {
        Got::Missing => Some(missing()),
        Got::Scalar(Value::Unset) => Some(Cause::Ends(Verdict::Indeterminate)),
        _ => None,
    }
}

/// Why a value can't be passed on: it is missing.
pub(crate) fn unpresent(v: &Got) -> Option<Cause>
    ensures { option_map wrong_for result ≡ why_missing (worth_of v.now) }
{
    match v {
        Got::Missing => Some(missing()),
        _ => None,
    }
}

/// The value of a function that returned none is used (6.9.1p12).
pub fn missing() -> Cause
    ensures { wrong_for result ≡ missing_value }
{
    Cause::Ends(Verdict::Undefined(Fault {
        clause: Clause::MissingValues,
        reason: Reason::Value,
    }))
}

/// The difference of two pointers is no whole number of elements (6.5.6p9).
pub(crate) fn uneven() -> Cause
    ensures { wrong_for result ≡ uneven }
{
    Cause::Ends(Verdict::Undefined(Fault {
        clause: Clause::SubtractionOfPointers,
        reason: Reason::Uneven,
    }))
}

/// The number that a value is.
pub fn int_of(v: &Got) -> i128
    ensures { result ≡ int_of (worth_of v.now) }
{
    match v {
        Got::Scalar(Value::Int(n)) => *n,
        _ => 0,
    }
}

/// The pointer that a value is; the null pointer where it is none.
pub fn pointer_of(v: &Got) -> Pointer
    ensures value { result ≡ pointer_of (worth_of v.now) }
    ensures made { (T : Table) → IsMadeWorth T (worth_of v.now) → IsMadeIn T result.prov }
{
    match v {
        Got::Scalar(Value::Pointer(p)) => *p,
        _ => Pointer {
            address: 0,
            prov: Prov::Empty,
        },
    }
}

/// 1 or 0.
pub fn truth_value(t: bool) -> Got
    ensures { worth_of result ≡ truth_int t }
{
    Got::Scalar(Value::Int(if t { 1 } else { 0 }))
}
