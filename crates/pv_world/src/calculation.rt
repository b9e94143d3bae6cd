// Operators on integers (6.5.3.3, 6.5.5 to 6.5.12), which look at no world.
ghost use Rattle.std.specs.Prelude.{◌≡◌, ◌++◌, None, IfOk};
ghost use Rattle.pv_num.specs.Kinds.{Fits};
ghost use Rattle.pv_num.specs.Arithmetic.{IsPromoted};
ghost use Rattle.pv_num.specs.Operands.{IsOperand};
ghost use Rattle.pv_world.specs.Worlds.{World as WorldView, ByVerdict};
ghost use Rattle.pv_world.specs.Telling.{fault_of, verdict_of};
ghost use Rattle.pv_inst.specs.Table.{Table};
ghost use Rattle.pv_world.specs.Worths.{int, int_of, arithmetic_fault};
ghost use Rattle.pv_world.specs.Calculations.{follows_to};
ghost use Rattle.pv_world.specs.Suiting.{where_suiting, is_integer, is_of_promoted, are_operands};
ghost use Rattle.pv_world.specs.CalculationParts.{accepts, needs, calculates, calculates_one};
ghost use Rattle.pv_world.specs.Coming.{Faulted, worth_of, IsMadeWorth, DidAndTold};

use crate::failing::fail;
use crate::got::{Cause, Failure, Got};
use crate::operands::{int_of, unplain};
use crate::suiting::{are_operands, is_of_promoted, unfit};
use pv_fault::{Clause, Fault, Reason, Verdict};
use pv_num::{ArithmeticFault, BinOp, IntKind, UnOp, binary, unary};
use pv_object::Value;
use pv_watch::What;

/// The paragraph that leaves a result of arithmetic undefined, and the reason.
fn arithmetic_fault(fault: ArithmeticFault) -> Fault
    ensures { result ≡ arithmetic_fault fault }
{
    match fault {
        ArithmeticFault::Overflow => Fault {
            clause: Clause::Exceptions,
            reason: Reason::Overflow,
        },
        ArithmeticFault::ZeroDivisor => Fault {
            clause: Clause::ZeroDivisors,
            reason: Reason::Divide,
        },
        ArithmeticFault::Quotient => Fault {
            clause: Clause::Quotients,
            reason: Reason::Quotient,
        },
        ArithmeticFault::Count => Fault {
            clause: Clause::ShiftCounts,
            reason: Reason::Count,
        },
        ArithmeticFault::Shift => Fault {
            clause: Clause::LeftShifts,
            reason: Reason::Shift,
        },
    }
}

/// The run ends by arithmetic that has no defined result.
fn undefined(told: &mut Vec<What>, fault: ArithmeticFault) -> Failure
    ensures { Faulted result (ByVerdict (Verdict.Undefined (arithmetic_fault fault))) told.new.items (told.old.items ++ fault_of None (verdict_of (ByVerdict (Verdict.Undefined (arithmetic_fault fault))))) }
{
    fail(
        told,
        Cause::Ends(Verdict::Undefined(arithmetic_fault(fault))),
        None,
    )
}

/// An operator on two integers (6.5.5 to 6.5.12), or the end of the run as by a missing value.
#[inline(always)]
#[tactic(auto, using(crate::proofs::Guards::suited, crate::proofs::Guards::unsuited))]
pub fn calculate(
    op: BinOp,
    kind: IntKind,
    v: &Got,
    x: &Got,
    told: &mut Vec<What>,
) -> Result<Got, Failure>
    ensures did { (w : WorldView) → DidAndTold worth_of (where_suiting (are_operands op kind (worth_of v.now) (worth_of x.now)) (calculates op kind (worth_of v.now) (worth_of x.now))) result w w told.old told.new }
{
    if are_operands(op, kind, v, x) {
        calculate_suiting(op, kind, v, x, told)
    } else {
        Err(unfit(told))
    }
}

/// The operator on two integers of its kind.
#[tactic(auto, using(crate::proofs::Comings::came_fails))]
fn calculate_suiting(
    op: BinOp,
    kind: IntKind,
    v: &Got,
    x: &Got,
    told: &mut Vec<What>,
) -> Result<Got, Failure>
    requires promoted { IsPromoted kind }
    requires left { Fits kind (int_of (worth_of v.now)) }
    requires right { IsOperand op kind (int_of (worth_of x.now)) }
    ensures did { (w : WorldView) → DidAndTold worth_of (calculates op kind (worth_of v.now) (worth_of x.now)) result w w told.old told.new }
{
    if let Some(cause) = unplain(v) {
        return Err(fail(told, cause, None));
    }
    if let Some(cause) = unplain(x) {
        return Err(fail(told, cause, None));
    }
    match binary(op, kind, int_of(v), int_of(x)) {
        Ok(n) => Ok(Got::Scalar(Value::Int(n))),
        Err(fault) => Err(undefined(told, fault)),
    }
}

/// An operator on one integer (6.5.3.3), or the end of the run as by a missing value.
#[tactic(auto, using(crate::proofs::Guards::suited, crate::proofs::Guards::unsuited))]
pub fn calculate_one(op: UnOp, kind: IntKind, v: &Got, told: &mut Vec<What>) -> Result<Got, Failure>
    ensures did { (w : WorldView) → DidAndTold worth_of (where_suiting (is_of_promoted kind (worth_of v.now)) (calculates_one op kind (worth_of v.now))) result w w told.old told.new }
{
    if is_of_promoted(kind, v) {
        calculate_one_suiting(op, kind, v, told)
    } else {
        Err(unfit(told))
    }
}

/// The operator on an integer of its kind.
#[tactic(auto, using(crate::proofs::Comings::came_fails))]
fn calculate_one_suiting(
    op: UnOp,
    kind: IntKind,
    v: &Got,
    told: &mut Vec<What>,
) -> Result<Got, Failure>
    requires promoted { IsPromoted kind }
    requires operand { Fits kind (int_of (worth_of v.now)) }
    ensures did { (w : WorldView) → DidAndTold worth_of (calculates_one op kind (worth_of v.now)) result w w told.old told.new }
{
    if let Some(cause) = unplain(v) {
        return Err(fail(told, cause, None));
    }
    match unary(op, kind, int_of(v)) {
        Ok(n) => Ok(Got::Scalar(Value::Int(n))),
        Err(fault) => Err(undefined(told, fault)),
    }
}

/// A number that an operation looks at (6.8.4.2p5): it is neither missing nor never set.
pub fn need(v: Got, told: &mut Vec<What>) -> Result<i128, Failure>
    ensures did { (w : WorldView) → DidAndTold int (where_suiting (is_integer (worth_of v)) (needs (worth_of v))) result w w told.old told.new }
{
    match v {
        Got::Scalar(Value::Int(n)) => Ok(n),
        Got::Scalar(Value::Unset) => Err(fail(told, Cause::Ends(Verdict::Indeterminate), None)),
        Got::Scalar(Value::Pointer(_)) => Err(unfit(told)),
        Got::Nothing | Got::Missing | Got::Whole(_, _) => Err(unfit(told)),
    }
}

/// A value that is handed on (6.5.2.2p4): it is not missing.
pub fn accept(v: Got, told: &mut Vec<What>) -> Result<Got, Failure>
    ensures did { (w : WorldView) → DidAndTold worth_of (accepts (worth_of v)) result w w told.old told.new }
    ensures made { (T : Table) → IsMadeWorth T (worth_of v) → IfOk result (λ g. IsMadeWorth T (worth_of g)) }
{
    match v {
        Got::Missing => Err(unfit(told)),
        Got::Nothing => Ok(Got::Nothing),
        Got::Scalar(v) => Ok(Got::Scalar(v)),
        Got::Whole(bytes, origin) => Ok(Got::Whole(bytes, origin)),
    }
}

/// What `*` gives (6.5.3.2p4): nothing, where it has the type `void`. It is checked alone that there is a value.
pub fn follow(nothing: bool, v: Got, told: &mut Vec<What>) -> Result<Got, Failure>
    ensures did { (w : WorldView) → DidAndTold worth_of (follows_to nothing (worth_of v)) result w w told.old told.new }
    ensures made { (T : Table) → IsMadeWorth T (worth_of v) → IfOk result (λ g. IsMadeWorth T (worth_of g)) }
{
    if nothing {
        match v {
            Got::Missing => Err(unfit(told)),
            Got::Nothing | Got::Scalar(_) | Got::Whole(_, _) => Ok(Got::Nothing),
        }
    } else {
        accept(v, told)
    }
}
