// What tasks do with the values of expressions.
ghost use Rattle.std.specs.Prelude.{◌≡◌, true, OnOk, IfOk};
ghost use Rattle.pv_typed.specs.NodeTrees.{IsStatement};
ghost use Rattle.pv_eval.specs.Moments.{Stays, IsMemory};
ghost use Rattle.pv_eval.specs.MachineSteps.{Fit};
ghost use Rattle.pv_eval.specs.Machines.{is_ended, after_first};
ghost use Rattle.pv_eval.specs.Runnable.{IsRunnable};
ghost use Rattle.pv_exec.specs.Leading.{ValueLed};
ghost use Rattle.pv_exec.specs.Fits.{WayFitsOr};
ghost use Rattle.pv_exec.specs.Quickness.{QuickOr};
ghost use Rattle.pv_exec.specs.Read.{side_of};

use crate::parts::{ChoiceParts, choice_parts, return_value};
use crate::rounds::round_again;
use crate::statements::begin_round;
use crate::task::{Doing, Flow, Task, Way};
use pv_eval::{Failure, Machine};
use pv_tree::NodeId;
use pv_typed::TypedUnit;
use pv_world::Got;

/// The value of an expression statement is dropped (C17 6.8.3p2).
pub fn after_expression(unit: &TypedUnit, machine: &mut Machine) -> Result<Way, Failure>
    requires ended { is_ended machine.old.started ≡ true }
    requires fit { Fit unit.now machine.old.started }
    ensures led { ValueLed unit.now Task.Dropping result machine.old machine.new }
    ensures stays { Stays machine.old.moment machine.new.moment }
    ensures fit { OnOk result (Fit unit.now machine.new.started) }
    ensures ways { WayFitsOr unit.now (after_first machine.old.started) machine.new.started result }
    ensures quick { QuickOr machine.new.started result }
{
    machine.value();
    Ok(Way::Do(Doing::Left(Flow::Falls)))
}

/// The first expression of a `for` was evaluated (C17 6.8.5.3).
pub fn after_first_part(unit: &TypedUnit, n: NodeId, machine: &mut Machine) -> Result<Way, Failure>
    requires there { IsStatement unit.now n }
    requires ended { is_ended machine.old.started ≡ true }
    requires fit { Fit unit.now machine.old.started }
    ensures led { ValueLed unit.now (Task.First n) result machine.old machine.new }
    ensures stays { Stays machine.old.moment machine.new.moment }
    ensures fit { OnOk result (Fit unit.now machine.new.started) }
    ensures ways { WayFitsOr unit.now (after_first machine.old.started) machine.new.started result }
    ensures quick { QuickOr machine.new.started result }
{
    machine.value();
    begin_round(unit, n, machine)
}

/// The last expression of a loop was evaluated (C17 6.8.5.3).
pub fn after_step(unit: &TypedUnit, n: NodeId, machine: &mut Machine) -> Result<Way, Failure>
    requires there { IsStatement unit.now n }
    requires ended { is_ended machine.old.started ≡ true }
    requires fit { Fit unit.now machine.old.started }
    ensures led { ValueLed unit.now (Task.Stepped n) result machine.old machine.new }
    ensures stays { Stays machine.old.moment machine.new.moment }
    ensures fit { OnOk result (Fit unit.now machine.new.started) }
    ensures ways { WayFitsOr unit.now (after_first machine.old.started) machine.new.started result }
    ensures quick { QuickOr machine.new.started result }
{
    machine.value();
    round_again(unit, n, machine)
}

/// The side of an `if` that is executed (C17 6.8.4.1p2).
pub fn side(parts: ChoiceParts, yes: bool) -> Doing
    ensures { result ≡ side_of parts yes }
{
    if yes {
        return Doing::Enter(parts.body);
    }
    match parts.other {
        Some(y) => Doing::Enter(y),
        None => Doing::Left(Flow::Falls),
    }
}

/// The condition of an `if` was evaluated.
pub fn after_choice(unit: &TypedUnit, n: NodeId, machine: &mut Machine) -> Result<Way, Failure>
    requires runnable { IsRunnable unit.now }
    requires there { IsStatement unit.now n }
    requires ended { is_ended machine.old.started ≡ true }
    requires fit { Fit unit.now machine.old.started }
    ensures led { ValueLed unit.now (Task.Chosen n) result machine.old machine.new }
    ensures stays { Stays machine.old.moment machine.new.moment }
    ensures fit { OnOk result (Fit unit.now machine.new.started) }
    ensures ways { WayFitsOr unit.now (after_first machine.old.started) machine.new.started result }
    ensures quick { QuickOr machine.new.started result }
{
    match choice_parts(unit, n) {
        None => {
            machine.value();
            Ok(Way::Do(Doing::Left(Flow::Falls)))
        }
        Some(parts) => match machine.decide(unit, unit.line_of(parts.condition)) {
            Ok(yes) => Ok(Way::Do(side(parts, yes))),
            Err(e) => Err(e),
        },
    }
}

/// A statement is left with a value (C17 6.8.6.4).
pub fn leave_with(v: Got, machine: &Machine) -> Result<Way, Failure>
    ensures way { IfOk result (λ w. w ≡ Way.Do (Doing.Left (Flow.Returns v))) }
    ensures memory { IsMemory result }
{
    match machine.keep(v) {
        Ok(v) => Ok(Way::Do(Doing::Left(Flow::Returns(v)))),
        Err(_) => Err(Failure::NoMemory),
    }
}

/// The expression of a `return` was evaluated (C17 6.8.6.4).
pub fn after_return(unit: &TypedUnit, n: NodeId, machine: &mut Machine) -> Result<Way, Failure>
    requires runnable { IsRunnable unit.now }
    requires there { IsStatement unit.now n }
    requires ended { is_ended machine.old.started ≡ true }
    requires fit { Fit unit.now machine.old.started }
    ensures led { ValueLed unit.now (Task.Returning n) result machine.old machine.new }
    ensures stays { Stays machine.old.moment machine.new.moment }
    ensures fit { OnOk result (Fit unit.now machine.new.started) }
    ensures ways { WayFitsOr unit.now (after_first machine.old.started) machine.new.started result }
    ensures quick { QuickOr machine.new.started result }
{
    match return_value(unit, n) {
        None => {
            machine.value();
            Ok(Way::Do(Doing::Left(Flow::Falls)))
        }
        Some(x) => match machine.hand(unit, x, unit.line_of(n)) {
            Ok(v) => leave_with(v, machine),
            Err(e) => Err(e),
        },
    }
}
