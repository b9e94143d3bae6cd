// Loops whose condition comes last (C17 6.8.5.2).
ghost use Rattle.std.specs.Prelude.{◌≡◌, true, OnOk};
ghost use Rattle.pv_typed.specs.NodeTrees.{IsStatement};
ghost use Rattle.pv_eval.specs.Moments.{Stays};
ghost use Rattle.pv_eval.specs.MachineSteps.{Fit};
ghost use Rattle.pv_eval.specs.Machines.{is_ended, after_first};
ghost use Rattle.pv_eval.specs.Runnable.{IsRunnable};
ghost use Rattle.pv_exec.specs.Leading.{ValueLed, FlowLed};
ghost use Rattle.pv_exec.specs.Fits.{WayFitsOr};
ghost use Rattle.pv_exec.specs.Quickness.{QuickOr};

use crate::parts::do_parts;
use crate::statements::evaluate;
use crate::task::{Doing, Flow, Task, Way};
use pv_eval::{Failure, Machine};
use pv_tree::NodeId;
use pv_typed::TypedUnit;

/// The condition of a `do` was evaluated: a further round is one level lower.
pub fn after_do_condition(
    unit: &TypedUnit,
    n: NodeId,
    machine: &mut Machine,
) -> Result<Way, Failure>
    requires runnable { IsRunnable unit.now }
    requires there { IsStatement unit.now n }
    requires ended { is_ended machine.old.started ≡ true }
    requires fit { Fit unit.now machine.old.started }
    ensures led { ValueLed unit.now (Task.TestedDo n) result machine.old machine.new }
    ensures stays { Stays machine.old.moment machine.new.moment }
    ensures fit { OnOk result (Fit unit.now machine.new.started) }
    ensures ways { WayFitsOr unit.now (after_first machine.old.started) machine.new.started result }
    ensures quick { QuickOr machine.new.started result }
{
    match do_parts(unit, n) {
        None => {
            machine.value();
            Ok(Way::Do(Doing::Left(Flow::Falls)))
        }
        Some(parts) => match machine.decide(unit, unit.line_of(parts.condition)) {
            Ok(goes_on) => {
                if goes_on {
                    Ok(Way::With(Task::RoundedDo(n), Doing::Enter(parts.body)))
                } else {
                    Ok(Way::Do(Doing::Left(Flow::Falls)))
                }
            }
            Err(e) => Err(e),
        },
    }
}

/// How the body of a `do` was left decides (C17 6.8.6.2, 6.8.6.3).
pub fn after_do_body(
    unit: &TypedUnit,
    n: NodeId,
    flow: Flow,
    machine: &mut Machine,
) -> Result<Way, Failure>
    requires there { IsStatement unit.now n }
    requires fit { Fit unit.now machine.old.started }
    ensures led { FlowLed unit.now (Task.RoundedDo n) flow result machine.old machine.new }
    ensures stays { Stays machine.old.moment machine.new.moment }
    ensures fit { OnOk result (Fit unit.now machine.new.started) }
    ensures ways { WayFitsOr unit.now machine.old.started machine.new.started result }
    ensures quick { QuickOr machine.new.started result }
{
    match do_parts(unit, n) {
        None => Ok(Way::Do(Doing::Left(flow))),
        Some(parts) => match flow {
            Flow::Falls => evaluate(machine, Task::TestedDo(n), parts.condition),
            Flow::Continues => evaluate(machine, Task::TestedDo(n), parts.condition),
            Flow::Breaks => Ok(Way::Do(Doing::Left(Flow::Falls))),
            Flow::Returns(v) => Ok(Way::Do(Doing::Left(Flow::Returns(v)))),
        },
    }
}
