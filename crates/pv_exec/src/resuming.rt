// What tasks do with what they waited for.
ghost use Rattle.std.specs.Prelude.{◌≡◌, true, false, OnOk};
ghost use Rattle.pv_eval.specs.Moments.{Stays};
ghost use Rattle.pv_eval.specs.MachineSteps.{Fit};
ghost use Rattle.pv_eval.specs.Machines.{is_ended, after_first};
ghost use Rattle.pv_eval.specs.Runnable.{IsRunnable};
ghost use Rattle.pv_exec.specs.Tasks.{takes_value};
ghost use Rattle.pv_exec.specs.Works.{behind_call};
ghost use Rattle.pv_exec.specs.Leading.{FlowLed, TaskLed};
ghost use Rattle.pv_exec.specs.Fits.{TaskFits, Stands, WayFitsOr};
ghost use Rattle.pv_exec.specs.Quickness.{QuickOr};

use crate::calls::after_call;
use crate::do_loops::{after_do_body, after_do_condition};
use crate::lists::{after_declarations, after_statement};
use crate::rounds::{after_body, after_condition};
use crate::scopes::{after_block, after_switch};
use crate::stores::after_store;
use crate::switches::after_selection;
use crate::task::{Doing, Flow, Task, Way};
use crate::values::{after_choice, after_expression, after_first_part, after_return, after_step};
use pv_eval::{Failure, Machine};
use pv_typed::TypedUnit;

/// A task is reached with how a statement was left.
#[inline(always)]
pub fn resume_flow(
    unit: &TypedUnit,
    task: Task,
    flow: Flow,
    machine: &mut Machine,
) -> Result<Way, Failure>
    requires runnable { IsRunnable unit.now }
    requires task { TaskFits unit.now task }
    requires stands { Stands task machine.old.started }
    requires fit { Fit unit.now machine.old.started }
    ensures led { FlowLed unit.now task flow result machine.old machine.new }
    ensures stays { Stays machine.old.moment machine.new.moment }
    ensures fit { OnOk result (Fit unit.now machine.new.started) }
    ensures ways { WayFitsOr unit.now (behind_call task machine.old.started) machine.new.started result }
    ensures quick { QuickOr machine.new.started result }
{
    match task {
        Task::InList(l, i) => after_statement(unit, l, i, flow, machine),
        Task::InBlock(n) => after_block(unit, n, flow, machine),
        Task::InSwitch => Ok(after_switch(flow)),
        Task::Declared(n) => after_declarations(unit, n, flow, machine),
        Task::Rounded(n) => after_body(unit, n, flow, machine),
        Task::RoundedDo(n) => after_do_body(unit, n, flow, machine),
        Task::InCall(f, line) => after_call(unit, f, line, flow, machine),
        Task::Dropping => Ok(Way::Do(Doing::Left(flow))),
        Task::Chosen(_) => Ok(Way::Do(Doing::Left(flow))),
        Task::First(_) => Ok(Way::Do(Doing::Left(flow))),
        Task::Tested(_) => Ok(Way::Do(Doing::Left(flow))),
        Task::Stepped(_) => Ok(Way::Do(Doing::Left(flow))),
        Task::TestedDo(_) => Ok(Way::Do(Doing::Left(flow))),
        Task::Selecting(_) => Ok(Way::Do(Doing::Left(flow))),
        Task::Returning(_) => Ok(Way::Do(Doing::Left(flow))),
        Task::Storing(_, _) => Ok(Way::Do(Doing::Left(flow))),
    }
}

// A task that waits for no value is reached with one.
fn pass_value(unit: &TypedUnit, task: Task, machine: &mut Machine) -> Result<Way, Failure>
    requires runnable { IsRunnable unit.now }
    requires task { TaskFits unit.now task }
    requires flow { takes_value task ≡ false }
    requires stands { Stands task (after_first machine.old.started) }
    requires ended { is_ended machine.old.started ≡ true }
    requires fit { Fit unit.now machine.old.started }
    ensures led { TaskLed unit.now task result machine.old machine.new }
    ensures stays { Stays machine.old.moment machine.new.moment }
    ensures fit { OnOk result (Fit unit.now machine.new.started) }
    ensures ways { WayFitsOr unit.now (behind_call task (after_first machine.old.started)) machine.new.started result }
    ensures quick { QuickOr machine.new.started result }
{
    let v = machine.value();
    match machine.keep(v) {
        Ok(v) => resume_flow(unit, task, Flow::Returns(v), machine),
        Err(_) => Err(Failure::NoMemory),
    }
}

/// A task is reached with the value of an expression.
pub fn resume_value(unit: &TypedUnit, task: Task, machine: &mut Machine) -> Result<Way, Failure>
    requires runnable { IsRunnable unit.now }
    requires task { TaskFits unit.now task }
    requires stands { Stands task (after_first machine.old.started) }
    requires ended { is_ended machine.old.started ≡ true }
    requires fit { Fit unit.now machine.old.started }
    ensures led { TaskLed unit.now task result machine.old machine.new }
    ensures stays { Stays machine.old.moment machine.new.moment }
    ensures fit { OnOk result (Fit unit.now machine.new.started) }
    ensures ways { WayFitsOr unit.now (behind_call task (after_first machine.old.started)) machine.new.started result }
    ensures quick { QuickOr machine.new.started result }
{
    match task {
        Task::Dropping => after_expression(unit, machine),
        Task::Chosen(n) => after_choice(unit, n, machine),
        Task::First(n) => after_first_part(unit, n, machine),
        Task::Tested(n) => after_condition(unit, n, machine),
        Task::Stepped(n) => after_step(unit, n, machine),
        Task::TestedDo(n) => after_do_condition(unit, n, machine),
        Task::Selecting(n) => after_selection(unit, n, machine),
        Task::Returning(n) => after_return(unit, n, machine),
        Task::Storing(o, i) => after_store(unit, o, i, machine),
        Task::InList(l, i) => pass_value(unit, Task::InList(l, i), machine),
        Task::InBlock(n) => pass_value(unit, Task::InBlock(n), machine),
        Task::InSwitch => pass_value(unit, Task::InSwitch, machine),
        Task::Declared(n) => pass_value(unit, Task::Declared(n), machine),
        Task::Rounded(n) => pass_value(unit, Task::Rounded(n), machine),
        Task::RoundedDo(n) => pass_value(unit, Task::RoundedDo(n), machine),
        Task::InCall(f, line) => pass_value(unit, Task::InCall(f, line), machine),
    }
}
