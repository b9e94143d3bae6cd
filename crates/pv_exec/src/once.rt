// One operation of a run.
ghost use Rattle.std.specs.Prelude.{◌≡◌, ◌+◌, ◌<◌, ◌^◌, List, length, All, OnOk, IfOk, reverse, true};
ghost use Rattle.pv_typed.specs.Tables.{Stored};
ghost use Rattle.pv_eval.specs.MachineSteps.{Fit, KeepsSetting};
ghost use Rattle.pv_eval.specs.States.{Setting, State, Res};
ghost use Rattle.pv_eval.specs.Runnable.{IsRunnable};
ghost use Rattle.pv_exec.specs.Tasks.{Reached, Left, Valued};
ghost use Rattle.pv_exec.specs.Works.{due, others};
ghost use Rattle.pv_exec.specs.Leading.{Leads, LeadsOr, DoingLed, OnceLed, Waits, FollowedOr};
ghost use Rattle.pv_exec.specs.Pace.{goes_on, doing_ops, way_ops, FollowedPace, AfterPace};
ghost use Rattle.pv_exec.specs.Fits.{TaskFits, TasksStand, DoingFits, WayFits, WayFitsOr, RunsOr, Runs, AfterRuns};
ghost use Rattle.pv_exec.specs.Quickness.{PaceOr};
ghost use Rattle.pv_eval.specs.Machines.{Started};

use crate::calls::call;
use crate::enter::enter;
use crate::going::go_on;
use crate::lists::{next_statement, within};
use crate::resuming::{resume_flow, resume_value};
use crate::rounds::{begin_again, begin_body, round_goes_on};
use crate::stores::store;
use crate::switches::jump;
use crate::task::{Doing, Flow, Task, Way};
use pv_eval::{Failure, Machine};
use pv_typed::TypedUnit;

/// How the statements of a run ended.
#[derive(Drop)]
pub enum Last {
    /// No task waits for this end of a statement.
    Left(Flow),
    /// No task waits for the value of the innermost expression.
    Valued,
    /// As many turns as allowed were taken, and another is due.
    Turns,
}

/// What comes after an operation, or after a turn.
#[derive(Drop)]
pub enum After {
    /// This is done next.
    On(Doing),
    /// Nothing is done next: so the statements ended.
    Last(Last),
}

// Follows the way of an operation.
#[inline(always)]
fn follow(tasks: &mut Vec<Task>, way: Result<Way, Failure>) -> Result<Doing, Failure>
    ensures runs { (u : Stored) (stand es : List Started) → All (TaskFits u) tasks.old.items → TasksStand (reverse tasks.old.items) stand → WayFitsOr u stand es way → RunsOr u tasks.new.items es result }
    ensures pace { (es : List Started) → FollowedPace es way (length tasks.old.items) result (length tasks.new.items) }
    ensures holds { (b : Setting) (u : Stored) (all next : Res Reached) (stand es : List Started) (s : State) → Waits b u all tasks.old.items stand next s → LeadsOr b u next stand way es s → FollowedOr b u all result tasks.new.items es s }
{
    match way {
        Ok(way) => follow_way(tasks, way),
        Err(e) => Err(e),
    }
}

#[inline(always)]
fn follow_way(tasks: &mut Vec<Task>, way: Way) -> Result<Doing, Failure>
    ensures runs { (u : Stored) (stand es : List Started) → All (TaskFits u) tasks.old.items → TasksStand (reverse tasks.old.items) stand → WayFits u stand es way → RunsOr u tasks.new.items es result }
    ensures pace { (es : List Started) → IfOk result (λ d. doing_ops es d (length tasks.new.items) ≡ way_ops es way (length tasks.old.items)) }
    ensures holds { (b : Setting) (u : Stored) (all next : Res Reached) (stand es : List Started) (s : State) → Waits b u all tasks.old.items stand next s → Leads b u next stand way es s → FollowedOr b u all result tasks.new.items es s }
{
    match way {
        Way::Do(doing) => Ok(doing),
        Way::With(task, doing) => {
            if tasks.push(task).is_err() {
                return Err(Failure::NoMemory);
            }
            Ok(doing)
        }
    }
}

// The turn of a body that is not there.
fn pass_body(unit: &TypedUnit, machine: &mut Machine) -> Result<Way, Failure>
    requires turn { machine.old.moment.taken < 10 ^ 8 }
    requires fit { Fit unit.now machine.old.started }
    ensures led { DoingLed unit.now Doing.Absent result machine.old machine.new }
    ensures setting { KeepsSetting machine.old.moment machine.new.moment }
    ensures taken { machine.new.moment.taken ≡ machine.old.moment.taken + 1 }
    ensures fit { OnOk result (Fit unit.now machine.new.started) }
    ensures ways { WayFitsOr unit.now machine.old.started machine.new.started result }
{
    machine.tick();
    Ok(Way::Do(Doing::Left(Flow::Falls)))
}

// An operation of what neither a statement nor an expression has just ended.
fn operate(unit: &TypedUnit, doing: Doing, machine: &mut Machine) -> Result<Way, Failure>
    requires runnable { IsRunnable unit.now }
    requires fits { DoingFits unit.now machine.old.started doing }
    requires fit { Fit unit.now machine.old.started }
    requires turn { due machine.old.started doing ≡ 1 → machine.old.moment.taken < 10 ^ 8 }
    ensures led { DoingLed unit.now doing result machine.old machine.new }
    ensures setting { KeepsSetting machine.old.moment machine.new.moment }
    ensures taken { machine.new.moment.taken ≡ machine.old.moment.taken + due machine.old.started doing }
    ensures fit { OnOk result (Fit unit.now machine.new.started) }
    ensures ways { WayFitsOr unit.now (others machine.old.started doing) machine.new.started result }
    ensures pace { PaceOr machine.old.started doing machine.new.started result }
{
    match doing {
        Doing::Enter(n) => enter(unit, n, machine),
        Doing::Jump(n, l, i) => jump(unit, n, l, i, machine),
        Doing::Statements(l, i) => next_statement(unit, l, i, machine),
        Doing::Within(n) => within(unit, n, machine),
        Doing::Again(_, parts) => round_goes_on(unit, parts.statement, machine),
        Doing::Round(parts) => begin_again(unit, parts.statement, machine),
        Doing::Body(parts) => begin_body(unit, parts, machine),
        Doing::Store(o, i) => store(unit, o, i, machine),
        Doing::Absent => pass_body(unit, machine),
        Doing::Call(f) => call(unit, f, machine),
        Doing::Evaluate => go_on(unit, machine),
        Doing::Left(flow) => Ok(Way::Do(Doing::Left(flow))),
        Doing::Evaluated => Ok(Way::Do(Doing::Evaluated)),
    }
}

// The innermost task is reached with how a statement was left, or with the value of an expression.
fn leave(
    unit: &TypedUnit,
    tasks: &mut Vec<Task>,
    flow: Flow,
    machine: &mut Machine,
) -> Result<After, Failure>
    requires runnable { IsRunnable unit.now }
    requires runs { Runs unit.now tasks.old.items machine.old.started (Doing.Left flow) }
    requires fit { Fit unit.now machine.old.started }
    ensures holds { OnceLed unit.now (Doing.Left flow) result tasks.old.items tasks.new.items machine.old machine.new }
    ensures setting { KeepsSetting machine.old.moment machine.new.moment }
    ensures taken { machine.new.moment.taken ≡ machine.old.moment.taken + due machine.old.started (Doing.Left flow) }
    ensures fit { OnOk result (Fit unit.now machine.new.started) }
    ensures runs { AfterRuns unit.now tasks.new.items machine.new.started result }
    ensures pace { due machine.old.started (Doing.Left flow) ≡ 0 → AfterPace (doing_ops machine.old.started (Doing.Left flow) (length tasks.old.items)) result tasks.new.items machine.new.started }
{
    match tasks.pop() {
        None => Ok(After::Last(Last::Left(flow))),
        Some(task) => {
            let way = resume_flow(unit, task, flow, machine);
            match follow(tasks, way) {
                Ok(doing) => Ok(After::On(doing)),
                Err(e) => Err(e),
            }
        }
    }
}

fn take_value(
    unit: &TypedUnit,
    tasks: &mut Vec<Task>,
    machine: &mut Machine,
) -> Result<After, Failure>
    requires runnable { IsRunnable unit.now }
    requires runs { Runs unit.now tasks.old.items machine.old.started Doing.Evaluated }
    requires fit { Fit unit.now machine.old.started }
    ensures holds { OnceLed unit.now Doing.Evaluated result tasks.old.items tasks.new.items machine.old machine.new }
    ensures setting { KeepsSetting machine.old.moment machine.new.moment }
    ensures taken { machine.new.moment.taken ≡ machine.old.moment.taken + due machine.old.started Doing.Evaluated }
    ensures fit { OnOk result (Fit unit.now machine.new.started) }
    ensures runs { AfterRuns unit.now tasks.new.items machine.new.started result }
    ensures pace { due machine.old.started Doing.Evaluated ≡ 0 → AfterPace (doing_ops machine.old.started Doing.Evaluated (length tasks.old.items)) result tasks.new.items machine.new.started }
{
    match tasks.pop() {
        None => Ok(After::Last(Last::Valued)),
        Some(task) => {
            let way = resume_value(unit, task, machine);
            match follow(tasks, way) {
                Ok(doing) => Ok(After::On(doing)),
                Err(e) => Err(e),
            }
        }
    }
}

/// One operation.
pub fn once(
    unit: &TypedUnit,
    tasks: &mut Vec<Task>,
    doing: Doing,
    machine: &mut Machine,
) -> Result<After, Failure>
    requires runnable { IsRunnable unit.now }
    requires runs { Runs unit.now tasks.old.items machine.old.started doing }
    requires fit { Fit unit.now machine.old.started }
    requires turn { due machine.old.started doing ≡ 1 → machine.old.moment.taken < 10 ^ 8 }
    ensures holds { OnceLed unit.now doing result tasks.old.items tasks.new.items machine.old machine.new }
    ensures setting { KeepsSetting machine.old.moment machine.new.moment }
    ensures taken { machine.new.moment.taken ≡ machine.old.moment.taken + due machine.old.started doing }
    ensures fit { OnOk result (Fit unit.now machine.new.started) }
    ensures runs { AfterRuns unit.now tasks.new.items machine.new.started result }
    ensures pace { due machine.old.started doing ≡ 0 → AfterPace (doing_ops machine.old.started doing (length tasks.old.items)) result tasks.new.items machine.new.started }
{
    match doing {
        Doing::Left(flow) => leave(unit, tasks, flow, machine),
        Doing::Evaluated => take_value(unit, tasks, machine),
        doing => begin_operation(unit, tasks, doing, machine),
    }
}

fn begin_operation(
    unit: &TypedUnit,
    tasks: &mut Vec<Task>,
    doing: Doing,
    machine: &mut Machine,
) -> Result<After, Failure>
    requires runnable { IsRunnable unit.now }
    requires going { goes_on doing ≡ true }
    requires runs { Runs unit.now tasks.old.items machine.old.started doing }
    requires fit { Fit unit.now machine.old.started }
    requires turn { due machine.old.started doing ≡ 1 → machine.old.moment.taken < 10 ^ 8 }
    ensures holds { OnceLed unit.now doing result tasks.old.items tasks.new.items machine.old machine.new }
    ensures setting { KeepsSetting machine.old.moment machine.new.moment }
    ensures taken { machine.new.moment.taken ≡ machine.old.moment.taken + due machine.old.started doing }
    ensures fit { OnOk result (Fit unit.now machine.new.started) }
    ensures runs { AfterRuns unit.now tasks.new.items machine.new.started result }
    ensures pace { due machine.old.started doing ≡ 0 → AfterPace (doing_ops machine.old.started doing (length tasks.old.items)) result tasks.new.items machine.new.started }
{
    let way = operate(unit, doing, machine);
    match follow(tasks, way) {
        Ok(next) => Ok(After::On(next)),
        Err(e) => Err(e),
    }
}
