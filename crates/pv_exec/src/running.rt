// The statements of a run, from the call of `main` to its end (C17 5.1.2.2).
ghost use Rattle.std.specs.Prelude.{◌≡◌, ◌<◌, ◌≤◌, ◌^◌, [], length, IsTrue, is_some};
ghost use Rattle.pv_typed.specs.Mains.{main_of};
ghost use Rattle.pv_typed.specs.Tables.{whole_unit};
ghost use Rattle.pv_eval.specs.MachineSteps.{Fit};
ghost use Rattle.pv_eval.specs.Runnable.{IsRunnable};
ghost use Rattle.pv_eval.specs.Codes.{AreCodes};
ghost use Rattle.pv_exec.specs.Answering.{outlet};
ghost use Rattle.pv_exec.specs.Fits.{Runs};
ghost use Rattle.pv_exec.specs.Works.{turn_due};
ghost use Rattle.pv_exec.specs.Streaming.{DeliveryCause};
ghost use Rattle.pv_exec.specs.Running.{StatementsLed, EndLed, PieceLed, IsCalm, main_called, whole_run, failure_of};

use crate::blocks::end_each;
use crate::calls::{begin_function, body_of};
use crate::delivering::{Undelivered, deliver};
use crate::functions::value_by;
use crate::once::{After, Last};
use crate::preparing::prepare;
use crate::task::{Doing, Flow};
use crate::turning::advance;
use pv_eval::{Failure, Machine, Plan};
use pv_script::Sink;
use pv_typed::TypedUnit;
use pv_watch::{Hall, Watch};
use pv_world::Got;
use std::alloc::Global;

/// How a run came to its end.
#[derive(Drop)]
pub enum Ended {
    /// `main` returned this value.
    Value(Got),
    /// As many turns as allowed were taken.
    Turns,
}

/// Why a run was broken off.
#[derive(Clone, Copy)]
pub enum Broken {
    /// An operation ended it, or found no memory.
    Operation(Failure),
    /// What it prints and tells could not be delivered.
    Delivery(Undelivered),
}

// Statements, until no task waits. What they print and tell is delivered before each turn.
fn run_statements<O: Sink>(
    alloc: Global,
    unit: &TypedUnit,
    plan: &Plan,
    doing: Doing,
    bound: u64,
    machine: &mut Machine,
    out: &mut O,
    hall: &mut Hall,
) -> Result<Last, Broken>
    requires codes { AreCodes unit.now plan.now }
    requires runnable { IsRunnable unit.now }
    requires bound { bound ≤ 10 ^ 8 }
    requires runs { Runs unit.now [] machine.old.started doing }
    requires fit { Fit unit.now machine.old.started }
    requires asked { turn_due machine.old.started doing ≡ 1 }
    requires fresh { machine.old.moment.taken ≡ 0 }
    ensures ended { StatementsLed unit.now (outlet (O.written out.old) hall.old its_kind its_wants seen) (outlet (O.written out.new) hall.new its_kind its_wants seen) bound doing result machine.old machine.new }
    ensures cause { DeliveryCause (failure_of result) (O.faults out.old) (O.faults out.new) }
{
    let mut tasks = Vec::new(alloc);
    let mut doing = doing;
    let mut written = 0;
    'statements: loop {
        match deliver(unit, machine, &mut written, out, hall) {
            Ok(()) => {}
            Err(e) => return Err(Broken::Delivery(e)),
        }
        match advance(unit, plan, &mut tasks, doing, bound, machine) {
            Ok(After::On(next)) => doing = next,
            Ok(After::Last(last)) => return Ok(last),
            Err(e) => return Err(Broken::Operation(e)),
        }
    }
}

// The body of `main` was left: its parameters end, and it has its value.
fn end_main(unit: &TypedUnit, f: u32, flow: Flow, machine: &mut Machine) -> Result<Ended, Broken>
    requires runnable { IsRunnable unit.now }
    requires there { f < length unit.now.functions }
    ensures ended { EndLed unit.now f flow result machine.old machine.new }
    ensures calm { IsCalm result }
    ensures taken { machine.new.moment.taken ≡ machine.old.moment.taken }
{
    let ended = end_each(unit, unit.params_of(f), machine);
    if ended.is_err() {
        return Err(Broken::Operation(Failure::NoMemory));
    }
    machine.end_body();
    Ok(Ended::Value(value_by(unit, f, flow)))
}

// The call of `main` (C17 5.1.2.2.1).
fn run_main<O: Sink>(
    alloc: Global,
    unit: &TypedUnit,
    plan: &Plan,
    f: u32,
    bound: u64,
    machine: &mut Machine,
    out: &mut O,
    hall: &mut Hall,
) -> Result<Ended, Broken>
    requires codes { AreCodes unit.now plan.now }
    requires runnable { IsRunnable unit.now }
    requires bound { bound ≤ 10 ^ 8 }
    requires there { f < length unit.now.functions }
    requires fresh { machine.old.moment.taken ≡ 0 }
    requires none { machine.old.started ≡ [] }
    ensures ended { PieceLed unit.now (outlet (O.written out.old) hall.old its_kind its_wants seen) (outlet (O.written out.new) hall.new its_kind its_wants seen) bound (main_called f) result machine.old machine.new }
    ensures cause { DeliveryCause (failure_of result) (O.faults out.old) (O.faults out.new) }
{
    match begin_function(unit, f, unit.function(f).line, &[], machine) {
        Ok(()) => {}
        Err(e) => return Err(Broken::Operation(e)),
    }
    match run_statements(
        alloc,
        unit,
        plan,
        body_of(unit, f),
        bound,
        machine,
        out,
        hall,
    ) {
        Ok(Last::Left(flow)) => end_main(unit, f, flow, machine),
        // No statement ends with the value of an expression.
        Ok(Last::Valued) => Ok(Ended::Turns),
        Ok(Last::Turns) => Ok(Ended::Turns),
        Err(e) => Err(e),
    }
}

/// The run of a unit, once the machine was made. What is printed and told at last stays in the machine.
pub fn run_unit<O: Sink>(
    alloc: Global,
    unit: &TypedUnit,
    plan: &Plan,
    bound: u64,
    machine: &mut Machine,
    out: &mut O,
    hall: &mut Hall,
) -> Result<Ended, Broken>
    requires codes { AreCodes unit.now plan.now }
    requires runnable { IsRunnable unit.now }
    requires main { IsTrue (is_some (main_of (whole_unit unit.now))) }
    requires bound { bound ≤ 10 ^ 8 }
    requires fresh { machine.old.moment.taken ≡ 0 }
    requires none { machine.old.started ≡ [] }
    ensures ended { PieceLed unit.now (outlet (O.written out.old) hall.old its_kind its_wants seen) (outlet (O.written out.new) hall.new its_kind its_wants seen) bound whole_run result machine.old machine.new }
    ensures cause { DeliveryCause (failure_of result) (O.faults out.old) (O.faults out.new) }
{
    match prepare(unit, machine) {
        Ok(()) => run_main(alloc, unit, plan, unit.main(), bound, machine, out, hall),
        Err(e) => Err(Broken::Operation(e)),
    }
}
