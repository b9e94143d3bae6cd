// Calls of the program's functions (C17 6.5.2.2, 6.9.1).
ghost use Rattle.std.specs.Prelude.{◌≡◌, ◌+◌, ◌<◌, map, length, true, OnOk};
ghost use Rattle.pv_typed.specs.TypedUnits.{function_at};
ghost use Rattle.pv_typed.specs.Tables.{whole_unit};
ghost use Rattle.pv_world.specs.Coming.{worth_of};
ghost use Rattle.pv_eval.specs.Moments.{Always, Stays, state_of};
ghost use Rattle.pv_eval.specs.MachineSteps.{Fit};
ghost use Rattle.pv_eval.specs.Moments.{Made};
ghost use Rattle.pv_eval.specs.Machines.{is_asked, is_ended, after_first};
ghost use Rattle.pv_eval.specs.Runnable.{IsRunnable};
ghost use Rattle.pv_exec.specs.OfRuns.{take_params};
ghost use Rattle.pv_exec.specs.Leading.{FlowLed};
ghost use Rattle.pv_exec.specs.Fits.{WayFitsOr};
ghost use Rattle.pv_exec.specs.Quickness.{QuickOr, EndsOr};
ghost use Rattle.pv_exec.specs.Called.{takes_one, body_beginning, BodyIs, CallLed, CallEnded};

use crate::blocks::end_each;
use crate::functions::value_by;
use crate::going::go_on;
use crate::task::{Doing, Flow, Task, Way};
use pv_eval::{Failure, Machine};
use pv_typed::TypedUnit;
use pv_world::Got;

// A parameter is made and gets its argument (C17 6.9.1p10).
fn take_parameter(
    unit: &TypedUnit,
    line: u32,
    o: u32,
    v: &Got,
    machine: &mut Machine,
) -> Result<(), Failure>
    requires runnable { IsRunnable unit.now }
    requires there { o < length unit.now.objects }
    ensures made { Always unit.now machine.old.moment (λ b out es. Made (takes_one b line o (worth_of v.now) (state_of machine.old.moment out es)) result (state_of machine.new.moment out es)) }
    ensures started { machine.new.started ≡ machine.old.started }
    ensures stays { Stays machine.old.moment machine.new.moment }
{
    match machine.make(unit, line, o) {
        Ok(()) => machine.put(unit, o, 0, unit.object(o).t, v),
        Err(e) => Err(e),
    }
}

// The parameters of a function, in order.
fn take_parameters(
    unit: &TypedUnit,
    f: u32,
    line: u32,
    arguments: &[Got],
    machine: &mut Machine,
) -> Result<(), Failure>
    requires runnable { IsRunnable unit.now }
    requires there { f < length unit.now.functions }
    ensures made { Always unit.now machine.old.moment (λ b out es.
        Made (take_params b line (function_at (whole_unit unit.now) f).params (map worth_of arguments.now) (state_of machine.old.moment out es)) result (state_of machine.new.moment out es)) }
    ensures started { machine.new.started ≡ machine.old.started }
    ensures stays { Stays machine.old.moment machine.new.moment }
{
    let params = unit.params_of(f);
    let mut i = 0;
    'parameters: while i < params.len() {
        if i >= arguments.len() {
            return Ok(());
        }
        match take_parameter(unit, line, params[i], &arguments[i], machine) {
            Ok(()) => {}
            Err(e) => return Err(e),
        }
        i += 1;
    }
    Ok(())
}

/// A body begins, and its parameters have their arguments.
pub fn begin_function(
    unit: &TypedUnit,
    f: u32,
    line: u32,
    arguments: &[Got],
    machine: &mut Machine,
) -> Result<(), Failure>
    requires runnable { IsRunnable unit.now }
    requires there { f < length unit.now.functions }
    ensures made { Always unit.now machine.old.moment (λ b out es. Made
        (body_beginning b line (function_at (whole_unit unit.now) f) (map worth_of arguments.now) (state_of machine.old.moment out es)) result (state_of machine.new.moment out es)) }
    ensures started { machine.new.started ≡ machine.old.started }
    ensures stays { Stays machine.old.moment machine.new.moment }
{
    let begun = machine.begin_body(unit.function(f).name, line);
    if begun.is_err() {
        return Err(Failure::NoMemory);
    }
    take_parameters(unit, f, line, arguments, machine)
}

/// Where the body of a function begins.
pub fn body_of(unit: &TypedUnit, f: u32) -> Doing
    requires there { f < length unit.now.functions }
    ensures does { BodyIs unit.now f result }
{
    match unit.function(f).body {
        Some(x) => Doing::Enter(x),
        None => Doing::Absent,
    }
}

/// A function of the program is called: its body runs one level lower.
pub fn call(unit: &TypedUnit, f: u32, machine: &mut Machine) -> Result<Way, Failure>
    requires runnable { IsRunnable unit.now }
    requires asked { is_asked machine.old.started ≡ true }
    requires there { f < length unit.now.functions }
    requires fit { Fit unit.now machine.old.started }
    ensures led { CallLed unit.now f result machine.old machine.new }
    ensures stays { Stays machine.old.moment machine.new.moment }
    ensures fit { OnOk result (Fit unit.now machine.new.started) }
    ensures ways { WayFitsOr unit.now (after_first machine.old.started) machine.new.started result }
    ensures quick { EndsOr machine.new.started result }
{
    let line = machine.line();
    match machine.arguments() {
        Ok(arguments) => match begin_function(unit, f, line, arguments.as_slice(), machine) {
            Ok(()) => {
                machine.give_back(arguments);
                Ok(Way::With(Task::InCall(f, line), body_of(unit, f)))
            }
            Err(e) => Err(e),
        },
        Err(e) => Err(e),
    }
}

// The body of a function was left: its parameters end, and the call has its value.
fn end_call(
    unit: &TypedUnit,
    f: u32,
    line: u32,
    flow: Flow,
    machine: &mut Machine,
) -> Result<(), Failure>
    requires runnable { IsRunnable unit.now }
    requires there { f < length unit.now.functions }
    requires waits { 0 < length machine.old.started }
    requires fit { Fit unit.now machine.old.started }
    ensures led { OnOk result (CallEnded unit.now f line flow machine.old machine.new) }
    ensures ended { OnOk result (is_ended machine.new.started ≡ true) }
    ensures others { OnOk result (after_first machine.new.started ≡ after_first machine.old.started) }
    ensures stays { Stays machine.old.moment machine.new.moment }
    ensures fit { OnOk result (Fit unit.now machine.new.started) }
{
    let ended = end_each(unit, unit.params_of(f), machine);
    if ended.is_err() {
        return Err(Failure::NoMemory);
    }
    machine.end_body();
    machine.answer(value_by(unit, f, flow));
    Ok(())
}

/// The body of a function was left: its parameters end, the call has its value, and its expression goes on.
pub fn after_call(
    unit: &TypedUnit,
    f: u32,
    line: u32,
    flow: Flow,
    machine: &mut Machine,
) -> Result<Way, Failure>
    requires runnable { IsRunnable unit.now }
    requires there { f < length unit.now.functions }
    requires waits { 0 < length machine.old.started }
    requires fit { Fit unit.now machine.old.started }
    ensures led { FlowLed unit.now (Task.InCall f line) flow result machine.old machine.new }
    ensures stays { Stays machine.old.moment machine.new.moment }
    ensures fit { OnOk result (Fit unit.now machine.new.started) }
    ensures ways { WayFitsOr unit.now (after_first machine.old.started) machine.new.started result }
    ensures quick { QuickOr machine.new.started result }
{
    match end_call(unit, f, line, flow, machine) {
        Ok(()) => go_on(unit, machine),
        Err(_) => Err(Failure::NoMemory),
    }
}
