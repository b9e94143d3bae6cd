//! The run of a unit.
ghost use Rattle.std.specs.Prelude.{◌≡◌, ◌≤◌, ◌^◌, IsTrue, is_some, IfNone, IfOk, OnOk, OnErr, map};
ghost use Rattle.pv_script.specs.Outside.{Gains, GainsPrefix};
ghost use Rattle.pv_typed.specs.Known.{Each};
ghost use Rattle.pv_typed.specs.Mains.{main_of};
ghost use Rattle.pv_typed.specs.Tables.{whole_unit};
ghost use Rattle.pv_eval.specs.Runnable.{IsRunnable};
ghost use Rattle.pv_exec.specs.Run.{setting_of, run_of};
ghost use Rattle.pv_exec.specs.Stages.{stage_of};
ghost use Rattle.pv_watch.specs.Halls.{hall_slots};
ghost use Rattle.pv_exec.specs.Outlets.{event_of};
ghost use Rattle.pv_exec.specs.Words.{FitsWords};
ghost use Rattle.pv_exec.specs.Answering.{RanAs, RanAt, ToldOr, StreamedOr, RestTold, FaultCause, error_of, error_by, end_at, highs, outlet};
ghost use Rattle.pv_exec.specs.SettledRuns.{SettlesAlike, IsUndefinedByAll};

use crate::delivering::{Undelivered, finish};
use crate::endings::outcome_by;
use crate::given::given_highs;
use crate::laws::no_empty_tag;
use crate::outcome::Outcome;
use crate::running::{Broken, Ended, run_unit};
use crate::sides::{Side, Sides, sides_of};
use pv_eval::{Machine, Plan};
use pv_script::{Script, Sink};
use pv_typed::TypedUnit;
use pv_watch::{Hall, Watch};
use pv_world::World;
use std::alloc::Global;
use thiserror::Error;

/// A run that ended.
#[derive(Drop)]
pub struct Ran {
    pub outcome: Outcome,
    /// How many turns were taken: one for each expression and each statement.
    pub turns: u64,
    /// One for each pair that was made.
    pub sides: Sides,
    /// The world in which it ended: its memory, the bodies that had not ended, and which instance each object has.
    pub world: World,
}

/// Why there is no outcome.
#[derive(Clone, Copy, Debug, Error)]
pub enum RunError {
    /// Memory ran out.
    #[error("memory ran out")]
    NoMemory,
    /// A write of what is printed failed.
    #[error("a write failed")]
    WriteFault,
}

// The same, of what can't be delivered.
fn error_of(e: Undelivered) -> RunError
    ensures { result ≡ error_of e }
{
    match e {
        Undelivered::NoMemory => RunError::NoMemory,
        Undelivered::WriteFault => RunError::WriteFault,
    }
}

// The same, of a run that has no outcome.
fn error_by(ended: &Result<Ended, Broken>) -> RunError
    ensures { result ≡ error_by ended.now }
{
    match ended {
        Ok(_) => RunError::NoMemory,
        Err(Broken::Operation(_)) => RunError::NoMemory,
        Err(Broken::Delivery(e)) => error_of(*e),
    }
}

// The run is over: what is left of its output is written, and of its events told. Its world is handed out.
fn answer<O: Sink>(
    alloc: Global,
    unit: &TypedUnit,
    outcome: Outcome,
    machine: Machine,
    out: &mut O,
    hall: &mut Hall,
) -> Result<Ran, RunError>
    requires runnable { IsRunnable unit.now }
    ensures ran { IfOk result (RanAt outcome machine.moment) }
    ensures gains { OnOk result (Gains (O.written out.old) (O.written out.new) machine.moment.printed) }
    ensures part { OnErr result (GainsPrefix (O.written out.old) (O.written out.new) machine.moment.printed) }
    ensures cause { FaultCause result (O.faults out.old) (O.faults out.new) }
    ensures told { RestTold result (hall_slots hall.old its_kind its_wants seen) (hall_slots hall.new its_kind its_wants seen) (map event_of machine.moment.waiting) unit.now.names }
    ensures words { OnOk result (Each FitsWords machine.moment.waiting) }
{
    let mut machine = machine;
    let turns = machine.turns();
    let sides = match sides_of(alloc, &machine) {
        Some(sides) => sides,
        None => return Err(RunError::NoMemory),
    };
    match finish(unit, &mut machine, out, hall) {
        Ok(()) => Ok(Ran {
            outcome,
            turns,
            sides,
            world: machine.into_world(),
        }),
        Err(e) => Err(error_of(e)),
    }
}

/// Runs a unit (C17 5.1.2): what it prints goes to the sink, and those in the hall are told of its memory.
///
/// At most as many turns are taken as the bound allows. With sides, each pair stands for its side from its making.
/// With `zap` a pointer to what has ended is indeterminate (C17 6.2.4p2), and its use undefined; without, it may be read.
/// What is printed is written while the run goes on, by blocks of 4096 bytes: before each turn fewer bytes than that are kept, and
/// the hall was told of all that happened. A write that fails ends the run: the hall was told of all up to some turn, and the block
/// of that write became full in the next one, or the run was over.
pub fn run<O: Sink>(
    alloc: Global,
    u: &TypedUnit,
    script: Script,
    bound: u64,
    zap: bool,
    sides: Option<&[Side]>,
    out: &mut O,
    hall: &mut Hall,
) -> Result<Ran, RunError>
    requires runnable { IsRunnable u.now }
    requires main { IsTrue (is_some (main_of (whole_unit u.now))) }
    requires bound { bound ≤ 10 ^ 8 }
    ensures ran { IfOk result (RanAs (run_of (setting_of u.now bound (highs sides.entry (λ x. x.now)) zap) script)) }
    ensures gains { OnOk result (Gains (O.written out.old) (O.written out.new) (end_at u.now bound (highs sides.entry (λ x. x.now)) zap script).output) }
    ensures part { OnErr result (GainsPrefix (O.written out.old) (O.written out.new) (end_at u.now bound (highs sides.entry (λ x. x.now)) zap script).output) }
    ensures cause { FaultCause result (O.faults out.old) (O.faults out.new) }
    ensures told { ToldOr result (outlet (O.written out.old) hall.old its_kind its_wants seen) (outlet (O.written out.new) hall.new its_kind its_wants seen)
        (end_at u.now bound (highs sides.entry (λ x. x.now)) zap script) u.now.names }
    ensures late { IfOk result (λ ran. IfNone sides.entry (SettlesAlike u.now bound zap script ran)) }
    ensures sooner { IfOk result (λ ran. IfNone sides.entry (IsUndefinedByAll u.now bound zap script ran)) }
    ensures streams { StreamedOr result (outlet (O.written out.old) hall.old its_kind its_wants seen) (outlet (O.written out.new) hall.new its_kind its_wants seen)
        (stage_of u.now (highs sides.entry (λ x. x.now)) zap script) (end_at u.now bound (highs sides.entry (λ x. x.now)) zap script).taken u.now.names }
    ensures words { OnOk result (Each FitsWords (end_at u.now bound (highs sides.entry (λ x. x.now)) zap script).events) }
{
    no_empty_tag(u);
    let given = match given_highs(alloc, sides) {
        Some(given) => given,
        None => return Err(RunError::NoMemory),
    };
    let mut machine = match Machine::new(alloc, u, script, given, zap) {
        Ok(machine) => machine,
        Err(_) => return Err(RunError::NoMemory),
    };
    let plan = Plan::new(alloc, u);
    let ended = run_unit(alloc, u, &plan, bound, &mut machine, out, hall);
    match outcome_by(&ended) {
        Some(outcome) => answer(alloc, u, outcome, machine, out, hall),
        None => Err(error_by(&ended)),
    }
}
