// The ends of blocks.
ghost use Rattle.std.specs.Prelude.{ℕ, ◌+◌, ◌<◌, List, OnOk};
ghost use Rattle.pv_typed.specs.Tables.{Stored};
ghost use Rattle.pv_eval.specs.MachineSteps.{Fit};
ghost use Rattle.pv_eval.specs.Moments.{Stays};
ghost use Rattle.pv_eval.specs.States.{Setting, State};
ghost use Rattle.pv_eval.specs.Runnable.{IsRunnable};
ghost use Rattle.pv_exec.specs.Flows.{behind_switch};
ghost use Rattle.pv_exec.specs.Tasks.{left_flow};
ghost use Rattle.pv_exec.specs.Works.{flow_of};
ghost use Rattle.pv_exec.specs.Leading.{Leads, Led, block_left};
ghost use Rattle.pv_eval.specs.Machines.{Started};
ghost use Rattle.pv_exec.specs.Quickness.{Quick, QuickOr};
ghost use Rattle.pv_exec.specs.Fits.{WayFits, WayFitsOr, IsScope};

use crate::blocks::end_objects;
use crate::task::{Doing, Flow, Way};
use pv_eval::{Failure, Machine};
use pv_tree::NodeId;
use pv_typed::TypedUnit;

/// A block is left, in whatever way: its objects end (C17 6.2.4p6).
pub fn after_block(
    unit: &TypedUnit,
    n: NodeId,
    flow: Flow,
    machine: &mut Machine,
) -> Result<Way, Failure>
    requires runnable { IsRunnable unit.now }
    requires scope { IsScope unit.now n }
    requires fit { Fit unit.now machine.old.started }
    ensures led { Led unit.now (block_left unit.now n (flow_of flow)) machine.old.started result machine.old machine.new }
    ensures stays { Stays machine.old.moment machine.new.moment }
    ensures fit { OnOk result (Fit unit.now machine.new.started) }
    ensures ways { WayFitsOr unit.now machine.old.started machine.new.started result }
    ensures quick { QuickOr machine.new.started result }
{
    let ended = end_objects(unit, n, machine);
    if ended.is_err() {
        return Err(Failure::NoMemory);
    }
    Ok(Way::Do(Doing::Left(flow)))
}

/// A switch is left (C17 6.8.6.3).
pub fn after_switch(flow: Flow) -> Way
    ensures led { (b : Setting) (u : Stored) (k : ℕ) (es : List Started) (s : State) → b.bound < s.taken + k → Leads b u (left_flow (behind_switch (flow_of flow) s)) es result es s }
    ensures ways { (u : Stored) (es : List Started) → WayFits u es es result × Quick es result }
{
    match flow {
        Flow::Breaks => Way::Do(Doing::Left(Flow::Falls)),
        Flow::Falls => Way::Do(Doing::Left(Flow::Falls)),
        Flow::Continues => Way::Do(Doing::Left(Flow::Continues)),
        Flow::Returns(v) => Way::Do(Doing::Left(Flow::Returns(v))),
    }
}
