// Blocks: their objects, and the statements of lists.
ghost use Rattle.std.specs.Prelude.{◌≡◌, ◌+◌, ◌<◌};
ghost use Rattle.pv_typed.specs.Trees.{declared_of};
ghost use Rattle.pv_typed.specs.NodeTrees.{statement_at};
ghost use Rattle.pv_typed.specs.Formed.{AreObjects};
ghost use Rattle.pv_eval.specs.Moments.{Made, IsMemory, Always, state_of, Stays};
ghost use Rattle.pv_eval.specs.Runnable.{IsRunnable};
ghost use Rattle.pv_exec.specs.OfRuns.{end_all};
ghost use Rattle.pv_exec.specs.Lists.{make_all};
ghost use Rattle.pv_exec.specs.Fits.{IsScope};

use pv_eval::{Failure, Machine};
use pv_tree::NodeId;
use pv_typed::TypedUnit;

/// The objects of a block are made, in order (C17 6.2.4p6).
pub fn make_objects(unit: &TypedUnit, n: NodeId, machine: &mut Machine) -> Result<(), Failure>
    requires runnable { IsRunnable unit.now }
    requires scope { IsScope unit.now n }
    ensures made { Always unit.now machine.old.moment (λ b out es. Made (make_all b (declared_of (statement_at unit.now n)) (state_of machine.old.moment out es)) result (state_of machine.new.moment out es)) }
    ensures started { machine.new.started ≡ machine.old.started }
    ensures stays { Stays machine.old.moment machine.new.moment }
{
    let objects = unit.declared(n);
    let mut i = 0;
    'objects: while i < objects.len() {
        let o = objects[i];
        match machine.make(unit, unit.object(o).line, o) {
            Ok(()) => {}
            Err(e) => return Err(e),
        }
        i += 1;
    }
    Ok(())
}

/// The objects of a block end, in order.
pub fn end_objects(unit: &TypedUnit, n: NodeId, machine: &mut Machine) -> Result<(), Failure>
    requires runnable { IsRunnable unit.now }
    requires scope { IsScope unit.now n }
    ensures made { Always unit.now machine.old.moment (λ b out es. Made (end_all b (declared_of (statement_at unit.now n)) (state_of machine.old.moment out es)) result (state_of machine.new.moment out es)) }
    ensures started { machine.new.started ≡ machine.old.started }
    ensures stays { Stays machine.old.moment machine.new.moment }
    ensures memory { IsMemory result }
{
    end_each(unit, unit.declared(n), machine)
}

/// Objects end, in order.
pub fn end_each(unit: &TypedUnit, objects: &[u32], machine: &mut Machine) -> Result<(), Failure>
    requires runnable { IsRunnable unit.now }
    requires there { AreObjects unit.now objects.now }
    ensures made { Always unit.now machine.old.moment (λ b out es. Made (end_all b objects.now (state_of machine.old.moment out es)) result (state_of machine.new.moment out es)) }
    ensures started { machine.new.started ≡ machine.old.started }
    ensures stays { Stays machine.old.moment machine.new.moment }
    ensures memory { IsMemory result }
{
    let mut i = 0;
    'objects: while i < objects.len() {
        match machine.finish(unit, objects[i]) {
            Ok(()) => {}
            Err(e) => return Err(e),
        }
        i += 1;
    }
    Ok(())
}
