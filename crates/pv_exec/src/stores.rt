// The stores of initializers of automatic objects (C17 6.7.9).
ghost use Rattle.std.specs.Prelude.{◌≡◌, ◌+◌, ◌<◌, ◌^◌, ◌∷◌, ℕ, List, length, drop, true, OnOk};
ghost use Rattle.pv_typed.specs.TypedUnits.{object_at};
ghost use Rattle.pv_typed.specs.Tables.{nodes, whole_unit, store_in};
ghost use Rattle.pv_typed.specs.Formed.{HasValue};
ghost use Rattle.pv_world.specs.Coming.{worth_of};
ghost use Rattle.pv_eval.specs.States.{Setting, State, Gives, then_do};
ghost use Rattle.pv_eval.specs.Moments.{Stays};
ghost use Rattle.pv_eval.specs.Machines.{Started, is_ended, after_first};
ghost use Rattle.pv_eval.specs.MachineSteps.{Fit, KeepsSetting};
ghost use Rattle.pv_eval.specs.Runnable.{IsRunnable};
ghost use Rattle.pv_exec.specs.Flows.{Falls};
ghost use Rattle.pv_exec.specs.Lists.{store_all};
ghost use Rattle.pv_exec.specs.OfRuns.{below};
ghost use Rattle.pv_exec.specs.Tasks.{left_flow};
ghost use Rattle.pv_exec.specs.Works.{does, others};
ghost use Rattle.pv_exec.specs.Leading.{ValueLed, DoingLed};
ghost use Rattle.pv_exec.specs.Putting.{PutLed};
ghost use Rattle.pv_exec.specs.Fits.{WayFitsOr, HasStore, DoingFits};
ghost use Rattle.pv_exec.specs.Quickness.{Quick, QuickOr};

use crate::statements::evaluate;
use crate::task::{Doing, Flow, Task, Way};
use pv_eval::{Failure, Machine};
use pv_typed::{Init, InitValue, TypedUnit};
use pv_world::Got;

/// A store of an object's initializer.
pub fn init_at(unit: &TypedUnit, o: u32, i: usize) -> Init
    requires runnable { IsRunnable unit.now }
    requires there { HasStore unit.now o i }
    ensures store { drop i (object_at (whole_unit unit.now) o).inits ≡ store_in unit.now.known (nodes unit.now) result ∷ drop (i + 1) (object_at (whole_unit unit.now) o).inits }
    ensures value { HasValue unit.now result.what }
    ensures typed { result.t.0 < length unit.now.known.terms }
{
    unit.inits(o)[i]
}

// After a store of an initializer the next one.
fn next_store(unit: &TypedUnit, o: u32, i: usize) -> Doing
    requires there { HasStore unit.now o i }
    ensures does { (b : Setting) (k : ℕ) (es : List Started) (s : State) → b.unit ≡ whole_unit unit.now →
        does b unit.now k es result s ≡ left_flow (then_do (store_all b (below b k).call o (drop (i + 1) (object_at b.unit o).inits) s) (λ v s. Gives Falls s)) }
    ensures fits { (es : List Started) → DoingFits unit.now es result × (others es result ≡ es) × Quick es (Way.Do result) }
{
    let count = unit.inits(o).len();
    if i + 1 < count {
        Doing::Store(o, i + 1)
    } else {
        Doing::Left(Flow::Falls)
    }
}

/// A store of an initializer takes its turn, and its value is evaluated.
pub fn store(unit: &TypedUnit, o: u32, i: usize, machine: &mut Machine) -> Result<Way, Failure>
    requires runnable { IsRunnable unit.now }
    requires there { HasStore unit.now o i }
    requires fit { Fit unit.now machine.old.started }
    requires turn { machine.old.moment.taken < 10 ^ 8 }
    ensures led { DoingLed unit.now (Doing.Store o i) result machine.old machine.new }
    ensures setting { KeepsSetting machine.old.moment machine.new.moment }
    ensures taken { machine.new.moment.taken ≡ machine.old.moment.taken + 1 }
    ensures fit { OnOk result (Fit unit.now machine.new.started) }
    ensures ways { WayFitsOr unit.now machine.old.started machine.new.started result }
{
    let init = init_at(unit, o, i);
    machine.tick();
    match init.what {
        InitValue::Node(e) => evaluate(machine, Task::Storing(o, i), e),
        InitValue::Text(l) => match machine.put_text(unit, o, init.offset, init.t, l) {
            Ok(()) => Ok(Way::Do(next_store(unit, o, i))),
            Err(e) => Err(e),
        },
    }
}

// The value of a store is stored.
fn put_value(
    unit: &TypedUnit,
    o: u32,
    i: usize,
    v: Got,
    machine: &mut Machine,
) -> Result<Way, Failure>
    requires runnable { IsRunnable unit.now }
    requires there { HasStore unit.now o i }
    requires fit { Fit unit.now machine.old.started }
    ensures led { PutLed unit.now o i (worth_of v) result machine.old machine.new }
    ensures stays { Stays machine.old.moment machine.new.moment }
    ensures fit { OnOk result (Fit unit.now machine.new.started) }
    ensures ways { WayFitsOr unit.now machine.old.started machine.new.started result }
    ensures quick { QuickOr machine.new.started result }
{
    let init = init_at(unit, o, i);
    match machine.put(unit, o, init.offset, init.t, &v) {
        Ok(()) => Ok(Way::Do(next_store(unit, o, i))),
        Err(e) => Err(e),
    }
}

/// The value of a store of an initializer was evaluated.
pub fn after_store(
    unit: &TypedUnit,
    o: u32,
    i: usize,
    machine: &mut Machine,
) -> Result<Way, Failure>
    requires runnable { IsRunnable unit.now }
    requires there { HasStore unit.now o i }
    requires ended { is_ended machine.old.started ≡ true }
    requires fit { Fit unit.now machine.old.started }
    ensures led { ValueLed unit.now (Task.Storing o i) result machine.old machine.new }
    ensures stays { Stays machine.old.moment machine.new.moment }
    ensures fit { OnOk result (Fit unit.now machine.new.started) }
    ensures ways { WayFitsOr unit.now (after_first machine.old.started) machine.new.started result }
    ensures quick { QuickOr machine.new.started result }
{
    let init = init_at(unit, o, i);
    match init.what {
        InitValue::Node(e) => match machine.hand(unit, e, unit.line_of(e)) {
            Ok(v) => put_value(unit, o, i, v, machine),
            Err(x) => Err(x),
        },
        InitValue::Text(_) => {
            machine.value();
            Ok(Way::Do(next_store(unit, o, i)))
        }
    }
}
