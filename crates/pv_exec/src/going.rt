// Steps of the innermost expression.
ghost use Rattle.std.specs.Prelude.{◌≡◌, ◌+◌, ◌<◌, ◌^◌, OnOk, true};
ghost use Rattle.pv_eval.specs.MachineSteps.{Fit, KeepsSetting};
ghost use Rattle.pv_eval.specs.Machines.{is_going, is_due, after_first, due_turns};
ghost use Rattle.pv_eval.specs.Runnable.{IsRunnable};
ghost use Rattle.pv_exec.specs.Leading.{DoingLed};
ghost use Rattle.pv_exec.specs.Fits.{WayFitsOr};
ghost use Rattle.pv_exec.specs.Quickness.{EndsOr};

use crate::calls::call;
use crate::task::{Doing, Way};
use pv_eval::{Failure, Machine, Step};
use pv_typed::TypedUnit;

/// One turn of the innermost expression, and what comes before the next.
pub fn go_on(unit: &TypedUnit, machine: &mut Machine) -> Result<Way, Failure>
    requires runnable { IsRunnable unit.now }
    requires going { is_going machine.old.started ≡ true }
    requires fit { Fit unit.now machine.old.started }
    requires turn { is_due machine.old.started ≡ true → machine.old.moment.taken < 10 ^ 8 }
    ensures led { DoingLed unit.now Doing.Evaluate result machine.old machine.new }
    ensures setting { KeepsSetting machine.old.moment machine.new.moment }
    ensures taken { machine.new.moment.taken ≡ machine.old.moment.taken + due_turns machine.old.started }
    ensures fit { OnOk result (Fit unit.now machine.new.started) }
    ensures quick { EndsOr machine.new.started result }
    ensures ways { WayFitsOr unit.now (after_first machine.old.started) machine.new.started result }
{
    match machine.step(unit) {
        Ok(step) => match step {
            Step::More => Ok(Way::Do(Doing::Evaluate)),
            Step::Done => Ok(Way::Do(Doing::Evaluated)),
            Step::Call(f) => call(unit, f, machine),
        },
        Err(e) => Err(e),
    }
}
