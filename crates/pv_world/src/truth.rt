// The truth of a value (6.5.13 to 6.5.15, 6.8.4, 6.8.5).
ghost use Rattle.std.specs.Prelude.{Bool};
ghost use Rattle.pv_inst.specs.Table.{IsMadeIn};
ghost use Rattle.pv_object.specs.Later.{IsLater};
ghost use Rattle.pv_object.specs.Operations.{truth};
ghost use Rattle.pv_world.specs.Worlds.{Worth};
ghost use Rattle.pv_world.specs.Suiting.{where_suiting, knows_worth};
ghost use Rattle.pv_world.specs.Conversions.{tests, opposite, truth_by};
ghost use Rattle.pv_world.specs.Coming.{worth_of, IsMadeWorth, KeepsAllButMemory, GivesMade, DidAndTold};

use crate::failing::{blame_of, fail, stopped};
use crate::got::{Cause, Failure, Got};
use crate::operands::{missing, truth_value};
use crate::suiting::unfit;
use crate::telling::tell_used;
use crate::world::World;
use pv_fault::Verdict;
use pv_object::{Pointer, Value};
use pv_prov::NoMemory;
use pv_watch::{LIVE_TEST, What};

impl World {
    /// A value compared with 0 (6.5.13 to 6.5.15, 6.8.4, 6.8.5), or the end of the run as by a missing one.
    #[tactic(auto, using(crate::proofs::Guards::suited, crate::proofs::Guards::unsuited, crate::proofs::Laters::later_itself))]
    pub fn test(&mut self, v: &Got, told: &mut Vec<What>) -> Result<bool, Failure>
        ensures did { (give : Bool → Worth) → DidAndTold give (where_suiting (knows_worth self.old.memory.table (worth_of v.now)) (tests give (worth_of v.now))) result self.old self.new told.old told.new }
        ensures later { IsLater self.old.memory.table self.new.memory.table }
        ensures memory { KeepsAllButMemory self.old self.new }
    {
        if self.knows(v) {
            self.test_suiting(v, told)
        } else {
            Err(unfit(told))
        }
    }

    /// The same, turned round (6.5.3.3p5).
    pub fn negate(&mut self, v: &Got, told: &mut Vec<What>) -> Result<Got, Failure>
        ensures did { DidAndTold worth_of (where_suiting (knows_worth self.old.memory.table (worth_of v.now)) (tests opposite (worth_of v.now))) result self.old self.new told.old told.new }
        ensures later { IsLater self.old.memory.table self.new.memory.table }
        ensures memory { KeepsAllButMemory self.old self.new }
        ensures made { GivesMade self.new result }
    {
        match self.test(v, told) {
            Ok(t) => Ok(truth_value(!t)),
            Err(e) => Err(e),
        }
    }

    // The same of a value whose names were made.
    #[tactic(auto, using(crate::proofs::Comings::came_fails, crate::proofs::Laters::later_itself, crate::proofs::Laters::later_both, crate::proofs::Laters::made_later))]
    pub(crate) fn test_suiting(&mut self, v: &Got, told: &mut Vec<What>) -> Result<bool, Failure>
        requires { IsMadeWorth self.old.memory.table (worth_of v.now) }
        ensures did { (give : Bool → Worth) → DidAndTold give (tests give (worth_of v.now)) result self.old self.new told.old told.new }
        ensures later { IsLater self.old.memory.table self.new.memory.table }
        ensures memory { KeepsAllButMemory self.old self.new }
    {
        match v {
            Got::Missing => Err(fail(told, missing(), None)),
            Got::Scalar(Value::Unset) => Err(fail(told, Cause::Ends(Verdict::Indeterminate), None)),
            Got::Scalar(Value::Int(n)) => Ok(*n != 0),
            Got::Scalar(Value::Pointer(p)) => self.test_pointer(*p, told),
            Got::Nothing | Got::Whole(_, _) => Ok(false),
        }
    }

    // A use of a pointer for its being live.
    #[tactic(auto, using(crate::proofs::Comings::came_fails, crate::proofs::Laters::later_itself, crate::proofs::Laters::later_both, crate::proofs::Laters::made_later))]
    fn test_pointer(&mut self, p: Pointer, told: &mut Vec<What>) -> Result<bool, Failure>
        requires { IsMadeIn self.old.memory.table p.prov }
        ensures did { (give : Bool → Worth) → DidAndTold give (λ w. truth_by w p (truth w.memory.table p) give) result self.old self.new told.old told.new }
        ensures later { IsLater self.old.memory.table self.new.memory.table }
        ensures memory { KeepsAllButMemory self.old self.new }
    {
        let blame = blame_of(&self.memory, p.prov);
        match self.memory.truth(p) {
            Ok((answer, tried)) => match tell_used(told, LIVE_TEST, tried) {
                Ok(()) => Ok(answer),
                Err(_) => Err(Failure::NoMemory),
            },
            Err(stop) => Err(stopped(told, stop, Some(blame))),
        }
    }
}
