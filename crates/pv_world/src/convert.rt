// Conversions (6.3).
ghost use Rattle.std.specs.Prelude.{◌≤◌};
ghost use Rattle.pv_inst.specs.Table.{IsMadeIn};
ghost use Rattle.pv_object.specs.Later.{IsLater};
ghost use Rattle.pv_object.specs.Operations.{recast};
ghost use Rattle.pv_world.specs.Hows.{IsHow};
ghost use Rattle.pv_world.specs.Worths.{int_of, pointer_of};
ghost use Rattle.pv_world.specs.Preconditions.{IsSmall};
ghost use Rattle.pv_world.specs.Suiting.{where_suiting, is_convertible};
ghost use Rattle.pv_world.specs.Conversions.{converts, recast_by};
ghost use Rattle.pv_world.specs.Coming.{worth_of, IsMadeWorth, KeepsAllButMemory, GivesMade, DidAndTold};

use crate::failing::{blame_of, fail, stopped_after};
use crate::got::{Failure, Got, How};
use crate::operands::{int_of, missing, pointer_of, truth_value, unplain};
use crate::suiting::unfit;
use crate::telling::tell_used;
use crate::world::World;
use pv_num::{IntKind, convert};
use pv_object::{Pointer, Value};
use pv_watch::{LIVE_TEST, What};

impl World {
    /// A conversion (6.3), or the end of the run as by a missing value.
    #[tactic(auto, using(crate::proofs::Guards::suited, crate::proofs::Guards::unsuited, crate::proofs::Laters::later_itself))]
    pub fn convert(&mut self, how: How, v: Got, told: &mut Vec<What>) -> Result<Got, Failure>
        requires sized { IsHow how }
        ensures did { DidAndTold worth_of (where_suiting (is_convertible self.old.memory.table (worth_of v)) (converts how (worth_of v))) result self.old self.new told.old told.new }
        ensures later { IsLater self.old.memory.table self.new.memory.table }
        ensures memory { KeepsAllButMemory self.old self.new }
        ensures made { GivesMade self.new result }
    {
        if self.is_convertible(&v) {
            self.convert_suiting(how, v, told)
        } else {
            Err(unfit(told))
        }
    }

    // A conversion of a value that is one of its type.
    fn convert_suiting(&mut self, how: How, v: Got, told: &mut Vec<What>) -> Result<Got, Failure>
        requires sized { IsHow how }
        requires small { IsSmall (worth_of v) }
        requires made { IsMadeWorth self.old.memory.table (worth_of v) }
        ensures did { DidAndTold worth_of (converts how (worth_of v)) result self.old self.new told.old told.new }
        ensures later { IsLater self.old.memory.table self.new.memory.table }
        ensures memory { KeepsAllButMemory self.old self.new }
        ensures made { GivesMade self.new result }
    {
        match how {
            How::Rounds(k) => self.round(k, &v, told),
            How::Passes(k) => self.pass(k, v, told),
            How::Tests => match self.test_suiting(&v, told) {
                Ok(t) => Ok(truth_value(t)),
                Err(e) => Err(e),
            },
            How::Numbers(k) => self.number(k, &v, told),
            How::Points => self.point(&v, told),
            How::Recasts(align) => self.recast(align, &v, told),
            How::Voids => Ok(Got::Nothing),
        }
    }

    // An integer to an integer type (6.3.1.2, 6.3.1.3).
    #[tactic(auto, using(crate::proofs::Comings::came_fails, crate::proofs::Laters::later_itself, crate::proofs::Laters::later_both, crate::proofs::Laters::made_later))]
    fn round(&mut self, k: IntKind, v: &Got, told: &mut Vec<What>) -> Result<Got, Failure>
        requires { IsSmall (worth_of v.now) }
        ensures did { DidAndTold worth_of (converts (How.Rounds k) (worth_of v.now)) result self.old self.new told.old told.new }
        ensures later { IsLater self.old.memory.table self.new.memory.table }
        ensures memory { KeepsAllButMemory self.old self.new }
        ensures made { GivesMade self.new result }
    {
        match unplain(v) {
            Some(cause) => Err(fail(told, cause, None)),
            None => Ok(Got::Scalar(Value::Int(convert(k, int_of(v))))),
        }
    }

    // The same between character types: a value that was never set passes.
    #[tactic(auto, using(crate::proofs::Comings::came_fails, crate::proofs::Laters::later_itself, crate::proofs::Laters::later_both, crate::proofs::Laters::made_later))]
    fn pass(&mut self, k: IntKind, v: Got, told: &mut Vec<What>) -> Result<Got, Failure>
        requires small { IsSmall (worth_of v) }
        requires made { IsMadeWorth self.old.memory.table (worth_of v) }
        ensures did { DidAndTold worth_of (converts (How.Passes k) (worth_of v)) result self.old self.new told.old told.new }
        ensures later { IsLater self.old.memory.table self.new.memory.table }
        ensures memory { KeepsAllButMemory self.old self.new }
        ensures made { GivesMade self.new result }
    {
        match v {
            Got::Missing => Err(fail(told, missing(), None)),
            Got::Scalar(Value::Int(n)) => Ok(Got::Scalar(Value::Int(convert(k, n)))),
            Got::Scalar(Value::Unset) => Ok(Got::Scalar(Value::Unset)),
            Got::Scalar(Value::Pointer(p)) => Ok(Got::Scalar(Value::Pointer(p))),
            Got::Nothing => Ok(Got::Nothing),
            Got::Whole(bytes, origin) => Ok(Got::Whole(bytes, origin)),
        }
    }

    // A pointer to another pointer type (6.3.2.3p7).
    #[tactic(auto, using(crate::proofs::Comings::came_fails, crate::proofs::Laters::later_itself, crate::proofs::Laters::later_both, crate::proofs::Laters::made_later))]
    fn recast(&mut self, align: u64, v: &Got, told: &mut Vec<What>) -> Result<Got, Failure>
        requires aligned { 1 ≤ align }
        requires made { IsMadeWorth self.old.memory.table (worth_of v.now) }
        ensures did { DidAndTold worth_of (converts (How.Recasts align) (worth_of v.now)) result self.old self.new told.old told.new }
        ensures later { IsLater self.old.memory.table self.new.memory.table }
        ensures memory { KeepsAllButMemory self.old self.new }
        ensures made { GivesMade self.new result }
    {
        match unplain(v) {
            Some(cause) => Err(fail(told, cause, None)),
            None => self.recast_pointer(align, pointer_of(v), told),
        }
    }

    // The live test, and the alignment.
    #[tactic(auto, using(crate::proofs::Used::recast_gave, crate::proofs::Used::recast_stops, crate::proofs::Laters::later_itself, crate::proofs::Laters::later_both, crate::proofs::Laters::made_later))]
    fn recast_pointer(
        &mut self,
        align: u64,
        p: Pointer,
        told: &mut Vec<What>,
    ) -> Result<Got, Failure>
        requires aligned { 1 ≤ align }
        requires made { IsMadeIn self.old.memory.table p.prov }
        ensures did { DidAndTold worth_of (λ w. recast_by w p (recast w.memory.table p align)) result self.old self.new told.old told.new }
        ensures later { IsLater self.old.memory.table self.new.memory.table }
        ensures memory { KeepsAllButMemory self.old self.new }
        ensures made { GivesMade self.new result }
    {
        let blame = blame_of(&self.memory, p.prov);
        match self.memory.recast(p, align) {
            Ok(tried) => match tell_used(told, LIVE_TEST, tried) {
                Ok(()) => Ok(Got::Scalar(Value::Pointer(p))),
                Err(_) => Err(Failure::NoMemory),
            },
            Err(by) => Err(stopped_after(told, LIVE_TEST, by, blame)),
        }
    }
}
