// Pointers as numbers, and numbers as pointers (6.3.2.3p5, p6).
ghost use Rattle.std.specs.Prelude.{◌≡◌, OnOk};
ghost use Rattle.pv_inst.specs.Table.{IsMadeIn};
ghost use Rattle.pv_object.specs.Later.{IsLater};
ghost use Rattle.pv_object.specs.Operations.{to_int, to_ptr};
ghost use Rattle.pv_world.specs.Worlds.{with_table};
ghost use Rattle.pv_world.specs.Telling.{exposures, all_told};
ghost use Rattle.pv_world.specs.Worths.{int_of, pointer_of};
ghost use Rattle.pv_world.specs.Conversions.{converts, number_by, pointer_by_number};
ghost use Rattle.pv_world.specs.Coming.{worth_of, IsMadeWorth, KeepsAllButMemory, GivesMade, DidAndTold, Tells};

use crate::failing::{blame_of, fail, stopped_after};
use crate::got::{Failure, Got, How};
use crate::operands::{int_of, pointer_of, unplain};
use crate::telling::{tell_exposed, tell_pairs, tell_used};
use crate::world::World;
use pv_num::IntKind;
use pv_object::{Pointer, Value};
use pv_prov::NoMemory;
use pv_watch::{LIVE_TEST, What};

impl World {
    // A pointer to an integer type (6.3.2.3p6).
    #[tactic(auto, using(crate::proofs::Comings::came_fails, crate::proofs::Laters::later_itself, crate::proofs::Laters::later_both, crate::proofs::Laters::made_later))]
    pub(crate) fn number(
        &mut self,
        k: IntKind,
        v: &Got,
        told: &mut Vec<What>,
    ) -> Result<Got, Failure>
        requires { IsMadeWorth self.old.memory.table (worth_of v.now) }
        ensures did { DidAndTold worth_of (converts (How.Numbers k) (worth_of v.now)) result self.old self.new told.old told.new }
        ensures later { IsLater self.old.memory.table self.new.memory.table }
        ensures memory { KeepsAllButMemory self.old self.new }
        ensures made { GivesMade self.new result }
    {
        match unplain(v) {
            Some(cause) => Err(fail(told, cause, None)),
            None => self.number_of(k, pointer_of(v), told),
        }
    }

    // The live test, whether the address fits, and the exposure.
    #[tactic(auto, using(crate::proofs::Used::number_gave, crate::proofs::Used::number_stops, crate::proofs::Laters::later_itself, crate::proofs::Laters::later_both, crate::proofs::Laters::made_later))]
    fn number_of(&mut self, k: IntKind, p: Pointer, told: &mut Vec<What>) -> Result<Got, Failure>
        requires { IsMadeIn self.old.memory.table p.prov }
        ensures did { DidAndTold worth_of (λ w. number_by w p (to_int w.memory.table p k)) result self.old self.new told.old told.new }
        ensures later { IsLater self.old.memory.table self.new.memory.table }
        ensures memory { KeepsAllButMemory self.old self.new }
        ensures made { GivesMade self.new result }
    {
        let blame = blame_of(&self.memory, p.prov);
        let (n, tried) = match self.memory.to_int(p, k) {
            Ok(number) => number,
            Err(by) => return Err(stopped_after(told, LIVE_TEST, by, blame)),
        };
        let Ok(()) = tell_used(told, LIVE_TEST, tried) else {
            return Err(Failure::NoMemory);
        };
        match self.tell_exposures(told) {
            Ok(()) => Ok(Got::Scalar(Value::Int(n))),
            Err(_) => Err(Failure::NoMemory),
        }
    }

    // What became exposed and was not told of.
    #[tactic(auto, using(crate::proofs::Laters::later_itself, crate::proofs::Laters::later_kept))]
    pub(crate) fn tell_exposures(&mut self, told: &mut Vec<What>) -> Result<(), NoMemory>
        ensures told { OnOk result (Tells told.old told.new (exposures self.old.memory.table)) }
        ensures state { OnOk result (self.new ≡ with_table self.old (all_told self.old.memory.table)) }
        ensures later { IsLater self.old.memory.table self.new.memory.table }
        ensures memory { KeepsAllButMemory self.old self.new }
    {
        tell_exposed(told, &mut self.memory)
    }

    // An integer to a pointer type (6.3.2.3p5).
    #[tactic(auto, using(crate::proofs::Comings::came_fails, crate::proofs::Laters::later_itself, crate::proofs::Laters::later_both, crate::proofs::Laters::made_later))]
    pub(crate) fn point(&mut self, v: &Got, told: &mut Vec<What>) -> Result<Got, Failure>
        ensures did { DidAndTold worth_of (converts How.Points (worth_of v.now)) result self.old self.new told.old told.new }
        ensures later { IsLater self.old.memory.table self.new.memory.table }
        ensures memory { KeepsAllButMemory self.old self.new }
        ensures made { GivesMade self.new result }
    {
        match unplain(v) {
            Some(cause) => Err(fail(told, cause, None)),
            None => self.pointer_at(int_of(v), told),
        }
    }

    // The pointer of a number; two instances that fit make a pair.
    #[tactic(auto, using(crate::proofs::Comings::came_fails, crate::proofs::Laters::later_itself, crate::proofs::Laters::later_both, crate::proofs::Laters::made_later))]
    fn pointer_at(&mut self, n: i128, told: &mut Vec<What>) -> Result<Got, Failure>
        ensures did { DidAndTold worth_of (λ w. pointer_by_number w (to_ptr w.memory.table n)) result self.old self.new told.old told.new }
        ensures later { IsLater self.old.memory.table self.new.memory.table }
        ensures memory { KeepsAllButMemory self.old self.new }
        ensures made { GivesMade self.new result }
    {
        let before = self.memory.instances().pairs_made();
        match self.memory.to_ptr(n) {
            Ok(p) => match tell_pairs(told, &self.memory, before) {
                Ok(()) => Ok(Got::Scalar(Value::Pointer(p))),
                Err(_) => Err(Failure::NoMemory),
            },
            // there is always a name: only memory can be wanting
            Err(_) => Err(Failure::NoMemory),
        }
    }
}
