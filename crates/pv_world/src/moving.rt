// Pointers that are moved (6.5.6p8), and members (6.5.2.3).
ghost use Rattle.std.specs.Prelude.{◌≡◌, ◌≤◌, ◌<◌, ◌^◌, ℤ, pos, neg_ℤ, ◌≤ℤ◌, Ok};
ghost use Rattle.pv_inst.specs.Table.{IsMadeIn};
ghost use Rattle.pv_object.specs.Later.{IsLater};
ghost use Rattle.pv_object.specs.Operations.{shift, select};
ghost use Rattle.pv_world.specs.Preconditions.{IsSmall};
ghost use Rattle.pv_world.specs.Pointers.{distance, moves, moved_by};
ghost use Rattle.pv_world.specs.PointerParts.{selects};
ghost use Rattle.pv_world.specs.Suiting.{where_suiting, knows_worth, can_shift};
ghost use Rattle.pv_world.specs.Coming.{worth_of, IsMadeWorth, KeepsAllButMemory, GivesMade, DidAndTold};

use crate::failing::{blame_of, fail, stopped};
use crate::got::{Failure, Got};
use crate::operands::{int_of, pointer_of, unplain, unpresent};
use crate::suiting::unfit;
use crate::telling::tell_used;
use crate::world::World;
use pv_object::{Pointer, Value};
use pv_prov::NoMemory;
use pv_watch::{RANGE_TEST, What};

/// How far so many elements of this size are.
fn distance(minus: bool, size: u64, n: i128) -> i128
    requires sized { size < 2 ^ 62 }
    requires low { neg_ℤ (pos (2 ^ 64)) ≤ℤ n }
    requires high { n ≤ℤ pos (2 ^ 64) }
    ensures { result ≡ distance minus size n }
{
    let far = n * i128::from(size);
    if minus { -far } else { far }
}

impl World {
    /// A pointer moved by so many elements of this size (6.5.6p8), or the end of the run as by a missing value.
    #[tactic(auto, using(crate::proofs::Guards::suited, crate::proofs::Guards::unsuited, crate::proofs::Laters::later_itself))]
    pub fn shift(
        &mut self,
        minus: bool,
        pointer_first: bool,
        size: u64,
        v: &Got,
        x: &Got,
        told: &mut Vec<What>,
    ) -> Result<Got, Failure>
        requires sized { size < 2 ^ 62 }
        ensures did { DidAndTold worth_of (where_suiting (can_shift self.old.memory.table (worth_of v.now) (worth_of x.now)) (moves minus pointer_first size (worth_of v.now) (worth_of x.now))) result self.old self.new told.old told.new }
        ensures later { IsLater self.old.memory.table self.new.memory.table }
        ensures memory { KeepsAllButMemory self.old self.new }
        ensures made { GivesMade self.new result }
    {
        if self.can_shift(v, x) {
            self.shift_suiting(minus, pointer_first, size, v, x, told)
        } else {
            Err(unfit(told))
        }
    }

    // The same of a pointer and an integer.
    #[tactic(auto, using(crate::proofs::Comings::came_fails, crate::proofs::Laters::later_itself, crate::proofs::Laters::made_later))]
    fn shift_suiting(
        &mut self,
        minus: bool,
        pointer_first: bool,
        size: u64,
        v: &Got,
        x: &Got,
        told: &mut Vec<What>,
    ) -> Result<Got, Failure>
        requires sized { size < 2 ^ 62 }
        requires left { IsMadeWorth self.old.memory.table (worth_of v.now) }
        requires right { IsMadeWorth self.old.memory.table (worth_of x.now) }
        requires left_count { IsSmall (worth_of v.now) }
        requires right_count { IsSmall (worth_of x.now) }
        ensures did { DidAndTold worth_of (moves minus pointer_first size (worth_of v.now) (worth_of x.now)) result self.old self.new told.old told.new }
        ensures later { IsLater self.old.memory.table self.new.memory.table }
        ensures memory { KeepsAllButMemory self.old self.new }
        ensures made { GivesMade self.new result }
    {
        if let Some(cause) = unplain(v) {
            return Err(fail(told, cause, None));
        }
        if let Some(cause) = unplain(x) {
            return Err(fail(told, cause, None));
        }
        if pointer_first {
            self.shift_pointer(pointer_of(v), distance(minus, size, int_of(x)), told)
        } else {
            self.shift_pointer(pointer_of(x), distance(minus, size, int_of(v)), told)
        }
    }

    // A pointer moved by so many bytes.
    #[tactic(auto, using(crate::proofs::Comings::came_fails, crate::proofs::Laters::later_itself, crate::proofs::Laters::made_later))]
    fn shift_pointer(&mut self, p: Pointer, by: i128, told: &mut Vec<What>) -> Result<Got, Failure>
        requires { IsMadeIn self.old.memory.table p.prov }
        ensures did { DidAndTold worth_of (λ w. moved_by w p (shift w.memory.table p by)) result self.old self.new told.old told.new }
        ensures later { IsLater self.old.memory.table self.new.memory.table }
        ensures memory { KeepsAllButMemory self.old self.new }
        ensures made { GivesMade self.new result }
    {
        let blame = blame_of(&self.memory, p.prov);
        match self.memory.shift(p, by) {
            Ok((moved, tried)) => match tell_used(told, RANGE_TEST, tried) {
                Ok(()) => Ok(Got::Scalar(Value::Pointer(moved))),
                Err(_) => Err(Failure::NoMemory),
            },
            Err(stop) => Err(stopped(told, stop, Some(blame))),
        }
    }

    /// The place of a member (6.5.2.3), or the end of the run as by a missing value.
    #[tactic(auto, using(crate::proofs::Guards::suited, crate::proofs::Guards::unsuited, crate::proofs::Laters::later_itself))]
    pub fn select(&mut self, offset: u64, v: &Got, told: &mut Vec<What>) -> Result<Got, Failure>
        ensures did { DidAndTold worth_of (where_suiting (knows_worth self.old.memory.table (worth_of v.now)) (selects offset (worth_of v.now))) result self.old self.new told.old told.new }
        ensures later { IsLater self.old.memory.table self.new.memory.table }
        ensures memory { KeepsAllButMemory self.old self.new }
        ensures made { GivesMade self.new result }
    {
        if self.knows(v) {
            self.select_suiting(offset, v, told)
        } else {
            Err(unfit(told))
        }
    }

    // The same of a value whose names were made.
    #[tactic(auto, using(crate::proofs::Comings::came_fails, crate::proofs::Laters::later_itself, crate::proofs::Laters::made_later))]
    fn select_suiting(&mut self, offset: u64, v: &Got, told: &mut Vec<What>) -> Result<Got, Failure>
        requires { IsMadeWorth self.old.memory.table (worth_of v.now) }
        ensures did { DidAndTold worth_of (selects offset (worth_of v.now)) result self.old self.new told.old told.new }
        ensures later { IsLater self.old.memory.table self.new.memory.table }
        ensures memory { KeepsAllButMemory self.old self.new }
        ensures made { GivesMade self.new result }
    {
        match unpresent(v) {
            Some(cause) => Err(fail(told, cause, None)),
            None => self.select_in(offset, pointer_of(v), told),
        }
    }

    // The member of what a pointer points to.
    #[tactic(auto, using(crate::proofs::Comings::came_fails, crate::proofs::Laters::later_itself, crate::proofs::Laters::made_later))]
    fn select_in(&mut self, offset: u64, p: Pointer, told: &mut Vec<What>) -> Result<Got, Failure>
        requires { IsMadeIn self.old.memory.table p.prov }
        ensures did { DidAndTold worth_of (λ w. moved_by w p (select w.memory.table p offset)) result self.old self.new told.old told.new }
        ensures later { IsLater self.old.memory.table self.new.memory.table }
        ensures memory { KeepsAllButMemory self.old self.new }
        ensures made { GivesMade self.new result }
    {
        let blame = blame_of(&self.memory, p.prov);
        match self.memory.select(p, offset) {
            Ok((moved, tried)) => match tell_used(told, RANGE_TEST, tried) {
                Ok(()) => Ok(Got::Scalar(Value::Pointer(moved))),
                Err(_) => Err(Failure::NoMemory),
            },
            Err(stop) => Err(stopped(told, stop, Some(blame))),
        }
    }
}
