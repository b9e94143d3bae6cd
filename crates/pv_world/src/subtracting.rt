// Differences of pointers (6.5.6p9).
ghost use Rattle.std.specs.Prelude.{◌≡◌, ◌≤◌, ◌++◌, ◌-ℤ◌, ◌&&◌, nat_le, pos, OnOk};
ghost use Rattle.pv_inst.specs.Table.{IsMadeIn};
ghost use Rattle.pv_object.specs.Later.{IsLater};
ghost use Rattle.pv_world.specs.Telling.{event_of_use};
ghost use Rattle.pv_world.specs.Pointers.{subtracts, in_elements};
ghost use Rattle.pv_world.specs.PointerParts.{between};
ghost use Rattle.pv_world.specs.Suiting.{where_suiting, knows_both};
ghost use Rattle.pv_world.specs.Coming.{worth_of, IsMadeWorth, KeepsAllButMemory, GivesMade, DidAndTold, Tells};

use crate::failing::{blame_of, fail, stopped};
use crate::got::{Failure, Got};
use crate::operands::{pointer_of, uneven, unplain};
use crate::suiting::unfit;
use crate::telling::tell_used;
use crate::world::World;
use pv_inst::Tried;
use pv_object::{Pointer, Value};
use pv_prov::NoMemory;
use pv_watch::{SAME_TEST, What};

/// Tells the uses of two operands by the test with this number, the left one's first.
pub(crate) fn tell_both(
    told: &mut Vec<What>,
    test: u8,
    left: Tried,
    right: Tried,
) -> Result<(), NoMemory>
    ensures { OnOk result (Tells told.old told.new (event_of_use test left ++ event_of_use test right)) }
{
    match tell_used(told, test, left) {
        Ok(()) => tell_used(told, test, right),
        Err(NoMemory) => Err(NoMemory),
    }
}

/// How many elements of this size lie between two addresses, if that is whole.
fn elements_between(p: u64, q: u64, size: u64) -> Option<i128>
    requires { 1 ≤ size }
    ensures { result ≡ in_elements (pos p -ℤ pos q) size }
{
    let bytes = i128::from(p) - i128::from(q);
    let size = i128::from(size);
    if bytes % size == 0 {
        Some(bytes / size)
    } else {
        None
    }
}

impl World {
    /// The difference of two pointers in elements of this size (6.5.6p9), or the end of the run as by a missing value.
    #[tactic(auto, using(crate::proofs::Guards::suited, crate::proofs::Guards::unsuited, crate::proofs::Laters::later_itself))]
    pub fn subtract(
        &mut self,
        size: u64,
        v: &Got,
        x: &Got,
        told: &mut Vec<What>,
    ) -> Result<Got, Failure>
        ensures did { DidAndTold worth_of (where_suiting (nat_le 1 size && knows_both self.old.memory.table (worth_of v.now) (worth_of x.now)) (subtracts size (worth_of v.now) (worth_of x.now))) result self.old self.new told.old told.new }
        ensures later { IsLater self.old.memory.table self.new.memory.table }
        ensures memory { KeepsAllButMemory self.old self.new }
        ensures made { GivesMade self.new result }
    {
        if self.can_subtract(size, v, x) {
            self.subtract_suiting(size, v, x, told)
        } else {
            Err(unfit(told))
        }
    }

    // The same of two values whose names were made.
    #[tactic(auto, using(crate::proofs::Comings::came_fails, crate::proofs::Laters::later_itself, crate::proofs::Laters::made_later))]
    fn subtract_suiting(
        &mut self,
        size: u64,
        v: &Got,
        x: &Got,
        told: &mut Vec<What>,
    ) -> Result<Got, Failure>
        requires sized { 1 ≤ size }
        requires left { IsMadeWorth self.old.memory.table (worth_of v.now) }
        requires right { IsMadeWorth self.old.memory.table (worth_of x.now) }
        ensures did { DidAndTold worth_of (subtracts size (worth_of v.now) (worth_of x.now)) result self.old self.new told.old told.new }
        ensures later { IsLater self.old.memory.table self.new.memory.table }
        ensures memory { KeepsAllButMemory self.old self.new }
        ensures made { GivesMade self.new result }
    {
        if let Some(cause) = unplain(v) {
            return Err(fail(told, cause, None));
        }
        if let Some(cause) = unplain(x) {
            return Err(fail(told, cause, None));
        }
        self.subtract_pointers(size, pointer_of(v), pointer_of(x), told)
    }

    // The difference, once both settled to what they have in common. In bytes it is always whole: so what they settled to
    // is known also where the elements are not.
    #[tactic(auto, using(crate::proofs::Comings::came_fails, crate::proofs::Differences::apart))]
    fn subtract_pointers(
        &mut self,
        size: u64,
        p: Pointer,
        q: Pointer,
        told: &mut Vec<What>,
    ) -> Result<Got, Failure>
        requires sized { 1 ≤ size }
        requires left { IsMadeIn self.old.memory.table p.prov }
        requires right { IsMadeIn self.old.memory.table q.prov }
        ensures did { DidAndTold worth_of (between size p q) result self.old self.new told.old told.new }
        ensures later { IsLater self.old.memory.table self.new.memory.table }
        ensures memory { KeepsAllButMemory self.old self.new }
        ensures made { GivesMade self.new result }
    {
        let blame = blame_of(&self.memory, p.prov);
        let (_, left, right) = match self.memory.subtract(p, q, 1) {
            Ok(difference) => difference,
            Err(stop) => return Err(stopped(told, stop, Some(blame))),
        };
        let Ok(()) = tell_both(told, SAME_TEST, left, right) else {
            return Err(Failure::NoMemory);
        };
        match elements_between(p.address, q.address, size) {
            Some(n) => Ok(Got::Scalar(Value::Int(n))),
            None => Err(fail(told, uneven(), Some(blame))),
        }
    }
}
