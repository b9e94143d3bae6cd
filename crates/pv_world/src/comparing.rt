// The equality and the order of pointers (6.5.8p5, 6.5.9p6).
ghost use Rattle.std.specs.Prelude.{◌≡◌, ◌<◌, ◌&&◌, pos, true, Ok};
ghost use Rattle.pv_num.specs.Arithmetic.{binary_of};
ghost use Rattle.pv_inst.specs.Table.{IsMadeIn};
ghost use Rattle.pv_object.specs.Later.{IsLater};
ghost use Rattle.pv_object.specs.Operations.{order, pointer_equality};
ghost use Rattle.pv_world.specs.Pointers.{orders, ordered_by, is_order, equals, equal_by};
ghost use Rattle.pv_world.specs.Suiting.{where_suiting, knows_both};
ghost use Rattle.pv_world.specs.Coming.{worth_of, IsMadeWorth, KeepsAllButMemory, GivesMade, DidAndTold};

use crate::failing::{blame_of, fail, stopped, stopped_after};
use crate::got::{Failure, Got};
use crate::operands::{pointer_of, truth_value, unplain};
use crate::subtracting::tell_both;
use crate::suiting::unfit;
use crate::world::World;
use pv_num::{BinOp, IntKind};
use pv_object::{Pointer, Value};
use pv_watch::{LIVE_TEST, SAME_TEST, What};

/// 1 where two addresses stand in this order, and else 0.
fn compared(op: BinOp, p: u64, q: u64) -> i128
    requires { is_order op ≡ true }
    ensures { binary_of op IntKind.Int (pos p) (pos q) ≡ Ok result }
{
    let stand = match op {
        BinOp::Lt => p < q,
        BinOp::Gt => q < p,
        BinOp::Le => p <= q,
        BinOp::Ge => q <= p,
        _ => unreachable!(),
    };
    if stand { 1 } else { 0 }
}

impl World {
    /// Whether two pointers are equal, or are not (6.5.9p6), or the end of the run as by a missing value.
    #[tactic(auto, using(crate::proofs::Guards::suited, crate::proofs::Guards::unsuited, crate::proofs::Laters::later_itself))]
    pub fn equal(
        &mut self,
        negated: bool,
        v: &Got,
        x: &Got,
        told: &mut Vec<What>,
    ) -> Result<Got, Failure>
        ensures did { DidAndTold worth_of (where_suiting (knows_both self.old.memory.table (worth_of v.now) (worth_of x.now)) (equals negated (worth_of v.now) (worth_of x.now))) result self.old self.new told.old told.new }
        ensures later { IsLater self.old.memory.table self.new.memory.table }
        ensures memory { KeepsAllButMemory self.old self.new }
        ensures made { GivesMade self.new result }
    {
        if self.knows_both(v, x) {
            self.equal_suiting(negated, v, x, told)
        } else {
            Err(unfit(told))
        }
    }

    // The same of two values whose names were made.
    #[tactic(auto, using(crate::proofs::Comings::came_fails, crate::proofs::Laters::later_itself, crate::proofs::Laters::made_later))]
    fn equal_suiting(
        &mut self,
        negated: bool,
        v: &Got,
        x: &Got,
        told: &mut Vec<What>,
    ) -> Result<Got, Failure>
        requires left { IsMadeWorth self.old.memory.table (worth_of v.now) }
        requires right { IsMadeWorth self.old.memory.table (worth_of x.now) }
        ensures did { DidAndTold worth_of (equals negated (worth_of v.now) (worth_of x.now)) result self.old self.new told.old told.new }
        ensures later { IsLater self.old.memory.table self.new.memory.table }
        ensures memory { KeepsAllButMemory self.old self.new }
        ensures made { GivesMade self.new result }
    {
        if let Some(cause) = unplain(v) {
            return Err(fail(told, cause, None));
        }
        if let Some(cause) = unplain(x) {
            return Err(fail(told, cause, None));
        }
        self.equal_pointers(negated, pointer_of(v), pointer_of(x), told)
    }

    // The live test of each, the left one first, and the addresses compared.
    #[tactic(auto, using(crate::proofs::Used::equal_gave, crate::proofs::Used::equal_stops, crate::proofs::Laters::later_itself, crate::proofs::Laters::made_later))]
    fn equal_pointers(
        &mut self,
        negated: bool,
        p: Pointer,
        q: Pointer,
        told: &mut Vec<What>,
    ) -> Result<Got, Failure>
        requires left { IsMadeIn self.old.memory.table p.prov }
        requires right { IsMadeIn self.old.memory.table q.prov }
        ensures did { DidAndTold worth_of (λ w. equal_by negated w p q (pointer_equality w.memory.table p q)) result self.old self.new told.old told.new }
        ensures later { IsLater self.old.memory.table self.new.memory.table }
        ensures memory { KeepsAllButMemory self.old self.new }
        ensures made { GivesMade self.new result }
    {
        let blame = blame_of(&self.memory, p.prov);
        match self.memory.equal(p, q) {
            Ok((answer, left, right)) => match tell_both(told, LIVE_TEST, left, right) {
                Ok(()) => Ok(truth_value(if negated { !answer } else { answer })),
                Err(_) => Err(Failure::NoMemory),
            },
            Err(by) => Err(stopped_after(told, LIVE_TEST, by, blame)),
        }
    }

    /// The order of two pointers (6.5.8p5), or the end of the run as by a missing value.
    #[tactic(auto, using(crate::proofs::Guards::suited, crate::proofs::Guards::unsuited, crate::proofs::Laters::later_itself))]
    pub fn order(
        &mut self,
        op: BinOp,
        v: &Got,
        x: &Got,
        told: &mut Vec<What>,
    ) -> Result<Got, Failure>
        ensures did { DidAndTold worth_of (where_suiting (is_order op && knows_both self.old.memory.table (worth_of v.now) (worth_of x.now)) (orders op (worth_of v.now) (worth_of x.now))) result self.old self.new told.old told.new }
        ensures later { IsLater self.old.memory.table self.new.memory.table }
        ensures memory { KeepsAllButMemory self.old self.new }
        ensures made { GivesMade self.new result }
    {
        if self.can_order(op, v, x) {
            self.order_suiting(op, v, x, told)
        } else {
            Err(unfit(told))
        }
    }

    // The same of two values whose names were made.
    #[tactic(auto, using(crate::proofs::Comings::came_fails, crate::proofs::Laters::later_itself, crate::proofs::Laters::made_later))]
    fn order_suiting(
        &mut self,
        op: BinOp,
        v: &Got,
        x: &Got,
        told: &mut Vec<What>,
    ) -> Result<Got, Failure>
        requires operator { is_order op ≡ true }
        requires left { IsMadeWorth self.old.memory.table (worth_of v.now) }
        requires right { IsMadeWorth self.old.memory.table (worth_of x.now) }
        ensures did { DidAndTold worth_of (orders op (worth_of v.now) (worth_of x.now)) result self.old self.new told.old told.new }
        ensures later { IsLater self.old.memory.table self.new.memory.table }
        ensures memory { KeepsAllButMemory self.old self.new }
        ensures made { GivesMade self.new result }
    {
        if let Some(cause) = unplain(v) {
            return Err(fail(told, cause, None));
        }
        if let Some(cause) = unplain(x) {
            return Err(fail(told, cause, None));
        }
        self.order_pointers(op, pointer_of(v), pointer_of(x), told)
    }

    // Once both settled to what they have in common, their addresses are compared.
    #[tactic(auto, using(crate::proofs::Comings::came_fails, crate::proofs::Laters::later_itself, crate::proofs::Laters::made_later))]
    fn order_pointers(
        &mut self,
        op: BinOp,
        p: Pointer,
        q: Pointer,
        told: &mut Vec<What>,
    ) -> Result<Got, Failure>
        requires operator { is_order op ≡ true }
        requires left { IsMadeIn self.old.memory.table p.prov }
        requires right { IsMadeIn self.old.memory.table q.prov }
        ensures did { DidAndTold worth_of (λ w. ordered_by op w p q (order w.memory.table p q)) result self.old self.new told.old told.new }
        ensures later { IsLater self.old.memory.table self.new.memory.table }
        ensures memory { KeepsAllButMemory self.old self.new }
        ensures made { GivesMade self.new result }
    {
        let blame = blame_of(&self.memory, p.prov);
        match self.memory.order(p, q) {
            Ok((_, left, right)) => match tell_both(told, SAME_TEST, left, right) {
                Ok(()) => Ok(Got::Scalar(Value::Int(compared(op, p.address, q.address)))),
                Err(_) => Err(Failure::NoMemory),
            },
            Err(stop) => Err(stopped(told, stop, Some(blame))),
        }
    }
}
