// What a run has in hand.
ghost use Rattle.std.specs.Prelude.{◌≡◌, ◌+◌, ◌<◌, ◌^◌, [], IfOk, IfErr, OnOk, Ok};
ghost use Rattle.pv_world.specs.Worths.{truth_int, int};
ghost use Rattle.pv_world.specs.Coming.{Did, worth_of, no_worth};
ghost use Rattle.pv_eval.specs.Acting.{without_use};
ghost use Rattle.pv_eval.specs.Closings.{ClosedAs, ClosedStill, SettledAs};
ghost use Rattle.pv_eval.specs.Moments.{with_waiting, Came, Tested, Needed, Called, by_number, Made, IsMemory};

use crate::failure::Failure;
use crate::marked::{Marked, stamp, stamp_others};
use crate::siding::{Side, keep_side, side_for};
use pv_object::Value;
use pv_watch::What;
use pv_world::{Cause, Failure as WorldFailure, Got, World, truth_value};
use std::alloc::Global;
use std::marker::Model;

/// The world, what is printed and not yet taken, what happened and is not yet told, and the turns taken.
#[derive(Drop)]
pub struct Moment {
    pub(crate) alloc: Global,
    pub(crate) world: World,
    pub(crate) printed: Vec<u8>,
    /// How many bytes were printed in all.
    pub(crate) total: u64,
    pub(crate) waiting: Vec<Marked>,
    pub(crate) taken: u64,
    /// In a settled run the side of each pair, true for the high one.
    pub(crate) sides: Option<Vec<bool>>,
    /// A list for what an operation tells, which is kept for its memory alone.
    pub(crate) told: Vec<What>,
}

impl Model for Moment {
    ghost use Rattle.std.specs.Coded.{codes};
    ghost use Rattle.pv_inst.specs.CountsCode.{counts_code};
    ghost use Rattle.pv_object.specs.Codes.{store_code};
    ghost use Rattle.pv_eval.specs.Moments.{Moment as MomentView, sides_of};

    ghost Value = { MomentView };

    ghost coded = { Prim.hlevel (codes, counts_code, store_code) };

    ghost view = { λ m. record { world = m.world; printed = m.printed.items; total = m.total; waiting = m.waiting.items; taken = m.taken; sides = sides_of m.sides } };
}

impl Moment {
    /// Takes a turn.
    pub fn tick(&mut self)
        requires { self.old.taken < 10 ^ 8 }
        ensures { self.new ≡ record self.old { taken = self.old.taken + 1 } }
    {
        self.taken += 1;
    }

    /// What was told of an operation is marked, to be told later.
    #[inline(always)]
    fn mark(&mut self, told: &[What]) -> Result<(), Failure>
        ensures marked { OnOk result (self.new ≡ with_waiting self.old self.old.world told.now) }
        ensures kept { self.new ≡ record self.old { waiting = self.new.waiting } }
        ensures memory { IfErr result (λ e. e ≡ Failure.NoMemory) }
    {
        match stamp(&mut self.waiting, self.taken, self.total, told) {
            Ok(()) => Ok(()),
            Err(_) => Err(Failure::NoMemory),
        }
    }

    /// The same of all that was told but the uses of a pair.
    fn mark_others(&mut self, pair: u64, told: &[What]) -> Result<(), Failure>
        ensures marked { OnOk result (self.new ≡ with_waiting self.old self.old.world (without_use pair told.now)) }
        ensures kept { self.new ≡ record self.old { waiting = self.new.waiting } }
        ensures memory { IfErr result (λ e. e ≡ Failure.NoMemory) }
    {
        match stamp_others(&mut self.waiting, self.taken, self.total, pair, told) {
            Ok(()) => Ok(()),
            Err(_) => Err(Failure::NoMemory),
        }
    }

    /// An operation of the node in this line gave a value, where there were so many pairs before it: what it told is marked.
    /// In a settled run a pair that it made keeps its side.
    #[inline(always)]
    fn conclude(&mut self, line: u32, before: u64, told: &[What]) -> Result<(), Failure>
        ensures settled { SettledAs line before told.now result self.old self.new }
        ensures kept { self.new ≡ record self.old { world = self.new.world; waiting = self.new.waiting } }
    {
        let pair = self.world.pairs_made();
        match side_for(&self.sides, before, pair) {
            Side::Free => self.mark(told),
            Side::Ended => match self.mark_others(pair, told) {
                Ok(()) => Err(Failure::Stop(Cause::SidesEnded(pair), line)),
                Err(e) => Err(e),
            },
            Side::Keeps(high) => {
                keep_side(&mut self.world, pair, high);
                self.mark_others(pair, told)
            }
        }
    }

    /// An operation of the node in this line was made on the world, where there were so many pairs before it.
    #[inline(always)]
    #[tactic(auto, using(crate::proofs::Marking::closed_stop))]
    pub(crate) fn close(
        &mut self,
        line: u32,
        before: u64,
        told: &[What],
        answer: Result<Got, WorldFailure>,
    ) -> Result<Got, Failure>
        ensures acted { ClosedAs line before (λ w op. Did worth_of op answer w self.old.world [] told.now) (λ r s. Came r result s) self.old self.new }
        ensures same { IfOk result (λ g. answer ≡ Ok g) }
        ensures kept { self.new ≡ record self.old { world = self.new.world; waiting = self.new.waiting } }
    {
        match answer {
            Ok(g) => match self.conclude(line, before, told) {
                Ok(()) => Ok(g),
                Err(e) => Err(e),
            },
            Err(WorldFailure::Stop(cause)) => match self.mark(told) {
                Ok(()) => Err(Failure::Stop(cause, line)),
                Err(e) => Err(e),
            },
            Err(WorldFailure::NoMemory) => Err(Failure::NoMemory),
        }
    }

    /// The same of a test.
    pub(crate) fn close_test(
        &mut self,
        line: u32,
        before: u64,
        told: &[What],
        answer: Result<bool, WorldFailure>,
    ) -> Result<bool, Failure>
        ensures tested { ClosedAs line before (λ w op. Did truth_int op answer w self.old.world [] told.now) (λ r s. Tested r result s) self.old self.new }
        ensures kept { self.new ≡ record self.old { world = self.new.world; waiting = self.new.waiting } }
    {
        match answer {
            Ok(t) => match self.close(line, before, told, Ok(truth_value(t))) {
                Ok(_) => Ok(t),
                Err(e) => Err(e),
            },
            Err(stop) => match self.close(line, before, told, Err(stop)) {
                Ok(_) => unreachable!(),
                Err(e) => Err(e),
            },
        }
    }

    /// The same of what gives a number.
    pub(crate) fn close_number(
        &mut self,
        line: u32,
        before: u64,
        told: &[What],
        answer: Result<i128, WorldFailure>,
    ) -> Result<i128, Failure>
        ensures needed { ClosedAs line before (λ w op. Did int op answer w self.old.world [] told.now) (λ r s. Needed r result s) self.old self.new }
        ensures kept { self.new ≡ record self.old { world = self.new.world; waiting = self.new.waiting } }
    {
        match answer {
            Ok(n) => match self.close(line, before, told, Ok(Got::Scalar(Value::Int(n)))) {
                Ok(_) => Ok(n),
                Err(e) => Err(e),
            },
            Err(stop) => match self.close(line, before, told, Err(stop)) {
                Ok(_) => unreachable!(),
                Err(e) => Err(e),
            },
        }
    }

    /// The same of what finds a function.
    pub(crate) fn close_called(
        &mut self,
        line: u32,
        before: u64,
        told: &[What],
        answer: Result<u32, WorldFailure>,
    ) -> Result<u32, Failure>
        ensures called { ClosedAs line before (λ w op. Did by_number op answer w self.old.world [] told.now) (λ r s. Called r result s) self.old self.new }
        ensures same { IfOk result (λ f. answer ≡ Ok f) }
        ensures kept { self.new ≡ record self.old { world = self.new.world; waiting = self.new.waiting } }
    {
        match answer {
            Ok(f) => match self.close(
                line,
                before,
                told,
                Ok(Got::Scalar(Value::Int(i128::from(f)))),
            ) {
                Ok(_) => Ok(f),
                Err(e) => Err(e),
            },
            Err(stop) => match self.close(line, before, told, Err(stop)) {
                Ok(_) => unreachable!(),
                Err(e) => Err(e),
            },
        }
    }

    /// The same of what gives nothing.
    pub(crate) fn close_made(
        &mut self,
        line: u32,
        before: u64,
        told: &[What],
        answer: Result<(), WorldFailure>,
    ) -> Result<(), Failure>
        ensures made { ClosedAs line before (λ w op. Did no_worth op answer w self.old.world [] told.now) (λ r s. Made r result s) self.old self.new }
        ensures kept { self.new ≡ record self.old { world = self.new.world; waiting = self.new.waiting } }
    {
        match answer {
            Ok(()) => match self.close(line, before, told, Ok(Got::Nothing)) {
                Ok(_) => Ok(()),
                Err(e) => Err(e),
            },
            Err(stop) => match self.close(line, before, told, Err(stop)) {
                Ok(_) => unreachable!(),
                Err(e) => Err(e),
            },
        }
    }

    /// An operation that can't stop and makes no pair was made on the world, whatever its line: what it told is marked.
    pub(crate) fn close_done(&mut self, told: &[What]) -> Result<(), Failure>
        ensures made { ClosedStill told.now (λ r s. Made r result s) self.old self.new }
        ensures kept { self.new ≡ record self.old { waiting = self.new.waiting } }
        ensures memory { IsMemory result }
    {
        self.mark(told)
    }

    /// The turns taken.
    pub fn turns(&self) -> u64
        ensures { result ≡ self.now.taken }
    {
        self.taken
    }
}
