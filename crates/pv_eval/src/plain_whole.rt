// Full expressions at once (C17 6.8p4): their values and their turns, without a machine, where nothing stops them.
ghost use Rattle.std.specs.Prelude.{◌≡◌, ◌+◌, ◌^◌, ◌<◌, ◌≤◌, true, Some, IfSome, IfNone};
ghost use Rattle.pv_seq.specs.Frames.{AllRead};
ghost use Rattle.pv_typed.specs.Known.{AreKnown};
ghost use Rattle.pv_typed.specs.Plain.{with_own_turn, sum_of_turns, turns_of};
ghost use Rattle.pv_typed.specs.NodeTrees.{expression_at, IsExpression};
ghost use Rattle.pv_world.specs.Coming.{worth_of};
ghost use Rattle.pv_eval.specs.Runnable.{IsRunnable};
ghost use Rattle.pv_eval.specs.Plainly.{Performs, whole_turns, found_worth};
ghost use Rattle.pv_eval.specs.Codes.{AreCodes};
ghost use Rattle.pv_eval.specs.AtOnce.{Evaluated, Cut, EvaluatedNext, CutNext, TestedNow, TestedNext, HandedNext, EvaluatedAmong, CutAmong};

use crate::codes::Code;
use crate::moment::Moment;
use crate::plain::Found;
use crate::plain_coded::{value, value_by};
use crate::plain_comparisons::is_true;
use crate::plain_conversions::converted_value;
use crate::plain_stores::{assign, assign_integer, assign_pointer, got};
use crate::plain_updates::{
    compound_assign, compound_integer, increment, increment_integer, pointer_assign,
};
use crate::plan::Plan;
use crate::values::Kept;
use pv_seq::Access;
use pv_tree::NodeId;
use pv_typed::{Typed, TypedUnit};
use pv_world::{Got, World};
use std::alloc::Global;

/// How many turns a plain expression takes.
pub(crate) fn plain_turns(unit: &TypedUnit, n: NodeId) -> Option<u64>
    requires { IsExpression unit.now n }
    ensures { IfSome result (λ k. turns_of (expression_at unit.now n) ≡ Some k) }
{
    let turns = unit.plain_turns(n)?;
    Some(u64::from(turns))
}

/// The turns of two plain operands, and that of their node.
fn turns_of_both(unit: &TypedUnit, a: NodeId, d: NodeId) -> Option<u64>
    requires left { IsExpression unit.now a }
    requires right { IsExpression unit.now d }
    ensures { IfSome result (λ k. with_own_turn true (sum_of_turns (turns_of (expression_at unit.now a)) (turns_of (expression_at unit.now d))) ≡ Some k) }
{
    let left = unit.plain_turns(a)?;
    let right = unit.plain_turns(d)?;
    Some(u64::from(left) + u64::from(right) + 1)
}

/// The turns of a plain operand, and that of its node.
fn turns_of_one(unit: &TypedUnit, a: NodeId) -> Option<u64>
    requires { IsExpression unit.now a }
    ensures { IfSome result (λ k. with_own_turn true (turns_of (expression_at unit.now a)) ≡ Some k) }
{
    let turns = unit.plain_turns(a)?;
    Some(u64::from(turns) + 1)
}

/// How many turns a full expression takes that is plain but for a store at its root.
fn whole_turns(unit: &TypedUnit, n: NodeId) -> Option<u64>
    requires { IsExpression unit.now n }
    ensures { IfSome result (λ k. whole_turns (expression_at unit.now n) ≡ Some k) }
{
    match unit.node(n) {
        Typed::Assign(a, d) => turns_of_both(unit, a, d),
        Typed::CompoundAssign(_, _, a, d) => turns_of_both(unit, a, d),
        Typed::PointerAssign(_, a, d) => turns_of_both(unit, a, d),
        Typed::Increment(_, a) => turns_of_one(unit, a),
        _ => {
            let turns = unit.plain_turns(n)?;
            Some(u64::from(turns))
        }
    }
}

/// The value of a full expression that is plain but for a store at its root, which is made, by the node itself; `None` where it is not
/// found: then nothing has changed.
fn perform_node(
    alloc: Global,
    unit: &TypedUnit,
    plan: &Plan,
    world: &mut World,
    n: NodeId,
) -> Option<Found>
    requires codes { AreCodes unit.now plan.now }
    requires known { AreKnown unit.now }
    requires there { IsExpression unit.now n }
    ensures some { IfSome result (λ v. Performs unit.now world.old world.new (expression_at unit.now n) (found_worth v)) }
    ensures none { IfNone result (world.new ≡ world.old) }
{
    match unit.node(n) {
        Typed::Assign(a, d) => assign(alloc, unit, plan, world, n, a, d),
        Typed::CompoundAssign(op, at, a, d) => {
            compound_assign(alloc, unit, plan, world, n, op, at, a, d)
        }
        Typed::PointerAssign(sign, a, d) => pointer_assign(alloc, unit, plan, world, n, sign, a, d),
        Typed::Increment(o, a) => increment(alloc, unit, plan, world, n, o, a),
        _ => value(alloc, unit, plan, world, n),
    }
}

/// The same by what is known of the node.
fn perform(
    alloc: Global,
    unit: &TypedUnit,
    plan: &Plan,
    world: &mut World,
    n: NodeId,
) -> Option<Found>
    requires codes { AreCodes unit.now plan.now }
    requires known { AreKnown unit.now }
    requires there { IsExpression unit.now n }
    ensures some { IfSome result (λ v. Performs unit.now world.old world.new (expression_at unit.now n) (found_worth v)) }
    ensures none { IfNone result (world.new ≡ world.old) }
{
    let code = plan.code(n);
    match code {
        Code::Assign(x, right) => assign_integer(alloc, unit, plan, world, n, x, right),
        Code::AssignPointer(x, d) => assign_pointer(alloc, unit, plan, world, n, x, d),
        Code::Increment(x, o, back) => increment_integer(alloc, unit, plan, world, n, x, o, back),
        Code::Compound(x, right, op, at, back) => compound_integer(
            alloc, unit, plan, world, n, x, right, op, at, back,
        ),
        _ => perform_node(alloc, unit, plan, world, n),
    }
}

/// The value that was found, behind a pointer, if there is memory for it.
fn kept_value(alloc: Global, v: Found) -> Option<Kept>
    ensures { IfSome result (λ k. worth_of k ≡ found_worth v) }
{
    let Ok(kept) = Kept::new(alloc, got(v)) else {
        return None;
    };
    Some(kept)
}

impl Moment {
    /// Evaluates a full expression at once, where it is plain but for a store at its root, where nothing stops it, and
    /// where its turns are within the bound. `None` where that is not so: then nothing has changed.
    #[inline(always)]
    pub(crate) fn whole(
        &mut self,
        unit: &TypedUnit,
        plan: &Plan,
        n: NodeId,
        bound: u64,
    ) -> Option<Got>
        requires codes { AreCodes unit.now plan.now }
        requires runnable { IsRunnable unit.now }
        requires there { IsExpression unit.now n }
        ensures some { IfSome result (λ v. Evaluated unit.now n (worth_of v) self.old self.new) }
        ensures cut { IfSome result (λ v. Cut unit.now n self.old self.new) }
        ensures more { IfSome result (λ v. self.old.taken < self.new.taken) }
        ensures within { IfSome result (λ v. self.new.taken ≤ bound) }
        ensures none { IfNone result (self.new ≡ self.old) }
        ensures kept { self.new ≡ record self.old { world = self.new.world; taken = self.new.taken } }
    {
        let turns = whole_turns(unit, n)?;
        if turns == 0 {
            return None;
        }
        if self.taken > bound {
            return None;
        }
        if turns > bound - self.taken {
            return None;
        }
        let v = perform(self.alloc, unit, plan, &mut self.world, n)?;
        self.taken += turns;
        Some(got(v))
    }

    /// Takes a statement's turn, and evaluates its full expression at once, as `whole` does. `None` where that is not so: then
    /// no turn was taken, and nothing has changed.
    #[inline(always)]
    pub(crate) fn whole_next(
        &mut self,
        unit: &TypedUnit,
        plan: &Plan,
        n: NodeId,
        bound: u64,
    ) -> Option<Got>
        requires codes { AreCodes unit.now plan.now }
        requires runnable { IsRunnable unit.now }
        requires there { IsExpression unit.now n }
        requires room { self.old.taken < bound }
        ensures some { IfSome result (λ v. EvaluatedNext unit.now n (worth_of v) self.old self.new) }
        ensures cut { IfSome result (λ v. CutNext unit.now n self.old self.new) }
        ensures more { IfSome result (λ v. self.old.taken + 1 < self.new.taken) }
        ensures within { IfSome result (λ v. self.new.taken ≤ bound) }
        ensures none { IfNone result (self.new ≡ self.old) }
        ensures kept { self.new ≡ record self.old { world = self.new.world; taken = self.new.taken } }
    {
        let before = self.taken;
        self.taken = before + 1;
        match self.whole(unit, plan, n, bound) {
            Some(v) => Some(v),
            None => {
                self.taken = before;
                None
            }
        }
    }

    /// Takes a statement's turn, and compares its controlling expression with 0 at once (C17 6.8.4.1p2), where that is plain,
    /// nothing stops it, and its turns are within the bound. `None` where that is not so: then no turn was taken, and nothing
    /// has changed.
    pub(crate) fn decide_next(
        &mut self,
        unit: &TypedUnit,
        plan: &Plan,
        n: NodeId,
        bound: u64,
    ) -> Option<bool>
        requires codes { AreCodes unit.now plan.now }
        requires runnable { IsRunnable unit.now }
        requires there { IsExpression unit.now n }
        requires room { self.old.taken < bound }
        ensures some { IfSome result (λ t. TestedNext unit.now n t self.old self.new) }
        ensures cut { IfSome result (λ t. CutNext unit.now n self.old self.new) }
        ensures more { IfSome result (λ t. self.old.taken + 1 ≤ self.new.taken) }
        ensures within { IfSome result (λ t. self.new.taken ≤ bound) }
        ensures none { IfNone result (self.new ≡ self.old) }
        ensures kept { self.new ≡ record self.old { taken = self.new.taken } }
    {
        let turns = plain_turns(unit, n)?;
        if turns >= bound - self.taken {
            return None;
        }
        let v = value(self.alloc, unit, plan, &self.world, n)?;
        let t = is_true(&self.world, v)?;
        self.taken += 1;
        self.taken += turns;
        Some(t)
    }

    /// Compares the controlling expression of a loop with 0 at once (C17 6.8.5p4), as `decide_next` does that of a statement, without a
    /// turn of its own. `None` where that is not possible: then nothing has changed.
    pub(crate) fn decide_now(
        &mut self,
        unit: &TypedUnit,
        plan: &Plan,
        n: NodeId,
        bound: u64,
    ) -> Option<bool>
        requires codes { AreCodes unit.now plan.now }
        requires runnable { IsRunnable unit.now }
        requires there { IsExpression unit.now n }
        requires room { self.old.taken < bound }
        ensures some { IfSome result (λ t. TestedNow unit.now n t self.old self.new) }
        ensures cut { IfSome result (λ t. Cut unit.now n self.old self.new) }
        ensures more { IfSome result (λ t. self.old.taken < self.new.taken) }
        ensures within { IfSome result (λ t. self.new.taken ≤ bound) }
        ensures none { IfNone result (self.new ≡ self.old) }
        ensures kept { self.new ≡ record self.old { taken = self.new.taken } }
    {
        let k = plain_turns(unit, n)?;
        if k == 0 {
            return None;
        }
        if k > bound - self.taken {
            return None;
        }
        let v = value(self.alloc, unit, plan, &self.world, n)?;
        let yes = is_true(&self.world, v)?;
        self.taken += k;
        Some(yes)
    }

    /// Takes a statement's turn, and evaluates the expression of a `return` at once, converted as if by assignment (C17 6.8.6.4p3),
    /// where that is plain, nothing stops it, and its turns are within the bound. `None` where that is not so: then no turn was
    /// taken, and nothing has changed.
    pub(crate) fn hand_next(
        &mut self,
        unit: &TypedUnit,
        plan: &Plan,
        n: NodeId,
        bound: u64,
    ) -> Option<Kept>
        requires codes { AreCodes unit.now plan.now }
        requires runnable { IsRunnable unit.now }
        requires there { IsExpression unit.now n }
        requires room { self.old.taken < bound }
        ensures some { IfSome result (λ v. HandedNext unit.now n (worth_of v) self.old self.new) }
        ensures cut { IfSome result (λ v. CutNext unit.now n self.old self.new) }
        ensures more { IfSome result (λ v. self.old.taken + 1 ≤ self.new.taken) }
        ensures within { IfSome result (λ v. self.new.taken ≤ bound) }
        ensures none { IfNone result (self.new ≡ self.old) }
        ensures kept { self.new ≡ record self.old { taken = self.new.taken } }
    {
        let turns = plain_turns(unit, n)?;
        if turns >= bound - self.taken {
            return None;
        }
        let v = value(self.alloc, unit, plan, &self.world, n)?;
        let z = converted_value(unit, n, v)?;
        let kept = kept_value(self.alloc, z)?;
        self.taken += 1;
        self.taken += turns;
        Some(kept)
    }

    /// What an operand gives against nodes that only read, and how many turns it takes, where it is plain, nothing stops it, and its
    /// turns are within the bound; what it reads stands in the notes.
    pub(crate) fn operand(
        &self,
        unit: &TypedUnit,
        plan: &Plan,
        n: NodeId,
        bound: u64,
        notes: &mut Vec<Access>,
    ) -> Option<(Got, u64)>
        requires codes { AreCodes unit.now plan.now }
        requires runnable { IsRunnable unit.now }
        requires there { IsExpression unit.now n }
        ensures some { IfSome result (λ r. EvaluatedAmong unit.now n (worth_of r.0) notes.new.items self.now (record self.now { taken = self.now.taken + r.1 })) }
        ensures cut { IfSome result (λ r. CutAmong unit.now n self.now (record self.now { taken = self.now.taken + r.1 })) }
        ensures reads { IfSome result (λ r. AllRead notes.new.items) }
        ensures more { IfSome result (λ r. 1 ≤ r.1) }
        ensures within { IfSome result (λ r. self.now.taken + r.1 ≤ bound) }
    {
        let taking = plain_turns(unit, n)?;
        if taking == 0 {
            return None;
        }
        if self.taken > bound {
            return None;
        }
        if taking > bound - self.taken {
            return None;
        }
        notes.clear();
        let v = value_by(self.alloc, unit, plan, &self.world, n, true, notes)?;
        Some((got(v), taking))
    }

    /// So many turns are taken.
    pub(crate) fn take(&mut self, turns: u64)
        requires { self.old.taken + turns < 2 ^ 64 }
        ensures { self.new ≡ record self.old { taken = self.old.taken + turns } }
    {
        self.taken += turns;
    }
}
