// Calls of the program's functions whose arguments are plain (C17 6.5.2.2): all their arguments at once, without a machine, where nothing stops them.
ghost use Rattle.std.specs.Prelude.{◌≡◌, ◌<◌, ◌≤◌, [], true, map, IfSome};
ghost use Rattle.pv_typed.specs.TypedTree.{Call, NoArguments, form_of};
ghost use Rattle.pv_typed.specs.Nodes.{arguments_in};
ghost use Rattle.pv_typed.specs.Children.{HasKinds};
ghost use Rattle.pv_typed.specs.Known.{AreKnown};
ghost use Rattle.pv_typed.specs.Tables.{nodes};
ghost use Rattle.pv_typed.specs.NodeTrees.{expression_at, list_at, IsExpression};
ghost use Rattle.pv_seq.specs.Frames.{AllRead};
ghost use Rattle.pv_world.specs.Coming.{worth_of};
ghost use Rattle.pv_eval.specs.Runnable.{IsRunnable};
ghost use Rattle.pv_eval.specs.Plainly.{HandsNoting, ComesToArguments};
ghost use Rattle.pv_eval.specs.Codes.{AreCodes};
ghost use Rattle.pv_eval.specs.AtOnce.{CallsAmong, CutAmong};

use crate::moment::Moment;
use crate::plain_coded::value_by;
use crate::plain_conversions::converted_value;
use crate::plain_stores::got;
use crate::plain_whole::plain_turns;
use crate::plan::Plan;
use pv_seq::Access;
use pv_tree::{ListId, NodeId};
use pv_typed::TypedUnit;
use pv_world::{Got, World};
use std::alloc::Global;

/// The list that is kept for the arguments of a call, empty.
#[inline(always)]
fn lent(kept: &mut Vec<Got>, alloc: Global) -> Vec<Got>
    ensures { result.items ≡ [] }
{
    let mut values = std::mem::replace(kept, Vec::new(alloc));
    values.clear();
    values
}

/// The value of an argument, converted as if by assignment (C17 6.5.2.2p7), where it is plain, nothing stops it, and its turns are within the bound
/// behind so many that were taken; and how many are taken then. What it reads is noted.
fn argument(
    alloc: Global,
    unit: &TypedUnit,
    plan: &Plan,
    world: &World,
    a: NodeId,
    taken: u64,
    bound: u64,
    notes: &mut Vec<Access>,
) -> Option<(Got, u64)>
    requires codes { AreCodes unit.now plan.now }
    requires known { AreKnown unit.now }
    requires there { IsExpression unit.now a }
    requires room { taken ≤ bound }
    ensures some { IfSome result (λ r. HandsNoting unit.now world.now (expression_at unit.now a) taken r.1 (worth_of r.0) notes.old.items notes.new.items) }
    ensures more { IfSome result (λ r. taken ≤ r.1) }
    ensures within { IfSome result (λ r. r.1 ≤ bound) }
{
    let turns = plain_turns(unit, a)?;
    if turns > bound - taken {
        return None;
    }
    let v = value_by(alloc, unit, plan, world, a, true, notes)?;
    let z = converted_value(unit, a, v)?;
    Some((got(z), taken + turns))
}

/// The values of the arguments of a call, and how many turns are taken once they are there, behind so many and that of the call; as of one argument.
fn arguments(
    alloc: Global,
    unit: &TypedUnit,
    plan: &Plan,
    world: &World,
    n: NodeId,
    f: u32,
    l: ListId,
    taken: u64,
    bound: u64,
    notes: &mut Vec<Access>,
    kept: &mut Vec<Got>,
) -> Option<(Vec<Got>, u64)>
    requires codes { AreCodes unit.now plan.now }
    requires known { AreKnown unit.now }
    requires there { IsExpression unit.now n }
    requires form { form_of (expression_at unit.now n) ≡ Call f (arguments_in (nodes unit.now) (list_at unit.now l)) }
    requires list { HasKinds unit.now.rows unit.now.lists n.0 true l }
    requires room { taken < bound }
    requires quiet { notes.old.items ≡ [] }
    ensures some { IfSome result (λ r. ComesToArguments unit.now world.now (expression_at unit.now n) f (map worth_of r.0.items) NoArguments notes.new.items taken r.1) }
    ensures more { IfSome result (λ r. taken < r.1) }
    ensures within { IfSome result (λ r. r.1 ≤ bound) }
{
    let children = unit.children(l);
    let mut values = lent(kept, alloc);
    let mut at = taken + 1;
    let mut i = 0;
    'each: while i < children.len() {
        let Some((v, behind)) = argument(alloc, unit, plan, world, children[i], at, bound, notes)
        else {
            return None;
        };
        if values.push(v).is_err() {
            return None;
        }
        at = behind;
        i += 1;
    }
    Some((values, at))
}

impl Moment {
    /// The values of the arguments of a call of this function, converted as if by assignment (C17 6.5.2.2p7), against nodes that only read, and how
    /// many turns are taken once they are there, that of the call among them: where they are plain, nothing stops them, and these turns are within
    /// the bound. What they read stands in the notes; the list that is kept is taken for them.
    pub(crate) fn call_arguments(
        &self,
        unit: &TypedUnit,
        plan: &Plan,
        n: NodeId,
        f: u32,
        l: ListId,
        bound: u64,
        notes: &mut Vec<Access>,
        kept: &mut Vec<Got>,
    ) -> Option<(Vec<Got>, u64)>
        requires codes { AreCodes unit.now plan.now }
        requires runnable { IsRunnable unit.now }
        requires there { IsExpression unit.now n }
        requires form { form_of (expression_at unit.now n) ≡ Call f (arguments_in (nodes unit.now) (list_at unit.now l)) }
        requires list { HasKinds unit.now.rows unit.now.lists n.0 true l }
        ensures some { IfSome result (λ r. CallsAmong unit.now n f (map worth_of r.0.items) notes.new.items self.now (record self.now { taken = r.1 })) }
        ensures cut { IfSome result (λ r. CutAmong unit.now n self.now (record self.now { taken = r.1 })) }
        ensures reads { IfSome result (λ r. AllRead notes.new.items) }
        ensures more { IfSome result (λ r. self.now.taken < r.1) }
        ensures within { IfSome result (λ r. r.1 ≤ bound) }
    {
        if self.taken >= bound {
            return None;
        }
        notes.clear();
        arguments(
            self.alloc,
            unit,
            plan,
            &self.world,
            n,
            f,
            l,
            self.taken,
            bound,
            notes,
            kept,
        )
    }

    /// So many turns are taken in all.
    pub(crate) fn take_up_to(&mut self, taken: u64)
        ensures { self.new ≡ record self.old { taken = taken } }
    {
        self.taken = taken;
    }
}
