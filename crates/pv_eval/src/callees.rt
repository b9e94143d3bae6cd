// Which function a value points to, that is called (C17 6.5.2.2p1, 6.3.2.3p8).
ghost use Rattle.std.specs.Prelude.{◌≡◌, ◌<◌, length, IfOk, IsTrue, Some};
ghost use Rattle.pv_types.specs.Known.{tree};
ghost use Rattle.pv_typed.specs.TypedTree.{is_function};
ghost use Rattle.pv_world.specs.Coming.{worth_of, DidAndTold};
ghost use Rattle.pv_eval.specs.Callees.{may_call};
ghost use Rattle.pv_eval.specs.Moments.{by_number};
ghost use Rattle.pv_eval.specs.Runnable.{IsRunnable};
ghost use Rattle.pv_eval.specs.Sizes.{setting_of};
ghost use Rattle.pv_eval.specs.TypeForms.{pointed_to};
ghost use Rattle.pv_eval.specs.Operations.{Finds, does};

use crate::types::pointee;
use pv_typed::TypedUnit;
use pv_types::{Term, TypeId};
use pv_watch::What;
use pv_world::{Failure as WorldFailure, Got, World, fail, pointer_of, unfit, unlike};

/// Whether it is a function type.
#[tactic(auto, using(crate::proofs::Numbers::outside))]
fn is_function(unit: &TypedUnit, t: TypeId) -> bool
    ensures value { result ≡ is_function (tree unit.now.known t.0) }
    ensures known { IsTrue result → t.0 < length unit.now.known.terms }
{
    let types = unit.types();
    if types.has(t) {
        matches!(types.view(t), Term::Function { .. })
    } else {
        false
    }
}

/// Whether a function may be called as one of this type.
fn may_call(unit: &TypedUnit, t: TypeId, f: u32) -> bool
    requires runnable { IsRunnable unit.now }
    ensures value { result ≡ may_call (setting_of unit.now) (tree unit.now.known t.0) (Some f) }
    ensures known { IsTrue result → f < length unit.now.functions }
{
    is_function(unit, t) && f < unit.functions() && unit.types().compatible(unit.function(f).t, t)
}

/// The same of what a type points to; a type that points to nothing is no function's.
fn may_call_by(unit: &TypedUnit, t: TypeId, f: u32) -> bool
    requires runnable { IsRunnable unit.now }
    ensures value { result ≡ may_call (setting_of unit.now) (pointed_to (tree unit.now.known t.0)) (Some f) }
    ensures known { IsTrue result → f < length unit.now.functions }
{
    match pointee(unit.types(), t) {
        Some(to) => may_call(unit, to, f),
        None => false,
    }
}

/// The function that a value of this type points to.
pub(crate) fn find(
    world: &mut World,
    unit: &TypedUnit,
    t: TypeId,
    v: &Got,
    told: &mut Vec<What>,
) -> Result<u32, WorldFailure>
    requires runnable { IsRunnable unit.now }
    ensures did { DidAndTold by_number (does (setting_of unit.now) (Finds (pointed_to (tree unit.now.known t.0)) (worth_of v.now))) result world.old world.new told.old told.new }
    ensures known { IfOk result (λ f. f < length unit.now.functions) }
{
    if !world.knows(v) {
        return Err(unfit(told));
    }
    let blame = world.blame(pointer_of(v));
    match world.callee(v, told) {
        Ok(Some(f)) => {
            if may_call_by(unit, t, f) {
                Ok(f)
            } else {
                Err(fail(told, unlike(), Some(blame)))
            }
        }
        Ok(None) => Err(fail(told, unlike(), Some(blame))),
        Err(e) => Err(e),
    }
}
