// Implicit conversions of operands (C17 6.3), made by the node above.
ghost use Rattle.pv_typed.specs.NodeTrees.{expression_at, IsExpression};
ghost use Rattle.pv_eval.specs.States.{then_do};
ghost use Rattle.pv_eval.specs.OfRuns.{accepted_value, with_conversion};
ghost use Rattle.pv_eval.specs.Operations.{Accepts, act};
ghost use Rattle.pv_world.specs.Coming.{worth_of};
ghost use Rattle.pv_eval.specs.Runnable.{IsRunnable};
ghost use Rattle.pv_eval.specs.Moments.{state_of, Always, Came, Needed, Stays};
ghost use Rattle.pv_eval.specs.Pieces.{needed_of};

use crate::failure::Failure;
use crate::moment::Moment;
use pv_tree::NodeId;
use pv_typed::{Typed, TypedUnit};
use pv_world::Got;

/// An argument: converted, and there.
pub(crate) fn hand(
    unit: &TypedUnit,
    child: NodeId,
    v: Got,
    moment: &mut Moment,
) -> Result<Got, Failure>
    requires runnable { IsRunnable unit.now }
    requires there { IsExpression unit.now child }
    ensures came { Always unit.now moment.old (λ b out es. Came (accepted_value b (expression_at unit.now child) (worth_of v) (state_of moment.old out es)) result (state_of moment.new out es)) }
    ensures stays { Stays moment.old moment.new }
{
    hand_on(unit, child, unit.line_of(child), v, moment)
}

/// The value of an expression, converted where that is implied, and handed on by the node or statement in this line.
#[tactic(auto, using(crate::proofs::Cases::stays_both))]
pub(crate) fn hand_on(
    unit: &TypedUnit,
    child: NodeId,
    line: u32,
    v: Got,
    moment: &mut Moment,
) -> Result<Got, Failure>
    requires runnable { IsRunnable unit.now }
    requires there { IsExpression unit.now child }
    ensures came { Always unit.now moment.old (λ b out es. Came (then_do (with_conversion b (expression_at unit.now child) (worth_of v) (state_of moment.old out es)) (λ v s. act b line (Accepts v) s)) result (state_of moment.new out es)) }
    ensures stays { Stays moment.old moment.new }
{
    match convert(unit, child, v, moment) {
        Ok(v) => moment.accept(unit, line, v),
        Err(e) => Err(e),
    }
}

/// The value of an expression, converted where that is implied, as a number.
#[tactic(auto, using(crate::proofs::Cases::stays_both))]
pub(crate) fn need(
    unit: &TypedUnit,
    child: NodeId,
    v: Got,
    moment: &mut Moment,
) -> Result<i128, Failure>
    requires runnable { IsRunnable unit.now }
    requires there { IsExpression unit.now child }
    ensures needed { Always unit.now moment.old (λ b out es. Needed (needed_of b (expression_at unit.now child) (worth_of v) (state_of moment.old out es)) result (state_of moment.new out es)) }
    ensures stays { Stays moment.old moment.new }
{
    match convert(unit, child, v, moment) {
        Ok(v) => moment.need(unit.line_of(child), v),
        Err(e) => Err(e),
    }
}

/// The value of an operand, converted where its node is an implicit conversion.
#[inline(always)]
pub(crate) fn convert(
    unit: &TypedUnit,
    child: NodeId,
    v: Got,
    moment: &mut Moment,
) -> Result<Got, Failure>
    requires runnable { IsRunnable unit.now }
    requires there { IsExpression unit.now child }
    ensures came { Always unit.now moment.old (λ b out es. Came (with_conversion b (expression_at unit.now child) (worth_of v) (state_of moment.old out es)) result (state_of moment.new out es)) }
    ensures stays { Stays moment.old moment.new }
{
    match unit.node(child) {
        Typed::Convert(a) => moment.convert(
            unit,
            unit.line_of(child),
            true,
            unit.type_of(a),
            unit.type_of(child),
            v,
        ),
        _ => Ok(v),
    }
}
