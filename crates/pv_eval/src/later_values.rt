// What a node does with the value of an operand after a sequence point.
ghost use Rattle.std.specs.Prelude.{List};
ghost use Rattle.pv_typed.specs.Children.{HasOperands};
ghost use Rattle.pv_typed.specs.NodeTrees.{IsExpression};
ghost use Rattle.pv_eval.specs.OfRuns.{work};
ghost use Rattle.pv_seq.specs.Sequencing.{Open};
ghost use Rattle.pv_seq.specs.Rivals.{top};
ghost use Rattle.pv_eval.specs.Steps.{Calling};
ghost use Rattle.pv_eval.specs.Operations.{Tests};
ghost use Rattle.pv_world.specs.Coming.{worth_of};
ghost use Rattle.pv_eval.specs.Runnable.{IsRunnable};
ghost use Rattle.pv_eval.specs.Moments.{state_of, Always, Stays};
ghost use Rattle.pv_eval.specs.Ahead.{Led, MoveFitsOr};
ghost use Rattle.pv_eval.specs.Pieces.{LedAnywhere, with_later};

use crate::converting::convert;
use crate::failure::Failure;
use crate::frames::Move;
use crate::moment::Moment;
use crate::values::{give, truth};
use pv_tree::NodeId;
use pv_typed::{Typed, TypedUnit};
use pv_world::Got;

/// What a node does with the value of an operand after a sequence point.
pub(crate) fn resume_later(
    unit: &TypedUnit,
    n: NodeId,
    x: Typed,
    side: bool,
    w: Got,
    moment: &mut Moment,
) -> Result<Move, Failure>
    requires runnable { IsRunnable unit.now }
    requires there { IsExpression unit.now n }
    requires operands { HasOperands unit.now.rows unit.now.lists n.0 x }
    ensures led { LedAnywhere unit.now (with_later unit.now n x side (worth_of w)) result moment.old moment.new }
    ensures stays { Stays moment.old moment.new }
    ensures fits { MoveFitsOr unit.now result }
{
    match x {
        Typed::LogicalAnd(_, _) => tested(unit, unit.line_of(n), w, moment),
        Typed::LogicalOr(_, _) => tested(unit, unit.line_of(n), w, moment),
        Typed::Conditional(_, d, e) => {
            if side {
                give(convert(unit, d, w, moment))
            } else {
                give(convert(unit, e, w, moment))
            }
        }
        _ => Ok(Move::Give(w)),
    }
}

/// A value compared with 0, as the node's value.
pub(crate) fn tested(
    unit: &TypedUnit,
    line: u32,
    v: Got,
    moment: &mut Moment,
) -> Result<Move, Failure>
    requires runnable { IsRunnable unit.now }
    ensures led { Always unit.now moment.old (λ b out es. (call : Calling) (js : List Open) → Led b call unit.now (work b line (Tests (worth_of v)) (top js) (state_of moment.old out es)) result js (state_of moment.new out es)) }
    ensures stays { Stays moment.old moment.new }
    ensures fits { MoveFitsOr unit.now result }
{
    match moment.test(unit, line, v) {
        Ok(t) => Ok(Move::Give(truth(t))),
        Err(e) => Err(e),
    }
}
