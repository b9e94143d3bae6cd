// Nodes that choose by their first operand (C17 6.5.13 to 6.5.15).
ghost use Rattle.std.specs.Prelude.{◌≡◌, ◌≤◌, length, IfOk};
ghost use Rattle.pv_typed.specs.TypedTree.{form_of};
ghost use Rattle.pv_typed.specs.Nodes.{form_in};
ghost use Rattle.pv_typed.specs.Children.{HasOperands};
ghost use Rattle.pv_typed.specs.Tables.{nodes};
ghost use Rattle.pv_typed.specs.NodeTrees.{expression_at, IsExpression};
ghost use Rattle.pv_seq.specs.Rivals.{below};
ghost use Rattle.pv_world.specs.Coming.{worth_of};
ghost use Rattle.pv_eval.specs.Runnable.{IsRunnable};
ghost use Rattle.pv_eval.specs.Moments.{Stays};
ghost use Rattle.pv_eval.specs.Ahead.{MoveFitsOr, IsChoice};
ghost use Rattle.pv_eval.specs.Pieces.{LedBy, with_first};

use crate::failure::Failure;
use crate::frames::Move;
use crate::moment::Moment;
use crate::values::{later, truth};
use pv_seq::Journal;
use pv_tree::NodeId;
use pv_typed::{Typed, TypedUnit};
use pv_world::Got;

/// What a node that chooses does with the value of its first operand.
pub(crate) fn resume_choice(
    unit: &TypedUnit,
    n: NodeId,
    x: Typed,
    v: Got,
    journal: &mut Journal,
    moment: &mut Moment,
) -> Result<Move, Failure>
    requires runnable { IsRunnable unit.now }
    requires there { IsExpression unit.now n }
    requires choice { IsChoice x }
    requires form { form_of (expression_at unit.now n) ≡ form_in unit.now.lists (nodes unit.now) x }
    requires operands { HasOperands unit.now.rows unit.now.lists n.0 x }
    requires some { 1 ≤ length journal.old }
    ensures led { LedBy unit.now (with_first unit.now n x (worth_of v)) result journal.old journal.new moment.old moment.new }
    ensures stays { Stays moment.old moment.new }
    ensures below { IfOk result (λ m. below journal.new ≡ below journal.old) }
    ensures some { IfOk result (λ m. 1 ≤ length journal.new) }
    ensures fits { MoveFitsOr unit.now result }
{
    let line = unit.line_of(n);
    let chosen = match moment.test(unit, line, v) {
        Ok(chosen) => chosen,
        Err(e) => return Err(e),
    };
    journal.sequence_point();
    match x {
        Typed::LogicalAnd(_, d) => {
            if chosen {
                Ok(Move::Later(d, later(n, true)))
            } else {
                Ok(Move::Give(truth(false)))
            }
        }
        Typed::LogicalOr(_, d) => {
            if chosen {
                Ok(Move::Give(truth(true)))
            } else {
                Ok(Move::Later(d, later(n, true)))
            }
        }
        Typed::Conditional(_, d, e) => {
            if chosen {
                Ok(Move::Later(d, later(n, true)))
            } else {
                Ok(Move::Later(e, later(n, false)))
            }
        }
        _ => unreachable!(),
    }
}
