// The first operation of a node.
ghost use Rattle.std.specs.Prelude.{◌≡◌, ℕ, ◌+◌, ◌<◌, ◌^◌, None, true};
ghost use Rattle.pv_typed.specs.TypedTree.{form_of, line_of};
ghost use Rattle.pv_typed.specs.Trees.{takes_turn};
ghost use Rattle.pv_typed.specs.Nodes.{form_in};
ghost use Rattle.pv_typed.specs.Formed.{NamesIn};
ghost use Rattle.pv_typed.specs.Children.{HasOperands};
ghost use Rattle.pv_typed.specs.Tables.{nodes};
ghost use Rattle.pv_typed.specs.NodeTrees.{expression_at, IsExpression};
ghost use Rattle.pv_eval.specs.Steps.{takes};
ghost use Rattle.pv_eval.specs.Runnable.{IsRunnable};
ghost use Rattle.pv_eval.specs.Moments.{Stays, Follows};
ghost use Rattle.pv_eval.specs.Ahead.{MoveFitsOr, first_operand_of};
ghost use Rattle.pv_eval.specs.Pieces.{LedInTurn, LedAfterTurn};

use crate::arguments::next_argument;
use crate::failure::Failure;
use crate::frames::{Frame, Move, Stage};
use crate::library::begin_library;
use crate::moment::Moment;
use crate::operands::first_operand;
use crate::values::{give, integer, size};
use pv_tree::NodeId;
use pv_typed::{Typed, TypedUnit};
use std::alloc::Global;

/// The operation of a node without operands, which took its turn.
pub(crate) fn begin_leaf(
    alloc: Global,
    unit: &TypedUnit,
    n: NodeId,
    line: u32,
    x: Typed,
    moment: &mut Moment,
) -> Result<Move, Failure>
    requires runnable { IsRunnable unit.now }
    requires none { first_operand_of x ≡ None }
    requires there { IsExpression unit.now n }
    requires form { form_of (expression_at unit.now n) ≡ form_in unit.now.lists (nodes unit.now) x }
    requires line { line ≡ line_of (expression_at unit.now n) }
    requires operands { HasOperands unit.now.rows unit.now.lists n.0 x }
    requires named { NamesIn unit.now x }
    ensures led { LedAfterTurn unit.now line x result moment.old moment.new }
    ensures stays { Stays moment.old moment.new }
    ensures fits { MoveFitsOr unit.now result }
{
    match x {
        Typed::Constant(k) => Ok(Move::Give(integer(k as i128))),
        Typed::Sizeof(k) => Ok(Move::Give(size(k))),
        Typed::LargeConstant(k) => Ok(Move::Give(size(k))),
        Typed::Object(o) => give(moment.object(unit, line, o)),
        Typed::String(l) => give(moment.literal(unit, line, l)),
        Typed::Function(f) => give(moment.function(unit, line, f)),
        Typed::Call(f, l) => Ok(next_argument(unit, n, line, f, l, Vec::new(alloc))),
        Typed::LibraryCall(f, l) => begin_library(alloc, unit, n, line, f, l, moment),
        _ => unreachable!(),
    }
}

/// The first operation of a node that takes a turn.
pub(crate) fn begin(
    alloc: Global,
    unit: &TypedUnit,
    n: NodeId,
    moment: &mut Moment,
) -> Result<Move, Failure>
    requires runnable { IsRunnable unit.now }
    requires there { IsExpression unit.now n }
    requires counts { takes (takes_turn (expression_at unit.now n)) (form_of (expression_at unit.now n)) ≡ true }
    requires room { moment.old.taken < 10 ^ 8 }
    ensures led { LedInTurn unit.now n result moment.old moment.new }
    ensures taken { moment.new.taken ≡ moment.old.taken + 1 }
    ensures total { (n : ℕ) → Follows moment.old n → Follows moment.new n }
    ensures sides { moment.new.sides ≡ moment.old.sides }
    ensures fits { MoveFitsOr unit.now result }
{
    moment.tick();
    let x = unit.node(n);
    match first_operand(x) {
        Some(a) => Ok(Move::Operand(
            a,
            Frame {
                node: n,
                stage: Stage::First,
            },
        )),
        None => begin_leaf(alloc, unit, n, unit.line_of(n), x, moment),
    }
}
