// What a node does with the value of its first operand.
ghost use Rattle.std.specs.Prelude.{◌≡◌, ◌≤◌, length, IfOk};
ghost use Rattle.pv_typed.specs.TypedTree.{form_of};
ghost use Rattle.pv_typed.specs.Nodes.{form_in};
ghost use Rattle.pv_typed.specs.Children.{HasOperands};
ghost use Rattle.pv_typed.specs.Tables.{nodes};
ghost use Rattle.pv_typed.specs.NodeTrees.{expression_at, IsExpression};
ghost use Rattle.pv_eval.specs.Sequenced.{operand};
ghost use Rattle.pv_seq.specs.Rivals.{below};
ghost use Rattle.pv_world.specs.Coming.{worth_of};
ghost use Rattle.pv_eval.specs.Runnable.{IsRunnable};
ghost use Rattle.pv_eval.specs.Moments.{Stays};
ghost use Rattle.pv_eval.specs.Ahead.{MoveFitsOr};
ghost use Rattle.pv_eval.specs.Pieces.{LedBy, LedAnywhere, with_first, calculates_one};

use crate::choosing::resume_choice;
use crate::compound::{increment, read_place};
use crate::converting::convert;
use crate::failure::Failure;
use crate::frames::{Frame, Move, Stage};
use crate::moment::Moment;
use crate::operands::second_operand;
use crate::pointed_calls::begin_pointed;
use crate::values::give;
use pv_num::UnOp;
use pv_seq::Journal;
use pv_tree::NodeId;
use pv_typed::{Typed, TypedUnit};
use pv_world::Got;

/// What a node does with the value of its first operand.
pub(crate) fn resume_first(
    unit: &TypedUnit,
    n: NodeId,
    x: Typed,
    v: Got,
    journal: &mut Journal,
    moment: &mut Moment,
) -> Result<Move, Failure>
    requires runnable { IsRunnable unit.now }
    requires there { IsExpression unit.now n }
    requires form { form_of (expression_at unit.now n) ≡ form_in unit.now.lists (nodes unit.now) x }
    requires operands { HasOperands unit.now.rows unit.now.lists n.0 x }
    requires some { 1 ≤ length journal.old }
    ensures led { LedBy unit.now (with_first unit.now n x (worth_of v)) result journal.old journal.new moment.old moment.new }
    ensures stays { Stays moment.old moment.new }
    ensures below { IfOk result (λ m. below journal.new ≡ below journal.old) }
    ensures some { IfOk result (λ m. 1 ≤ length journal.new) }
    ensures fits { MoveFitsOr unit.now result }
{
    let line = unit.line_of(n);
    match x {
        Typed::Convert(_) => Ok(Move::Give(v)),
        Typed::ArrayPointer(_) => Ok(Move::Give(v)),
        Typed::Address(_) => Ok(Move::Give(v)),
        Typed::Not(_) => give(moment.negate(unit, line, v)),
        Typed::Member(_, offset) => give(moment.select(unit, line, offset, v)),
        Typed::Arrow(_, offset) => give(moment.select(unit, line, offset, v)),
        Typed::Cast(a) => give(moment.convert(
            unit,
            line,
            false,
            unit.type_of(a),
            unit.type_of(n),
            v,
        )),
        Typed::Read(a) => give(moment.read(unit, line, a, &v, journal)),
        Typed::Unary(op, a) => unary(unit, line, op, n, a, v, moment),
        Typed::Indirection(_) => {
            let nothing = moment.is_none(unit, n);
            give(moment.follow(unit, line, nothing, v))
        }
        Typed::CallPointer(a, l) => begin_pointed(unit, n, a, l, v, moment),
        Typed::MemberOfValue(_, offset) => give(moment.part(
            unit,
            line,
            unit.type_of(n),
            offset,
            v,
        )),
        Typed::CompoundAssign(_, _, a, d) => read_place(unit, n, line, x, a, d, v, journal, moment),
        Typed::PointerAssign(_, a, d) => read_place(unit, n, line, x, a, d, v, journal, moment),
        Typed::Increment(o, a) => increment(unit, n, line, o, a, v, journal, moment),
        Typed::LogicalAnd(_, _) => resume_choice(unit, n, x, v, journal, moment),
        Typed::LogicalOr(_, _) => resume_choice(unit, n, x, v, journal, moment),
        Typed::Conditional(_, _, _) => resume_choice(unit, n, x, v, journal, moment),
        Typed::Comma(_, d) => {
            journal.sequence_point();
            Ok(Move::Later(
                d,
                Frame {
                    node: n,
                    stage: Stage::Later(true),
                },
            ))
        }
        _ => match second_operand(x) {
            Some(d) => Ok(Move::Operand(
                d,
                Frame {
                    node: n,
                    stage: Stage::Second(v),
                },
            )),
            None => Ok(Move::Give(v)),
        },
    }
}

/// An operator on one integer (C17 6.5.3.3), once its operand is evaluated.
#[tactic(auto, using(crate::proofs::Cases::stays_both))]
pub(crate) fn unary(
    unit: &TypedUnit,
    line: u32,
    op: UnOp,
    n: NodeId,
    a: NodeId,
    v: Got,
    moment: &mut Moment,
) -> Result<Move, Failure>
    requires runnable { IsRunnable unit.now }
    requires node { IsExpression unit.now n }
    requires operand { IsExpression unit.now a }
    ensures led { LedAnywhere unit.now (calculates_one unit.now n line op a (worth_of v)) result moment.old moment.new }
    ensures stays { Stays moment.old moment.new }
    ensures fits { MoveFitsOr unit.now result }
{
    let v = match convert(unit, a, v, moment) {
        Ok(v) => v,
        Err(e) => return Err(e),
    };
    let kind = moment.kind(unit, n);
    give(moment.calculate_one(unit, line, op, kind, v))
}
