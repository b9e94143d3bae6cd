// What a node does with the value of its second operand.
ghost use Rattle.std.specs.Prelude.{◌≡◌, ◌≤◌, length, IfOk};
ghost use Rattle.pv_typed.specs.TypedTree.{form_of};
ghost use Rattle.pv_typed.specs.Nodes.{form_in};
ghost use Rattle.pv_typed.specs.Children.{HasOperands};
ghost use Rattle.pv_typed.specs.Tables.{nodes};
ghost use Rattle.pv_typed.specs.NodeTrees.{expression_at, IsExpression};
ghost use Rattle.pv_seq.specs.Rivals.{below};
ghost use Rattle.pv_world.specs.Coming.{worth_of};
ghost use Rattle.pv_eval.specs.Runnable.{IsRunnable};
ghost use Rattle.pv_eval.specs.Moments.{Stays};
ghost use Rattle.pv_eval.specs.Ahead.{MoveFitsOr};
ghost use Rattle.pv_eval.specs.Pieces.{LedBy, LedAnywhere, with_second, calculates_right, calculates, compares_right, compares, assigns};

use crate::converting::convert;
use crate::failure::Failure;
use crate::frames::Move;
use crate::moment::Moment;
use crate::values::{give, minus, pointer_type, source, unequal};
use pv_num::BinOp;
use pv_seq::Journal;
use pv_tree::NodeId;
use pv_typed::{Typed, TypedUnit};
use pv_world::Got;

/// What a node does with the value of its second operand.
pub(crate) fn resume_second(
    unit: &TypedUnit,
    n: NodeId,
    x: Typed,
    v: Got,
    w: Got,
    journal: &mut Journal,
    moment: &mut Moment,
) -> Result<Move, Failure>
    requires runnable { IsRunnable unit.now }
    requires there { IsExpression unit.now n }
    requires form { form_of (expression_at unit.now n) ≡ form_in unit.now.lists (nodes unit.now) x }
    requires operands { HasOperands unit.now.rows unit.now.lists n.0 x }
    requires some { 1 ≤ length journal.old }
    ensures led { LedBy unit.now (with_second unit.now n x (worth_of v) (worth_of w)) result journal.old journal.new moment.old moment.new }
    ensures stays { Stays moment.old moment.new }
    ensures below { IfOk result (λ m. below journal.new ≡ below journal.old) }
    ensures some { IfOk result (λ m. 1 ≤ length journal.new) }
    ensures fits { MoveFitsOr unit.now result }
{
    let line = unit.line_of(n);
    match x {
        Typed::Arithmetic(op, a, d) => arithmetic(unit, line, op, a, d, v, w, moment),
        Typed::Assign(a, d) => assign(unit, line, a, d, v, w, journal, moment),
        Typed::PointerDifference(a, _) => give(moment.subtract(unit, line, unit.type_of(a), v, w)),
        Typed::Subscript(a, d) => {
            let first = moment.is_pointer(unit, a);
            let t = pointer_type(unit, first, a, d);
            give(moment.shift(unit, line, false, first, t, v, w))
        }
        Typed::PointerOrder(op, _, _) => give(moment.order(unit, line, op, v, w)),
        Typed::PointerSum(sign, a, _) => {
            let first = moment.is_pointer(unit, a);
            give(moment.shift(unit, line, minus(sign), first, unit.type_of(n), v, w))
        }
        Typed::PointerEquality(op, a, d) => equality(unit, line, op, a, d, v, w, moment),
        _ => Ok(Move::Give(w)),
    }
}

/// An operator on two integers (C17 6.5.5 to 6.5.12), once both operands are evaluated.
#[tactic(auto, using(crate::proofs::Cases::stays_both))]
pub(crate) fn arithmetic(
    unit: &TypedUnit,
    line: u32,
    op: BinOp,
    a: NodeId,
    d: NodeId,
    v: Got,
    w: Got,
    moment: &mut Moment,
) -> Result<Move, Failure>
    requires runnable { IsRunnable unit.now }
    requires left { IsExpression unit.now a }
    requires right { IsExpression unit.now d }
    ensures led { LedAnywhere unit.now (calculates unit.now line op a d (worth_of v) (worth_of w)) result moment.old moment.new }
    ensures stays { Stays moment.old moment.new }
    ensures fits { MoveFitsOr unit.now result }
{
    let v = match convert(unit, a, v, moment) {
        Ok(v) => v,
        Err(e) => return Err(e),
    };
    arithmetic_right(unit, line, op, a, d, v, w, moment)
}

/// The same, once the left operand is converted.
#[tactic(auto, using(crate::proofs::Cases::stays_both))]
pub(crate) fn arithmetic_right(
    unit: &TypedUnit,
    line: u32,
    op: BinOp,
    a: NodeId,
    d: NodeId,
    v: Got,
    w: Got,
    moment: &mut Moment,
) -> Result<Move, Failure>
    requires runnable { IsRunnable unit.now }
    requires left { IsExpression unit.now a }
    requires right { IsExpression unit.now d }
    ensures led { LedAnywhere unit.now (calculates_right unit.now line op a d (worth_of v) (worth_of w)) result moment.old moment.new }
    ensures stays { Stays moment.old moment.new }
    ensures fits { MoveFitsOr unit.now result }
{
    let w = match convert(unit, d, w, moment) {
        Ok(w) => w,
        Err(e) => return Err(e),
    };
    let kind = moment.kind(unit, a);
    give(moment.calculate(unit, line, op, kind, v, w))
}

/// An assignment (C17 6.5.16.1), once both operands are evaluated.
#[tactic(auto, using(crate::proofs::Cases::stays_both))]
pub(crate) fn assign(
    unit: &TypedUnit,
    line: u32,
    a: NodeId,
    d: NodeId,
    place: Got,
    w: Got,
    journal: &mut Journal,
    moment: &mut Moment,
) -> Result<Move, Failure>
    requires runnable { IsRunnable unit.now }
    requires left { IsExpression unit.now a }
    requires right { IsExpression unit.now d }
    requires some { 1 ≤ length journal.old }
    ensures led { LedBy unit.now (assigns unit.now line a d (worth_of place) (worth_of w)) result journal.old journal.new moment.old moment.new }
    ensures stays { Stays moment.old moment.new }
    ensures below { IfOk result (λ m. below journal.new ≡ below journal.old) }
    ensures some { IfOk result (λ m. 1 ≤ length journal.new) }
    ensures fits { MoveFitsOr unit.now result }
{
    let w = match convert(unit, d, w, moment) {
        Ok(w) => w,
        Err(e) => return Err(e),
    };
    let from = source(unit, d, &w);
    give(moment.write(unit, line, a, &place, w, from, journal))
}

/// The equality of two pointers (C17 6.5.9), once both operands are evaluated.
#[tactic(auto, using(crate::proofs::Cases::stays_both))]
pub(crate) fn equality(
    unit: &TypedUnit,
    line: u32,
    op: BinOp,
    a: NodeId,
    d: NodeId,
    v: Got,
    w: Got,
    moment: &mut Moment,
) -> Result<Move, Failure>
    requires runnable { IsRunnable unit.now }
    requires left { IsExpression unit.now a }
    requires right { IsExpression unit.now d }
    ensures led { LedAnywhere unit.now (compares unit.now line op a d (worth_of v) (worth_of w)) result moment.old moment.new }
    ensures stays { Stays moment.old moment.new }
    ensures fits { MoveFitsOr unit.now result }
{
    let v = match convert(unit, a, v, moment) {
        Ok(v) => v,
        Err(e) => return Err(e),
    };
    equality_right(unit, line, op, d, v, w, moment)
}

/// The same, once the left operand is converted.
#[tactic(auto, using(crate::proofs::Cases::stays_both))]
pub(crate) fn equality_right(
    unit: &TypedUnit,
    line: u32,
    op: BinOp,
    d: NodeId,
    v: Got,
    w: Got,
    moment: &mut Moment,
) -> Result<Move, Failure>
    requires runnable { IsRunnable unit.now }
    requires right { IsExpression unit.now d }
    ensures led { LedAnywhere unit.now (compares_right unit.now line op d (worth_of v) (worth_of w)) result moment.old moment.new }
    ensures stays { Stays moment.old moment.new }
    ensures fits { MoveFitsOr unit.now result }
{
    let w = match convert(unit, d, w, moment) {
        Ok(w) => w,
        Err(e) => return Err(e),
    };
    give(moment.equal(unit, line, unequal(op), v, w))
}
