// Calls by a value (C17 6.5.2.2): what such a call has begins with the value of what is called, and its arguments stand behind it.
ghost use Rattle.std.specs.Prelude.{◌≡◌, ◌≤◌, length, true, map, [], ◌∷◌};
ghost use Rattle.pv_typed.specs.TypedTree.{form_of, CallPointer};
ghost use Rattle.pv_typed.specs.Nodes.{arguments_in};
ghost use Rattle.pv_typed.specs.Children.{HasKinds};
ghost use Rattle.pv_typed.specs.Tables.{nodes};
ghost use Rattle.pv_typed.specs.NodeTrees.{expression_at, list_at, IsExpression};
ghost use Rattle.pv_world.specs.Coming.{worth_of};
ghost use Rattle.pv_eval.specs.Runnable.{IsRunnable};
ghost use Rattle.pv_eval.specs.Moments.{Stays};
ghost use Rattle.pv_eval.specs.Ahead.{MoveFitsOr};
ghost use Rattle.pv_eval.specs.Pieces.{LedAnywhere, through, with_pointed};

use crate::converting::hand;
use crate::failure::Failure;
use crate::frames::{Frame, Move, Stage};
use crate::moment::Moment;
use pv_tree::{ListId, NodeId};
use pv_typed::TypedUnit;
use pv_world::Got;

/// The next argument of a call by a value, or the call: what it has begins with that value.
fn next_pointed(
    unit: &TypedUnit,
    n: NodeId,
    a: NodeId,
    l: ListId,
    got: Vec<Got>,
    moment: &mut Moment,
) -> Result<Move, Failure>
    requires runnable { IsRunnable unit.now }
    requires there { IsExpression unit.now n }
    requires callee { IsExpression unit.now a }
    requires form { form_of (expression_at unit.now n) ≡ CallPointer (expression_at unit.now a) (arguments_in (nodes unit.now) (list_at unit.now l)) }
    requires list { HasKinds unit.now.rows unit.now.lists n.0 true l }
    requires some { 1 ≤ length got.items }
    ensures led { LedAnywhere unit.now (through unit.now n a l (map worth_of got.items)) result moment.old moment.new }
    ensures stays { Stays moment.old moment.new }
    ensures fits { MoveFitsOr unit.now result }
{
    let children = unit.children(l);
    let i = got.len() - 1;
    if i < children.len() {
        return Ok(Move::Operand(
            children[i],
            Frame {
                node: n,
                stage: Stage::Argument(got),
            },
        ));
    }
    let mut got = got;
    let callee = got.remove(0);
    let line = unit.line_of(n);
    match moment.find(unit, line, unit.type_of(a), &callee) {
        Ok(f) => Ok(Move::Ask(f, got, line)),
        Err(e) => Err(e),
    }
}

/// What a call by a value does with this value: its arguments come behind it.
pub(crate) fn begin_pointed(
    unit: &TypedUnit,
    n: NodeId,
    a: NodeId,
    l: ListId,
    v: Got,
    moment: &mut Moment,
) -> Result<Move, Failure>
    requires runnable { IsRunnable unit.now }
    requires there { IsExpression unit.now n }
    requires callee { IsExpression unit.now a }
    requires form { form_of (expression_at unit.now n) ≡ CallPointer (expression_at unit.now a) (arguments_in (nodes unit.now) (list_at unit.now l)) }
    requires list { HasKinds unit.now.rows unit.now.lists n.0 true l }
    ensures led { LedAnywhere unit.now (through unit.now n a l (worth_of v ∷ [])) result moment.old moment.new }
    ensures stays { Stays moment.old moment.new }
    ensures fits { MoveFitsOr unit.now result }
{
    let mut got = Vec::new(moment.alloc);
    if got.push(v).is_err() {
        return Err(Failure::NoMemory);
    }
    next_pointed(unit, n, a, l, got, moment)
}

/// What a call by a value does with a value, where it has these: the first one is that of what is called, and each other one
/// that of an argument.
#[tactic(auto, using(crate::proofs::Cases::stays_both))]
pub(crate) fn resume_pointed(
    unit: &TypedUnit,
    n: NodeId,
    a: NodeId,
    l: ListId,
    got: Vec<Got>,
    v: Got,
    moment: &mut Moment,
) -> Result<Move, Failure>
    requires runnable { IsRunnable unit.now }
    requires there { IsExpression unit.now n }
    requires callee { IsExpression unit.now a }
    requires form { form_of (expression_at unit.now n) ≡ CallPointer (expression_at unit.now a) (arguments_in (nodes unit.now) (list_at unit.now l)) }
    requires list { HasKinds unit.now.rows unit.now.lists n.0 true l }
    requires more { length got.items ≤ length (list_at unit.now l) }
    ensures led { LedAnywhere unit.now (with_pointed unit.now n a l got.items (worth_of v)) result moment.old moment.new }
    ensures stays { Stays moment.old moment.new }
    ensures fits { MoveFitsOr unit.now result }
{
    let i = got.len();
    if i == 0 {
        return begin_pointed(unit, n, a, l, v, moment);
    }
    let children = unit.children(l);
    let v = match hand(unit, children[i - 1], v, moment) {
        Ok(v) => v,
        Err(e) => return Err(e),
    };
    let mut got = got;
    if got.push(v).is_err() {
        return Err(Failure::NoMemory);
    }
    next_pointed(unit, n, a, l, got, moment)
}
