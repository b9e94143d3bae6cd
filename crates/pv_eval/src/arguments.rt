// Arguments of calls (C17 6.5.2.2).
ghost use Rattle.std.specs.Prelude.{◌≡◌, ◌<◌, ◌≤◌, length, true, map, IfOk};
ghost use Rattle.pv_typed.specs.TypedTree.{form_of, line_of, Call};
ghost use Rattle.pv_typed.specs.Nodes.{form_in, arguments_in};
ghost use Rattle.pv_typed.specs.Formed.{NamesIn};
ghost use Rattle.pv_typed.specs.Children.{HasOperands, HasKinds};
ghost use Rattle.pv_typed.specs.Tables.{nodes};
ghost use Rattle.pv_typed.specs.NodeTrees.{expression_at, list_at, IsExpression};
ghost use Rattle.pv_eval.specs.States.{Setting, State};
ghost use Rattle.pv_seq.specs.Sequencing.{Open};
ghost use Rattle.pv_seq.specs.Rivals.{below};
ghost use Rattle.pv_eval.specs.Steps.{Calling};
ghost use Rattle.pv_eval.specs.OfRuns.{ev_call};
ghost use Rattle.pv_world.specs.Coming.{worth_of};
ghost use Rattle.pv_eval.specs.Runnable.{IsRunnable};
ghost use Rattle.pv_eval.specs.Moments.{Stays};
ghost use Rattle.pv_eval.specs.Frames.{arguments_count};
ghost use Rattle.pv_eval.specs.Ahead.{means, MoveFits, MoveFitsOr};
ghost use Rattle.pv_eval.specs.Pieces.{LedBy, with_argument, arguments_left};

use crate::converting::hand;
use crate::failure::Failure;
use crate::frames::{Frame, Move, Stage};
use crate::library::resume_library;
use crate::moment::Moment;
use crate::pointed_calls::resume_pointed;
use pv_seq::Journal;
use pv_tree::{ListId, NodeId};
use pv_typed::{Typed, TypedUnit};
use pv_world::Got;

/// The next argument, or the call.
#[tactic(auto, using(crate::proofs::LibraryCalls::count_length))]
pub(crate) fn next_argument(
    unit: &TypedUnit,
    n: NodeId,
    line: u32,
    f: u32,
    l: ListId,
    got: Vec<Got>,
) -> Move
    requires there { IsExpression unit.now n }
    requires form { form_of (expression_at unit.now n) ≡ Call f (arguments_in (nodes unit.now) (list_at unit.now l)) }
    requires line { line ≡ line_of (expression_at unit.now n) }
    requires list { HasKinds unit.now.rows unit.now.lists n.0 true l }
    requires function { f < length unit.now.functions }
    ensures means { (b : Setting) (call : Calling) (j : Open) (s : State) → means b call unit.now result j s ≡ ev_call b call line f (map worth_of got.items) (arguments_left unit.now l (length got.items)) j s }
    ensures fits { MoveFits unit.now result }
{
    let children = unit.children(l);
    let i = got.len();
    if i < children.len() {
        Move::Operand(
            children[i],
            Frame {
                node: n,
                stage: Stage::Argument(got),
            },
        )
    } else {
        Move::Ask(f, got, line)
    }
}

/// What a call does with the value of an argument.
#[tactic(auto, using(crate::proofs::LibraryCalls::count_length, crate::proofs::Cases::stays_both))]
pub(crate) fn resume_argument(
    unit: &TypedUnit,
    n: NodeId,
    x: Typed,
    got: Vec<Got>,
    v: Got,
    journal: &mut Journal,
    moment: &mut Moment,
) -> Result<Move, Failure>
    requires runnable { IsRunnable unit.now }
    requires there { IsExpression unit.now n }
    requires form { form_of (expression_at unit.now n) ≡ form_in unit.now.lists (nodes unit.now) x }
    requires operands { HasOperands unit.now.rows unit.now.lists n.0 x }
    requires named { NamesIn unit.now x }
    requires some { 1 ≤ length journal.old }
    requires more { length got.items < arguments_count (form_in unit.now.lists (nodes unit.now) x) }
    ensures led { LedBy unit.now (with_argument unit.now n x got.items (worth_of v)) result journal.old journal.new moment.old moment.new }
    ensures stays { Stays moment.old moment.new }
    ensures below { IfOk result (λ m. below journal.new ≡ below journal.old) }
    ensures some { IfOk result (λ m. 1 ≤ length journal.new) }
    ensures fits { MoveFitsOr unit.now result }
{
    match x {
        Typed::Call(f, l) => {
            let children = unit.children(l);
            let i = got.len();
            if i < children.len() {
                let mut got = got;
                let v = match hand(unit, children[i], v, moment) {
                    Ok(v) => v,
                    Err(e) => return Err(e),
                };
                if got.push(v).is_err() {
                    return Err(Failure::NoMemory);
                }
                Ok(next_argument(unit, n, unit.line_of(n), f, l, got))
            } else {
                unreachable!()
            }
        }
        Typed::CallPointer(a, l) => resume_pointed(unit, n, a, l, got, v, moment),
        Typed::LibraryCall(_, _) => resume_library(unit, n, x, got, v, journal, moment),
        _ => unreachable!(),
    }
}
