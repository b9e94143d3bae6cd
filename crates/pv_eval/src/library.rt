// Calls of the library (C17 7), whose arguments are evaluated as those of any call.
ghost use Rattle.std.specs.Prelude.{◌≡◌, ◌<◌, ◌≤◌, length, true, IfOk};
ghost use Rattle.pv_typed.specs.TypedTree.{form_of, line_of, LibraryCall};
ghost use Rattle.pv_typed.specs.Nodes.{form_in, arguments_in};
ghost use Rattle.pv_typed.specs.Children.{HasOperands, HasKinds};
ghost use Rattle.pv_typed.specs.Tables.{nodes};
ghost use Rattle.pv_typed.specs.NodeTrees.{expression_at, list_at, IsExpression};
ghost use Rattle.pv_seq.specs.Rivals.{below};
ghost use Rattle.pv_world.specs.Coming.{worth_of};
ghost use Rattle.pv_eval.specs.Runnable.{IsRunnable};
ghost use Rattle.pv_eval.specs.Moments.{Stays};
ghost use Rattle.pv_eval.specs.Frames.{arguments_count};
ghost use Rattle.pv_eval.specs.Ahead.{MoveFitsOr, IsLibraryCall};
ghost use Rattle.pv_eval.specs.Pieces.{LedBy, LedByLibrary, with_argument, asks_with};

use crate::converting::hand;
use crate::failure::Failure;
use crate::frames::{Frame, Move, Stage};
use crate::moment::Moment;
use crate::values::give;
use pv_library::Library;
use pv_seq::Journal;
use pv_tree::{ListId, NodeId};
use pv_typed::{Typed, TypedUnit};
use pv_world::Got;
use std::alloc::Global;

/// The next argument of a call of the library, or the call, behind a sequence point (C17 6.5.2.2p10).
#[tactic(auto, using(crate::proofs::LibraryCalls::count_length))]
fn next_or_ask(
    unit: &TypedUnit,
    n: NodeId,
    line: u32,
    f: Library,
    l: ListId,
    got: Vec<Got>,
    journal: &mut Journal,
    moment: &mut Moment,
) -> Result<Move, Failure>
    requires runnable { IsRunnable unit.now }
    requires there { IsExpression unit.now n }
    requires form { form_of (expression_at unit.now n) ≡ LibraryCall f (arguments_in (nodes unit.now) (list_at unit.now l)) }
    requires line { line ≡ line_of (expression_at unit.now n) }
    requires list { HasKinds unit.now.rows unit.now.lists n.0 true l }
    requires some { 1 ≤ length journal.old }
    ensures led { LedBy unit.now (asks_with unit.now line f l got.items) result journal.old journal.new moment.old moment.new }
    ensures stays { Stays moment.old moment.new }
    ensures below { IfOk result (λ m. below journal.new ≡ below journal.old) }
    ensures some { IfOk result (λ m. 1 ≤ length journal.new) }
    ensures fits { MoveFitsOr unit.now result }
{
    let children = unit.children(l);
    let i = got.len();
    if i < children.len() {
        Ok(Move::Operand(
            children[i],
            Frame {
                node: n,
                stage: Stage::Argument(got),
            },
        ))
    } else {
        journal.sequence_point();
        give(moment.ask(unit, line, f, l, &got))
    }
}

/// The first argument of a call of the library, or the call.
#[tactic(auto, using(crate::proofs::LibraryCalls::count_length))]
pub(crate) fn begin_library(
    alloc: Global,
    unit: &TypedUnit,
    n: NodeId,
    line: u32,
    f: Library,
    l: ListId,
    moment: &mut Moment,
) -> Result<Move, Failure>
    requires runnable { IsRunnable unit.now }
    requires there { IsExpression unit.now n }
    requires line { line ≡ line_of (expression_at unit.now n) }
    requires form { form_of (expression_at unit.now n) ≡ LibraryCall f (arguments_in (nodes unit.now) (list_at unit.now l)) }
    requires list { HasKinds unit.now.rows unit.now.lists n.0 true l }
    ensures led { LedByLibrary unit.now line f l result moment.old moment.new }
    ensures stays { Stays moment.old moment.new }
    ensures fits { MoveFitsOr unit.now result }
{
    let got = Vec::new(alloc);
    let children = unit.children(l);
    let i = got.len();
    if i < children.len() {
        Ok(Move::Operand(
            children[i],
            Frame {
                node: n,
                stage: Stage::Argument(got),
            },
        ))
    } else {
        give(moment.ask(unit, line, f, l, &got))
    }
}

/// What a call of the library does with the value of an argument.
#[tactic(auto, using(crate::proofs::LibraryCalls::count_length, crate::proofs::Cases::stays_both))]
pub(crate) fn resume_library(
    unit: &TypedUnit,
    n: NodeId,
    x: Typed,
    got: Vec<Got>,
    v: Got,
    journal: &mut Journal,
    moment: &mut Moment,
) -> Result<Move, Failure>
    requires runnable { IsRunnable unit.now }
    requires there { IsExpression unit.now n }
    requires form { form_of (expression_at unit.now n) ≡ form_in unit.now.lists (nodes unit.now) x }
    requires operands { HasOperands unit.now.rows unit.now.lists n.0 x }
    requires some { 1 ≤ length journal.old }
    requires more { length got.items < arguments_count (form_in unit.now.lists (nodes unit.now) x) }
    requires library { IsLibraryCall x }
    ensures led { LedBy unit.now (with_argument unit.now n x got.items (worth_of v)) result journal.old journal.new moment.old moment.new }
    ensures stays { Stays moment.old moment.new }
    ensures below { IfOk result (λ m. below journal.new ≡ below journal.old) }
    ensures some { IfOk result (λ m. 1 ≤ length journal.new) }
    ensures fits { MoveFitsOr unit.now result }
{
    match x {
        Typed::LibraryCall(f, l) => {
            let children = unit.children(l);
            let i = got.len();
            if i < children.len() {
                let mut got = got;
                let v = match hand(unit, children[i], v, moment) {
                    Ok(v) => v,
                    Err(e) => return Err(e),
                };
                if got.push(v).is_err() {
                    return Err(Failure::NoMemory);
                }
                next_or_ask(unit, n, unit.line_of(n), f, l, got, journal, moment)
            } else {
                unreachable!()
            }
        }
        _ => unreachable!(),
    }
}
