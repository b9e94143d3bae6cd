// The stack of nodes that wait, and one step.
ghost use Rattle.std.specs.Prelude.{◌≡◌, ◌+◌, ◌<◌, ◌≤◌, ◌^◌, [], length, All, true, false, IfOk, IfErr, IsTrue};
ghost use Rattle.pv_typed.specs.TypedTree.{form_of};
ghost use Rattle.pv_typed.specs.Trees.{takes_turn};
ghost use Rattle.pv_typed.specs.Tables.{Stored};
ghost use Rattle.pv_typed.specs.NodeTrees.{expression_at, IsExpression};
ghost use Rattle.pv_eval.specs.States.{Setting, State};
ghost use Rattle.pv_seq.specs.Sequencing.{open_against};
ghost use Rattle.pv_seq.specs.Rivals.{top, below};
ghost use Rattle.pv_eval.specs.Steps.{Calling, takes};
ghost use Rattle.pv_world.specs.Coming.{worth_of};
ghost use Rattle.pv_eval.specs.Runnable.{IsRunnable};
ghost use Rattle.pv_eval.specs.Moments.{Stays};
ghost use Rattle.pv_world.specs.declared.got.Got.{Got};
ghost use Rattle.pv_eval.specs.Machines.{is_due_at, is_value, is_call_at, turns_at};
ghost use Rattle.pv_eval.specs.MachineSteps.{KeepsSetting};
ghost use Rattle.pv_eval.specs.Ahead.{ahead, Kept, FrameFits, MoveFits, MoveFitsOr, NowFits, NowFitsOr, Matched, MatchedOr};
ghost use Rattle.pv_eval.specs.Pieces.{LedBy, with_frame};
ghost use Rattle.pv_eval.specs.Progress.{ahead_by, GoesOn, GoesOnByStep};

use crate::arguments::resume_argument;
use crate::beginning::begin;
use crate::compound::resume_both;
use crate::failure::Failure;
use crate::first_values::resume_first;
use crate::frames::{Frame, Move, Now, Stage};
use crate::later_values::resume_later;
use crate::moment::Moment;
use crate::operands::uncounted;
use crate::second_values::resume_second;
use pv_object::Value;
use pv_seq::Journal;
use pv_tree::NodeId;
use pv_typed::TypedUnit;
use pv_world::Got;
use std::alloc::Global;

/// Where a move leads.
#[inline(always)]
pub(crate) fn follow(
    frames: &mut Vec<Frame>,
    journal: &mut Journal,
    led: Move,
) -> Result<Now, Failure>
    requires { 1 ≤ length journal.old }
    ensures kept { (b : Setting) (call : Calling) (u : Stored) (s : State) → Kept b call u (ahead_by b call u frames.old.items journal.old led s) result frames.new.items journal.new s }
    ensures fits { (u : Stored) → MoveFits u led → NowFitsOr u result journal.new }
    ensures frames { (u : Stored) → MoveFits u led → All (FrameFits u) frames.old.items → All (FrameFits u) frames.new.items }
    ensures matched { length journal.old ≡ length frames.old.items + 1 → MatchedOr result frames.new.items journal.new }
    ensures goes { ((v : Got) → led ≡ Move.Give v → ⊥) → IfOk result (λ p. is_value p ≡ false) }
{
    match led {
        Move::Give(v) => Ok(Now::Value(v)),
        Move::Operand(n, frame) => {
            if frames.push(frame).is_err() {
                return Err(Failure::NoMemory);
            }
            if journal.enter(true).is_err() {
                return Err(Failure::NoMemory);
            }
            Ok(Now::Due(n))
        }
        Move::Later(n, frame) => {
            if frames.push(frame).is_err() {
                return Err(Failure::NoMemory);
            }
            if journal.enter(false).is_err() {
                return Err(Failure::NoMemory);
            }
            Ok(Now::Due(n))
        }
        Move::Ask(f, args, line) => Ok(Now::Asked(f, args, line)),
    }
}

/// Down to the first node that takes a turn.
pub(crate) fn descend(
    unit: &TypedUnit,
    frames: &mut Vec<Frame>,
    journal: &mut Journal,
    n: NodeId,
) -> Result<NodeId, Failure>
    requires there { IsExpression unit.now n }
    requires some { 1 ≤ length journal.old }
    requires fresh { top journal.old ≡ open_against (top journal.old).foes }
    requires frames { All (FrameFits unit.now) frames.old.items }
    requires matched { Matched frames.old.items journal.old }
    ensures same { (b : Setting) (call : Calling) (s : State) → IfOk result (λ m. ahead b call unit.now frames.old.items journal.old (Now.Due n) s ≡ ahead b call unit.now frames.new.items journal.new (Now.Due m) s) }
    ensures there { IfOk result (λ m. IsExpression unit.now m) }
    ensures counts { IfOk result (λ m. takes (takes_turn (expression_at unit.now m)) (form_of (expression_at unit.now m)) ≡ true) }
    ensures fresh { IfOk result (λ m. top journal.new ≡ open_against (top journal.new).foes) }
    ensures frames { IfOk result (λ m. All (FrameFits unit.now) frames.new.items) }
    ensures matched { IfOk result (λ m. Matched frames.new.items journal.new) }
    ensures memory { IfErr result (λ e. e ≡ Failure.NoMemory) }
{
    let mut n = n;
    'down: while let Some(a) = uncounted(unit, n) {
        let frame = Frame {
            node: n,
            stage: Stage::First,
        };
        if !wait(frames, journal, a, frame) {
            return Err(Failure::NoMemory);
        }
        n = a;
    }
    Ok(n)
}

/// A node waits for an operand beside those before it; false where there is no memory.
pub(crate) fn wait(frames: &mut Vec<Frame>, journal: &mut Journal, a: NodeId, frame: Frame) -> bool
    requires { 1 ≤ length journal.old }
    ensures kept { (b : Setting) (call : Calling) (u : Stored) (s : State) → IsTrue result → ahead_by b call u frames.old.items journal.old (Move.Operand a frame) s ≡ ahead b call u frames.new.items journal.new (Now.Due a) s }
    ensures frames { (u : Stored) → FrameFits u frame → All (FrameFits u) frames.old.items → All (FrameFits u) frames.new.items }
    ensures matched { IsTrue result → length journal.old ≡ length frames.old.items + 1 → Matched frames.new.items journal.new }
    ensures fresh { IsTrue result → top journal.new ≡ open_against (top journal.new).foes }
    ensures some { IsTrue result → 1 ≤ length journal.new }
{
    if frames.push(frame).is_err() {
        return false;
    }
    journal.enter(true).is_ok()
}

/// What a frame does with the value that it waited for.
pub(crate) fn resume(
    unit: &TypedUnit,
    frame: Frame,
    v: Got,
    journal: &mut Journal,
    moment: &mut Moment,
) -> Result<Move, Failure>
    requires runnable { IsRunnable unit.now }
    requires there { FrameFits unit.now frame }
    requires some { 1 ≤ length journal.old }
    ensures led { LedBy unit.now (with_frame unit.now frame (worth_of v)) result journal.old journal.new moment.old moment.new }
    ensures stays { Stays moment.old moment.new }
    ensures below { IfOk result (λ m. below journal.new ≡ below journal.old) }
    ensures some { IfOk result (λ m. 1 ≤ length journal.new) }
    ensures fits { MoveFitsOr unit.now result }
{
    let n = frame.node;
    let x = unit.node(n);
    match frame.stage {
        Stage::First => resume_first(unit, n, x, v, journal, moment),
        Stage::Second(first) => resume_second(unit, n, x, first, v, journal, moment),
        Stage::Later(side) => resume_later(unit, n, x, side, v, moment),
        Stage::Argument(got) => resume_argument(unit, n, x, got, v, journal, moment),
        Stage::Both(read) => resume_both(unit, n, x, read.take(), v, journal, moment),
    }
}

/// Operations, until a turn is due or the expression has ended.
#[tactic(auto, using(crate::proofs::Cases::stays_both))]
pub(crate) fn unwind(
    unit: &TypedUnit,
    frames: &mut Vec<Frame>,
    journal: &mut Journal,
    moment: &mut Moment,
    v: Got,
) -> Result<Now, Failure>
    requires runnable { IsRunnable unit.now }
    requires frames { All (FrameFits unit.now) frames.old.items }
    requires matched { Matched frames.old.items journal.old }
    ensures kept { GoesOn unit.now (Now.Value v) result frames.old.items frames.new.items journal.old journal.new moment.old moment.new }
    ensures stays { Stays moment.old moment.new }
    ensures fits { NowFitsOr unit.now result journal.new }
    ensures frames { IfOk result (λ p. All (FrameFits unit.now) frames.new.items) }
    ensures matched { MatchedOr result frames.new.items journal.new }
    ensures ended { IfOk result (λ p. is_value p ≡ true → frames.new.items ≡ []) }
{
    let mut v = v;
    'frames: while let Some(frame) = frames.pop() {
        journal.leave();
        match resume(unit, frame, v, journal, moment) {
            Ok(led) => match led {
                Move::Give(w) => v = w,
                led => return follow(frames, journal, led),
            },
            Err(e) => return Err(e),
        }
    }
    Ok(Now::Value(v))
}

/// Takes the turn that is due, if one is, and makes operations until another is due or the expression has ended.
pub(crate) fn step(
    alloc: Global,
    unit: &TypedUnit,
    frames: &mut Vec<Frame>,
    journal: &mut Journal,
    moment: &mut Moment,
    place: Now,
) -> Result<Now, Failure>
    requires runnable { IsRunnable unit.now }
    requires fits { NowFits unit.now place journal.old }
    requires going { is_call_at place ≡ false }
    requires frames { All (FrameFits unit.now) frames.old.items }
    requires matched { Matched frames.old.items journal.old }
    requires room { is_due_at place ≡ true → moment.old.taken < 10 ^ 8 }
    ensures kept { GoesOnByStep unit.now place result frames.old.items frames.new.items journal.old journal.new moment.old moment.new }
    ensures fits { NowFitsOr unit.now result journal.new }
    ensures frames { IfOk result (λ p. All (FrameFits unit.now) frames.new.items) }
    ensures matched { MatchedOr result frames.new.items journal.new }
    ensures ended { IfOk result (λ p. is_value p ≡ true → frames.new.items ≡ []) }
    ensures taken { moment.new.taken ≡ moment.old.taken + turns_at place }
    ensures setting { KeepsSetting moment.old moment.new }
{
    match place {
        Now::Asked(_, _, _) => unreachable!(),
        Now::Value(v) => unwind(unit, frames, journal, moment, v),
        Now::Due(n) => match descend(unit, frames, journal, n) {
            Ok(n) => match begin(alloc, unit, n, moment) {
                Ok(led) => match led {
                    Move::Give(v) => unwind(unit, frames, journal, moment, v),
                    led => follow(frames, journal, led),
                },
                Err(e) => Err(e),
            },
            Err(e) => {
                moment.tick();
                Err(e)
            }
        },
    }
}
