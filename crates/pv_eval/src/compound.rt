// Operators that read an lvalue and write it back (C17 6.5.2.4, 6.5.3.1, 6.5.16.2).
ghost use Rattle.std.specs.Prelude.{◌≡◌, ◌≤◌, length, None, true, IfOk, if◌then◌else◌};
ghost use Rattle.pv_world.specs.Worths.{pointer_of};
ghost use Rattle.pv_eval.specs.Accesses.{access_to};
ghost use Rattle.pv_typed.specs.TypedTree.{form_of, line_of, type_of};
ghost use Rattle.pv_typed.specs.Nodes.{form_in};
ghost use Rattle.pv_typed.specs.Children.{HasOperands};
ghost use Rattle.pv_typed.specs.Tables.{nodes};
ghost use Rattle.pv_typed.specs.NodeTrees.{expression_at, IsExpression};
ghost use Rattle.pv_seq.specs.Sequencing.{rivals};
ghost use Rattle.pv_seq.specs.Rivals.{top, below};
ghost use Rattle.pv_eval.specs.Steps.{is_down, is_after};
ghost use Rattle.pv_eval.specs.OfRuns.{combining, stepping};
ghost use Rattle.pv_eval.specs.TypeForms.{lvalue};
ghost use Rattle.pv_eval.specs.Operations.{Writes};
ghost use Rattle.pv_world.specs.Coming.{worth_of};
ghost use Rattle.pv_eval.specs.Runnable.{IsRunnable};
ghost use Rattle.pv_eval.specs.Moments.{state_of, Acted, Always, Came, Noted, Stays};
ghost use Rattle.pv_eval.specs.Ahead.{MoveFitsOr};
ghost use Rattle.pv_eval.specs.Pieces.{LedBy, with_both, writes_back, combines, combines_right, combines_both, moves_and_writes, reads_place, writes_step, steps, increments};

use crate::converting::convert;
use crate::failure::Failure;
use crate::frames::{Aside, Frame, Move, ReadPlace, Stage};
use crate::moment::Moment;
use crate::values::{duplicate, give, integer, minus};
use pv_num::{BinOp, IntKind, promoted};
use pv_seq::Journal;
use pv_tree::NodeId;
use pv_typed::{IncrementOperator, Sign, Typed, TypedUnit};
use pv_world::Got;

/// The place that the first operand gives is read, before the second operand is evaluated.
pub(crate) fn read_place(
    unit: &TypedUnit,
    n: NodeId,
    line: u32,
    x: Typed,
    a: NodeId,
    d: NodeId,
    place: Got,
    journal: &mut Journal,
    moment: &mut Moment,
) -> Result<Move, Failure>
    requires runnable { IsRunnable unit.now }
    requires there { IsExpression unit.now n }
    requires left { IsExpression unit.now a }
    requires right { IsExpression unit.now d }
    requires form { form_of (expression_at unit.now n) ≡ form_in unit.now.lists (nodes unit.now) x }
    requires line { line ≡ line_of (expression_at unit.now n) }
    requires some { 1 ≤ length journal.old }
    ensures led { LedBy unit.now (reads_place unit.now n line x a d (worth_of place)) result journal.old journal.new moment.old moment.new }
    ensures stays { Stays moment.old moment.new }
    ensures below { IfOk result (λ m. below journal.new ≡ below journal.old) }
    ensures some { IfOk result (λ m. 1 ≤ length journal.new) }
    ensures fits { MoveFitsOr unit.now result }
{
    let value = match moment.read(unit, line, a, &place, journal) {
        Ok(value) => value,
        Err(e) => return Err(e),
    };
    let read = match Aside::new(moment.alloc, ReadPlace { place, value }) {
        Ok(read) => read,
        Err(_) => return Err(Failure::NoMemory),
    };
    Ok(Move::Operand(
        d,
        Frame {
            node: n,
            stage: Stage::Both(read),
        },
    ))
}

/// What a node that reads and writes back does with the value of its second operand.
pub(crate) fn resume_both(
    unit: &TypedUnit,
    n: NodeId,
    x: Typed,
    read: ReadPlace,
    w: Got,
    journal: &mut Journal,
    moment: &mut Moment,
) -> Result<Move, Failure>
    requires runnable { IsRunnable unit.now }
    requires there { IsExpression unit.now n }
    requires operands { HasOperands unit.now.rows unit.now.lists n.0 x }
    requires some { 1 ≤ length journal.old }
    ensures led { LedBy unit.now (with_both unit.now n x (worth_of read.place) (worth_of read.value) (worth_of w)) result journal.old journal.new moment.old moment.new }
    ensures stays { Stays moment.old moment.new }
    ensures below { IfOk result (λ m. below journal.new ≡ below journal.old) }
    ensures some { IfOk result (λ m. 1 ≤ length journal.new) }
    ensures fits { MoveFitsOr unit.now result }
{
    let line = unit.line_of(n);
    match x {
        Typed::CompoundAssign(op, kind, a, d) => {
            compound(unit, n, line, op, kind, a, d, read, w, journal, moment)
        }
        Typed::PointerAssign(sign, a, _) => {
            pointer_assign(unit, n, line, sign, a, read, w, journal, moment)
        }
        _ => Ok(Move::Give(w)),
    }
}

/// A compound assignment of integers (C17 6.5.16.2), once both operands are evaluated: what was read is converted first.
#[tactic(auto, using(crate::proofs::Cases::stays_both))]
fn compound(
    unit: &TypedUnit,
    n: NodeId,
    line: u32,
    op: BinOp,
    kind: IntKind,
    a: NodeId,
    d: NodeId,
    read: ReadPlace,
    w: Got,
    journal: &mut Journal,
    moment: &mut Moment,
) -> Result<Move, Failure>
    requires runnable { IsRunnable unit.now }
    requires there { IsExpression unit.now n }
    requires left { IsExpression unit.now a }
    requires right { IsExpression unit.now d }
    requires some { 1 ≤ length journal.old }
    ensures led { LedBy unit.now (combines_both unit.now n line op kind a d (worth_of read.place) (worth_of read.value) (worth_of w)) result journal.old journal.new moment.old moment.new }
    ensures stays { Stays moment.old moment.new }
    ensures below { IfOk result (λ m. below journal.new ≡ below journal.old) }
    ensures some { IfOk result (λ m. 1 ≤ length journal.new) }
    ensures fits { MoveFitsOr unit.now result }
{
    let ReadPlace { place, value } = read;
    let v = match moment.round(unit, line, kind, value) {
        Ok(v) => v,
        Err(e) => return Err(e),
    };
    compound_right(unit, n, line, op, kind, a, d, place, v, w, journal, moment)
}

/// Then the right operand, where it is a conversion.
#[tactic(auto, using(crate::proofs::Cases::stays_both))]
fn compound_right(
    unit: &TypedUnit,
    n: NodeId,
    line: u32,
    op: BinOp,
    kind: IntKind,
    a: NodeId,
    d: NodeId,
    place: Got,
    v: Got,
    w: Got,
    journal: &mut Journal,
    moment: &mut Moment,
) -> Result<Move, Failure>
    requires runnable { IsRunnable unit.now }
    requires there { IsExpression unit.now n }
    requires left { IsExpression unit.now a }
    requires right { IsExpression unit.now d }
    requires some { 1 ≤ length journal.old }
    ensures led { LedBy unit.now (combines_right unit.now n line op kind a d (worth_of place) (worth_of v) (worth_of w)) result journal.old journal.new moment.old moment.new }
    ensures stays { Stays moment.old moment.new }
    ensures below { IfOk result (λ m. below journal.new ≡ below journal.old) }
    ensures some { IfOk result (λ m. 1 ≤ length journal.new) }
    ensures fits { MoveFitsOr unit.now result }
{
    let w = match convert(unit, d, w, moment) {
        Ok(w) => w,
        Err(e) => return Err(e),
    };
    let back = moment.kind(unit, n);
    combine_and_write(unit, line, op, kind, back, a, place, v, w, journal, moment)
}

/// The operator, the conversion back, and the write.
#[tactic(auto, using(crate::proofs::Cases::stays_both))]
fn combine_and_write(
    unit: &TypedUnit,
    line: u32,
    op: BinOp,
    kind: IntKind,
    back: IntKind,
    a: NodeId,
    place: Got,
    v: Got,
    w: Got,
    journal: &mut Journal,
    moment: &mut Moment,
) -> Result<Move, Failure>
    requires runnable { IsRunnable unit.now }
    requires left { IsExpression unit.now a }
    requires some { 1 ≤ length journal.old }
    ensures led { LedBy unit.now (combines unit.now line op kind back a (worth_of place) (worth_of v) (worth_of w)) result journal.old journal.new moment.old moment.new }
    ensures stays { Stays moment.old moment.new }
    ensures below { IfOk result (λ m. below journal.new ≡ below journal.old) }
    ensures some { IfOk result (λ m. 1 ≤ length journal.new) }
    ensures fits { MoveFitsOr unit.now result }
{
    let v = match combine(unit, line, op, kind, back, v, w, moment) {
        Ok(v) => v,
        Err(e) => return Err(e),
    };
    write_back(unit, line, a, place, v, journal, moment)
}

/// The operator at its kind, and back to the kind of the lvalue (C17 6.5.16.2p3).
#[tactic(auto, using(crate::proofs::Cases::stays_both))]
fn combine(
    unit: &TypedUnit,
    line: u32,
    op: BinOp,
    kind: IntKind,
    back: IntKind,
    v: Got,
    w: Got,
    moment: &mut Moment,
) -> Result<Got, Failure>
    requires runnable { IsRunnable unit.now }
    ensures came { Always unit.now moment.old (λ b out es. Came (combining b line op kind back (worth_of v) (worth_of w) (state_of moment.old out es)) result (state_of moment.new out es)) }
    ensures stays { Stays moment.old moment.new }
{
    match moment.calculate(unit, line, op, kind, v, w) {
        Ok(v) => moment.round(unit, line, back, v),
        Err(e) => Err(e),
    }
}

/// The value is stored at the place.
fn write_back(
    unit: &TypedUnit,
    line: u32,
    a: NodeId,
    place: Got,
    v: Got,
    journal: &mut Journal,
    moment: &mut Moment,
) -> Result<Move, Failure>
    requires runnable { IsRunnable unit.now }
    requires left { IsExpression unit.now a }
    requires some { 1 ≤ length journal.old }
    ensures led { LedBy unit.now (writes_back unit.now line a (worth_of place) (worth_of v)) result journal.old journal.new moment.old moment.new }
    ensures stays { Stays moment.old moment.new }
    ensures below { IfOk result (λ m. below journal.new ≡ below journal.old) }
    ensures some { IfOk result (λ m. 1 ≤ length journal.new) }
    ensures fits { MoveFitsOr unit.now result }
{
    give(moment.write(unit, line, a, &place, v, None, journal))
}

/// A pointer moved by an integer and stored (C17 6.5.16.2p3), once both operands are evaluated.
#[tactic(auto, using(crate::proofs::Cases::stays_both))]
fn pointer_assign(
    unit: &TypedUnit,
    n: NodeId,
    line: u32,
    sign: Sign,
    a: NodeId,
    read: ReadPlace,
    w: Got,
    journal: &mut Journal,
    moment: &mut Moment,
) -> Result<Move, Failure>
    requires runnable { IsRunnable unit.now }
    requires there { IsExpression unit.now n }
    requires left { IsExpression unit.now a }
    requires some { 1 ≤ length journal.old }
    ensures led { LedBy unit.now (moves_and_writes unit.now n line sign a (worth_of read.place) (worth_of read.value) (worth_of w)) result journal.old journal.new moment.old moment.new }
    ensures stays { Stays moment.old moment.new }
    ensures below { IfOk result (λ m. below journal.new ≡ below journal.old) }
    ensures some { IfOk result (λ m. 1 ≤ length journal.new) }
    ensures fits { MoveFitsOr unit.now result }
{
    let ReadPlace { place, value } = read;
    let t = unit.type_of(n);
    let v = match moment.shift(unit, line, minus(sign), true, t, value, w) {
        Ok(v) => v,
        Err(e) => return Err(e),
    };
    write_back(unit, line, a, place, v, journal, moment)
}

/// `++` and `--` (C17 6.5.2.4, 6.5.3.1), once the operand's place is known.
#[tactic(auto, using(crate::proofs::Cases::stays_both))]
pub(crate) fn increment(
    unit: &TypedUnit,
    n: NodeId,
    line: u32,
    o: IncrementOperator,
    a: NodeId,
    place: Got,
    journal: &mut Journal,
    moment: &mut Moment,
) -> Result<Move, Failure>
    requires runnable { IsRunnable unit.now }
    requires there { IsExpression unit.now n }
    requires left { IsExpression unit.now a }
    requires some { 1 ≤ length journal.old }
    ensures led { LedBy unit.now (increments unit.now n line o a (worth_of place)) result journal.old journal.new moment.old moment.new }
    ensures stays { Stays moment.old moment.new }
    ensures below { IfOk result (λ m. below journal.new ≡ below journal.old) }
    ensures some { IfOk result (λ m. 1 ≤ length journal.new) }
    ensures fits { MoveFitsOr unit.now result }
{
    let value = match moment.read(unit, line, a, &place, journal) {
        Ok(value) => value,
        Err(e) => return Err(e),
    };
    step_and_keep(unit, n, line, o, a, place, value, journal, moment)
}

/// Then 1 is added or taken off, and the new value stored; the old one is kept.
fn step_and_keep(
    unit: &TypedUnit,
    n: NodeId,
    line: u32,
    o: IncrementOperator,
    a: NodeId,
    place: Got,
    v: Got,
    journal: &mut Journal,
    moment: &mut Moment,
) -> Result<Move, Failure>
    requires runnable { IsRunnable unit.now }
    requires there { IsExpression unit.now n }
    requires left { IsExpression unit.now a }
    requires some { 1 ≤ length journal.old }
    ensures led { LedBy unit.now (steps unit.now n line o a (worth_of place) (worth_of v) (worth_of v)) result journal.old journal.new moment.old moment.new }
    ensures stays { Stays moment.old moment.new }
    ensures below { IfOk result (λ m. below journal.new ≡ below journal.old) }
    ensures some { IfOk result (λ m. 1 ≤ length journal.new) }
    ensures fits { MoveFitsOr unit.now result }
{
    match duplicate(&v) {
        Ok(old) => step_and_write(unit, n, line, o, a, place, old, v, journal, moment),
        Err(_) => Err(Failure::NoMemory),
    }
}

/// Then 1 is added or taken off, and the new value stored.
#[tactic(auto, using(crate::proofs::Cases::stays_both))]
fn step_and_write(
    unit: &TypedUnit,
    n: NodeId,
    line: u32,
    o: IncrementOperator,
    a: NodeId,
    place: Got,
    old: Got,
    v: Got,
    journal: &mut Journal,
    moment: &mut Moment,
) -> Result<Move, Failure>
    requires runnable { IsRunnable unit.now }
    requires there { IsExpression unit.now n }
    requires left { IsExpression unit.now a }
    requires some { 1 ≤ length journal.old }
    ensures led { LedBy unit.now (steps unit.now n line o a (worth_of place) (worth_of old) (worth_of v)) result journal.old journal.new moment.old moment.new }
    ensures stays { Stays moment.old moment.new }
    ensures below { IfOk result (λ m. below journal.new ≡ below journal.old) }
    ensures some { IfOk result (λ m. 1 ≤ length journal.new) }
    ensures fits { MoveFitsOr unit.now result }
{
    let w = match step_value(unit, n, line, o, v, moment) {
        Ok(w) => w,
        Err(e) => return Err(e),
    };
    write_step(unit, line, o, a, place, old, w, journal, moment)
}

/// The new value is stored; the operator gives the old one or the new one.
fn write_step(
    unit: &TypedUnit,
    line: u32,
    o: IncrementOperator,
    a: NodeId,
    place: Got,
    v: Got,
    w: Got,
    journal: &mut Journal,
    moment: &mut Moment,
) -> Result<Move, Failure>
    requires runnable { IsRunnable unit.now }
    requires left { IsExpression unit.now a }
    requires some { 1 ≤ length journal.old }
    ensures led { LedBy unit.now (writes_step unit.now line o a (worth_of place) (worth_of v) (worth_of w)) result journal.old journal.new moment.old moment.new }
    ensures stays { Stays moment.old moment.new }
    ensures below { IfOk result (λ m. below journal.new ≡ below journal.old) }
    ensures some { IfOk result (λ m. 1 ≤ length journal.new) }
    ensures fits { MoveFitsOr unit.now result }
{
    match store(unit, line, a, place, w, journal, moment) {
        Ok(w) => {
            if after(o) {
                Ok(Move::Give(v))
            } else {
                Ok(Move::Give(w))
            }
        }
        Err(e) => Err(e),
    }
}

/// The node's own write, at a place that is not used again.
fn store(
    unit: &TypedUnit,
    line: u32,
    a: NodeId,
    place: Got,
    w: Got,
    journal: &mut Journal,
    moment: &mut Moment,
) -> Result<Got, Failure>
    requires runnable { IsRunnable unit.now }
    requires left { IsExpression unit.now a }
    requires some { 1 ≤ length journal.old }
    ensures acted { Acted unit.now line (λ b. Writes (lvalue b (type_of (expression_at unit.now a))) (worth_of place) (worth_of w) None (rivals (top journal.old))) result moment.old moment.new }
    ensures noted { Noted (λ b. access_to (lvalue b (type_of (expression_at unit.now a))) (pointer_of (worth_of place)) true) result journal.old journal.new unit.now moment.old }
    ensures below { IfOk result (λ v. below journal.new ≡ below journal.old) }
    ensures some { IfOk result (λ v. 1 ≤ length journal.new) }
    ensures stays { Stays moment.old moment.new }
{
    moment.write(unit, line, a, &place, w, None, journal)
}

/// 1 is added to a value or taken off it (C17 6.5.2.4p2, 6.5.3.1p2).
fn step_value(
    unit: &TypedUnit,
    n: NodeId,
    line: u32,
    o: IncrementOperator,
    v: Got,
    moment: &mut Moment,
) -> Result<Got, Failure>
    requires runnable { IsRunnable unit.now }
    requires there { IsExpression unit.now n }
    ensures came { Always unit.now moment.old (λ b out es. Came (stepping b line (type_of (expression_at unit.now n)) o (worth_of v) (state_of moment.old out es)) result (state_of moment.new out es)) }
    ensures stays { Stays moment.old moment.new }
{
    let one = integer(1);
    if moment.is_pointer(unit, n) {
        let t = unit.type_of(n);
        moment.shift(unit, line, down(o), true, t, v, one)
    } else {
        let kind = moment.kind(unit, n);
        combine(
            unit,
            line,
            operator(o),
            promoted(kind),
            kind,
            v,
            one,
            moment,
        )
    }
}

/// The operator that adds 1 or takes it off.
pub(crate) fn operator(o: IncrementOperator) -> BinOp
    ensures { result ≡ (if is_down o then BinOp.Sub else BinOp.Add) }
{
    match o {
        IncrementOperator::PostDecrement => BinOp::Sub,
        IncrementOperator::PreDecrement => BinOp::Sub,
        IncrementOperator::PostIncrement => BinOp::Add,
        IncrementOperator::PreIncrement => BinOp::Add,
    }
}

/// Whether 1 is taken off.
pub(crate) fn down(o: IncrementOperator) -> bool
    ensures { result ≡ is_down o }
{
    match o {
        IncrementOperator::PostDecrement => true,
        IncrementOperator::PreDecrement => true,
        IncrementOperator::PostIncrement => false,
        IncrementOperator::PreIncrement => false,
    }
}

/// Whether the operator stands behind its operand, and gives the old value.
pub(crate) fn after(o: IncrementOperator) -> bool
    ensures { result ≡ is_after o }
{
    match o {
        IncrementOperator::PostIncrement => true,
        IncrementOperator::PostDecrement => true,
        IncrementOperator::PreIncrement => false,
        IncrementOperator::PreDecrement => false,
    }
}
