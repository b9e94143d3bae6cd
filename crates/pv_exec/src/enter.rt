// The turns of statements.
ghost use Rattle.std.specs.Prelude.{◌≡◌, ℕ, ◌+◌, ◌<◌, ◌^◌, true, false, OnOk, IfSome, None};
ghost use Rattle.pv_typed.specs.Nodes.{statements_in};
ghost use Rattle.pv_typed.specs.TypedStatement.{Block, Switch};
ghost use Rattle.pv_typed.specs.Trees.{statement_line, declared_of};
ghost use Rattle.pv_typed.specs.Tables.{nodes};
ghost use Rattle.pv_typed.specs.NodeTrees.{list_at, expression_at, statement_at, IsExpression, IsStatement};
ghost use Rattle.pv_eval.specs.MachineSteps.{Fit, KeepsSetting};
ghost use Rattle.pv_eval.specs.Moments.{Stays};
ghost use Rattle.pv_eval.specs.States.{Setting, State};
ghost use Rattle.pv_eval.specs.Runnable.{IsRunnable};
ghost use Rattle.pv_exec.specs.OfRuns.{below, ex};
ghost use Rattle.pv_exec.specs.Flows.{Below};
ghost use Rattle.pv_exec.specs.Tasks.{left_flow};
ghost use Rattle.pv_exec.specs.Leading.{LeadsOr, Led, EnterLed, entered_at};
ghost use Rattle.pv_exec.specs.Entering.{behind_turn, is_labelled, is_block_tree, is_for_tree};
ghost use Rattle.pv_exec.specs.Fits.{WayFitsOr, IsScope, HasList};

use crate::blocks::make_objects;
use crate::statements::{begin_round, evaluate};
use crate::task::{Doing, Flow, Task, Way};
use crate::values::leave_with;
use pv_eval::{Failure, Machine};
use pv_tree::{ListId, NodeId};
use pv_typed::{TypedStmt, TypedUnit};
use pv_world::Got;

/// The statement behind the labels of a statement (C17 6.8.1).
pub fn unlabelled(unit: &TypedUnit, n: NodeId) -> NodeId
    requires there { IsStatement unit.now n }
    ensures same { (b : Setting) (w : Below) (s : State) → ex b w (statement_at unit.now n) s ≡ ex b w (statement_at unit.now result) s }
    ensures plain { is_labelled (statement_at unit.now result) ≡ false }
    ensures there { IsStatement unit.now result }
{
    let mut n = n;
    'labels: while let Some(x) = labelled(unit, n) {
        n = x;
    }
    n
}

// The statement behind one label.
fn labelled(unit: &TypedUnit, n: NodeId) -> Option<NodeId>
    requires there { IsStatement unit.now n }
    ensures same { IfSome result (λ x. (b : Setting) (w : Below) (s : State) → ex b w (statement_at unit.now n) s ≡ ex b w (statement_at unit.now x) s) }
    ensures there { IfSome result (λ x. IsStatement unit.now x × (x.0 < n.0)) }
    ensures plain { result ≡ None → is_labelled (statement_at unit.now n) ≡ false }
{
    match unit.statement(n) {
        TypedStmt::Case(_, x) => Some(x),
        TypedStmt::Default(x) => Some(x),
        TypedStmt::Block(_) => None,
        TypedStmt::Declare(_) => None,
        TypedStmt::Expression(_) => None,
        TypedStmt::Empty => None,
        TypedStmt::If(_, _) => None,
        TypedStmt::IfElse(_, _, _) => None,
        TypedStmt::Switch(_, _) => None,
        TypedStmt::While(_, _) => None,
        TypedStmt::DoWhile(_, _) => None,
        TypedStmt::For {
            first: _,
            condition: _,
            step: _,
            body: _,
        } => None,
        TypedStmt::ForDeclaration {
            declarations: _,
            condition: _,
            step: _,
            body: _,
        } => None,
        TypedStmt::Continue => None,
        TypedStmt::Break => None,
        TypedStmt::Return(_) => None,
    }
}

// A block's objects are made, and its statements are to come.
fn begin_block(
    unit: &TypedUnit,
    n: NodeId,
    l: ListId,
    machine: &mut Machine,
) -> Result<Way, Failure>
    requires runnable { IsRunnable unit.now }
    requires scope { IsScope unit.now n }
    requires form { statement_at unit.now n ≡ Block (statement_line (statement_at unit.now n)) (declared_of (statement_at unit.now n)) (statements_in (nodes unit.now) (list_at unit.now l)) }
    requires list { HasList unit.now l }
    ensures led { Led unit.now (entered_at unit.now n) machine.old.started result machine.old machine.new }
    ensures started { machine.new.started ≡ machine.old.started }
    ensures ways { WayFitsOr unit.now machine.old.started machine.new.started result }
    ensures stays { Stays machine.old.moment machine.new.moment }
{
    match make_objects(unit, n, machine) {
        Ok(()) => Ok(Way::With(Task::InBlock(n), Doing::Statements(l, 0))),
        Err(e) => Err(e),
    }
}

// The same of a `for` with a declaration.
fn begin_for(unit: &TypedUnit, n: NodeId, machine: &mut Machine) -> Result<Way, Failure>
    requires runnable { IsRunnable unit.now }
    requires scope { IsScope unit.now n }
    requires form { is_for_tree (statement_at unit.now n) ≡ true }
    ensures led { Led unit.now (entered_at unit.now n) machine.old.started result machine.old machine.new }
    ensures started { machine.new.started ≡ machine.old.started }
    ensures ways { WayFitsOr unit.now machine.old.started machine.new.started result }
    ensures stays { Stays machine.old.moment machine.new.moment }
{
    match make_objects(unit, n, machine) {
        Ok(()) => Ok(Way::With(Task::InBlock(n), Doing::Within(n))),
        Err(e) => Err(e),
    }
}

// What a statement does once its turn is taken.
fn begin(unit: &TypedUnit, n: NodeId, machine: &mut Machine) -> Result<Way, Failure>
    requires runnable { IsRunnable unit.now }
    requires there { IsStatement unit.now n }
    requires fit { Fit unit.now machine.old.started }
    ensures led { Led unit.now (entered_at unit.now n) machine.old.started result machine.old machine.new }
    ensures stays { Stays machine.old.moment machine.new.moment }
    ensures fit { OnOk result (Fit unit.now machine.new.started) }
    ensures ways { WayFitsOr unit.now machine.old.started machine.new.started result }
{
    match unit.statement(n) {
        TypedStmt::Block(l) => begin_block(unit, n, l, machine),
        TypedStmt::Declare(_) => Ok(Way::Do(Doing::Left(Flow::Falls))),
        TypedStmt::Expression(x) => evaluate(machine, Task::Dropping, x),
        TypedStmt::Empty => Ok(Way::Do(Doing::Left(Flow::Falls))),
        TypedStmt::If(c, _) => evaluate(machine, Task::Chosen(n), c),
        TypedStmt::IfElse(c, _, _) => evaluate(machine, Task::Chosen(n), c),
        TypedStmt::Switch(c, x) => begin_switch(unit, n, c, x, machine),
        TypedStmt::Case(_, _) => Ok(Way::Do(Doing::Left(Flow::Falls))),
        TypedStmt::Default(_) => Ok(Way::Do(Doing::Left(Flow::Falls))),
        TypedStmt::While(_, _) => begin_round(unit, n, machine),
        TypedStmt::DoWhile(x, _) => Ok(Way::With(Task::RoundedDo(n), Doing::Enter(x))),
        TypedStmt::For {
            first,
            condition: _,
            step: _,
            body: _,
        } => match first {
            Some(x) => evaluate(machine, Task::First(n), x),
            None => begin_round(unit, n, machine),
        },
        TypedStmt::ForDeclaration {
            declarations: _,
            condition: _,
            step: _,
            body: _,
        } => begin_for(unit, n, machine),
        TypedStmt::Continue => Ok(Way::Do(Doing::Left(Flow::Continues))),
        TypedStmt::Break => Ok(Way::Do(Doing::Left(Flow::Breaks))),
        TypedStmt::Return(value) => match value {
            Some(x) => evaluate(machine, Task::Returning(n), x),
            None => leave_with(Got::Nothing, machine),
        },
    }
}

// A switch begins, where its body is a block.
fn begin_switch(
    unit: &TypedUnit,
    n: NodeId,
    c: NodeId,
    x: NodeId,
    machine: &mut Machine,
) -> Result<Way, Failure>
    requires there { IsStatement unit.now n }
    requires body { IsStatement unit.now x }
    requires condition { IsExpression unit.now c }
    requires form { statement_at unit.now n ≡ Switch (statement_line (statement_at unit.now n)) (expression_at unit.now c) (statement_at unit.now x) }
    requires fit { Fit unit.now machine.old.started }
    ensures led { (b : Setting) (k : ℕ) (s : State) → b.bound < s.taken + k → LeadsOr b unit.now (left_flow (behind_turn b (below b k) (statement_at unit.now n) s)) machine.old.started result machine.new.started s }
    ensures moment { machine.new.moment ≡ machine.old.moment }
    ensures fit { OnOk result (Fit unit.now machine.new.started) }
    ensures ways { WayFitsOr unit.now machine.old.started machine.new.started result }
{
    if is_block(unit, x) {
        evaluate(machine, Task::Selecting(n), c)
    } else {
        Ok(Way::Do(Doing::Left(Flow::Falls)))
    }
}

// Whether a statement is a block.
fn is_block(unit: &TypedUnit, n: NodeId) -> bool
    requires there { IsStatement unit.now n }
    ensures { result ≡ is_block_tree (statement_at unit.now n) }
{
    match unit.statement(n) {
        TypedStmt::Block(_) => true,
        TypedStmt::Case(_, _) => false,
        TypedStmt::Default(_) => false,
        TypedStmt::Declare(_) => false,
        TypedStmt::Expression(_) => false,
        TypedStmt::Empty => false,
        TypedStmt::If(_, _) => false,
        TypedStmt::IfElse(_, _, _) => false,
        TypedStmt::Switch(_, _) => false,
        TypedStmt::While(_, _) => false,
        TypedStmt::DoWhile(_, _) => false,
        TypedStmt::For {
            first: _,
            condition: _,
            step: _,
            body: _,
        } => false,
        TypedStmt::ForDeclaration {
            declarations: _,
            condition: _,
            step: _,
            body: _,
        } => false,
        TypedStmt::Continue => false,
        TypedStmt::Break => false,
        TypedStmt::Return(_) => false,
    }
}

/// A statement takes its turn and begins.
pub fn enter(unit: &TypedUnit, n: NodeId, machine: &mut Machine) -> Result<Way, Failure>
    requires runnable { IsRunnable unit.now }
    requires there { IsStatement unit.now n }
    requires fit { Fit unit.now machine.old.started }
    requires turn { machine.old.moment.taken < 10 ^ 8 }
    ensures led { EnterLed unit.now n result machine.old machine.new }
    ensures setting { KeepsSetting machine.old.moment machine.new.moment }
    ensures taken { machine.new.moment.taken ≡ machine.old.moment.taken + 1 }
    ensures fit { OnOk result (Fit unit.now machine.new.started) }
    ensures ways { WayFitsOr unit.now machine.old.started machine.new.started result }
{
    let n = unlabelled(unit, n);
    machine.tick();
    begin(unit, n, machine)
}
