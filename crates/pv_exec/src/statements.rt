// The first operations of statements.
ghost use Rattle.std.specs.Prelude.{◌≡◌, ℕ, ◌+◌, ◌<◌, true, false, OnOk, IfSome, None};
ghost use Rattle.pv_typed.specs.Nodes.{optional_in};
ghost use Rattle.pv_typed.specs.Tables.{Stored, nodes};
ghost use Rattle.pv_typed.specs.NodeTrees.{expression_at, statement_at, IsExpression, IsStatement};
ghost use Rattle.pv_eval.specs.MachineSteps.{Fit};
ghost use Rattle.pv_eval.specs.States.{Setting, State, Res, then_do};
ghost use Rattle.pv_exec.specs.OfRuns.{below, full_expression};
ghost use Rattle.pv_exec.specs.Tasks.{takes_value, Reached, left_flow, after_value};
ghost use Rattle.pv_exec.specs.Parts.{loop_of, rounds};
ghost use Rattle.pv_exec.specs.Works.{is_call};
ghost use Rattle.pv_exec.specs.Leading.{LeadsOr};
ghost use Rattle.pv_exec.specs.Fits.{TaskFits, WayFitsOr};
ghost use Rattle.pv_exec.specs.Quickness.{QuickOr, EndsOr};

use crate::task::{Doing, Task, Way};
use pv_eval::{Failure, Machine};
use pv_tree::NodeId;
use pv_typed::{TypedStmt, TypedUnit};
use pv_world::Got;

/// The parts of a loop whose condition comes first.
#[derive(Clone, Copy)]
pub struct Parts {
    pub condition: Option<NodeId>,
    pub step: Option<NodeId>,
    pub body: NodeId,
}

/// An expression is started, and a task waits for its value.
#[inline(always)]
pub fn evaluate(machine: &mut Machine, task: Task, e: NodeId) -> Result<Way, Failure>
    requires task { is_call task ≡ false }
    requires value { takes_value task ≡ true }
    ensures led { (b : Setting) (u : Stored) (k : ℕ) (s : State) (all : Res Reached) → b.bound < s.taken + k + 1 →
        all ≡ then_do (full_expression b (below b k).call (expression_at u e) s) (after_value b u k task) → LeadsOr b u all machine.old.started result machine.new.started s }
    ensures moment { machine.new.moment ≡ machine.old.moment }
    ensures fit { (u : Stored) → IsExpression u e → Fit u machine.old.started → OnOk result (Fit u machine.new.started) }
    ensures ways { (u : Stored) → TaskFits u task → WayFitsOr u machine.old.started machine.new.started result }
    ensures quick { QuickOr machine.new.started result }
    ensures ends { EndsOr machine.new.started result }
{
    match machine.start(e) {
        Ok(()) => Ok(Way::With(task, Doing::Evaluate)),
        Err(x) => Err(x),
    }
}

/// The parts of a loop; of another statement, parts that nothing looks at.
#[inline(always)]
pub fn loop_parts(unit: &TypedUnit, n: NodeId) -> Parts
    requires there { IsStatement unit.now n }
    ensures value { loop_of (statement_at unit.now n) ≡ record { condition = optional_in (nodes unit.now) result.condition; step = optional_in (nodes unit.now) result.step; body = statement_at unit.now result.body } }
    ensures body { IsStatement unit.now result.body }
    ensures condition { IfSome result.condition (IsExpression unit.now) }
    ensures step { IfSome result.step (IsExpression unit.now) }
{
    match unit.statement(n) {
        TypedStmt::While(condition, body) => Parts {
            condition: Some(condition),
            step: None,
            body,
        },
        TypedStmt::For {
            first: _,
            condition,
            step,
            body,
        } => Parts {
            condition,
            step,
            body,
        },
        TypedStmt::ForDeclaration {
            declarations: _,
            condition,
            step,
            body,
        } => Parts {
            condition,
            step,
            body,
        },
        TypedStmt::Block(_) => no_parts(n),
        TypedStmt::Declare(_) => no_parts(n),
        TypedStmt::Expression(_) => no_parts(n),
        TypedStmt::Empty => no_parts(n),
        TypedStmt::If(_, _) => no_parts(n),
        TypedStmt::IfElse(_, _, _) => no_parts(n),
        TypedStmt::Switch(_, _) => no_parts(n),
        TypedStmt::Case(_, _) => no_parts(n),
        TypedStmt::Default(_) => no_parts(n),
        TypedStmt::DoWhile(_, _) => no_parts(n),
        TypedStmt::Continue => no_parts(n),
        TypedStmt::Break => no_parts(n),
        TypedStmt::Return(_) => no_parts(n),
    }
}

fn no_parts(n: NodeId) -> Parts
    ensures { result ≡ record { condition = None; step = None; body = n } }
{
    Parts {
        condition: None,
        step: None,
        body: n,
    }
}

/// A round of a loop whose condition comes first.
pub fn begin_round(unit: &TypedUnit, n: NodeId, machine: &mut Machine) -> Result<Way, Failure>
    requires there { IsStatement unit.now n }
    requires fit { Fit unit.now machine.old.started }
    ensures led { (b : Setting) (k : ℕ) (s : State) → b.bound < s.taken + k + 1 → LeadsOr b unit.now (left_flow (rounds b (below b k) (loop_of (statement_at unit.now n)) s)) machine.old.started result machine.new.started s }
    ensures moment { machine.new.moment ≡ machine.old.moment }
    ensures fit { OnOk result (Fit unit.now machine.new.started) }
    ensures ways { WayFitsOr unit.now machine.old.started machine.new.started result }
    ensures quick { QuickOr machine.new.started result }
    ensures ends { EndsOr machine.new.started result }
{
    let parts = loop_parts(unit, n);
    match parts.condition {
        None => Ok(Way::With(Task::Rounded(n), Doing::Enter(parts.body))),
        Some(c) => evaluate(machine, Task::Tested(n), c),
    }
}
