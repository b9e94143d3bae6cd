// Further rounds of loops whose condition comes first.
ghost use Rattle.std.specs.Prelude.{◌≡◌, ℕ, ◌+◌, ◌<◌, ◌≤◌, OnOk, Some, IfSome, true};
ghost use Rattle.pv_typed.specs.Tables.{nodes};
ghost use Rattle.pv_typed.specs.NodeTrees.{statement_at, IsExpression, IsStatement};
ghost use Rattle.pv_typed.specs.Nodes.{optional_in};
ghost use Rattle.pv_eval.specs.MachineSteps.{Fit};
ghost use Rattle.pv_eval.specs.Machines.{ended_value, is_ended, after_first};
ghost use Rattle.pv_eval.specs.Moments.{Stays};
ghost use Rattle.pv_eval.specs.States.{Setting, State};
ghost use Rattle.pv_eval.specs.Runnable.{IsRunnable};
ghost use Rattle.pv_exec.specs.OfRuns.{below};
ghost use Rattle.pv_exec.specs.Tasks.{left_flow};
ghost use Rattle.pv_exec.specs.Parts.{loop_of, rest_of_loop, stepped_on, line_of_condition};
ghost use Rattle.pv_exec.specs.Works.{flow_of};
ghost use Rattle.pv_exec.specs.Leading.{LeadsOr, Led, DoingLed, tested_at};
ghost use Rattle.pv_exec.specs.Quickness.{QuickOr, EndsOr};
ghost use Rattle.pv_exec.specs.Read.{IsRound, round_side, behind_body};
ghost use Rattle.pv_exec.specs.Fits.{WayFitsOr};

use crate::parts::RoundParts;
use crate::statements::{begin_round, evaluate, loop_parts};
use crate::task::{Doing, Flow, Task, Way};
use pv_eval::{Failure, Machine};
use pv_tree::NodeId;
use pv_typed::TypedUnit;

/// A further round, one level lower: its condition is started.
pub fn begin_again(unit: &TypedUnit, n: NodeId, machine: &mut Machine) -> Result<Way, Failure>
    requires there { IsStatement unit.now n }
    requires fit { Fit unit.now machine.old.started }
    ensures led { (b : Setting) (k : ℕ) (s : State) → s.taken ≤ b.bound → b.bound < s.taken + k →
        LeadsOr b unit.now (left_flow ((below b k).again (loop_of (statement_at unit.now n)).condition (loop_of (statement_at unit.now n)).step (loop_of (statement_at unit.now n)).body s)) machine.old.started result machine.new.started s }
    ensures moment { machine.new.moment ≡ machine.old.moment }
    ensures fit { OnOk result (Fit unit.now machine.new.started) }
    ensures ways { WayFitsOr unit.now machine.old.started machine.new.started result }
    ensures quick { QuickOr machine.new.started result }
    ensures ends { EndsOr machine.new.started result }
{
    begin_round(unit, n, machine)
}

// The condition of a loop, if it has one that is plain: of another one the operands are asked for once it is started.
fn plain_condition(unit: &TypedUnit, condition: Option<NodeId>) -> Option<NodeId>
    requires { IfSome condition (IsExpression unit.now) }
    ensures { IfSome result (λ c. condition ≡ Some c) }
{
    match condition {
        None => None,
        Some(c) => {
            let _ = unit.plain_turns(c)?;
            Some(c)
        }
    }
}

/// A further round, one level lower: its condition, if that is plain, is asked for before it is started.
pub fn round_again(unit: &TypedUnit, n: NodeId, machine: &mut Machine) -> Result<Way, Failure>
    requires there { IsStatement unit.now n }
    requires fit { Fit unit.now machine.old.started }
    ensures led { (b : Setting) (k : ℕ) (s : State) → s.taken ≤ b.bound → b.bound < s.taken + k →
        LeadsOr b unit.now (left_flow ((below b k).again (loop_of (statement_at unit.now n)).condition (loop_of (statement_at unit.now n)).step (loop_of (statement_at unit.now n)).body s)) machine.old.started result machine.new.started s }
    ensures moment { machine.new.moment ≡ machine.old.moment }
    ensures fit { OnOk result (Fit unit.now machine.new.started) }
    ensures ways { WayFitsOr unit.now machine.old.started machine.new.started result }
    ensures quick { QuickOr machine.new.started result }
{
    let parts = loop_parts(unit, n);
    match plain_condition(unit, parts.condition) {
        None => begin_again(unit, n, machine),
        Some(condition) => Ok(Way::Do(Doing::Round(RoundParts {
            statement: n,
            condition,
            body: parts.body,
        }))),
    }
}

/// The body of a loop begins.
pub fn begin_body(
    unit: &TypedUnit,
    parts: RoundParts,
    machine: &mut Machine,
) -> Result<Way, Failure>
    requires fits { IsRound unit.now parts }
    requires fit { Fit unit.now machine.old.started }
    ensures led { DoingLed unit.now (Doing.Body parts) result machine.old machine.new }
    ensures moment { machine.new.moment ≡ machine.old.moment }
    ensures fit { OnOk result (Fit unit.now machine.new.started) }
    ensures ways { WayFitsOr unit.now machine.old.started machine.new.started result }
    ensures ends { EndsOr machine.new.started result }
{
    Ok(Way::With(Task::Rounded(parts.statement), Doing::Enter(parts.body)))
}

/// After the body: the last expression is started, and a further round.
pub fn round_goes_on(unit: &TypedUnit, n: NodeId, machine: &mut Machine) -> Result<Way, Failure>
    requires there { IsStatement unit.now n }
    requires fit { Fit unit.now machine.old.started }
    ensures led { (b : Setting) (k : ℕ) (s : State) → s.taken ≤ b.bound → b.bound < s.taken + k →
        LeadsOr b unit.now (left_flow (stepped_on b (below b k) (loop_of (statement_at unit.now n)) s)) machine.old.started result machine.new.started s }
    ensures moment { machine.new.moment ≡ machine.old.moment }
    ensures fit { OnOk result (Fit unit.now machine.new.started) }
    ensures ways { WayFitsOr unit.now machine.old.started machine.new.started result }
    ensures quick { QuickOr machine.new.started result }
    ensures ends { EndsOr machine.new.started result }
{
    let parts = loop_parts(unit, n);
    match parts.step {
        None => begin_again(unit, n, machine),
        Some(x) => evaluate(machine, Task::Stepped(n), x),
    }
}

// Behind the body of a loop with a condition: its last expression, if there is one, or a further round.
fn behind_body(step: Option<NodeId>, parts: RoundParts) -> Doing
    ensures { result ≡ behind_body step parts }
{
    match step {
        None => Doing::Round(parts),
        Some(x) => Doing::Again(x, parts),
    }
}

/// After the body: the last expression and the condition, if that is plain, are asked for before they are started.
pub fn go_round(unit: &TypedUnit, n: NodeId, machine: &mut Machine) -> Result<Way, Failure>
    requires there { IsStatement unit.now n }
    requires fit { Fit unit.now machine.old.started }
    ensures led { (b : Setting) (k : ℕ) (s : State) → s.taken ≤ b.bound → b.bound < s.taken + k →
        LeadsOr b unit.now (left_flow (stepped_on b (below b k) (loop_of (statement_at unit.now n)) s)) machine.old.started result machine.new.started s }
    ensures moment { machine.new.moment ≡ machine.old.moment }
    ensures fit { OnOk result (Fit unit.now machine.new.started) }
    ensures ways { WayFitsOr unit.now machine.old.started machine.new.started result }
    ensures quick { QuickOr machine.new.started result }
{
    let parts = loop_parts(unit, n);
    match plain_condition(unit, parts.condition) {
        None => round_goes_on(unit, n, machine),
        Some(condition) => {
            let round = RoundParts {
                statement: n,
                condition,
                body: parts.body,
            };
            Ok(Way::Do(behind_body(parts.step, round)))
        }
    }
}

/// What is done once the condition of a loop has its value (C17 6.8.5p4).
pub fn round_side(parts: RoundParts, yes: bool) -> Doing
    ensures { result ≡ round_side parts yes }
{
    if yes {
        Doing::Body(parts)
    } else {
        Doing::Left(Flow::Falls)
    }
}

/// How the body was left decides (C17 6.8.6.2, 6.8.6.3).
pub fn after_body(
    unit: &TypedUnit,
    n: NodeId,
    flow: Flow,
    machine: &mut Machine,
) -> Result<Way, Failure>
    requires there { IsStatement unit.now n }
    requires fit { Fit unit.now machine.old.started }
    ensures led { (b : Setting) (k : ℕ) (s : State) → s.taken ≤ b.bound → b.bound < s.taken + k →
        LeadsOr b unit.now (left_flow (rest_of_loop b (below b k) (loop_of (statement_at unit.now n)) (flow_of flow) s)) machine.old.started result machine.new.started s }
    ensures moment { machine.new.moment ≡ machine.old.moment }
    ensures fit { OnOk result (Fit unit.now machine.new.started) }
    ensures ways { WayFitsOr unit.now machine.old.started machine.new.started result }
    ensures quick { QuickOr machine.new.started result }
{
    match flow {
        Flow::Falls => go_round(unit, n, machine),
        Flow::Continues => go_round(unit, n, machine),
        Flow::Breaks => Ok(Way::Do(Doing::Left(Flow::Falls))),
        Flow::Returns(v) => Ok(Way::Do(Doing::Left(Flow::Returns(v)))),
    }
}

// The line of a condition.
fn line_of_optional(unit: &TypedUnit, c: Option<NodeId>) -> u32
    requires { IfSome c (IsExpression unit.now) }
    ensures { result ≡ line_of_condition (optional_in (nodes unit.now) c) }
{
    match c {
        None => 0,
        Some(c) => unit.line_of(c),
    }
}

/// After the condition of a loop.
pub fn after_condition(unit: &TypedUnit, n: NodeId, machine: &mut Machine) -> Result<Way, Failure>
    requires runnable { IsRunnable unit.now }
    requires there { IsStatement unit.now n }
    requires ended { is_ended machine.old.started ≡ true }
    requires fit { Fit unit.now machine.old.started }
    ensures led { Led unit.now (tested_at unit.now n (ended_value machine.old.started)) (after_first machine.old.started) result machine.old machine.new }
    ensures stays { Stays machine.old.moment machine.new.moment }
    ensures fit { Fit unit.now machine.new.started }
    ensures ways { WayFitsOr unit.now (after_first machine.old.started) machine.new.started result }
    ensures quick { QuickOr machine.new.started result }
{
    let parts = loop_parts(unit, n);
    let line = line_of_optional(unit, parts.condition);
    match machine.decide(unit, line) {
        Ok(goes_on) => {
            if goes_on {
                Ok(Way::With(Task::Rounded(n), Doing::Enter(parts.body)))
            } else {
                Ok(Way::Do(Doing::Left(Flow::Falls)))
            }
        }
        Err(e) => Err(e),
    }
}
