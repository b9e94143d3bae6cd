// Turns of a run: operations, until no task waits.
ghost use Rattle.std.specs.Prelude.{◌≡◌, ◌+◌, ◌<◌, ◌≤◌, ◌^◌, if◌then◌else◌, [], true, Some, IfSome, IfNone, IsTrue, OnOk};
ghost use Rattle.pv_typed.specs.TypedStatement.{Expression};
ghost use Rattle.pv_typed.specs.Trees.{statement_line, declared_of, is_scope_tree};
ghost use Rattle.pv_typed.specs.Nodes.{optional_in};
ghost use Rattle.pv_typed.specs.Tables.{nodes};
ghost use Rattle.pv_typed.specs.NodeTrees.{expression_at, statement_at, IsExpression, IsStatement};
ghost use Rattle.pv_eval.specs.MachineSteps.{Fit, KeepsSetting};
ghost use Rattle.pv_eval.specs.Runnable.{IsRunnable};
ghost use Rattle.pv_eval.specs.Codes.{AreCodes};
ghost use Rattle.pv_exec.specs.Parts.{choice_of, items_of};
ghost use Rattle.pv_exec.specs.Read.{choice_in, ChoiceFits, IsRound, IsStep, items_read};
ghost use Rattle.pv_exec.specs.Tasks.{returned_of};
ghost use Rattle.pv_exec.specs.Works.{due, turn_due};
ghost use Rattle.pv_exec.specs.Fits.{HasList, Runs, DoingFits, AfterRuns};
ghost use Rattle.pv_exec.specs.Turning.{UntilDueLed, AdvancedLed, CutBefore, ComesAtOnce, DueAfter, AskedAfter, AdvancedRuns, AdvancedPace};

use crate::once::{After, Last, once};
use crate::parts::{ChoiceParts, RoundParts};
use crate::rounds::round_side;
use crate::task::{Doing, Flow, Task};
use crate::values::side;
use pv_eval::{Failure, Machine, Plan};
use pv_tree::{ListId, NodeId};
use pv_typed::{TypedStmt, TypedUnit};

// Whether a turn is due.
fn is_due(doing: &Doing, machine: &Machine) -> bool
    ensures { due machine.now.started doing.now ≡ (if result then 1 else 0) }
{
    match doing {
        Doing::Enter(_) => true,
        Doing::Jump(_, _, _) => true,
        Doing::Store(_, _) => true,
        Doing::Absent => true,
        Doing::Evaluate => machine.due(),
        Doing::Statements(_, _) => false,
        Doing::Within(_) => false,
        Doing::Again(_, _) => false,
        Doing::Round(_) => false,
        Doing::Body(_) => false,
        Doing::Left(_) => false,
        Doing::Call(_) => false,
        Doing::Evaluated => false,
    }
}

// Whether a turn is due, or an expression of a loop was not started.
fn is_asked(doing: &Doing, machine: &Machine) -> bool
    ensures { turn_due machine.now.started doing.now ≡ (if result then 1 else 0) }
{
    match doing {
        Doing::Enter(_) => true,
        Doing::Jump(_, _, _) => true,
        Doing::Again(_, _) => true,
        Doing::Round(_) => true,
        Doing::Store(_, _) => true,
        Doing::Absent => true,
        Doing::Evaluate => machine.due(),
        Doing::Statements(_, _) => false,
        Doing::Within(_) => false,
        Doing::Body(_) => false,
        Doing::Left(_) => false,
        Doing::Call(_) => false,
        Doing::Evaluated => false,
    }
}

// Operations until a turn is due.
fn until_due(
    unit: &TypedUnit,
    tasks: &mut Vec<Task>,
    doing: Doing,
    machine: &mut Machine,
) -> Result<After, Failure>
    requires runnable { IsRunnable unit.now }
    requires runs { Runs unit.now tasks.old.items machine.old.started doing }
    requires fit { Fit unit.now machine.old.started }
    ensures holds { UntilDueLed unit.now doing result tasks.old.items tasks.new.items machine.old machine.new }
    ensures setting { KeepsSetting machine.old.moment machine.new.moment }
    ensures taken { machine.new.moment.taken ≡ machine.old.moment.taken }
    ensures fit { OnOk result (Fit unit.now machine.new.started) }
    ensures runs { AfterRuns unit.now tasks.new.items machine.new.started result }
    ensures due { DueAfter machine.new.started result }
{
    let mut doing = doing;
    'operations: while !is_due(&doing, machine) {
        match once(unit, tasks, doing, machine) {
            Ok(After::On(next)) => doing = next,
            Ok(After::Last(last)) => return Ok(After::Last(last)),
            Err(e) => return Err(e),
        }
    }
    Ok(After::On(doing))
}

// Operations until a turn is due, or an expression of a loop is reached that was not started.
fn until_asked(
    unit: &TypedUnit,
    tasks: &mut Vec<Task>,
    doing: Doing,
    machine: &mut Machine,
) -> Result<After, Failure>
    requires runnable { IsRunnable unit.now }
    requires runs { Runs unit.now tasks.old.items machine.old.started doing }
    requires fit { Fit unit.now machine.old.started }
    ensures holds { UntilDueLed unit.now doing result tasks.old.items tasks.new.items machine.old machine.new }
    ensures setting { KeepsSetting machine.old.moment machine.new.moment }
    ensures taken { machine.new.moment.taken ≡ machine.old.moment.taken }
    ensures fit { OnOk result (Fit unit.now machine.new.started) }
    ensures runs { AfterRuns unit.now tasks.new.items machine.new.started result }
    ensures asked { AskedAfter machine.new.started result }
{
    let mut doing = doing;
    'operations: while !is_asked(&doing, machine) {
        match once(unit, tasks, doing, machine) {
            Ok(After::On(next)) => doing = next,
            Ok(After::Last(last)) => return Ok(After::Last(last)),
            Err(e) => return Err(e),
        }
    }
    Ok(After::On(doing))
}

// The call that is due in the innermost expression, at once with its arguments (C17 6.5.2.2p10).
fn call_at_once(unit: &TypedUnit, plan: &Plan, bound: u64, machine: &mut Machine) -> Option<Doing>
    requires codes { AreCodes unit.now plan.now }
    requires runnable { IsRunnable unit.now }
    requires fit { Fit unit.now machine.old.started }
    ensures some { IfSome result (λ e. ComesAtOnce unit.now bound Doing.Evaluate e machine.old machine.new) }
    ensures none { IfNone result (machine.new ≡ machine.old) }
    ensures fit { Fit unit.now machine.new.started }
    ensures setting { KeepsSetting machine.old.moment machine.new.moment }
{
    if machine.call(unit, plan, bound) {
        Some(Doing::Call(machine.callee()))
    } else {
        None
    }
}

// The operand that is due in the innermost expression at once, or the call that is due, with its arguments.
fn operand_at_once(
    unit: &TypedUnit,
    plan: &Plan,
    bound: u64,
    machine: &mut Machine,
) -> Option<Doing>
    requires codes { AreCodes unit.now plan.now }
    requires runnable { IsRunnable unit.now }
    requires fit { Fit unit.now machine.old.started }
    ensures some { IfSome result (λ e. ComesAtOnce unit.now bound Doing.Evaluate e machine.old machine.new) }
    ensures none { IfNone result (machine.new ≡ machine.old) }
    ensures fit { Fit unit.now machine.new.started }
    ensures setting { KeepsSetting machine.old.moment machine.new.moment }
{
    if machine.operand(unit, plan, bound) {
        Some(Doing::Evaluate)
    } else {
        call_at_once(unit, plan, bound, machine)
    }
}

// The whole of the innermost expression at once, where it was just begun, or the operand or the call that is due.
fn expression_at_once(
    unit: &TypedUnit,
    plan: &Plan,
    bound: u64,
    machine: &mut Machine,
) -> Option<Doing>
    requires codes { AreCodes unit.now plan.now }
    requires runnable { IsRunnable unit.now }
    requires fit { Fit unit.now machine.old.started }
    ensures some { IfSome result (λ e. ComesAtOnce unit.now bound Doing.Evaluate e machine.old machine.new) }
    ensures none { IfNone result (machine.new ≡ machine.old) }
    ensures fit { Fit unit.now machine.new.started }
    ensures setting { KeepsSetting machine.old.moment machine.new.moment }
{
    if machine.whole(unit, plan, bound) {
        Some(Doing::Evaluated)
    } else {
        operand_at_once(unit, plan, bound, machine)
    }
}

// The whole of an expression statement at once (C17 6.8.3p2), with its turn.
fn drop_at_once(
    unit: &TypedUnit,
    plan: &Plan,
    n: NodeId,
    x: NodeId,
    bound: u64,
    machine: &mut Machine,
) -> Option<Doing>
    requires codes { AreCodes unit.now plan.now }
    requires runnable { IsRunnable unit.now }
    requires there { IsExpression unit.now x }
    requires form { statement_at unit.now n ≡ Expression (statement_line (statement_at unit.now n)) (expression_at unit.now x) }
    requires room { machine.old.moment.taken < bound }
    requires fit { Fit unit.now machine.old.started }
    ensures some { IfSome result (λ e. ComesAtOnce unit.now bound (Doing.Enter n) e machine.old machine.new) }
    ensures none { IfNone result (machine.new ≡ machine.old) }
    ensures fit { Fit unit.now machine.new.started }
    ensures setting { KeepsSetting machine.old.moment machine.new.moment }
{
    machine.whole_next(unit, plan, x, bound)?;
    Some(Doing::Left(Flow::Falls))
}

// The condition of an `if` at once (C17 6.8.4.1p2), with the statement's turn.
fn choose_at_once(
    unit: &TypedUnit,
    plan: &Plan,
    n: NodeId,
    parts: ChoiceParts,
    bound: u64,
    machine: &mut Machine,
) -> Option<Doing>
    requires codes { AreCodes unit.now plan.now }
    requires runnable { IsRunnable unit.now }
    requires value { choice_of (statement_at unit.now n) ≡ Some (choice_in (nodes unit.now) parts) }
    requires there { ChoiceFits unit.now parts }
    requires room { machine.old.moment.taken < bound }
    requires fit { Fit unit.now machine.old.started }
    ensures some { IfSome result (λ e. ComesAtOnce unit.now bound (Doing.Enter n) e machine.old machine.new) }
    ensures none { IfNone result (machine.new ≡ machine.old) }
    ensures fit { Fit unit.now machine.new.started }
    ensures setting { KeepsSetting machine.old.moment machine.new.moment }
{
    match machine.decide_next(unit, plan, parts.condition, bound) {
        Some(yes) => Some(side(parts, yes)),
        None => None,
    }
}

// The value of a `return` at once (C17 6.8.6.4p3), with the statement's turn.
fn return_at_once(
    unit: &TypedUnit,
    plan: &Plan,
    n: NodeId,
    value: Option<NodeId>,
    bound: u64,
    machine: &mut Machine,
) -> Option<Doing>
    requires codes { AreCodes unit.now plan.now }
    requires runnable { IsRunnable unit.now }
    requires value { returned_of (statement_at unit.now n) ≡ optional_in (nodes unit.now) value }
    requires there { IfSome value (IsExpression unit.now) }
    requires room { machine.old.moment.taken < bound }
    requires fit { Fit unit.now machine.old.started }
    ensures some { IfSome result (λ e. ComesAtOnce unit.now bound (Doing.Enter n) e machine.old machine.new) }
    ensures none { IfNone result (machine.new ≡ machine.old) }
    ensures fit { Fit unit.now machine.new.started }
    ensures setting { KeepsSetting machine.old.moment machine.new.moment }
{
    match value {
        None => None,
        Some(x) => {
            let v = machine.hand_next(unit, plan, x, bound)?;
            Some(Doing::Left(Flow::Returns(v)))
        }
    }
}

// The last expression of a loop at once (C17 6.8.5.3p1).
fn step_at_once(
    unit: &TypedUnit,
    plan: &Plan,
    x: NodeId,
    parts: RoundParts,
    bound: u64,
    machine: &mut Machine,
) -> Option<Doing>
    requires codes { AreCodes unit.now plan.now }
    requires runnable { IsRunnable unit.now }
    requires fits { IsStep unit.now x parts }
    requires fit { Fit unit.now machine.old.started }
    ensures some { IfSome result (λ e. ComesAtOnce unit.now bound (Doing.Again x parts) e machine.old machine.new) }
    ensures none { IfNone result (machine.new ≡ machine.old) }
    ensures fit { Fit unit.now machine.new.started }
    ensures setting { KeepsSetting machine.old.moment machine.new.moment }
{
    machine.whole_now(unit, plan, x, bound)?;
    Some(Doing::Round(parts))
}

// The condition of a loop at once, in a further round (C17 6.8.5p4).
fn round_at_once(
    unit: &TypedUnit,
    plan: &Plan,
    parts: RoundParts,
    bound: u64,
    machine: &mut Machine,
) -> Option<Doing>
    requires codes { AreCodes unit.now plan.now }
    requires runnable { IsRunnable unit.now }
    requires fits { IsRound unit.now parts }
    requires room { machine.old.moment.taken < bound }
    requires fit { Fit unit.now machine.old.started }
    ensures some { IfSome result (λ e. ComesAtOnce unit.now bound (Doing.Round parts) e machine.old machine.new) }
    ensures none { IfNone result (machine.new ≡ machine.old) }
    ensures fit { Fit unit.now machine.new.started }
    ensures setting { KeepsSetting machine.old.moment machine.new.moment }
{
    let yes = machine.decide_now(unit, plan, parts.condition, bound)?;
    Some(round_side(parts, yes))
}

// Whether a block has no objects of its own.
fn is_without_objects(unit: &TypedUnit, n: NodeId) -> bool
    requires there { IsStatement unit.now n }
    requires scope { is_scope_tree (statement_at unit.now n) ≡ true }
    ensures { IsTrue result → declared_of (statement_at unit.now n) ≡ [] }
{
    unit.declared(n).is_empty()
}

// A block without objects begins at once (C17 6.8.2p2): it takes its turn, and nothing ends behind it.
fn block_at_once(
    unit: &TypedUnit,
    n: NodeId,
    l: ListId,
    bound: u64,
    machine: &mut Machine,
) -> Option<Doing>
    requires bound { bound ≤ 10 ^ 8 }
    requires there { IsStatement unit.now n }
    requires value { items_of (statement_at unit.now n) ≡ items_read (nodes unit.now) unit.now.lists (statement_at unit.now n) (Some l) }
    requires list { HasList unit.now l }
    requires scope { is_scope_tree (statement_at unit.now n) ≡ true }
    requires room { machine.old.moment.taken < bound }
    requires fit { Fit unit.now machine.old.started }
    ensures some { IfSome result (λ e. ComesAtOnce unit.now bound (Doing.Enter n) e machine.old machine.new) }
    ensures none { IfNone result (machine.new ≡ machine.old) }
    ensures fit { Fit unit.now machine.new.started }
    ensures setting { KeepsSetting machine.old.moment machine.new.moment }
{
    if !is_without_objects(unit, n) {
        return None;
    }
    machine.tick();
    Some(Doing::Statements(l, 0))
}

// The whole of an expression statement, the condition of an `if`, the value of a `return`, or the beginning of a block, at once.
fn statement_at_once(
    unit: &TypedUnit,
    plan: &Plan,
    n: NodeId,
    bound: u64,
    machine: &mut Machine,
) -> Option<Doing>
    requires codes { AreCodes unit.now plan.now }
    requires runnable { IsRunnable unit.now }
    requires bound { bound ≤ 10 ^ 8 }
    requires there { IsStatement unit.now n }
    requires room { machine.old.moment.taken < bound }
    requires fit { Fit unit.now machine.old.started }
    ensures some { IfSome result (λ e. ComesAtOnce unit.now bound (Doing.Enter n) e machine.old machine.new) }
    ensures none { IfNone result (machine.new ≡ machine.old) }
    ensures fit { Fit unit.now machine.new.started }
    ensures setting { KeepsSetting machine.old.moment machine.new.moment }
{
    match unit.statement(n) {
        TypedStmt::Expression(x) => drop_at_once(unit, plan, n, x, bound, machine),
        TypedStmt::If(condition, body) => {
            let parts = ChoiceParts {
                condition,
                body,
                other: None,
            };
            choose_at_once(unit, plan, n, parts, bound, machine)
        }
        TypedStmt::IfElse(condition, body, other) => {
            let parts = ChoiceParts {
                condition,
                body,
                other: Some(other),
            };
            choose_at_once(unit, plan, n, parts, bound, machine)
        }
        TypedStmt::Return(value) => return_at_once(unit, plan, n, value, bound, machine),
        TypedStmt::Block(l) => block_at_once(unit, n, l, bound, machine),
        _ => None,
    }
}

// What is due at once, where nothing stops it and all its turns are within the bound: what is done behind it. `None` where that is
// not so: then nothing has changed.
fn at_once(
    unit: &TypedUnit,
    plan: &Plan,
    doing: &Doing,
    bound: u64,
    machine: &mut Machine,
) -> Option<Doing>
    requires codes { AreCodes unit.now plan.now }
    requires runnable { IsRunnable unit.now }
    requires bound { bound ≤ 10 ^ 8 }
    requires fits { DoingFits unit.now machine.old.started doing.now }
    requires room { machine.old.moment.taken < bound }
    requires fit { Fit unit.now machine.old.started }
    ensures some { IfSome result (λ e. ComesAtOnce unit.now bound doing.now e machine.old machine.new) }
    ensures none { IfNone result (machine.new ≡ machine.old) }
    ensures fit { Fit unit.now machine.new.started }
    ensures setting { KeepsSetting machine.old.moment machine.new.moment }
{
    match doing {
        Doing::Evaluate => expression_at_once(unit, plan, bound, machine),
        Doing::Enter(n) => statement_at_once(unit, plan, *n, bound, machine),
        Doing::Again(x, parts) => step_at_once(unit, plan, *x, *parts, bound, machine),
        Doing::Round(parts) => round_at_once(unit, plan, *parts, bound, machine),
        _ => None,
    }
}

// The turn that is due, and the operations that come before the next one.
fn turn(
    unit: &TypedUnit,
    tasks: &mut Vec<Task>,
    doing: Doing,
    bound: u64,
    machine: &mut Machine,
) -> Result<After, Failure>
    requires runnable { IsRunnable unit.now }
    requires bound { bound ≤ 10 ^ 8 }
    requires runs { Runs unit.now tasks.old.items machine.old.started doing }
    requires fit { Fit unit.now machine.old.started }
    requires due { due machine.old.started doing ≡ 1 }
    requires room { machine.old.moment.taken < bound }
    ensures holds { AdvancedLed unit.now bound doing result tasks.old.items tasks.new.items machine.old machine.new }
    ensures setting { KeepsSetting machine.old.moment machine.new.moment }
    ensures runs { AdvancedRuns unit.now tasks.new.items machine.new.started result }
    ensures taken { machine.new.moment.taken ≡ machine.old.moment.taken + 1 }
{
    match once(unit, tasks, doing, machine) {
        Ok(After::On(next)) => until_asked(unit, tasks, next, machine),
        Ok(After::Last(last)) => Ok(After::Last(last)),
        Err(e) => Err(e),
    }
}

// The operations that come before the next turn, that turn, and the operations behind it.
fn turn_ahead(
    unit: &TypedUnit,
    tasks: &mut Vec<Task>,
    doing: Doing,
    bound: u64,
    machine: &mut Machine,
) -> Result<After, Failure>
    requires runnable { IsRunnable unit.now }
    requires bound { bound ≤ 10 ^ 8 }
    requires runs { Runs unit.now tasks.old.items machine.old.started doing }
    requires fit { Fit unit.now machine.old.started }
    requires room { machine.old.moment.taken < bound }
    ensures holds { AdvancedLed unit.now bound doing result tasks.old.items tasks.new.items machine.old machine.new }
    ensures setting { KeepsSetting machine.old.moment machine.new.moment }
    ensures runs { AdvancedRuns unit.now tasks.new.items machine.new.started result }
    ensures few { machine.new.moment.taken ≤ machine.old.moment.taken + 1 }
    ensures pace { AdvancedPace bound machine.old.moment.taken machine.new.moment.taken result }
{
    match until_due(unit, tasks, doing, machine) {
        Ok(After::On(next)) => turn(unit, tasks, next, bound, machine),
        Ok(After::Last(last)) => Ok(After::Last(last)),
        Err(failure) => Err(failure),
    }
}

// The turn that is due, or the one that comes next, and the operations behind it.
fn turn_on(
    unit: &TypedUnit,
    tasks: &mut Vec<Task>,
    doing: Doing,
    bound: u64,
    machine: &mut Machine,
) -> Result<After, Failure>
    requires runnable { IsRunnable unit.now }
    requires bound { bound ≤ 10 ^ 8 }
    requires runs { Runs unit.now tasks.old.items machine.old.started doing }
    requires fit { Fit unit.now machine.old.started }
    requires room { machine.old.moment.taken < bound }
    ensures holds { AdvancedLed unit.now bound doing result tasks.old.items tasks.new.items machine.old machine.new }
    ensures setting { KeepsSetting machine.old.moment machine.new.moment }
    ensures runs { AdvancedRuns unit.now tasks.new.items machine.new.started result }
    ensures few { machine.new.moment.taken ≤ machine.old.moment.taken + 1 }
    ensures pace { AdvancedPace bound machine.old.moment.taken machine.new.moment.taken result }
{
    if is_due(&doing, machine) {
        turn(unit, tasks, doing, bound, machine)
    } else {
        turn_ahead(unit, tasks, doing, bound, machine)
    }
}

/// The turn that is due, unless the bound is met, and the operations that come before the next one; or all the turns at once of
/// an expression that is due, of a call that is due and its arguments, of an expression statement, of the condition of an `if` or of a
/// `return`, of the last expression or the condition of a loop, where nothing stops it, or that of a block without objects.
pub fn advance(
    unit: &TypedUnit,
    plan: &Plan,
    tasks: &mut Vec<Task>,
    doing: Doing,
    bound: u64,
    machine: &mut Machine,
) -> Result<After, Failure>
    requires codes { AreCodes unit.now plan.now }
    requires runnable { IsRunnable unit.now }
    requires bound { bound ≤ 10 ^ 8 }
    requires runs { Runs unit.now tasks.old.items machine.old.started doing }
    requires fit { Fit unit.now machine.old.started }
    requires asked { turn_due machine.old.started doing ≡ 1 }
    ensures holds { AdvancedLed unit.now bound doing result tasks.old.items tasks.new.items machine.old machine.new }
    ensures setting { KeepsSetting machine.old.moment machine.new.moment }
    ensures runs { AdvancedRuns unit.now tasks.new.items machine.new.started result }
    ensures cut { CutBefore unit.now doing tasks.old.items machine.old machine.new }
    ensures pace { AdvancedPace bound machine.old.moment.taken machine.new.moment.taken result }
{
    if machine.turns() >= bound {
        return Ok(After::Last(Last::Turns));
    }
    match at_once(unit, plan, &doing, bound, machine) {
        Some(next) => until_asked(unit, tasks, next, machine),
        None => turn_on(unit, tasks, doing, bound, machine),
    }
}
