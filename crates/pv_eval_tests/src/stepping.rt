// The machine, run on one expression.
ghost use Rattle.std.specs.Prelude.{◌≡◌, ◌<◌, [], length, IfOk, OnOk};
ghost use Rattle.pv_typed.specs.NodeTrees.{IsExpression};
ghost use Rattle.pv_eval.specs.MachineSteps.{Fit, WentTo};
ghost use Rattle.pv_eval.specs.Runnable.{IsRunnable};

use crate::units::{assignment, declared, literal, may_run};
use pv_eval::{Failure, Machine, Step};
use pv_num::IntKind;
use pv_object::Value;
use pv_script::Script;
use pv_tree::NodeId;
use pv_typed::TypedUnit;
use pv_types::Term;
use pv_world::Got;
use std::alloc::Global;
use std::process::Abort;

/// A machine that has made nothing.
fn empty_machine(rt: &impl Abort, alloc: Global, unit: &TypedUnit) -> Machine
    requires { IsRunnable unit.now }
    ensures { result.started ≡ [] }
{
    match Machine::new(alloc, unit, Script::empty(alloc), None, true) {
        Ok(machine) => machine,
        Err(_) => panic!(rt; "no machine"),
    }
}

/// A machine whose static object is there, each byte 0 (C17 6.7.9p10), and whose literal.
fn machine_of(rt: &impl Abort, alloc: Global, unit: &TypedUnit, i: u32, text: u32) -> Machine
    requires runnable { IsRunnable unit.now }
    requires object { i < length unit.now.objects }
    requires literal { text < length unit.now.literals }
    ensures { result.started ≡ [] }
{
    let mut machine = empty_machine(rt, alloc, unit);
    let made = machine.make(unit, 1, i);
    assert!(rt; made.is_ok());
    let filled = machine.fill(unit, i, Some(0));
    assert!(rt; filled.is_ok());
    let made = machine.make_literal(unit, 1, text);
    assert!(rt; made.is_ok());
    assert!(rt; machine.waiting().len() == 2);
    machine.waiting().clear();
    assert!(rt; machine.is_quiet());
    machine
}

/// The expression is started, and nothing else was.
fn begin(unit: &TypedUnit, machine: &mut Machine, n: NodeId) -> Result<(), Failure>
    requires node { IsExpression unit.now n }
    requires none { machine.old.started ≡ [] }
    ensures { OnOk result (Fit unit.now machine.new.started) }
{
    machine.start(n)
}

/// A step that takes a turn.
fn turn(rt: &impl Abort, unit: &TypedUnit, machine: &mut Machine) -> Result<Step, Failure>
    requires runnable { IsRunnable unit.now }
    requires fit { Fit unit.now machine.old.started }
    ensures fit { OnOk result (Fit unit.now machine.new.started) }
    ensures which { IfOk result (λ x. WentTo unit.now x machine.new.started) }
{
    assert!(rt; machine.due());
    assert!(rt; machine.turns() < 100_000_000);
    machine.step(unit)
}

/// The value of an expression, or why there is none.
fn evaluate(
    rt: &impl Abort,
    unit: &TypedUnit,
    machine: &mut Machine,
    n: NodeId,
) -> Result<Got, Failure>
    requires runnable { IsRunnable unit.now }
    requires node { IsExpression unit.now n }
    requires none { machine.old.started ≡ [] }
{
    match begin(unit, machine, n) {
        Ok(()) => {}
        Err(e) => return Err(e),
    }
    'steps: for _ in 0..100u32 {
        match turn(rt, unit, machine) {
            Ok(step) => match step {
                Step::More => {}
                Step::Done => return Ok(machine.value()),
                Step::Call(_) => panic!(rt; "a call of the program's"),
            },
            Err(e) => return Err(e),
        }
    }
    panic!(rt; "too many steps")
}

/// The turn of a statement, and the end of the object.
fn end(rt: &impl Abort, unit: &TypedUnit, machine: &mut Machine, i: u32)
    requires runnable { IsRunnable unit.now }
    requires object { i < length unit.now.objects }
{
    assert!(rt; machine.turns() < 100_000_000);
    machine.tick();
    let ended = machine.finish(unit, i);
    assert!(rt; ended.is_ok());
    assert!(rt; machine.waiting().len() == 1);
}

#[test]
fn an_assignment_is_evaluated(rt: HostRuntime) {
    let alloc = rt.alloc();
    let mut unit = TypedUnit::new(alloc).expect(&rt, "no memory");
    let int = unit
        .intern(Term::Int(IntKind::Int))
        .expect(&rt, "no memory");
    let i = declared(&rt, &mut unit, int);
    let text = literal(&rt, &mut unit, int);
    let n = assignment(&rt, &mut unit, int, i);
    may_run(&unit);
    let mut machine = machine_of(&rt, alloc, &unit, i, text);
    let value = evaluate(&rt, &unit, &mut machine, n);
    assert!(&rt; matches!(value, Ok(Got::Scalar(Value::Int(42)))));
    assert!(&rt; machine.turns() == 3 && machine.printed().is_empty());
    end(&rt, &unit, &mut machine, i);
    assert!(&rt; machine.turns() == 4);
}
