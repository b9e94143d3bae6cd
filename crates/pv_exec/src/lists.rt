// The statements of lists (C17 6.8.2), and the declarations of a `for`.
ghost use Rattle.std.specs.Prelude.{◌≡◌, ◌<◌, length, OnOk, IfOk, IfSome, None};
ghost use Rattle.pv_typed.specs.TypedUnits.{object_at};
ghost use Rattle.pv_typed.specs.NodeTrees.{statement_at, IsStatement};
ghost use Rattle.pv_eval.specs.Moments.{Stays, Always, state_of, IsMemory, Made};
ghost use Rattle.pv_eval.specs.MachineSteps.{Fit};
ghost use Rattle.pv_eval.specs.Runnable.{IsRunnable};
ghost use Rattle.pv_exec.specs.Leading.{FlowLed, DoingLed};
ghost use Rattle.pv_exec.specs.Fits.{WayFitsOr, HasList};
ghost use Rattle.pv_exec.specs.Quickness.{QuickOr, EndsOr, WithinOr};
ghost use Rattle.pv_exec.specs.OfRuns.{begin_fill};
ghost use Rattle.pv_exec.specs.Items.{declared_in, ItemOr, ItemFits};

use crate::parts::declarations;
use crate::statements::begin_round;
use crate::task::{Doing, Flow, Task, Way};
use pv_eval::{Failure, Machine};
use pv_tree::{ListId, NodeId};
use pv_typed::{TypedStmt, TypedUnit};

/// After a statement of a list, the next one.
pub fn after_statement(
    unit: &TypedUnit,
    l: ListId,
    i: usize,
    flow: Flow,
    machine: &mut Machine,
) -> Result<Way, Failure>
    requires runnable { IsRunnable unit.now }
    requires list { HasList unit.now l }
    requires fit { Fit unit.now machine.old.started }
    ensures led { FlowLed unit.now (Task.InList l i) flow result machine.old machine.new }
    ensures stays { Stays machine.old.moment machine.new.moment }
    ensures fit { OnOk result (Fit unit.now machine.new.started) }
    ensures ways { WayFitsOr unit.now machine.old.started machine.new.started result }
    ensures quick { QuickOr machine.new.started result }
{
    match flow {
        Flow::Falls => next_statement(unit, l, i, machine),
        Flow::Breaks => Ok(Way::Do(Doing::Left(Flow::Breaks))),
        Flow::Continues => Ok(Way::Do(Doing::Left(Flow::Continues))),
        Flow::Returns(v) => Ok(Way::Do(Doing::Left(Flow::Returns(v)))),
    }
}

/// After the declarations of a `for`, its first round (C17 6.8.5.3).
pub fn after_declarations(
    unit: &TypedUnit,
    n: NodeId,
    flow: Flow,
    machine: &mut Machine,
) -> Result<Way, Failure>
    requires there { IsStatement unit.now n }
    requires fit { Fit unit.now machine.old.started }
    ensures led { FlowLed unit.now (Task.Declared n) flow result machine.old machine.new }
    ensures stays { Stays machine.old.moment machine.new.moment }
    ensures fit { OnOk result (Fit unit.now machine.new.started) }
    ensures ways { WayFitsOr unit.now machine.old.started machine.new.started result }
    ensures quick { QuickOr machine.new.started result }
{
    match flow {
        Flow::Falls => begin_round(unit, n, machine),
        Flow::Breaks => Ok(Way::Do(Doing::Left(Flow::Breaks))),
        Flow::Continues => Ok(Way::Do(Doing::Left(Flow::Continues))),
        Flow::Returns(v) => Ok(Way::Do(Doing::Left(Flow::Returns(v)))),
    }
}

/// What stands within a `for` with a declaration.
pub fn within(unit: &TypedUnit, n: NodeId, machine: &mut Machine) -> Result<Way, Failure>
    requires there { IsStatement unit.now n }
    requires fit { Fit unit.now machine.old.started }
    ensures led { DoingLed unit.now (Doing.Within n) result machine.old machine.new }
    ensures fit { OnOk result (Fit unit.now machine.new.started) }
    ensures ways { WayFitsOr unit.now machine.old.started machine.new.started result }
    ensures pace { WithinOr machine.new.started result }
    ensures moment { machine.new.moment ≡ machine.old.moment }
{
    match declarations(unit, n) {
        None => Ok(Way::Do(Doing::Left(Flow::Falls))),
        Some(l) => Ok(Way::With(Task::Declared(n), Doing::Statements(l, 0))),
    }
}

/// What comes next in a list of statements, with the place behind it.
#[derive(Clone, Copy)]
pub enum Item {
    /// There is none: the list has ended.
    End,
    /// A statement, and the place behind it.
    Statement(NodeId, usize),
    /// A declaration with stores.
    Stores(u32, usize),
}

// The object that a statement declares.
fn declared(unit: &TypedUnit, n: NodeId) -> Option<u32>
    requires there { IsStatement unit.now n }
    ensures value { result ≡ declared_in (statement_at unit.now n) }
    ensures there { IfSome result (λ o. o < length unit.now.objects) }
{
    match unit.statement(n) {
        TypedStmt::Declare(o) => Some(o),
        TypedStmt::Block(_) => None,
        TypedStmt::Expression(_) => None,
        TypedStmt::Empty => None,
        TypedStmt::If(_, _) => None,
        TypedStmt::IfElse(_, _, _) => None,
        TypedStmt::Switch(_, _) => None,
        TypedStmt::Case(_, _) => None,
        TypedStmt::Default(_) => None,
        TypedStmt::While(_, _) => None,
        TypedStmt::DoWhile(_, _) => None,
        TypedStmt::For {
            first: _,
            condition: _,
            step: _,
            body: _,
        } => None,
        TypedStmt::ForDeclaration {
            declarations: _,
            condition: _,
            step: _,
            body: _,
        } => None,
        TypedStmt::Continue => None,
        TypedStmt::Break => None,
        TypedStmt::Return(_) => None,
    }
}

// A declaration is reached: the bytes of its object before its stores (C17 6.2.4p6, 6.7.9p10, p19).
fn reach(unit: &TypedUnit, o: u32, machine: &mut Machine) -> Result<(), Failure>
    requires runnable { IsRunnable unit.now }
    requires there { o < length unit.now.objects }
    ensures made { Always unit.now machine.old.moment (λ b out es. Made (begin_fill b o (object_at b.unit o).braced (object_at b.unit o).inits (state_of machine.old.moment out es)) result (state_of machine.new.moment out es)) }
    ensures started { machine.new.started ≡ machine.old.started }
    ensures stays { Stays machine.old.moment machine.new.moment }
    ensures memory { IsMemory result }
{
    if unit.object(o).braced {
        return machine.fill(unit, o, Some(0));
    }
    if unit.inits(o).is_empty() {
        return machine.fill(unit, o, None);
    }
    Ok(())
}

// What comes next: declarations without stores are passed.
fn next_item(unit: &TypedUnit, l: ListId, i: usize, machine: &mut Machine) -> Result<Item, Failure>
    requires runnable { IsRunnable unit.now }
    requires list { HasList unit.now l }
    ensures item { Always unit.now machine.old.moment (λ b out es. ItemOr b unit.now l i result (state_of machine.old.moment out es) (state_of machine.new.moment out es)) }
    ensures fits { IfOk result (ItemFits unit.now) }
    ensures started { machine.new.started ≡ machine.old.started }
    ensures stays { Stays machine.old.moment machine.new.moment }
    ensures memory { IsMemory result }
{
    let items = unit.children(l);
    let mut i = i;
    'items: while i < items.len() {
        let n = items[i];
        i += 1;
        let Some(o) = declared(unit, n) else {
            return Ok(Item::Statement(n, i));
        };
        if reach(unit, o, machine).is_err() {
            return Err(Failure::NoMemory);
        }
        if !unit.inits(o).is_empty() {
            return Ok(Item::Stores(o, i));
        }
    }
    Ok(Item::End)
}

/// The next statement of a list, or its end.
pub fn next_statement(
    unit: &TypedUnit,
    l: ListId,
    i: usize,
    machine: &mut Machine,
) -> Result<Way, Failure>
    requires runnable { IsRunnable unit.now }
    requires list { HasList unit.now l }
    requires fit { Fit unit.now machine.old.started }
    ensures led { DoingLed unit.now (Doing.Statements l i) result machine.old machine.new }
    ensures stays { Stays machine.old.moment machine.new.moment }
    ensures fit { OnOk result (Fit unit.now machine.new.started) }
    ensures ways { WayFitsOr unit.now machine.old.started machine.new.started result }
    ensures quick { EndsOr machine.new.started result }
{
    match next_item(unit, l, i, machine) {
        Ok(Item::End) => Ok(Way::Do(Doing::Left(Flow::Falls))),
        Ok(Item::Statement(n, next)) => Ok(Way::With(Task::InList(l, next), Doing::Enter(n))),
        Ok(Item::Stores(o, next)) => Ok(Way::With(Task::InList(l, next), Doing::Store(o, 0))),
        Err(e) => Err(e),
    }
}
