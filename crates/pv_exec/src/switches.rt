// Labels of a `switch`, and the jump to one of them (C17 6.8.4.2).
ghost use Rattle.std.specs.Prelude.{◌≡◌, ◌+◌, ◌<◌, ◌^◌, ℕ, List, true, false, OnOk, IfSome, None};
ghost use Rattle.pv_typed.specs.NodeTrees.{expression_at, statement_at, IsExpression, IsStatement};
ghost use Rattle.pv_eval.specs.States.{Setting, State};
ghost use Rattle.pv_eval.specs.Moments.{Stays};
ghost use Rattle.pv_eval.specs.Machines.{Started, is_ended, after_first};
ghost use Rattle.pv_eval.specs.MachineSteps.{Fit, KeepsSetting};
ghost use Rattle.pv_eval.specs.Runnable.{IsRunnable};
ghost use Rattle.pv_exec.specs.Labels.{is_target};
ghost use Rattle.pv_exec.specs.OfRuns.{below};
ghost use Rattle.pv_exec.specs.Parts.{selection_of, selection_by, items_of, jumps};
ghost use Rattle.pv_exec.specs.Tasks.{statements_from, left_flow};
ghost use Rattle.pv_exec.specs.Leading.{Leads, ValueLed, DoingLed};
ghost use Rattle.pv_exec.specs.Fits.{WayFits, WayFitsOr, HasList, IsScope};
ghost use Rattle.pv_exec.specs.Quickness.{Quick, QuickOr};
ghost use Rattle.pv_exec.specs.Switches.{target, some_target, LabelIs, LabelFits, is_value_of, is_default_label, Finds, Reaches, selection_in, selection_read, SelectionFits};

use crate::blocks::make_objects;
use crate::parts::block_items;
use crate::task::{Doing, Flow, Task, Way};
use pv_eval::{Failure, Machine};
use pv_tree::{ListId, NodeId};
use pv_typed::{TypedStmt, TypedUnit};

/// The parts of a `switch` whose body is a block.
#[derive(Clone, Copy)]
pub struct SwitchParts {
    pub value: NodeId,
    pub block: NodeId,
    pub items: ListId,
}

/// A label that is looked for.
#[derive(Clone, Copy)]
pub enum Label {
    /// The `case` of this value (C17 6.8.4.2p5).
    Value(i128),
    /// `default`.
    Default,
}

/// What a statement is, behind a label.
#[derive(Clone, Copy)]
pub enum Labelled {
    /// A `case` of this value, and the statement behind it (C17 6.8.1p1).
    Case(i128, NodeId),
    /// A `default`, and the statement behind it.
    Default(NodeId),
    /// A statement without such a label.
    Plain,
}

// The label before a statement.
fn label_of(unit: &TypedUnit, n: NodeId) -> Labelled
    requires there { IsStatement unit.now n }
    ensures target { LabelIs unit.now (statement_at unit.now n) result }
    ensures there { LabelFits unit.now n result }
{
    match unit.statement(n) {
        TypedStmt::Case(v, x) => Labelled::Case(v, x),
        TypedStmt::Default(x) => Labelled::Default(x),
        TypedStmt::Block(_) => Labelled::Plain,
        TypedStmt::Declare(_) => Labelled::Plain,
        TypedStmt::Expression(_) => Labelled::Plain,
        TypedStmt::Empty => Labelled::Plain,
        TypedStmt::If(_, _) => Labelled::Plain,
        TypedStmt::IfElse(_, _, _) => Labelled::Plain,
        TypedStmt::Switch(_, _) => Labelled::Plain,
        TypedStmt::While(_, _) => Labelled::Plain,
        TypedStmt::DoWhile(_, _) => Labelled::Plain,
        TypedStmt::For {
            first: _,
            condition: _,
            step: _,
            body: _,
        } => Labelled::Plain,
        TypedStmt::ForDeclaration {
            declarations: _,
            condition: _,
            step: _,
            body: _,
        } => Labelled::Plain,
        TypedStmt::Continue => Labelled::Plain,
        TypedStmt::Break => Labelled::Plain,
        TypedStmt::Return(_) => Labelled::Plain,
    }
}

// Whether a statement has a label.
fn has_label(unit: &TypedUnit, n: NodeId, label: Label) -> bool
    requires there { IsStatement unit.now n }
    ensures { result ≡ is_target (target label) (statement_at unit.now n) }
{
    let mut n = n;
    'labels: loop {
        match label_of(unit, n) {
            Labelled::Plain => return false,
            Labelled::Case(v, x) => {
                if is_value(label, v) {
                    return true;
                }
                n = x;
            }
            Labelled::Default(x) => {
                if is_default(label) {
                    return true;
                }
                n = x;
            }
        }
    }
}

// Whether a label is that of this value.
fn is_value(label: Label, v: i128) -> bool
    ensures { result ≡ is_value_of label v }
{
    match label {
        Label::Value(w) => v == w,
        Label::Default => false,
    }
}

// Whether a label is `default`.
fn is_default(label: Label) -> bool
    ensures { result ≡ is_default_label label }
{
    match label {
        Label::Value(_) => false,
        Label::Default => true,
    }
}

// The first statement of a list that has a label.
fn find_label(unit: &TypedUnit, l: ListId, label: Label) -> Option<usize>
    requires list { HasList unit.now l }
    ensures none { result ≡ None → some_target (target label) (statements_from unit.now l 0) ≡ false }
    ensures some { IfSome result (Finds unit.now l (target label)) }
{
    let items = unit.children(l);
    let mut i = 0;
    'items: while i < items.len() {
        if has_label(unit, items[i], label) {
            return Some(i);
        }
        i += 1;
    }
    None
}

// Where a `switch` with this value begins in the list of its body.
fn target(unit: &TypedUnit, l: ListId, v: i128) -> Option<usize>
    requires list { HasList unit.now l }
    ensures { Reaches unit.now l v result }
{
    match find_label(unit, l, Label::Value(v)) {
        Some(i) => Some(i),
        None => find_label(unit, l, Label::Default),
    }
}

// The parts of a `switch` with this body.
fn switch_by(unit: &TypedUnit, value: NodeId, block: NodeId) -> Option<SwitchParts>
    requires value { IsExpression unit.now value }
    requires there { IsStatement unit.now block }
    ensures value { selection_by (expression_at unit.now value) (items_of (statement_at unit.now block)) ≡ selection_read unit.now result }
    ensures there { IfSome result (SelectionFits unit.now) }
{
    match block_items(unit, block) {
        Some(items) => Some(SwitchParts {
            value,
            block,
            items,
        }),
        None => None,
    }
}

// The parts of a `switch`, where the statement is one with a block.
fn switch_parts(unit: &TypedUnit, n: NodeId) -> Option<SwitchParts>
    requires there { IsStatement unit.now n }
    ensures value { selection_of (statement_at unit.now n) ≡ selection_read unit.now result }
    ensures there { IfSome result (SelectionFits unit.now) }
{
    match unit.statement(n) {
        TypedStmt::Switch(value, block) => switch_by(unit, value, block),
        TypedStmt::Block(_) => None,
        TypedStmt::Declare(_) => None,
        TypedStmt::Expression(_) => None,
        TypedStmt::Empty => None,
        TypedStmt::If(_, _) => None,
        TypedStmt::IfElse(_, _, _) => None,
        TypedStmt::Case(_, _) => None,
        TypedStmt::Default(_) => None,
        TypedStmt::While(_, _) => None,
        TypedStmt::DoWhile(_, _) => None,
        TypedStmt::For {
            first: _,
            condition: _,
            step: _,
            body: _,
        } => None,
        TypedStmt::ForDeclaration {
            declarations: _,
            condition: _,
            step: _,
            body: _,
        } => None,
        TypedStmt::Continue => None,
        TypedStmt::Break => None,
        TypedStmt::Return(_) => None,
    }
}

// To the label for this value, or behind the `switch`.
fn jump_to(unit: &TypedUnit, parts: SwitchParts, v: i128) -> Way
    requires there { SelectionFits unit.now parts }
    ensures led { (b : Setting) (k : ℕ) (es : List Started) (s : State) → b.bound < s.taken + k → Leads b unit.now (left_flow (jumps b (below b k) v (selection_in unit.now parts).block s)) es result es s }
    ensures ways { (es : List Started) → WayFits unit.now es es result × Quick es result }
{
    match target(unit, parts.items, v) {
        None => Way::Do(Doing::Left(Flow::Falls)),
        Some(i) => Way::With(Task::InSwitch, Doing::Jump(parts.block, parts.items, i)),
    }
}

/// The expression of a `switch` was evaluated.
pub fn after_selection(unit: &TypedUnit, n: NodeId, machine: &mut Machine) -> Result<Way, Failure>
    requires runnable { IsRunnable unit.now }
    requires there { IsStatement unit.now n }
    requires ended { is_ended machine.old.started ≡ true }
    requires fit { Fit unit.now machine.old.started }
    ensures led { ValueLed unit.now (Task.Selecting n) result machine.old machine.new }
    ensures stays { Stays machine.old.moment machine.new.moment }
    ensures fit { OnOk result (Fit unit.now machine.new.started) }
    ensures ways { WayFitsOr unit.now (after_first machine.old.started) machine.new.started result }
    ensures quick { QuickOr machine.new.started result }
{
    match switch_parts(unit, n) {
        None => {
            machine.value();
            Ok(Way::Do(Doing::Left(Flow::Falls)))
        }
        Some(parts) => match machine.need(unit, parts.value) {
            Ok(v) => Ok(jump_to(unit, parts, v)),
            Err(e) => Err(e),
        },
    }
}

/// The block of a `switch` is entered at a statement of its list.
pub fn jump(
    unit: &TypedUnit,
    n: NodeId,
    l: ListId,
    i: usize,
    machine: &mut Machine,
) -> Result<Way, Failure>
    requires runnable { IsRunnable unit.now }
    requires scope { IsScope unit.now n }
    requires list { HasList unit.now l }
    requires fit { Fit unit.now machine.old.started }
    requires turn { machine.old.moment.taken < 10 ^ 8 }
    ensures led { DoingLed unit.now (Doing.Jump n l i) result machine.old machine.new }
    ensures setting { KeepsSetting machine.old.moment machine.new.moment }
    ensures taken { machine.new.moment.taken ≡ machine.old.moment.taken + 1 }
    ensures fit { OnOk result (Fit unit.now machine.new.started) }
    ensures ways { WayFitsOr unit.now machine.old.started machine.new.started result }
{
    machine.tick();
    match make_objects(unit, n, machine) {
        Ok(()) => Ok(Way::With(Task::InBlock(n), Doing::Statements(l, i))),
        Err(e) => Err(e),
    }
}
