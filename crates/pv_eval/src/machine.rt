// The machine of expressions: the moment, and the expressions that were started.
ghost use Rattle.std.specs.Prelude.{◌≡◌, ℕ, ◌+◌, ◌<◌, ◌≤◌, ◌^◌, ◌==◌, ◌&&◌, true, false, length, map, IfOk, IfSome, IfNone, OnOk};
ghost use Rattle.std.specs.Borrow.{Lends, sem};
ghost use Rattle.pv_eval.specs.Rows.{bytes_row, events_row};
ghost use Rattle.pv_eval.specs.contracts.machine.Machine.{the_row};
ghost use Rattle.pv_types.specs.Known.{tree};
ghost use Rattle.pv_typed.specs.Tables.{Stored};
ghost use Rattle.pv_typed.specs.NodeTrees.{expression_at, IsExpression};
ghost use Rattle.pv_world.specs.Worlds.{Nothing};
ghost use Rattle.pv_world.specs.Coming.{worth_of};
ghost use Rattle.pv_eval.specs.Constants.{constant_worth};
ghost use Rattle.pv_eval.specs.Siding.{high_side};
ghost use Rattle.pv_eval.specs.Runnable.{IsRunnable};
ghost use Rattle.pv_eval.specs.States.{Gives};
ghost use Rattle.pv_eval.specs.TypeForms.{lvalue, size_of};
ghost use Rattle.pv_eval.specs.Operations.{Tests, BeginsBody, EndsBody, Makes, MakesLiteral, MakesFunction, Ends, Fills, Puts, PutsText, act};
ghost use Rattle.pv_eval.specs.Moments.{sides_of, state_of, Always, Came, Tested, Made, Needed, IsMemory, Stays};
ghost use Rattle.pv_eval.specs.Machines.{first_machine, ended_value, is_due, is_going, is_ended, is_asked, asked_function, asked_arguments, asked_line, due_turns, after_first};
ghost use Rattle.pv_eval.specs.MachineSteps.{IsBegun, IsTaken, IsAnswered, IsOpen, Fit, WentTo, KeepsSetting};
ghost use Rattle.pv_eval.specs.Pieces.{handed_at, needed_of};
ghost use Rattle.pv_eval.specs.Progress.{StepsMachine, MadeAnywhere};
ghost use Rattle.pv_eval.specs.Codes.{AreCodes};
ghost use Rattle.pv_eval.specs.AtOnce.{EvaluatedFirst, ContinuesFirst, CutFirst, EvaluatedNext, CutNext, TestedNext, HandedNext, Evaluated, Cut, TestedNow};

use crate::converting::{hand_on, need};
use crate::failure::Failure;
use crate::frames::Step;
use crate::marked::Marked;
use crate::moment::Moment;
use crate::plan::Plan;
use crate::started::{Stacks, Started};
use crate::values::Kept;
use pv_script::Script;
use pv_seq::Access;
use pv_tree::NodeId;
use pv_typed::{Const, TypedUnit};
use pv_types::TypeId;
use pv_world::{Got, World};
use std::alloc::Global;
use std::collections::VecDeque;
use std::marker::Model;

/// What a run has in hand, and the expressions in progress, the innermost first: each but that one waits for a call.
#[derive(Drop)]
pub struct Machine {
    alloc: Global,
    moment: Moment,
    started: VecDeque<Started>,
    /// Stacks of expressions that have ended.
    spare: Vec<Stacks>,
    /// For what an operand reads that is evaluated at once.
    notes: Vec<Access>,
    /// For the arguments of a call that are evaluated at once.
    arguments: Vec<Got>,
}

impl Model for Machine {
    ghost use Rattle.std.specs.Coded.{codes};
    ghost use Rattle.pv_inst.specs.CountsCode.{counts_code};
    ghost use Rattle.pv_object.specs.Codes.{store_code};
    ghost use Rattle.pv_eval.specs.Machines.{Machine as MachineView};

    ghost Value = { MachineView };

    ghost coded = { Prim.hlevel (codes, counts_code, store_code) };

    ghost view = { λ m. record { moment = m.moment; started = m.started.items } };
}

impl Machine {
    /// Nothing made, printed, told or started; in a settled run with the sides of its pairs. With `zap` a pointer to what
    /// has ended is indeterminate (C17 6.2.4p2), and a use of it that asks for a live instance is undefined.
    pub fn new(
        alloc: Global,
        unit: &TypedUnit,
        script: Script,
        sides: Option<Vec<bool>>,
        zap: bool,
    ) -> Result<Machine, Failure>
        requires runnable { IsRunnable unit.now }
        ensures value { IfOk result (λ m. m ≡ first_machine script (sides_of sides) zap) }
        ensures memory { IsMemory result }
    {
        match Moment::new(alloc, script, unit.names(), sides, zap) {
            Ok(moment) => Ok(Machine {
                alloc,
                moment,
                started: VecDeque::new(alloc),
                spare: Vec::new(alloc),
                notes: Vec::new(alloc),
                arguments: Vec::new(alloc),
            }),
            Err(e) => Err(e),
        }
    }

    /// The value of a constant (C17 6.6), by the places of static objects and literals.
    pub fn constant(&self, c: Const) -> Got
        ensures { worth_of result ≡ constant_worth self.now.moment.world c }
    {
        self.moment.constant(c)
    }

    /// How many pairs were made.
    pub fn pairs(&self) -> u64
        ensures { result ≡ length self.now.moment.world.memory.table.pairs }
    {
        self.moment.pairs()
    }

    /// Whether a pair keeps its high candidate alone, counted from 0.
    pub fn is_high(&self, k: u64) -> bool
        requires { k < length self.now.moment.world.memory.table.pairs }
        ensures { result ≡ high_side self.now.moment.world k }
    {
        self.moment.is_high(k)
    }

    /// Whether the next step takes a turn.
    pub fn due(&self) -> bool
        ensures { result ≡ is_due self.now.started }
    {
        match self.started.front() {
            Some(e) => e.due(),
            None => false,
        }
    }

    /// Takes a statement's turn.
    pub fn tick(&mut self)
        requires { self.old.moment.taken < 10 ^ 8 }
        ensures moment { self.new.moment ≡ record self.old.moment { taken = self.old.moment.taken + 1 } }
        ensures started { self.new.started ≡ self.old.started }
    {
        self.moment.tick();
    }

    /// The turns taken.
    pub fn turns(&self) -> u64
        ensures { result ≡ self.now.moment.taken }
    {
        self.moment.turns()
    }

    /// Starts an expression, which is the innermost one then.
    #[inline(always)]
    pub fn start(&mut self, n: NodeId) -> Result<(), Failure>
        ensures begun { OnOk result (IsBegun n self.new.started self.old.started) }
        ensures moment { self.new.moment ≡ self.old.moment }
        ensures fit { (u : Stored) → IsExpression u n → Fit u self.old.started → OnOk result (Fit u self.new.started) }
        ensures memory { IsMemory result }
    {
        let Ok(stacks) = Stacks::of(&mut self.spare, self.alloc) else {
            return Err(Failure::NoMemory);
        };
        match self.started.push_front(Started::new(stacks, n)) {
            Ok(()) => Ok(()),
            Err(_) => Err(Failure::NoMemory),
        }
    }

    /// One turn of the innermost expression, and what comes before the next.
    pub fn step(&mut self, unit: &TypedUnit) -> Result<Step, Failure>
        requires runnable { IsRunnable unit.now }
        requires going { is_going self.old.started ≡ true }
        requires fit { Fit unit.now self.old.started }
        requires turn { is_due self.old.started ≡ true → self.old.moment.taken < 10 ^ 8 }
        ensures rest { StepsMachine unit.now result self.old self.new }
        ensures others { after_first self.new.started ≡ after_first self.old.started }
        ensures which { IfOk result (λ x. WentTo unit.now x self.new.started) }
        ensures fit { OnOk result (Fit unit.now self.new.started) }
        ensures taken { self.new.moment.taken ≡ self.old.moment.taken + due_turns self.old.started }
        ensures stays { KeepsSetting self.old.moment self.new.moment }
    {
        match self.started.front_mut() {
            Some(e) => e.step(self.alloc, unit, &mut self.moment),
            None => unreachable!(),
        }
    }

    /// The whole of the innermost expression at once, where it was just begun, is plain but for a store at its root, where
    /// nothing stops it, and where its turns are within the bound. Then it has ended, with its value; its turns were taken,
    /// nothing was printed, and nothing happened that is told. False where that is not so: then nothing has changed.
    pub fn whole(&mut self, unit: &TypedUnit, plan: &Plan, bound: u64) -> bool
        requires codes { AreCodes unit.now plan.now }
        requires runnable { IsRunnable unit.now }
        requires fit { Fit unit.now self.old.started }
        ensures whole { result ≡ true → EvaluatedFirst unit.now self.old self.new }
        ensures cut { result ≡ true → CutFirst unit.now self.old self.new }
        ensures more { result ≡ true → self.old.moment.taken < self.new.moment.taken }
        ensures within { result ≡ true → self.new.moment.taken ≤ bound }
        ensures ended { result ≡ true → is_ended self.new.started ≡ true }
        ensures others { after_first self.new.started ≡ after_first self.old.started }
        ensures fit { Fit unit.now self.new.started }
        ensures same { result ≡ false → self.new ≡ self.old }
        ensures stays { KeepsSetting self.old.moment self.new.moment }
    {
        match self.started.front_mut() {
            Some(e) => e.whole(unit, plan, bound, &mut self.moment),
            None => false,
        }
    }

    /// The operand that is due in the innermost expression at once, where it is plain, all accesses of the expression so far read,
    /// nothing stops it, and its turns are within the bound. Then it has its value; its turns were taken, nothing was printed, and
    /// nothing happened that is told. False where that is not so: then nothing has changed.
    pub fn operand(&mut self, unit: &TypedUnit, plan: &Plan, bound: u64) -> bool
        requires codes { AreCodes unit.now plan.now }
        requires runnable { IsRunnable unit.now }
        requires fit { Fit unit.now self.old.started }
        ensures goes { result ≡ true → ContinuesFirst unit.now self.old self.new }
        ensures cut { result ≡ true → CutFirst unit.now self.old self.new }
        ensures more { result ≡ true → self.old.moment.taken < self.new.moment.taken }
        ensures within { result ≡ true → self.new.moment.taken ≤ bound }
        ensures ended { result ≡ true → is_ended self.new.started ≡ true }
        ensures others { after_first self.new.started ≡ after_first self.old.started }
        ensures fit { Fit unit.now self.new.started }
        ensures same { result ≡ false → self.new ≡ self.old }
        ensures stays { KeepsSetting self.old.moment self.new.moment }
    {
        match self.started.front_mut() {
            Some(e) => e.operand(unit, plan, bound, &mut self.moment, &mut self.notes),
            None => false,
        }
    }

    /// The call of a function of the program that is due in the innermost expression, with all its arguments at once, where these are plain,
    /// all accesses of the expression so far read, nothing stops them, and their turns are within the bound. Then it is handed up, as `callee`
    /// says; its turns were taken, nothing was printed, and nothing happened that is told. False where that is not so: then nothing has changed.
    pub fn call(&mut self, unit: &TypedUnit, plan: &Plan, bound: u64) -> bool
        requires codes { AreCodes unit.now plan.now }
        requires runnable { IsRunnable unit.now }
        requires fit { Fit unit.now self.old.started }
        ensures goes { result ≡ true → ContinuesFirst unit.now self.old self.new }
        ensures cut { result ≡ true → CutFirst unit.now self.old self.new }
        ensures more { result ≡ true → self.old.moment.taken < self.new.moment.taken }
        ensures within { result ≡ true → self.new.moment.taken ≤ bound }
        ensures called { result ≡ true → is_asked self.new.started ≡ true }
        ensures others { after_first self.new.started ≡ after_first self.old.started }
        ensures fit { Fit unit.now self.new.started }
        ensures same { result ≡ false → self.new ≡ self.old }
        ensures stays { KeepsSetting self.old.moment self.new.moment }
    {
        match self.started.front_mut() {
            Some(e) => e.call(
                unit,
                plan,
                bound,
                &mut self.moment,
                &mut self.notes,
                &mut self.arguments,
            ),
            None => false,
        }
    }

    /// A statement's turn, and its full expression at once, which is not started: where it is plain but for a store at its
    /// root, where nothing stops it, and where its turns are within the bound. Its value is given, its turns were taken,
    /// nothing was printed, and nothing happened that is told. `None` where that is not so: then nothing has changed.
    pub fn whole_next(
        &mut self,
        unit: &TypedUnit,
        plan: &Plan,
        n: NodeId,
        bound: u64,
    ) -> Option<Got>
        requires codes { AreCodes unit.now plan.now }
        requires runnable { IsRunnable unit.now }
        requires there { IsExpression unit.now n }
        requires room { self.old.moment.taken < bound }
        ensures some { IfSome result (λ v. EvaluatedNext unit.now n (worth_of v) self.old.moment self.new.moment) }
        ensures cut { IfSome result (λ v. CutNext unit.now n self.old.moment self.new.moment) }
        ensures more { IfSome result (λ v. self.old.moment.taken + 1 < self.new.moment.taken) }
        ensures within { IfSome result (λ v. self.new.moment.taken ≤ bound) }
        ensures none { IfNone result (self.new ≡ self.old) }
        ensures started { self.new.started ≡ self.old.started }
        ensures stays { KeepsSetting self.old.moment self.new.moment }
    {
        self.moment.whole_next(unit, plan, n, bound)
    }

    /// A statement's turn, and its controlling expression at once, which is not started: whether it compares unequal to 0
    /// (C17 6.8.4.1p2). As `whole_next`, and where the expression has no side effect. `None` where that is not so: then nothing
    /// has changed.
    pub fn decide_next(
        &mut self,
        unit: &TypedUnit,
        plan: &Plan,
        n: NodeId,
        bound: u64,
    ) -> Option<bool>
        requires codes { AreCodes unit.now plan.now }
        requires runnable { IsRunnable unit.now }
        requires there { IsExpression unit.now n }
        requires room { self.old.moment.taken < bound }
        ensures some { IfSome result (λ t. TestedNext unit.now n t self.old.moment self.new.moment) }
        ensures cut { IfSome result (λ t. CutNext unit.now n self.old.moment self.new.moment) }
        ensures more { IfSome result (λ t. self.old.moment.taken + 1 ≤ self.new.moment.taken) }
        ensures within { IfSome result (λ t. self.new.moment.taken ≤ bound) }
        ensures none { IfNone result (self.new ≡ self.old) }
        ensures started { self.new.started ≡ self.old.started }
        ensures stays { KeepsSetting self.old.moment self.new.moment }
    {
        self.moment.decide_next(unit, plan, n, bound)
    }

    /// A full expression at once, which is not started, as `whole_next`, without a statement's turn. `None` where that is not possible:
    /// then nothing has changed.
    pub fn whole_now(&mut self, unit: &TypedUnit, plan: &Plan, n: NodeId, bound: u64) -> Option<Got>
        requires codes { AreCodes unit.now plan.now }
        requires runnable { IsRunnable unit.now }
        requires there { IsExpression unit.now n }
        ensures some { IfSome result (λ v. Evaluated unit.now n (worth_of v) self.old.moment self.new.moment) }
        ensures cut { IfSome result (λ v. Cut unit.now n self.old.moment self.new.moment) }
        ensures more { IfSome result (λ v. self.old.moment.taken < self.new.moment.taken) }
        ensures within { IfSome result (λ v. self.new.moment.taken ≤ bound) }
        ensures none { IfNone result (self.new ≡ self.old) }
        ensures started { self.new.started ≡ self.old.started }
        ensures stays { KeepsSetting self.old.moment self.new.moment }
    {
        self.moment.whole(unit, plan, n, bound)
    }

    /// The controlling expression of a loop at once, which is not started: whether it compares unequal to 0 (C17 6.8.5p4), as
    /// `decide_next`, without a statement's turn. `None` where that is not possible: then nothing has changed.
    pub fn decide_now(
        &mut self,
        unit: &TypedUnit,
        plan: &Plan,
        n: NodeId,
        bound: u64,
    ) -> Option<bool>
        requires codes { AreCodes unit.now plan.now }
        requires runnable { IsRunnable unit.now }
        requires there { IsExpression unit.now n }
        requires room { self.old.moment.taken < bound }
        ensures some { IfSome result (λ t. TestedNow unit.now n t self.old.moment self.new.moment) }
        ensures cut { IfSome result (λ t. Cut unit.now n self.old.moment self.new.moment) }
        ensures more { IfSome result (λ t. self.old.moment.taken < self.new.moment.taken) }
        ensures within { IfSome result (λ t. self.new.moment.taken ≤ bound) }
        ensures none { IfNone result (self.new ≡ self.old) }
        ensures started { self.new.started ≡ self.old.started }
        ensures stays { KeepsSetting self.old.moment self.new.moment }
    {
        self.moment.decide_now(unit, plan, n, bound)
    }

    /// A statement's turn, and the expression of a `return` at once, which is not started: its value, converted as if by assignment
    /// (C17 6.8.6.4p3). As `whole_next`, and where the expression has no side effect. `None` where that is not so: then nothing has
    /// changed.
    pub fn hand_next(
        &mut self,
        unit: &TypedUnit,
        plan: &Plan,
        n: NodeId,
        bound: u64,
    ) -> Option<Kept>
        requires codes { AreCodes unit.now plan.now }
        requires runnable { IsRunnable unit.now }
        requires there { IsExpression unit.now n }
        requires room { self.old.moment.taken < bound }
        ensures some { IfSome result (λ v. HandedNext unit.now n (worth_of v) self.old.moment self.new.moment) }
        ensures cut { IfSome result (λ v. CutNext unit.now n self.old.moment self.new.moment) }
        ensures more { IfSome result (λ v. self.old.moment.taken + 1 ≤ self.new.moment.taken) }
        ensures within { IfSome result (λ v. self.new.moment.taken ≤ bound) }
        ensures none { IfNone result (self.new ≡ self.old) }
        ensures started { self.new.started ≡ self.old.started }
        ensures stays { KeepsSetting self.old.moment self.new.moment }
    {
        self.moment.hand_next(unit, plan, n, bound)
    }

    /// The value of the innermost expression, which has ended.
    #[inline(always)]
    pub fn value(&mut self) -> Got
        requires { is_ended self.old.started ≡ true }
        ensures value { worth_of result ≡ ended_value self.old.started }
        ensures started { self.new.started ≡ after_first self.old.started }
        ensures moment { self.new.moment ≡ self.old.moment }
    {
        match self.started.pop_front() {
            Some(e) => e.value(&mut self.spare),
            None => unreachable!(),
        }
    }

    /// The value of the innermost expression, which has ended, compared with 0 by the condition in this line
    /// (C17 6.8.4.1, 6.8.5).
    pub fn decide(&mut self, unit: &TypedUnit, line: u32) -> Result<bool, Failure>
        requires runnable { IsRunnable unit.now }
        requires ended { is_ended self.old.started ≡ true }
        ensures tested { Always unit.now self.old.moment (λ b out es. Tested (act b line (Tests (ended_value self.old.started)) (state_of self.old.moment out es)) result (state_of self.new.moment out es)) }
        ensures started { self.new.started ≡ after_first self.old.started }
        ensures stays { Stays self.old.moment self.new.moment }
    {
        let v = self.value();
        self.moment.test(unit, line, v)
    }

    /// The value of the innermost expression, which has ended, converted where that is implied and handed on by the node
    /// or statement in this line (C17 6.7.9, 6.8.6.4).
    pub fn hand(&mut self, unit: &TypedUnit, n: NodeId, line: u32) -> Result<Got, Failure>
        requires runnable { IsRunnable unit.now }
        requires node { IsExpression unit.now n }
        requires ended { is_ended self.old.started ≡ true }
        ensures handed { Always unit.now self.old.moment (λ b out es. Came (handed_at b line (expression_at unit.now n) (ended_value self.old.started) (state_of self.old.moment out es)) result (state_of self.new.moment out es)) }
        ensures started { self.new.started ≡ after_first self.old.started }
        ensures stays { Stays self.old.moment self.new.moment }
    {
        let v = self.value();
        hand_on(unit, n, line, v, &mut self.moment)
    }

    /// The same as a number, for a switch (C17 6.8.4.2).
    pub fn need(&mut self, unit: &TypedUnit, n: NodeId) -> Result<i128, Failure>
        requires runnable { IsRunnable unit.now }
        requires node { IsExpression unit.now n }
        requires ended { is_ended self.old.started ≡ true }
        ensures needed { Always unit.now self.old.moment (λ b out es. Needed (needed_of b (expression_at unit.now n) (ended_value self.old.started) (state_of self.old.moment out es)) result (state_of self.new.moment out es)) }
        ensures started { self.new.started ≡ after_first self.old.started }
        ensures stays { Stays self.old.moment self.new.moment }
    {
        let v = self.value();
        need(unit, n, v, &mut self.moment)
    }

    /// The arguments of the call that is handed up.
    pub fn arguments(&mut self) -> Result<Vec<Got>, Failure>
        requires { is_asked self.old.started ≡ true }
        ensures arguments { IfOk result (λ a. map worth_of a.items ≡ asked_arguments self.old.started) }
        ensures started { OnOk result (IsTaken self.new.started self.old.started) }
        ensures fit { (u : Stored) → Fit u self.old.started → OnOk result (Fit u self.new.started) }
        ensures memory { IsMemory result }
        ensures moment { self.new.moment ≡ self.old.moment }
    {
        match self.started.front_mut() {
            Some(e) => Ok(e.arguments(self.alloc)),
            None => unreachable!(),
        }
    }

    /// The list of a call's arguments, which are no longer needed, is kept for its memory.
    pub fn give_back(&mut self, arguments: Vec<Got>)
        ensures { self.new ≡ self.old }
    {
        self.arguments = arguments;
    }

    /// A value behind a pointer.
    pub fn keep(&self, v: Got) -> Result<Kept, Failure>
        ensures value { IfOk result (λ k. k ≡ v) }
        ensures memory { IsMemory result }
    {
        Kept::new(self.alloc, v)
    }

    /// The world alone; all else that is in hand is let go.
    pub fn into_world(self) -> World
        ensures { result ≡ self.moment.world }
    {
        let moment = self.moment;
        moment.world
    }

    /// The line of the call that is handed up.
    pub fn line(&self) -> u32
        ensures { result ≡ asked_line self.now.started }
    {
        match self.started.front() {
            Some(e) => e.line(),
            None => 0,
        }
    }

    /// The function of the call that is handed up.
    pub fn callee(&self) -> u32
        ensures { result ≡ asked_function self.now.started }
    {
        match self.started.front() {
            Some(e) => e.callee(),
            None => 0,
        }
    }

    /// The value that the call gives, whose body has ended.
    pub fn answer(&mut self, v: Got)
        requires { IsOpen self.old.started }
        ensures started { IsAnswered (worth_of v) self.new.started self.old.started }
        ensures fit { (u : Stored) → Fit u self.old.started → Fit u self.new.started }
        ensures moment { self.new.moment ≡ self.old.moment }
    {
        match self.started.front_mut() {
            Some(e) => e.answer(v),
            None => unreachable!(),
        }
    }

    /// Whether nothing is printed that is not yet taken, and no event waits.
    #[inline(always)]
    pub fn is_quiet(&self) -> bool
        ensures { result ≡ (length self.now.moment.printed == 0 && length self.now.moment.waiting == 0) }
    {
        self.moment.is_quiet()
    }

    /// The bytes that are printed and not yet taken, for whoever writes them.
    pub fn printed(&mut self) -> &mut Vec<u8>
        ensures* writes_back { sem 𝓛 (Lends the_row bytes_row self.entry result (λ w. record self.old { moment = record self.old.moment { printed = w.items } })) }
        ensures value { result.now.items ≡ self.old.moment.printed }
    {
        self.moment.printed()
    }

    /// The events that are not yet told, for whoever tells them.
    pub fn waiting(&mut self) -> &mut Vec<Marked>
        ensures* writes_back { sem 𝓛 (Lends the_row events_row self.entry result (λ w. record self.old { moment = record self.old.moment { waiting = w.items } })) }
        ensures value { result.now.items ≡ self.old.moment.waiting }
    {
        self.moment.waiting()
    }

    /// A body begins, with no objects of its own (C17 6.2.4p6): of the function with this name, for the call in this line.
    pub fn begin_body(&mut self, function: u32, line: u32) -> Result<(), Failure>
        ensures made { (u : Stored) → Always u self.old.moment (λ b out es. (at : ℕ) → Made (act b at (BeginsBody function line) (state_of self.old.moment out es)) result (state_of self.new.moment out es)) }
        ensures started { self.new.started ≡ self.old.started }
        ensures stays { Stays self.old.moment self.new.moment }
        ensures memory { IsMemory result }
    {
        self.moment.begin_body(function, line)
    }

    /// The innermost body ends.
    pub fn end_body(&mut self)
        ensures made { (u : Stored) → Always u self.old.moment (λ b out es. (line : ℕ) → act b line EndsBody (state_of self.old.moment out es) ≡ Gives Nothing (state_of self.new.moment out es)) }
        ensures started { self.new.started ≡ self.old.started }
        ensures stays { Stays self.old.moment self.new.moment }
    {
        self.moment.end_body()
    }

    /// An object begins its lifetime (C17 6.2.4p2), for the declaration or call in this line.
    pub fn make(&mut self, unit: &TypedUnit, line: u32, o: u32) -> Result<(), Failure>
        requires runnable { IsRunnable unit.now }
        requires there { o < length unit.now.objects }
        ensures made { Always unit.now self.old.moment (λ b out es. Made (act b line (Makes o) (state_of self.old.moment out es)) result (state_of self.new.moment out es)) }
        ensures started { self.new.started ≡ self.old.started }
        ensures stays { Stays self.old.moment self.new.moment }
    {
        self.moment.make(unit, line, o)
    }

    /// A function that is pointed to has an instance (C17 6.3.2.1p4).
    pub fn make_function(&mut self, unit: &TypedUnit, line: u32, f: u32) -> Result<(), Failure>
        requires runnable { IsRunnable unit.now }
        requires there { f < length unit.now.functions }
        ensures made { Always unit.now self.old.moment (λ b out es. Made (act b line (MakesFunction f) (state_of self.old.moment out es)) result (state_of self.new.moment out es)) }
        ensures started { self.new.started ≡ self.old.started }
        ensures stays { Stays self.old.moment self.new.moment }
    {
        self.moment.make_function(unit, line, f)
    }

    /// A literal's array begins its lifetime (C17 6.4.5p6).
    pub fn make_literal(&mut self, unit: &TypedUnit, line: u32, l: u32) -> Result<(), Failure>
        requires runnable { IsRunnable unit.now }
        requires there { l < length unit.now.literals }
        ensures made { Always unit.now self.old.moment (λ b out es. Made (act b line (MakesLiteral l) (state_of self.old.moment out es)) result (state_of self.new.moment out es)) }
        ensures started { self.new.started ≡ self.old.started }
        ensures stays { Stays self.old.moment self.new.moment }
    {
        self.moment.make_literal(unit, line, l)
    }

    /// An object ends its lifetime (C17 6.2.4p2).
    pub fn finish(&mut self, unit: &TypedUnit, o: u32) -> Result<(), Failure>
        requires runnable { IsRunnable unit.now }
        requires there { o < length unit.now.objects }
        ensures made { Always unit.now self.old.moment (λ b out es. (line : ℕ) → Made (act b line (Ends o) (state_of self.old.moment out es)) result (state_of self.new.moment out es)) }
        ensures started { self.new.started ≡ self.old.started }
        ensures stays { Stays self.old.moment self.new.moment }
        ensures memory { IsMemory result }
    {
        self.moment.finish(unit, o)
    }

    /// Every byte of an object becomes this one, or as in a new instance (C17 6.7.9p10, p19, p21).
    pub fn fill(&mut self, unit: &TypedUnit, o: u32, value: Option<u8>) -> Result<(), Failure>
        requires runnable { IsRunnable unit.now }
        requires there { o < length unit.now.objects }
        ensures made { Always unit.now self.old.moment (λ b out es. (line : ℕ) → Made (act b line (Fills o value) (state_of self.old.moment out es)) result (state_of self.new.moment out es)) }
        ensures started { self.new.started ≡ self.old.started }
        ensures stays { Stays self.old.moment self.new.moment }
        ensures memory { IsMemory result }
    {
        self.moment.fill(unit, o, value)
    }

    /// A store of an initializer or of a parameter (C17 6.7.9p11, 6.9.1p10).
    pub fn put(
        &mut self,
        unit: &TypedUnit,
        o: u32,
        offset: u64,
        t: TypeId,
        v: &Got,
    ) -> Result<(), Failure>
        requires runnable { IsRunnable unit.now }
        requires there { o < length unit.now.objects }
        requires typed { t.0 < length unit.now.known.terms }
        ensures made { MadeAnywhere unit.now (λ b. Puts o offset (lvalue b (tree unit.now.known t.0)) (worth_of v.now)) result self.old.moment self.new.moment }
        ensures started { self.new.started ≡ self.old.started }
        ensures stays { Stays self.old.moment self.new.moment }
        ensures memory { IsMemory result }
    {
        self.moment.put(unit, o, offset, t, v)
    }

    /// The characters of a literal that fill an array (C17 6.7.9p14).
    pub fn put_text(
        &mut self,
        unit: &TypedUnit,
        o: u32,
        offset: u64,
        t: TypeId,
        literal: u32,
    ) -> Result<(), Failure>
        requires runnable { IsRunnable unit.now }
        requires there { o < length unit.now.objects }
        requires typed { t.0 < length unit.now.known.terms }
        requires literal { literal < length unit.now.literals }
        ensures made { MadeAnywhere unit.now (λ b. PutsText o offset (size_of b (tree unit.now.known t.0)) literal) result self.old.moment self.new.moment }
        ensures started { self.new.started ≡ self.old.started }
        ensures stays { Stays self.old.moment self.new.moment }
        ensures memory { IsMemory result }
    {
        self.moment.put_text(unit, o, offset, t, literal)
    }
}
