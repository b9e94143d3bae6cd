// Expressions that were started.
ghost use Rattle.std.specs.Prelude.{◌≡◌, ◌+◌, ◌<◌, ◌≤◌, ◌^◌, ◌∷◌, [], List, length, map, true, false, IfOk, OnOk, OnErr};
ghost use Rattle.pv_typed.specs.Tables.{Stored};
ghost use Rattle.pv_seq.specs.Sequencing.{open_against, sequence_point};
ghost use Rattle.pv_seq.specs.Frames.{AllRead, with_reads};
ghost use Rattle.pv_seq.specs.Rivals.{top, below};
ghost use Rattle.pv_world.specs.Coming.{worth_of};
ghost use Rattle.pv_eval.specs.Runnable.{IsRunnable};
ghost use Rattle.pv_eval.specs.Moments.{IsMemory};
ghost use Rattle.pv_eval.specs.Ahead.{Matched};
ghost use Rattle.pv_eval.specs.Machines.{Started as Expression, value_at, is_due_at, is_value, is_call_at, turns_at, function_asked, arguments_at, line_at};
ghost use Rattle.pv_eval.specs.MachineSteps.{StartedFits, WentTo, step_at, KeepsSetting};
ghost use Rattle.pv_eval.specs.Progress.{StepsExpression};
ghost use Rattle.pv_eval.specs.Codes.{AreCodes};
ghost use Rattle.pv_eval.specs.AtOnce.{EvaluatedWhole, CutWhole, GoesOn};

use crate::failure::Failure;
use crate::frames::{Frame, Now, Step};
use crate::moment::Moment;
use crate::plan::Plan;
use crate::running;
use pv_seq::{Access, Journal, NoMemory};
use pv_tree::NodeId;
use pv_typed::{Typed, TypedUnit};
use pv_world::Got;
use std::alloc::Global;
use std::marker::Model;

/// Nodes that wait, and the accesses of each.
#[derive(Drop)]
pub(crate) struct Held {
    frames: Vec<Frame>,
    journal: Journal,
}

/// The stacks of an expression that has ended, for one to come: no node waits on them, a full expression is begun that has no
/// accesses yet, and they have their memory.
#[derive(Drop)]
pub(crate) struct Stacks {
    held: Box<Held>,
}

impl Model for Stacks {
    ghost use Rattle.std.specs.Prelude.{◌≡◌, [], ◌∷◌, ℕ};
    ghost use Rattle.pv_seq.specs.Sequencing.{open_against};

    ghost Value = { ℕ };

    ghost view = { λ s. 0 };

    ghost invariant = { λ s. (s.held.value.frames.items ≡ []) × (s.held.value.journal ≡ open_against [] ∷ []) };
}

impl Stacks {
    /// New stacks, with a full expression that is begun.
    pub(crate) fn new(alloc: Global) -> Result<Stacks, Failure>
        ensures memory { IsMemory result }
    {
        let mut journal = Journal::new(alloc);
        if journal.full().is_err() {
            return Err(Failure::NoMemory);
        }
        let held = Held {
            frames: Vec::new(alloc),
            journal,
        };
        match Box::new(alloc, held) {
            Ok(held) => Ok(Stacks { held }),
            Err(_) => Err(Failure::NoMemory),
        }
    }

    /// Those of an expression that has ended, or new ones.
    pub(crate) fn of(spare: &mut Vec<Stacks>, alloc: Global) -> Result<Stacks, Failure>
        ensures memory { IsMemory result }
    {
        match spare.pop() {
            Some(stacks) => Ok(stacks),
            None => Stacks::new(alloc),
        }
    }
}

/// An expression that was started: its nodes that wait, the accesses of each, and where it is. The stacks stand behind a
/// pointer, since each expression is moved when it starts and when it has ended.
#[derive(Drop)]
pub(crate) struct Started {
    root: NodeId,
    held: Box<Held>,
    place: Now,
    /// Whether no step of it was taken: nothing waits in it, and it has no accesses.
    untouched: bool,
    /// Whether something in it was not evaluated at once though it is plain: then it goes step by step.
    slow: bool,
}

impl Model for Started {
    ghost use Rattle.std.specs.Prelude.{◌≡◌, false};
    ghost use Rattle.pv_eval.specs.Ahead.{Matched};
    ghost use Rattle.pv_eval.specs.Machines.{Started as StartedView, is_due_at};

    ghost Value = { StartedView };

    ghost view = { λ e. record { root = e.root; frames = e.held.value.frames.items; opens = e.held.value.journal; place = e.place } };

    ghost use Rattle.std.specs.Prelude.{true, [], ◌∷◌};
    ghost use Rattle.pv_seq.specs.Sequencing.{open_against};

    ghost invariant = { λ e. (is_due_at e.place ≡ false → Matched e.held.value.frames.items e.held.value.journal) × (e.untouched ≡ true → (e.held.value.frames.items ≡ []) × (e.held.value.journal ≡ open_against [] ∷ [])) };
}

impl Started {
    /// A full expression, which has no foes (C17 6.8p4).
    pub(crate) fn new(stacks: Stacks, n: NodeId) -> Started
        ensures { result ≡ record { root = n; frames = []; opens = open_against [] ∷ []; place = Now.Due n } }
    {
        let Stacks { held } = stacks;
        Started {
            root: n,
            held,
            place: Now::Due(n),
            untouched: true,
            slow: false,
        }
    }

    /// One turn, and what comes before the next.
    pub(crate) fn step(
        &mut self,
        alloc: Global,
        unit: &TypedUnit,
        moment: &mut Moment,
    ) -> Result<Step, Failure>
        requires runnable { IsRunnable unit.now }
        requires going { is_call_at self.old.place ≡ false }
        requires fits { StartedFits unit.now self.old }
        requires turn { is_due_at self.old.place ≡ true → moment.old.taken < 10 ^ 8 }
        ensures rest { StepsExpression unit.now result self.old self.new moment.old moment.new }
        ensures which { (others : List Expression) → IfOk result (λ x. WentTo unit.now x (self.new ∷ others)) }
        ensures fits { OnOk result (StartedFits unit.now self.new) }
        ensures taken { moment.new.taken ≡ moment.old.taken + turns_at self.old.place }
        ensures setting { KeepsSetting moment.old moment.new }
    {
        self.untouched = false;
        let place = std::mem::replace(&mut self.place, Now::Due(self.root));
        let held = &mut *self.held;
        match running::step(
            alloc,
            unit,
            &mut held.frames,
            &mut held.journal,
            moment,
            place,
        ) {
            Ok(place) => {
                let led = leads(&place);
                self.place = place;
                Ok(led)
            }
            Err(e) => Err(e),
        }
    }

    /// The whole expression at once, where it was just begun, is plain but for a store at its root, where nothing stops it,
    /// and where its turns are within the bound. False where that is not so: then nothing has changed.
    pub(crate) fn whole(
        &mut self,
        unit: &TypedUnit,
        plan: &Plan,
        bound: u64,
        moment: &mut Moment,
    ) -> bool
        requires codes { AreCodes unit.now plan.now }
        requires runnable { IsRunnable unit.now }
        requires fits { StartedFits unit.now self.old }
        ensures whole { result ≡ true → EvaluatedWhole unit.now self.old self.new moment.old moment.new }
        ensures cut { result ≡ true → CutWhole unit.now self.old moment.old moment.new }
        ensures more { result ≡ true → moment.old.taken < moment.new.taken }
        ensures within { result ≡ true → moment.new.taken ≤ bound }
        ensures ended { result ≡ true → is_value self.new.place ≡ true }
        ensures fits { StartedFits unit.now self.new }
        ensures same { result ≡ false → self.new ≡ self.old }
        ensures unmoved { result ≡ false → moment.new ≡ moment.old }
        ensures setting { KeepsSetting moment.old moment.new }
    {
        if !self.untouched {
            return false;
        }
        let Now::Due(n) = self.place else {
            return false;
        };
        match moment.whole(unit, plan, n, bound) {
            Some(v) => {
                self.place = Now::Value(v);
                true
            }
            None => false,
        }
    }

    /// Whether no access of its nodes in progress writes.
    fn only_reads(&self) -> bool
        ensures { result ≡ true → AllRead (top self.now.opens).foes }
    {
        self.held.journal.only_reads()
    }

    /// The node that is due has this value, by these reads of its own. `NoMemory` changes nothing.
    fn has_read(&mut self, v: Got, reads: &[Access]) -> Result<(), NoMemory>
        requires matched { Matched self.old.frames self.old.opens }
        requires reads { AllRead reads.now }
        ensures frames { self.new.frames ≡ self.old.frames }
        ensures opens { OnOk result (self.new.opens ≡ with_reads reads.now (top self.old.opens) ∷ below self.old.opens) }
        ensures place { OnOk result (self.new.place ≡ Now.Value v) }
        ensures fits { (u : Stored) → StartedFits u self.old → OnOk result (StartedFits u self.new) }
        ensures unchanged { OnErr result (self.new ≡ self.old) }
    {
        self.untouched = false;
        self.held.journal.note_reads(reads)?;
        self.place = Now::Value(v);
        Ok(())
    }

    /// The operand that is due at once, where it is plain, all accesses so far read, nothing stops it, and its turns are within the
    /// bound. False where that is not so: then nothing has changed.
    pub(crate) fn operand(
        &mut self,
        unit: &TypedUnit,
        plan: &Plan,
        bound: u64,
        moment: &mut Moment,
        notes: &mut Vec<Access>,
    ) -> bool
        requires codes { AreCodes unit.now plan.now }
        requires runnable { IsRunnable unit.now }
        requires fits { StartedFits unit.now self.old }
        ensures goes { result ≡ true → GoesOn unit.now self.old self.new moment.old moment.new }
        ensures cut { result ≡ true → CutWhole unit.now self.old moment.old moment.new }
        ensures more { result ≡ true → moment.old.taken < moment.new.taken }
        ensures within { result ≡ true → moment.new.taken ≤ bound }
        ensures ended { result ≡ true → is_value self.new.place ≡ true }
        ensures fits { StartedFits unit.now self.new }
        ensures same { result ≡ false → self.new ≡ self.old }
        ensures unmoved { result ≡ false → moment.new ≡ moment.old }
        ensures setting { KeepsSetting moment.old moment.new }
    {
        if self.untouched || self.slow {
            return false;
        }
        let Now::Due(n) = self.place else {
            return false;
        };
        if unit.plain_turns(n).is_none() {
            return false;
        }
        if !self.only_reads() {
            return false;
        }
        let Some((v, turns)) = moment.operand(unit, plan, n, bound, notes) else {
            self.slow = true;
            return false;
        };
        match self.has_read(v, notes.as_slice()) {
            Ok(()) => {}
            Err(_) => return false,
        }
        moment.take(turns);
        true
    }

    /// The node that is due is a call of this function with these arguments, in this line, by these reads of its own, and is handed up.
    /// `NoMemory` changes nothing.
    fn has_asked(
        &mut self,
        f: u32,
        arguments: Vec<Got>,
        line: u32,
        noted: &[Access],
    ) -> Result<(), NoMemory>
        requires matched { Matched self.old.frames self.old.opens }
        requires reads { AllRead noted.now }
        ensures frames { self.new.frames ≡ self.old.frames }
        ensures opens { OnOk result (self.new.opens ≡ with_reads noted.now (top self.old.opens) ∷ below self.old.opens) }
        ensures place { OnOk result (self.new.place ≡ Now.Asked f arguments line) }
        ensures fits { (u : Stored) → StartedFits u self.old → f < length u.functions → OnOk result (StartedFits u self.new) }
        ensures unchanged { OnErr result (self.new ≡ self.old) }
    {
        self.untouched = false;
        self.held.journal.note_reads(noted)?;
        self.place = Now::Asked(f, arguments, line);
        Ok(())
    }

    /// The call of a function of the program that is due, with all its arguments at once, where these are plain, all accesses so far read,
    /// nothing stops them, and their turns are within the bound: it is handed up then. False where that is not so: then nothing has changed.
    pub(crate) fn call(
        &mut self,
        unit: &TypedUnit,
        plan: &Plan,
        bound: u64,
        moment: &mut Moment,
        notes: &mut Vec<Access>,
        kept: &mut Vec<Got>,
    ) -> bool
        requires codes { AreCodes unit.now plan.now }
        requires runnable { IsRunnable unit.now }
        requires fits { StartedFits unit.now self.old }
        ensures goes { result ≡ true → GoesOn unit.now self.old self.new moment.old moment.new }
        ensures cut { result ≡ true → CutWhole unit.now self.old moment.old moment.new }
        ensures more { result ≡ true → moment.old.taken < moment.new.taken }
        ensures within { result ≡ true → moment.new.taken ≤ bound }
        ensures called { result ≡ true → is_call_at self.new.place ≡ true }
        ensures fits { StartedFits unit.now self.new }
        ensures same { result ≡ false → self.new ≡ self.old }
        ensures unmoved { result ≡ false → moment.new ≡ moment.old }
        ensures setting { KeepsSetting moment.old moment.new }
    {
        if self.slow {
            return false;
        }
        let Now::Due(n) = self.place else {
            return false;
        };
        let Typed::Call(f, l) = unit.node(n) else {
            return false;
        };
        if !self.only_reads() {
            return false;
        }
        let Some((got, taken)) = moment.call_arguments(unit, plan, n, f, l, bound, notes, kept)
        else {
            return false;
        };
        match self.has_asked(f, got, unit.line_of(n), notes.as_slice()) {
            Ok(()) => {}
            Err(_) => return false,
        }
        moment.take_up_to(taken);
        true
    }

    /// Whether a turn is due next.
    pub(crate) fn due(&self) -> bool
        ensures { result ≡ is_due_at self.now.place }
    {
        match &self.place {
            Now::Due(_) => true,
            _ => false,
        }
    }

    /// The line of the call that it waits for.
    pub(crate) fn line(&self) -> u32
        ensures { result ≡ line_at self.now.place }
    {
        match &self.place {
            Now::Asked(_, _, line) => *line,
            _ => 0,
        }
    }

    /// The function of the call that it waits for.
    pub(crate) fn callee(&self) -> u32
        ensures { result ≡ function_asked self.now.place }
    {
        match &self.place {
            Now::Asked(f, _, _) => *f,
            _ => 0,
        }
    }

    /// The value of an expression that has ended, whose stacks are kept.
    #[inline(always)]
    pub(crate) fn value(self, spare: &mut Vec<Stacks>) -> Got
        requires { is_value self.place ≡ true }
        ensures { worth_of result ≡ value_at self.place }
    {
        let Started {
            held,
            place,
            untouched,
            ..
        } = self;
        if untouched {
            let _ = spare.push(Stacks { held });
        } else if held.frames.is_empty() {
            keep(spare, held);
        }
        match place {
            Now::Value(v) => v,
            _ => unreachable!(),
        }
    }

    /// The arguments of the call that it waits for, which are taken out.
    pub(crate) fn arguments(&mut self, alloc: Global) -> Vec<Got>
        requires { is_call_at self.old.place ≡ true }
        ensures arguments { map worth_of result.items ≡ arguments_at self.old.place }
        ensures kept { self.new ≡ record self.old { place = self.new.place } }
        ensures fits { (u : Stored) → StartedFits u self.old → StartedFits u self.new }
    {
        self.untouched = false;
        match std::mem::replace(&mut self.place, Now::Due(self.root)) {
            Now::Asked(f, args, line) => {
                self.place = Now::Asked(f, Vec::new(alloc), line);
                args
            }
            _ => unreachable!(),
        }
    }

    /// The call has given this value, behind a sequence point (C17 6.5.2.2p10).
    pub(crate) fn answer(&mut self, v: Got)
        requires { Matched self.old.frames self.old.opens }
        ensures frames { self.new.frames ≡ self.old.frames }
        ensures opens { self.new.opens ≡ sequence_point (top self.old.opens) ∷ below self.old.opens }
        ensures value { value_at self.new.place ≡ worth_of v }
        ensures ended { is_value self.new.place ≡ true }
        ensures fits { (u : Stored) → StartedFits u self.old → StartedFits u self.new }
    {
        self.untouched = false;
        self.held.journal.sequence_point();
        self.place = Now::Value(v);
    }
}

/// What a step leads to, by where the expression is then.
fn leads(place: &Now) -> Step
    ensures { result ≡ step_at place.now }
{
    match place {
        Now::Due(_) => Step::More,
        Now::Value(_) => Step::Done,
        Now::Asked(f, _, _) => Step::Call(*f),
    }
}

/// The stacks of a full expression that went step by step are kept for those to come, if there is memory for that.
fn keep(spare: &mut Vec<Stacks>, held: Box<Held>)
    requires frames { held.value.frames.items ≡ [] }
    requires journal { length held.value.journal ≡ 1 }
{
    let mut held = held;
    held.journal.close();
    if held.journal.full().is_ok() {
        let _ = spare.push(Stacks { held });
    }
}
