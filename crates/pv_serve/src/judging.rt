//! What a source with its script comes to: the end of its run, or why it has none.
ghost use Rattle.std.specs.Prelude.{◌≡◌, ◌<◌, ◌+◌, ◌++◌, ◌⊎◌, ℕ, Bool, List, take, Some, IfNone, IfOk, IfErr};
ghost use Rattle.std.specs.declared.option.Option.{Option};
ghost use Rattle.pv_script.specs.Lines.{ScriptLine};
ghost use Rattle.pv_watch.specs.Slots.{Slot};
ghost use Rattle.pv_typed.specs.Tables.{Stored};
ghost use Rattle.pv_exec.specs.Run.{setting_of, run_of};
ghost use Rattle.pv_exec.specs.Answering.{highs, end_at};
ghost use Rattle.pv_exec.specs.SettledRuns.{SettlesAlike, IsUndefinedByAll};
ghost use Rattle.pv_exec.specs.Stages.{stage_of};
ghost use Rattle.pv_serve.specs.ReadWords.{IsBound};
ghost use Rattle.pv_serve.specs.Verdicts.{Verdict, Ending, Course};
ghost use Rattle.pv_serve.specs.Loading.{IsLoadedProgram};
ghost use Rattle.pv_serve.specs.Fitting.{IsFit};
ghost use Rattle.pv_serve.specs.Comes.{source_limit};
ghost use Rattle.pv_serve.specs.Judged.{Judged, Ends, script_limit};
ghost use Rattle.pv_serve.specs.OneVerdict.{IsLeftToRun, BothRun};
ghost use Rattle.pv_serve.specs.Outside.{sink_change, halls};
ghost use Rattle.pv_serve.specs.Judging.{HasFault};
ghost use Rattle.pv_serve.specs.Settling.{IsRan, IsOutcome, IsLeft, IsUnfinished, HasLetOut, IsStreamed, IsSettledAgain, IsUndefinedBy};
ghost use Rattle.pv_serve.specs.Watching.{AreFresh, AreTold, IsReport, stories};

use crate::NoMemory;
use crate::checking::Refused;
use crate::loading::{Loaded, load};
use crate::words::Task;
use pv_exec::{Ran, RunError, Side, run};
use pv_script::{Names, Script, ScriptError, Sink};
use pv_typed::TypedUnit;
use pv_watch::{Hall, Watch};
use std::alloc::Global;
use std::mem;

/// What a source and its script come to.
#[derive(Drop)]
pub enum Judgement {
    /// The unit, which has these names, was run, with at most so many turns.
    Ran {
        ran: Ran,
        names: Names,
        bound: u64,
    },
    /// The same of a run that is settled, with its sides listed behind its line or not.
    Settled {
        ran: Ran,
        names: Names,
        bound: u64,
        listed: bool,
    },
    /// The unit has a typing, and this text tells of it.
    Described {
        text: Vec<u8>,
    },
    /// The source is refused.
    Source(Refused),
    /// The script is refused.
    Script(ScriptError),
}

/// Runs a source with a script of addresses (C17 5.1.2). What the run prints goes to `out`, and those in the hall are told of its memory.
///
/// At most as many turns are taken as the bound allows. With `zap` a pointer to what has ended is indeterminate (C17 6.2.4p2), and its use
/// undefined; without, it may be read. Without sides each pair of candidates is settled at the first use that tells them apart. With sides each
/// stands for its side from its making, and a run that makes more pairs ends at the first that has none.
///
/// A source that is too long is refused before its script is read, the script before the source is.
///
/// Late settling is right: without sides, a run that ends neither undefined nor undecided ends alike where it is given the sides that it ended
/// with; one that ends undefined does so by every list with a side for each of its pairs, no later.
///
/// What is printed is written by blocks of 4096 bytes while the run goes on. Where a write fails, those in the hall were told of all that
/// happened up to some turn, and the block of that write became full in the next one, or the run was over.
pub fn judge<O: Sink>(
    alloc: Global,
    source: &[u8],
    script: &[u8],
    bound: u64,
    zap: bool,
    sides: Option<&[Side]>,
    out: &mut O,
    hall: &mut Hall,
) -> Result<Judgement, RunError>
    requires { IsBound bound }
    ensures judged { IfOk result (IsOutcome source.now script.now bound zap (highs sides.entry (λ x. x.now))
        (sink_change O.written O.faults out.old out.new) (halls hall.old hall.new its_kind its_wants seen)) }
    ensures part { IfErr result (IsUnfinished source.now script.now bound zap (highs sides.entry (λ x. x.now))
        (sink_change O.written O.faults out.old out.new) (halls hall.old hall.new its_kind its_wants seen)) }
    ensures cause { HasFault result (O.faults out.old) (O.faults out.new) }
    ensures late { IfOk result (λ j. IfNone sides.entry
        (IsSettledAgain source.now script.now bound zap (sink_change O.written O.faults out.old out.new) j)) }
    ensures sooner { IfOk result (λ j. IfNone sides.entry (IsUndefinedBy source.now script.now bound zap j)) }
    ensures streams { IfErr result (IsStreamed source.now script.now bound zap (highs sides.entry (λ x. x.now))
        (sink_change O.written O.faults out.old out.new) (halls hall.old hall.new its_kind its_wants seen)) }
{
    match load(alloc, source, script) {
        Ok(Loaded::Program { unit, lines }) => {
            run_program(alloc, unit, lines, bound, zap, sides, out, hall)
        }
        Ok(Loaded::Source(why)) => Ok(Judgement::Source(why)),
        Ok(Loaded::Script(why)) => Ok(Judgement::Script(why)),
        Err(NoMemory) => Err(RunError::NoMemory),
    }
}

// Runs a program.
fn run_program<O: Sink>(
    alloc: Global,
    unit: TypedUnit,
    lines: Script,
    bound: u64,
    zap: bool,
    sides: Option<&[Side]>,
    out: &mut O,
    hall: &mut Hall,
) -> Result<Judgement, RunError>
    requires fit { IsFit unit }
    requires bound { IsBound bound }
    ensures judged { (source script : List ℕ) → IsLoadedProgram source script unit lines → IfOk result (IsOutcome source script bound zap
        (highs sides.entry (λ x. x.now)) (sink_change O.written O.faults out.old out.new) (halls hall.old hall.new its_kind its_wants seen)) }
    ensures part { (source script : List ℕ) → IsLoadedProgram source script unit lines → IfErr result (IsUnfinished source script bound zap
        (highs sides.entry (λ x. x.now)) (sink_change O.written O.faults out.old out.new) (halls hall.old hall.new its_kind its_wants seen)) }
    ensures cause { HasFault result (O.faults out.old) (O.faults out.new) }
    ensures late { (source script : List ℕ) → IsLoadedProgram source script unit lines → IfOk result (λ j. IfNone sides.entry
        (IsSettledAgain source script bound zap (sink_change O.written O.faults out.old out.new) j)) }
    ensures sooner { (source script : List ℕ) → IsLoadedProgram source script unit lines → IfOk result (λ j. IfNone sides.entry
        (IsUndefinedBy source script bound zap j)) }
    ensures streams { (source script : List ℕ) → IsLoadedProgram source script unit lines → IfErr result (IsStreamed source script bound zap
        (highs sides.entry (λ x. x.now)) (sink_change O.written O.faults out.old out.new) (halls hall.old hall.new its_kind its_wants seen)) }
{
    match run_unit(alloc, unit, lines, bound, zap, sides, out, hall) {
        Ok(named) => Ok(Judgement::Ran {
            ran: named.ran,
            names: named.names,
            bound,
        }),
        Err(error) => Err(error),
    }
}

/// A run that ended, with the names of its unit, since its line may have one of them.
#[derive(Drop)]
pub(crate) struct Named {
    pub ran: Ran,
    pub names: Names,
}

/// Runs a unit, and keeps its names.
pub(crate) fn run_unit<O: Sink>(
    alloc: Global,
    unit: TypedUnit,
    lines: Script,
    bound: u64,
    zap: bool,
    sides: Option<&[Side]>,
    out: &mut O,
    hall: &mut Hall,
) -> Result<Named, RunError>
    requires fit { IsFit unit }
    requires bound { IsBound bound }
    ensures ran { IfOk result (λ r. IsRan (sink_change O.written O.faults out.old out.new) (halls hall.old hall.new its_kind its_wants seen)
        r.ran r.names (run_of (setting_of unit bound (highs sides.entry (λ x. x.now)) zap) lines) unit.names) }
    ensures left { IfErr result (λ e. IsLeft (sink_change O.written O.faults out.old out.new) (halls hall.old hall.new its_kind its_wants seen)
        e (run_of (setting_of unit bound (highs sides.entry (λ x. x.now)) zap) lines) unit.names) }
    ensures cause { HasFault result (O.faults out.old) (O.faults out.new) }
    ensures late { IfOk result (λ r. IfNone sides.entry (SettlesAlike unit bound zap lines r.ran)) }
    ensures sooner { IfOk result (λ r. IfNone sides.entry (IsUndefinedByAll unit bound zap lines r.ran)) }
    ensures streams { IfErr result (HasLetOut (sink_change O.written O.faults out.old out.new) (halls hall.old hall.new its_kind its_wants seen)
        (stage_of unit (highs sides.entry (λ x. x.now)) zap lines) (end_at unit bound (highs sides.entry (λ x. x.now)) zap lines).taken unit.names) }
{
    match run(alloc, &unit, lines, bound, zap, sides, out, hall) {
        Ok(ran) => {
            let names = names_of(alloc, unit);
            Ok(Named { ran, names })
        }
        Err(error) => {
            let_go(unit);
            Err(error)
        }
    }
}

// The names of a unit, which is let go.
fn names_of(alloc: Global, unit: TypedUnit) -> Names
    ensures { result ≡ unit.names }
{
    let mut unit = unit;
    let names = mem::replace(unit.names_mut(), Names::new(alloc));
    let_go(unit);
    names
}

/// Lets a unit go. Each function that does so by itself has a long proof, since a unit has many tables.
pub(crate) fn let_go(_unit: TypedUnit) {}

/// A law: a source comes to one verdict, with each script, whatever is done with it and whatever sides are given. If it is run, its verdict is an end of
/// that run.
pub fn one_verdict()
    ensures some { (source script : List ℕ) (t : Task) (sides : Option (List Bool))
        → ((v : Verdict) × Judged source script t sides v) ⊎ IsLeftToRun source script t sides }
    ensures one { (source script : List ℕ) (t : Task) (sides : Option (List Bool)) (v w : Verdict)
        → Judged source script t sides v → Judged source script t sides w → (v ≡ w) ⊎ BothRun source script t sides v w }
{}

/// A law: a run of the same tables, with the same script, bound, `zap` and sides, has no two ends.
pub fn one_end()
    ensures { (u : Stored) (lines : List ScriptLine) (bound : ℕ) (zap : Bool) (sides : Option (List Bool)) (names : List (List ℕ)) (e f : Ending) →
        let run = run_of (setting_of u bound sides zap) lines in Ends run names e → Ends run names f → e ≡ f }
{}

/// A law: of a source and of a script, one byte above the limit tells as much as all that follow.
pub fn first_bytes_decide()
    ensures more { (all text : List ℕ) (t : Task) (sides : Option (List Bool)) (v : Verdict) →
        Judged (take (source_limit + 1) all) (take (script_limit + 1) text) t sides v → Judged all text t sides v }
    ensures fewer { (all text : List ℕ) (t : Task) (sides : Option (List Bool)) (v : Verdict) →
        Judged all text t sides v → Judged (take (source_limit + 1) all) (take (script_limit + 1) text) t sides v }
{}

/// A law: watchers that had seen nothing before a run say behind its line, in their order, each the text of its kind over the first
/// events, as many as it wants.
pub fn watchers_tell()
    ensures { (kept new : List Slot) (c : Course) (line text : List ℕ) → AreFresh kept → AreTold (Some c) kept new
        → IsReport (Some c) new line text → text ≡ line ++ stories c kept }
{}
