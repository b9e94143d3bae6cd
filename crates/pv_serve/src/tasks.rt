//! What a source with its script comes to by a task: it is run, or described, or refused.
ghost use Rattle.std.specs.Prelude.{◌≡◌, ℕ, List, None, IfOk, IfErr};
ghost use Rattle.pv_typed.specs.Tables.{whole_unit};
ghost use Rattle.pv_describe.specs.Describing as describing;
ghost use Rattle.pv_exec.specs.Answering.{highs};
ghost use Rattle.pv_serve.specs.ReadWords.{IsTask, IsBound};
ghost use Rattle.pv_serve.specs.Verdicts.{Described};
ghost use Rattle.pv_serve.specs.Fitting.{IsFit};
ghost use Rattle.pv_serve.specs.Outside.{Halls, sink_change, halls};
ghost use Rattle.pv_serve.specs.Judging.{IsJudged, IsCutOff, nothing_shown, verdict_of, UnitJudged, UnitCutOff, HasFault};

use crate::NoMemory;
use crate::judging::{Judgement, let_go, run_unit};
use crate::loading::{Loaded, load};
use crate::words::Task;
use pv_describe::{check_text, layout_text};
use pv_exec::{RunError, Side};
use pv_script::{Script, Sink};
use pv_typed::TypedUnit;
use pv_watch::{Hall, Watch};
use std::alloc::Global;

/// Judges a source with a script of addresses: runs it, settles it, by sides if any are given, or describes it. What the run prints goes to `out`,
/// and those in the hall are told of the memory of a run, and not of that of a settled one.
pub(crate) fn judge_task<O: Sink>(
    alloc: Global,
    source: &[u8],
    script: &[u8],
    task: Task,
    sides: Option<&[Side]>,
    out: &mut O,
    hall: &mut Hall,
) -> Result<Judgement, RunError>
    requires { IsTask task }
    ensures judged { IfOk result (IsJudged source.now script.now task (highs sides.entry (λ x. x.now))
        (sink_change O.written O.faults out.old out.new) (halls hall.old hall.new its_kind its_wants seen)) }
    ensures part { IfErr result (IsCutOff source.now script.now task (highs sides.entry (λ x. x.now))
        (sink_change O.written O.faults out.old out.new) (halls hall.old hall.new its_kind its_wants seen)) }
    ensures cause { HasFault result (O.faults out.old) (O.faults out.new) }
{
    match load(alloc, source, script) {
        Ok(Loaded::Program { unit, lines }) => {
            judge_unit(alloc, unit, lines, task, sides, out, hall)
        }
        Ok(Loaded::Source(why)) => Ok(Judgement::Source(why)),
        Ok(Loaded::Script(why)) => Ok(Judgement::Script(why)),
        Err(NoMemory) => Err(RunError::NoMemory),
    }
}

// Does with a unit what the task says.
fn judge_unit<O: Sink>(
    alloc: Global,
    unit: TypedUnit,
    lines: Script,
    task: Task,
    sides: Option<&[Side]>,
    out: &mut O,
    hall: &mut Hall,
) -> Result<Judgement, RunError>
    requires fit { IsFit unit }
    requires task { IsTask task }
    ensures judged { IfOk result (UnitJudged (whole_unit unit) lines task (highs sides.entry (λ x. x.now))
        (sink_change O.written O.faults out.old out.new) (halls hall.old hall.new its_kind its_wants seen)) }
    ensures part { IfErr result (UnitCutOff (whole_unit unit) lines task (highs sides.entry (λ x. x.now))
        (sink_change O.written O.faults out.old out.new) (halls hall.old hall.new its_kind its_wants seen)) }
    ensures cause { HasFault result (O.faults out.old) (O.faults out.new) }
{
    match task {
        Task::Run { bound, zap } => run_watched(alloc, unit, lines, bound, zap, out, hall),
        Task::Settle { bound, zap } => run_settled(alloc, unit, lines, bound, zap, sides, out),
        Task::Check => checked(alloc, unit, lines),
        Task::Layout => laid_out(alloc, unit, lines),
    }
}

// A unit is described by how many declarations it has, whatever its script says.
fn checked(alloc: Global, unit: TypedUnit, _lines: Script) -> Result<Judgement, RunError>
    ensures described { IfOk result (λ j. verdict_of j nothing_shown ≡ Described (describing.check_text (whole_unit unit))) }
    ensures memory { IfErr result (λ e. e ≡ RunError.NoMemory) }
{
    let text = check_text(alloc, &unit);
    let_go(unit);
    described(text)
}

// A unit is described by the layouts of its types with a tag, whatever its script says.
fn laid_out(alloc: Global, unit: TypedUnit, _lines: Script) -> Result<Judgement, RunError>
    requires { IsFit unit }
    ensures described { IfOk result (λ j. verdict_of j nothing_shown ≡ Described (describing.layout_text (whole_unit unit))) }
    ensures memory { IfErr result (λ e. e ≡ RunError.NoMemory) }
{
    let text = layout_text(alloc, &unit);
    let_go(unit);
    described(text)
}

// A unit is described by this text.
fn described(text: Result<Vec<u8>, pv_types::NoMemory>) -> Result<Judgement, RunError>
    ensures described { (want : List ℕ) → IfOk text (λ v. v.items ≡ want)
        → IfOk result (λ j. verdict_of j nothing_shown ≡ Described want) }
    ensures memory { IfErr result (λ e. e ≡ RunError.NoMemory) }
{
    match text {
        Ok(text) => Ok(Judgement::Described { text }),
        Err(_) => Err(RunError::NoMemory),
    }
}

// Runs a unit before those who watch.
fn run_watched<O: Sink>(
    alloc: Global,
    unit: TypedUnit,
    lines: Script,
    bound: u64,
    zap: bool,
    out: &mut O,
    hall: &mut Hall,
) -> Result<Judgement, RunError>
    requires fit { IsFit unit }
    requires bound { IsBound bound }
    ensures judged { IfOk result (UnitJudged (whole_unit unit) lines (Task.Run bound zap) None
        (sink_change O.written O.faults out.old out.new) (halls hall.old hall.new its_kind its_wants seen)) }
    ensures part { IfErr result (UnitCutOff (whole_unit unit) lines (Task.Run bound zap) None
        (sink_change O.written O.faults out.old out.new) (halls hall.old hall.new its_kind its_wants seen)) }
    ensures cause { HasFault result (O.faults out.old) (O.faults out.new) }
{
    match run_unit(alloc, unit, lines, bound, zap, None, out, hall) {
        Ok(named) => Ok(Judgement::Ran {
            ran: named.ran,
            names: named.names,
            bound,
        }),
        Err(error) => Err(error),
    }
}

// Runs a unit before nobody, settled by these sides, or late where none are given.
fn run_settled<O: Sink>(
    alloc: Global,
    unit: TypedUnit,
    lines: Script,
    bound: u64,
    zap: bool,
    sides: Option<&[Side]>,
    out: &mut O,
) -> Result<Judgement, RunError>
    requires fit { IsFit unit }
    requires bound { IsBound bound }
    ensures judged { (hall : Halls) → hall.new ≡ hall.old → IfOk result (UnitJudged (whole_unit unit) lines (Task.Settle bound zap)
        (highs sides.entry (λ x. x.now)) (sink_change O.written O.faults out.old out.new) hall) }
    ensures part { (hall : Halls) → hall.new ≡ hall.old → IfErr result (UnitCutOff (whole_unit unit) lines (Task.Settle bound zap)
        (highs sides.entry (λ x. x.now)) (sink_change O.written O.faults out.old out.new) hall) }
    ensures cause { HasFault result (O.faults out.old) (O.faults out.new) }
{
    let mut nobody = match Hall::new(alloc, Vec::new(alloc)) {
        Ok(hall) => hall,
        Err(_) => return Err(RunError::NoMemory),
    };
    match run_unit(alloc, unit, lines, bound, zap, sides, out, &mut nobody) {
        Ok(named) => Ok(Judgement::Settled {
            ran: named.ran,
            names: named.names,
            bound,
            listed: sides.is_none(),
        }),
        Err(error) => Err(error),
    }
}
