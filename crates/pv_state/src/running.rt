//! The run of a source, and what is told of it.
ghost use Rattle.std.specs.Prelude.{◌≡◌, ◌≤◌, ◌^◌, ◌++◌, ℕ, List, codes, Ok, IfOk};
ghost use Rattle.std.specs.Fmt.{decimal};
ghost use Rattle.pv_script.specs.Lines.{ScriptLine};
ghost use Rattle.pv_script.specs.Scripts.{script_of};
ghost use Rattle.pv_typed.specs.Known.{Each};
ghost use Rattle.pv_typed.specs.Tables.{whole_unit};
ghost use Rattle.pv_world.specs.Worlds.{Worth};
ghost use Rattle.pv_eval.specs.States.{Res, end_of};
ghost use Rattle.pv_exec.specs.Answering.{RanAs};
ghost use Rattle.pv_serve.specs.Fitting.{IsFit};
ghost use Rattle.pv_serve.specs.Loading.{IsLoadedProgram};
ghost use Rattle.pv_serve.specs.Judging.{Shown, verdict_of};
ghost use Rattle.pv_serve.specs.ReportParts.{outcome_line, report_line, status_of};
ghost use Rattle.pv_serve.specs.Replying.{reply_view, IsOwn};
ghost use Rattle.pv_values.specs.Standing as standing;
ghost use Rattle.pv_state.specs.ReadWords.{IsWithin};
ghost use Rattle.pv_state.specs.Answers as specified;
ghost use Rattle.pv_state.specs.Answers.{IsToldAt, AreTold, IsAnswered};
ghost use Rattle.pv_state.specs.Answering.{look_of};

use crate::words::Place;
use pv_exec::{Outcome, Ran, Side, run};
use pv_script::{Script, read};
use pv_serve::{Judgement, Loaded, NoMemory, Nowhere, Reply, line, load, run_line, status};
use pv_typed::TypedUnit;
use pv_values::state_text;
use pv_watch::{Hall, Watch};
use std::alloc::Global;

// The status of a run that is shown, however it ended.
const SHOWN: u8 = 0;

/// How a source is run, and looked at.
#[derive(Clone, Copy)]
pub struct Look<'a> {
    /// The most turns.
    pub bound: u64,
    /// Whether a pointer to what has ended is indeterminate (C17 6.2.4p2).
    pub zap: bool,
    /// The sides of pairs, if they are given.
    pub sides: Option<&'a [Side]>,
    /// Whether all objects are wanted.
    pub all: bool,
}

/// The answer to a source with its script, by what is told of its run at these places. The only error is want of memory.
pub fn answer(
    alloc: Global,
    source: &[u8],
    script: &[u8],
    look: Look<'_>,
    places: &[Place],
) -> Result<Reply, NoMemory>
    requires bound { look.bound ≤ 10 ^ 8 }
    requires places { Each (IsWithin look.bound) places.now }
    ensures answered { IfOk result (λ a. IsAnswered (look_of look.entry) places.now source.now script.now (reply_view a)) }
    ensures own { IfOk result (λ a. IsOwn a.status) }
{
    match load(alloc, source, script) {
        Ok(Loaded::Program { unit, lines }) => shown(alloc, unit, lines, script, look, places),
        Ok(Loaded::Source(why)) => refused(alloc, Judgement::Source(why)),
        Ok(Loaded::Script(why)) => refused(alloc, Judgement::Script(why)),
        Err(NoMemory) => Err(NoMemory),
    }
}

// What is told of a source or a script that is refused. A judgement is let go in one place, since one may have the world of a run: at each way out of a
// function that owns one all its tables go.
fn refused(alloc: Global, judgement: Judgement) -> Result<Reply, NoMemory>
    ensures told { (shown : Shown) → IfOk result (λ a. reply_view a
        ≡ record { status = status_of (verdict_of judgement shown); text = report_line (verdict_of judgement shown) }) }
    ensures own { IfOk result (λ a. IsOwn a.status) }
{
    refusal(alloc, &judgement)
}

// The line that tells a judgement, and its status.
fn refusal(alloc: Global, judgement: &Judgement) -> Result<Reply, NoMemory>
    ensures told { (shown : Shown) → IfOk result (λ a. reply_view a
        ≡ record { status = status_of (verdict_of judgement.now shown); text = report_line (verdict_of judgement.now shown) }) }
    ensures own { IfOk result (λ a. IsOwn a.status) }
{
    let text = line(alloc, judgement)?;
    Ok(Reply {
        status: status(judgement),
        text,
    })
}

// What is told of a unit, which is let go.
fn shown(
    alloc: Global,
    unit: TypedUnit,
    lines: Script,
    script: &[u8],
    look: Look<'_>,
    places: &[Place],
) -> Result<Reply, NoMemory>
    requires bound { look.bound ≤ 10 ^ 8 }
    requires places { Each (IsWithin look.bound) places.now }
    requires fit { IsFit unit }
    requires reads { script_of script.now ≡ Ok lines }
    ensures answered { (source : List ℕ) → IsLoadedProgram source script.now unit lines →
        IfOk result (λ a. IsAnswered (look_of look.entry) places.now source script.now (reply_view a)) }
    ensures own { IfOk result (λ a. a.status ≡ 0) }
{
    let told = texts_at(alloc, &unit, script, look, places);
    let_go(unit);
    let text = told?;
    Ok(Reply {
        status: SHOWN,
        text,
    })
}

// Lets a unit go. Each function that does so by itself has a long proof, since a unit has many tables.
fn let_go(_unit: TypedUnit) {}

// What is told at each of these places.
fn texts_at(
    alloc: Global,
    unit: &TypedUnit,
    script: &[u8],
    look: Look<'_>,
    places: &[Place],
) -> Result<Vec<u8>, NoMemory>
    requires bound { look.bound ≤ 10 ^ 8 }
    requires places { Each (IsWithin look.bound) places.now }
    requires fit { IsFit unit.now }
    ensures { (lines : List ScriptLine) → script_of script.now ≡ Ok lines →
        IfOk result (λ v. AreTold (whole_unit unit.now) lines (look_of look.entry) places.now v.items) }
{
    let mut text = Vec::new(alloc);
    for place in places {
        let one = text_at(alloc, unit, script, look, *place)?;
        text.extend_from_slice(one.as_slice())?;
    }
    Ok(text)
}

// What is told at a place.
fn text_at(
    alloc: Global,
    unit: &TypedUnit,
    script: &[u8],
    look: Look<'_>,
    place: Place,
) -> Result<Vec<u8>, NoMemory>
    requires bound { look.bound ≤ 10 ^ 8 }
    requires place { IsWithin look.bound place }
    requires fit { IsFit unit.now }
    ensures { (lines : List ScriptLine) → script_of script.now ≡ Ok lines →
        IfOk result (λ v. IsToldAt (whole_unit unit.now) lines (look_of look.entry) place v.items) }
{
    match read(alloc, script) {
        Ok(lines) => text_by(alloc, unit, lines, look, place),
        Err(_) => Err(NoMemory),
    }
}

// The same, with the lines of the script. Nobody watches the run.
fn text_by(
    alloc: Global,
    unit: &TypedUnit,
    lines: Script,
    look: Look<'_>,
    place: Place,
) -> Result<Vec<u8>, NoMemory>
    requires bound { look.bound ≤ 10 ^ 8 }
    requires place { IsWithin look.bound place }
    requires fit { IsFit unit.now }
    ensures { IfOk result (λ v. IsToldAt (whole_unit unit.now) lines (look_of look.entry) place v.items) }
{
    let mut nobody = match Hall::new(alloc, Vec::new(alloc)) {
        Ok(hall) => hall,
        Err(_) => return Err(NoMemory),
    };
    text_of_run(alloc, unit, lines, look, place, &mut nobody)
}

// The same, before the hall. What the run prints is dropped. The run has a world, so it is let go here alone: at each way out of a function that owns
// one all its tables go.
fn text_of_run(
    alloc: Global,
    unit: &TypedUnit,
    lines: Script,
    look: Look<'_>,
    place: Place,
    hall: &mut Hall,
) -> Result<Vec<u8>, NoMemory>
    requires bound { look.bound ≤ 10 ^ 8 }
    requires place { IsWithin look.bound place }
    requires fit { IsFit unit.now }
    ensures { IfOk result (λ v. IsToldAt (whole_unit unit.now) lines (look_of look.entry) place v.items) }
{
    let bound = bound_at(look, place);
    let mut output = Nowhere;
    let Ok(ran) = run(
        alloc,
        unit,
        lines,
        bound,
        look.zap,
        look.sides,
        &mut output,
        hall,
    ) else {
        return Err(NoMemory);
    };
    place_text(alloc, unit, &ran, look, place)
}

// The bound of the run that is looked at: where a turn is due the run has taken those before it.
fn bound_at(look: Look<'_>, place: Place) -> u64
    requires { IsWithin look.bound place }
    ensures value { result ≡ specified.bound_at (look_of look.entry) place }
    ensures most { result ≤ look.entry.bound }
{
    match place {
        Place::End => look.bound,
        Place::Turn(turn) => turn - 1,
    }
}

// What is told at a place of a run that ended so.
fn place_text(
    alloc: Global,
    unit: &TypedUnit,
    ran: &Ran,
    look: Look<'_>,
    place: Place,
) -> Result<Vec<u8>, NoMemory>
    requires fit { IsFit unit.now }
    ensures { (run : Res Worth) → RanAs run ran.now →
        IfOk result (λ v. v.items ≡ specified.place_text (whole_unit unit.now) (look_of look.entry) place ran.now.outcome (end_of run)) }
{
    match place {
        Place::End => end_text(alloc, unit, ran, look.bound, look.all),
        Place::Turn(turn) => turn_text(alloc, unit, ran, turn, look.all),
    }
}

// What is told of the end of the run.
fn end_text(
    alloc: Global,
    unit: &TypedUnit,
    ran: &Ran,
    bound: u64,
    all: bool,
) -> Result<Vec<u8>, NoMemory>
    requires fit { IsFit unit.now }
    ensures { IfOk result (λ v. v.items ≡ outcome_line ran.now.outcome unit.now.names ran.now.turns bound ++ standing.state_text (whole_unit unit.now) ran.now.world all) }
{
    let mut text = end_line(alloc, unit, ran, bound)?;
    let state = state_text(alloc, unit, &ran.world, all)?;
    text.extend_from_slice(state.as_slice())?;
    Ok(text)
}

// The line of the run's report.
fn end_line(alloc: Global, unit: &TypedUnit, ran: &Ran, bound: u64) -> Result<Vec<u8>, NoMemory>
    ensures { IfOk result (λ v. v.items ≡ outcome_line ran.now.outcome unit.now.names ran.now.turns bound) }
{
    run_line(alloc, ran, unit.names(), bound)
}

// What is told where a turn is due.
fn turn_text(
    alloc: Global,
    unit: &TypedUnit,
    ran: &Ran,
    turn: u64,
    all: bool,
) -> Result<Vec<u8>, NoMemory>
    requires fit { IsFit unit.now }
    ensures { (run : Res Worth) → RanAs run ran.now →
        IfOk result (λ v. v.items ≡ specified.turn_text (whole_unit unit.now) all turn ran.now.outcome (end_of run)) }
{
    if is_turns(ran.outcome) {
        due_text(alloc, unit, ran, turn, all)
    } else {
        not_taken(alloc, turn)
    }
}

// What there is where a turn is due, behind its line.
fn due_text(
    alloc: Global,
    unit: &TypedUnit,
    ran: &Ran,
    turn: u64,
    all: bool,
) -> Result<Vec<u8>, NoMemory>
    requires fit { IsFit unit.now }
    ensures { IfOk result (λ v. v.items ≡ standing.line (codes "turn " ++ decimal turn) ++ standing.state_text (whole_unit unit.now) ran.now.world all) }
{
    let mut text = due(alloc, turn)?;
    let state = state_text(alloc, unit, &ran.world, all)?;
    text.extend_from_slice(state.as_slice())?;
    Ok(text)
}

// The line that a turn is due.
fn due(alloc: Global, turn: u64) -> Result<Vec<u8>, NoMemory>
    ensures { IfOk result (λ v. v.items ≡ standing.line (codes "turn " ++ decimal turn)) }
{
    Ok(format!(in alloc; "turn {turn}\n")?.into_bytes())
}

// The line that the run has ended before a turn.
fn not_taken(alloc: Global, turn: u64) -> Result<Vec<u8>, NoMemory>
    ensures { IfOk result (λ v. v.items ≡ standing.line (codes "turn " ++ decimal turn ++ codes " not taken")) }
{
    Ok(format!(in alloc; "turn {turn} not taken\n")?.into_bytes())
}

// Whether a run ended because one more turn was due.
fn is_turns(outcome: Outcome) -> bool
    ensures { result ≡ specified.is_turns outcome }
{
    match outcome {
        Outcome::Exit { .. } => false,
        Outcome::Ends { .. } => false,
        Outcome::Placement { .. } => false,
        Outcome::Storage { .. } => false,
        Outcome::Turns => true,
        Outcome::Abort { .. } => false,
        Outcome::SidesEnded { .. } => false,
    }
}
