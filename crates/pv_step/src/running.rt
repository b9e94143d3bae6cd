//! What commands show of a source's run.
ghost use Rattle.std.specs.Prelude.{◌≡◌, ◌<◌, ◌∷◌, ◌^◌, [], length, List, IfOk, OnOk};
ghost use Rattle.pv_watch.specs.Slots.{Present};
ghost use Rattle.pv_watch.specs.Kinds.{journal_kind};
ghost use Rattle.pv_watch.specs.Halls.{hall_slots};
ghost use Rattle.pv_serve.specs.Replying.{reply_view, IsOwn};
ghost use Rattle.pv_journal.specs.Journals.{Row};
ghost use Rattle.pv_journal.specs.Obeying.{IsJournal};
ghost use Rattle.pv_shown.specs.Shown.{report_of};
ghost use Rattle.pv_step.specs.Answers as specified;
ghost use Rattle.pv_step.specs.Answers.{IsStepped, IsLookedAt, run_of, refused_by};
ghost use Rattle.pv_step.specs.Answering.{IsJudged};

use crate::reading::StepText;
use pv_exec::{Outcome, Ran};
use pv_journal::{JournalError, check, one_verdict};
use pv_script::Names;
use pv_serve::{Judgement, NoMemory, Nowhere, Reply, judge, line, status};
use pv_shown::{Command, CommandError, commands, refusal, report};
use pv_watch::{Hall, Watch};
use std::alloc::Global;

// As many turns as there are positions.
const TURNS: u64 = 1_000_000;

// The status of a run that is shown, however it ended.
const SHOWN: u8 = 0;

// The status of commands that have no reading.
const REFUSED: u8 = 19;

/// The answer to a source with its script and a file of commands. The only error is want of memory.
pub fn answer(alloc: Global, text: &StepText, hall: &mut Hall) -> Result<Reply, NoMemory>
    requires { hall_slots hall.old its_kind its_wants seen ≡ Present journal_kind 18446744073709551615 [] ∷ [] }
    ensures stepped { IfOk result (λ a. IsStepped text.now.source.items text.now.script.items text.now.commands.items (reply_view a)) }
    ensures own { IfOk result (λ a. IsOwn a.status) }
{
    match commands(alloc, text.commands.as_slice()) {
        Ok(commands) => look(alloc, text, commands.as_slice(), hall),
        Err(error) => refuse(alloc, error),
    }
}

// What is told of commands that have no reading; want of memory is no reason for that.
fn refuse(alloc: Global, error: CommandError) -> Result<Reply, NoMemory>
    ensures told { IfOk result (λ a. reply_view a ≡ refused_by error) }
    ensures memory { error ≡ CommandError.NoMemory → OnOk result ⊥ }
    ensures own { IfOk result (λ a. a.status ≡ 19) }
{
    match error {
        CommandError::NoMemory => Err(NoMemory),
        _ => refuse_by(alloc, error),
    }
}

fn refuse_by(alloc: Global, error: CommandError) -> Result<Reply, NoMemory>
    ensures told { IfOk result (λ a. reply_view a ≡ refused_by error) }
    ensures own { IfOk result (λ a. a.status ≡ 19) }
{
    let text = refusal(alloc, error)?;
    Ok(Reply {
        status: REFUSED,
        text,
    })
}

// Runs a source with its script before the watcher in the hall, and shows what commands ask for. What the run prints is dropped.
fn look(
    alloc: Global,
    text: &StepText,
    commands: &[Command],
    hall: &mut Hall,
) -> Result<Reply, NoMemory>
    requires { hall_slots hall.old its_kind its_wants seen ≡ Present journal_kind 18446744073709551615 [] ∷ [] }
    ensures looked { IfOk result (λ a. IsLookedAt text.now.source.items text.now.script.items commands.now (reply_view a)) }
    ensures own { IfOk result (λ a. IsOwn a.status) }
{
    let source = text.source.as_slice();
    let script = text.script.as_slice();
    let mut output = Nowhere;
    let Ok(judgement) = judge(alloc, source, script, TURNS, true, None, &mut output, hall) else {
        return Err(NoMemory);
    };
    look_at(alloc, text, &judgement, hall, commands)
}

// Shows what commands ask for of a run that was made before the watcher in the hall, or tells the refusal. A judgement is let go in one place, by its
// caller, since it has the world of a run: at each way out of a function that owns one all its tables go.
fn look_at(
    alloc: Global,
    text: &StepText,
    judgement: &Judgement,
    hall: &Hall,
    commands: &[Command],
) -> Result<Reply, NoMemory>
    requires { IsJudged text.now.source.items text.now.script.items (hall_slots hall.now its_kind its_wants seen) judgement.now }
    ensures looked { IfOk result (λ a. IsLookedAt text.now.source.items text.now.script.items commands.now (reply_view a)) }
    ensures own { IfOk result (λ a. IsOwn a.status) }
{
    let told = line(alloc, judgement)?;
    match judgement {
        Judgement::Ran { ran, names, .. } => {
            let text = hall.texts(names)?;
            let journal = text.as_slice();
            is_text(journal);
            let line = told.as_slice();
            show(alloc, ran, journal, line, commands)
        }
        _ => Ok(Reply {
            status: status(judgement),
            text: told,
        }),
    }
}

// The length of a text is a number of the machine. Nothing is done here.
fn is_text(bytes: &[u8])
    ensures { length bytes.now < 2 ^ 64 }
{
    let _ = bytes.iter();
}

// Shows what commands ask for of a run that ended so, by its journal and its line. The only error is want of memory: what a run tells of its memory
// obeys the memory model, so no line of its journal is wrong.
fn show(
    alloc: Global,
    ran: &Ran,
    journal: &[u8],
    line: &[u8],
    commands: &[Command],
) -> Result<Reply, NoMemory>
    requires { (rows : List Row) × IsJournal rows journal.now }
    ensures shown { IfOk result (λ a. (rows : List Row) × IsJournal rows journal.now × (reply_view a
        ≡ record { status = 0; text = report_of (run_of ran.now.turns ran.now.outcome line.now rows) commands.now })) }
    ensures own { IfOk result (λ a. a.status ≡ 0) }
{
    let mut names = Names::new(alloc);
    let lines = match check(alloc, journal, &mut names) {
        Ok(lines) => lines,
        Err(JournalError::NoMemory) => return Err(NoMemory),
        Err(JournalError::Bad { .. }) => {
            one_verdict();
            is_text(journal);
            unreachable!()
        }
    };
    let ran = pv_shown::Ran {
        names: &names,
        lines: lines.as_slice(),
        taken: ran.turns,
        by_turns: is_turns(ran.outcome),
        line,
    };
    let text = report(alloc, ran, commands)?;
    Ok(Reply {
        status: SHOWN,
        text,
    })
}

// Whether a run ended because one more turn was due.
fn is_turns(outcome: Outcome) -> bool
    ensures { result ≡ specified.is_turns outcome }
{
    match outcome {
        Outcome::Exit { .. } => false,
        Outcome::Ends { .. } => false,
        Outcome::Placement { .. } => false,
        Outcome::Storage { .. } => false,
        Outcome::Turns => true,
        Outcome::Abort { .. } => false,
        Outcome::SidesEnded { .. } => false,
    }
}
