// The top call: what one call of the program does from its words to its status.
ghost use Rattle.std.specs.Prelude.{◌≡◌, ◌⊎◌, ◌<◌, ◌≤◌, ⊤, true, [], None, Some, IsNone, IfOk, OnOk};
ghost use Rattle.std.specs.List.{filter};
ghost use Rattle.pv_watch.specs.Slots.{is_kept};
ghost use Rattle.pv_gen.specs.Source.{source_text};
ghost use Rattle.pv_exec.specs.Answering.{highs};
ghost use Rattle.pv_watch.specs.Halls.{hall_slots};
ghost use Rattle.pv_serve.specs.Jobs.{Generated, kinds_of, default_turns};
ghost use Rattle.pv_serve.specs.ReadWords.{IsTask, asked_job};
ghost use Rattle.pv_serve.specs.Words.{texts, file_job as file_job_of, job as job_of};
ghost use Rattle.pv_serve.specs.Answer.{SomeAnswer};
ghost use Rattle.pv_serve.specs.Outside.{sink_change, halls};
ghost use Rattle.pv_serve.specs.Causes.{Call, Served, IsAnswer};
ghost use Rattle.pv_serve.specs.Serving.{Answered, FilesServed, HasStory, Reported, IsReportOn, kept_halls};
ghost use Rattle.pv_script.specs.Calm.{calm_held, calm_written};
ghost use Rattle.pv_script.specs.Outside.{HoldTheSame};

use crate::NoMemory;
use crate::judging::Judgement;
use crate::reading::{JobText, read_job};
use crate::report::{line, status};
use crate::sides::sides_in;
use crate::tasks::judge_task;
use crate::telling::{NO_JOB, NO_MEMORY, READ_FAULT, WRITE_FAULT, tell};
use crate::words::{Asked, COUNTED, DEFAULT_TURNS, Task, Watched, file_job, generated, kinds_of};
use pv_exec::{RunError, Side};
use pv_gen::source;
use pv_script::{CalmFiles, CalmSink, Files, Names, ReadError, Sink};
use pv_watch::{Hall, Watch};
use std::alloc::Global;

/// Does all that the program does, and answers its status.
///
/// The words are those behind the program's name. The program's output goes to `out`, and the report to `report` once
/// all output is written; it is made whole before its first byte goes out: a line, and behind that of a run the texts of those in the hall.
/// Of the hall those are kept whose kind the words ask for (`gen` keeps the count of events); they are told what happens in the run's memory.
/// Where the words are no job the hall stays as it is, and where memory ran out it is not used again.
///
/// The premise on the hall asks for nothing: by it the proof is one for whatever watchers a caller puts there.
///
/// What each status says is told in docs/FORMATS.md, The report.
pub fn serve<F: Files, O: Sink, R: Sink>(
    alloc: Global,
    words: &[String],
    files: &mut F,
    out: &mut O,
    report: &mut R,
    hall: &mut Hall,
) -> u8
    requires hall { ⊤ }
    ensures served { let call : Call = record {
      words = texts words.now;
      held = F.held files.old;
      faults_old = F.faults files.old;
      faults_new = F.faults files.new;
      out = sink_change O.written O.faults out.old out.new;
      report = sink_change R.written R.faults report.old report.new;
      hall = halls hall.old hall.new its_kind its_wants seen;
      status = result;
    } in Served call }
    ensures files_same { HoldTheSame F.held files.old files.new }

    // Where the words are no job, or a source is generated, no file is read.
    ensures unread { IsNone (file_job_of (texts words.now)) → files.new ≡ files.old }
{
    if let Some(number) = generated(words) {
        return run_generated(alloc, number, out, report, hall);
    }
    let Some(asked) = file_job(words) else {
        return tell(report, b"words\n", NO_JOB);
    };
    match keep(alloc, asked.watched, hall) {
        Ok(()) => run_files(alloc, asked, files, out, report, hall),
        Err(_) => NO_MEMORY,
    }
}

// Keeps those of the hall who are wanted.
fn keep(alloc: Global, watched: Watched, hall: &mut Hall) -> Result<(), NoMemory>
    requires hall { ⊤ }
    ensures { OnOk result (hall_slots hall.new its_kind its_wants seen
        ≡ filter (is_kept (kinds_of watched)) (hall_slots hall.old its_kind its_wants seen)) }
{
    let kinds = kinds_of(alloc, watched)?;
    hall.keep(kinds.as_slice());
    Ok(())
}

// Runs the generated source of this number, before the count of its events.
fn run_generated<O: Sink, R: Sink>(
    alloc: Global,
    number: u32,
    out: &mut O,
    report: &mut R,
    hall: &mut Hall,
) -> u8
    requires number { (0 < number) × (number ≤ 8192) }
    ensures { Answered (source_text number) [] (Task.Run default_turns true) None
        (sink_change O.written O.faults out.old out.new) (sink_change R.written R.faults report.old report.new)
        (kept_halls (Generated number) (halls hall.old hall.new its_kind its_wants seen)) result }
{
    match keep(alloc, COUNTED, hall) {
        Ok(()) => {}
        Err(_) => return NO_MEMORY,
    }
    let task = Task::Run {
        bound: DEFAULT_TURNS,
        zap: true,
    };
    match source(alloc, number) {
        Ok(text) => answer(alloc, text.as_slice(), b"", task, None, out, report, hall),
        Err(_) => NO_MEMORY,
    }
}

// Does what is asked of a file, before those who are kept in the hall.
fn run_files<F: Files, O: Sink, R: Sink>(
    alloc: Global,
    asked: Asked<'_>,
    files: &mut F,
    out: &mut O,
    report: &mut R,
    hall: &mut Hall,
) -> u8
    requires task { IsTask asked.task }
    ensures served { FilesServed (asked_job asked.entry) (F.held files.old) (F.faults files.old) (F.faults files.new)
        (sink_change O.written O.faults out.old out.new) (sink_change R.written R.faults report.old report.new)
        (halls hall.old hall.new its_kind its_wants seen) result }
    ensures files_same { HoldTheSame F.held files.old files.new }
{
    match read_job(alloc, files, asked.file, asked.script) {
        Err(ReadError::NoMemory) => NO_MEMORY,
        Err(ReadError::Fault) => tell(report, b"fault read\n", READ_FAULT),
        Ok(text) => answer_asked(alloc, asked, &text, out, report, hall),
    }
}

// Answers the source and the script that were read of a file, by the sides that are asked for, if there are any.
fn answer_asked<O: Sink, R: Sink>(
    alloc: Global,
    asked: Asked<'_>,
    text: &JobText,
    out: &mut O,
    report: &mut R,
    hall: &mut Hall,
) -> u8
    requires { IsTask asked.task }
    ensures { Answered text.now.source.items text.now.script.items asked.entry.task (asked_job asked.entry).sides
        (sink_change O.written O.faults out.old out.new) (sink_change R.written R.faults report.old report.new)
        (halls hall.old hall.new its_kind its_wants seen) result }
{
    let source = text.source.as_slice();
    let script = text.script.as_slice();
    let Some(word) = asked.sides else {
        return answer(alloc, source, script, asked.task, None, out, report, hall);
    };
    match sides_in(alloc, word) {
        Ok(sides) => {
            let sides = Some(sides.as_slice());
            answer(alloc, source, script, asked.task, sides, out, report, hall)
        }
        Err(_) => NO_MEMORY,
    }
}

// Judges a source with its script and sides, if there are any, before those who watch, and reports.
fn answer<O: Sink, R: Sink>(
    alloc: Global,
    source: &[u8],
    script: &[u8],
    task: Task,
    sides: Option<&[Side]>,
    out: &mut O,
    report: &mut R,
    hall: &mut Hall,
) -> u8
    requires { IsTask task }
    ensures { Answered source.now script.now task (highs sides.entry (λ x. x.now)) (sink_change O.written O.faults out.old out.new)
        (sink_change R.written R.faults report.old report.new) (halls hall.old hall.new its_kind its_wants seen) result }
{
    match judge_task(alloc, source, script, task, sides, out, hall) {
        Err(RunError::NoMemory) => NO_MEMORY,
        Err(RunError::WriteFault) => WRITE_FAULT,
        Ok(judgement) => told(alloc, &judgement, report, hall),
    }
}

// Reports a judgement, by a text that is made whole first.
fn told<R: Sink>(alloc: Global, judgement: &Judgement, report: &mut R, hall: &Hall) -> u8
    ensures { Reported judgement.now (hall_slots hall.now its_kind its_wants seen)
        (sink_change R.written R.faults report.old report.new) result }
{
    match report_of(alloc, judgement, hall) {
        Err(_) => NO_MEMORY,
        Ok(text) => tell(report, text.as_slice(), status(judgement)),
    }
}

// The line of a judgement, and behind that of a run the texts of those who watched it.
fn report_of(alloc: Global, judgement: &Judgement, hall: &Hall) -> Result<Vec<u8>, NoMemory>
    ensures { IfOk result (λ v. IsReportOn judgement.now (hall_slots hall.now its_kind its_wants seen) v.items) }
{
    let text = line(alloc, judgement)?;
    match judgement {
        Judgement::Ran { names, .. } => with_story(text, names, hall),
        Judgement::Settled { .. } => Ok(text),
        Judgement::Described { .. } => Ok(text),
        Judgement::Source(_) => Ok(text),
        Judgement::Script(_) => Ok(text),
    }
}

// A line, and behind it the texts of those who watched.
fn with_story(line: Vec<u8>, names: &Names, hall: &Hall) -> Result<Vec<u8>, NoMemory>
    ensures { IfOk result (λ v. HasStory names.now (hall_slots hall.now its_kind its_wants seen) line.items v.items) }
{
    let mut text = line;
    let story = hall.texts(names)?;
    text.extend_from_slice(story.as_slice())?;
    Ok(text)
}

/// [`serve`] over files and sinks that never fail: an answer with all its bytes, or want of memory, for any words and files.
pub fn serve_calmly(
    alloc: Global,
    words: &[String],
    files: &mut CalmFiles,
    out: &mut CalmSink,
    report: &mut CalmSink,
    hall: &mut Hall,
) -> u8
    requires hall { ⊤ }
    ensures { let call : Call = record {
      words = texts words.now;
      held = λ n. Some (calm_held files.old n);
      faults_old = λ _. 0;
      faults_new = λ _. 0;
      out = sink_change calm_written (λ _. 0) out.old out.new;
      report = sink_change calm_written (λ _. 0) report.old report.new;
      hall = halls hall.old hall.new its_kind its_wants seen;
      status = result;
    } in (result ≡ 13) ⊎ SomeAnswer (job_of call.words) call.held (IsAnswer call) }
{
    serve(alloc, words, files, out, report, hall)
}
