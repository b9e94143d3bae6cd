//! The top call: what one call of the program does from its words to its status.
ghost use Rattle.std.specs.Prelude.{◌≡◌, ◌⊎◌, ◌∷◌, [], Some, IsNone};
ghost use Rattle.pv_script.specs.Calm.{calm_held, calm_written};
ghost use Rattle.pv_script.specs.Outside.{HoldTheSame};
ghost use Rattle.pv_watch.specs.Slots.{Present};
ghost use Rattle.pv_watch.specs.Kinds.{journal_kind};
ghost use Rattle.pv_watch.specs.Halls.{hall_slots};
ghost use Rattle.pv_serve.specs.Words.{texts};
ghost use Rattle.pv_serve.specs.Outside.{sink_change};
ghost use Rattle.pv_serve.specs.Replies.{ReplyCall, Replied, SomeReply, IsReplied};
ghost use Rattle.pv_step.specs.Words.{job};
ghost use Rattle.pv_step.specs.ReadWords.{asked_job};
ghost use Rattle.pv_step.specs.Answers.{service};
ghost use Rattle.pv_step.specs.Answering.{JobServed, TextServed};

use crate::reading::{StepText, read_files};
use crate::running::answer;
use crate::words::{Asked, job_asked};
use pv_script::{CalmFiles, CalmSink, Files, ReadError, Sink};
use pv_serve::{NO_JOB, NO_MEMORY, READ_FAULT, tell, tell_reply};
use pv_watch::{Hall, Watch};
use std::alloc::Global;

/// Does all that the program does, and answers its status.
///
/// The words are those behind the program's name: `SOURCE COMMANDS`, and `--script F` behind them or not. The source is run once, with at most
/// 1000000 turns, and the commands look at that run: they move to a position, which is a number of turns, and show how the run with that bound ends, what
/// lives there, which pairs of candidates there are, and what is at an address. What the run prints is dropped. The report is made whole
/// before its first byte goes out.
///
/// The hall has one watcher, which keeps a journal, has seen nothing, and wants as many events as can be counted; it is told of the run, if there is one.
///
/// What each status says is told in docs/FORMATS.md, Commands.
pub fn step<F: Files, R: Sink>(
    alloc: Global,
    words: &[String],
    files: &mut F,
    report: &mut R,
    hall: &mut Hall,
) -> u8
    requires hall { hall_slots hall.old its_kind its_wants seen ≡ Present journal_kind 18446744073709551615 [] ∷ [] }
    ensures answered { let call : ReplyCall = record {
      words = texts words.now;
      held = F.held files.old;
      faults_old = F.faults files.old;
      faults_new = F.faults files.new;
      report = sink_change R.written R.faults report.old report.new;
      status = result;
    } in Replied service call }
    ensures files_same { HoldTheSame F.held files.old files.new }

    // Where the words are no job, no file is read.
    ensures unread { IsNone (job (texts words.now)) → files.new ≡ files.old }
{
    match job_asked(words) {
        Some(asked) => step_files(alloc, asked, files, report, hall),
        None => tell(report, b"words\n", NO_JOB),
    }
}

// Answers a job.
fn step_files<F: Files, R: Sink>(
    alloc: Global,
    asked: Asked<'_>,
    files: &mut F,
    report: &mut R,
    hall: &mut Hall,
) -> u8
    requires hall { hall_slots hall.old its_kind its_wants seen ≡ Present journal_kind 18446744073709551615 [] ∷ [] }
    ensures served { JobServed (asked_job asked.entry) (F.held files.old) (F.faults files.old) (F.faults files.new)
        (sink_change R.written R.faults report.old report.new) result }
    ensures files_same { HoldTheSame F.held files.old files.new }
{
    match read_files(alloc, asked, files) {
        Err(ReadError::NoMemory) => NO_MEMORY,
        Err(ReadError::Fault) => tell(report, b"fault read\n", READ_FAULT),
        Ok(text) => step_text(alloc, &text, report, hall),
    }
}

// Answers what was read.
fn step_text<R: Sink>(alloc: Global, text: &StepText, report: &mut R, hall: &mut Hall) -> u8
    requires hall { hall_slots hall.old its_kind its_wants seen ≡ Present journal_kind 18446744073709551615 [] ∷ [] }
    ensures { TextServed text.now (sink_change R.written R.faults report.old report.new) result }
{
    match answer(alloc, text, hall) {
        Ok(reply) => tell_reply(report, &reply),
        Err(_) => NO_MEMORY,
    }
}

/// [`step`] over files and a sink that never fail: the answer with all its bytes, or want of memory, for any words and files.
pub fn step_calmly(
    alloc: Global,
    words: &[String],
    files: &mut CalmFiles,
    report: &mut CalmSink,
    hall: &mut Hall,
) -> u8
    requires hall { hall_slots hall.old its_kind its_wants seen ≡ Present journal_kind 18446744073709551615 [] ∷ [] }
    ensures { let call : ReplyCall = record {
      words = texts words.now;
      held = λ n. Some (calm_held files.old n);
      faults_old = λ _. 0;
      faults_new = λ _. 0;
      report = sink_change calm_written (λ _. 0) report.old report.new;
      status = result;
    } in (result ≡ 13) ⊎ SomeReply service call (IsReplied call) }
{
    step(alloc, words, files, report, hall)
}
