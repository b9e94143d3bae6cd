//! The top call: what one call of the program does from its words to its status.
ghost use Rattle.std.specs.Prelude.{◌≡◌, ◌⊎◌, ◌∷◌, [], Some, IsNone};
ghost use Rattle.pv_script.specs.Calm.{calm_held, calm_written};
ghost use Rattle.pv_script.specs.Outside.{HoldTheSame};
ghost use Rattle.pv_watch.specs.Slots.{Present};
ghost use Rattle.pv_watch.specs.Kinds.{journal_kind};
ghost use Rattle.pv_watch.specs.Halls.{hall_slots};
ghost use Rattle.pv_serve.specs.ReadWords.{IsBound};
ghost use Rattle.pv_serve.specs.Words.{texts};
ghost use Rattle.pv_serve.specs.Outside.{sink_change};
ghost use Rattle.pv_serve.specs.Replies.{ReplyCall, Replied, SomeReply, IsReplied};
ghost use Rattle.pv_replay.specs.Words.{job, Write, Check};
ghost use Rattle.pv_replay.specs.ReadWords.{run_job};
ghost use Rattle.pv_replay.specs.Answers.{IsChecked, service};
ghost use Rattle.pv_replay.specs.Obeying.{WritesJournals};
ghost use Rattle.pv_replay.specs.Answering.{JobServed, TextServed, IsRunReply};

use crate::checking::{JOURNAL_LIMIT, checked};
use crate::words::{Asked, RunAsked, job_asked};
use crate::writing::journal_of;
use pv_script::{CalmFiles, CalmSink, Files, ReadError, Sink, read_all};
use pv_serve::{JobText, NO_JOB, NO_MEMORY, READ_FAULT, read_job, tell, tell_reply};
use pv_watch::{Hall, Watch};
use std::alloc::Global;

/// Does all that the program does, and answers its status.
///
/// The words are those behind the program's name: `write FILE` writes the journal of the run of the source in that file, `check FILE` tells
/// whether that file holds a journal that obeys the memory model, or its first line that is wrong. The report is made whole before its first
/// byte goes out.
///
/// What is written of a run obeys: `check` accepts it, unless it has more bytes than a journal that is checked may have.
///
/// The hall has one watcher, which keeps a journal, has seen nothing, and wants 65536 events; it is told of a run, if there is one.
///
/// What each status says is told in docs/FORMATS.md, Writing and checking journals.
pub fn replay<F: Files, R: Sink>(
    alloc: Global,
    words: &[String],
    files: &mut F,
    report: &mut R,
    hall: &mut Hall,
) -> u8
    requires hall { hall_slots hall.old its_kind its_wants seen ≡ Present journal_kind 65536 [] ∷ [] }
    ensures answered { let call : ReplyCall = record {
      words = texts words.now;
      held = F.held files.old;
      faults_old = F.faults files.old;
      faults_new = F.faults files.new;
      report = sink_change R.written R.faults report.old report.new;
      status = result;
    } in Replied service call }

    // What `write` writes of a run `check` accepts.
    ensures accepted { WritesJournals (job (texts words.now)) (F.held files.old) (sink_change R.written R.faults report.old report.new) result }
    ensures files_same { HoldTheSame F.held files.old files.new }

    // Where the words are no job, no file is read.
    ensures unread { IsNone (job (texts words.now)) → files.new ≡ files.old }
{
    match job_asked(words) {
        Some(Asked::Write(run)) => write_journal(alloc, run, files, report, hall),
        Some(Asked::Check(name)) => check_journal(alloc, name, files, report),
        None => tell(report, b"words\n", NO_JOB),
    }
}

// Writes the journal of a run of a file.
fn write_journal<F: Files, R: Sink>(
    alloc: Global,
    run: RunAsked<'_>,
    files: &mut F,
    report: &mut R,
    hall: &mut Hall,
) -> u8
    requires bound { IsBound run.turns }
    requires hall { hall_slots hall.old its_kind its_wants seen ≡ Present journal_kind 65536 [] ∷ [] }
    ensures served { JobServed (Write (run_job run.entry)) (F.held files.old) (F.faults files.old) (F.faults files.new)
        (sink_change R.written R.faults report.old report.new) result }
    ensures files_same { HoldTheSame F.held files.old files.new }
{
    match read_job(alloc, files, run.file, run.script) {
        Err(ReadError::NoMemory) => NO_MEMORY,
        Err(ReadError::Fault) => tell(report, b"fault read\n", READ_FAULT),
        Ok(text) => write_text(alloc, &text, run.turns, report, hall),
    }
}

// Writes the journal of the run of a source with its script.
fn write_text<R: Sink>(
    alloc: Global,
    text: &JobText,
    turns: u64,
    report: &mut R,
    hall: &mut Hall,
) -> u8
    requires bound { IsBound turns }
    requires hall { hall_slots hall.old its_kind its_wants seen ≡ Present journal_kind 65536 [] ∷ [] }
    ensures { TextServed (IsRunReply text.now.source.items text.now.script.items turns)
        (sink_change R.written R.faults report.old report.new) result }
{
    match journal_of(alloc, text, turns, hall) {
        Ok(reply) => tell_reply(report, &reply),
        Err(_) => NO_MEMORY,
    }
}

// Checks the journal in a file.
fn check_journal<F: Files, R: Sink>(alloc: Global, name: &str, files: &mut F, report: &mut R) -> u8
    ensures served { JobServed (Check name.now) (F.held files.old) (F.faults files.old) (F.faults files.new)
        (sink_change R.written R.faults report.old report.new) result }
    ensures files_same { HoldTheSame F.held files.old files.new }
{
    match read_all(alloc, files, name, JOURNAL_LIMIT) {
        Err(ReadError::NoMemory) => NO_MEMORY,
        Err(ReadError::Fault) => tell(report, b"fault read\n", READ_FAULT),
        Ok(bytes) => check_text(alloc, bytes.as_slice(), report),
    }
}

// Checks a text.
fn check_text<R: Sink>(alloc: Global, bytes: &[u8], report: &mut R) -> u8
    ensures { TextServed (IsChecked bytes.now) (sink_change R.written R.faults report.old report.new) result }
{
    match checked(alloc, bytes) {
        Ok(reply) => tell_reply(report, &reply),
        Err(_) => NO_MEMORY,
    }
}

/// [`replay`] over files and a sink that never fail: the answer with all its bytes, or want of memory, for any words and files.
pub fn replay_calmly(
    alloc: Global,
    words: &[String],
    files: &mut CalmFiles,
    report: &mut CalmSink,
    hall: &mut Hall,
) -> u8
    requires hall { hall_slots hall.old its_kind its_wants seen ≡ Present journal_kind 65536 [] ∷ [] }
    ensures { let call : ReplyCall = record {
      words = texts words.now;
      held = λ n. Some (calm_held files.old n);
      faults_old = λ _. 0;
      faults_new = λ _. 0;
      report = sink_change calm_written (λ _. 0) report.old report.new;
      status = result;
    } in (result ≡ 13) ⊎ SomeReply service call (IsReplied call) }
{
    replay(alloc, words, files, report, hall)
}
