//! The top call: what one call of the program does from its words to its status.
ghost use Rattle.std.specs.Prelude.{◌≡◌, ◌⊎◌, ◌≤◌, ℕ, List, Some, IsNone};
ghost use Rattle.pv_script.specs.Calm.{calm_held, calm_written};
ghost use Rattle.pv_script.specs.Outside.{HoldTheSame};
ghost use Rattle.pv_serve.specs.Words.{texts};
ghost use Rattle.pv_serve.specs.Outside.{sink_change};
ghost use Rattle.pv_serve.specs.Replies.{ReplyCall, Replied, SomeReply, IsReplied};
ghost use Rattle.pv_suite.specs.Words.{list_of};
ghost use Rattle.pv_suite.specs.Causes.{service};
ghost use Rattle.pv_suite.specs.Answering.{ListServed, ReadServed};

use crate::answering::answer;
use crate::error::Unanswered;
use crate::words::list_asked;
use pv_cases::LIST_LIMIT;
use pv_script::{CalmFiles, CalmSink, Files, ReadError, Sink, read_all};
use pv_serve::{NO_JOB, NO_MEMORY, READ_FAULT, tell, tell_reply};
use std::alloc::Global;

/// Does all that the program does, and answers its status.
///
/// The words are those behind the program's name: the name of a list's file, and no more. The report is made whole before its first byte
/// goes out.
///
/// What each status says is told in docs/FORMATS.md, Suites.
pub fn suite<F: Files, R: Sink>(
    alloc: Global,
    words: &[String],
    files: &mut F,
    report: &mut R,
) -> u8
    ensures answered { let call : ReplyCall = record {
      words = texts words.now;
      held = F.held files.old;
      faults_old = F.faults files.old;
      faults_new = F.faults files.new;
      report = sink_change R.written R.faults report.old report.new;
      status = result;
    } in Replied service call }
    ensures files_same { HoldTheSame F.held files.old files.new }

    // Where the words are no job, no file is read.
    ensures unread { IsNone (list_of (texts words.now)) → files.new ≡ files.old }
{
    match list_asked(words) {
        Some(name) => suite_in(alloc, name, files, report),
        None => tell(report, b"words\n", NO_JOB),
    }
}

// Answers the list in a file.
fn suite_in<F: Files, R: Sink>(alloc: Global, name: &str, files: &mut F, report: &mut R) -> u8
    ensures served { ListServed name.now (F.held files.old) (F.faults files.old) (F.faults files.new)
        (sink_change R.written R.faults report.old report.new) result }
    ensures files_same { HoldTheSame F.held files.old files.new }
{
    match read_all(alloc, files, name, LIST_LIMIT) {
        Err(ReadError::NoMemory) => NO_MEMORY,
        Err(ReadError::Fault) => tell(report, b"fault read\n", READ_FAULT),
        Ok(list) => suite_of(alloc, list.as_slice(), files, report),
    }
}

// Answers a list.
fn suite_of<F: Files, R: Sink>(alloc: Global, list: &[u8], files: &mut F, report: &mut R) -> u8
    ensures served { ReadServed list.now (F.held files.old) (F.faults files.old) (F.faults files.new)
        (sink_change R.written R.faults report.old report.new) result }
    ensures files_same { HoldTheSame F.held files.old files.new }
    ensures later { (n : List ℕ) → F.faults files.old n ≤ F.faults files.new n }
{
    match answer(alloc, list, files) {
        Err(Unanswered::NoMemory) => NO_MEMORY,
        Err(Unanswered::Fault) => tell(report, b"fault read\n", READ_FAULT),
        Ok(reply) => tell_reply(report, &reply),
    }
}

/// [`suite`] over files and a sink that never fail: the answer with all its bytes, or want of memory, for any words and files.
pub fn suite_calmly(
    alloc: Global,
    words: &[String],
    files: &mut CalmFiles,
    report: &mut CalmSink,
) -> u8
    ensures { let call : ReplyCall = record {
      words = texts words.now;
      held = λ n. Some (calm_held files.old n);
      faults_old = λ _. 0;
      faults_new = λ _. 0;
      report = sink_change calm_written (λ _. 0) report.old report.new;
      status = result;
    } in (result ≡ 13) ⊎ SomeReply service call (IsReplied call) }
{
    suite(alloc, words, files, report)
}
