//! The top call: what one call of the program does from its words to its status.
ghost use Rattle.std.specs.Prelude.{◌≡◌, ◌⊎◌, Some, IfOk, IsNone};
ghost use Rattle.pv_script.specs.Calm.{calm_held, calm_written};
ghost use Rattle.pv_script.specs.Outside.{HoldTheSame};
ghost use Rattle.pv_serve.specs.Words.{texts};
ghost use Rattle.pv_serve.specs.Outside.{sink_change};
ghost use Rattle.pv_serve.specs.Replies.{ReplyCall, Replied, SomeReply, IsReplied};
ghost use Rattle.pv_serve.specs.Replying.{reply_view, IsOwn};
ghost use Rattle.pv_exec.specs.Answering.{highs};
ghost use Rattle.pv_state.specs.Words.{job};
ghost use Rattle.pv_state.specs.ReadWords.{asked_job, IsFitting};
ghost use Rattle.pv_state.specs.Answers.{service, IsAnswered};
ghost use Rattle.pv_state.specs.Answering.{JobServed, TextServed};

use crate::running::{Look, answer};
use crate::words::{Asked, job_asked, places_of};
use pv_exec::Side;
use pv_script::{CalmFiles, CalmSink, Files, ReadError, Sink};
use pv_serve::{
    JobText, NO_JOB, NO_MEMORY, NoMemory, READ_FAULT, Reply, read_job, sides_in, tell, tell_reply,
};
use std::alloc::Global;

/// Does all that the program does, and answers its status.
///
/// The words are those behind the program's name: `FILE [--script F] [--turns N] [--zap V] [--sides S] [--all] [WHERE]..`. The source is run, once for
/// each WHERE, and what there is where the run stands is told: the calls, and the named objects with their values. What the run prints is dropped.
/// The report is made whole before its first byte goes out.
///
/// What each status says is told in docs/FORMATS.md, Where a run stands.
pub fn state<F: Files, R: Sink>(
    alloc: Global,
    words: &[String],
    files: &mut F,
    report: &mut R,
) -> u8
    ensures answered { let call : ReplyCall = record {
      words = texts words.now;
      held = F.held files.old;
      faults_old = F.faults files.old;
      faults_new = F.faults files.new;
      report = sink_change R.written R.faults report.old report.new;
      status = result;
    } in Replied service call }
    ensures files_same { HoldTheSame F.held files.old files.new }

    // Where the words are no job, no file is read.
    ensures unread { IsNone (job (texts words.now)) → files.new ≡ files.old }
{
    match job_asked(words) {
        Some(asked) => state_files(alloc, asked, files, report),
        None => tell(report, b"words\n", NO_JOB),
    }
}

// Answers a job.
fn state_files<F: Files, R: Sink>(
    alloc: Global,
    asked: Asked<'_>,
    files: &mut F,
    report: &mut R,
) -> u8
    requires { IsFitting asked }
    ensures served { JobServed (asked_job asked.entry) (F.held files.old) (F.faults files.old) (F.faults files.new)
        (sink_change R.written R.faults report.old report.new) result }
    ensures files_same { HoldTheSame F.held files.old files.new }
{
    match read_job(alloc, files, asked.file, asked.script) {
        Err(ReadError::NoMemory) => NO_MEMORY,
        Err(ReadError::Fault) => tell(report, b"fault read\n", READ_FAULT),
        Ok(text) => state_of(alloc, asked, &text, report),
    }
}

// Answers what was read.
fn state_of<R: Sink>(alloc: Global, asked: Asked<'_>, text: &JobText, report: &mut R) -> u8
    requires { IsFitting asked }
    ensures { TextServed (asked_job asked.entry) text.now.source.items text.now.script.items (sink_change R.written R.faults report.old report.new) result }
{
    match reply(alloc, asked, text) {
        Ok(reply) => tell_reply(report, &reply),
        Err(_) => NO_MEMORY,
    }
}

// The reply to what was read.
fn reply(alloc: Global, asked: Asked<'_>, text: &JobText) -> Result<Reply, NoMemory>
    requires { IsFitting asked }
    ensures answered { IfOk result (λ a. IsAnswered (asked_job asked.entry).look (asked_job asked.entry).places text.now.source.items text.now.script.items (reply_view a)) }
    ensures own { IfOk result (λ a. IsOwn a.status) }
{
    let Some(word) = asked.sides else {
        return reply_by(alloc, asked, text, None);
    };
    match sides_in(alloc, word) {
        Ok(sides) => reply_by(alloc, asked, text, Some(sides.as_slice())),
        Err(_) => Err(NoMemory),
    }
}

// The same, with these sides.
fn reply_by(
    alloc: Global,
    asked: Asked<'_>,
    text: &JobText,
    sides: Option<&[Side]>,
) -> Result<Reply, NoMemory>
    requires { IsFitting asked }
    ensures answered { highs sides.entry (λ x. x.now) ≡ (asked_job asked.entry).look.sides →
        IfOk result (λ a. IsAnswered (asked_job asked.entry).look (asked_job asked.entry).places text.now.source.items text.now.script.items (reply_view a)) }
    ensures own { IfOk result (λ a. IsOwn a.status) }
{
    let places = places_of(alloc, asked.places, asked.bound)?;
    let look = Look {
        bound: asked.bound,
        zap: asked.zap,
        sides,
        all: asked.all,
    };
    let source = text.source.as_slice();
    let script = text.script.as_slice();
    answer(alloc, source, script, look, places.as_slice())
}

/// [`state`] over files and a sink that never fail: the answer with all its bytes, or want of memory, for any words and files.
pub fn state_calmly(
    alloc: Global,
    words: &[String],
    files: &mut CalmFiles,
    report: &mut CalmSink,
) -> u8
    ensures { let call : ReplyCall = record {
      words = texts words.now;
      held = λ n. Some (calm_held files.old n);
      faults_old = λ _. 0;
      faults_new = λ _. 0;
      report = sink_change calm_written (λ _. 0) report.old report.new;
      status = result;
    } in (result ≡ 13) ⊎ SomeReply service call (IsReplied call) }
{
    state(alloc, words, files, report)
}
