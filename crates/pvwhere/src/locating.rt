//! The top call: what one call of the program does from its words to its status.
ghost use Rattle.std.specs.Prelude.{◌≡◌, ◌⊎◌, Some, IsNone};
ghost use Rattle.pv_script.specs.Calm.{calm_held, calm_written};
ghost use Rattle.pv_script.specs.Outside.{HoldTheSame};
ghost use Rattle.pv_serve.specs.Words.{texts};
ghost use Rattle.pv_serve.specs.Outside.{sink_change};
ghost use Rattle.pv_serve.specs.Replies.{ReplyCall, Replied, SomeReply, IsReplied};
ghost use Rattle.pvwhere.specs.Words.{file_of};
ghost use Rattle.pvwhere.specs.Answers.{service};
ghost use Rattle.pvwhere.specs.Answering.{FileServed, SourceServed};

use crate::places::SOURCE_LIMIT;
use crate::telling::told;
use crate::words::file_asked;
use pv_script::{CalmFiles, CalmSink, Files, ReadError, Sink, read_all};
use pv_serve::{NO_JOB, NO_MEMORY, READ_FAULT, tell};
use std::alloc::Global;

const NOT_REFUSED: u8 = 0;

const REFUSED: u8 = 8;

/// Does all that the program does, and answers its status.
///
/// The words are those behind the program's name: the name of a file, and no more. What is told goes to `out`, and is made whole before its
/// first byte goes out.
///
/// What each status says is told in docs/FORMATS.md, Where a refusal is.
pub fn locate<F: Files, O: Sink>(alloc: Global, words: &[String], files: &mut F, out: &mut O) -> u8
    ensures answered { let call : ReplyCall = record {
      words = texts words.now;
      held = F.held files.old;
      faults_old = F.faults files.old;
      faults_new = F.faults files.new;
      report = sink_change O.written O.faults out.old out.new;
      status = result;
    } in Replied service call }
    ensures files_same { HoldTheSame F.held files.old files.new }

    // Where the words are no job, no file is read.
    ensures unread { IsNone (file_of (texts words.now)) → files.new ≡ files.old }
{
    match file_asked(words) {
        Some(name) => locate_in(alloc, name, files, out),
        None => tell(out, b"words\n", NO_JOB),
    }
}

// Tells where the source in a file is refused.
fn locate_in<F: Files, O: Sink>(alloc: Global, name: &str, files: &mut F, out: &mut O) -> u8
    ensures served { FileServed name.now (F.held files.old) (F.faults files.old) (F.faults files.new)
        (sink_change O.written O.faults out.old out.new) result }
    ensures files_same { HoldTheSame F.held files.old files.new }
{
    match read_all(alloc, files, name, SOURCE_LIMIT) {
        Err(ReadError::NoMemory) => NO_MEMORY,
        Err(ReadError::Fault) => tell(out, b"fault read\n", READ_FAULT),
        Ok(source) => answer(alloc, name, source.as_slice(), out),
    }
}

// Tells where a source is refused.
fn answer<O: Sink>(alloc: Global, name: &str, source: &[u8], out: &mut O) -> u8
    ensures { SourceServed name.now source.now (sink_change O.written O.faults out.old out.new) result }
{
    match told(alloc, name, source) {
        Err(_) => NO_MEMORY,
        Ok(None) => NOT_REFUSED,
        Ok(Some(text)) => tell(out, text.as_slice(), REFUSED),
    }
}

/// [`locate`] over files and a sink that never fail: the answer with all its bytes, or want of memory, for any words and files.
pub fn locate_calmly(
    alloc: Global,
    words: &[String],
    files: &mut CalmFiles,
    out: &mut CalmSink,
) -> u8
    ensures { let call : ReplyCall = record {
      words = texts words.now;
      held = λ n. Some (calm_held files.old n);
      faults_old = λ _. 0;
      faults_new = λ _. 0;
      report = sink_change calm_written (λ _. 0) out.old out.new;
      status = result;
    } in (result ≡ 13) ⊎ SomeReply service call (IsReplied call) }
{
    locate(alloc, words, files, out)
}
