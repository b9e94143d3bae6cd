//! Writes the journal of a run, or checks one.
//!
//! `main` makes the real files, the real output and the watcher that keeps a journal, and calls [`replay`], which does all the rest.
#![tactic(auto)]

ghost use Rattle.std.specs.Prelude.{IfOk};
ghost use Rattle.pv_serve.specs.Words.{texts};
ghost use Rattle.pv_serve.specs.Outside.{sink_change};
ghost use Rattle.pv_serve.specs.Replies.{ReplyCall, Replied};
ghost use Rattle.pv_replay.specs.Answers.{service};

mod calling;
mod checking;
mod words;
mod writing;

pub use calling::{replay, replay_calmly};
pub use checking::one_answer;
use pv_explain::Journal;
use pv_script::{DiskFiles, Printed, Sink};
use pv_serve::{NO_MEMORY, NoMemory};
use pv_watch::{Hall, Watch};
use std::alloc::Global;
use std::process::ExitCode;
use std::rt::{Env, Files};
use std::{env, io};

/// How many events a journal tells; later ones are missing in it.
const WANTS: u64 = 65_536;

fn main(rt: HostRuntime) -> ExitCode {
    match answered(&rt) {
        Ok(status) => ExitCode::from(status),
        Err(NoMemory) => ExitCode::from(NO_MEMORY),
    }
}

// The status of the whole call. The only error is want of memory for what `replay` is handed.
fn answered(rt: &(impl Env + Files + Print + AllocGlobal)) -> Result<u8, NoMemory> {
    let alloc = rt.alloc();
    let words = words_asked(rt, alloc)?;
    let mut files = DiskFiles::new(rt, alloc);
    let mut report = Printed::new(io::writer(rt));
    watched(alloc, words.as_slice(), &mut files, &mut report)
}

// Calls `replay` before one watcher, which keeps a journal.
fn watched<F: pv_script::Files, R: Sink>(
    alloc: Global,
    words: &[String],
    files: &mut F,
    report: &mut R,
) -> Result<u8, NoMemory>
    ensures { IfOk result (λ status. let call : ReplyCall = record {
      words = texts words.now;
      held = F.held files.old;
      faults_old = F.faults files.old;
      faults_new = F.faults files.new;
      report = sink_change R.written R.faults report.old report.new;
      status = status;
    } in Replied service call) }
{
    let mut watchers: Vec<Box<dyn Watch>> = Vec::new(alloc);
    watchers.push(Box::new(alloc, Journal::new(alloc, WANTS))?)?;
    let mut hall = Hall::new(alloc, watchers)?;
    Ok(replay(alloc, words, files, report, &mut hall))
}

// The words behind the program's name. Arguments that are no text are no words; the only error is want of memory.
fn words_asked(rt: &(impl Env + AllocGlobal), alloc: Global) -> Result<Vec<String>, NoMemory> {
    let mut words = Vec::new(alloc);
    match env::args(rt) {
        Ok(mut arguments) => {
            let _program = arguments.next();
            for word in arguments {
                words.push(word)?;
            }
        }
        Err(error) => {
            if error.kind() == io::ErrorKind::OutOfMemory {
                return Err(NoMemory);
            }
        }
    }
    Ok(words)
}

#[cfg(test)]
mod tests;
