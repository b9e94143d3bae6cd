//! Steps through a run (C17 5.1.2.3), by commands.
//!
//! `main` makes the real files, the real output and the watcher that keeps a journal, and calls [`step`], which does all the rest.
#![tactic(auto)]

ghost use Rattle.std.specs.Prelude.{IfOk};
ghost use Rattle.pv_serve.specs.Words.{texts};
ghost use Rattle.pv_serve.specs.Outside.{sink_change};
ghost use Rattle.pv_serve.specs.Replies.{ReplyCall, Replied};
ghost use Rattle.pv_step.specs.Answers.{service};

mod calling;
mod positions;
mod reading;
mod running;
mod words;

pub use calling::{step, step_calmly};
pub use positions::positions_are_bounds;
use pv_explain::Journal;
use pv_script::{DiskFiles, Printed, Sink};
use pv_serve::{NO_MEMORY, NoMemory};
use pv_watch::{Hall, Watch};
use std::alloc::Global;
use std::process::ExitCode;
use std::rt::{Env, Files};
use std::{env, io};

/// All events are told.
const WANTS: u64 = u64::MAX;

fn main(rt: HostRuntime) -> ExitCode {
    match answered(&rt) {
        Ok(status) => ExitCode::from(status),
        Err(NoMemory) => ExitCode::from(NO_MEMORY),
    }
}

// The status of the whole call. The only error is want of memory for what `step` is handed.
fn answered(rt: &(impl Env + Files + Print + AllocGlobal)) -> Result<u8, NoMemory> {
    let alloc = rt.alloc();
    let words = words_asked(rt, alloc)?;
    let mut files = DiskFiles::new(rt, alloc);
    let mut report = Printed::new(io::writer(rt));
    watched(alloc, words.as_slice(), &mut files, &mut report)
}

// Calls `step` before one watcher, which keeps a journal.
fn watched<F: pv_script::Files, R: Sink>(
    alloc: Global,
    words: &[String],
    files: &mut F,
    report: &mut R,
) -> Result<u8, NoMemory>
    ensures { IfOk result (λ status. let call : ReplyCall = record {
      words = texts words.now;
      held = F.held files.old;
      faults_old = F.faults files.old;
      faults_new = F.faults files.new;
      report = sink_change R.written R.faults report.old report.new;
      status = status;
    } in Replied service call) }
{
    let mut watchers: Vec<Box<dyn Watch>> = Vec::new(alloc);
    watchers.push(Box::new(alloc, Journal::new(alloc, WANTS))?)?;
    let mut hall = Hall::new(alloc, watchers)?;
    Ok(step(alloc, words, files, report, &mut hall))
}

// The words behind the program's name. Arguments that are no text are no words; the only error is want of memory.
fn words_asked(rt: &(impl Env + AllocGlobal), alloc: Global) -> Result<Vec<String>, NoMemory> {
    let mut words = Vec::new(alloc);
    match env::args(rt) {
        Ok(mut arguments) => {
            let _program = arguments.next();
            for word in arguments {
                words.push(word)?;
            }
        }
        Err(error) => {
            if error.kind() == io::ErrorKind::OutOfMemory {
                return Err(NoMemory);
            }
        }
    }
    Ok(words)
}

#[cfg(test)]
mod tests;
