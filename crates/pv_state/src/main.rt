//! Where a run stands (C17 5.1.2.3): its calls, and its objects with their values, at its end or at turns.
//!
//! `main` makes the real files and the real output, and calls [`state`], which does all the rest.
#![tactic(auto)]

mod calling;
mod running;
mod words;

pub use calling::{state, state_calmly};
use pv_script::{DiskFiles, Printed};
use pv_serve::{NO_MEMORY, NoMemory};
use std::alloc::Global;
use std::process::ExitCode;
use std::rt::{Env, Files};
use std::{env, io};

fn main(rt: HostRuntime) -> ExitCode {
    match answered(&rt) {
        Ok(status) => ExitCode::from(status),
        Err(NoMemory) => ExitCode::from(NO_MEMORY),
    }
}

// The status of the whole call. The only error is want of memory for what `state` is handed.
fn answered(rt: &(impl Env + Files + Print + AllocGlobal)) -> Result<u8, NoMemory> {
    let alloc = rt.alloc();
    let words = words_asked(rt, alloc)?;
    let mut files = DiskFiles::new(rt, alloc);
    let mut report = Printed::new(io::writer(rt));
    Ok(state(alloc, words.as_slice(), &mut files, &mut report))
}

// The words behind the program's name. Arguments that are no text are no words; the only error is want of memory.
fn words_asked(rt: &(impl Env + AllocGlobal), alloc: Global) -> Result<Vec<String>, NoMemory> {
    let mut words = Vec::new(alloc);
    match env::args(rt) {
        Ok(mut arguments) => {
            let _program = arguments.next();
            for word in arguments {
                words.push(word)?;
            }
        }
        Err(error) => {
            if error.kind() == io::ErrorKind::OutOfMemory {
                return Err(NoMemory);
            }
        }
    }
    Ok(words)
}

#[cfg(test)]
mod tests;
