//! The files that are asked for.
ghost use Rattle.std.specs.Prelude.{◌≡◌, ◌≤◌, ℕ, List, take, IfOk, IfSome, IsErrOf};
ghost use Rattle.pv_script.specs.Outside.{Rose, HoldTheSame};
ghost use Rattle.pv_serve.specs.Outside.{AnyRose};
ghost use Rattle.pv_step.specs.Words.{files_of};
ghost use Rattle.pv_step.specs.ReadWords.{asked_job};
ghost use Rattle.pv_step.specs.Answering.{AreRead};

use crate::words::Asked;
use pv_script::{Files, ReadError, read_all};
use pv_serve::{SOURCE_LIMIT, read_script};
use pv_shown::COMMANDS_LIMIT;
use std::alloc::Global;

/// What was read of the files, of each up to one byte above what it may have.
#[derive(Drop)]
pub struct StepText {
    pub source: Vec<u8>,
    /// Empty where no script is named.
    pub script: Vec<u8>,
    pub commands: Vec<u8>,
}

/// Reads the source, its script, if one is named, and the commands, in this order. A fault is that of one of them.
pub(crate) fn read_files<F: Files>(
    alloc: Global,
    asked: Asked<'_>,
    files: &mut F,
) -> Result<StepText, ReadError>
    ensures read { IfOk result (λ t. AreRead (asked_job asked.entry) (F.held files.old) t.source.items t.script.items t.commands.items) }
    ensures same { HoldTheSame F.held files.old files.new }
    ensures cause { IsErrOf result ReadError.Fault → AnyRose (files_of (asked_job asked.entry)) (F.faults files.old) (F.faults files.new) }
{
    let source = match read_all(alloc, files, asked.file, SOURCE_LIMIT) {
        Ok(source) => source,
        Err(error) => return Err(error),
    };
    let script = match read_script(alloc, files, asked.script) {
        Ok(script) => script,
        Err(error) => return Err(error),
    };
    match read_commands(alloc, asked.commands, files) {
        Ok(commands) => Ok(StepText {
            source,
            script,
            commands,
        }),
        Err(error) => Err(error),
    }
}

// Reads the commands.
fn read_commands<F: Files>(alloc: Global, name: &str, files: &mut F) -> Result<Vec<u8>, ReadError>
    ensures read { IfOk result (λ v. IfSome (F.held files.old name.now) (λ all. v.items ≡ take 65537 all)) }
    ensures same { HoldTheSame F.held files.old files.new }
    ensures later { (n : List ℕ) → F.faults files.old n ≤ F.faults files.new n }
    ensures cause { IsErrOf result ReadError.Fault → Rose (F.faults files.old name.now) (F.faults files.new name.now) }
{
    read_all(alloc, files, name, COMMANDS_LIMIT)
}
