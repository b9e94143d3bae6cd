//! Reading the files that a job names: its source, and its script of addresses.
ghost use Rattle.std.specs.Prelude.{◌≡◌, ℕ, ◌+◌, ◌≤◌, List, take, IfOk, IfSome, IsErrOf, option_map, option_to_list};
ghost use Rattle.pv_serve.specs.Judged.{script_limit};
ghost use Rattle.pv_serve.specs.Answer.{files_read, script_held};
ghost use Rattle.pv_serve.specs.Outside.{AnyRose};
ghost use Rattle.pv_serve.specs.Serving.{AreRead};
ghost use Rattle.pv_script.specs.Outside.{HoldTheSame};

use crate::checking::SOURCE_LIMIT;
use pv_script::{Files, ReadError, read_all};
use std::alloc::Global;

/// The most bytes that a script of addresses may have.
pub const SCRIPT_LIMIT: usize = 65_536;

/// The bytes of a source and of its script, of each up to one above what it may have: they decide as much as all would.
#[derive(Drop)]
pub struct JobText {
    pub source: Vec<u8>,
    pub script: Vec<u8>,
}

/// Reads the source in a file, and then its script, if a file is named for it; where none is, the script has no bytes.
///
/// The script of a source that is too long is not read. A fault is that of one of the files that are read.
pub fn read_job<F: Files>(
    alloc: Global,
    files: &mut F,
    source: &str,
    script: Option<&str>,
) -> Result<JobText, ReadError>
    ensures read { IfOk result (λ t. AreRead source.now (option_map (λ s. s.now) script.entry) (F.held files.old)
        t.source.items t.script.items) }
    ensures same { HoldTheSame F.held files.old files.new }
    ensures later { (n : List ℕ) → F.faults files.old n ≤ F.faults files.new n }
    ensures cause { IsErrOf result ReadError.Fault →
        AnyRose (files_read source.now (option_map (λ s. s.now) script.entry) (F.held files.old)) (F.faults files.old) (F.faults files.new) }
{
    let bytes = match read_all(alloc, files, source, SOURCE_LIMIT) {
        Ok(bytes) => bytes,
        Err(error) => return Err(error),
    };
    if bytes.len() > SOURCE_LIMIT {
        let script = Vec::new(alloc);
        return Ok(JobText {
            source: bytes,
            script,
        });
    }
    match read_script(alloc, files, script) {
        Ok(script) => Ok(JobText {
            source: bytes,
            script,
        }),
        Err(error) => Err(error),
    }
}

/// Reads a script, if a file is named for it; where none is, it has no bytes. A fault is that of this file.
pub fn read_script<F: Files>(
    alloc: Global,
    files: &mut F,
    name: Option<&str>,
) -> Result<Vec<u8>, ReadError>
    ensures read { IfOk result (λ v. IfSome (script_held (option_map (λ s. s.now) name.entry) (F.held files.old))
        (λ text. v.items ≡ take (script_limit + 1) text)) }
    ensures same { HoldTheSame F.held files.old files.new }
    ensures later { (n : List ℕ) → F.faults files.old n ≤ F.faults files.new n }
    ensures cause { IsErrOf result ReadError.Fault →
        AnyRose (option_to_list (option_map (λ s. s.now) name.entry)) (F.faults files.old) (F.faults files.new) }
{
    match name {
        Some(name) => read_all(alloc, files, name, SCRIPT_LIMIT),
        None => Ok(Vec::new(alloc)),
    }
}
