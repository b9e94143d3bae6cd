//! What a source with its script is, before anything is done with it.
ghost use Rattle.std.specs.Prelude.{◌^◌, ◌≡◌, ◌≤◌, ℕ, List, length, Ok, Err, IfOk};
ghost use Rattle.pv_script.specs.Lines.{ScriptLine};
ghost use Rattle.pv_script.specs.Scripts.{script_of};
ghost use Rattle.pv_script.specs.LineView.{OrNoMemory};
ghost use Rattle.pv_serve.specs.Comes.{source_limit};
ghost use Rattle.pv_serve.specs.Loading.{IsLoaded};

use crate::NoMemory;
use crate::checking::{Refused, SOURCE_LIMIT, typed};
use pv_script::{Script, ScriptError, read};
use pv_typed::TypedUnit;
use std::alloc::Global;

/// A program with its script, or why there is none.
#[derive(Drop)]
pub enum Loaded {
    /// A unit that has a typing, and the lines of the script.
    Program { unit: TypedUnit, lines: Script },
    /// The source is refused.
    Source(Refused),
    /// The script is refused.
    Script(ScriptError),
}

/// Reads a source and its script of addresses.
///
/// A source that is too long is refused before its script is read, the script before the source is.
pub fn load(alloc: Global, source: &[u8], script: &[u8]) -> Result<Loaded, NoMemory>
    ensures { IfOk result (IsLoaded source.now script.now) }
{
    if source.len() > SOURCE_LIMIT {
        return Ok(Loaded::Source(Refused::Size));
    }
    match read(alloc, script) {
        Ok(lines) => load_source(alloc, source, lines),
        Err(why) => script_refused(why),
    }
}

// A script is refused for any reason but want of memory.
fn script_refused(why: ScriptError) -> Result<Loaded, NoMemory>
    ensures { (source script : List ℕ) → length source ≤ source_limit
        → OrNoMemory {A = List ScriptLine} (λ s. s) (Err why) (script_of script) → IfOk result (IsLoaded source script) }
{
    match why {
        ScriptError::NoMemory => Err(NoMemory),
        why => Ok(Loaded::Script(why)),
    }
}

// Reads a source that is not too long, whose script was read.
fn load_source(alloc: Global, source: &[u8], lines: Script) -> Result<Loaded, NoMemory>
    requires { length source.now ≤ 2 ^ 20 }
    ensures { (script : List ℕ) → script_of script ≡ Ok lines → IfOk result (IsLoaded source.now script) }
{
    match typed(alloc, source) {
        Ok(Ok(unit)) => Ok(Loaded::Program { unit, lines }),
        Ok(Err(why)) => Ok(Loaded::Source(why)),
        Err(NoMemory) => Err(NoMemory),
    }
}
