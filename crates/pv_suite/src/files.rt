//! The files of a case.
ghost use Rattle.std.specs.Prelude.{◌≡◌, ◌≤◌, ◌+◌, ℕ, nat_lt, List, length, take, option_map, Some, IfOk, IfSome, IsErrOf, option_to_list};
ghost use Rattle.pv_script.specs.Outside.{Rose, HoldTheSame};
ghost use Rattle.pv_serve.specs.Outside.{AnyRose};
ghost use Rattle.pv_cases.specs.Views.{case_view};
ghost use Rattle.pv_suite.specs.Answers.{given_of, is_long, output_held, output_limit};
ghost use Rattle.pv_suite.specs.Causes.{case_files};
ghost use Rattle.pv_suite.specs.Answering.{text_view, IsRead};

use pv_cases::Case;
use pv_script::{Files, ReadError, read_all};
use pv_serve::{SOURCE_LIMIT, read_script};
use std::alloc::Global;

/// The most bytes that a file with a case's output may have.
pub const OUTPUT_LIMIT: usize = 1_048_576;

/// What was read of a case's files, of each up to one byte above what it may have.
#[derive(Drop)]
pub struct CaseText {
    pub source: Vec<u8>,
    /// Empty where no script is named.
    pub script: Vec<u8>,
    pub output: Option<Vec<u8>>,
}

/// Reads the files of a case: its source, its script and its output, as far as they are named. A fault is that of one of them.
pub(crate) fn read_case<F: Files>(
    alloc: Global,
    case: Case<'_>,
    files: &mut F,
) -> Result<CaseText, ReadError>
    ensures read { IfOk result (λ t. IsRead (given_of (case_view case.entry) (F.held files.old)) (text_view t)) }
    ensures same { HoldTheSame F.held files.old files.new }
    ensures later { (n : List ℕ) → F.faults files.old n ≤ F.faults files.new n }
    ensures cause { IsErrOf result ReadError.Fault → AnyRose (case_files (case_view case.entry)) (F.faults files.old) (F.faults files.new) }
{
    let source = match read_all(alloc, files, case.source, SOURCE_LIMIT) {
        Ok(source) => source,
        Err(error) => return Err(error),
    };
    let script = match read_script(alloc, files, case.script) {
        Ok(script) => script,
        Err(error) => return Err(error),
    };
    match read_output(alloc, case.output, files) {
        Ok(output) => Ok(CaseText {
            source,
            script,
            output,
        }),
        Err(error) => Err(error),
    }
}

// Reads the output that a case is to have, if one is named.
fn read_output<F: Files>(
    alloc: Global,
    name: Option<&str>,
    files: &mut F,
) -> Result<Option<Vec<u8>>, ReadError>
    ensures read { IfOk result (λ o. IfSome (output_held (option_map (λ s. s.now) name.entry) (F.held files.old))
        (λ held. option_map (λ v. v.items) o ≡ option_map (λ all. take (output_limit + 1) all) held)) }
    ensures same { HoldTheSame F.held files.old files.new }
    ensures later { (n : List ℕ) → F.faults files.old n ≤ F.faults files.new n }
    ensures cause { IsErrOf result ReadError.Fault →
        AnyRose (option_to_list (option_map (λ s. s.now) name.entry)) (F.faults files.old) (F.faults files.new) }
{
    match name {
        Some(name) => read_some(alloc, name, files),
        None => Ok(None),
    }
}

// Reads an output.
fn read_some<F: Files>(
    alloc: Global,
    name: &str,
    files: &mut F,
) -> Result<Option<Vec<u8>>, ReadError>
    ensures read { IfOk result (λ o. IfSome (F.held files.old name.now) (λ all. option_map (λ v. v.items) o ≡ Some (take 1048577 all))) }
    ensures same { HoldTheSame F.held files.old files.new }
    ensures later { (n : List ℕ) → F.faults files.old n ≤ F.faults files.new n }
    ensures cause { IsErrOf result ReadError.Fault → Rose (F.faults files.old name.now) (F.faults files.new name.now) }
{
    match read_all(alloc, files, name, OUTPUT_LIMIT) {
        Ok(bytes) => Ok(Some(bytes)),
        Err(error) => Err(error),
    }
}

/// Whether the output that a case is to have is too long to be compared.
pub(crate) fn is_too_long(text: &CaseText) -> bool
    ensures { result ≡ is_long (text_view text.now).output }
{
    match &text.output {
        Some(output) => is_beyond(output.as_slice()),
        None => false,
    }
}

fn is_beyond(output: &[u8]) -> bool
    ensures { result ≡ nat_lt output_limit (length output.now) }
{
    output.len() > OUTPUT_LIMIT
}
