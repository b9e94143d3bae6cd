// Reading a list of cases.
ghost use Rattle.std.specs.Prelude.{◌≡◌, ◌<◌, map, option_map, IfSome, IfOk, All, Some, None, Ok, Err};
ghost use Rattle.pv_cases.specs.Cases as specified;
ghost use Rattle.pv_cases.specs.Views.{case_view, IsBounded, OrNoMemory};

use crate::lines::{bound_in, cut, named, word_in};
use pv_script::{NoMemory, pieces, says_nothing};
use std::alloc::{AllocFailed, Global};

/// The most bytes that a list may have.
pub const LIST_LIMIT: usize = 65_536;

/// A case of a suite: a source that is to be run, and what is to come of it.
#[derive(Clone, Copy)]
pub struct Case<'a> {
    /// The name of the source's file, of at least one byte.
    pub source: &'a str,
    /// The name of the file of its script of addresses, if it has one.
    pub script: Option<&'a str>,
    /// The name of the file with what it is to print, if that is compared.
    pub output: Option<&'a str>,
    /// The most turns that its run may take: from 1 to 100000000.
    pub bound: u64,
    /// The line that is to tell how it ends, without its line feed.
    pub expected: &'a [u8],
}

/// Why a text is no list of cases.
#[derive(Clone, Copy, Debug, PartialEq, Eq)]
pub enum ListError {
    /// It has more than [`LIST_LIMIT`] bytes.
    Size,
    /// This line, from 1, is the first that has no reading.
    BadLine { line: u32 },
    /// Memory ran out.
    NoMemory,
}

impl From<NoMemory> for ListError {
    fn from(_: NoMemory) -> Self {
        ListError::NoMemory
    }
}

impl<T: Drop> From<AllocFailed<T>> for ListError {
    fn from(_: AllocFailed<T>) -> Self {
        ListError::NoMemory
    }
}

/// The cases of a list, in the order of its lines: `Size` exactly where it has more than [`LIST_LIMIT`] bytes, else the first line that
/// has no reading.
pub fn cases<'a>(alloc: Global, list: &'a [u8]) -> Result<Vec<Case<'a>>, ListError>
    ensures cases { OrNoMemory (λ v. map case_view v.items) result (specified.cases_of list.now) }
    ensures bounds { IfOk result (λ v. All IsBounded v.items) }
{
    if LIST_LIMIT < list.len() {
        return Err(ListError::Size);
    }
    let Ok(lines) = pieces(alloc, list, b'\n') else {
        return Err(ListError::NoMemory);
    };
    let mut cases = Vec::new(alloc);
    for i in 0..lines.len() {
        if let Err(error) = add_line(&mut cases, lines[i], i as u32 + 1) {
            return Err(error);
        }
    }
    Ok(cases)
}

// The case of one line more, if it says one.
fn add_line<'a>(cases: &mut Vec<Case<'a>>, line: &'a [u8], number: u32) -> Result<(), ListError>
    ensures case { OrNoMemory (λ _. map case_view cases.new.items) result
        (specified.after_line number line.now (map case_view cases.old.items)) }
    ensures bounds { All IsBounded cases.old.items → All IsBounded cases.new.items }
{
    if says_nothing(line) {
        return Ok(());
    }
    let Some(case) = case_in(line) else {
        return Err(ListError::BadLine { line: number });
    };
    match cases.push(case) {
        Ok(()) => Ok(()),
        Err(_) => Err(ListError::NoMemory),
    }
}

// What a line says, if it has a reading.
fn case_in(line: &[u8]) -> Option<Case<'_>>
    ensures case { option_map case_view result ≡ specified.case_in line.now }
    ensures bound { IfSome result IsBounded }
{
    let Some(source) = cut(line) else {
        return None;
    };
    let Some(script) = cut(source.rest) else {
        return None;
    };
    let Some(output) = cut(script.rest) else {
        return None;
    };
    let Some(bound) = cut(output.rest) else {
        return None;
    };
    case_by(
        source.word,
        script.word,
        output.word,
        bound.word,
        bound.rest,
    )
}

// What its parts say, if they have a reading.
fn case_by<'a>(
    source: &'a [u8],
    script: &'a [u8],
    output: &'a [u8],
    bound: &[u8],
    expected: &'a [u8],
) -> Option<Case<'a>>
    ensures case { option_map case_view result ≡ specified.case_by source.now script.now output.now bound.now expected.now }
    ensures bound { IfSome result IsBounded }
{
    let Some(source) = word_in(source) else {
        return None;
    };
    let Some(script) = word_in(script) else {
        return None;
    };
    let Some(output) = word_in(output) else {
        return None;
    };
    if expected.is_empty() {
        return None;
    }
    let Some(bound) = bound_in(bound) else {
        return None;
    };
    Some(Case {
        source,
        script: named(script),
        output: named(output),
        bound,
        expected,
    })
}
