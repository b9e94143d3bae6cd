// What is told of one case.
ghost use Rattle.std.specs.Prelude.{◌≡◌, ◌++◌, nat_eq, IfOk, Some, None, option_map};
ghost use Rattle.std.specs.List.{common_prefix_len};
ghost use Rattle.pv_cases.specs.Suites as specified;
ghost use Rattle.pv_cases.specs.Views.{wanted_view, gave_view, told_view};

use pv_script::NoMemory;
use std::alloc::Global;

/// What is expected of a case.
#[derive(Clone, Copy)]
pub struct Expected<'a> {
    /// The line that is to tell how it ends, without its line feed.
    pub line: &'a [u8],
    /// What it is to print, if that is compared.
    pub output: Option<&'a [u8]>,
}

/// What a case came to.
#[derive(Clone, Copy)]
pub struct Got<'a> {
    /// The line that tells how it ended, with its line feed.
    pub line: &'a [u8],
    /// What it printed.
    pub output: &'a [u8],
    /// The clause that the line names, where the end has no defined behaviour (C17 3.4.3).
    pub clause: Option<&'static str>,
}

/// What is told of a case.
#[derive(Drop)]
pub struct Told {
    /// Its line of the report.
    pub line: Vec<u8>,
    /// Whether it passed: it ended and printed as it was to.
    pub passed: bool,
    /// The clause by which its end is undefined, if it is.
    pub clause: Option<&'static str>,
}

/// Compares what the case of this number, from 1, came to with what is expected of it. The only error is want of memory.
pub fn compare(
    alloc: Global,
    number: u64,
    expected: Expected<'_>,
    got: Got<'_>,
) -> Result<Told, NoMemory>
    ensures { IfOk result (λ t. told_view t ≡ specified.told_of number (wanted_view expected.entry) (gave_view got.entry)) }
{
    let clause = got.clause;
    let wanted = line_of(alloc, expected.line)?;
    if wanted.as_slice() != got.line {
        let line = other_line(alloc, number, got.line)?;
        return Ok(Told {
            line,
            passed: false,
            clause,
        });
    }
    if !has_output(expected.output, got.output) {
        let at = differs_at(expected.output, got.output);
        let line = output_line(alloc, number, at)?;
        return Ok(Told {
            line,
            passed: false,
            clause,
        });
    }
    let line = pass_line(alloc, number)?;
    Ok(Told {
        line,
        passed: true,
        clause,
    })
}

// A text as a line.
fn line_of(alloc: Global, text: &[u8]) -> Result<Vec<u8>, NoMemory>
    ensures { IfOk result (λ v. v.items ≡ text.now ++ specified.line_feed) }
{
    let mut line = Vec::from_slice(alloc, text)?;
    line.push(b'\n')?;
    Ok(line)
}

// The line of a case that ended in another way, which this line tells.
fn other_line(alloc: Global, number: u64, line: &[u8]) -> Result<Vec<u8>, NoMemory>
    ensures { IfOk result (λ v. v.items ≡ specified.other_line number line.now) }
{
    let mut text = format!(in alloc; "fail {number} line ")?.into_bytes();
    text.extend_from_slice(line)?;
    Ok(text)
}

// The line of a case whose output is another from this place on.
fn output_line(alloc: Global, number: u64, at: usize) -> Result<Vec<u8>, NoMemory>
    ensures { IfOk result (λ v. v.items ≡ specified.output_line number at) }
{
    Ok(format!(in alloc; "fail {number} output at={at}\n")?.into_bytes())
}

// The line of a case that passed.
fn pass_line(alloc: Global, number: u64) -> Result<Vec<u8>, NoMemory>
    ensures { IfOk result (λ v. v.items ≡ specified.pass_line number) }
{
    Ok(format!(in alloc; "pass {number}\n")?.into_bytes())
}

// Whether the output is the expected one, where any is.
fn has_output(expected: Option<&[u8]>, output: &[u8]) -> bool
    ensures { result ≡ specified.has_output (option_map (λ s. s.now) expected.entry) output.now }
{
    match expected {
        Some(expected) => expected == output,
        None => true,
    }
}

// The place from 0 at which the output begins to differ from the expected one, where any is.
fn differs_at(expected: Option<&[u8]>, output: &[u8]) -> usize
    ensures { result ≡ specified.differs_at (option_map (λ s. s.now) expected.entry) output.now }
{
    match expected {
        Some(expected) => common_length(expected, output),
        None => 0,
    }
}

// How long the common beginning of two outputs is.
fn common_length(one: &[u8], other: &[u8]) -> usize
    ensures { result ≡ common_prefix_len nat_eq one.now other.now }
{
    let shorter = one.len().min(other.len());
    for at in 0..shorter {
        if one[at] != other[at] {
            return at;
        }
    }
    shorter
}
