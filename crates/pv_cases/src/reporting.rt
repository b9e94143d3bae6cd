// The report of a suite, and its status.
ghost use Rattle.std.specs.Prelude.{◌≡◌, ◌++◌, map, length, IfOk, OnOk, option_map};
ghost use Rattle.std.specs.List.{flat_map};
ghost use Rattle.pv_cases.specs.Suites as specified;
ghost use Rattle.pv_cases.specs.Views.{told_view};

use crate::comparing::Told;
use crate::list::ListError;
use pv_script::NoMemory;
use std::alloc::Global;

// The status where all cases passed.
const PASSED: u8 = 0;

// The status where some case failed.
const FAILED: u8 = 15;

// The clauses of undefined behaviour, in the order of the standard (C17 3.4.3).
static CLAUSES: [&str; 27] = [
    "6.2.4p2",
    "6.2.6.1p5",
    "6.3.2.3p6",
    "6.3.2.3p7",
    "6.3.2.3p8",
    "6.4.5p7",
    "6.5p2",
    "6.5p5",
    "6.5p7",
    "6.5.3.2p4",
    "6.5.5p5",
    "6.5.5p6",
    "6.5.6p8",
    "6.5.6p9",
    "6.5.7p3",
    "6.5.7p4",
    "6.5.8p5",
    "6.5.16.1p3",
    "6.7.3p6",
    "6.9.1p12",
    "7.1.4p1",
    "7.21.6.1p9",
    "7.22.3.3p2",
    "7.22.3.5p3",
    "7.24.1p2",
    "7.24.2.1p2",
    "7.24.2.3p2",
];

/// The report of a suite: the line of each case, a line for each clause that some case's end breaks, and the total. The only error is
/// want of memory.
pub fn report(alloc: Global, told: &[Told]) -> Result<Vec<u8>, NoMemory>
    ensures { IfOk result (λ v. v.items ≡ specified.suite_text (map told_view told.now)) }
{
    let mut text = case_lines(alloc, told)?;
    add_clause_lines(alloc, &CLAUSES, told, &mut text)?;
    match add_total_line(alloc, told, &mut text) {
        Ok(()) => Ok(text),
        Err(error) => Err(error),
    }
}

/// The status of a suite: 0 where all cases passed, else 15. It takes no memory.
pub fn status(told: &[Told]) -> u8
    ensures { result ≡ specified.suite_status (map told_view told.now) }
{
    if all_passed(told) { PASSED } else { FAILED }
}

fn all_passed(told: &[Told]) -> bool
    ensures { result ≡ specified.all_passed (map told_view told.now) }
{
    passed_in(told) == count_of(told)
}

// The lines of the cases.
fn case_lines(alloc: Global, told: &[Told]) -> Result<Vec<u8>, NoMemory>
    ensures { IfOk result (λ v. v.items ≡ specified.case_lines (map told_view told.now)) }
{
    let mut text = Vec::new(alloc);
    for case in told {
        text.extend_from_slice(case.line.as_slice())?;
    }
    Ok(text)
}

// Adds the lines of those clauses that are named.
fn add_clause_lines(
    alloc: Global,
    clauses: &[&str],
    told: &[Told],
    text: &mut Vec<u8>,
) -> Result<(), NoMemory>
    ensures { OnOk result (text.new.items ≡ text.old.items
        ++ flat_map (λ c. specified.clause_line c.now (specified.cases_by c.now (map told_view told.now))) clauses.now) }
{
    for clause in clauses {
        match add_clause_line(alloc, *clause, told, text) {
            Ok(()) => {}
            Err(error) => return Err(error),
        }
    }
    Ok(())
}

// Adds the line of a clause, if it is named.
fn add_clause_line(
    alloc: Global,
    clause: &str,
    told: &[Told],
    text: &mut Vec<u8>,
) -> Result<(), NoMemory>
    ensures { OnOk result (text.new.items ≡ text.old.items
        ++ specified.clause_line clause.now (specified.cases_by clause.now (map told_view told.now))) }
{
    let count = cases_by(clause, told);
    if count > 0 {
        let line = format!(in alloc; "clause {clause} cases={count}\n")?;
        text.extend_from_slice(line.as_bytes())?;
    }
    Ok(())
}

// Of how many cases the line names the clause.
fn cases_by(clause: &str, told: &[Told]) -> usize
    ensures { result ≡ specified.cases_by clause.now (map told_view told.now) }
{
    told.iter().filter(|t| is_clause(clause, t.clause)).count()
}

fn is_clause(clause: &str, other: Option<&str>) -> bool
    ensures { result ≡ specified.is_clause clause.now (option_map (λ c. c.now) other.entry) }
{
    match other {
        Some(other) => clause == other,
        None => false,
    }
}

// Adds the last line.
fn add_total_line(alloc: Global, told: &[Told], text: &mut Vec<u8>) -> Result<(), NoMemory>
    ensures { OnOk result (text.new.items ≡ text.old.items
        ++ specified.total_line (length (map told_view told.now)) (specified.passed_in (map told_view told.now))) }
{
    let line = total_line(alloc, count_of(told), passed_in(told))?;
    text.extend_from_slice(line.as_slice())?;
    Ok(())
}

// The last line: how many cases there were, and how many passed.
fn total_line(alloc: Global, cases: usize, passed: usize) -> Result<Vec<u8>, NoMemory>
    ensures { IfOk result (λ v. v.items ≡ specified.total_line cases passed) }
{
    Ok(format!(in alloc; "suite cases={cases} passed={passed}\n")?.into_bytes())
}

fn count_of(told: &[Told]) -> usize
    ensures { result ≡ length (map told_view told.now) }
{
    told.len()
}

// How many of the cases passed.
fn passed_in(told: &[Told]) -> usize
    ensures { result ≡ specified.passed_in (map told_view told.now) }
{
    told.iter().filter(|t| t.passed).count()
}

/// What is told of a text that is no list of cases, and nothing where memory ran out. The only error is want of memory.
pub fn refusal(alloc: Global, error: ListError) -> Result<Vec<u8>, NoMemory>
    ensures { IfOk result (λ v. v.items ≡ specified.list_line error) }
{
    match error {
        ListError::Size => Ok(Vec::from_slice(alloc, b"list reason=size\n")?),
        ListError::BadLine { line } => {
            Ok(format!(in alloc; "list reason=line line={line}\n")?.into_bytes())
        }
        ListError::NoMemory => Ok(Vec::new(alloc)),
    }
}

/// What is told of a list whose case of this number, from 1, names a file with too long an output. The only error is want of memory.
pub fn long_output(alloc: Global, number: u64) -> Result<Vec<u8>, NoMemory>
    ensures { IfOk result (λ v. v.items ≡ specified.long_line number) }
{
    Ok(format!(in alloc; "list reason=output case={number}\n")?.into_bytes())
}
