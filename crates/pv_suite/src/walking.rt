//! The cases of a list, in their order.
ghost use Rattle.std.specs.Prelude.{◌≡◌, ◌≤◌, ◌<◌, ◌+◌, ℕ, List, map, option_map, All, IfOk, IsErrOf, slice_get, Some, length};
ghost use Rattle.pv_serve.specs.Outside.{AnyRose};
ghost use Rattle.pv_cases.specs.Views.{case_view, IsBounded, told_view};
ghost use Rattle.pv_suite.specs.Answers.{CasesCome, given_of};
ghost use Rattle.pv_suite.specs.Causes.{case_files, run_files};
ghost use Rattle.pv_suite.specs.Answering.{walked_view, IsCaseOf};
ghost use Rattle.pv_script.specs.Outside.{HoldTheSame};

use crate::error::Unanswered;
use crate::files::{is_too_long, read_case};
use crate::running::run_case;
use pv_cases::{Case, Told};
use pv_script::{Files, ReadError};
use std::alloc::Global;

/// What the cases of a list come to.
#[derive(Drop)]
pub enum Walked {
    /// What is told of each, in their order.
    All(Vec<Told>),
    /// The case of this number, from 1, is the first whose output is too long.
    Long { case: u64 },
}

/// Runs the cases one after the other, to the first whose output is too long.
pub(crate) fn walk<F: Files>(
    alloc: Global,
    cases: &[Case<'_>],
    files: &mut F,
) -> Result<Walked, Unanswered>
    requires { All IsBounded cases.now }
    ensures walked { IfOk result (λ w. CasesCome (F.held files.old) 1 (map case_view cases.now) (walked_view w)) }
    ensures same { HoldTheSame F.held files.old files.new }
    ensures later { (n : List ℕ) → F.faults files.old n ≤ F.faults files.new n }
    ensures cause { IsErrOf result Unanswered.Fault →
        AnyRose (run_files (F.held files.old) (map case_view cases.now)) (F.faults files.old) (F.faults files.new) }
{
    let mut told = Vec::new(alloc);
    for i in 0..cases.len() {
        let next = case_at(cases, i);
        let found = match walk_case(alloc, next, i as u64 + 1, files) {
            Ok(found) => found,
            Err(error) => return Err(error),
        };
        let case = match found {
            Some(case) => case,
            None => return Ok(Walked::Long { case: i as u64 + 1 }),
        };
        match told.push(case) {
            Ok(()) => {}
            Err(_) => return Err(Unanswered::NoMemory),
        }
    }
    Ok(Walked::All(told))
}

fn case_at<'a>(cases: &[Case<'a>], i: usize) -> Case<'a>
    requires { i < length cases.now }
    ensures { slice_get cases.now i ≡ Some result }
{
    cases[i]
}

// Reads the files of a case, and runs it; nothing is told of one whose output is too long.
fn walk_case<F: Files>(
    alloc: Global,
    case: Case<'_>,
    number: u64,
    files: &mut F,
) -> Result<Option<Told>, Unanswered>
    requires { IsBounded case }
    ensures told { IfOk result (λ o. IsCaseOf number (case_view case.entry) (given_of (case_view case.entry) (F.held files.old)) (option_map told_view o)) }
    ensures same { HoldTheSame F.held files.old files.new }
    ensures later { (n : List ℕ) → F.faults files.old n ≤ F.faults files.new n }
    ensures cause { IsErrOf result Unanswered.Fault →
        AnyRose (case_files (case_view case.entry)) (F.faults files.old) (F.faults files.new) }
{
    let text = match read_case(alloc, case, files) {
        Ok(text) => text,
        Err(ReadError::NoMemory) => return Err(Unanswered::NoMemory),
        Err(ReadError::Fault) => return Err(Unanswered::Fault),
    };
    if is_too_long(&text) {
        return Ok(None);
    }
    match run_case(alloc, case, number, &text) {
        Ok(told) => Ok(Some(told)),
        Err(_) => Err(Unanswered::NoMemory),
    }
}
