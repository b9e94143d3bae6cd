//! Running the source of a case (C17 5.1.2.3).
ghost use Rattle.std.specs.Prelude.{◌≡◌, option_map, IfOk};
ghost use Rattle.pv_serve.specs.ReadWords.{IsBound};
ghost use Rattle.pv_serve.specs.Judging.{Shown, verdict_of};
ghost use Rattle.pv_cases.specs.Views.{case_view, IsBounded, told_view};
ghost use Rattle.pv_cases.specs.Suites.{told_of, Gave};
ghost use Rattle.pv_suite.specs.Answers as specified;
ghost use Rattle.pv_suite.specs.Answers.{CaseComes, broken_by, wanted_of};
ghost use Rattle.pv_suite.specs.Answering.{text_view, ended_view};

use crate::files::CaseText;
use pv_cases::{Case, Expected, Got, Told, compare};
use pv_exec::Outcome;
use pv_fault::Verdict;
use pv_script::MemSink;
use pv_serve::{Judgement, NoMemory, judge, line};
use pv_watch::Hall;
use std::alloc::Global;

/// How a case ended: the line that tells it, what was printed, and the clause by which the end is undefined, if it is.
#[derive(Drop)]
pub struct Ended {
    pub line: Vec<u8>,
    pub output: MemSink,
    pub clause: Option<&'static str>,
}

/// Runs a case by what was read of its files, and compares. The only error is want of memory.
pub(crate) fn run_case(
    alloc: Global,
    case: Case<'_>,
    number: u64,
    text: &CaseText,
) -> Result<Told, NoMemory>
    requires { IsBounded case }
    ensures { IfOk result (λ t. (gave : Gave) × CaseComes text.now.source.items text.now.script.items case.entry.bound gave
        × (told_view t ≡ told_of number (wanted_of (case_view case.entry) (text_view text.now)) gave)) }
{
    let ended = run_source(
        alloc,
        text.source.as_slice(),
        text.script.as_slice(),
        case.bound,
    )?;
    let expected = Expected {
        line: case.expected,
        output: bytes_of(&text.output),
    };
    let got = Got {
        line: ended.line.as_slice(),
        output: ended.output.bytes(),
        clause: ended.clause,
    };
    match compare(alloc, number, expected, got) {
        Ok(told) => Ok(told),
        Err(_) => Err(NoMemory),
    }
}

// The bytes of an output, if there is one.
fn bytes_of(output: &Option<Vec<u8>>) -> Option<&[u8]>
    ensures { option_map (λ s. s.now) result ≡ option_map (λ v. v.items) output.now }
{
    match output {
        Some(output) => Some(output.as_slice()),
        None => None,
    }
}

// Runs a source with a script, with at most so many turns. The only error is want of memory: the sink of its output fails where it finds none, and by no number.
fn run_source(alloc: Global, source: &[u8], script: &[u8], bound: u64) -> Result<Ended, NoMemory>
    requires { IsBound bound }
    ensures { IfOk result (λ e. CaseComes source.now script.now bound (ended_view e)) }
{
    let mut output = MemSink::new(alloc, usize::MAX, &[])?;
    let mut hall = Hall::new(alloc, Vec::new(alloc))?;
    let Ok(judgement) = judge(
        alloc,
        source,
        script,
        bound,
        true,
        None,
        &mut output,
        &mut hall,
    ) else {
        return Err(NoMemory);
    };
    let line = line(alloc, &judgement)?;
    Ok(Ended {
        line,
        output,
        clause: clause_of(&judgement),
    })
}

// The clause by which an end is undefined, if it is.
fn clause_of(judgement: &Judgement) -> Option<&'static str>
    ensures { (shown : Shown) → option_map (λ c. c.now) result ≡ specified.clause_of (verdict_of judgement.now shown) }
{
    match judgement {
        Judgement::Ran { ran, .. } => clause_at(ran.outcome),
        Judgement::Settled { ran, .. } => clause_at(ran.outcome),
        Judgement::Described { .. } => None,
        Judgement::Source(_) => None,
        Judgement::Script(_) => None,
    }
}

fn clause_at(outcome: Outcome) -> Option<&'static str>
    ensures { option_map (λ c. c.now) result ≡ broken_by outcome }
{
    match outcome {
        Outcome::Exit { .. } => None,
        Outcome::Ends { verdict, .. } => match verdict {
            Verdict::Undefined(fault) => Some(fault.clause.text()),
            Verdict::Indeterminate | Verdict::Undecided => None,
        },
        Outcome::Placement { .. } => None,
        Outcome::Storage { .. } => None,
        Outcome::Turns => None,
        Outcome::Abort { .. } => None,
        Outcome::SidesEnded { .. } => None,
    }
}
