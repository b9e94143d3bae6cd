//! The reply to a list.
ghost use Rattle.std.specs.Prelude.{◌≡◌, ◌≤◌, ℕ, List, map, All, Ok, IfOk, IsErrOf};
ghost use Rattle.pv_serve.specs.Outside.{AnyRose};
ghost use Rattle.pv_serve.specs.Replying.{reply_view};
ghost use Rattle.pv_cases.specs.Cases.{cases_of};
ghost use Rattle.pv_cases.specs.Views.{case_view, told_view, IsBounded};
ghost use Rattle.pv_suite.specs.Answers.{AllTold, LongOutput, IsListReply, refused_by, reply_of};
ghost use Rattle.pv_suite.specs.Causes.{list_files, run_files};
ghost use Rattle.pv_suite.specs.Answering.{walked_view};
ghost use Rattle.pv_script.specs.Outside.{HoldTheSame};

use crate::error::Unanswered;
use crate::walking::{Walked, walk};
use pv_cases::{Case, ListError, Told, cases, long_output, refusal, report, status};
use pv_script::Files;
use pv_serve::{NoMemory, Reply};
use std::alloc::Global;

// The status of a list that is refused.
const REFUSED: u8 = 16;

/// Answers a list: runs its cases, if it has a reading.
pub fn answer<F: Files>(alloc: Global, list: &[u8], files: &mut F) -> Result<Reply, Unanswered>
    ensures reply { IfOk result (λ r. IsListReply (cases_of list.now) (F.held files.old) (reply_view r)) }
    ensures same { HoldTheSame F.held files.old files.new }
    ensures later { (n : List ℕ) → F.faults files.old n ≤ F.faults files.new n }
    ensures cause { IsErrOf result Unanswered.Fault → AnyRose (list_files (F.held files.old) (cases_of list.now)) (F.faults files.old) (F.faults files.new) }
{
    match cases(alloc, list) {
        Ok(cases) => answer_cases(alloc, cases.as_slice(), files),
        Err(error) => refuse(alloc, error),
    }
}

// Answers a list that has these cases.
fn answer_cases<F: Files>(
    alloc: Global,
    cases: &[Case<'_>],
    files: &mut F,
) -> Result<Reply, Unanswered>
    requires { All IsBounded cases.now }
    ensures reply { IfOk result (λ r. IsListReply (Ok (map case_view cases.now)) (F.held files.old) (reply_view r)) }
    ensures same { HoldTheSame F.held files.old files.new }
    ensures later { (n : List ℕ) → F.faults files.old n ≤ F.faults files.new n }
    ensures cause { IsErrOf result Unanswered.Fault →
        AnyRose (run_files (F.held files.old) (map case_view cases.now)) (F.faults files.old) (F.faults files.new) }
{
    let walked = match walk(alloc, cases, files) {
        Ok(walked) => walked,
        Err(error) => return Err(error),
    };
    match report_on(alloc, &walked) {
        Ok(reply) => Ok(reply),
        Err(NoMemory) => Err(Unanswered::NoMemory),
    }
}

// The reply to a list whose cases came to this. The only error is want of memory.
fn report_on(alloc: Global, walked: &Walked) -> Result<Reply, NoMemory>
    ensures { IfOk result (λ r. reply_view r ≡ reply_of (walked_view walked.now)) }
{
    match walked {
        Walked::All(told) => report_all(alloc, told),
        Walked::Long { case } => refuse_long(alloc, *case),
    }
}

// The report of all cases, and its status.
fn report_all(alloc: Global, told: &[Told]) -> Result<Reply, NoMemory>
    ensures { IfOk result (λ r. reply_view r ≡ reply_of (AllTold (map told_view told.now))) }
{
    let text = report(alloc, told)?;
    let status = status(told);
    Ok(Reply { status, text })
}

// What is told where the output of the case of this number is too long.
fn refuse_long(alloc: Global, number: u64) -> Result<Reply, NoMemory>
    ensures { IfOk result (λ r. reply_view r ≡ reply_of (LongOutput number)) }
{
    let text = long_output(alloc, number)?;
    Ok(Reply {
        status: REFUSED,
        text,
    })
}

// What is told of a list without a reading, and its status; want of memory is no reason for that.
fn refuse(alloc: Global, error: ListError) -> Result<Reply, Unanswered>
    ensures reply { IfOk result (λ r. reply_view r ≡ refused_by error) }
    ensures memory { error ≡ ListError.NoMemory → result ≡ Err Unanswered.NoMemory }
    ensures cause { IsErrOf result Unanswered.Fault → ⊥ }
{
    match error {
        ListError::NoMemory => Err(Unanswered::NoMemory),
        _ => refuse_by(alloc, error),
    }
}

fn refuse_by(alloc: Global, error: ListError) -> Result<Reply, Unanswered>
    ensures reply { IfOk result (λ r. reply_view r ≡ refused_by error) }
    ensures cause { IsErrOf result Unanswered.Fault → ⊥ }
{
    match refusal(alloc, error) {
        Ok(text) => Ok(Reply {
            status: REFUSED,
            text,
        }),
        Err(_) => Err(Unanswered::NoMemory),
    }
}
