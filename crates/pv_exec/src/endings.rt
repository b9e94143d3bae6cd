// How a run ended, as it is answered.
ghost use Rattle.std.specs.Prelude.{◌≡◌};
ghost use Rattle.pv_world.specs.Worths.{int_of};
ghost use Rattle.pv_world.specs.Coming.{worth_of, wrong_for};
ghost use Rattle.pv_exec.specs.Run.{status_of, outcome_of_refusal, outcome_of_stop};
ghost use Rattle.pv_exec.specs.Ending.{outcome_by};

use crate::outcome::Outcome;
use crate::running::{Broken, Ended};
use pv_eval::Failure;
use pv_fault::Reason;
use pv_inst::CreateError;
use pv_num::{IntKind, fits};
use pv_object::Value;
use pv_world::{Cause, Got};

// The number that a value is.
fn number(v: &Got) -> i128
    ensures { result ≡ int_of (worth_of v.now) }
{
    match v {
        Got::Scalar(Value::Int(n)) => *n,
        _ => 0,
    }
}

// The status that the value of `main` gives (C17 5.1.2.2.3).
fn status(v: &Got) -> i32
    ensures { result ≡ status_of (worth_of v.now) }
{
    let n = number(v);
    if fits(IntKind::Int, n) { n as i32 } else { 0 }
}

// A request for an instance was refused.
fn refused(name: u32, e: CreateError, line: u32) -> Option<Outcome>
    ensures { result ≡ outcome_of_refusal name e line }
{
    match e {
        CreateError::Storage { live, size } => Some(Outcome::Storage { live, size, line }),
        CreateError::Denied => None,
        CreateError::Range { k, address: _ } => Some(Outcome::Placement {
            reason: Reason::Range,
            name,
            k,
            line,
        }),
        CreateError::Misaligned { k, address: _ } => Some(Outcome::Placement {
            reason: Reason::Misaligned,
            name,
            k,
            line,
        }),
        CreateError::Overlap {
            k,
            address: _,
            with: _,
        } => Some(Outcome::Placement {
            reason: Reason::Overlap,
            name,
            k,
            line,
        }),
        CreateError::NoMemory => None,
    }
}

// An operation ended the run.
fn stopped(cause: Cause, line: u32) -> Option<Outcome>
    ensures { result ≡ outcome_of_stop (wrong_for cause) line }
{
    match cause {
        Cause::Ends(verdict) => Some(Outcome::Ends { verdict, line }),
        Cause::Exits(status) => Some(Outcome::Exit { status }),
        Cause::Aborts => Some(Outcome::Abort { line }),
        Cause::Refused(name, e) => refused(name, e, line),
        Cause::SidesEnded(pair) => Some(Outcome::SidesEnded { pair }),
    }
}

/// The outcome of a run that ended so; nothing where it could not go on.
pub fn outcome_by(ended: &Result<Ended, Broken>) -> Option<Outcome>
    ensures { result ≡ outcome_by ended.now }
{
    match ended {
        Ok(Ended::Value(v)) => Some(Outcome::Exit { status: status(v) }),
        Ok(Ended::Turns) => Some(Outcome::Turns),
        Err(Broken::Operation(Failure::Stop(cause, line))) => stopped(*cause, *line),
        Err(Broken::Operation(Failure::NoMemory)) => None,
        Err(Broken::Delivery(_)) => None,
    }
}
