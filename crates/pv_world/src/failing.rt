// Why an operation ends the run: the fault that is told.
ghost use Rattle.std.specs.Prelude.{◌≡◌, ◌+◌, ◌++◌, Some};
ghost use Rattle.pv_inst.specs.Table.{IsMadeIn};
ghost use Rattle.pv_world.specs.Telling.{event_of_use, blame_of, fault_of, verdict_of};
ghost use Rattle.pv_world.specs.Worths.{wrong_of};
ghost use Rattle.pv_world.specs.Coming.{Faulted, wrong_for};

use crate::got::{Cause, Failure};
use crate::telling::{tell, tell_used};
use pv_fault::Verdict;
use pv_object::{Memory, Stop, Stopped};
use pv_prov::{NoMemory, Prov};
use pv_watch::What;

/// The candidates of a pointer that may stop an operation, as they stand before it, and its pair.
#[derive(Clone, Copy)]
pub struct Blame {
    /// The instance that the name stood for, or the low one of two.
    pub low: Option<u64>,
    /// The high one of a pair, where the pair still kept it.
    pub high: Option<u64>,
    /// The number of the pair, where the name is one.
    pub pair: Option<u64>,
}

/// The candidates of a name, as they stand now.
pub(crate) fn blame_of(memory: &Memory, p: Prov) -> Blame
    requires { IsMadeIn memory.now.table p }
    ensures { result ≡ blame_of memory.now p }
{
    let stands = memory.instances().stands(p);
    let pair = match p {
        Prov::Pair(k) => Some(k),
        Prov::Inst(_) | Prov::Empty => None,
    };
    Blame {
        low: stands.low,
        high: stands.high,
        pair,
    }
}

/// The verdict of a run that ends so, if it is one.
fn verdict_for(cause: Cause) -> Option<Verdict>
    ensures { result ≡ verdict_of (wrong_for cause) }
{
    match cause {
        Cause::Ends(verdict) => Some(verdict),
        _ => None,
    }
}

/// The run ends by a call of the memory, or memory ran out: the fault is told.
pub fn stopped(told: &mut Vec<What>, stop: Stop, blame: Option<Blame>) -> Failure
    ensures memory { stop ≡ Stop.NoMemory → result ≡ Failure.NoMemory }
    ensures fault { Faulted result (wrong_of stop) told.new.items (told.old.items ++ fault_of blame (verdict_of (wrong_of stop))) }
{
    match stop {
        Stop::Ends(verdict) => fail(told, Cause::Ends(verdict), blame),
        Stop::NoMemory => Failure::NoMemory,
    }
}

/// The run ends by a call of the memory: what its use of a name found by the test with this number is told, and then
/// the fault.
pub(crate) fn stopped_after(told: &mut Vec<What>, test: u8, by: Stopped, blame: Blame) -> Failure
    ensures { Faulted result (wrong_of by.stop) told.new.items (told.old.items ++ event_of_use test by.tried ++ fault_of (Some blame) (verdict_of (wrong_of by.stop))) }
{
    match tell_used(told, test, by.tried) {
        Ok(()) => stopped(told, by.stop, Some(blame)),
        Err(NoMemory) => Failure::NoMemory,
    }
}

/// The run ends by this cause: the fault is told, if it is one, with whom it blames.
pub fn fail(told: &mut Vec<What>, cause: Cause, blame: Option<Blame>) -> Failure
    ensures { Faulted result (wrong_for cause) told.new.items (told.old.items ++ fault_of blame (verdict_of (wrong_for cause))) }
{
    let Some(verdict) = verdict_for(cause) else {
        return Failure::Stop(cause);
    };
    let what = match blame {
        Some(b) => What::Fault {
            verdict,
            low: b.low,
            high: b.high,
            pair: b.pair,
        },
        None => What::Fault {
            verdict,
            low: None,
            high: None,
            pair: None,
        },
    };
    match tell(told, what) {
        Ok(()) => Failure::Stop(cause),
        Err(NoMemory) => Failure::NoMemory,
    }
}
