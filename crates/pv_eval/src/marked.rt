// Events that are told later.
ghost use Rattle.std.specs.Prelude.{◌≡◌, ◌++◌, OnOk};
ghost use Rattle.pv_eval.specs.Acting.{marked_events, is_use_of, without_use};

use pv_prov::NoMemory;
use pv_watch::{Event, What};

/// An event, and how many bytes were printed when it came.
#[derive(Clone, Copy)]
pub struct Marked {
    pub event: Event,
    pub mark: u64,
}

/// What was told is noted, each with this turn and mark.
#[inline(always)]
pub(crate) fn stamp(
    waiting: &mut Vec<Marked>,
    turn: u64,
    mark: u64,
    told: &[What],
) -> Result<(), NoMemory>
    ensures { OnOk result (waiting.new.items ≡ waiting.old.items ++ marked_events turn mark told.now) }
{
    for i in 0..told.len() {
        let event = Event {
            turn,
            what: told[i],
        };
        if waiting.push(Marked { event, mark }).is_err() {
            return Err(NoMemory);
        }
    }
    Ok(())
}

/// Whether an event is the use of this pair.
fn is_use_of(pair: u64, what: What) -> bool
    ensures { result ≡ is_use_of pair what }
{
    match what {
        What::Tried { pair: used, .. } => used == pair,
        _ => false,
    }
}

/// The same of all that was told but the uses of a pair.
pub(crate) fn stamp_others(
    waiting: &mut Vec<Marked>,
    turn: u64,
    mark: u64,
    pair: u64,
    told: &[What],
) -> Result<(), NoMemory>
    ensures { OnOk result (waiting.new.items ≡ waiting.old.items ++ marked_events turn mark (without_use pair told.now)) }
{
    for i in 0..told.len() {
        let what = told[i];
        if !is_use_of(pair, what) {
            let event = Event { turn, what };
            if waiting.push(Marked { event, mark }).is_err() {
                return Err(NoMemory);
            }
        }
    }
    Ok(())
}
