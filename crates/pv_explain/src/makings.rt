//! Who was made when: instances and pairs by their numbers.
//!
//! Where several events tell of the making of the same one, the first counts; so they are read from the last to the first.
ghost use Rattle.std.specs.Prelude.{◌≡◌, ℕ, nat_eq, IfOk, OnOk};
ghost use Rattle.std.specs.Option.{option_or};
ghost use Rattle.indexmap.specs.IndexMap.{get};
ghost use Rattle.pv_watch.specs.Lines.{first_told, making_of, making_of_pair};

use indexmap::IndexMap;
use pv_watch::{Event, NoMemory, What};
use std::alloc::Global;

/// Keeps the number of an instance's name, and which of this name it is, if this event tells of its making.
fn keep_making(makings: &mut IndexMap<u64, (u32, u64)>, e: &Event) -> Result<(), NoMemory>
    ensures { OnOk result ((i : ℕ) → get nat_eq makings.new i ≡ option_or (making_of i e.now.what) (get nat_eq makings.old i)) }
{
    if let What::Made { inst, name, k, .. } = e.what {
        makings.insert(inst, (name, k))?;
    }
    Ok(())
}

/// Of each instance the number of its name, and which of this name it is.
pub(crate) fn makings(alloc: Global, seen: &[Event]) -> Result<IndexMap<u64, (u32, u64)>, NoMemory>
    ensures { IfOk result (λ m. (i : ℕ) → get nat_eq m i ≡ first_told (making_of i) seen.now) }
{
    let mut makings = IndexMap::new(alloc);
    let mut at = seen.len();
    while at > 0 {
        at -= 1;
        keep_making(&mut makings, &seen[at])?;
    }
    Ok(makings)
}

/// Keeps the low and the high candidate of a pair, if this event tells of its making.
fn keep_pair(pairs: &mut IndexMap<u64, (u64, u64)>, e: &Event) -> Result<(), NoMemory>
    ensures { OnOk result ((p : ℕ) → get nat_eq pairs.new p ≡ option_or (making_of_pair p e.now.what) (get nat_eq pairs.old p)) }
{
    if let What::Pair {
        pair,
        low,
        high,
        ..
    } = e.what
    {
        pairs.insert(pair, (low, high))?;
    }
    Ok(())
}

/// Of each pair its low and its high candidate.
pub(crate) fn pairs(alloc: Global, seen: &[Event]) -> Result<IndexMap<u64, (u64, u64)>, NoMemory>
    ensures { IfOk result (λ m. (p : ℕ) → get nat_eq m p ≡ first_told (making_of_pair p) seen.now) }
{
    let mut pairs = IndexMap::new(alloc);
    let mut at = seen.len();
    while at > 0 {
        at -= 1;
        keep_pair(&mut pairs, &seen[at])?;
    }
    Ok(pairs)
}
