// Blocks of instances, in the order of their making, with the turn by which all of a block have ended. So a list of those that live passes over what
// lived long before.
ghost use Rattle.std.specs.Prelude.{◌≡◌, max, take, drop, IfOk};
ghost use Rattle.pv_shown.specs.Recorded.{AreEnds, EndsBy};

use crate::NoMemory;
use crate::past::Life;
use std::alloc::Global;

// How many instances a block has.
const BLOCK: usize = 256;

/// The first block, and the instances behind it.
pub(crate) fn first_block(lives: &[Life]) -> (&[Life], &[Life])
    ensures first { result.0.now ≡ take 256 lives.now }
    ensures others { result.1.now ≡ drop 256 lives.now }
{
    lives.split_at(lives.len().min(BLOCK))
}

/// The turn by which each block has ended, if all of it has.
pub(crate) fn ends_of(alloc: Global, lives: &[Life]) -> Result<Vec<Option<u64>>, NoMemory>
    ensures { IfOk result (λ v. AreEnds lives.now v.items) }
{
    let mut ends = Vec::new(alloc);
    let mut rest = lives;
    'left: while !rest.is_empty() {
        let (block, others) = first_block(rest);
        ends.push(end_of(block))?;
        rest = others;
    }
    Ok(ends)
}

// The turn by which all of these have ended, if they have.
fn end_of(block: &[Life]) -> Option<u64>
    ensures { EndsBy result block.now }
{
    let mut last = 0;
    for x in block {
        let Some(turn) = x.ended else {
            return None;
        };
        last = later(last, turn);
    }
    Some(last)
}

fn later(a: u64, b: u64) -> u64
    ensures { result ≡ max a b }
{
    a.max(b)
}
