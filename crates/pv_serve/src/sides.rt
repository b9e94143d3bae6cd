//! The sides of pairs of candidates (the memory model), as a word says them.
ghost use Rattle.std.specs.Prelude.{◌≡◌, ◌==◌, map, IfOk};
ghost use Rattle.pv_exec.specs.Sided.{is_high};
ghost use Rattle.pv_serve.specs.Words as specified;

use crate::NoMemory;
use pv_exec::Side;
use std::alloc::Global;

/// The sides that a word says: none where it is `-`, else one for each letter. The only error is want of memory.
pub fn sides_in(alloc: Global, word: &str) -> Result<Vec<Side>, NoMemory>
    ensures { IfOk result (λ v. map is_high v.items ≡ specified.sides_in word.now) }
{
    if word == "-" {
        return Ok(Vec::new(alloc));
    }
    sides_of(alloc, word.as_bytes())
}

// The sides of letters.
fn sides_of(alloc: Global, letters: &[u8]) -> Result<Vec<Side>, NoMemory>
    ensures { IfOk result (λ v. map is_high v.items ≡ map (λ letter. letter == 104) letters.now) }
{
    let mut sides = Vec::new(alloc);
    for letter in letters {
        sides.push(side_of(*letter))?;
    }
    Ok(sides)
}

// The side of a letter.
fn side_of(letter: u8) -> Side
    ensures { is_high result ≡ (letter == 104) }
{
    if letter == b'h' {
        Side::High
    } else {
        Side::Low
    }
}
