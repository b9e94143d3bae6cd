//! The text of a refusal.
ghost use Rattle.std.specs.Prelude.{◌≡◌, ◌≤◌, ◌^◌, length, IfOk};
ghost use Rattle.pv_where.specs.Texts as texts;
ghost use Rattle.pv_where.specs.Texts.{place_text};

use crate::shown::{line_before, mark_line, shown_line, source_line};
use crate::spots::spot;
use pv_token::NoMemory;
use std::alloc::Global;

/// The file, the line and the column of a refusal, and what is refused.
fn head_line(
    alloc: Global,
    file: &[u8],
    line: u32,
    column: usize,
    what: &[u8],
) -> Result<Vec<u8>, NoMemory>
    ensures { IfOk result (λ text. text.items ≡ texts.head_line file.now line column what.now) }
{
    let mut text = Vec::from_slice(alloc, file)?;
    text.extend_from_slice(format!(in alloc; ":{line}:{column}: refused: ")?.as_bytes())?;
    text.extend_from_slice(what)?;
    text.push(b'\n')?;
    Ok(text)
}

/// Where a refusal is, as a compiler writes it (C17 5.1.1.3): the file, line and column of the place, the source's line, and a mark under the
/// place. `name` is what the source is called where no line marker names it (6.10.4), `place` the offset of a byte, or the source's length for
/// its end, and `what` a word for what is refused. The only error is want of memory.
#[tactic(auto, unfolding(crate::specs::Texts::place_text))]
pub fn lines(
    alloc: Global,
    name: &[u8],
    source: &[u8],
    place: usize,
    what: &[u8],
) -> Result<Vec<u8>, NoMemory>
    requires short { length source.now ≤ 2 ^ 20 }
    requires within { place ≤ length source.now }
    ensures { IfOk result (λ text. text.items ≡ place_text name.now source.now place what.now) }
{
    let (file, line) = spot(alloc, name, source, place)?;
    let before = line_before(source, place);
    let whole = source_line(source, place);
    let mut text = head_line(alloc, file, line, before.len() + 1, what)?;
    text.extend_from_slice(&shown_line(alloc, whole)?)?;
    text.extend_from_slice(&mark_line(alloc, before, whole)?)?;
    Ok(text)
}
