//! The line in which a place lies (C17 5.1.1.2p1), and what is shown of it.
ghost use Rattle.std.specs.Prelude.{◌≡◌, ◌≤◌, length, take, drop, IfOk};
ghost use Rattle.std.specs.List.{position_or_len, after_last};
ghost use Rattle.pv_where.specs.SourceLines as lines;
ghost use Rattle.pv_where.specs.SourceLines.{ends_line, shown_most};

use crate::parts::{behind, front};
use pv_token::NoMemory;
use std::alloc::Global;

/// So many bytes of a line are shown at most.
const SHOWN_MOST: usize = 200;

/// Where the last line of a text begins.
fn last_begin(text: &[u8]) -> usize
    ensures within { result ≤ length text.now }
    ensures line { drop result text.now ≡ after_last ends_line text.now }
{
    let mut begin = text.len();
    while begin > 0 && text[begin - 1] != b'\n' {
        begin -= 1;
    }
    begin
}

/// Where the first line of a text ends.
fn first_end(text: &[u8]) -> usize
    ensures within { result ≤ length text.now }
    ensures line { result ≡ position_or_len ends_line text.now }
{
    let mut end = 0;
    while end < text.len() && text[end] != b'\n' {
        end += 1;
    }
    end
}

/// What stands before the place on its line.
pub(crate) fn line_before(source: &[u8], place: usize) -> &[u8]
    requires { place ≤ length source.now }
    ensures { result.now ≡ lines.line_before source.now place }
{
    let before = front(source, place);
    behind(before, last_begin(before))
}

/// The line in which the place lies.
pub(crate) fn source_line(source: &[u8], place: usize) -> &[u8]
    requires { place ≤ length source.now }
    ensures { result.now ≡ lines.source_line source.now place }
{
    let begin = last_begin(front(source, place));
    let end = first_end(behind(source, place));
    behind(front(source, place + end), begin)
}

/// A byte as it is shown: a control byte as `?`, but for the tab.
fn shown_byte(b: u8) -> u8
    ensures { result ≡ lines.shown_byte b }
{
    if (b < 32 && b != b'\t') || b == 127 {
        b'?'
    } else {
        b
    }
}

/// What stands under a byte before the place.
fn margin_byte(b: u8) -> u8
    ensures { result ≡ lines.margin_byte b }
{
    if b == b'\t' { b'\t' } else { b' ' }
}

/// So much of a line as is shown.
#[tactic(auto, unfolding(crate::specs::SourceLines::shown_most))]
fn shown_front(line: &[u8]) -> &[u8]
    ensures { result.now ≡ take shown_most line.now }
{
    if line.len() > SHOWN_MOST {
        front(line, SHOWN_MOST)
    } else {
        line
    }
}

/// The line as it is shown.
pub(crate) fn shown_line(alloc: Global, line: &[u8]) -> Result<Vec<u8>, NoMemory>
    ensures { IfOk result (λ text. text.items ≡ lines.shown_line line.now) }
{
    let bytes: Vec<u8> = shown_front(line)
        .iter()
        .map(|b| shown_byte(*b))
        .collect(alloc)?;
    let mut text = Vec::from_slice(alloc, b"  ")?;
    text.extend_from_slice(&bytes)?;
    text.push(b'\n')?;
    Ok(text)
}

/// Is the place shown, behind so many bytes of a line of so many?
#[tactic(auto, unfolding(crate::specs::SourceLines::shown_most))]
fn is_shown(before: &[u8], line: &[u8]) -> bool
    ensures { result ≡ lines.is_shown before.now line.now }
{
    before.len() < SHOWN_MOST || !(SHOWN_MOST < line.len())
}

/// The mark under the place, with what stands before it; nothing where the place isn't shown.
pub(crate) fn mark_line(alloc: Global, before: &[u8], line: &[u8]) -> Result<Vec<u8>, NoMemory>
    ensures { IfOk result (λ text. text.items ≡ lines.mark_line before.now line.now) }
{
    if !is_shown(before, line) {
        return Ok(Vec::new(alloc));
    }
    let margin: Vec<u8> = before.iter().map(|b| margin_byte(*b)).collect(alloc)?;
    let mut text = Vec::from_slice(alloc, b"  ")?;
    text.extend_from_slice(&margin)?;
    text.extend_from_slice(b"^\n")?;
    Ok(text)
}
