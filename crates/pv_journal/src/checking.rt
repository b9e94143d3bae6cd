// The journal that a text is, or its first line that is wrong.
ghost use Rattle.std.specs.Prelude.{◌≡◌, ◌<◌, ◌^◌, ◌==◌, ℕ, All, length, position, IfSome, IfOk, IfErr};
ghost use Rattle.std.specs.Option.{option_map};
ghost use Rattle.std.specs.Str.{bytes_eq};
ghost use Rattle.pv_script.specs.Names.{name_at};
ghost use Rattle.pv_journal.specs.Journals.{last_text};
ghost use Rattle.pv_journal.specs.Obeying.{IsJournal};
ghost use Rattle.pv_journal.specs.Reading.{first_line, rows_or_wrong};
ghost use Rattle.pv_journal.specs.Lines.{rows_under, IsLineNamed};
ghost use Rattle.pv_journal.specs.Standing.{Judges, IsMore};
ghost use Rattle.pv_journal.specs.Answers.{IsFault};

use crate::error::JournalError;
use crate::line::Line;
use crate::reading::number_behind;
use crate::standing::Standing;
use pv_script::Names;
use std::alloc::Global;

/// Whether a line is the last one behind so many.
fn is_last(line: &[u8], count: u64) -> bool
    ensures { result ≡ bytes_eq line.now (last_text count) }
{
    match number_behind(b"events ", line) {
        Some(n) => n == count,
        None => false,
    }
}

/// The place of the first line feed.
fn first_feed(text: &[u8]) -> Option<usize>
    ensures place { result ≡ position (λ b. b == 10) text.now }
    ensures within { IfSome result (λ i. i < length text.now) }
{
    text.iter().position(|b| *b == b'\n')
}

/// What stands before the first line feed, and what stands behind it.
fn first_line(text: &[u8]) -> Option<(&[u8], &[u8])>
    ensures { option_map (λ p. (p.0.now, p.1.now)) result ≡ first_line text.now }
{
    match first_feed(text) {
        Some(end) => Some((&text[..end], &text[end + 1..])),
        None => None,
    }
}

// The length of a text is a number of the machine. Nothing is done here.
fn is_text(bytes: &[u8])
    ensures { length bytes.now < 2 ^ 64 }
{
    let _ = bytes.iter();
}

/// The lines of a text, or its first line that is wrong.
fn lines_in(alloc: Global, bytes: &[u8], names: &mut Names) -> Result<Vec<Line>, JournalError>
    ensures judges { Judges names.new (λ v. v.items) (rows_or_wrong bytes.now) result }
    ensures named { IfOk result (λ v. All (IsLineNamed names.new) v.items) }
    ensures more { IsMore names.old names.new }
{
    let mut standing = Standing::new(alloc);
    let mut lines = Vec::new(alloc);
    let mut rest = bytes;
    while let Some((text, behind)) = first_line(rest) {
        let count = lines.len() as u64;
        if is_last(text, count) {
            if behind.is_empty() {
                return Ok(lines);
            }
            return Err(JournalError::Bad { line: count + 2 });
        }
        let Ok(taken) = standing.take(alloc, names, text) else {
            return Err(JournalError::NoMemory);
        };
        let Some(next) = taken else {
            return Err(JournalError::Bad { line: count + 1 });
        };
        let Ok(()) = lines.push(next) else {
            return Err(JournalError::NoMemory);
        };
        rest = behind;
    }
    Err(JournalError::Bad {
        line: lines.len() as u64 + 1,
    })
}

/// The lines of the journal that a text is, or its first line that is wrong.
///
/// The names of its instances are added to those that are there. Only `NoMemory` is free: `Ok` comes exactly where the
/// text is the journal of lines that obey, and `Bad` exactly where it is none (see `one_verdict`).
pub fn check(alloc: Global, bytes: &[u8], names: &mut Names) -> Result<Vec<Line>, JournalError>
    ensures lines { IfOk result (λ v. IsJournal (rows_under names.new v.items) bytes.now) }
    ensures named { IfOk result (λ v. All (IsLineNamed names.new) v.items) }
    ensures bad { IfErr result (IsFault bytes.now) }
    ensures names { (i : ℕ) → i < length names.old → name_at names.new i ≡ name_at names.old i }
{
    is_text(bytes);
    lines_in(alloc, bytes, names)
}
