//! Comments (C17 6.4.9), and the line markers that a preprocessor writes, as `# 12 "file.c" 1`.
ghost use Rattle.std.specs.Prelude.{◌≡◌, ◌≤◌, ◌^◌, ◌-◌, ◌+◌, ◌<◌, length, IfSome, Some, None, false, not, ◌&&◌, nat_eq, if◌then◌else◌};
ghost use Rattle.std.specs.Option.{option_map};
ghost use Rattle.pv_lex.specs.Pieces.{Marker, or_bad};
ghost use Rattle.pv_lex.specs.Views.{stand_of};
ghost use Rattle.pv_lex.specs.Comments.{block_comment};
ghost use Rattle.pv_lex.specs.Markers.{some_of, behind_name, behind_quotes, behind_line_feed, groups, marker};
ghost use Rattle.pv_lex.specs.MarkerParts.{marker_piece, group_at};

use crate::bytes::{Class, behind, is_in, run};
use crate::numbers::value;
use crate::pieces::{Fault, Found, Standing};

/// How many lines a byte ends.
fn line_feed(b: u8) -> u32
    ensures { result ≡ (if nat_eq b 10 then 1 else 0) }
{
    if b == b'\n' { 1 } else { 0 }
}

/// A comment, behind its `/*`.
pub(crate) fn block_comment(text: &[u8]) -> Standing<'_>
    requires { length text.now ≤ 2 ^ 20 }
    ensures { stand_of result ≡ or_bad (block_comment text.now) }
{
    let mut lines = 0u32;
    let mut rest = text;
    while rest.len() > 0 {
        if rest.starts_with(b"*/") {
            return Standing::Here(Found::Comment(lines), behind(rest, 2));
        }
        lines += line_feed(rest[0]);
        rest = behind(rest, 1);
    }
    Standing::Bad(Fault::BadToken)
}

/// At least one byte of the class, and what is left.
#[tactic(auto, unfolding(crate::specs::Markers::some_of))]
fn some_of(class: Class, text: &[u8]) -> Option<(&[u8], &[u8])>
    ensures value { option_map (λ r. (r.0.now, r.1.now)) result ≡ some_of class text.now }
    ensures shorter { IfSome result (λ r. length r.1.now < length text.now) }
{
    if text.is_empty() || !is_in(class, text[0]) {
        return None;
    }
    Some(text.split_at(run(class, text)))
}

/// What is left behind the quote that closes a file's name (C17 6.10.4p4): none where no quote closes it on its line.
pub fn behind_name(text: &[u8]) -> Option<&[u8]>
    ensures { option_map (λ r. r.now) result ≡ behind_name false text.now }
{
    let mut taken = false;
    let mut rest = text;
    while rest.len() > 0 {
        let b = rest[0];
        if b == b'\n' {
            return None;
        }
        if closes_name(taken, b) {
            return Some(behind(rest, 1));
        }
        taken = takes_next(taken, b);
        rest = behind(rest, 1);
    }
    None
}

/// A quote ends a name, but behind a backslash.
fn closes_name(taken: bool, b: u8) -> bool
    ensures { result ≡ (not taken && nat_eq b 34) }
{
    !taken && b == b'"'
}

/// A backslash takes the next byte with it, but behind a backslash.
fn takes_next(taken: bool, b: u8) -> bool
    ensures { result ≡ (not taken && nat_eq b 92) }
{
    !taken && b == b'\\'
}

/// A name in quotes, and what is left behind it.
fn quoted(text: &[u8]) -> Option<&[u8]>
    ensures { option_map (λ r. r.now) result ≡ behind_quotes text.now }
{
    if text.is_empty() || text[0] != b'"' {
        return None;
    }
    behind_name(behind(text, 1))
}

/// What is left behind the end of the line.
fn behind_line_feed(text: &[u8]) -> Option<&[u8]>
    ensures { option_map (λ r. r.now) result ≡ behind_line_feed text.now }
{
    if text.is_empty() {
        return Some(text);
    }
    if text[0] == b'\n' {
        Some(behind(text, 1))
    } else {
        None
    }
}

/// Spaces or tabs, and a number: a flag of a marker, or the number of its line.
fn group(text: &[u8]) -> Option<(&[u8], &[u8])>
    ensures value { option_map (λ r. (r.0.now, r.1.now)) result ≡ group_at text.now }
    ensures shorter { IfSome result (λ r. length r.1.now < length text.now) }
{
    let (_, digits) = some_of(Class::Blank, text)?;
    some_of(Class::Digit, digits)
}

/// What is left behind all flags and the end of the line.
fn groups(text: &[u8]) -> Option<&[u8]>
    ensures { option_map (λ r. r.now) result ≡ groups (length text.now) text.now }
{
    let mut rest = text;
    while let Some((_, after)) = group(rest) {
        rest = after;
    }
    behind_line_feed(behind(rest, run(Class::LineTail, rest)))
}

/// The marker of this number, if it has at most ten digits and is a line's number.
fn marker_piece<'a>(digits: &[u8], after: &'a [u8]) -> Option<(u32, &'a [u8])>
    ensures { option_map (λ r. record { what = Marker r.0; after = r.1.now }) result ≡ marker_piece digits.now after.now }
{
    let line = value(10, digits)?;
    if digits.len() <= 10 && line <= 2147483647 {
        Some((line as u32, after))
    } else {
        None
    }
}

/// A line marker, behind its `#`: the number of the next line, and what is left.
#[tactic(auto, unfolding(crate::specs::Markers::marker))]
pub(crate) fn marker(text: &[u8]) -> Option<(u32, &[u8])>
    ensures { option_map (λ r. record { what = Marker r.0; after = r.1.now }) result ≡ marker text.now }
{
    let (digits, blanks) = group(text)?;
    let (_, name) = some_of(Class::Blank, blanks)?;
    let rest = quoted(name)?;
    let after = groups(rest)?;
    marker_piece(digits, after)
}
