//! Character constants (C17 6.4.4.4) and string literals (C17 6.4.5).
ghost use Rattle.std.specs.Prelude.{◌≡◌, ◌≤◌, ◌<◌, length, IfOk, IfSome, Some, None};
ghost use Rattle.std.specs.Option.{option_map};
ghost use Rattle.pv_lex.specs.Tables.{row_of};
ghost use Rattle.pv_lex.specs.Pieces.{or_bad};
ghost use Rattle.pv_lex.specs.Views.{stand_of};
ghost use Rattle.pv_lex.specs.Characters.{escapes, character_by_number, escape_at, character_at, character_constant, string_literal};

use crate::bytes::{Class, behind, is_in, run};
use crate::escapes::ESCAPES;
use crate::numbers::value;
use crate::pieces::{Fault, Found, Standing};
use crate::tables::row_of;
use pv_token::{Kind, NoMemory};
use std::alloc::Global;

/// A character by its number, which is at most 255 (C17 6.4.4.4p9).
#[tactic(auto, unfolding(crate::specs::Characters::character_by_number))]
fn numbered<'a>(base: u64, digits: &[u8], after: &'a [u8]) -> Option<(u8, &'a [u8])>
    requires base_low { 1 ≤ base }
    requires base_high { base ≤ 16 }
    ensures value { option_map (λ r. (r.0, r.1.now)) result ≡ character_by_number base digits.now after.now }
    ensures rest { IfSome result (λ r. r.1.now ≡ after.now) }
{
    if digits.is_empty() {
        return None;
    }
    let n = value(base, digits)?;
    if n < 256 {
        Some((n as u8, after))
    } else {
        None
    }
}

/// The byte of a simple escape.
fn escape_letter(letter: &[u8]) -> Option<u8>
    ensures { result ≡ row_of escapes letter.now }
{
    row_of(&ESCAPES, letter)
}

/// What stands behind a backslash: its byte, and what is left (C17 6.4.4.4p1).
#[tactic(auto, unfolding(crate::specs::Characters::escape_at))]
fn escape(text: &[u8]) -> Option<(u8, &[u8])>
    ensures value { option_map (λ r. (r.0, r.1.now)) result ≡ escape_at text.now }
    ensures shorter { IfSome result (λ r. length r.1.now ≤ length text.now) }
{
    if text.is_empty() {
        return None;
    }
    if is_in(Class::Octal, text[0]) {
        let (digits, after) = text.split_at(run(Class::Octal, text).min(3));
        return numbered(8, digits, after);
    }
    let rest = behind(text, 1);
    if text[0] == b'x' {
        let (digits, after) = rest.split_at(run(Class::Hex, rest));
        return numbered(16, digits, after);
    }
    let n = escape_letter(&text[..1])?;
    Some((n, rest))
}

/// One character between quotes: its byte, and what is left.
#[tactic(auto, unfolding(crate::specs::Characters::character_at))]
fn character(quote: u8, text: &[u8]) -> Option<(u8, &[u8])>
    ensures value { option_map (λ r. (r.0, r.1.now)) result ≡ character_at quote text.now }
    ensures shorter { IfSome result (λ r. length r.1.now < length text.now) }
{
    if text.is_empty() {
        return None;
    }
    let rest = behind(text, 1);
    if text[0] == b'\\' {
        return escape(rest);
    }
    if text[0] == b'\n' || text[0] == quote {
        return None;
    }
    Some((text[0], rest))
}

/// A character constant, behind its quote.
#[tactic(auto, unfolding(crate::specs::Characters::character_constant))]
pub(crate) fn character_constant(text: &[u8]) -> Standing<'_>
    ensures { stand_of result ≡ or_bad (character_constant text.now) }
{
    let Some((b, after)) = character(b'\'', text) else {
        return Standing::Bad(Fault::BadToken);
    };
    if !after.is_empty() && after[0] == b'\'' {
        Standing::Here(Found::Spelling(Kind::Character(b)), behind(after, 1))
    } else {
        Standing::Bad(Fault::BadToken)
    }
}

/// A string literal, behind its quote.
pub(crate) fn string_literal(alloc: Global, text: &[u8]) -> Result<Standing<'_>, NoMemory>
    ensures { IfOk result (λ s. stand_of s ≡ or_bad (string_literal text.now)) }
{
    let mut out = Vec::new(alloc);
    let mut rest = text;
    while rest.len() > 0 {
        if rest[0] == b'"' {
            let found = Found::Spelling(Kind::Text(out));
            return Ok(Standing::Here(found, behind(rest, 1)));
        }
        match character(b'"', rest) {
            None => return Ok(Standing::Bad(Fault::BadToken)),
            Some((b, after)) => {
                out.push(b)?;
                rest = after;
            }
        }
    }
    Ok(Standing::Bad(Fault::BadToken))
}
