//! What stands at a place of the source.
ghost use Rattle.std.specs.Prelude.{IsTrue, IsFalse, ◌≡◌, ◌≤◌, ◌<◌, ◌^◌, ◌&&◌, length, drop, slice_index, nat_eq, [], ◌∷◌, IfOk};
ghost use Rattle.std.specs.List.{starts_with};
ghost use Rattle.std.specs.Option.{option_map};
ghost use Rattle.std.specs.Char.{is_ascii_digit};
ghost use Rattle.pv_lex.specs.Bytes.{begins, is_white, is_letter};
ghost use Rattle.pv_lex.specs.Pieces.{or_bad, Marker};
ghost use Rattle.pv_lex.specs.Stands.{stands};
ghost use Rattle.pv_lex.specs.Views.{stand_of};

use crate::bytes::{Class, behind, is_letter, is_white, run};
use crate::comments::{block_comment, marker};
use crate::literals::{character_constant, string_literal};
use crate::numbers::number;
use crate::pieces::{Fault, Found, Standing, mark, word};
use pv_token::NoMemory;
use std::alloc::Global;

/// What stands where `text` is left (C17 6.4p4). `fresh`: only spaces and tabs stand before it on its line (6.10p2).
/// The only error is want of memory.
#[tactic(auto, unfolding(crate::specs::Stands::stands))]
pub fn stand(alloc: Global, fresh: bool, text: &[u8]) -> Result<Standing<'_>, NoMemory>
    requires { length text.now ≤ 2 ^ 20 }
    ensures { IfOk result (λ s. stand_of s ≡ stands fresh text.now) }
{
    if text.is_empty() {
        return Ok(Standing::End);
    }
    let b = text[0];
    let rest = behind(text, 1);
    if is_white(b) {
        return Ok(Standing::Here(Found::White(b), rest));
    }
    if is_letter(b) {
        return Ok(word(text));
    }
    if b.is_ascii_digit() {
        return Ok(number(text));
    }
    if b == b'"' {
        return string_literal(alloc, rest);
    }
    Ok(marked(fresh, text))
}

/// What stands where a mark begins `text`: no white space, no letter, no digit and no double quote.
#[tactic(auto, unfolding(crate::specs::Stands::stands))]
fn marked(fresh: bool, text: &[u8]) -> Standing<'_>
    requires some { 0 < length text.now }
    requires short { length text.now ≤ 2 ^ 20 }
    requires not_white { IsFalse (is_white (slice_index text.now 0)) }
    requires not_letter { IsFalse (is_letter (slice_index text.now 0)) }
    requires not_digit { IsFalse (is_ascii_digit (slice_index text.now 0)) }
    requires not_quote { IsFalse (nat_eq (slice_index text.now 0) 34) }
    ensures { stand_of result ≡ stands fresh text.now }
{
    let b = text[0];
    let rest = behind(text, 1);
    if b == b'\'' {
        return character_constant(rest);
    }
    if b == b'#' {
        return marker_or_bad(if fresh { marker(rest) } else { None });
    }
    if begins_pair(text, b'/', b'/') {
        return Standing::Here(Found::Comment(0), behind(rest, run(Class::InLine, rest)));
    }
    if begins_pair(text, b'/', b'*') {
        return block_comment(behind(rest, 1));
    }
    if begins_fraction(text) || begins_pair(text, b'%', b':') {
        return Standing::Bad(Fault::BadToken);
    }
    mark(text)
}

/// Whether the text begins with these two characters. The second is looked at only where the first is there.
fn begins_pair(text: &[u8], first: u8, second: u8) -> bool
    requires { 0 < length text.now }
    ensures value { result ≡ starts_with nat_eq text.now (first ∷ second ∷ []) }
    ensures bound { IsTrue result → 1 < length text.now }
{
    if text[0] == first {
        return text.len() > 1 && text[1] == second;
    }
    false
}

/// A dot before a digit, with which a floating constant begins (C17 6.4.4.2p1).
fn begins_fraction(text: &[u8]) -> bool
    requires { 0 < length text.now }
    ensures { result ≡ (nat_eq (slice_index text.now 0) 46 && begins is_ascii_digit (drop 1 text.now)) }
{
    text[0] == b'.' && text.len() > 1 && text[1].is_ascii_digit()
}

/// A line marker, or the fault that none stands here.
fn marker_or_bad<'a>(found: Option<(u32, &'a [u8])>) -> Standing<'a>
    ensures { stand_of result ≡ or_bad (option_map (λ r. record { what = Marker r.0; after = r.1.now }) found.entry) }
{
    match found {
        None => Standing::Bad(Fault::BadToken),
        Some((line, after)) => Standing::Here(Found::Marker(line), after),
    }
}
