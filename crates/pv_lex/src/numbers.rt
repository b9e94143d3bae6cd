//! Integer constants (C17 6.4.4.1).
ghost use Rattle.std.specs.Prelude.{◌≡◌, ◌≤◌, ◌^◌, if◌then◌else◌, nat_lt, Some, None};
ghost use Rattle.std.specs.Option.{option_map};
ghost use Rattle.pv_lex.specs.Tables.{row_of};
ghost use Rattle.pv_lex.specs.Pieces.{or_bad};
ghost use Rattle.pv_lex.specs.Views.{stand_of};
ghost use Rattle.pv_lex.specs.Constants.{suffixes, digit_value, value_from, number_of, constant_of, number_at, constant_of_value};
ghost use Rattle.pv_token.specs.Views.{said_of};

use crate::bytes::{Class, run};
use crate::pieces::{Fault, Found, Standing};
use crate::suffixes::{SUFFIXES, Suffix};
use crate::tables::row_of;
use pv_token::Kind;

/// What a digit is worth: 0 to 9, A to F, a to f.
fn digit_value(b: u8) -> u8
    ensures { result ≡ digit_value b }
{
    if b < 58 {
        b.saturating_sub(48)
    } else if b < 71 {
        b.saturating_sub(55)
    } else {
        b.saturating_sub(87)
    }
}

/// The number that digits spell, if it is below 2 ^ 64.
pub(crate) fn value(base: u64, digits: &[u8]) -> Option<u64>
    requires base_low { 1 ≤ base }
    requires base_high { base ≤ 16 }
    ensures { result ≡ (if nat_lt (value_from base 0 digits.now) (2 ^ 64) then Some (value_from base 0 digits.now) else None) }
{
    let mut n: u64 = 0;
    for &d in digits {
        let next = n as u128 * base as u128 + digit_value(d) as u128;
        if next > u64::MAX as u128 {
            return None;
        }
        n = next as u64;
    }
    Some(n)
}

/// What the whole text says as a suffix.
fn suffix_of(text: &[u8]) -> Option<Suffix>
    ensures { result ≡ row_of suffixes text.now }
{
    row_of(&SUFFIXES, text)
}

/// A constant of this value, if a type of its list holds it (C17 6.4.4p2).
fn sized(base: u64, value: u64, suffix: Suffix) -> Option<Kind<'static>>
    ensures { option_map said_of result ≡ constant_of_value base value suffix }
{
    if base == 10 && !suffix.unsigned && value >= 1 << 63 {
        return None;
    }
    Some(Kind::Number {
        value,
        decimal: base == 10,
        unsigned: suffix.unsigned,
        longs: suffix.longs,
    })
}

/// The constant of these digits and this suffix.
#[tactic(auto, unfolding(crate::specs::Constants::number_of))]
fn number_of(base: u64, digits: &[u8], suffix: &[u8]) -> Option<Kind<'static>>
    requires base_low { 1 ≤ base }
    requires base_high { base ≤ 16 }
    ensures { option_map said_of result ≡ number_of base digits.now suffix.now }
{
    if digits.is_empty() {
        return None;
    }
    let s = suffix_of(suffix)?;
    let n = value(base, digits)?;
    sized(base, n, s)
}

/// The constant that is spelled by the whole text.
#[tactic(auto, unfolding(crate::specs::Constants::constant_of))]
fn constant_of(text: &[u8]) -> Option<Kind<'static>>
    ensures { option_map said_of result ≡ constant_of text.now }
{
    if text.starts_with(b"0x") || text.starts_with(b"0X") {
        let digits = &text[2..];
        let (front, behind) = digits.split_at(run(Class::Hex, digits));
        return number_of(16, front, behind);
    }
    if !text.is_empty() && text[0] == b'0' {
        let (front, behind) = text.split_at(run(Class::Octal, text));
        return number_of(8, front, behind);
    }
    let (front, behind) = text.split_at(run(Class::Digit, text));
    number_of(10, front, behind)
}

/// A constant at the front.
#[tactic(auto, unfolding(crate::specs::Constants::number_at))]
pub(crate) fn number(text: &[u8]) -> Standing<'_>
    ensures { stand_of result ≡ or_bad (number_at text.now) }
{
    let (front, behind) = text.split_at(run(Class::Word, text));
    if !behind.is_empty() && behind[0] == b'.' {
        return Standing::Bad(Fault::BadToken);
    }
    match constant_of(front) {
        None => Standing::Bad(Fault::BadToken),
        Some(kind) => Standing::Here(Found::Spelling(kind), behind),
    }
}
