// The words of a line: numbers and addresses.
ghost use Rattle.std.specs.Prelude.{◌≡◌, ◌≤◌, ◌==◌, IfOk};
ghost use Rattle.std.specs.List.{count_by};
ghost use Rattle.std.specs.Option.{option_map};
ghost use Rattle.std.specs.Char.{digit_value};
ghost use Rattle.pv_journal.specs.Reading.{numeral_from, decimal_in, address_in, behind};

use itoa::Buffer;
use pv_print::address;
use pv_script::NoMemory;
use std::alloc::Global;

/// How many marks stand in a text.
pub(crate) fn marks(text: &[u8], mark: u8) -> usize
    ensures { result ≡ count_by (λ b. b == mark) text.now }
{
    text.iter().filter(|b| **b == mark).count()
}

/// The value of a digit or a letter, 36 of what is neither.
fn digit(c: u8) -> u64
    ensures value { result ≡ digit_value c }
    ensures small { result ≤ 36 }
{
    if c < 48 {
        36
    } else if c < 58 {
        u64::from(c - 48)
    } else if c < 65 {
        36
    } else if c < 91 {
        u64::from(c - 55)
    } else if c < 97 {
        36
    } else if c < 123 {
        u64::from(c - 87)
    } else {
        36
    }
}

/// The number that digits write in a base, where it fits.
fn numeral(text: &[u8], base: u64) -> Option<u64>
    requires { base ≤ 16 }
    ensures { result ≡ numeral_from base 0 text.now }
{
    let mut number: u64 = 0;
    for i in 0..text.len() {
        let d = digit(text[i]);
        let next = number as u128 * base as u128 + d as u128;
        if d >= base || next > u64::MAX as u128 {
            return None;
        }
        number = next as u64;
    }
    Some(number)
}

/// A decimal number, as it is printed.
pub(crate) fn decimal_in(text: &[u8]) -> Option<u64>
    ensures { result ≡ decimal_in text.now }
{
    let n = numeral(text, 10)?;
    let mut buffer = Buffer::new();
    if buffer.format(n as i128).as_bytes() == text {
        Some(n)
    } else {
        None
    }
}

/// An address, as it is printed; null has none.
pub(crate) fn address_in(alloc: Global, text: &[u8]) -> Result<Option<u64>, NoMemory>
    ensures { IfOk result (λ o. o ≡ address_in text.now) }
{
    if text.len() < 2 {
        return Ok(None);
    }
    let Some(n) = numeral(&text[2..], 16) else {
        return Ok(None);
    };
    let digits = match address(alloc, n) {
        Ok(digits) => digits,
        Err(_) => return Err(NoMemory),
    };
    if digits.as_slice() == text {
        Ok(Some(n))
    } else {
        Ok(None)
    }
}

/// What stands behind a word.
pub(crate) fn behind<'a>(word: &[u8], text: &'a [u8]) -> Option<&'a [u8]>
    ensures { option_map (λ x. x.now) result ≡ behind word.now text.now }
{
    if word.len() <= text.len() && &text[..word.len()] == word {
        Some(&text[word.len()..])
    } else {
        None
    }
}
