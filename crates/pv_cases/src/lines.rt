// The words of a line of a list.
ghost use Rattle.std.specs.Prelude.{◌≡◌, ◌<◌, ◌≤◌, ◌&&◌, true, false, nat_le, length, position, None, Some, IfSome, MatchOption, option_map};
ghost use Rattle.std.specs.List.{list_all};
ghost use Rattle.pv_cases.specs.Cases as specified;
ghost use Rattle.pv_cases.specs.Views.{cut_view};

use pv_script::number_to;
use std::str;

// The largest bound on a case's turns.
const MOST_TURNS: u64 = 100_000_000;

// The first word of a line, and what stands behind the space after it.
#[derive(Clone, Copy)]
pub(crate) struct Parted<'a> {
    pub word: &'a [u8],
    pub rest: &'a [u8],
}

// Cuts a line at its first space, if it has one.
pub(crate) fn cut(line: &[u8]) -> Option<Parted<'_>>
    ensures { option_map cut_view result ≡ specified.cut_of line.now }
{
    let Some(at) = first_space(line) else {
        return None;
    };
    Some(Parted {
        word: &line[..at],
        rest: &line[at + 1..],
    })
}

fn first_space(line: &[u8]) -> Option<usize>
    ensures place { result ≡ position specified.is_space line.now }
    ensures within { IfSome result (λ at. at < length line.now) }
{
    line.iter().position(|b| *b == b' ')
}

// The text of a word, of one or more bytes from 33 to 126.
pub(crate) fn word_in(bytes: &[u8]) -> Option<&str>
    ensures { MatchOption result (specified.is_word bytes.now ≡ false)
        (λ text. (specified.is_word bytes.now ≡ true) × (text.now ≡ bytes.now)) }
{
    if !is_word(bytes) {
        return None;
    }
    match str::from_utf8(bytes) {
        Ok(text) => Some(text),
        Err(_) => None,
    }
}

fn is_word(bytes: &[u8]) -> bool
    ensures { result ≡ specified.is_word bytes.now }
{
    !bytes.is_empty() && are_plain(bytes)
}

// Whether all of these are from 33 to 126, as the bytes of a word are.
fn are_plain(bytes: &[u8]) -> bool
    ensures { result ≡ list_all (λ b. nat_le 33 b && nat_le b 126) bytes.now }
{
    bytes.iter().all(|b| 33 <= *b && *b <= 126)
}

// The name of a file; `-` is none.
pub(crate) fn named(word: &str) -> Option<&str>
    ensures { option_map (λ s. s.now) result ≡ specified.file_named word.now }
{
    if word == "-" { None } else { Some(word) }
}

// A bound on turns: decimal, without a leading zero, from 1 to 100000000.
pub(crate) fn bound_in(text: &[u8]) -> Option<u64>
    ensures value { result ≡ specified.bound_in text.now }
    ensures range { IfSome result (λ n. (0 < n) × (n ≤ 100000000)) }
{
    number_to(text, MOST_TURNS)
}
