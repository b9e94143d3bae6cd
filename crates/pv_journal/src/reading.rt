// Reading a line.
ghost use Rattle.std.specs.Prelude.{◌≡◌, ◌==◌, IfOk, map, Some, None};
ghost use Rattle.std.specs.List.{slice_split};
ghost use Rattle.std.specs.Option.{option_map, option_and_then};
ghost use Rattle.pv_journal.specs.Views.{id_of, fact_of, row_of, ids_of};
ghost use Rattle.pv_journal.specs.Reading as reading;

use crate::words::{address_in, behind, decimal_in, marks};
use pv_prov::{BLOCK_TEST, CODE_TEST, LIVE_TEST, RANGE_TEST, SAME_TEST};
use pv_script::{NoMemory, pieces};
use std::alloc::Global;

/// What an instance is called by: the text of its name, and which of this name it is.
#[derive(Drop)]
pub(crate) struct Called {
    pub(crate) name: Vec<u8>,
    pub(crate) k: u64,
}

/// What a line says.
#[derive(Drop)]
pub(crate) enum Told {
    Made {
        id: Called,
        base: u64,
        size: u64,
    },
    Ended {
        id: Called,
    },
    Exposed {
        id: Called,
    },
    Paired {
        pair: u64,
        address: u64,
        low: Called,
        high: Called,
    },
    Used {
        pair: u64,
        test: u8,
        first: Called,
        second: Option<Called>,
    },
    Fault,
}

/// A line, with the turns taken.
#[derive(Drop)]
pub(crate) struct Read {
    pub(crate) turn: u64,
    pub(crate) told: Told,
}

fn id_by(alloc: Global, name: &[u8], number: &[u8]) -> Result<Option<Called>, NoMemory>
    ensures { IfOk result (λ o. option_map id_of o ≡ reading.id_by name.now number.now) }
{
    let Some(k) = decimal_in(number) else {
        return Ok(None);
    };
    let name = Vec::from_slice(alloc, name)?;
    Ok(Some(Called { name, k }))
}

#[tactic(auto, using(crate::proofs::Long::id_unread))]
fn id_in(alloc: Global, text: &[u8]) -> Result<Option<Called>, NoMemory>
    ensures { IfOk result (λ o. option_map id_of o ≡ reading.id_in text.now) }
{
    if 1 < marks(text, b'#') {
        return Ok(None);
    }
    let words = pieces(alloc, text, b'#')?;
    if words.len() == 2 {
        id_by(alloc, words[0], words[1])
    } else {
        Ok(None)
    }
}

fn id_behind(alloc: Global, word: &[u8], text: &[u8]) -> Result<Option<Called>, NoMemory>
    ensures { IfOk result (λ o. option_map id_of o ≡ reading.id_behind word.now text.now) }
{
    match behind(word, text) {
        Some(rest) => id_in(alloc, rest),
        None => Ok(None),
    }
}

/// The number behind a word.
pub(crate) fn number_behind(word: &[u8], text: &[u8]) -> Option<u64>
    ensures { result ≡ reading.number_behind word.now text.now }
{
    match behind(word, text) {
        Some(rest) => decimal_in(rest),
        None => None,
    }
}

fn address_behind(alloc: Global, word: &[u8], text: &[u8]) -> Result<Option<u64>, NoMemory>
    ensures { IfOk result (λ o. o ≡ reading.address_behind word.now text.now) }
{
    match behind(word, text) {
        Some(rest) => address_in(alloc, rest),
        None => Ok(None),
    }
}

/// A test, by its word.
fn test_in(text: &[u8]) -> Option<u8>
    ensures { result ≡ reading.test_in text.now }
{
    if text == b"test=live".as_slice() {
        Some(LIVE_TEST)
    } else if text == b"test=range".as_slice() {
        Some(RANGE_TEST)
    } else if text == b"test=block".as_slice() {
        Some(BLOCK_TEST)
    } else if text == b"test=same".as_slice() {
        Some(SAME_TEST)
    } else if text == b"test=code".as_slice() {
        Some(CODE_TEST)
    } else {
        None
    }
}

// One.
fn one_in(alloc: Global, first: &[u8]) -> Result<Option<(Called, Option<Called>)>, NoMemory>
    ensures { IfOk result (λ o. option_map ids_of o ≡ option_map (λ a. (a, None)) (reading.id_in first.now)) }
{
    match id_in(alloc, first)? {
        Some(a) => Ok(Some((a, None))),
        None => Ok(None),
    }
}

// Two.
fn two_in(
    alloc: Global,
    first: &[u8],
    second: &[u8],
) -> Result<Option<(Called, Option<Called>)>, NoMemory>
    ensures { IfOk result (λ o. option_map ids_of o ≡ option_and_then (λ a. option_map (λ b. (a, Some b)) (reading.id_in second.now)) (reading.id_in first.now)) }
{
    let Some(a) = id_in(alloc, first)? else {
        return Ok(None);
    };
    match id_in(alloc, second)? {
        Some(b) => Ok(Some((a, Some(b)))),
        None => Ok(None),
    }
}

// One or two.
fn ids_in(alloc: Global, left: &[u8]) -> Result<Option<(Called, Option<Called>)>, NoMemory>
    ensures { IfOk result (λ o. option_map ids_of o ≡ reading.ids_of (slice_split (λ b. b == 44) left.now)) }
{
    if 1 < marks(left, b',') {
        return Ok(None);
    }
    let words = pieces(alloc, left, b',')?;
    if words.len() == 1 {
        one_in(alloc, words[0])
    } else if words.len() == 2 {
        two_in(alloc, words[0], words[1])
    } else {
        Ok(None)
    }
}

// The same behind a word.
fn ids_behind(
    alloc: Global,
    word: &[u8],
    text: &[u8],
) -> Result<Option<(Called, Option<Called>)>, NoMemory>
    ensures { IfOk result (λ o. option_map ids_of o ≡ reading.ids_behind word.now text.now) }
{
    match behind(word, text) {
        Some(left) => ids_in(alloc, left),
        None => Ok(None),
    }
}

// What is told, with its turn.
fn at_turn(turn: &[u8], told: Option<Told>) -> Option<Read>
    ensures { option_map row_of result ≡ reading.at_turn turn.now (option_map fact_of told) }
{
    let told = told?;
    match number_behind(b"turn=", turn) {
        Some(turn) => Some(Read { turn, told }),
        None => None,
    }
}

fn said_in_2(word: &[u8], turn: &[u8]) -> Option<Read>
    ensures { option_map row_of result ≡ reading.said_in_2 word.now turn.now }
{
    let told = if word == b"fault".as_slice() {
        Some(Told::Fault)
    } else {
        None
    };
    at_turn(turn, told)
}

fn short_in(alloc: Global, word: &[u8], id: &[u8]) -> Result<Option<Told>, NoMemory>
    ensures { IfOk result (λ o. option_map fact_of o ≡ reading.short_in word.now id.now) }
{
    if word == b"end".as_slice() {
        match id_in(alloc, id)? {
            Some(id) => Ok(Some(Told::Ended { id })),
            None => Ok(None),
        }
    } else if word == b"expose".as_slice() {
        match id_in(alloc, id)? {
            Some(id) => Ok(Some(Told::Exposed { id })),
            None => Ok(None),
        }
    } else {
        Ok(None)
    }
}

fn made_in(alloc: Global, id: &[u8], base: &[u8], size: &[u8]) -> Result<Option<Told>, NoMemory>
    ensures { IfOk result (λ o. option_map fact_of o ≡ reading.made_in id.now base.now size.now) }
{
    let Some(id) = id_in(alloc, id)? else {
        return Ok(None);
    };
    let Some(base) = address_behind(alloc, b"base=", base)? else {
        return Ok(None);
    };
    match number_behind(b"size=", size) {
        Some(size) => Ok(Some(Told::Made { id, base, size })),
        None => Ok(None),
    }
}

fn used_in(alloc: Global, pair: &[u8], test: &[u8], left: &[u8]) -> Result<Option<Told>, NoMemory>
    ensures { IfOk result (λ o. option_map fact_of o ≡ reading.used_in pair.now test.now left.now) }
{
    let Some(pair) = decimal_in(pair) else {
        return Ok(None);
    };
    let Some(test) = test_in(test) else {
        return Ok(None);
    };
    match ids_behind(alloc, b"left=", left)? {
        Some((first, second)) => Ok(Some(Told::Used {
            pair,
            test,
            first,
            second,
        })),
        None => Ok(None),
    }
}

fn long_in(
    alloc: Global,
    word: &[u8],
    a: &[u8],
    c: &[u8],
    d: &[u8],
) -> Result<Option<Told>, NoMemory>
    ensures { IfOk result (λ o. option_map fact_of o ≡ reading.long_in word.now a.now c.now d.now) }
{
    if word == b"create".as_slice() {
        made_in(alloc, a, c, d)
    } else if word == b"use".as_slice() {
        used_in(alloc, a, c, d)
    } else {
        Ok(None)
    }
}

fn paired_in(
    alloc: Global,
    pair: &[u8],
    address: &[u8],
    low: &[u8],
    high: &[u8],
) -> Result<Option<Told>, NoMemory>
    ensures { IfOk result (λ o. option_map fact_of o ≡ reading.paired_in pair.now address.now low.now high.now) }
{
    let Some(pair) = decimal_in(pair) else {
        return Ok(None);
    };
    let Some(address) = address_behind(alloc, b"address=", address)? else {
        return Ok(None);
    };
    let Some(low) = id_behind(alloc, b"low=", low)? else {
        return Ok(None);
    };
    match id_behind(alloc, b"high=", high)? {
        Some(high) => Ok(Some(Told::Paired {
            pair,
            address,
            low,
            high,
        })),
        None => Ok(None),
    }
}

fn longest_in(
    alloc: Global,
    word: &[u8],
    a: &[u8],
    c: &[u8],
    d: &[u8],
    e: &[u8],
) -> Result<Option<Told>, NoMemory>
    ensures { IfOk result (λ o. option_map fact_of o ≡ reading.longest_in word.now a.now c.now d.now e.now) }
{
    if word == b"pair".as_slice() {
        paired_in(alloc, a, c, d, e)
    } else {
        Ok(None)
    }
}

fn said_in_3(alloc: Global, word: &[u8], id: &[u8], turn: &[u8]) -> Result<Option<Read>, NoMemory>
    ensures { IfOk result (λ o. option_map row_of o ≡ reading.said_in_3 word.now id.now turn.now) }
{
    let told = short_in(alloc, word, id)?;
    Ok(at_turn(turn, told))
}

fn said_in_5(
    alloc: Global,
    word: &[u8],
    a: &[u8],
    turn: &[u8],
    c: &[u8],
    d: &[u8],
) -> Result<Option<Read>, NoMemory>
    ensures { IfOk result (λ o. option_map row_of o ≡ reading.said_in_5 word.now a.now turn.now c.now d.now) }
{
    let told = long_in(alloc, word, a, c, d)?;
    Ok(at_turn(turn, told))
}

fn said_in_6(
    alloc: Global,
    word: &[u8],
    a: &[u8],
    turn: &[u8],
    c: &[u8],
    d: &[u8],
    e: &[u8],
) -> Result<Option<Read>, NoMemory>
    ensures { IfOk result (λ o. option_map row_of o ≡ reading.said_in_6 word.now a.now turn.now c.now d.now e.now) }
{
    let told = longest_in(alloc, word, a, c, d, e)?;
    Ok(at_turn(turn, told))
}

// What the words of a line say, if they have a reading.
fn said_by(alloc: Global, words: &[&[u8]]) -> Result<Option<Read>, NoMemory>
    ensures { IfOk result (λ o. option_map row_of o ≡ reading.said_by (map (λ x. x.now) words.now)) }
{
    match words {
        [] => Ok(None),
        [_] => Ok(None),
        [_, _, _, _] => Ok(None),
        [_, _, _, _, _, _, _, ..] => Ok(None),
        [word, turn] => Ok(said_in_2(word, turn)),
        [word, id, turn] => said_in_3(alloc, word, id, turn),
        [word, a, turn, c, d] => said_in_5(alloc, word, a, turn, c, d),
        [word, a, turn, c, d, e] => said_in_6(alloc, word, a, turn, c, d, e),
    }
}

/// What a line says, if it has a reading.
pub(crate) fn said(alloc: Global, line: &[u8]) -> Result<Option<Read>, NoMemory>
    ensures { IfOk result (λ o. option_map row_of o ≡ reading.row_said line.now) }
{
    if 5 < marks(line, b' ') {
        return Ok(None);
    }
    let words = pieces(alloc, line, b' ')?;
    said_by(alloc, words.as_slice())
}
