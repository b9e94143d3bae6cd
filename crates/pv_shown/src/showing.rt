// What there was at a turn, as lines. The only error of these functions is want of memory; some of the text may have been added then.
ghost use Rattle.std.specs.Prelude.{◌≡◌, ◌<◌, ◌+◌, ◌^◌, ◌++◌, ◌≤◌, [], ℕ, List, codes, map, length, count_by, if◌then◌else◌, OnOk, IfOk};
ghost use Rattle.std.specs.List.{filter, flat_map, fold, insert, position_or_len};
ghost use Rattle.std.specs.Prelude.{nat_lt, position};
ghost use Rattle.std.specs.Fmt.{decimal};
ghost use Rattle.pv_print.specs.Texts.{address_text};
ghost use Rattle.pv_journal.specs.Journals.{id_text};
ghost use Rattle.pv_journal.specs.Lines.{id_under};
ghost use Rattle.pv_shown.specs.Shown as specified;
ghost use Rattle.pv_shown.specs.Recorded as recorded;
ghost use Rattle.pv_shown.specs.Recorded.{AreEnds, EndsBy, held_then, helds_then, bond_then, bonds_then};

use crate::NoMemory;
use crate::blocks::first_block;
use crate::past::{Life, Past, Tie};
use crate::texts::{add_address, add_count, add_id, add_number};
use pv_script::Names;
use std::alloc::Global;

// Whether it came by this turn.
fn came(turn: Option<u64>, n: u64) -> bool
    ensures { result ≡ recorded.came turn n }
{
    match turn {
        Some(turn) => turn <= n,
        None => false,
    }
}

// Whether it lived then.
fn lives_then(x: &Life, n: u64) -> bool
    ensures { result ≡ recorded.lives_then n x.now }
{
    x.made <= n && !came(x.ended, n)
}

// Whether it lived then, and the address was within it or one past its end.
fn reaches_then(x: &Life, n: u64, a: u64) -> bool
    ensures { result ≡ recorded.reaches_then n a x.now }
{
    x.made <= n && touches(x, n, a)
}

fn touches(x: &Life, n: u64, a: u64) -> bool
    ensures { result ≡ specified.reaches a (held_then [] n x.now) }
{
    !came(x.ended, n) && (x.base <= a && a as u128 <= x.base as u128 + x.size as u128)
}

// ---- the instances that live

/// Adds the instances that lived at a turn.
pub(crate) fn add_list(
    alloc: Global,
    text: &mut Vec<u8>,
    names: &Names,
    past: &Past,
    n: u64,
) -> Result<(), NoMemory>
    requires { AreEnds past.now.lives.items past.now.ends.items }
    ensures { OnOk result (text.new.items ≡ text.old.items ++ specified.list_text (helds_then names.now n past.now.lives.items)) }
{
    let lives = past.lives.as_slice();
    let ends = past.ends.as_slice();
    add_lives(alloc, text, names, lives, ends, n)?;
    add_count(alloc, text, "live", live_count(lives, ends, n))
}

// How many lived.
fn live_count(lives: &[Life], ends: &[Option<u64>], n: u64) -> u64
    requires { AreEnds lives.now ends.now }
    ensures { result ≡ count_by (recorded.lives_then n) lives.now }
{
    are_short(lives);
    let mut count = 0;
    let mut rest = lives;
    for end in ends {
        let (block, others) = first_block(rest);
        count += block_count(block, *end, n);
        rest = others;
    }
    count + each_count(rest, n)
}

// The number of instances is one of the machine. Nothing is done here.
fn are_short(lives: &[Life])
    ensures { length lives.now < 2 ^ 64 }
{
    let _ = lives.iter();
}

// How many of a block lived; none where all have ended by then.
fn block_count(block: &[Life], end: Option<u64>, n: u64) -> u64
    requires { EndsBy end block.now }
    ensures { result ≡ count_by (recorded.lives_then n) block.now }
{
    if came(end, n) {
        0
    } else {
        each_count(block, n)
    }
}

fn each_count(lives: &[Life], n: u64) -> u64
    ensures { result ≡ count_by (recorded.lives_then n) lives.now }
{
    lives.iter().filter(|x| lives_then(x, n)).count() as u64
}

// Adds the lines of those that lived.
fn add_lives(
    alloc: Global,
    text: &mut Vec<u8>,
    names: &Names,
    lives: &[Life],
    ends: &[Option<u64>],
    n: u64,
) -> Result<(), NoMemory>
    requires { AreEnds lives.now ends.now }
    ensures { OnOk result (text.new.items ≡ text.old.items
        ++ flat_map specified.live_line (filter specified.is_live (helds_then names.now n lives.now))) }
{
    let mut rest = lives;
    for end in ends {
        let (block, others) = first_block(rest);
        add_block(alloc, text, names, block, *end, n)?;
        rest = others;
    }
    add_each(alloc, text, names, rest, n)
}

// Adds the lines of those of a block that lived; none where all have ended by then.
fn add_block(
    alloc: Global,
    text: &mut Vec<u8>,
    names: &Names,
    block: &[Life],
    end: Option<u64>,
    n: u64,
) -> Result<(), NoMemory>
    requires { EndsBy end block.now }
    ensures { OnOk result (text.new.items ≡ text.old.items
        ++ flat_map specified.live_line (filter specified.is_live (helds_then names.now n block.now))) }
{
    if came(end, n) {
        Ok(())
    } else {
        add_each(alloc, text, names, block, n)
    }
}

fn add_each(
    alloc: Global,
    text: &mut Vec<u8>,
    names: &Names,
    lives: &[Life],
    n: u64,
) -> Result<(), NoMemory>
    ensures { OnOk result (text.new.items ≡ text.old.items
        ++ flat_map specified.live_line (filter specified.is_live (helds_then names.now n lives.now))) }
{
    for x in lives {
        add_if_live(alloc, text, names, x, n)?;
    }
    Ok(())
}

// Adds the line of one, if it lived.
fn add_if_live(
    alloc: Global,
    text: &mut Vec<u8>,
    names: &Names,
    x: &Life,
    n: u64,
) -> Result<(), NoMemory>
    ensures { OnOk result (text.new.items ≡ text.old.items
        ++ (if recorded.lives_then n x.now then specified.live_line (held_then names.now n x.now) else [])) }
{
    if lives_then(x, n) {
        add_live(alloc, text, names, x, n)
    } else {
        Ok(())
    }
}

// Adds the line of one.
fn add_live(
    alloc: Global,
    text: &mut Vec<u8>,
    names: &Names,
    x: &Life,
    n: u64,
) -> Result<(), NoMemory>
    ensures { OnOk result (text.new.items ≡ text.old.items ++ specified.live_line (held_then names.now n x.now)) }
{
    add_place(alloc, text, names, x)?;
    add_exposed(text, came(x.exposed, n))?;
    text.push(b'\n')?;
    Ok(())
}

// Adds who it is, and where it lies.
fn add_place(alloc: Global, text: &mut Vec<u8>, names: &Names, x: &Life) -> Result<(), NoMemory>
    ensures { OnOk result (text.new.items ≡ text.old.items ++ (codes "live " ++ id_text (id_under names.now x.now.key)
        ++ codes " base=" ++ address_text x.now.base ++ codes " size=" ++ decimal x.now.size)) }
{
    text.extend_from_slice(b"live ")?;
    add_id(alloc, text, names, x.key)?;
    add_address(alloc, text, b" base=", x.base)?;
    add_number(alloc, text, b" size=", x.size)
}

// Adds that it is exposed, if it is.
fn add_exposed(text: &mut Vec<u8>, exposed: bool) -> Result<(), NoMemory>
    ensures { OnOk result (text.new.items ≡ text.old.items ++ (if exposed then codes " exposed" else [])) }
{
    if exposed {
        text.extend_from_slice(b" exposed")?;
    }
    Ok(())
}

// ---- the pairs

/// Adds the pairs that were made by a turn.
pub(crate) fn add_pairs(
    alloc: Global,
    text: &mut Vec<u8>,
    names: &Names,
    ties: &[Tie],
    n: u64,
) -> Result<(), NoMemory>
    ensures { OnOk result (text.new.items ≡ text.old.items ++ specified.pairs_text (bonds_then names.now n ties.now)) }
{
    add_ties(alloc, text, names, ties, n)?;
    add_count(alloc, text, "pairs", tied_count(ties, n))
}

// How many were made.
fn tied_count(ties: &[Tie], n: u64) -> u64
    ensures { result ≡ count_by (recorded.is_tied n) ties.now }
{
    ties.iter().filter(|tie| tie.made <= n).count() as u64
}

// Adds the lines of those that were made, which are numbered from 1.
fn add_ties(
    alloc: Global,
    text: &mut Vec<u8>,
    names: &Names,
    ties: &[Tie],
    n: u64,
) -> Result<(), NoMemory>
    ensures { OnOk result (text.new.items ≡ text.old.items ++ specified.pair_lines 1 (bonds_then names.now n ties.now)) }
{
    let mut number: u64 = 1;
    for tie in ties {
        number = add_if_tied(alloc, text, names, tie, n, number)?;
    }
    Ok(())
}

// Adds the line of one with this number, if it was made; the number of the next one.
fn add_if_tied(
    alloc: Global,
    text: &mut Vec<u8>,
    names: &Names,
    tie: &Tie,
    n: u64,
    number: u64,
) -> Result<u64, NoMemory>
    requires { number < 2 ^ 63 }
    ensures next { IfOk result (λ k. k ≡ (if recorded.is_tied n tie.now then number + 1 else number)) }
    ensures line { OnOk result (text.new.items ≡ text.old.items
        ++ (if recorded.is_tied n tie.now then specified.pair_line number (bond_then names.now n tie.now) else [])) }
{
    if tie.made <= n {
        add_tie(alloc, text, names, tie, n, number)?;
        Ok(number + 1)
    } else {
        Ok(number)
    }
}

// Adds the line of one.
fn add_tie(
    alloc: Global,
    text: &mut Vec<u8>,
    names: &Names,
    tie: &Tie,
    n: u64,
    number: u64,
) -> Result<(), NoMemory>
    ensures { OnOk result (text.new.items ≡ text.old.items ++ specified.pair_line number (bond_then names.now n tie.now)) }
{
    add_number(alloc, text, b"pair ", number)?;
    add_address(alloc, text, b" address=", tie.address)?;
    text.extend_from_slice(b" kept=")?;
    add_kept(alloc, text, names, tie, n)?;
    text.push(b'\n')?;
    Ok(())
}

// Adds the candidates that it kept.
fn add_kept(
    alloc: Global,
    text: &mut Vec<u8>,
    names: &Names,
    tie: &Tie,
    n: u64,
) -> Result<(), NoMemory>
    ensures { OnOk result (text.new.items ≡ text.old.items ++ specified.kept_text (bond_then names.now n tie.now)) }
{
    let keeps_low = !came(tie.used, n) || tie.leaves_low;
    let keeps_high = !came(tie.used, n) || tie.leaves_high;
    if keeps_low {
        add_id(alloc, text, names, tie.low)?;
        if keeps_high {
            text.push(b',')?;
            add_id(alloc, text, names, tie.high)?;
        }
    } else if keeps_high {
        add_id(alloc, text, names, tie.high)?;
    }
    Ok(())
}

// ---- what is at an address

/// Adds the instances that were at an address at a turn, by their addresses.
pub(crate) fn add_at(
    alloc: Global,
    text: &mut Vec<u8>,
    names: &Names,
    past: &Past,
    n: u64,
    a: u64,
) -> Result<(), NoMemory>
    requires { AreEnds past.now.lives.items past.now.ends.items }
    ensures { OnOk result (text.new.items ≡ text.old.items ++ specified.at_text (helds_then names.now n past.now.lives.items) a) }
{
    let found = found_at(alloc, past.lives.as_slice(), past.ends.as_slice(), n, a)?;
    add_found(alloc, text, names, found.as_slice(), a)?;
    add_count(alloc, text, "at", found.len() as u64)
}

// Those that were there, by their addresses.
fn found_at(
    alloc: Global,
    lives: &[Life],
    ends: &[Option<u64>],
    n: u64,
    a: u64,
) -> Result<Vec<Life>, NoMemory>
    requires { AreEnds lives.now ends.now }
    ensures { IfOk result (λ found. (names : List (List ℕ)) → map (held_then names n) found.items
        ≡ specified.by_base (filter (specified.reaches a) (helds_then names n lives.now))) }
{
    let mut found = Vec::new(alloc);
    let mut rest = lives;
    for end in ends {
        let (block, others) = first_block(rest);
        put_block(&mut found, block, *end, n, a)?;
        rest = others;
    }
    put_each(&mut found, rest, n, a)?;
    Ok(found)
}

// Those of a block that were there, put among others; none where all have ended by then.
fn put_block(
    found: &mut Vec<Life>,
    block: &[Life],
    end: Option<u64>,
    n: u64,
    a: u64,
) -> Result<(), NoMemory>
    requires { EndsBy end block.now }
    ensures { OnOk result ((names : List (List ℕ)) → map (held_then names n) found.new.items
        ≡ fold (λ ys x. specified.put_by_address x ys) (map (held_then names n) found.old.items) (filter (specified.reaches a) (helds_then names n block.now))) }
{
    if came(end, n) {
        Ok(())
    } else {
        put_each(found, block, n, a)
    }
}

fn put_each(found: &mut Vec<Life>, lives: &[Life], n: u64, a: u64) -> Result<(), NoMemory>
    ensures { OnOk result ((names : List (List ℕ)) → map (held_then names n) found.new.items
        ≡ fold (λ ys x. specified.put_by_address x ys) (map (held_then names n) found.old.items) (filter (specified.reaches a) (helds_then names n lives.now))) }
{
    for x in lives {
        put_if(found, x, n, a)?;
    }
    Ok(())
}

// One more among those, if it was there.
fn put_if(found: &mut Vec<Life>, x: &Life, n: u64, a: u64) -> Result<(), NoMemory>
    ensures { OnOk result ((names : List (List ℕ)) → map (held_then names n) found.new.items
        ≡ (if recorded.reaches_then n a x.now then specified.put_by_address (held_then names n x.now) (map (held_then names n) found.old.items)
        else map (held_then names n) found.old.items)) }
{
    if reaches_then(x, n, a) {
        put(found, *x)
    } else {
        Ok(())
    }
}

// One more among those.
fn put(found: &mut Vec<Life>, x: Life) -> Result<(), NoMemory>
    ensures { OnOk result ((names : List (List ℕ)) (n : ℕ) → map (held_then names n) found.new.items
        ≡ specified.put_by_address (held_then names n x) (map (held_then names n) found.old.items)) }
{
    let place = place_below(found.as_slice(), x.base);
    found.insert(place, x)?;
    Ok(())
}

// The place of the first that begins above an address, or the one behind them all.
fn place_below(found: &[Life], base: u64) -> usize
    ensures place { result ≡ position_or_len (λ y. nat_lt base y.base) found.now }
    ensures within { result ≤ length found.now }
{
    match first_above(found, base) {
        Some(place) => place,
        None => found.len(),
    }
}

fn first_above(found: &[Life], base: u64) -> Option<usize>
    ensures { result ≡ position (λ y. nat_lt base y.base) found.now }
{
    found.iter().position(|y| base < y.base)
}

// Adds their lines.
fn add_found(
    alloc: Global,
    text: &mut Vec<u8>,
    names: &Names,
    found: &[Life],
    a: u64,
) -> Result<(), NoMemory>
    ensures { (n : ℕ) → OnOk result (text.new.items ≡ text.old.items
        ++ flat_map (specified.inside_line a) (map (held_then names.now n) found.now)) }
{
    for x in found {
        add_inside(alloc, text, names, x, a)?;
    }
    Ok(())
}

// Adds the line of one. One that begins above the address would stand at its first byte.
fn add_inside(
    alloc: Global,
    text: &mut Vec<u8>,
    names: &Names,
    x: &Life,
    a: u64,
) -> Result<(), NoMemory>
    ensures { (n : ℕ) → OnOk result (text.new.items ≡ text.old.items
        ++ specified.inside_line a (held_then names.now n x.now)) }
{
    text.extend_from_slice(b"inside ")?;
    add_id(alloc, text, names, x.key)?;
    add_number(alloc, text, b" offset=", a.saturating_sub(x.base))?;
    text.push(b'\n')?;
    Ok(())
}
