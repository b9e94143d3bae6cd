//! An index by address of the first accesses of a list, for long rows.
ghost use Rattle.std.specs.Prelude.{◌≡◌, ◌≤◌, ◌<◌, ◌+◌, ℕ, true, false, length, get_or, find, OnOk};
ghost use Rattle.pv_seq.specs.Sequencing.{Access, clash};
ghost use Rattle.pv_seq.specs.Frames.{row};
ghost use Rattle.pv_seq.specs.Marks.{NoneMarked};
ghost use Rattle.pv_seq.specs.Found.{is_narrow, no_access, IsFound, AreFound, NoneClash, Stands};

use crate::NoMemory;
use crate::access::{Access, clash};
use crate::marks::{are_touched, mark, unmark};
use std::alloc::Global;
use std::collections::BTreeSet;

/// As many accesses are compared one by one in about the time of a search by address.
const FEW: usize = 1024;

/// Where the first accesses of a list are found by address.
#[derive(Drop)]
pub(crate) struct Index {
    /// Pairs of a byte and the number of a narrow access that reads it.
    reads: BTreeSet<(u64, usize)>,
    /// Pairs of a byte and the number of a narrow access that writes it.
    writes: BTreeSet<(u64, usize)>,
    /// The numbers of the other accesses.
    wide: Vec<usize>,
    /// How many accesses it knows.
    pub(crate) known: usize,
}

/// An index that knows no access.
pub(crate) fn empty(alloc: Global) -> Index
    ensures { result.known ≡ 0 }
{
    Index {
        reads: BTreeSet::new(alloc),
        writes: BTreeSet::new(alloc),
        wide: Vec::new(alloc),
        known: 0,
    }
}

/// Whether the access has no more bytes than a number, and isn't near the last address.
pub(crate) fn is_narrow(a: Access) -> bool
    ensures { result ≡ is_narrow a }
{
    a.length <= 16 && a.place < 1 << 63
}

/// Lets the access with this number be found.
fn file(index: &mut Index, a: Access, number: usize) -> Result<(), NoMemory>
    ensures known { index.new.known ≡ index.old.known }
    ensures kept { (b : Access) (n : ℕ) → IsFound index.old b n → IsFound index.new b n }
    ensures filed { OnOk result (IsFound index.new a number) }
{
    if !is_narrow(a) {
        index.wide.push(number)?;
    } else if a.writes {
        mark(&mut index.writes, a.place, a.length, number)?;
    } else {
        mark(&mut index.reads, a.place, a.length, number)?;
    }
    Ok(())
}

/// Lets the accesses up to this number be found.
pub(crate) fn learn(index: &mut Index, accesses: &[Access], to: usize) -> Result<(), NoMemory>
    requires found { AreFound index.old accesses.now }
    requires to { to ≤ length accesses.now }
    ensures { AreFound index.new accesses.now }
{
    while index.known < to {
        let number = index.known;
        file(index, accesses[number], number)?;
        index.known = number + 1;
    }
    Ok(())
}

/// Takes this number away, if it is the last one.
fn take_last(wide: &mut Vec<usize>, number: usize)
    ensures { (n : ℕ) → n < number → Stands wide.old.items n → Stands wide.new.items n }
{
    let count = wide.len();
    if count == 0 || wide[count - 1] != number {
        return;
    }
    wide.truncate(count - 1);
}

/// The access with this number isn't found any more.
fn strike(index: &mut Index, a: Access, number: usize)
    ensures known { index.new.known ≡ index.old.known }
    ensures kept { (b : Access) (n : ℕ) → n < number → IsFound index.old b n → IsFound index.new b n }
{
    if !is_narrow(a) {
        take_last(&mut index.wide, number);
    } else if a.writes {
        unmark(&mut index.writes, a.place, a.length, number);
    } else {
        unmark(&mut index.reads, a.place, a.length, number);
    }
}

/// The accesses from this number on aren't found any more.
pub(crate) fn forget(index: &mut Index, accesses: &[Access], from: usize)
    requires { AreFound index.old accesses.now }
    ensures found { AreFound index.new accesses.now }
    ensures known { index.new.known ≤ from }
{
    while index.known > from {
        let number = index.known - 1;
        strike(index, accesses[number], number);
        index.known = number;
    }
}

/// Whether one of these wide accesses, with a number from `start` to before `end`, conflicts with the access.
fn some_clash(wide: &[usize], accesses: &[Access], start: usize, end: usize, a: Access) -> bool
    requires { end ≤ length accesses.now }
    ensures { result ≡ false → (n : ℕ) → Stands wide.now n → start ≤ n → n < end → clash a (get_or accesses.now n no_access) ≡ false }
{
    for i in 0..wide.len() {
        let n = wide[i];
        if start <= n && n < end && clash(a, accesses[n]) {
            return true;
        }
    }
    false
}

/// Whether the narrow access writes where one of the accesses from `start` to before `end` reads.
fn are_read(index: &Index, start: usize, end: usize, a: Access) -> bool
    requires order { start ≤ end }
    requires narrow { is_narrow a ≡ true }
    ensures { result ≡ false → a.writes ≡ true → NoneMarked index.now.reads a.place a.length start end }
{
    a.writes && are_touched(&index.reads, a.place, a.length, start, end)
}

/// Whether one of the accesses from `start` to before `end` may conflict with the narrow access.
pub(crate) fn may_clash(
    index: &Index,
    accesses: &[Access],
    start: usize,
    end: usize,
    a: Access,
) -> bool
    requires found { AreFound index.now accesses.now }
    requires order { start ≤ end }
    requires end { end ≤ index.now.known }
    requires narrow { is_narrow a ≡ true }
    ensures { result ≡ false → NoneClash a accesses.now start end }
{
    if are_touched(&index.writes, a.place, a.length, start, end) {
        return true;
    }
    if are_read(index, start, end, a) {
        return true;
    }
    some_clash(&index.wide, accesses, start, end, a)
}

/// Up to where the index may rule out a rival in a row.
fn middle(start: usize, end: usize, known: usize) -> usize
    requires { start ≤ end }
    ensures order { start ≤ result }
    ensures end { result ≤ end }
{
    if known <= start {
        start
    } else if known < end {
        known
    } else {
        end
    }
}

/// Whether the index rules out a rival from `start` to before `end`, where there are enough accesses to ask it.
fn rules_out(index: &Index, accesses: &[Access], start: usize, end: usize, a: Access) -> bool
    requires found { AreFound index.now accesses.now }
    requires order { start ≤ end }
    ensures { result ≡ true → NoneClash a accesses.now start end }
{
    if end - start <= FEW || end > index.known || !is_narrow(a) {
        return false;
    }
    !may_clash(index, accesses, start, end, a)
}

/// Where the search for a rival from `start` to before `end` may begin.
pub(crate) fn search_from(
    index: &Index,
    accesses: &[Access],
    start: usize,
    end: usize,
    a: Access,
) -> usize
    requires found { AreFound index.now accesses.now }
    requires order { start ≤ end }
    requires end { end ≤ length accesses.now }
    ensures order { start ≤ result }
    ensures end { result ≤ end }
    ensures same { find (clash a) (row result end accesses.now) ≡ find (clash a) (row start end accesses.now) }
{
    let middle = middle(start, end, index.known);
    if rules_out(index, accesses, start, middle, a) {
        return middle;
    }
    start
}

/// Learns the accesses before `end`, where a row from `start` on has many that aren't known.
pub(crate) fn learn_row(
    index: &mut Index,
    accesses: &[Access],
    start: usize,
    end: usize,
) -> Result<(), NoMemory>
    requires { AreFound index.old accesses.now }
    ensures { AreFound index.new accesses.now }
{
    let end = end.min(accesses.len());
    if end.saturating_sub(start.max(index.known)) <= FEW {
        return Ok(());
    }
    learn(index, accesses, end)
}
