// The pairs of candidates that lines have made, and their uses.
ghost use Rattle.std.specs.Prelude.{◌≡◌, ◌<◌, Bool, All, [], length, slice_get, slice_set, Some, IfOk};
ghost use Rattle.pv_journal.specs.Keyed.{left_by, Left, lives, opens, ends_at, begins_at, leaves, may_pair, with_pair, kept_by, key_of_test, kept_in, use_in, after_pair_use};
ghost use Rattle.pv_journal.specs.Standing.{IsBondKnown, HasText, is_heap};

use crate::held::{Held, Instances, same_key};
use crate::line::Key;
use pv_prov::{BLOCK_TEST, CODE_TEST, LIVE_TEST, RANGE_TEST, SAME_TEST};
use pv_script::{Names, NoMemory};
use std::alloc::Global;
use std::marker::Model;

/// A pair that was made.
#[derive(Clone, Copy)]
pub(crate) struct Bond {
    pub(crate) address: u64,
    pub(crate) low: Key,
    pub(crate) high: Key,
    pub(crate) keeps_low: bool,
    pub(crate) keeps_high: bool,
}

/// The pairs in the order of their making.
#[derive(Drop)]
pub(crate) struct Bonds {
    made: Vec<Bond>,
}

impl Model for Bonds {
    ghost use Rattle.std.specs.Prelude.{List, ⊤};
    ghost use Rattle.pv_journal.specs.declared.bonds.Bond.{Bond};

    ghost Value = { List Bond };

    ghost view = { λ x. x.made.items };

    ghost invariant = { λ x. ⊤ };
}

/// Which of two candidates a use leaves.
fn left_by(b: &Bond, first: Key, second: Option<Key>) -> Option<(bool, bool)>
    ensures { result ≡ left_by b.now first second }
{
    match second {
        Some(second) => {
            if same_key(first, b.low) && same_key(second, b.high) {
                Some((true, true))
            } else {
                None
            }
        }
        None => {
            if same_key(first, b.low) {
                Some((true, false))
            } else if same_key(first, b.high) {
                Some((false, true))
            } else {
                None
            }
        }
    }
}

fn lives(x: Option<Held>) -> bool
    ensures { result ≡ lives x }
{
    match x {
        Some(x) => x.live,
        None => false,
    }
}

fn opens(x: Option<Held>) -> bool
    ensures { result ≡ opens x }
{
    match x {
        Some(x) => x.live && x.exposed,
        None => false,
    }
}

fn ends_at(x: Option<Held>, a: u64) -> bool
    ensures { result ≡ ends_at x a }
{
    match x {
        Some(x) => x.base as u128 + x.size as u128 == a as u128,
        None => false,
    }
}

fn begins_at(x: Option<Held>, a: u64) -> bool
    ensures { result ≡ begins_at x a }
{
    match x {
        Some(x) => x.base == a,
        None => false,
    }
}

/// Whether a pair may be made.
fn may_pair(held: &Instances, low: Key, high: Key, address: u64) -> bool
    ensures { result ≡ may_pair held.now low high address }
{
    let x = held.held_by(low);
    let y = held.held_by(high);
    opens(x) && opens(y) && ends_at(x, address) && begins_at(y, address)
}

/// What a test leaves, where it is known which of the two live, and whether the one that is left is an allocation.
fn leaves(live: (bool, bool), heap: bool, test: u8, low: bool, high: bool) -> bool
    ensures { result ≡ leaves live.0 live.1 heap test low high }
{
    if low && !live.0 || high && !live.1 {
        return false;
    }
    match test {
        LIVE_TEST => (low || !live.0) && (high || !live.1),
        BLOCK_TEST => !(low && high) && heap,
        CODE_TEST => !(low && high),
        RANGE_TEST | SAME_TEST => true,
        _ => false,
    }
}

/// Whether the name is that of allocations (7.22.3).
fn is_heap(names: &Names, key: Key) -> bool
    requires { HasText names.now key }
    ensures { result ≡ is_heap names.now key }
{
    names.text(key.name) == b"@heap".as_slice()
}

/// The candidate whose name a test for an allocation looks at.
fn asked(b: &Bond, low: bool) -> Key
    ensures { result ≡ key_of_test b.now low }
{
    if low { b.low } else { b.high }
}

impl Bonds {
    /// None, which takes no memory.
    pub(crate) fn new(alloc: Global) -> Self
        ensures { result ≡ [] }
    {
        Bonds {
            made: Vec::new(alloc),
        }
    }

    /// One pair more, if it may be made.
    pub(crate) fn pair(
        &mut self,
        held: &Instances,
        pair: u64,
        address: u64,
        low: Key,
        high: Key,
    ) -> Result<bool, NoMemory>
        ensures { IfOk result (λ b. Left b self.new (with_pair held.now self.old pair address low high)) }
    {
        if pair as u128 != self.made.len() as u128 + 1 || !may_pair(held, low, high, address) {
            return Ok(false);
        }
        self.made.push(Bond {
            address,
            low,
            high,
            keeps_low: true,
            keeps_high: true,
        })?;
        Ok(true)
    }

    /// The pair at a place.
    fn bond_in(&self, i: usize) -> Bond
        requires { i < length self.now }
        ensures { slice_get self.now i ≡ Some result }
    {
        self.made[i]
    }

    // The pair at a place keeps these two.
    fn keep(&mut self, i: usize, b: Bond, kept: (bool, bool))
        requires { i < length self.old }
        ensures { self.new ≡ slice_set self.old i (kept_by b kept) }
    {
        self.made[i] = Bond {
            keeps_low: kept.0,
            keeps_high: kept.1,
            ..b
        };
    }

    // The pair at a place keeps these two, if the test may leave them.
    fn keep_if(
        &mut self,
        held: &Instances,
        heap: bool,
        i: usize,
        test: u8,
        b: Bond,
        kept: (bool, bool),
    ) -> bool
        requires { i < length self.old }
        ensures { (h : Key → Bool) → heap ≡ h (key_of_test b kept.0) → Left result self.new (kept_in held.now h self.old i test b kept) }
    {
        let live = (lives(held.held_by(b.low)), lives(held.held_by(b.high)));
        if !leaves(live, heap, test, kept.0, kept.1) {
            return false;
        }
        self.keep(i, b, kept);
        true
    }

    // The use of the pair at a place, if it may leave these.
    fn use_in(
        &mut self,
        held: &Instances,
        names: &Names,
        i: usize,
        test: u8,
        first: Key,
        second: Option<Key>,
    ) -> bool
        requires within { i < length self.old }
        requires known { All (IsBondKnown names.now) self.old }
        ensures { Left result self.new (use_in held.now (is_heap names.now) self.old i test first second) }
    {
        let b = self.bond_in(i);
        if !b.keeps_low || !b.keeps_high {
            return false;
        }
        let Some(kept) = left_by(&b, first, second) else {
            return false;
        };
        let heap = is_heap(names, asked(&b, kept.0));
        self.keep_if(held, heap, i, test, b, kept)
    }

    /// The use of a pair, by its number, if it may leave these.
    pub(crate) fn use_of(
        &mut self,
        held: &Instances,
        names: &Names,
        pair: u64,
        test: u8,
        first: Key,
        second: Option<Key>,
    ) -> bool
        requires { All (IsBondKnown names.now) self.old }
        ensures { Left result self.new (after_pair_use held.now (is_heap names.now) self.old pair test first second) }
    {
        if pair < 1 || (self.made.len() as u64) < pair {
            return false;
        }
        self.use_in(held, names, (pair - 1) as usize, test, first, second)
    }
}
