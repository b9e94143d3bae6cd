// The instances that lines have made, in their order, with what finds them.
ghost use Rattle.std.specs.Prelude.{◌≡◌, ◌+◌, ◌<◌, ◌≤◌, ◌^◌, ◌++◌, ◌∷◌, ℕ, [], length, get_or, position, slice_get, None, Some, IsSome, IfSome, IfNone, IfOk, OnOk, sum_by};
ghost use Rattle.std.specs.Ordering.{nat_cmp};
ghost use Rattle.std.specs.BTreeMap.{get};
ghost use Rattle.std.specs.List.{list_any, list_all};
ghost use Rattle.pv_journal.specs.Keyed.{same_key, is_of, exceeded_by, shares_bytes, live_size, held_by, Left, fresh, ended_at, exposed_at, at_place, at_key, may_make, with_made};
ghost use Rattle.pv_journal.specs.Indexed.{AreDistinct, IsFree};

use crate::line::Key;
use pv_script::NoMemory;
use std::alloc::Global;
use std::collections::BTreeMap;
use std::marker::Model;

/// An instance that was made.
#[derive(Clone, Copy)]
pub(crate) struct Held {
    pub(crate) key: Key,
    pub(crate) base: u64,
    pub(crate) size: u64,
    pub(crate) live: bool,
    pub(crate) exposed: bool,
}

/// The instances in the order of their making.
#[derive(Drop)]
pub(crate) struct Instances {
    made: Vec<Held>,
    // the sum of the live bytes
    live: u64,
    // where a key stands: a hint, which is looked after
    places: BTreeMap<(u32, u64), usize>,
    // the greatest number of each name, 0 where it has none
    tops: Vec<u64>,
    // where live ones begin, and where each of them ends
    living: BTreeMap<u64, u64>,
}

impl Model for Instances {
    ghost use Rattle.std.specs.Prelude.{List, get_or};
    ghost use Rattle.pv_journal.specs.Indexed.{AreIndexed};
    ghost use Rattle.pv_journal.specs.declared.held.Held.{Held};

    ghost Value = { List Held };

    ghost view = { λ x. x.made.items };

    ghost invariant = { λ x. AreIndexed x.made.items x.live (λ n. get_or x.tops.items n 0) x.living.entries };
}

/// Whether two are one.
pub(crate) fn same_key(a: Key, b: Key) -> bool
    ensures { result ≡ same_key a b }
{
    a.k == b.k && a.name == b.name
}

/// Where an instance stands, by a search of all.
fn searched(held: &[Held], key: Key) -> Option<usize>
    ensures place { result ≡ position (is_of key) held.now }
    ensures within { IfSome result (λ i. i < length held.now) }
{
    held.iter().position(|h| same_key(h.key, key))
}

/// Where an instance stands, by a hint that may be wrong.
fn place_of(held: &[Held], hint: Option<usize>, key: Key) -> Option<usize>
    requires { AreDistinct held.now }
    ensures place { result ≡ position (is_of key) held.now }
    ensures within { IfSome result (λ i. i < length held.now) }
{
    if let Some(i) = hint {
        if i < held.len() {
            let x = held_in(held, i);
            if same_key(x.key, key) {
                return Some(i);
            }
        }
    }
    searched(held, key)
}

/// The greatest number of a name, 0 where it has none.
fn top_of(tops: &[u64], name: u32) -> u64
    ensures { result ≡ get_or tops.now name 0 }
{
    if (name as usize) < tops.len() {
        tops[name as usize]
    } else {
        0
    }
}

/// The entry of greatest base below an address.
fn below(living: &BTreeMap<u64, u64>, a: u64) -> Option<(u64, u64)>
    ensures there { IfSome result (λ e. get nat_cmp living.now e.0 ≡ Some e.1) }
    ensures low { IfSome result (λ e. e.0 < a) }
    ensures greatest { IfSome result (λ e. (q : ℕ) → q < a → IsSome (get nat_cmp living.now q) → q ≤ e.0) }
    ensures none { IfNone result ((q : ℕ) → q < a → get nat_cmp living.now q ≡ None) }
{
    match living.range(..a).next_back() {
        Some((base, end)) => Some((*base, *end)),
        None => None,
    }
}

/// The instance at a place.
fn held_in(held: &[Held], i: usize) -> Held
    requires { i < length held.now }
    ensures { slice_get held.now i ≡ Some result }
{
    held[i]
}

// There is room for the greatest number of a name; nothing is said of it yet.
fn give_room(tops: &mut Vec<u64>, name: u32) -> Result<(), NoMemory>
    ensures room { OnOk result (name < length tops.new.items) }
    ensures same { (n : ℕ) → get_or tops.new.items n 0 ≡ get_or tops.old.items n 0 }
{
    while tops.len() <= name as usize {
        tops.push(0)?;
    }
    Ok(())
}

impl Instances {
    /// None, which takes no memory.
    pub(crate) fn new(alloc: Global) -> Self
        ensures { result ≡ [] }
    {
        Instances {
            made: Vec::new(alloc),
            live: 0,
            places: BTreeMap::new(alloc),
            tops: Vec::new(alloc),
            living: BTreeMap::new(alloc),
        }
    }

    // Where the instance of a key stands.
    fn place(&self, key: Key) -> Option<usize>
        ensures place { result ≡ position (is_of key) self.now }
        ensures within { IfSome result (λ i. i < length self.now) }
    {
        let hint = match self.places.get(&(key.name, key.k)) {
            Some(i) => Some(*i),
            None => None,
        };
        place_of(self.made.as_slice(), hint, key)
    }

    // The instance at a place.
    fn at(&self, i: usize) -> Held
        requires { i < length self.now }
        ensures { slice_get self.now i ≡ Some result }
    {
        self.made[i]
    }

    /// The instance of a key.
    pub(crate) fn held_by(&self, key: Key) -> Option<Held>
        ensures { result ≡ held_by self.now key }
    {
        match self.place(key) {
            Some(i) => Some(self.at(i)),
            None => None,
        }
    }

    // Whether its number exceeds each of the name.
    fn exceeds_all(&self, key: Key) -> bool
        requires { 1 ≤ key.k }
        ensures { result ≡ list_all (exceeded_by key) self.now }
    {
        top_of(self.tops.as_slice(), key.name) < key.k
    }

    // Whether a live one shares a byte with it.
    fn overlaps_any(&self, base: u64, size: u64) -> bool
        requires { base + size ≤ 2 ^ 47 }
        ensures { result ≡ list_any (shares_bytes base size) self.now }
    {
        match below(&self.living, base + size) {
            Some(entry) => base < entry.1,
            None => false,
        }
    }

    // The bytes that live.
    fn live_bytes(&self) -> u64
        ensures { result ≡ sum_by live_size self.now }
    {
        self.live
    }

    /// Whether an instance may be made; and whether its name is one.
    fn may_make(&self, valid: bool, key: Key, base: u64, size: u64) -> bool
        ensures { result ≡ may_make self.now valid key base size }
    {
        valid
            && 1 <= key.k
            && self.exceeds_all(key)
            && 1 <= size
            && 4096 <= base
            && base as u128 + size as u128 <= 0x8000_0000_0000
            && !self.overlaps_any(base, size)
            && self.live_bytes() as u128 + size as u128 <= 0x100_0000
    }

    // One instance more, that may be made.
    fn push(&mut self, key: Key, base: u64, size: u64) -> Result<(), NoMemory>
        requires { IsFree self.old key base size }
        ensures { OnOk result (self.new ≡ self.old ++ fresh key base size ∷ []) }
    {
        self.made.reserve(1)?;
        give_room(&mut self.tops, key.name)?;
        self.places.insert((key.name, key.k), self.made.len())?;
        self.living.insert(base, base + size)?;
        self.tops[key.name as usize] = key.k;
        self.live += size;
        self.made.push_reserved(Held {
            key,
            base,
            size,
            live: true,
            exposed: false,
        });
        Ok(())
    }

    /// One instance more, if it may be made.
    pub(crate) fn make(
        &mut self,
        valid: bool,
        key: Key,
        base: u64,
        size: u64,
    ) -> Result<bool, NoMemory>
        ensures { IfOk result (λ b. Left b self.new (with_made self.old valid key base size)) }
    {
        if !self.may_make(valid, key, base, size) {
            return Ok(false);
        }
        self.push(key, base, size)?;
        Ok(true)
    }

    // The instance at a place ends, if it lives.
    fn end_at(&mut self, i: usize) -> bool
        requires { i < length self.old }
        ensures { Left result self.new (at_place self.old ended_at i) }
    {
        let x = held_in(self.made.as_slice(), i);
        if !x.live {
            return false;
        }
        self.living.remove(&x.base);
        self.live -= x.size;
        self.made[i] = Held { live: false, ..x };
        true
    }

    /// The instance of a key ends, if it lives.
    pub(crate) fn end(&mut self, key: Key) -> bool
        ensures { Left result self.new (at_key self.old key ended_at) }
    {
        match self.place(key) {
            Some(i) => self.end_at(i),
            None => false,
        }
    }

    // The instance at a place is exposed, if it lives and is not.
    fn expose_at(&mut self, i: usize) -> bool
        requires { i < length self.old }
        ensures { Left result self.new (at_place self.old exposed_at i) }
    {
        let x = held_in(self.made.as_slice(), i);
        if !x.live || x.exposed {
            return false;
        }
        self.made[i] = Held { exposed: true, ..x };
        true
    }

    /// The instance of a key is exposed, if it lives and is not.
    pub(crate) fn expose(&mut self, key: Key) -> bool
        ensures { Left result self.new (at_key self.old key exposed_at) }
    {
        match self.place(key) {
            Some(i) => self.expose_at(i),
            None => false,
        }
    }
}
