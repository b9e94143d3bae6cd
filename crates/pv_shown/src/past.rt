// What a run did to its memory, by turns: when each instance was made, ended and was exposed, when each pair of candidates was made and used.
// What there was at any turn is read off it, so that no state is made for one.
ghost use Rattle.std.specs.Prelude.{◌≡◌, ◌++◌, ◌∷◌, ◌<◌, [], length, position, slice_get, Some, IfSome, IfNone, IfOk, OnOk};
ghost use Rattle.pv_script.specs.Names.{name_at};
ghost use Rattle.pv_journal.specs.Lines.{id_under, rows_under};
ghost use Rattle.pv_journal.specs.Obeying.{same_id, Obeys};
ghost use Rattle.pv_shown.specs.Recorded as recorded;
ghost use Rattle.pv_shown.specs.Recorded.{is_of, Changes, Uses, Notes, Tells, AreEnds, made_at, tied_at};

use crate::NoMemory;
use crate::blocks::ends_of;
use pv_journal::{Key, Line, Said};
use pv_script::Names;
use std::alloc::Global;
use std::collections::BTreeMap;

/// An instance that was made.
#[derive(Clone, Copy)]
pub(crate) struct Life {
    pub(crate) key: Key,
    pub(crate) base: u64,
    pub(crate) size: u64,
    // the turns at which it was made, ended and was exposed
    pub(crate) made: u64,
    pub(crate) ended: Option<u64>,
    pub(crate) exposed: Option<u64>,
}

/// A pair of candidates that was made.
#[derive(Clone, Copy)]
pub(crate) struct Tie {
    pub(crate) address: u64,
    pub(crate) low: Key,
    pub(crate) high: Key,
    // the turns at which it was made and last used
    pub(crate) made: u64,
    pub(crate) used: Option<u64>,
    // which of the two that use left
    pub(crate) leaves_low: bool,
    pub(crate) leaves_high: bool,
}

/// Instances and pairs in the order of their making.
#[derive(Drop)]
pub(crate) struct Past {
    pub(crate) lives: Vec<Life>,
    pub(crate) ties: Vec<Tie>,
    // where the instance of a key stands: a hint, which is looked after
    // the turn by which each block of instances has ended, once all lines are noted
    pub(crate) ends: Vec<Option<u64>>,
    places: BTreeMap<(u32, u64), usize>,
}

/// The text of a name; a number that is none has none.
pub(crate) fn text_of(names: &Names, number: u32) -> &[u8]
    ensures { result.now ≡ name_at names.now number }
{
    if number < names.len() {
        names.text(number)
    } else {
        b""
    }
}

/// Whether two are one.
fn same(names: &Names, a: Key, b: Key) -> bool
    ensures { result ≡ same_id (id_under names.now a) (id_under names.now b) }
{
    a.k == b.k && text_of(names, a.name) == text_of(names, b.name)
}

// Where the instance of a key stands, by a search of all.
fn searched(names: &Names, lives: &[Life], key: Key) -> Option<usize>
    ensures within { IfSome result (λ i. i < length lives.now) }
    ensures found { IfSome result (recorded.IsAt names.now key lives.now) }
    ensures none { IfNone result (position (is_of names.now key) lives.now ≡ None) }
{
    first_of(names, lives, key)
}

fn first_of(names: &Names, lives: &[Life], key: Key) -> Option<usize>
    ensures place { result ≡ position (is_of names.now key) lives.now }
    ensures within { IfSome result (λ i. i < length lives.now) }
{
    lives.iter().position(|x| same(names, x.key, key))
}

// The same by a hint that may be wrong.
fn place_of(names: &Names, lives: &[Life], hint: Option<usize>, key: Key) -> Option<usize>
    ensures within { IfSome result (λ i. i < length lives.now) }
    ensures found { IfSome result (recorded.IsAt names.now key lives.now) }
    ensures none { IfNone result (position (is_of names.now key) lives.now ≡ None) }
{
    match hinted(names, lives, hint, key) {
        Some(i) => Some(i),
        None => searched(names, lives, key),
    }
}

// Where a hint says, if that is so.
fn hinted(names: &Names, lives: &[Life], hint: Option<usize>, key: Key) -> Option<usize>
    ensures within { IfSome result (λ i. i < length lives.now) }
    ensures found { IfSome result (recorded.IsAt names.now key lives.now) }
{
    let i = hint?;
    if i < lives.len() && same(names, life_in(lives, i).key, key) {
        Some(i)
    } else {
        None
    }
}

// The instance at a place.
fn life_in(lives: &[Life], i: usize) -> Life
    requires { i < length lives.now }
    ensures { slice_get lives.now i ≡ Some result }
{
    lives[i]
}

// The pair at a place.
fn tie_in(ties: &[Tie], i: usize) -> Tie
    requires { i < length ties.now }
    ensures { slice_get ties.now i ≡ Some result }
{
    ties[i]
}

// Which of a pair's two a use leaves that leaves these.
fn left_by(names: &Names, tie: &Tie, first: Key, second: Option<Key>) -> (bool, bool)
    ensures { result ≡ recorded.left_by names.now tie.now first second }
{
    match second {
        Some(_) => (true, true),
        None => {
            if same(names, first, tie.low) {
                (true, false)
            } else {
                (false, true)
            }
        }
    }
}

impl Past {
    // Nothing was done, which takes no memory.
    fn new(alloc: Global) -> Self
        ensures lives { result.lives.items ≡ [] }
        ensures ties { result.ties.items ≡ [] }
    {
        Past {
            lives: Vec::new(alloc),
            ties: Vec::new(alloc),
            ends: Vec::new(alloc),
            places: BTreeMap::new(alloc),
        }
    }

    // Where the instance of a key stands.
    fn place(&self, names: &Names, key: Key) -> Option<usize>
        ensures within { IfSome result (λ i. i < length self.now.lives.items) }
        ensures found { IfSome result (recorded.IsAt names.now key self.now.lives.items) }
        ensures none { IfNone result (position (is_of names.now key) self.now.lives.items ≡ None) }
    {
        let hint = match self.places.get(&(key.name, key.k)) {
            Some(i) => Some(*i),
            None => None,
        };
        place_of(names, self.lives.as_slice(), hint, key)
    }

    // An instance is made.
    fn make(&mut self, turn: u64, key: Key, base: u64, size: u64) -> Result<(), NoMemory>
        ensures lives { OnOk result (self.new.lives.items ≡ self.old.lives.items ++ made_at turn key base size ∷ []) }
        ensures ties { self.new.ties.items ≡ self.old.ties.items }
    {
        self.places.insert((key.name, key.k), self.lives.len())?;
        self.lives.push(Life {
            key,
            base,
            size,
            made: turn,
            ended: None,
            exposed: None,
        })?;
        Ok(())
    }

    // The instance of a key ends.
    fn end(&mut self, names: &Names, turn: u64, key: Key)
        ensures lives { Changes names.now key (recorded.ended_at turn) self.old.lives.items self.new.lives.items }
        ensures ties { self.new.ties.items ≡ self.old.ties.items }
    {
        if let Some(i) = self.place(names, key) {
            let x = life_in(self.lives.as_slice(), i);
            self.lives[i] = Life {
                ended: Some(turn),
                ..x
            };
        }
    }

    // The instance of a key is exposed.
    fn expose(&mut self, names: &Names, turn: u64, key: Key)
        ensures lives { Changes names.now key (recorded.exposed_at turn) self.old.lives.items self.new.lives.items }
        ensures ties { self.new.ties.items ≡ self.old.ties.items }
    {
        if let Some(i) = self.place(names, key) {
            let x = life_in(self.lives.as_slice(), i);
            self.lives[i] = Life {
                exposed: Some(turn),
                ..x
            };
        }
    }

    // A pair is made.
    fn tie(&mut self, turn: u64, address: u64, low: Key, high: Key) -> Result<(), NoMemory>
        ensures lives { self.new.lives.items ≡ self.old.lives.items }
        ensures ties { OnOk result (self.new.ties.items ≡ self.old.ties.items ++ tied_at turn address low high ∷ []) }
    {
        self.ties.push(Tie {
            address,
            low,
            high,
            made: turn,
            used: None,
            leaves_low: true,
            leaves_high: true,
        })?;
        Ok(())
    }

    // The pair of this number is used.
    fn use_of(&mut self, names: &Names, turn: u64, pair: u64, first: Key, second: Option<Key>)
        ensures lives { self.new.lives.items ≡ self.old.lives.items }
        ensures ties { Uses names.now turn pair first second self.old.ties.items self.new.ties.items }
    {
        if 1 <= pair && pair <= self.ties.len() as u64 {
            let i = (pair - 1) as usize;
            let tie = tie_in(self.ties.as_slice(), i);
            let (leaves_low, leaves_high) = left_by(names, &tie, first, second);
            self.ties[i] = Tie {
                used: Some(turn),
                leaves_low,
                leaves_high,
                ..tie
            };
        }
    }

    // What a line says is noted. The only error is want of memory.
    fn note(&mut self, names: &Names, line: &Line) -> Result<(), NoMemory>
        ensures { OnOk result (Notes names.now line.now.turn line.now.what self.old.lives.items self.new.lives.items
            self.old.ties.items self.new.ties.items) }
    {
        match line.what {
            Said::Made { key, base, size } => self.make(line.turn, key, base, size),
            Said::Ended { key } => {
                self.end(names, line.turn, key);
                Ok(())
            }
            Said::Exposed { key } => {
                self.expose(names, line.turn, key);
                Ok(())
            }
            Said::Pair {
                address,
                low,
                high,
                ..
            } => self.tie(line.turn, address, low, high),
            Said::Used {
                pair,
                first,
                second,
                ..
            } => {
                self.use_of(names, line.turn, pair, first, second);
                Ok(())
            }
            Said::Fault => Ok(()),
        }
    }
}

/// What the lines of a journal say of the run's memory. The only error is want of memory.
pub(crate) fn past_of(alloc: Global, names: &Names, lines: &[Line]) -> Result<Past, NoMemory>
    requires { Obeys (rows_under names.now lines.now) }
    ensures tells { IfOk result (λ p. Tells names.now (rows_under names.now lines.now) p.lives.items p.ties.items) }
    ensures ends { IfOk result (λ p. AreEnds p.lives.items p.ends.items) }
{
    let mut past = noted(alloc, names, lines)?;
    past.ends = ends_of(alloc, past.lives.as_slice())?;
    Ok(past)
}

// The same, without the ends of blocks.
fn noted(alloc: Global, names: &Names, lines: &[Line]) -> Result<Past, NoMemory>
    requires { Obeys (rows_under names.now lines.now) }
    ensures { IfOk result (λ p. Tells names.now (rows_under names.now lines.now) p.lives.items p.ties.items) }
{
    let mut past = Past::new(alloc);
    for line in lines {
        past.note(names, line)?;
    }
    Ok(past)
}
