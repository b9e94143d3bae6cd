//! Scopes: what each name and each tag designates (C17 6.2.1, 6.2.3).
ghost use Rattle.std.specs.Prelude.{◌≡◌, ◌<◌, ◌++◌, ◌∷◌, ◌+◌, ◌-◌, [], ℕ, option_map, slice_get, IfOk, OnOk, Some, None, is_some, not, length, map, take, if◌then◌else◌};
ghost use Rattle.pv_check.specs.Scopes.{find, look_by};
ghost use Rattle.std.specs.Option.{option_or};
ghost use Rattle.pv_check.specs.ScopeParts.{with_meaning};
ghost use Rattle.pv_check.specs.declared.scopes.Entry.{Entry};
ghost use Rattle.pv_check.specs.Raw.{Raw, no_raw, raw_of, raw_innermost, raw_names, raw_tags, kept_names, kept_tags, with_name, with_tag, entry_of_tag, tag_if};

use indexmap::IndexMap;
use pv_types::{NoMemory, TypeId};
use std::alloc::Global;
use std::marker::Model;

/// What an ordinary identifier designates (C17 6.2.3p1).
#[derive(Clone, Copy)]
pub enum Entry {
    /// An object, by its number.
    Object(u32),
    /// A function, by its number.
    Function(u32),
    /// A type (C17 6.7.8).
    Typedef(TypeId),
    /// An enumeration constant, by its value, which is an `int` (C17 6.4.4.3, 6.7.2.2p2).
    Constant(i32),
}

/// What a tag designates (C17 6.7.2.3).
#[derive(Clone, Copy)]
pub enum Tag {
    /// A structure or a union, by its number.
    Composite(u32),
    /// An enumeration.
    Enumerated,
}

/// The same, as typing needs it.
#[derive(Clone, Copy)]
pub enum TagEntry {
    /// A structure or a union, by its number.
    Composite(u32),
    /// An enumeration whose list was read.
    Enumerated,
    /// An enumeration within its own list (C17 6.7.2.3p3).
    Unfinished,
}

/// An object or a function that an expression names.
#[derive(Clone, Copy)]
pub enum Named {
    Object(u32),
    /// A function that is called by its name, or named in the operand of `sizeof`.
    Function(u32),
    /// A function whose pointer is evaluated (C17 6.3.2.1p4).
    Pointed(u32),
}

/// A scope; names and tags have name spaces of their own (C17 6.2.3).
#[derive(Drop)]
pub struct Scope {
    names: IndexMap<u32, Entry>,
    tags: IndexMap<u32, TagEntry>,
}

/// The scopes that are there at a place, the innermost last, and what expressions named so far.
#[derive(Drop)]
pub struct Scopes {
    alloc: Global,
    scopes: Vec<Scope>,
    used: Vec<Named>,
}

impl Model for Scopes {
    ghost use Rattle.std.specs.Prelude.{map};
    ghost use Rattle.pv_check.specs.Raw.{Raw, raw_of};

    ghost Value = { Raw };

    ghost view = { λ s. record { scopes = map raw_of s.scopes.items; used = s.used.items } };
}

/// What the map has for a name.
fn find<V: Copy>(map: &IndexMap<u32, V>, name: u32) -> Option<V>
    ensures { result ≡ find map.now.entries name }
{
    map.get(&name).copied()
}

/// Gives a name a meaning in a map.
fn bind<V: Copy + Drop>(map: &mut IndexMap<u32, V>, name: u32, value: V) -> Result<(), NoMemory>
    ensures bound { OnOk result (map.new.entries ≡ with_meaning name value map.old.entries) }
{
    map.insert(name, value)?;
    Ok(())
}

/// What is kept for a tag that is declared.
fn entry_of_tag(what: Tag) -> TagEntry
    ensures { result ≡ entry_of_tag what }
{
    match what {
        Tag::Composite(number) => TagEntry::Composite(number),
        Tag::Enumerated => TagEntry::Enumerated,
    }
}

/// What a tag designates, as it is kept.
fn tag_if(found: Option<TagEntry>) -> Option<Tag>
    ensures { result ≡ tag_if found }
{
    match found {
        Some(TagEntry::Composite(number)) => Some(Tag::Composite(number)),
        Some(TagEntry::Enumerated) | Some(TagEntry::Unfinished) => Some(Tag::Enumerated),
        None => None,
    }
}

/// The first, or where there is none the second.
fn first_of<V: Copy>(a: Option<V>, b: Option<V>) -> Option<V>
    ensures { result ≡ option_or a b }
{
    match a {
        Some(x) => Some(x),
        None => b,
    }
}

/// What the scopes have for a name. The innermost one that has it decides, so the others are not asked.
fn look(scopes: &[Scope], name: u32) -> Option<Entry>
    ensures { result ≡ look_by kept_names scopes.now name }
{
    let mut left = scopes.len();
    while left > 0 {
        left -= 1;
        if let Some(found) = find(&scopes[left].names, name) {
            return Some(found);
        }
    }
    None
}

/// What the scopes have for a tag.
fn look_tag(scopes: &[Scope], name: u32) -> Option<TagEntry>
    ensures { result ≡ look_by kept_tags scopes.now name }
{
    let mut found = None;
    for scope in scopes {
        found = first_of(find(&scope.tags, name), found);
    }
    found
}

impl Scopes {
    /// No scope yet.
    pub fn new(alloc: Global) -> Scopes
        ensures { result ≡ record { scopes = []; used = [] } }
    {
        Scopes {
            alloc,
            scopes: Vec::new(alloc),
            used: Vec::new(alloc),
        }
    }

    /// How many scopes there are.
    pub fn count(&self) -> usize
        ensures { result ≡ length self.now.scopes }
    {
        self.scopes.len()
    }

    /// Where its memory comes from.
    pub fn allocator(&self) -> Global {
        self.alloc
    }

    /// Opens a scope within the others (C17 6.2.1p4).
    pub fn enter(&mut self) -> Result<(), NoMemory>
        ensures { OnOk result (self.new ≡ record self.old { scopes = self.old.scopes ++ no_raw ∷ [] }) }
    {
        self.scopes.push(Scope {
            names: IndexMap::new(self.alloc),
            tags: IndexMap::new(self.alloc),
        })?;
        Ok(())
    }

    /// Closes the innermost scope.
    pub fn leave(&mut self)
        requires { 0 < length self.old.scopes }
        ensures { self.new ≡ record self.old { scopes = take (length self.old.scopes - 1) self.old.scopes } }
    {
        let _ = self.scopes.pop();
    }

    /// Closes the innermost scope, and hands it out, as the body of a function takes that of its parameters (C17
    /// 6.2.1p4). Where there is no scope, an empty one.
    pub fn take_innermost(&mut self) -> Scope
        ensures scope { raw_of result ≡ raw_innermost self.old.scopes }
        ensures left { self.new ≡ record self.old { scopes = take (length self.old.scopes - 1) self.old.scopes } }
    {
        match self.scopes.pop() {
            Some(scope) => scope,
            None => Scope {
                names: IndexMap::new(self.alloc),
                tags: IndexMap::new(self.alloc),
            },
        }
    }

    /// Opens a scope again that was handed out, within the others.
    pub fn reenter(&mut self, scope: Scope) -> Result<(), NoMemory>
        ensures { OnOk result (self.new ≡ record self.old { scopes = self.old.scopes ++ raw_of scope ∷ [] }) }
    {
        self.scopes.push(scope)?;
        Ok(())
    }

    /// What the name designates (C17 6.2.1p4).
    pub fn look(&self, name: u32) -> Option<Entry>
        ensures { result ≡ look_by raw_names self.now.scopes name }
    {
        look(&self.scopes, name)
    }

    /// What the tag designates (C17 6.2.1p4). An enumeration is one within its own list, too.
    pub fn look_tag(&self, name: u32) -> Option<Tag>
        ensures { result ≡ tag_if (look_by raw_tags self.now.scopes name) }
    {
        tag_if(self.tag_entry(name))
    }

    /// What the tag designates, as typing needs it.
    pub fn tag_entry(&self, name: u32) -> Option<TagEntry>
        ensures { result ≡ look_by raw_tags self.now.scopes name }
    {
        look_tag(&self.scopes, name)
    }

    /// Gives the name a meaning in the innermost scope, where that has none for it (C17 6.7p3).
    pub fn declare(&mut self, name: u32, what: Entry) -> Result<bool, NoMemory>
        requires { 0 < length self.old.scopes }
        ensures fresh { IfOk result (λ b. b ≡ not (is_some (find (raw_innermost self.old.scopes).names name))) }
        ensures declared { IfOk result (λ b. self.new ≡ (if b then with_name self.old name what else self.old)) }
    {
        let last = self.scopes.len() - 1;
        let scope = &mut self.scopes[last];
        if find(&scope.names, name).is_some() {
            return Ok(false);
        }
        bind(&mut scope.names, name, what)?;
        Ok(true)
    }

    /// What the innermost scope has for a name.
    pub fn inner(&self, name: u32) -> Option<Entry>
        requires { 0 < length self.now.scopes }
        ensures { result ≡ find (raw_innermost self.now.scopes).names name }
    {
        let last = self.scopes.len() - 1;
        find(&self.scopes[last].names, name)
    }

    /// What the name that the innermost scope got as number `i`, from 0, designates.
    pub fn inner_at(&self, i: usize) -> Option<Entry>
        requires { 0 < length self.now.scopes }
        ensures { result ≡ option_map (λ (e : ℕ × Entry). e.1) (slice_get (raw_innermost self.now.scopes).names i) }
    {
        let last = self.scopes.len() - 1;
        match self.scopes[last].names.get_index(i) {
            Some((_, what)) => Some(*what),
            None => None,
        }
    }

    /// How many names and tags the innermost scope has.
    pub fn bound(&self) -> u64
        requires { 0 < length self.now.scopes }
        ensures { result ≡ length (raw_innermost self.now.scopes).names + length (raw_innermost self.now.scopes).tags }
    {
        let last = self.scopes.len() - 1;
        self.scopes[last].names.len() as u64 + self.scopes[last].tags.len() as u64
    }

    /// Gives the tag a meaning in the innermost scope, where that has none for it (C17 6.7.2.3p1); false where it has.
    pub fn declare_tag(&mut self, name: u32, what: Tag) -> Result<bool, NoMemory>
        requires { 0 < length self.old.scopes }
        ensures fresh { IfOk result (λ b. b ≡ not (is_some (find (raw_innermost self.old.scopes).tags name))) }
        ensures declared { IfOk result (λ b. self.new ≡ (if b then with_tag self.old name (entry_of_tag what) else self.old)) }
    {
        if self.inner_tag(name).is_some() {
            return Ok(false);
        }
        self.bind_tag(name, entry_of_tag(what))?;
        Ok(true)
    }

    /// What the innermost scope has for a tag.
    pub fn inner_tag(&self, name: u32) -> Option<TagEntry>
        requires { 0 < length self.now.scopes }
        ensures { result ≡ find (raw_innermost self.now.scopes).tags name }
    {
        let last = self.scopes.len() - 1;
        find(&self.scopes[last].tags, name)
    }

    /// Gives the tag a meaning in the innermost scope, in place of the one that it has there.
    pub fn bind_tag(&mut self, name: u32, what: TagEntry) -> Result<(), NoMemory>
        requires { 0 < length self.old.scopes }
        ensures { OnOk result (self.new ≡ with_tag self.old name what) }
    {
        let last = self.scopes.len() - 1;
        let scope = &mut self.scopes[last];
        bind(&mut scope.tags, name, what)?;
        Ok(())
    }

    /// Notes that an expression names it.
    pub fn note(&mut self, what: Named) -> Result<(), NoMemory>
        ensures { OnOk result (self.new ≡ record self.old { used = self.old.used ++ what ∷ [] }) }
    {
        self.used.push(what)?;
        Ok(())
    }

    /// What expressions named, in order.
    pub fn used(&self) -> &[Named]
        ensures { result.now ≡ self.now.used }
    {
        &self.used
    }
}
