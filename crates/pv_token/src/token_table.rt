//! The tokens of a source, with their names and literals.
ghost use Rattle.std.specs.Prelude.{◌≡◌, ◌≤◌, ◌<◌, ◌+◌, ◌^◌, [], ◌∷◌, ◌++◌, length, map, Some, slice_get, IfOk, OnOk, OnErr};
ghost use Rattle.pv_token.specs.Said.{as_char};
ghost use Rattle.pv_token.specs.Views.{said_of};
ghost use Rattle.pv_token.specs.Short.{AreShort, token_of};
ghost use Rattle.pv_token.specs.Table.{Table};
ghost use Rattle.pv_token.specs.TableParts.{with_name};
ghost use Rattle.pv_token.specs.Kept.{HasRoom, Adds, Keeps};

use crate::NoMemory;
use crate::kinds::Kind;
use crate::marks::Mark;
use crate::short::{ShortToken, kind_of, short_kind};
use crate::words::Word;
use indexmap::IndexSet;
use std::alloc::Global;
use std::marker::Model;

/// What a token is (C17 6.4p1).
#[derive(Clone, Copy, Debug)]
pub enum TokenKind {
    /// A keyword (C17 6.4.1).
    Word(Word),
    /// An identifier (C17 6.4.2), by the number of its name: equal identifiers have one number,
    /// from 0 in the order of their first places.
    Name(u32),
    /// An integer constant (C17 6.4.4.1): its value, and what its type depends on. `decimal`:
    /// its base is 10. `unsigned`: it has a suffix `u` or `U`. `longs`: 1 with a suffix `l` or
    /// `L`, 2 with `ll` or `LL`, else 0.
    Number {
        value: u64,
        decimal: bool,
        unsigned: bool,
        longs: u8,
    },
    /// A character constant (C17 6.4.4.4), by its value of type `int`, from -128 to 127.
    Character(i32),
    /// A string literal (C17 6.4.5), by its number: each has one of its own, from 0 in order.
    Text(u32),
    /// A punctuator (C17 6.4.6). A digraph is its twin.
    Mark(Mark),
}

/// A token of the source.
#[derive(Clone, Copy)]
pub struct Token {
    pub kind: TokenKind,
    /// The place of its first byte, in bytes from 0.
    pub start: u32,
    /// The number of the line of its first byte, from 1, as line markers set it (C17 6.10.4).
    pub line: u32,
}

/// The tokens of a source, with the names and the string literals that they stand for. Each token takes 16 bytes; the
/// values of integer constants from 2^32 on stand in a list of their own.
#[derive(Drop)]
pub struct Tokens {
    tokens: Vec<ShortToken>,
    values: Vec<u64>,
    names: IndexSet<Vec<u8>>,
    texts: Vec<Vec<u8>>,
}

impl Model for Tokens {
    ghost Value = { Table };

    ghost invariant = { λ t. AreShort t.values.items t.tokens.items × (length t.names.keys < 2 ^ 32) × (length t.texts.items < 2 ^ 32) };

    ghost view = { λ t. record { tokens = map (token_of t.values.items) t.tokens.items; names = map (λ v. v.items) t.names.keys; texts = map (λ v. v.items) t.texts.items } };
}

/// The number of a name: that of an equal one, or the next. A name that is known takes no memory.
fn intern(alloc: Global, names: &mut IndexSet<Vec<u8>>, text: &[u8]) -> Result<u32, NoMemory>
    requires { length names.old.keys + 1 < 2 ^ 32 }
    ensures keys { OnOk result (map (λ v. v.items) names.new.keys ≡ with_name (map (λ v. v.items) names.old.keys) text.now) }
    ensures number { IfOk result (λ n. slice_get (map (λ v. v.items) names.new.keys) n ≡ Some text.now) }
    ensures room { length names.new.keys ≤ length names.old.keys + 1 }
    ensures unchanged { OnErr result (names.new.keys ≡ names.old.keys) }
{
    if let Some(index) = names.get_index_of(text) {
        return Ok(index as u32);
    }
    let name = Vec::from_slice(alloc, text)?;
    let (index, _) = names.insert_full(name)?;
    Ok(index as u32)
}

/// Keeps the bytes of a string literal, under the next number.
fn keep_text(texts: &mut Vec<Vec<u8>>, bytes: Vec<u8>) -> Result<u32, NoMemory>
    requires { length texts.old.items + 1 < 2 ^ 32 }
    ensures items { OnOk result (map (λ v. v.items) texts.new.items ≡ map (λ v. v.items) texts.old.items ++ bytes.items ∷ []) }
    ensures number { IfOk result (λ n. n ≡ length (map (λ v. v.items) texts.old.items)) }
    ensures room { length texts.new.items ≤ length texts.old.items + 1 }
    ensures unchanged { OnErr result (texts.new.items ≡ texts.old.items) }
{
    let index = texts.len();
    texts.push(bytes)?;
    Ok(index as u32)
}

/// What a token is, its name or its literal kept under a number. The only error is want of memory, which keeps neither.
#[inline(always)]
fn keep(
    alloc: Global,
    names: &mut IndexSet<Vec<u8>>,
    texts: &mut Vec<Vec<u8>>,
    kind: Kind<'_>,
) -> Result<TokenKind, NoMemory>
    requires names { length names.old.keys + 1 < 2 ^ 32 }
    requires texts { length texts.old.items + 1 < 2 ^ 32 }
    ensures kept { IfOk result (λ k. Keeps (map (λ v. v.items) names.old.keys) (map (λ v. v.items) names.new.keys)
        (map (λ v. v.items) texts.old.items) (map (λ v. v.items) texts.new.items) k (said_of kind.entry)) }
    ensures names_room { length names.new.keys ≤ length names.old.keys + 1 }
    ensures texts_room { length texts.new.items ≤ length texts.old.items + 1 }
    ensures names_unchanged { OnErr result (names.new.keys ≡ names.old.keys) }
    ensures texts_unchanged { OnErr result (texts.new.items ≡ texts.old.items) }
{
    match kind {
        Kind::Keyword(w) => Ok(TokenKind::Word(w)),
        Kind::Punctuator(m) => Ok(TokenKind::Mark(m)),
        Kind::Character(b) => Ok(TokenKind::Character(as_char(b))),
        Kind::Number {
            value,
            decimal,
            unsigned,
            longs,
        } => Ok(TokenKind::Number {
            value,
            decimal,
            unsigned,
            longs,
        }),
        Kind::Name(text) => Ok(TokenKind::Name(intern(alloc, names, text)?)),
        Kind::Text(bytes) => Ok(TokenKind::Text(keep_text(texts, bytes)?)),
    }
}

/// A byte taken as a `char`, which is signed here, in the type of a character constant
/// (C17 6.4.4.4p10).
fn as_char(b: u8) -> i32
    ensures { result ≡ as_char b }
{
    if b < 128 { b as i32 } else { b as i32 - 256 }
}

impl Tokens {
    /// No tokens, which take no memory.
    pub fn new(alloc: Global) -> Tokens
        ensures { result ≡ record { tokens = []; names = []; texts = [] } }
    {
        Tokens {
            tokens: Vec::new(alloc),
            values: Vec::new(alloc),
            names: IndexSet::new(alloc),
            texts: Vec::new(alloc),
        }
    }

    /// No tokens, with room for so many, so that a table whose greatest length is known is not moved as it grows. The only
    /// error is want of memory.
    pub fn with_room(alloc: Global, count: usize) -> Result<Tokens, NoMemory>
        ensures { IfOk result (λ t. t ≡ record { tokens = []; names = []; texts = [] }) }
    {
        Ok(Tokens {
            tokens: Vec::with_capacity(alloc, count)?,
            values: Vec::new(alloc),
            names: IndexSet::new(alloc),
            texts: Vec::new(alloc),
        })
    }

    /// Keeps a token, and the name or the string literal that it stands for. The only error is want of memory, which
    /// changes nothing.
    #[inline(always)]
    pub fn add_token(
        &mut self,
        alloc: Global,
        kind: Kind<'_>,
        start: u32,
        line: u32,
    ) -> Result<(), NoMemory>
        requires { HasRoom self.old }
        ensures told { OnOk result (Adds self.old self.new (record { said = said_of kind.entry; start = start; line = line } ∷ [])) }
        ensures unchanged { OnErr result (self.new ≡ self.old) }
    {
        self.tokens.reserve(1)?;
        self.values.reserve(1)?;
        let kind = keep(alloc, &mut self.names, &mut self.texts, kind)?;
        let short = short_kind(&mut self.values, kind);
        self.tokens.push_reserved(ShortToken {
            kind: short,
            start,
            line,
        });
        Ok(())
    }

    /// How many tokens there are (C17 6.4p1).
    pub fn len(&self) -> u32
        ensures { result ≡ length self.now.tokens }
    {
        self.tokens.len() as u32
    }

    /// Token number `i`, from 0 in the order of the source (C17 6.4p1). It is unpacked where it is looked at.
    #[inline(always)]
    pub fn at(&self, i: u32) -> Token
        requires { i < length self.now.tokens }
        ensures { slice_get self.now.tokens i ≡ Some result }
    {
        let token = self.tokens[i as usize];
        Token {
            kind: kind_of(self.values.as_slice(), token.kind),
            start: token.start,
            line: token.line,
        }
    }

    /// How many names there are: names have the numbers below it.
    pub fn names_len(&self) -> u32
        ensures { result ≡ length self.now.names }
    {
        self.names.len() as u32
    }

    /// The bytes of name number `n` (C17 6.4.2.1).
    pub fn name(&self, n: u32) -> &[u8]
        requires { n < length self.now.names }
        ensures { slice_get self.now.names n ≡ Some result.now }
    {
        self.names.get_index(n as usize).unwrap().as_slice()
    }

    /// How many string literals there are: they have the numbers below it.
    pub fn texts_len(&self) -> u32
        ensures { result ≡ length self.now.texts }
    {
        self.texts.len() as u32
    }

    /// The bytes of string literal number `n`, its escapes decoded, without the zero behind them
    /// (C17 6.4.5p6).
    pub fn text(&self, n: u32) -> &[u8]
        requires { n < length self.now.texts }
        ensures { slice_get self.now.texts n ≡ Some result.now }
    {
        self.texts[n as usize].as_slice()
    }
}
