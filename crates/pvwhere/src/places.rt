//! Where a refusal is (C17 5.1.1.3).
ghost use Rattle.std.specs.Prelude.{◌≡◌, ◌^◌, ◌≤◌, ℕ, List, length, drop, IfOk};
ghost use Rattle.pv_token.specs.Kept.{IsKnown, KnowsAll};
ghost use Rattle.pv_lex.specs.Lexes.{Lexes};
ghost use Rattle.pv_serve.specs.Verdicts.{Refusal};
ghost use Rattle.pv_serve.specs.Loading.{refusal_of, lexical_refusal, typing_refusal};
ghost use Rattle.pvwhere.specs.Places as specified;
ghost use Rattle.pvwhere.specs.Places.{IsPlace, IsRefused, StandsBehind, IsFirstNamed, SomePlace};
ghost use Rattle.pvwhere.specs.Answering.{BeginsWith};

use pv_lex::{LexError, TokenKind, Tokens, tokens};
use pv_serve::{NoMemory, Refused};
use pv_stmt::begins;
use pv_unit::CheckError;
use std::alloc::Global;

// The most bytes that a source may have.
pub const SOURCE_LIMIT: usize = 1_048_576;

/// The first bytes of a source, as many as one may have.
pub(crate) fn first_bytes(source: &[u8]) -> &[u8]
    ensures first { result.now ≡ specified.first_bytes source.now }
    ensures short { length result.now ≤ 2 ^ 20 }
{
    if source.len() <= SOURCE_LIMIT {
        source
    } else {
        &source[..SOURCE_LIMIT]
    }
}

/// The place of a refusal among the first bytes of the source that is refused, counted from 0. The only error is want of memory.
pub fn place(alloc: Global, source: &[u8], refused: &Refused) -> Result<usize, NoMemory>
    requires short { length source.now ≤ 2 ^ 20 }
    requires refused { IsRefused source.now (refusal_of refused.now) }
    ensures { IfOk result (λ place. IsPlace source.now (refusal_of refused.now) place) }
{
    match refused {
        Refused::Size => Ok(source.len()),
        Refused::Lex { fault, .. } => Ok(place_of_fault(source, *fault)),
        Refused::Syntax { whole } => behind(alloc, source, *whole),
        Refused::Check { fault, name } => place_in_unit(alloc, source, *fault, name.as_slice()),
    }
}

// The place of a lexical fault (C17 6.4). Want of memory is none.
fn place_of_fault(source: &[u8], fault: LexError) -> usize
    ensures { (word : List ℕ) → IsPlace source.now (lexical_refusal fault word) result }
{
    match fault {
        LexError::BadByte { at } => at as usize,
        LexError::BadToken { at } => at as usize,
        LexError::Profile { at, .. } => at as usize,
        LexError::NoMemory => source.len(),
    }
}

// The place of what keeps a unit from having a typing (C17 6.9). Want of memory is no such thing.
fn place_in_unit(
    alloc: Global,
    source: &[u8],
    fault: CheckError,
    name: &[u8],
) -> Result<usize, NoMemory>
    requires short { length source.now ≤ 2 ^ 20 }
    requires refused { IsRefused source.now (typing_refusal fault name.now) }
    ensures { IfOk result (λ place. IsPlace source.now (typing_refusal fault name.now) place) }
{
    match fault {
        CheckError::Constraint { index } => behind(alloc, source, index),
        CheckError::Unresolved { .. } => named(alloc, source, name),
        CheckError::NoMain => Ok(source.len()),
        CheckError::NoMemory => Ok(source.len()),
    }
}

// The place of what stands behind so many external declarations (C17 6.9p1).
fn behind(alloc: Global, source: &[u8], count: u32) -> Result<usize, NoMemory>
    requires short { length source.now ≤ 2 ^ 20 }
    requires begins { BeginsWith source.now count }
    ensures { IfOk result (λ place. StandsBehind source.now count place) }
{
    let tokens = lexed(alloc, source)?;
    let index = begins(alloc, &tokens, count)?.unwrap();
    Ok(start_at(&tokens, index, source.len()))
}

// The place where a name stands first (C17 6.4.2.1).
fn named(alloc: Global, source: &[u8], name: &[u8]) -> Result<usize, NoMemory>
    requires short { length source.now ≤ 2 ^ 20 }
    ensures { IfOk result (λ place. IsFirstNamed source.now name.now place) }
{
    let tokens = lexed(alloc, source)?;
    Ok(first_named(&tokens, name, source.len()))
}

// The tokens of a source that has some: it is lexed a second time, and only memory may be wanting.
fn lexed(alloc: Global, source: &[u8]) -> Result<Tokens, NoMemory>
    requires { length source.now ≤ 2 ^ 20 }
    ensures lexed { IfOk result (λ t. Lexes source.now t) }
    ensures known { IfOk result KnowsAll }
{
    match tokens(alloc, source) {
        Ok(tokens) => Ok(tokens),
        Err(_) => Err(NoMemory),
    }
}

// Where the token of this number begins; the end of the source where there is none.
fn start_at(tokens: &Tokens, index: u32, end: usize) -> usize
    ensures { result ≡ specified.start_of end (drop index tokens.now.tokens) }
{
    if index < tokens.len() {
        tokens.at(index).start as usize
    } else {
        end
    }
}

// Where the first token begins that is this identifier; the end of the source where none is.
fn first_named(tokens: &Tokens, name: &[u8], end: usize) -> usize
    requires { KnowsAll tokens.now }
    ensures { result ≡ specified.first_named end tokens.now.names name.now tokens.now.tokens }
{
    for index in 0..tokens.len() {
        let token = tokens.at(index);
        if is_named(tokens, token.kind, name) {
            return token.start as usize;
        }
    }
    end
}

// Whether a token is this identifier.
fn is_named(tokens: &Tokens, kind: TokenKind, name: &[u8]) -> bool
    requires { IsKnown tokens.now kind }
    ensures { result ≡ specified.is_named tokens.now.names name.now kind }
{
    match kind {
        TokenKind::Name(number) => tokens.name(number) == name,
        _ => false,
    }
}

/// A law: a refusal has one place, and this lies in the first bytes of the source, or at their end.
pub fn one_place()
    ensures some { (source : List ℕ) (refusal : Refusal) → IsRefused source refusal → SomePlace source refusal }
    ensures one { (source : List ℕ) (refusal : Refusal) (p q : ℕ) → IsPlace source refusal p → IsPlace source refusal q → p ≡ q }
    ensures within { (source : List ℕ) (refusal : Refusal) (place : ℕ) → IsRefused source refusal → IsPlace source refusal place → place ≤ length source }
{}
