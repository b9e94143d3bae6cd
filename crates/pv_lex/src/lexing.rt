//! From the bytes of a source to its tokens.
ghost use Rattle.std.specs.Prelude.{◌≡◌, ◌++◌, [], Bool, ◌≤◌, ◌<◌, ◌^◌, length, IfOk, OnOk, IfErr, List, ℕ, ◌⊎◌, true, false, Some};
ghost use Rattle.pv_lex.specs.Rows.{Place, Row, start, bytes_of_row, line_behind, fresh_behind, spelt_here};
ghost use Rattle.pv_token.specs.Table.{Table};
ghost use Rattle.pv_token.specs.Kept.{HasRoom, KnowsAll, Adds};
ghost use Rattle.pv_lex.specs.Lexes.{Lexes};
ghost use Rattle.pv_lex.specs.declared.error.LexError.{LexError};
ghost use Rattle.pv_lex.specs.Faults.{LexFault, IsFaultOf, HasBadByte};
ghost use Rattle.pv_lex.specs.Views.{LiesWithin, error_of, what_of};
ghost use Rattle.pv_lex.specs.Pieces.{Piece, Here, Spelling};
ghost use Rattle.pv_token.specs.Said.{Punctuator};
ghost use Rattle.pv_token.specs.Views.{said_of};
ghost use Rattle.pv_lex.specs.Stands.{stands};
ghost use Rattle.pv_lex.specs.Spellings.{IsSpelling, IsLongest};

use crate::bytes::{Class, is_in};
use crate::error::LexError;
use crate::pieces::{Fault, Found, Standing, lone_mark, word_token};
use crate::standing::stand;
use pv_token::{Kind, Mark, NoMemory, Tokens};
use std::alloc::Global;

/// The error that reports a fault at this place.
fn error_at(fault: Fault, at: u32) -> LexError
    ensures { result ≡ error_of fault at }
{
    match fault {
        Fault::BadByte => LexError::BadByte { at },
        Fault::BadToken => LexError::BadToken { at },
        Fault::Profile(word) => LexError::Profile { at, word },
    }
}

/// The number of the line behind a piece (C17 6.10.4p2 and p3).
pub fn line_behind(found: &Found<'_>, line: u32) -> u32
    requires { line_behind (what_of found.now) line < 2 ^ 32 }
    ensures { result ≡ line_behind (what_of found.now) line }
{
    match found {
        Found::White(b) => if *b == b'\n' { line + 1 } else { line },
        Found::Comment(lines) => line + *lines,
        Found::Marker(number) => *number,
        Found::Spelling(_) => line,
    }
}

/// Do only spaces and tabs stand before the place behind a piece, on its line (C17 6.10p2)?
pub fn fresh_behind(found: &Found<'_>, fresh: bool) -> bool
    ensures { result ≡ fresh_behind (what_of found.now) fresh }
{
    match found {
        Found::White(b) => *b == b'\n' || (fresh && is_in(Class::Blank, *b)),
        Found::Comment(_) => false,
        Found::Marker(_) => true,
        Found::Spelling(_) => false,
    }
}

/// Takes a piece in: a token is kept, and any other piece is not.
fn add(
    tokens: &mut Tokens,
    alloc: Global,
    found: Found<'_>,
    start: u32,
    line: u32,
) -> Result<(), NoMemory>
    requires { HasRoom tokens.old }
    ensures { OnOk result (Adds tokens.old tokens.new (spelt_here start line (what_of found.entry))) }
{
    match found {
        Found::White(_) => Ok(()),
        Found::Comment(_) => Ok(()),
        Found::Marker(_) => Ok(()),
        Found::Spelling(kind) => tokens.add_token(alloc, kind, start, line),
    }
}

/// Takes a punctuator in.
fn add_mark(
    tokens: &mut Tokens,
    alloc: Global,
    mark: Mark,
    start: u32,
    line: u32,
) -> Result<(), NoMemory>
    requires { HasRoom tokens.old }
    ensures { OnOk result (Adds tokens.old tokens.new (spelt_here start line (Spelling (Punctuator mark)))) }
{
    tokens.add_token(alloc, Kind::Punctuator(mark), start, line)
}

/// Takes a word in.
fn add_word(
    tokens: &mut Tokens,
    alloc: Global,
    word: Kind<'_>,
    start: u32,
    line: u32,
) -> Result<(), NoMemory>
    requires { HasRoom tokens.old }
    ensures { OnOk result (Adds tokens.old tokens.new (spelt_here start line (Spelling (said_of word.entry)))) }
{
    tokens.add_token(alloc, word, start, line)
}

/// The tokens of a source, or its first fault. A source is cut from its first byte on into pieces,
/// each the longest that begins where the one before it ends (C17 6.4p4).
///
/// A source has exactly one of the two (`exactly_one`), and one table of tokens at most, so that
/// the answer is the source's, unless memory runs out.
pub fn tokens(alloc: Global, bytes: &[u8]) -> Result<Tokens, LexError>
    requires { length bytes.now ≤ 2 ^ 20 }
    ensures whole { IfOk result (λ t. Lexes bytes.now t) }
    ensures fault { IfErr result (λ e. LexFault bytes.now e) }

    // A caller may cut the word of a fault out of the source without a test.
    ensures within { IfErr result (λ e. LiesWithin bytes.now e) }

    // A token's number may be given to `name` or `text`, and there are no more tokens than bytes.
    ensures known { IfOk result KnowsAll }
    ensures count { IfOk result (λ t. length t.tokens ≤ length bytes.now) }
{
    let mut out = Tokens::with_room(alloc, bytes.len())?;
    cut(alloc, bytes, &mut out)?;
    Ok(out)
}

/// Cuts a source into its pieces, and keeps the tokens among them in a table that has none yet. Most punctuators are one
/// byte that tells by itself what stands there; these and words are looked for first.
fn cut(alloc: Global, bytes: &[u8], out: &mut Tokens) -> Result<(), LexError>
    requires short { length bytes.now ≤ 2 ^ 20 }
    requires empty { out.old ≡ record { tokens = []; names = []; texts = [] } }
    ensures whole { OnOk result (Lexes bytes.now out.new) }
    ensures fault { IfErr result (λ e. LexFault bytes.now e) }
    ensures within { IfErr result (λ e. LiesWithin bytes.now e) }
    ensures known { OnOk result (KnowsAll out.new) }
    ensures count { OnOk result (length out.new.tokens ≤ length bytes.now) }
{
    let mut rest = bytes;
    let mut line = 1u32;
    let mut fresh = true;
    'pieces: loop {
        let at = (bytes.len() - rest.len()) as u32;
        if let Some((mark, after)) = lone_mark(rest) {
            add_mark(out, alloc, mark, at, line)?;
            fresh = false;
            rest = after;
            continue;
        }
        if let Some((word, behind)) = word_token(rest) {
            add_word(out, alloc, word, at, line)?;
            fresh = false;
            rest = behind;
            continue;
        }
        match stand(alloc, fresh, rest)? {
            Standing::End => return Ok(()),
            Standing::Bad(fault) => return Err(error_at(fault, at)),
            Standing::Here(found, after) => {
                let next_line = line_behind(&found, line);
                let next_fresh = fresh_behind(&found, fresh);
                add(out, alloc, found, at, line)?;
                line = next_line;
                fresh = next_fresh;
                rest = after;
            }
        }
    }
}

/// A law, and no work: each source has tokens or a fault and never both, one table of tokens at
/// most, and one fault at most.
pub fn exactly_one()
    ensures either_one { (source : List ℕ) → ((t : Table) × Lexes source t) ⊎ ((e : LexError) × IsFaultOf source e) }
    ensures not_both { (source : List ℕ) (t : Table) (e : LexError) → Lexes source t → IsFaultOf source e → ⊥ }
    ensures one_table { (source : List ℕ) (t u : Table) → Lexes source t → Lexes source u → t ≡ u }
    ensures one_fault { (source : List ℕ) (e g : LexError) → IsFaultOf source e → IsFaultOf source g → e ≡ g }
{}

/// A law, and no work: the pieces of a cut make up the source byte for byte, each is the longest
/// spelling of any kind that begins at its place (C17 6.4p4), and where a byte is bad no spelling
/// begins.
pub fn longest()
    ensures pieces { (fresh : Bool) (text : List ℕ) (x : Piece) → stands fresh text ≡ Here x → IsLongest fresh text x }
    ensures whole { (source : List ℕ) (xs : List Piece) (q : Place) → Row (start source) xs q → bytes_of_row source xs ++ q.text ≡ source }
    ensures bad_byte { (fresh : Bool) (text : List ℕ) → HasBadByte fresh text → (bytes rest : List ℕ) → text ≡ bytes ++ rest → IsSpelling fresh bytes → ⊥ }
{}
