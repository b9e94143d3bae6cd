//! Words and punctuators, and what may stand at a place of the source.
ghost use Rattle.std.specs.Prelude.{◌≡◌, ◌≤◌, ◌^◌, ◌&&◌, ◌∷◌, ℕ, Bool, List, length, IfSome};
ghost use Rattle.std.specs.Option.{option_map};
ghost use Rattle.pv_lex.specs.Bytes.{begins};
ghost use Rattle.pv_lex.specs.Tables.{first_row, row_of};
ghost use Rattle.pv_lex.specs.Words.{words, is_wide, is_quote, word_at};
ghost use Rattle.pv_lex.specs.Marks.{marks, mark_at};
ghost use Rattle.pv_lex.specs.Pieces.{Here, token};
ghost use Rattle.pv_token.specs.Said.{Punctuator};
ghost use Rattle.pv_token.specs.Views.{said_of};
ghost use Rattle.pv_lex.specs.Stands.{stands};
ghost use Rattle.pv_lex.specs.Views.{stand_of};

use crate::bytes::{Class, behind, is_letter, is_white, run};
use crate::tables::{first_row, row_of};
use crate::{marks, words};
use pv_token::{Kind, Mark, Word};

/// Why no piece begins at a place.
#[derive(Clone, Copy)]
pub enum Fault {
    /// No token begins with this byte (C17 6.4p1).
    BadByte,
    /// What begins as a token is none (C17 6.4p2).
    BadToken,
    /// A word that the profile leaves out, of so many bytes (C17 6.4.1p1).
    Profile(u32),
}

/// What a piece is.
#[derive(Drop)]
pub enum Found<'a> {
    /// A byte of white space (C17 6.4p3).
    White(u8),
    /// A comment with so many line feeds in it (C17 6.4.9).
    Comment(u32),
    /// A marker that numbers the next line (C17 6.10.4p3).
    Marker(u32),
    /// A token (C17 6.4p1).
    Spelling(Kind<'a>),
}

/// What stands at a place: the end, a fault, or a piece and what is left behind it (C17 6.4p4).
#[derive(Drop)]
pub enum Standing<'a> {
    /// The end of the source.
    End,
    /// No piece begins here.
    Bad(Fault),
    /// The piece that stands here, and the source behind it.
    Here(Found<'a>, &'a [u8]),
}

/// The prefixes of wide and Unicode literals (C17 6.4.4.4p1, 6.4.5p1).
fn is_wide(word: &[u8]) -> bool
    ensures { result ≡ is_wide word.now }
{
    word == b"L".as_slice()
        || word == b"u".as_slice()
        || word == b"U".as_slice()
        || word == b"u8".as_slice()
}

/// Is a word the prefix of the literal that follows it? Few words stand before a quote, which is looked for first.
fn is_prefix(word: &[u8], after: &[u8]) -> bool
    ensures { result ≡ (is_wide word.now && begins is_quote after.now) }
{
    if !begins_quote(after) {
        return false;
    }
    is_wide(word)
}

/// Does a literal begin here?
fn begins_quote(text: &[u8]) -> bool
    ensures { result ≡ begins is_quote text.now }
{
    !text.is_empty() && (text[0] == b'"' || text[0] == b'\'')
}

/// A keyword or a name at the front (C17 6.4.1, 6.4.2). What is made of it is known where this is called.
#[inline(always)]
#[tactic(auto, unfolding(crate::specs::Words::word_at))]
pub(crate) fn word(text: &[u8]) -> Standing<'_>
    requires { length text.now ≤ 2 ^ 20 }
    ensures { stand_of result ≡ word_at text.now }
{
    let (word, after) = text.split_at(run(Class::Word, text));
    if is_prefix(word, after) {
        return Standing::Bad(Fault::Profile(word.len() as u32));
    }
    match keyword(word) {
        None => Standing::Here(Found::Spelling(Kind::Name(word)), after),
        Some(None) => Standing::Bad(Fault::Profile(word.len() as u32)),
        Some(Some(w)) => Standing::Here(Found::Spelling(Kind::Keyword(w)), after),
    }
}

/// A keyword of the profile or a name at the front, and what is left behind it (C17 6.4.1, 6.4.2).
pub(crate) fn word_token(text: &[u8]) -> Option<(Kind<'_>, &[u8])>
    requires { length text.now ≤ 2 ^ 20 }
    ensures { IfSome result (λ r. (fresh : Bool) → stands fresh text.now ≡ Here (token (said_of r.0) r.1.now)) }
{
    if text.is_empty() {
        return None;
    }
    if is_white(text[0]) {
        return None;
    }
    if !is_letter(text[0]) {
        return None;
    }
    let Standing::Here(found, after) = word(text) else {
        return None;
    };
    let Found::Spelling(kind) = found else {
        return None;
    };
    Some((kind, after))
}

/// The keyword of this spelling, `Some(None)` for one that the profile leaves out. Its first byte decides which it may be.
fn keyword(word: &[u8]) -> Option<Option<Word>>
    ensures { result ≡ row_of words word.now }
{
    if word.is_empty() {
        return None;
    }
    match word[0] {
        b'_' => row_of(&words::UNDER_UNDERSCORE, word),
        b'a' => row_of(&words::UNDER_A, word),
        b'b' => row_of(&words::UNDER_B, word),
        b'c' => row_of(&words::UNDER_C, word),
        b'd' => row_of(&words::UNDER_D, word),
        b'e' => row_of(&words::UNDER_E, word),
        b'f' => row_of(&words::UNDER_F, word),
        b'g' => row_of(&words::UNDER_G, word),
        b'i' => row_of(&words::UNDER_I, word),
        b'l' => row_of(&words::UNDER_L, word),
        b'r' => row_of(&words::UNDER_R, word),
        b's' => row_of(&words::UNDER_S, word),
        b't' => row_of(&words::UNDER_T, word),
        b'u' => row_of(&words::UNDER_U, word),
        b'v' => row_of(&words::UNDER_V, word),
        b'w' => row_of(&words::UNDER_W, word),
        _ => None,
    }
}

/// The punctuator that a byte is by itself, where no other one and nothing else begins with that byte (C17 6.4.6).
fn lone(b: u8) -> Option<Mark>
    ensures { IfSome result (λ m. (fresh : Bool) (rest : List ℕ) → stands fresh (b ∷ rest) ≡ Here (token (Punctuator m) rest)) }
{
    match b {
        b'[' => Some(Mark::OpenBracket),
        b']' => Some(Mark::CloseBracket),
        b'(' => Some(Mark::OpenParen),
        b')' => Some(Mark::CloseParen),
        b'{' => Some(Mark::OpenBrace),
        b'}' => Some(Mark::CloseBrace),
        b'~' => Some(Mark::Tilde),
        b'?' => Some(Mark::Question),
        b';' => Some(Mark::Semicolon),
        b',' => Some(Mark::Comma),
        _ => None,
    }
}

/// Such a punctuator at the front, and what is left behind it.
pub(crate) fn lone_mark(text: &[u8]) -> Option<(Mark, &[u8])>
    ensures { IfSome result (λ r. (fresh : Bool) → stands fresh text.now ≡ Here (token (Punctuator r.0) r.1.now)) }
{
    if text.is_empty() {
        return None;
    }
    let Some(mark) = lone(text[0]) else {
        return None;
    };
    Some((mark, behind(text, 1)))
}

/// The longest punctuator at the front, with its length. Its first byte decides which it may be.
fn front_mark(text: &[u8]) -> Option<(usize, Mark)>
    ensures row { result ≡ option_map (λ r. (length r.0, r.1)) (first_row marks text.now) }
    ensures within { IfSome result (λ r. r.0 ≤ length text.now) }
{
    if text.is_empty() {
        return None;
    }
    match text[0] {
        b'[' => Some((1, Mark::OpenBracket)),
        b']' => Some((1, Mark::CloseBracket)),
        b'(' => Some((1, Mark::OpenParen)),
        b')' => Some((1, Mark::CloseParen)),
        b'{' => Some((1, Mark::OpenBrace)),
        b'}' => Some((1, Mark::CloseBrace)),
        b'~' => Some((1, Mark::Tilde)),
        b'?' => Some((1, Mark::Question)),
        b';' => Some((1, Mark::Semicolon)),
        b',' => Some((1, Mark::Comma)),
        b'.' => first_row(&marks::DOT, text),
        b'<' => first_row(&marks::LESS, text),
        b'>' => first_row(&marks::GREATER, text),
        b'-' => first_row(&marks::MINUS, text),
        b'+' => first_row(&marks::PLUS, text),
        b'=' => first_row(&marks::EQUAL, text),
        b'!' => first_row(&marks::NOT, text),
        b'&' => first_row(&marks::AND, text),
        b'|' => first_row(&marks::OR, text),
        b'*' => first_row(&marks::STAR, text),
        b'/' => first_row(&marks::SLASH, text),
        b'%' => first_row(&marks::PERCENT, text),
        b'^' => first_row(&marks::CARET, text),
        b':' => first_row(&marks::COLON, text),
        _ => None,
    }
}

/// A punctuator at the front (C17 6.4.6).
#[tactic(auto, unfolding(crate::specs::Marks::mark_at))]
pub(crate) fn mark(text: &[u8]) -> Standing<'_>
    ensures { stand_of result ≡ mark_at text.now }
{
    match front_mark(text) {
        None => Standing::Bad(Fault::BadByte),
        Some((len, mark)) => Standing::Here(Found::Spelling(Kind::Punctuator(mark)), &text[len..]),
    }
}
