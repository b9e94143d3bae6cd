//! What the tokens from a place are, as far as that takes no expression to be read.
ghost use Rattle.std.specs.Prelude.{◌≡◌, ◌<◌, ◌≤◌, ◌+◌, ◌^◌, [], ◌∷◌, length, drop, Some, None, MatchOption, true, nat_eq};
ghost use Rattle.indexmap.specs.IndexSet.{contains};
ghost use Rattle.pv_tree.specs.Grammar.{line_here};
ghost use Rattle.pv_tree.specs.Spells.{begins_specifiers, begins_type};
ghost use Rattle.pv_tree.specs.Tables.{Tables};
ghost use Rattle.pv_tree.specs.TypeNames.{TypeMap};
ghost use Rattle.pv_expr_forms.specs.Reader.{is_open, is_close, is_bracket, is_colon, is_comma, after, texts_in_row, opens_type};
ghost use Rattle.pv_expr_forms.specs.Answers.{IsFound, IsBehind};
ghost use Rattle.pv_expr_forms.specs.Known.{names_in};
ghost use Rattle.pv_expr_forms.specs.Parts.{is_text_next, measures_type, name_next, name_of_kind};

use indexmap::IndexSet;
use pv_token::{Mark, Token, TokenKind, Tokens, Word};

/// The token at a place, unless the tokens end there. What of it isn't looked at isn't unpacked.
#[inline(always)]
pub fn peek(tokens: &Tokens, at: u32) -> Option<Token>
    requires { at ≤ length tokens.now.tokens }
    ensures { MatchOption result (drop at tokens.now.tokens ≡ []) (λ t. (drop at tokens.now.tokens ≡ t ∷ drop (at + 1) tokens.now.tokens) × (at < length tokens.now.tokens) × (at + 1 < 2 ^ 32)) }
{
    if at < tokens.len() {
        Some(tokens.at(at))
    } else {
        None
    }
}

/// The line of the token at a place, or 0 where the tokens end.
pub fn line_at(tokens: &Tokens, at: u32) -> u32
    requires { at ≤ length tokens.now.tokens }
    ensures { result ≡ line_here (drop at tokens.now.tokens) }
{
    match peek(tokens, at) {
        Some(token) => token.line,
        None => 0,
    }
}

/// Whether a token is `(`.
pub fn is_open(kind: TokenKind) -> bool
    ensures { result ≡ is_open kind }
{
    matches!(kind, TokenKind::Mark(Mark::OpenParen))
}

/// Whether a token is `)`.
pub fn is_close(kind: TokenKind) -> bool
    ensures { result ≡ is_close kind }
{
    matches!(kind, TokenKind::Mark(Mark::CloseParen))
}

/// Whether a token is `,`.
pub fn is_comma(kind: TokenKind) -> bool
    ensures { result ≡ is_comma kind }
{
    matches!(kind, TokenKind::Mark(Mark::Comma))
}

/// Whether a token is `]`.
fn is_bracket(kind: TokenKind) -> bool
    ensures { result ≡ is_bracket kind }
{
    matches!(kind, TokenKind::Mark(Mark::CloseBracket))
}

/// Whether a token is `:`.
fn is_colon(kind: TokenKind) -> bool
    ensures { result ≡ is_colon kind }
{
    matches!(kind, TokenKind::Mark(Mark::Colon))
}

/// The place behind a `)`.
pub fn after_close(tokens: &Tokens, at: u32) -> Option<u32>
    requires { at ≤ length tokens.now.tokens }
    ensures { IsBehind tokens.now.tokens result (after is_close (drop at tokens.now.tokens)) }
{
    match peek(tokens, at) {
        Some(token) if is_close(token.kind) => Some(at + 1),
        _ => None,
    }
}

/// The place behind a `]`.
pub fn after_bracket(tokens: &Tokens, at: u32) -> Option<u32>
    requires { at ≤ length tokens.now.tokens }
    ensures { IsBehind tokens.now.tokens result (after is_bracket (drop at tokens.now.tokens)) }
{
    match peek(tokens, at) {
        Some(token) if is_bracket(token.kind) => Some(at + 1),
        _ => None,
    }
}

/// The place behind a `:`.
pub fn after_colon(tokens: &Tokens, at: u32) -> Option<u32>
    requires { at ≤ length tokens.now.tokens }
    ensures { IsBehind tokens.now.tokens result (after is_colon (drop at tokens.now.tokens)) }
{
    match peek(tokens, at) {
        Some(token) if is_colon(token.kind) => Some(at + 1),
        _ => None,
    }
}

/// Whether the string literal of a number stands at a place.
fn is_text_next(tokens: &Tokens, at: u32, number: u64) -> bool
    requires { at ≤ length tokens.now.tokens }
    ensures is { result ≡ is_text_next number (drop at tokens.now.tokens) }
    ensures room { result ≡ true → at + 1 < 2 ^ 32 }
{
    match peek(tokens, at) {
        Some(
            Token {
                kind: TokenKind::Text(n),
                ..
            },
        ) => n as u64 == number,
        _ => false,
    }
}

/// How many string literals stand in a row behind the one of number `first`, which ends at `at`,
/// and the place behind them (C17 6.4.5p5).
pub fn texts_in_row(tokens: &Tokens, at: u32, first: u32) -> (u32, u32)
    requires { at ≤ length tokens.now.tokens }
    ensures count { result.0 ≡ texts_in_row (first + 1) (drop at tokens.now.tokens) }
    ensures behind { drop result.1 tokens.now.tokens ≡ drop result.0 (drop at tokens.now.tokens) }
    ensures place { result.1 ≤ length tokens.now.tokens }
{
    let mut more = 0;
    let mut next = at;
    while is_text_next(tokens, next, first as u64 + 1 + more as u64) {
        more += 1;
        next += 1;
    }
    (more, next)
}

/// Whether a keyword begins specifiers (C17 6.7p1).
fn begins_specifiers(word: Word) -> bool
    ensures { result ≡ begins_specifiers word }
{
    match word {
        Word::Typedef | Word::Extern | Word::Static | Word::Const => true,
        Word::Void | Word::Char | Word::Short | Word::Int | Word::Long => true,
        Word::Signed | Word::Unsigned | Word::Bool => true,
        Word::Struct | Word::Union | Word::Enum => true,
        _ => false,
    }
}

/// Whether a name is a typedef name.
pub fn is_type(typedefs: &IndexSet<u32>, name: u32) -> bool
    ensures { result ≡ contains nat_eq typedefs.now name }
{
    typedefs.contains(&name)
}

/// The name that a token is, where it is no typedef name.
fn name_of_kind(typedefs: &IndexSet<u32>, kind: TokenKind) -> Option<u32>
    ensures { result ≡ name_of_kind (contains nat_eq typedefs.now) kind }
{
    match kind {
        TokenKind::Name(name) if !is_type(typedefs, name) => Some(name),
        _ => None,
    }
}

/// The name at a place, where it is no typedef name, and the place behind it.
#[tactic(auto, unfolding(crate::specs::Parts::name_next))]
pub fn name_next(tokens: &Tokens, typedefs: &IndexSet<u32>, at: u32) -> Option<(u32, u32)>
    requires { at ≤ length tokens.now.tokens }
    ensures { IsFound tokens.now.tokens result (name_next (contains nat_eq typedefs.now) (drop at tokens.now.tokens)) }
{
    let Some(token) = peek(tokens, at) else {
        return None;
    };
    match name_of_kind(typedefs, token.kind) {
        Some(name) => Some((name, at + 1)),
        None => None,
    }
}

/// Whether a type name begins at a place.
#[inline(always)]
#[tactic(auto, unfolding(crate::specs::Known::names_in, pv_tree::specs::TypeNames::names_of))]
pub fn begins_type(tokens: &Tokens, typedefs: &IndexSet<u32>, at: u32) -> bool
    requires { at ≤ length tokens.now.tokens }
    ensures { (types : TypeMap) (u : Tables) → result ≡ begins_type (names_in typedefs.now types u tokens.now.tokens) (drop at tokens.now.tokens) }
{
    match peek(tokens, at) {
        Some(token) => match token.kind {
            TokenKind::Name(name) => is_type(typedefs, name),
            TokenKind::Word(word) => begins_specifiers(word),
            _ => false,
        },
        None => false,
    }
}

/// Whether a parenthesis opens at a place, and a type name begins behind it.
fn opens_type(tokens: &Tokens, typedefs: &IndexSet<u32>, at: u32) -> bool
    requires { at ≤ length tokens.now.tokens }
    ensures is { (types : TypeMap) (u : Tables) → result ≡ opens_type (names_in typedefs.now types u tokens.now.tokens) (drop at tokens.now.tokens) }
    ensures place { result ≡ true → at + 1 ≤ length tokens.now.tokens }
    ensures room { result ≡ true → at + 1 < 2 ^ 32 }
{
    match peek(tokens, at) {
        Some(token) => is_open(token.kind) && begins_type(tokens, typedefs, at + 1),
        None => false,
    }
}

/// Whether a token is `sizeof`, and a type name in parentheses follows it (C17 6.5.3.4).
pub fn measures_type(tokens: &Tokens, typedefs: &IndexSet<u32>, kind: TokenKind, at: u32) -> bool
    requires { at ≤ length tokens.now.tokens }
    ensures is { (types : TypeMap) (u : Tables) → result ≡ measures_type (names_in typedefs.now types u tokens.now.tokens) kind (drop at tokens.now.tokens) }
    ensures place { result ≡ true → at + 1 ≤ length tokens.now.tokens }
    ensures room { result ≡ true → at + 1 < 2 ^ 32 }
{
    matches!(kind, TokenKind::Word(Word::Sizeof)) && opens_type(tokens, typedefs, at)
}
