//! What the tokens from a place are, as far as that takes no part of a declaration to be read.
ghost use Rattle.std.specs.Prelude.{◌≡◌, ◌<◌, ◌≤◌, ◌+◌, ◌^◌, Bool, Option, ℕ, List, length, drop, true, option_and_then};
ghost use Rattle.pv_token.specs.declared.token_table.Token.{Token};
ghost use Rattle.pv_expr_forms.specs.Reader.{after, is_comma};
ghost use Rattle.pv_tree.specs.Tables.{Tables};
ghost use Rattle.pv_tree.specs.TypeNames.{TypeMap};
ghost use Rattle.pv_expr_forms.specs.Known.{names_in};
ghost use Rattle.pv_expr_forms.specs.Answers.{IsBehind};
ghost use Rattle.pv_decl_forms.specs.Declarators.{consts_in_row, opens_parameters};
ghost use Rattle.pv_decl_forms.specs.Parts.{test_of, is_const_next, tag_word_of, opening_of};
ghost use Rattle.pv_decl_forms.specs.Pieces.{is_ellipsis, found_in};
ghost use Rattle.pv_decl_forms.specs.Reader.{name_of, tag_at};
ghost use Rattle.pv_decl_forms.specs.Grammar.{opens_block};

use crate::forms::{CompositeWord, Opening, Sign, TagWord};
use indexmap::IndexSet;
use pv_expr_forms::{begins_type, is_close, peek};
use pv_token::{Mark, TokenKind, Tokens, Word};

/// The place behind a mark.
pub fn after(tokens: &Tokens, at: u32, sign: Sign) -> Option<u32>
    requires { at ≤ length tokens.now.tokens }
    ensures { IsBehind tokens.now.tokens result (after (test_of sign) (drop at tokens.now.tokens)) }
{
    match peek(tokens, at) {
        Some(token) if sign.is(token.kind) => Some(at + 1),
        _ => None,
    }
}

/// Whether the word `const` stands at a place.
fn is_const_next(tokens: &Tokens, at: u32) -> bool
    requires { at ≤ length tokens.now.tokens }
    ensures is { result ≡ is_const_next (drop at tokens.now.tokens) }
    ensures room { result ≡ true → at + 1 < 2 ^ 32 }
{
    match peek(tokens, at) {
        Some(token) => matches!(token.kind, TokenKind::Word(Word::Const)),
        None => false,
    }
}

/// How many words `const` stand in a row at a place, and the place behind them (C17 6.7.6.1p1).
pub fn consts_in_row(tokens: &Tokens, at: u32) -> (u32, u32)
    requires { at ≤ length tokens.now.tokens }
    ensures count { result.0 ≡ consts_in_row (drop at tokens.now.tokens) }
    ensures behind { drop result.1 tokens.now.tokens ≡ drop result.0 (drop at tokens.now.tokens) }
    ensures place { result.1 ≤ length tokens.now.tokens }
{
    let mut count = 0;
    let mut next = at;
    while is_const_next(tokens, next) {
        count += 1;
        next += 1;
    }
    (count, next)
}

/// The name that a token is, a typedef name or not.
pub fn name_of(kind: TokenKind) -> Option<u32>
    ensures { result ≡ name_of kind }
{
    match kind {
        TokenKind::Name(name) => Some(name),
        _ => None,
    }
}

/// The keyword before a tag that a token is.
pub fn tag_word(kind: TokenKind) -> Option<TagWord>
    ensures { result ≡ tag_word_of kind }
{
    match kind {
        TokenKind::Word(Word::Struct) => Some(TagWord::Composite(CompositeWord::Struct)),
        TokenKind::Word(Word::Union) => Some(TagWord::Composite(CompositeWord::Union)),
        TokenKind::Word(Word::Enum) => Some(TagWord::Enum),
        _ => None,
    }
}

/// What a token begins in a declarator.
pub fn opening_of(kind: TokenKind) -> Option<Opening>
    ensures { result ≡ opening_of kind }
{
    match kind {
        TokenKind::Name(name) => Some(Opening::Name(name)),
        TokenKind::Mark(Mark::Star) => Some(Opening::Star),
        TokenKind::Mark(Mark::OpenParen) => Some(Opening::Paren),
        TokenKind::Mark(Mark::OpenBracket) => Some(Opening::Bracket),
        _ => None,
    }
}

/// The tag at a place, if there is one, and the place behind it.
pub fn tag_at(tokens: &Tokens, at: u32) -> (Option<u32>, u32)
    requires { at ≤ length tokens.now.tokens }
    ensures is { ◌≡◌ {A = Option ℕ × List Token} (result.0, drop result.1 tokens.now.tokens) (tag_at (drop at tokens.now.tokens)) }
    ensures place { result.1 ≤ length tokens.now.tokens }
{
    let Some(token) = peek(tokens, at) else {
        return (None, at);
    };
    match name_of(token.kind) {
        Some(name) => (Some(name), at + 1),
        None => (None, at),
    }
}

/// Whether `,` stands at a place, and the place behind it if so.
pub fn comma_at(tokens: &Tokens, at: u32) -> (bool, u32)
    requires { at ≤ length tokens.now.tokens }
    ensures is { ◌≡◌ {A = Bool × List Token} (result.0, drop result.1 tokens.now.tokens) (found_in (after is_comma (drop at tokens.now.tokens)) (drop at tokens.now.tokens)) }
    ensures place { result.1 ≤ length tokens.now.tokens }
{
    match after(tokens, at, Sign::Comma) {
        Some(next) => (true, next),
        None => (false, at),
    }
}

/// Whether `, ...` stands at a place, and the place behind it if so (C17 6.7.6p1).
pub fn ellipsis_at(tokens: &Tokens, at: u32) -> (bool, u32)
    requires { at ≤ length tokens.now.tokens }
    ensures is { ◌≡◌ {A = Bool × List Token} (result.0, drop result.1 tokens.now.tokens) (found_in (option_and_then (after is_ellipsis) (after is_comma (drop at tokens.now.tokens))) (drop at tokens.now.tokens)) }
    ensures place { result.1 ≤ length tokens.now.tokens }
{
    let Some(behind) = after(tokens, at, Sign::Comma) else {
        return (false, at);
    };
    match after(tokens, behind, Sign::Ellipsis) {
        Some(next) => (true, next),
        None => (false, at),
    }
}

/// Whether parameters stand behind a `(`, and no declarator.
pub fn opens_parameters(tokens: &Tokens, typedefs: &IndexSet<u32>, at: u32) -> bool
    requires { at ≤ length tokens.now.tokens }
    ensures { (types : TypeMap) (u : Tables) → result ≡ opens_parameters (names_in typedefs.now types u tokens.now.tokens) (drop at tokens.now.tokens) }
{
    match peek(tokens, at) {
        Some(token) => is_close(token.kind) || begins_type(tokens, typedefs, at),
        None => false,
    }
}

/// Whether `{` stands at a place.
pub fn opens_block(tokens: &Tokens, at: u32) -> bool
    requires { at ≤ length tokens.now.tokens }
    ensures { result ≡ opens_block (drop at tokens.now.tokens) }
{
    match peek(tokens, at) {
        Some(token) => Sign::OpenBrace.is(token.kind),
        None => false,
    }
}
