// The tokens of a short source. Tables of many sources stand in `layer-tests`.
ghost use Rattle.pv_token.specs.Kept.{HasRoom};

use pv_lex::{Found, LexError, TokenKind, Tokens, behind_name, fresh_behind, line_behind, tokens};
use pv_token::Kind;
use std::alloc::Global;

/// Whether the third token is a literal from byte 6 on, on the second line.
fn ends_with_a_literal(t: &Tokens) -> bool {
    if t.len() != 3 {
        return false;
    }
    let last = t.at(2);
    matches!(last.kind, TokenKind::Text(0)) && last.start == 6 && last.line == 2
}

/// Whether the only name is `a`, and the only text `b`.
fn has_its_texts(t: &Tokens) -> bool {
    t.names_len() == 1
        && t.texts_len() == 1
        && t.name(0) == b"a".as_slice()
        && t.text(0) == b"b".as_slice()
}

/// `int a` and on the next line a string literal.
#[test]
fn a_source_is_cut_into_tokens(rt: HostRuntime) {
    let t = tokens(rt.alloc(), b"int a\n\"b\"").expect(&rt, "no tokens");
    assert!(&rt; ends_with_a_literal(&t) && has_its_texts(&t));
}

/// Whether there is a fault at byte 4.
fn is_fault(alloc: Global) -> bool {
    matches!(
        tokens(alloc, b"int # a;"),
        Err(LexError::BadToken { at: 4 })
    )
}

/// A byte that begins no token, at its place.
#[test]
fn a_fault_has_its_place(rt: HostRuntime) {
    assert!(&rt; is_fault(rt.alloc()));
}

/// Behind a line feed, a comment over three lines and a line marker: their lines, and whether a marker may stand there.
#[test]
fn pieces_lead_to_lines(rt: HostRuntime) {
    let feed = Found::White(b'\n');
    assert!(rt; line_behind(&feed, 7) == 8 && fresh_behind(&feed, false));
    let comment = Found::Comment(2);
    assert!(rt; line_behind(&comment, 7) == 9 && !fresh_behind(&comment, true));
    let marker = Found::Marker(12);
    assert!(rt; line_behind(&marker, 7) == 12 && fresh_behind(&marker, false));
}

/// The name of a file in a line marker ends with a quote on its line, but not with one behind a backslash.
#[test]
fn a_name_ends_with_its_quote(rt: HostRuntime) {
    let behind = behind_name(b"a\\\".c\" 1");
    assert!(rt; matches!(behind, Some(rest) if rest == b" 1".as_slice()));
    assert!(rt; behind_name(b"a.c\n\"").is_none());
}

/// Whether `a`, from byte 3 on, is kept as the first token.
fn keeps_a_name(alloc: Global, t: &mut Tokens) -> bool
    requires { HasRoom t.old }
{
    let Ok(()) = t.add_token(alloc, Kind::Name(b"a"), 3, 1) else {
        return false;
    };
    if t.len() != 1 {
        return false;
    }
    let first = t.at(0);
    matches!(first.kind, TokenKind::Name(0)) && first.start == 3 && t.names_len() == 1
}

/// The same in a table that has room for two.
fn keeps_a_name_in_room(alloc: Global) -> bool {
    let Ok(mut t) = Tokens::with_room(alloc, 2) else {
        return false;
    };
    keeps_a_name(alloc, &mut t)
}

#[test]
fn a_token_is_kept(rt: HostRuntime) {
    let mut t = Tokens::new(rt.alloc());
    assert!(&rt; keeps_a_name(rt.alloc(), &mut t));
    assert!(&rt; keeps_a_name_in_room(rt.alloc()));
}
