//! How far an external declaration reaches, as far as its braces and semicolons tell.
ghost use Rattle.std.specs.Prelude.{◌≡◌, ◌<◌, ◌≤◌, ◌+◌, ◌-◌, ◌^◌, true, false, drop, length};
ghost use Rattle.pv_decl_forms.specs.Pieces.{is_semicolon};
ghost use Rattle.pv_stmt_forms.specs.RegionEnds.{may_end, braces_behind, EndsBefore, NoneEnds};

use pv_token::{Mark, TokenKind, Tokens, Word};

/// What stands directly before a token, as far as it tells what a `{` there opens.
#[derive(Clone, Copy)]
enum Before {
    /// `struct`, `union` or `enum`.
    TagWord,
    /// A name directly behind one of these words.
    Tag,
    /// `=`.
    Equals,
    /// Anything else: a `{` outside braces opens the body of a function.
    Other,
}

impl Before {
    /// What stands before the next token, behind a token of a kind.
    fn then(self, kind: TokenKind) -> Before {
        match kind {
            TokenKind::Word(Word::Struct | Word::Union | Word::Enum) => Before::TagWord,
            TokenKind::Name(_) if matches!(self, Before::TagWord) => Before::Tag,
            TokenKind::Mark(Mark::Assign) => Before::Equals,
            _ => Before::Other,
        }
    }

    /// What stands before the next token, behind one of a kind, where so many braces are open: within braces it is not
    /// asked for, so that no token is looked at there. (A hint: no promise rests on it.)
    fn behind(self, kind: TokenKind, braces: u32) -> Before {
        if braces > 0 {
            return Before::Other;
        }
        self.then(kind)
    }
}

/// What is known of an external declaration behind its first tokens.
#[derive(Drop)]
struct Scan {
    before: Before,
    /// How many braces are open.
    braces: u32,
    /// Whether a function's body has begun (C17 6.9.1p1).
    in_body: bool,
}

impl Scan {
    fn new() -> Scan
        ensures { result.braces ≡ 0 }
    {
        Scan {
            before: Before::Other,
            braces: 0,
            in_body: false,
        }
    }

    /// Takes a further token, and says whether an external declaration ends with it.
    fn ends_with(&mut self, kind: TokenKind) -> bool
        requires { self.old.braces + 1 < 2 ^ 32 }
        ensures braces { self.new.braces ≡ braces_behind kind self.old.braces }
        ensures ends { result ≡ true → may_end kind ≡ true }
        ensures inner { result ≡ false → is_semicolon kind ≡ true → 0 < self.old.braces }
    {
        let before = self.before;
        self.before = before.behind(kind, self.braces);
        match kind {
            TokenKind::Mark(Mark::OpenBrace) => {
                self.in_body = self.in_body
                    || (self.braces == 0 && matches!(before, Before::Other));
                self.braces += 1;
                false
            }
            TokenKind::Mark(Mark::CloseBrace) => {
                self.braces = self.braces.saturating_sub(1);
                self.in_body && self.braces == 0
            }
            TokenKind::Mark(Mark::Semicolon) => self.braces == 0,
            _ => false,
        }
    }
}

/// The place behind the external declaration that begins at a place, by its braces and semicolons
/// alone: behind the first `;` outside braces, or behind the `}` of a function's body.
///
/// An external declaration that can be read ends there or before.
pub fn region_end(tokens: &Tokens, from: u32) -> u32
    requires { from ≤ length tokens.now.tokens }
    ensures within { result ≤ length tokens.now.tokens }
    // Where tokens are left, it is behind a `;` or a `}`.
    ensures behind { result < length tokens.now.tokens → (from < result) × EndsBefore tokens.now.tokens result }
    // No `;` outside braces stands before the last token.
    ensures first { NoneEnds 0 (result - 1 - from) (drop from tokens.now.tokens) }
{
    let mut scan = Scan::new();
    for at in from..tokens.len() {
        if scan.ends_with(tokens.at(at).kind) {
            return at + 1;
        }
    }
    tokens.len()
}
