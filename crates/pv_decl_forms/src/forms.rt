//! Which trees are asked for at a place of the grammar, and what begins them or ends them.
ghost use Rattle.std.specs.Prelude.{◌≡◌};
ghost use Rattle.pv_decl_forms.specs.Declarators.{allows_name, allows_abstract};
ghost use Rattle.pv_decl_forms.specs.Parts.{test_of};

use pv_token::{Mark, TokenKind};

/// How deep an external declaration may be, and so what stands within (C17 5.2.4.1).
pub const DEPTH_LIMIT: u32 = 500;

/// Whether a declarator has a name (C17 6.7.6, 6.7.7).
#[derive(Clone, Copy)]
pub enum Form {
    /// A declarator.
    Named,
    /// An abstract declarator.
    Abstract,
    /// One or the other, as in a parameter (C17 6.7.6p1).
    Either,
}

impl Form {
    /// Whether it may be a name's.
    pub fn allows_name(self) -> bool
        ensures { result ≡ allows_name self }
    {
        match self {
            Form::Named | Form::Either => true,
            Form::Abstract => false,
        }
    }

    /// Whether it may be one without a name.
    pub fn allows_abstract(self) -> bool
        ensures { result ≡ allows_abstract self }
    {
        match self {
            Form::Abstract | Form::Either => true,
            Form::Named => false,
        }
    }
}

/// A part of a declaration, of which several may stand in a row or between commas.
#[derive(Clone, Copy)]
pub enum Part {
    /// A declaration specifier (C17 6.7p1).
    Specifier,
    /// A member declaration of a structure or union (C17 6.7.2.1p1).
    Member,
    /// An enumerator (C17 6.7.2.2p1).
    Enumerator,
    /// A parameter (C17 6.7.6p1).
    Parameter,
    /// A declarator, or an abstract one (C17 6.7.6, 6.7.7).
    Declarator(Form),
}

/// What a declarator begins or goes on with (C17 6.7.6p1, 6.7.7p1).
#[derive(Clone, Copy)]
pub enum Opening {
    Name(u32),
    Star,
    Paren,
    Bracket,
}

/// A keyword before a tag (C17 6.7.2.1, 6.7.2.2).
#[derive(Clone, Copy)]
pub enum TagWord {
    Composite(CompositeWord),
    Enum,
}

/// The keyword of a structure or union (C17 6.7.2.1p1).
#[derive(Clone, Copy)]
pub enum CompositeWord {
    Struct,
    Union,
}

/// A mark that a part of a declaration ends with or goes on with.
#[derive(Clone, Copy)]
pub enum Sign {
    CloseParen,
    CloseBracket,
    Comma,
    Semicolon,
    Equals,
    Ellipsis,
    OpenBrace,
    CloseBrace,
}

impl Sign {
    /// Whether a token is this mark.
    pub fn is(self, kind: TokenKind) -> bool
        ensures { result ≡ test_of self kind }
    {
        match self {
            Sign::CloseParen => matches!(kind, TokenKind::Mark(Mark::CloseParen)),
            Sign::CloseBracket => matches!(kind, TokenKind::Mark(Mark::CloseBracket)),
            Sign::Comma => matches!(kind, TokenKind::Mark(Mark::Comma)),
            Sign::Semicolon => matches!(kind, TokenKind::Mark(Mark::Semicolon)),
            Sign::Equals => matches!(kind, TokenKind::Mark(Mark::Assign)),
            Sign::Ellipsis => matches!(kind, TokenKind::Mark(Mark::Ellipsis)),
            Sign::OpenBrace => matches!(kind, TokenKind::Mark(Mark::OpenBrace)),
            Sign::CloseBrace => matches!(kind, TokenKind::Mark(Mark::CloseBrace)),
        }
    }
}
