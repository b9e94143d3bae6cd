//! Forms of statements, and the signs that they go on with.
ghost use Rattle.std.specs.Prelude.{◌≡◌};
ghost use Rattle.pv_stmt_forms.specs.Parts.{test_of, form_of, label_word_of};

use pv_token::{Mark, TokenKind, Word};
use pv_tree::NodeId;

/// A token that a form ends with or goes on with.
#[derive(Clone, Copy)]
pub enum Sign {
    OpenParen,
    CloseParen,
    OpenBrace,
    CloseBrace,
    Semicolon,
    Colon,
    Else,
    While,
}

impl Sign {
    /// Whether a token is this one.
    pub fn is(self, kind: TokenKind) -> bool
        ensures { result ≡ test_of self kind }
    {
        match self {
            Sign::OpenParen => matches!(kind, TokenKind::Mark(Mark::OpenParen)),
            Sign::CloseParen => matches!(kind, TokenKind::Mark(Mark::CloseParen)),
            Sign::OpenBrace => matches!(kind, TokenKind::Mark(Mark::OpenBrace)),
            Sign::CloseBrace => matches!(kind, TokenKind::Mark(Mark::CloseBrace)),
            Sign::Semicolon => matches!(kind, TokenKind::Mark(Mark::Semicolon)),
            Sign::Colon => matches!(kind, TokenKind::Mark(Mark::Colon)),
            Sign::Else => matches!(kind, TokenKind::Word(Word::Else)),
            Sign::While => matches!(kind, TokenKind::Word(Word::While)),
        }
    }
}

/// A form of statement, known by its first token (C17 6.8).
pub enum StatementForm {
    Braces,
    If,
    While,
    Do,
    For,
    Switch,
    Break,
    Continue,
    Return,
    /// An expression statement: no token of its own begins it (C17 6.8.3).
    Plain,
}

/// The form of a statement that begins with a token.
pub fn form_of(kind: TokenKind) -> StatementForm
    ensures { result ≡ form_of kind }
{
    match kind {
        TokenKind::Mark(Mark::OpenBrace) => StatementForm::Braces,
        TokenKind::Word(Word::If) => StatementForm::If,
        TokenKind::Word(Word::While) => StatementForm::While,
        TokenKind::Word(Word::Do) => StatementForm::Do,
        TokenKind::Word(Word::For) => StatementForm::For,
        TokenKind::Word(Word::Switch) => StatementForm::Switch,
        TokenKind::Word(Word::Break) => StatementForm::Break,
        TokenKind::Word(Word::Continue) => StatementForm::Continue,
        TokenKind::Word(Word::Return) => StatementForm::Return,
        _ => StatementForm::Plain,
    }
}

/// The keyword of a label (C17 6.8.1).
pub enum LabelWord {
    Case,
    Default,
}

/// The keyword of a label that a token is.
pub fn label_word(kind: TokenKind) -> Option<LabelWord>
    ensures { result ≡ label_word_of kind }
{
    match kind {
        TokenKind::Word(Word::Case) => Some(LabelWord::Case),
        TokenKind::Word(Word::Default) => Some(LabelWord::Default),
        _ => None,
    }
}

/// What braces enclose.
#[derive(Clone, Copy)]
pub enum Within {
    /// Declarations and statements (C17 6.8.2).
    Block,
    /// The same within a `switch`, where statements may be labelled (C17 6.8.1p2, 6.8.4.2).
    Switch,
}

/// The first part of a `for` (C17 6.8.5p1).
#[derive(Clone, Copy)]
pub enum First {
    Declaration(NodeId),
    Expression(Option<NodeId>),
}

/// What stands before the body of a `for` (C17 6.8.5p1).
#[derive(Clone, Copy)]
pub struct ForHead {
    pub first: First,
    pub condition: Option<NodeId>,
    pub step: Option<NodeId>,
}
