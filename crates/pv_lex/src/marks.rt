//! The spellings of the punctuators (C17 6.4.6) that begin with a byte with which several begin.
//!
//! Each table has the longer ones first: a token is the longest that begins at its place (C17 6.4p4).
use crate::tables::Row;
use pv_token::Mark;

/// What begins with `.`.
pub(crate) static DOT: [Row<Mark>; 2] = [
    Row {
        text: b"...",
        value: Mark::Ellipsis,
    },
    Row {
        text: b".",
        value: Mark::Dot,
    },
];

/// What begins with `<`.
pub(crate) static LESS: [Row<Mark>; 6] = [
    Row {
        text: b"<<=",
        value: Mark::ShlAssign,
    },
    Row {
        text: b"<<",
        value: Mark::Shl,
    },
    Row {
        text: b"<=",
        value: Mark::LessEqual,
    },
    Row {
        text: b"<:",
        value: Mark::OpenBracket,
    },
    Row {
        text: b"<%",
        value: Mark::OpenBrace,
    },
    Row {
        text: b"<",
        value: Mark::Less,
    },
];

/// What begins with `>`.
pub(crate) static GREATER: [Row<Mark>; 4] = [
    Row {
        text: b">>=",
        value: Mark::ShrAssign,
    },
    Row {
        text: b">>",
        value: Mark::Shr,
    },
    Row {
        text: b">=",
        value: Mark::GreaterEqual,
    },
    Row {
        text: b">",
        value: Mark::Greater,
    },
];

/// What begins with `-`.
pub(crate) static MINUS: [Row<Mark>; 4] = [
    Row {
        text: b"->",
        value: Mark::Arrow,
    },
    Row {
        text: b"--",
        value: Mark::Decrement,
    },
    Row {
        text: b"-=",
        value: Mark::SubAssign,
    },
    Row {
        text: b"-",
        value: Mark::Minus,
    },
];

/// What begins with `+`.
pub(crate) static PLUS: [Row<Mark>; 3] = [
    Row {
        text: b"++",
        value: Mark::Increment,
    },
    Row {
        text: b"+=",
        value: Mark::AddAssign,
    },
    Row {
        text: b"+",
        value: Mark::Plus,
    },
];

/// What begins with `=`.
pub(crate) static EQUAL: [Row<Mark>; 2] = [
    Row {
        text: b"==",
        value: Mark::Equal,
    },
    Row {
        text: b"=",
        value: Mark::Assign,
    },
];

/// What begins with `!`.
pub(crate) static NOT: [Row<Mark>; 2] = [
    Row {
        text: b"!=",
        value: Mark::NotEqual,
    },
    Row {
        text: b"!",
        value: Mark::Not,
    },
];

/// What begins with `&`.
pub(crate) static AND: [Row<Mark>; 3] = [
    Row {
        text: b"&&",
        value: Mark::AndAnd,
    },
    Row {
        text: b"&=",
        value: Mark::AndAssign,
    },
    Row {
        text: b"&",
        value: Mark::And,
    },
];

/// What begins with `|`.
pub(crate) static OR: [Row<Mark>; 3] = [
    Row {
        text: b"||",
        value: Mark::OrOr,
    },
    Row {
        text: b"|=",
        value: Mark::OrAssign,
    },
    Row {
        text: b"|",
        value: Mark::Or,
    },
];

/// What begins with `*`.
pub(crate) static STAR: [Row<Mark>; 2] = [
    Row {
        text: b"*=",
        value: Mark::MulAssign,
    },
    Row {
        text: b"*",
        value: Mark::Star,
    },
];

/// What begins with `/`.
pub(crate) static SLASH: [Row<Mark>; 2] = [
    Row {
        text: b"/=",
        value: Mark::DivAssign,
    },
    Row {
        text: b"/",
        value: Mark::Slash,
    },
];

/// What begins with `%`.
pub(crate) static PERCENT: [Row<Mark>; 3] = [
    Row {
        text: b"%=",
        value: Mark::RemAssign,
    },
    Row {
        text: b"%>",
        value: Mark::CloseBrace,
    },
    Row {
        text: b"%",
        value: Mark::Percent,
    },
];

/// What begins with `^`.
pub(crate) static CARET: [Row<Mark>; 2] = [
    Row {
        text: b"^=",
        value: Mark::XorAssign,
    },
    Row {
        text: b"^",
        value: Mark::Caret,
    },
];

/// What begins with `:`.
pub(crate) static COLON: [Row<Mark>; 2] = [
    Row {
        text: b":>",
        value: Mark::CloseBracket,
    },
    Row {
        text: b":",
        value: Mark::Colon,
    },
];
