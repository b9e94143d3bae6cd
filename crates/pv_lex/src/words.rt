//! The spellings of the keywords (C17 6.4.1), by the byte with which they begin.
//!
//! The value is `None` at those that the profile leaves out.
use crate::tables::Row;
use pv_token::Word;

/// The keywords that begin with the underscore.
pub(crate) static UNDER_UNDERSCORE: [Row<Option<Word>>; 10] = [
    Row {
        text: b"_Bool",
        value: Some(Word::Bool),
    },
    Row {
        text: b"_Alignas",
        value: None,
    },
    Row {
        text: b"_Alignof",
        value: None,
    },
    Row {
        text: b"_Atomic",
        value: None,
    },
    Row {
        text: b"_Complex",
        value: None,
    },
    Row {
        text: b"_Generic",
        value: None,
    },
    Row {
        text: b"_Imaginary",
        value: None,
    },
    Row {
        text: b"_Noreturn",
        value: None,
    },
    Row {
        text: b"_Static_assert",
        value: None,
    },
    Row {
        text: b"_Thread_local",
        value: None,
    },
];

/// The keywords that begin with `a`.
pub(crate) static UNDER_A: [Row<Option<Word>>; 1] = [Row {
    text: b"auto",
    value: None,
}];

/// The keywords that begin with `b`.
pub(crate) static UNDER_B: [Row<Option<Word>>; 1] = [Row {
    text: b"break",
    value: Some(Word::Break),
}];

/// The keywords that begin with `c`.
pub(crate) static UNDER_C: [Row<Option<Word>>; 4] = [
    Row {
        text: b"case",
        value: Some(Word::Case),
    },
    Row {
        text: b"char",
        value: Some(Word::Char),
    },
    Row {
        text: b"const",
        value: Some(Word::Const),
    },
    Row {
        text: b"continue",
        value: Some(Word::Continue),
    },
];

/// The keywords that begin with `d`.
pub(crate) static UNDER_D: [Row<Option<Word>>; 3] = [
    Row {
        text: b"default",
        value: Some(Word::Default),
    },
    Row {
        text: b"do",
        value: Some(Word::Do),
    },
    Row {
        text: b"double",
        value: None,
    },
];

/// The keywords that begin with `e`.
pub(crate) static UNDER_E: [Row<Option<Word>>; 3] = [
    Row {
        text: b"else",
        value: Some(Word::Else),
    },
    Row {
        text: b"enum",
        value: Some(Word::Enum),
    },
    Row {
        text: b"extern",
        value: Some(Word::Extern),
    },
];

/// The keywords that begin with `f`.
pub(crate) static UNDER_F: [Row<Option<Word>>; 2] = [
    Row {
        text: b"for",
        value: Some(Word::For),
    },
    Row {
        text: b"float",
        value: None,
    },
];

/// The keywords that begin with `g`.
pub(crate) static UNDER_G: [Row<Option<Word>>; 1] = [Row {
    text: b"goto",
    value: None,
}];

/// The keywords that begin with `i`.
pub(crate) static UNDER_I: [Row<Option<Word>>; 3] = [
    Row {
        text: b"if",
        value: Some(Word::If),
    },
    Row {
        text: b"int",
        value: Some(Word::Int),
    },
    Row {
        text: b"inline",
        value: None,
    },
];

/// The keywords that begin with `l`.
pub(crate) static UNDER_L: [Row<Option<Word>>; 1] = [Row {
    text: b"long",
    value: Some(Word::Long),
}];

/// The keywords that begin with `r`.
pub(crate) static UNDER_R: [Row<Option<Word>>; 3] = [
    Row {
        text: b"return",
        value: Some(Word::Return),
    },
    Row {
        text: b"register",
        value: None,
    },
    Row {
        text: b"restrict",
        value: None,
    },
];

/// The keywords that begin with `s`.
pub(crate) static UNDER_S: [Row<Option<Word>>; 6] = [
    Row {
        text: b"short",
        value: Some(Word::Short),
    },
    Row {
        text: b"signed",
        value: Some(Word::Signed),
    },
    Row {
        text: b"sizeof",
        value: Some(Word::Sizeof),
    },
    Row {
        text: b"static",
        value: Some(Word::Static),
    },
    Row {
        text: b"struct",
        value: Some(Word::Struct),
    },
    Row {
        text: b"switch",
        value: Some(Word::Switch),
    },
];

/// The keywords that begin with `t`.
pub(crate) static UNDER_T: [Row<Option<Word>>; 1] = [Row {
    text: b"typedef",
    value: Some(Word::Typedef),
}];

/// The keywords that begin with `u`.
pub(crate) static UNDER_U: [Row<Option<Word>>; 2] = [
    Row {
        text: b"union",
        value: Some(Word::Union),
    },
    Row {
        text: b"unsigned",
        value: Some(Word::Unsigned),
    },
];

/// The keywords that begin with `v`.
pub(crate) static UNDER_V: [Row<Option<Word>>; 2] = [
    Row {
        text: b"void",
        value: Some(Word::Void),
    },
    Row {
        text: b"volatile",
        value: None,
    },
];

/// The keywords that begin with `w`.
pub(crate) static UNDER_W: [Row<Option<Word>>; 1] = [Row {
    text: b"while",
    value: Some(Word::While),
}];
