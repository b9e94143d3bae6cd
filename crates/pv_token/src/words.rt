//! The keywords (C17 6.4.1).

/// A keyword (C17 6.4.1p1) of the profile, spelled as its variant in lower case, `Bool` as `_Bool`.
#[derive(Clone, Copy, Debug)]
pub enum Word {
    Break,
    Case,
    Char,
    Const,
    Continue,
    Default,
    Do,
    Else,
    Enum,
    Extern,
    For,
    If,
    Int,
    Long,
    Return,
    Short,
    Signed,
    Sizeof,
    Static,
    Struct,
    Switch,
    Typedef,
    Union,
    Unsigned,
    Void,
    While,
    Bool,
}
