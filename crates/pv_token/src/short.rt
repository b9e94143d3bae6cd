//! Tokens as the table has them: in 16 bytes, with the values of large constants in a list of their own.
ghost use Rattle.std.specs.Prelude.{◌≡◌, ◌<◌, ◌^◌, ◌++◌, ◌∷◌, [], length, slice_index_or, vec_len, vec_capacity};
ghost use Rattle.pv_token.specs.Short.{kind_of, values_with, IsThere};

use crate::marks::Mark;
use crate::token_table::TokenKind;
use crate::words::Word;
use std::mem::size_of;

/// The least integer constant (C17 6.4.4.1) whose value stands in the list.
const LEAST_LARGE: u64 = 1 << 32;

/// What a token is (C17 6.4p1), in 8 bytes. The order of the fields leaves no gap.
#[derive(Clone, Copy)]
pub(crate) enum ShortKind {
    Word(Word),
    Name(u32),
    /// An integer constant below 2^32.
    Number {
        decimal: bool,
        unsigned: bool,
        longs: u8,
        value: u32,
    },
    /// An integer constant from 2^32 on, by the place of its value in the list.
    Large {
        decimal: bool,
        unsigned: bool,
        longs: u8,
        place: u32,
    },
    Character(i32),
    Text(u32),
    Mark(Mark),
}

/// A token (C17 6.4p1) in 16 bytes.
#[derive(Clone, Copy)]
pub(crate) struct ShortToken {
    pub kind: ShortKind,
    pub start: u32,
    pub line: u32,
}

const _: () = prove!(size_of::<ShortToken>() == 16);

/// Puts the value of a large constant to the end of the list, which has room for it, and gives its place.
fn keep_value(values: &mut Vec<u64>, value: u64) -> u32
    requires few { length values.old.items < 2 ^ 32 }
    requires room { vec_len values.old < vec_capacity values.old }
    ensures values { values.new.items ≡ values.old.items ++ value ∷ [] }
    ensures place { slice_index_or values.new.items result 0 ≡ value }
    ensures within { result < length values.new.items }
{
    let place = values.len() as u32;
    values.push_reserved(value);
    place
}

/// The short form of a kind. The value of a large constant goes to the end of the list, which has room for it.
#[inline(always)]
pub(crate) fn short_kind(values: &mut Vec<u64>, kind: TokenKind) -> ShortKind
    requires few { length values.old.items < 2 ^ 32 }
    requires room { vec_len values.old < vec_capacity values.old }
    ensures values { values.new.items ≡ values_with values.old.items kind }
    ensures kind { kind_of values.new.items result ≡ kind }
    ensures there { IsThere (length values.new.items) result }
{
    match kind {
        TokenKind::Word(w) => ShortKind::Word(w),
        TokenKind::Name(n) => ShortKind::Name(n),
        TokenKind::Number {
            value,
            decimal,
            unsigned,
            longs,
        } => {
            if value < LEAST_LARGE {
                let value = value as u32;
                return ShortKind::Number {
                    decimal,
                    unsigned,
                    longs,
                    value,
                };
            }
            let place = keep_value(values, value);
            ShortKind::Large {
                decimal,
                unsigned,
                longs,
                place,
            }
        }
        TokenKind::Character(value) => ShortKind::Character(value),
        TokenKind::Text(n) => ShortKind::Text(n),
        TokenKind::Mark(m) => ShortKind::Mark(m),
    }
}

/// The kind that a short form stands for.
#[inline(always)]
pub(crate) fn kind_of(values: &[u64], kind: ShortKind) -> TokenKind
    requires { IsThere (length values.now) kind }
    ensures { result ≡ kind_of values.now kind }
{
    match kind {
        ShortKind::Word(w) => TokenKind::Word(w),
        ShortKind::Name(n) => TokenKind::Name(n),
        ShortKind::Number {
            decimal,
            unsigned,
            longs,
            value,
        } => TokenKind::Number {
            value: value as u64,
            decimal,
            unsigned,
            longs,
        },
        ShortKind::Large {
            decimal,
            unsigned,
            longs,
            place,
        } => TokenKind::Number {
            value: values[place as usize],
            decimal,
            unsigned,
            longs,
        },
        ShortKind::Character(value) => TokenKind::Character(value),
        ShortKind::Text(n) => TokenKind::Text(n),
        ShortKind::Mark(m) => TokenKind::Mark(m),
    }
}
