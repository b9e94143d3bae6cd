//! What a token says, before it has a place in a table.
use crate::marks::Mark;
use crate::words::Word;

/// What a token says. A name lies in the source, a string literal has its decoded bytes, a
/// character constant its byte.
#[derive(Drop)]
pub enum Kind<'a> {
    Keyword(Word),
    Name(&'a [u8]),
    Number {
        value: u64,
        decimal: bool,
        unsigned: bool,
        longs: u8,
    },
    Character(u8),
    Text(Vec<u8>),
    Punctuator(Mark),
}
