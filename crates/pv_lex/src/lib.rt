//! The tokens of a preprocessed C source: C17 6.4 but for the preprocessor's own.
//!
//! `tokens` cuts a source into white space, comments, line markers and tokens, and gives the
//! tokens or the first fault. `stand` says what stands at one place, for who wants more of a piece
//! than that.
#![tactic(auto)]

mod bytes;
mod comments;
mod error;
mod escapes;
mod lexing;
mod literals;
mod marks;
mod numbers;
mod pieces;
mod standing;
mod suffixes;
mod tables;
mod words;

pub use comments::behind_name;
pub use error::LexError;
pub use lexing::{exactly_one, fresh_behind, line_behind, longest, tokens};
pub use pieces::{Fault, Found, Standing};
pub use pv_token::{Mark, NoMemory, Token, TokenKind, Tokens, Word};
pub use standing::stand;
