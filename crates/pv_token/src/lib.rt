//! What a token of a C source is (C17 6.4), and the table that holds tokens with their names and literals.
//!
//! The lexer fills the table; what stands above it reads the table, and needs nothing of the lexer.
#![tactic(auto)]

mod kinds;
mod marks;
mod short;
mod token_table;
mod words;

pub use kinds::Kind;
pub use marks::Mark;
pub use std::alloc::AllocError as NoMemory;
pub use token_table::{Token, TokenKind, Tokens};
pub use words::Word;
