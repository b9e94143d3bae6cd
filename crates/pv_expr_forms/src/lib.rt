//! The forms of expressions: C17 6.5.
//!
//! The operators by their tokens, the levels of what they make, and what the tokens at a place are.
//! The definitions read an expression on lists of tokens, and the theorems say that this comes to the
//! longest tree of a level, and to no other. `Source` is what a reader is given, here and above.
#![tactic(auto)]

mod follows;
mod levels;
mod peeking;
mod source;

pub use follows::{Follow, Join, Prefix, follow_of, prefix_of};
pub use levels::{Level, rank};
pub use peeking::{
    after_bracket, after_close, after_colon, begins_type, is_close, is_comma, is_open, is_type,
    line_at, measures_type, name_next, peek, texts_in_row,
};
pub use source::Source;
