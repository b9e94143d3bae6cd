//! Where a refusal is, as lines in the form that editors read: file, line and column, the source's line, and a mark.
//!
//! The file and the line are those of the line markers that the preprocessor left (C17 6.10.4), as `pv_lex` reads them.
#![tactic(auto)]

mod laws;
mod parts;
mod shown;
mod spots;
mod texts;

pub use laws::{lines_are_counted_alike, the_line_is_of_the_source};
pub use pv_token::NoMemory;
pub use texts::lines;
