//! Journals of runs, and their checker.
//!
//! A journal is a line for each event of a run, and a last line with their number. Which texts are journals of lines
//! that obey the memory model is defined for texts alone, so the checker trusts no interpreter.
#![tactic(auto)]

mod bonds;
mod checking;
mod error;
mod held;
mod laws;
mod line;
mod numbering;
mod reading;
mod standing;
mod words;

pub use checking::check;
pub use error::JournalError;
pub use laws::one_verdict;
pub use line::{Key, Line, Said};
