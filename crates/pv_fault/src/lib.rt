//! The labels of an undefined operation: the paragraph of C17 that it breaks, and a word for the reason.
#![tactic(auto)]

mod faults;
mod verdict;

pub use faults::{Clause, Fault, Reason};
pub use verdict::Verdict;
