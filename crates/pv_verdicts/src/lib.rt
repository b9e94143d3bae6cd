//! Laws of verdicts: each source comes to exactly one, with each script and whatever is done with it (C17 5.1.1.3, 5.1.2.3).
#![tactic(auto)]

mod endings;
mod verdicts;

pub use endings::every_run_has_an_outcome;
pub use verdicts::exactly_one_verdict;
