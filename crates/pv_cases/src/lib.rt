//! Suites: lists of cases, each a source that is to be run (C17 5.1.2.3) with a line that is to tell how it ends, and what is told of
//! them once they have run.
//!
//! [`cases`] reads a list, [`compare`] compares what one case came to with what is expected of it, and [`report`] and [`status`] tell all of them.
//! [`refusal`] and [`long_output`] tell why a list is none. How a case runs isn't known here.
#![tactic(auto)]

mod comparing;
mod lines;
mod list;
mod reporting;

pub use comparing::{Expected, Got, Told, compare};
pub use list::{Case, LIST_LIMIT, ListError, cases};
pub use pv_script::NoMemory;
pub use reporting::{long_output, refusal, report, status};
