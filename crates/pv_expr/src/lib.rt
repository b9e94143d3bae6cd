//! Reading expressions: C17 6.5.
//!
//! Of the trees of a level that spell tokens from a place, `expression` gives the one with the
//! longest run.
#![tactic(auto)]

mod nodes;
mod openings;
mod parser;
mod reading;

pub use parser::expression;
pub use pv_expr_forms::Level;
pub use pv_tree::NoMemory;
