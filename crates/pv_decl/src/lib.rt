//! Reading declarations: C17 6.7, and the heads of functions (C17 6.9.1).
//!
//! Of the trees that spell tokens from a place, each reader gives the one with the longest run.
#![tactic(auto)]

mod declarations;
mod initializers;
mod lists;
mod parser;
mod reading;
mod sparse;
mod type_table;
mod values;
mod word_names;

pub use parser::declaration;
pub use pv_tree::NoMemory;
pub use type_table::{TypeNames, type_names};
