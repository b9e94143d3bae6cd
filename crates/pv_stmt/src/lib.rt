//! Reading statements (C17 6.8) and translation units (C17 6.9).
//!
//! `unit` gives the one row of external declarations that spells all tokens, or says how many
//! external declarations stand before the first that can't be read.
#![tactic(auto)]

mod beginnings;
mod external;
mod nodes;
mod parts;
mod reading;
mod typedefs;
mod units;

pub use beginnings::{begins, one_place, so_many_begin};
pub use pv_tree::NoMemory;
pub use units::{SynError, unit};
