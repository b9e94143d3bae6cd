//! That no run depends on how its unit's types are numbered (C17 6.5p6).
//!
//! A store marks the bytes of an allocation by the number of a type in a table. Here two runs of one unit, by two tables, are shown to
//! differ in these numbers alone.
#![tactic(auto)]

mod laws;

pub use laws::{each_unit_has_tables, no_numbering_matters};
