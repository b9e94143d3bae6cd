//! What no clause says of integers and types: that operators, conversions, layouts and permitted accesses are those that a
//! C compiler for the target and another reader of types know.
//!
//! Each public call of these crates runs here once at least. Wide tables of types stand in `layer-tests`; they run
//! unproved.
#![tactic(auto)]

#[cfg(test)]
mod numbers;
#[cfg(test)]
mod structures;
#[cfg(test)]
mod types;
