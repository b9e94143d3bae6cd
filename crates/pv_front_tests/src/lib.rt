//! The front side as its users call it: sources that are cut into tokens, trees that are made and read back, sources that
//! are read and typed.
//!
//! A test makes what functions borrow that make some calls in a row and say whether their answers are right, so that a body
//! that only gives up is noticed: want of memory is `false` too. Tables of many sources stand in `layer-tests`; they run
//! unproved.
#![tactic(auto)]

#[cfg(test)]
mod library_names;
#[cfg(test)]
mod nodes;
#[cfg(test)]
mod readers;
#[cfg(test)]
mod scopes;
#[cfg(test)]
mod sorts;
#[cfg(test)]
mod tags;
#[cfg(test)]
mod tokens;
#[cfg(test)]
mod typing;
#[cfg(test)]
mod units;
