//! Each call of memory, of the library and of a run's operations once, as a caller makes them, and what it answers.
//!
//! The expected answers are those of another implementation of the same rules. Long tables of such rows are in
//! layer-tests/, which nothing proves. Every function of a crate is proved, those of its tests too: these have no clause
//! to prove, so they ask what a call asks for before they make it, and stop where it is not so.
#![tactic(auto)]

#[cfg(test)]
mod functions;
#[cfg(test)]
mod instances;
#[cfg(test)]
mod library;
#[cfg(test)]
mod memory;
#[cfg(test)]
mod operations;
#[cfg(test)]
mod scripts;
#[cfg(test)]
mod values;
#[cfg(test)]
mod worlds;
