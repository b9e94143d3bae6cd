//! Each call of the machine of expressions and of the journal of their accesses once, on a unit that is made by hand, and
//! what it answers.
//!
//! Long tables of expressions are in layer-tests/, which nothing proves. Every function of a crate is proved, those of
//! its tests too: the clauses here say what the calls ask for.
#![tactic(auto)]

#[cfg(test)]
mod sequences;
#[cfg(test)]
mod stepping;
#[cfg(test)]
mod units;
