//! What no clause says of the events of a run: that a hall tells them to those who are present, that watchers say of a list of
//! them what an implementation in another language says, that a journal of them is judged so too, and what commands show
//! by its lines.
//!
//! Wide tables of journals stand in `layer-tests`; they run unproved.
#![tactic(auto)]

#[cfg(test)]
mod commands;
#[cfg(test)]
mod halls;
#[cfg(test)]
mod journals;
#[cfg(test)]
mod watchers;
