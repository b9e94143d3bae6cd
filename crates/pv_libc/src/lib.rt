//! The library functions of a program (C17 7.21.6.3, 7.22.3, 7.22.4, 7.24): what a call replies, what it does to the
//! memory, what it prints, and what happened within it.
#![tactic(auto)]

mod blocks;
mod calls;
mod characters;
mod formats;
mod heap;
mod known;
mod notes;
mod printing;
mod strings;
mod values;

pub use calls::call;
pub use values::{Arg, Note, Reply, Shape};
