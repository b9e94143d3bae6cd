//! The functions of the library (C17 7.21.6.3, 7.22.3, 7.22.4, 7.24), and which one a name is that of.
#![tactic(auto)]

mod library;
mod names;

pub use library::Library;
pub use names::library_named;
