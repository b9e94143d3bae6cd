//! What the modes `check` and `layout` print of a typed unit.
//!
//! The texts speak of what is there already: the number of external declarations (C17 6.9p1), and the sizes,
//! alignments and offsets of structures and unions (6.7.2.1p15, p16).
#![tactic(auto)]

mod describing;
mod lines;

pub use describing::{check_text, layout_text};
pub use pv_types::NoMemory;
