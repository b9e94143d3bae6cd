//! Watchers that tell of a run: what led to its fault, how many events of each kind there were, what became of its
//! ambiguous pointers, and all that it did to its memory, as a journal.
//!
//! Each keeps the events that it is shown. Its text is made of them and of the program's names when it is asked for, in a time
//! that grows with their number. Where there are as many as it wants, later ones may be missing, and the text ends with the
//! line `cut`; a journal ends with the number of its events in each case.
#![tactic(auto)]

mod census;
mod explain;
mod journal;
mod known;
mod lines;
mod log;
mod makings;
mod pointers;

pub use census::Census;
pub use explain::Explain;
pub use journal::Journal;
pub use pointers::Pointers;
