//! A law of journals: what a run tells of its memory obeys the memory model, as far as events show it (C17 3.4.3, 6.2.4).
#![tactic(auto)]

mod laws;

pub use laws::{events_obey, lesser_bound_tells_first_events, units_are_named, words_fit_lines};
