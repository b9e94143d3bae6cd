//! What is told of a run, and the hall of those who watch it.
//!
//! A run tells an event for each thing that happens in its memory and for its verdict. A watcher sees the events and has a
//! text; a hall keeps watchers in their order, and the texts of those that have seen enough.
#![tactic(auto)]

mod event;
mod hall;
mod seats;
mod watch;

pub use event::{Event, What};
pub use hall::Hall;
pub use pv_prov::{BLOCK_TEST, CODE_TEST, LIVE_TEST, RANGE_TEST, SAME_TEST};
pub use pv_script::NoMemory;
pub use watch::{Attend, Watch};
