//! Statements, calls, and the run of a typed unit (C17 5.1.2, 6.8, 6.9).
#![tactic(auto)]

mod blocks;
mod calls;
mod delivering;
mod do_loops;
mod endings;
mod enter;
mod functions;
mod given;
mod going;
mod laws;
mod lists;
mod once;
mod outcome;
mod parts;
mod preparing;
mod program;
mod resuming;
mod rounds;
mod running;
mod scopes;
mod sides;
mod statements;
mod stores;
mod switches;
mod task;
mod turning;
mod values;
mod words;

pub use laws::{late_settling_is_right, lesser_bound_cuts, turns_keep_the_bound};
pub use outcome::Outcome;
pub use program::{Ran, RunError, run};
pub use sides::{Side, Sides};
