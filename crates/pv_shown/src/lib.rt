//! Looking at a run (C17 5.1.2.3) turn by turn: commands that move to a position, and those that show what lives there, which pairs of
//! candidates there are, and what is at an address.
//!
//! [`commands`] reads a file of commands, and [`report`] tells what they show of a run, by the lines of its journal. How a run is made isn't known here.
#![tactic(auto)]

mod blocks;
mod moving;
mod past;
mod reading;
mod showing;
mod texts;
mod walking;
mod words;

pub use moving::Ran;
pub use pv_script::NoMemory;
pub use reading::{COMMANDS_LIMIT, Command, CommandError, commands, refusal};
pub use walking::report;
