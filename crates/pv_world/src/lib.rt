//! The world of a run: its memory, the instances of its objects and literals, and the operations on them.
//!
//! No operation looks at a unit: sizes, alignments, kinds and the numbers of objects are handed in. Each tells what
//! happened, in order, and where it ends the run, the fault last.
#![tactic(auto)]

mod accesses;
mod bodies;
mod bound;
mod calculation;
mod comparing;
mod convert;
mod failing;
mod functions;
mod got;
mod literal_arrays;
mod loads;
mod moving;
mod numbers;
mod objects;
mod operands;
mod stores;
mod subtracting;
mod suiting;
mod telling;
mod truth;
mod world;

pub use accesses::{mark_of, origin_of};
pub use bodies::Call;
pub use bound::Bound;
pub use calculation::{accept, calculate, calculate_one, follow, need};
pub use failing::{Blame, fail, stopped};
pub use functions::unlike;
pub use got::{Cause, Failure, Got, How, Shape};
pub use literal_arrays::characters;
pub use operands::{int_of, missing, pointer_of, truth_value};
pub use suiting::{is_operand, is_promoted, unfit};
pub use telling::{tell, tell_made, tell_used};
pub use world::World;
