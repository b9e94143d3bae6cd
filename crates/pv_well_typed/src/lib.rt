//! That what typing gives is well typed (C17 6.5): the definitions of typing against what evaluation asks of a tree.
//!
//! `IsTyped` of `pv_guards` says of each node of a typed tree what evaluation asks of it, told of the tree alone and of the unit at its end. Here it
//! is shown of the trees that the definitions of typing give, in every unit that is later than the state in which they were typed; and so of whole
//! units, which are later than each state of their own typing.
#![tactic(auto)]

mod laws;
mod rules;

pub use laws::{
    checked_sources_meet_no_guard, typed_expressions_are_well_typed, typed_units_are_well_typed,
};
pub use rules::what_is_run_meets_no_guard;
