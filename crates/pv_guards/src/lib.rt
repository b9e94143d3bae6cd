//! That no guard is met by a run of a well-typed unit (C17 5.1.2, 6.2.4, 6.3, 6.5, 6.8): type soundness of the definitions of a run.
//!
//! The definitions of a run are total: an operation on a value that isn't of its expression's type ends the run as on a missing value
//! (6.9.1p12), and what can't be done to an object is left undone; no rule of C says either. Here it is shown that a well-typed unit,
//! whose types are told of its trees alone, never comes to such an operation: its run is the run of the rules alone.
#![tactic(auto)]

mod laws;

pub use laws::{
    no_operation_wants_memory, operations_do_what_rules_say, typed_expressions_meet_no_guard,
    typed_units_meet_no_guard, uses_find_instances, values_are_of_their_types,
};
