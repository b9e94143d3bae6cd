//! Where a run stands, as text: the calls that are active, the named objects that live, their types, addresses and values.
//!
//! Nothing changes by looking: no use is made of a pointer, nothing is exposed, and no pair of candidates is made or settled.
#![tactic(auto)]

mod declarators;
mod names;
mod objects;
mod pointers;
mod scalars;
mod shapes;
mod standing;
mod texts;
mod values;

pub use declarators::type_name;
pub use pv_types::NoMemory;
pub use standing::state_text;
