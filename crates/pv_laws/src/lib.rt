//! Laws of whole runs of typed units, each a theorem over the definition of a run: where storage instances lie, which
//! addresses have bytes, and what of them stays (C17 5.1.2, 6.2.4).
#![tactic(auto)]

mod laws;

pub use laws::{
    bytes_are_of_live_instances, instances_stay, live_instances_lie_apart, memory_is_well_formed,
    pairs_stay_settled,
};
