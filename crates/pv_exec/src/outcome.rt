// How a run ended.
use pv_fault::{Reason, Verdict};

/// How a run ended. Lines are counted from 1, as line markers set them.
#[derive(Clone, Copy)]
pub enum Outcome {
    /// `main` returned this status, or `exit` was called with it (C17 5.1.2.2.3, 7.22.4.4).
    Exit {
        status: i32,
    },
    /// `abort` was called (C17 7.22.4.1).
    Abort {
        line: u32,
    },
    /// An operation at this line had no value: undefined behaviour (C17 3.4.3), an indeterminate value (C17 3.19.2), or two operands with two
    /// instances in common.
    Ends {
        verdict: Verdict,
        line: u32,
    },
    /// The script has a place for this request that can't be given.
    Placement {
        reason: Reason,
        name: u32,
        k: u64,
        line: u32,
    },
    /// The live instances would take more than there is.
    Storage {
        live: u64,
        size: u64,
        line: u32,
    },
    /// As many turns as allowed were taken, and another was due.
    Turns,
    /// A pair was made for which the list has no side.
    SidesEnded {
        pair: u64,
    },
}
