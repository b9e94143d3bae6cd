//! What is told of a run.
use pv_fault::Verdict;

/// An event, and how many turns were taken when it came.
#[derive(Clone, Copy, Debug, PartialEq, Eq)]
pub struct Event {
    pub turn: u64,
    pub what: What,
}

/// What happened.
///
/// An instance is a storage instance of the memory model, by its number; a pair is the provenance of a pointer that was made
/// from an integer where two instances meet, by its number, with its low and its high candidate.
#[derive(Clone, Copy, Debug, PartialEq, Eq)]
pub enum What {
    /// The lifetime of an instance began (C17 6.2.4). It is the `k`-th of the name with the number `name`; `size` in bytes.
    Made {
        inst: u64,
        name: u32,
        k: u64,
        base: u64,
        size: u64,
    },
    /// Its lifetime ended.
    Ended {
        inst: u64,
    },
    /// Its address became known to integers.
    Exposed {
        inst: u64,
    },
    /// A pair was made, for a pointer to this address between these instances.
    Pair {
        pair: u64,
        address: u64,
        low: u64,
        high: u64,
    },
    /// A pointer whose pair still had both candidates was used, by the test of this number (`LIVE_TEST` of `pv_prov`, and those
    /// beside it); `low` and `high` say who passed.
    Tried {
        pair: u64,
        test: u8,
        low: bool,
        high: bool,
    },
    /// The run ended with a verdict, with the candidates and the pair of the pointer that was tested last, where one was.
    Fault {
        verdict: Verdict,
        low: Option<u64>,
        high: Option<u64>,
        pair: Option<u64>,
    },
}
