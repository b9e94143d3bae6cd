//! The lines of a journal.

/// What an instance is called by (C17 6.2.4p2).
#[derive(Clone, Copy, Debug, PartialEq, Eq)]
pub struct Key {
    /// The number of its name among the names.
    pub name: u32,
    /// Which of this name it is, from 1.
    pub k: u64,
}

/// What a line says (docs/FORMATS.md, Journals).
#[derive(Clone, Copy, Debug, PartialEq, Eq)]
pub enum Said {
    /// An instance is made: its address, and how many bytes it has.
    Made {
        key: Key,
        base: u64,
        size: u64,
    },
    /// Its lifetime ends.
    Ended {
        key: Key,
    },
    /// Its address becomes known to integers.
    Exposed {
        key: Key,
    },
    /// An integer becomes a pointer where one instance, `low`, ends and another, `high`, begins. Pairs are numbered
    /// from 1.
    Pair {
        pair: u64,
        address: u64,
        low: Key,
        high: Key,
    },
    /// A pointer of a pair is used: the number of the test that was made (`LIVE_TEST` of `pv_prov`, and those beside it),
    /// and which candidates passed it, one or two.
    Used {
        pair: u64,
        test: u8,
        first: Key,
        second: Option<Key>,
    },
    /// The run ends by a fault.
    Fault,
}

/// A line of a journal, but for the last one.
#[derive(Clone, Copy, Debug, PartialEq, Eq)]
pub struct Line {
    /// How many turns were taken.
    pub turn: u64,
    pub what: Said,
}
