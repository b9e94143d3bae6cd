//! The suffixes of integer constants (C17 6.4.4.1p1).
use crate::tables::Row;

/// What a suffix says: is the constant unsigned, and how many times does `long` stand in its least
/// type.
#[derive(Clone, Copy)]
pub(crate) struct Suffix {
    pub unsigned: bool,
    pub longs: u8,
}

pub(crate) static SUFFIXES: [Row<Suffix>; 23] = [
    Row {
        text: b"",
        value: Suffix {
            unsigned: false,
            longs: 0,
        },
    },
    Row {
        text: b"u",
        value: Suffix {
            unsigned: true,
            longs: 0,
        },
    },
    Row {
        text: b"U",
        value: Suffix {
            unsigned: true,
            longs: 0,
        },
    },
    Row {
        text: b"l",
        value: Suffix {
            unsigned: false,
            longs: 1,
        },
    },
    Row {
        text: b"L",
        value: Suffix {
            unsigned: false,
            longs: 1,
        },
    },
    Row {
        text: b"ll",
        value: Suffix {
            unsigned: false,
            longs: 2,
        },
    },
    Row {
        text: b"LL",
        value: Suffix {
            unsigned: false,
            longs: 2,
        },
    },
    Row {
        text: b"ul",
        value: Suffix {
            unsigned: true,
            longs: 1,
        },
    },
    Row {
        text: b"lu",
        value: Suffix {
            unsigned: true,
            longs: 1,
        },
    },
    Row {
        text: b"uL",
        value: Suffix {
            unsigned: true,
            longs: 1,
        },
    },
    Row {
        text: b"Lu",
        value: Suffix {
            unsigned: true,
            longs: 1,
        },
    },
    Row {
        text: b"ull",
        value: Suffix {
            unsigned: true,
            longs: 2,
        },
    },
    Row {
        text: b"llu",
        value: Suffix {
            unsigned: true,
            longs: 2,
        },
    },
    Row {
        text: b"uLL",
        value: Suffix {
            unsigned: true,
            longs: 2,
        },
    },
    Row {
        text: b"LLu",
        value: Suffix {
            unsigned: true,
            longs: 2,
        },
    },
    Row {
        text: b"Ul",
        value: Suffix {
            unsigned: true,
            longs: 1,
        },
    },
    Row {
        text: b"lU",
        value: Suffix {
            unsigned: true,
            longs: 1,
        },
    },
    Row {
        text: b"UL",
        value: Suffix {
            unsigned: true,
            longs: 1,
        },
    },
    Row {
        text: b"LU",
        value: Suffix {
            unsigned: true,
            longs: 1,
        },
    },
    Row {
        text: b"Ull",
        value: Suffix {
            unsigned: true,
            longs: 2,
        },
    },
    Row {
        text: b"llU",
        value: Suffix {
            unsigned: true,
            longs: 2,
        },
    },
    Row {
        text: b"ULL",
        value: Suffix {
            unsigned: true,
            longs: 2,
        },
    },
    Row {
        text: b"LLU",
        value: Suffix {
            unsigned: true,
            longs: 2,
        },
    },
];
