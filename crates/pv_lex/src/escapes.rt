//! The simple escapes (C17 6.4.4.4p1): what stands behind the backslash, and its byte.
use crate::tables::Row;

pub(crate) static ESCAPES: [Row<u8>; 11] = [
    Row {
        text: b"'",
        value: 39,
    },
    Row {
        text: b"\"",
        value: 34,
    },
    Row {
        text: b"?",
        value: 63,
    },
    Row {
        text: b"\\",
        value: 92,
    },
    Row {
        text: b"a",
        value: 7,
    },
    Row {
        text: b"b",
        value: 8,
    },
    Row {
        text: b"f",
        value: 12,
    },
    Row {
        text: b"n",
        value: 10,
    },
    Row {
        text: b"r",
        value: 13,
    },
    Row {
        text: b"t",
        value: 9,
    },
    Row {
        text: b"v",
        value: 11,
    },
];
