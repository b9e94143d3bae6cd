// Which type the type words among specifiers name (C17 6.7.2p2).
ghost use Rattle.std.specs.Prelude.{◌≡◌, ◌<◌, ◌≤◌, ◌+◌, ◌-◌, ◌^◌};
ghost use Rattle.pv_check.specs.Words.{with_word, same_words, type_of_words};
ghost use Rattle.pv_check.specs.WordRows.{total, type_by_words, base_if};

use pv_num::IntKind;
use pv_token::Word;

/// How often each type word stands (C17 6.7.2p1).
#[derive(Clone, Copy)]
pub struct TypeWords {
    pub voids: u64,
    pub bools: u64,
    pub chars: u64,
    pub shorts: u64,
    pub ints: u64,
    pub longs: u64,
    pub signeds: u64,
    pub unsigneds: u64,
}

/// Words, and the type that they name: an integer type, or `void`.
pub(crate) struct Row {
    words: TypeWords,
    kind: Option<IntKind>,
}

/// The ways to write a type (C17 6.7.2p2).
static ROWS: [Row; 28] = [
    Row {
        words: TypeWords {
            voids: 1,
            bools: 0,
            chars: 0,
            shorts: 0,
            ints: 0,
            longs: 0,
            signeds: 0,
            unsigneds: 0,
        },
        kind: None,
    },
    Row {
        words: TypeWords {
            voids: 0,
            bools: 0,
            chars: 1,
            shorts: 0,
            ints: 0,
            longs: 0,
            signeds: 0,
            unsigneds: 0,
        },
        kind: Some(IntKind::Char),
    },
    Row {
        words: TypeWords {
            voids: 0,
            bools: 0,
            chars: 1,
            shorts: 0,
            ints: 0,
            longs: 0,
            signeds: 1,
            unsigneds: 0,
        },
        kind: Some(IntKind::SChar),
    },
    Row {
        words: TypeWords {
            voids: 0,
            bools: 0,
            chars: 1,
            shorts: 0,
            ints: 0,
            longs: 0,
            signeds: 0,
            unsigneds: 1,
        },
        kind: Some(IntKind::UChar),
    },
    Row {
        words: TypeWords {
            voids: 0,
            bools: 0,
            chars: 0,
            shorts: 1,
            ints: 0,
            longs: 0,
            signeds: 0,
            unsigneds: 0,
        },
        kind: Some(IntKind::Short),
    },
    Row {
        words: TypeWords {
            voids: 0,
            bools: 0,
            chars: 0,
            shorts: 1,
            ints: 0,
            longs: 0,
            signeds: 1,
            unsigneds: 0,
        },
        kind: Some(IntKind::Short),
    },
    Row {
        words: TypeWords {
            voids: 0,
            bools: 0,
            chars: 0,
            shorts: 1,
            ints: 1,
            longs: 0,
            signeds: 0,
            unsigneds: 0,
        },
        kind: Some(IntKind::Short),
    },
    Row {
        words: TypeWords {
            voids: 0,
            bools: 0,
            chars: 0,
            shorts: 1,
            ints: 1,
            longs: 0,
            signeds: 1,
            unsigneds: 0,
        },
        kind: Some(IntKind::Short),
    },
    Row {
        words: TypeWords {
            voids: 0,
            bools: 0,
            chars: 0,
            shorts: 1,
            ints: 0,
            longs: 0,
            signeds: 0,
            unsigneds: 1,
        },
        kind: Some(IntKind::UShort),
    },
    Row {
        words: TypeWords {
            voids: 0,
            bools: 0,
            chars: 0,
            shorts: 1,
            ints: 1,
            longs: 0,
            signeds: 0,
            unsigneds: 1,
        },
        kind: Some(IntKind::UShort),
    },
    Row {
        words: TypeWords {
            voids: 0,
            bools: 0,
            chars: 0,
            shorts: 0,
            ints: 1,
            longs: 0,
            signeds: 0,
            unsigneds: 0,
        },
        kind: Some(IntKind::Int),
    },
    Row {
        words: TypeWords {
            voids: 0,
            bools: 0,
            chars: 0,
            shorts: 0,
            ints: 0,
            longs: 0,
            signeds: 1,
            unsigneds: 0,
        },
        kind: Some(IntKind::Int),
    },
    Row {
        words: TypeWords {
            voids: 0,
            bools: 0,
            chars: 0,
            shorts: 0,
            ints: 1,
            longs: 0,
            signeds: 1,
            unsigneds: 0,
        },
        kind: Some(IntKind::Int),
    },
    Row {
        words: TypeWords {
            voids: 0,
            bools: 0,
            chars: 0,
            shorts: 0,
            ints: 0,
            longs: 0,
            signeds: 0,
            unsigneds: 1,
        },
        kind: Some(IntKind::UInt),
    },
    Row {
        words: TypeWords {
            voids: 0,
            bools: 0,
            chars: 0,
            shorts: 0,
            ints: 1,
            longs: 0,
            signeds: 0,
            unsigneds: 1,
        },
        kind: Some(IntKind::UInt),
    },
    Row {
        words: TypeWords {
            voids: 0,
            bools: 0,
            chars: 0,
            shorts: 0,
            ints: 0,
            longs: 1,
            signeds: 0,
            unsigneds: 0,
        },
        kind: Some(IntKind::Long),
    },
    Row {
        words: TypeWords {
            voids: 0,
            bools: 0,
            chars: 0,
            shorts: 0,
            ints: 0,
            longs: 1,
            signeds: 1,
            unsigneds: 0,
        },
        kind: Some(IntKind::Long),
    },
    Row {
        words: TypeWords {
            voids: 0,
            bools: 0,
            chars: 0,
            shorts: 0,
            ints: 1,
            longs: 1,
            signeds: 0,
            unsigneds: 0,
        },
        kind: Some(IntKind::Long),
    },
    Row {
        words: TypeWords {
            voids: 0,
            bools: 0,
            chars: 0,
            shorts: 0,
            ints: 1,
            longs: 1,
            signeds: 1,
            unsigneds: 0,
        },
        kind: Some(IntKind::Long),
    },
    Row {
        words: TypeWords {
            voids: 0,
            bools: 0,
            chars: 0,
            shorts: 0,
            ints: 0,
            longs: 1,
            signeds: 0,
            unsigneds: 1,
        },
        kind: Some(IntKind::ULong),
    },
    Row {
        words: TypeWords {
            voids: 0,
            bools: 0,
            chars: 0,
            shorts: 0,
            ints: 1,
            longs: 1,
            signeds: 0,
            unsigneds: 1,
        },
        kind: Some(IntKind::ULong),
    },
    Row {
        words: TypeWords {
            voids: 0,
            bools: 0,
            chars: 0,
            shorts: 0,
            ints: 0,
            longs: 2,
            signeds: 0,
            unsigneds: 0,
        },
        kind: Some(IntKind::LLong),
    },
    Row {
        words: TypeWords {
            voids: 0,
            bools: 0,
            chars: 0,
            shorts: 0,
            ints: 0,
            longs: 2,
            signeds: 1,
            unsigneds: 0,
        },
        kind: Some(IntKind::LLong),
    },
    Row {
        words: TypeWords {
            voids: 0,
            bools: 0,
            chars: 0,
            shorts: 0,
            ints: 1,
            longs: 2,
            signeds: 0,
            unsigneds: 0,
        },
        kind: Some(IntKind::LLong),
    },
    Row {
        words: TypeWords {
            voids: 0,
            bools: 0,
            chars: 0,
            shorts: 0,
            ints: 1,
            longs: 2,
            signeds: 1,
            unsigneds: 0,
        },
        kind: Some(IntKind::LLong),
    },
    Row {
        words: TypeWords {
            voids: 0,
            bools: 0,
            chars: 0,
            shorts: 0,
            ints: 0,
            longs: 2,
            signeds: 0,
            unsigneds: 1,
        },
        kind: Some(IntKind::ULLong),
    },
    Row {
        words: TypeWords {
            voids: 0,
            bools: 0,
            chars: 0,
            shorts: 0,
            ints: 1,
            longs: 2,
            signeds: 0,
            unsigneds: 1,
        },
        kind: Some(IntKind::ULLong),
    },
    Row {
        words: TypeWords {
            voids: 0,
            bools: 1,
            chars: 0,
            shorts: 0,
            ints: 0,
            longs: 0,
            signeds: 0,
            unsigneds: 0,
        },
        kind: Some(IntKind::Bool),
    },
];

/// The words with one more, which counts where it is a type word.
pub(crate) fn with_word(w: TypeWords, one: Word) -> TypeWords
    requires { total w < 2 ^ 64 - 1 }
    ensures value { result ≡ with_word w one }
    ensures bounded { total result ≤ total w + 1 }
{
    let mut more = w;
    match one {
        Word::Void => more.voids += 1,
        Word::Bool => more.bools += 1,
        Word::Char => more.chars += 1,
        Word::Short => more.shorts += 1,
        Word::Int => more.ints += 1,
        Word::Long => more.longs += 1,
        Word::Signed => more.signeds += 1,
        Word::Unsigned => more.unsigneds += 1,
        _ => (),
    }
    more
}

/// Whether each word stands as often.
pub(crate) fn same_words(v: TypeWords, w: TypeWords) -> bool
    ensures { result ≡ same_words v w }
{
    v.voids == w.voids
        && v.bools == w.bools
        && v.chars == w.chars
        && v.shorts == w.shorts
        && v.ints == w.ints
        && v.longs == w.longs
        && v.signeds == w.signeds
        && v.unsigneds == w.unsigneds
}

/// The type that the first row of these words names.
fn row_of(rows: &[Row], w: TypeWords) -> Option<Option<IntKind>>
    ensures { base_if result ≡ type_by_words rows.now w }
{
    let mut i = 0;
    while i < rows.len() {
        let row = &rows[i];
        if same_words(row.words, w) {
            return Some(row.kind);
        }
        i += 1;
    }
    None
}

/// The type that so many words name, in any order: an integer type, or `void`.
pub(crate) fn type_of_words(w: TypeWords) -> Option<Option<IntKind>>
    ensures { base_if result ≡ type_of_words w }
{
    row_of(&ROWS, w)
}
