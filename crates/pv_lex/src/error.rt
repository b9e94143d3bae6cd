//! Why a source has no tokens.
ghost use Rattle.std.specs.Prelude.{◌≡◌};
ghost use Rattle.pv_lex.specs.declared.error.LexError.TheVariants.{NoMemory as OutOfMemory};

use pv_token::NoMemory;
use thiserror::Error;

/// The first fault of a source, with its place in bytes from 0, or that memory ran out.
#[derive(Clone, Copy, Debug, Error)]
pub enum LexError {
    /// A byte at which no token begins (C17 6.4p1), as `@`, a lone backslash or a control byte.
    #[error("no token begins with the byte at {at}")]
    BadByte { at: u32 },
    /// What begins as a token, a comment or a line marker and is none (C17 6.4p2), as `08`, `''`
    /// or a comment without an end. `at` is its first byte.
    #[error("no token has the form of what stands at {at}")]
    BadToken { at: u32 },
    /// A keyword that the profile leaves out (C17 6.4.1p1), or the prefix of a wide or Unicode
    /// literal (C17 6.4.4.4p1, 6.4.5p1). The word begins at `at`, and has `word` bytes.
    #[error("the word of {word} bytes at {at} is left out of the profile")]
    Profile { at: u32, word: u32 },
    /// Memory ran out. The source may have tokens or a fault.
    #[error("out of memory")]
    NoMemory,
}

impl From<NoMemory> for LexError {
    ghost from_gives = { λ _ e. e ≡ OutOfMemory };

    fn from(_e: NoMemory) -> LexError {
        LexError::NoMemory
    }
}
