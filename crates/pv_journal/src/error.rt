//! Why there is no answer.

/// Why a text is no journal.
#[derive(Clone, Copy, Debug, PartialEq, Eq)]
pub enum JournalError {
    /// This line, from 1, is the first that is wrong.
    Bad { line: u64 },
    /// Memory ran out.
    NoMemory,
}
