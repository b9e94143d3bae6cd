//! What ends a run as no defined program's run ends.
use crate::faults::Fault;

/// Why an operation has no value: the behaviour is undefined, the value is indeterminate, or the memory model leaves the answer open.
#[derive(Clone, Copy, Debug, PartialEq, Eq)]
pub enum Verdict {
    /// Behaviour is undefined (C17 3.4.3).
    Undefined(Fault),
    /// An indeterminate value was used (C17 3.19.2).
    Indeterminate,
    /// Two candidates remain, and the operation differs between them.
    Undecided,
}
