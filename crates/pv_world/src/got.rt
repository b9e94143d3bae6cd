//! Values of expressions, how they are converted, and why there is none.
use pv_fault::Verdict;
use pv_inst::CreateError;
use pv_num::IntKind;
use pv_object::Value;
use pv_shadow::Byte;

/// What an expression gives.
#[derive(Drop)]
pub enum Got {
    /// Nothing (`void`).
    Nothing,
    /// The value of a function that ended without one (6.9.1p12).
    Missing,
    /// A scalar; a place is a pointer.
    Scalar(Value),
    /// The bytes of a structure or union, and where they were read, if by an lvalue.
    Whole(Vec<Byte>, Option<u64>),
}

/// How the bytes of an lvalue are looked at (6.3.2.1).
#[derive(Clone, Copy)]
pub enum Shape {
    /// As an integer.
    Int(IntKind),
    /// As a pointer.
    Pointer,
    /// As the bytes of a structure or union.
    Whole,
}

/// A conversion (6.3).
#[derive(Clone, Copy)]
pub enum How {
    /// An integer to an integer type (6.3.1.2, 6.3.1.3).
    Rounds(IntKind),
    /// The same from a character type to a character type, implied: a value that was never set passes.
    Passes(IntKind),
    /// A pointer to `_Bool` (6.3.1.2).
    Tests,
    /// A pointer to an integer type (6.3.2.3p6).
    Numbers(IntKind),
    /// An integer to a pointer type (6.3.2.3p5).
    Points,
    /// A pointer to a pointer type, with the alignment that is asked for (6.3.2.3p7).
    Recasts(u64),
    /// A value to `void` (6.3.2.2).
    Voids,
}

/// Why an operation ends the run.
#[derive(Clone, Copy)]
pub enum Cause {
    /// The behaviour is undefined (3.4.3), a value is indeterminate (3.19.2), or an answer is undecided.
    Ends(Verdict),
    /// The program ends with this status (7.22.4.4).
    Exits(i32),
    /// The program aborts (7.22.4.1).
    Aborts,
    /// A request for an instance of this name was refused.
    Refused(u32, CreateError),
    /// The list of sides has none for this pair.
    SidesEnded(u64),
}

/// Why there is no value: no memory was found, or the run ends.
#[derive(Clone, Copy)]
pub enum Failure {
    /// Memory ran out. Nothing is said of the world then, nor of what was told.
    NoMemory,
    /// The run ends. What led to it was told, the fault last.
    Stop(Cause),
}
