//! Paragraphs that leave an operation undefined, and reasons.
ghost use Rattle.std.specs.Prelude.{◌≡◌};
ghost use Rattle.pv_fault.specs.FaultTexts.{clause_text, reason_text};

/// A paragraph of C17 (ISO/IEC 9899:2018) that leaves the behaviour of an operation undefined.
///
/// In the order of the standard.
#[derive(Clone, Copy, Debug, PartialEq, Eq)]
pub enum Clause {
    /// 6.2.4p2: an object is referred to outside its lifetime.
    Lifetimes,
    /// 6.2.6.1p5: a trap representation is read; on this target, a byte above 1 as a `_Bool`.
    Traps,
    /// 6.3.2.3p6: a pointer is converted to an integer type that cannot represent the result.
    PointerToInteger,
    /// 6.3.2.3p7: a pointer is converted to a pointer type for which it is not aligned.
    PointerToPointer,
    /// 6.3.2.3p8: a function is called through a pointer to a function of another type.
    PointerToFunction,
    /// 6.4.5p7: a string literal's array is modified.
    StringLiterals,
    /// 6.5p2: a side effect is unsequenced relative to another one, or to a use, of the same object.
    Sequencing,
    /// 6.5p5: a result is not in the range of its type.
    Exceptions,
    /// 6.5p7: an object is accessed by an lvalue of a type that its effective type does not allow.
    EffectiveTypes,
    /// 6.5.3.2p4: `*`, `->`, `.` or `[]` is applied to a pointer that does not point to such an object.
    Indirection,
    /// 6.5.5p5: the divisor of `/` or `%` is zero.
    ZeroDivisors,
    /// 6.5.5p6: the quotient of `/` or `%` is not representable.
    Quotients,
    /// 6.5.6p8: the sum of a pointer and an integer leaves the array.
    AdditionOfPointers,
    /// 6.5.6p9: pointers are subtracted that do not point into one array.
    SubtractionOfPointers,
    /// 6.5.7p3: the count of a shift is negative, or not below the width of the promoted left operand.
    ShiftCounts,
    /// 6.5.7p4: `<<` of a negative number, or of one whose shifted value is not representable.
    LeftShifts,
    /// 6.5.8p5: pointers are ordered that do not point into one object.
    OrderOfPointers,
    /// 6.5.16.1p3: a structure or union is assigned from one that overlaps it without being the same.
    OverlappingAssignment,
    /// 6.7.3p6: an object defined with a const-qualified type is modified.
    ConstObjects,
    /// 6.9.1p12: the value of a call is used whose function reached its end without a `return`.
    MissingValues,
    /// 7.1.4p1: a library function is given an invalid pointer as a string.
    LibraryArguments,
    /// 7.21.6.1p9: a conversion of `printf` has no argument, or one of the wrong type.
    Formats,
    /// 7.22.3.3p2: `free` is given a pointer to no block that may be freed.
    Freeing,
    /// 7.22.3.5p3: `realloc` is given a pointer to no block that may be resized.
    Reallocating,
    /// 7.24.1p2: a function of `<string.h>` is given an invalid pointer.
    StringFunctions,
    /// 7.24.2.1p2: `memcpy` copies between ranges that overlap.
    MemcpyOverlap,
    /// 7.24.2.3p2: `strcpy` copies between strings that overlap.
    StrcpyOverlap,
}

impl Clause {
    /// The paragraph as reports print it, for example `6.5p5`.
    pub fn text(self) -> &'static str
        ensures { result.now ≡ clause_text self }
    {
        match self {
            Clause::Lifetimes => "6.2.4p2",
            Clause::Traps => "6.2.6.1p5",
            Clause::PointerToInteger => "6.3.2.3p6",
            Clause::PointerToPointer => "6.3.2.3p7",
            Clause::PointerToFunction => "6.3.2.3p8",
            Clause::StringLiterals => "6.4.5p7",
            Clause::Sequencing => "6.5p2",
            Clause::Exceptions => "6.5p5",
            Clause::EffectiveTypes => "6.5p7",
            Clause::Indirection => "6.5.3.2p4",
            Clause::ZeroDivisors => "6.5.5p5",
            Clause::Quotients => "6.5.5p6",
            Clause::AdditionOfPointers => "6.5.6p8",
            Clause::SubtractionOfPointers => "6.5.6p9",
            Clause::ShiftCounts => "6.5.7p3",
            Clause::LeftShifts => "6.5.7p4",
            Clause::OrderOfPointers => "6.5.8p5",
            Clause::OverlappingAssignment => "6.5.16.1p3",
            Clause::ConstObjects => "6.7.3p6",
            Clause::MissingValues => "6.9.1p12",
            Clause::LibraryArguments => "7.1.4p1",
            Clause::Formats => "7.21.6.1p9",
            Clause::Freeing => "7.22.3.3p2",
            Clause::Reallocating => "7.22.3.5p3",
            Clause::StringFunctions => "7.24.1p2",
            Clause::MemcpyOverlap => "7.24.2.1p2",
            Clause::StrcpyOverlap => "7.24.2.3p2",
        }
    }
}

/// Why an operation breaks its paragraph. `Range`, `Misaligned` and `Overlap` are reasons of placements too.
#[derive(Clone, Copy, Debug, PartialEq, Eq)]
pub enum Reason {
    /// No object that the pointer may mean is live.
    Ended,
    /// The bytes are no value of the type.
    Trap,
    /// The address does not fit.
    Range,
    /// The address is not a multiple of the alignment.
    Misaligned,
    /// The object may not be modified.
    Readonly,
    /// Neither of the two accesses is sequenced before the other.
    Unsequenced,
    /// The exact result does not fit the kind.
    Overflow,
    /// The type is not one that may access these bytes.
    WrongType,
    /// The pointer is null.
    Null,
    /// The pointer means no object.
    Empty,
    /// The place is outside the object.
    Outside,
    /// The divisor is zero.
    Divide,
    /// The exact quotient does not fit the kind.
    Quotient,
    /// The pointers mean two objects.
    Apart,
    /// The distance in bytes is no multiple of the element's size.
    Uneven,
    /// The shift's count is negative, or not below the width.
    Count,
    /// The number that is shifted to the left is negative, or does not fit once it is shifted.
    Shift,
    /// The two ranges overlap.
    Overlap,
    /// There is no value.
    Value,
    /// The argument is not what the conversion takes.
    Format,
    /// The pointer is not to the beginning of an allocated block.
    Block,
}

impl Reason {
    /// The word that reports print, for example `overflow`.
    pub fn text(self) -> &'static str
        ensures { result.now ≡ reason_text self }
    {
        match self {
            Reason::Ended => "ended",
            Reason::Trap => "trap",
            Reason::Range => "range",
            Reason::Misaligned => "misaligned",
            Reason::Readonly => "readonly",
            Reason::Unsequenced => "unsequenced",
            Reason::Overflow => "overflow",
            Reason::WrongType => "type",
            Reason::Null => "null",
            Reason::Empty => "empty",
            Reason::Outside => "outside",
            Reason::Divide => "divide",
            Reason::Quotient => "quotient",
            Reason::Apart => "apart",
            Reason::Uneven => "uneven",
            Reason::Count => "count",
            Reason::Shift => "shift",
            Reason::Overlap => "overlap",
            Reason::Value => "value",
            Reason::Format => "format",
            Reason::Block => "block",
        }
    }
}

/// What an undefined operation is reported as.
#[derive(Clone, Copy, Debug, PartialEq, Eq)]
pub struct Fault {
    /// The paragraph of C17 that the operation breaks.
    pub clause: Clause,
    /// Why it breaks it.
    pub reason: Reason,
}
