// Integer kinds: what fits them, and conversion to them.
ghost use Rattle.std.specs.Prelude.{◌≡◌, ◌↔◌, ◌<◌, pos, IsTrue};
ghost use Rattle.pv_num.specs.Kinds.{least_member, greatest_member, Fits, fits_of, convert_of, modulus_of, is_signed, width, promotion_of, bits_of, from_bits_of, is_character_kind};
ghost use Rattle.pv_num.specs.Operands.{IsConversion, IsConvertible};

/// An integer type of the target (6.2.5), without its qualifiers.
///
/// A byte has 8 bits, `short` 16, `int` 32, `long` and `long long` 64. `char` is signed, and signed kinds are
/// two's complement.
#[derive(Clone, Copy, Debug, PartialEq, Eq)]
pub enum IntKind {
    /// `_Bool`: its members are 0 and 1.
    Bool,
    /// `char`, which is signed here and a kind of its own (6.2.5p15).
    Char,
    /// `signed char`.
    SChar,
    /// `unsigned char`.
    UChar,
    /// `short`.
    Short,
    /// `unsigned short`.
    UShort,
    /// `int`, and every enumerated type.
    Int,
    /// `unsigned int`.
    UInt,
    /// `long`.
    Long,
    /// `unsigned long`.
    ULong,
    /// `long long`.
    LLong,
    /// `unsigned long long`.
    ULLong,
}

/// Whether it is one of the character types (6.2.5p15).
pub fn is_character_kind(kind: IntKind) -> bool
    ensures { result ≡ is_character_kind kind }
{
    matches!(kind, IntKind::Char | IntKind::SChar | IntKind::UChar)
}

/// The number of bits of the kind (6.2.6.2p6).
pub fn width(kind: IntKind) -> u32
    ensures { result ≡ width kind }
{
    match kind {
        IntKind::Bool | IntKind::Char | IntKind::SChar | IntKind::UChar => 8,
        IntKind::Short | IntKind::UShort => 16,
        IntKind::Int | IntKind::UInt => 32,
        IntKind::Long | IntKind::ULong | IntKind::LLong | IntKind::ULLong => 64,
    }
}

/// Two to the number of bits of the kind.
fn modulus(kind: IntKind) -> i128
    ensures { result ≡ pos (modulus_of kind) }
{
    match kind {
        IntKind::Bool | IntKind::Char | IntKind::SChar | IntKind::UChar => 0x100,
        IntKind::Short | IntKind::UShort => 0x1_0000,
        IntKind::Int | IntKind::UInt => 0x1_0000_0000,
        IntKind::Long | IntKind::ULong | IntKind::LLong | IntKind::ULLong =>
            0x1_0000_0000_0000_0000,
    }
}

/// Whether the kind has negative members (6.2.5p4, p15).
pub fn is_signed(kind: IntKind) -> bool
    ensures { result ≡ is_signed kind }
{
    match kind {
        IntKind::Char
        | IntKind::SChar
        | IntKind::Short
        | IntKind::Int
        | IntKind::Long
        | IntKind::LLong => true,
        IntKind::Bool
        | IntKind::UChar
        | IntKind::UShort
        | IntKind::UInt
        | IntKind::ULong
        | IntKind::ULLong => false,
    }
}

/// The kind that an integer is promoted to (6.3.1.1p2).
pub fn promoted(kind: IntKind) -> IntKind
    ensures { result ≡ promotion_of kind }
{
    match kind {
        IntKind::Bool | IntKind::Char | IntKind::SChar | IntKind::UChar => IntKind::Int,
        IntKind::Short | IntKind::UShort => IntKind::Int,
        _ => kind,
    }
}

/// The two's complement bits of `n`, as a number (6.2.6.2p2).
pub fn bits(kind: IntKind, n: i128) -> u64
    ensures value { result ≡ bits_of kind n }
    ensures bound { result < modulus_of kind }
{
    match kind {
        IntKind::Bool | IntKind::Char | IntKind::SChar | IntKind::UChar => {
            n.rem_euclid(0x100) as u64
        }
        IntKind::Short | IntKind::UShort => n.rem_euclid(0x1_0000) as u64,
        IntKind::Int | IntKind::UInt => n.rem_euclid(0x1_0000_0000) as u64,
        IntKind::Long | IntKind::ULong | IntKind::LLong | IntKind::ULLong => {
            n.rem_euclid(0x1_0000_0000_0000_0000) as u64
        }
    }
}

/// The low bits of `n`, as many as the kind has.
pub(crate) fn low_bits(kind: IntKind, n: u128) -> u64
    ensures { result ≡ bits_of kind (pos n) }
{
    match kind {
        IntKind::Bool | IntKind::Char | IntKind::SChar | IntKind::UChar => (n % 0x100) as u64,
        IntKind::Short | IntKind::UShort => (n % 0x1_0000) as u64,
        IntKind::Int | IntKind::UInt => (n % 0x1_0000_0000) as u64,
        IntKind::Long | IntKind::ULong | IntKind::LLong | IntKind::ULLong => {
            (n % 0x1_0000_0000_0000_0000) as u64
        }
    }
}

/// The member of the kind with these bits.
pub(crate) fn from_bits(kind: IntKind, bits: u64) -> i128
    requires { bits < modulus_of kind }
    ensures { result ≡ from_bits_of kind bits }
{
    let modulus = modulus(kind);
    let rest = bits as i128;
    if is_signed(kind) && modulus / 2 <= rest {
        rest - modulus
    } else {
        rest
    }
}

/// The least member of the kind.
fn least(kind: IntKind) -> i128
    ensures { result ≡ least_member kind }
{
    match kind {
        IntKind::Bool
        | IntKind::UChar
        | IntKind::UShort
        | IntKind::UInt
        | IntKind::ULong
        | IntKind::ULLong => 0,
        IntKind::Char | IntKind::SChar => -0x80,
        IntKind::Short => -0x8000,
        IntKind::Int => -0x8000_0000,
        IntKind::Long | IntKind::LLong => -0x8000_0000_0000_0000,
    }
}

/// The greatest member of the kind.
fn greatest(kind: IntKind) -> i128
    ensures { result ≡ greatest_member kind }
{
    match kind {
        IntKind::Bool => 1,
        IntKind::Char | IntKind::SChar => 0x7f,
        IntKind::UChar => 0xff,
        IntKind::Short => 0x7fff,
        IntKind::UShort => 0xffff,
        IntKind::Int => 0x7fff_ffff,
        IntKind::UInt => 0xffff_ffff,
        IntKind::Long | IntKind::LLong => 0x7fff_ffff_ffff_ffff,
        IntKind::ULong | IntKind::ULLong => 0xffff_ffff_ffff_ffff,
    }
}

/// Whether `n` is a member of the kind (6.2.5).
///
/// The members of `_Bool` are 0 and 1; a signed kind of w bits has those from -2^(w-1) to 2^(w-1) - 1, and an
/// unsigned one those from 0 to 2^w - 1.
pub fn fits(kind: IntKind, n: i128) -> bool
    ensures members { IsTrue result ↔ Fits kind n }
    ensures value { result ≡ fits_of kind n }
{
    least(kind) <= n && n <= greatest(kind)
}

/// The member of the kind to which `n` is converted (6.3.1.2, 6.3.1.3).
///
/// At `_Bool` 0 of 0 and else 1; at every other kind the member that differs from `n` by a multiple of 2^w, w
/// the kind's width in bits. Conversion to a signed kind out of range wraps: the target's choice (6.3.1.3p3).
pub fn convert(kind: IntKind, n: i128) -> i128
    requires convertible { IsConvertible n }
    ensures value { result ≡ convert_of kind n }
    ensures member { Fits kind result }
    ensures congruent { IsConversion kind n result }
{
    converted(kind, n)
}

/// `n` converted, by the computation alone: a truth value at `_Bool`, else the kind's low bits of `n`.
fn converted(kind: IntKind, n: i128) -> i128
    ensures { result ≡ convert_of kind n }
{
    if kind == IntKind::Bool {
        return if n == 0 { 0 } else { 1 };
    }
    from_bits(kind, bits(kind, n))
}
