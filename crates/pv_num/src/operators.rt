// The operators on integer kinds.
ghost use Rattle.std.specs.Prelude.{◌≡◌, ◌&&◌, if◌then◌else◌, int_le, int_lt, ◌+ℤ◌, ◌-ℤ◌, ◌^◌, ◌-◌, ◌*◌, ◌<◌, ◌≤◌, ◌≤ℤ◌, ◌<ℤ◌, unsigned_abs, ◌*ℤ◌, pos, neg_ℤ, IsFalse, IfOk, Ok, Err, int_div, int_rem, bit_and, bit_or, bit_xor};
ghost use Rattle.std.specs.Int.{int_div_euclid};
ghost use Rattle.pv_num.specs.Kinds.{Fits, fits_of, modulus_of, width, bits_of};
ghost use Rattle.pv_num.specs.Operands.{IsConvertible, IsOperand};
ghost use Rattle.pv_num.specs.Arithmetic.{IsPromoted, binary_of, unary_of, exact_of, quotient_of, remainder_of, shift_left_of, shift_right_of, bitwise_of, complement_of, one_if, yielded_kind, is_zero, is_count};

use crate::kinds::{IntKind, bits, fits, from_bits, is_signed, low_bits, width};

/// The binary operators on integers (6.5.5 to 6.5.12).
#[derive(Clone, Copy, Debug)]
pub enum BinOp {
    /// `+`
    Add,
    /// `-`
    Sub,
    /// `*`
    Mul,
    /// `/`
    Div,
    /// `%`
    Rem,
    /// `<<`
    Shl,
    /// `>>`
    Shr,
    /// `&`
    And,
    /// `|`
    Or,
    /// `^`
    Xor,
    /// `<`
    Lt,
    /// `>`
    Gt,
    /// `<=`
    Le,
    /// `>=`
    Ge,
    /// `==`
    Eq,
    /// `!=`
    Ne,
}

/// The unary operators on integers (6.5.3.3), but `!`.
#[derive(Clone, Copy, Debug)]
pub enum UnOp {
    /// `+`
    Plus,
    /// `-`
    Minus,
    /// `~`
    Flip,
}

/// Why an operator on integers has no defined result, in the order of the standard.
#[derive(Clone, Copy, Debug, PartialEq, Eq)]
pub enum ArithmeticFault {
    /// 6.5p5: the exact result does not fit the kind.
    Overflow,
    /// 6.5.5p5: the divisor is zero.
    ZeroDivisor,
    /// 6.5.5p6: the exact quotient does not fit the kind.
    Quotient,
    /// 6.5.7p3: the shift's count is negative, or not below the width.
    Count,
    /// 6.5.7p4: the number that is shifted to the left is negative, or does not fit once it is shifted.
    Shift,
}

/// The result of a binary operator on promoted numbers, or the fault where C17 leaves it undefined.
///
/// `kind` is that of both operands after the usual arithmetic conversions; of a shift, that of the left operand
/// alone, and `b` is then the exact count, of whatever kind. A comparison gives 1 or 0 of kind `int`, every
/// other operator a member of `kind`.
///
/// # Errors
///
/// - `Overflow` (6.5p5): a sum, difference or product of a signed kind does not fit it.
/// - `ZeroDivisor` (6.5.5p5): `/` or `%` by 0; `Quotient` (6.5.5p6): the quotient does not fit.
/// - `Count` (6.5.7p3): a shift's count is negative or at least the width; else
///   `Shift` (6.5.7p4): `<<` of a negative number, or the shifted number does not fit its signed kind.
pub fn binary(op: BinOp, kind: IntKind, a: i128, b: i128) -> Result<i128, ArithmeticFault>
    requires promoted { IsPromoted kind }
    requires left { Fits kind a }
    requires right { IsOperand op kind b }
    ensures value { result ≡ binary_of op kind a b }
    ensures member { IfOk result (λ n. Fits (yielded_kind op kind) n) }
{
    computed(op, kind, a, b)
}

/// The result of a binary operator, by the computation alone.
fn computed(op: BinOp, kind: IntKind, a: i128, b: i128) -> Result<i128, ArithmeticFault>
    requires left { Fits kind a }
    requires right { IsOperand op kind b }
    ensures { result ≡ binary_of op kind a b }
{
    match op {
        BinOp::Add => add(kind, a, b),
        BinOp::Sub => subtract(kind, a, b),
        BinOp::Mul => multiply(kind, a, b),
        BinOp::Div => divide(kind, a, b),
        BinOp::Rem => divide_for_remainder(kind, a, b),
        BinOp::Shl => shift_left(kind, a, b),
        BinOp::Shr => shift_right(kind, a, b),
        BinOp::And => Ok(and(kind, a, b)),
        BinOp::Or => Ok(or(kind, a, b)),
        BinOp::Xor => Ok(exclusive_or(kind, a, b)),
        BinOp::Lt => Ok(truth(a < b)),
        BinOp::Gt => Ok(truth(a > b)),
        BinOp::Le => Ok(truth(a <= b)),
        BinOp::Ge => Ok(truth(a >= b)),
        BinOp::Eq => Ok(truth(a == b)),
        BinOp::Ne => Ok(truth(a != b)),
    }
}

/// The result of a unary operator on a promoted number, or the fault where C17 leaves it undefined.
///
/// # Errors
///
/// `Overflow` (6.5p5): `-` of the least number of a signed kind.
pub fn unary(op: UnOp, kind: IntKind, a: i128) -> Result<i128, ArithmeticFault>
    requires promoted { IsPromoted kind }
    requires operand { Fits kind a }
    ensures value { result ≡ unary_of op kind a }
    ensures member { IfOk result (λ n. Fits kind n) }
{
    match op {
        UnOp::Plus => Ok(a),
        UnOp::Minus => negate(kind, a),
        UnOp::Flip => Ok(complement(kind, a)),
    }
}

// The prover sees every computed `i128` as a number that was cut to 128 bits. So each operation that fits for a
// reason stands in a function of its own, whose clause is the exact operation; above them no cut is left.

/// `a + b`, which fits.
fn sum(a: i128, b: i128) -> i128
    requires left { IsConvertible a }
    requires right { IsConvertible b }
    ensures { result ≡ a +ℤ b }
{
    a + b
}

/// `a - b`, which fits.
fn difference(a: i128, b: i128) -> i128
    requires left { IsConvertible a }
    requires right { IsConvertible b }
    ensures { result ≡ a -ℤ b }
{
    a - b
}

/// `-a`, which fits.
fn opposite(a: i128) -> i128
    requires { IsConvertible a }
    ensures { result ≡ neg_ℤ a }
{
    -a
}

/// The product of numbers whose product fits.
#[tactic(auto, using(crate::proofs::Products::product_fits))]
fn product(a: i128, b: i128) -> i128
    requires left { unsigned_abs a < 2 ^ 64 }
    requires right { unsigned_abs b ≤ 2 ^ 63 }
    ensures { result ≡ a *ℤ b }
{
    a * b
}

/// The product of two numbers without sign, modulo two to the width. It may not fit an `i128`.
#[tactic(auto, using(crate::proofs::Products::unsigned_product_fits))]
fn unsigned_product(kind: IntKind, a: u64, b: u64) -> i128
    ensures { result ≡ pos (bits_of kind (pos (a * b))) }
{
    low_bits(kind, a as u128 * b as u128) as i128
}

/// The absolute value, which fits into 64 bits.
fn magnitude(n: i128) -> u64
    requires { unsigned_abs n < 2 ^ 64 }
    ensures { result ≡ unsigned_abs n }
{
    n.unsigned_abs() as u64
}

/// The number of an absolute value, negative or not.
fn with_sign(negative: bool, n: u64) -> i128
    ensures { result ≡ (if negative then neg_ℤ (pos n) else pos n) }
{
    if negative { -(n as i128) } else { n as i128 }
}

/// Whether one of two numbers is negative and the other one not.
fn differ_in_sign(a: i128, b: i128) -> bool
    ensures { result ≡ (if int_lt a (pos 0) then int_le (pos 0) b else int_lt b (pos 0)) }
{
    if a < 0 { 0 <= b } else { b < 0 }
}

// A processor divides numbers of 64 bits several times as fast as those of 128, and absolute values of members fit into 64.

/// The quotient toward zero.
#[tactic(auto, using(crate::proofs::Quotients::quotient_by, crate::proofs::Quotients::some_magnitude))]
fn quotient(a: i128, b: i128) -> i128
    requires nonzero { IsFalse (is_zero b) }
    requires dividend { unsigned_abs a < 2 ^ 64 }
    requires divisor { unsigned_abs b < 2 ^ 64 }
    ensures { result ≡ int_div a b }
{
    with_sign(differ_in_sign(a, b), magnitude(a) / magnitude(b))
}

/// What the quotient toward zero leaves; it has the dividend's sign.
#[tactic(auto, using(crate::proofs::Quotients::remainder_by, crate::proofs::Quotients::some_magnitude))]
fn remainder(a: i128, b: i128) -> i128
    requires nonzero { IsFalse (is_zero b) }
    requires dividend { unsigned_abs a < 2 ^ 64 }
    requires divisor { unsigned_abs b < 2 ^ 64 }
    ensures { result ≡ int_rem a b }
{
    with_sign(a < 0, magnitude(a) % magnitude(b))
}

/// Whether `n` is zero.
fn is_zero(n: i128) -> bool
    ensures { result ≡ is_zero n }
{
    n == 0
}

/// Two to the power of a count below 64.
#[tactic(auto, using(crate::proofs::Products::power_fits))]
fn power(by: i128) -> i128
    requires low { pos 0 ≤ℤ by }
    requires high { by <ℤ pos 64 }
    ensures value { result ≡ pos (2 ^ unsigned_abs by) }
    ensures bound { unsigned_abs result ≤ 2 ^ 63 }
    ensures positive { pos 0 <ℤ result }
{
    let one: u64 = 1;
    (one << (by as u32)) as i128
}

/// The exact number at the kind: modulo 2^width where that is unsigned, the overflow where it does not fit.
fn exact(kind: IntKind, n: i128) -> Result<i128, ArithmeticFault>
    ensures { result ≡ exact_of kind n }
{
    if is_signed(kind) {
        if fits(kind, n) {
            Ok(n)
        } else {
            Err(ArithmeticFault::Overflow)
        }
    } else {
        Ok(bits(kind, n) as i128)
    }
}

fn add(kind: IntKind, a: i128, b: i128) -> Result<i128, ArithmeticFault>
    requires left { Fits kind a }
    requires right { Fits kind b }
    ensures { result ≡ exact_of kind (a +ℤ b) }
{
    exact(kind, sum(a, b))
}

fn subtract(kind: IntKind, a: i128, b: i128) -> Result<i128, ArithmeticFault>
    requires left { Fits kind a }
    requires right { Fits kind b }
    ensures { result ≡ exact_of kind (a -ℤ b) }
{
    exact(kind, difference(a, b))
}

fn negate(kind: IntKind, a: i128) -> Result<i128, ArithmeticFault>
    requires { Fits kind a }
    ensures { result ≡ exact_of kind (neg_ℤ a) }
{
    exact(kind, opposite(a))
}

fn multiply(kind: IntKind, a: i128, b: i128) -> Result<i128, ArithmeticFault>
    requires left { Fits kind a }
    requires right { Fits kind b }
    ensures { result ≡ exact_of kind (a *ℤ b) }
{
    if is_signed(kind) {
        exact(kind, product(a, b))
    } else {
        Ok(unsigned_product(kind, a as u64, b as u64))
    }
}

fn divide(kind: IntKind, a: i128, b: i128) -> Result<i128, ArithmeticFault>
    requires left { Fits kind a }
    requires right { Fits kind b }
    ensures { result ≡ quotient_of kind a b }
{
    if is_zero(b) {
        return Err(ArithmeticFault::ZeroDivisor);
    }
    let quotient = quotient(a, b);
    if fits(kind, quotient) {
        Ok(quotient)
    } else {
        Err(ArithmeticFault::Quotient)
    }
}

/// What the division leaves, which is undefined wherever the quotient is.
fn divide_for_remainder(kind: IntKind, a: i128, b: i128) -> Result<i128, ArithmeticFault>
    requires left { Fits kind a }
    requires right { Fits kind b }
    ensures { result ≡ remainder_of kind a b }
{
    if is_zero(b) {
        return Err(ArithmeticFault::ZeroDivisor);
    }
    if fits(kind, quotient(a, b)) {
        Ok(remainder(a, b))
    } else {
        Err(ArithmeticFault::Quotient)
    }
}

/// Whether a shift may have this count.
fn may_shift(kind: IntKind, by: i128) -> bool
    ensures { result ≡ is_count kind by }
{
    0 <= by && by < i128::from(width(kind))
}

fn shift_left(kind: IntKind, a: i128, b: i128) -> Result<i128, ArithmeticFault>
    requires { Fits kind a }
    ensures { result ≡ shift_left_of kind a b }
{
    if !may_shift(kind, b) {
        return Err(ArithmeticFault::Count);
    }
    let moved = product(a, power(b));
    if is_signed(kind) {
        shifted(kind, a, moved)
    } else {
        Ok(bits(kind, moved) as i128)
    }
}

/// The shifted number `moved` of `a` at a signed kind, where it is defined.
fn shifted(kind: IntKind, a: i128, moved: i128) -> Result<i128, ArithmeticFault>
    ensures { result ≡ (if int_le (pos 0) a && fits_of kind moved then Ok moved else Err ArithmeticFault.Shift) }
{
    let may = 0 <= a && fits(kind, moved);
    if may {
        Ok(moved)
    } else {
        Err(ArithmeticFault::Shift)
    }
}

/// `a` divided by two to the power of a count below 64, and rounded down.
#[tactic(auto, using(crate::proofs::Quotients::halved_by))]
fn halved(a: i128, by: i128) -> i128
    requires low { pos 0 ≤ℤ by }
    requires high { by <ℤ pos 64 }
    ensures { result ≡ int_div_euclid a (pos (2 ^ unsigned_abs by)) }
{
    a >> (by as u32)
}

fn shift_right(kind: IntKind, a: i128, b: i128) -> Result<i128, ArithmeticFault>
    requires { Fits kind a }
    ensures { result ≡ shift_right_of kind a b }
{
    if !may_shift(kind, b) {
        return Err(ArithmeticFault::Count);
    }
    Ok(halved(a, b))
}

#[tactic(auto, using(crate::proofs::Bitwise::and_fits))]
fn and(kind: IntKind, a: i128, b: i128) -> i128
    ensures { result ≡ bitwise_of bit_and kind a b }
{
    from_bits(kind, bits(kind, a) & bits(kind, b))
}

#[tactic(auto, using(crate::proofs::Bitwise::or_fits))]
fn or(kind: IntKind, a: i128, b: i128) -> i128
    ensures { result ≡ bitwise_of bit_or kind a b }
{
    from_bits(kind, bits(kind, a) | bits(kind, b))
}

#[tactic(auto, using(crate::proofs::Bitwise::xor_fits))]
fn exclusive_or(kind: IntKind, a: i128, b: i128) -> i128
    ensures { result ≡ bitwise_of bit_xor kind a b }
{
    from_bits(kind, bits(kind, a) ^ bits(kind, b))
}

/// The bits, each inverted.
fn inverted(kind: IntKind, bits: u64) -> u64
    requires { bits < modulus_of kind }
    ensures value { result ≡ modulus_of kind - 1 - bits }
    ensures bound { result < modulus_of kind }
{
    match kind {
        IntKind::Bool | IntKind::Char | IntKind::SChar | IntKind::UChar => 0xff - bits,
        IntKind::Short | IntKind::UShort => 0xffff - bits,
        IntKind::Int | IntKind::UInt => 0xffff_ffff - bits,
        IntKind::Long | IntKind::ULong | IntKind::LLong | IntKind::ULLong => !bits,
    }
}

fn complement(kind: IntKind, a: i128) -> i128
    ensures { result ≡ complement_of kind a }
{
    from_bits(kind, inverted(kind, bits(kind, a)))
}

/// The `int` that a comparison yields.
fn truth(holds: bool) -> i128
    ensures { result ≡ one_if holds }
{
    if holds { 1 } else { 0 }
}
