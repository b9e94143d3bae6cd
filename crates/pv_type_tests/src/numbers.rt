// What C17 gives at the edges of every kind: from a reference in another language, and from a C compiler
// where C defines the value.
ghost use Rattle.std.specs.Prelude.{IsTrue};
ghost use Rattle.pv_num.specs.Arithmetic.{IsPromoted};
ghost use Rattle.pv_num.specs.Operands.{IsOperand, IsConvertible};

use Call::{Binary, Convert, Fits, Unary};
use pv_fault::{Clause, Reason};
use pv_num::BinOp::{Add, And, Div, Eq, Ge, Gt, Le, Lt, Mul, Ne, Or, Rem, Shl, Shr, Sub, Xor};
use pv_num::IntKind::{
    Bool, Char, Int, LLong, Long, SChar, Short, UChar, UInt, ULLong, ULong, UShort,
};
use pv_num::UnOp::{Flip, Minus, Plus};
use pv_num::{ArithmeticFault, BinOp, IntKind, UnOp, binary, convert, fits, unary};
use std::process::Abort;

const OVERFLOW: ArithmeticFault = ArithmeticFault::Overflow;

const DIVIDE: ArithmeticFault = ArithmeticFault::ZeroDivisor;

const QUOTIENT: ArithmeticFault = ArithmeticFault::Quotient;

const COUNT: ArithmeticFault = ArithmeticFault::Count;

const SHIFT: ArithmeticFault = ArithmeticFault::Shift;

/// A call of this crate.
#[derive(Clone, Copy, Debug)]
enum Call {
    Binary(BinOp, IntKind, i128, i128),
    Unary(UnOp, IntKind, i128),
    Convert(IntKind, i128),
    /// Its answer is 1 for true.
    Fits(IntKind, i128),
}

/// A call and what it gives.
#[derive(Clone, Copy)]
struct Case(Call, Result<i128, ArithmeticFault>);

// The limits that <limits.h> gives on the target, and 2^64.
const SCHAR_MIN: i128 = -0x80;

const SCHAR_MAX: i128 = 0x7f;

const UCHAR_MAX: i128 = 0xff;

const SHRT_MIN: i128 = -0x8000;

const SHRT_MAX: i128 = 0x7fff;

const USHRT_MAX: i128 = 0xffff;

const INT_MIN: i128 = -0x8000_0000;

const INT_MAX: i128 = 0x7fff_ffff;

const UINT_MAX: i128 = 0xffff_ffff;

const LONG_MIN: i128 = -0x8000_0000_0000_0000;

const LONG_MAX: i128 = 0x7fff_ffff_ffff_ffff;

const ULONG_MAX: i128 = 0xffff_ffff_ffff_ffff;

const TWO_64: i128 = 0x1_0000_0000_0000_0000;

/// The edges of every kind.
static CASES: [Case; 447] = [
    Case(Binary(Add, Int, INT_MAX, 0), Ok(INT_MAX)),
    Case(Binary(Add, Int, INT_MAX, 1), Err(OVERFLOW)),
    Case(Binary(Add, Int, INT_MIN, -1), Err(OVERFLOW)),
    Case(Binary(Add, Int, INT_MIN, INT_MAX), Ok(-1)),
    Case(Binary(Sub, Int, INT_MIN, 1), Err(OVERFLOW)),
    Case(Binary(Sub, Int, 0, INT_MIN), Err(OVERFLOW)),
    Case(Binary(Sub, Int, -1, INT_MIN), Ok(INT_MAX)),
    Case(Binary(Mul, Int, INT_MIN, -1), Err(OVERFLOW)),
    Case(Binary(Mul, Int, SHRT_MAX + 1, USHRT_MAX + 1), Err(OVERFLOW)),
    Case(Binary(Mul, Int, SHRT_MIN, USHRT_MAX + 1), Ok(INT_MIN)),
    Case(Binary(Div, Int, INT_MIN, -1), Err(QUOTIENT)),
    Case(Binary(Div, Int, INT_MIN, 0), Err(DIVIDE)),
    Case(Binary(Div, Int, -7, 2), Ok(-3)),
    Case(Binary(Div, Int, 7, -2), Ok(-3)),
    Case(Binary(Rem, Int, INT_MIN, -1), Err(QUOTIENT)),
    Case(Binary(Rem, Int, 7, 0), Err(DIVIDE)),
    Case(Binary(Rem, Int, -7, 2), Ok(-1)),
    Case(Binary(Rem, Int, 7, -2), Ok(1)),
    Case(Binary(Shl, Int, 1, 31), Err(SHIFT)),
    Case(Binary(Shl, Int, 1, 30), Ok(0x4000_0000)),
    Case(Binary(Shl, Int, -1, 0), Err(SHIFT)),
    Case(Binary(Shl, Int, -1, 32), Err(COUNT)),
    Case(Binary(Shl, Int, 1, -1), Err(COUNT)),
    Case(Binary(Shl, Int, 1, 32), Err(COUNT)),
    Case(Binary(Shl, Int, 1, ULONG_MAX), Err(COUNT)),
    Case(Binary(Shl, Int, 0, 31), Ok(0)),
    Case(Binary(Shr, Int, -1, 1), Ok(-1)),
    Case(Binary(Shr, Int, INT_MIN, 31), Ok(-1)),
    Case(Binary(Shr, Int, -5, 1), Ok(-3)),
    Case(Binary(Shr, Int, INT_MAX, 31), Ok(0)),
    Case(Binary(Shr, Int, -1, 32), Err(COUNT)),
    Case(Binary(Shr, Int, 1, -1), Err(COUNT)),
    Case(Binary(Shr, Int, 1, ULONG_MAX), Err(COUNT)),
    Case(Binary(And, Int, INT_MIN, -1), Ok(INT_MIN)),
    Case(Binary(And, Int, INT_MAX, INT_MIN), Ok(0)),
    Case(Binary(Or, Int, INT_MIN, INT_MAX), Ok(-1)),
    Case(Binary(Xor, Int, -1, INT_MAX), Ok(INT_MIN)),
    Case(Binary(Lt, Int, INT_MIN, INT_MAX), Ok(1)),
    Case(Binary(Lt, Int, INT_MAX, INT_MIN), Ok(0)),
    Case(Binary(Gt, Int, -1, 0), Ok(0)),
    Case(Binary(Gt, Int, 0, -1), Ok(1)),
    Case(Binary(Eq, Int, INT_MIN, INT_MIN), Ok(1)),
    Case(Binary(Ne, Int, INT_MIN, INT_MAX), Ok(1)),
    Case(Binary(Sub, Int, INT_MAX, -1), Err(OVERFLOW)),
    Case(Binary(Mul, Int, INT_MAX, INT_MAX), Err(OVERFLOW)),
    Case(Binary(Mul, Int, INT_MIN, INT_MIN), Err(OVERFLOW)),
    Case(Binary(Div, Int, -7, -2), Ok(3)),
    Case(Binary(Div, Int, INT_MIN, 1), Ok(INT_MIN)),
    Case(Binary(Rem, Int, INT_MIN, INT_MAX), Ok(-1)),
    Case(Binary(Rem, Int, -7, -2), Ok(-1)),
    Case(Binary(Rem, Int, INT_MIN, 0), Err(DIVIDE)),
    Case(Binary(Shl, Int, INT_MAX, 1), Err(SHIFT)),
    Case(Binary(Shl, Int, 3, 30), Err(SHIFT)),
    Case(Binary(Shl, Int, 1, LONG_MIN), Err(COUNT)),
    Case(Binary(Shr, Int, -7, 0), Ok(-7)),
    Case(Binary(Shr, Int, 5, 1), Ok(2)),
    Case(Binary(And, Int, -6, 3), Ok(2)),
    Case(Binary(Or, Int, -6, 3), Ok(-5)),
    Case(Binary(Xor, Int, -6, 3), Ok(-7)),
    Case(Binary(Le, Int, INT_MIN, INT_MIN), Ok(1)),
    Case(Binary(Le, Int, 0, -1), Ok(0)),
    Case(Binary(Ge, Int, INT_MIN, INT_MIN), Ok(1)),
    Case(Binary(Ge, Int, -1, 0), Ok(0)),
    Case(Binary(Eq, Int, 0, -1), Ok(0)),
    Case(Binary(Ne, Int, INT_MIN, INT_MIN), Ok(0)),
    Case(Binary(Lt, Int, 0, 0), Ok(0)),
    Case(Binary(Gt, Int, 0, 0), Ok(0)),
    Case(Binary(Add, Long, LONG_MAX, 0), Ok(LONG_MAX)),
    Case(Binary(Add, Long, LONG_MAX, 1), Err(OVERFLOW)),
    Case(Binary(Add, Long, LONG_MIN, -1), Err(OVERFLOW)),
    Case(Binary(Add, Long, LONG_MIN, LONG_MAX), Ok(-1)),
    Case(Binary(Sub, Long, LONG_MIN, 1), Err(OVERFLOW)),
    Case(Binary(Sub, Long, 0, LONG_MIN), Err(OVERFLOW)),
    Case(Binary(Sub, Long, -1, LONG_MIN), Ok(LONG_MAX)),
    Case(Binary(Mul, Long, LONG_MIN, -1), Err(OVERFLOW)),
    Case(Binary(Mul, Long, INT_MAX + 1, UINT_MAX + 1), Err(OVERFLOW)),
    Case(Binary(Mul, Long, INT_MIN, UINT_MAX + 1), Ok(LONG_MIN)),
    Case(Binary(Div, Long, LONG_MIN, -1), Err(QUOTIENT)),
    Case(Binary(Div, Long, LONG_MIN, 0), Err(DIVIDE)),
    Case(Binary(Div, Long, -7, 2), Ok(-3)),
    Case(Binary(Div, Long, 7, -2), Ok(-3)),
    Case(Binary(Rem, Long, LONG_MIN, -1), Err(QUOTIENT)),
    Case(Binary(Rem, Long, 7, 0), Err(DIVIDE)),
    Case(Binary(Rem, Long, -7, 2), Ok(-1)),
    Case(Binary(Rem, Long, 7, -2), Ok(1)),
    Case(Binary(Shl, Long, 1, 63), Err(SHIFT)),
    Case(Binary(Shl, Long, 1, 62), Ok(0x4000_0000_0000_0000)),
    Case(Binary(Shl, Long, -1, 0), Err(SHIFT)),
    Case(Binary(Shl, Long, -1, 64), Err(COUNT)),
    Case(Binary(Shl, Long, 1, -1), Err(COUNT)),
    Case(Binary(Shl, Long, 1, 64), Err(COUNT)),
    Case(Binary(Shl, Long, 1, ULONG_MAX), Err(COUNT)),
    Case(Binary(Shl, Long, 0, 63), Ok(0)),
    Case(Binary(Shr, Long, -1, 1), Ok(-1)),
    Case(Binary(Shr, Long, LONG_MIN, 63), Ok(-1)),
    Case(Binary(Shr, Long, -5, 1), Ok(-3)),
    Case(Binary(Shr, Long, LONG_MAX, 63), Ok(0)),
    Case(Binary(Shr, Long, -1, 64), Err(COUNT)),
    Case(Binary(Shr, Long, 1, -1), Err(COUNT)),
    Case(Binary(Shr, Long, 1, ULONG_MAX), Err(COUNT)),
    Case(Binary(And, Long, LONG_MIN, -1), Ok(LONG_MIN)),
    Case(Binary(And, Long, LONG_MAX, LONG_MIN), Ok(0)),
    Case(Binary(Or, Long, LONG_MIN, LONG_MAX), Ok(-1)),
    Case(Binary(Xor, Long, -1, LONG_MAX), Ok(LONG_MIN)),
    Case(Binary(Lt, Long, LONG_MIN, LONG_MAX), Ok(1)),
    Case(Binary(Lt, Long, LONG_MAX, LONG_MIN), Ok(0)),
    Case(Binary(Gt, Long, -1, 0), Ok(0)),
    Case(Binary(Gt, Long, 0, -1), Ok(1)),
    Case(Binary(Eq, Long, LONG_MIN, LONG_MIN), Ok(1)),
    Case(Binary(Ne, Long, LONG_MIN, LONG_MAX), Ok(1)),
    Case(Binary(Sub, Long, LONG_MAX, -1), Err(OVERFLOW)),
    Case(Binary(Mul, Long, LONG_MAX, LONG_MAX), Err(OVERFLOW)),
    Case(Binary(Mul, Long, LONG_MIN, LONG_MIN), Err(OVERFLOW)),
    Case(Binary(Div, Long, -7, -2), Ok(3)),
    Case(Binary(Div, Long, LONG_MIN, 1), Ok(LONG_MIN)),
    Case(Binary(Rem, Long, LONG_MIN, LONG_MAX), Ok(-1)),
    Case(Binary(Rem, Long, -7, -2), Ok(-1)),
    Case(Binary(Rem, Long, LONG_MIN, 0), Err(DIVIDE)),
    Case(Binary(Shl, Long, LONG_MAX, 1), Err(SHIFT)),
    Case(Binary(Shl, Long, 3, 62), Err(SHIFT)),
    Case(Binary(Shl, Long, 1, LONG_MIN), Err(COUNT)),
    Case(Binary(Shr, Long, -7, 0), Ok(-7)),
    Case(Binary(Shr, Long, 5, 1), Ok(2)),
    Case(Binary(And, Long, -6, 3), Ok(2)),
    Case(Binary(Or, Long, -6, 3), Ok(-5)),
    Case(Binary(Xor, Long, -6, 3), Ok(-7)),
    Case(Binary(Le, Long, LONG_MIN, LONG_MIN), Ok(1)),
    Case(Binary(Le, Long, 0, -1), Ok(0)),
    Case(Binary(Ge, Long, LONG_MIN, LONG_MIN), Ok(1)),
    Case(Binary(Ge, Long, -1, 0), Ok(0)),
    Case(Binary(Eq, Long, 0, -1), Ok(0)),
    Case(Binary(Ne, Long, LONG_MIN, LONG_MIN), Ok(0)),
    Case(Binary(Lt, Long, 0, 0), Ok(0)),
    Case(Binary(Gt, Long, 0, 0), Ok(0)),
    Case(Binary(Add, LLong, LONG_MAX, 0), Ok(LONG_MAX)),
    Case(Binary(Add, LLong, LONG_MAX, 1), Err(OVERFLOW)),
    Case(Binary(Add, LLong, LONG_MIN, -1), Err(OVERFLOW)),
    Case(Binary(Add, LLong, LONG_MIN, LONG_MAX), Ok(-1)),
    Case(Binary(Sub, LLong, LONG_MIN, 1), Err(OVERFLOW)),
    Case(Binary(Sub, LLong, 0, LONG_MIN), Err(OVERFLOW)),
    Case(Binary(Sub, LLong, -1, LONG_MIN), Ok(LONG_MAX)),
    Case(Binary(Mul, LLong, LONG_MIN, -1), Err(OVERFLOW)),
    Case(Binary(Mul, LLong, INT_MAX + 1, UINT_MAX + 1), Err(OVERFLOW)),
    Case(Binary(Mul, LLong, INT_MIN, UINT_MAX + 1), Ok(LONG_MIN)),
    Case(Binary(Div, LLong, LONG_MIN, -1), Err(QUOTIENT)),
    Case(Binary(Div, LLong, LONG_MIN, 0), Err(DIVIDE)),
    Case(Binary(Div, LLong, -7, 2), Ok(-3)),
    Case(Binary(Div, LLong, 7, -2), Ok(-3)),
    Case(Binary(Rem, LLong, LONG_MIN, -1), Err(QUOTIENT)),
    Case(Binary(Rem, LLong, 7, 0), Err(DIVIDE)),
    Case(Binary(Rem, LLong, -7, 2), Ok(-1)),
    Case(Binary(Rem, LLong, 7, -2), Ok(1)),
    Case(Binary(Shl, LLong, 1, 63), Err(SHIFT)),
    Case(Binary(Shl, LLong, 1, 62), Ok(0x4000_0000_0000_0000)),
    Case(Binary(Shl, LLong, -1, 0), Err(SHIFT)),
    Case(Binary(Shl, LLong, -1, 64), Err(COUNT)),
    Case(Binary(Shl, LLong, 1, -1), Err(COUNT)),
    Case(Binary(Shl, LLong, 1, 64), Err(COUNT)),
    Case(Binary(Shl, LLong, 1, ULONG_MAX), Err(COUNT)),
    Case(Binary(Shl, LLong, 0, 63), Ok(0)),
    Case(Binary(Shr, LLong, -1, 1), Ok(-1)),
    Case(Binary(Shr, LLong, LONG_MIN, 63), Ok(-1)),
    Case(Binary(Shr, LLong, -5, 1), Ok(-3)),
    Case(Binary(Shr, LLong, LONG_MAX, 63), Ok(0)),
    Case(Binary(Shr, LLong, -1, 64), Err(COUNT)),
    Case(Binary(Shr, LLong, 1, -1), Err(COUNT)),
    Case(Binary(Shr, LLong, 1, ULONG_MAX), Err(COUNT)),
    Case(Binary(And, LLong, LONG_MIN, -1), Ok(LONG_MIN)),
    Case(Binary(And, LLong, LONG_MAX, LONG_MIN), Ok(0)),
    Case(Binary(Or, LLong, LONG_MIN, LONG_MAX), Ok(-1)),
    Case(Binary(Xor, LLong, -1, LONG_MAX), Ok(LONG_MIN)),
    Case(Binary(Lt, LLong, LONG_MIN, LONG_MAX), Ok(1)),
    Case(Binary(Lt, LLong, LONG_MAX, LONG_MIN), Ok(0)),
    Case(Binary(Gt, LLong, -1, 0), Ok(0)),
    Case(Binary(Gt, LLong, 0, -1), Ok(1)),
    Case(Binary(Eq, LLong, LONG_MIN, LONG_MIN), Ok(1)),
    Case(Binary(Ne, LLong, LONG_MIN, LONG_MAX), Ok(1)),
    Case(Binary(Add, UInt, UINT_MAX, 1), Ok(0)),
    Case(Binary(Add, UInt, UINT_MAX, UINT_MAX), Ok(UINT_MAX - 1)),
    Case(Binary(Sub, UInt, 0, 1), Ok(UINT_MAX)),
    Case(Binary(Sub, UInt, 0, UINT_MAX), Ok(1)),
    Case(Binary(Mul, UInt, UINT_MAX, UINT_MAX), Ok(1)),
    Case(Binary(Mul, UInt, USHRT_MAX + 1, USHRT_MAX + 1), Ok(0)),
    Case(Binary(Mul, UInt, USHRT_MAX + 1, USHRT_MAX), Ok(0xffff_0000)),
    Case(Binary(Div, UInt, UINT_MAX, 0), Err(DIVIDE)),
    Case(Binary(Div, UInt, UINT_MAX, 2), Ok(INT_MAX)),
    Case(Binary(Rem, UInt, 0, 0), Err(DIVIDE)),
    Case(Binary(Rem, UInt, UINT_MAX, 10), Ok(5)),
    Case(Binary(Shl, UInt, 1, 31), Ok(INT_MAX + 1)),
    Case(Binary(Shl, UInt, UINT_MAX, 1), Ok(UINT_MAX - 1)),
    Case(Binary(Shl, UInt, 1, 32), Err(COUNT)),
    Case(Binary(Shl, UInt, 1, -1), Err(COUNT)),
    Case(Binary(Shl, UInt, 1, ULONG_MAX), Err(COUNT)),
    Case(Binary(Shr, UInt, UINT_MAX, 31), Ok(1)),
    Case(Binary(Shr, UInt, UINT_MAX, 32), Err(COUNT)),
    Case(Binary(Shr, UInt, UINT_MAX, -1), Err(COUNT)),
    Case(
        Binary(And, UInt, UINT_MAX, USHRT_MAX + 1),
        Ok(USHRT_MAX + 1),
    ),
    Case(Binary(Or, UInt, UINT_MAX - 1, 1), Ok(UINT_MAX)),
    Case(Binary(Xor, UInt, UINT_MAX, 1), Ok(UINT_MAX - 1)),
    Case(Binary(Lt, UInt, 0, UINT_MAX), Ok(1)),
    Case(Binary(Gt, UInt, UINT_MAX, 0), Ok(1)),
    Case(Binary(Eq, UInt, UINT_MAX, UINT_MAX), Ok(1)),
    Case(Binary(Add, UInt, 1, 2), Ok(3)),
    Case(Binary(Sub, UInt, UINT_MAX, UINT_MAX), Ok(0)),
    Case(Binary(Mul, UInt, UINT_MAX, 2), Ok(UINT_MAX - 1)),
    Case(Binary(Div, UInt, 7, 2), Ok(3)),
    Case(Binary(Rem, UInt, 7, 2), Ok(1)),
    Case(Binary(Shl, UInt, UINT_MAX, 0), Ok(UINT_MAX)),
    Case(Binary(Shl, UInt, UINT_MAX, 31), Ok(INT_MAX + 1)),
    Case(Binary(Shr, UInt, UINT_MAX, 0), Ok(UINT_MAX)),
    Case(Binary(Shr, UInt, 1, ULONG_MAX), Err(COUNT)),
    Case(Binary(Shr, UInt, 1, LONG_MIN), Err(COUNT)),
    Case(Binary(Le, UInt, UINT_MAX, 0), Ok(0)),
    Case(Binary(Ge, UInt, UINT_MAX, 0), Ok(1)),
    Case(Binary(Ne, UInt, 0, UINT_MAX), Ok(1)),
    Case(Binary(Lt, UInt, UINT_MAX, UINT_MAX), Ok(0)),
    Case(Binary(Add, ULong, ULONG_MAX, 1), Ok(0)),
    Case(
        Binary(Add, ULong, ULONG_MAX, ULONG_MAX),
        Ok(0xffff_ffff_ffff_fffe),
    ),
    Case(Binary(Sub, ULong, 0, 1), Ok(ULONG_MAX)),
    Case(Binary(Sub, ULong, 0, ULONG_MAX), Ok(1)),
    Case(Binary(Mul, ULong, ULONG_MAX, ULONG_MAX), Ok(1)),
    Case(Binary(Mul, ULong, UINT_MAX + 1, UINT_MAX + 1), Ok(0)),
    Case(
        Binary(Mul, ULong, UINT_MAX + 1, UINT_MAX),
        Ok(0xffff_ffff_0000_0000),
    ),
    Case(Binary(Div, ULong, ULONG_MAX, 0), Err(DIVIDE)),
    Case(Binary(Div, ULong, ULONG_MAX, 2), Ok(LONG_MAX)),
    Case(Binary(Rem, ULong, 0, 0), Err(DIVIDE)),
    Case(Binary(Rem, ULong, ULONG_MAX, 10), Ok(5)),
    Case(Binary(Shl, ULong, 1, 63), Ok(LONG_MAX + 1)),
    Case(Binary(Shl, ULong, ULONG_MAX, 1), Ok(0xffff_ffff_ffff_fffe)),
    Case(Binary(Shl, ULong, 1, 64), Err(COUNT)),
    Case(Binary(Shl, ULong, 1, -1), Err(COUNT)),
    Case(Binary(Shl, ULong, 1, ULONG_MAX), Err(COUNT)),
    Case(Binary(Shr, ULong, ULONG_MAX, 63), Ok(1)),
    Case(Binary(Shr, ULong, ULONG_MAX, 64), Err(COUNT)),
    Case(Binary(Shr, ULong, ULONG_MAX, -1), Err(COUNT)),
    Case(
        Binary(And, ULong, ULONG_MAX, UINT_MAX + 1),
        Ok(UINT_MAX + 1),
    ),
    Case(Binary(Or, ULong, 0xffff_ffff_ffff_fffe, 1), Ok(ULONG_MAX)),
    Case(Binary(Xor, ULong, ULONG_MAX, 1), Ok(0xffff_ffff_ffff_fffe)),
    Case(Binary(Lt, ULong, 0, ULONG_MAX), Ok(1)),
    Case(Binary(Gt, ULong, ULONG_MAX, 0), Ok(1)),
    Case(Binary(Eq, ULong, ULONG_MAX, ULONG_MAX), Ok(1)),
    Case(Binary(Add, ULong, 1, 2), Ok(3)),
    Case(Binary(Sub, ULong, ULONG_MAX, ULONG_MAX), Ok(0)),
    Case(Binary(Mul, ULong, ULONG_MAX, 2), Ok(0xffff_ffff_ffff_fffe)),
    Case(Binary(Div, ULong, 7, 2), Ok(3)),
    Case(Binary(Rem, ULong, 7, 2), Ok(1)),
    Case(Binary(Shl, ULong, ULONG_MAX, 0), Ok(ULONG_MAX)),
    Case(Binary(Shl, ULong, ULONG_MAX, 63), Ok(LONG_MAX + 1)),
    Case(Binary(Shr, ULong, ULONG_MAX, 0), Ok(ULONG_MAX)),
    Case(Binary(Shr, ULong, 1, ULONG_MAX), Err(COUNT)),
    Case(Binary(Shr, ULong, 1, LONG_MIN), Err(COUNT)),
    Case(Binary(Le, ULong, ULONG_MAX, 0), Ok(0)),
    Case(Binary(Ge, ULong, ULONG_MAX, 0), Ok(1)),
    Case(Binary(Ne, ULong, 0, ULONG_MAX), Ok(1)),
    Case(Binary(Lt, ULong, ULONG_MAX, ULONG_MAX), Ok(0)),
    Case(Binary(Add, ULLong, ULONG_MAX, 1), Ok(0)),
    Case(
        Binary(Add, ULLong, ULONG_MAX, ULONG_MAX),
        Ok(0xffff_ffff_ffff_fffe),
    ),
    Case(Binary(Sub, ULLong, 0, 1), Ok(ULONG_MAX)),
    Case(Binary(Sub, ULLong, 0, ULONG_MAX), Ok(1)),
    Case(Binary(Mul, ULLong, ULONG_MAX, ULONG_MAX), Ok(1)),
    Case(Binary(Mul, ULLong, UINT_MAX + 1, UINT_MAX + 1), Ok(0)),
    Case(
        Binary(Mul, ULLong, UINT_MAX + 1, UINT_MAX),
        Ok(0xffff_ffff_0000_0000),
    ),
    Case(Binary(Div, ULLong, ULONG_MAX, 0), Err(DIVIDE)),
    Case(Binary(Div, ULLong, ULONG_MAX, 2), Ok(LONG_MAX)),
    Case(Binary(Rem, ULLong, 0, 0), Err(DIVIDE)),
    Case(Binary(Rem, ULLong, ULONG_MAX, 10), Ok(5)),
    Case(Binary(Shl, ULLong, 1, 63), Ok(LONG_MAX + 1)),
    Case(Binary(Shl, ULLong, ULONG_MAX, 1), Ok(0xffff_ffff_ffff_fffe)),
    Case(Binary(Shl, ULLong, 1, 64), Err(COUNT)),
    Case(Binary(Shl, ULLong, 1, -1), Err(COUNT)),
    Case(Binary(Shl, ULLong, 1, ULONG_MAX), Err(COUNT)),
    Case(Binary(Shr, ULLong, ULONG_MAX, 63), Ok(1)),
    Case(Binary(Shr, ULLong, ULONG_MAX, 64), Err(COUNT)),
    Case(Binary(Shr, ULLong, ULONG_MAX, -1), Err(COUNT)),
    Case(
        Binary(And, ULLong, ULONG_MAX, UINT_MAX + 1),
        Ok(UINT_MAX + 1),
    ),
    Case(Binary(Or, ULLong, 0xffff_ffff_ffff_fffe, 1), Ok(ULONG_MAX)),
    Case(Binary(Xor, ULLong, ULONG_MAX, 1), Ok(0xffff_ffff_ffff_fffe)),
    Case(Binary(Lt, ULLong, 0, ULONG_MAX), Ok(1)),
    Case(Binary(Gt, ULLong, ULONG_MAX, 0), Ok(1)),
    Case(Binary(Eq, ULLong, ULONG_MAX, ULONG_MAX), Ok(1)),
    Case(Unary(Plus, Int, INT_MIN), Ok(INT_MIN)),
    Case(Unary(Plus, Int, INT_MAX), Ok(INT_MAX)),
    Case(Unary(Plus, Int, -1), Ok(-1)),
    Case(Unary(Minus, Int, INT_MIN), Err(OVERFLOW)),
    Case(Unary(Minus, Int, INT_MAX), Ok(INT_MIN + 1)),
    Case(Unary(Minus, Int, 0), Ok(0)),
    Case(Unary(Minus, Int, -1), Ok(1)),
    Case(Unary(Flip, Int, INT_MIN), Ok(INT_MAX)),
    Case(Unary(Flip, Int, INT_MAX), Ok(INT_MIN)),
    Case(Unary(Flip, Int, 0), Ok(-1)),
    Case(Unary(Flip, Int, -1), Ok(0)),
    Case(Unary(Plus, UInt, 1), Ok(1)),
    Case(Unary(Plus, UInt, UINT_MAX), Ok(UINT_MAX)),
    Case(Unary(Minus, UInt, 0), Ok(0)),
    Case(Unary(Minus, UInt, 1), Ok(UINT_MAX)),
    Case(Unary(Minus, UInt, UINT_MAX), Ok(1)),
    Case(Unary(Flip, UInt, 0), Ok(UINT_MAX)),
    Case(Unary(Flip, UInt, 1), Ok(UINT_MAX - 1)),
    Case(Unary(Flip, UInt, UINT_MAX), Ok(0)),
    Case(Unary(Plus, Long, LONG_MIN), Ok(LONG_MIN)),
    Case(Unary(Plus, Long, LONG_MAX), Ok(LONG_MAX)),
    Case(Unary(Plus, Long, -1), Ok(-1)),
    Case(Unary(Minus, Long, LONG_MIN), Err(OVERFLOW)),
    Case(Unary(Minus, Long, LONG_MAX), Ok(LONG_MIN + 1)),
    Case(Unary(Minus, Long, 0), Ok(0)),
    Case(Unary(Minus, Long, -1), Ok(1)),
    Case(Unary(Flip, Long, LONG_MIN), Ok(LONG_MAX)),
    Case(Unary(Flip, Long, LONG_MAX), Ok(LONG_MIN)),
    Case(Unary(Flip, Long, 0), Ok(-1)),
    Case(Unary(Flip, Long, -1), Ok(0)),
    Case(Unary(Plus, ULong, 1), Ok(1)),
    Case(Unary(Plus, ULong, ULONG_MAX), Ok(ULONG_MAX)),
    Case(Unary(Minus, ULong, 0), Ok(0)),
    Case(Unary(Minus, ULong, 1), Ok(ULONG_MAX)),
    Case(Unary(Minus, ULong, ULONG_MAX), Ok(1)),
    Case(Unary(Flip, ULong, 0), Ok(ULONG_MAX)),
    Case(Unary(Flip, ULong, 1), Ok(0xffff_ffff_ffff_fffe)),
    Case(Unary(Flip, ULong, ULONG_MAX), Ok(0)),
    Case(Unary(Plus, LLong, LONG_MIN), Ok(LONG_MIN)),
    Case(Unary(Plus, LLong, LONG_MAX), Ok(LONG_MAX)),
    Case(Unary(Plus, LLong, -1), Ok(-1)),
    Case(Unary(Minus, LLong, LONG_MIN), Err(OVERFLOW)),
    Case(Unary(Minus, LLong, LONG_MAX), Ok(LONG_MIN + 1)),
    Case(Unary(Minus, LLong, 0), Ok(0)),
    Case(Unary(Minus, LLong, -1), Ok(1)),
    Case(Unary(Flip, LLong, LONG_MIN), Ok(LONG_MAX)),
    Case(Unary(Flip, LLong, LONG_MAX), Ok(LONG_MIN)),
    Case(Unary(Flip, LLong, 0), Ok(-1)),
    Case(Unary(Flip, LLong, -1), Ok(0)),
    Case(Unary(Plus, ULLong, 1), Ok(1)),
    Case(Unary(Plus, ULLong, ULONG_MAX), Ok(ULONG_MAX)),
    Case(Unary(Minus, ULLong, 0), Ok(0)),
    Case(Unary(Minus, ULLong, 1), Ok(ULONG_MAX)),
    Case(Unary(Minus, ULLong, ULONG_MAX), Ok(1)),
    Case(Unary(Flip, ULLong, 0), Ok(ULONG_MAX)),
    Case(Unary(Flip, ULLong, 1), Ok(0xffff_ffff_ffff_fffe)),
    Case(Unary(Flip, ULLong, ULONG_MAX), Ok(0)),
    Case(Convert(Bool, 0), Ok(0)),
    Case(Convert(Bool, 1), Ok(1)),
    Case(Convert(Bool, 2), Ok(1)),
    Case(Convert(Bool, -1), Ok(1)),
    Case(Convert(Bool, UCHAR_MAX + 1), Ok(1)),
    Case(Convert(Bool, TWO_64), Ok(1)),
    Case(Convert(Bool, -TWO_64), Ok(1)),
    Case(Convert(Char, SCHAR_MAX + 1), Ok(SCHAR_MIN)),
    Case(Convert(Char, SCHAR_MIN - 1), Ok(SCHAR_MAX)),
    Case(Convert(Char, TWO_64), Ok(0)),
    Case(Convert(Char, -TWO_64), Ok(0)),
    Case(Convert(Char, 300), Ok(44)),
    Case(Convert(SChar, SCHAR_MAX + 1), Ok(SCHAR_MIN)),
    Case(Convert(SChar, SCHAR_MIN - 1), Ok(SCHAR_MAX)),
    Case(Convert(SChar, TWO_64), Ok(0)),
    Case(Convert(SChar, -TWO_64), Ok(0)),
    Case(Convert(SChar, 300), Ok(44)),
    Case(Convert(UChar, UCHAR_MAX + 1), Ok(0)),
    Case(Convert(UChar, -1), Ok(UCHAR_MAX)),
    Case(Convert(UChar, TWO_64), Ok(0)),
    Case(Convert(UChar, -TWO_64), Ok(0)),
    Case(Convert(UChar, 300), Ok(44)),
    Case(Convert(Short, SHRT_MAX + 1), Ok(SHRT_MIN)),
    Case(Convert(Short, SHRT_MIN - 1), Ok(SHRT_MAX)),
    Case(Convert(Short, TWO_64), Ok(0)),
    Case(Convert(Short, -TWO_64), Ok(0)),
    Case(Convert(Short, 300), Ok(300)),
    Case(Convert(UShort, USHRT_MAX + 1), Ok(0)),
    Case(Convert(UShort, -1), Ok(USHRT_MAX)),
    Case(Convert(UShort, TWO_64), Ok(0)),
    Case(Convert(UShort, -TWO_64), Ok(0)),
    Case(Convert(UShort, 300), Ok(300)),
    Case(Convert(Int, INT_MAX + 1), Ok(INT_MIN)),
    Case(Convert(Int, INT_MIN - 1), Ok(INT_MAX)),
    Case(Convert(Int, TWO_64), Ok(0)),
    Case(Convert(Int, -TWO_64), Ok(0)),
    Case(Convert(Int, 300), Ok(300)),
    Case(Convert(UInt, UINT_MAX + 1), Ok(0)),
    Case(Convert(UInt, -1), Ok(UINT_MAX)),
    Case(Convert(UInt, TWO_64), Ok(0)),
    Case(Convert(UInt, -TWO_64), Ok(0)),
    Case(Convert(UInt, 300), Ok(300)),
    Case(Convert(Long, LONG_MAX + 1), Ok(LONG_MIN)),
    Case(Convert(Long, LONG_MIN - 1), Ok(LONG_MAX)),
    Case(Convert(Long, TWO_64), Ok(0)),
    Case(Convert(Long, -TWO_64), Ok(0)),
    Case(Convert(Long, 300), Ok(300)),
    Case(Convert(ULong, TWO_64), Ok(0)),
    Case(Convert(ULong, -1), Ok(ULONG_MAX)),
    Case(Convert(ULong, -TWO_64), Ok(0)),
    Case(Convert(ULong, 300), Ok(300)),
    Case(Convert(LLong, LONG_MAX + 1), Ok(LONG_MIN)),
    Case(Convert(LLong, LONG_MIN - 1), Ok(LONG_MAX)),
    Case(Convert(LLong, TWO_64), Ok(0)),
    Case(Convert(LLong, -TWO_64), Ok(0)),
    Case(Convert(LLong, 300), Ok(300)),
    Case(Convert(ULLong, TWO_64), Ok(0)),
    Case(Convert(ULLong, -1), Ok(ULONG_MAX)),
    Case(Convert(ULLong, -TWO_64), Ok(0)),
    Case(Convert(ULLong, 300), Ok(300)),
    Case(Fits(Bool, -1), Ok(0)),
    Case(Fits(Bool, 0), Ok(1)),
    Case(Fits(Bool, 1), Ok(1)),
    Case(Fits(Bool, 2), Ok(0)),
    Case(Fits(Char, SCHAR_MIN - 1), Ok(0)),
    Case(Fits(Char, SCHAR_MIN), Ok(1)),
    Case(Fits(Char, SCHAR_MAX), Ok(1)),
    Case(Fits(Char, SCHAR_MAX + 1), Ok(0)),
    Case(Fits(SChar, SCHAR_MIN - 1), Ok(0)),
    Case(Fits(SChar, SCHAR_MIN), Ok(1)),
    Case(Fits(SChar, SCHAR_MAX), Ok(1)),
    Case(Fits(SChar, SCHAR_MAX + 1), Ok(0)),
    Case(Fits(UChar, -1), Ok(0)),
    Case(Fits(UChar, 0), Ok(1)),
    Case(Fits(UChar, UCHAR_MAX), Ok(1)),
    Case(Fits(UChar, UCHAR_MAX + 1), Ok(0)),
    Case(Fits(Short, SHRT_MIN - 1), Ok(0)),
    Case(Fits(Short, SHRT_MIN), Ok(1)),
    Case(Fits(Short, SHRT_MAX), Ok(1)),
    Case(Fits(Short, SHRT_MAX + 1), Ok(0)),
    Case(Fits(UShort, -1), Ok(0)),
    Case(Fits(UShort, 0), Ok(1)),
    Case(Fits(UShort, USHRT_MAX), Ok(1)),
    Case(Fits(UShort, USHRT_MAX + 1), Ok(0)),
    Case(Fits(Int, INT_MIN - 1), Ok(0)),
    Case(Fits(Int, INT_MIN), Ok(1)),
    Case(Fits(Int, INT_MAX), Ok(1)),
    Case(Fits(Int, INT_MAX + 1), Ok(0)),
    Case(Fits(UInt, -1), Ok(0)),
    Case(Fits(UInt, 0), Ok(1)),
    Case(Fits(UInt, UINT_MAX), Ok(1)),
    Case(Fits(UInt, UINT_MAX + 1), Ok(0)),
    Case(Fits(Long, LONG_MIN - 1), Ok(0)),
    Case(Fits(Long, LONG_MIN), Ok(1)),
    Case(Fits(Long, LONG_MAX), Ok(1)),
    Case(Fits(Long, LONG_MAX + 1), Ok(0)),
    Case(Fits(ULong, -1), Ok(0)),
    Case(Fits(ULong, 0), Ok(1)),
    Case(Fits(ULong, ULONG_MAX), Ok(1)),
    Case(Fits(ULong, TWO_64), Ok(0)),
    Case(Fits(LLong, LONG_MIN - 1), Ok(0)),
    Case(Fits(LLong, LONG_MIN), Ok(1)),
    Case(Fits(LLong, LONG_MAX), Ok(1)),
    Case(Fits(LLong, LONG_MAX + 1), Ok(0)),
    Case(Fits(ULLong, -1), Ok(0)),
    Case(Fits(ULLong, 0), Ok(1)),
    Case(Fits(ULLong, ULONG_MAX), Ok(1)),
    Case(Fits(ULLong, TWO_64), Ok(0)),
    Case(
        Fits(Long, -0x8000_0000_0000_0000_0000_0000_0000_0000),
        Ok(0),
    ),
    Case(
        Fits(ULLong, 0x7fff_ffff_ffff_ffff_ffff_ffff_ffff_ffff),
        Ok(0),
    ),
];

fn is_promoted(kind: IntKind) -> bool
    ensures { IsTrue result → IsPromoted kind }
{
    match kind {
        Int | UInt | Long | ULong | LLong | ULLong => true,
        Bool | Char | SChar | UChar | Short | UShort => false,
    }
}

fn may_stand_right(op: BinOp, kind: IntKind, b: i128) -> bool
    ensures { IsTrue result → IsOperand op kind b }
{
    match op {
        Shl | Shr => -0x8000_0000_0000_0000 <= b && b <= 0xffff_ffff_ffff_ffff,
        _ => fits(kind, b),
    }
}

fn is_convertible(n: i128) -> bool
    ensures { IsTrue result → IsConvertible n }
{
    -0x1_0000_0000_0000_0000 <= n && n <= 0x1_0000_0000_0000_0000
}

/// What the call gives; one that the contract does not allow ends the test.
fn answer(rt: &impl Abort, call: Call) -> Result<i128, ArithmeticFault> {
    match call {
        Binary(op, kind, a, b) => {
            assert!(rt; is_promoted(kind) && fits(kind, a) && may_stand_right(op, kind, b));
            binary(op, kind, a, b)
        }
        Unary(op, kind, a) => {
            assert!(rt; is_promoted(kind) && fits(kind, a));
            unary(op, kind, a)
        }
        Convert(kind, n) => {
            assert!(rt; is_convertible(n));
            Ok(convert(kind, n))
        }
        Fits(kind, n) => Ok(i128::from(fits(kind, n))),
    }
}

#[test]
fn gives_what_c_gives(rt: HostRuntime) {
    for &Case(call, want) in CASES.iter() {
        assert!(rt; answer(&rt, call) == want, "{call:?}");
    }
}

/// Paragraphs, and what reports print of them.
static CLAUSES: [(Clause, &str); 5] = [
    (Clause::Exceptions, "6.5p5"),
    (Clause::ZeroDivisors, "6.5.5p5"),
    (Clause::Quotients, "6.5.5p6"),
    (Clause::ShiftCounts, "6.5.7p3"),
    (Clause::LeftShifts, "6.5.7p4"),
];

/// Reasons, and what reports print of them.
static REASONS: [(Reason, &str); 5] = [
    (Reason::Overflow, "overflow"),
    (Reason::Divide, "divide"),
    (Reason::Quotient, "quotient"),
    (Reason::Count, "count"),
    (Reason::Shift, "shift"),
];

#[test]
fn names_faults(rt: HostRuntime) {
    for &(clause, text) in CLAUSES.iter() {
        assert!(rt; clause.text() == text, "{text}");
    }
    for &(reason, text) in REASONS.iter() {
        assert!(rt; reason.text() == text, "{text}");
    }
}
