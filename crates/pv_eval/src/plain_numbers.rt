// Integers of plain expressions (C17 6.3, 6.5.3.3, 6.5.5 to 6.5.12), where they are numbers of 64 bits with a sign.
ghost use Rattle.std.specs.Prelude.{◌≡◌, pos, Bool, true, IsTrue, IfSome, Ok};
ghost use Rattle.pv_num.specs.Kinds.{is_signed};
ghost use Rattle.pv_num.specs.Arithmetic.{binary_of, exact_of, one_if};
ghost use Rattle.pv_types.specs.Ty.{Ty};
ghost use Rattle.pv_types.specs.Known.{tree};
ghost use Rattle.pv_typed.specs.declared.nodes.Typed.{Typed as Row};
ghost use Rattle.pv_typed.specs.TypedTree.{type_of};
ghost use Rattle.pv_typed.specs.NodeTrees.{expression_at, IsExpression};
ghost use Rattle.pv_world.specs.Worlds.{World as WorldView};
ghost use Rattle.pv_world.specs.Worths.{int};
ghost use Rattle.pv_world.specs.declared.got.How.TheVariants.{Rounds};
ghost use Rattle.pv_eval.specs.Conversions.{how_to};
ghost use Rattle.pv_world.specs.Suiting.{is_small};
ghost use Rattle.pv_eval.specs.Operations.{Calculates, CalculatesOne, Converts};
ghost use Rattle.pv_eval.specs.Plainly.{IsConverted, AlwaysGives, GivesWith, GivesWithBoth, found_worth};

use crate::plain::Found;
use crate::plain_comparisons::is_zero;
use crate::types::{kind, shape};
use pv_num::{BinOp, IntKind, UnOp, binary, convert, fits};
use pv_tree::NodeId;
use pv_typed::{Typed, TypedUnit};
use pv_types::TypeId;
use pv_world::{Shape, is_operand, is_promoted};

/// The number, where it has 64 bits with a sign.
pub(crate) fn small(k: i128) -> Option<i64>
    ensures { IfSome result (λ x. x ≡ k) }
{
    if -0x8000_0000_0000_0000 <= k && k <= 0x7fff_ffff_ffff_ffff {
        Some(k as i64)
    } else {
        None
    }
}

/// The same as what an expression gives.
pub(crate) fn integer(k: i128) -> Option<Found>
    ensures { IfSome result (λ v. found_worth v ≡ int k) }
{
    match small(k) {
        Some(x) => Some(Found::Number(x)),
        None => None,
    }
}

/// A size as what an expression gives.
pub(crate) fn natural(k: u64) -> Option<Found>
    ensures { IfSome result (λ v. found_worth v ≡ int (pos k)) }
{
    if k <= 0x7fff_ffff_ffff_ffff {
        Some(Found::Number(k as i64))
    } else {
        None
    }
}

/// The number that was found, if it is one.
pub(crate) fn number(v: Found) -> Option<i64>
    ensures { IfSome result (λ x. found_worth v ≡ int x) }
{
    match v {
        Found::Number(x) => Some(x),
        Found::Place(_) => None,
        Found::Null => None,
    }
}

/// Whether a number can be converted (C17 6.3.1.3p1), as each of 64 bits can.
pub(crate) fn is_small(x: i64) -> bool
    ensures { result ≡ is_small (int x) }
{
    let n = i128::from(x);
    -0x1_0000_0000_0000_0000 <= n && n <= 0x1_0000_0000_0000_0000
}

/// A number converted from an integer type to an integer type (C17 6.3.1.2, 6.3.1.3).
pub(crate) fn rounded(unit: &TypedUnit, from: TypeId, to: TypeId, x: i64) -> Option<i64>
    ensures { (implied : Bool) → IfSome result (λ z. AlwaysGives (λ b. Converts (how_to b implied (tree unit.now.known from.0) (tree unit.now.known to.0)) (int x)) (int z)) }
{
    let Shape::Int(_) = shape(unit.types(), from) else {
        return None;
    };
    let Shape::Int(kind) = shape(unit.types(), to) else {
        return None;
    };
    if !is_small(x) {
        return None;
    }
    small(convert(kind, i128::from(x)))
}

/// The value of an operand that is an integer, converted where its node is an implicit conversion.
pub(crate) fn converted(unit: &TypedUnit, a: NodeId, v: Found) -> Option<i64>
    requires { IsExpression unit.now a }
    ensures { IfSome result (λ z. IsConverted (expression_at unit.now a) (found_worth v) (int z)) }
{
    let x = number(v)?;
    match unit.node(a) {
        Typed::Convert(inner) => rounded(unit, unit.type_of(inner), unit.type_of(a), x),
        _ => Some(x),
    }
}

/// The exact sum, difference or product of two numbers (C17 6.5.5, 6.5.6), where it has 64 bits with a sign.
fn exact(op: BinOp, x: i64, y: i64) -> Option<i64>
    ensures { IfSome result (λ z. (k : IntKind) → binary_of op k x y ≡ exact_of k z) }
{
    match op {
        BinOp::Add => x.checked_add(y),
        BinOp::Sub => x.checked_sub(y),
        BinOp::Mul => x.checked_mul(y),
        _ => None,
    }
}

/// Whether the kind is `int` or `long`, in which most operators work, and which have a sign (C17 6.2.5p4).
fn is_int_or_long(kind: IntKind) -> bool
    ensures { IsTrue result → is_signed kind ≡ true }
{
    match kind {
        IntKind::Int => true,
        IntKind::Long => true,
        _ => false,
    }
}

/// The sum, the difference or the product of two numbers, where it is a member of the kind, which has a sign (C17 6.5p5).
fn joined(op: BinOp, kind: IntKind, x: i64, y: i64) -> Option<i64>
    requires { is_signed kind ≡ true }
    ensures { IfSome result (λ z. binary_of op kind x y ≡ Ok z) }
{
    let z = exact(op, x, y)?;
    let wide = i128::from(z);
    if !fits(kind, wide) {
        return None;
    }
    Some(z)
}

/// The quotient of two numbers toward zero, or what it leaves, where the quotient is a member of the kind (C17 6.5.5p5, p6).
fn divided(op: BinOp, kind: IntKind, x: i64, y: i64) -> Option<i64>
    ensures { IfSome result (λ z. binary_of op kind x y ≡ Ok z) }
{
    if is_zero(y) {
        return None;
    }
    let quotient = x.checked_div(y)?;
    let whole = i128::from(quotient);
    if !fits(kind, whole) {
        return None;
    }
    match op {
        BinOp::Div => Some(quotient),
        BinOp::Rem => x.checked_rem(y),
        _ => None,
    }
}

/// What an ordering of two numbers says (C17 6.5.8p6).
fn compared(op: BinOp, x: i64, y: i64) -> Option<bool>
    ensures { IfSome result (λ b. (k : IntKind) → binary_of op k x y ≡ Ok (one_if b)) }
{
    let left = i128::from(x);
    let right = i128::from(y);
    match op {
        BinOp::Lt => Some(left < right),
        BinOp::Gt => Some(left > right),
        BinOp::Le => Some(left <= right),
        BinOp::Ge => Some(left >= right),
        _ => None,
    }
}

/// What an ordering yields (C17 6.5.8p6).
fn one_if(holds: bool) -> i64
    ensures { result ≡ one_if holds }
{
    if holds { 1 } else { 0 }
}

/// The same as a number.
fn order(op: BinOp, kind: IntKind, x: i64, y: i64) -> Option<i64>
    ensures { IfSome result (λ z. binary_of op kind x y ≡ Ok z) }
{
    let holds = compared(op, x, y)?;
    Some(one_if(holds))
}

/// An operator on two numbers, in 64 bits, where what it gives has them; of most kinds and operators nothing is said.
fn in_64_bits(op: BinOp, kind: IntKind, x: i64, y: i64) -> Option<i64>
    ensures { IfSome result (λ z. binary_of op kind x y ≡ Ok z) }
{
    if !is_int_or_long(kind) {
        return None;
    }
    match op {
        BinOp::Add => joined(op, kind, x, y),
        BinOp::Sub => joined(op, kind, x, y),
        BinOp::Mul => joined(op, kind, x, y),
        BinOp::Div => divided(op, kind, x, y),
        BinOp::Rem => divided(op, kind, x, y),
        _ => order(op, kind, x, y),
    }
}

/// An operator on two integers.
fn calculated(op: BinOp, kind: IntKind, x: i64, y: i64) -> Option<i64>
    ensures { IfSome result (λ z. AlwaysGives (λ b. Calculates op kind (int x) (int y)) (int z)) }
{
    let left = i128::from(x);
    let right = i128::from(y);
    if !is_promoted(kind) {
        return None;
    }
    if !fits(kind, left) {
        return None;
    }
    if !is_operand(op, kind, right) {
        return None;
    }
    if let Some(z) = in_64_bits(op, kind, x, y) {
        return Some(z);
    }
    match binary(op, kind, left, right) {
        Ok(z) => small(z),
        Err(_) => None,
    }
}

/// The operator of a node on its two operands, each converted where that is implied.
#[tactic(auto, using(crate::proofs::PlainNumbers::gives_calculated))]
pub(crate) fn arithmetic(
    unit: &TypedUnit,
    op: BinOp,
    a: NodeId,
    d: NodeId,
    first: Found,
    second: Found,
) -> Option<Found>
    requires left { IsExpression unit.now a }
    requires right { IsExpression unit.now d }
    ensures { (w : WorldView) (t : Ty) → IfSome result (λ v. GivesWithBoth unit.now w t (Row.Arithmetic op a d) (found_worth first) (found_worth second) (found_worth v)) }
{
    let x = converted(unit, a, first)?;
    let y = converted(unit, d, second)?;
    match calculated(op, kind(unit.types(), unit.type_of(a)), x, y) {
        Some(z) => Some(Found::Number(z)),
        None => None,
    }
}

/// The operator of a node of this type on its one operand, which is converted where that is implied.
pub(crate) fn unary(unit: &TypedUnit, op: UnOp, n: NodeId, a: NodeId, first: Found) -> Option<Found>
    requires there { IsExpression unit.now n }
    requires operand { IsExpression unit.now a }
    ensures { (w : WorldView) → IfSome result (λ v. GivesWith unit.now w (type_of (expression_at unit.now n)) (Row.Unary op a) (found_worth first) (found_worth v)) }
{
    let x = converted(unit, a, first)?;
    match calculated_one(op, kind(unit.types(), unit.type_of(n)), x) {
        Some(z) => Some(Found::Number(z)),
        None => None,
    }
}

/// An operator on one integer.
fn calculated_one(op: UnOp, kind: IntKind, x: i64) -> Option<i64>
    ensures { IfSome result (λ z. AlwaysGives (λ b. CalculatesOne op kind (int x)) (int z)) }
{
    let operand = i128::from(x);
    if !is_promoted(kind) {
        return None;
    }
    if !fits(kind, operand) {
        return None;
    }
    match pv_num::unary(op, kind, operand) {
        Ok(z) => small(z),
        Err(_) => None,
    }
}

/// An operator on two numbers that were found.
pub(crate) fn operated(op: BinOp, kind: IntKind, v: Found, w: Found) -> Option<Found>
    ensures { IfSome result (λ z. AlwaysGives (λ b. Calculates op kind (found_worth v) (found_worth w)) (found_worth z)) }
{
    let x = number(v)?;
    let y = number(w)?;
    match calculated(op, kind, x, y) {
        Some(z) => Some(Found::Number(z)),
        None => None,
    }
}

/// A number that was found, converted to a kind (C17 6.3.1.2, 6.3.1.3). Most are members of the kind.
pub(crate) fn kept(kind: IntKind, v: Found) -> Option<Found>
    ensures { IfSome result (λ z. AlwaysGives (λ b. Converts (Rounds kind) (found_worth v)) (found_worth z)) }
{
    let x = number(v)?;
    if !is_small(x) {
        return None;
    }
    let n = i128::from(x);
    if fits(kind, n) {
        return Some(v);
    }
    integer(convert(kind, n))
}
