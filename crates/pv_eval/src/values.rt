// Values that nodes make themselves, and what operations look at.
ghost use Rattle.std.specs.Prelude.{◌≡◌, ◌<◌, length, pos, IfOk, if◌then◌else◌};
ghost use Rattle.pv_world.specs.Worths.{int, truth_int, origin_of};
ghost use Rattle.pv_typed.specs.TypedTree.{type_of};
ghost use Rattle.pv_typed.specs.Known.{AreKnown};
ghost use Rattle.pv_typed.specs.NodeTrees.{expression_at, IsExpression};
ghost use Rattle.pv_eval.specs.Steps.{source_of, is_minus, is_unequal};
ghost use Rattle.pv_types.specs.Known.{tree};
ghost use Rattle.pv_world.specs.Coming.{worth_of};
ghost use Rattle.pv_eval.specs.Ahead.{move_of};
ghost use Rattle.pv_eval.specs.Moments.{IsMemory};

use crate::failure::Failure;
use crate::frames::{Frame, Move, Stage};
use pv_num::BinOp;
use pv_object::Value;
use pv_tree::NodeId;
use pv_typed::{Sign, Typed, TypedUnit};
use pv_types::TypeId;
use pv_world::{Got, origin_of};
use std::alloc::Global;
use std::marker::Model;

/// A value behind a pointer, for what is moved at each operation.
#[derive(Drop)]
pub struct Kept {
    value: Box<Got>,
}

impl Model for Kept {
    ghost use Rattle.pv_world.specs.declared.got.Got.{Got};

    ghost Value = { Got };

    ghost view = { λ k. k.value.value };
}

impl Kept {
    /// The value is kept, if there is memory.
    pub(crate) fn new(alloc: Global, v: Got) -> Result<Kept, Failure>
        ensures value { IfOk result (λ k. k ≡ v) }
        ensures memory { IsMemory result }
    {
        match Box::new(alloc, v) {
            Ok(value) => Ok(Kept { value }),
            Err(_) => Err(Failure::NoMemory),
        }
    }

    /// The value.
    pub fn take(self) -> Got
        ensures { result ≡ self }
    {
        Box::into_inner(self.value)
    }
}

/// A value, or why there is none, as a move.
pub(crate) fn give(r: Result<Got, Failure>) -> Result<Move, Failure>
    ensures { result ≡ move_of r }
{
    match r {
        Ok(v) => Ok(Move::Give(v)),
        Err(e) => Err(e),
    }
}

/// A number.
pub(crate) fn integer(k: i128) -> Got
    ensures { worth_of result ≡ int k }
{
    Got::Scalar(Value::Int(k))
}

/// A size, or another number without a sign.
pub(crate) fn size(k: u64) -> Got
    ensures { worth_of result ≡ int (pos k) }
{
    integer(k as i128)
}

/// A node that waits for an operand after a sequence point.
pub(crate) fn later(n: NodeId, side: bool) -> Frame
    ensures { result ≡ record { node = n; stage = Stage.Later side } }
{
    Frame {
        node: n,
        stage: Stage::Later(side),
    }
}

/// 1 or 0.
pub(crate) fn truth(t: bool) -> Got
    ensures { worth_of result ≡ truth_int t }
{
    if t { integer(1) } else { integer(0) }
}

/// Where a right operand that is an lvalue was read.
pub(crate) fn source(unit: &TypedUnit, n: NodeId, v: &Got) -> Option<u64>
    requires { IsExpression unit.now n }
    ensures { result ≡ source_of (expression_at unit.now n) (worth_of v.now) }
{
    match unit.node(n) {
        Typed::Read(_) => origin_of(v),
        _ => None,
    }
}

/// Whether a sign is a minus.
pub(crate) fn minus(sign: Sign) -> bool
    ensures { result ≡ is_minus sign }
{
    match sign {
        Sign::Plus => false,
        Sign::Minus => true,
    }
}

/// The type of the operand that is a pointer.
pub(crate) fn pointer_type(unit: &TypedUnit, first: bool, a: NodeId, d: NodeId) -> TypeId
    requires left { IsExpression unit.now a }
    requires right { IsExpression unit.now d }
    ensures known { AreKnown unit.now → result.0 < length unit.now.known.terms }
    ensures tree { tree unit.now.known result.0 ≡ (if first then type_of (expression_at unit.now a) else type_of (expression_at unit.now d)) }
{
    if first {
        unit.type_of(a)
    } else {
        unit.type_of(d)
    }
}

/// Whether an operator is `!=`.
pub(crate) fn unequal(op: BinOp) -> bool
    ensures { result ≡ is_unequal op }
{
    match op {
        BinOp::Ne => true,
        _ => false,
    }
}

/// The same value.
pub(crate) fn duplicate(v: &Got) -> Result<Got, Failure>
    ensures { IfOk result (λ g. worth_of g ≡ worth_of v.now) }
{
    match v {
        Got::Nothing => Ok(Got::Nothing),
        Got::Missing => Ok(Got::Missing),
        Got::Scalar(value) => Ok(Got::Scalar(*value)),
        Got::Whole(bytes, origin) => match bytes.clone() {
            Ok(bytes) => Ok(Got::Whole(bytes, *origin)),
            Err(_) => Err(Failure::NoMemory),
        },
    }
}
