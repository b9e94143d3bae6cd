// Whether values are what typing promises of the operands of operations. A checked unit never comes to anything else.
ghost use Rattle.std.specs.Prelude.{◌≡◌, ◌≤◌, ◌&&◌, ◌++◌, nat_le, None, true};
ghost use Rattle.pv_num.specs.Kinds.{Fits};
ghost use Rattle.pv_num.specs.Arithmetic.{IsPromoted};
ghost use Rattle.pv_num.specs.Operands.{IsOperand};
ghost use Rattle.pv_object.specs.Values.{IsOf};
ghost use Rattle.pv_object.specs.Answers.{IsMadeValue};
ghost use Rattle.pv_inst.specs.Answers.{IsLive};
ghost use Rattle.pv_world.specs.Worths.{int_of, missing_value};
ghost use Rattle.pv_world.specs.Telling.{fault_of, verdict_of};
ghost use Rattle.pv_world.specs.Preconditions.{IsSmall, HasRoom, HasPart, HasSizeOf, IsStored};
ghost use Rattle.pv_world.specs.Pointers.{is_order};
ghost use Rattle.pv_world.specs.Suiting.{knows, knows_value, knows_worth, knows_both, is_small, is_convertible, can_shift, is_promoted, is_of_promoted, is_count, is_operand, are_operands, is_of, is_stored, has_part, is_live, has_room};
ghost use Rattle.pv_world.specs.SuitingParts.{knows_bytes};
ghost use Rattle.pv_world.specs.Coming.{Faulted, worth_of, IsMadeWorth};

use crate::failing::fail;
use crate::got::{Failure, Got, Shape};
use crate::operands::{int_of, missing};
use crate::world::World;
use pv_num::{BinOp, IntKind, fits};
use pv_object::{Scalar, Value};
use pv_prov::Prov;
use pv_shadow::Byte;
use pv_watch::What;

/// The run ends as by the use of a value that is missing (6.9.1p12), since an operand is none of its expression's type.
pub fn unfit(told: &mut Vec<What>) -> Failure
    ensures { Faulted result missing_value told.new.items (told.old.items ++ fault_of None (verdict_of missing_value)) }
{
    fail(told, missing(), None)
}

/// The greatest number of an integer type, or difference of addresses, and one.
const LIMIT: i128 = 0x1_0000_0000_0000_0000;

/// Whether a number is one of some integer type, or the difference of two addresses.
#[tactic(auto, using(crate::proofs::Guards::small_is))]
fn is_small(v: &Got) -> bool
    ensures value { result ≡ is_small (worth_of v.now) }
    ensures small { result ≡ true → IsSmall (worth_of v.now) }
{
    let n = int_of(v);
    -LIMIT <= n && n <= LIMIT
}

/// Whether two numbers are such.
fn both_small(v: &Got, x: &Got) -> bool
    ensures value { result ≡ (is_small (worth_of v.now) && is_small (worth_of x.now)) }
    ensures left { result ≡ true → IsSmall (worth_of v.now) }
    ensures right { result ≡ true → IsSmall (worth_of x.now) }
{
    is_small(v) && is_small(x)
}

/// Whether it is an operator of order (6.5.8).
fn is_order(op: BinOp) -> bool
    ensures { result ≡ is_order op }
{
    matches!(op, BinOp::Lt | BinOp::Gt | BinOp::Le | BinOp::Ge)
}

/// Whether the integer promotions leave the kind as it is (6.3.1.1p2).
pub fn is_promoted(kind: IntKind) -> bool
    ensures value { result ≡ is_promoted kind }
    ensures promoted { result ≡ true → IsPromoted kind }
{
    match kind {
        IntKind::Bool | IntKind::Char | IntKind::SChar | IntKind::UChar => false,
        IntKind::Short | IntKind::UShort => false,
        IntKind::Int | IntKind::UInt | IntKind::Long => true,
        IntKind::ULong | IntKind::LLong | IntKind::ULLong => true,
    }
}

/// Whether a number is one of some promoted kind.
fn is_count(n: i128) -> bool
    ensures { result ≡ is_count n }
{
    -0x8000_0000_0000_0000 <= n && n <= 0xffff_ffff_ffff_ffff
}

/// Whether a number is one that the right operand of an operator may be (6.5.5 to 6.5.12), which works at this kind.
#[tactic(auto, using(crate::proofs::Guards::operand_is))]
pub fn is_operand(op: BinOp, kind: IntKind, n: i128) -> bool
    ensures value { result ≡ is_operand op kind n }
    ensures operand { result ≡ true → IsOperand op kind n }
{
    match op {
        BinOp::Shl | BinOp::Shr => is_count(n),
        _ => fits(kind, n),
    }
}

/// Whether a value is one that an operator of this kind may be applied to.
#[tactic(auto, using(crate::proofs::Guards::fits_is))]
pub(crate) fn is_of_promoted(kind: IntKind, v: &Got) -> bool
    ensures value { result ≡ is_of_promoted kind (worth_of v.now) }
    ensures promoted { result ≡ true → IsPromoted kind }
    ensures operand { result ≡ true → Fits kind (int_of (worth_of v.now)) }
{
    is_promoted(kind) && fits(kind, int_of(v))
}

/// Whether two values are operands of the operator at this kind.
pub(crate) fn are_operands(op: BinOp, kind: IntKind, v: &Got, x: &Got) -> bool
    ensures value { result ≡ are_operands op kind (worth_of v.now) (worth_of x.now) }
    ensures promoted { result ≡ true → IsPromoted kind }
    ensures left { result ≡ true → Fits kind (int_of (worth_of v.now)) }
    ensures right { result ≡ true → IsOperand op kind (int_of (worth_of x.now)) }
{
    is_of_promoted(kind, v) && is_operand(op, kind, int_of(x))
}

/// Whether a value is one of a scalar type.
#[tactic(auto, using(crate::proofs::Guards::of_is))]
fn is_of(t: Scalar, v: Value) -> bool
    ensures value { result ≡ is_of t v }
    ensures right { result ≡ true → IsOf t v }
{
    match t {
        Scalar::Int(kind) => match v {
            Value::Int(n) => fits(kind, n),
            Value::Unset => matches!(kind, IntKind::Char | IntKind::SChar | IntKind::UChar),
            Value::Pointer(_) => false,
        },
        Scalar::Pointer => matches!(v, Value::Pointer(_)),
    }
}

/// Whether a value can be stored in so many bytes.
#[inline(always)]
fn is_stored(shape: Shape, size: u64, v: &Got) -> bool
    ensures { result ≡ is_stored shape size (worth_of v.now) }
{
    match shape {
        Shape::Int(kind) => match v {
            Got::Scalar(v) => is_of(Scalar::Int(kind), *v),
            _ => false,
        },
        Shape::Pointer => match v {
            Got::Scalar(v) => is_of(Scalar::Pointer, *v),
            _ => false,
        },
        Shape::Whole => match v {
            Got::Whole(bytes, _) => size == bytes.len() as u64,
            _ => false,
        },
    }
}

/// Whether a value has a part of so many bytes, if it is there.
fn has_part(v: &Got, offset: u64, size: u64) -> bool
    ensures { result ≡ has_part (worth_of v.now) offset size }
{
    match v {
        Got::Whole(bytes, _) => u128::from(offset) + u128::from(size) <= bytes.len() as u128,
        Got::Missing => true,
        Got::Nothing | Got::Scalar(_) => false,
    }
}

impl World {
    // Whether what a name speaks of was made.
    #[tactic(auto, using(crate::proofs::Guards::knows_is))]
    fn knows_name(&self, p: Prov) -> bool
        ensures { result ≡ knows self.now.memory.table p }
    {
        self.memory.instances().knows(p)
    }

    /// Whether what the name in a scalar speaks of was made.
    #[tactic(auto, using(crate::proofs::Guards::value_made))]
    pub fn knows_value(&self, v: Value) -> bool
        ensures value { result ≡ knows_value self.now.memory.table v }
        ensures made { result ≡ true → IsMadeValue self.now.memory.table v }
    {
        match v {
            Value::Pointer(p) => self.knows_name(p.prov),
            Value::Int(_) | Value::Unset => true,
        }
    }

    // Whether what the names in bytes speak of was made.
    fn knows_bytes(&self, bytes: &[Byte]) -> bool
        ensures { result ≡ knows_bytes self.now.memory.table bytes.now }
    {
        for i in 0..bytes.len() {
            if !self.knows_name(bytes[i].prov) {
                return false;
            }
        }
        true
    }

    /// Whether what the names in a value speak of was made.
    #[inline(always)]
    #[tactic(auto, using(crate::proofs::Guards::worth_made))]
    pub fn knows(&self, v: &Got) -> bool
        ensures value { result ≡ knows_worth self.now.memory.table (worth_of v.now) }
        ensures made { result ≡ true → IsMadeWorth self.now.memory.table (worth_of v.now) }
    {
        match v {
            Got::Scalar(v) => self.knows_value(*v),
            Got::Whole(bytes, _) => self.knows_bytes(bytes),
            Got::Nothing | Got::Missing => true,
        }
    }

    // Whether what the names in two values speak of was made.
    #[inline(always)]
    pub(crate) fn knows_both(&self, v: &Got, x: &Got) -> bool
        ensures value { result ≡ knows_both self.now.memory.table (worth_of v.now) (worth_of x.now) }
        ensures left { result ≡ true → IsMadeWorth self.now.memory.table (worth_of v.now) }
        ensures right { result ≡ true → IsMadeWorth self.now.memory.table (worth_of x.now) }
    {
        self.knows(v) && self.knows(x)
    }

    // Whether a value can be converted.
    pub(crate) fn is_convertible(&self, v: &Got) -> bool
        ensures value { result ≡ is_convertible self.now.memory.table (worth_of v.now) }
        ensures small { result ≡ true → IsSmall (worth_of v.now) }
        ensures made { result ≡ true → IsMadeWorth self.now.memory.table (worth_of v.now) }
    {
        is_small(v) && self.knows(v)
    }

    // Whether two values are operands of a sum of a pointer and an integer.
    pub(crate) fn can_shift(&self, v: &Got, x: &Got) -> bool
        ensures value { result ≡ can_shift self.now.memory.table (worth_of v.now) (worth_of x.now) }
        ensures left_small { result ≡ true → IsSmall (worth_of v.now) }
        ensures right_small { result ≡ true → IsSmall (worth_of x.now) }
        ensures left { result ≡ true → IsMadeWorth self.now.memory.table (worth_of v.now) }
        ensures right { result ≡ true → IsMadeWorth self.now.memory.table (worth_of x.now) }
    {
        both_small(v, x) && self.knows_both(v, x)
    }

    // Whether two values are operands of a difference of pointers in elements of this size.
    pub(crate) fn can_subtract(&self, size: u64, v: &Got, x: &Got) -> bool
        ensures value { result ≡ (nat_le 1 size && knows_both self.now.memory.table (worth_of v.now) (worth_of x.now)) }
        ensures sized { result ≡ true → 1 ≤ size }
        ensures left { result ≡ true → IsMadeWorth self.now.memory.table (worth_of v.now) }
        ensures right { result ≡ true → IsMadeWorth self.now.memory.table (worth_of x.now) }
    {
        1 <= size && self.knows_both(v, x)
    }

    // Whether two values are operands of an order of pointers.
    pub(crate) fn can_order(&self, op: BinOp, v: &Got, x: &Got) -> bool
        ensures value { result ≡ (is_order op && knows_both self.now.memory.table (worth_of v.now) (worth_of x.now)) }
        ensures operator { result ≡ true → is_order op ≡ true }
        ensures left { result ≡ true → IsMadeWorth self.now.memory.table (worth_of v.now) }
        ensures right { result ≡ true → IsMadeWorth self.now.memory.table (worth_of x.now) }
    {
        is_order(op) && self.knows_both(v, x)
    }

    // Whether a member of so many bytes can be taken out of a value.
    #[tactic(auto, using(crate::proofs::Guards::part_is))]
    pub(crate) fn can_take(&self, offset: u64, size: u64, v: &Got) -> bool
        ensures value { result ≡ (has_part (worth_of v.now) offset size && knows_worth self.now.memory.table (worth_of v.now)) }
        ensures part { result ≡ true → HasPart (worth_of v.now) offset size }
        ensures made { result ≡ true → IsMadeWorth self.now.memory.table (worth_of v.now) }
    {
        has_part(v, offset, size) && self.knows(v)
    }

    /// Whether a value can be stored at a place of so many bytes.
    #[inline(always)]
    #[tactic(auto, using(crate::proofs::Guards::stored_is))]
    pub fn can_write(&self, shape: Shape, size: u64, place: &Got, v: &Got) -> bool
        ensures value { result ≡ (is_stored shape size (worth_of v.now) && knows_both self.now.memory.table (worth_of place.now) (worth_of v.now)) }
        ensures stored { HasSizeOf shape size → result ≡ true → IsStored shape size (worth_of v.now) }
        ensures place { result ≡ true → IsMadeWorth self.now.memory.table (worth_of place.now) }
        ensures made { result ≡ true → IsMadeWorth self.now.memory.table (worth_of v.now) }
    {
        is_stored(shape, size, v) && self.knows_both(place, v)
    }

    /// Whether a value can be stored in an instance, so many bytes from an offset on.
    #[tactic(auto, using(crate::proofs::Guards::stored_is))]
    pub fn can_put(&self, shape: Shape, size: u64, v: &Got, i: u64, offset: u64) -> bool
        ensures value { result ≡ ((is_stored shape size (worth_of v.now) && knows_worth self.now.memory.table (worth_of v.now)) && has_room self.now i offset size) }
        ensures stored { HasSizeOf shape size → result ≡ true → IsStored shape size (worth_of v.now) }
        ensures made { result ≡ true → IsMadeWorth self.now.memory.table (worth_of v.now) }
        ensures room { result ≡ true → HasRoom self.now i offset size }
    {
        is_stored(shape, size, v) && self.knows(v) && self.has_room(i, offset, size)
    }

    /// Whether an instance is live (6.2.4p2).
    pub fn is_live(&self, i: u64) -> bool
        ensures value { result ≡ is_live self.now i }
        ensures live { result ≡ true → IsLive self.now.memory.table.instances i }
    {
        self.memory.instances().info(i).is_some()
    }

    /// Whether an instance is live and has so many bytes from an offset on.
    #[tactic(auto, using(crate::proofs::Guards::room_is))]
    pub fn has_room(&self, i: u64, offset: u64, n: u64) -> bool
        ensures value { result ≡ has_room self.now i offset n }
        ensures there { result ≡ true → HasRoom self.now i offset n }
        ensures only { HasRoom self.now i offset n → result ≡ true }
    {
        self.has_live(i, offset, n)
    }
}
