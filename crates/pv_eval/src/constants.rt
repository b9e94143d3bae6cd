// Constants that initializers store, and which side a pair keeps.
ghost use Rattle.std.specs.Prelude.{◌≡◌, ◌+◌, ◌<◌, ◌%◌, ◌^◌, length};
ghost use Rattle.pv_world.specs.Worths.{pointer};
ghost use Rattle.pv_world.specs.Coming.{worth_of};
ghost use Rattle.pv_eval.specs.Constants.{constant_worth};
ghost use Rattle.pv_eval.specs.Siding.{high_side};

use crate::moment::Moment;
use crate::values::integer;
use pv_object::{Pointer, Value};
use pv_prov::Prov;
use pv_typed::Const;
use pv_world::{Got, World};

/// The pointer to a place so many bytes behind this one (C17 6.6p9).
fn place_by(p: Pointer, offset: u64) -> Got
    ensures { worth_of result ≡ pointer (record { address = (p.address + offset) % 2 ^ 64; prov = p.prov }) }
{
    Got::Scalar(Value::Pointer(Pointer {
        address: p.address.wrapping_add(offset),
        prov: p.prov,
    }))
}

/// The value of a constant (C17 6.6p7), by the places of static objects, literals and functions.
fn constant(world: &World, c: Const) -> Got
    ensures { worth_of result ≡ constant_worth world.now c }
{
    match c {
        Const::Int(n) => integer(n),
        Const::Null => Got::Scalar(Value::Pointer(Pointer {
            address: 0,
            prov: Prov::Empty,
        })),
        Const::Address { object, offset } => place_by(world.object_place(object, true), offset),
        Const::Literal { text, offset } => place_by(world.literal_place(text), offset),
        Const::Function { function } => place_by(world.function_place(function), 0),
    }
}

/// Whether a pair, counted from 0, keeps its high candidate alone.
fn is_high(world: &World, k: u64) -> bool
    requires { k < length world.now.memory.table.pairs }
    ensures { result ≡ high_side world.now k }
{
    let _made = world.pairs_made();
    match world.memory().instances().pair(k + 1) {
        Some(pair) => !pair.keeps_low,
        None => unreachable!(),
    }
}

impl Moment {
    /// The value of a constant (C17 6.6p7), by the places of static objects, literals and functions.
    pub fn constant(&self, c: Const) -> Got
        ensures { worth_of result ≡ constant_worth self.now.world c }
    {
        constant(&self.world, c)
    }

    /// How many pairs were made.
    pub fn pairs(&self) -> u64
        ensures { result ≡ length self.now.world.memory.table.pairs }
    {
        self.world.pairs_made()
    }

    /// Whether a pair, counted from 0, keeps its high candidate alone.
    pub fn is_high(&self, k: u64) -> bool
        requires { k < length self.now.world.memory.table.pairs }
        ensures { result ≡ high_side self.now.world k }
    {
        is_high(&self.world, k)
    }
}
