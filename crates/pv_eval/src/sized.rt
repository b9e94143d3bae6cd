// Operations on values that go by the size of a type (C17 6.5.2.3, 6.5.6). An object type of more than 2^32 bytes is none of a checked
// unit's: then the run ends as by a value that is missing.
ghost use Rattle.pv_types.specs.Known.{tree};
ghost use Rattle.pv_world.specs.Coming.{worth_of, DidAndTold};
ghost use Rattle.pv_eval.specs.States.{Setting};
ghost use Rattle.pv_eval.specs.Sizes.{element_in};
ghost use Rattle.pv_eval.specs.Within.{PartTaken};
ghost use Rattle.pv_eval.specs.Operations.{Moves, Subtracts, does};

use crate::types::{element_size, shape, size_of};
use pv_types::{TypeId, Types};
use pv_watch::What;
use pv_world::{Failure as WorldFailure, Got, World, unfit};

/// A pointer of this type moved by so many elements (C17 6.5.6p8).
pub(crate) fn shift_by(
    world: &mut World,
    types: &Types,
    minus: bool,
    pointer_first: bool,
    t: TypeId,
    v: &Got,
    x: &Got,
    told: &mut Vec<What>,
) -> Result<Got, WorldFailure>
    ensures { (b : Setting) → DidAndTold worth_of (does b (Moves minus pointer_first (element_in types.now (tree types.now t.0)) (worth_of v.now) (worth_of x.now))) result world.old world.new told.old told.new }
{
    match element_size(types, t) {
        Some(size) => world.shift(minus, pointer_first, size, v, x, told),
        None => Err(unfit(told)),
    }
}

/// The difference of two pointers of this type (C17 6.5.6p9).
pub(crate) fn subtract_by(
    world: &mut World,
    types: &Types,
    t: TypeId,
    v: &Got,
    x: &Got,
    told: &mut Vec<What>,
) -> Result<Got, WorldFailure>
    ensures { (b : Setting) → DidAndTold worth_of (does b (Subtracts (element_in types.now (tree types.now t.0)) (worth_of v.now) (worth_of x.now))) result world.old world.new told.old told.new }
{
    match element_size(types, t) {
        Some(size) => world.subtract(size, v, x, told),
        None => Err(unfit(told)),
    }
}

/// A member of this type of a structure or union value (C17 6.5.2.3p3).
pub(crate) fn part_of(
    world: &mut World,
    types: &Types,
    t: TypeId,
    offset: u64,
    v: &Got,
    told: &mut Vec<What>,
) -> Result<Got, WorldFailure>
    ensures { PartTaken types.now (tree types.now t.0) offset (worth_of v.now) result world.old world.new told.old.items told.new.items }
{
    match size_of(types, t) {
        Some(size) => world.part(offset, size, shape(types, t), v, told),
        None => Err(unfit(told)),
    }
}
