// A moment before a run.
ghost use Rattle.std.specs.Prelude.{◌≡◌, IfOk};
ghost use Rattle.pv_eval.specs.Moments.{first_moment, sides_of, IsMemory};

use crate::failure::Failure;
use crate::moment::Moment;
use pv_script::{Names, Script};
use pv_world::World;
use std::alloc::Global;

impl Moment {
    /// Nothing made, printed, told or taken (C17 5.1.2); in a settled run with the sides of its pairs. With `zap` a pointer
    /// to what has ended is indeterminate (C17 6.2.4p2), and a use of it that asks for a live instance is undefined.
    pub fn new(
        alloc: Global,
        script: Script,
        names: &Names,
        sides: Option<Vec<bool>>,
        zap: bool,
    ) -> Result<Moment, Failure>
        ensures first { IfOk result (λ m. m ≡ first_moment script (sides_of sides) zap) }
        ensures memory { IsMemory result }
    {
        match World::new(alloc, script, names, zap) {
            Ok(world) => Ok(Moment {
                alloc,
                world,
                printed: Vec::new(alloc),
                total: 0,
                waiting: Vec::new(alloc),
                taken: 0,
                sides,
                told: Vec::new(alloc),
            }),
            Err(_) => Err(Failure::NoMemory),
        }
    }
}
