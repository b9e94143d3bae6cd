// The world: its memory, and which instance each object and literal has.
ghost use Rattle.std.specs.Prelude.{◌≡◌, [], length, IfOk, OnOk, slice_get};
ghost use Rattle.std.specs.Option.{option_map, option_and_then};
ghost use Rattle.std.specs.Borrow.{Lends, sem};
ghost use Rattle.std.specs.FinMap as map;
ghost use Rattle.pv_object.specs.Memory.{empty_memory};
ghost use Rattle.pv_object.specs.contracts.memory.Memory.{the_row as memory_row};
ghost use Rattle.pv_world.specs.contracts.world.World.{the_row};
ghost use Rattle.pv_world.specs.Objects.{bound_to, bind, begun_body, owner_of};
ghost use Rattle.pv_world.specs.ObjectParts.{without_first, call_of, binding_in};

use crate::bodies;
use crate::bodies::{Body, Call};
use crate::bound::Bound;
use pv_object::Memory;
use pv_prov::NoMemory;
use pv_script::{Names, Script};
use std::alloc::Global;
use std::collections::VecDeque;
use std::marker::Model;

/// What operations see and change: the memory, the object or function that each instance was made for, and the instances
/// of the static objects, of the literals, of the functions, and of the automatic objects of each body begun.
#[derive(Drop)]
pub struct World {
    pub(crate) alloc: Global,
    pub(crate) memory: Memory,
    pub(crate) owners: Vec<Option<u32>>,
    pub(crate) statics: Bound,
    pub(crate) literals: Bound,
    pub(crate) functions: Bound,
    pub(crate) bodies: VecDeque<Body>,
}

impl Model for World {
    ghost use Rattle.std.specs.Coded.{codes};
    ghost use Rattle.pv_inst.specs.CountsCode.{counts_code};
    ghost use Rattle.pv_object.specs.Codes.{store_code};
    ghost use Rattle.pv_world.specs.Worlds.{World as WorldView};

    ghost Value = { WorldView };

    ghost coded = { Prim.hlevel (codes, counts_code, store_code) };

    ghost view = { λ w. record { memory = w.memory; owners = w.owners.items; statics = w.statics; literals = w.literals; functions = w.functions; bodies = w.bodies.items } };
}

impl World {
    /// No instance yet, and no body.
    pub fn new(alloc: Global, script: Script, names: &Names, zap: bool) -> Result<Self, NoMemory>
        ensures { IfOk result (λ w. w ≡ record { memory = empty_memory script zap; owners = []; statics = map.empty; literals = map.empty; functions = map.empty; bodies = [] }) }
    {
        let memory = match Memory::new(alloc, script, names, zap) {
            Ok(memory) => memory,
            Err(NoMemory) => return Err(NoMemory),
        };
        Ok(World {
            alloc,
            memory,
            owners: Vec::new(alloc),
            statics: Bound::new(alloc),
            literals: Bound::new(alloc),
            functions: Bound::new(alloc),
            bodies: VecDeque::new(alloc),
        })
    }

    /// The memory, for reading.
    pub fn memory(&self) -> &Memory
        ensures { result.now ≡ self.now.memory }
    {
        &self.memory
    }

    /// The memory, for calls of the library.
    pub fn memory_mut(&mut self) -> &mut Memory
        ensures* writes_back { sem 𝓛 (Lends the_row memory_row self.entry result (λ m. record self.old { memory = m })) }
        ensures value { result.now ≡ self.old.memory }
    {
        &mut self.memory
    }

    /// How many pairs were made.
    pub fn pairs_made(&self) -> u64
        ensures { result ≡ length self.now.memory.table.pairs }
    {
        self.memory.instances().pairs_made()
    }

    /// The instance of an object in scope (6.2.1, 6.2.4), of a static one, or an automatic one of the innermost body.
    #[inline(always)]
    pub fn bound_to(&self, object: u32, lasting: bool) -> Option<u64>
        ensures { result ≡ bound_to self.now object lasting }
    {
        if lasting {
            self.statics.get(object)
        } else {
            bodies::get(&self.bodies, object)
        }
    }

    /// The object that an instance was made for.
    pub fn owner(&self, i: u64) -> Option<u32>
        ensures { result ≡ owner_of self.now i }
    {
        if i == 0 {
            return None;
        }
        match self.owners.get((i - 1) as usize) {
            Some(owner) => *owner,
            None => None,
        }
    }

    // The object has this instance from here on.
    pub(crate) fn bind(&mut self, object: u32, lasting: bool, i: u64) -> Result<(), NoMemory>
        ensures { OnOk result (self.new ≡ bind self.old object lasting i) }
    {
        if lasting {
            self.statics.bind(object, i)
        } else {
            bodies::bind(&mut self.bodies, object, i)
        }
    }

    /// A body begins, with no objects of its own (6.9.1): of the function with this name, for the call in this line.
    pub fn begin_body(&mut self, function: u32, line: u32) -> Result<(), NoMemory>
        ensures { OnOk result (self.new ≡ begun_body self.old function line) }
    {
        bodies::begin(self.alloc, &mut self.bodies, function, line)
    }

    /// How many bodies were begun and have not ended.
    pub fn depth(&self) -> usize
        ensures { result ≡ length self.now.bodies }
    {
        self.bodies.len()
    }

    /// The call of a body, counted from the innermost, which is number 0.
    pub fn call(&self, k: usize) -> Option<Call>
        ensures { result ≡ option_map call_of (slice_get self.now.bodies k) }
    {
        bodies::call_at(&self.bodies, k)
    }

    /// The instance of an automatic object of a body, counted from the innermost, which is number 0.
    pub fn bound_at(&self, k: usize, object: u32) -> Option<u64>
        ensures { result ≡ option_and_then (binding_in object) (slice_get self.now.bodies k) }
    {
        bodies::get_at(&self.bodies, k, object)
    }

    /// The innermost body ends.
    pub fn end_body(&mut self)
        ensures { self.new ≡ record self.old { bodies = without_first self.old.bodies } }
    {
        bodies::end(&mut self.bodies);
    }
}
