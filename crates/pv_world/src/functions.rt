// The instances of functions that are pointed to (6.3.2.1p4), and the function that a pointer points to (6.5.2.2p1).
ghost use Rattle.std.specs.Prelude.{◌≡◌, ◌<◌, ◌≢◌, Some, ℕ, Bool, codes, length, OnOk, Option};
ghost use Rattle.pv_script.specs.Names.{name_at as text_of};
ghost use Rattle.pv_inst.specs.Answers.{IsLive};
ghost use Rattle.pv_object.specs.Later.{IsLater};
ghost use Rattle.pv_world.specs.Objects.{owning, makes_function, function_request, function_bound};
ghost use Rattle.pv_world.specs.Telling.{event_of_making};
ghost use Rattle.pv_world.specs.PointerParts.{unlike};
ghost use Rattle.pv_world.specs.Callees.{FoundAs, FoundBy};
ghost use Rattle.pv_inst.specs.Table.{IsMadeIn};
ghost use Rattle.pv_world.specs.Coming.{CameMade, coming_of, worth_of, wrong_for, IsMadeWorth, KeepsAllButMemory, Tells};

use crate::failing::{blame_of, fail, stopped};
use crate::got::{Cause, Failure, Got};
use crate::objects::own;
use crate::operands::{pointer_of, unplain};
use crate::telling::{tell_made, tell_used};
use crate::world::World;
use pv_fault::{Clause, Fault, Reason, Verdict};
use pv_inst::{CreateError, Kind};
use pv_object::Pointer;
use pv_prov::NoMemory;
use pv_script::Names;
use pv_watch::{CODE_TEST, What};

/// The function is not one of the type that is called (6.3.2.3p8).
pub fn unlike() -> Cause
    ensures { wrong_for result ≡ unlike }
{
    Cause::Ends(Verdict::Undefined(Fault {
        clause: Clause::PointerToFunction,
        reason: Reason::WrongType,
    }))
}

impl World {
    /// A function that is pointed to has an instance from here on, or why there is none.
    #[tactic(auto, using(crate::proofs::Makings::function_ok, crate::proofs::Makings::function_err))]
    pub fn make_function(
        &mut self,
        names: &Names,
        function: u32,
        name: u32,
        told: &mut Vec<What>,
    ) -> Result<(), CreateError>
        requires named { name < length names.now }
        requires heap { text_of names.now name ≢ codes "@heap" }
        ensures did { CameMade name result self.new told.new.items (coming_of told.old.items self.old (makes_function function (function_request name (text_of names.now name)) self.old)) }
    {
        match self.memory.create(names, name, 1, 1, Kind::Function) {
            Ok(i) => match self.function_begun(i, function, told) {
                Ok(()) => Ok(()),
                Err(NoMemory) => Err(CreateError::NoMemory),
            },
            Err(e) => Err(e),
        }
    }

    // The instance that was made is that of the function, and told of.
    fn function_begun(
        &mut self,
        i: u64,
        function: u32,
        told: &mut Vec<What>,
    ) -> Result<(), NoMemory>
        requires { IsLive self.old.memory.table.instances i }
        ensures world { OnOk result (self.new ≡ function_bound (owning self.old self.old.memory i (Some function)) function i) }
        ensures told { OnOk result (Tells told.old told.new (event_of_making self.old.memory.table i)) }
    {
        match own(&mut self.owners, i, Some(function)) {
            Ok(()) => {}
            Err(NoMemory) => return Err(NoMemory),
        }
        match self.functions.bind(function, i) {
            Ok(()) => tell_made(told, &self.memory, i),
            Err(NoMemory) => Err(NoMemory),
        }
    }

    /// The function that a value points to (6.5.2.2p1): the number of the function that its instance was made for. Whether it
    /// may be called so, the caller finds out; where it may not, the run ends by `unlike`, with the candidates that the
    /// pointer had before. The caller has looked whether the name in the value was made, since it asks for these before.
    #[tactic(auto, using(crate::proofs::Comings::came_fails, crate::proofs::Laters::later_itself))]
    pub fn callee(&mut self, v: &Got, told: &mut Vec<What>) -> Result<Option<u32>, Failure>
        requires { IsMadeWorth self.old.memory.table (worth_of v.now) }
        ensures found { (fits : Option ℕ → Bool) → FoundAs fits (worth_of v.now) result self.old self.new told.old.items told.new.items }
        ensures later { IsLater self.old.memory.table self.new.memory.table }
        ensures memory { KeepsAllButMemory self.old self.new }
    {
        match unplain(v) {
            Some(cause) => Err(fail(told, cause, None)),
            None => self.callee_at(pointer_of(v), told),
        }
    }

    // The function that a pointer points to.
    #[tactic(auto, using(crate::proofs::Comings::came_fails, crate::proofs::Laters::later_itself))]
    fn callee_at(&mut self, p: Pointer, told: &mut Vec<What>) -> Result<Option<u32>, Failure>
        requires { IsMadeIn self.old.memory.table p.prov }
        ensures found { (fits : Option ℕ → Bool) → FoundBy fits p result self.old self.new told.old.items told.new.items }
        ensures later { IsLater self.old.memory.table self.new.memory.table }
        ensures memory { KeepsAllButMemory self.old self.new }
    {
        let blame = blame_of(&self.memory, p.prov);
        match self.memory.code(p) {
            Ok((i, tried)) => match tell_used(told, CODE_TEST, tried) {
                Ok(()) => Ok(self.owner(i)),
                Err(_) => Err(Failure::NoMemory),
            },
            Err(stop) => Err(stopped(told, stop, Some(blame))),
        }
    }
}
