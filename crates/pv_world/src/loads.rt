// What bytes are worth (6.2.6.1p5), with what is told of it, and whom a stop blames.
ghost use Rattle.std.specs.Prelude.{◌≡◌, ◌≤◌, ◌+◌, ◌++◌, All, length, drop, Result, Some, OnOk};
ghost use Rattle.std.specs.Option.{option_map};
ghost use Rattle.pv_inst.specs.declared.values.Tried.{Tried};
ghost use Rattle.pv_inst.specs.declared.values.Miss.{Miss};
ghost use Rattle.pv_inst.specs.Table.{IsMadeIn};
ghost use Rattle.pv_inst.specs.Use.{after_use};
ghost use Rattle.pv_shadow.specs.Whole.{whole_name};
ghost use Rattle.pv_object.specs.Memory.{Mem};
ghost use Rattle.pv_object.specs.Later.{IsLater};
ghost use Rattle.pv_object.specs.Encoding.{size_of};
ghost use Rattle.pv_object.specs.Loading.{value_of as load_of, loaded_test};
ghost use Rattle.pv_world.specs.declared.got.Shape.{Shape};
ghost use Rattle.pv_world.specs.Worlds.{with_table};
ghost use Rattle.pv_world.specs.Telling.{event_of_use, live_test, exposures, all_told, each_paired, blame_of};
ghost use Rattle.pv_world.specs.Preconditions.{HasSizeOf};
ghost use Rattle.pv_world.specs.Loads.{stop_blame, loaded_seen, valued_seen};
ghost use Rattle.pv_world.specs.Coming.{Came, worth_of, KeepsAllButMemory, GivesMade, Tells};

use crate::failing::{Blame, blame_of, stopped};
use crate::got::{Failure, Got, Shape};
use crate::telling::{tell_pairs, tell_used};
use crate::world::World;
use pv_fault::Verdict;
use pv_inst::Tried;
use pv_object::{Memory, Pointer, Scalar, Stop};
use pv_prov::{NoMemory, Prov, same_name};
use pv_shadow::{Byte, whole_name};
use pv_watch::{LIVE_TEST, What};

/// Whom a load of these bytes blames by its live test.
pub(crate) fn blame_of_bytes(memory: &Memory, bytes: &[Byte]) -> Option<Blame>
    requires { All (λ b. IsMadeIn memory.now.table b.prov) bytes.now }
    ensures { result ≡ option_map (blame_of memory.now) (whole_name bytes.now) }
{
    match whole_name(bytes) {
        Some(p) => Some(blame_of(memory, p)),
        None => None,
    }
}

/// Whom a load of a pointer of the name `q` blames by its live test, within an access through a name that stood for the
/// blamed candidates until then: a name that is not that one stands for what it stood for.
pub(crate) fn blame_within(memory: &Memory, q: Prov, p: Prov, blame: Blame) -> Blame
    requires loaded { IsMadeIn memory.now.table q }
    requires used { IsMadeIn memory.now.table p }
    ensures { (M : Mem) (t : Result Tried Miss) → memory.now.table ≡ after_use M.table p t → blame ≡ blame_of M p → result ≡ blame_of M q }
{
    if same_name(q, p) {
        return blame;
    }
    blame_of(memory, q)
}

/// The same of bytes, where they are those of a pointer that was stored whole.
pub(crate) fn blame_since(memory: &Memory, bytes: &[Byte], p: Prov, blame: Blame) -> Option<Blame>
    requires made { All (λ b. IsMadeIn memory.now.table b.prov) bytes.now }
    requires used { IsMadeIn memory.now.table p }
    ensures { (M : Mem) (t : Result Tried Miss) → memory.now.table ≡ after_use M.table p t → blame ≡ blame_of M p → result ≡ option_map (blame_of M) (whole_name bytes.now) }
{
    let Some(q) = whole_name(bytes) else {
        return None;
    };
    Some(blame_within(memory, q, p, blame))
}

/// Whom a stop of a load blames.
fn stop_blame(
    shape: Shape,
    stop: Stop,
    accessed: Option<Blame>,
    loaded: Option<Blame>,
) -> Option<Blame>
    ensures { result ≡ stop_blame shape stop accessed loaded }
{
    match shape {
        Shape::Pointer => match stop {
            Stop::Ends(Verdict::Undefined(_)) => loaded,
            Stop::Ends(Verdict::Indeterminate) | Stop::Ends(Verdict::Undecided) | Stop::NoMemory =>
                accessed,
        },
        Shape::Int(_) | Shape::Whole => accessed,
    }
}

impl World {
    // What a load did: a new pair, the live test of the loaded pointer, and exposures.
    #[tactic(auto, using(crate::proofs::Laters::later_itself))]
    fn tell_load(&mut self, told: &mut Vec<What>, before: u64, tried: Tried) -> Result<(), NoMemory>
        requires { before ≤ length self.old.memory.table.pairs }
        ensures told { OnOk result (Tells told.old told.new (each_paired self.old.memory.table (before + 1) (drop before self.old.memory.table.pairs) ++ event_of_use live_test tried ++ exposures self.old.memory.table)) }
        ensures state { OnOk result (self.new ≡ with_table self.old (all_told self.old.memory.table)) }
        ensures later { IsLater self.old.memory.table self.new.memory.table }
        ensures memory { KeepsAllButMemory self.old self.new }
    {
        let Ok(()) = tell_pairs(told, &self.memory, before) else {
            return Err(NoMemory);
        };
        let Ok(()) = tell_used(told, LIVE_TEST, tried) else {
            return Err(NoMemory);
        };
        self.tell_exposures(told)
    }

    // What bytes are worth at the scalar type of a shape.
    #[inline(always)]
    #[tactic(auto, using(crate::proofs::LoadSteps::load_ok, crate::proofs::LoadSteps::load_err, crate::proofs::Laters::later_itself, crate::proofs::Laters::later_both, crate::proofs::Laters::made_later))]
    fn scalar_in(
        &mut self,
        bytes: &[Byte],
        shape: Shape,
        t: Scalar,
        accessed: Option<Blame>,
        loaded: Option<Blame>,
        told: &mut Vec<What>,
    ) -> Result<Got, Failure>
        requires size { length bytes.now ≡ size_of t }
        requires made { All (λ b. IsMadeIn self.old.memory.table b.prov) bytes.now }
        ensures did { Came worth_of result self.new told.new.items (loaded_seen told.old.items self.old shape accessed loaded (load_of self.old.memory.table bytes.now t)) }
        ensures later { IsLater self.old.memory.table self.new.memory.table }
        ensures memory { KeepsAllButMemory self.old self.new }
        ensures made { GivesMade self.new result }
    {
        let before = self.memory.instances().pairs_made();
        match self.memory.value_of(bytes, t) {
            Ok((v, tried)) => match self.tell_load(told, before, tried) {
                Ok(()) => Ok(Got::Scalar(v)),
                Err(_) => Err(Failure::NoMemory),
            },
            Err(stop) => {
                let blame = stop_blame(shape, stop, accessed, loaded);
                Err(stopped(told, stop, blame))
            }
        }
    }

    // What a pointer that was stored whole is worth: its live test decides.
    #[inline(always)]
    #[tactic(auto, using(crate::proofs::LoadSteps::whole_ok, crate::proofs::LoadSteps::whole_err, crate::proofs::Laters::later_itself, crate::proofs::Laters::later_both, crate::proofs::Laters::made_later))]
    pub(crate) fn value_of_whole(
        &mut self,
        q: Pointer,
        accessed: Blame,
        loaded: Blame,
        told: &mut Vec<What>,
    ) -> Result<Got, Failure>
        requires { IsMadeIn self.old.memory.table q.prov }
        ensures did { Came worth_of result self.new told.new.items (loaded_seen told.old.items self.old Shape.Pointer (Some accessed) (Some loaded) (loaded_test self.old.memory.table q)) }
        ensures later { IsLater self.old.memory.table self.new.memory.table }
        ensures memory { KeepsAllButMemory self.old self.new }
        ensures made { GivesMade self.new result }
    {
        let before = self.memory.instances().pairs_made();
        match self.memory.tested(q) {
            Ok((v, tried)) => match self.tell_load(told, before, tried) {
                Ok(()) => Ok(Got::Scalar(v)),
                Err(_) => Err(Failure::NoMemory),
            },
            Err(stop) => {
                let blame = stop_blame(Shape::Pointer, stop, Some(accessed), Some(loaded));
                Err(stopped(told, stop, blame))
            }
        }
    }

    // What bytes are worth in this shape.
    #[inline(always)]
    #[tactic(auto, using(crate::proofs::Laters::later_itself))]
    pub(crate) fn valued(
        &mut self,
        bytes: &[Byte],
        shape: Shape,
        origin: Option<u64>,
        accessed: Option<Blame>,
        loaded: Option<Blame>,
        told: &mut Vec<What>,
    ) -> Result<Got, Failure>
        requires size { HasSizeOf shape (length bytes.now) }
        requires made { All (λ b. IsMadeIn self.old.memory.table b.prov) bytes.now }
        ensures did { Came worth_of result self.new told.new.items (valued_seen told.old.items self.old bytes.now shape origin accessed loaded) }
        ensures later { IsLater self.old.memory.table self.new.memory.table }
        ensures memory { KeepsAllButMemory self.old self.new }
        ensures made { GivesMade self.new result }
    {
        match shape {
            Shape::Int(k) => self.scalar_in(bytes, shape, Scalar::Int(k), accessed, loaded, told),
            Shape::Pointer => self.scalar_in(bytes, shape, Scalar::Pointer, accessed, loaded, told),
            Shape::Whole => match Vec::from_slice(self.alloc, bytes) {
                Ok(copy) => Ok(Got::Whole(copy, origin)),
                Err(_) => Err(Failure::NoMemory),
            },
        }
    }
}
