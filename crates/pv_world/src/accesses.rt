// Accesses to bytes (6.2.6.1, 6.3.2.1p2, 6.5.16), and parts of structures and unions that are values (6.5.2.3p3).
//
// What an effective type permits (6.5p7) and whether an access has rivals (6.5p2) is known above: so the checks of memory,
// the value of what was reached and a store are calls of their own.
ghost use Rattle.std.specs.Prelude.{◌≡◌, ◌≤◌, ◌&&◌, All, length, OnOk, IfOk, IfErr};
ghost use Rattle.pv_inst.specs.declared.values.Test.{Test};
ghost use Rattle.pv_inst.specs.Table.{IsMadeIn};
ghost use Rattle.pv_inst.specs.Use.{use_answer, after_use};
ghost use Rattle.pv_shadow.specs.Bytes.{bytes_from};
ghost use Rattle.pv_object.specs.Reaching.{IsReach};
ghost use Rattle.pv_object.specs.Later.{IsLater};
ghost use Rattle.pv_world.specs.declared.got.Shape.{Shape};
ghost use Rattle.pv_world.specs.Worlds.{World as WorldView, with_table};
ghost use Rattle.pv_world.specs.Worths.{origin_of};
ghost use Rattle.pv_world.specs.Telling.{Told, telling, no_telling, blame_of};
ghost use Rattle.pv_world.specs.Doing.{Done};
ghost use Rattle.pv_world.specs.Objects.{put_at};
ghost use Rattle.pv_world.specs.Accesses.{reaching, worth_in, mark_of, stored_as, takes_bytes};
ghost use Rattle.pv_world.specs.AccessParts.{range_use};
ghost use Rattle.pv_world.specs.Preconditions.{HasSizeOf, HasPart, IsStored};
ghost use Rattle.pv_world.specs.Suiting.{where_suiting, has_part, knows_worth};
ghost use Rattle.pv_world.specs.Loads.{ReadsOn};
ghost use Rattle.pv_world.specs.Coming.{Came, coming_of, worth_of, IsMadeWorth, KeepsAllButMemory, GivesMade, DidAndTold, Tells};

use crate::failing::{Blame, blame_of, fail, stopped_after};
use crate::got::{Failure, Got, Shape};
use crate::loads::{blame_of_bytes, blame_since, blame_within};
use crate::operands::missing;
use crate::suiting::unfit;
use crate::telling::tell_used;
use crate::world::World;
use pv_num::IntKind;
use pv_object::{Asker, Pointer, Reach, Scalar};
use pv_shadow::{BLANK, Byte};
use pv_watch::{RANGE_TEST, What};

/// The address where a structure or union was read, if by an lvalue.
pub fn origin_of(v: &Got) -> Option<u64>
    ensures { result ≡ origin_of (worth_of v.now) }
{
    match v {
        Got::Whole(_, origin) => *origin,
        Got::Nothing | Got::Missing | Got::Scalar(_) => None,
    }
}

/// With what a store through a type of this number marks bytes (6.5p6).
pub fn mark_of(number: u32, shape: Shape) -> Option<u32>
    ensures { result ≡ mark_of number shape }
{
    match shape {
        Shape::Int(IntKind::Char | IntKind::SChar | IntKind::UChar) => None,
        Shape::Int(_) => Some(number),
        Shape::Pointer => Some(number),
        Shape::Whole => None,
    }
}

impl World {
    /// The candidates of a pointer as they stand now, and its pair: what a fault tells that blames it.
    pub fn blame(&self, p: Pointer) -> Blame
        requires { IsMadeIn self.now.memory.table p.prov }
        ensures { result ≡ blame_of self.now.memory p.prov }
    {
        blame_of(&self.memory, p.prov)
    }

    /// The checks of an access to `n` bytes (6.5.3.2p4, 6.2.4p2, 6.4.5p7, 6.7.3p6), with the use of the pointer for their
    /// range, which stays told where a later check ends the run.
    #[inline(always)]
    #[tactic(auto, using(crate::proofs::Reaching::reach_goes, crate::proofs::Reaching::reach_stops, crate::proofs::Reaching::reach_settled, crate::proofs::Used::told_next, crate::proofs::Used::fault_next, crate::proofs::Laters::later_itself))]
    pub fn reach(
        &mut self,
        p: Pointer,
        n: u64,
        align: u64,
        write: bool,
        told: &mut Vec<What>,
    ) -> Result<Reach, Failure>
        requires made { IsMadeIn self.old.memory.table p.prov }
        requires aligned { 1 ≤ align }
        ensures goes_on { IfOk result (λ at. (go : Reach → WorldView → Told → Done) → reaching p n align write self.old go ≡ go at self.new (telling (range_use self.old.memory.table p n))) }
        ensures told { OnOk result (Tells told.old told.new (range_use self.old.memory.table p n)) }
        ensures stops { IfErr result (λ e. (go : Reach → WorldView → Told → Done) → Came worth_of (Err e) self.new told.new.items (coming_of told.old.items self.old (reaching p n align write self.old go))) }
        ensures settled { OnOk result (self.new.memory.table ≡ after_use self.old.memory.table p.prov (use_answer self.old.memory.table p.prov (Test.Range p.address n))) }
        ensures world { OnOk result (self.new ≡ with_table self.old self.new.memory.table) }
        ensures within { IfOk result (λ at. IsReach self.new.memory.table at n) }
        ensures later { IsLater self.old.memory.table self.new.memory.table }
        ensures memory { KeepsAllButMemory self.old self.new }
    {
        let blame = blame_of(&self.memory, p.prov);
        match self.memory.reach(p, n, align, write, Asker::Access) {
            Ok(at) => match tell_used(told, RANGE_TEST, at.tried) {
                Ok(()) => Ok(at),
                Err(_) => Err(Failure::NoMemory),
            },
            Err(by) => Err(stopped_after(told, RANGE_TEST, by, blame)),
        }
    }

    /// What the `n` bytes at a place are worth that was reached through this pointer (6.2.6.1p5), whose candidates were the
    /// blamed ones before the access.
    #[tactic(auto, using(crate::proofs::LoadSteps::came_read, crate::proofs::Laters::later_itself))]
    pub fn value(
        &mut self,
        at: &Reach,
        n: u64,
        shape: Shape,
        p: Pointer,
        blame: Blame,
        told: &mut Vec<What>,
    ) -> Result<Got, Failure>
        requires reached { IsReach self.old.memory.table at.now n }
        requires size { HasSizeOf shape n }
        requires made { IsMadeIn self.old.memory.table p.prov }
        ensures did { ReadsOn self.old (bytes_from self.old.memory.bytes at.now.address n) shape at.now.address p blame result self.new told.old.items told.new.items }
        ensures later { IsLater self.old.memory.table self.new.memory.table }
        ensures memory { KeepsAllButMemory self.old self.new }
        ensures made { GivesMade self.new result }
    {
        if let Shape::Pointer = shape {
            return self.value_of_pointer(at, p, blame, told);
        }
        if n <= 8 {
            return self.value_of_few(at, n, shape, p, blame, told);
        }
        let bytes = match self.memory.read_bytes(at, n) {
            Ok(bytes) => bytes,
            Err(_) => return Err(Failure::NoMemory),
        };
        let loaded = blame_since(&self.memory, &bytes, p.prov, blame);
        self.valued(&bytes, shape, Some(at.address), Some(blame), loaded, told)
    }

    // The same of a pointer, for which memory is asked first: where it was stored whole, its bytes aren't looked at.
    #[tactic(auto, using(crate::proofs::Laters::later_itself))]
    fn value_of_pointer(
        &mut self,
        at: &Reach,
        p: Pointer,
        blame: Blame,
        told: &mut Vec<What>,
    ) -> Result<Got, Failure>
        requires reached { IsReach self.old.memory.table at.now 8 }
        requires made { IsMadeIn self.old.memory.table p.prov }
        ensures did { ReadsOn self.old (bytes_from self.old.memory.bytes at.now.address 8) Shape.Pointer at.now.address p blame result self.new told.old.items told.new.items }
        ensures later { IsLater self.old.memory.table self.new.memory.table }
        ensures memory { KeepsAllButMemory self.old self.new }
        ensures made { GivesMade self.new result }
    {
        let Some(whole) = self.memory.whole_pointer(at) else {
            return self.value_of_few(at, 8, Shape::Pointer, p, blame, told);
        };
        let loaded = blame_within(&self.memory, whole.prov, p.prov, blame);
        self.value_of_whole(whole, blame, loaded, told)
    }

    // The same of at most eight bytes, as a scalar has: they take no memory.
    #[inline(always)]
    #[tactic(auto, using(crate::proofs::LoadSteps::came_read, crate::proofs::Laters::later_itself))]
    fn value_of_few(
        &mut self,
        at: &Reach,
        n: u64,
        shape: Shape,
        p: Pointer,
        blame: Blame,
        told: &mut Vec<What>,
    ) -> Result<Got, Failure>
        requires few { n ≤ 8 }
        requires reached { IsReach self.old.memory.table at.now n }
        requires size { HasSizeOf shape n }
        requires made { IsMadeIn self.old.memory.table p.prov }
        ensures did { ReadsOn self.old (bytes_from self.old.memory.bytes at.now.address n) shape at.now.address p blame result self.new told.old.items told.new.items }
        ensures later { IsLater self.old.memory.table self.new.memory.table }
        ensures memory { KeepsAllButMemory self.old self.new }
        ensures made { GivesMade self.new result }
    {
        let mut room = [BLANK; 8];
        let bytes = &mut room[..n as usize];
        self.memory.read_into(at, bytes);
        let loaded = blame_since(&self.memory, bytes, p.prov, blame);
        self.valued(bytes, shape, Some(at.address), Some(blame), loaded, told)
    }

    /// A member of a structure or union value (6.5.2.3p3), which begins at the offset, or the end of the run as by a missing
    /// value.
    #[tactic(auto, using(crate::proofs::Guards::suited, crate::proofs::Guards::unsuited, crate::proofs::Laters::later_itself))]
    pub fn part(
        &mut self,
        offset: u64,
        size: u64,
        shape: Shape,
        v: &Got,
        told: &mut Vec<What>,
    ) -> Result<Got, Failure>
        requires size { HasSizeOf shape size }
        ensures did { DidAndTold worth_of (where_suiting (has_part (worth_of v.now) offset size && knows_worth self.old.memory.table (worth_of v.now))
            (takes_bytes offset size shape (worth_of v.now))) result self.old self.new told.old told.new }
        ensures later { IsLater self.old.memory.table self.new.memory.table }
        ensures memory { KeepsAllButMemory self.old self.new }
        ensures made { GivesMade self.new result }
    {
        if self.can_take(offset, size, v) {
            self.part_suiting(offset, size, shape, v, told)
        } else {
            Err(unfit(told))
        }
    }

    // The same of a value that has these bytes.
    #[tactic(auto, using(crate::proofs::Comings::came_fails, crate::proofs::Laters::later_itself))]
    fn part_suiting(
        &mut self,
        offset: u64,
        size: u64,
        shape: Shape,
        v: &Got,
        told: &mut Vec<What>,
    ) -> Result<Got, Failure>
        requires size { HasSizeOf shape size }
        requires within { HasPart (worth_of v.now) offset size }
        requires made { IsMadeWorth self.old.memory.table (worth_of v.now) }
        ensures did { DidAndTold worth_of (takes_bytes offset size shape (worth_of v.now)) result self.old self.new told.old told.new }
        ensures later { IsLater self.old.memory.table self.new.memory.table }
        ensures memory { KeepsAllButMemory self.old self.new }
        ensures made { GivesMade self.new result }
    {
        match v {
            Got::Missing => Err(fail(told, missing(), None)),
            Got::Whole(bytes, _) => {
                let part = &bytes[offset as usize..(offset + size) as usize];
                self.part_of(part, shape, told)
            }
            Got::Nothing => unreachable!(),
            Got::Scalar(_) => unreachable!(),
        }
    }

    // What a part's bytes are worth. No pointer was accessed.
    #[tactic(auto, using(crate::proofs::LoadSteps::came_part))]
    fn part_of(
        &mut self,
        bytes: &[Byte],
        shape: Shape,
        told: &mut Vec<What>,
    ) -> Result<Got, Failure>
        requires size { HasSizeOf shape (length bytes.now) }
        requires made { All (λ b. IsMadeIn self.old.memory.table b.prov) bytes.now }
        ensures did { DidAndTold worth_of (λ w. worth_in w bytes.now shape None None no_telling) result self.old self.new told.old told.new }
        ensures later { IsLater self.old.memory.table self.new.memory.table }
        ensures memory { KeepsAllButMemory self.old self.new }
        ensures made { GivesMade self.new result }
    {
        let loaded = blame_of_bytes(&self.memory, bytes);
        self.valued(bytes, shape, None, None, loaded, told)
    }

    /// A value is stored in the `n` bytes at a place that was reached (6.5.16p3), through a type of this number.
    pub fn store(&mut self, at: &Reach, n: u64, number: u32, shape: Shape, v: &Got)
        requires reached { IsReach self.old.memory.table at.now n }
        requires stored { IsStored shape n (worth_of v.now) }
        requires made { IsMadeWorth self.old.memory.table (worth_of v.now) }
        ensures { self.new ≡ put_at self.old at.now.address (stored_as number shape (worth_of v.now)) }
    {
        let mark = mark_of(number, shape);
        match v {
            Got::Scalar(v) => match shape {
                Shape::Int(k) => self.memory.store(at, Scalar::Int(k), v, mark),
                Shape::Pointer => self.memory.store(at, Scalar::Pointer, v, mark),
                Shape::Whole => unreachable!(),
            },
            Got::Whole(bytes, _) => match shape {
                Shape::Whole => self.memory.write_bytes(at, bytes),
                Shape::Int(_) | Shape::Pointer => unreachable!(),
            },
            Got::Nothing | Got::Missing => unreachable!(),
        }
    }
}
